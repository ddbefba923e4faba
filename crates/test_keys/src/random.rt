//! Numbers at random, the same in each run.

/// A generator of numbers, which it takes from the highest bits of a product sum.
#[derive(Clone, Copy)]
pub struct Random {
    state: u64,
}

impl Random {
    /// The generator from a state on, which may be any number.
    pub fn new(state: u64) -> Self {
        Random { state }
    }

    /// The next number below a bound; 0 where the bound is 0.
    pub fn below(&mut self, bound: u64) -> u64 {
        self.state = self
            .state
            .wrapping_mul(6_364_136_223_846_793_005)
            .wrapping_add(1_442_695_040_888_963_407);
        (self.state >> 33).checked_rem(bound).unwrap_or(0)
    }

    /// The next numbers below a bound, as many as there is room for.
    pub fn fill(&mut self, bound: u64, numbers: &mut [u64]) {
        for number in numbers {
            *number = self.below(bound);
        }
    }

    /// Takes one of the choices for each place; 0 where there are none.
    pub fn choose(&mut self, choices: &[u8], places: &mut [u8]) {
        for place in places {
            let choice = self.below(choices.len() as u64);
            *place = choices.get(choice as usize).copied().unwrap_or(0);
        }
    }
}
