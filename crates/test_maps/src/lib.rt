//! What tests of catch-ups that run out of memory share: two maps from numbers to values, each of which lacks some rows of the other.
#![tactic(auto)]

/// A side with its map.
#[derive(Clone, Copy)]
pub enum Side {
    /// No number that ends with 1 or 6 is there, and those that end with 3 and 4 have other values than at the other side.
    Ours,
    /// No number that 7 divides is there.
    Theirs,
}

impl Side {
    /// The value at a number; 0 where the row is missing.
    pub fn value(self, number: usize) -> u64 {
        match self {
            Side::Ours => match number % 10 {
                1 | 6 => 0,
                3 => 1,
                4 => 3,
                _ => 2,
            },
            Side::Theirs => if number % 7 == 0 { 0 } else { 2 },
        }
    }

    fn other(self) -> Self {
        match self {
            Side::Ours => Side::Theirs,
            Side::Theirs => Side::Ours,
        }
    }

    /// The value at a number, joined with that of the other side if it lacks that and `left` isn't 0, from which 1 is then taken.
    fn joined(self, number: usize, left: &mut usize) -> u64 {
        let (value, other) = (self.value(number), self.other().value(number));
        if other == 0 || other == value || *left == 0 {
            return value;
        }
        *left = (*left).saturating_sub(1);
        value.max(other)
    }

    /// Whether the rows are those of its map with the numbers below `bound`, joined with this many of the other's that it lacks, the first ones.
    pub fn has(self, rows: &[(String, u64)], bound: usize, joined: usize) -> bool {
        let mut left = joined;
        let mut at = 0usize;
        for number in 0..bound {
            let value = self.joined(number, &mut left);
            if value > 0 {
                if !is_row(rows.get(at), number, value) {
                    return false;
                }
                at = at.saturating_add(1);
            }
        }
        at == rows.len()
    }
}

/// Whether a row is that of a number and a value.
fn is_row(row: Option<&(String, u64)>, number: usize, value: u64) -> bool {
    match row {
        Some(row) => row.0.as_str().parse::<usize>() == Ok(number) && row.1 == value,
        None => false,
    }
}
