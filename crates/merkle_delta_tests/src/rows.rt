//! Replicas with keys that share little: texts of 17 bytes, a letter and the 16 hex digits of a random number.
use merkle_digest::SipHasher;
use merkle_replica::Replica;
use merkle_search_tree::builder::Builder;
use std::alloc::{AllocError, Global};
use std::test::Fail;

/// A replica of the default settings.
pub(crate) type Rows = Replica<String, u64, SipHasher, 16>;

/// A generator of numbers: xorshift64 (Marsaglia, "Xorshift RNGs").
#[derive(Clone, Copy)]
pub(crate) struct Random {
    state: u64,
}

impl Random {
    /// A generator from this state on.
    pub(crate) fn new(state: u64) -> Self {
        Random { state }
    }

    /// The next number.
    pub(crate) fn next(&mut self) -> u64 {
        self.state ^= self.state << 13;
        self.state ^= self.state >> 7;
        self.state ^= self.state << 17;
        self.state
    }

    /// The next number below a bound; 0 where the bound is 0.
    pub(crate) fn below(&mut self, bound: u64) -> u64 {
        (self.next() >> 11).checked_rem(bound).unwrap_or(0)
    }
}

/// What differs at a row.
#[derive(Clone, Copy, Debug, PartialEq, Eq)]
pub(crate) enum Way {
    /// The value.
    Changed,
    /// The row is missing.
    Missing,
}

/// This many keys in ascending order.
pub(crate) fn keys(alloc: Global, count: u64) -> Result<Vec<String>, AllocError> {
    let mut random = Random::new(88_172_645_463_325_252);
    let mut keys = Vec::new(alloc);
    for _key in 0..count {
        let number = random.next();
        keys.push(format!(in alloc; "k{number:016x}")?)?;
    }
    keys.sort()?;
    Ok(keys)
}

/// The replica of these keys with the value 2, but for every key whose place `step` divides, counted from 1: there the value is 1, or the row is
/// missing. With the step 0 no row differs.
pub(crate) fn replica(alloc: Global, keys: &[String], step: usize, way: Way) -> Result<Rows, Fail> {
    let mut rows = Vec::new(alloc);
    for (place, key) in keys.iter().enumerate() {
        let differs = place.saturating_add(1).checked_rem(step) == Some(0);
        if !differs {
            rows.push((key.clone()?, 2))?;
        } else if way == Way::Changed {
            rows.push((key.clone()?, 1))?;
        }
    }
    match Replica::from_rows(alloc, Builder::default(), rows) {
        Ok(replica) => Ok(replica),
        Err(_) => Err(Fail::new("rows")),
    }
}
