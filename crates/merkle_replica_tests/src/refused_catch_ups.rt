//! Catch-ups between maps of about 300 rows that run out of memory: the rows are as before, or the first of the rows that were
//! lacked are joined. Under `tests/refusals` each request for memory of the test is refused.

use merkle_digest::SipHasher;
use merkle_replica::{CatchUpError, CaughtUp, Replica};
use merkle_search_tree::builder::Builder;
use std::alloc::{AllocError, Global};
use test_maps::Side;

/// A map of texts, whose copies take memory.
type Texts = Replica<String, u64, SipHasher, 16>;

/// How many keys there are: the numbers below it in three digits.
const KEYS: usize = 360;

/// How many of their 308 rows our 288 lack: of the 144 numbers that end with 1, 3, 4 or 6 those that 7 doesn't divide.
const LACKED: usize = 124;

/// How many of the rows that were missing a catch-up says that it joined; none where it says it wrongly.
fn count_of(answer: Result<CaughtUp, CatchUpError>) -> Option<usize> {
    match answer {
        Ok(caught) => if caught.joined == LACKED {
            Some(LACKED)
        } else {
            None
        },
        Err(CatchUpError::Memory) => Some(0),
        Err(CatchUpError::Partly { done, lacked }) => {
            if lacked == LACKED && 0 < done && done < LACKED {
                Some(done)
            } else {
                None
            }
        }
    }
}

/// Puts a row.
fn put(alloc: Global, map: &mut Texts, number: usize, value: u64) -> Result<(), AllocError> {
    map.put(format!(in alloc; "{number:03}")?, value)
}

/// A catch-up.
fn catch_up(local: &mut Texts, peer: &mut Texts) -> Result<CaughtUp, CatchUpError> {
    local.catch_up(peer)
}

/// The map of a side.
fn map_of(alloc: Global, side: Side) -> Result<Texts, AllocError> {
    let mut map = Texts::new(alloc, Builder::default());
    for number in 0..KEYS {
        let value = side.value(number);
        if value > 0 {
            put(alloc, &mut map, number, value)?;
        }
    }
    Ok(map)
}

/// Whether a catch-up leaves our rows joined with as many of the rows that are missing as it says, the first ones.
fn joins_the_first(alloc: Global) -> Result<bool, AllocError> {
    let mut local = map_of(alloc, Side::Ours)?;
    let mut peer = map_of(alloc, Side::Theirs)?;
    let count = count_of(catch_up(&mut local, &mut peer));
    Ok(
        Side::Theirs.has(peer.rows(), KEYS, 0)
            && count.is_some_and(|count| Side::Ours.has(local.rows(), KEYS, count)),
    )
}

#[test]
fn a_refused_catch_up_has_joined_the_first_rows(rt: HostRuntime) {
    assert!(rt; joins_the_first(rt.alloc()) != Ok(false));
}
