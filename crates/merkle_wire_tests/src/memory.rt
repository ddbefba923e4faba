//! A catch-up by messages that runs out of memory: the rows are as before, or the first of the rows that were missing are joined. Under
//! `tests/refusals` each request for memory of the test is refused.

use crate::playing::Rows;
use merkle_search_tree::builder::Builder;
use merkle_wire::{AnswerError, MessagesError, SessionError, catch_up_by_messages};
use std::alloc::{AllocError, Global};
use test_maps::Side;

/// A map of texts, whose copies take memory.
type Texts = Rows<String, u64>;

/// How many keys there are: the numbers below it in two digits.
const KEYS: usize = 60;

/// How many of their 51 rows our 48 lack: of the 24 numbers that end with 1, 3, 4 or 6 those that 7 doesn't divide.
const LACKED: usize = 21;

/// The map of a side.
fn map_of(alloc: Global, side: Side) -> Result<Texts, AllocError> {
    let mut map = Texts::new(alloc, Builder::default());
    for number in 0..KEYS {
        let value = side.value(number);
        if value > 0 {
            map.put(format!(in alloc; "{number:02}")?, value)?;
        }
    }
    Ok(map)
}

/// How many of the rows that were missing a catch-up says that it joined; none where it says it wrongly, or refuses more than memory.
fn count_of(answer: Result<usize, MessagesError>) -> Option<usize> {
    match answer {
        Ok(LACKED) => Some(LACKED),
        Err(MessagesError::Answer(AnswerError::Memory)) => Some(0),
        Err(MessagesError::Session(SessionError::Memory)) => Some(0),
        Err(MessagesError::Join(done)) if done < LACKED => Some(done),
        _ => None,
    }
}

/// Whether a catch-up leaves our rows joined with as many of the rows that are missing as it says, the first ones.
fn joins_the_first(alloc: Global) -> Result<bool, AllocError> {
    let mut local = map_of(alloc, Side::Ours)?;
    let mut peer = map_of(alloc, Side::Theirs)?;
    let count = count_of(catch_up_by_messages(alloc, &mut local, &mut peer));
    Ok(
        Side::Theirs.has(peer.rows(), KEYS, 0)
            && count.is_some_and(|count| Side::Ours.has(local.rows(), KEYS, count)),
    )
}

#[test]
fn a_refused_session_has_joined_the_first_rows(rt: HostRuntime) {
    assert!(rt; joins_the_first(rt.alloc()) != Ok(false));
}
