//! A session by deltas for which memory is refused ends for that, or brings the rows that are missing. Under `tests/refusals` each request for memory of
//! the test is refused.
use crate::playing::{Session, Step, answer};
use crate::rows::{Random, Rows};
use merkle_search_tree::builder::Builder;
use merkle_wire::{AnswerError, SessionError};
use std::alloc::{AllocError, Global};

/// How many rows the peer has.
const ROWS: u64 = 100;

/// How many rows differ: every 40th.
const DIFFERING: usize = 2;

/// A replica of random keys, whose value at every 40th is another than 9.
fn replica(alloc: Global, value: u64) -> Result<Rows, AllocError> {
    let mut random = Random::new(7);
    let mut rows = Rows::new(alloc, Builder::default());
    for row in 1..ROWS {
        let number = random.next();
        let key = format!(in alloc; "k{number:016x}")?;
        rows.put(key, if row % 40 == 0 { value } else { 9 })?;
    }
    Ok(rows)
}

/// Whether a session ends when out of memory, or brings as many rows as differ.
fn brings_or_wants_memory(alloc: Global) -> Result<bool, AllocError> {
    let mut local = replica(alloc, 1)?;
    let mut peer = replica(alloc, 2)?;
    let (mut session, mut message) = Session::begin(alloc, &local)?;
    for _message in 0..20 {
        let reply = match answer(alloc, &mut peer, &message) {
            Ok(reply) => reply,
            Err(error) => return Ok(error == AnswerError::Memory),
        };
        match session.hear(alloc, &mut local, reply) {
            Ok(Step::Came(rows)) => return Ok(rows.len() == DIFFERING),
            Err(error) => return Ok(error == SessionError::Memory),
            Ok(Step::Ask(next, question)) => {
                session = next;
                message = question;
            }
        }
    }
    Ok(false)
}

#[test]
fn a_session_brings_rows_or_wants_memory(rt: HostRuntime) {
    assert!(rt; brings_or_wants_memory(rt.alloc()) != Ok(false));
}

#[test]
fn a_session_brings_rows_where_memory_is_at_hand(rt: HostRuntime) {
    assert!(rt; brings_or_wants_memory(rt.alloc()) == Ok(true));
}
