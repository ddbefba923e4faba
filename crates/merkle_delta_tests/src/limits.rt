//! Sessions that end at a limit.
use crate::playing::{Session, Step, answer};
use crate::rows::{Rows, Way, keys, replica};
use merkle_wire::{Limit, Limits, SessionError};
use std::alloc::Global;
use std::test::Fail;

/// How many rows a session brings under these limits, or the limit at which it ends.
fn session_within(
    alloc: Global,
    local: &mut Rows,
    peer: &mut Rows,
    limits: Limits,
) -> Result<Result<usize, Limit>, Fail> {
    let (session, mut message) = Session::begin(alloc, local)?;
    let mut session = session.within(limits);
    for _ in 0..100 {
        let reply = answer(alloc, peer, &message)?;
        match session.hear(alloc, local, reply) {
            Ok(Step::Ask(next, question)) => {
                session = next;
                message = question;
            }
            Ok(Step::Came(rows)) => return Ok(Ok(rows.len())),
            Err(SessionError::Limit(limit)) => return Ok(Err(limit)),
            Err(_) => return Err(Fail::new("another error")),
        }
    }
    Err(Fail::new("no end"))
}

/// Limits of replies and of rows, and how a session ends whose peer has three rows with other values.
const LIMITS: [(Option<u64>, Option<u64>, Result<usize, Limit>); 4] = [
    (None, None, Ok(3)),
    (None, Some(3), Ok(3)),
    (None, Some(2), Err(Limit::Rows)),
    (Some(1), None, Err(Limit::Replies)),
];

#[test]
fn a_session_ends_at_its_limits(rt: HostRuntime) -> Result<(), Fail> {
    let keys = keys(rt.alloc(), 300)?;
    let mut local = replica(rt.alloc(), &keys, 100, Way::Changed)?;
    let mut peer = replica(rt.alloc(), &keys, 0, Way::Changed)?;
    for (replies, rows, ended) in LIMITS {
        let limits = Limits {
            replies,
            rows,
            bytes: None,
        };
        assert!(rt; session_within(rt.alloc(), &mut local, &mut peer, limits)? == ended);
    }
    Ok(())
}
