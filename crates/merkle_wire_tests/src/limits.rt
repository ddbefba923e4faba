//! Limits on what a catch-up takes of its peer.
use crate::sessions::{Numbers, numbers};
use merkle_wire::{CatchingUp, Limit, Limits, Next, SessionError, answer_within};
use std::alloc::Global;
use std::test::Fail;

/// How a session ends: with this many rows, or not; and how many bytes had come by then in how many replies.
#[derive(Drop)]
struct Ended {
    replies: u64,
    bytes: u64,
    rows: Result<usize, SessionError>,
}

/// A session of a replica without rows, within limits, whose peer tells one row a reply.
fn session_within(
    alloc: Global,
    peer: &mut Numbers<[u8; 8]>,
    limits: Limits,
) -> Result<Ended, Fail> {
    let mut local = numbers::<[u8; 8]>(alloc, 0, 1, 1)?;
    let (session, message) = CatchingUp::begin(alloc, &local)?;
    let session = session.within(limits);
    let (mut session, mut message) = (session, message);
    let (mut replies, mut bytes) = (0_u64, 0_u64);
    for _ in 0..1000 {
        let reply = answer_within(alloc, peer, &message, 1)?;
        replies = replies.saturating_add(1);
        bytes = bytes.saturating_add(reply.len() as u64);
        let rows = match session.take(&mut local, &reply) {
            Ok(Next::Ask(next, question)) => {
                session = next;
                message = question;
                continue;
            }
            Ok(Next::Came(rows)) => Ok(rows.len()),
            Err(error) => Err(error),
        };
        return Ok(Ended {
            replies,
            bytes,
            rows,
        });
    }
    Err(Fail::new("the session has no end"))
}

/// Without limits 40 rows come in 41 replies: the first one tells the root.
const REPLIES: u64 = 41;

/// Limits of replies and of rows, and at which reply the session ends how.
const LIMITS: [(Option<u64>, Option<u64>, u64, Result<usize, Limit>); 7] = [
    (None, None, REPLIES, Ok(40)),
    (Some(REPLIES), Some(40), REPLIES, Ok(40)),
    (Some(40), None, REPLIES, Err(Limit::Replies)),
    (Some(1), Some(40), 2, Err(Limit::Replies)),
    (Some(0), None, 1, Err(Limit::Replies)),
    (None, Some(39), REPLIES, Err(Limit::Rows)),
    (None, Some(0), 2, Err(Limit::Rows)),
];

#[test]
fn replies_and_rows_stay_within_limits(rt: HostRuntime) -> Result<(), Fail> {
    let mut peer = numbers::<[u8; 8]>(rt.alloc(), 40, 1, 1)?;
    for (replies, rows, ends_at, end) in LIMITS {
        let limits = Limits {
            replies,
            rows,
            bytes: None,
        };
        let ended = session_within(rt.alloc(), &mut peer, limits)?;
        assert_eq!(rt; ended.replies, ends_at);
        assert!(rt; ended.rows == end.map_err(SessionError::Limit));
    }
    Ok(())
}

/// A session takes as many bytes as the limit says, and ends before the first one more.
#[test]
fn bytes_stay_within_limits(rt: HostRuntime) -> Result<(), Fail> {
    let mut peer = numbers::<[u8; 8]>(rt.alloc(), 40, 1, 1)?;
    let all = session_within(rt.alloc(), &mut peer, Limits::none())?;
    for (bytes, rows) in [
        (all.bytes, Ok(40)),
        (
            all.bytes.saturating_sub(1),
            Err(SessionError::Limit(Limit::Bytes)),
        ),
        (0, Err(SessionError::Limit(Limit::Bytes))),
    ] {
        let mut limits = Limits::none();
        limits.bytes = Some(bytes);
        let ended = session_within(rt.alloc(), &mut peer, limits)?;
        assert!(rt; ended.rows == rows);
    }
    Ok(())
}
