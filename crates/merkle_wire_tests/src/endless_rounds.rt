//! A peer whose tree has no end: it has a page below each page that it told.
use crate::hex::bytes_of;
use crate::refusals::{NONE, ROOT};
use crate::sessions::numbers;
use merkle_bytes::KeyRun;
use merkle_wire::{CatchingUp, Next, SessionError};
use std::alloc::{AllocError, Global};
use std::test::Fail;

/// A key after another one, or after none.
fn key_behind(alloc: Global, after: Option<[u8; 8]>, key: &[u8; 8]) -> Result<Vec<u8>, AllocError> {
    let mut bytes = Vec::new(alloc);
    let mut run = KeyRun::behind(alloc, after.as_ref())?;
    run.encode(key, &mut bytes)?;
    Ok(bytes)
}

/// The outline of a page over a gap above a key: one node, a page after it, and a digest of nodes.
fn page_above(
    alloc: Global,
    after: Option<[u8; 8]>,
    node: &[u8; 8],
) -> Result<Vec<u8>, AllocError> {
    let mut reply = bytes_of(alloc, "0182 02 05050505050505050505050505050505 01")?;
    reply.append(&mut key_behind(alloc, after, node)?)?;
    reply.append(&mut bytes_of(alloc, "00 01 06060606060606060606060606060606")?)?;
    Ok(reply)
}

/// The reply to a message: no rows where it asks for rows, and otherwise a page above the last node, which it makes the next.
fn next_reply(
    alloc: Global,
    message: &[u8],
    rounds: &mut u64,
    node: &mut Option<[u8; 8]>,
) -> Result<Vec<u8>, AllocError> {
    if message.get(1) == Some(&3) {
        return bytes_of(alloc, NONE);
    }
    *rounds = (*rounds).saturating_add(1);
    let next = (*rounds).saturating_add(10).to_be_bytes();
    let after = *node;
    *node = Some(next);
    page_above(alloc, after, &next)
}

/// How many rounds a session takes in which the peer has a page below each page, until it is refused.
fn rounds_until_refused(alloc: Global) -> Result<Option<(u64, SessionError)>, Fail> {
    let mut local = numbers::<[u8; 8]>(alloc, 3, 1, 1)?;
    let (session, _) = CatchingUp::begin(alloc, &local)?;
    let mut session = session;
    let mut reply = bytes_of(alloc, ROOT)?;
    let (mut rounds, mut node) = (0, None);
    for _ in 0..1000 {
        match session.take(&mut local, &reply) {
            Ok(Next::Ask(next, message)) => {
                session = next;
                reply = next_reply(alloc, &message, &mut rounds, &mut node)?;
            }
            Ok(Next::Came(_)) => return Ok(None),
            Err(error) => return Ok(Some((rounds, error))),
        }
    }
    Ok(None)
}

/// A session in which the peer has more and more pages below one another ends: a tree has at most 256 levels.
#[test]
fn rounds_without_end_are_refused(rt: HostRuntime) -> Result<(), Fail> {
    let found = rounds_until_refused(rt.alloc())?;
    assert!(rt; found == Some((256, SessionError::TooManyRounds)));
    Ok(())
}
