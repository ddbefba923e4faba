//! Replies that are the delta of nothing: of a peer that doesn't know deltas, and altered ones. The question is asked again, plainly.
use crate::playing::{Session, Step, answer};
use crate::rows::{Rows, Way, keys, replica};
use merkle_wire::{AnswerError, refusal};
use std::alloc::Global;
use std::test::Fail;

/// A peer of 300 rows, and a side that has another value at three of them.
#[derive(Drop)]
struct Sides {
    local: Rows,
    peer: Rows,
}

/// The two sides.
fn two_sides(alloc: Global) -> Result<Sides, Fail> {
    let keys = keys(alloc, 300)?;
    let local = replica(alloc, &keys, 100, Way::Changed)?;
    let peer = replica(alloc, &keys, 0, Way::Changed)?;
    Ok(Sides { local, peer })
}

/// The reply of a peer that knows plain messages alone.
fn plain_answer(alloc: Global, peer: &mut Rows, message: &[u8]) -> Result<Vec<u8>, Fail> {
    match merkle_wire::answer(alloc, peer, message) {
        Ok(reply) => Ok(reply),
        Err(AnswerError::Malformed(_)) => Ok(refusal(alloc)?),
        Err(_) => Err(Fail::new("memory")),
    }
}

/// How many rows a session brings from such a peer, and in how many messages.
fn rows_of_plain_peer(alloc: Global, sides: &mut Sides) -> Result<(usize, usize), Fail> {
    let (mut session, mut message) = Session::begin(alloc, &sides.local)?;
    for messages in 1..100 {
        let reply = plain_answer(alloc, &mut sides.peer, &message)?;
        match session.hear(alloc, &mut sides.local, reply)? {
            Step::Ask(next, question) => {
                session = next;
                message = question;
            }
            Step::Came(rows) => return Ok((rows.len(), messages)),
        }
    }
    Err(Fail::new("no end"))
}

#[test]
fn a_peer_without_deltas_is_asked_plainly(rt: HostRuntime) -> Result<(), Fail> {
    let mut sides = two_sides(rt.alloc())?;
    assert!(rt; rows_of_plain_peer(rt.alloc(), &mut sides)? == (3, 5));
    Ok(())
}

/// A session that waits for the reply to its second message, and the message.
fn second(alloc: Global, sides: &mut Sides) -> Result<(Session, Vec<u8>), Fail> {
    let (session, message) = Session::begin(alloc, &sides.local)?;
    let reply = answer(alloc, &mut sides.peer, &message)?;
    match session.hear(alloc, &mut sides.local, reply)? {
        Step::Ask(session, message) => Ok((session, message)),
        Step::Came(_) => Err(Fail::new("rows")),
    }
}

/// The delta that the second message is answered with.
fn delta(alloc: Global, sides: &mut Sides) -> Result<Vec<u8>, Fail> {
    let (_, message) = second(alloc, sides)?;
    Ok(answer(alloc, &mut sides.peer, &message)?)
}

/// Whether the second question is asked again, plainly, after a reply.
fn is_asked_again(alloc: Global, sides: &mut Sides, reply: Vec<u8>) -> Result<bool, Fail> {
    let (session, _) = second(alloc, sides)?;
    match session.hear(alloc, &mut sides.local, reply)? {
        Step::Ask(_, message) => Ok(message.as_slice() == [1, 2, 16, 1, 0, 0].as_slice()),
        Step::Came(_) => Ok(false),
    }
}

/// The first place at which a delta can have another byte and is taken.
fn first_taken(alloc: Global, sides: &mut Sides) -> Result<Option<usize>, Fail> {
    let reply = delta(alloc, sides)?;
    for place in 0..reply.len() {
        let mut altered = Vec::from_slice(alloc, &reply)?;
        altered[place] = altered[place].wrapping_add(1);
        if !is_asked_again(alloc, sides, altered)? {
            return Ok(Some(place));
        }
    }
    Ok(None)
}

#[test]
fn an_altered_delta_is_asked_for_plainly(rt: HostRuntime) -> Result<(), Fail> {
    let mut sides = two_sides(rt.alloc())?;
    assert!(rt; first_taken(rt.alloc(), &mut sides)?.is_none());
    Ok(())
}
