//! Catch-ups over a wire between two replicas in memory.
use crate::keys::Sample;
use merkle_digest::SipHasher;
use merkle_replica::Replica;
use merkle_search_tree::builder::Builder;
use merkle_wire::{CatchingUp, Next, answer};
use std::alloc::Global;
use std::test::Fail;

/// A replica of numbers.
pub(crate) type Numbers<K> = Replica<K, u64, SipHasher, 16>;

/// A replica with this many keys of a kind, where those whose number `step` divides have the value `value`, and the others 1.
pub(crate) fn numbers<K: Sample>(
    alloc: Global,
    count: u64,
    step: u64,
    value: u64,
) -> Result<Numbers<K>, Fail> {
    let mut rows = Vec::new(alloc);
    for i in 0..count {
        let number = match i.checked_rem(step) {
            Some(0) => value,
            _ => 1,
        };
        rows.push((K::of(alloc, i)?, number))?;
    }
    match Replica::from_rows(alloc, Builder::default(), rows) {
        Ok(replica) => Ok(replica),
        Err(_) => Err(Fail::new("rows")),
    }
}

/// What a session took, and how many rows it brought.
#[derive(PartialEq, Eq, Drop)]
pub(crate) struct Done {
    pub(crate) messages: usize,
    pub(crate) sent: usize,
    pub(crate) came: usize,
    pub(crate) rows: usize,
}

/// The rows of the peer that a session brings, and what it took. Nothing is joined.
fn session<K: Sample>(
    alloc: Global,
    local: &mut Numbers<K>,
    peer: &mut Numbers<K>,
) -> Result<(Vec<(K, u64)>, Done), Fail> {
    let (session, message) = CatchingUp::begin(alloc, local)?;
    let mut session = session;
    let mut message = message;
    let mut sent = 0usize;
    let mut came = 0usize;
    for messages in 1..600usize {
        let reply = answer(alloc, peer, &message)?;
        sent = sent.saturating_add(message.len());
        came = came.saturating_add(reply.len());
        match session.take(local, &reply)? {
            Next::Ask(next, ask) => {
                session = next;
                message = ask;
            }
            Next::Came(rows) => {
                let count = rows.len();
                let done = Done {
                    messages,
                    sent,
                    came,
                    rows: count,
                };
                return Ok((rows, done));
            }
        }
    }
    Err(Fail::new("no end"))
}

/// A replica that sessions are with, and what a session costs: how many rows it has, of which those have another value whose number is a multiple of
/// the second number; how many rows come; in how many messages at most, each with its reply; and in how many bytes both ways at most.
type Case = (u64, u64, usize, usize, usize);

/// Sessions of a side without rows, to which all rows are told at once.
const EMPTY: [Case; 2] = [(1000, 1, 1000, 2, 3160), (20_000, 1, 20_000, 2, 62_300)];

/// Sessions of a side with 1,000 rows.
const SMALL: [Case; 7] = [
    (0, 1, 0, 1, 38),
    (1000, 2000, 1, 4, 605),
    (1000, 100, 10, 5, 2770),
    (1000, 10, 100, 5, 4990),
    (1000, 5, 200, 6, 5200),
    (1000, 2, 500, 6, 5320),
    (1000, 1, 1000, 4, 3420),
];

/// Sessions of a side with 20,000 rows.
const LARGE: [Case; 4] = [
    (20_000, 20_000, 1, 5, 1010),
    (20_000, 200, 100, 6, 37_000),
    (20_000, 20, 1000, 5, 65_200),
    (20_000, 1, 20_000, 4, 62_600),
];

/// How many bytes a row has by itself: a text of nine letters after its length, and a number below 128.
const ROW: usize = 11;

/// The first session of a side with this many rows that brings other rows than a case says or costs more, or more than all rows of the peer by
/// themselves and a tenth: what it took, where there is one.
fn first_over(alloc: Global, own: u64, cases: &[Case]) -> Result<Option<Done>, Fail> {
    let mut local = numbers::<String>(alloc, own, 1, 1)?;
    for case in cases {
        let mut peer = numbers::<String>(alloc, case.0, case.1, 2)?;
        let (_, done) = session(alloc, &mut local, &mut peer)?;
        let bytes = done.sent.saturating_add(done.came);
        let all = (case.0 as usize).saturating_mul(ROW).saturating_mul(11) / 10;
        let is_within = done.messages <= case.3 && bytes <= case.4;
        if done.rows != case.2 || !is_within || bytes > all.max(100) {
            return Ok(Some(done));
        }
    }
    Ok(None)
}

#[test]
fn sessions_cost_what_the_table_says(rt: HostRuntime) -> Result<(), Fail> {
    let alloc = rt.alloc();
    assert!(rt; first_over(alloc, 0, &EMPTY)? == None);
    assert!(rt; first_over(alloc, 1000, &SMALL)? == None);
    assert!(rt; first_over(alloc, 20_000, &LARGE)? == None);
    Ok(())
}

#[test]
fn nothing_comes_where_nothing_differs(rt: HostRuntime) -> Result<(), Fail> {
    let alloc = rt.alloc();
    let mut local = numbers::<String>(alloc, 300, 7, 2)?;
    let mut peer = numbers::<String>(alloc, 300, 7, 2)?;
    let (_, done) = session(alloc, &mut local, &mut peer)?;
    assert!(rt; done.rows == 0);
    assert!(rt; done.messages == 1);
    Ok(())
}
