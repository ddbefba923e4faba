//! The times of pulls between replicas.

use crate::clock::{Best, now, rounds};
use crate::fault::Fault;
use crate::keys::{LOCAL_SEED, keys};
use crate::replicas::{Numbers, replica_of};
use merkle_replica::Replica;
use merkle_search_tree::builder::Builder;
use std::alloc::Global;
use std::rt::Clock;

/// The names of the columns.
pub const NAMES: &str = "rows pull_empty_ns pull_other_ns pull_tenth_ns";

/// The keys of a peer with `count` rows and one, at the even places, and between each two of them one of the replica that pulls, in key
/// order: so the peer's keys span the replica's.
fn sorted_keys(alloc: Global, count: usize) -> Result<Vec<String>, Fault> {
    let mut sorted = keys(alloc, LOCAL_SEED, count.saturating_mul(2).saturating_add(1))?;
    sorted.sort_unstable();
    Ok(sorted)
}

/// The replica of every second of these keys, from the first or the second on, not hashed: at every tenth of its rows the value `tenth`,
/// else 1.
fn replica(alloc: Global, sorted: &[String], parity: usize, tenth: u64) -> Result<Numbers, Fault> {
    let mut rows = Vec::new(alloc);
    for (place, key) in sorted.iter().enumerate() {
        if place % 2 == parity {
            let value = if place % 20 == parity { tenth } else { 1 };
            rows.push((key.clone()?, value))?;
        }
    }
    replica_of(alloc, rows)
}

/// Times a pull, the hashing of both trees included.
fn time_pull<R: Clock>(
    rt: &R,
    local: &mut Numbers,
    peer: &mut Numbers,
    best: &mut Best,
) -> Result<(), Fault> {
    let start = now(rt)?;
    let pulled = local.pull(peer);
    best.note_since(rt, start)?;
    match pulled {
        Ok(_) => Ok(()),
        Err(_) => Err(Fault::Memory),
    }
}

/// The best times of pulls from a peer with this many rows: into a replica without rows, into one with as many other keys, and into one
/// with the same keys, of which every tenth has another value.
#[derive(Drop)]
struct PullTimes {
    into_empty: Best,
    among_others: Best,
    of_every_tenth: Best,
}

impl PullTimes {
    /// The best times of no rounds.
    fn new() -> Self {
        PullTimes {
            into_empty: Best::new(),
            among_others: Best::new(),
            of_every_tenth: Best::new(),
        }
    }

    /// Makes one round of the three pulls, each between replicas that are made before.
    fn note_round<R: Clock>(
        &mut self,
        rt: &R,
        alloc: Global,
        sorted: &[String],
    ) -> Result<(), Fault> {
        let mut peer = replica(alloc, sorted, 0, 2)?;
        let mut empty = Replica::new(alloc, Builder::default());
        time_pull(rt, &mut empty, &mut peer, &mut self.into_empty)?;
        let mut peer = replica(alloc, sorted, 0, 2)?;
        let mut others = replica(alloc, sorted, 1, 1)?;
        time_pull(rt, &mut others, &mut peer, &mut self.among_others)?;
        let mut peer = replica(alloc, sorted, 0, 2)?;
        let mut same = replica(alloc, sorted, 0, 1)?;
        time_pull(rt, &mut same, &mut peer, &mut self.of_every_tenth)
    }
}

/// The line of a peer with this many rows, in nanoseconds a row of the peer.
pub fn line<R: Clock>(rt: &R, alloc: Global, count: usize) -> Result<String, Fault> {
    let sorted = sorted_keys(alloc, count)?;
    let mut times = PullTimes::new();
    for _ in 0..rounds(count) {
        times.note_round(rt, alloc, &sorted)?;
    }
    let empty = times.into_empty.each(count);
    let others = times.among_others.each(count);
    let tenth = times.of_every_tenth.each(count);
    Ok(format!(in alloc; "{count} {empty} {others} {tenth}")?)
}
