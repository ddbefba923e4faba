//! The times of the operations on trees.

ghost use Rattle.std.specs.Prelude.{◌≢◌, None};

use crate::clock::{Best, now, rounds};
use crate::fault::Fault;
use crate::keys::{LOCAL_SEED, copies, keys};
use crate::sample::{Sample, Tree, count_ranges, loaded, ranges, sorted_rows, tree_of};
use merkle_diff::diff;
use std::alloc::Global;
use std::rt::Clock;

/// The names of the columns.
pub const NAMES: &str =
    "keys insert_ns load_ns load_root_ns root_ns serialise_ns iterate_ns diff_same_ns diff_other_ns diff_some_ns";

/// The best time of each operation.
#[derive(Drop)]
struct Times {
    insert: Best,
    load: Best,
    load_root: Best,
    root: Best,
    serialise: Best,
    iterate: Best,
    diff_same: Best,
    diff_other: Best,
    diff_some: Best,
}

/// Times the differences of the local tree and `peer`.
fn time_diff<R: Clock>(
    rt: &R,
    alloc: Global,
    local: &Tree,
    peer: &Tree,
    best: &mut Best,
) -> Result<(), Fault>
    requires local_hashed { local.now.root_hash ≢ None }
    requires peer_hashed { peer.now.root_hash ≢ None }
{
    let local_ranges = ranges(local)?;
    let peer_ranges = ranges(peer)?;
    let start = now(rt)?;
    let _found = diff(alloc, local_ranges, peer_ranges)?;
    best.note_since(rt, start)
}

impl Times {
    /// The best times of no rounds.
    fn new() -> Self {
        Times {
            insert: Best::new(),
            load: Best::new(),
            load_root: Best::new(),
            root: Best::new(),
            serialise: Best::new(),
            iterate: Best::new(),
            diff_same: Best::new(),
            diff_other: Best::new(),
            diff_some: Best::new(),
        }
    }

    /// Makes one round of the operations on one tree of these keys. Nothing else is in memory then but the keys.
    fn note_tree<R: Clock>(&mut self, rt: &R, alloc: Global, keys: &[String]) -> Result<(), Fault> {
        let keys = copies(alloc, keys)?;
        let start = now(rt)?;
        let mut tree = tree_of(alloc, keys, 1)?;
        self.insert.note_since(rt, start)?;
        let start = now(rt)?;
        let _ = tree.root_hash_counted();
        self.root.note_since(rt, start)?;
        let start = now(rt)?;
        let _listed = ranges(&tree)?;
        self.serialise.note_since(rt, start)?;
        let start = now(rt)?;
        let _count = count_ranges(&tree)?;
        self.iterate.note_since(rt, start)
    }

    /// Makes one round of the loads: of the rows of these keys, which are made before, and then the first root hash.
    fn note_load<R: Clock>(&mut self, rt: &R, alloc: Global, keys: &[String]) -> Result<(), Fault> {
        let rows = sorted_rows(alloc, keys)?;
        let start = now(rt)?;
        let mut tree = loaded(alloc, rows)?;
        self.load.note_since(rt, start)?;
        let _ = tree.root_hash_counted();
        self.load_root.note_since(rt, start)
    }

    /// Makes all rounds of the operations on one tree of `count` keys.
    fn note_trees<R: Clock>(&mut self, rt: &R, alloc: Global, count: usize) -> Result<(), Fault> {
        let keys = keys(alloc, LOCAL_SEED, count)?;
        for _ in 0..rounds(count) {
            self.note_tree(rt, alloc, &keys)?;
        }
        Ok(())
    }

    /// Makes all rounds of the loads of `count` keys.
    fn note_loads<R: Clock>(&mut self, rt: &R, alloc: Global, count: usize) -> Result<(), Fault> {
        let keys = keys(alloc, LOCAL_SEED, count)?;
        for _ in 0..rounds(count) {
            self.note_load(rt, alloc, &keys)?;
        }
        Ok(())
    }

    /// Makes all rounds of the differences of trees of `count` keys.
    fn note_diffs<R: Clock>(&mut self, rt: &R, alloc: Global, count: usize) -> Result<(), Fault> {
        let sample = Sample::new(alloc, count)?;
        let local = &sample.local;
        for _ in 0..rounds(count) {
            time_diff(rt, alloc, local, local, &mut self.diff_same)?;
            time_diff(rt, alloc, local, &sample.peer, &mut self.diff_other)?;
            time_diff(rt, alloc, local, &sample.third, &mut self.diff_some)?;
        }
        Ok(())
    }
}

/// The line of `count` keys, in nanoseconds a key.
pub fn line<R: Clock>(rt: &R, alloc: Global, count: usize) -> Result<String, Fault> {
    let mut times = Times::new();
    times.note_trees(rt, alloc, count)?;
    times.note_loads(rt, alloc, count)?;
    times.note_diffs(rt, alloc, count)?;
    let insert = times.insert.each(count);
    let load = times.load.each(count);
    let load_root = times.load_root.each(count);
    let root = times.root.each(count);
    let serialise = times.serialise.each(count);
    let iterate = times.iterate.each(count);
    let same = times.diff_same.each(count);
    let other = times.diff_other.each(count);
    let some = times.diff_some.each(count);
    Ok(format!(in alloc;
        "{count} {insert} {load} {load_root} {root} {serialise} {iterate} {same} {other} {some}"
    )?)
}
