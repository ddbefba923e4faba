//! The time of a cut of good ranges out of one bad range.

use crate::clock::{Best, now, rounds};
use crate::fault::Fault;
use merkle_diff::parts::{RangeList, reduce_sync_range};
use std::alloc::{AllocError, Global};
use std::rt::Clock;

/// The names of the columns.
pub const NAMES: &str = "ranges cut_ns";

/// The bounds of a range of numbers, both in it.
#[derive(Drop)]
struct Bounds {
    start: u64,
    end: u64,
}

/// The bounds of `count` ranges that stand apart: 1 to 2, 3 to 4, and so on.
fn apart(alloc: Global, count: usize) -> Result<Vec<Bounds>, AllocError> {
    let mut bounds = Vec::with_capacity(alloc, count)?;
    let mut start: u64 = 1;
    for _ in 0..count {
        let end = start.saturating_add(1);
        bounds.push(Bounds { start, end })?;
        start = end.saturating_add(1);
    }
    Ok(bounds)
}

/// The ranges between the bounds.
fn ranges(alloc: Global, bounds: &[Bounds]) -> Result<RangeList<'_, u64>, AllocError> {
    let mut list = RangeList::new(alloc);
    for bound in bounds {
        if bound.start <= bound.end {
            list.insert(&bound.start, &bound.end)?;
        }
    }
    Ok(list)
}

/// Times the cut of the inner ranges out of the outer ones.
fn time_cut<'a, R: Clock>(
    rt: &R,
    alloc: Global,
    outer: &'a [Bounds],
    inner: &'a [Bounds],
    best: &mut Best,
) -> Result<(), Fault> {
    let bad = ranges(alloc, outer)?.into_vec()?;
    let good = ranges(alloc, inner)?.into_vec()?;
    let start = now(rt)?;
    let _left = reduce_sync_range(alloc, bad, good)?;
    best.note_since(rt, start)
}

/// The line of `count` good ranges, which are cut out of one that they are inside of, in nanoseconds a range.
pub fn line<R: Clock>(rt: &R, alloc: Global, count: usize) -> Result<String, Fault> {
    let inner = apart(alloc, count)?;
    let outer = [Bounds {
        start: 0,
        end: u64::MAX,
    }];
    let mut best = Best::new();
    for _ in 0..rounds(count) {
        time_cut(rt, alloc, &outer, &inner, &mut best)?;
    }
    let each = best.each(count);
    Ok(format!(in alloc; "{count} {each}")?)
}
