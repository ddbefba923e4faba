//! Cuts, by answers that were worked out by hand, and on long lists.
use crate::range_lists::{inserted, listed};
use crate::texts::{Bounds, are, ranges};
use merkle_diff::DiffRange;
use merkle_diff::parts::{DiffListBuilder, reduce_sync_range};
use std::alloc::{AllocError, Global};
use std::test::Fail;

/// A line for each: the bad ranges, the good ones, and what is left.
const CUTS: &str = "\
4-10 | 5-8 | 4-5 8-10
4-10 | 4-6 6-10 |
4-10 | 4-6 6-8 | 8-10
4-10 | 5-10 | 4-5
4-10 | 4-8 | 8-10
2-15 | 2-2 5-5 15-15 | 2-15
0-3 5-9 12-20 | 2-6 | 0-2 6-9 12-20
0-3 5-9 12-20 | 8-13 6-7 1-1 | 0-3 5-6 7-8 13-20
5-5 7-7 | 5-5 | 7-7
1-9 | 0-20 |
1-9 | 9-12 0-1 | 1-9
1-9 | 3-5 4-7 | 1-3 7-9
1-9 | 5-8 2-3 2-3 | 1-2 3-5 8-9
1-9 | 2-8 3-4 5-5 | 1-2 8-9
0-2 4-6 8-10 | 1-9 | 0-1 9-10
0-2 4-6 8-10 | 10-11 5-5 2-4 | 0-2 4-6 8-10
0-2 4-6 8-10 | | 0-2 4-6 8-10
| 1-9 |
";

/// The good ranges, cut out of the merge of the bad ones.
fn cut<'a>(
    alloc: Global,
    bad: &'a [Bounds],
    good: &'a [Bounds],
) -> Result<Vec<DiffRange<'a, u64>>, AllocError> {
    let merged = inserted(alloc, bad)?.into_vec()?;
    reduce_sync_range(alloc, merged, listed(alloc, good)?)
}

/// Marks these ranges consistent, or inconsistent.
fn mark<'a>(
    builder: &mut DiffListBuilder<'a, u64>,
    ranges: &'a [Bounds],
    are_good: bool,
) -> Result<(), AllocError> {
    for range in ranges {
        if range.0 <= range.1 {
            if are_good {
                builder.consistent(&range.0, &range.1)?;
            } else {
                builder.inconsistent(&range.0, &range.1)?;
            }
        }
    }
    Ok(())
}

/// A builder with these marks.
fn marked<'a>(
    alloc: Global,
    bad: &'a [Bounds],
    good: &'a [Bounds],
) -> Result<DiffListBuilder<'a, u64>, AllocError> {
    let mut builder = DiffListBuilder::new(alloc);
    mark(&mut builder, bad, false)?;
    mark(&mut builder, good, true)?;
    Ok(builder)
}

/// Whether these ranges are left, in the merge of the bad ones and by a builder.
fn leaves(
    alloc: Global,
    bad: &[Bounds],
    good: &[Bounds],
    left: &[Bounds],
) -> Result<bool, AllocError> {
    let found = cut(alloc, bad, good)?;
    let made = marked(alloc, bad, good)?.into_diff_vec()?;
    Ok(are(&found, left) && are(&made, left))
}

/// Whether it is so with the ranges of a line.
fn is_cut(alloc: Global, line: &str) -> Result<bool, AllocError> {
    let (bad, rest) = line.split_once('|').ok_or(AllocError)?;
    let (good, left) = rest.split_once('|').ok_or(AllocError)?;
    let (bad, good) = (ranges(alloc, bad)?, ranges(alloc, good)?);
    leaves(alloc, &bad, &good, &ranges(alloc, left)?)
}

#[test]
fn cuts_as_worked_out(rt: HostRuntime) -> Result<(), Fail> {
    for line in CUTS.lines() {
        assert!(rt; is_cut(rt.alloc(), line)?, "at {line}");
    }
    Ok(())
}

/// The 100,000 ranges from `start + 4 * i` on, `length` long.
fn spaced(alloc: Global, start: u64, length: u64) -> Result<Vec<Bounds>, AllocError> {
    let mut ranges = Vec::new(alloc);
    for i in 0..100_000u64 {
        let first = start.wrapping_add(4 * i);
        ranges.push((first, first.wrapping_add(length)))?;
    }
    Ok(ranges)
}

#[test]
fn cuts_long_lists(rt: HostRuntime) -> Result<(), AllocError> {
    let good = spaced(rt.alloc(), 0, 2)?;
    let bad = spaced(rt.alloc(), 1, 2)?;
    let left = spaced(rt.alloc(), 2, 1)?;
    assert!(rt; leaves(rt.alloc(), &bad, &good, &left)?);
    Ok(())
}

// Under `tests/refusals` each request for memory is refused in turn: the cut is right, or it is want of memory.
#[test]
fn cuts_or_wants_memory(rt: HostRuntime) {
    for line in CUTS.lines() {
        assert!(rt; is_cut(rt.alloc(), line) != Ok(false));
    }
}

// A builder with one kind of marks takes no memory for its list.
#[test]
fn one_kind_of_marks_or_wants_memory(rt: HostRuntime) -> Result<(), AllocError> {
    if let Ok(builder) = marked(rt.alloc(), &[(4, 10), (0, 2)], &[]) {
        assert!(rt; are(&builder.into_diff_vec()?, &[(0, 2), (4, 10)]));
    }
    Ok(())
}
