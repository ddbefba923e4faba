//! Range lists, by answers that were worked out by hand.
use crate::texts::{Bounds, are, ranges};
use merkle_diff::DiffRange;
use merkle_diff::parts::{RangeList, merge_overlapping, sort_by_start};
use std::alloc::{AllocError, Global};
use std::test::Fail;

/// A line for each: the ranges that are inserted, and what they become.
const MERGES: &str = "\
0-0 4-4 1-4 | 0-0 1-4
0-2 2-42 | 0-42
2-8 3-9 | 2-9
1-5 2-5 | 1-5
2-5 1-5 | 1-5
2-5 2-8 | 2-8
2-8 2-5 | 2-8
2-8 1-10 | 1-10
2-8 3-4 | 2-8
2-8 1-7 | 1-8
0-1 2-4 0-3 | 0-4
0-1 2-4 0-2 | 0-4
1-2 15-42 | 1-2 15-42
2-15 2-6 2-6 | 2-15
0-2011493307964271930 3767576750200716450-3767576750200719913 3767576750200716450-3767576750200719913 \
2011500329124980022-3767576750200716450 | 0-2011493307964271930 2011500329124980022-3767576750200719913
";

/// The list of these ranges. One whose bounds are not in order is left out.
pub fn inserted<'a>(alloc: Global, ranges: &'a [Bounds]) -> Result<RangeList<'a, u64>, AllocError> {
    let mut list = RangeList::new(alloc);
    for range in ranges {
        if range.0 <= range.1 {
            list.insert(&range.0, &range.1)?;
        }
    }
    Ok(list)
}

/// The same ranges, as they are.
pub fn listed<'a>(
    alloc: Global,
    bounds: &'a [Bounds],
) -> Result<Vec<DiffRange<'a, u64>>, AllocError> {
    let mut ranges = Vec::new(alloc);
    for range in bounds {
        if range.0 <= range.1 {
            ranges.push(DiffRange::new(&range.0, &range.1))?;
        }
    }
    Ok(ranges)
}

/// Whether the ranges are merged as told, in a list and in place.
fn are_merged(alloc: Global, list: &[Bounds], merge: &[Bounds]) -> Result<bool, AllocError> {
    let merged = inserted(alloc, list)?.into_vec()?;
    let mut ranges = listed(alloc, list)?;
    sort_by_start(&mut ranges);
    merge_overlapping(&mut ranges);
    Ok(are(&merged, merge) && are(&ranges, merge))
}

/// Whether it is so with the ranges of a line.
fn is_merged(alloc: Global, line: &str) -> Result<bool, AllocError> {
    let (list, merge) = line.split_once('|').ok_or(AllocError)?;
    are_merged(alloc, &ranges(alloc, list)?, &ranges(alloc, merge)?)
}

#[test]
fn merges_as_worked_out(rt: HostRuntime) -> Result<(), Fail> {
    for line in MERGES.lines() {
        assert!(rt; is_merged(rt.alloc(), line)?, "at {line}");
    }
    Ok(())
}

/// Ranges that are inserted, and what they become.
const REFUSED: [(&[Bounds], &[Bounds]); 4] = [
    (&[(0, 0), (4, 4), (1, 4)], &[(0, 0), (1, 4)]),
    (&[(0, 2), (2, 42)], &[(0, 42)]),
    (&[(2, 15), (2, 6), (2, 6)], &[(2, 15)]),
    (&[(2, 8), (3, 9)], &[(2, 9)]),
];

// Under `rt try --test --fail-alloc N` the Nth request for memory is refused: then an insert is. The merge takes none.
#[test]
fn merges_or_wants_memory(rt: HostRuntime) -> Result<(), AllocError> {
    for (list, merge) in &REFUSED {
        if let Ok(list) = inserted(rt.alloc(), list) {
            assert!(rt; are(&list.into_vec()?, merge));
        }
    }
    Ok(())
}
