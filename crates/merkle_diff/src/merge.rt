//! Ranges that meet become one.
ghost use Rattle.std.specs.Prelude.{◌≡◌, ◌≤◌, length, take, IsPermutation, IsSortedByKey};
ghost use Rattle.key_order.specs.Interval.{IsApart};
ghost use Rattle.key_order.specs.Order.{Upto};
ghost use Rattle.merkle_diff.specs.DiffRange.{span, spans};
ghost use Rattle.merkle_diff.specs.Merge.{CoverSameKeys, IsMerge};
ghost use Rattle.merkle_diff.specs.Sweep.{greater, sweep_of};

use crate::diff_range::DiffRange;
use key_order::is_upto;

/// The greater of two keys.
fn greater_of<'a, K: Ord>(a: &'a K, b: &'a K) -> &'a K
    ensures value { result.now ≡ greater K.cmp a.now b.now }
    ensures above { Upto K.cmp a.now result.now }
{
    if b <= a { a } else { b }
}

/// Merges the ranges to the front, and returns how many there are then.
fn merge_to_front<'a, K: Ord>(ranges: &mut [DiffRange<'a, K>]) -> usize
    ensures in_range { result ≤ length ranges.old }
    ensures merged { spans (take result ranges.new) ≡ sweep_of K.cmp (spans ranges.old) }
{
    if ranges.is_empty() {
        return 0;
    }
    let mut last = ranges[0];
    let mut kept = 0;
    'sweep: for i in 1..ranges.len() {
        let range = ranges[i];
        if is_upto(range.start(), last.end()) {
            last = DiffRange::new(last.start(), greater_of(last.end(), range.end()));
        } else {
            ranges[kept] = last;
            kept += 1;
            last = range;
        }
    }
    ranges[kept] = last;
    kept + 1
}

/// Merges ranges that ascend by their starts, in place: those that meet become one. So the same keys are in the ranges, and no two of
/// them meet. It takes one pass over the ranges, and no memory.
///
/// Its condition is what [`sort_by_start`] ensures: std's own word for what a sort by key leaves.
pub fn merge_overlapping<'a, K: Ord>(ranges: &mut Vec<DiffRange<'a, K>>)
    requires { IsSortedByKey (λ r. (span r).first) K.cmp ranges.old.items }
    ensures merged { IsMerge K.cmp (spans ranges.old.items) (spans ranges.new.items) }
    ensures same_keys { CoverSameKeys K.cmp (spans ranges.old.items) (spans ranges.new.items) }
    ensures apart { IsApart K.cmp (spans ranges.new.items) }
{
    let kept = merge_to_front(ranges.as_mut_slice());
    ranges.truncate(kept);
}

/// Sorts the ranges by their starts, in place, in time n log n for n ranges. It takes no memory.
pub fn sort_by_start<'a, K: Ord>(ranges: &mut Vec<DiffRange<'a, K>>)
    ensures same { IsPermutation ranges.old.items ranges.new.items }
    ensures sorted { IsSortedByKey (λ r. (span r).first) K.cmp ranges.new.items }
{
    ranges.sort_unstable_by_key(|range| range.start);
}

/// The merge of ranges in any order. It takes no memory.
pub fn merged<'a, K: Ord>(ranges: Vec<DiffRange<'a, K>>) -> Vec<DiffRange<'a, K>>
    ensures { IsMerge K.cmp (spans ranges.entry.items) (spans result.items) }
{
    let mut sorted = ranges;
    sort_by_start(&mut sorted);
    merge_overlapping(&mut sorted);
    sorted
}
