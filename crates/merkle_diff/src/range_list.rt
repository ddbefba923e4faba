//! Ranges in any order.
ghost use Rattle.std.specs.Prelude.{◌≡◌, [], OnOk, OnErr, IsOkAnd};
ghost use Rattle.key_order.specs.Interval.{IsApart};
ghost use Rattle.key_order.specs.Order.{Upto};

use crate::diff_range::DiffRange;
use crate::merge::merged;
use std::alloc::{AllocError, Global};
use std::marker::Model;

/// Ranges in any order, which become one list of ranges that don't meet. A contract sees the list of their spans, in the order in which
/// they were inserted.
///
/// ```rust crates/merkle_diff_tests/src/shown.rt
/// let mut list = RangeList::new(alloc);
/// list.insert(&12, &15)?;
/// list.insert(&2, &8)?;
/// list.insert(&7, &9)?;
/// let merged = list.into_vec()?;
/// assert_eq!(rt; merged.len(), 2);
/// assert_eq!(rt; (*merged[0].start(), *merged[0].end()), (2, 9));
/// assert_eq!(rt; (*merged[1].start(), *merged[1].end()), (12, 15));
/// ```
#[derive(Drop)]
pub struct RangeList<'a, K: Ord> {
    ranges: Vec<DiffRange<'a, K>>,
}

impl<'a, K: Ord> Model for RangeList<'a, K> {
    ghost use Rattle.std.specs.Prelude.{List};
    ghost use Rattle.std.specs.Coded.{coded_list};
    ghost use Rattle.key_order.specs.Interval.{Span};
    ghost use Rattle.merkle_diff.specs.DiffRange.{spans};
    ghost use Rattle.merkle_diff.specs.RangeList.{span_code};

    ghost Value = { List (Span K) };

    ghost coded = { coded_list (span_code K.code) };

    ghost view = { λ list. spans list.ranges.items };
}

impl<'a, K: Ord> RangeList<'a, K> {
    ghost use Rattle.merkle_diff.specs.DiffRange.{spans};
    ghost use Rattle.merkle_diff.specs.Merge.{CoverSameKeys, IsMerge};
    ghost use Rattle.merkle_diff.specs.RangeList.{Inserts};

    /// The empty list, which will take its memory from `alloc`.
    pub fn new(alloc: Global) -> RangeList<'a, K>
        ensures { result ≡ [] }
    {
        RangeList {
            ranges: Vec::new(alloc),
        }
    }

    /// Inserts the range from `start` to `end`, both in it, after those that are there, whatever their order. `start` has to be at most `end`. No
    /// keys are compared, and it costs what a vector's `push` does.
    ///
    /// # Errors
    ///
    /// Out of memory: the list is as it was.
    pub fn insert(&mut self, start: &'a K, end: &'a K) -> Result<(), AllocError>
        requires { Upto K.cmp start.now end.now }
        ensures ok { OnOk result (Inserts self.old start.now end.now self.new) }
        ensures err { OnErr result (self.new ≡ self.old) }
    {
        self.ranges.push(DiffRange::new(start, end))?;
        Ok(())
    }

    /// The merge of the ranges: ascending, those that meet as one, so that the same keys are in it, and no two of its ranges meet. It takes
    /// a sort, and one pass over the ranges. It takes no memory, and always succeeds.
    pub fn into_vec(self) -> Result<Vec<DiffRange<'a, K>>, AllocError>
        ensures merged { IsOkAnd result (λ ranges. IsMerge K.cmp self.entry (spans ranges.items)) }
        ensures same_keys { IsOkAnd result (λ ranges. CoverSameKeys K.cmp self.entry (spans ranges.items)) }
        ensures apart { IsOkAnd result (λ ranges. IsApart K.cmp (spans ranges.items)) }
    {
        Ok(merged(self.ranges))
    }
}
