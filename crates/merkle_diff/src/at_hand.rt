//! `diff` of two lists that are at hand: what its contract says of any iterators, said of these lists.
ghost use Rattle.std.specs.Prelude.{OnErr};
ghost use Rattle.merkle_diff.specs.Answers.{IfFound, FindsNothing};
ghost use Rattle.merkle_diff.specs.Difference.{IsAnswer, MayAsk};
ghost use Rattle.merkle_diff.specs.PageRange.{entries};

use crate::diff_range::DiffRange;
use crate::difference::diff;
use crate::page_range::PageRange;
use crate::page_range_snapshot::PageRangeSnapshot;
use crate::slice_iter::SliceIter;
use std::alloc::{AllocError, Global};

/// The ranges of keys that `local` may ask of `peer`, two vectors, as [`diff`](crate::diff) returns them, and at its cost.
///
/// ```rust crates/merkle_diff_tests/src/shown.rt
/// let mut theirs = Vec::new(alloc);
/// theirs.push(PageRange::new(&1, &5, digest(2)))?;
/// let found = diff_lists(alloc, Vec::new(alloc), theirs)?;
/// assert_eq!(rt; found.len(), 1);
/// assert_eq!(rt; (*found[0].start(), *found[0].end()), (1, 5));
/// ```
///
/// # Errors
///
/// Out of memory, and only where a range may be answered; else the answer is the empty list.
pub fn diff_lists<'p, K: Ord>(
    alloc: Global,
    local: Vec<PageRange<'p, K>>,
    peer: Vec<PageRange<'p, K>>,
) -> Result<Vec<DiffRange<'p, K>>, AllocError>
    ensures answer { IfFound result (IsAnswer K.cmp (entries local.entry.items) (entries peer.entry.items)) }
    ensures memory { OnErr result (MayAsk K.cmp (entries local.entry.items) (entries peer.entry.items)) }
    ensures nothing { ¬ (MayAsk K.cmp (entries local.entry.items) (entries peer.entry.items)) → FindsNothing result }
{
    diff(alloc, local, peer)
}

/// The ranges of keys that `local` may ask of `peer`, two slices, as [`diff`](crate::diff) returns them, and at its cost. It copies one
/// page range after the other, and takes no memory for that.
///
/// ```rust crates/merkle_diff_tests/src/shown.rt
/// let local = [PageRange::new(&1, &4, digest(1))];
/// let peer = [PageRange::new(&1, &5, digest(2))];
/// let found = diff_slices(alloc, &local, &peer)?;
/// assert_eq!(rt; found.len(), 1);
/// assert_eq!(rt; (*found[0].start(), *found[0].end()), (1, 5));
/// ```
///
/// # Errors
///
/// Out of memory, and only where a range may be answered; else the answer is the empty list.
pub fn diff_slices<'p, K: Ord>(
    alloc: Global,
    local: &[PageRange<'p, K>],
    peer: &[PageRange<'p, K>],
) -> Result<Vec<DiffRange<'p, K>>, AllocError>
    ensures answer { IfFound result (IsAnswer K.cmp (entries local.entry.now) (entries peer.entry.now)) }
    ensures memory { OnErr result (MayAsk K.cmp (entries local.entry.now) (entries peer.entry.now)) }
    ensures nothing { ¬ (MayAsk K.cmp (entries local.entry.now) (entries peer.entry.now)) → FindsNothing result }
{
    diff(alloc, SliceIter::new(local), SliceIter::new(peer))
}

/// The ranges of keys that the side of the snapshot `local` may ask of that of `peer`, as [`diff`](crate::diff) returns them, and at its
/// cost. It copies no key.
///
/// # Errors
///
/// Out of memory, and only where a range may be answered; else the answer is the empty list.
pub fn diff_snapshots<'p, K: Ord>(
    alloc: Global,
    local: &'p PageRangeSnapshot<K>,
    peer: &'p PageRangeSnapshot<K>,
) -> Result<Vec<DiffRange<'p, K>>, AllocError>
    ensures answer { IfFound result (IsAnswer K.cmp local.now peer.now) }
    ensures memory { OnErr result (MayAsk K.cmp local.now peer.now) }
    ensures nothing { ¬ (MayAsk K.cmp local.now peer.now) → FindsNothing result }
{
    diff(alloc, local.iter(), peer.iter())
}
