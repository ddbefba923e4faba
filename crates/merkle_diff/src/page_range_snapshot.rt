//! Snapshots of page ranges.
ghost use Rattle.std.proofs.Common.{rules};
ghost use Rattle.std.specs.Cmp.Lexicographic.{lists_equiv, lists_per};
ghost use Rattle.std.specs.Cmp.Rules.{comparing};
ghost use Rattle.std.specs.Iterator.{IsFiniteIterable, UpTo, YieldsFirstBy, item_count};
ghost use Rattle.std.specs.Iterator.SizeHint.{IsWithinCount};
ghost use Rattle.std.specs.Prelude.{◌≡◌, IfOk, IfSome, IsOkAnd, length};
ghost use Rattle.merkle_diff.specs.Iterable.{Gives};
ghost use Rattle.merkle_diff.specs.PageRange.{entries, entry};
ghost use Rattle.merkle_diff.specs.PageRangeSnapshot.{HasClonesOf};
ghost use Rattle.merkle_diff.specs.SameEntries.{EqualBothWays, SameEntries, same_entries};

use crate::owned_page_range::OwnedPageRange;
use crate::page_range::PageRange;
use merkle_digest::{PageDigest, SameClone};
use std::alloc::{AllocError, Global};
use std::iter::FusedIterator;
use std::marker::Model;

/// The page ranges of a tree at one point in time, with keys of their own: the tree can change while a snapshot of it is kept,
/// sent to a peer, or compared with another by [`diff_snapshots`](crate::diff_snapshots).
///
/// ```rust crates/merkle_diff_tests/src/shown.rt
/// let snapshot = PageRangeSnapshot::from_owned(alloc, ranges)?;
/// let copy = snapshot.try_clone()?;
/// assert!(rt; copy == snapshot);
/// assert!(rt; diff_snapshots(alloc, &copy, &snapshot)?.is_empty());
/// ```
///
/// A contract sees the list of its ranges, each as its bounds and its digest. It keeps the allocator that it was made with.
pub struct PageRangeSnapshot<K: Ord> {
    alloc: Global,
    ranges: Vec<OwnedPageRange<K>>,
}

// Written out, so that a caller doesn't prove again how each part is dropped.
impl<K: Ord + Drop> Drop for PageRangeSnapshot<K> {
    fn drop(self) {
        let PageRangeSnapshot {
            alloc: _,
            ranges: _,
        } = self;
    }
}

impl<K: Ord> Model for PageRangeSnapshot<K> {
    ghost use Rattle.std.specs.Prelude.{ℕ, List};
    ghost use Rattle.std.specs.Coded.{coded_list, coded_ℕ};
    ghost use Rattle.merkle_diff.specs.Entry.{Entry, entry_code};

    ghost Value = { List (Entry K (List ℕ)) };

    ghost coded = { coded_list (entry_code K.code (coded_list coded_ℕ)) };

    ghost view = { λ s. s.ranges.items };
}

impl<K: Ord> PageRangeSnapshot<K> {
    /// The snapshot of `ranges`, in their order. It takes over the vector with its keys, so it always succeeds and takes no memory.
    pub fn from_owned(
        alloc: Global,
        ranges: Vec<OwnedPageRange<K>>,
    ) -> Result<PageRangeSnapshot<K>, AllocError>
        ensures { IsOkAnd result (λ snapshot. snapshot ≡ ranges.items) }
    {
        Ok(PageRangeSnapshot { alloc, ranges })
    }

    /// The ranges that the snapshot was made from, in order, with their keys borrowed.
    pub fn iter(&self) -> SnapshotIter<'_, K>
        ensures { result ≡ self.now }
    {
        SnapshotIter { rest: &self.ranges }
    }
}

impl<K: Ord + Drop> PageRangeSnapshot<K> {
    /// The snapshot of the ranges that `iter` gives, in their order. The keys are moved. The iterator has to end, and is taken to its
    /// end unless memory runs out.
    ///
    /// # Errors
    ///
    /// Out of memory: the ranges are dropped.
    pub fn collect_owned<T>(alloc: Global, iter: T) -> Result<PageRangeSnapshot<K>, AllocError>
    where
        T: IntoIterator<Item = OwnedPageRange<K>>,
        requires ends { IsFiniteIterable T.into_iter_gives T.IntoIter.can_next T.IntoIter.remaining iter }
        ensures { IfOk result (Gives T.into_iter_gives T.IntoIter.next_gives iter) }
    {
        Ok(PageRangeSnapshot {
            alloc,
            ranges: iter.into_iter().collect(alloc)?,
        })
    }
}

impl<K: SameClone> PageRangeSnapshot<K> {
    /// The snapshot of `ranges`, in their order, with clones of the keys, two a range.
    ///
    /// # Errors
    ///
    /// Out of memory, for the snapshot or for the clone of a key.
    pub fn from_ranges(
        alloc: Global,
        ranges: Vec<PageRange<'_, K>>,
    ) -> Result<PageRangeSnapshot<K>, AllocError>
        ensures { IfOk result (SameEntries K.cmp (entries ranges.entry.items)) }
    {
        PageRangeSnapshot::collect_ranges(alloc, ranges)
    }

    /// The snapshot of the ranges that `iter` gives, in their order, with clones of the keys, two a range. The iterator has to end, and
    /// is taken to its end unless memory runs out.
    ///
    /// # Errors
    ///
    /// Out of memory, for the snapshot or for the clone of a key.
    pub fn collect_ranges<'a, T>(alloc: Global, iter: T) -> Result<PageRangeSnapshot<K>, AllocError>
    where
        K: 'a,
        T: IntoIterator<Item = PageRange<'a, K>>,
        requires ends { IsFiniteIterable T.into_iter_gives T.IntoIter.can_next T.IntoIter.remaining iter }
        ensures { IfOk result (HasClonesOf K.cmp (Gives T.into_iter_gives T.IntoIter.next_gives iter)) }
    {
        let iter = iter.into_iter();
        let mut ranges = Vec::with_capacity(alloc, iter.size_hint().0)?;
        'clones: for range in iter {
            ranges.push(OwnedPageRange::from_range(alloc, range)?)?;
        }
        PageRangeSnapshot::from_owned(alloc, ranges)
    }

    /// An equal snapshot, with clones of the keys, two a range.
    ///
    /// # Errors
    ///
    /// Out of memory, for the snapshot or for the clone of a key. This snapshot stays.
    pub fn try_clone(&self) -> Result<PageRangeSnapshot<K>, AllocError>
        ensures same { IfOk result (SameEntries K.cmp self.now) }
        ensures equal { IfOk result (EqualBothWays ⟦<PageRangeSnapshot<K> as PartialEq>⟧.eq self.now) }
    {
        PageRangeSnapshot::collect_ranges(self.alloc, self.iter())
    }
}

/// Snapshots are equal where they have as many ranges, and these are equal place by place.
impl<K: Ord> PartialEq for PageRangeSnapshot<K> {
    ghost eq = { same_entries K.eq ⟦<PageDigest as PartialEq>⟧.eq };

    ghost laws = { lists_per (Prim.search (comparing, rules)) };

    fn eq(&self, other: &Self) -> bool {
        self.ranges == other.ranges
    }
}

impl<K: Ord> Eq for PageRangeSnapshot<K> {
    ghost laws = { lists_equiv (Prim.search (comparing, rules)) };
}

/// The ranges of a [`PageRangeSnapshot`] that are still to come, in order. A contract sees the list of them. It takes no memory.
#[derive(Drop)]
pub struct SnapshotIter<'a, K: Ord> {
    rest: &'a [OwnedPageRange<K>],
}

impl<'a, K: Ord> Model for SnapshotIter<'a, K> {
    ghost use Rattle.std.specs.Prelude.{ℕ, List};
    ghost use Rattle.std.specs.Coded.{coded_list, coded_ℕ};
    ghost use Rattle.merkle_diff.specs.Entry.{Entry, entry_code};

    ghost Value = { List (Entry K (List ℕ)) };

    ghost coded = { coded_list (entry_code K.code (coded_list coded_ℕ)) };

    ghost view = { λ it. it.rest.now };
}

impl<'a, K: Ord> Iterator for SnapshotIter<'a, K> {
    type Item = PageRange<'a, K>;

    ghost next_gives = { YieldsFirstBy entry (λ rest. rest) };

    ghost remaining = { item_count (λ rest. rest) };

    fn next(&mut self) -> Option<PageRange<'a, K>> {
        let (first, rest) = self.rest.split_first()?;
        self.rest = rest;
        Some(first.as_page_range())
    }

    fn size_hint(&self) -> (usize, Option<usize>)
        ensures lower { IsWithinCount result.0 (item_count (λ rest. rest) self.now) }
        ensures upper { IfSome result.1 (UpTo (item_count (λ rest. rest) self.now)) }
        ensures exact { result ≡ (length self.now, Some (length self.now)) }
    {
        let len = self.len();
        (len, Some(len))
    }
}

impl<'a, K: Ord> ExactSizeIterator for SnapshotIter<'a, K> {
    fn len(&self) -> usize {
        self.rest.len()
    }
}

impl<'a, K: Ord> FusedIterator for SnapshotIter<'a, K> {}
