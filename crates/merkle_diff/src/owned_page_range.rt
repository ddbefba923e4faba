//! The key ranges of pages, with keys of their own.
ghost use Rattle.std.proofs.Common.{rules};
ghost use Rattle.std.specs.Cmp.Rules.{comparing};
ghost use Rattle.std.specs.Prelude.{◌≡◌, ◌↔◌, IfOk, IfSome, IsSome};
ghost use Rattle.key_order.specs.Order.{Upto};

use crate::page_range::PageRange;
use merkle_digest::{PageDigest, SameClone};
use std::alloc::{AllocError, Global};
use std::marker::Model;

/// A [`PageRange`] that owns its keys: the span of a page, from the least to the greatest key of its subtree, both in it, and
/// the page's digest. The least key is at most the greatest, always. A contract sees the bounds and the digest.
///
/// A [`PageRangeSnapshot`](crate::PageRangeSnapshot) is made of such ranges without a clone of any key.
pub struct OwnedPageRange<K: Ord> {
    start: K,
    end: K,
    hash: PageDigest,
}

// Written out, so that a caller doesn't prove again how each part is dropped.
impl<K: Ord + Drop> Drop for OwnedPageRange<K> {
    fn drop(self) {
        let OwnedPageRange {
            start: _,
            end: _,
            hash: _,
        } = self;
    }
}

impl<K: Ord> Model for OwnedPageRange<K> {
    ghost use Rattle.std.specs.Prelude.{ℕ, List};
    ghost use Rattle.std.specs.Coded.{coded_list, coded_ℕ};
    ghost use Rattle.key_order.specs.Order.{Upto};
    ghost use Rattle.merkle_diff.specs.Entry.{Entry, entry_code};

    ghost Value = { Entry K (List ℕ) };

    ghost coded = { entry_code K.code (coded_list coded_ℕ) };

    ghost view = { λ r. record { first = r.start; last = r.end; digest = r.hash } };

    ghost invariant = { λ r. Upto K.cmp r.start r.end };
}

impl<K: Ord> OwnedPageRange<K> {
    ghost use Rattle.merkle_diff.specs.PageRange.{entry};

    /// The range from `start` to `end` of a page with the digest `hash`. `start` has to be at most `end`, which
    /// [`try_new`](OwnedPageRange::try_new) tests.
    pub fn new(start: K, end: K, hash: PageDigest) -> OwnedPageRange<K>
        requires { Upto K.cmp start end }
        ensures { result ≡ record { first = start; last = end; digest = hash } }
    {
        OwnedPageRange { start, end, hash }
    }

    /// The least key of the page's subtree.
    pub fn start(&self) -> &K
        ensures { result.now ≡ self.now.first }
    {
        &self.start
    }

    /// The greatest key of the page's subtree.
    pub fn end(&self) -> &K
        ensures last { result.now ≡ self.now.last }
        ensures ordered { Upto K.cmp self.now.first self.now.last }
    {
        &self.end
    }

    /// The digest of the page.
    pub fn hash(&self) -> &PageDigest
        ensures { result.now ≡ self.now.digest }
    {
        &self.hash
    }

    /// The same range, with the keys borrowed. It copies the digest, 16 bytes, and takes no memory.
    pub fn as_page_range(&self) -> PageRange<'_, K>
        ensures { entry result ≡ self.now }
    {
        PageRange::new(&self.start, &self.end, self.hash.clone().unwrap())
    }
}

impl<K: Ord + Drop> OwnedPageRange<K> {
    /// The range from `start` to `end` of a page with the digest `hash`, or `None` where `start` is above `end`.
    pub fn try_new(start: K, end: K, hash: PageDigest) -> Option<OwnedPageRange<K>>
        ensures in_order { IsSome result ↔ Upto K.cmp start end }
        ensures range { IfSome result (λ r. r ≡ record { first = start; last = end; digest = hash }) }
    {
        if start <= end {
            Some(OwnedPageRange::new(start, end, hash))
        } else {
            None
        }
    }
}

impl<K: SameClone> OwnedPageRange<K> {
    ghost use Rattle.merkle_diff.specs.Entry.{SucceedsAtBounds};
    ghost use Rattle.merkle_diff.specs.PageRange.{entry};
    ghost use Rattle.merkle_diff.specs.SameEntries.{EqualBothWays, SameEntry};

    /// The range with clones of its two keys. The allocator is not used: a key is cloned on its own.
    ///
    /// # Errors
    ///
    /// `AllocError` where the clone of a key is refused, and only there.
    pub fn from_range(
        _alloc: Global,
        range: PageRange<'_, K>,
    ) -> Result<OwnedPageRange<K>, AllocError>
        ensures same { IfOk result (SameEntry K.cmp (entry range.entry)) }
        ensures succeeds { SucceedsAtBounds K.is_infallible (entry range.entry) result }
    {
        let start = range.start().clone()?;
        let end = range.end().clone()?;
        Ok(OwnedPageRange {
            start,
            end,
            hash: range.into_hash(),
        })
    }

    /// An equal range, with clones of its two keys. The allocator is not used: a key is cloned on its own.
    ///
    /// # Errors
    ///
    /// `AllocError` where the clone of a key is refused, and only there.
    pub fn try_clone(&self, alloc: Global) -> Result<OwnedPageRange<K>, AllocError>
        ensures same { IfOk result (SameEntry K.cmp self.now) }
        ensures equal { IfOk result (EqualBothWays ⟦<OwnedPageRange<K> as PartialEq>⟧.eq self.now) }
        ensures succeeds { SucceedsAtBounds K.is_infallible self.now result }
    {
        OwnedPageRange::from_range(alloc, self.as_page_range())
    }
}

/// Ranges are equal where their bounds and digests are.
impl<K: Ord> PartialEq for OwnedPageRange<K> {
    ghost use Rattle.merkle_diff.specs.SameEntries.{same_entry};

    ghost eq = { same_entry K.eq ⟦<PageDigest as PartialEq>⟧.eq };

    ghost laws = { Prim.search (comparing, rules) };

    fn eq(&self, other: &Self) -> bool {
        self.start == other.start && self.end == other.end && self.hash == other.hash
    }
}

impl<K: Ord> Eq for OwnedPageRange<K> {
    ghost laws = { Prim.search (comparing, rules) };
}
