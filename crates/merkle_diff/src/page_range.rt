//! The key ranges of pages.
ghost use Rattle.std.proofs.Common.{rules};
ghost use Rattle.std.specs.Cmp.Rules.{comparing};
ghost use Rattle.std.specs.Fmt.{◌++?◌};
ghost use Rattle.std.specs.Ordering.{eq_of_both, on};
ghost use Rattle.std.specs.Prelude.{◌≡◌, ◌↔◌, codes, IsSome, IfSome, Some, IsTrue, ⊤};
ghost use Rattle.key_order.specs.Order.{Upto};

use crate::diff_range::DiffRange;
use merkle_digest::PageDigest;
use std::alloc::AllocError;
use std::fmt;

/// The span of a page, from the least to the greatest key of its subtree, both in it, and the page's digest. The least key is
/// at most the greatest, always.
#[derive(Drop)]
pub struct PageRange<'a, K: Ord> {
    start: &'a K,
    end: &'a K,
    hash: PageDigest,
    ghost ordered: { Upto K.cmp start.now end.now },
}

impl<'a, K: Ord> PageRange<'a, K> {
    ghost use Rattle.key_order.specs.Interval.{IsWithin};
    ghost use Rattle.merkle_diff.specs.DiffRange.{span};
    ghost use Rattle.merkle_diff.specs.Entry.{EntryWithin, span_of};
    ghost use Rattle.merkle_diff.specs.PageRange.{entry};

    /// The range from `start` to `end` of a page with the digest `hash`. `start` has to be at most `end`, which
    /// [`try_new`](PageRange::try_new) tests.
    pub fn new(start: &'a K, end: &'a K, hash: PageDigest) -> PageRange<'a, K>
        requires { Upto K.cmp start.now end.now }
        ensures { entry result ≡ record { first = start.now; last = end.now; digest = hash } }
    {
        PageRange { start, end, hash }
    }

    /// The range from `start` to `end` of a page with the digest `hash`, or `None` where `start` is above `end`.
    pub fn try_new(start: &'a K, end: &'a K, hash: PageDigest) -> Option<PageRange<'a, K>>
        ensures in_order { IsSome result ↔ Upto K.cmp start.now end.now }
        ensures range { IfSome result (λ r. entry r ≡ record { first = start.now; last = end.now; digest = hash }) }
    {
        if start <= end {
            Some(PageRange { start, end, hash })
        } else {
            None
        }
    }

    /// The least key of the page's subtree.
    pub fn start(&self) -> &'a K
        ensures { result.now ≡ (entry self.now).first }
    {
        self.start
    }

    /// The greatest key of the page's subtree.
    pub fn end(&self) -> &'a K
        ensures { result.now ≡ (entry self.now).last }
    {
        self.end
    }

    /// The digest of the page.
    pub fn hash(&self) -> &PageDigest
        ensures { result.now ≡ (entry self.now).digest }
    {
        &self.hash
    }

    /// The digest of the page.
    pub fn into_hash(self) -> PageDigest
        ensures { result ≡ (entry self.entry).digest }
    {
        self.hash
    }

    /// The range without its digest.
    pub(crate) fn range(&self) -> DiffRange<'a, K>
        ensures { span result ≡ span_of (entry self.now) }
    {
        DiffRange::new(self.start, self.end)
    }
}

impl<'a, K: Ord> Clone for PageRange<'a, K> {
    ghost use Rattle.merkle_diff.specs.PageRange.{entry};

    ghost is_clone = { λ a b. entry b ≡ entry a };

    ghost is_infallible = { λ _. ⊤ };

    fn clone(&self) -> Result<Self, AllocError> {
        Ok(PageRange {
            start: self.start,
            end: self.end,
            hash: self.hash.clone()?,
        })
    }
}

/// Ranges are equal where their bounds and digests are.
impl<'a, K: Ord> PartialEq for PageRange<'a, K> {
    ghost use Rattle.merkle_diff.specs.PageRange.{entry};

    ghost eq = { eq_of_both (on (λ r. (entry r).first) K.eq) (eq_of_both (on (λ r. (entry r).last) K.eq) (on (λ r. (entry r).digest) ⟦<PageDigest as PartialEq>⟧.eq)) };

    ghost laws = { Prim.search (comparing, rules) };

    fn eq(&self, other: &Self) -> bool {
        self.start == other.start && self.end == other.end && self.hash == other.hash
    }
}

impl<'a, K: Ord> Eq for PageRange<'a, K> {
    ghost laws = { Prim.search (comparing, rules) };
}

/// A range prints as `(start, end)`.
impl<'a, K: Ord + fmt::Display> fmt::Display for PageRange<'a, K> {
    ghost use Rattle.merkle_diff.specs.PageRange.{entry};

    ghost output = { λ r. Some (codes "(") ++? K.output (entry r).first ++? Some (codes ", ") ++? K.output (entry r).last ++? Some (codes ")") };

    fn fmt<W: fmt::Write>(&self, f: &mut fmt::Formatter<W>) -> fmt::Result {
        let start = self.start;
        let end = self.end;
        write!(f, "({start}, {end})")
    }
}
