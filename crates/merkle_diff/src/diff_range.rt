//! Ranges of keys that a peer is asked for.
ghost use Rattle.std.proofs.Common.{rules};
ghost use Rattle.std.specs.Cmp.Rules.{comparing};
ghost use Rattle.std.specs.Ordering.{eq_of_both, on};
ghost use Rattle.std.specs.Prelude.{◌≡◌, ⊤};
ghost use Rattle.key_order.specs.Interval.{is_within};
ghost use Rattle.key_order.specs.Order.{Upto};

use key_order::is_upto;
use std::alloc::AllocError;

/// A range of keys that a peer is asked for, from `start` to `end`, both in it. `start` is at most `end`, always.
#[derive(Drop)]
pub struct DiffRange<'a, K: Ord> {
    pub(crate) start: &'a K,
    end: &'a K,
    ghost ordered: { Upto K.cmp start.now end.now },
}

impl<'a, K: Ord> DiffRange<'a, K> {
    ghost use Rattle.merkle_diff.specs.DiffRange.{span};

    /// The range from `start` to `end`, of which the first has to be at most the second.
    pub fn new(start: &'a K, end: &'a K) -> DiffRange<'a, K>
        requires { Upto K.cmp start.now end.now }
        ensures { span result ≡ record { first = start.now; last = end.now } }
    {
        DiffRange { start, end }
    }

    /// The least key of the range.
    pub fn start(&self) -> &'a K
        ensures { result.now ≡ (span self.now).first }
    {
        self.start
    }

    /// The greatest key of the range.
    pub fn end(&self) -> &'a K
        ensures { result.now ≡ (span self.now).last }
    {
        self.end
    }

    /// Whether the range is within `outer`, which then holds it. Equal ranges hold each other.
    pub(crate) fn is_within(&self, outer: &DiffRange<'_, K>) -> bool
        ensures { result ≡ is_within K.cmp (span self.now) (span outer.now) }
    {
        is_upto(outer.start, self.start) && is_upto(self.end, outer.end)
    }
}

impl<'a, K: Ord> Clone for DiffRange<'a, K> {
    ghost is_clone = { λ a b. b ≡ a };

    ghost is_infallible = { λ _. ⊤ };

    fn clone(&self) -> Result<Self, AllocError> {
        Ok(*self)
    }
}

impl<'a, K: Ord> Copy for DiffRange<'a, K> {}

/// Ranges are equal where their bounds are.
impl<'a, K: Ord> PartialEq for DiffRange<'a, K> {
    ghost use Rattle.merkle_diff.specs.DiffRange.{span};

    ghost eq = { eq_of_both (on (λ r. (span r).first) K.eq) (on (λ r. (span r).last) K.eq) };

    ghost laws = { Prim.search (comparing, rules) };

    fn eq(&self, other: &Self) -> bool {
        self.start == other.start && self.end == other.end
    }
}

impl<'a, K: Ord> Eq for DiffRange<'a, K> {
    ghost laws = { Prim.search (comparing, rules) };
}
