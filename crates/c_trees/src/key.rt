//! Keys that lie in a list.
ghost use Rattle.std.proofs.Common.{rules};
ghost use Rattle.std.specs.Cmp.Lexicographic.{lists_equiv, lists_per, lists_total, pointwise, slice_cmp};
ghost use Rattle.std.specs.Cmp.{partial_order_from_own_ties};
ghost use Rattle.std.specs.Cmp.Rules.{comparing};
ghost use Rattle.std.specs.Ordering.{as_partial_cmp, nat_cmp};
ghost use Rattle.std.specs.Prelude.{◌≡◌, ◌==◌, ℕ, List};

use std::cmp::Ordering;
use std::marker::Model;

/// A key, as bytes that lie in a list. A contract sees its bytes.
#[derive(Drop)]
pub struct Key<'b> {
    bytes: &'b [u8],
}

impl<'b> Model for Key<'b> {
    ghost Value = { List ℕ };

    ghost view = { λ k. k.bytes.now };
}

impl<'b> Key<'b> {
    /// The key of these bytes.
    pub fn new(bytes: &'b [u8]) -> Key<'b>
        ensures { result ≡ bytes.now }
    {
        Key { bytes }
    }

    /// The bytes of the key.
    pub fn bytes(&self) -> &'b [u8]
        ensures { result.now ≡ self.now }
    {
        self.bytes
    }
}

/// Keys are equal where their bytes are.
impl<'b> PartialEq for Key<'b> {
    ghost eq = { pointwise ◌==◌ };

    ghost laws = { lists_per (Prim.search (comparing, rules)) };

    fn eq(&self, other: &Self) -> bool {
        self.bytes == other.bytes
    }
}

impl<'b> Eq for Key<'b> {
    ghost laws = { lists_equiv (Prim.search (comparing, rules)) };
}

impl<'b> PartialOrd for Key<'b> {
    ghost partial_cmp = { as_partial_cmp (slice_cmp nat_cmp) };

    ghost laws = { partial_order_from_own_ties (Prim.search (comparing, rules)) (Prim.search (comparing, rules)) };

    fn partial_cmp(&self, other: &Self) -> Option<Ordering> {
        Some(self.cmp(other))
    }
}

/// Keys are in the order of their bytes.
impl<'b> Ord for Key<'b> {
    ghost cmp = { slice_cmp nat_cmp };

    ghost total = { Prim.search (comparing, rules) };

    ghost matches_partial_cmp = { Prim.search (comparing, rules) };

    ghost matches_eq = { Prim.search (comparing, rules) };

    fn cmp(&self, other: &Self) -> Ordering {
        self.bytes.cmp(&other.bytes)
    }
}
