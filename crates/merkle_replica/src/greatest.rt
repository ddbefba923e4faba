//! Values of which the greatest stays.
ghost use Rattle.std.specs.Prelude.{◌≡◌};
ghost use Rattle.std.specs.Cmp.Rules.{comparing};
ghost use Rattle.std.proofs.Common.{rules};

use key_order::Join;
use merkle_digest::{HashBytes, Sip24};
use std::alloc::{AllocError, Global};

/// A value of any totally ordered type that can be copied. Two of them are joined by the greater one, as by their order.
///
/// With a time in front, as in `Greatest((time, (writer, value)))`, the last writer wins.
#[derive(Clone, Copy, Debug, PartialEq, Eq, PartialOrd, Ord)]
pub struct Greatest<T>(pub T);

/// The greater value. It takes no memory.
impl<T: Ord + Copy> Join for Greatest<T> {
    ghost use Rattle.std.specs.Ordering.{ord_max};
    ghost use Rattle.key_order.proofs.Greater.{greater_joining};

    ghost join_of = { ord_max (λ a b. T.cmp a.0 b.0) };

    ghost joining = { greater_joining (λ (a : Self) (b : Self). T.cmp a.0 b.0) (Prim.search (comparing, rules)) (λ (a : Self) (b : Self). T.eq a.0 b.0) (Prim.search (comparing, rules)) };

    /// The greater value, and of two equal ones the other. It is never refused.
    fn join(&self, _alloc: Global, other: &Self) -> Result<Self, AllocError>
        ensures { result ≡ Ok (ord_max (λ a b. T.cmp a.0 b.0) self.now other.now) }
    {
        Ok((*self).max(*other))
    }
}

/// The bytes of the value.
impl<T: HashBytes> HashBytes for Greatest<T> {
    ghost fed_bytes = { λ greatest. T.fed_bytes greatest.0 };

    ghost fed_bytes_respect_eq = { λ a b equal. T.fed_bytes_respect_eq a.0 b.0 equal };

    fn feed(&self, sip: &mut Sip24) {
        self.0.feed(sip);
    }
}
