//! Values that can be joined.
ghost use Rattle.std.specs.Prelude.{◌≡◌, IfOk, IsOk, true};
ghost use Rattle.key_order.specs.Join.{IsJoining};

use std::alloc::{AllocError, Global};

/// A value that can be joined with others of its type, so that replicas that hold different values for a key come to hold the
/// same one. Every implementation proves that the order, the grouping and the repetition of the joined values don't matter.
///
/// A number joins to the greater one, and `()` to itself; a replica of the latter is a set of keys:
///
/// ```rust crates/merkle_replica_tests/src/joins.rt
/// assert_eq!(rt; Join::join(&3, rt.alloc(), &9)?, 9);
/// assert_eq!(rt; Join::join(&9, rt.alloc(), &3)?, 9);
/// assert_eq!(rt; Join::join(&(), rt.alloc(), &())?, ());
/// ```
///
/// A replica joins two values wherever a row comes whose key it has, by a put, as one of several, or in a pull,
/// which joins each value with itself before that, for a copy. So a join should cost about what a copy of the value does.
pub trait Join: Eq {
    /// The join of two values, up to equality.
    ghost join_of: { Self → Self → Self };

    /// The join of both values, which stay as they are.
    ///
    /// # Errors
    ///
    /// `AllocError` where an implementation can't make the join, such as for lack of memory. The joins of numbers, of
    /// `Greatest` of `merkle_replica` and of `()` take no memory and are never refused.
    fn join(&self, alloc: Global, other: &Self) -> Result<Self, AllocError>
        ensures { IfOk result (λ both. Self.eq both (join_of self.now other.now) ≡ true) };

    /// It is idempotent, commutative and associative, and equal values have equal joins.
    ghost joining: { IsJoining Self.eq join_of };
}

/// The greater number. It takes no memory.
impl Join for u64 {
    ghost use Rattle.std.specs.Prelude.{max};
    ghost use Rattle.key_order.specs.NumberLaws.{max_joining};

    ghost join_of = { max };

    ghost joining = { max_joining };

    /// The greater number. It is never refused.
    fn join(&self, _alloc: Global, other: &Self) -> Result<Self, AllocError>
        ensures { result ≡ Ok (max self.now other.now) }
    {
        Ok((*self).max(*other))
    }
}

/// The only value: with it a replica is a set of keys that only grows. It takes no memory.
impl Join for () {
    ghost use Rattle.std.specs.Prelude.{refl};

    ghost join_of = { λ a b. a };

    ghost joining = { record { idempotent = λ a. refl; commutative = λ a b. refl; associative = λ a b c. refl; respects = λ a b c d e f. refl } };

    /// The one value. It is never refused.
    fn join(&self, _alloc: Global, _other: &Self) -> Result<Self, AllocError>
        ensures { IsOk result }
    {
        Ok(())
    }
}
