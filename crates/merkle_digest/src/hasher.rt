//! Hash functions from values to digests.

ghost use Rattle.std.specs.Prelude.{◌≡◌, ℕ, List, true, ◌<◌, ◌^◌};

use crate::digest::Digest;

/// A hash function from values of type `T` to digests of `N` bytes.
///
/// The digest is a function of the hasher and the value, so peers whose hashers are equal give equal digests. Every
/// implementation proves that equal values get equal digests.
///
/// ```rust crates/c_trees/src/byte_hasher.rt
/// ghost digest_of = { λ hashing key. key_digest hashing key.items };
///
/// ghost respects_eq = { λ hashing a b equal. ap (key_digest hashing) (same_text a.items b.items (sym equal)) };
///
/// ghost fits = { lit< tt };
///
/// fn hash(&self, value: &Vec<u8>) -> Digest<16> {
///     Digest::new(self.hash_key(value.as_slice()))
/// }
/// ```
pub trait Hasher<const N: usize, T: Eq> {
    /// The bytes of the digest of a value under a hasher.
    ghost digest_of: { Self → T → List ℕ };

    /// The digest of `value`.
    fn hash(&self, value: &T) -> Digest<N>
        ensures { result ≡ digest_of self.now value.now };

    /// Equal values get equal digests.
    ghost respects_eq: { (hasher : Self) (a b : T) → T.eq a b ≡ true → digest_of hasher a ≡ digest_of hasher b };

    /// A digest has fewer than 2 ^ 63 bytes, as each array that memory can hold.
    ghost fits: { N < 2 ^ 63 };
}
