//! The hasher of values, under a name of its own.
ghost use Rattle.std.specs.Prelude.{◌≡◌, List, ℕ};

use merkle_digest::{Digest, Hasher};

/// A hasher of values: every `Hasher<N, V>` is one. It lets the invariant of a replica tell its hasher of values from its hasher
/// of keys.
pub trait ValueHasher<const N: usize, V: Eq> {
    /// The bytes of the digest of a value under a hasher.
    ghost value_digest: { Self → V → List ℕ };

    /// The digest of `value`.
    fn hash_value(&self, value: &V) -> Digest<N>
        ensures { result ≡ value_digest self.now value.now };
}

impl<const N: usize, V: Eq, H: Hasher<N, V>> ValueHasher<N, V> for H {
    ghost value_digest = { H.digest_of };

    fn hash_value(&self, value: &V) -> Digest<N> {
        self.hash(value)
    }
}
