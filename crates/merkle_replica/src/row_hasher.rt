//! What a replica needs of a hasher, in one bound.
ghost use Rattle.std.specs.Prelude.{◌≡◌, refl};

use key_order::Join;
use merkle_digest::{Hasher, KeyBytes};

/// A hasher of the keys and of the values of a replica: every type that is `Hasher<N, K>` and `Hasher<N, V>` is one. It has no call of
/// its own; a contract finds in it, as `H.laws`, what pulls need to know of keys and values.
pub trait RowHasher<const N: usize, K: Ord + KeyBytes, V: Join>: Hasher<N, K> + Hasher<N, V> {
    ghost use Rattle.merkle_replica.specs.Laws.{Laws};

    /// The order of keys, their bytes and digests; the equality of values, their join and digests.
    ghost laws: { Laws K V Self };

    /// They are those of the key's order, of the value's join, and of both hashers.
    ghost laws_are: { laws ≡ record {
      cmp = K.cmp;
      bytes_of = K.bytes_of;
      key_digest = ⟦<Self as Hasher<N, K>>⟧.digest_of;
      eq = V.eq;
      join = V.join_of;
      value_digest = ⟦<Self as Hasher<N, V>>⟧.digest_of;
    } };
}

impl<const N: usize, K: Ord + KeyBytes, V: Join, H: Hasher<N, K> + Hasher<N, V>> RowHasher<N, K, V>
    for H {
    ghost laws = { record {
      cmp = K.cmp;
      bytes_of = K.bytes_of;
      key_digest = ⟦<H as Hasher<N, K>>⟧.digest_of;
      eq = V.eq;
      join = V.join_of;
      value_digest = ⟦<H as Hasher<N, V>>⟧.digest_of;
    } };

    ghost laws_are = { refl };
}
