//! Whether digests of values tell values apart, and whether two sides digest values alike.
ghost use Rattle.std.specs.Prelude.{◌↔◌, IsTrue};
ghost use Rattle.std.specs.List.{All};
ghost use Rattle.merkle_audit.specs.Values.{HasOneDigest, IsToldApart};
ghost use Rattle.merkle_replica.specs.Contents.{side};
ghost use Rattle.merkle_replica.specs.Faithful.{HaveFaithfulValues};
ghost use Rattle.merkle_wire.specs.Sessions.{DigestTheirValuesAlike};

use merkle_digest::{Hasher, Key};
use merkle_replica::{Join, Replica, RowHasher};

/// Whether, at each key that two replicas have, the two values are equal where their digests are. It looks each key of the one up in the
/// other, which finds it by halving, hashes two values where they are not equal, and takes no memory.
pub fn have_faithful_values<K: Key + Drop, V: Join + Drop, H: RowHasher<N, K, V>, const N: usize>(
    a: &Replica<K, V, H, N>,
    b: &Replica<K, V, H, N>,
) -> bool
    ensures { IsTrue result ↔ HaveFaithfulValues H.laws (side a.now) (side b.now) }
{
    are_told_apart(a.rows(), a, b)
}

/// Whether the value of each row, digested as the one replica does, is told apart from the value of the other at its key.
fn are_told_apart<K: Key + Drop, V: Join + Drop, H: Hasher<N, K> + Hasher<N, V>, const N: usize>(
    rows: &[(K, V)],
    a: &Replica<K, V, H, N>,
    b: &Replica<K, V, H, N>,
) -> bool
    ensures { IsTrue result ↔ All (IsToldApart K.cmp V.eq ⟦<H as Hasher<N, V>>⟧.digest_of a.now b.now) rows.now }
{
    'rows: for row in rows {
        if !is_told_apart(row, a, b) {
            return false;
        }
    }
    true
}

/// Whether the value of a row, digested as the one replica does, and that of the other at its key are equal where their digests are.
fn is_told_apart<K: Key + Drop, V: Join + Drop, H: Hasher<N, K> + Hasher<N, V>, const N: usize>(
    row: &(K, V),
    a: &Replica<K, V, H, N>,
    b: &Replica<K, V, H, N>,
) -> bool
    ensures { IsTrue result ↔ IsToldApart K.cmp V.eq ⟦<H as Hasher<N, V>>⟧.digest_of a.now b.now row.now }
{
    match b.row_at(&row.0) {
        None => true,
        Some(other) => {
            row.1 == other.1 || a.tree().value_digest(&row.1) != b.tree().value_digest(&other.1)
        }
    }
}

/// Whether a side and its peer give the value of each row of the peer one digest. It hashes each of them twice, and takes no memory.
pub fn digest_their_values_alike<
    K: Key + Drop,
    V: Join + Drop,
    H: RowHasher<N, K, V>,
    const N: usize,
>(local: &Replica<K, V, H, N>, peer: &Replica<K, V, H, N>) -> bool
    ensures { IsTrue result ↔ DigestTheirValuesAlike H.laws (side local.now) (side peer.now) }
{
    have_one_digest(peer.rows(), local, peer)
}

/// Whether two replicas give the value of each row one digest.
fn have_one_digest<K: Key + Drop, V: Join + Drop, H: Hasher<N, K> + Hasher<N, V>, const N: usize>(
    rows: &[(K, V)],
    a: &Replica<K, V, H, N>,
    b: &Replica<K, V, H, N>,
) -> bool
    ensures { IsTrue result ↔ All (HasOneDigest ⟦<H as Hasher<N, V>>⟧.digest_of a.now b.now) rows.now }
{
    'rows: for row in rows {
        if !has_one_digest(row, a, b) {
            return false;
        }
    }
    true
}

/// Whether two replicas give the value of a row one digest.
fn has_one_digest<K: Key + Drop, V: Join + Drop, H: Hasher<N, K> + Hasher<N, V>, const N: usize>(
    row: &(K, V),
    a: &Replica<K, V, H, N>,
    b: &Replica<K, V, H, N>,
) -> bool
    ensures { IsTrue result ↔ HasOneDigest ⟦<H as Hasher<N, V>>⟧.digest_of a.now b.now row.now }
{
    a.tree().value_digest(&row.1) == b.tree().value_digest(&row.1)
}
