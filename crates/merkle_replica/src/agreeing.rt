//! Agreeing: one root hash tells whether two replicas have equal rows.
ghost use Rattle.std.specs.Prelude.{◌≡◌, IsTrue};
ghost use Rattle.merkle_tree_theory.specs.State.{SameSettings};
ghost use Rattle.merkle_replica.specs.Contents.{side};
ghost use Rattle.merkle_replica.specs.Agreeing.{AreEqualWhileFaithful, IsTrueWhereEqual};

use crate::replica::Replica;
use crate::row_hasher::RowHasher;
use key_order::Join;
use merkle_digest::Key;
use merkle_search_tree::laws::{a_map_has_one_tree, every_tree_is_sound};

/// Whether two replicas have one root hash: both are hashed for it, and their rows stay. True means that their rows are equal, as long as
/// pages and values that differ have digests that differ. False means that their rows differ, where both digest alike: by one hasher, level
/// base and page format. It costs what [`Replica::root_hash`] costs of both.
///
/// ```rust crates/merkle_replica_tests/src/agreeing.rt
/// let mut a = counts(alloc, &[("apples", 3), ("bananas", 5), ("cherries", 1)])?;
/// let mut b = counts(alloc, &[("cherries", 1), ("apples", 3), ("bananas", 5)])?;
/// assert!(rt; agree(&mut a, &mut b));
/// ```
pub fn agree<K: Key + Drop, V: Join + Drop, H: RowHasher<N, K, V>, const N: usize>(
    a: &mut Replica<K, V, H, N>,
    b: &mut Replica<K, V, H, N>,
) -> bool
    // While digests are faithful, replicas with one root hash have equal rows.
    ensures told { IsTrue result → AreEqualWhileFaithful H.laws (side a.old) (side b.old) }

    // Replicas that digest alike and have equal rows have one root hash.
    ensures alike { IsTrueWhereEqual H.laws (side a.old) (side b.old) result }

    ensures a_rows { a.new.rows ≡ a.old.rows }
    ensures b_rows { b.new.rows ≡ b.old.rows }
    ensures a_settings { SameSettings a.old.tree a.new.tree }
    ensures b_settings { SameSettings b.old.tree b.new.tree }
{
    a_map_has_one_tree::<K, H, N>();
    every_tree_is_sound(a.tree());
    every_tree_is_sound(b.tree());
    let _ = a.rows();
    let _ = b.rows();
    a.root_hash() == b.root_hash()
}
