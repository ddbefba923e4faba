//! A removal of a key that was new takes its upsert back.
ghost use Rattle.std.specs.Prelude.{◌≡◌, OnOk, false};
ghost use Rattle.std.specs.Cmp.{IsTotalOrder};
ghost use Rattle.key_order.specs.Order.{Same};
ghost use Rattle.key_order.specs.Map.{SameMap, has_key};
ghost use Rattle.merkle_tree_theory.specs.Canonical.{SamePages};
ghost use Rattle.merkle_tree_theory.specs.State.{map_of, SameSettings};

use merkle_digest::{Hasher, Key};
use merkle_search_tree::MerkleSearchTree;
use merkle_search_tree::laws::{a_map_has_one_tree, every_tree_is_sound};
use std::alloc::AllocError;

/// Keys are totally ordered, and a clone is the same key.
fn keys_have_laws<K: Key>()
    ensures total { IsTotalOrder K.cmp }
    ensures clones { (a b : K) → K.is_clone a b → Same K.cmp a b }
{}

/// Sets a key, and takes it out again.
#[tactic(auto, using(crate::proofs::RemovedKeys::undo_rules))]
fn undo<K: Key + Drop, V: Eq + Drop, H: Hasher<N, K> + Hasher<N, V>, const N: usize>(
    tree: &mut MerkleSearchTree<K, V, H, N>,
    key: K,
    value: &V,
) -> Result<(), AllocError>
    ensures map { has_key K.cmp (map_of tree.old) key ≡ false → OnOk result (map_of tree.new ≡ map_of tree.old) }
    ensures same { has_key K.cmp (map_of tree.old) key ≡ false → OnOk result (SameMap K.cmp (λ d e. d ≡ e) (map_of tree.old) (map_of tree.new)) }
    ensures settings { OnOk result (SameSettings tree.old tree.new) }
{
    keys_have_laws::<K>();
    let copy = key.clone()?;
    tree.upsert(copy, value)?;
    let _ = tree.remove(&key)?;
    Ok(())
}

/// Sets a key, and takes it out again: if it was new, the tree has the map and, apart from caches, the pages that it had.
///
/// # Errors
///
/// Out of memory.
pub fn set_and_remove<K: Key + Drop, V: Eq + Drop, H: Hasher<N, K> + Hasher<N, V>, const N: usize>(
    tree: &mut MerkleSearchTree<K, V, H, N>,
    key: K,
    value: &V,
) -> Result<(), AllocError>
    ensures map { has_key K.cmp (map_of tree.old) key ≡ false → OnOk result (map_of tree.new ≡ map_of tree.old) }
    ensures pages { has_key K.cmp (map_of tree.old) key ≡ false → OnOk result (SamePages K.cmp tree.old.root tree.new.root) }
{
    a_map_has_one_tree::<K, H, N>();
    every_tree_is_sound(tree);
    undo(tree, key, value)?;
    every_tree_is_sound(tree);
    Ok(())
}
