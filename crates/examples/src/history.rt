//! A history of updates that ends with a removal and a root hash.
ghost use Rattle.std.specs.Prelude.{◌≡◌, Some, IfOk, false, true, string_bytes};
ghost use Rattle.key_order.specs.Map.{has_key};
ghost use Rattle.key_order.specs.Text.{text_order};
ghost use Rattle.merkle_tree_theory.specs.State.{map_of};
ghost use Rattle.merkle_tree_theory.specs.Stream.{page_digest};

use merkle_digest::SipHasher;
use merkle_search_tree::MerkleSearchTree;
use merkle_search_tree::builder::Builder;
use merkle_search_tree::laws::a_hashed_tree_has_every_digest;
use merkle_search_tree::updates::{Update, replay};
use std::alloc::{AllocError, Global};

/// A tree of texts and numbers.
pub type Tree = MerkleSearchTree<String, u64, SipHasher, 16>;

/// The tree that updates lead to with a removal of a key and a root hash after them, and whether the removal was accepted: the key is gone then.
/// Whether it was or not, the tree is hashed.
///
/// # Errors
///
/// Out of memory for the lists.
#[tactic(auto, using(crate::proofs::RemovedKeys::history_rules))]
pub fn replay_and_remove(
    alloc: Global,
    builder: Builder<SipHasher>,
    updates: Vec<Update<String, u64>>,
    key: String,
) -> Result<(Tree, bool), AllocError>
    ensures gone { IfOk result (λ r. r.1 ≡ true → has_key text_order (map_of r.0) key ≡ false) }
    ensures hashed { IfOk result (λ r. r.0.root_hash ≡ Some (page_digest builder.format string_bytes r.0.root)) }
{
    let mut all = updates;
    all.push(Update::Remove(key))?;
    all.push(Update::RootHash)?;
    let (tree, mut accepted) = replay(alloc, builder, all)?;
    a_hashed_tree_has_every_digest(&tree);
    let (Some(_), Some(is_gone)) = (accepted.pop(), accepted.pop()) else {
        unreachable!()
    };
    Ok((tree, is_gone))
}
