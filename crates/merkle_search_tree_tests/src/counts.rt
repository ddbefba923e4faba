//! A count of nodes, which is proved to be the number of keys; and what a call on trees tells its caller.

ghost use Rattle.std.specs.Prelude.{◌≡◌, ◌-◌, ◌^◌, length, min};
ghost use Rattle.merkle_tree_theory.specs.State.{map_of};

use crate::refusals::NINE;
use merkle_digest::{Hasher, KeyBytes};
use merkle_search_tree::MerkleSearchTree;
use std::alloc::AllocError;
use test_trees::tally::Tally;
use test_trees::trees::tree;

/// How many nodes a tree has, but at most `usize::MAX`: as many as its map has keys.
pub fn count_nodes<K: Ord + KeyBytes, V, H: Hasher<N, K>, const N: usize>(
    tree: &MerkleSearchTree<K, V, H, N>,
) -> usize
    ensures { result ≡ min (length (map_of tree.now)) (2 ^ 64 - 1) }
{
    let mut tally = Tally::new();
    tree.in_order_traversal(&mut tally);
    tally.nodes
}

/// Hashes a tree, and returns how many of its pages lack a digest then.
fn lacking_once_hashed<K: Ord + KeyBytes, V, H: Hasher<N, K>, const N: usize>(
    tree: &mut MerkleSearchTree<K, V, H, N>,
) -> usize
    ensures none { result ≡ 0 }
    ensures map { map_of tree.new ≡ map_of tree.old }
{
    tree.root_hash();
    tree.pages_to_hash()
}

#[test]
fn counts_the_keys(rt: HostRuntime) -> Result<(), AllocError> {
    let mut tree = tree(rt.alloc(), &NINE)?;
    assert!(rt; count_nodes(&tree) == 9);
    assert!(rt; lacking_once_hashed(&mut tree) == 0);
    Ok(())
}
