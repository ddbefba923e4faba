//! Laws over the definitions alone. Each function has no effect and takes no memory; what it ensures holds of every tree, or, of
//! the laws of `merkle_tree_theory`, which take no tree, of every map and every tree that a contract can speak of.
//!
//! A body that borrows a field of a tree, as `let _ = &tree.root;`, does nothing but bring the tree's invariant into view of its proof.

ghost use Rattle.std.specs.Prelude.{⊤, MatchOption};
ghost use Rattle.merkle_tree_theory.specs.Canonical.{SamePages};
ghost use Rattle.merkle_tree_theory.specs.Faithful.{IsSmall};
ghost use Rattle.merkle_tree_theory.specs.State.{map_of};
ghost use Rattle.merkle_tree_theory.specs.Sound.{IsSound};
ghost use Rattle.merkle_search_tree.specs.Pages.{tree_of_map, HasEveryDigest, HasDigestOfMap, HasRangesOfMap, IsTreeOfItsMap};

use crate::tree::MerkleSearchTree;
use merkle_digest::{Hasher, KeyBytes};
pub use merkle_tree_theory::laws::{
    a_map_has_one_tree, a_traversal_visits_nodes_in_order, equal_keys_are_on_one_level,
    equal_keys_have_equal_bytes, equal_pages_have_equal_maps, exact_keys_make_pages_faithful,
    filled_pages_keep_their_map, outlines_lead_down, page_ranges_of_a_map,
};

/// What holds of every tree: its keys ascend, its pages are canonical and so the tree of its map, its cached digests are true,
/// with every page below a cached one cached too, and a cached root hash is that of the root page. The digest of its root page and its
/// page ranges are those of the tree of its map, whether it is hashed or not. What [`a_map_has_one_tree`] and [`page_ranges_of_a_map`] say of
/// the trees of maps holds of it so.
pub fn every_tree_is_sound<K: Ord + KeyBytes, V, H: Hasher<N, K>, const N: usize>(
    tree: &MerkleSearchTree<K, V, H, N>,
)
    ensures sound { IsSound K.cmp H.digest_of K.bytes_of tree.now }
    ensures tree { IsTreeOfItsMap K.cmp H.digest_of tree.now }
    ensures defined { SamePages K.cmp tree.now.root (tree_of_map H.digest_of tree.now) }
    ensures digest { HasDigestOfMap H.digest_of K.bytes_of tree.now }
    ensures ranges { HasRangesOfMap K.cmp H.digest_of K.bytes_of tree.now }
{
    let _ = &tree.root;
}

/// In a hashed tree no page lacks a digest, and the root hash is the digest of the root page.
pub fn a_hashed_tree_has_every_digest<K: Ord + KeyBytes, V, H: Hasher<N, K>, const N: usize>(
    tree: &MerkleSearchTree<K, V, H, N>,
)
    ensures { MatchOption tree.now.root_hash ⊤ (HasEveryDigest K.bytes_of tree.now) }
{
    let _ = &tree.root;
}

/// The map of a tree in memory is small: its keys have fewer than 2^64 bytes, its value digests `N` bytes, and each page of a tree of
/// the map has fewer than 2^64 nodes. It looks at the bytes of each key, changes nothing and takes no memory.
pub fn a_tree_in_memory_is_small<K: Ord + KeyBytes, V, H: Hasher<N, K>, const N: usize>(
    tree: &MerkleSearchTree<K, V, H, N>,
)
    ensures { IsSmall K.cmp (H.digest_of tree.now.hasher) tree.now.base K.bytes_of N (map_of tree.now) }
{
    tree.root.look();
}
