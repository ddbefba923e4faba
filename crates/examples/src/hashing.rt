//! A digest of two numbers, and the root hash of a tree: after one more upsert, and once more.
ghost use Rattle.std.specs.Prelude.{◌≡◌, ◌++◌, Some, IfOk, IfErr, IsSome, OnOk, OnErr};
ghost use Rattle.std.specs.Int.{w64, to_le_bytes};
ghost use Rattle.key_order.specs.Map.{set};
ghost use Rattle.key_order.specs.Text.{text_order};
ghost use Rattle.merkle_digest.specs.SipDigests.{number_digest};
ghost use Rattle.merkle_digest.specs.SipHash.{siphash128};
ghost use Rattle.merkle_tree_theory.specs.State.{map_of};

use merkle_digest::{Digest, Hasher, RootHash, SipHasher};
use merkle_search_tree::laws::a_hashed_tree_has_every_digest;
use merkle_search_tree::{MerkleSearchTree, UpsertRefused};

/// The digest of a number that was written at a time: the hash of both numbers' bytes, under the hasher's key.
pub fn stamp_digest(hasher: &SipHasher, time: u64, number: u64) -> Digest<16>
    ensures { result ≡ siphash128 hasher.now (to_le_bytes w64 time ++ to_le_bytes w64 number) }
{
    hasher.hash(&(time, number))
}

/// The digests of numbers by name.
pub type NumberTree = MerkleSearchTree<String, u64, SipHasher, 16>;

/// Sets a number under a name, and returns the root hash that the tree then has.
///
/// # Errors
///
/// Out of memory: the tree is as it was, and the name is handed back.
pub fn set_and_hash(
    tree: &mut NumberTree,
    name: String,
    number: u64,
) -> Result<RootHash, UpsertRefused<String>>
    ensures set { OnOk result (map_of tree.new ≡ set text_order (map_of tree.old) name (number_digest tree.old.hasher number)) }
    ensures hashed { IfOk result (λ digest. tree.new.root_hash ≡ Some digest) }
    ensures unchanged { OnErr result (tree.new ≡ tree.old) }
    ensures returned { IfErr result (λ refused. refused ≡ name) }
{
    tree.upsert(name, &number)?;
    let (digest, _) = tree.root_hash_counted();
    Ok(digest)
}

/// Hashes a tree that is hashed once more, and returns how many pages that took: none.
pub fn hash_again(tree: &mut NumberTree) -> usize
    requires hashed { IsSome tree.old.root_hash }
    ensures { result ≡ 0 }
{
    a_hashed_tree_has_every_digest(tree);
    let (_, pages) = tree.root_hash_counted();
    pages
}
