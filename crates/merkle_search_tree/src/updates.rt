//! A tree's whole life: updates carried out one after the other, from the empty tree on.

ghost use Rattle.std.specs.Prelude.{◌≡◌, IfOk, length};
ghost use Rattle.merkle_tree_theory.specs.State.{HasSettings, SameSettings};
ghost use Rattle.merkle_search_tree.specs.Updates.{HasMapAfterOne, IsHashedAfterOne, AcceptsIfFree};
ghost use Rattle.merkle_search_tree.specs.Updates.{AcceptsTheFree, HasMapAfter, HasPagesAfter, HasRangesAfter, HasRootHashAfter};

use crate::builder::Builder;
use crate::laws::{a_hashed_tree_has_every_digest, every_tree_is_sound};
use crate::tree::MerkleSearchTree;
use merkle_digest::{Hasher, KeyBytes};
use std::alloc::{AllocError, Global};

/// An update of a tree.
#[derive(Drop)]
pub enum Update<K, V> {
    /// Sets the key to the digest of the value.
    Upsert(K, V),
    /// Takes the key out, where it is there.
    Remove(K),
    /// Fills in the digests that pages lack.
    RootHash,
}

/// Carries out an update, and returns whether it was accepted.
fn carry_out<K, V, H, const N: usize>(
    tree: &mut MerkleSearchTree<K, V, H, N>,
    update: Update<K, V>,
) -> bool
where
    K: Ord + KeyBytes + Drop,
    V: Eq + Drop,
    H: Hasher<N, K> + Hasher<N, V>,
    ensures map { HasMapAfterOne K.cmp ⟦<H as Hasher<N, V>>⟧.digest_of tree.old update result tree.new }
    ensures hashed { IsHashedAfterOne K.cmp ⟦<H as Hasher<N, V>>⟧.digest_of tree.old update result tree.new }
    ensures free { AcceptsIfFree K.cmp ⟦<H as Hasher<N, V>>⟧.digest_of tree.old update result }
    ensures settings { SameSettings tree.old tree.new }
{
    match update {
        Update::Upsert(key, value) => tree.upsert(key, &value).is_ok(),
        Update::Remove(key) => tree.remove(&key).is_ok(),
        Update::RootHash => {
            let _ = tree.root_hash_counted();
            true
        }
    }
}

/// The tree that the updates lead to, in order, from the empty tree of the builder on, and for each update whether it was accepted.
/// An upsert or a removal is refused only when out of memory; its key and value are given up then, and it changes nothing. An upsert of
/// a key that is there, a removal of one that isn't, and each `RootHash` is accepted. It costs what the updates cost.
///
/// Whatever the updates, the pages of the tree are the one tree of the map of the accepted updates, apart from cached digests. So are
/// its page ranges; and where after the last `RootHash` no upsert is accepted, and no removal of a key that is there, the tree is
/// hashed, and its root hash is the digest of that one tree.
///
/// ```rust crates/examples/src/history.rt
/// all.push(Update::Remove(key))?;
/// all.push(Update::RootHash)?;
/// let (tree, mut accepted) = replay(alloc, builder, all)?;
/// ```
///
/// # Errors
///
/// `AllocError` if memory runs out for the answers, one `bool` an update; no update is carried out then.
pub fn replay<K, V, H, const N: usize>(
    alloc: Global,
    builder: Builder<H>,
    updates: Vec<Update<K, V>>,
) -> Result<(MerkleSearchTree<K, V, H, N>, Vec<bool>), AllocError>
where
    K: Ord + KeyBytes + Drop,
    V: Eq + Drop,
    H: Hasher<N, K> + Hasher<N, V> + Drop,
    ensures answers { IfOk result (λ r. length r.1.items ≡ length updates.items) }
    ensures free { IfOk result (AcceptsTheFree K.cmp ⟦<H as Hasher<N, V>>⟧.digest_of builder updates.items) }
    ensures map { IfOk result (HasMapAfter K.cmp ⟦<H as Hasher<N, V>>⟧.digest_of builder updates.items) }
    ensures pages { IfOk result (HasPagesAfter K.cmp ⟦<H as Hasher<N, K>>⟧.digest_of ⟦<H as Hasher<N, V>>⟧.digest_of builder updates.items) }
    ensures ranges { IfOk result (HasRangesAfter K.cmp ⟦<H as Hasher<N, K>>⟧.digest_of ⟦<H as Hasher<N, V>>⟧.digest_of
        K.bytes_of builder updates.items) }
    ensures root_hash { IfOk result (HasRootHashAfter K.cmp ⟦<H as Hasher<N, K>>⟧.digest_of ⟦<H as Hasher<N, V>>⟧.digest_of
        K.bytes_of builder updates.items) }
    ensures settings { IfOk result (λ r. HasSettings builder r.0) }
{
    let mut accepted = Vec::with_capacity(alloc, updates.len())?;
    let mut tree = builder.build(alloc);
    'updates: for update in updates {
        accepted.push(carry_out(&mut tree, update))?;
    }
    every_tree_is_sound(&tree);
    a_hashed_tree_has_every_digest(&tree);
    Ok((tree, accepted))
}
