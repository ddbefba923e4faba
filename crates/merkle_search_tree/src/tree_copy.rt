//! Copies of a tree.

ghost use Rattle.std.specs.Prelude.{◌≡◌, IfOk};
ghost use Rattle.key_order.specs.Order.{Same};
ghost use Rattle.key_order.specs.Map.{SameMap};
ghost use Rattle.merkle_tree_theory.specs.Copy.{IsCopy};
ghost use Rattle.merkle_tree_theory.specs.State.{map_of};

use crate::tree::MerkleSearchTree;
use merkle_digest::{Hasher, Key, RootHash};
use std::alloc::AllocError;
use std::marker::PhantomData;

impl<K: Key, V, H: Hasher<N, K> + Clone, const N: usize> MerkleSearchTree<K, V, H, N> {
    /// A tree of an equal map, with equal pages, all cached digests included, a clone of the hasher, and the same level base, page format
    /// and cached root hash. It clones each key once, and hashes nothing.
    ///
    /// ```rust crates/main_theorem/src/after.rt
    /// let copy = replica.tree().try_clone()?;
    /// every_tree_is_sound(&copy);
    /// Ok(copy)
    /// ```
    ///
    /// # Errors
    ///
    /// `AllocError` if memory runs out: for a page or its nodes, or for the clone of a key or of the hasher.
    pub fn try_clone(&self) -> Result<Self, AllocError>
        // A clone of a hasher gives the digests that the hasher gives.
        requires hashers { (a b : H) → H.is_clone a b → (k : K) → H.digest_of b k ≡ H.digest_of a k }

        ensures map { IfOk result (λ copy. SameMap K.cmp (λ d e. d ≡ e) (map_of self.now) (map_of copy)) }
        ensures pages { IfOk result (λ copy. IsCopy (Same K.cmp) (λ d e. d ≡ e) self.now.root copy.root) }
        ensures hasher { IfOk result (λ copy. H.is_clone self.now.hasher copy.hasher) }
        ensures digests { IfOk result (λ copy. (k : K) → H.digest_of copy.hasher k ≡ H.digest_of self.now.hasher k) }
        ensures base { IfOk result (λ copy. copy.base ≡ self.now.base) }
        ensures format { IfOk result (λ copy. copy.format ≡ self.now.format) }
        ensures root_hash { IfOk result (λ copy. copy.root_hash ≡ self.now.root_hash) }
    {
        let hasher = self.hasher.clone()?;
        let root = self.root.try_clone(self.alloc)?;
        let root_hash = copy_root_hash(&self.root_hash)?;
        Ok(MerkleSearchTree {
            alloc: self.alloc,
            hasher,
            level_base: self.level_base,
            page_format: self.page_format,
            root,
            root_hash,
            value_type: PhantomData,
        })
    }
}

/// A copy of a cached root hash, where there is one. It never fails.
fn copy_root_hash(digest: &Option<RootHash>) -> Result<Option<RootHash>, AllocError>
    ensures { IfOk result (λ copy. copy ≡ digest.now) }
{
    match digest {
        None => Ok(None),
        Some(digest) => Ok(Some(digest.clone()?)),
    }
}
