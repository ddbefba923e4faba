//! A tree of digests that may be out of reach, beside rows on a shelf.
ghost use Rattle.std.specs.Prelude.{◌≡◌, None, ⊤};
ghost use Rattle.merkle_wire.specs.ItsRows.{digests_of};

use crate::shelf::{Shelf, ShelfError};
use merkle_bytes::Encode;
use merkle_digest::{Digest, Hasher, Key, KeyBytes, PageDigest, ValueDigest};
use merkle_replica::{Join, RowHasher};
use merkle_search_tree::builder::PageFormat;
use merkle_search_tree::{Gap, MerkleSearchTree};
use merkle_wire::{KeptSide, KeptTree, OwnedGap, Settings, Telling};
use std::alloc::{AllocError, Global};
use std::marker::Model;
use std::num::NonZeroU8;

/// A tree that may be out of reach, as one on a disk elsewhere is: nothing can be looked up then.
pub struct FarTree<K: Ord + KeyBytes, V, H: Hasher<N, K>, const N: usize> {
    tree: MerkleSearchTree<K, V, H, N>,
    is_near: bool,
}

impl<K: Ord + KeyBytes + Drop, V, H: Hasher<N, K> + Drop, const N: usize> Drop
    for FarTree<K, V, H, N> {
    fn drop(self) {
        let FarTree {
            tree: _,
            is_near: _,
        } = self;
    }
}

impl<K: Ord + KeyBytes, V, H: Hasher<N, K>, const N: usize> Model for FarTree<K, V, H, N> {
    ghost use Rattle.merkle_tree_theory.specs.State.{State, state_code};

    ghost Value = { State K H };

    ghost coded = { state_code K.code H.code };

    ghost view = { λ far. far.tree };
}

/// Why a tree can't be read, or the rows beside it.
#[derive(Clone, Copy, Debug, PartialEq, Eq, Drop)]
pub enum FarError {
    /// Out of memory.
    Memory,
    /// The tree is out of reach.
    Away,
    /// The rows can't be told.
    Rows(ShelfError),
}

impl From<AllocError> for FarError {
    fn from(_error: AllocError) -> Self {
        FarError::Memory
    }
}

impl From<ShelfError> for FarError {
    fn from(error: ShelfError) -> Self {
        FarError::Rows(error)
    }
}

impl<K: Ord + KeyBytes, V, H: Hasher<N, K>, const N: usize> FarTree<K, V, H, N> {
    /// A tree within reach.
    pub fn of(tree: MerkleSearchTree<K, V, H, N>) -> Self
        ensures { result ≡ tree }
    {
        FarTree {
            tree,
            is_near: true,
        }
    }

    /// Moves it out of reach.
    pub fn move_away(&mut self)
        ensures { self.new ≡ self.old }
    {
        self.is_near = false;
    }
}

impl<const N: usize, K: Key + Drop, V: Join + Drop, H: RowHasher<N, K, V>> KeptTree<N, K, V, H>
    for FarTree<K, V, H, N> {
    type Error = FarError;

    ghost kept = { λ far. record { digests = digests_of far; rows = None } };

    ghost is_sound = { λ _. ⊤ };

    fn level_base(&self) -> NonZeroU8 {
        self.tree.level_base()
    }

    fn page_format(&self) -> PageFormat {
        self.tree.page_format()
    }

    fn digest_of_key(&self, key: &K) -> Digest<N> {
        self.tree.key_digest(key)
    }

    fn digest_of(&self, value: &V) -> Digest<N> {
        self.tree.value_digest(value)
    }

    fn some_key(&mut self) -> Result<Option<K>, FarError> {
        if !self.is_near {
            return Err(FarError::Away);
        }
        Ok(self.tree.some_key()?)
    }

    fn has_digest(&mut self, key: &K, digest: &[u8]) -> Result<bool, FarError> {
        if !self.is_near {
            return Err(FarError::Away);
        }
        Ok(self.tree.has_digest(key, digest)?)
    }

    fn digest_at(&mut self, key: &K) -> Result<Option<ValueDigest<N>>, FarError> {
        if !self.is_near {
            return Err(FarError::Away);
        }
        Ok(self.tree.digest_at(key)?)
    }

    fn is_page(&mut self, gap: &Gap<'_, K>, digest: &PageDigest) -> Result<bool, FarError> {
        if !self.is_near {
            return Err(FarError::Away);
        }
        Ok(self.tree.is_page(gap, digest)?)
    }
}

/// It answers as the tree does, where that is within reach.
impl<
    const N: usize,
    K: Key + Encode + Drop,
    V: Join + Encode + Drop,
    H: RowHasher<N, K, V>,
> KeptSide<N, K, V, H, Shelf<K, V>> for FarTree<K, V, H, N> {
    type Error = FarError;

    ghost contents = { λ far shelf. record { rows = shelf; tree = far } };

    ghost is_sound = { λ _. ⊤ };

    fn has_settings(&self, shelf: &Shelf<K, V>, settings: &Settings<K>) -> bool {
        self.tree.has_settings(shelf, settings)
    }

    fn hash(&mut self, shelf: &Shelf<K, V>) -> Result<(), FarError> {
        if !self.is_near {
            return Err(FarError::Away);
        }
        Ok(self.tree.hash(shelf)?)
    }

    fn count(&mut self, shelf: &Shelf<K, V>) -> Result<u64, FarError> {
        Ok(self.tree.count(shelf)?)
    }

    fn root_digest(&mut self, shelf: &Shelf<K, V>) -> Result<Option<PageDigest>, FarError> {
        if !self.is_near {
            return Err(FarError::Away);
        }
        Ok(self.tree.root_digest(shelf)?)
    }

    fn tell_page(
        &mut self,
        alloc: Global,
        shelf: &Shelf<K, V>,
        telling: Telling,
        gap: &OwnedGap<K>,
        bytes: &mut Vec<u8>,
    ) -> Result<(), FarError> {
        if !self.is_near {
            return Err(FarError::Away);
        }
        self.tree.tell_page(alloc, shelf, telling, gap, bytes)?;
        Ok(())
    }

    fn add_value(
        &mut self,
        shelf: &Shelf<K, V>,
        key: &K,
        bytes: &mut Vec<u8>,
    ) -> Result<bool, FarError> {
        Ok(self.tree.add_value(shelf, key, bytes)?)
    }

    fn add_part(
        &mut self,
        shelf: &Shelf<K, V>,
        most_bytes: usize,
        gap: &OwnedGap<K>,
        bytes: &mut Vec<u8>,
    ) -> Result<(), FarError> {
        self.tree.add_part(shelf, most_bytes, gap, bytes)?;
        Ok(())
    }
}
