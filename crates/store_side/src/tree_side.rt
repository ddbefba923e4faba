//! The tree of a store in its file, as a session asks of it and tells of it.
ghost use Rattle.std.specs.Prelude.{◌≡◌};
ghost use Rattle.store_file.specs.Logs.{IsClean};
ghost use Rattle.store_side.specs.FileTrees.{IsFile};
ghost use Rattle.store_side.specs.Sides.{file_contents, kept_in_file};

use crate::filed::{find_count, find_digest, find_key, find_page_at, find_root};
use crate::noted::{Noted, note};
use crate::told::{add_latest, add_page, add_rows};
use merkle_digest::{Digest, Hasher, PageDigest, SipHasher, ValueDigest, default_level_base};
use merkle_search_tree::Gap;
use merkle_search_tree::builder::PageFormat;
use merkle_wire::{KeptSide, KeptTree, OwnedGap, Settings, Telling, are_settings_of, is_digest};
use sqlite_trees::store::Store;
use std::alloc::Global;
use std::marker::Model;
use std::num::NonZeroU8;
use store_file::Register;
use store_rows::LatestDigests;
use store_tree::TreeFault;
use store_tree::pairs::DIGEST_LEN;

/// The tree of a store in its file, for a session that asks a peer or answers one: no tree in memory. It keeps a hash key, and the trees of the file.
///
/// What isn't known of the tree's pages is found out and written, and stays uncommitted. After an error all that isn't committed is taken back.
#[derive(Drop)]
pub struct FileTree<S: Store> {
    alloc: Global,
    trees: S,
    digests: LatestDigests,
    noted: Noted,
}

impl<S: Store> Model for FileTree<S> {
    ghost use Rattle.store_side.specs.Sides.{FileSide};
    ghost use Rattle.store_side.specs.FileTrees.{IsFileOf};

    ghost Value = { FileSide S };

    ghost view = { λ side. record { trees = side.trees; hash_key = side.digests; rows = side.noted.rows } };

    ghost invariant = { λ side. IsFileOf side.digests side.noted.rows S.Store side.trees };
}

impl<S: Store> FileTree<S> {
    /// The tree of a store whose file has it.
    pub fn over(alloc: Global, trees: S, digests: LatestDigests) -> FileTree<S>
        requires file { IsFile S.Store digests trees }
        ensures trees { result.trees ≡ trees }
        ensures hash_key { result.hash_key ≡ digests }
    {
        let noted = note(&digests, &trees);
        FileTree {
            alloc,
            trees,
            digests,
            noted,
        }
    }

    /// The trees, to be committed or rolled back, and closed.
    pub fn into_trees(self) -> S
        ensures same { result ≡ self.trees }
        ensures file { IsFile S.Store self.hash_key result }
    {
        let FileTree {
            alloc: _,
            trees,
            digests: _,
            noted: _,
        } = self;
        trees
    }
}

/// A look costs what [`LatestDigests`] says, and whether a page is there what [`is_page`](store_tree::over::is_page) says.
impl<S: Store> KeptTree<DIGEST_LEN, String, Register, SipHasher> for FileTree<S> {
    type Error = TreeFault;

    ghost kept = { kept_in_file };

    ghost is_sound = { λ side. IsClean S.Store side.trees };

    fn level_base(&self) -> NonZeroU8 {
        default_level_base()
    }

    fn page_format(&self) -> PageFormat {
        PageFormat::V2
    }

    fn digest_of_key(&self, key: &String) -> Digest<DIGEST_LEN> {
        self.digests.hasher().hash(key)
    }

    fn digest_of(&self, value: &Register) -> Digest<DIGEST_LEN> {
        self.digests.hasher().hash(value)
    }

    fn some_key(&mut self) -> Result<Option<String>, TreeFault> {
        find_key(self.alloc, &mut self.trees, &self.digests)
    }

    fn has_digest(&mut self, key: &String, digest: &[u8]) -> Result<bool, TreeFault> {
        let own = find_digest(self.alloc, &mut self.trees, &self.digests, key)?;
        Ok(is_digest(&own, digest))
    }

    fn digest_at(&mut self, key: &String) -> Result<Option<ValueDigest<DIGEST_LEN>>, TreeFault> {
        find_digest(self.alloc, &mut self.trees, &self.digests, key)
    }

    fn is_page(&mut self, gap: &Gap<'_, String>, digest: &PageDigest) -> Result<bool, TreeFault> {
        find_page_at(self.alloc, &mut self.trees, &self.digests, gap, digest)
    }
}

/// The tree and the rows of a store in its file, for a session that answers a peer. A page that has no page below it is told by its rows where these are
/// short, and all others by digests, so a peer asks for the rows of these that it lacks by their keys.
///
/// `root_digest` costs what [`root_digest`](store_tree::root::root_digest) says, `count` what [`count_keys`](store_tree::root::count_keys) says,
/// `tell_page` what [`outline_over`](store_tree::outline::outline_over) says and the reading of the rows that it tells, and `add_value` a look into the table of entries. `add_part` reads the
/// entries of the keys that it tells and of one more, and takes memory for their bytes.
impl<S: Store> KeptSide<DIGEST_LEN, String, Register, SipHasher, ()> for FileTree<S> {
    type Error = TreeFault;

    ghost contents = { λ side _. file_contents side };

    ghost is_sound = { λ side. IsClean S.Store side.trees };

    fn has_settings(&self, _beside: &(), settings: &Settings<String>) -> bool {
        are_settings_of(self, settings)
    }

    fn hash(&mut self, _beside: &()) -> Result<(), TreeFault> {
        Ok(())
    }

    fn count(&mut self, _beside: &()) -> Result<u64, TreeFault> {
        find_count(self.alloc, &mut self.trees, &self.digests)
    }

    fn root_digest(&mut self, _beside: &()) -> Result<Option<PageDigest>, TreeFault> {
        find_root(self.alloc, &mut self.trees, &self.digests)
    }

    fn tell_page(
        &mut self,
        alloc: Global,
        _beside: &(),
        telling: Telling,
        gap: &OwnedGap<String>,
        bytes: &mut Vec<u8>,
    ) -> Result<(), TreeFault> {
        add_page(
            alloc,
            &mut self.trees,
            &self.digests,
            &self.noted,
            telling,
            gap,
            bytes,
        )
    }

    fn add_value(
        &mut self,
        _beside: &(),
        key: &String,
        bytes: &mut Vec<u8>,
    ) -> Result<bool, TreeFault> {
        add_latest(self.alloc, &mut self.trees, &self.digests, key, bytes)
    }

    fn add_part(
        &mut self,
        _beside: &(),
        most_bytes: usize,
        gap: &OwnedGap<String>,
        bytes: &mut Vec<u8>,
    ) -> Result<(), TreeFault> {
        add_rows(
            self.alloc,
            &mut self.trees,
            &self.digests,
            most_bytes,
            gap,
            bytes,
        )
    }
}
