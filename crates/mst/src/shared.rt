//! A store's file as a side of a session with a peer: it is opened when something is asked of it, and closed before the peer is waited for, so that
//! other commands have it meanwhile.
ghost use Rattle.mst.specs.Shared.{claimed_contents, claimed_digests};
ghost use Rattle.store_file.specs.Logs.{IsClean};

use crate::fault::Failure;
use merkle_digest::{Digest, Hasher, PageDigest, SipHasher, ValueDigest, default_level_base};
use merkle_search_tree::Gap;
use merkle_search_tree::builder::PageFormat;
use merkle_search_tree::laws::a_map_has_one_tree;
use merkle_store::pausing::{PausingAsker, PausingSide};
use merkle_wire::{
    AskingReplica, CatchingUp, KeptReplica, KeptSide, KeptTree, OwnedGap, Settings, Telling,
    are_settings_of,
};
use mst_files::closing::{Closing, FileTrees};
use mst_files::opening::open_file;
use sqlite_trees::store::Store;
use std::alloc::Global;
use std::num::NonZeroU8;
use store_file::Register;
use store_file::format::{HASH_KEY_LEN, recognise};
use store_file::log::Log;
use store_rows::LatestDigests;
use store_rows::hashing::hash;
use store_side::FileTree;
use store_tree::pairs::DIGEST_LEN;

/// The trees of a file that others write to between two messages, of which nothing is known when it is opened.
pub trait SharedTrees: Store + Drop {
    /// The disk isn't clean. The call has no effect.
    fn are_unsure(&self)
        ensures { ¬ IsClean Self.Store self.now };

    /// Opens the file of a store. Where another process has it, it is tried again for this many seconds.
    fn open(rt: &HostRuntime, path: &str, seconds: u64) -> Result<Log<Self>, Failure>;

    /// Takes back what isn't committed, and closes the file.
    fn close(self) -> Result<(), Failure>;
}

impl SharedTrees for FileTrees {
    fn are_unsure(&self) {}

    fn open(rt: &HostRuntime, path: &str, seconds: u64) -> Result<Log<FileTrees>, Failure> {
        Ok(open_file(rt, path, seconds)?)
    }

    fn close(self) -> Result<(), Failure> {
        self.are_unsure();
        Log::over(self).close_all()?;
        Ok(())
    }
}

/// The log over trees in which nothing is uncommitted.
fn log_over<S: SharedTrees>(trees: S) -> Log<S> {
    trees.are_unsure();
    Log::over(trees)
}

/// The tree of the file of a log.
fn tree_over<S: SharedTrees>(
    alloc: Global,
    log: Log<S>,
    hash_key: &[u8; HASH_KEY_LEN],
) -> FileTree<S> {
    let trees = log.into_trees();
    trees.are_unsure();
    FileTree::over(alloc, trees, LatestDigests::new(hash_key))
}

/// The hash key of a store.
fn key_of<S: Store>(rt: &HostRuntime, log: &mut Log<S>) -> Result<[u8; HASH_KEY_LEN], Failure> {
    let note = recognise(rt.alloc(), log)?;
    Ok(note.hash_key)
}

/// Refuses a store under another hash key than this.
fn expect_key<S: Store>(
    rt: &HostRuntime,
    log: &mut Log<S>,
    hash_key: &[u8; HASH_KEY_LEN],
) -> Result<(), Failure> {
    if key_of(rt, log)? == *hash_key {
        Ok(())
    } else {
        Err(Failure::Replaced)
    }
}

/// Closes the file of a log where something of it failed.
fn whole<S: SharedTrees, T: Drop>(
    log: Log<S>,
    done: Result<T, Failure>,
) -> Result<(Log<S>, T), Failure> {
    match done {
        Ok(done) => Ok((log, done)),
        Err(failure) => {
            let _ = log.into_trees().close();
            Err(failure)
        }
    }
}

/// A store's file as a side of a session.
///
/// Each message is answered by what the file has when it comes, as the contracts of [`FileTree`] say, and between two messages others may write to it. So
/// of a side that stays as it is nothing is claimed here (`is_sound`). A log only grows, and a question names a gap or a key, so an answer of a later state
/// has for each key the register that it had at the start, or a later one.
#[derive(Drop)]
pub struct SharedSide<'a, S: SharedTrees> {
    rt: &'a HostRuntime,
    path: &'a str,
    seconds: u64,
    hash_key: [u8; HASH_KEY_LEN],
    digests: LatestDigests,
    tree: Option<FileTree<S>>,
}

impl<'a, S: SharedTrees> SharedSide<'a, S> {
    /// The side of the store at a path, under the hash key that it has now. The file is closed.
    pub fn of(rt: &'a HostRuntime, path: &'a str, seconds: u64) -> Result<Self, Failure> {
        let mut log = S::open(rt, path, seconds)?;
        let key = key_of(rt, &mut log);
        let (log, hash_key) = whole(log, key)?;
        log.into_trees().close()?;
        Ok(SharedSide {
            rt,
            path,
            seconds,
            hash_key,
            digests: LatestDigests::new(&hash_key),
            tree: None,
        })
    }

    /// The hash key of the store.
    pub fn hash_key(&self) -> &[u8; HASH_KEY_LEN] {
        &self.hash_key
    }

    /// Opens the file, which has to be that of the same store.
    fn open_log(&self) -> Result<Log<S>, Failure> {
        let mut log = S::open(self.rt, self.path, self.seconds)?;
        let same = expect_key(self.rt, &mut log, &self.hash_key);
        let (log, ()) = whole(log, same)?;
        Ok(log)
    }

    /// Opens the file, and notes what isn't known of its tree's pages.
    fn open_tree(&self) -> Result<FileTree<S>, Failure> {
        let mut log = self.open_log()?;
        let hashed = match hash(self.rt.alloc(), &mut log, &self.hash_key) {
            Ok(_) => Ok(()),
            Err(fault) => Err(Failure::from(fault)),
        };
        let (log, ()) = whole(log, hashed)?;
        Ok(tree_over(self.rt.alloc(), log, &self.hash_key))
    }

    /// The tree in the file, which is opened unless it is open.
    fn tree(&mut self) -> Result<&mut FileTree<S>, Failure> {
        let tree = match self.tree.take() {
            Some(tree) => tree,
            None => self.open_tree()?,
        };
        Ok(self.tree.insert(tree))
    }

    /// The log of the file, which is opened unless it is open. Who takes it closes it.
    pub fn log(&mut self) -> Result<Log<S>, Failure> {
        let Some(tree) = self.tree.take() else {
            return self.open_log();
        };
        let mut trees = tree.into_trees();
        trees.rollback();
        Ok(log_over(trees))
    }

    /// Closes the file, if it is open.
    pub fn close(&mut self) -> Result<(), Failure> {
        match self.tree.take() {
            Some(tree) => tree.into_trees().close(),
            None => Ok(()),
        }
    }
}

/// The settings are those of the store, whatever the file has.
impl<S: SharedTrees> KeptTree<DIGEST_LEN, String, Register, SipHasher> for SharedSide<'_, S> {
    type Error = Failure;

    ghost kept = { λ side. claimed_digests side.digests };

    ghost is_sound = { λ _. ⊥ };

    fn level_base(&self) -> NonZeroU8 {
        default_level_base()
    }

    fn page_format(&self) -> PageFormat {
        PageFormat::V2
    }

    fn digest_of_key(&self, key: &String) -> Digest<DIGEST_LEN> {
        self.digests.hasher().hash(key)
    }

    fn digest_of(&self, value: &Register) -> Digest<DIGEST_LEN> {
        self.digests.hasher().hash(value)
    }

    fn some_key(&mut self) -> Result<Option<String>, Failure> {
        Ok(self.tree()?.some_key()?)
    }

    fn has_digest(&mut self, key: &String, digest: &[u8]) -> Result<bool, Failure> {
        Ok(self.tree()?.has_digest(key, digest)?)
    }

    fn digest_at(&mut self, key: &String) -> Result<Option<ValueDigest<DIGEST_LEN>>, Failure> {
        Ok(self.tree()?.digest_at(key)?)
    }

    fn is_page(&mut self, gap: &Gap<'_, String>, digest: &PageDigest) -> Result<bool, Failure> {
        Ok(self.tree()?.is_page(gap, digest)?)
    }
}

/// Each call that reads opens the file, unless it is open.
impl<S: SharedTrees> KeptSide<DIGEST_LEN, String, Register, SipHasher, ()> for SharedSide<'_, S> {
    type Error = Failure;

    ghost contents = { λ side _. claimed_contents side.digests };

    ghost is_sound = { λ _. ⊥ };

    fn has_settings(&self, _beside: &(), settings: &Settings<String>) -> bool {
        are_settings_of(self, settings)
    }

    fn hash(&mut self, beside: &()) -> Result<(), Failure> {
        Ok(self.tree()?.hash(beside)?)
    }

    fn count(&mut self, beside: &()) -> Result<u64, Failure> {
        Ok(self.tree()?.count(beside)?)
    }

    fn root_digest(&mut self, beside: &()) -> Result<Option<PageDigest>, Failure> {
        Ok(self.tree()?.root_digest(beside)?)
    }

    fn tell_page(
        &mut self,
        alloc: Global,
        beside: &(),
        telling: Telling,
        gap: &OwnedGap<String>,
        bytes: &mut Vec<u8>,
    ) -> Result<(), Failure> {
        Ok(self.tree()?.tell_page(alloc, beside, telling, gap, bytes)?)
    }

    fn add_value(
        &mut self,
        beside: &(),
        key: &String,
        bytes: &mut Vec<u8>,
    ) -> Result<bool, Failure> {
        Ok(self.tree()?.add_value(beside, key, bytes)?)
    }

    fn add_part(
        &mut self,
        beside: &(),
        most_bytes: usize,
        gap: &OwnedGap<String>,
        bytes: &mut Vec<u8>,
    ) -> Result<(), Failure> {
        Ok(self.tree()?.add_part(beside, most_bytes, gap, bytes)?)
    }
}

impl<S: SharedTrees> KeptReplica<DIGEST_LEN, String, Register, SipHasher> for SharedSide<'_, S> {
    fn has_its_tree(&self) {
        a_map_has_one_tree::<String, SipHasher, DIGEST_LEN>();
    }
}

impl<S: SharedTrees> AskingReplica<DIGEST_LEN, String, Register, SipHasher> for SharedSide<'_, S> {
    ghost whole = { λ side. claimed_contents side.digests };

    fn asks_by_its_rows(&self) {}

    fn row_count(&mut self) -> Result<u64, Failure> {
        Ok(self.tree()?.row_count()?)
    }

    fn own_reply_to(
        &mut self,
        session: &CatchingUp<String, Register>,
        with_rows: bool,
    ) -> Result<Option<Vec<u8>>, Failure> {
        Ok(self.tree()?.own_reply_to(session, with_rows)?)
    }
}

impl<S: SharedTrees> PausingSide for SharedSide<'_, S> {
    fn pause(&mut self) -> Result<(), Failure> {
        self.close()
    }
}

impl<S: SharedTrees> PausingAsker for SharedSide<'_, S> {
    fn pause(&mut self) -> Result<(), Failure> {
        self.close()
    }
}
