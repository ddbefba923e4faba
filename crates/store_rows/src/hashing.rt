//! The root of the tree of a log's latest registers, and the digests of its pages, found out and kept in the file.
ghost use Rattle.std.specs.Prelude.{◌≡◌, IfErr};
ghost use Rattle.store_file.specs.Faults.{IsFailure};
ghost use Rattle.store_file.specs.Logs.{HasTables, IsClean, Finds, Makes, Writes};
ghost use Rattle.store_file.specs.Transactions.{CommitsNothing};
ghost use Rattle.store_rows.specs.InStep.{HashesInStep, StandsInStep};
ghost use Rattle.store_rows.specs.Roots.{IsRootIn};

use crate::digests::LatestDigests;
use merkle_digest::PageDigest;
use sqlite_trees::store::Store;
use std::alloc::Global;
use store_file::StoreFault;
use store_file::format::HASH_KEY_LEN;
use store_file::log::{Log, commit};
use store_tree::root::{count_keys, root_digest};

/// The root of a tree.
#[derive(Debug, Drop)]
pub struct Root {
    /// The digest of its page, or `None` where the tree has no key.
    pub digest: Option<PageDigest>,
    /// How many keys the tree has.
    pub count: u64,
}

/// The root of the tree, within a transaction. What isn't known of pages is found out and noted.
fn find_root<S: Store>(
    alloc: Global,
    trees: &mut S,
    hash_key: &[u8; HASH_KEY_LEN],
) -> Result<Root, StoreFault>
    requires tables { IsClean S.Store trees.old → HasTables (S.Store.view trees.old) }
    ensures root { Finds S.Store trees.old trees.new result (IsRootIn hash_key.now) }
    ensures hashed { Makes S.Store trees.old trees.new result (HashesInStep hash_key.now) }
    ensures failed { IfErr result IsFailure }
    ensures uncommitted { CommitsNothing S.Store trees.old trees.new }
{
    let pairs = LatestDigests::new(hash_key);
    let digest = root_digest(alloc, trees, &pairs)?;
    let count = count_keys(alloc, trees, &pairs)?;
    Ok(Root { digest, count })
}

/// Returns the root of the tree of the log's latest registers, and keeps what isn't known of the tree's pages yet, so that the next call finds it: the log
/// stays as it is. Where all is known it reads four rows and commits nothing; else it takes what [`root_digest`] takes, and a commit.
///
/// # Errors
///
/// [`StoreFault::Database`], [`StoreFault::Malformed`] where a row is damaged, and [`StoreFault::Memory`].
pub fn hash<S: Store>(
    alloc: Global,
    log: &mut Log<S>,
    hash_key: &[u8; HASH_KEY_LEN],
) -> Result<Root, StoreFault>
    ensures root { Finds S.Store log.old log.new result (IsRootIn hash_key.now) }
    ensures hashed { Writes S.Store log.old log.new result (HashesInStep hash_key.now) }
    ensures stands { StandsInStep S.Store hash_key.now log.old → StandsInStep S.Store hash_key.now log.new }
    ensures failed { IfErr result IsFailure }
{
    match find_root(alloc, &mut log.trees, hash_key) {
        Ok(root) => {
            commit(&mut log.trees, Ok(()))?;
            Ok(root)
        }
        Err(why) => {
            log.trees.rollback();
            Err(why)
        }
    }
}
