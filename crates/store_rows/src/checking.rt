//! Whether the table of cells has the tree of the log's latest registers.
ghost use Rattle.store_file.specs.Logs.{HasTables, IsClean, OnlyReads};
ghost use Rattle.store_file.specs.Transactions.{CommitsNothing};

use crate::digests::LatestDigests;
use crate::loading::load_log;
use merkle_digest::SipHasher;
use sqlite_trees::error::StoreError;
use sqlite_trees::store::Store;
use std::alloc::Global;
use store_file::StoreFault;
use store_file::format::HASH_KEY_LEN;
use store_file::log::Log;
use store_tree::TreeFault;
use store_tree::comparing::{agree, all_cells};
use store_tree::root::root_digest;

/// Makes the tree of the latest registers anew, finds out all digests of its pages, and compares it with the tree that was there. What it writes is to be
/// rolled back.
fn compare<S: Store>(
    alloc: Global,
    trees: &mut S,
    hash_key: &[u8; HASH_KEY_LEN],
) -> Result<bool, StoreFault>
    requires tables { IsClean S.Store trees.old → HasTables (S.Store.view trees.old) }
    ensures uncommitted { CommitsNothing S.Store trees.old trees.new }
{
    let cells = match all_cells(alloc, trees) {
        Ok(cells) => cells,
        Err(TreeFault::Malformed) => return Ok(false),
        Err(fault) => return Err(StoreFault::from(fault)),
    };
    load_log(alloc, trees, &SipHasher::new(hash_key))?;
    let _digest = root_digest(alloc, trees, &LatestDigests::new(hash_key))?;
    let made = all_cells(alloc, trees)?;
    Ok(agree(&cells, &made))
}

/// Whether the table of cells has the gaps of the tree of the log's latest registers, and all that it knows of their pages is so. The tree is made anew and
/// hashed, in a transaction that is taken back: it takes the time of that, and memory for the latest registers and for all cells.
///
/// # Errors
///
/// [`StoreFault::Database`], [`StoreFault::Malformed`] where a row of the log is none, and [`StoreFault::Memory`].
pub fn fits<S: Store>(
    alloc: Global,
    log: &mut Log<S>,
    hash_key: &[u8; HASH_KEY_LEN],
) -> Result<bool, StoreFault>
    ensures reads { OnlyReads S.Store log.old log.new result }
{
    let found = compare(alloc, &mut log.trees, hash_key);
    log.trees.rollback();
    if log.trees.is_broken() {
        return Err(StoreFault::Database(StoreError::Broken));
    }
    found
}
