//! The rows of a store's file in memory.
ghost use Rattle.std.specs.Prelude.{◌≡◌, [], IfOk, IfErr};
ghost use Rattle.store_file.specs.Faults.{IsFailure};
ghost use Rattle.store_file.specs.Logs.{Finds, OnlyReads};
ghost use Rattle.merkle_store.specs.Kept.{AreRowsOf, HasPutAll};

use merkle_digest::SipHasher;
use merkle_replica::Replica;
use merkle_search_tree::builder::{Builder, PageFormat};
use sqlite_trees::store::Store;
use std::alloc::Global;
use store_file::format::HASH_KEY_LEN;
use store_file::log::Log;
use store_file::table::{Entries, read_log};
use store_file::{Register, StoreFault};

/// The entries of a store, as a replica.
pub type EntryReplica = Replica<String, Register, SipHasher, 16>;

/// The replica of entries in any order, under this hash key.
fn replica_of(
    alloc: Global,
    entries: Entries,
    hash_key: &[u8; HASH_KEY_LEN],
) -> Result<EntryReplica, StoreFault>
    ensures puts { IfOk result (λ replica. HasPutAll [] entries.items replica.rows) }
    ensures hash_key { IfOk result (λ replica. replica.tree.hasher ≡ hash_key.now) }
    ensures failed { IfErr result IsFailure }
{
    let builder = Builder::default()
        .with_hasher(SipHasher::new(hash_key))
        .with_page_format(PageFormat::V2);
    let mut replica = Replica::new(alloc, builder);
    match replica.put_all(entries) {
        Ok(()) => Ok(replica),
        Err(_) => Err(StoreFault::Memory),
    }
}

/// The replica of the entries that the file holds, under this hash key. It takes memory linear in the table, and the time of a sort of its rows.
///
/// ```rust crates/store_side_tests/src/random_logs.rt
/// let mut replica = read_replica(alloc, &mut log, &HASH_KEY)?;
/// ```
///
/// # Errors
///
/// [`StoreFault::Database`], [`StoreFault::Malformed`] and [`StoreFault::Memory`]. Nothing is written.
pub fn read_replica<S: Store>(
    alloc: Global,
    log: &mut Log<S>,
    hash_key: &[u8; HASH_KEY_LEN],
) -> Result<EntryReplica, StoreFault>
    ensures kept { Finds S.Store log.old log.new result (λ trees replica. AreRowsOf trees replica.rows) }
    ensures hash_key { IfOk result (λ replica. replica.tree.hasher ≡ hash_key.now) }
    ensures failed { IfErr result IsFailure }
    ensures reads { OnlyReads S.Store log.old log.new result }
{
    let entries = read_log(alloc, log)?;
    replica_of(alloc, entries, hash_key)
}
