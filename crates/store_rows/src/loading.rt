//! Writes of many entries beside few keys: they load the tree anew, and keep a log and the tree of its latest registers in step, each in one transaction.
ghost use Rattle.std.specs.Prelude.{◌≡◌, ◌≤◌, ◌^◌, IfOk, IfErr, IsErrOf, map};
ghost use Rattle.store_file.specs.Faults.{IsFailure, IsUnwritten};
ghost use Rattle.store_file.specs.Logs.{HasTables, IsClean, Makes, Writes};
ghost use Rattle.store_file.specs.Registers.{HaveLateTime};
ghost use Rattle.store_file.specs.Transactions.{CommitsNothing};
ghost use Rattle.store_file.specs.declared.catalog.TheConstants.{CELLS};
ghost use Rattle.store_rows.specs.InStep.{AddsInStep, StandsInStep, StaysInStep};
ghost use Rattle.store_rows.specs.Loads.{level_row};
ghost use Rattle.store_tree.specs.Loads.{KnowsNothing, LoadsKeys};
ghost use Rattle.store_tree.specs.Tables.{HasTable, KeepsOthers};

use crate::writing::{level_of, put_one};
use merkle_digest::SipHasher;
use sqlite_trees::store::Store;
use std::alloc::Global;
use store_file::format::HASH_KEY_LEN;
use store_file::log::{Log, commit};
use store_file::range::latest_between;
use store_file::table::Entries;
use store_file::{Register, StoreFault};
use store_tree::load;

/// Each key with its level.
fn levels(alloc: Global, hasher: &SipHasher, rows: Entries) -> Result<Vec<(String, u8)>, StoreFault>
    ensures levels { IfOk result (λ keys. keys.items ≡ map (level_row hasher.now) rows.items) }
    ensures failed { IfErr result IsFailure }
{
    let mut keys = Vec::new(alloc);
    'rows: for (key, _) in rows {
        let level = level_of(hasher, &key);
        if keys.push((key, level)).is_err() {
            return Err(StoreFault::Memory);
        }
    }
    Ok(keys)
}

/// Puts the gaps of the map of these keys in place of all rows of the table of cells.
fn load_keys<S: Store>(
    alloc: Global,
    trees: &mut S,
    keys: &[(String, u8)],
) -> Result<(), StoreFault>
    requires cells { HasTable S.Store trees.old }
    ensures loaded { Makes S.Store trees.old trees.new result (λ _ new. LoadsKeys keys.now (new CELLS)) }
    ensures unknown { Makes S.Store trees.old trees.new result (λ _ new. KnowsNothing (new CELLS)) }
    ensures others { Makes S.Store trees.old trees.new result KeepsOthers }
    ensures failed { IfErr result IsFailure }
    ensures uncommitted { CommitsNothing S.Store trees.old trees.new }
{
    load::load(alloc, trees, keys)?;
    Ok(())
}

/// Loads all keys of the log into the tree, and forgets what was known of its pages.
pub(crate) fn load_log<S: Store>(
    alloc: Global,
    trees: &mut S,
    hasher: &SipHasher,
) -> Result<(), StoreFault>
    requires tables { IsClean S.Store trees.old → HasTables (S.Store.view trees.old) }
    ensures kept { Makes S.Store trees.old trees.new result (StaysInStep hasher.now) }
    ensures unknown { Makes S.Store trees.old trees.new result (λ _ new. KnowsNothing (new CELLS)) }
    ensures others { Makes S.Store trees.old trees.new result KeepsOthers }
    ensures failed { IfErr result IsFailure }
    ensures uncommitted { CommitsNothing S.Store trees.old trees.new }
{
    let rows = latest_between(alloc, trees, &None, &None)?;
    let keys = levels(alloc, hasher, rows)?;
    load_keys(alloc, trees, &keys)?;
    Ok(())
}

/// Loads all keys of the log into the tree, and then adds entries, but for those that are there, and loads their keys.
fn load_each<S: Store>(
    alloc: Global,
    trees: &mut S,
    hasher: &SipHasher,
    entries: &[(String, Register)],
) -> Result<(), StoreFault>
    requires tables { IsClean S.Store trees.old → HasTables (S.Store.view trees.old) }
    ensures added { Makes S.Store trees.old trees.new result (AddsInStep hasher.now entries.now) }
    ensures late { IsErrOf result StoreFault.Time → HaveLateTime entries.now }
    ensures faults { IfErr result IsUnwritten }
    ensures uncommitted { CommitsNothing S.Store trees.old trees.new }
{
    load_log(alloc, trees, hasher)?;
    'entries: for entry in entries {
        put_one(alloc, trees, hasher, &entry.0, &entry.1)?;
    }
    Ok(())
}

/// Adds the entries that aren't there yet, all or none, as [`add_all`](crate::writing::add_all) does: a log and its tree that were in step stay so. It is for entries that are many
/// beside the keys of the log, as those of an import into an empty store.
///
/// What was known of the tree's pages is forgotten. It takes the reading of all entries that were there and the time of a
/// [`load`](store_tree::load::load) of their keys, with memory for the latest of them; and then, for each entry, the time of an insertion and of an
/// [`add`](store_tree::load::add), where `add_all` takes that of a [`write`](store_tree::write::write); and of one commit.
///
/// # Errors
///
/// Those of [`add_all`](crate::writing::add_all).
pub fn add_many<S: Store>(
    alloc: Global,
    log: &mut Log<S>,
    hash_key: &[u8; HASH_KEY_LEN],
    entries: &[(String, Register)],
) -> Result<(), StoreFault>
    ensures added { Writes S.Store log.old log.new result (AddsInStep hash_key.now entries.now) }
    ensures stands { StandsInStep S.Store hash_key.now log.old → StandsInStep S.Store hash_key.now log.new }
    ensures late { IsErrOf result StoreFault.Time → HaveLateTime entries.now }
    ensures faults { IfErr result IsUnwritten }
{
    let written = load_each(alloc, &mut log.trees, &SipHasher::new(hash_key), entries);
    commit(&mut log.trees, written)
}
