//! Writes that keep a log and the tree of its latest registers in step, each in one transaction.
ghost use Rattle.std.specs.Prelude.{◌≡◌, ◌≤◌, ◌^◌, ℕ, List, [], length, IfErr, IsErrOf, string_bytes};
ghost use Rattle.store_file.specs.Changes.{HasInstead, HasOneMore};
ghost use Rattle.store_file.specs.Faults.{IsFailure, IsUnwritten};
ghost use Rattle.store_file.specs.Logs.{HasTables, IsClean, Makes, MakesAndFinds, Refuses, Writes};
ghost use Rattle.store_file.specs.Registers.{HaveLateTime};
ghost use Rattle.store_file.specs.Rows.{HasLateRow, IsCompacted};
ghost use Rattle.store_file.specs.Transactions.{CommitsNothing};
ghost use Rattle.store_file.specs.declared.catalog.TheConstants.{CELLS};
ghost use Rattle.store_rows.specs.Digests.{key_level};
ghost use Rattle.store_rows.specs.InStep.{AddsInStep, IsInStep, LoadsInStep, PutsInStep, StandsInStep, StaysInStep};
ghost use Rattle.store_tree.specs.Calls.{WritesKey};
ghost use Rattle.store_tree.specs.Loads.{AddsKey, HoldsNoKeys, KnowsNothing, LearnsNothing};
ghost use Rattle.store_tree.specs.Tables.{HasTable, KeepsOthers};

use merkle_digest::{Hasher, SipHasher, default_level_base, level};
use sqlite_trees::store::Store;
use std::alloc::Global;
use store_file::format::HASH_KEY_LEN;
use store_file::log::{Log, commit};
use store_file::rows::{forget, read_latest};
use store_file::table::{add_at, clear_at};
use store_file::{Register, StoreFault};
use store_tree::{load, write};

/// The level of a key in the tree.
pub(crate) fn level_of(hasher: &SipHasher, key: &String) -> u8
    ensures { result ≡ key_level hasher.now (string_bytes key.now) }
{
    level(&hasher.hash(key), default_level_base())
}

/// Writes a key to the tree.
fn write_key<S: Store>(alloc: Global, trees: &mut S, on: u8, key: &String) -> Result<(), StoreFault>
    requires cells { HasTable S.Store trees.old }
    ensures written { Makes S.Store trees.old trees.new result (λ old new. WritesKey on (string_bytes key.now) (old CELLS) (new CELLS)) }
    ensures others { Makes S.Store trees.old trees.new result KeepsOthers }
    ensures failed { IfErr result IsFailure }
    ensures uncommitted { CommitsNothing S.Store trees.old trees.new }
{
    write::write(alloc, trees, on, key)?;
    Ok(())
}

/// Adds an entry, unless it is there, and writes its key to the tree.
fn add_one<S: Store>(
    alloc: Global,
    trees: &mut S,
    hasher: &SipHasher,
    key: &String,
    register: &Register,
) -> Result<(), StoreFault>
    requires tables { IsClean S.Store trees.old → HasTables (S.Store.view trees.old) }
    ensures added { Makes S.Store trees.old trees.new result (HasOneMore (string_bytes key.now) register.now) }
    ensures kept { Makes S.Store trees.old trees.new result (StaysInStep hasher.now) }
    ensures late { IsErrOf result StoreFault.Time → 2 ^ 63 ≤ register.now.time }
    ensures faults { IfErr result IsUnwritten }
    ensures uncommitted { CommitsNothing S.Store trees.old trees.new }
{
    add_at(alloc, trees, key.as_str(), register)?;
    write_key(alloc, trees, level_of(hasher, key), key)?;
    Ok(())
}

/// Adds entries, but for those that are there, and writes their keys to the tree.
fn add_each<S: Store>(
    alloc: Global,
    trees: &mut S,
    hasher: &SipHasher,
    entries: &[(String, Register)],
) -> Result<(), StoreFault>
    requires tables { IsClean S.Store trees.old → HasTables (S.Store.view trees.old) }
    ensures added { Makes S.Store trees.old trees.new result (AddsInStep hasher.now entries.now) }
    ensures late { IsErrOf result StoreFault.Time → HaveLateTime entries.now }
    ensures faults { IfErr result IsUnwritten }
    ensures uncommitted { CommitsNothing S.Store trees.old trees.new }
{
    'entries: for entry in entries {
        add_one(alloc, trees, hasher, &entry.0, &entry.1)?;
    }
    Ok(())
}

/// Loads a key into a tree of which nothing is known.
fn load_key<S: Store>(alloc: Global, trees: &mut S, on: u8, key: &String) -> Result<(), StoreFault>
    requires cells { HasTable S.Store trees.old }
    ensures added { Makes S.Store trees.old trees.new result (λ old new. AddsKey on (string_bytes key.now) (old CELLS) (new CELLS)) }
    ensures unknown { Makes S.Store trees.old trees.new result (λ old new. LearnsNothing (old CELLS) (new CELLS)) }
    ensures others { Makes S.Store trees.old trees.new result KeepsOthers }
    ensures failed { IfErr result IsFailure }
    ensures uncommitted { CommitsNothing S.Store trees.old trees.new }
{
    load::add(alloc, trees, on, key)?;
    Ok(())
}

/// Adds an entry, unless it is there, and loads its key into a tree of which nothing is known.
pub(crate) fn put_one<S: Store>(
    alloc: Global,
    trees: &mut S,
    hasher: &SipHasher,
    key: &String,
    register: &Register,
) -> Result<(), StoreFault>
    requires tables { IsClean S.Store trees.old → HasTables (S.Store.view trees.old) }
    ensures added { Makes S.Store trees.old trees.new result (HasOneMore (string_bytes key.now) register.now) }
    ensures kept { Makes S.Store trees.old trees.new result (LoadsInStep hasher.now) }
    ensures unknown { Makes S.Store trees.old trees.new result (λ old new. LearnsNothing (old CELLS) (new CELLS)) }
    ensures late { IsErrOf result StoreFault.Time → 2 ^ 63 ≤ register.now.time }
    ensures faults { IfErr result IsUnwritten }
    ensures uncommitted { CommitsNothing S.Store trees.old trees.new }
{
    add_at(alloc, trees, key.as_str(), register)?;
    load_key(alloc, trees, level_of(hasher, key), key)?;
    Ok(())
}

/// Takes out all keys of the tree.
fn clear_tree<S: Store>(alloc: Global, trees: &mut S) -> Result<(), StoreFault>
    requires cells { HasTable S.Store trees.old }
    ensures cleared { Makes S.Store trees.old trees.new result (λ _ new. HoldsNoKeys (new CELLS)) }
    ensures unknown { Makes S.Store trees.old trees.new result (λ _ new. KnowsNothing (new CELLS)) }
    ensures others { Makes S.Store trees.old trees.new result KeepsOthers }
    ensures failed { IfErr result IsFailure }
    ensures uncommitted { CommitsNothing S.Store trees.old trees.new }
{
    load::clear(alloc, trees)?;
    Ok(())
}

/// Takes out all entries, and all keys of the tree.
fn clear_both<S: Store>(alloc: Global, trees: &mut S) -> Result<(), StoreFault>
    requires tables { IsClean S.Store trees.old → HasTables (S.Store.view trees.old) }
    ensures cleared { Makes S.Store trees.old trees.new result (HasInstead []) }
    ensures in_step { (hash_key : List ℕ) → Makes S.Store trees.old trees.new result (λ _. IsInStep hash_key) }
    ensures unknown { Makes S.Store trees.old trees.new result (λ _ new. KnowsNothing (new CELLS)) }
    ensures failed { IfErr result IsFailure }
    ensures uncommitted { CommitsNothing S.Store trees.old trees.new }
{
    clear_at(alloc, trees)?;
    clear_tree(alloc, trees)?;
    Ok(())
}

/// Puts entries in place of all others, and their keys in place of all others in the tree.
fn put_each<S: Store>(
    alloc: Global,
    trees: &mut S,
    hasher: &SipHasher,
    entries: &[(String, Register)],
) -> Result<(), StoreFault>
    requires tables { IsClean S.Store trees.old → HasTables (S.Store.view trees.old) }
    ensures put { Makes S.Store trees.old trees.new result (PutsInStep hasher.now entries.now) }
    ensures late { IsErrOf result StoreFault.Time → HaveLateTime entries.now }
    ensures faults { IfErr result IsUnwritten }
    ensures uncommitted { CommitsNothing S.Store trees.old trees.new }
{
    clear_both(alloc, trees)?;
    'entries: for entry in entries {
        put_one(alloc, trees, hasher, &entry.0, &entry.1)?;
    }
    Ok(())
}

/// Adds the entries that aren't there yet, all or none, and writes their keys to the tree: a log and its tree that were in step stay so. It takes the time
/// of an insertion and of a [`write`](store_tree::write::write) to the tree for each entry, and of one commit.
///
/// ```rust crates/store_side_tests/src/logs.rt
/// Write::Add(entries) => add_all(alloc, log, hash_key, entries)?,
/// ```
///
/// # Errors
///
/// [`StoreFault::Time`] where the database can't hold the time of one, [`StoreFault::Database`], [`StoreFault::Malformed`] where a row of the tree is none,
/// and [`StoreFault::Memory`].
pub fn add_all<S: Store>(
    alloc: Global,
    log: &mut Log<S>,
    hash_key: &[u8; HASH_KEY_LEN],
    entries: &[(String, Register)],
) -> Result<(), StoreFault>
    ensures added { Writes S.Store log.old log.new result (AddsInStep hash_key.now entries.now) }
    ensures stands { StandsInStep S.Store hash_key.now log.old → StandsInStep S.Store hash_key.now log.new }
    ensures late { IsErrOf result StoreFault.Time → HaveLateTime entries.now }
    ensures faults { IfErr result IsUnwritten }
{
    let written = add_each(alloc, &mut log.trees, &SipHasher::new(hash_key), entries);
    commit(&mut log.trees, written)
}

/// Puts entries in place of all others, and their keys in place of all others in the tree, all or nothing: the log and its tree are in step then, however
/// they were. What was known of the tree's pages is forgotten. It takes the time of a removal for each row that was there, of an insertion and of an
/// [`add`](store_tree::load::add) to the tree for each entry, and of one commit.
///
/// # Errors
///
/// [`StoreFault::Time`] where the database can't hold the time of an entry, [`StoreFault::Database`], [`StoreFault::Malformed`] where a table is damaged,
/// and [`StoreFault::Memory`].
pub fn replace_all<S: Store>(
    alloc: Global,
    log: &mut Log<S>,
    hash_key: &[u8; HASH_KEY_LEN],
    entries: &[(String, Register)],
) -> Result<(), StoreFault>
    ensures replaced { Writes S.Store log.old log.new result (PutsInStep hash_key.now entries.now) }
    ensures stands { StandsInStep S.Store hash_key.now log.old → StandsInStep S.Store hash_key.now log.new }
    ensures late { IsErrOf result StoreFault.Time → HaveLateTime entries.now }
    ensures faults { IfErr result IsUnwritten }
{
    let written = put_each(alloc, &mut log.trees, &SipHasher::new(hash_key), entries);
    commit(&mut log.trees, written)
}

/// Leaves one entry for each key, and none for a removal that is older than `before`, in the log and in its tree, and returns how many are left: the log and
/// its tree are in step then, however they were. It takes memory linear in the log, and the time of a sort of its entries and of a [`replace_all`].
///
/// # Errors
///
/// [`StoreFault::Database`], [`StoreFault::Malformed`] where a table is damaged, and [`StoreFault::Memory`]: the file is then as it was.
pub fn compact<S: Store>(
    alloc: Global,
    log: &mut Log<S>,
    hash_key: &[u8; HASH_KEY_LEN],
    before: u64,
) -> Result<usize, StoreFault>
    ensures compacted { Writes S.Store log.old log.new result (IsCompacted before) }
    ensures in_step { Writes S.Store log.old log.new result (λ _. IsInStep hash_key.now) }
    ensures left { MakesAndFinds S.Store log.old log.new result (λ _ new left. left ≡ length (new 0)) }
    ensures stands { StandsInStep S.Store hash_key.now log.old → StandsInStep S.Store hash_key.now log.new }
    ensures late { Refuses S.Store log.old log.new result StoreFault.Time HasLateRow }
    ensures faults { IfErr result IsUnwritten }
{
    let mut rows = read_latest(alloc, log)?;
    forget(&mut rows, before);
    replace_all(alloc, log, hash_key, &rows)?;
    Ok(rows.len())
}
