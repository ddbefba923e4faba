//! The entries of a log, and what is added to them.
ghost use Rattle.std.specs.Prelude.{◌≡◌, ◌≤◌, ◌^◌, [], IfErr, IsErrOf, IsTrue};
ghost use Rattle.store_file.specs.Changes.{KeepsOtherTables, HasInstead, HasOneMore, HasEntriesMore, HasEntriesInstead};
ghost use Rattle.store_file.specs.Entries.{HoldsEntries};
ghost use Rattle.store_file.specs.Faults.{IsFailure, IsUnwritten};
ghost use Rattle.store_file.specs.Logs.{HasEntryTable, HasTables, IsClean, IsOpen, Finds, Makes, OnlyReads, Writes};
ghost use Rattle.store_file.specs.Registers.{HaveLateTime};
ghost use Rattle.store_file.specs.Transactions.{CommitsNothing};

use crate::catalog::ENTRIES;
pub use crate::entry::Entries;
use crate::fault::StoreFault;
use crate::log::{Log, commit, settled};
use crate::register::Register;
use crate::walk::{all_entries, clear, insert, insert_all, replace};
use sqlite_trees::store::{Shape, Store};
use sqlite_value::keys::Order;
use sqlite_value::row::Row;
use std::alloc::Global;

/// Whether a store has the table of entries, which the calls within a transaction ask for, and none takes away (`CommitsNothing`).
pub fn has_entry_table<S: Store>(trees: &S) -> bool
    ensures { IsTrue result → HasEntryTable S.Store trees.now }
{
    trees.shape(ENTRIES) == Shape::Index(Order::PLAIN)
}

/// The entries of the log, ascending by key, then by time, writer and value. It takes time and memory linear in the log.
///
/// # Errors
///
/// [`StoreFault::Database`], [`StoreFault::Malformed`] and [`StoreFault::Memory`]. Nothing is written.
pub fn read_log<S: Store>(alloc: Global, log: &mut Log<S>) -> Result<Entries, StoreFault>
    ensures held { Finds S.Store log.old log.new result (λ trees entries. HoldsEntries trees entries.items) }
    ensures failed { IfErr result IsFailure }
    ensures reads { OnlyReads S.Store log.old log.new result }
    ensures was_open { IsClean S.Store log.new → IsOpen S.Store log.new → IsOpen S.Store log.old }
{
    let read = all_entries(alloc, &mut log.trees);
    settled(&mut log.trees, read)
}

/// Adds an entry within a transaction, unless it is there. It takes the time of an insertion.
///
/// # Errors
///
/// [`StoreFault::Time`] where the database can't hold its time, [`StoreFault::Database`] and [`StoreFault::Memory`]. Nothing is rolled back.
pub fn add_at<S: Store>(
    alloc: Global,
    trees: &mut S,
    key: &str,
    register: &Register,
) -> Result<(), StoreFault>
    requires tables { IsClean S.Store trees.old → HasTables (S.Store.view trees.old) }
    ensures added { Makes S.Store trees.old trees.new result (HasOneMore key.now register.now) }
    ensures others { Makes S.Store trees.old trees.new result KeepsOtherTables }
    ensures late { IsErrOf result StoreFault.Time → 2 ^ 63 ≤ register.now.time }
    ensures faults { IfErr result IsUnwritten }
    ensures uncommitted { CommitsNothing S.Store trees.old trees.new }
{
    insert(trees, &mut Row::new(alloc), key, register)
}

/// Takes out all entries within a transaction. It takes a look and a removal for each.
///
/// # Errors
///
/// [`StoreFault::Database`], [`StoreFault::Malformed`] where the table is damaged, and [`StoreFault::Memory`]. Nothing is rolled back.
pub fn clear_at<S: Store>(alloc: Global, trees: &mut S) -> Result<(), StoreFault>
    requires tables { IsClean S.Store trees.old → HasTables (S.Store.view trees.old) }
    ensures cleared { Makes S.Store trees.old trees.new result (HasInstead []) }
    ensures others { Makes S.Store trees.old trees.new result KeepsOtherTables }
    ensures failed { IfErr result IsFailure }
    ensures uncommitted { CommitsNothing S.Store trees.old trees.new }
{
    clear(alloc, trees)
}

/// Adds an entry, unless it is there.
///
/// # Errors
///
/// [`StoreFault::Time`] where the database can't hold its time, [`StoreFault::Database`] and [`StoreFault::Memory`].
pub fn add<S: Store>(
    alloc: Global,
    log: &mut Log<S>,
    key: &str,
    register: &Register,
) -> Result<(), StoreFault>
    ensures added { Writes S.Store log.old log.new result (HasOneMore key.now register.now) }
    ensures late { IsErrOf result StoreFault.Time → 2 ^ 63 ≤ register.now.time }
    ensures faults { IfErr result IsUnwritten }
{
    let written = insert(&mut log.trees, &mut Row::new(alloc), key, register);
    commit(&mut log.trees, written)
}

/// Adds entries, all or none, but for those that are there. It takes the time of an insertion for each.
///
/// # Errors
///
/// [`StoreFault::Time`] where the database can't hold the time of one, [`StoreFault::Database`] and [`StoreFault::Memory`].
pub fn add_all<S: Store>(
    alloc: Global,
    log: &mut Log<S>,
    entries: &[(String, Register)],
) -> Result<(), StoreFault>
    ensures added { Writes S.Store log.old log.new result (HasEntriesMore entries.now) }
    ensures late { IsErrOf result StoreFault.Time → HaveLateTime entries.now }
    ensures faults { IfErr result IsUnwritten }
{
    let written = insert_all(alloc, &mut log.trees, entries);
    commit(&mut log.trees, written)
}

/// Leaves only these entries, and that or nothing. It takes the time of one transaction over all rows.
///
/// # Errors
///
/// [`StoreFault::Time`] where the database can't hold the time of an entry, [`StoreFault::Database`] and [`StoreFault::Memory`].
pub fn replace_all<S: Store>(
    alloc: Global,
    log: &mut Log<S>,
    entries: &[(String, Register)],
) -> Result<(), StoreFault>
    ensures replaced { Writes S.Store log.old log.new result (HasEntriesInstead entries.now) }
    ensures late { IsErrOf result StoreFault.Time → HaveLateTime entries.now }
    ensures faults { IfErr result IsUnwritten }
{
    let written = replace(alloc, &mut log.trees, entries);
    commit(&mut log.trees, written)
}
