//! Walks through the rows of the table of entries, which are one transaction with what a caller does next.
ghost use Rattle.std.specs.Prelude.{◌≡◌, ◌≤◌, ◌^◌, [], ◌∷◌, ◌++◌, map, false, IfErr, OnOk, IsErrOf};
ghost use Rattle.std.specs.Ordering.{is_gt};
ghost use Rattle.sqlite_trees.specs.View.{OnlyWrites};
ghost use Rattle.sqlite_value.specs.Keys.{plain, entry_cmp};
ghost use Rattle.store_file.specs.Changes.{KeepsOtherTables, HasInstead, HasOneMore, HasEntriesMore, HasEntriesInstead};
ghost use Rattle.store_file.specs.Entries.{entry_row};
ghost use Rattle.store_file.specs.Faults.{IsFailure, IsUnwritten};
ghost use Rattle.store_file.specs.Logs.{HasEntryTable, HasTables, IsClean, Finds, Makes, MakesAndFinds};
ghost use Rattle.store_file.specs.Registers.{HaveLateTime};
ghost use Rattle.store_file.specs.Transactions.{CommitsNothing};
ghost use Rattle.store_file.specs.Walks.{IsSought, StaysBut, WasSound, MakesView};

use crate::catalog::ENTRIES;
use crate::entry::{Entries, entry_of, fill_row};
use crate::fault::StoreFault;
use crate::log::CURSOR;
use crate::register::Register;
use sqlite_trees::error::StoreError;
use sqlite_trees::store::{Direction, Store};
use sqlite_value::keys::Order;
use sqlite_value::row::Row;
use std::alloc::Global;

/// The last row that is not above the key, or the first that is not below it, over the columns that the key has.
pub(crate) fn look<S: Store>(
    trees: &mut S,
    key: &Row,
    direction: Direction,
    row: &mut Row,
) -> Result<bool, StoreError>
    requires table { HasEntryTable S.Store trees.old }
    ensures found { Finds S.Store trees.old trees.new result (λ old. IsSought old key.now direction row.new) }
    ensures same { MakesView S.Store trees.old trees.new result StaysBut }
    ensures sound { MakesView S.Store trees.old trees.new result WasSound }
    ensures uncommitted { CommitsNothing S.Store trees.old trees.new }
{
    trees.seek(CURSOR, ENTRIES, key, direction)?;
    trees.next(CURSOR, row)
}

/// Adds the entry of a row.
fn push_entry(alloc: Global, row: &Row, entries: &mut Entries) -> Result<(), StoreFault>
    ensures pushed { OnOk result (map entry_row entries.new.items ≡ map entry_row entries.old.items ++ row.now ∷ []) }
    ensures failed { IfErr result IsFailure }
{
    let entry = entry_of(alloc, row)?;
    if entries.push(entry).is_err() {
        return Err(StoreFault::Memory);
    }
    Ok(())
}

/// All entries.
pub(crate) fn all_entries<S: Store>(alloc: Global, trees: &mut S) -> Result<Entries, StoreFault>
    requires tables { IsClean S.Store trees.old → HasTables (S.Store.view trees.old) }
    ensures found { Finds S.Store trees.old trees.new result (λ old entries. old 0 ≡ map entry_row entries.items) }
    ensures failed { IfErr result IsFailure }
    ensures same { MakesView S.Store trees.old trees.new result StaysBut }
    ensures sound { MakesView S.Store trees.old trees.new result WasSound }
    ensures uncommitted { CommitsNothing S.Store trees.old trees.new }
{
    let mut entries = Vec::new(alloc);
    let mut row = Row::new(alloc);
    trees.seek(CURSOR, ENTRIES, &row, Direction::Forward)?;
    'rows: for _ in 0..u64::MAX {
        if !trees.next(CURSOR, &mut row)? {
            return Ok(entries);
        }
        push_entry(alloc, &row, &mut entries)?;
    }
    Err(StoreFault::Malformed)
}

/// Takes out the first row, if there is one.
fn remove_first<S: Store>(trees: &mut S, none: &Row, row: &mut Row) -> Result<bool, StoreError>
    requires tables { IsClean S.Store trees.old → HasTables (S.Store.view trees.old) }
    requires none { none.now ≡ [] }
    ensures last { MakesAndFinds S.Store trees.old trees.new result (λ _ new more. more ≡ false → new 0 ≡ []) }
    ensures others { Makes S.Store trees.old trees.new result KeepsOtherTables }
    ensures frame { MakesView S.Store trees.old trees.new result OnlyWrites }
    ensures sound { MakesView S.Store trees.old trees.new result WasSound }
    ensures uncommitted { CommitsNothing S.Store trees.old trees.new }
{
    if !look(trees, none, Direction::Forward, row)? {
        return Ok(false);
    }
    trees.remove(ENTRIES, row)?;
    Ok(true)
}

/// Whether a row is above another.
fn is_above(row: &Row, other: &Row) -> bool
    ensures { result ≡ is_gt (entry_cmp plain row.now other.now) }
{
    row.cmp_entry(Order::PLAIN, other).is_gt()
}

/// Takes out all rows, each above the one before: in a damaged tree a row may stay that is taken out, and the walk ends there.
pub(crate) fn clear<S: Store>(alloc: Global, trees: &mut S) -> Result<(), StoreFault>
    requires tables { IsClean S.Store trees.old → HasTables (S.Store.view trees.old) }
    ensures cleared { Makes S.Store trees.old trees.new result (HasInstead []) }
    ensures others { Makes S.Store trees.old trees.new result KeepsOtherTables }
    ensures failed { IfErr result IsFailure }
    ensures frame { MakesView S.Store trees.old trees.new result OnlyWrites }
    ensures sound { MakesView S.Store trees.old trees.new result WasSound }
    ensures uncommitted { CommitsNothing S.Store trees.old trees.new }
{
    let none = Row::new(alloc);
    let mut row = Row::new(alloc);
    let mut last = Row::new(alloc);
    'rows: for _ in 0..u64::MAX {
        if !remove_first(trees, &none, &mut row)? {
            return Ok(());
        }
        if !is_above(&row, &last) {
            return Err(StoreFault::Malformed);
        }
        std::mem::swap(&mut row, &mut last);
    }
    Err(StoreFault::Malformed)
}

/// Puts the row of an entry at its place, unless it is there.
pub(crate) fn insert<S: Store>(
    trees: &mut S,
    row: &mut Row,
    key: &str,
    register: &Register,
) -> Result<(), StoreFault>
    requires tables { IsClean S.Store trees.old → HasTables (S.Store.view trees.old) }
    ensures added { Makes S.Store trees.old trees.new result (HasOneMore key.now register.now) }
    ensures others { Makes S.Store trees.old trees.new result KeepsOtherTables }
    ensures late { IsErrOf result StoreFault.Time → 2 ^ 63 ≤ register.now.time }
    ensures faults { IfErr result IsUnwritten }
    ensures frame { MakesView S.Store trees.old trees.new result OnlyWrites }
    ensures sound { MakesView S.Store trees.old trees.new result WasSound }
    ensures uncommitted { CommitsNothing S.Store trees.old trees.new }
{
    fill_row(row, key, register)?;
    trees.insert(ENTRIES, row)?;
    Ok(())
}

/// Puts the rows of entries at their places, but for those that are there.
pub(crate) fn insert_all<S: Store>(
    alloc: Global,
    trees: &mut S,
    entries: &[(String, Register)],
) -> Result<(), StoreFault>
    requires tables { IsClean S.Store trees.old → HasTables (S.Store.view trees.old) }
    ensures added { Makes S.Store trees.old trees.new result (HasEntriesMore entries.now) }
    ensures late { IsErrOf result StoreFault.Time → HaveLateTime entries.now }
    ensures faults { IfErr result IsUnwritten }
    ensures frame { MakesView S.Store trees.old trees.new result OnlyWrites }
    ensures uncommitted { CommitsNothing S.Store trees.old trees.new }
{
    let mut row = Row::new(alloc);
    'entries: for entry in entries {
        insert(trees, &mut row, entry.0.as_str(), &entry.1)?;
    }
    Ok(())
}

/// Puts the rows of entries in place of those that are there.
pub(crate) fn replace<S: Store>(
    alloc: Global,
    trees: &mut S,
    entries: &[(String, Register)],
) -> Result<(), StoreFault>
    requires tables { IsClean S.Store trees.old → HasTables (S.Store.view trees.old) }
    ensures replaced { Makes S.Store trees.old trees.new result (HasEntriesInstead entries.now) }
    ensures late { IsErrOf result StoreFault.Time → HaveLateTime entries.now }
    ensures faults { IfErr result IsUnwritten }
    ensures frame { MakesView S.Store trees.old trees.new result OnlyWrites }
    ensures uncommitted { CommitsNothing S.Store trees.old trees.new }
{
    clear(alloc, trees)?;
    insert_all(alloc, trees, entries)
}
