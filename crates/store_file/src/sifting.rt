//! What of a damaged table can be read: its entries, without the rows that are none.
ghost use Rattle.std.specs.Prelude.{◌≡◌, ◌+◌, [], ◌∷◌, ◌++◌, length, IfErr, OnOk};
ghost use Rattle.store_file.specs.Entries.{HoldsEntries};
ghost use Rattle.store_file.specs.Faults.{IsFailure};
ghost use Rattle.store_file.specs.Logs.{HasTables, IsClean, Finds, OnlyReads};
ghost use Rattle.store_file.specs.Sifting.{AreSifted, TakesIn};
ghost use Rattle.store_file.specs.Transactions.{CommitsNothing};
ghost use Rattle.store_file.specs.Walks.{StaysBut, WasSound, MakesView};

use crate::catalog::ENTRIES;
use crate::entry::{Entries, entry_of, text_in};
use crate::fault::StoreFault;
use crate::log::{CURSOR, Log, settled};
use crate::register::Register;
use sqlite_trees::store::{Direction, Store};
use sqlite_value::row::Row;
use std::alloc::Global;

/// A row of the table that is no entry.
#[derive(Debug, Drop)]
pub struct BadRow {
    /// Which row it is, counted from 1.
    pub number: usize,
    /// Its key, if that is a text.
    pub key: Option<String>,
}

/// The entries of a table, and its rows that are none.
#[derive(Debug, Drop)]
pub struct Sifted {
    /// The entries, ascending.
    pub entries: Entries,
    /// The other rows, in their order.
    pub bad: Vec<BadRow>,
}

/// What is told of a row that is no entry.
fn bad_row(alloc: Global, row: &Row, number: usize) -> Result<BadRow, StoreFault>
    ensures { IfErr result IsFailure }
{
    let key = match text_in(alloc, row.get(0)) {
        Ok(key) => Some(key),
        Err(StoreFault::Malformed) => None,
        Err(other) => return Err(other),
    };
    Ok(BadRow { number, key })
}

/// Takes in a row that is no entry.
fn add_bad(alloc: Global, row: &Row, sifted: &mut Sifted) -> Result<(), StoreFault>
    ensures entries { sifted.new.entries ≡ sifted.old.entries }
    ensures more { OnOk result (length sifted.new.bad.items ≡ length sifted.old.bad.items + 1) }
    ensures failed { IfErr result IsFailure }
{
    let before = sifted.entries.len().saturating_add(sifted.bad.len());
    let bad = bad_row(alloc, row, before.saturating_add(1))?;
    if sifted.bad.push(bad).is_err() {
        return Err(StoreFault::Memory);
    }
    Ok(())
}

/// Takes in an entry.
fn add_entry(entry: (String, Register), sifted: &mut Sifted) -> Result<(), StoreFault>
    ensures more { OnOk result (sifted.new.entries.items ≡ sifted.old.entries.items ++ entry ∷ []) }
    ensures bad { sifted.new.bad ≡ sifted.old.bad }
    ensures failed { IfErr result IsFailure }
{
    if sifted.entries.push(entry).is_err() {
        return Err(StoreFault::Memory);
    }
    Ok(())
}

/// Takes in a row.
fn take_in(alloc: Global, row: &Row, sifted: &mut Sifted) -> Result<(), StoreFault>
    ensures taken { OnOk result (TakesIn row.now sifted.old.entries.items (length sifted.old.bad.items)
        sifted.new.entries.items (length sifted.new.bad.items)) }
    ensures failed { IfErr result IsFailure }
{
    match entry_of(alloc, row) {
        Ok(entry) => add_entry(entry, sifted),
        Err(StoreFault::Malformed) => add_bad(alloc, row, sifted),
        Err(other) => Err(other),
    }
}

/// All rows, as entries or as none.
fn sift_all<S: Store>(alloc: Global, trees: &mut S) -> Result<Sifted, StoreFault>
    requires tables { IsClean S.Store trees.old → HasTables (S.Store.view trees.old) }
    ensures sifted { Finds S.Store trees.old trees.new result (λ old sifted. AreSifted (old 0) sifted.entries.items (length sifted.bad.items)) }
    ensures failed { IfErr result IsFailure }
    ensures same { MakesView S.Store trees.old trees.new result StaysBut }
    ensures sound { MakesView S.Store trees.old trees.new result WasSound }
    ensures uncommitted { CommitsNothing S.Store trees.old trees.new }
{
    let entries = Vec::new(alloc);
    let bad = Vec::new(alloc);
    let mut sifted = Sifted { entries, bad };
    let mut row = Row::new(alloc);
    trees.seek(CURSOR, ENTRIES, &row, Direction::Forward)?;
    'rows: for _ in 0..u64::MAX {
        if !trees.next(CURSOR, &mut row)? {
            return Ok(sifted);
        }
        take_in(alloc, &row, &mut sifted)?;
    }
    Err(StoreFault::Malformed)
}

/// The entries of the log, ascending by key, then by time, writer and value, and the rows of its table that are no entries. It takes time and memory
/// linear in the log.
///
/// ```rust crates/mst_commands/src/damage.rt
/// let sifted = sift(rt.alloc(), log)?;
/// tell(rt, &sifted.bad)
/// ```
///
/// # Errors
///
/// [`StoreFault::Database`] and [`StoreFault::Memory`]. Nothing is written.
pub fn sift<S: Store>(alloc: Global, log: &mut Log<S>) -> Result<Sifted, StoreFault>
    ensures sifted { Finds S.Store log.old log.new result (λ trees sifted. AreSifted (trees 0) sifted.entries.items (length sifted.bad.items)) }
    // Without such rows the entries are those of the log.
    ensures whole { Finds S.Store log.old log.new result (λ trees sifted. sifted.bad.items ≡ [] → HoldsEntries trees sifted.entries.items) }
    ensures failed { IfErr result IsFailure }
    ensures reads { OnlyReads S.Store log.old log.new result }
{
    let read = sift_all(alloc, &mut log.trees);
    settled(&mut log.trees, read)
}
