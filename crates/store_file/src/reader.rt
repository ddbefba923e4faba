//! The entries of a log, and the latest of each key, one after the other, in the memory of a few rows.
ghost use Rattle.std.specs.Prelude.{◌≡◌, ◌+◌, [], None, IsSome, IfOk, IfErr, OnOk};
ghost use Rattle.store_file.specs.Faults.{IsFailure};
ghost use Rattle.store_file.specs.Logs.{HasTables, IsClean, OnlyReads};
ghost use Rattle.store_file.specs.Reading.{TakesEntry, EndsGroup, IsWalked, ReadsOn, ReadsAll, WalksOn, WalksAll};
ghost use Rattle.store_file.specs.Transactions.{CommitsNothing};
ghost use Rattle.store_file.specs.Walks.{StaysBut, WasSound, GivesAll, MakesView, MakesViewAndFinds};

use crate::catalog::ENTRIES;
use crate::entry::entry_of;
use crate::fault::StoreFault;
use crate::log::{CURSOR, Log, settled};
use crate::register::Register;
use sqlite_trees::store::{Direction, Store};
use sqlite_value::row::Row;
use std::alloc::Global;

/// A walk through the entries of a log. Another call on the log ends it.
#[derive(Drop)]
pub struct Walk {
    /// The row that was read last.
    row: Row,
    /// The latest entry so far of the key that it is at.
    ahead: Option<(String, Register)>,
    /// How many entries it has read.
    count: usize,
}

impl Walk {
    /// How many entries the walk has read.
    pub fn count(&self) -> usize
        ensures { result ≡ self.now.count }
    {
        self.count
    }
}

/// Places the cursor before the first row.
fn seek_first<S: Store>(alloc: Global, trees: &mut S) -> Result<(), StoreFault>
    requires tables { IsClean S.Store trees.old → HasTables (S.Store.view trees.old) }
    ensures begun { MakesView S.Store trees.old trees.new result GivesAll }
    ensures live { OnOk result (IsSome ((S.Store.view trees.new).cursors 0)) }
    ensures failed { IfErr result IsFailure }
    ensures same { MakesView S.Store trees.old trees.new result StaysBut }
    ensures uncommitted { CommitsNothing S.Store trees.old trees.new }
{
    trees.seek(CURSOR, ENTRIES, &Row::new(alloc), Direction::Forward)?;
    Ok(())
}

/// Begins a walk before the first entry.
///
/// # Errors
///
/// [`StoreFault::Database`] and [`StoreFault::Memory`]. Nothing is written.
pub fn begin<S: Store>(alloc: Global, log: &mut Log<S>) -> Result<Walk, StoreFault>
    ensures begun { IfOk result (λ walk. IsWalked S.Store log.old log.new walk []) }
    ensures failed { IfErr result IsFailure }
    ensures reads { OnlyReads S.Store log.old log.new result }
{
    match seek_first(alloc, &mut log.trees) {
        Ok(()) => Ok(Walk {
            row: Row::new(alloc),
            ahead: None,
            count: 0,
        }),
        Err(why) => settled(&mut log.trees, Err(why)),
    }
}

/// The entry of the next row, if there is one.
pub(crate) fn take_entry<S: Store>(
    alloc: Global,
    trees: &mut S,
    row: &mut Row,
) -> Result<Option<(String, Register)>, StoreFault>
    requires live { IsSome ((S.Store.view trees.old).cursors 0) }
    ensures taken { MakesViewAndFinds S.Store trees.old trees.new result TakesEntry }
    ensures live { OnOk result (IsSome ((S.Store.view trees.new).cursors 0)) }
    ensures failed { IfErr result IsFailure }
    ensures same { MakesView S.Store trees.old trees.new result StaysBut }
    ensures sound { MakesView S.Store trees.old trees.new result WasSound }
    ensures uncommitted { CommitsNothing S.Store trees.old trees.new }
{
    if !trees.next(CURSOR, row)? {
        return Ok(None);
    }
    Ok(Some(entry_of(alloc, row)?))
}

/// The next entry of a walk, or none where it has read all.
fn next_entry<S: Store>(
    alloc: Global,
    log: &mut Log<S>,
    row: &mut Row,
) -> Result<Option<(String, Register)>, StoreFault>
    requires live { IsSome ((S.Store.view log.old).cursors 0) }
    ensures taken { MakesViewAndFinds S.Store log.old log.new result TakesEntry }
    ensures read { IfOk result (λ found. ReadsOn S.Store log.old log.new found) }
    ensures all { IfOk result (λ found. found ≡ None → ReadsAll S.Store log.old log.new) }
    ensures failed { IfErr result IsFailure }
    ensures live { OnOk result (IsSome ((S.Store.view log.new).cursors 0)) }
    ensures same { MakesView S.Store log.old log.new result StaysBut }
    ensures reads { OnlyReads S.Store log.old log.new result }
{
    match take_entry(alloc, &mut log.trees, row) {
        Ok(found) => Ok(found),
        Err(why) => settled(&mut log.trees, Err(why)),
    }
}

/// Takes an entry in after those that a walk has read, and returns the last one before it where that is of another key.
fn take_in(walk: &mut Walk, entry: (String, Register)) -> Option<(String, Register)>
    ensures ended { EndsGroup walk.old.ahead walk.new.ahead entry result }
    ensures count { walk.new.count ≡ walk.old.count }
{
    let is_same = match &walk.ahead {
        Some(last) => last.0 == entry.0,
        None => true,
    };
    let last = walk.ahead.replace(entry);
    if is_same { None } else { last }
}

/// Counts an entry.
fn count_one(walk: &mut Walk) -> Result<(), StoreFault>
    ensures counted { OnOk result (walk.new.count ≡ walk.old.count + 1) }
    ensures ahead { walk.new.ahead ≡ walk.old.ahead }
    ensures failed { IfErr result IsFailure }
{
    match walk.count.checked_add(1) {
        Some(count) => {
            walk.count = count;
            Ok(())
        }
        None => Err(StoreFault::Malformed),
    }
}

/// The latest entry of the next key of a walk, or none where it has handed out all. It takes memory for a few rows.
///
/// # Errors
///
/// [`StoreFault::Database`], [`StoreFault::Malformed`] and [`StoreFault::Memory`]. Nothing is written.
pub fn next_latest<S: Store>(
    alloc: Global,
    log: &mut Log<S>,
    walk: &mut Walk,
) -> Result<Option<(String, Register)>, StoreFault>
    requires live { IsSome ((S.Store.view log.old).cursors 0) }
    ensures walked { IfOk result (λ found. WalksOn S.Store log.old log.new walk.old walk.new found) }
    ensures all { IfOk result (λ found. found ≡ None → WalksAll S.Store log.old log.new walk.old walk.new) }
    ensures failed { IfErr result IsFailure }
    ensures live { OnOk result (IsSome ((S.Store.view log.new).cursors 0)) }
    ensures same { MakesView S.Store log.old log.new result StaysBut }
    ensures reads { OnlyReads S.Store log.old log.new result }
{
    'entries: for _ in 0..u64::MAX {
        let Some(entry) = next_entry(alloc, log, &mut walk.row)? else {
            return Ok(walk.ahead.take());
        };
        count_one(walk)?;
        if let Some(last) = take_in(walk, entry) {
            return Ok(Some(last));
        }
    }
    Err(StoreFault::Malformed)
}
