//! The latest register of a key, found in the log without a tree in memory, and writes over it.
ghost use Rattle.std.specs.Prelude.{◌≡◌, ◌≤◌, ◌^◌, is_some, false, Some, None, IfOk, IfErr, IsErrOf};
ghost use Rattle.std.specs.Ordering.{is_eq};
ghost use Rattle.sqlite_value.specs.Order.{column, value_cmp};
ghost use Rattle.sqlite_value.specs.declared.value.Value.TheVariants.{Text as Words};
ghost use Rattle.store_file.specs.Faults.{IsFailure, IsUnwritten};
ghost use Rattle.store_file.specs.Latest.{said_by, IsLastRow, IsLatestAt, IsThere, IsWrittenLate, HasWriteOver, WritesOver, Removes};
ghost use Rattle.store_file.specs.Logs.{HasEntryTable, IsClean, IsOpen, IsSteady, Finds, MakesAndFinds, Refuses, StaysInErr, Leaves, OnlyReads, Writes};
ghost use Rattle.store_file.specs.Registers.{time_after, HasLastTime};
ghost use Rattle.store_file.specs.Transactions.{CommitsNothing};
ghost use Rattle.store_file.specs.Walks.{StaysBut, MakesView};

use crate::entry::entry_of;
use crate::fault::StoreFault;
use crate::log::{Log, settled};
use crate::register::Register;
use crate::table;
use crate::value::Value;
use crate::walk::look;
use sqlite_trees::store::{Direction, Store};
use sqlite_value::order::compare;
use sqlite_value::row::Row;
use sqlite_value::value::ValueRef;
use std::alloc::Global;

/// Whether a row is one of a key.
fn is_of(row: &Row, key: &str) -> bool
    ensures { result ≡ is_eq (value_cmp (column row.now 0) (Words key.now)) }
{
    compare(row.get(0), ValueRef::Text(key.as_bytes())).is_eq()
}

/// The last row of a key, if it has one.
fn last_row<S: Store>(
    alloc: Global,
    trees: &mut S,
    key: &str,
    row: &mut Row,
) -> Result<bool, StoreFault>
    requires table { HasEntryTable S.Store trees.old }
    ensures last { Finds S.Store trees.old trees.new result (λ old. IsLastRow old key.now row.new) }
    ensures failed { IfErr result IsFailure }
    ensures same { MakesView S.Store trees.old trees.new result StaysBut }
    ensures uncommitted { CommitsNothing S.Store trees.old trees.new }
{
    let mut bound = Row::new(alloc);
    bound.push(ValueRef::Text(key.as_bytes()))?;
    if !look(trees, &bound, Direction::Backward, row)? {
        return Ok(false);
    }
    Ok(is_of(row, key))
}

/// The latest register that the table of entries has for a key, if it has one, within a transaction: it reads what is written and not yet committed
/// too. It takes what [`find`] takes.
///
/// # Errors
///
/// [`StoreFault::Database`], [`StoreFault::Malformed`] and [`StoreFault::Memory`]. Nothing is rolled back.
pub fn latest_at<S: Store>(
    alloc: Global,
    trees: &mut S,
    key: &str,
) -> Result<Option<Register>, StoreFault>
    requires table { HasEntryTable S.Store trees.old }
    ensures latest { Finds S.Store trees.old trees.new result (λ old. IsLatestAt old key.now) }
    ensures failed { IfErr result IsFailure }
    ensures same { MakesView S.Store trees.old trees.new result StaysBut }
    ensures uncommitted { CommitsNothing S.Store trees.old trees.new }
{
    let mut row = Row::new(alloc);
    if !last_row(alloc, trees, key, &mut row)? {
        return Ok(None);
    }
    let entry = entry_of(alloc, &row)?;
    Ok(Some(entry.1))
}

/// The latest register that the log has for a key, if it has one: a removal too. It takes the time of one look into a tree, logarithmic in the
/// log, and memory for one row.
///
/// ```rust crates/mst_commands/src/reading.rt
/// let found = latest::find(alloc, log, key)?;
/// Ok(latest::value_of(found))
/// ```
///
/// # Errors
///
/// [`StoreFault::Database`], [`StoreFault::Malformed`] and [`StoreFault::Memory`]. Nothing is written.
pub fn find<S: Store>(
    alloc: Global,
    log: &mut Log<S>,
    key: &str,
) -> Result<Option<Register>, StoreFault>
    ensures latest { Finds S.Store log.old log.new result (λ trees found. IsLatestAt trees key.now found) }
    ensures failed { IfErr result IsFailure }
    ensures reads { OnlyReads S.Store log.old log.new result }
    ensures was_open { IsClean S.Store log.new → IsOpen S.Store log.new → IsOpen S.Store log.old }
{
    let found = latest_at(alloc, &mut log.trees, key);
    settled(&mut log.trees, found)
}

/// What a register says: a value, or none where there is no register or a removal.
pub fn value_of(found: Option<Register>) -> Option<Value>
    ensures { result ≡ said_by found }
{
    match found {
        Some(register) => register.value,
        None => None,
    }
}

/// The time of a write over what is there, at this time of the clock.
///
/// # Errors
///
/// [`StoreFault::Time`] where what is there has the last time that there is.
pub fn later_time(found: &Option<Register>, now: u64) -> Result<u64, StoreFault>
    ensures time { IfOk result (λ time. time ≡ time_after found.now now) }
    ensures last { IfErr result (λ why. (why ≡ StoreFault.Time) × HasLastTime found.now) }
{
    let Some(register) = found else {
        return Ok(now);
    };
    match register.time.checked_add(1) {
        Some(above) => Ok(now.max(above)),
        None => Err(StoreFault::Time),
    }
}

/// Writes a value under a key, or that the key is removed, over what `found` says of the key.
fn write_over<S: Store>(
    alloc: Global,
    log: &mut Log<S>,
    writer: String,
    now: u64,
    key: &str,
    found: &Option<Register>,
    value: Option<Value>,
) -> Result<(), StoreFault>
    ensures written { Writes S.Store log.old log.new result (HasWriteOver key.now found.now writer now value) }
    ensures late { IsErrOf result StoreFault.Time → 2 ^ 63 ≤ time_after found.now now }
    ensures faults { IfErr result IsUnwritten }
{
    let time = later_time(found, now)?;
    let register = Register {
        time,
        writer,
        value,
    };
    table::add(alloc, log, key, &register)
}

/// Writes a value under a key, at the clock's time, or one above the time of what is there.
///
/// # Errors
///
/// [`StoreFault::Time`] where the database can't hold that time, [`StoreFault::Database`], [`StoreFault::Malformed`] and
/// [`StoreFault::Memory`].
pub fn put<S: Store>(
    alloc: Global,
    log: &mut Log<S>,
    writer: String,
    now: u64,
    key: &str,
    value: Value,
) -> Result<(), StoreFault>
    ensures written { Writes S.Store log.old log.new result (WritesOver key.now writer now (Some value)) }
    ensures late { Refuses S.Store log.old log.new result StoreFault.Time (λ trees. IsWrittenLate trees key.now now) }
    ensures faults { IfErr result IsUnwritten }
{
    let found = find(alloc, log, key)?;
    write_over(alloc, log, writer, now, key, &found, Some(value))
}

/// Whether a register says a value.
pub fn has_value(found: &Option<Register>) -> bool
    ensures { result ≡ is_some (said_by found.now) }
{
    match found {
        Some(register) => register.value.is_some(),
        None => false,
    }
}

/// Removes a key, and returns whether it was there. Where it was not, nothing is written.
///
/// # Errors
///
/// [`StoreFault::Time`] where the database can't hold the time of the removal, [`StoreFault::Database`], [`StoreFault::Malformed`] and
/// [`StoreFault::Memory`].
pub fn remove<S: Store>(
    alloc: Global,
    log: &mut Log<S>,
    writer: String,
    now: u64,
    key: &str,
) -> Result<bool, StoreFault>
    ensures written { MakesAndFinds S.Store log.old log.new result (Removes key.now writer now) }
    ensures late { Refuses S.Store log.old log.new result StoreFault.Time (λ trees. IsWrittenLate trees key.now now) }
    ensures faults { IfErr result IsUnwritten }
    ensures absent { MakesAndFinds S.Store log.old log.new result (λ old new was. was ≡ false → new ≡ old) }
    ensures refused { StaysInErr S.Store log.old log.new result }
    ensures steady { IsSteady S.Store log.old log.new }
    // A crash leaves what it could leave before, or trees with the removal.
    ensures crash { Leaves S.Store log.old log.new (WritesOver key.now writer now None) }
    ensures was { Finds S.Store log.old log.new result (λ trees was. IsThere trees key.now was) }
{
    let found = find(alloc, log, key)?;
    if !has_value(&found) {
        return Ok(false);
    }
    write_over(alloc, log, writer, now, key, &found, None)?;
    Ok(true)
}
