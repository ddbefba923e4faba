//! The latest registers of the keys between two others, within a transaction.
ghost use Rattle.std.proofs.Common.{append-nil, refl, sym};
ghost use Rattle.std.specs.Prelude.{◌≡◌, [], Bool, List, true, IfOk, IfErr, IsSome, OnOk};
ghost use Rattle.key_order.specs.Text.{Text as Key};
ghost use Rattle.store_file.specs.Faults.{IsFailure};
ghost use Rattle.store_file.specs.Logs.{HasEntryTable, Finds};
ghost use Rattle.store_file.specs.Ranges.{AreLatestBetween, AreListed, HandsOn, HasVisited, IsFirstKey, TakesBelow, TakesLast, TakesRow};
ghost use Rattle.store_file.specs.Ranges.{below_bound, row_above};
ghost use Rattle.store_file.specs.Transactions.{CommitsNothing};
ghost use Rattle.store_file.specs.Walks.{MakesView, MakesViewAndFinds, StaysBut, WasSound};
ghost use Rattle.store_file.specs.declared.register.Register.{Register};

use crate::catalog::ENTRIES;
use crate::entry::{Entries, entry_of};
use crate::fault::StoreFault;
use crate::log::CURSOR;
use crate::reader::take_entry;
use crate::register::Register;
use crate::walk::look;
use sqlite_trees::store::{Direction, Store};
use sqlite_value::row::Row;
use sqlite_value::value::ValueRef;
use std::alloc::Global;
use std::cmp::Ordering;

/// Whether a key is below another, where there is one.
fn is_below(key: &String, before: &Option<String>) -> bool
    ensures { result ≡ below_bound before.now key.now }
{
    match before {
        None => true,
        Some(bound) => key < bound,
    }
}

/// The row from which a seek comes to the entries of the keys above one.
fn start(alloc: Global, after: &Option<String>) -> Result<Row, StoreFault>
    ensures start { IfOk result (λ row. row ≡ row_above after.now) }
    ensures failed { IfErr result IsFailure }
{
    let mut row = Row::new(alloc);
    if let Some(key) = after {
        row.push(ValueRef::Text(key.as_bytes()))?;
        row.push(ValueRef::Blob(&[]))?;
    }
    Ok(row)
}

/// What takes the rows of a table one after the other, all of them or the first.
pub trait RowVisitor {
    /// Between the first and the second it took these rows, one after the other, and takes more or doesn't.
    ghost took: { Self → Self → List (Key × Register) → Bool → Type 0 };

    /// It begins with no row, and takes one.
    ghost none: { (visitor : Self) → took visitor visitor [] true };

    /// Takes a row, and returns whether it takes more.
    ///
    /// # Errors
    ///
    /// [`StoreFault::Database`], [`StoreFault::Malformed`] and [`StoreFault::Memory`].
    fn visit(&mut self, row: (String, Register)) -> Result<bool, StoreFault>
        ensures taken { IfOk result (TakesRow took self.old self.new row) }
        ensures failed { IfErr result IsFailure };
}

/// A list takes all rows.
impl RowVisitor for Entries {
    ghost took = { λ old new. AreListed old.items new.items };

    ghost none = { λ rows. (sym (append-nil rows.items), refl) };

    fn visit(&mut self, row: (String, Register)) -> Result<bool, StoreFault> {
        if self.push(row).is_err() {
            return Err(StoreFault::Memory);
        }
        Ok(true)
    }
}

/// The next entry, where there is one and its key is below a bound.
fn next_below<S: Store>(
    alloc: Global,
    trees: &mut S,
    before: &Option<String>,
    row: &mut Row,
) -> Result<Option<(String, Register)>, StoreFault>
    requires live { IsSome ((S.Store.view trees.old).cursors 0) }
    ensures taken { MakesViewAndFinds S.Store trees.old trees.new result (TakesBelow before.now) }
    ensures live { OnOk result (IsSome ((S.Store.view trees.new).cursors 0)) }
    ensures failed { IfErr result IsFailure }
    ensures same { MakesView S.Store trees.old trees.new result StaysBut }
    ensures sound { MakesView S.Store trees.old trees.new result WasSound }
    ensures uncommitted { CommitsNothing S.Store trees.old trees.new }
{
    let Some(entry) = take_entry(alloc, trees, row)? else {
        return Ok(None);
    };
    if !is_below(&entry.0, before) {
        return Ok(None);
    }
    Ok(Some(entry))
}

/// Hands the last row to a visitor, where there is one.
fn hand_last<T: RowVisitor>(
    visitor: &mut T,
    last: Option<(String, Register)>,
) -> Result<(), StoreFault>
    ensures taken { OnOk result (TakesLast T.took visitor.old visitor.new last) }
    ensures failed { IfErr result IsFailure }
{
    if let Some(row) = last {
        visitor.visit(row)?;
    }
    Ok(())
}

/// Hands the last row to a visitor where an entry is of a key after it, and returns whether more are taken: only in a damaged tree is the entry of a
/// key before it.
fn hand_on<T: RowVisitor>(
    visitor: &mut T,
    last: Option<(String, Register)>,
    entry: &(String, Register),
) -> Result<bool, StoreFault>
    ensures passed { IfOk result (HandsOn T.took visitor.old visitor.new last entry.now) }
    ensures failed { IfErr result IsFailure }
{
    let Some(row) = last else {
        return Ok(true);
    };
    match row.0.cmp(&entry.0) {
        Ordering::Less => visitor.visit(row),
        Ordering::Equal => Ok(true),
        Ordering::Greater => Err(StoreFault::Malformed),
    }
}

/// Hands the keys above one and below another, where there are these, to a visitor, ascending, each with its latest register, removals too, as long as
/// it takes them, within a transaction: it reads what is written and not yet committed too. It returns whether these are all.
///
/// It takes a look into a tree and the time of reading the entries of the keys that the visitor takes, and memory for a few rows.
///
/// # Errors
///
/// [`StoreFault::Database`], [`StoreFault::Malformed`] and [`StoreFault::Memory`]. Nothing is rolled back.
pub fn visit_between<S: Store, T: RowVisitor>(
    alloc: Global,
    trees: &mut S,
    after: &Option<String>,
    before: &Option<String>,
    visitor: &mut T,
) -> Result<bool, StoreFault>
    requires table { HasEntryTable S.Store trees.old }
    ensures visited { Finds S.Store trees.old trees.new result (HasVisited T.took visitor.old visitor.new after.now before.now) }
    ensures failed { IfErr result IsFailure }
    ensures same { MakesView S.Store trees.old trees.new result StaysBut }
    ensures uncommitted { CommitsNothing S.Store trees.old trees.new }
{
    let mut last = None;
    let mut row = Row::new(alloc);
    let bound = start(alloc, after)?;
    trees.seek(CURSOR, ENTRIES, &bound, Direction::Forward)?;
    'entries: for _ in 0..u64::MAX {
        let Some(entry) = next_below(alloc, trees, before, &mut row)? else {
            hand_last(visitor, last)?;
            return Ok(true);
        };
        if !hand_on(visitor, last, &entry)? {
            return Ok(false);
        }
        last = Some(entry);
    }
    Err(StoreFault::Malformed)
}

/// The keys above one and below another, where there are these, ascending, each with its latest register, removals too, within a transaction: it
/// reads what is written and not yet committed too.
///
/// It takes a look into a tree and the time of reading the entries of these keys, and memory for the latest of them.
///
/// # Errors
///
/// [`StoreFault::Database`], [`StoreFault::Malformed`] and [`StoreFault::Memory`]. Nothing is rolled back.
pub fn latest_between<S: Store>(
    alloc: Global,
    trees: &mut S,
    after: &Option<String>,
    before: &Option<String>,
) -> Result<Entries, StoreFault>
    requires table { HasEntryTable S.Store trees.old }
    ensures latest { Finds S.Store trees.old trees.new result (λ old rows. AreLatestBetween after.now before.now old rows.items) }
    ensures failed { IfErr result IsFailure }
    ensures same { MakesView S.Store trees.old trees.new result StaysBut }
    ensures uncommitted { CommitsNothing S.Store trees.old trees.new }
{
    let mut rows: Entries = Vec::new(alloc);
    visit_between(alloc, trees, after, before, &mut rows)?;
    Ok(rows)
}

/// The first key that has an entry, if there is one, within a transaction: it reads what is written and not yet committed too.
///
/// It takes a look into a tree, and memory for one row.
///
/// # Errors
///
/// [`StoreFault::Database`], [`StoreFault::Malformed`] and [`StoreFault::Memory`]. Nothing is rolled back.
pub fn first_key<S: Store>(alloc: Global, trees: &mut S) -> Result<Option<String>, StoreFault>
    requires table { HasEntryTable S.Store trees.old }
    ensures first { Finds S.Store trees.old trees.new result IsFirstKey }
    ensures failed { IfErr result IsFailure }
    ensures same { MakesView S.Store trees.old trees.new result StaysBut }
    ensures uncommitted { CommitsNothing S.Store trees.old trees.new }
{
    let none = Row::new(alloc);
    let mut row = Row::new(alloc);
    if !look(trees, &none, Direction::Forward, &mut row)? {
        return Ok(None);
    }
    let entry = entry_of(alloc, &row)?;
    Ok(Some(entry.0))
}
