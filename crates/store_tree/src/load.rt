//! Loads of many keys, after which the table has the gaps of the map of those keys, and nothing is known of what stands in them.
ghost use Rattle.std.specs.Prelude.{◌≡◌, [], false, string_bytes};
ghost use Rattle.std.specs.Ordering.{is_gt};
ghost use Rattle.sqlite_trees.specs.Tree.{from_key};
ghost use Rattle.sqlite_value.specs.Keys.{plain, entry_cmp};
ghost use Rattle.store_file.specs.Logs.{Finds, Makes, MakesAndFinds};
ghost use Rattle.store_file.specs.Transactions.{CommitsNothing};
ghost use Rattle.store_file.specs.Walks.{GivesRow, MakesView, StaysBut};
ghost use Rattle.store_file.specs.declared.catalog.TheConstants.{CELLS as TREE};
ghost use Rattle.store_tree.specs.Loads.{AddsKey, HoldsNoKeys, KnowsNothing, LearnsNothing, LoadsKeys};
ghost use Rattle.store_tree.specs.Rows.{with_fronts};
ghost use Rattle.store_tree.specs.Tables.{HasTable, KeepsOthers};

use crate::fault::TreeFault;
use crate::seek::top;
use crate::table::CURSOR;
use crate::write::{grow, split};
use sqlite_trees::error::StoreError;
use sqlite_trees::store::{Direction, Store};
use sqlite_value::keys::Order;
use sqlite_value::row::Row;
use std::alloc::Global;
use store_file::catalog::CELLS;

/// The first row from a key on.
fn look<S: Store>(trees: &mut S, key: &Row, row: &mut Row) -> Result<bool, StoreError>
    requires table { HasTable S.Store trees.old }
    ensures found { Finds S.Store trees.old trees.new result (λ old. GivesRow (from_key plain key.now (old TREE)) row.new) }
    ensures same { MakesView S.Store trees.old trees.new result StaysBut }
    ensures uncommitted { CommitsNothing S.Store trees.old trees.new }
{
    trees.seek(CURSOR, CELLS, key, Direction::Forward)?;
    trees.next(CURSOR, row)
}

/// Takes out the first row, if there is one.
fn take_first<S: Store>(trees: &mut S, none: &Row, row: &mut Row) -> Result<bool, StoreError>
    requires table { HasTable S.Store trees.old }
    requires none { none.now ≡ [] }
    ensures last { MakesAndFinds S.Store trees.old trees.new result (λ _ new more. more ≡ false → new TREE ≡ []) }
    ensures others { Makes S.Store trees.old trees.new result KeepsOthers }
    ensures uncommitted { CommitsNothing S.Store trees.old trees.new }
{
    if !look(trees, none, row)? {
        return Ok(false);
    }
    trees.remove(CELLS, row)?;
    Ok(true)
}

/// Whether a row is above another.
fn is_above(row: &Row, other: &Row) -> bool
    ensures { result ≡ is_gt (entry_cmp plain row.now other.now) }
{
    row.cmp_entry(Order::PLAIN, other).is_gt()
}

/// Takes out all rows, each above the one before: in a damaged tree a row may stay that is taken out, and the walk ends there.
fn take_all<S: Store>(alloc: Global, trees: &mut S) -> Result<(), TreeFault>
    requires table { HasTable S.Store trees.old }
    ensures taken { Makes S.Store trees.old trees.new result (λ _ new. new TREE ≡ []) }
    ensures others { Makes S.Store trees.old trees.new result KeepsOthers }
    ensures uncommitted { CommitsNothing S.Store trees.old trees.new }
{
    let none = Row::new(alloc);
    let mut row = Row::new(alloc);
    let mut last = Row::new(alloc);
    'rows: for _ in 0..u64::MAX {
        if !take_first(trees, &none, &mut row)? {
            return Ok(());
        }
        if !is_above(&row, &last) {
            return Err(TreeFault::Malformed);
        }
        std::mem::swap(&mut row, &mut last);
    }
    Err(TreeFault::Malformed)
}

/// Leaves the gaps of the map without keys in place of all rows: one row, which knows nothing. It takes a seek and a removal for each row that was there.
///
/// # Errors
///
/// [`TreeFault::Database`], [`TreeFault::Malformed`] and [`TreeFault::Memory`]: what it wrote is then to be rolled back.
pub fn clear<S: Store>(alloc: Global, trees: &mut S) -> Result<(), TreeFault>
    requires table { HasTable S.Store trees.old }
    // The rows are the gaps of the map without keys.
    ensures cleared { Makes S.Store trees.old trees.new result (λ _ new. HoldsNoKeys (new TREE)) }
    ensures unknown { Makes S.Store trees.old trees.new result (λ _ new. KnowsNothing (new TREE)) }
    ensures others { Makes S.Store trees.old trees.new result KeepsOthers }
    ensures uncommitted { CommitsNothing S.Store trees.old trees.new }
{
    take_all(alloc, trees)?;
    grow(alloc, trees, 0, 1)?;
    Ok(())
}

/// Begins a gap above a key on each level from 1 to one, of which nothing is known.
fn begin<S: Store>(alloc: Global, trees: &mut S, key: &String, upto: u16) -> Result<(), TreeFault>
    requires table { HasTable S.Store trees.old }
    ensures begun { Makes S.Store trees.old trees.new result (λ old new. new TREE ≡ with_fronts (string_bytes key.now) upto (old TREE)) }
    ensures others { Makes S.Store trees.old trees.new result KeepsOthers }
    ensures uncommitted { CommitsNothing S.Store trees.old trees.new }
{
    let mut level: u16 = 0;
    'levels: while level < upto {
        level += 1;
        split(alloc, trees, level, key, true)?;
    }
    Ok(())
}

/// Adds a key, which is on this level, to a table that knows nothing, as one is after [`clear`]: its rows become the gaps of the map with the key set.
/// A key on level 0 costs nothing. One above takes one seek, and writes a row for each level up to its own.
///
/// # Errors
///
/// [`TreeFault::Database`], [`TreeFault::Malformed`] and [`TreeFault::Memory`]: what it wrote is then to be rolled back.
pub fn add<S: Store>(alloc: Global, trees: &mut S, level: u8, key: &String) -> Result<(), TreeFault>
    requires table { HasTable S.Store trees.old }
    // Where nothing is known, of whatever map the rows are the gaps, they become those of the map with the key set.
    ensures added { Makes S.Store trees.old trees.new result (λ old new. AddsKey level (string_bytes key.now) (old TREE) (new TREE)) }
    ensures unknown { Makes S.Store trees.old trees.new result (λ old new. LearnsNothing (old TREE) (new TREE)) }
    ensures others { Makes S.Store trees.old trees.new result KeepsOthers }
    ensures uncommitted { CommitsNothing S.Store trees.old trees.new }
{
    if level == 0 {
        return Ok(());
    }
    let on = u16::from(level);
    let top = top(alloc, trees)?;
    let upto = top.max(on + 1);
    grow(alloc, trees, top, upto)?;
    begin(alloc, trees, key, on)?;
    Ok(())
}

/// Puts the gaps of the map of these keys, each with its level, in place of all rows: [`clear`], then [`add`] for each key. The keys are in any order,
/// and one that is given twice counts once. Nothing is known of the gaps then, so nothing is hashed.
///
/// It takes a seek and a removal for each row that was there. Keys on level 0 cost nothing, so n keys in level base 16 take some n/15 seeks, and as many
/// rows written.
///
/// # Errors
///
/// [`TreeFault::Database`], [`TreeFault::Malformed`] and [`TreeFault::Memory`]: what it wrote is then to be rolled back.
pub fn load<S: Store>(alloc: Global, trees: &mut S, keys: &[(String, u8)]) -> Result<(), TreeFault>
    requires table { HasTable S.Store trees.old }
    // The rows are the gaps of whatever map has these keys and no other, each on its level.
    ensures loaded { Makes S.Store trees.old trees.new result (λ _ new. LoadsKeys keys.now (new TREE)) }
    ensures unknown { Makes S.Store trees.old trees.new result (λ _ new. KnowsNothing (new TREE)) }
    ensures others { Makes S.Store trees.old trees.new result KeepsOthers }
    ensures uncommitted { CommitsNothing S.Store trees.old trees.new }
{
    clear(alloc, trees)?;
    'keys: for entry in keys {
        add(alloc, trees, entry.1, &entry.0)?;
    }
    Ok(())
}
