//! Writes of a key, after which the table has the gaps of the map with it.
ghost use Rattle.std.specs.Prelude.{◌≡◌, ◌-◌, string_bytes};
ghost use Rattle.sqlite_trees.specs.Tree.{insert_entry, remove_entry};
ghost use Rattle.sqlite_value.specs.Keys.{plain};
ghost use Rattle.store_file.specs.Logs.{Makes};
ghost use Rattle.store_file.specs.Transactions.{CommitsNothing};
ghost use Rattle.store_file.specs.declared.catalog.TheConstants.{CELLS as TREE};
ghost use Rattle.store_tree.specs.Calls.{WritesKey};
ghost use Rattle.store_tree.specs.Rows.{bound_bytes, with_known, with_levels};
ghost use Rattle.store_tree.specs.Tables.{HasTable, KeepsOthers};
ghost use Rattle.store_tree.specs.Touches.{Touches, TouchesUpto, cleared, is_front as begins_above, split as split_rows};

use crate::cell::{Cell, Known, fill};
use crate::fault::TreeFault;
use crate::seek::{cell_upto, top};
use sqlite_trees::store::Store;
use sqlite_value::row::Row;
use std::alloc::Global;
use store_file::catalog::CELLS;

/// Takes a row away.
fn take<S: Store>(trees: &mut S, row: &Row) -> Result<(), TreeFault>
    requires table { HasTable S.Store trees.old }
    ensures taken { Makes S.Store trees.old trees.new result (λ old new. new TREE ≡ remove_entry plain row.now (old TREE)) }
    ensures others { Makes S.Store trees.old trees.new result KeepsOthers }
    ensures uncommitted { CommitsNothing S.Store trees.old trees.new }
{
    trees.remove(CELLS, row)?;
    Ok(())
}

/// Puts a row at its place.
fn put<S: Store>(trees: &mut S, row: &Row) -> Result<(), TreeFault>
    requires table { HasTable S.Store trees.old }
    ensures put { Makes S.Store trees.old trees.new result (λ old new. new TREE ≡ insert_entry plain row.now (old TREE)) }
    ensures others { Makes S.Store trees.old trees.new result KeepsOthers }
    ensures uncommitted { CommitsNothing S.Store trees.old trees.new }
{
    trees.insert(CELLS, row)?;
    Ok(())
}

/// Notes what is known of a cell's gap.
pub(crate) fn note<S: Store>(
    alloc: Global,
    trees: &mut S,
    cell: &Cell,
    known: &Known,
) -> Result<(), TreeFault>
    requires table { HasTable S.Store trees.old }
    ensures noted { Makes S.Store trees.old trees.new result (λ old new. new TREE ≡ with_known cell.now known.now (old TREE)) }
    ensures others { Makes S.Store trees.old trees.new result KeepsOthers }
    ensures uncommitted { CommitsNothing S.Store trees.old trees.new }
{
    let mut row = Row::new(alloc);
    fill(&mut row, cell.level, &cell.front, &cell.known)?;
    take(trees, &row)?;
    fill(&mut row, cell.level, &cell.front, known)?;
    put(trees, &row)
}

/// Forgets what is known of a cell's gap.
fn clear<S: Store>(alloc: Global, trees: &mut S, cell: &Cell) -> Result<(), TreeFault>
    requires table { HasTable S.Store trees.old }
    ensures cleared { Makes S.Store trees.old trees.new result (λ old new. new TREE ≡ cleared cell.now (old TREE)) }
    ensures others { Makes S.Store trees.old trees.new result KeepsOthers }
    ensures uncommitted { CommitsNothing S.Store trees.old trees.new }
{
    match cell.known {
        Known::Unknown => Ok(()),
        Known::Nothing => note(alloc, trees, cell, &Known::Unknown),
        Known::Page { .. } => note(alloc, trees, cell, &Known::Unknown),
    }
}

/// Whether a cell's gap begins above this key.
fn is_front(cell: &Cell, key: &String) -> bool
    ensures { result ≡ begins_above (string_bytes key.now) (bound_bytes cell.now.front) }
{
    match &cell.front {
        None => false,
        Some(front) => *front == *key,
    }
}

/// Begins a gap of a level above a key, where one is to begin.
pub(crate) fn split<S: Store>(
    alloc: Global,
    trees: &mut S,
    level: u16,
    key: &String,
    begins: bool,
) -> Result<(), TreeFault>
    requires table { HasTable S.Store trees.old }
    ensures split { Makes S.Store trees.old trees.new result (λ old new. new TREE ≡ split_rows level (string_bytes key.now) begins (old TREE)) }
    ensures others { Makes S.Store trees.old trees.new result KeepsOthers }
    ensures uncommitted { CommitsNothing S.Store trees.old trees.new }
{
    if !begins {
        return Ok(());
    }
    let mut row = Row::new(alloc);
    fill(&mut row, level, &Some(key.clone()?), &Known::Unknown)?;
    put(trees, &row)
}

/// On one level forgets what is known of the gap that has a key, and begins a gap above the key where it is a front of the level.
fn touch<S: Store>(
    alloc: Global,
    trees: &mut S,
    level: u16,
    key: &String,
    here: bool,
) -> Result<(), TreeFault>
    requires table { HasTable S.Store trees.old }
    ensures touched { Makes S.Store trees.old trees.new result (λ old new. Touches level (string_bytes key.now) here (old TREE) (new TREE)) }
    ensures others { Makes S.Store trees.old trees.new result KeepsOthers }
    ensures uncommitted { CommitsNothing S.Store trees.old trees.new }
{
    let cell = cell_upto(alloc, trees, level, key)?;
    clear(alloc, trees, &cell)?;
    split(alloc, trees, level, key, here && !is_front(&cell, key))
}

/// Adds levels above one, up to another, each with one gap of which nothing is known.
pub(crate) fn grow<S: Store>(
    alloc: Global,
    trees: &mut S,
    top: u16,
    upto: u16,
) -> Result<(), TreeFault>
    requires table { HasTable S.Store trees.old }
    ensures grown { Makes S.Store trees.old trees.new result (λ old new. new TREE ≡ with_levels top (upto - top) (old TREE)) }
    ensures others { Makes S.Store trees.old trees.new result KeepsOthers }
    ensures uncommitted { CommitsNothing S.Store trees.old trees.new }
{
    let mut row = Row::new(alloc);
    let mut level = top;
    'levels: while level < upto {
        level += 1;
        fill(&mut row, level, &None, &Known::Unknown)?;
        put(trees, &row)?;
    }
    Ok(())
}

/// Touches each level from 1 to one, of which those up to the key's level get a gap above the key.
fn touch_all<S: Store>(
    alloc: Global,
    trees: &mut S,
    key: &String,
    on: u16,
    upto: u16,
) -> Result<(), TreeFault>
    requires table { HasTable S.Store trees.old }
    ensures touched { Makes S.Store trees.old trees.new result (λ old new. TouchesUpto (string_bytes key.now) on upto (old TREE) (new TREE)) }
    ensures others { Makes S.Store trees.old trees.new result KeepsOthers }
    ensures uncommitted { CommitsNothing S.Store trees.old trees.new }
{
    let mut level: u16 = 0;
    'levels: while level < upto {
        level += 1;
        touch(alloc, trees, level, key, level <= on)?;
    }
    Ok(())
}

/// Writes a key, which is on this level: forgets what is known of each gap that has it, and begins a gap above it on each level up to its own. The
/// table of a map's gaps becomes that of the map with the key set. It takes a seek for each level of the table, and writes at most three rows for each.
///
/// # Errors
///
/// [`TreeFault::Database`], [`TreeFault::Malformed`] and [`TreeFault::Memory`]: what it wrote is then to be rolled back.
pub fn write<S: Store>(
    alloc: Global,
    trees: &mut S,
    level: u8,
    key: &String,
) -> Result<(), TreeFault>
    requires table { HasTable S.Store trees.old }
    // Of whatever map the rows are the gaps, they become those of the map with the key set.
    ensures written { Makes S.Store trees.old trees.new result (λ old new. WritesKey level (string_bytes key.now) (old TREE) (new TREE)) }
    ensures others { Makes S.Store trees.old trees.new result KeepsOthers }
    ensures uncommitted { CommitsNothing S.Store trees.old trees.new }
{
    let on = u16::from(level);
    let top = top(alloc, trees)?;
    let upto = top.max(on + 1);
    grow(alloc, trees, top, upto)?;
    touch_all(alloc, trees, key, on, upto)?;
    Ok(())
}
