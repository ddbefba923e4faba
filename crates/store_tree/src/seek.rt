//! Seeks in the table of cells.
ghost use Rattle.std.specs.Prelude.{◌≡◌, ◌&&◌, ◌≤◌, true, reverse, string_bytes, IfOk, Some};
ghost use Rattle.sqlite_trees.specs.Tree.{up_to_key};
ghost use Rattle.sqlite_value.specs.Keys.{plain};
ghost use Rattle.store_file.specs.Logs.{Finds};
ghost use Rattle.store_file.specs.Transactions.{CommitsNothing};
ghost use Rattle.store_file.specs.Walks.{GivesRow, MakesView, StaysBut, WasSound};
ghost use Rattle.store_file.specs.declared.catalog.TheConstants.{CELLS as TREE};
ghost use Rattle.store_tree.specs.Rows.{IsTop, bound_bytes, is_ahead as has_ahead, is_level as has_level, row_of_cell, rows_between, rows_upto, start_row};
ghost use Rattle.store_tree.specs.Tables.{GivesLast, HasTable, IsScan};

use crate::cell::{Cell, cell_of};
use crate::fault::TreeFault;
use crate::table::CURSOR;
use sqlite_trees::error::StoreError;
use sqlite_trees::store::{Direction, Store};
use sqlite_value::order::compare;
use sqlite_value::row::Row;
use sqlite_value::value::ValueRef;
use std::alloc::Global;
use store_file::catalog::CELLS;

/// Whether a row is on a level.
fn is_level(row: &Row, level: u16) -> bool
    ensures { result ≡ has_level level row.now }
{
    compare(row.get(0), ValueRef::Int(i64::from(level))).is_eq()
}

/// Whether the gap of a row begins below a bound, where there is one.
fn is_ahead(row: &Row, before: &Option<String>) -> bool
    ensures { result ≡ has_ahead (bound_bytes before.now) row.now }
{
    match before {
        None => true,
        Some(key) => compare(row.get(1), ValueRef::Text(key.as_bytes())).is_lt(),
    }
}

/// Whether a row is on a level, and its gap begins below a bound, where there is one.
fn is_within(row: &Row, level: u16, before: &Option<String>) -> bool
    ensures { result ≡ has_level level row.now && has_ahead (bound_bytes before.now) row.now }
{
    is_level(row, level) && is_ahead(row, before)
}

/// The row from which a seek comes to the rows of a level from a front on.
fn start(alloc: Global, level: u16, front: &Option<String>) -> Result<Row, TreeFault>
    ensures { IfOk result (λ row. row ≡ start_row level (bound_bytes front.now)) }
{
    let mut row = Row::new(alloc);
    row.push(ValueRef::Int(i64::from(level)))?;
    if let Some(key) = front {
        row.push(ValueRef::Text(key.as_bytes()))?;
    }
    Ok(row)
}

/// The row at which a seek back from a key of a level begins.
fn end(alloc: Global, level: u16, key: &String) -> Result<Row, TreeFault>
    ensures { IfOk result (λ row. row ≡ start_row level (Some (string_bytes key.now))) }
{
    let mut row = Row::new(alloc);
    row.push(ValueRef::Int(i64::from(level)))?;
    row.push(ValueRef::Text(key.as_bytes()))?;
    Ok(row)
}

/// The last row up to a key.
fn look_back<S: Store>(trees: &mut S, key: &Row, row: &mut Row) -> Result<bool, StoreError>
    requires table { HasTable S.Store trees.old }
    ensures found { Finds S.Store trees.old trees.new result (λ old. GivesRow (reverse (up_to_key plain key.now (old TREE))) row.new) }
    ensures same { MakesView S.Store trees.old trees.new result StaysBut }
    ensures sound { MakesView S.Store trees.old trees.new result WasSound }
    ensures uncommitted { CommitsNothing S.Store trees.old trees.new }
{
    trees.seek(CURSOR, CELLS, key, Direction::Backward)?;
    trees.next(CURSOR, row)
}

/// The last row of a level whose gap begins up to a key.
fn last<S: Store>(
    alloc: Global,
    trees: &mut S,
    level: u16,
    key: &String,
    row: &mut Row,
) -> Result<bool, TreeFault>
    requires table { HasTable S.Store trees.old }
    ensures found { Finds S.Store trees.old trees.new result (λ old. GivesLast (rows_upto level (string_bytes key.now) (old TREE)) row.new) }
    ensures same { MakesView S.Store trees.old trees.new result StaysBut }
    ensures sound { MakesView S.Store trees.old trees.new result WasSound }
    ensures uncommitted { CommitsNothing S.Store trees.old trees.new }
{
    let bound = end(alloc, level, key)?;
    if !look_back(trees, &bound, row)? {
        return Ok(false);
    }
    Ok(is_level(row, level))
}

/// The cell of a level whose gap has a key or begins above it.
pub(crate) fn cell_upto<S: Store>(
    alloc: Global,
    trees: &mut S,
    level: u16,
    key: &String,
) -> Result<Cell, TreeFault>
    requires table { HasTable S.Store trees.old }
    ensures found { Finds S.Store trees.old trees.new result (λ old cell. GivesLast (rows_upto level (string_bytes key.now) (old TREE)) (row_of_cell cell) true) }
    ensures same { MakesView S.Store trees.old trees.new result StaysBut }
    ensures sound { MakesView S.Store trees.old trees.new result WasSound }
    ensures uncommitted { CommitsNothing S.Store trees.old trees.new }
{
    let mut row = Row::new(alloc);
    if !last(alloc, trees, level, key, &mut row)? {
        return Err(TreeFault::Malformed);
    }
    cell_of(alloc, &row)
}

/// The level of the last row, or 0 where there is none.
pub(crate) fn top<S: Store>(alloc: Global, trees: &mut S) -> Result<u16, TreeFault>
    requires table { HasTable S.Store trees.old }
    ensures top { Finds S.Store trees.old trees.new result (λ old. IsTop (old TREE)) }
    ensures few { IfOk result (λ top. top ≤ 256) }
    ensures same { MakesView S.Store trees.old trees.new result StaysBut }
    ensures sound { MakesView S.Store trees.old trees.new result WasSound }
    ensures uncommitted { CommitsNothing S.Store trees.old trees.new }
{
    let none = Row::new(alloc);
    let mut row = Row::new(alloc);
    if !look_back(trees, &none, &mut row)? {
        return Ok(0);
    }
    let cell = cell_of(alloc, &row)?;
    if cell.level > 256 {
        return Err(TreeFault::Malformed);
    }
    Ok(cell.level)
}

/// The first cells of a level whose gaps begin from a front on and below a bound, up to a number.
pub(crate) fn scan<S: Store>(
    alloc: Global,
    trees: &mut S,
    level: u16,
    front: &Option<String>,
    before: &Option<String>,
    most: usize,
) -> Result<Vec<Cell>, TreeFault>
    requires table { HasTable S.Store trees.old }
    ensures scanned { Finds S.Store trees.old trees.new result (λ old. IsScan most (rows_between level (bound_bytes front.now) (bound_bytes before.now) (old TREE))) }
    ensures same { MakesView S.Store trees.old trees.new result StaysBut }
    ensures sound { MakesView S.Store trees.old trees.new result WasSound }
    ensures uncommitted { CommitsNothing S.Store trees.old trees.new }
{
    let mut cells = Vec::new(alloc);
    let mut row = Row::new(alloc);
    let key = start(alloc, level, front)?;
    trees.seek(CURSOR, CELLS, &key, Direction::Forward)?;
    'rows: while cells.len() < most {
        if !trees.next(CURSOR, &mut row)? {
            return Ok(cells);
        }
        if !is_within(&row, level, before) {
            return Ok(cells);
        }
        cells.push(cell_of(alloc, &row)?)?;
    }
    Ok(cells)
}
