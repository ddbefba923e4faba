//! All cells of the table, and whether they agree with others of the same tree.
ghost use Rattle.store_file.specs.Transactions.{CommitsNothing};
ghost use Rattle.store_tree.specs.Tables.{HasTable};

use crate::cell::{Cell, Known};
use crate::fault::TreeFault;
use crate::seek::{scan, top};
use sqlite_trees::store::Store;
use std::alloc::Global;

/// All cells, level by level, each level from its front on. It takes memory for all of them.
///
/// # Errors
///
/// [`TreeFault::Database`], [`TreeFault::Malformed`] and [`TreeFault::Memory`].
pub fn all_cells<S: Store>(alloc: Global, trees: &mut S) -> Result<Vec<Cell>, TreeFault>
    requires table { HasTable S.Store trees.old }
    ensures uncommitted { CommitsNothing S.Store trees.old trees.new }
{
    let mut cells = Vec::new(alloc);
    let end = top(alloc, trees)? + 1;
    'levels: for level in 0..end {
        let mut more = scan(alloc, trees, level, &None, &None, usize::MAX)?;
        cells.append(&mut more)?;
    }
    Ok(cells)
}

/// Whether what is known of a gap is what another says of it, or nothing.
fn agrees(known: &Known, other: &Known) -> bool {
    match (known, other) {
        (Known::Unknown, _) | (Known::Nothing, Known::Nothing) => true,
        (
            Known::Page { digest, count },
            Known::Page {
                digest: other_digest,
                count: other_count,
            },
        ) => digest == other_digest && count == other_count,
        _ => false,
    }
}

/// Whether these are the cells of a tree without keys, of which all is known.
fn are_of_no_keys(cells: &[Cell]) -> bool {
    match cells.first() {
        Some(cell) => cells.len() == 1 && matches!(cell.known, Known::Nothing),
        None => true,
    }
}

/// Whether cells are of the same gaps as the others, of which all is known, and tell nothing but what the others tell. A table without cells is that
/// of a tree without keys.
pub fn agree(cells: &[Cell], others: &[Cell]) -> bool {
    if cells.is_empty() {
        return are_of_no_keys(others);
    }
    if cells.len() != others.len() {
        return false;
    }
    'cells: for (cell, other) in cells.iter().zip(others.iter()) {
        if cell.level != other.level
            || cell.front != other.front
            || !agrees(&cell.known, &other.known)
        {
            return false;
        }
    }
    true
}
