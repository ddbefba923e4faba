//! What isn't known of gaps, filled in.
ghost use Rattle.std.specs.Prelude.{None};
ghost use Rattle.store_file.specs.Logs.{Finds, Makes, MakesAndFinds};
ghost use Rattle.store_file.specs.Transactions.{CommitsNothing};
ghost use Rattle.store_file.specs.Walks.{MakesView, StaysBut, WasSound};
ghost use Rattle.store_file.specs.declared.catalog.TheConstants.{CELLS as TREE};
ghost use Rattle.store_tree.specs.Filling.{FillsCell, FillsGap, FillsNodes, FindsRoot, IsAllKnown, IsNodeAt, Keeps};
ghost use Rattle.store_tree.specs.Pages.{text_gap};
ghost use Rattle.store_tree.specs.Rows.{bound_bytes};
ghost use Rattle.store_tree.specs.Tables.{HasTable, KeepsOthers};

use crate::cell::{Cell, Known};
use crate::digest::known_of;
use crate::fault::TreeFault;
use crate::page::{Node, Page};
use crate::pairs::{Pairs, leaf_of};
use crate::seek::{scan, top};
use crate::write::note;
use sqlite_trees::store::Store;
use std::alloc::Global;

/// What is known, if anything is.
fn all_known(known: &Known) -> Option<Known>
    ensures { IsAllKnown known.now result }
{
    match known {
        Known::Unknown => None,
        Known::Nothing => Some(Known::Nothing),
        Known::Page { .. } => Some(*known),
    }
}

/// Notes what is known of the gap of a front.
fn keep<S: Store>(
    alloc: Global,
    trees: &mut S,
    level: u16,
    front: &Option<String>,
    before: &Option<String>,
    known: &Known,
) -> Result<(), TreeFault>
    requires table { HasTable S.Store trees.old }
    ensures kept { Makes S.Store trees.old trees.new result (λ old new. Keeps level (bound_bytes front.now) (bound_bytes before.now) known.now (old TREE) (new TREE)) }
    ensures sound { MakesView S.Store trees.old trees.new result WasSound }
    ensures others { Makes S.Store trees.old trees.new result KeepsOthers }
    ensures uncommitted { CommitsNothing S.Store trees.old trees.new }
{
    let cells = scan(alloc, trees, level, front, before, 1)?;
    let Some(cell) = cells.first() else {
        return Err(TreeFault::Malformed);
    };
    note(alloc, trees, cell, known)?;
    Ok(())
}

/// The node of a front, before which this is known.
fn node_at<S: Store, P: Pairs<S>>(
    alloc: Global,
    trees: &mut S,
    pairs: &P,
    known: Known,
    front: &Option<String>,
) -> Result<Node, TreeFault>
    requires table { HasTable S.Store trees.old }
    ensures node { Finds S.Store trees.old trees.new result (λ old. IsNodeAt (P.hold pairs.now old) known (bound_bytes front.now)) }
    ensures same { MakesView S.Store trees.old trees.new result StaysBut }
    ensures uncommitted { CommitsNothing S.Store trees.old trees.new }
{
    let Some(key) = front else {
        return Err(TreeFault::Malformed);
    };
    let key = key.clone()?;
    let digest = pairs.digest_at(alloc, trees, &key)?;
    Ok(Node {
        before: known,
        key,
        digest,
    })
}

/// What stands in the gap of a cell of a level, which ends before a bound. If the cell doesn't know it, it is found out and noted, and so is all that
/// is needed for it.
#[cycle(fill)]
fn fill_cell<S: Store, P: Pairs<S>>(
    alloc: Global,
    trees: &mut S,
    pairs: &P,
    level: u16,
    cell: &Cell,
    before: &Option<String>,
) -> Result<Known, TreeFault>
    requires table { HasTable S.Store trees.old }
    ensures filled { MakesAndFinds S.Store trees.old trees.new result (λ old new. FillsCell (P.hold pairs.now old) (old TREE) (new TREE) level cell.now (bound_bytes before.now)) }
    ensures others { Makes S.Store trees.old trees.new result KeepsOthers }
    ensures uncommitted { CommitsNothing S.Store trees.old trees.new }
{
    if let Some(known) = all_known(&cell.known) {
        return Ok(known);
    }
    if level == 0 {
        return Err(TreeFault::Malformed);
    }
    let Ok(below) = u8::try_from(level - 1) else {
        return Err(TreeFault::Malformed);
    };
    let page = page_below(alloc, trees, pairs, below, &cell.front, before)?;
    let known = known_of(below, &page)?;
    keep(alloc, trees, level, &cell.front, before, &known)?;
    Ok(known)
}

/// The nodes of a level in a gap of the level above it, and what stands between them.
#[cycle(fill)]
pub(crate) fn page_below<S: Store, P: Pairs<S>>(
    alloc: Global,
    trees: &mut S,
    pairs: &P,
    level: u8,
    front: &Option<String>,
    before: &Option<String>,
) -> Result<Page, TreeFault>
    requires table { HasTable S.Store trees.old }
    ensures filled { MakesAndFinds S.Store trees.old trees.new result (FillsGap (P.hold pairs.now) level (text_gap front.now before.now)) }
    ensures others { Makes S.Store trees.old trees.new result KeepsOthers }
    ensures uncommitted { CommitsNothing S.Store trees.old trees.new }
{
    if level == 0 {
        let found = pairs.within(alloc, trees, front, before)?;
        let leaf = leaf_of(alloc, found)?;
        return Ok(leaf);
    }
    let cells = scan(alloc, trees, u16::from(level), front, before, usize::MAX)?;
    if cells.len() == usize::MAX {
        return Err(TreeFault::Malformed);
    }
    let page = nodes_of(alloc, trees, pairs, u16::from(level), &cells, before)?;
    Ok(page)
}

/// The nodes of the cells of a level, in order, and what stands between them.
#[cycle(fill)]
fn nodes_of<S: Store, P: Pairs<S>>(
    alloc: Global,
    trees: &mut S,
    pairs: &P,
    level: u16,
    cells: &[Cell],
    before: &Option<String>,
) -> Result<Page, TreeFault>
    requires table { HasTable S.Store trees.old }
    ensures filled { MakesAndFinds S.Store trees.old trees.new result (λ old new. FillsNodes (P.hold pairs.now old) (old TREE) (new TREE) level cells.now (bound_bytes before.now)) }
    ensures others { Makes S.Store trees.old trees.new result KeepsOthers }
    ensures uncommitted { CommitsNothing S.Store trees.old trees.new }
{
    let mut nodes = Vec::new(alloc);
    let Some(first) = cells.first() else {
        return Err(TreeFault::Malformed);
    };
    let mut cell = first;
    'cells: for next in &cells[1..] {
        let known = fill_cell(alloc, trees, pairs, level, cell, &next.front)?;
        let node = node_at(alloc, trees, pairs, known, &next.front)?;
        nodes.push(node)?;
        cell = next;
    }
    let last = fill_cell(alloc, trees, pairs, level, cell, before)?;
    Ok(Page { nodes, last })
}

/// What stands in the whole map. What isn't known is found out and noted.
pub(crate) fn whole<S: Store, P: Pairs<S>>(
    alloc: Global,
    trees: &mut S,
    pairs: &P,
) -> Result<Known, TreeFault>
    requires table { HasTable S.Store trees.old }
    // Of whatever map the rows are the gaps, they stay those, and this is known of the whole map.
    ensures root { MakesAndFinds S.Store trees.old trees.new result (λ old new. FindsRoot (P.hold pairs.now old) (old TREE) (new TREE)) }
    ensures others { Makes S.Store trees.old trees.new result KeepsOthers }
    ensures uncommitted { CommitsNothing S.Store trees.old trees.new }
{
    let level = top(alloc, trees)?;
    if level == 0 {
        return Ok(Known::Nothing);
    }
    let cells = scan(alloc, trees, level, &None, &None, 1)?;
    let Some(cell) = cells.first() else {
        return Err(TreeFault::Malformed);
    };
    let known = fill_cell(alloc, trees, pairs, level, cell, &None)?;
    Ok(known)
}
