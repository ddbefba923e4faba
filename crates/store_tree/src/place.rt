//! Where in the tree the page over a gap is.
ghost use Rattle.std.specs.Prelude.{◌≡◌, ◌<◌, ◌≤◌, string_bytes, IfOk};
ghost use Rattle.merkle_tree_theory.specs.Gap.{is_after, is_before};
ghost use Rattle.store_file.specs.Logs.{Finds};
ghost use Rattle.store_file.specs.Transactions.{CommitsNothing};
ghost use Rattle.store_file.specs.Walks.{MakesView, StaysBut};
ghost use Rattle.store_file.specs.declared.catalog.TheConstants.{CELLS as TREE};
ghost use Rattle.store_tree.specs.Cells.{bytes_order};
ghost use Rattle.store_tree.specs.Pages.{text_gap};
ghost use Rattle.store_tree.specs.Places.{GoesFrom, IsPlaceOver, IsStepBy, is_behind as front_behind, is_front_before as front_before};
ghost use Rattle.store_tree.specs.Rows.{bound_bytes};
ghost use Rattle.store_tree.specs.Tables.{HasTable};

use crate::cell::Cell;
use crate::fault::TreeFault;
use crate::seek::{scan, top};
use sqlite_trees::store::Store;
use std::alloc::Global;

/// A gap of a level: what stands in it is a page of the tree, or nothing.
#[derive(Drop)]
pub struct Place {
    /// The level, above those of all keys in the gap.
    pub level: u16,
    /// The key above which the gap begins, or `None` for the first one.
    pub front: Option<String>,
    /// The key below which the gap ends, or `None` for the last one.
    pub before: Option<String>,
}

/// What is next on the way down to the page over a gap.
#[derive(Drop)]
enum Step {
    /// It is the page at which the way is.
    Here,
    /// It stands in a gap of that page, from a front to a bound.
    Down(Option<String>, Option<String>),
}

/// Whether a key is above a bound, where there is one.
pub(crate) fn is_above(bound: &Option<String>, key: &String) -> bool
    ensures { result ≡ is_after bytes_order (bound_bytes bound.now) (string_bytes key.now) }
{
    match bound {
        None => true,
        Some(low) => low < key,
    }
}

/// Whether a key is below a bound, where there is one.
pub(crate) fn is_under(bound: &Option<String>, key: &String) -> bool
    ensures { result ≡ is_before bytes_order (bound_bytes bound.now) (string_bytes key.now) }
{
    match bound {
        None => true,
        Some(high) => key < high,
    }
}

/// Whether a front is a key above a bound, where there is one.
fn is_behind(bound: &Option<String>, front: &Option<String>) -> bool
    ensures { result ≡ front_behind (bound_bytes bound.now) (bound_bytes front.now) }
{
    match front {
        None => false,
        Some(key) => is_above(bound, key),
    }
}

/// Whether a front is a key below a bound, where there is one, or absent.
fn is_front_before(bound: &Option<String>, front: &Option<String>) -> bool
    ensures { result ≡ front_before (bound_bytes bound.now) (bound_bytes front.now) }
{
    match front {
        None => true,
        Some(key) => is_under(bound, key),
    }
}

/// The step that the cells of a page show, of which the last ends before a bound.
#[tactic(auto, using(crate::proofs::Placing::showing))]
fn step_by(
    cells: &[Cell],
    ends: &Option<String>,
    after: &Option<String>,
    before: &Option<String>,
) -> Result<Step, TreeFault>
    ensures { IfOk result (IsStepBy (text_gap after.now before.now) (bound_bytes ends.now) cells.now) }
{
    let Some(first) = cells.first() else {
        return Err(TreeFault::Malformed);
    };
    let mut cell = first;
    'cells: for next in &cells[1..] {
        if is_behind(after, &next.front) {
            if is_front_before(before, &next.front) {
                return Ok(Step::Here);
            }
            return Ok(Step::Down(cell.front.clone()?, next.front.clone()?));
        }
        cell = next;
    }
    Ok(Step::Down(cell.front.clone()?, ends.clone()?))
}

/// The step from a place above level 1.
fn step_from<S: Store>(
    alloc: Global,
    trees: &mut S,
    place: &Place,
    after: &Option<String>,
    before: &Option<String>,
) -> Result<Step, TreeFault>
    requires table { HasTable S.Store trees.old }
    requires high { 1 < place.now.level }
    requires few { place.now.level ≤ 256 }
    ensures goes { Finds S.Store trees.old trees.new result (λ old. GoesFrom (text_gap after.now before.now) (old TREE) place.now) }
    ensures same { MakesView S.Store trees.old trees.new result StaysBut }
    ensures uncommitted { CommitsNothing S.Store trees.old trees.new }
{
    let cells = scan(
        alloc,
        trees,
        place.level - 1,
        &place.front,
        &place.before,
        usize::MAX,
    )?;
    if cells.len() == usize::MAX {
        return Err(TreeFault::Malformed);
    }
    let step = step_by(&cells, &place.before, after, before)?;
    Ok(step)
}

/// The place of the page over a gap, or of a page of level 0 that has all that is in the gap.
pub(crate) fn place_over<S: Store>(
    alloc: Global,
    trees: &mut S,
    after: &Option<String>,
    before: &Option<String>,
) -> Result<Place, TreeFault>
    requires table { HasTable S.Store trees.old }
    ensures found { Finds S.Store trees.old trees.new result (λ old. IsPlaceOver (text_gap after.now before.now) (old TREE)) }
    ensures same { MakesView S.Store trees.old trees.new result StaysBut }
    ensures uncommitted { CommitsNothing S.Store trees.old trees.new }
{
    let mut place = Place {
        level: top(alloc, trees)?,
        front: None,
        before: None,
    };
    'levels: while place.level > 1 {
        match step_from(alloc, trees, &place, after, before)? {
            Step::Here => return Ok(place),
            Step::Down(front, before) => {
                place = Place {
                    level: place.level - 1,
                    front,
                    before,
                };
            }
        }
    }
    Ok(place)
}
