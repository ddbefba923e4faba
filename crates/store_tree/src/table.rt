//! The table of cells.
ghost use Rattle.std.specs.Prelude.{IsTrue};
ghost use Rattle.store_tree.specs.Tables.{HasTable};

use sqlite_trees::store::{Shape, Store};
use sqlite_value::keys::Order;
use store_file::catalog::CELLS;

/// The one cursor in use.
pub(crate) const CURSOR: u16 = 0;

/// Whether a store has the table of cells, which each call of this crate asks for, and none takes away (`CommitsNothing`).
pub fn has_table<S: Store>(trees: &S) -> bool
    ensures { IsTrue result → HasTable S.Store trees.now }
{
    trees.shape(CELLS) == Shape::Index(Order::PLAIN)
}
