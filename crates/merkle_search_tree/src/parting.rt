//! Where a key parts the pages of its path.

ghost use Rattle.std.specs.Prelude.{◌≡◌, ◌≤◌, IfOk};
ghost use Rattle.key_order.specs.Map.{IsMap};
ghost use Rattle.merkle_tree_theory.specs.Page.{held_pairs};
ghost use Rattle.merkle_tree_theory.specs.Tree.{held_of};
ghost use Rattle.merkle_tree_theory.specs.Chain.{first_of, row_drop, row_of_page};
ghost use Rattle.merkle_search_tree.specs.Parting.{parting_place, PartsNodes, PartingsFit};

use crate::page::PageOf;
use crate::spare::Spare;
use crate::spot::search;
use std::alloc::{AllocError, Global};

/// Where a page is parted.
#[derive(Drop)]
pub(crate) enum Parting<K, D> {
    /// Before its first node.
    Start,
    /// Between two nodes: before the one at `at`, with a page for it and those after it.
    Inside { at: usize, spare: Spare<K, D> },
    /// After its last node.
    End,
}

/// The parting of a page with `len` nodes before the node at `at`.
fn parting_at<K: Drop, D: Drop>(
    alloc: Global,
    at: usize,
    len: usize,
) -> Result<Parting<K, D>, AllocError>
    requires { at ≤ len }
    ensures place { IfOk result (λ parting. parting_place len parting ≡ at) }
    ensures parts { IfOk result (PartsNodes len) }
{
    if at == len {
        return Ok(Parting::End);
    }
    if at == 0 {
        return Ok(Parting::Start);
    }
    let spare = Spare::new(alloc, len - at)?;
    Ok(Parting::Inside { at, spare })
}

impl<K, D> PageOf<K, D> {
    /// What stands before the node at `at`, or above the last node.
    fn held_at(&self, at: usize) -> &Option<Box<PageOf<K, D>>>
        ensures { held_of result.now ≡ first_of (row_drop at (row_of_page self.now)) }
    {
        match self.nodes.get(at) {
            Some(node) => &node.lt_pointer,
            None => &self.high_page,
        }
    }
}

/// The partings of a key's path, the topmost page first. They have all memory for nodes that a split takes.
pub(crate) fn partings_of<K: Ord + Drop, D: Drop>(
    alloc: Global,
    held: &Option<Box<PageOf<K, D>>>,
    key: &K,
) -> Result<Vec<Parting<K, D>>, AllocError>
    requires ascending { IsMap K.cmp (held_pairs (held_of held.now)) }
    ensures fits { IfOk result (λ partings. PartingsFit K.cmp key.now (held_of held.now) partings.items) }
{
    let mut partings = Vec::new(alloc);
    let mut rest = held;
    'path: while let Some(page) = rest {
        let spot = search(&page.nodes, key);
        let parting = parting_at(alloc, spot.at, page.nodes.len())?;
        partings.push(parting)?;
        rest = page.held_at(spot.at);
    }
    Ok(partings)
}
