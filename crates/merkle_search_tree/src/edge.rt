//! The open pages of a tree's right edge, to which nodes are still added.

ghost use Rattle.std.specs.Prelude.{◌≡◌, ◌≤◌, ℕ, IfOk, OnOk};
ghost use Rattle.merkle_tree_theory.specs.Tree.{held_of};
ghost use Rattle.merkle_tree_theory.specs.Chain.{row_of_page, page_with_row};
ghost use Rattle.merkle_tree_theory.specs.Edge.{row_more, last_level, edge_pairs, is_above, IsEdge, IsRootOf};
ghost use Rattle.merkle_search_tree.specs.Edges.{AppendsPair, ClosesBelow};

use crate::page::{NodeOf, PageOf};
use crate::page_ranges::last_key;
use std::alloc::{AllocError, Global};

impl<K: Drop, D: Drop> PageOf<K, D> {
    /// Puts a node after the last one.
    fn push_node(&mut self, node: NodeOf<K, D>) -> Result<(), AllocError>
        ensures { IfOk result (λ _. self.new ≡ page_with_row 0 self.old (row_more node (row_of_page self.old))) }
    {
        self.nodes.push(node)?;
        Ok(())
    }

    /// Gives up the room beyond the nodes, as far as memory is at hand for it.
    fn fit_room(&mut self)
        ensures { self.new ≡ self.old }
    {
        self.nodes.shrink_to_fit();
    }
}

/// The level of the last open page, and 256 where there is none.
fn last_level<K, D>(edge: &[PageOf<K, D>]) -> u16
    ensures { result ≡ last_level 256 edge.now }
{
    match edge.last() {
        Some(page) => u16::from(page.level),
        None => 256,
    }
}

/// Whether a key is above the last key of the open pages, where there is one.
pub(crate) fn is_above<K: Ord, D>(edge: &[PageOf<K, D>], key: &K) -> bool
    ensures { (lev : K → ℕ) → IsEdge lev 256 edge.now → result ≡ is_above K.cmp key.now (edge_pairs edge.now) }
{
    match edge.last() {
        None => true,
        Some(page) => match last_key(page) {
            None => true,
            Some(last) => *last < *key,
        },
    }
}

/// Closes the open pages whose levels are below the bound: each becomes the high page of the one before it, and the first of them is
/// answered.
fn close<K: Drop, D: Drop>(
    alloc: Global,
    edge: &mut Vec<PageOf<K, D>>,
    bound: u16,
) -> Result<Option<Box<PageOf<K, D>>>, AllocError>
    requires { bound ≤ 256 }
    ensures closed { IfOk result (λ held. ClosesBelow bound edge.old.items edge.new.items (held_of held)) }
    ensures levels { IfOk result (λ held. bound ≤ last_level 256 edge.new.items) }
{
    let mut held = None;
    'close: while last_level(edge) < bound {
        match edge.pop() {
            Some(mut page) => {
                page.fit_room();
                page.hang_high(held);
                held = Some(Box::new(alloc, page)?);
            }
            None => unreachable!(),
        }
    }
    Ok(held)
}

/// Puts a key after all keys of the open pages.
pub(crate) fn append<K: Drop, D: Drop>(
    alloc: Global,
    edge: &mut Vec<PageOf<K, D>>,
    key: K,
    level: u8,
    digest: D,
) -> Result<(), AllocError>
    ensures { OnOk result (AppendsPair key level digest edge.old.items edge.new.items) }
{
    let low = close(alloc, edge, u16::from(level))?;
    let node = NodeOf {
        key,
        value_hash: digest,
        lt_pointer: low,
    };
    if last_level(edge) == u16::from(level) {
        match edge.pop() {
            Some(mut page) => {
                page.push_node(node)?;
                edge.push(page)?;
                Ok(())
            }
            None => unreachable!(),
        }
    } else {
        let mut nodes = Vec::new(alloc);
        nodes.push(node)?;
        edge.push(PageOf {
            level,
            tree_hash: None,
            nodes,
            high_page: None,
        })?;
        Ok(())
    }
}

/// Closes all open pages, and returns the root page.
pub(crate) fn root_of<K: Drop, D: Drop>(
    alloc: Global,
    edge: Vec<PageOf<K, D>>,
) -> Result<PageOf<K, D>, AllocError>
    ensures { IfOk result (λ root. (lev : K → ℕ) → IsEdge lev 256 edge.items → IsRootOf lev edge.items root) }
{
    let mut edge = edge;
    match close(alloc, &mut edge, 256)? {
        Some(page) => Ok(Box::into_inner(page)),
        None => Ok(PageOf::empty(alloc)),
    }
}
