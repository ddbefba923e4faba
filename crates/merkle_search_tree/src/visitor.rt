//! Visitors, which a traversal of a tree calls at each of its pages and nodes.

ghost use Rattle.std.specs.Prelude.{Bool, List, ℕ};
ghost use Rattle.merkle_tree_theory.specs.Tree.{held_of};
ghost use Rattle.merkle_tree_theory.specs.Events.{Event, visit_page, pre_visit_node, visit_node, post_visit_node, post_visit_page, events_of, held_events};
ghost use Rattle.merkle_tree_theory.specs.Traversal.{Visits, node_events};

use crate::page::{Node, Page};

/// What [`in_order_traversal`](crate::MerkleSearchTree::in_order_traversal) calls at the pages and nodes of a tree, one after the
/// other. Each call returns whether the traversal goes on.
///
/// `N` is how many bytes the tree's value digests have, and `K` the type of its keys. A visitor keeps no references to nodes or pages
/// of the tree, only what it copies or clones of them.
pub trait Visitor<const N: usize, K> {
    /// The steps of the visitor: what it holds before a call, the call with its arguments, the answer, and what it holds
    /// afterwards.
    ghost step: { Self → Event K (List ℕ) → Bool → Self → Type 0 };

    /// Called at a node, before the page below it.
    fn pre_visit_node(&mut self, node: &Node<N, K>) -> bool
        ensures { step self.old (pre_visit_node node.now) result self.new };

    /// Called at a node, after the page below it: so the nodes come in ascending key order.
    fn visit_node(&mut self, node: &Node<N, K>) -> bool
        ensures { step self.old (visit_node node.now) result self.new };

    /// Called at a node, after `visit_node`.
    fn post_visit_node(&mut self, node: &Node<N, K>) -> bool
        ensures { step self.old (post_visit_node node.now) result self.new };

    /// Called at a page, before its nodes. `high_page` says whether the page is the high page of another.
    fn visit_page(&mut self, page: &Page<N, K>, high_page: bool) -> bool
        ensures { step self.old (visit_page page.now high_page) result self.new };

    /// Called at a page, after its nodes and before its high page.
    fn post_visit_page(&mut self, page: &Page<N, K>) -> bool
        ensures { step self.old (post_visit_page page.now) result self.new };
}

/// Calls a visitor at a page and all below it, and returns whether each call returned true.
#[cycle(traverse)]
pub(crate) fn traverse_page<const N: usize, K, T: Visitor<N, K>>(
    page: &Page<N, K>,
    high_page: bool,
    visitor: &mut T,
) -> bool
    ensures { Visits T.step visitor.old (events_of high_page page.now) result visitor.new }
{
    if !visitor.visit_page(page, high_page) {
        return false;
    }
    'nodes: for node in &page.nodes {
        if !traverse_node(node, visitor) {
            return false;
        }
    }
    if !visitor.post_visit_page(page) {
        return false;
    }
    traverse_below(&page.high_page, true, visitor)
}

/// Calls a visitor at a node and the page below it, and returns whether each call returned true.
#[cycle(traverse)]
fn traverse_node<const N: usize, K, T: Visitor<N, K>>(node: &Node<N, K>, visitor: &mut T) -> bool
    ensures { Visits T.step visitor.old (node_events node.now) result visitor.new }
{
    if !visitor.pre_visit_node(node) {
        return false;
    }
    if !traverse_below(&node.lt_pointer, false, visitor) {
        return false;
    }
    if !visitor.visit_node(node) {
        return false;
    }
    visitor.post_visit_node(node)
}

/// Calls a visitor at what a pointer holds, and returns whether each call returned true.
#[cycle(traverse)]
fn traverse_below<const N: usize, K, T: Visitor<N, K>>(
    held: &Option<Box<Page<N, K>>>,
    high_page: bool,
    visitor: &mut T,
) -> bool
    ensures { Visits T.step visitor.old (held_events high_page (held_of held.now)) result visitor.new }
{
    match held {
        None => true,
        Some(page) => traverse_page(page, high_page, visitor),
    }
}
