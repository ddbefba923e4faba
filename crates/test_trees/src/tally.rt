//! A visitor that counts pages, high pages and nodes.

ghost use Rattle.std.specs.Prelude.{◌≡◌};

use merkle_search_tree::visitor::Visitor;
use merkle_search_tree::{Node, Page};

/// Counts the pages, the high pages and the nodes of a tree, and takes no memory.
#[derive(Drop)]
pub struct Tally {
    pages: usize,
    high_pages: usize,
    pub nodes: usize,
}

impl Tally {
    /// A tally that has seen nothing.
    pub fn new() -> Self
        ensures { result.nodes ≡ 0 }
    {
        Tally {
            pages: 0,
            high_pages: 0,
            nodes: 0,
        }
    }

    /// How many pages it has seen, how many of them are high pages, and how many nodes.
    pub fn counts(&self) -> (usize, usize, usize) {
        (self.pages, self.high_pages, self.nodes)
    }
}

impl<const N: usize, K> Visitor<N, K> for Tally {
    ghost use Rattle.std.specs.Prelude.{◌≡◌, true};
    ghost use Rattle.test_trees.specs.Count.{counted};

    ghost step = { λ before call answer after. (answer ≡ true) × (after.nodes ≡ counted before.nodes call) };

    fn pre_visit_node(&mut self, _node: &Node<N, K>) -> bool {
        true
    }

    fn visit_node(&mut self, _node: &Node<N, K>) -> bool {
        self.nodes = self.nodes.saturating_add(1);
        true
    }

    fn post_visit_node(&mut self, _node: &Node<N, K>) -> bool {
        true
    }

    fn visit_page(&mut self, _page: &Page<N, K>, high_page: bool) -> bool {
        self.pages = self.pages.saturating_add(1);
        if high_page {
            self.high_pages = self.high_pages.saturating_add(1);
        }
        true
    }

    fn post_visit_page(&mut self, _page: &Page<N, K>) -> bool {
        true
    }
}
