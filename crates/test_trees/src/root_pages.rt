//! Copies of the root pages of trees, which a traversal shows.

ghost use Rattle.std.specs.Prelude.{⊤};

use merkle_digest::Hasher;
use merkle_search_tree::visitor::Visitor;
use merkle_search_tree::{MerkleSearchTree, Node, Page};
use std::alloc::{AllocError, Global};

/// Copies the first page that it is called at, and ends the traversal there.
#[derive(Drop)]
struct Copier<const N: usize> {
    alloc: Global,
    copied: Result<RootCopy<N>, AllocError>,
}

/// A copy of a root page, and whether it is equal to that page, with all pages below it and all cached digests.
#[derive(Drop)]
pub struct RootCopy<const N: usize> {
    /// The copy.
    pub page: Page<N, [u8; 2]>,
    /// Whether it is equal.
    pub is_equal: bool,
}

/// A copy of a page.
fn copy_of<const N: usize>(
    alloc: Global,
    original: &Page<N, [u8; 2]>,
) -> Result<RootCopy<N>, AllocError> {
    let page = original.try_clone(alloc)?;
    let is_equal = page == *original;
    Ok(RootCopy { page, is_equal })
}

impl<const N: usize> Visitor<N, [u8; 2]> for Copier<N> {
    ghost step = { λ before call answer after. ⊤ };

    fn pre_visit_node(&mut self, _node: &Node<N, [u8; 2]>) -> bool {
        false
    }

    fn visit_node(&mut self, _node: &Node<N, [u8; 2]>) -> bool {
        false
    }

    fn post_visit_node(&mut self, _node: &Node<N, [u8; 2]>) -> bool {
        false
    }

    fn visit_page(&mut self, page: &Page<N, [u8; 2]>, _high_page: bool) -> bool {
        self.copied = copy_of(self.alloc, page);
        false
    }

    fn post_visit_page(&mut self, _page: &Page<N, [u8; 2]>) -> bool {
        false
    }
}

/// A copy of the root page of a tree.
pub fn root_copy<V, H: Hasher<N, [u8; 2]>, const N: usize>(
    alloc: Global,
    tree: &MerkleSearchTree<[u8; 2], V, H, N>,
) -> Result<RootCopy<N>, AllocError> {
    let mut copier = Copier {
        alloc,
        copied: Err(AllocError),
    };
    tree.in_order_traversal(&mut copier);
    copier.copied
}
