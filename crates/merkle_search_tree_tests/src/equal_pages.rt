//! The pages of default trees of equal maps.

use merkle_digest::SipHasher;
use merkle_search_tree::{MerkleSearchTree, Page};
use std::alloc::{AllocError, Global};
use test_keys::number_key;
use test_trees::root_pages::root_copy;

/// The default tree of the tests.
type Tree = MerkleSearchTree<[u8; 2], u64, SipHasher, 16>;

/// Sets a key to 1.
fn put(tree: &mut Tree, key: u16) -> Result<(), AllocError> {
    tree.upsert(number_key(key), &1)?;
    Ok(())
}

/// The tree of the keys `factor * i` modulo 64, for i from 0 to 63.
fn built(alloc: Global, factor: u16) -> Result<Tree, AllocError> {
    let mut tree: Tree = MerkleSearchTree::with_defaults(alloc);
    for i in 0..64u16 {
        put(&mut tree, factor.wrapping_mul(i) % 64)?;
    }
    Ok(tree)
}

/// The root page of that tree, with all pages below it.
fn root(alloc: Global, factor: u16) -> Result<Page<16, [u8; 2]>, AllocError> {
    Ok(root_copy(alloc, &built(alloc, factor)?)?.page)
}

#[test]
fn orders_of_upserts_make_equal_pages(rt: HostRuntime) -> Result<(), AllocError> {
    let mixed = root(rt.alloc(), 37)?;
    assert!(rt; mixed == root(rt.alloc(), 1)?);
    // The keys 6, 29, 34 and 53 are on level 1, and the others on level 0.
    assert!(rt; (mixed.level(), mixed.nodes().len()) == (1, 4));
    Ok(())
}
