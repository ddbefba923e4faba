//! Calls that take no memory. They succeed with every request for memory refused, once the tree that they are made at is there.

use crate::refusals::NINE;
use merkle_digest::{RootHash, SipHasher};
use merkle_search_tree::MerkleSearchTree;
use merkle_search_tree::builder::{Builder, PageFormat};
use std::alloc::{AllocError, Global};
use std::process::Abort;
use test_keys::number_key;
use test_trees::tally::Tally;
use test_trees::trees::{Tree, defined_root, gives_its_list, put, tree};

/// The default tree of texts.
type Texts = MerkleSearchTree<&'static str, u64, SipHasher, 16>;

/// The digest of the page stream of no byte.
const OF_NO_ROW: [u8; 16] = [
    0x50, 0x49, 0xd7, 0x47, 0x80, 0xa3, 0xe0, 0x7d, 0x42, 0x02, 0xab, 0x47, 0xd4, 0xce, 0xf2, 0xf4,
];

/// Asserts what calls answer at a tree without keys.
fn expect_no_key(rt: &impl Abort, mut tree: Texts) -> Result<(), AllocError> {
    assert!(rt; tree.pages_to_hash() == 1);
    assert!(rt; gives_its_list(&tree)?);
    assert!(rt; *tree.root_hash().as_bytes() == OF_NO_ROW);
    assert!(rt; gives_its_list(&tree)?);
    assert!(rt; tree.find_counted(&"a") == (0, 0));
    assert!(rt; tree.remove(&"a")?.is_none());
    Ok(())
}

#[test]
fn an_empty_tree_takes_no_memory(rt: HostRuntime) -> Result<(), AllocError> {
    let alloc = rt.alloc();
    expect_no_key(&rt, MerkleSearchTree::with_defaults(alloc))?;
    expect_no_key(
        &rt,
        MerkleSearchTree::new_with_hasher(alloc, SipHasher::default()),
    )?;
    expect_no_key(&rt, Builder::default().try_clone()?.build(alloc))
}

/// The tree of the nine keys, which isn't hashed, and its root hash.
fn nine(alloc: Global) -> Result<(Tree, RootHash), AllocError> {
    Ok((
        tree(alloc, &NINE)?,
        defined_root(alloc, PageFormat::V1, &NINE)?,
    ))
}

/// Asserts what the calls answer at the tree of nine keys.
fn expect_answers(rt: &impl Abort, tree: &mut Tree, wanted: &RootHash) -> Result<(), AllocError> {
    assert!(rt; tree.serialise_page_ranges()?.is_none());
    assert!(rt; *tree.root_hash() == *wanted);
    assert!(rt; tree.find_counted(&number_key(8)).0 == 1);
    let mut tally = Tally::new();
    tree.in_order_traversal(&mut tally);
    assert!(rt; tally.counts() == (6, 2, 9));
    put(tree, 5)?;
    assert!(rt; *tree.root_hash() == *wanted);
    assert!(rt; tree.remove(&number_key(8))?.is_none());
    assert!(rt; tree.remove(&number_key(42))?.is_some());
    Ok(())
}

#[test]
fn a_tree_takes_no_memory_but_for_new_keys(rt: HostRuntime) -> Result<(), AllocError> {
    if let Ok((mut tree, root_hash)) = nine(rt.alloc()) {
        if let Ok(nodes) = tree.node_iter() {
            let mut count = 0u8;
            for _node in nodes {
                count = count.saturating_add(1);
            }
            assert!(rt; count == 9);
        }
        expect_answers(&rt, &mut tree, &root_hash)?;
    }
    Ok(())
}
