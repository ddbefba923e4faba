//! Upserts, by the root hash of the defined tree, by the nodes that are then there, and by the digests that they drop and copies keep.

use crate::refusals::NINE;
use merkle_digest::RootHash;
use merkle_search_tree::builder::PageFormat;
use std::alloc::{AllocError, Global};
use std::test::Fail;
use test_keys::{Value, number_key};
use test_trees::trees::{Tree, copy, defined_root, hashed, keys_of, nodes, put, tree, tree_in};

/// A line for each tree: its keys with their levels, in the order in which they are upserted.
pub const UPSERTS: &str = "\
\n\
65:0\n\
65:4\n\
65:0 66:0\n\
66:0 65:0\n\
65:0 66:1\n\
66:0 65:1\n\
65:3 66:9\n\
66:3 65:9\n\
65:6 66:4 67:2\n\
67:6 66:4 65:2\n\
65:6 65:6\n\
65:5 66:0 67:0 68:1\n\
65:5 66:0 67:0 69:0 68:1\n\
11:1 10:2 12:2\n\
1:1 2:1 4:0 3:2\n\
4:1 3:0 1:0 2:1\n\
1:1 2:1 3:0 5:0 4:2\n\
75:2 68:0 69:1\n\
2:64 5:20 3:52 4:64\n\
2:64 6:20 4:20 3:52 5:64\n\
1:0 0:1\n\
0:0 1:1\n\
1:1 2:0 4:1 3:2\n\
6:0 3:21 0:21 1:22\n\
73:2 75:2 65:1 69:1 74:1 66:0 67:0 68:0 70:0 71:0 72:0\n\
7:2 11:2 3:1 4:1 6:1 2:0 5:0 15:1 42:0\n\
2:42 5:43\n\
2:42 1:43\n\
1:42 2:42 4:42 3:43\n\
1:42 2:42 4:42 0:43\n\
1:42 2:42 4:42 10:43\n\
5:42 10:40 15:40 12:43\n\
5:42 4:41 1:40 3:40 2:43\n\
42:42 44:32 43:43\n\
1:1 2:1 5:0 4:2\n\
1:1 4:1 2:0 3:0\n\
6:20 5:64 4:20 3:52 2:64\n\
";

/// Whether a tree has this root hash, and every digest once it is asked for it.
pub fn has_root(tree: &mut Tree, wanted: &RootHash) -> bool {
    *tree.root_hash() == *wanted
        && tree.root_hash_cached() == Some(wanted)
        && tree.pages_to_hash() == 0
}

/// Whether the tree of these keys in a page format, upserted in this order, is the defined one.
fn is_defined(alloc: Global, format: PageFormat, keys: &[(u16, u8)]) -> Result<bool, AllocError> {
    let mut tree = tree_in(alloc, format, keys)?;
    Ok(has_root(&mut tree, &defined_root(alloc, format, keys)?))
}

/// Whether the trees of these keys in both formats are.
fn are_defined(alloc: Global, keys: &[(u16, u8)]) -> Result<bool, AllocError> {
    Ok(is_defined(alloc, PageFormat::V1, keys)? && is_defined(alloc, PageFormat::V2, keys)?)
}

#[test]
fn makes_the_defined_tree(rt: HostRuntime) -> Result<(), Fail> {
    for line in UPSERTS.lines() {
        let keys = keys_of(rt.alloc(), line)?;
        assert!(rt; are_defined(rt.alloc(), &keys)?, "at {line}");
    }
    Ok(())
}

/// Whether a tree says that it lacks digests, and then makes as many as it said.
fn makes_what_it_lacks(tree: &mut Tree) -> bool {
    let is_forgotten = tree.root_hash_cached().is_none();
    let lacks = tree.pages_to_hash();
    is_forgotten && lacks >= 1 && lacks <= 5 && tree.root_hash_counted().1 == lacks
}

#[test]
fn drops_the_digest_of_a_page_whose_high_page_moves(rt: HostRuntime) -> Result<(), AllocError> {
    let keys = [(1, 1), (2, 1), (5, 0), (4, 2)];
    let mut tree = hashed(rt.alloc(), &keys)?;
    put(&mut tree, 4)?;
    assert!(rt; makes_what_it_lacks(&mut tree));
    assert!(rt; *tree.root_hash() == defined_root(rt.alloc(), PageFormat::V1, &keys)?);
    Ok(())
}

#[test]
fn replaces_the_digest_of_a_key(rt: HostRuntime) -> Result<(), AllocError> {
    let mut tree = tree(rt.alloc(), &[(1, 0), (2, 0)])?;
    assert!(rt; tree.upsert(number_key(1), &Value { number: 9 }).is_ok());
    assert!(rt; nodes(rt.alloc(), &tree)?.as_str() == " 1=9 2=2");
    Ok(())
}

/// Whether a copy of a tree has the same root hash, and lacks as many digests.
fn is_copied(tree: &Tree) -> Result<bool, AllocError> {
    let copy = copy(tree)?;
    Ok(
        copy.root_hash_cached() == tree.root_hash_cached()
            && copy.pages_to_hash() == tree.pages_to_hash(),
    )
}

#[test]
fn copies_keep_all_digests(rt: HostRuntime) -> Result<(), AllocError> {
    let mut tree = tree(rt.alloc(), &NINE)?;
    assert!(rt; is_copied(&tree)?);
    tree.root_hash();
    assert!(rt; is_copied(&tree)?);
    Ok(())
}
