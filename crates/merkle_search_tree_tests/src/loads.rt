//! Trees that are loaded from rows in key order, by the root hash of the defined tree.

use crate::refusals::NINE;
use crate::removals::TREES;
use crate::upserts::{UPSERTS, has_root};
use merkle_search_tree::builder::{Builder, PageFormat};
use merkle_search_tree::{LoadRefused, MerkleSearchTree};
use std::alloc::{AllocError, Global};
use std::test::Fail;
use test_keys::{Value, number_key};
use test_trees::trees::{Tree, defined_root, hasher, keys_of, numbers_of, value_at};

/// The rows of these numbers in this order.
fn rows(alloc: Global, numbers: &[u16]) -> Result<Vec<([u8; 2], Value)>, AllocError> {
    let mut rows = Vec::with_capacity(alloc, numbers.len())?;
    for number in numbers {
        rows.push((number_key(*number), value_at(*number)))?;
    }
    Ok(rows)
}

/// What a load of the rows of these numbers gives, with keys on these levels: from a slice, or from the rows themselves.
fn load(
    alloc: Global,
    levels: &[(u16, u8)],
    numbers: &[u16],
    is_slice: bool,
) -> Result<Result<Tree, LoadRefused>, AllocError> {
    let builder = Builder::default().with_hasher(hasher(alloc, levels)?);
    let rows = rows(alloc, numbers)?;
    if is_slice {
        Ok(MerkleSearchTree::from_ascending_slice(alloc, builder, &rows))
    } else {
        Ok(MerkleSearchTree::from_ascending(alloc, builder, rows))
    }
}

/// Whether the tree of these keys on these levels, loaded in ascending order, isn't hashed, and is the defined one.
fn is_loaded(alloc: Global, keys: &[(u16, u8)], is_slice: bool) -> Result<bool, AllocError> {
    let wanted = defined_root(alloc, PageFormat::V1, keys)?;
    match load(alloc, keys, &numbers_of(alloc, keys)?, is_slice)? {
        Ok(mut tree) => Ok(tree.root_hash_cached().is_none() && has_root(&mut tree, &wanted)),
        Err(LoadRefused::Memory) => Err(AllocError),
        Err(_) => Ok(false),
    }
}

#[test]
fn loads_make_the_defined_tree(rt: HostRuntime) -> Result<(), Fail> {
    for line in UPSERTS.lines().chain(TREES.lines()) {
        let keys = keys_of(rt.alloc(), line)?;
        assert!(rt; is_loaded(rt.alloc(), &keys, false)?, "at {line}");
        assert!(rt; is_loaded(rt.alloc(), &keys, true)?, "as a slice at {line}");
    }
    Ok(())
}

/// The numbers of rows that don't ascend, and the place of the first that doesn't.
const REFUSED: [(&[u16], usize); 4] = [
    (&[2, 1], 1),
    (&[1, 1], 1),
    (&[1, 2, 3, 3, 4], 3),
    (&[1, 5, 9, 8, 2], 3),
];

#[test]
fn rows_are_refused_at_the_first_that_does_not_ascend(rt: HostRuntime) -> Result<(), AllocError> {
    for (numbers, place) in REFUSED {
        let wanted = Some(LoadRefused::NotAscending(place));
        assert!(rt; load(rt.alloc(), &[], numbers, false)?.err() == wanted);
        assert!(rt; load(rt.alloc(), &[], numbers, true)?.err() == wanted);
    }
    Ok(())
}

#[test]
fn a_refused_load_is_want_of_memory(rt: HostRuntime) {
    assert!(rt; is_loaded(rt.alloc(), &NINE, false) != Ok(false));
    assert!(rt; is_loaded(rt.alloc(), &NINE, true) != Ok(false));
}
