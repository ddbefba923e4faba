//! Default trees of 64 keys, built in two orders.

use merkle_digest::{RootHash, SipHasher};
use merkle_search_tree::MerkleSearchTree;
use std::alloc::{AllocError, Global};
use test_keys::number_key;

/// The default tree of the tests.
type Tree = MerkleSearchTree<[u8; 2], u64, SipHasher, 16>;

/// A tree on its way: the set of its keys, a bit for each, and its root hash.
#[derive(Drop)]
struct Step {
    keys: u64,
    root_hash: RootHash,
}

/// Sets a key to 1.
fn put(tree: &mut Tree, key: u16) -> Result<(), AllocError> {
    tree.upsert(number_key(key), &1)?;
    Ok(())
}

/// The step at which a tree has these keys.
fn step_of(tree: &mut Tree, keys: u64) -> Result<Step, AllocError> {
    Ok(Step {
        keys,
        root_hash: tree.root_hash().clone()?,
    })
}

/// The steps of a tree that gets the keys `factor * i` modulo 64, with value 1, for i from 0 to 63.
fn steps(alloc: Global, factor: u16) -> Result<Vec<Step>, AllocError> {
    let mut tree: Tree = MerkleSearchTree::with_defaults(alloc);
    let mut steps = Vec::new(alloc);
    let mut keys = 0u64;
    steps.push(step_of(&mut tree, keys)?)?;
    for i in 0..64u16 {
        let key = factor.wrapping_mul(i) % 64;
        put(&mut tree, key)?;
        keys |= 1u64 << key;
        steps.push(step_of(&mut tree, keys)?)?;
    }
    Ok(steps)
}

/// In how many pairs of steps the maps are equal; none where the root hashes disagree with that.
fn equal_steps(left: &[Step], right: &[Step]) -> Option<u32> {
    let mut equal = 0u32;
    for left in left {
        equal = equal.saturating_add(equal_to(left, right)?);
    }
    Some(equal)
}

/// With how many steps the map of a step is equal; none where the root hashes disagree with that.
fn equal_to(left: &Step, steps: &[Step]) -> Option<u32> {
    let mut equal = 0u32;
    for right in steps {
        let is_equal = left.keys == right.keys;
        if (left.root_hash == right.root_hash) != is_equal {
            return None;
        }
        equal = equal.saturating_add(is_equal as u32);
    }
    Some(equal)
}

#[test]
fn root_hashes_agree_exactly_where_maps_do(rt: HostRuntime) -> Result<(), AllocError> {
    let mixed = steps(rt.alloc(), 37)?;
    let ascending = steps(rt.alloc(), 1)?;
    // No key, the key 0 alone, and all keys.
    assert!(rt; equal_steps(&mixed, &ascending) == Some(3));
    Ok(())
}
