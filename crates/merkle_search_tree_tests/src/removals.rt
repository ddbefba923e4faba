//! Removals, by what they hand out, by how many pages then lack a digest, and by the root hash of the tree of the keys left.

use merkle_digest::RootHash;
use merkle_search_tree::builder::PageFormat;
use std::alloc::{AllocError, Global};
use std::test::Fail;
use test_keys::number_key;
use test_trees::trees::{Tree, copy, defined_root, empty, keys_of, put, tree, tree_in};

/// The keys but this one.
fn without(alloc: Global, keys: &[(u16, u8)], key: u16) -> Result<Vec<(u16, u8)>, AllocError> {
    let mut left = Vec::with_capacity(alloc, keys.len())?;
    for (number, level) in keys {
        if *number != key {
            left.push((*number, *level))?;
        }
    }
    Ok(left)
}

/// Takes a key out, and tells whether it was there.
fn take(tree: &mut Tree, key: u16) -> Result<bool, AllocError> {
    let asked = number_key(key);
    match tree.remove(&asked)? {
        None => Ok(false),
        Some(removed) => Ok(removed.0 == asked),
    }
}

/// Whether a tree has forgotten its root hash, makes as many digests as it lacks, and is then the defined one of these keys.
fn is_defined(alloc: Global, tree: &mut Tree, keys: &[(u16, u8)]) -> Result<bool, AllocError> {
    let wanted = defined_root(alloc, tree.page_format(), keys)?;
    let is_forgotten = tree.root_hash_cached().is_none();
    let lacks = tree.pages_to_hash();
    Ok(is_forgotten && tree.root_hash_counted().1 == lacks && *tree.root_hash() == wanted)
}

/// Takes a key out of the hashed tree of these keys in a page format, and returns how many pages then lack a digest; `None` where the key
/// wasn't there, or the tree isn't the defined one of the others.
fn lacks_without(
    alloc: Global,
    format: PageFormat,
    keys: &[(u16, u8)],
    key: u16,
) -> Result<Option<usize>, AllocError> {
    let mut tree = tree_in(alloc, format, keys)?;
    tree.root_hash();
    let is_out = take(&mut tree, key)?;
    let lacks = tree.pages_to_hash();
    if is_out && is_defined(alloc, &mut tree, &without(alloc, keys, key)?)? {
        Ok(Some(lacks))
    } else {
        Ok(None)
    }
}

/// A line for each tree: its keys with their levels.
pub const TREES: &str = "\
65:0\n\
65:0 66:0\n\
65:0 66:1\n\
66:0 65:1\n\
65:6 66:4 67:2\n\
67:6 66:4 65:2\n\
65:5 66:0 67:0 69:0 68:1\n\
1:1 2:1 4:0 3:2\n\
1:1 2:1 3:0 5:0 4:2\n\
2:64 5:20 3:52 4:64\n\
2:64 6:20 4:20 3:52 5:64\n\
73:2 75:2 65:1 69:1 74:1 66:0 67:0 68:0 70:0 71:0 72:0\n\
7:2 11:2 3:1 4:1 6:1 2:0 5:0 15:1 42:0\n\
5:42 4:41 1:40 3:40 2:43\n\
1:0 2:1 3:2 4:3 5:4 6:5 7:4 8:3 9:2 10:1 11:0\n\
1:3 2:0 3:2 4:1 5:9 6:1 7:2 8:0 9:3 10:9\n\
";

/// Whether the hashed tree of these keys in a page format, without any one of them, is the defined one of the others.
fn leaves_the_others(
    alloc: Global,
    format: PageFormat,
    keys: &[(u16, u8)],
) -> Result<bool, AllocError> {
    for (key, _) in keys {
        if lacks_without(alloc, format, keys, *key)?.is_none() {
            return Ok(false);
        }
    }
    Ok(true)
}

#[test]
fn leaves_the_defined_tree(rt: HostRuntime) -> Result<(), Fail> {
    for line in TREES.lines() {
        let keys = keys_of(rt.alloc(), line)?;
        assert!(rt;
            leaves_the_others(rt.alloc(), PageFormat::V1, &keys)?,
            "format 1: {line}"
        );
        assert!(rt;
            leaves_the_others(rt.alloc(), PageFormat::V2, &keys)?,
            "format 2: {line}"
        );
    }
    Ok(())
}

/// Keys of trees, one of them, and how many pages lack a digest without it; `None` where the key isn't there.
const LACKING: [(&[(u16, u8)], u16, Option<usize>); 5] = [
    (&[(1, 1), (2, 1), (4, 0), (3, 2)], 3, Some(1)),
    (&[(2, 64), (6, 20), (4, 20), (3, 52), (5, 64)], 5, Some(3)),
    (&[(1, 1), (2, 0)], 1, Some(0)),
    (&[(1, 0)], 1, Some(1)),
    (&[(1, 0)], 2, None),
];

#[test]
fn drops_few_digests(rt: HostRuntime) -> Result<(), AllocError> {
    for (keys, key, wanted) in LACKING {
        assert!(rt;
            lacks_without(rt.alloc(), PageFormat::V1, keys, key)? == wanted,
            "{keys:?}"
        );
    }
    Ok(())
}

/// The level of a key: half of the keys stand on level 0, a quarter on level 1, an eighth on level 2, and the others on level 3.
fn level_at(key: u16) -> u8 {
    let mixed = key.wrapping_mul(37);
    if mixed % 2 == 1 {
        0
    } else if mixed % 4 == 2 {
        1
    } else if mixed % 8 == 4 {
        2
    } else {
        3
    }
}

/// The keys of a set, a bit for each key below 64, with their levels.
fn keys_in(alloc: Global, set: u64) -> Result<Vec<(u16, u8)>, AllocError> {
    let mut keys = Vec::with_capacity(alloc, 64)?;
    for key in 0..64u16 {
        if (set >> key) & 1 == 1 {
            keys.push((key, level_at(key)))?;
        }
    }
    Ok(keys)
}

/// The next of a row of random numbers.
fn next(random: u64) -> u64 {
    random
        .wrapping_mul(6364136223846793005)
        .wrapping_add(1442695040888963407)
}

/// Sets a key below 64 or takes it out, by a random number, and the same in the set of the keys that are there; says whether a removal
/// told that the key was there.
fn update(tree: &mut Tree, keys: &mut u64, random: u64) -> Result<bool, AllocError> {
    let key = ((random >> 33) % 64) as u16;
    let bit = 1u64 << key;
    let was_there = *keys & bit != 0;
    if (random >> 40) % 2 == 0 {
        put(tree, key)?;
        *keys |= bit;
        return Ok(true);
    }
    *keys &= !bit;
    Ok(take(tree, key)? == was_there)
}

/// The root hash of a tree.
fn root_of(mut tree: Tree) -> RootHash {
    tree.root_hash_counted().0
}

/// Whether a copy of a tree has the root hash of the tree that is built anew of the keys of a set.
fn is_built_anew(alloc: Global, left: &Tree, keys: u64) -> Result<bool, AllocError> {
    let found = root_of(copy(left)?);
    Ok(found == root_of(tree(alloc, &keys_in(alloc, keys)?)?))
}

#[test]
fn random_updates_leave_the_tree_built_anew(rt: HostRuntime) -> Result<(), AllocError> {
    let mut tree = empty(rt.alloc(), PageFormat::V1, &keys_in(rt.alloc(), u64::MAX)?)?;
    let mut keys = 0u64;
    let mut random = 1u64;
    for step in 0..400u32 {
        random = next(random);
        assert!(rt; update(&mut tree, &mut keys, random)?, "at {step}");
        assert!(rt; is_built_anew(rt.alloc(), &tree, keys)?, "after {step}");
        if (random >> 50) % 4 == 0 {
            tree.root_hash();
        }
    }
    Ok(())
}
