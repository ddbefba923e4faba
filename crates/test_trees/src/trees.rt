//! Trees whose keys stand on given levels.

use crate::defined::defined_root_hash;
use merkle_digest::{Hasher, KeyBytes, RootHash, ValueDigest};
use merkle_search_tree::MerkleSearchTree;
use merkle_search_tree::builder::{Builder, PageFormat};
use std::alloc::{AllocError, Global};
use std::test::Fail;
use test_keys::{LevelHasher, Value, number_key};

/// A tree of number keys, with digests of 32 bytes.
pub type Tree = MerkleSearchTree<[u8; 2], Value, LevelHasher<[u8; 2]>, 32>;

/// A hasher that puts these keys on these levels.
pub fn hasher(alloc: Global, keys: &[(u16, u8)]) -> Result<LevelHasher<[u8; 2]>, AllocError> {
    let mut levels = Vec::with_capacity(alloc, keys.len())?;
    for (number, level) in keys {
        levels.push((number_key(*number), *level))?;
    }
    Ok(LevelHasher::new(levels))
}

/// The keys of a text with their levels.
pub fn keys_of(alloc: Global, text: &str) -> Result<Vec<(u16, u8)>, Fail> {
    let mut keys = Vec::new(alloc);
    for word in text.split_whitespace() {
        let (key, level) = word.split_once(':').ok_or("no level")?;
        keys.push((key.parse::<u16>()?, level.parse::<u8>()?))?;
    }
    Ok(keys)
}

/// The value at a key: its number.
pub fn value_at(number: u16) -> Value {
    Value {
        number: number as u64,
    }
}

/// The tree of no keys in a page format, whose hasher puts these keys on these levels.
pub fn empty(alloc: Global, format: PageFormat, keys: &[(u16, u8)]) -> Result<Tree, AllocError> {
    Ok(
        Builder::default()
            .with_page_format(format)
            .with_hasher(hasher(alloc, keys)?)
            .build(alloc),
    )
}

/// Sets a key to its number.
pub fn put(tree: &mut Tree, key: u16) -> Result<(), AllocError> {
    match tree.upsert(number_key(key), &value_at(key)) {
        Ok(()) => Ok(()),
        Err(_) => Err(AllocError),
    }
}

/// The tree of these keys on these levels in a page format, upserted in this order.
pub fn tree_in(alloc: Global, format: PageFormat, keys: &[(u16, u8)]) -> Result<Tree, AllocError> {
    let mut tree = empty(alloc, format, keys)?;
    for (number, _) in keys {
        put(&mut tree, *number)?;
    }
    Ok(tree)
}

/// The tree of these keys on these levels in format 1, upserted in this order.
pub fn tree(alloc: Global, keys: &[(u16, u8)]) -> Result<Tree, AllocError> {
    tree_in(alloc, PageFormat::V1, keys)
}

/// The hashed tree of the keys but the last in a page format, on the levels of all.
pub fn hashed_in(
    alloc: Global,
    format: PageFormat,
    keys: &[(u16, u8)],
) -> Result<Tree, AllocError> {
    let mut tree = empty(alloc, format, keys)?;
    for (number, _) in &keys[..keys.len().saturating_sub(1)] {
        put(&mut tree, *number)?;
    }
    tree.root_hash();
    Ok(tree)
}

/// The hashed tree of the keys but the last in format 1, on the levels of all.
pub fn hashed(alloc: Global, keys: &[(u16, u8)]) -> Result<Tree, AllocError> {
    hashed_in(alloc, PageFormat::V1, keys)
}

/// A copy of a tree.
pub fn copy(tree: &Tree) -> Result<Tree, AllocError> {
    tree.try_clone()
}

/// Whether a tree gives one at a time the page ranges that it lists, or neither where it isn't hashed.
pub fn gives_its_list<K: Ord + KeyBytes, V, H: Hasher<N, K>, const N: usize>(
    tree: &MerkleSearchTree<K, V, H, N>,
) -> Result<bool, AllocError> {
    match (tree.page_range_iter()?, tree.serialise_page_ranges()?) {
        (Some(ranges), Some(list)) => Ok(ranges.eq(list)),
        (None, None) => Ok(true),
        _ => Ok(false),
    }
}

/// The nodes of a tree in their order: for each, a space, its key, `=` and the first byte of its value digest.
pub fn nodes(alloc: Global, tree: &Tree) -> Result<String, AllocError> {
    let mut nodes = String::new(alloc);
    for node in tree.node_iter()? {
        let number = u16::from_be_bytes(*node.key());
        let value = node.value_hash().as_bytes()[0];
        nodes.push_str(format!(in alloc; " {number}={value}")?.as_str())?;
    }
    Ok(nodes)
}

/// The different numbers of these keys in ascending order.
pub fn numbers_of(alloc: Global, keys: &[(u16, u8)]) -> Result<Vec<u16>, AllocError> {
    let mut numbers = Vec::with_capacity(alloc, keys.len())?;
    for (number, _) in keys {
        if !numbers.contains(number) {
            numbers.push(*number)?;
        }
    }
    numbers.sort_unstable();
    Ok(numbers)
}

/// The digest of the value at a key.
fn digest_at(hasher: &LevelHasher<[u8; 2]>, number: u16) -> ValueDigest<32> {
    ValueDigest::new(<LevelHasher<[u8; 2]> as Hasher<32, Value>>::hash(hasher, &value_at(number)))
}

/// The root hash in a page format of the defined tree of these keys on these levels, in whatever order they are given.
pub fn defined_root(
    alloc: Global,
    format: PageFormat,
    keys: &[(u16, u8)],
) -> Result<RootHash, AllocError> {
    let hasher = hasher(alloc, keys)?;
    let mut pairs = Vec::with_capacity(alloc, keys.len())?;
    for number in numbers_of(alloc, keys)? {
        pairs.push((number_key(number), digest_at(&hasher, number)))?;
    }
    Ok(defined_root_hash(&hasher, format, &pairs))
}
