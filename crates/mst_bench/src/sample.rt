//! The trees of the sample keys.

ghost use Rattle.std.specs.Prelude.{◌≢◌, None};

use crate::fault::Fault;
use crate::keys;
use merkle_diff::PageRange;
use merkle_digest::{RootHash, SipHasher};
use merkle_search_tree::MerkleSearchTree;
use merkle_search_tree::builder::Builder;
use std::alloc::Global;

/// The tree that is measured: texts as keys, numbers as values, the default hasher and level base.
pub type Tree = MerkleSearchTree<String, u64, SipHasher, 16>;

/// The tree of the keys, put in in this order, where every key has the value 1, but the first of every ten has `tenth`.
pub fn tree_of(alloc: Global, keys: Vec<String>, tenth: u64) -> Result<Tree, Fault> {
    let mut tree = Tree::with_defaults(alloc);
    for (i, key) in keys.into_iter().enumerate() {
        let value = if i % 10 == 0 { tenth } else { 1 };
        if tree.upsert(key, &value).is_err() {
            return Err(Fault::Memory);
        }
    }
    Ok(tree)
}

/// The rows of these keys in key order, each with the value 1. Each key is copied in its turn, as a store reads it.
pub fn sorted_rows(alloc: Global, keys: &[String]) -> Result<Vec<(String, u64)>, Fault> {
    let mut sorted = keys::copies(alloc, keys)?;
    sorted.sort_unstable();
    let mut rows = Vec::with_capacity(alloc, sorted.len())?;
    for key in &sorted {
        rows.push((key.clone()?, 1))?;
    }
    Ok(rows)
}

/// The tree of rows of different keys in key order, which are refused only when out of memory.
pub fn loaded(alloc: Global, rows: Vec<(String, u64)>) -> Result<Tree, Fault> {
    match Tree::from_ascending(alloc, Builder::default(), rows) {
        Ok(tree) => Ok(tree),
        Err(_) => Err(Fault::Memory),
    }
}

/// The root hash of the tree, which is hashed.
pub fn root(tree: &Tree) -> &RootHash
    requires { tree.now.root_hash ≢ None }
{
    match tree.root_hash_cached() {
        Some(digest) => digest,
        None => unreachable!(),
    }
}

/// The page ranges of the tree, which is hashed.
pub fn ranges(tree: &Tree) -> Result<Vec<PageRange<'_, String>>, Fault>
    requires { tree.now.root_hash ≢ None }
{
    match tree.serialise_page_ranges()? {
        Some(list) => Ok(list),
        None => unreachable!(),
    }
}

/// How many page ranges the tree, which is hashed, gives one at a time.
pub fn count_ranges(tree: &Tree) -> Result<usize, Fault>
    requires { tree.now.root_hash ≢ None }
{
    let ranges = match tree.page_range_iter()? {
        Some(ranges) => ranges,
        None => unreachable!(),
    };
    let mut count: usize = 0;
    for _ in ranges {
        count = count.saturating_add(1);
    }
    Ok(count)
}

/// What peers hold of the sample: the local tree, the peer's tree, and a third, which has the local keys, and the value 2 at the first
/// of every ten.
#[derive(Drop)]
pub struct Sample {
    pub local: Tree,
    pub peer: Tree,
    pub third: Tree,
    ghost local_hashed: { local.root_hash ≢ None },
    ghost peer_hashed: { peer.root_hash ≢ None },
    ghost third_hashed: { third.root_hash ≢ None },
}

impl Sample {
    /// The sample of `count` keys a tree. Every tree is hashed.
    pub fn new(alloc: Global, count: usize) -> Result<Self, Fault> {
        let keys = keys::keys(alloc, keys::LOCAL_SEED, count)?;
        let others = keys::keys(alloc, keys::PEER_SEED, count)?;
        let mut local = tree_of(alloc, keys::copies(alloc, &keys)?, 1)?;
        let mut peer = tree_of(alloc, others, 1)?;
        let mut third = tree_of(alloc, keys, 2)?;
        let _ = local.root_hash_counted();
        let _ = peer.root_hash_counted();
        let _ = third.root_hash_counted();
        Ok(Sample { local, peer, third })
    }
}
