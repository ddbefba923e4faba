//! Trees of short and long digests, of numbers in the reversed order, and of texts that may be equal but for case: upserts, loads,
//! removals and page ranges, by tables that were worked out by hand.

use merkle_digest::{Hasher, KeyBytes, RootHash};
use merkle_search_tree::MerkleSearchTree;
use merkle_search_tree::builder::Builder;
use std::alloc::{AllocError, Global};
use test_keys::{CaselessText, DescendingNumber, LevelHasher, Value, number_key};
use test_trees::trees::value_at;

/// A kind of keys: five of them, in ascending order.
trait Kind: Sized {
    /// The key at a place.
    fn at(alloc: Global, place: u16) -> Result<Self, AllocError>;

    /// An equal key, which may be told from it otherwise.
    fn equal_to(alloc: Global, place: u16) -> Result<Self, AllocError>;
}

impl Kind for String {
    fn at(alloc: Global, place: u16) -> Result<Self, AllocError> {
        format!(in alloc; "k{place}")
    }

    fn equal_to(alloc: Global, place: u16) -> Result<Self, AllocError> {
        String::at(alloc, place)
    }
}

impl Kind for [u8; 2] {
    fn at(_alloc: Global, place: u16) -> Result<Self, AllocError> {
        Ok(number_key(place))
    }

    fn equal_to(alloc: Global, place: u16) -> Result<Self, AllocError> {
        <[u8; 2]>::at(alloc, place)
    }
}

impl Kind for DescendingNumber {
    fn at(_alloc: Global, place: u16) -> Result<Self, AllocError> {
        Ok(DescendingNumber::new(9u16.saturating_sub(place)))
    }

    fn equal_to(alloc: Global, place: u16) -> Result<Self, AllocError> {
        DescendingNumber::at(alloc, place)
    }
}

impl Kind for CaselessText {
    fn at(alloc: Global, place: u16) -> Result<Self, AllocError> {
        let text = match place {
            0 => "apple",
            1 => "Banana",
            2 => "CHERRY",
            3 => "date",
            _ => "Elder",
        };
        CaselessText::new(alloc, text)
    }

    fn equal_to(alloc: Global, place: u16) -> Result<Self, AllocError> {
        let text = match place {
            0 => "APPLE",
            1 => "bANANA",
            2 => "cherry",
            3 => "DATE",
            _ => "elder",
        };
        CaselessText::new(alloc, text)
    }
}

/// A tree of a kind of keys, with digests of `N` bytes.
type TreeOf<K, const N: usize> = MerkleSearchTree<K, Value, LevelHasher<K>, N>;

/// A span of keys, by their places.
type Places = (u16, u16);

/// The levels of five keys, the spans of the pages of their tree, a key that is taken out, and the spans of the pages that are left.
#[derive(Drop)]
struct Table {
    levels: [u8; 5],
    spans: &'static [Places],
    removed: u16,
    left: &'static [Places],
}

/// A builder whose hasher puts the five keys on these levels.
fn builder<K: Kind + Drop>(
    alloc: Global,
    levels: &[u8; 5],
) -> Result<Builder<LevelHasher<K>>, AllocError> {
    let mut pairs = Vec::with_capacity(alloc, 5)?;
    for (place, level) in (0..5u16).zip(levels) {
        pairs.push((K::at(alloc, place)?, *level))?;
    }
    Ok(Builder::default().with_hasher(LevelHasher::new(pairs)))
}

/// The tree of the five keys but one, upserted each twice, as 3, 1, 4, 2, 0.
fn upserted<K: Kind + Ord + KeyBytes + Drop, const N: usize>(
    alloc: Global,
    levels: &[u8; 5],
    but: Option<u16>,
) -> Result<TreeOf<K, N>, AllocError>
where
    LevelHasher<K>: Hasher<N, K> + Hasher<N, Value>,
{
    let mut tree: TreeOf<K, N> = builder(alloc, levels)?.build(alloc);
    for place in [3, 1, 4, 2, 0] {
        if but != Some(place) {
            tree.upsert(K::at(alloc, place)?, &value_at(7))?;
            tree.upsert(K::equal_to(alloc, place)?, &value_at(place))?;
        }
    }
    Ok(tree)
}

/// The tree of the five keys, loaded.
fn loaded<K: Kind + Ord + KeyBytes + Drop, const N: usize>(
    alloc: Global,
    levels: &[u8; 5],
) -> Result<TreeOf<K, N>, AllocError>
where
    LevelHasher<K>: Hasher<N, K> + Hasher<N, Value>,
{
    let mut rows = Vec::with_capacity(alloc, 5)?;
    for place in 0..5u16 {
        rows.push((K::at(alloc, place)?, value_at(place)))?;
    }
    match MerkleSearchTree::from_ascending(alloc, builder(alloc, levels)?, rows) {
        Ok(tree) => Ok(tree),
        Err(_) => Err(AllocError),
    }
}

/// The loaded tree without one of its keys, which is taken out.
fn left<K: Kind + Ord + KeyBytes + Drop, const N: usize>(
    alloc: Global,
    levels: &[u8; 5],
    removed: u16,
) -> Result<TreeOf<K, N>, AllocError>
where
    LevelHasher<K>: Hasher<N, K> + Hasher<N, Value>,
{
    let mut tree: TreeOf<K, N> = loaded(alloc, levels)?;
    tree.remove(&K::equal_to(alloc, removed)?)?;
    Ok(tree)
}

/// Whether a hashed tree has pages of these spans.
fn has_spans<K: Kind + Ord + KeyBytes + Drop, const N: usize>(
    alloc: Global,
    tree: &TreeOf<K, N>,
    spans: &[Places],
) -> Result<bool, AllocError>
where
    LevelHasher<K>: Hasher<N, K>,
{
    let ranges = tree.serialise_page_ranges()?.ok_or(AllocError)?;
    let mut is_right = ranges.len() == spans.len();
    for (range, (start, end)) in ranges.iter().zip(spans) {
        is_right = is_right
            && *range.start() == K::at(alloc, *start)?
            && *range.end() == K::at(alloc, *end)?;
    }
    Ok(is_right)
}

/// The root hash of a tree whose pages have these spans; none where they haven't.
fn root_of<K: Kind + Ord + KeyBytes + Drop, const N: usize>(
    alloc: Global,
    mut tree: TreeOf<K, N>,
    spans: &[Places],
) -> Result<Option<RootHash>, AllocError>
where
    LevelHasher<K>: Hasher<N, K>,
{
    let root_hash = tree.root_hash_counted().0;
    if has_spans(alloc, &tree, spans)? {
        Ok(Some(root_hash))
    } else {
        Ok(None)
    }
}

/// Whether the five keys make the tree of a table, upserted or loaded.
fn makes_the_tree<K: Kind + Ord + KeyBytes + Drop, const N: usize>(
    alloc: Global,
    table: &Table,
) -> Result<bool, AllocError>
where
    LevelHasher<K>: Hasher<N, K> + Hasher<N, Value>,
{
    let upserted = root_of::<K, N>(alloc, upserted(alloc, &table.levels, None)?, table.spans)?;
    let loaded = root_of::<K, N>(alloc, loaded(alloc, &table.levels)?, table.spans)?;
    Ok(upserted.is_some() && upserted == loaded)
}

/// Whether the tree that is left is right, and has the root hash of one that never had the key.
fn takes_a_key_out<K: Kind + Ord + KeyBytes + Drop, const N: usize>(
    alloc: Global,
    table: &Table,
) -> Result<bool, AllocError>
where
    LevelHasher<K>: Hasher<N, K> + Hasher<N, Value>,
{
    let left = left(alloc, &table.levels, table.removed)?;
    let left = root_of::<K, N>(alloc, left, table.left)?;
    let others = upserted(alloc, &table.levels, Some(table.removed))?;
    Ok(left.is_some() && left == root_of::<K, N>(alloc, others, table.left)?)
}

/// Whether the five keys make the tree of a table, and the tree that is left without one of them is right.
fn is_right<K: Kind + Ord + KeyBytes + Drop, const N: usize>(
    alloc: Global,
    table: &Table,
) -> Result<bool, AllocError>
where
    LevelHasher<K>: Hasher<N, K> + Hasher<N, Value>,
{
    Ok(makes_the_tree::<K, N>(alloc, table)? && takes_a_key_out::<K, N>(alloc, table)?)
}

#[test]
fn digests_of_no_byte(rt: HostRuntime) -> Result<(), AllocError> {
    let table = Table {
        levels: [0; 5],
        spans: &[(0, 4)],
        removed: 1,
        left: &[(0, 4)],
    };
    assert!(rt; is_right::<String, 0>(rt.alloc(), &table)?);
    Ok(())
}

#[test]
fn digests_of_200_bytes(rt: HostRuntime) -> Result<(), AllocError> {
    let table = Table {
        levels: [0, 128, 255, 254, 0],
        spans: &[(0, 4), (0, 1), (0, 0), (3, 4), (4, 4)],
        removed: 4,
        left: &[(0, 3), (0, 1), (0, 0), (3, 3)],
    };
    assert!(rt; is_right::<[u8; 2], 200>(rt.alloc(), &table)?);
    Ok(())
}

#[test]
fn numbers_in_the_reversed_order(rt: HostRuntime) -> Result<(), AllocError> {
    let table = Table {
        levels: [0, 1, 0, 0, 1],
        spans: &[(0, 4), (0, 0), (2, 3)],
        removed: 4,
        left: &[(0, 3), (0, 0), (2, 3)],
    };
    assert!(rt; is_right::<DescendingNumber, 32>(rt.alloc(), &table)?);
    Ok(())
}

#[test]
fn texts_equal_but_for_case(rt: HostRuntime) -> Result<(), AllocError> {
    let table = Table {
        levels: [0, 0, 1, 0, 0],
        spans: &[(0, 4), (0, 1), (3, 4)],
        removed: 4,
        left: &[(0, 3), (0, 1), (3, 3)],
    };
    assert!(rt; is_right::<CaselessText, 32>(rt.alloc(), &table)?);
    Ok(())
}
