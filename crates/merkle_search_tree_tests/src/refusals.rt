//! Refused memory. Under `rt try --test --fail-alloc N -- a_refused` the Nth request for memory of each of these tests is refused:
//! then the answer is right, or it is out of memory with everything as before.

use merkle_diff::PageRangeSnapshot;
use std::alloc::{AllocError, Global};
use test_keys::number_key;
use test_trees::root_pages::root_copy;
use test_trees::trees::{Tree, copy, defined_root, gives_its_list, hashed, nodes, tree, value_at};

/// Nine keys on their levels.
pub const NINE: [(u16, u8); 9] = [
    (7, 2),
    (11, 2),
    (3, 1),
    (4, 1),
    (6, 1),
    (2, 0),
    (5, 0),
    (15, 1),
    (42, 0),
];

/// Keys on their levels, each of which is upserted into the tree of those before it.
const GROWTHS: [&[(u16, u8)]; 3] = [
    &[(1, 1), (2, 1), (5, 0), (4, 2)],
    &[(2, 64), (6, 20), (4, 20), (3, 52), (5, 64), (1, 0)],
    &[
        (7, 2),
        (11, 2),
        (3, 1),
        (4, 1),
        (6, 1),
        (2, 0),
        (15, 1),
        (42, 0),
        (5, 3),
    ],
];

/// The hashed tree of the nine keys.
fn nine(alloc: Global) -> Result<Tree, AllocError> {
    let mut tree = tree(alloc, &NINE)?;
    tree.root_hash();
    Ok(tree)
}

/// What the page ranges of a tree were; `None` where it isn't hashed.
fn seen(alloc: Global, tree: &Tree) -> Result<Option<PageRangeSnapshot<[u8; 2]>>, AllocError> {
    match tree.serialise_page_ranges()? {
        None => Ok(None),
        Some(ranges) => Ok(Some(PageRangeSnapshot::from_ranges(alloc, ranges)?)),
    }
}

/// Whether the digests above a new key are forgotten, and the tree is then the defined one of these keys.
fn is_set(alloc: Global, tree: &mut Tree, keys: &[(u16, u8)]) -> Result<bool, AllocError> {
    let is_forgotten = tree.root_hash_cached().is_none();
    let wanted = defined_root(alloc, tree.page_format(), keys)?;
    Ok(is_forgotten && *tree.root_hash() == wanted)
}

/// Whether the pages of a tree and all their digests are as before.
fn is_as_before(
    alloc: Global,
    tree: &Tree,
    before: &Option<PageRangeSnapshot<[u8; 2]>>,
) -> Result<bool, AllocError> {
    Ok(tree.pages_to_hash() == 0 && seen(alloc, tree)? == *before)
}

/// Whether the last of the keys is set, or handed back with the pages and all digests as before.
fn is_set_or_handed_back(alloc: Global, keys: &[(u16, u8)], last: u16) -> Result<bool, AllocError> {
    let mut tree = hashed(alloc, keys)?;
    let before = seen(alloc, &tree)?;
    match tree.upsert(number_key(last), &value_at(last)) {
        Ok(()) => is_set(alloc, &mut tree, keys),
        Err(refused) => {
            let is_back = refused.into_key() == number_key(last);
            Ok(is_back && is_as_before(alloc, &tree, &before)?)
        }
    }
}

/// Whether each of the keys, upserted into the hashed tree of those before it, is set or handed back.
fn are_set_or_handed_back(alloc: Global, keys: &[(u16, u8)]) -> bool {
    let mut is_right = true;
    for place in 0..keys.len() {
        let (so_far, _) = keys.split_at(place + 1);
        let last = keys[place].0;
        is_right = is_right && is_set_or_handed_back(alloc, so_far, last) != Ok(false);
    }
    is_right
}

#[test]
fn a_refused_upsert_changes_nothing(rt: HostRuntime) {
    for keys in GROWTHS {
        assert!(rt; are_set_or_handed_back(rt.alloc(), keys), "{keys:?}");
    }
}

/// Whether a key is taken out of the hashed tree of these keys, which is then the defined one of the others, or the removal is refused
/// with the pages and all digests as before.
fn is_out_or_unchanged(
    alloc: Global,
    keys: &[(u16, u8)],
    key: u16,
    others: &[(u16, u8)],
) -> Result<bool, AllocError> {
    let mut tree = tree(alloc, keys)?;
    tree.root_hash();
    let before = seen(alloc, &tree)?;
    match tree.remove(&number_key(key)) {
        Ok(found) => Ok(found.is_some() && is_set(alloc, &mut tree, others)?),
        Err(_) => is_as_before(alloc, &tree, &before),
    }
}

/// Keys on their levels, and one of them, whose removal moves nodes to a page that has no room for them; the others.
const REMOVALS: [(&[(u16, u8)], u16, &[(u16, u8)]); 3] = [
    // both gaps of the key have a page of level 20, below pages of levels 52 and 20
    (
        &[(2, 64), (5, 64), (4, 20), (6, 20), (3, 52)],
        5,
        &[(2, 64), (4, 20), (6, 20), (3, 52)],
    ),
    // both gaps have a page of level 1, between whose nodes pages of level 0 are joined
    (
        &[(1, 1), (0, 0), (2, 0), (5, 2), (6, 0), (7, 1), (8, 0)],
        5,
        &[(1, 1), (0, 0), (2, 0), (6, 0), (7, 1), (8, 0)],
    ),
    (&[(1, 0), (2, 1), (3, 0)], 2, &[(1, 0), (3, 0)]),
];

#[test]
fn a_refused_removal_changes_nothing(rt: HostRuntime) {
    for (keys, key, others) in REMOVALS {
        assert!(rt;
            is_out_or_unchanged(rt.alloc(), keys, key, others) != Ok(false),
            "key {key}"
        );
    }
}

/// Whether the tree of the nine keys lists its nodes.
fn lists_nodes(alloc: Global) -> Result<bool, AllocError> {
    let tree = tree(alloc, &NINE)?;
    Ok(nodes(alloc, &tree)?.as_str() == " 2=2 3=3 4=4 5=5 6=6 7=7 11=11 15=15 42=42")
}

/// Whether it gives one at a time the page ranges that it lists.
fn lists_ranges(alloc: Global) -> Result<bool, AllocError> {
    gives_its_list(&nine(alloc)?)
}

/// Whether a copy of each of its nodes is equal to it, the pages below it and their digests included.
fn copies_nodes(alloc: Global) -> Result<bool, AllocError> {
    let tree = nine(alloc)?;
    let mut is_right = true;
    for node in tree.node_iter()? {
        is_right = is_right && node.try_clone(alloc)? == *node;
    }
    Ok(is_right)
}

/// Whether a copy of its root page is equal to it, the pages below it and their digests included, and has a range.
fn copies_the_root_page(alloc: Global) -> Result<bool, AllocError> {
    let tree = nine(alloc)?;
    let copy = root_copy(alloc, &tree)?;
    Ok(copy.is_equal && copy.page.page_range().is_some())
}

/// Whether a copy of it has its pages and digests.
fn copies_the_tree(alloc: Global) -> Result<bool, AllocError> {
    let tree = nine(alloc)?;
    is_as_before(alloc, &copy(&tree)?, &seen(alloc, &tree)?)
}

/// Whether each call gives what is right.
fn are_right(alloc: Global) -> Result<bool, AllocError> {
    Ok(
        lists_nodes(alloc)?
            && lists_ranges(alloc)?
            && copies_nodes(alloc)?
            && copies_the_root_page(alloc)?
            && copies_the_tree(alloc)?,
    )
}

#[test]
fn a_refused_call_is_want_of_memory(rt: HostRuntime) {
    assert!(rt; are_right(rt.alloc()) != Ok(false));
}

#[test]
fn calls_succeed_where_memory_is_at_hand(rt: HostRuntime) {
    assert!(rt; are_right(rt.alloc()) == Ok(true));
}
