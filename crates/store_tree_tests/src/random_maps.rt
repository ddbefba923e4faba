//! Random writes to a table of cells, after which it tells what a tree in memory tells of the same map.
use crate::same::{are_items, is_digest, lent};
use crate::sorted_rows::SortedRows;
use merkle_digest::{PageDigest, SipHasher, ValueDigest, level};
use merkle_search_tree::builder::{Builder, PageFormat};
use merkle_search_tree::{MerkleSearchTree, OutlineItem};
use sqlite_trees::memory::MemStore;
use sqlite_trees::schema::Object;
use sqlite_trees::store::{Shape, Store};
use sqlite_value::keys::Order;
use std::alloc::{AllocError, Global};
use std::num::NonZeroU8;
use std::process::Abort;
use std::test::Fail;
use store_tree::TreeFault;
use store_tree::outline::{Outline, outline_over};
use store_tree::over::is_page;
use store_tree::pairs::DIGEST_LEN;
use store_tree::root::{count_keys, root_digest};
use store_tree::table::has_table;
use store_tree::write::write;
use test_keys::Random;

type Tree = MerkleSearchTree<String, u64, SipHasher, DIGEST_LEN>;

/// A map three times: as a tree in memory, as rows, and as the gaps of its tree in a store.
#[derive(Drop)]
pub(crate) struct Sides {
    pub tree: Tree,
    pub rows: SortedRows,
    pub store: MemStore,
}

/// A store in memory with three empty tables, of which the last is that of cells.
fn store(alloc: Global) -> Result<MemStore, AllocError> {
    let entries = Object {
        shape: Shape::Index(Order::PLAIN),
        kind: "table",
        name: "entry",
        table: "entry",
        reals: 0,
        sql: None,
    };
    let about = Object {
        name: "about",
        table: "about",
        ..entries
    };
    let cells = Object {
        name: "cell",
        table: "cell",
        ..entries
    };
    MemStore::new(alloc, &[entries, about, cells])
}

/// The empty map, whose tree has this level base.
pub(crate) fn empty(alloc: Global, base: u8) -> Result<Sides, AllocError> {
    let base = NonZeroU8::new(base).ok_or(AllocError)?;
    let builder = Builder::default().with_level_base(base);
    Ok(Sides {
        tree: builder.with_page_format(PageFormat::V2).build(alloc),
        rows: SortedRows::new(alloc),
        store: store(alloc)?,
    })
}

/// Writes a key to the table of cells.
fn write_key(
    rt: &impl Abort,
    alloc: Global,
    store: &mut MemStore,
    level: u8,
    key: &String,
) -> Result<(), TreeFault> {
    assert!(rt; has_table(store));
    write(alloc, store, level, key)
}

/// The level of a key.
pub(crate) fn level_of(tree: &Tree, key: &String) -> u8 {
    level(&tree.key_digest(key), tree.level_base())
}

/// Sets a key to a value, in memory alone.
pub(crate) fn set_in_memory(sides: &mut Sides, key: &String, value: u64) -> Result<(), Fail> {
    let digest = ValueDigest::new(sides.tree.value_digest(&value));
    sides.rows.set(key.clone()?, digest)?;
    sides.tree.upsert(key.clone()?, &value)?;
    Ok(())
}

/// Sets a key to a value, on all sides.
fn set(
    rt: &impl Abort,
    alloc: Global,
    sides: &mut Sides,
    key: &String,
    value: u64,
) -> Result<(), Fail> {
    let on = level_of(&sides.tree, key);
    write_key(rt, alloc, &mut sides.store, on, key)?;
    set_in_memory(sides, key, value)
}

/// The digest of the root page, by the table of cells.
fn root_of(
    rt: &impl Abort,
    alloc: Global,
    sides: &mut Sides,
) -> Result<Option<PageDigest>, TreeFault> {
    assert!(rt; has_table(&sides.store));
    root_digest(alloc, &mut sides.store, &sides.rows)
}

/// How many keys there are, by the table of cells.
fn count_of(rt: &impl Abort, alloc: Global, sides: &mut Sides) -> Result<u64, TreeFault> {
    assert!(rt; has_table(&sides.store));
    count_keys(alloc, &mut sides.store, &sides.rows)
}

/// The outline of the page over a gap, by the table of cells.
fn told(
    rt: &impl Abort,
    alloc: Global,
    sides: &mut Sides,
    after: &Option<String>,
    before: &Option<String>,
) -> Result<Option<Outline>, TreeFault> {
    assert!(rt; has_table(&sides.store));
    outline_over(alloc, &mut sides.store, &sides.rows, after, before)
}

/// Whether the page with this digest is over a gap, by the table of cells.
fn has_page(
    rt: &impl Abort,
    alloc: Global,
    sides: &mut Sides,
    gap: &(Option<String>, Option<String>),
    digest: &PageDigest,
) -> Result<bool, TreeFault> {
    assert!(rt; has_table(&sides.store));
    is_page(alloc, &mut sides.store, &sides.rows, &gap.0, &gap.1, digest)
}

/// Whether the same is told over a gap by the table of cells as by the tree.
fn tell_alike(
    rt: &impl Abort,
    alloc: Global,
    sides: &mut Sides,
    gap: &(Option<String>, Option<String>),
) -> Result<bool, Fail> {
    let told = told(rt, alloc, sides, &gap.0, &gap.1)?;
    let Some(list) = sides.tree.outline(lent(gap))? else {
        return Ok(false);
    };
    let Some(outline) = &told else {
        return Ok(list.is_empty());
    };
    let items = outline.items(alloc, lent(gap))?;
    Ok(!list.is_empty() && are_items(&items, &list))
}

/// Whether the root page has one digest on both sides, and the table of cells tells how many keys there are.
fn have_one_root(rt: &impl Abort, alloc: Global, sides: &mut Sides) -> Result<bool, Fail> {
    let count = count_of(rt, alloc, sides)?;
    let found = root_of(rt, alloc, sides)?;
    let _ = sides.tree.root_hash();
    let is_root = match sides.tree.whole() {
        None => found.is_none(),
        Some(OutlineItem::Page(_, digest)) => is_digest(&found, Some(digest)),
        Some(_) => false,
    };
    Ok(is_root && count == sides.rows.rows().len() as u64)
}

/// A copy of a bound.
fn copy(bound: &Option<&String>) -> Result<Option<String>, AllocError> {
    match bound {
        None => Ok(None),
        Some(key) => Ok(Some(String::clone(key)?)),
    }
}

/// The gaps of the pages right below the one over a gap, by the tree, each with the page's digest.
fn pages_below(
    alloc: Global,
    tree: &Tree,
    gap: &(Option<String>, Option<String>),
) -> Result<Vec<((Option<String>, Option<String>), PageDigest)>, AllocError> {
    let mut found = Vec::new(alloc);
    let Some(list) = tree.outline(lent(gap))? else {
        return Ok(found);
    };
    for item in &list {
        if let OutlineItem::Page(below, digest) = item {
            let bounds = (copy(&below.after)?, copy(&below.before)?);
            found.push((bounds, PageDigest::clone(digest)?))?;
        }
    }
    Ok(found)
}

/// The number of pages, where the same is told of each on both sides; `None` where it isn't.
pub(crate) fn pages_alike(
    rt: &impl Abort,
    alloc: Global,
    sides: &mut Sides,
) -> Result<Option<u64>, Fail> {
    let other = PageDigest::new([0; DIGEST_LEN]);
    let mut gaps = vec![in alloc; (None, None)]?;
    for count in 0..10_000 {
        let Some(gap) = gaps.pop() else {
            return Ok(Some(count));
        };
        if !tell_alike(rt, alloc, sides, &gap)? || has_page(rt, alloc, sides, &gap, &other)? {
            return Ok(None);
        }
        for (below, digest) in pages_below(alloc, &sides.tree, &gap)? {
            if !has_page(rt, alloc, sides, &below, &digest)? {
                return Ok(None);
            }
            gaps.push(below)?;
        }
    }
    Ok(None)
}

/// A key by its number.
pub(crate) fn key_of(alloc: Global, number: u64) -> Result<String, AllocError> {
    format!(in alloc; "key {number}")
}

/// A bound by a random number: half of the time there is none.
fn bound(alloc: Global, random: &mut Random, keys: u64) -> Result<Option<String>, AllocError> {
    if random.below(2) == 0 {
        return Ok(None);
    }
    Ok(Some(key_of(alloc, random.below(keys))?))
}

/// Writes random keys, this many times, and compares both sides after each write: sometimes the root and the number of keys, and what is over a random gap.
pub(crate) fn write_at_random(
    rt: &impl Abort,
    alloc: Global,
    sides: &mut Sides,
    random: &mut Random,
    keys: u64,
    times: u64,
) -> Result<bool, Fail> {
    for _ in 0..times {
        let key = key_of(alloc, random.below(keys))?;
        set(rt, alloc, sides, &key, random.below(1000))?;
        let _ = sides.tree.root_hash();
        let gap = (bound(alloc, random, keys)?, bound(alloc, random, keys)?);
        let is_one = random.below(3) != 0 || have_one_root(rt, alloc, sides)?;
        if !is_one || !tell_alike(rt, alloc, sides, &gap)? {
            return Ok(false);
        }
    }
    Ok(true)
}

/// The level bases: where it is small, few keys have several levels.
pub(crate) const BASES: [u8; 3] = [1, 2, 16];

#[test]
fn an_empty_table_tells_of_nothing(rt: HostRuntime) -> Result<(), Fail> {
    let mut sides = empty(rt.alloc(), 16)?;
    let _ = sides.tree.root_hash();
    assert!(rt; have_one_root(&rt, rt.alloc(), &mut sides)?);
    assert!(rt; pages_alike(&rt, rt.alloc(), &mut sides)? == Some(1));
    Ok(())
}

/// How many keys there are to choose from, and how many writes are made of them, one batch after the other.
const BATCHES: [(u64, u64); 3] = [(8, 20), (40, 40), (150, 60)];

#[test]
fn random_writes_leave_the_tree_of_the_map(rt: HostRuntime) -> Result<(), Fail> {
    for base in BASES {
        let mut random = Random::new(u64::from(base));
        let mut sides = empty(rt.alloc(), base)?;
        for (keys, times) in BATCHES {
            assert!(rt;
                write_at_random(&rt, rt.alloc(), &mut sides, &mut random, keys, times)?,
                "base {base}, {keys} keys"
            );
        }
        let pages = pages_alike(&rt, rt.alloc(), &mut sides)?;
        assert!(rt; pages.is_some(), "base {base}");
    }
    Ok(())
}
