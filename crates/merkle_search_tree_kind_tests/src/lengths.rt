//! Trees whose value digests have one byte or 200 bytes: the streams of root pages, and the deepest tree.

use merkle_digest::{PageDigest, RootHash, Sip24};
use merkle_search_tree::MerkleSearchTree;
use merkle_search_tree::builder::{Builder, PageFormat};
use std::alloc::{AllocError, Global};
use test_keys::{LevelHasher, Value, number_key};
use test_trees::tally::Tally;
use test_trees::trees::{gives_its_list, value_at};

/// A tree of texts, all on level 0, with digests of one byte.
type Texts = MerkleSearchTree<String, Value, LevelHasher<String>, 1>;

/// A tree of number keys, with digests of 200 bytes, which have room for level 255.
type Ladder = MerkleSearchTree<[u8; 2], Value, LevelHasher<[u8; 2]>, 200>;

/// Sets a text to a number.
fn set(alloc: Global, tree: &mut Texts, text: &str, number: u64) -> Result<(), AllocError> {
    tree.upsert(String::from_str(alloc, text)?, &Value { number })?;
    Ok(())
}

/// The root hash in a page format of the tree of these texts, each with the one byte of its number as value digest.
fn root_in(
    alloc: Global,
    format: PageFormat,
    rows: &[(&str, u64)],
) -> Result<RootHash, AllocError> {
    let mut tree: Texts = Builder::default()
        .with_page_format(format)
        .with_hasher(LevelHasher::new(Vec::new(alloc)))
        .build(alloc);
    for (text, number) in rows {
        set(alloc, &mut tree, text, *number)?;
    }
    Ok(tree.root_hash_counted().0)
}

/// The root hash of a tree whose root page has this stream.
fn root_of_stream(stream: &[u8]) -> RootHash {
    let mut sip = Sip24::new();
    sip.write(stream);
    RootHash::new(PageDigest::new(sip.finish128()))
}

/// A page format, a map, and the stream of its root page. In format 2 the maps a and c, and abc, have streams that tell them apart; in
/// format 1 they have one.
const STREAMS: [(PageFormat, &[(&str, u64)], &[u8]); 5] = [
    (
        PageFormat::V2,
        &[("a", 0x62), ("c", 0x64)],
        &[
            0x02, 0x00, 0x02, 0x00, 0x00, 0x00, 0x00, 0x00, 0x00, 0x00, 0x00, 0x01, 0x00, 0x00,
            0x00, 0x00, 0x00, 0x00, 0x00, 0x61, 0x62, 0x00, 0x01, 0x00, 0x00, 0x00, 0x00, 0x00,
            0x00, 0x00, 0x63, 0x64, 0x00,
        ],
    ),
    (
        PageFormat::V2,
        &[("abc", 0x64)],
        &[
            0x02, 0x00, 0x01, 0x00, 0x00, 0x00, 0x00, 0x00, 0x00, 0x00, 0x00, 0x03, 0x00, 0x00,
            0x00, 0x00, 0x00, 0x00, 0x00, 0x61, 0x62, 0x63, 0x64, 0x00,
        ],
    ),
    (PageFormat::V2, &[], &[2, 0, 0, 0, 0, 0, 0, 0, 0, 0, 0]),
    (PageFormat::V1, &[("a", 0x62), ("c", 0x64)], b"abcd"),
    (PageFormat::V1, &[("abc", 0x64)], b"abcd"),
];

#[test]
fn streams_of_format_2(rt: HostRuntime) -> Result<(), AllocError> {
    for (format, rows, stream) in STREAMS {
        assert!(rt; root_in(rt.alloc(), format, rows)? == root_of_stream(stream));
    }
    Ok(())
}

/// The hasher that puts the key 2n on level n, for n from 0 to 255.
fn steps(alloc: Global) -> Result<LevelHasher<[u8; 2]>, AllocError> {
    let mut levels = Vec::new(alloc);
    for n in 0..256u16 {
        levels.push((number_key(2 * n), n as u8))?;
    }
    Ok(LevelHasher::new(levels))
}

/// Sets a key to its number.
fn put(ladder: &mut Ladder, key: u16) -> Result<(), AllocError> {
    ladder.upsert(number_key(key), &value_at(key))?;
    Ok(())
}

/// The hashed tree of the keys 2n on level n: each page has one node, and below it the page of the next lower level.
fn ladder(alloc: Global) -> Result<Ladder, AllocError> {
    let mut ladder: Ladder = Builder::default().with_hasher(steps(alloc)?).build(alloc);
    for n in 0..256u16 {
        put(&mut ladder, 2 * n)?;
    }
    ladder.root_hash();
    Ok(ladder)
}

// Its 256 pages stand below one another, and it gives their ranges one at a time, too.
#[test]
fn levels_go_up_to_255(rt: HostRuntime) -> Result<(), AllocError> {
    let tree = ladder(rt.alloc())?;
    assert!(rt; gives_its_list(&tree)?);
    let mut tally = Tally::new();
    tree.in_order_traversal(&mut tally);
    assert!(rt; tally.counts() == (256, 0, 256));
    Ok(())
}
