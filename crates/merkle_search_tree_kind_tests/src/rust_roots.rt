//! Root hashes and page ranges in format 1 against answers of the Rust crate merkle-search-tree 0.8.0, and root hashes in format 2
//! against those of a second program.

use merkle_digest::SipHasher;
use merkle_search_tree::MerkleSearchTree;
use merkle_search_tree::builder::{Builder, PageFormat};
use std::alloc::{AllocError, Global};

/// A line for each size of a default tree: the root hash, the number of page ranges, and the spans of the first of them. The keys
/// are the texts k0000, k0001 and so on, and the value of the key of i is i * i.
const RUST_ROOTS: &str = "\
0 UEnXR4Cj4H1CAqtH1M7y9A== 0\n\
1 yHnxQb2UAvJQMlq9TWK/Cw== 1 k0000..k0000\n\
2 UcQ5h58fM5IX92I63UOgsg== 1 k0000..k0001\n\
3 pLZyCR/wNV0QBAMaJty16w== 1 k0000..k0002\n\
5 zAihizUd5O/Nd/cyN+jwGw== 1 k0000..k0004\n\
10 HVI1Mk1vJf+tDE1tYEwpJg== 1 k0000..k0009\n\
16 aI4QytrOks1BxM2/es04iA== 1 k0000..k0015\n\
17 boyKS+QoEkBW4fSMhdqTXQ== 1 k0000..k0016\n\
50 bmkSJ1ODSkrpVzq2osfpLA== 3 k0000..k0049 k0000..k0035 k0037..k0049\n\
100 +R+izyBIErciCldqlvg9XA== 5 k0000..k0099 k0000..k0035 k0037..k0073 k0075..k0082 k0084..k0099\n\
256 rDUqEnfVpt1fJvmN1DHrZw== 15 k0000..k0255 k0000..k0150 k0000..k0035 k0037..k0073 k0075..k0082 k0084..k0147\n\
257 cscU0iiFxD7TH8M0gdN/Dg== 15 k0000..k0256 k0000..k0150 k0000..k0035 k0037..k0073 k0075..k0082 k0084..k0147\n\
500 4PdVJBx9NcNCRN9bUI9aAA== 31 k0000..k0499 k0000..k0323 k0000..k0150 k0000..k0035 k0037..k0073 k0075..k0082\n\
1000 FuxO+wPeHVvuPBPmhAUZFg== 65 k0000..k0999 k0000..k0323 k0000..k0150 k0000..k0035 k0037..k0073 k0075..k0082\n\
2000 dANiWnICsGau1PiWojttvA== 124 k0000..k1999 k0000..k0323 k0000..k0150 k0000..k0035 k0037..k0073 k0075..k0082\n\
";

/// A line for each size of a tree of the same keys and values in format 2: the root hash.
const ROOTS_OF_FORMAT_2: &str = "\
0 9/FwCJ+cWkM577LEunsrHQ==\n\
1 KIFCoxJAxub0v94KVeZbYQ==\n\
2 wU4DEvi5BsZkmkyuhYtCww==\n\
3 K7K7r7tGv5esIdslX3KzUg==\n\
5 WwvS5M9qBCIM1rXjazys4w==\n\
10 /1qFjA1TCxGinLmUpNLdwg==\n\
16 jwi0YiZfgs5sUyZxBKMXzA==\n\
17 ieBcg6uxMsPZXRhC8HJXvw==\n\
40 uRnYNjfGEUGU49YF1VtuBQ==\n\
64 LteONoG3lzpXLdoHdeUUZg==\n\
100 iswy42fCOg4qStLKIFV8KQ==\n\
256 9LEyT7GLN1IkOQMCJBt4og==\n\
500 rNTNqCIFy0KHgG13xP0GFw==\n\
1000 AOKYcKgCzGnwzaasl2I7fg==\n\
2000 6ttDSF22jXS7XYF1aFbpVA==\n\
";

/// The default tree of the tests.
type Squares = MerkleSearchTree<String, u64, SipHasher, 16>;

/// Sets the key of a number to its square.
fn put(alloc: Global, tree: &mut Squares, i: u64) -> Result<(), AllocError> {
    tree.upsert(format!(in alloc; "k{i:04}")?, &i.wrapping_mul(i))?;
    Ok(())
}

/// The tree of that many keys in a page format, with the default hasher and level base.
fn squares(alloc: Global, format: PageFormat, size: u64) -> Result<Squares, AllocError> {
    let mut tree = Builder::default().with_page_format(format).build(alloc);
    for i in 0..size {
        put(alloc, &mut tree, i)?;
    }
    Ok(tree)
}

/// The same keys and values in format 1, loaded in key order.
fn loaded(alloc: Global, size: u64) -> Result<Squares, AllocError> {
    let mut rows = Vec::new(alloc);
    for i in 0..size {
        rows.push((format!(in alloc; "k{i:04}")?, i.wrapping_mul(i)))?;
    }
    match MerkleSearchTree::from_ascending(alloc, Builder::default(), rows) {
        Ok(tree) => Ok(tree),
        Err(_) => Err(AllocError),
    }
}

/// The number of page ranges of a hashed tree, and the spans of the first six, each after a space.
fn ranges(alloc: Global, tree: &Squares) -> Result<String, AllocError> {
    let ranges = tree.serialise_page_ranges()?.ok_or(AllocError)?;
    let mut text = format!(in alloc; " {}", ranges.len())?;
    for range in ranges.iter().take(6) {
        text.push_str(format!(in alloc; " {}..{}", range.start(), range.end())?.as_str())?;
    }
    Ok(text)
}

/// The line of a tree of that many keys.
fn line_of(alloc: Global, size: u64, mut tree: Squares) -> Result<String, AllocError> {
    let mut line = format!(in alloc; "{size} {}", tree.root_hash())?;
    line.push_str(ranges(alloc, &tree)?.as_str())?;
    Ok(line)
}

/// The number that a line begins with. It fails where there is none.
fn size_of(line: &str) -> Result<u64, AllocError> {
    let (size, _) = line.split_once(' ').ok_or(AllocError)?;
    size.parse::<u64>().ok().ok_or(AllocError)
}

#[test]
fn roots_and_ranges_are_those_of_the_rust_crate(rt: HostRuntime) -> Result<(), AllocError> {
    let alloc = rt.alloc();
    for line in RUST_ROOTS.lines() {
        let size = size_of(line)?;
        let upserted = squares(alloc, PageFormat::V1, size)?;
        assert!(rt; line_of(alloc, size, upserted)?.as_str() == line);
        assert!(rt; line_of(alloc, size, loaded(alloc, size)?)?.as_str() == line);
    }
    Ok(())
}

#[test]
fn roots_of_format_2(rt: HostRuntime) -> Result<(), AllocError> {
    for line in ROOTS_OF_FORMAT_2.lines() {
        let size = size_of(line)?;
        let mut tree = squares(rt.alloc(), PageFormat::V2, size)?;
        assert!(rt; format!(in rt.alloc(); "{size} {}", tree.root_hash())?.as_str() == line);
    }
    Ok(())
}
