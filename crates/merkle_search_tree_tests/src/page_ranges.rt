//! Page ranges and counts of digests, by a table that was worked out by hand.

use merkle_diff::PageRange;
use std::alloc::{AllocError, Global};
use std::test::Fail;
use test_trees::trees::{Tree, gives_its_list, keys_of, tree};

/// A line for each: the keys of a tree with their levels, how many pages it has, and their spans.
const SPANS: &str = "\
2:64 6:20 4:20 3:52 5:64 | 4 | 2-6 3-4 4-4 6-6\n\
7:2 11:2 3:1 4:1 6:1 2:0 5:0 15:1 42:0 | 6 | 2-42 2-6 2-2 5-5 15-42 42-42\n\
1:1 4:1 2:0 3:0 | 2 | 1-4 2-3\n\
1:0 0:1 | 2 | 0-1 1-1\n\
7:3 | 1 | 7-7\n\
| 1 |\n\
";

/// The span of a page range, after a space.
fn span(alloc: Global, range: &PageRange<'_, [u8; 2]>) -> Result<String, AllocError> {
    let start = u16::from_be_bytes(*range.start());
    let end = u16::from_be_bytes(*range.end());
    format!(in alloc; " {start}-{end}")
}

/// The spans of the page ranges of a hashed tree.
fn spans(alloc: Global, tree: &Tree) -> Result<String, AllocError> {
    let mut spans = String::new(alloc);
    for range in &tree.serialise_page_ranges()?.ok_or(AllocError)? {
        spans.push_str(span(alloc, range)?.as_str())?;
    }
    Ok(spans)
}

/// The keys of a line, how many pages it tells, and their spans.
fn parts(line: &str) -> Option<(&str, usize, &str)> {
    let (keys, rest) = line.split_once('|')?;
    let (count, spans) = rest.split_once('|')?;
    Some((keys, count.trim().parse::<usize>().ok()?, spans))
}

/// Whether a tree has this many pages, and makes each digest once.
fn has_pages(tree: &mut Tree, pages: usize) -> bool {
    tree.pages_to_hash() == pages
        && tree.root_hash_counted().1 == pages
        && tree.pages_to_hash() == 0
        && tree.root_hash_counted().1 == 0
}

/// Whether the tree of these keys has this many pages, and their spans as a list and one at a time.
fn has_spans(
    alloc: Global,
    keys: &[(u16, u8)],
    pages: usize,
    wanted: &str,
) -> Result<bool, AllocError> {
    let mut tree = tree(alloc, keys)?;
    Ok(
        has_pages(&mut tree, pages)
            && spans(alloc, &tree)?.as_str() == wanted
            && gives_its_list(&tree)?,
    )
}

#[test]
fn spans_are_those_of_the_table(rt: HostRuntime) -> Result<(), Fail> {
    for line in SPANS.lines() {
        let (keys, pages, wanted) = parts(line).ok_or("no spans")?;
        let keys = keys_of(rt.alloc(), keys)?;
        assert!(rt; has_spans(rt.alloc(), &keys, pages, wanted)?, "at {line}");
    }
    Ok(())
}
