//! Four pulls by turns between two sets of keys that are all on level 0, in both page formats.

use merkle_replica::{PullError, Pulled, Replica, TurnsError, pull_by_turns};
use merkle_search_tree::builder::{Builder, PageFormat};
use std::alloc::{AllocError, Global};
use std::test::Fail;
use test_keys::{LevelHasher, number_key};

/// A set of number keys.
pub type Numbers = Replica<[u8; 2], (), LevelHasher<[u8; 2]>, 32>;

/// A line for each: the keys of a and of b, how many rows each of four pulls joined, and the keys of both afterwards.
const TURNS: &str = "\
1 4 5 | 3 7 | 0 1 3 5 | 1 3 4 5 7\n\
1 9 | 5 | 0 2 3 0 | 1 5 9\n\
3 7 | 1 4 5 | 1 3 5 0 | 1 3 4 5 7\n\
| 1 2 | 2 0 0 0 | 1 2\n\
1 2 | | 0 2 0 0 | 1 2\n\
| | 0 0 0 0 |\n\
";

/// Puts a key.
fn put(replica: &mut Numbers, number: u16) -> Result<(), AllocError> {
    replica.put(number_key(number), ())
}

/// Makes `n` pulls by turns.
fn turn(
    alloc: Global,
    a: &mut Numbers,
    b: &mut Numbers,
    n: usize,
) -> Result<Vec<Pulled<[u8; 2]>>, TurnsError<[u8; 2]>> {
    pull_by_turns(alloc, a, b, n)
}

/// The set of the keys of a text, all on level 0, with a tree in a page format.
pub fn numbers(alloc: Global, format: PageFormat, text: &str) -> Result<Numbers, Fail> {
    let hasher = LevelHasher::new(Vec::new(alloc));
    let builder = Builder::default().with_page_format(format);
    let mut replica = Numbers::new(alloc, builder.with_hasher(hasher));
    for word in text.split_whitespace() {
        put(&mut replica, word.parse::<u16>()?)?;
    }
    Ok(replica)
}

/// The keys of a set, a blank before each.
pub fn shown(alloc: Global, replica: &Numbers) -> Result<String, AllocError> {
    let mut text = String::new(alloc);
    for (key, _) in replica.rows() {
        let number = u16::from_be_bytes(*key);
        text.push_str(format!(in alloc; " {number}")?.as_str())?;
    }
    Ok(text)
}

/// How many rows each of these pulls joined, a blank before each.
fn counts(alloc: Global, all: &[Pulled<[u8; 2]>]) -> Result<String, AllocError> {
    let mut text = String::new(alloc);
    for pulled in all {
        let count = pulled.joined;
        text.push_str(format!(in alloc; " {count}")?.as_str())?;
    }
    Ok(text)
}

/// Whether four pulls join as many rows as a text says.
fn join_as_many(
    alloc: Global,
    a: &mut Numbers,
    b: &mut Numbers,
    wanted: &str,
) -> Result<bool, AllocError> {
    match turn(alloc, a, b, 4) {
        Ok(all) => Ok(counts(alloc, &all)?.as_str() == wanted.trim_end()),
        Err(_) => Err(AllocError),
    }
}

/// Whether a set has the keys of a text.
fn is_shown(alloc: Global, replica: &Numbers, wanted: &str) -> Result<bool, AllocError> {
    Ok(shown(alloc, replica)?.as_str() == wanted)
}

/// What a line says: the keys of a and of b, the counts, and the keys of both afterwards.
#[derive(Clone, Copy)]
struct Line<'t> {
    a_keys: &'t str,
    b_keys: &'t str,
    counts: &'t str,
    joined: &'t str,
}

/// The parts of a line.
fn parts(text: &str) -> Option<Line<'_>> {
    let (a_keys, rest) = text.split_once('|')?;
    let (b_keys, rest) = rest.split_once('|')?;
    let (counts, joined) = rest.split_once('|')?;
    Some(Line {
        a_keys,
        b_keys,
        counts,
        joined,
    })
}

/// Whether four pulls between sets in a page format go as a line says.
fn go_as_said(alloc: Global, format: PageFormat, line: &Line<'_>) -> Result<bool, Fail> {
    let mut a = numbers(alloc, format, line.a_keys)?;
    let mut b = numbers(alloc, format, line.b_keys)?;
    let are_counted = join_as_many(alloc, &mut a, &mut b, line.counts)?;
    Ok(are_counted && is_shown(alloc, &a, line.joined)? && is_shown(alloc, &b, line.joined)?)
}

#[test]
fn four_turns_join_both(rt: HostRuntime) -> Result<(), Fail> {
    for text in TURNS.lines() {
        let line = parts(text).ok_or("a part is missing")?;
        assert!(rt; go_as_said(rt.alloc(), PageFormat::V1, &line)?, "{text}");
        assert!(rt; go_as_said(rt.alloc(), PageFormat::V2, &line)?, "{text}");
    }
    Ok(())
}

/// Adds these ranges to a text, a blank before each.
pub fn add_ranges(
    alloc: Global,
    text: &mut String,
    ranges: &[([u8; 2], [u8; 2])],
) -> Result<(), AllocError> {
    for (first, last) in ranges {
        let first = u16::from_be_bytes(*first);
        let last = u16::from_be_bytes(*last);
        text.push_str(format!(in alloc; " {first}-{last}")?.as_str())?;
    }
    Ok(())
}

/// Pulls from a peer.
pub fn pull(a: &mut Numbers, b: &mut Numbers) -> Result<Pulled<[u8; 2]>, PullError<[u8; 2]>> {
    a.pull(b)
}
