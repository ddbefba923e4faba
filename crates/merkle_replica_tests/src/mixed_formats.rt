//! Pulls between sets of keys, all on level 0, whose trees are in different page formats.

use crate::turns::{Numbers, add_ranges, numbers, pull, shown};
use merkle_search_tree::builder::PageFormat;
use std::alloc::Global;
use std::test::Fail;

/// The keys of a set and of its peer, and what a pull by the set does: the ranges asked for, a blank before each, how many rows of the
/// peer are in them, and the keys afterwards.
pub type Case = (
    &'static str,
    &'static str,
    &'static str,
    usize,
    &'static str,
);

/// By the first and the last key of both sides. Equal sets don't look the same, so all is asked for.
pub const CASES: [Case; 8] = [
    ("1 4 5", "1 4 5", " 1-5", 3, "1 4 5"),
    ("1 4 5", "3 7", "", 0, "1 4 5"),
    ("3 7", "1 4 5", " 1-3", 1, "1 3 7"),
    ("1 9", "5", "", 0, "1 9"),
    ("5", "1 9", " 1-9", 2, "1 5 9"),
    ("", "1 2", " 1-2", 2, "1 2"),
    ("1 2", "", "", 0, "1 2"),
    ("", "", "", 0, ""),
];

/// Whether a set has the keys of a text and no others.
pub fn is_set_of(alloc: Global, replica: &Numbers, keys: &str) -> Result<bool, Fail> {
    Ok(shown(alloc, replica)?.as_str().trim_start() == keys)
}

/// Whether a pull asks for the ranges of a text, and joins this many rows.
fn pulls(
    alloc: Global,
    local: &mut Numbers,
    peer: &mut Numbers,
    wanted: &str,
    joined: usize,
) -> Result<bool, Fail> {
    let pulled = pull(local, peer).ok().ok_or("no memory")?;
    let mut ranges = String::new(alloc);
    add_ranges(alloc, &mut ranges, &pulled.ranges)?;
    Ok(ranges.as_str() == wanted && pulled.joined == joined)
}

/// Whether a pull goes as a case says, the peer keeps its rows, and the two don't look the same.
fn goes_as_said(
    alloc: Global,
    local_format: PageFormat,
    peer_format: PageFormat,
    case: &Case,
) -> Result<bool, Fail> {
    let mut local = numbers(alloc, local_format, case.0)?;
    let mut peer = numbers(alloc, peer_format, case.1)?;
    goes_between(alloc, &mut local, &mut peer, case)
}

/// The same of two sides at hand.
fn goes_between(
    alloc: Global,
    local: &mut Numbers,
    peer: &mut Numbers,
    case: &Case,
) -> Result<bool, Fail> {
    let (_, peer_keys, wanted, joined, after) = *case;
    let is_pulled = pulls(alloc, local, peer, wanted, joined)?;
    let are_rows = is_set_of(alloc, local, after)? && is_set_of(alloc, peer, peer_keys)?;
    Ok(is_pulled && are_rows && local.root_hash() != peer.root_hash())
}

#[test]
fn a_pull_between_formats_is_sound(rt: HostRuntime) -> Result<(), Fail> {
    for case in &CASES {
        let (first, second) = (PageFormat::V1, PageFormat::V2);
        assert!(rt;
            goes_as_said(rt.alloc(), first, second, case)?,
            "{} | {}",
            case.0,
            case.1
        );
        assert!(rt;
            goes_as_said(rt.alloc(), second, first, case)?,
            "{} | {}",
            case.0,
            case.1
        );
    }
    Ok(())
}
