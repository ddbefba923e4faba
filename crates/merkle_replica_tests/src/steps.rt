//! The three steps of a pull, with page ranges and rows that were copied in between, as over a wire.

use crate::mixed_formats::{CASES, Case, is_set_of};
use crate::turns::{Numbers, add_ranges, numbers};
use merkle_diff::PageRangeSnapshot;
use merkle_replica::JoinRefused;
use merkle_search_tree::builder::PageFormat;
use std::alloc::{AllocError, Global};
use std::test::Fail;

/// The page ranges of a set's tree, with keys of their own.
fn listed(alloc: Global, replica: &mut Numbers) -> Result<PageRangeSnapshot<[u8; 2]>, AllocError> {
    replica.hash();
    match replica.tree().serialise_page_ranges()? {
        Some(ranges) => PageRangeSnapshot::from_ranges(alloc, ranges),
        None => Err(AllocError),
    }
}

/// The ranges to ask for.
fn ask(
    local: &mut Numbers,
    theirs: &PageRangeSnapshot<[u8; 2]>,
) -> Result<Vec<([u8; 2], [u8; 2])>, AllocError> {
    local.ranges_to_ask_of(theirs)
}

/// Copies of the rows in the ranges; none where these are no ranges.
fn copied(
    alloc: Global,
    peer: &Numbers,
    ranges: &[([u8; 2], [u8; 2])],
) -> Result<Option<Vec<([u8; 2], ())>>, AllocError> {
    let mut rows = Vec::new(alloc);
    match peer.rows_within(ranges) {
        None => return Ok(None),
        Some(within) => {
            for row in within {
                rows.push(*row)?;
            }
        }
    }
    Ok(Some(rows))
}

/// Joins rows.
fn join(local: &mut Numbers, rows: Vec<([u8; 2], ())>) -> Result<(), JoinRefused<[u8; 2], ()>> {
    local.join_rows(rows)
}

/// Whether the steps ask for these ranges, join this many rows and leave these keys.
fn go_as_said(
    alloc: Global,
    local: &mut Numbers,
    peer: &mut Numbers,
    wanted: &str,
    joined: usize,
    after: &str,
) -> Result<bool, Fail> {
    let theirs = listed(alloc, peer)?;
    let ranges = ask(local, &theirs)?;
    let rows = copied(alloc, peer, &ranges)?.ok_or("no ranges")?;
    let count = rows.len();
    let is_joined = join(local, rows).is_ok();
    let mut text = String::new(alloc);
    add_ranges(alloc, &mut text, &ranges)?;
    Ok(is_joined && count == joined && text.as_str() == wanted && is_set_of(alloc, local, after)?)
}

/// Whether they do as a case says between sides in these formats.
fn go_between(
    alloc: Global,
    first: PageFormat,
    second: PageFormat,
    case: &Case,
) -> Result<bool, Fail> {
    let (local_keys, peer_keys, wanted, joined, after) = *case;
    let mut local = numbers(alloc, first, local_keys)?;
    let mut peer = numbers(alloc, second, peer_keys)?;
    go_as_said(alloc, &mut local, &mut peer, wanted, joined, after)
}

#[test]
fn steps_go_as_a_pull(rt: HostRuntime) -> Result<(), Fail> {
    for case in &CASES {
        for (first, second) in [
            (PageFormat::V1, PageFormat::V2),
            (PageFormat::V2, PageFormat::V1),
        ] {
            assert!(rt;
                go_between(rt.alloc(), first, second, case)?,
                "{} | {}",
                case.0,
                case.1
            );
        }
    }
    Ok(())
}
