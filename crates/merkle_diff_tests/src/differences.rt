//! `diff`, by answers that were worked out by hand and by those of the Rust crate.
use crate::rust_answers::RUST_ANSWERS;
use crate::texts::{Bounds, Entry, are, entries, page_ranges, ranges};
use merkle_diff::{PageRange, PageRangeSnapshot, diff, diff_slices, diff_snapshots};
use merkle_digest::PageDigest;
use std::alloc::{AllocError, Global};
use std::process::Abort;
use std::test::Fail;

/// A line for each: the local list, the peer's list, and the ranges. In the last seven one page lies within the other, or neither does.
const WORKED_ANSWERS: &str = "\
3-7:1 | 1-5:2 | 1-3
5-9:1 | 1-3:2 | 1-3
5-9:1 | 1-5:2 | 1-5
1-5:1 | 3-7:2 |
5-5:1 | 5-5:1 |
5-5:1 | 5-5:2 | 5-5
1-4:1 1-2:2 4-4:3 | 1-5:4 1-2:2 5-5:5 | 2-5
2-15:1 2-6:2 2-2:3 5-5:4 15-15:5 | 2-15:1 2-6:2 2-2:3 5-5:4 15-15:5 |
2-15:1 2-6:2 2-2:3 5-5:4 15-15:5 | 2-11:42 2-6:2 2-2:3 5-5:4 |
0-10:9 2-6:2 4-8:3 | 0-10:1 2-6:2 4-8:3 | 0-2 8-10
0-10:3 2-6:4 | 0-10:1 4-12:2 | 0-10
0-10:8 1-3:3 7-9:2 | 0-10:1 7-9:2 1-3:3 | 0-10
0-10:7 5-6:2 3-4:4 | 0-10:1 5-6:2 8-9:3 | 0-5 6-10
1-10:1 | 1-10:2 | 1-10
2-9:1 | 1-10:2 | 1-10
2-9:1 | 1-10:1 |
0-11:1 | 1-10:2 |
1-9:1 | 2-10:2 |
2-9:1 | 1-8:2 | 1-2
2-9:1 | 1-8:1 | 1-2
";

/// Whether `diff` answers these ranges.
fn is_difference(
    alloc: Global,
    local: Vec<PageRange<'_, u64>>,
    peer: Vec<PageRange<'_, u64>>,
    answer: &[Bounds],
) -> Result<bool, AllocError> {
    Ok(are(&diff(alloc, local, peer)?, answer))
}

/// Whether it does so of page ranges with these entries.
fn differ(
    alloc: Global,
    local: &[Entry],
    peer: &[Entry],
    answer: &[Bounds],
) -> Result<bool, AllocError> {
    let local = page_ranges(alloc, local)?;
    is_difference(alloc, local, page_ranges(alloc, peer)?, answer)
}

/// A snapshot of page ranges with these entries.
fn snapshot(alloc: Global, entries: &[Entry]) -> Result<PageRangeSnapshot<u64>, AllocError> {
    PageRangeSnapshot::from_ranges(alloc, page_ranges(alloc, entries)?)
}

/// Whether `diff_snapshots` answers these ranges.
fn snapshots_differ(
    alloc: Global,
    local: &[Entry],
    peer: &[Entry],
    answer: &[Bounds],
) -> Result<bool, AllocError> {
    let local = snapshot(alloc, local)?;
    let peer = snapshot(alloc, peer)?;
    Ok(are(&diff_snapshots(alloc, &local, &peer)?, answer))
}

/// Whether both answer as a line says.
fn is_answered(alloc: Global, line: &str) -> Result<bool, AllocError> {
    let (local, rest) = line.split_once('|').ok_or(AllocError)?;
    let (peer, answer) = rest.split_once('|').ok_or(AllocError)?;
    let (local, peer) = (entries(alloc, local)?, entries(alloc, peer)?);
    let answer = ranges(alloc, answer)?;
    Ok(differ(alloc, &local, &peer, &answer)? && snapshots_differ(alloc, &local, &peer, &answer)?)
}

/// Asserts that both answer as the lines of a text say, and that it has that many lines.
fn answers_as_told(
    rt: &impl Abort,
    alloc: Global,
    text: &str,
    count: usize,
) -> Result<(), AllocError> {
    assert!(rt; text.lines().count() == count);
    for line in text.lines() {
        assert!(rt; is_answered(alloc, line)?, "at {line}");
    }
    Ok(())
}

#[test]
fn answers_as_worked_out(rt: HostRuntime) -> Result<(), AllocError> {
    answers_as_told(&rt, rt.alloc(), WORKED_ANSWERS, 20)
}

#[test]
fn answers_as_the_rust_crate(rt: HostRuntime) -> Result<(), AllocError> {
    answers_as_told(&rt, rt.alloc(), RUST_ANSWERS, 120)
}

/// The page ranges from `step * i` to `200000 - step * i` for `i` from 0 to 99,999, all with this digest: nested with a step of 1, and
/// equal with 0.
fn nested(alloc: Global, step: u64, digest: u8) -> Result<Vec<Entry>, AllocError> {
    let mut entries = Vec::new(alloc);
    for i in 0..100_000u64 {
        let start = step.wrapping_mul(i);
        entries.push((start, 200_000u64.wrapping_sub(start), digest))?;
    }
    Ok(entries)
}

#[test]
fn answers_on_100_000_nested_ranges(rt: HostRuntime) -> Result<(), AllocError> {
    for step in [0, 1] {
        let local = nested(rt.alloc(), step, 2)?;
        let peer = nested(rt.alloc(), step, 1)?;
        assert!(rt; differ(rt.alloc(), &local, &peer, &[(0, 200_000)])?);
        assert!(rt; differ(rt.alloc(), &peer, &peer, &[])?);
    }
    Ok(())
}

/// A local list, the peer's list, and the ranges.
const REFUSED: [(&[Entry], &[Entry], &[Bounds]); 4] = [
    (
        &[(1, 4, 1), (1, 2, 2), (4, 4, 3)],
        &[(1, 5, 4), (1, 2, 2), (5, 5, 5)],
        &[(2, 5)],
    ),
    (
        &[(2, 15, 1), (2, 6, 2), (2, 2, 3), (5, 5, 4), (15, 15, 5)],
        &[(2, 11, 42), (2, 6, 2), (2, 2, 3), (5, 5, 4)],
        &[],
    ),
    (
        &[(2, 15, 1), (2, 6, 2), (2, 2, 3), (5, 5, 4), (15, 15, 5)],
        &[(2, 15, 1), (2, 6, 2), (2, 2, 3), (5, 5, 4), (15, 15, 5)],
        &[],
    ),
    (
        &[(0, 10, 9), (2, 6, 2), (4, 8, 3)],
        &[(0, 10, 1), (2, 6, 2), (4, 8, 3)],
        &[(0, 2), (8, 10)],
    ),
];

/// Of a case, whether `diff` answers rightly, or wants memory; none where memory doesn't reach for the lists.
fn judged(
    alloc: Global,
    local: &[Entry],
    peer: &[Entry],
    answer: &[Bounds],
) -> Option<Result<bool, AllocError>> {
    let local = page_ranges(alloc, local).ok()?;
    let peer = page_ranges(alloc, peer).ok()?;
    Some(is_difference(alloc, local, peer, answer))
}

// Under `tests/refusals` each request for memory is refused in turn: the answer is right, or it is want of memory. Over all runs it
// has to see each of both.
#[test]
fn answers_or_wants_memory(rt: HostRuntime) {
    let mut answers = 0u8;
    let mut wants = 0u8;
    for (local, peer, answer) in REFUSED {
        match judged(rt.alloc(), local, peer, answer) {
            Some(Ok(is_right)) => {
                assert!(rt; is_right);
                answers = answers.saturating_add(1);
            }
            Some(Err(_)) => wants = wants.saturating_add(1),
            None => {}
        }
    }
    let _ = println!(rt; "answers: {answers}, wants of memory: {wants}");
}

fn page<'a>(start: &'a u64, end: &'a u64) -> Option<PageRange<'a, u64>> {
    PageRange::try_new(start, end, PageDigest::new([1; 16]))
}

// So it does with every request for memory refused.
#[test]
fn nothing_to_ask_for_takes_no_memory(rt: HostRuntime) -> Result<(), Fail> {
    for (local, peer) in [
        (page(&1, &5), None),
        (page(&1, &5), page(&3, &7)),
        (page(&2, &8), page(&3, &7)),
        (page(&2, &8), page(&2, &7)),
    ] {
        let found = diff_slices(rt.alloc(), local.as_slice(), peer.as_slice())?;
        assert!(rt; found.is_empty());
        assert!(rt; diff(rt.alloc(), local, peer)?.is_empty());
    }
    Ok(())
}
