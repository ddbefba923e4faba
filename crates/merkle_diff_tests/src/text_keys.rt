//! Snapshots whose keys are texts, so that each clone of a key takes memory: by each call that makes one.

use merkle_diff::{OwnedPageRange, PageRangeSnapshot};
use merkle_digest::PageDigest;
use std::alloc::{AllocError, Global};

/// The ranges that the tests are on: start, end, and the number that each byte of the digest is.
const RANGES: [(&str, &str, u8); 3] = [("ant", "bee", 1), ("cat", "cat", 2), ("dog", "owl", 3)];

/// A snapshot of texts.
type Snapshot = PageRangeSnapshot<String>;

/// A snapshot of the ranges.
fn snapshot(alloc: Global) -> Result<Snapshot, AllocError> {
    let mut ranges = Vec::new(alloc);
    for (start, end, number) in RANGES {
        let start = String::from_str(alloc, start)?;
        let end = String::from_str(alloc, end)?;
        if let Some(range) = OwnedPageRange::try_new(start, end, PageDigest::new([number; 16])) {
            ranges.push(range)?;
        }
    }
    PageRangeSnapshot::from_owned(alloc, ranges)
}

/// Whether a clone of a snapshot is equal to it.
fn is_cloned(original: &Snapshot) -> Result<bool, AllocError> {
    Ok(original.try_clone()? == *original)
}

/// Whether its ranges make an equal snapshot, one at a time.
fn is_collected(alloc: Global, original: &Snapshot) -> Result<bool, AllocError> {
    Ok(PageRangeSnapshot::collect_ranges(alloc, original.iter())? == *original)
}

/// Whether they do in a vector.
fn is_made_anew(alloc: Global, original: &Snapshot) -> Result<bool, AllocError> {
    let ranges = original.iter().collect(alloc)?;
    Ok(PageRangeSnapshot::from_ranges(alloc, ranges)? == *original)
}

/// The ranges of a snapshot with keys of their own, each cloned once more.
fn owned(alloc: Global, snapshot: &Snapshot) -> Result<Vec<OwnedPageRange<String>>, AllocError> {
    let mut ranges = Vec::new(alloc);
    for range in snapshot.iter() {
        let range = OwnedPageRange::from_range(alloc, range)?;
        ranges.push(range.try_clone(alloc)?)?;
    }
    Ok(ranges)
}

/// Whether these make an equal snapshot.
fn is_made_of_owned(alloc: Global, original: &Snapshot) -> Result<bool, AllocError> {
    Ok(PageRangeSnapshot::collect_owned(alloc, owned(alloc, original)?)? == *original)
}

/// Whether the four ways to copy a snapshot give equal ones.
fn copies_are_equal(alloc: Global) -> Result<bool, AllocError> {
    let original = snapshot(alloc)?;
    Ok(
        is_cloned(&original)?
            && is_collected(alloc, &original)?
            && is_made_anew(alloc, &original)?
            && is_made_of_owned(alloc, &original)?,
    )
}

#[test]
fn copies_have_texts_of_their_own(rt: HostRuntime) {
    assert!(rt; copies_are_equal(rt.alloc()) == Ok(true));
}

// Under `tests/refusals` each request for memory is refused, those of the clones of texts too.
#[test]
fn copies_of_texts_are_right_or_want_memory(rt: HostRuntime) {
    assert!(rt; copies_are_equal(rt.alloc()) != Ok(false));
}
