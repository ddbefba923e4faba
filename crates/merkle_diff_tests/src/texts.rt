//! Lists of page ranges, and of ranges, as texts: `3-7:1` is the page range from 3 to 7 whose digest has 16 bytes 1.
use merkle_diff::{DiffRange, PageRange};
use merkle_digest::PageDigest;
use std::alloc::{AllocError, Global};

/// A page range: its bounds, and the byte of its digest.
pub type Entry = (u64, u64, u8);

/// The bounds of a range.
pub type Bounds = (u64, u64);

/// The bounds of a word.
fn bounds(word: &str) -> Option<Bounds> {
    let (start, end) = word.split_once('-')?;
    Some((start.parse::<u64>().ok()?, end.parse::<u64>().ok()?))
}

/// The page range of a word.
fn entry(word: &str) -> Option<Entry> {
    let (range, digest) = word.split_once(':')?;
    let (start, end) = bounds(range)?;
    Some((start, end, digest.parse::<u8>().ok()?))
}

/// The page ranges of a text. It fails, too, where a word is none.
pub fn entries(alloc: Global, text: &str) -> Result<Vec<Entry>, AllocError> {
    let mut entries = Vec::new(alloc);
    for word in text.split_whitespace() {
        entries.push(entry(word).ok_or(AllocError)?)?;
    }
    Ok(entries)
}

/// The ranges of a text. It fails, too, where a word is none.
pub fn ranges(alloc: Global, text: &str) -> Result<Vec<Bounds>, AllocError> {
    let mut ranges = Vec::new(alloc);
    for word in text.split_whitespace() {
        ranges.push(bounds(word).ok_or(AllocError)?)?;
    }
    Ok(ranges)
}

/// The page ranges of entries. One whose bounds are not in order is left out.
pub fn page_ranges(
    alloc: Global,
    entries: &[Entry],
) -> Result<Vec<PageRange<'_, u64>>, AllocError> {
    let mut ranges = Vec::with_capacity(alloc, entries.len())?;
    for entry in entries {
        if let Some(range) = PageRange::try_new(
            &entry.0,
            &entry.1,
            PageDigest::new([entry.2; 16]),
        ) {
            ranges.push(range)?;
        }
    }
    Ok(ranges)
}

/// Whether ranges have these bounds.
pub fn are(found: &[DiffRange<'_, u64>], wanted: &[Bounds]) -> bool {
    if found.len() != wanted.len() {
        return false;
    }
    for i in 0..found.len() {
        if (*found[i].start(), *found[i].end()) != wanted[i] {
            return false;
        }
    }
    true
}
