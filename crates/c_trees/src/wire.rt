//! Page ranges, and ranges of keys, as bytes.
//!
//! A list is a mark of four bytes, the number of its entries, and the entries. An entry is its first key and its last key, each as
//! its length and its bytes, and after them, in a list of page ranges, the 16 bytes of the page's digest; in a list of rows it is a
//! key and a value. A number is eight bytes, the lowest first.

ghost use Rattle.std.specs.Prelude.{◌≡◌, ◌+◌, ◌++◌, OnOk, IfOk, IfSome, length, map};
ghost use Rattle.merkle_diff.specs.DiffRange.{span, spans};
ghost use Rattle.merkle_diff.specs.PageRange.{entry, entries};
ghost use Rattle.merkle_tree_theory.specs.Page.{pair_of};
ghost use Rattle.c_trees.specs.Lists.{ArePageRanges, IsLengthOf, IsPageRange, entry_by_bytes};
ghost use Rattle.c_values.specs.Keys.{by_key};
ghost use Rattle.c_trees.specs.Wire.{digest_bytes, range_entry, span_bytes, key_ranges_bytes};
ghost use Rattle.c_values.specs.Lists.{sized_bytes};

use crate::key::Key;
use c_values::{put, put_number, put_text};
use merkle_diff::{DiffRange, PageRange};
use merkle_search_tree::{Node, PageRangeIter};
use std::alloc::{AllocError, Global};

/// How many bytes stand in front of the entries of a list: the mark and their number.
const FRONT: usize = 12;

/// The mark of a list of page ranges.
pub const PAGE_RANGES: [u8; 4] = *b"MSTp";
/// The mark of a list of ranges of keys.
pub const KEY_RANGES: [u8; 4] = *b"MSTk";
/// The mark of a list of digests.
pub const DIGESTS: [u8; 4] = *b"MSTd";

/// Writes a page range.
fn put_range(range: &PageRange<'_, Vec<u8>>, out: &mut Vec<u8>) -> Result<(), AllocError>
    ensures written { OnOk result (out.new.items ≡ out.old.items ++ range_entry (entry_by_bytes (entry range.now))) }
    ensures range { OnOk result (IsPageRange (entry_by_bytes (entry range.now))) }
{
    put_text(range.start().as_slice(), out)?;
    put_text(range.end().as_slice(), out)?;
    put(range.hash().as_bytes(), out)
}

/// Writes a range of keys.
fn put_found(range: &DiffRange<'_, Key<'_>>, out: &mut Vec<u8>) -> Result<(), AllocError>
    ensures { OnOk result (out.new.items ≡ out.old.items ++ span_bytes (span range.now)) }
{
    put_text(range.start().bytes(), out)?;
    put_text(range.end().bytes(), out)
}

/// Writes the key of a node and the digest of its value.
pub fn put_digest(node: &Node<16, Vec<u8>>, out: &mut Vec<u8>) -> Result<(), AllocError>
    ensures { OnOk result (out.new.items ≡ out.old.items ++ digest_bytes (by_key (pair_of node.now))) }
{
    put_text(node.key().as_slice(), out)?;
    put(node.value_hash().as_bytes(), out)
}

/// The page ranges as bytes.
pub fn encode(alloc: Global, ranges: &[PageRange<'_, Vec<u8>>]) -> Result<Vec<u8>, AllocError>
    ensures { IfOk result (λ out. ArePageRanges out.items (map entry_by_bytes (entries ranges.now))) }
{
    let mut out = Vec::new(alloc);
    put(&PAGE_RANGES, &mut out)?;
    put_number(ranges.len(), &mut out)?;
    'entries: for range in ranges {
        put_range(range, &mut out)?;
    }
    Ok(out)
}

/// How many bytes page ranges are, as [`encode`] writes them, of which none is written. Refused beyond what memory can have.
pub fn encoded_len(ranges: PageRangeIter<'_, 16, Vec<u8>>) -> Result<usize, AllocError>
    ensures { IfOk result (λ len. IsLengthOf (map entry_by_bytes ranges.entry) len) }
{
    let mut len = FRONT;
    'entries: for range in ranges {
        len = with_range(len, &range).ok_or(AllocError)?;
    }
    Ok(len)
}

/// The number, and how many bytes a page range is; `None` beyond what a number can be.
fn with_range(len: usize, range: &PageRange<'_, Vec<u8>>) -> Option<usize>
    ensures sum { IfSome result (λ sum. sum ≡ len + length (range_entry (entry_by_bytes (entry range.now)))) }
    ensures range { IfSome result (λ sum. IsPageRange (entry_by_bytes (entry range.now))) }
{
    let first = with_text(len, range.start().as_slice())?;
    let last = with_text(first, range.end().as_slice())?;
    let sum = with_bytes(last, range.hash().as_bytes())?;
    Some(sum)
}

/// The number, and how many bytes a string is with its length.
fn with_text(len: usize, text: &[u8]) -> Option<usize>
    ensures { IfSome result (λ sum. sum ≡ len + length (sized_bytes text.now)) }
{
    let behind = len.checked_add(8)?;
    let sum = with_bytes(behind, text)?;
    Some(sum)
}

/// The number, and how many bytes these are.
fn with_bytes(len: usize, bytes: &[u8]) -> Option<usize>
    ensures { IfSome result (λ sum. sum ≡ len + length bytes.now) }
{
    let sum = len.checked_add(bytes.len())?;
    Some(sum)
}

/// The ranges of keys as bytes.
pub fn encode_found(alloc: Global, found: &[DiffRange<'_, Key<'_>>]) -> Result<Vec<u8>, AllocError>
    ensures { IfOk result (λ out. out.items ≡ key_ranges_bytes (spans found.now)) }
{
    let mut out = Vec::new(alloc);
    put(&KEY_RANGES, &mut out)?;
    put_number(found.len(), &mut out)?;
    'entries: for range in found {
        put_found(range, &mut out)?;
    }
    Ok(out)
}
