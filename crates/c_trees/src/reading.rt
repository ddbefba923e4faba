//! Bytes read as lists of page ranges, of rows and of digests. What isn't such a list is malformed.

ghost use Rattle.std.specs.Prelude.{◌≡◌, ◌≢◌, [], ◌∷◌, ◌++◌, ℕ, List, None, Err, IfOk, IfSome, OnOk, length, map};
ghost use Rattle.std.specs.List.{AllByRecursion, flat_map};
ghost use Rattle.merkle_diff.specs.Entry.{Entry};
ghost use Rattle.merkle_search_tree.specs.Loading.{row_count};
ghost use Rattle.c_trees.specs.Lists.{AreNotBothRanges, AreNotSoManyDigests, AreNotSoManyRanges, AreNotSoManyRows, ArePageRanges};
ghost use Rattle.c_trees.specs.Lists.{BeginsWithNoDigest, BeginsWithNoRange, BeginsWithRange, DigestsRows, DigestsSoManyRows};
ghost use Rattle.c_trees.specs.Lists.{HasDigest, IsDiffOf, IsNoDigestList, IsPageRange};
ghost use Rattle.c_values.specs.Keys.{by_key};
ghost use Rattle.c_trees.specs.Wire.{digest_bytes, range_entry, digest_list};
ghost use Rattle.c_values.specs.Lists.{row_list};
ghost use Rattle.c_values.specs.declared.reading.ListError.TheVariants.{Malformed};

use crate::byte_hasher::ByteHasher;
use crate::key::Key;
use crate::wire::{DIGESTS, PAGE_RANGES, encode_found};
use c_values::{ListError, ROWS, all_read, body_of, pair_of, text_of};
use merkle_diff::{OwnedPageRange, PageRangeSnapshot, diff_snapshots};
use merkle_digest::PageDigest;
use std::alloc::{AllocError, Global};

/// How few bytes a page range is: two lengths and a digest.
const LEAST_RANGE: usize = 32;

/// The page range at the front, whose keys lie in the bytes, and the bytes after it.
fn range_of(bytes: &[u8]) -> Option<(OwnedPageRange<Key<'_>>, &[u8])>
    ensures range { IfSome result (λ r. BeginsWithRange bytes.now r.0 r.1.now) }
    ensures none { result ≡ None → BeginsWithNoRange bytes.now }
{
    let (first, last, rest) = pair_of(bytes)?;
    let (digest, rest) = rest.split_first_chunk::<16>()?;
    let range = OwnedPageRange::try_new(Key::new(first), Key::new(last), PageDigest::new(*digest))?;
    Some((range, rest))
}

/// Adds a copy of a key with a digest.
fn push_digest(
    alloc: Global,
    rows: &mut Vec<(Vec<u8>, [u8; 16])>,
    key: &[u8],
    digest: [u8; 16],
) -> Result<(), AllocError>
    ensures { OnOk result (map by_key rows.new.items ≡ map by_key rows.old.items ++ (key.now, digest) ∷ []) }
{
    let own_key = Vec::from_slice(alloc, key)?;
    match rows.push((own_key, digest)) {
        Ok(()) => Ok(()),
        Err(_) => Err(AllocError),
    }
}

/// This many page ranges, which the bytes are, and in which their keys lie. Room for them is made once.
fn ranges_of<'b>(
    alloc: Global,
    count: u64,
    body: &'b [u8],
) -> Result<Vec<OwnedPageRange<Key<'b>>>, ListError>
    ensures ranges { IfOk result (λ ranges. body.now ≡ flat_map range_entry ranges.items) }
    ensures counted { IfOk result (λ ranges. length ranges.items ≡ count) }
    ensures each { IfOk result (λ ranges. AllByRecursion IsPageRange ranges.items) }
    ensures malformed { result ≡ Err Malformed → AreNotSoManyRanges count body.now }
{
    let room = (body.len() / LEAST_RANGE).min(count as usize);
    let mut ranges = Vec::with_capacity(alloc, room)?;
    let mut rest = body;
    'entries: for _done in 0..count {
        let Some((range, behind)) = range_of(rest) else {
            return Err(ListError::Malformed);
        };
        if ranges.push(range).is_err() {
            return Err(ListError::Memory);
        }
        rest = behind;
    }
    all_read(ranges, rest)
}

/// The page ranges that the bytes spell, whose keys lie in the bytes.
pub fn decode<'b>(alloc: Global, bytes: &'b [u8]) -> Result<PageRangeSnapshot<Key<'b>>, ListError>
    ensures ranges { IfOk result (ArePageRanges bytes.now) }
    ensures malformed { result ≡ Err Malformed → (es : List (Entry (List ℕ) (List ℕ))) → ¬ (ArePageRanges bytes.now es) }
{
    let Some((count, body)) = body_of(&PAGE_RANGES, bytes) else {
        return Err(ListError::Malformed);
    };
    let ranges = ranges_of(alloc, count, body)?;
    Ok(PageRangeSnapshot::from_owned(alloc, ranges)?)
}

/// This many rows, which the bytes are, each with the digest of its value.
fn rows_of(
    alloc: Global,
    hasher: &ByteHasher,
    count: u64,
    body: &[u8],
) -> Result<Vec<(Vec<u8>, [u8; 16])>, ListError>
    ensures rows { IfOk result (DigestsSoManyRows count body.now hasher.now.key) }
    ensures malformed { result ≡ Err Malformed → AreNotSoManyRows count body.now }
{
    let mut rows = Vec::new(alloc);
    let mut rest = body;
    'entries: for _done in 0..count {
        let Some((key, value, behind)) = pair_of(rest) else {
            return Err(ListError::Malformed);
        };
        push_digest(alloc, &mut rows, key, hasher.hash_bytes(value))?;
        rest = behind;
    }
    all_read(rows, rest)
}

/// The rows that the bytes spell, each with the digest of its value.
pub fn decode_rows(
    alloc: Global,
    hasher: &ByteHasher,
    bytes: &[u8],
) -> Result<Vec<(Vec<u8>, [u8; 16])>, ListError>
    ensures rows { IfOk result (DigestsRows bytes.now hasher.now.key) }
    ensures malformed { result ≡ Err Malformed → (given : List (List ℕ × List ℕ)) → bytes.now ≢ row_list given }
{
    let Some((count, body)) = body_of(&ROWS, bytes) else {
        return Err(ListError::Malformed);
    };
    rows_of(alloc, hasher, count, body)
}

/// The key at the front and its digest, and the bytes after them.
pub fn keyed_of(bytes: &[u8]) -> Option<(&[u8], &[u8; 16], &[u8])>
    ensures keyed { IfSome result (λ r. bytes.now ≡ digest_bytes (r.0.now, r.1.now) ++ r.2.now) }
    ensures sized { IfSome result (λ r. length r.1.now ≡ 16) }
    ensures none { result ≡ None → BeginsWithNoDigest bytes.now }
{
    let (key, rest) = text_of(bytes)?;
    let (digest, rest) = rest.split_first_chunk::<16>()?;
    Some((key, digest, rest))
}

/// This many keys with digests, which the bytes are.
fn digests_of(alloc: Global, count: u64, body: &[u8]) -> Result<Vec<(Vec<u8>, [u8; 16])>, ListError>
    ensures rows { IfOk result (λ rows. body.now ≡ flat_map digest_bytes (map by_key rows.items)) }
    ensures counted { IfOk result (λ rows. row_count (map by_key rows.items) ≡ count) }
    ensures each { IfOk result (λ rows. AllByRecursion HasDigest (map by_key rows.items)) }
    ensures malformed { result ≡ Err Malformed → AreNotSoManyDigests count body.now }
{
    let mut rows = Vec::new(alloc);
    let mut rest = body;
    'entries: for _done in 0..count {
        let Some((key, digest, behind)) = keyed_of(rest) else {
            return Err(ListError::Malformed);
        };
        push_digest(alloc, &mut rows, key, *digest)?;
        rest = behind;
    }
    all_read(rows, rest)
}

/// The keys with digests that the bytes spell.
pub fn decode_digests(alloc: Global, bytes: &[u8]) -> Result<Vec<(Vec<u8>, [u8; 16])>, ListError>
    ensures rows { IfOk result (λ rows. bytes.now ≡ digest_list (map by_key rows.items)) }
    ensures each { IfOk result (λ rows. AllByRecursion HasDigest (map by_key rows.items)) }
    ensures malformed { result ≡ Err Malformed → IsNoDigestList bytes.now }
{
    let Some((count, body)) = body_of(&DIGESTS, bytes) else {
        return Err(ListError::Malformed);
    };
    digests_of(alloc, count, body)
}

/// What [`diff_snapshots`] returns on two lists of page ranges, as bytes.
pub fn differences(alloc: Global, local: &[u8], peer: &[u8]) -> Result<Vec<u8>, ListError>
    ensures answer { IfOk result (λ out. IsDiffOf local.now peer.now out.items) }
    ensures malformed { result ≡ Err Malformed → AreNotBothRanges local.now peer.now }
{
    let local = decode(alloc, local)?;
    let peer = decode(alloc, peer)?;
    let found = diff_snapshots(alloc, &local, &peer)?;
    Ok(encode_found(alloc, &found)?)
}
