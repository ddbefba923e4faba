//! What is sent and what came in a pull: lists, by the encodings of `merkle_bytes`.
ghost use Rattle.std.specs.Prelude.{◌≡◌, ◌<◌, ◌^◌, IfOk, OnOk, Err, length, map};
ghost use Rattle.std.specs.List.{AllByRecursion};
ghost use Rattle.merkle_bytes.specs.Encodings.{list_bytes};
ghost use Rattle.merkle_diff.specs.PageRange.{entries};
ghost use Rattle.merkle_replica.specs.Answers.{spans_of};
ghost use Rattle.examples.specs.Wire.{AreNoList, AreNoPageRanges, AreNoRanges, AreNoRows, IsNameRange, HasWideNumber, TellsHowMany, page_range_bytes, range_bytes, name_row_bytes};
ghost use Rattle.examples.specs.declared.wire.WireFault.TheVariants.{Malformed};

use crate::wire::WireFault;
use merkle_bytes::laws::{bytes_tell_counts, bytes_tell_lists};
use merkle_bytes::{Decode, Encode, Reader, decode_list, encode_list};
use merkle_diff::{PageRange, PageRangeSnapshot};
use std::alloc::{AllocError, Global};

/// A list as bytes.
fn write_list<T: Encode>(alloc: Global, list: &[T]) -> Result<Vec<u8>, AllocError>
    ensures { IfOk result (λ bytes. bytes.items ≡ list_bytes T.encoding list.now) }
{
    let mut bytes = Vec::new(alloc);
    encode_list(list, &mut bytes)?;
    Ok(bytes)
}

/// The list whose bytes came, and nothing after it.
fn read_list<T: Decode>(alloc: Global, bytes: &[u8]) -> Result<Vec<T>, WireFault>
    ensures read { IfOk result (λ list. bytes.now ≡ list_bytes T.encoding list.items) }
    ensures values { IfOk result (λ list. AllByRecursion T.is_value list.items) }
    ensures malformed { result ≡ Err Malformed → AreNoList T.is_value T.encoding bytes.now }
{
    bytes_tell_lists::<T>();
    let mut reader = Reader::new(alloc, bytes);
    let list = decode_list(&mut reader)?;
    reader.end()?;
    Ok(list)
}

/// A digest has 16 bytes.
fn digest_len(digest: &[u8; 16])
    ensures { length digest.now ≡ 16 }
{}

/// Page ranges as bytes. It looks at the digest of each.
pub fn write_page_ranges(
    alloc: Global,
    ranges: &[PageRange<'_, String>],
) -> Result<Vec<u8>, AllocError>
    ensures bytes { IfOk result (λ bytes. bytes.items ≡ list_bytes page_range_bytes (entries ranges.now)) }
    ensures each { OnOk result (AllByRecursion IsNameRange (entries ranges.now)) }
{
    'digests: for range in ranges {
        digest_len(range.hash().as_bytes());
    }
    let bytes = write_list(alloc, ranges)?;
    Ok(bytes)
}

/// The page ranges whose bytes came.
pub fn read_page_ranges(alloc: Global, bytes: &[u8]) -> Result<PageRangeSnapshot<String>, WireFault>
    ensures read { IfOk result (λ theirs. bytes.now ≡ list_bytes page_range_bytes theirs) }
    ensures each { IfOk result (AllByRecursion IsNameRange) }
    ensures malformed { result ≡ Err Malformed → AreNoPageRanges bytes.now }
{
    let theirs = PageRangeSnapshot::from_owned(alloc, read_list(alloc, bytes)?)?;
    Ok(theirs)
}

/// Ranges of names as bytes.
pub fn write_ranges(alloc: Global, ranges: &[(String, String)]) -> Result<Vec<u8>, AllocError>
    ensures { IfOk result (λ bytes. bytes.items ≡ list_bytes range_bytes (spans_of ranges.now)) }
{
    let bytes = write_list(alloc, ranges)?;
    Ok(bytes)
}

/// The ranges of names whose bytes came.
pub fn read_ranges(alloc: Global, bytes: &[u8]) -> Result<Vec<(String, String)>, WireFault>
    ensures read { IfOk result (λ ranges. bytes.now ≡ list_bytes range_bytes (spans_of ranges.items)) }
    ensures malformed { result ≡ Err Malformed → AreNoRanges bytes.now }
{
    let ranges = read_list(alloc, bytes)?;
    Ok(ranges)
}

/// A number of 64 bits is one.
fn number_fits(number: u64)
    ensures { number < 2 ^ 64 }
{}

/// Rows as bytes. It looks at the number of each.
pub fn write_rows(alloc: Global, rows: &[&(String, u64)]) -> Result<Vec<u8>, AllocError>
    ensures bytes { IfOk result (λ bytes. bytes.items ≡ list_bytes name_row_bytes (map (λ row. row.now) rows.now)) }
    ensures each { OnOk result (AllByRecursion HasWideNumber (map (λ row. row.now) rows.now)) }
{
    'numbers: for row in rows {
        number_fits(row.1);
    }
    let bytes = write_list(alloc, rows)?;
    Ok(bytes)
}

/// The rows whose bytes came.
pub fn read_rows(alloc: Global, bytes: &[u8]) -> Result<Vec<(String, u64)>, WireFault>
    ensures read { IfOk result (λ rows. bytes.now ≡ list_bytes name_row_bytes rows.items) }
    ensures each { IfOk result (λ rows. AllByRecursion HasWideNumber rows.items) }
    ensures malformed { result ≡ Err Malformed → AreNoRows bytes.now }
{
    read_list(alloc, bytes)
}

/// How many rows are to come, by the first bytes of their message: it need not be whole yet.
///
/// # Errors
///
/// [`WireFault::Malformed`] where the bytes begin with no count.
pub fn rows_to_come(alloc: Global, bytes: &[u8]) -> Result<u64, WireFault>
    ensures told { IfOk result (TellsHowMany bytes.now) }
{
    bytes_tell_counts();
    let mut reader = Reader::new(alloc, bytes);
    let count = reader.count()?;
    Ok(count)
}
