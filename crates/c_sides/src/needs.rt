//! What a question needs of the rows, as a list of rows of `c/mst.h`. For each key or gap of the question it has an entry, whose first string is the
//! first key of which a row is needed, and whose second says where the keys end: a byte 0, nowhere; a byte 1, below the bytes after it; a byte 2, with
//! the first.
ghost use Rattle.std.specs.Prelude.{◌≡◌, ◌++◌, map, OnOk, IfOk};
ghost use Rattle.c_values.specs.Lists.{sized_row, row_list};
ghost use Rattle.c_sides.specs.Needs.{NeedsWhat, end_mark, first_key, gap_need, key_need};

use c_values::{ROWS, put_number, put_text};
use merkle_wire::{OwnedGap, Question, Wanted};
use std::alloc::{AllocError, Global};

/// The list of what a question needs of the rows, where it needs any.
pub fn needs_of(alloc: Global, asked: &Question<Vec<u8>>) -> Result<Option<Vec<u8>>, AllocError>
    ensures { IfOk result (NeedsWhat asked.now) }
{
    match asked {
        Question::Root(_) => Ok(None),
        Question::Outlines(_, _) => Ok(None),
        Question::Nodes(_, _) => Ok(None),
        Question::RowsAt(keys) => Ok(Some(list_keys(alloc, keys)?)),
        Question::RowsIn(gaps) => Ok(Some(list_gaps(alloc, gaps)?)),
    }
}

/// The needs of keys.
fn list_keys(alloc: Global, keys: &[Wanted<Vec<u8>>]) -> Result<Vec<u8>, AllocError>
    ensures { IfOk result (λ out. out.items ≡ row_list (map key_need keys.now)) }
{
    let mut out = Vec::from_slice(alloc, &ROWS)?;
    put_number(keys.len(), &mut out)?;
    'keys: for wanted in keys {
        put_key(wanted, &mut out)?;
    }
    Ok(out)
}

/// Writes the need of a key.
fn put_key(wanted: &Wanted<Vec<u8>>, out: &mut Vec<u8>) -> Result<(), AllocError>
    ensures { OnOk result (out.new.items ≡ out.old.items ++ sized_row (key_need wanted.now)) }
{
    put_text(wanted.key.as_slice(), out)?;
    put_text(&[2], out)
}

/// The needs of gaps.
fn list_gaps(alloc: Global, gaps: &[OwnedGap<Vec<u8>>]) -> Result<Vec<u8>, AllocError>
    ensures { IfOk result (λ out. out.items ≡ row_list (map gap_need gaps.now)) }
{
    let mut out = Vec::from_slice(alloc, &ROWS)?;
    put_number(gaps.len(), &mut out)?;
    'gaps: for gap in gaps {
        put_gap(alloc, gap, &mut out)?;
    }
    Ok(out)
}

/// Writes the need of a gap.
fn put_gap(alloc: Global, gap: &OwnedGap<Vec<u8>>, out: &mut Vec<u8>) -> Result<(), AllocError>
    ensures { OnOk result (out.new.items ≡ out.old.items ++ sized_row (gap_need gap.now)) }
{
    let first = first_key(alloc, &gap.after)?;
    let end = end_of(alloc, &gap.before)?;
    put_text(first.as_slice(), out)?;
    put_text(end.as_slice(), out)
}

/// The least byte string above a bound.
fn first_key(alloc: Global, after: &Option<Vec<u8>>) -> Result<Vec<u8>, AllocError>
    ensures { IfOk result (λ first. first.items ≡ first_key after.now) }
{
    match after {
        None => Ok(Vec::new(alloc)),
        Some(bound) => {
            let mut first = Vec::from_slice(alloc, bound.as_slice())?;
            first.extend_from_slice(&[0])?;
            Ok(first)
        }
    }
}

/// Where the keys below a bound end.
fn end_of(alloc: Global, before: &Option<Vec<u8>>) -> Result<Vec<u8>, AllocError>
    ensures { IfOk result (λ end. end.items ≡ end_mark before.now) }
{
    match before {
        None => Vec::from_slice(alloc, &[0]),
        Some(bound) => {
            let mut end = Vec::from_slice(alloc, &[1])?;
            end.extend_from_slice(bound.as_slice())?;
            Ok(end)
        }
    }
}
