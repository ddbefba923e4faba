//! Bytes read as a list of rows. What isn't such a list is malformed.
ghost use Rattle.std.specs.Prelude.{◌≡◌, [], ◌∷◌, ◌++◌, IfOk, OnOk, length};
ghost use Rattle.std.specs.List.{flat_map};
ghost use Rattle.c_rows.specs.Values.{by_bytes_all};
ghost use Rattle.c_values.specs.Lists.{sized_row, row_list};

use crate::value::ByteValue;
use c_values::{ListError, ROWS, all_read, body_of, pair_of};
use std::alloc::{AllocError, Global};

/// Adds a copy of a row.
fn push_row(
    alloc: Global,
    rows: &mut Vec<(Vec<u8>, ByteValue)>,
    key: &[u8],
    value: &[u8],
) -> Result<(), AllocError>
    ensures { OnOk result (by_bytes_all rows.new.items ≡ by_bytes_all rows.old.items ++ (key.now, value.now) ∷ []) }
{
    let own_key = Vec::from_slice(alloc, key)?;
    let bytes = Vec::from_slice(alloc, value)?;
    match rows.push((own_key, ByteValue { bytes })) {
        Ok(()) => Ok(()),
        Err(_) => Err(AllocError),
    }
}

/// This many rows, which the bytes are.
fn rows_of(alloc: Global, count: u64, body: &[u8]) -> Result<Vec<(Vec<u8>, ByteValue)>, ListError>
    ensures rows { IfOk result (λ rows. body.now ≡ flat_map sized_row (by_bytes_all rows.items)) }
    ensures counted { IfOk result (λ rows. length (by_bytes_all rows.items) ≡ count) }
{
    let mut rows = Vec::new(alloc);
    let mut rest = body;
    'entries: for _done in 0..count {
        let Some((key, value, behind)) = pair_of(rest) else {
            return Err(ListError::Malformed);
        };
        push_row(alloc, &mut rows, key, value)?;
        rest = behind;
    }
    all_read(rows, rest)
}

/// The rows that the bytes spell.
pub fn decode_rows(alloc: Global, bytes: &[u8]) -> Result<Vec<(Vec<u8>, ByteValue)>, ListError>
    ensures { IfOk result (λ rows. bytes.now ≡ row_list (by_bytes_all rows.items)) }
{
    let Some((count, body)) = body_of(&ROWS, bytes) else {
        return Err(ListError::Malformed);
    };
    rows_of(alloc, count, body)
}
