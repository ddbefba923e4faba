//! Rows as bytes: the list of rows of `c/mst.h`.
//!
//! It is a mark of four bytes, the number of the rows, and the rows. A row is its key and its value, each as its length and its bytes. A number
//! is eight bytes, the lowest first.
ghost use Rattle.std.specs.Prelude.{◌≡◌, ◌++◌, OnOk, IfOk};
ghost use Rattle.c_rows.specs.Values.{by_bytes, by_bytes_all};
ghost use Rattle.c_values.specs.Lists.{sized_row, row_list};

use crate::value::ByteValue;
use c_values::{ROWS, put_number, put_text};
use std::alloc::{AllocError, Global};

/// Writes a row.
fn put_row(row: &(Vec<u8>, ByteValue), out: &mut Vec<u8>) -> Result<(), AllocError>
    ensures { OnOk result (out.new.items ≡ out.old.items ++ sized_row (by_bytes row.now)) }
{
    put_text(row.0.as_slice(), out)?;
    put_text(row.1.bytes.as_slice(), out)
}

/// The rows as bytes.
pub fn encode(alloc: Global, rows: &[(Vec<u8>, ByteValue)]) -> Result<Vec<u8>, AllocError>
    ensures { IfOk result (λ out. out.items ≡ row_list (by_bytes_all rows.now)) }
{
    let mut out = Vec::from_slice(alloc, &ROWS)?;
    put_number(rows.len(), &mut out)?;
    'rows: for row in rows {
        put_row(row, &mut out)?;
    }
    Ok(out)
}
