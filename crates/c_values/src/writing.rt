//! Numbers, strings and the mark of a list of rows as bytes. A number is eight bytes, the lowest first; a string is its length and its bytes.
ghost use Rattle.std.specs.Prelude.{◌≡◌, ◌++◌, OnOk};
ghost use Rattle.c_values.specs.Lists.{number_bytes, sized_bytes};

use std::alloc::AllocError;

/// The mark of a list of rows.
pub const ROWS: [u8; 4] = *b"MSTr";

/// Writes bytes.
pub fn put(bytes: &[u8], out: &mut Vec<u8>) -> Result<(), AllocError>
    ensures { OnOk result (out.new.items ≡ out.old.items ++ bytes.now) }
{
    out.extend_from_slice(bytes)
}

/// Writes a number.
pub fn put_number(number: usize, out: &mut Vec<u8>) -> Result<(), AllocError>
    ensures { OnOk result (out.new.items ≡ out.old.items ++ number_bytes number) }
{
    put(&(number as u64).to_le_bytes(), out)
}

/// Writes a string.
pub fn put_text(text: &[u8], out: &mut Vec<u8>) -> Result<(), AllocError>
    ensures { OnOk result (out.new.items ≡ out.old.items ++ sized_bytes text.now) }
{
    put_number(text.len(), out)?;
    put(text, out)
}
