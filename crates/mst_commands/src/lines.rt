//! Keys and values in lines.
ghost use Rattle.std.specs.Prelude.{◌≡◌, ◌-◌, [], ◌∷◌, length, is_some, filter_map, IfOk, IfErr, OnOk};
ghost use Rattle.std.specs.Io.KnownBytes.{Appends};
ghost use Rattle.mst_commands.specs.Malformed.{IsCommandFailure};
ghost use Rattle.mst_commands.specs.Lines.{text_line, json_line, row_line, pair_within, listed_lines};

use crate::bounds::Listing;
use crate::escape::{escape, json_string};
use crate::fault::Fault;
use crate::values::{as_member, in_line};
use std::alloc::Global;
use std::io::Write;
use store_file::{Register, Value};

/// Writes a key and its value as a line.
fn write_line<W: Write>(alloc: Global, out: &mut W, key: &str, value: &Value) -> Result<(), Fault>
    ensures bytes { OnOk result (Appends (W.contents out.old) (W.contents out.new) (text_line key.now value.now)) }
    ensures faults { IfErr result IsCommandFailure }
{
    let key = escape(alloc, key)?;
    let value = in_line(alloc, value)?;
    out.write_all(key.as_bytes())?;
    out.write_all(b"\t")?;
    out.write_all(value.as_bytes())?;
    out.write_all(b"\n")?;
    Ok(())
}

/// Writes a key and its value as an object of JSON.
fn write_object<W: Write>(alloc: Global, out: &mut W, key: &str, value: &Value) -> Result<(), Fault>
    ensures bytes { OnOk result (Appends (W.contents out.old) (W.contents out.new) (json_line key.now value.now)) }
    ensures faults { IfErr result IsCommandFailure }
{
    let key = json_string(alloc, key)?;
    let member = as_member(alloc, value)?;
    out.write_all(b"{\"key\":")?;
    out.write_all(key.as_bytes())?;
    out.write_all(b",")?;
    out.write_all(member.as_bytes())?;
    out.write_all(b"}\n")?;
    Ok(())
}

/// Writes the line of a row where it is listed, and returns whether it is.
fn write_row<W: Write>(
    alloc: Global,
    out: &mut W,
    row: &(String, Register),
    listing: &Listing<'_>,
) -> Result<bool, Fault>
    ensures shown { IfOk result (λ shown. shown ≡ is_some (pair_within listing.now.bounds row.now)) }
    ensures bytes { OnOk result (Appends (W.contents out.old) (W.contents out.new) (row_line listing.now row.now)) }
    ensures faults { IfErr result IsCommandFailure }
{
    let key = row.0.as_str();
    if !listing.bounds.hold(key) {
        return Ok(false);
    }
    let Some(value) = &row.1.value else {
        return Ok(false);
    };
    if listing.json {
        write_object(alloc, out, key, value)?;
    } else {
        write_line(alloc, out, key, value)?;
    }
    Ok(true)
}

/// Writes the line of the next row where it is listed and as long as some may be, and returns how many may be listed then.
pub fn write_next<W: Write>(
    alloc: Global,
    out: &mut W,
    row: &(String, Register),
    listing: &Listing<'_>,
    left: u64,
) -> Result<u64, Fault>
    ensures left { IfOk result (λ after. after ≡ left - length (filter_map (pair_within listing.now.bounds) (row.now ∷ []))) }
    ensures bytes { OnOk result (Appends (W.contents out.old) (W.contents out.new) (listed_lines listing.now.bounds listing.now.json left (row.now ∷ []))) }
    ensures faults { IfErr result IsCommandFailure }
{
    if left == 0 {
        return Ok(0);
    }
    if write_row(alloc, out, row, listing)? {
        Ok(left - 1)
    } else {
        Ok(left)
    }
}
