//! What a pull would bring, in lines.
ghost use Rattle.std.specs.Prelude.{◌≡◌, flat_map, string_bytes, IfErr, IfOk, OnOk};
ghost use Rattle.std.specs.Io.KnownBytes.{Appends};
ghost use Rattle.mst_commands.specs.Malformed.{IsCommandFailure};
ghost use Rattle.mst_commands.specs.News.{entry_object, key_line, news_line};

use crate::escape::{escape, json_string};
use crate::fault::Fault;
use crate::values::said_as_member;
use std::alloc::Global;
use std::io::Write;
use store_file::Register;

/// Writes the key of an entry.
fn write_key<W: Write>(alloc: Global, out: &mut W, entry: &(String, Register)) -> Result<(), Fault>
    ensures bytes { OnOk result (Appends (W.contents out.old) (W.contents out.new) (key_line entry.now)) }
    ensures faults { IfErr result IsCommandFailure }
{
    let key = escape(alloc, entry.0.as_str())?;
    out.write_all(key.as_bytes())?;
    out.write_all(b"\n")?;
    Ok(())
}

/// An entry as an object of JSON, in a line.
fn object_of(alloc: Global, entry: &(String, Register)) -> Result<String, Fault>
    ensures text { IfOk result (λ text. string_bytes text ≡ entry_object entry.now) }
    ensures faults { IfErr result IsCommandFailure }
{
    let key = json_string(alloc, entry.0.as_str())?;
    let time = entry.1.time;
    let writer = json_string(alloc, entry.1.writer.as_str())?;
    let said = said_as_member(alloc, &entry.1.value)?;
    Ok(format!(in alloc; "{{\"key\":{key},\"time\":{time},\"writer\":{writer},{said}}}\n")?)
}

/// Writes an entry as an object of JSON.
fn write_object<W: Write>(
    alloc: Global,
    out: &mut W,
    entry: &(String, Register),
) -> Result<(), Fault>
    ensures bytes { OnOk result (Appends (W.contents out.old) (W.contents out.new) (entry_object entry.now)) }
    ensures faults { IfErr result IsCommandFailure }
{
    let text = object_of(alloc, entry)?;
    out.write_all(text.as_bytes())?;
    Ok(())
}

/// Writes the line of an entry.
#[tactic(auto, unfolding(crate::specs::News::news_line))]
fn write_entry<W: Write>(
    alloc: Global,
    out: &mut W,
    entry: &(String, Register),
    json: bool,
) -> Result<(), Fault>
    ensures bytes { OnOk result (Appends (W.contents out.old) (W.contents out.new) (news_line json entry.now)) }
    ensures faults { IfErr result IsCommandFailure }
{
    if json {
        write_object(alloc, out, entry)
    } else {
        write_key(alloc, out, entry)
    }
}

/// Writes a line for each of these entries: its key, or an object of JSON with all that it says.
///
/// # Errors
///
/// [`Fault::Device`], and [`Fault::Store`] when out of memory.
pub fn write_news<W: Write>(
    alloc: Global,
    out: &mut W,
    entries: &[(String, Register)],
    json: bool,
) -> Result<(), Fault>
    ensures bytes { OnOk result (Appends (W.contents out.old) (W.contents out.new) (flat_map (news_line json) entries.now)) }
    ensures faults { IfErr result IsCommandFailure }
{
    'entries: for entry in entries {
        write_entry(alloc, out, entry, json)?;
    }
    Ok(())
}
