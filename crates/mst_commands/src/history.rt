//! The rows of a key, in lines.
ghost use Rattle.std.specs.Prelude.{◌≡◌, flat_map, string_bytes, IfOk, IfErr, OnOk};
ghost use Rattle.std.specs.Io.KnownBytes.{Appends};
ghost use Rattle.store_file.specs.Logs.{Shows, OnlyReads};
ghost use Rattle.mst_commands.specs.Faults.{StaysAtDevice};
ghost use Rattle.mst_commands.specs.History.{WritesHistory, change_line, change_object, change_text, history_line};
ghost use Rattle.mst_commands.specs.Malformed.{IsCommandFailure};

use crate::escape::{escape, json_string};
use crate::fault::Fault;
use crate::values::{in_line, said_as_member};
use sqlite_trees::store::Store;
use std::alloc::Global;
use std::io::Write;
use store_file::log::Log;
use store_file::table::read_log;
use store_file::{Register, Value};

/// Writes what was done to the key, after the time and the writer.
fn write_change<W: Write>(alloc: Global, out: &mut W, value: &Option<Value>) -> Result<(), Fault>
    ensures bytes { OnOk result (Appends (W.contents out.old) (W.contents out.new) (change_text value.now)) }
    ensures faults { IfErr result IsCommandFailure }
{
    let Some(value) = value else {
        out.write_all(b"\tdel\n")?;
        return Ok(());
    };
    let line = in_line(alloc, value)?;
    out.write_all(b"\tput\t")?;
    out.write_all(line.as_bytes())?;
    out.write_all(b"\n")?;
    Ok(())
}

/// Writes a register as a line.
fn write_line<W: Write>(alloc: Global, out: &mut W, register: &Register) -> Result<(), Fault>
    ensures bytes { OnOk result (Appends (W.contents out.old) (W.contents out.new) (change_line register.now)) }
    ensures faults { IfErr result IsCommandFailure }
{
    let time = register.time.to_string(alloc)?;
    let writer = escape(alloc, register.writer.as_str())?;
    out.write_all(time.as_bytes())?;
    out.write_all(b"\t")?;
    out.write_all(writer.as_bytes())?;
    write_change(alloc, out, &register.value)
}

/// A register as an object of JSON, in a line.
fn object_of(alloc: Global, register: &Register) -> Result<String, Fault>
    ensures text { IfOk result (λ text. string_bytes text ≡ change_object register.now) }
    ensures faults { IfErr result IsCommandFailure }
{
    let time = register.time;
    let writer = json_string(alloc, register.writer.as_str())?;
    let said = said_as_member(alloc, &register.value)?;
    Ok(format!(in alloc; "{{\"time\":{time},\"writer\":{writer},{said}}}\n")?)
}

/// Writes a register as an object of JSON.
fn write_object<W: Write>(alloc: Global, out: &mut W, register: &Register) -> Result<(), Fault>
    ensures bytes { OnOk result (Appends (W.contents out.old) (W.contents out.new) (change_object register.now)) }
    ensures faults { IfErr result IsCommandFailure }
{
    let text = object_of(alloc, register)?;
    out.write_all(text.as_bytes())?;
    Ok(())
}

/// Writes the line of an entry, where it is one of the key.
#[tactic(auto, unfolding(crate::specs::History::history_line))]
fn write_entry<W: Write>(
    alloc: Global,
    out: &mut W,
    entry: &(String, Register),
    key: &str,
    json: bool,
) -> Result<(), Fault>
    ensures bytes { OnOk result (Appends (W.contents out.old) (W.contents out.new) (history_line key.now json entry.now)) }
    ensures faults { IfErr result IsCommandFailure }
{
    if entry.0.as_str() != key {
        return Ok(());
    }
    if json {
        write_object(alloc, out, &entry.1)
    } else {
        write_line(alloc, out, &entry.1)
    }
}

/// Writes the lines of the entries of a key.
fn write_entries<W: Write>(
    alloc: Global,
    out: &mut W,
    entries: &[(String, Register)],
    key: &str,
    json: bool,
) -> Result<(), Fault>
    ensures bytes { OnOk result (Appends (W.contents out.old) (W.contents out.new) (flat_map (history_line key.now json) entries.now)) }
    ensures faults { IfErr result IsCommandFailure }
{
    'entries: for entry in entries {
        write_entry(alloc, out, entry, key, json)?;
    }
    Ok(())
}

/// Writes a line for each row of the key, the oldest first. It takes the time of reading all rows, and memory for them.
///
/// # Errors
///
/// [`Fault::Store`] and [`Fault::Device`], where the store, memory or the output fails. Nothing is written to the file.
pub fn history<S: Store, W: Write>(
    alloc: Global,
    log: &mut Log<S>,
    out: &mut W,
    key: &str,
    json: bool,
) -> Result<(), Fault>
    ensures written { Shows S.Store log.old log.new result (WritesHistory key.now json W.contents out.old out.new) }
    ensures faults { IfErr result IsCommandFailure }
    ensures reads { OnlyReads S.Store log.old log.new result }
    ensures device { StaysAtDevice S.Store log.old log.new result }
{
    let entries = read_log(alloc, log)?;
    write_entries(alloc, out, &entries, key, json)
}
