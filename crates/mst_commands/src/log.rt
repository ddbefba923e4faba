//! The log as CSV.
ghost use Rattle.std.specs.Prelude.{[], ◌∷◌, IfOk, IfErr, OnOk};
ghost use Rattle.std.specs.Io.KnownBytes.{Appends};
ghost use Rattle.mst_commands.specs.Malformed.{IsCommandFailure};
ghost use Rattle.mst_commands.specs.Records.{entry_text, log_text, WritesRecord, WritesRecords};

use crate::fault::{Fault, csv_fault};
use crate::records::finish;
use csv::Writer;
use std::alloc::Global;
use std::io::Write;
use store_file::Register;

/// Writes a record of five fields.
fn write_five<'a, W: Write + Drop>(
    writer: &mut Writer<W>,
    key: &'a str,
    time: &'a str,
    name: &'a str,
    change: &'a str,
    value: &'a [u8],
) -> Result<(), Fault>
    ensures written { OnOk result (WritesRecord W.contents writer.old writer.new
        (key.now ∷ time.now ∷ name.now ∷ change.now ∷ value.now ∷ [])) }
    ensures faults { IfErr result IsCommandFailure }
{
    match writer.write_fields(&[
        key.as_bytes(),
        time.as_bytes(),
        name.as_bytes(),
        change.as_bytes(),
        value,
    ]) {
        Ok(()) => Ok(()),
        Err(error) => Err(csv_fault(&error)),
    }
}

/// Writes the record of an entry.
fn write_entry<W: Write + Drop>(
    alloc: Global,
    writer: &mut Writer<W>,
    entry: &(String, Register),
) -> Result<(), Fault>
    ensures written { OnOk result (WritesRecords W.contents writer.old writer.new (entry_text entry.now)) }
    ensures faults { IfErr result IsCommandFailure }
{
    let time = entry.1.time.to_string(alloc)?;
    let (key, time, name) = (entry.0.as_str(), time.as_str(), entry.1.writer.as_str());
    match &entry.1.value {
        Some(value) => write_five(writer, key, time, name, "put", value.as_bytes()),
        None => write_five(writer, key, time, name, "del", "".as_bytes()),
    }
}

/// Writes the entries of a log as CSV, and hands back the output.
///
/// # Errors
///
/// [`Fault::Device`], and [`Fault::Store`] when out of memory.
pub fn write_log<W: Write + Drop>(
    alloc: Global,
    out: W,
    entries: &[(String, Register)],
) -> Result<W, Fault>
    ensures written { IfOk result (λ written. Appends (W.contents out) (W.contents written) (log_text entries.now)) }
    ensures faults { IfErr result IsCommandFailure }
{
    let mut writer = Writer::from_writer(out);
    write_five(
        &mut writer,
        "key",
        "time",
        "writer",
        "change",
        "value".as_bytes(),
    )?;
    'entries: for entry in entries {
        write_entry(alloc, &mut writer, entry)?;
    }
    finish(writer)
}
