//! The commands that read.
ghost use Rattle.std.specs.Prelude.{◌≡◌, ◌≢◌, ◌+◌, if◌then◌else◌, ◌++◌, [], ◌∷◌, length, string_bytes, IfOk, IfErr, OnOk};
ghost use Rattle.std.specs.Io.KnownBytes.{Appends};
ghost use Rattle.store_file.specs.Logs.{Finds, Shows, Refuses, OnlyReads};
ghost use Rattle.mst_commands.specs.Faults.{IsDevice, StaysAtDevice};
ghost use Rattle.mst_commands.specs.Malformed.{IsCommandFailure};
ghost use Rattle.mst_commands.specs.Reads.{IsValueAt, WritesValue, WritesList, WritesCount, WritesStatus, WritesPairs, WritesLog, WritesSifted};
ghost use Rattle.mst_commands.specs.Reads.{IsSummary, SumsOn, status_as, status_object as object_text, status_text};

use crate::bounds::Listing;
use crate::escape::json_string;
use crate::fault::Fault;
use crate::lines::write_next;
use crate::log::write_log;
use crate::records::{begin_pairs, finish, write_row};
use sqlite_trees::store::Store;
use std::alloc::Global;
use std::io::Write;
use store_file::log::Log;
use store_file::reader::{begin, next_latest};
use store_file::rows::Summary;
use store_file::sifting::{BadRow, Sifted, sift};
use store_file::{Register, StoreFault, Value, latest};

/// The value of a key.
fn value_at<S: Store>(alloc: Global, log: &mut Log<S>, key: &str) -> Result<Option<Value>, Fault>
    ensures said { Finds S.Store log.old log.new result (λ trees said. IsValueAt trees key.now said) }
    ensures store { IfErr result (λ why. ¬ IsDevice why) }
    ensures faults { IfErr result IsCommandFailure }
    ensures reads { OnlyReads S.Store log.old log.new result }
{
    let found = latest::find(alloc, log, key)?;
    Ok(latest::value_of(found))
}

/// Writes bytes, and a newline.
fn write_ended<W: Write>(out: &mut W, bytes: &[u8]) -> Result<(), Fault>
    ensures bytes { OnOk result (Appends (W.contents out.old) (W.contents out.new) (bytes.now ++ 10 ∷ [])) }
    ensures faults { IfErr result IsCommandFailure }
{
    out.write_all(bytes)?;
    out.write_all(b"\n")?;
    Ok(())
}

/// Writes the value of a key as it is, and a newline.
///
/// # Errors
///
/// [`Fault::NoKey`] where the key isn't there, [`Fault::Store`] and [`Fault::Device`]. Nothing is written to the file.
pub fn get<S: Store, W: Write>(
    alloc: Global,
    log: &mut Log<S>,
    out: &mut W,
    key: &str,
) -> Result<(), Fault>
    ensures written { Shows S.Store log.old log.new result (WritesValue key.now W.contents out.old out.new) }
    ensures absent { Refuses S.Store log.old log.new result Fault.NoKey (λ trees. IsValueAt trees key.now None) }
    ensures faults { IfErr result (λ why. why ≢ Fault.NoKey → IsCommandFailure why) }
    ensures reads { OnlyReads S.Store log.old log.new result }
    ensures device { StaysAtDevice S.Store log.old log.new result }
{
    let said = value_at(alloc, log, key)?;
    match said {
        Some(value) => write_ended(out, value.as_bytes()),
        None => Err(Fault::NoKey),
    }
}

/// Writes each key that the listing shows with its value, ascending by key. It takes the time of reading all rows, and memory for a few.
///
/// # Errors
///
/// [`Fault::Store`] and [`Fault::Device`], where the store, memory or the output fails. Nothing is written to the file.
pub fn list<S: Store, W: Write>(
    alloc: Global,
    log: &mut Log<S>,
    out: &mut W,
    listing: &Listing<'_>,
) -> Result<(), Fault>
    ensures written { Shows S.Store log.old log.new result (WritesList listing.now W.contents out.old out.new) }
    ensures faults { IfErr result IsCommandFailure }
    ensures reads { OnlyReads S.Store log.old log.new result }
    ensures device { StaysAtDevice S.Store log.old log.new result }
{
    let mut walk = begin(alloc, log)?;
    let mut left = listing.limit;
    'rows: for _ in 0..u64::MAX {
        let Some(row) = next_latest(alloc, log, &mut walk)? else {
            return Ok(());
        };
        left = write_next(alloc, out, &row, listing, left)?;
    }
    Err(Fault::Store(StoreFault::Malformed))
}

/// A number, and one more where it is so.
fn counted(number: usize, is_so: bool) -> Result<usize, Fault>
    ensures count { IfOk result (λ more. more ≡ number + (if is_so then 1 else 0)) }
    ensures faults { IfErr result IsCommandFailure }
{
    if !is_so {
        return Ok(number);
    }
    match number.checked_add(1) {
        Some(more) => Ok(more),
        None => Err(Fault::Store(StoreFault::Malformed)),
    }
}

/// The numbers of rows and of one more.
fn summed(summary: &Summary, row: &(String, Register)) -> Result<Summary, Fault>
    ensures more { IfOk result (SumsOn summary.now row.now) }
    ensures faults { IfErr result IsCommandFailure }
{
    let keys = counted(summary.keys, row.1.value.is_some())?;
    let removed = counted(summary.removed, row.1.value.is_none())?;
    Ok(Summary {
        keys,
        removed,
        last: summary.last.max(row.1.time),
    })
}

/// What the file holds, in numbers, and how many rows its table has. It takes the time of reading all rows, and memory for a few.
///
/// # Errors
///
/// [`Fault::Store`], where the store or memory fails. Nothing is written to the file.
pub fn sum_up<S: Store>(alloc: Global, log: &mut Log<S>) -> Result<(Summary, usize), Fault>
    ensures numbers { Finds S.Store log.old log.new result (λ trees sum. IsSummary trees sum.0) }
    ensures rows { Finds S.Store log.old log.new result (λ trees sum. sum.1 ≡ length (trees 0)) }
    ensures faults { IfErr result IsCommandFailure }
    ensures reads { OnlyReads S.Store log.old log.new result }
{
    let mut walk = begin(alloc, log)?;
    let mut summary = Summary {
        keys: 0,
        removed: 0,
        last: 0,
    };
    'rows: for _ in 0..u64::MAX {
        let Some(row) = next_latest(alloc, log, &mut walk)? else {
            return Ok((summary, walk.count()));
        };
        summary = summed(&summary, &row)?;
    }
    Err(Fault::Store(StoreFault::Malformed))
}

/// Writes how many keys have a value, and a newline. It takes the time of reading all rows, and memory for a few.
///
/// # Errors
///
/// [`Fault::Store`] and [`Fault::Device`], where the store, memory or the output fails. Nothing is written to the file.
pub fn count<S: Store, W: Write>(alloc: Global, log: &mut Log<S>, out: &mut W) -> Result<(), Fault>
    ensures written { Shows S.Store log.old log.new result (WritesCount W.contents out.old out.new) }
    ensures faults { IfErr result IsCommandFailure }
    ensures reads { OnlyReads S.Store log.old log.new result }
{
    let (summary, _rows) = sum_up(alloc, log)?;
    let text = summary.keys.to_string(alloc)?;
    write_ended(out, text.as_bytes())
}

/// The numbers of the file in lines, and a name.
fn status_lines(alloc: Global, summary: &Summary, rows: usize, name: &str) -> Result<String, Fault>
    ensures text { IfOk result (λ text. string_bytes text ≡ status_text summary.now rows name.now) }
    ensures faults { IfErr result IsCommandFailure }
{
    let Summary {
        keys,
        removed,
        last,
    } = *summary;
    Ok(format!(in alloc;
        "keys {keys}\nremoved {removed}\nrows {rows}\nlast write {last}\nwriter {name}\n"
    )?)
}

/// The numbers of the file and a name, as the members of an object of JSON, which go on.
fn status_object(alloc: Global, summary: &Summary, rows: usize, name: &str) -> Result<String, Fault>
    ensures text { IfOk result (λ text. string_bytes text ≡ object_text summary.now rows name.now) }
    ensures faults { IfErr result IsCommandFailure }
{
    let Summary {
        keys,
        removed,
        last,
    } = *summary;
    let name = json_string(alloc, name)?;
    Ok(format!(in alloc;
        "{{\"keys\":{keys},\"removed\":{removed},\"rows\":{rows},\"last_write\":{last},\"writer\":{name},"
    )?)
}

/// The numbers of the file and a name.
fn status_of(
    alloc: Global,
    summary: &Summary,
    rows: usize,
    name: &str,
    json: bool,
) -> Result<String, Fault>
    ensures text { IfOk result (λ text. string_bytes text ≡ status_as json summary.now rows name.now) }
    ensures faults { IfErr result IsCommandFailure }
{
    if json {
        status_object(alloc, summary, rows, name)
    } else {
        status_lines(alloc, summary, rows, name)
    }
}

/// Writes the numbers of the file and the name by which it writes: a line each, or as the first members of an object of JSON, behind which its
/// others can follow. It takes the time of reading all rows, and memory for a few.
///
/// # Errors
///
/// [`Fault::Store`] and [`Fault::Device`], where the store, memory or the output fails. Nothing is written to the file.
pub fn status<S: Store, W: Write>(
    alloc: Global,
    log: &mut Log<S>,
    out: &mut W,
    name: &str,
    json: bool,
) -> Result<(), Fault>
    ensures written { Shows S.Store log.old log.new result (WritesStatus json name.now W.contents out.old out.new) }
    ensures faults { IfErr result IsCommandFailure }
    ensures reads { OnlyReads S.Store log.old log.new result }
{
    let (summary, rows) = sum_up(alloc, log)?;
    let text = status_of(alloc, &summary, rows, name, json)?;
    out.write_all(text.as_bytes())?;
    Ok(())
}

/// Writes the keys that have a value, each with its value, as CSV, and hands back the output. It takes the time of reading all rows, and memory
/// for a few.
///
/// # Errors
///
/// [`Fault::Store`] and [`Fault::Device`], where the store, memory or the output fails. Nothing is written to the file.
pub fn export<S: Store, W: Write + Drop>(
    alloc: Global,
    log: &mut Log<S>,
    out: W,
) -> Result<W, Fault>
    ensures written { Finds S.Store log.old log.new result (WritesPairs W.contents out) }
    ensures faults { IfErr result IsCommandFailure }
    ensures reads { OnlyReads S.Store log.old log.new result }
    ensures device { StaysAtDevice S.Store log.old log.new result }
{
    let mut writer = begin_pairs(out)?;
    let mut walk = begin(alloc, log)?;
    'rows: for _ in 0..u64::MAX {
        let Some(row) = next_latest(alloc, log, &mut walk)? else {
            return finish(writer);
        };
        write_row(&mut writer, &row)?;
    }
    Err(Fault::Store(StoreFault::Malformed))
}

/// Writes the log as CSV, a record for each row of the table that is an entry, and hands back the output and the rows that are none.
///
/// # Errors
///
/// [`Fault::Store`] and [`Fault::Device`], where the store, memory or the output fails. Nothing is written to the file.
pub fn export_log<S: Store, W: Write + Drop>(
    alloc: Global,
    log: &mut Log<S>,
    out: W,
) -> Result<(W, Vec<BadRow>), Fault>
    ensures written { Finds S.Store log.old log.new result (WritesSifted W.contents out) }
    ensures whole { Finds S.Store log.old log.new result (λ trees done. done.1.items ≡ [] → WritesLog W.contents out trees done.0) }
    ensures faults { IfErr result IsCommandFailure }
    ensures reads { OnlyReads S.Store log.old log.new result }
    ensures device { StaysAtDevice S.Store log.old log.new result }
{
    let Sifted { entries, bad } = sift(alloc, log)?;
    let out = write_log(alloc, out, &entries)?;
    Ok((out, bad))
}
