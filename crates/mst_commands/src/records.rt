//! Keys and values as CSV.
ghost use Rattle.std.specs.Prelude.{◌≡◌, ◌≢◌, ◌<◌, [], ◌∷◌, length, string_bytes, true, false, IfOk, IfErr, OnOk, IfSome};
ghost use Rattle.std.specs.Io.KnownBytes.{Keeps};
ghost use Rattle.csv.specs.Records.{fields_of};
ghost use Rattle.csv.specs.Writing.{text_written};
ghost use Rattle.store_file.specs.Values.{IsValueOf};
ghost use Rattle.mst_commands.specs.Records.{header, field_or_empty, pair_text, pairs_text, SaysPair, SaysChange, SaysEntry, SaysValue, SpellsNumber};
ghost use Rattle.mst_commands.specs.Records.{HasEntries, HasRead, HasWritten, ReadsOne, WritesRecord, WritesRecords};
ghost use Rattle.mst_commands.specs.Malformed.{EndsForHeader, EndsForRecord, IsCommandFailure, IsImportRefused, IsNoName, IsParseRefused, SaysNoChange, SaysNone};
ghost use Rattle.mst_commands.specs.Quotes.{is_quoted};

use crate::fault::{Fault, csv_fault, input_fault};
use crate::quotes::expect_quotes;
use csv::{ByteRecord, Reader, ReaderBuilder, Writer};
use std::alloc::Global;
use std::io::{Read, Write};
use store_file::table::Entries;
use store_file::{Register, StoreFault, Value};

/// How many bytes a key or a value has at most: 1 MiB.
pub const MOST: usize = 1_048_576;

/// The last time that there is, in milliseconds since 1970: the file holds times as numbers below 2^63.
pub const LAST_TIME: u64 = 9_223_372_036_854_775_807;

/// The first line of keys and values.
pub const HEADER: &str = "key,value";

/// The first line of a log.
pub const LOG_HEADER: &str = "key,time,writer,change,value";

/// A field of a record, or an empty one.
fn field(row: &ByteRecord, at: usize) -> &[u8]
    ensures { result.now ≡ field_or_empty (fields_of row.now) at }
{
    match row.get(at) {
        Some(field) => field,
        None => "".as_bytes(),
    }
}

/// The line that a record begins at.
fn line_of(row: &ByteRecord) -> u64 {
    match row.position() {
        Some(position) => position.line,
        None => 0,
    }
}

/// A field of a record that has 1 MiB at most.
fn short_field(row: &ByteRecord, at: usize) -> Result<&[u8], Fault>
    ensures same { IfOk result (λ field. field.now ≡ field_or_empty (fields_of row.now) at) }
    ensures long { IfErr result (EndsForRecord (MOST < length (field_or_empty (fields_of row.now) at))) }
{
    let bytes = field(row, at);
    if bytes.len() > MOST {
        return Err(Fault::BadLine(line_of(row), "a key or a value is longer than 1 MiB"));
    }
    Ok(bytes)
}

/// A key or a writer of a record, in memory of its own.
fn name_of(alloc: Global, row: &ByteRecord, at: usize) -> Result<String, Fault>
    ensures text { IfOk result (λ text. string_bytes text ≡ field_or_empty (fields_of row.now) at) }
    ensures none { IfErr result (EndsForRecord (IsNoName (field_or_empty (fields_of row.now) at))) }
{
    match str::from_utf8(short_field(row, at)?) {
        Ok(text) => Ok(String::from_str(alloc, text)?),
        Err(_) => Err(Fault::BadLine(line_of(row), "a key or a writer isn't valid UTF-8")),
    }
}

/// A value of a record, in memory of its own.
fn value_of(alloc: Global, row: &ByteRecord, at: usize) -> Result<Value, Fault>
    ensures value { IfOk result (λ value. IsValueOf (field_or_empty (fields_of row.now) at) value) }
    ensures long { IfErr result (EndsForRecord (MOST < length (field_or_empty (fields_of row.now) at))) }
{
    let bytes = Vec::from_slice(alloc, short_field(row, at)?)?;
    Ok(Value::of(bytes))
}

/// The first line of a log, or of keys and values.
fn header_of(is_log: bool) -> &'static str {
    if is_log { LOG_HEADER } else { HEADER }
}

/// Refuses a first record whose field at this place isn't the one that the header has there, which is named so.
fn expect_name(row: &ByteRecord, is_log: bool, at: usize, name: &str) -> Result<(), Fault>
    requires { field_or_empty (header is_log) at ≡ name.now }
    ensures same { OnOk result (field_or_empty (fields_of row.now) at ≡ name.now) }
    ensures other { IfErr result (EndsForHeader (fields_of row.now ≢ header is_log)) }
{
    if field(row, at) == name.as_bytes() {
        Ok(())
    } else {
        Err(Fault::NoHeader(header_of(is_log)))
    }
}

/// Refuses a first record that is not the header of keys and values.
#[tactic(auto, unfolding(csv::specs::Records::field_at))]
fn expect_pair_header(row: &ByteRecord) -> Result<(), Fault>
    ensures same { OnOk result (fields_of row.now ≡ header false) }
    ensures other { IfErr result (EndsForHeader (fields_of row.now ≢ header false)) }
{
    if row.len() != 2 {
        return Err(Fault::NoHeader(HEADER));
    }
    expect_name(row, false, 0, "key")?;
    expect_name(row, false, 1, "value")?;
    Ok(())
}

/// Refuses a first record that is not the header of a log.
#[tactic(auto, unfolding(csv::specs::Records::field_at))]
fn expect_log_header(row: &ByteRecord) -> Result<(), Fault>
    ensures same { OnOk result (fields_of row.now ≡ header true) }
    ensures other { IfErr result (EndsForHeader (fields_of row.now ≢ header true)) }
{
    if row.len() != 5 {
        return Err(Fault::NoHeader(LOG_HEADER));
    }
    expect_name(row, true, 0, "key")?;
    expect_name(row, true, 1, "time")?;
    expect_name(row, true, 2, "writer")?;
    expect_name(row, true, 3, "change")?;
    expect_name(row, true, 4, "value")?;
    Ok(())
}

/// Refuses a first record that is no header.
fn expect_header(row: &ByteRecord, is_log: bool) -> Result<(), Fault>
    ensures same { OnOk result (fields_of row.now ≡ header is_log) }
    ensures other { IfErr result (EndsForHeader (fields_of row.now ≢ header is_log)) }
{
    if is_log {
        expect_log_header(row)
    } else {
        expect_pair_header(row)
    }
}

/// The entry of a record of keys and values, with the number of the record as its time.
fn entry_of(alloc: Global, row: &ByteRecord, number: u64) -> Result<(String, Register), Fault>
    ensures says { IfOk result (λ entry. SaysPair number (fields_of row.now) entry) }
    ensures none { IfErr result (EndsForRecord (SaysNone false (fields_of row.now))) }
{
    if row.len() != 2 {
        return Err(Fault::BadLine(line_of(row), "it doesn't have two fields"));
    }
    let key = name_of(alloc, row, 0)?;
    let value = value_of(alloc, row, 1)?;
    let writer = String::new(alloc);
    Ok((
        key,
        Register {
            time: number,
            writer,
            value: Some(value),
        },
    ))
}

/// The value that a record of a log says, or that it is a removal.
fn change_of(alloc: Global, row: &ByteRecord) -> Result<Option<Value>, Fault>
    ensures says { IfOk result (λ said. SaysValue (fields_of row.now) said) }
    ensures none { IfErr result (EndsForRecord (SaysNoChange (fields_of row.now))) }
{
    let change = field(row, 3);
    if change == "put".as_bytes() {
        return Ok(Some(value_of(alloc, row, 4)?));
    }
    if change != "del".as_bytes() {
        return Err(Fault::BadLine(line_of(row), "the change is neither put nor del"));
    }
    if !field(row, 4).is_empty() {
        return Err(Fault::BadLine(line_of(row), "a removal can't have a value"));
    }
    Ok(None)
}

/// The time of a record of a log.
fn time_of(row: &ByteRecord) -> Result<u64, Fault>
    ensures time { IfOk result (λ time. SpellsNumber (field_or_empty (fields_of row.now) 1) time) }
    ensures none { IfErr result (EndsForRecord (SaysNone true (fields_of row.now))) }
{
    let Ok(digits) = str::from_utf8(field(row, 1)) else {
        return Err(Fault::BadLine(line_of(row), "the time isn't a number"));
    };
    let Ok(time) = digits.parse::<u64>() else {
        return Err(Fault::BadLine(line_of(row), "the time isn't a number"));
    };
    if time > LAST_TIME {
        return Err(Fault::BadLine(line_of(row), "the time is 2^63 or more"));
    }
    Ok(time)
}

/// The entry of a record of a log.
fn log_entry_of(alloc: Global, row: &ByteRecord) -> Result<(String, Register), Fault>
    ensures says { IfOk result (λ entry. SaysChange (fields_of row.now) entry) }
    ensures none { IfErr result (EndsForRecord (SaysNone true (fields_of row.now))) }
{
    if row.len() != 5 {
        return Err(Fault::BadLine(line_of(row), "it doesn't have five fields"));
    }
    let time = time_of(row)?;
    let key = name_of(alloc, row, 0)?;
    let writer = name_of(alloc, row, 2)?;
    let value = change_of(alloc, row)?;
    Ok((
        key,
        Register {
            time,
            writer,
            value,
        },
    ))
}

/// The entry of a record after the header.
fn read_entry(
    alloc: Global,
    row: &ByteRecord,
    number: u64,
    is_log: bool,
) -> Result<(String, Register), Fault>
    ensures says { IfOk result (λ entry. SaysEntry is_log number (fields_of row.now) entry) }
    ensures none { IfErr result (EndsForRecord (SaysNone is_log (fields_of row.now))) }
{
    if is_log {
        log_entry_of(alloc, row)
    } else {
        entry_of(alloc, row, number)
    }
}

/// A reader of CSV whose records may have any number of fields, the first one too.
fn reader_of<R: Read>(alloc: Global, from: R) -> Reader<R>
    ensures { HasRead R.remaining (R.remaining from) [] result }
{
    ReaderBuilder::new()
        .has_headers(false)
        .flexible(true)
        .from_reader(alloc, from)
}

/// Reads the next record, and returns whether there was one.
fn read_next<R: Read>(reader: &mut Reader<R>, row: &mut ByteRecord) -> Result<bool, Fault>
    ensures read { IfOk result (λ found. ReadsOne R.remaining reader.old reader.new found (fields_of row.new)) }
    ensures faults { IfErr result IsCommandFailure }
{
    match reader.read_byte_record(row) {
        Ok(found) => Ok(found),
        Err(error) => Err(csv_fault(&error)),
    }
}

/// The entries of a CSV after its header, whose quotes are right: of a log as they are, else with the number of the record as the time.
fn parse_entries<R: Read + Drop>(alloc: Global, from: R, is_log: bool) -> Result<Entries, Fault>
    ensures read { IfOk result (λ entries. IfSome (R.remaining from) (λ bytes. HasEntries is_log bytes entries.items)) }
    ensures refused { IfErr result (IsParseRefused is_log (R.remaining from)) }
{
    let mut entries = Vec::new(alloc);
    let mut reader = reader_of(alloc, from);
    let mut record = ByteRecord::new(alloc);
    if !read_next(&mut reader, &mut record)? {
        return Err(Fault::NoHeader(header_of(is_log)));
    }
    expect_header(&record, is_log)?;
    'records: for number in 1..u64::MAX {
        if !read_next(&mut reader, &mut record)? {
            return Ok(entries);
        }
        let entry = read_entry(alloc, &record, number, is_log)?;
        entries.push(entry)?;
    }
    Err(Fault::Store(StoreFault::Memory))
}

/// The bytes that an input has to its end.
fn read_all<R: Read + Drop>(alloc: Global, from: R) -> Result<Vec<u8>, Fault>
    ensures all { IfOk result (λ all. IfSome (R.remaining from) (λ bytes. all.items ≡ bytes)) }
    ensures faults { IfErr result IsCommandFailure }
{
    let mut bytes = Vec::new(alloc);
    let mut from = from;
    match from.read_to_end(&mut bytes) {
        Ok(_) => Ok(bytes),
        Err(error) => Err(input_fault(error)),
    }
}

/// The entries of a CSV after its header: of a log as they are, else with the number of the record as the time. The input is read to its end first.
///
/// # Errors
///
/// [`Fault::NoHeader`], [`Fault::BadLine`], also where a quote stands where none may or isn't closed, [`Fault::Device`], and [`Fault::Store`] for
/// out of memory.
pub fn read_entries<R: Read + Drop>(alloc: Global, from: R, is_log: bool) -> Result<Entries, Fault>
    ensures read { IfOk result (λ entries. IfSome (R.remaining from) (λ bytes. HasEntries is_log bytes entries.items)) }
    ensures quoted { OnOk result (IfSome (R.remaining from) (λ bytes. is_quoted bytes ≡ true)) }
    ensures refused { IfErr result (IsImportRefused is_log (R.remaining from)) }
{
    let text = read_all(alloc, from)?;
    expect_quotes(&text)?;
    parse_entries(alloc, text.as_slice(), is_log)
}

/// Writes a record of a key and the bytes of a value.
fn write_pair<'a, W: Write + Drop>(
    writer: &mut Writer<W>,
    key: &'a str,
    value: &'a [u8],
) -> Result<(), Fault>
    ensures written { OnOk result (WritesRecord W.contents writer.old writer.new (key.now ∷ value.now ∷ [])) }
    ensures faults { IfErr result IsCommandFailure }
{
    match writer.write_fields(&[key.as_bytes(), value]) {
        Ok(()) => Ok(()),
        Err(error) => Err(csv_fault(&error)),
    }
}

/// Writes the record of a row, unless it is a removal.
pub fn write_row<W: Write + Drop>(
    writer: &mut Writer<W>,
    row: &(String, Register),
) -> Result<(), Fault>
    ensures written { OnOk result (WritesRecords W.contents writer.old writer.new (pair_text row.now)) }
    ensures faults { IfErr result IsCommandFailure }
{
    match &row.1.value {
        Some(value) => write_pair(writer, row.0.as_str(), value.as_bytes()),
        None => Ok(()),
    }
}

/// Hands back the output of a writer that has written all.
pub fn finish<W: Write + Drop>(writer: Writer<W>) -> Result<W, Fault>
    ensures kept { IfOk result (λ out. Keeps (text_written W.contents writer) (W.contents out)) }
    ensures faults { IfErr result IsCommandFailure }
{
    match writer.into_inner() {
        Ok(out) => Ok(out),
        Err(error) => Err(csv_fault(&error.into_error())),
    }
}

/// A writer of CSV after the header of keys and values.
pub fn begin_pairs<W: Write + Drop>(out: W) -> Result<Writer<W>, Fault>
    ensures begun { IfOk result (λ writer. HasWritten W.contents out writer (pairs_text [])) }
    ensures faults { IfErr result IsCommandFailure }
{
    let mut writer = Writer::from_writer(out);
    write_pair(&mut writer, "key", "value".as_bytes())?;
    Ok(writer)
}
