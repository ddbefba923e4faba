//! Entries as rows of the table.
ghost use Rattle.std.specs.Prelude.{◌≡◌, ◌≢◌, ◌≤◌, ◌^◌, ◌++◌, ◌∷◌, [], ℕ, pos, string_bytes, IfOk, IfErr, IfSome, OnOk, IsErrOf, IsUtf8};
ghost use Rattle.sqlite_value.specs.Value.{owned};
ghost use Rattle.sqlite_value.specs.declared.value.Value.TheVariants.{Int, Text};
ghost use Rattle.store_file.specs.Entries.{entry_row, entry_row_of, value_cell};
ghost use Rattle.store_file.specs.Faults.{IsFailure, IsUnwritten};
ghost use Rattle.store_file.specs.Sifting.{IsNoEntry, IsNoText, IsNoValue};
ghost use Rattle.store_file.specs.Values.{IsFormed};

use crate::fault::StoreFault;
use crate::register::Register;
use crate::value::Value;
use sqlite_value::row::Row;
use sqlite_value::value::ValueRef;
use std::alloc::Global;

/// The entries of a store, as the replica takes them.
pub type Entries = Vec<(String, Register)>;

/// The time as the database keeps it.
fn stored_time(register: &Register) -> Result<i64, StoreFault>
    ensures same { IfOk result (λ time. time ≡ pos register.now.time) }
    ensures late { IfErr result (λ why. (why ≡ StoreFault.Time) × 2 ^ 63 ≤ register.now.time) }
{
    match i64::try_from(register.time) {
        Ok(time) => Ok(time),
        Err(_) => Err(StoreFault::Time),
    }
}

/// A text, other bytes as a BLOB, or 0 for a removal.
fn stored_value(value: &Option<Value>) -> ValueRef<'_>
    ensures { owned result ≡ value_cell value.now }
{
    match value {
        Some(Value::Text(text)) => ValueRef::Text(text.as_bytes()),
        Some(Value::Bytes(bytes)) => ValueRef::Blob(bytes.as_slice()),
        None => ValueRef::Int(0),
    }
}

/// Makes a row that of an entry.
pub(crate) fn fill_row(row: &mut Row, key: &str, register: &Register) -> Result<(), StoreFault>
    ensures row { OnOk result (row.new ≡ entry_row_of key.now register.now) }
    ensures late { IsErrOf result StoreFault.Time → 2 ^ 63 ≤ register.now.time }
    ensures faults { IfErr result IsUnwritten }
{
    let time = stored_time(register)?;
    row.clear();
    row.push(ValueRef::Text(key.as_bytes()))?;
    row.push(ValueRef::Int(time))?;
    row.push(ValueRef::Text(register.writer.as_bytes()))?;
    row.push(stored_value(&register.value))?;
    Ok(())
}

/// A text, in memory of its own.
pub(crate) fn text_in(alloc: Global, value: ValueRef<'_>) -> Result<String, StoreFault>
    ensures text { IfOk result (λ text. owned value.entry ≡ Text (string_bytes text)) }
    ensures none { IsErrOf result StoreFault.Malformed → IsNoText (owned value.entry) }
    ensures failed { IfErr result IsFailure }
{
    let ValueRef::Text(bytes) = value else {
        return Err(StoreFault::Malformed);
    };
    match str::from_utf8(bytes) {
        Ok(text) => Ok(String::from_str(alloc, text)?),
        Err(_) => Err(StoreFault::Malformed),
    }
}

/// A time.
fn time_in(value: ValueRef<'_>) -> Result<u64, StoreFault>
    ensures time { IfOk result (λ time. owned value.entry ≡ Int (pos time)) }
    ensures none { IsErrOf result StoreFault.Malformed → (time : ℕ) → owned value.entry ≢ Int (pos time) }
    ensures failed { IfErr result IsFailure }
{
    let ValueRef::Int(number) = value else {
        return Err(StoreFault::Malformed);
    };
    match u64::try_from(number) {
        Ok(time) => Ok(time),
        Err(_) => Err(StoreFault::Malformed),
    }
}

/// Bytes that aren't UTF-8, in memory of their own.
fn bytes_in(alloc: Global, bytes: &[u8]) -> Result<Vec<u8>, StoreFault>
    ensures bytes { IfOk result (λ own. own.items ≡ bytes.now) }
    ensures other { OnOk result (¬ (IsUtf8 bytes.now)) }
    ensures text { IsErrOf result StoreFault.Malformed → IsUtf8 bytes.now }
    ensures failed { IfErr result IsFailure }
{
    match str::from_utf8(bytes) {
        Ok(_) => Err(StoreFault::Malformed),
        Err(_) => Ok(Vec::from_slice(alloc, bytes)?),
    }
}

/// A value, or that the key was removed. A BLOB in UTF-8 is neither: as a value it would be a text.
fn value_in(alloc: Global, value: ValueRef<'_>) -> Result<Option<Value>, StoreFault>
    ensures value { IfOk result (λ said. owned value.entry ≡ value_cell said) }
    ensures formed { IfOk result (λ said. IfSome said IsFormed) }
    ensures none { IsErrOf result StoreFault.Malformed → IsNoValue (owned value.entry) }
    ensures failed { IfErr result IsFailure }
{
    match value {
        ValueRef::Int(0) => Ok(None),
        ValueRef::Text(_) => Ok(Some(Value::Text(text_in(alloc, value)?))),
        ValueRef::Blob(bytes) => Ok(Some(Value::Bytes(bytes_in(alloc, bytes)?))),
        _ => Err(StoreFault::Malformed),
    }
}

/// The entry of a row, in memory of its own.
pub(crate) fn entry_of(alloc: Global, row: &Row) -> Result<(String, Register), StoreFault>
    ensures entry { IfOk result (λ entry. row.now ≡ entry_row entry) }
    ensures formed { IfOk result (λ entry. IfSome entry.1.value IsFormed) }
    ensures none { IsErrOf result StoreFault.Malformed → IsNoEntry row.now }
    ensures failed { IfErr result IsFailure }
{
    if row.len() != 4 {
        return Err(StoreFault::Malformed);
    }
    let key = text_in(alloc, row.get(0))?;
    let time = time_in(row.get(1))?;
    let writer = text_in(alloc, row.get(2))?;
    let value = value_in(alloc, row.get(3))?;
    Ok((
        key,
        Register {
            time,
            writer,
            value,
        },
    ))
}
