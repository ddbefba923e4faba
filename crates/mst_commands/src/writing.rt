//! The commands that write: each keeps the log and the tree of its latest registers in step.
ghost use Rattle.std.specs.Prelude.{◌≡◌, ◌≢◌, ◌≤◌, ◌<◌, ◌⊎◌, length, filter, All, IfOk, IfErr, IsErrOf, OnOk, true, false};
ghost use Rattle.key_order.specs.Text.{text_order};
ghost use Rattle.key_order.specs.Map.{IsMap};
ghost use Rattle.store_file.specs.Faults.{IsUnwritten};
ghost use Rattle.store_file.specs.Latest.{IsThere};
ghost use Rattle.store_file.specs.Logs.{trees_of, Finds, Leaves, Shows, Refuses, OnlyReads, Writes};
ghost use Rattle.store_file.specs.Registers.{HaveLateTime};
ghost use Rattle.store_file.specs.Values.{bytes_of_value};
ghost use Rattle.store_rows.specs.InStep.{AddsInStep, StandsInStep, StaysInStep};
ghost use Rattle.mst_commands.specs.Faults.{IsAhead, IsTooLong};
ghost use Rattle.mst_commands.specs.Writes.{is_met as says_it, is_text as is_same_text, IsMet, WritesBy, WritesIf};
ghost use Rattle.mst_commands.specs.Malformed.{IsCommandFailure};
ghost use Rattle.mst_commands.specs.Imports.{IsDated, AreDated, HaveFutureTime, is_newer, AddsOf, Imports};

use crate::escape::cut;
use crate::fault::{Fault, Named, input_fault};
use crate::records::MOST;
use mst_words::Wanted;
use sqlite_trees::store::Store;
use std::alloc::{AllocError, Global};
use std::io::Read;
use store_file::format::HASH_KEY_LEN;
use store_file::latest::{find, value_of};
use store_file::log::Log;
use store_file::rows::{latest_rows, read_latest, register_in};
use store_file::table::Entries;
use store_file::{Register, StoreFault, Value};
use store_rows::latest::{put, remove};
use store_rows::loading::add_many;
use store_rows::writing::add_all;

/// Refuses a key or a value of more than 1 MiB.
///
/// # Errors
///
/// [`Fault::TooLong`] with the word for what it is.
pub fn within(bytes: &[u8], what: &'static str) -> Result<(), Fault>
    ensures fits { OnOk result (length bytes.now ≤ MOST) }
    ensures long { IfErr result (λ why. IsTooLong why × MOST < length bytes.now) }
{
    if bytes.len() > MOST {
        return Err(Fault::TooLong(what));
    }
    Ok(())
}

/// The bytes that an input has to its end, which are to be a value.
///
/// # Errors
///
/// [`Fault::TooLong`], [`Fault::Device`], and [`Fault::Store`] when out of memory.
pub fn read_bytes<R: Read + Drop>(alloc: Global, from: R) -> Result<Vec<u8>, Fault>
    ensures fits { IfOk result (λ bytes. length bytes.items ≤ MOST) }
    ensures faults { IfErr result (λ why. ¬ IsTooLong why → IsCommandFailure why) }
{
    let mut bytes = Vec::new(alloc);
    let mut from = from.take(1_048_577);
    if let Err(error) = from.read_to_end(&mut bytes) {
        return Err(input_fault(error));
    }
    if bytes.len() > MOST {
        return Err(Fault::TooLong("the value"));
    }
    Ok(bytes)
}

/// Writes a value under a key, in the log and in its tree.
///
/// # Errors
///
/// [`Fault::TooLong`], and [`Fault::Store`] where the store or memory fails. The file is then as it was.
pub fn put_value<S: Store>(
    alloc: Global,
    log: &mut Log<S>,
    hash_key: &[u8; HASH_KEY_LEN],
    writer: &str,
    now: u64,
    key: &str,
    value: Value,
) -> Result<(), Fault>
    ensures written { Writes S.Store log.old log.new result (WritesBy key.now writer.now now (Some value)) }
    ensures stands { StandsInStep S.Store hash_key.now log.old → StandsInStep S.Store hash_key.now log.new }
    // A crash leaves what it could leave before, or a log that is in step with its tree if it was.
    ensures crash { Leaves S.Store log.old log.new (StaysInStep hash_key.now) }
    // A key or a value that is too long is refused, and nothing is written.
    ensures fits { OnOk result (length key.now ≤ MOST × length (bytes_of_value value) ≤ MOST) }
    ensures long { IfErr result (λ why. IsTooLong why → MOST < length key.now ⊎ MOST < length (bytes_of_value value)) }
    ensures untouched { IfErr result (λ why. IsTooLong why → log.new ≡ log.old) }
    ensures faults { IfErr result (λ why. ¬ IsTooLong why → IsCommandFailure why) }
{
    within(key.as_bytes(), "the key")?;
    within(value.as_bytes(), "the value")?;
    let writer = String::from_str(alloc, writer)?;
    let key = String::from_str(alloc, key)?;
    put(alloc, log, hash_key, writer, now, key, value)?;
    Ok(())
}

/// Whether a value is this text.
fn is_text(value: &Value, text: &str) -> bool
    ensures { result ≡ is_same_text text.now value.now }
{
    match value {
        Value::Text(own) => own.as_str() == text,
        Value::Bytes(_) => false,
    }
}

/// Whether a key that says this is as a write wants it.
fn is_met(wanted: Wanted<'_>, said: &Option<Value>) -> bool
    ensures { result ≡ says_it wanted.entry said.now }
{
    match wanted {
        Wanted::Absence => said.is_none(),
        Wanted::Text(text) => match said {
            Some(own) => is_text(own, text),
            None => false,
        },
    }
}

/// Refuses a key that isn't as a write wants it.
fn expect<S: Store>(
    alloc: Global,
    log: &mut Log<S>,
    key: &str,
    wanted: Wanted<'_>,
) -> Result<(), Fault>
    ensures met { Shows S.Store log.old log.new result (IsMet wanted.entry key.now true) }
    ensures unmet { Refuses S.Store log.old log.new result Fault.Unmet (IsMet wanted.entry key.now false) }
    ensures faults { IfErr result (λ why. why ≢ Fault.Unmet → IsCommandFailure why) }
    ensures reads { OnlyReads S.Store log.old log.new result }
{
    let said = value_of(find(alloc, log, key)?);
    if is_met(wanted, &said) {
        Ok(())
    } else {
        Err(Fault::Unmet)
    }
}

/// Writes a value under a key that is as wanted: not there, or with that text. It takes one look into the table more than [`put_value`].
///
/// # Errors
///
/// [`Fault::Unmet`] where the key isn't so, and those of [`put_value`]. The file is then as it was.
pub fn put_if<S: Store>(
    alloc: Global,
    log: &mut Log<S>,
    hash_key: &[u8; HASH_KEY_LEN],
    writer: &str,
    now: u64,
    key: &str,
    value: Value,
    wanted: Wanted<'_>,
) -> Result<(), Fault>
    ensures written { Writes S.Store log.old log.new result (WritesIf wanted.entry key.now writer.now now (Some value)) }
    ensures stands { StandsInStep S.Store hash_key.now log.old → StandsInStep S.Store hash_key.now log.new }
    // A crash leaves what it could leave before, or a log that is in step with its tree if it was.
    ensures crash { Leaves S.Store log.old log.new (StaysInStep hash_key.now) }
    ensures unmet { Refuses S.Store log.old log.new result Fault.Unmet (IsMet wanted.entry key.now false) }
    ensures faults { IfErr result (λ why. why ≢ Fault.Unmet → ¬ IsTooLong why → IsCommandFailure why) }
{
    expect(alloc, log, key, wanted)?;
    put_value(alloc, log, hash_key, writer, now, key, value)
}

/// Removes a key: the log and its tree have the removal then.
///
/// # Errors
///
/// [`Fault::NoKey`] where the key isn't there, and [`Fault::Store`]. The file is then as it was.
pub fn del<S: Store>(
    alloc: Global,
    log: &mut Log<S>,
    hash_key: &[u8; HASH_KEY_LEN],
    writer: &str,
    now: u64,
    key: &str,
) -> Result<(), Fault>
    ensures written { Writes S.Store log.old log.new result (WritesBy key.now writer.now now None) }
    ensures stands { StandsInStep S.Store hash_key.now log.old → StandsInStep S.Store hash_key.now log.new }
    // A crash leaves what it could leave before, or a log that is in step with its tree if it was.
    ensures crash { Leaves S.Store log.old log.new (StaysInStep hash_key.now) }
    ensures there { Shows S.Store log.old log.new result (λ trees. IsThere trees key.now true) }
    // Where the key isn't there, nothing is written.
    ensures absent { Refuses S.Store log.old log.new result Fault.NoKey (λ trees. IsThere trees key.now false) }
    ensures untouched { Refuses S.Store log.old log.new result Fault.NoKey (λ trees. trees_of S.Store log.new ≡ trees) }
    ensures faults { IfErr result (λ why. why ≢ Fault.NoKey → IsCommandFailure why) }
{
    let writer = String::from_str(alloc, writer)?;
    let key = String::from_str(alloc, key)?;
    let there = remove(alloc, log, hash_key, writer, now, key)?;
    if there { Ok(()) } else { Err(Fault::NoKey) }
}

/// An entry that is written now over what the rows have at its key.
fn dated(
    alloc: Global,
    rows: &[(String, Register)],
    writer: &str,
    now: u64,
    entry: (String, Register),
) -> Result<(String, Register), Fault>
    ensures dated { IsMap text_order rows.now → IfOk result (λ dated. IsDated rows.now writer.now now entry dated) }
    ensures faults { IfErr result IsCommandFailure }
{
    let time = match register_in(rows, &entry.0) {
        Some(register) => register.time.checked_add(1),
        None => Some(now),
    };
    let Some(time) = time else {
        return Err(Fault::Store(StoreFault::Time));
    };
    let writer = String::from_str(alloc, writer)?;
    Ok((
        entry.0,
        Register {
            time: time.max(now),
            writer,
            value: entry.1.value,
        },
    ))
}

/// The entries, each written now over what the rows have at its key.
fn all_dated(
    alloc: Global,
    rows: &[(String, Register)],
    writer: &str,
    now: u64,
    entries: Entries,
) -> Result<Entries, Fault>
    ensures dated { IsMap text_order rows.now → IfOk result (AreDated rows.now writer.now now entries) }
    ensures faults { IfErr result IsCommandFailure }
{
    let mut all = Vec::new(alloc);
    'entries: for entry in entries {
        let entry = dated(alloc, rows, writer, now, entry)?;
        all.push(entry)?;
    }
    Ok(all)
}

/// Whether an entry is later than what the rows have at its key.
fn is_news(rows: &[(String, Register)], entry: &(String, Register)) -> bool
    ensures { IsMap text_order rows.now → result ≡ is_newer rows.now entry.now }
{
    match register_in(rows, &entry.0) {
        Some(own) => *own < entry.1,
        None => true,
    }
}

/// Takes out the entries that are no later than what the rows have at their keys.
fn retain_news(news: &mut Entries, rows: &[(String, Register)])
    ensures { IsMap text_order rows.now → news.new.items ≡ filter (is_newer rows.now) news.old.items }
{
    news.retain(
        |entry: &(String, Register)| -> bool
            ensures { IsMap text_order rows.entry.now → result ≡ is_newer rows.entry.now entry.now }
        { is_news(rows, entry) },
    );
}

/// What is said of an entry that is too far ahead of the clock.
fn naming(alloc: Global, entry: &(String, Register)) -> Result<Named, AllocError> {
    Ok(Named {
        key: cut(alloc, entry.0.as_str())?,
        time: entry.1.time,
        writer: cut(alloc, entry.1.writer.as_str())?,
    })
}

/// The fault of an entry that is too far ahead of the clock.
fn ahead_of(alloc: Global, entry: &(String, Register)) -> Fault
    ensures { ¬ IsAhead result → IsCommandFailure result }
{
    match naming(alloc, entry) {
        Ok(entry) => Fault::Future(entry),
        Err(error) => Fault::from(error),
    }
}

/// Refuses entries whose time is above the latest that is taken.
fn not_above(alloc: Global, entries: &[(String, Register)], latest: u64) -> Result<(), Fault>
    ensures timely { OnOk result (All (λ entry. entry.1.time ≤ latest) entries.now) }
    ensures future { IfErr result (λ why. HaveFutureTime latest entries.now) }
    ensures faults { IfErr result (λ why. ¬ IsAhead why → IsCommandFailure why) }
{
    'entries: for entry in entries {
        if entry.1.time > latest {
            return Err(ahead_of(alloc, entry));
        }
    }
    Ok(())
}

/// The entries of an import that are to be added, of those that came; and how many keys the log has.
fn entries_to_add<S: Store>(
    alloc: Global,
    log: &mut Log<S>,
    writer: &str,
    now: u64,
    came: Entries,
    limit: Option<u64>,
) -> Result<(Entries, usize), Fault>
    ensures added { Finds S.Store log.old log.new result (λ trees added. AddsOf limit writer.now now trees came.items added.0.items) }
    ensures reads { OnlyReads S.Store log.old log.new result }
    ensures faults { IfErr result (λ why. ¬ IsAhead why → IsCommandFailure why) }
{
    let rows = read_latest(alloc, log)?;
    let keys = rows.len();
    let mut last = latest_rows(came);
    let Some(latest) = limit else {
        let dated = all_dated(alloc, &rows, writer, now, last)?;
        return Ok((dated, keys));
    };
    not_above(alloc, &last, latest)?;
    retain_news(&mut last, &rows);
    Ok((last, keys))
}

/// How many keys there are to an entry where loading the tree anew takes no longer than writing each key to it.
const KEYS_TO_AN_ENTRY: usize = 8;

/// Adds entries to a log of about so many keys, and to its tree, all or none: by [`add_all`], or by [`add_many`] if they are many beside the keys. It takes
/// the time of that.
///
/// # Errors
///
/// Those of [`add_all`].
pub fn add_beside<S: Store>(
    alloc: Global,
    log: &mut Log<S>,
    hash_key: &[u8; HASH_KEY_LEN],
    entries: &[(String, Register)],
    keys: usize,
) -> Result<(), StoreFault>
    ensures added { Writes S.Store log.old log.new result (AddsInStep hash_key.now entries.now) }
    ensures stands { StandsInStep S.Store hash_key.now log.old → StandsInStep S.Store hash_key.now log.new }
    ensures late { IsErrOf result StoreFault.Time → HaveLateTime entries.now }
    ensures faults { IfErr result IsUnwritten }
{
    if entries.len() < keys / KEYS_TO_AN_ENTRY {
        add_all(alloc, log, hash_key, entries)
    } else {
        add_many(alloc, log, hash_key, entries)
    }
}

/// Writes the entries of an import, in the log and in its tree, all or none: the last of each key; and of a log, where `limit` has the latest time that an
/// entry may have, those that are later than what the store has.
///
/// # Errors
///
/// [`Fault::Future`] names an entry of a log that is later than `limit`; and [`Fault::Store`]. The file is then as it was.
pub fn import<S: Store>(
    alloc: Global,
    log: &mut Log<S>,
    hash_key: &[u8; HASH_KEY_LEN],
    writer: &str,
    now: u64,
    came: Entries,
    limit: Option<u64>,
) -> Result<(), Fault>
    ensures written { Writes S.Store log.old log.new result (Imports came.items limit writer.now now) }
    ensures stands { StandsInStep S.Store hash_key.now log.old → StandsInStep S.Store hash_key.now log.new }
    // A crash leaves what it could leave before, or a log that is in step with its tree if it was.
    ensures crash { Leaves S.Store log.old log.new (StaysInStep hash_key.now) }
    // But for an entry of a log that is too late it fails only if memory or the store does.
    ensures faults { IfErr result (λ why. ¬ IsAhead why → IsCommandFailure why) }
{
    let added = entries_to_add(alloc, log, writer, now, came, limit)?;
    add_beside(alloc, log, hash_key, &added.0, added.1)?;
    Ok(())
}
