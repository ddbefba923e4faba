//! Writes over the latest register of a key, which keep a log and the tree of its latest registers in step, each in one transaction.
ghost use Rattle.std.specs.Prelude.{◌≤◌, ◌^◌, ◌∷◌, [], Some, None, IfErr, IsErrOf, string_bytes};
ghost use Rattle.store_file.specs.Faults.{IsUnwritten};
ghost use Rattle.store_file.specs.Latest.{IsWrittenLate, WritesOver};
ghost use Rattle.store_file.specs.Logs.{Leaves, Refuses, Writes};
ghost use Rattle.store_file.specs.Registers.{time_after};
ghost use Rattle.store_rows.specs.InStep.{AddsInStep, StandsInStep, StaysInStep};
ghost use Rattle.store_rows.specs.Removals.{RemovesIfThere, WritesAndFinds, entry_over};

use crate::writing::add_all;
use sqlite_trees::store::Store;
use std::alloc::Global;
use std::slice::from_ref;
use store_file::format::HASH_KEY_LEN;
use store_file::latest::{find, has_value, later_time};
use store_file::log::Log;
use store_file::{Register, StoreFault, Value};

/// Adds an entry over what `found` says of its key, at its time, or one above that of what was found.
fn write_over<S: Store>(
    alloc: Global,
    log: &mut Log<S>,
    hash_key: &[u8; HASH_KEY_LEN],
    found: &Option<Register>,
    entry: (String, Register),
) -> Result<(), StoreFault>
    ensures written { Writes S.Store log.old log.new result (AddsInStep hash_key.now (entry_over found.now entry ∷ [])) }
    ensures stands { StandsInStep S.Store hash_key.now log.old → StandsInStep S.Store hash_key.now log.new }
    ensures late { IsErrOf result StoreFault.Time → 2 ^ 63 ≤ time_after found.now entry.1.time }
    ensures faults { IfErr result IsUnwritten }
{
    let mut entry = entry;
    entry.1.time = later_time(found, entry.1.time)?;
    add_all(alloc, log, hash_key, from_ref(&entry))
}

/// Writes a value under a key, at the clock's time, or one above the time of what is there: a log and its tree that were in step stay so. It takes the time
/// of a look, an insertion, a [`write`](store_tree::write::write) to the tree and a commit.
///
/// ```rust crates/store_side_tests/src/logs.rt
/// put(alloc, log, hash_key, writer, now, key, value)?;
/// ```
///
/// # Errors
///
/// [`StoreFault::Time`] where the database can't hold that time, [`StoreFault::Database`], [`StoreFault::Malformed`] where a row is damaged, and
/// [`StoreFault::Memory`].
pub fn put<S: Store>(
    alloc: Global,
    log: &mut Log<S>,
    hash_key: &[u8; HASH_KEY_LEN],
    writer: String,
    now: u64,
    key: String,
    value: Value,
) -> Result<(), StoreFault>
    ensures written { Writes S.Store log.old log.new result (WritesOver (string_bytes key) writer now (Some value)) }
    // A crash leaves what it could leave before, or a log that is in step if it was.
    ensures crash { Leaves S.Store log.old log.new (StaysInStep hash_key.now) }
    ensures stands { StandsInStep S.Store hash_key.now log.old → StandsInStep S.Store hash_key.now log.new }
    ensures late { Refuses S.Store log.old log.new result StoreFault.Time (λ old. IsWrittenLate old (string_bytes key) now) }
    ensures faults { IfErr result IsUnwritten }
{
    let found = find(alloc, log, key.as_str())?;
    let register = Register {
        time: now,
        writer,
        value: Some(value),
    };
    write_over(alloc, log, hash_key, &found, (key, register))
}

/// Removes a key, and returns whether it was there. Where it was not, nothing is written. A log and its tree that were in step stay so: the tree keeps the
/// key, with the digest of its removal. It takes what [`put`] takes.
///
/// ```rust crates/store_side_tests/src/logs.rt
/// return remove(alloc, log, hash_key, writer, now, key);
/// ```
///
/// # Errors
///
/// [`StoreFault::Time`] where the database can't hold the time of the removal, and those of [`put`].
pub fn remove<S: Store>(
    alloc: Global,
    log: &mut Log<S>,
    hash_key: &[u8; HASH_KEY_LEN],
    writer: String,
    now: u64,
    key: String,
) -> Result<bool, StoreFault>
    ensures removed { WritesAndFinds S.Store log.old log.new result (RemovesIfThere (string_bytes key) writer now) (WritesOver (string_bytes key) writer now None) }
    // A crash leaves what it could leave before, or a log that is in step if it was.
    ensures crash { Leaves S.Store log.old log.new (StaysInStep hash_key.now) }
    ensures stands { StandsInStep S.Store hash_key.now log.old → StandsInStep S.Store hash_key.now log.new }
    ensures late { Refuses S.Store log.old log.new result StoreFault.Time (λ old. IsWrittenLate old (string_bytes key) now) }
    ensures faults { IfErr result IsUnwritten }
{
    let found = find(alloc, log, key.as_str())?;
    if !has_value(&found) {
        return Ok(false);
    }
    let register = Register {
        time: now,
        writer,
        value: None,
    };
    write_over(alloc, log, hash_key, &found, (key, register))?;
    Ok(true)
}
