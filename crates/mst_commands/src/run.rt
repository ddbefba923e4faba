//! A command on an open store.
ghost use Rattle.std.specs.Prelude.{◌≡◌, IfErr, OnOk};
ghost use Rattle.store_file.specs.Logs.{Leaves, OnlyReads, Writes};
ghost use Rattle.store_rows.specs.InStep.{StandsInStep, StaysInStep};
ghost use Rattle.mst_commands.specs.Carries.{Carries, Compacts, ImportsInput, Puts, value_of as value_from};
ghost use Rattle.mst_commands.specs.Faults.{IsDevice, StaysAtDevice};
ghost use Rattle.mst_words.specs.declared.command.StoreCommand.TheVariants.{Table};

use crate::bounds::{Bounds, Listing};
use crate::clock::{latest, now};
use crate::damage::{expect_entries, tell};
use crate::fault::Fault;
use crate::history::history;
use crate::input::{Input, entries_in, value_of};
use crate::reading::{count, export, export_log, get, list, status};
use crate::writing::{del, import, put_if, put_value};
use mst_words::{Selection, TableCommand, Wanted};
use sqlite_trees::store::Store;
use std::io::{self, BufWriter, ErrorKind, Write};
use store_file::format::HASH_KEY_LEN;
use store_file::log::Log;
use store_rows::writing::compact;

/// Writes the text that is given, or the value of standard input, if the key is as it is wanted.
fn put_given<S: Store>(
    rt: &HostRuntime,
    log: &mut Log<S>,
    hash_key: &[u8; HASH_KEY_LEN],
    writer: &str,
    key: &str,
    text: &str,
    wanted: Option<Wanted<'_>>,
    input: Input,
) -> Result<(), Fault>
    ensures carried { Writes S.Store log.old log.new result (Puts writer.now key.now (value_from input text.now) wanted.entry) }
    ensures stands { StandsInStep S.Store hash_key.now log.old → StandsInStep S.Store hash_key.now log.new }
    ensures crash { Leaves S.Store log.old log.new (StaysInStep hash_key.now) }
{
    let alloc = rt.alloc();
    let value = value_of(alloc, text, input)?;
    let Some(wanted) = wanted else {
        return put_value(alloc, log, hash_key, writer, now(rt)?, key, value);
    };
    put_if(alloc, log, hash_key, writer, now(rt)?, key, value, wanted)
}

/// Prints the value of a key.
fn print_value<S: Store>(rt: &HostRuntime, log: &mut Log<S>, key: &str) -> Result<(), Fault>
    ensures reads { OnlyReads S.Store log.old log.new result }
    ensures device { StaysAtDevice S.Store log.old log.new result }
{
    let mut out = BufWriter::new(rt.alloc(), io::writer(rt))?;
    get(rt.alloc(), log, &mut out, key)?;
    out.flush()?;
    Ok(())
}

/// Prints the keys with their values.
fn print_list<S: Store>(
    rt: &HostRuntime,
    log: &mut Log<S>,
    selection: Selection<'_>,
    json: bool,
) -> Result<(), Fault>
    ensures reads { OnlyReads S.Store log.old log.new result }
    ensures device { StaysAtDevice S.Store log.old log.new result }
{
    let mut out = BufWriter::new(rt.alloc(), io::writer(rt))?;
    let listing = Listing {
        bounds: Bounds {
            first: selection.from,
            last: selection.to,
            prefix: selection.prefix,
        },
        limit: selection.limit.unwrap_or(u64::MAX),
        json,
    };
    list(rt.alloc(), log, &mut out, &listing)?;
    out.flush()?;
    Ok(())
}

/// Prints the rows of a key.
fn print_history<S: Store>(
    rt: &HostRuntime,
    log: &mut Log<S>,
    key: &str,
    json: bool,
) -> Result<(), Fault>
    ensures reads { OnlyReads S.Store log.old log.new result }
    ensures device { StaysAtDevice S.Store log.old log.new result }
{
    let mut out = BufWriter::new(rt.alloc(), io::writer(rt))?;
    history(rt.alloc(), log, &mut out, key, json)?;
    out.flush()?;
    Ok(())
}

/// What was printed. A reader who has gone wanted no more, so that it is no failure.
fn unless_gone(printed: Result<(), Fault>) -> Result<(), Fault>
    ensures gone { OnOk result (IfErr printed IsDevice) }
    ensures told { IfErr result (λ why. printed ≡ Err why) }
{
    match printed {
        Err(Fault::Device(error)) if error.kind() == ErrorKind::BrokenPipe => Ok(()),
        printed => printed,
    }
}

/// Prints how many keys there are.
fn print_count<S: Store>(rt: &HostRuntime, log: &mut Log<S>) -> Result<(), Fault>
    ensures reads { OnlyReads S.Store log.old log.new result }
{
    let mut out = BufWriter::new(rt.alloc(), io::writer(rt))?;
    count(rt.alloc(), log, &mut out)?;
    out.flush()?;
    Ok(())
}

/// Prints what the file holds.
fn print_status<S: Store>(
    rt: &HostRuntime,
    log: &mut Log<S>,
    writer: &str,
    json: bool,
) -> Result<(), Fault>
    ensures reads { OnlyReads S.Store log.old log.new result }
{
    let mut out = BufWriter::new(rt.alloc(), io::writer(rt))?;
    status(rt.alloc(), log, &mut out, writer, json)?;
    out.flush()?;
    Ok(())
}

/// Prints what the file holds, once each row was found to be an entry.
fn print_check<S: Store>(
    rt: &HostRuntime,
    log: &mut Log<S>,
    writer: &str,
    json: bool,
) -> Result<(), Fault>
    ensures reads { OnlyReads S.Store log.old log.new result }
{
    expect_entries(rt, log)?;
    print_status(rt, log, writer, json)
}

/// Prints the log as CSV, but for rows that are no entries: these it names on standard error, and fails.
fn print_log<S: Store>(rt: &HostRuntime, log: &mut Log<S>) -> Result<(), Fault>
    ensures reads { OnlyReads S.Store log.old log.new result }
    ensures device { StaysAtDevice S.Store log.old log.new result }
{
    let out = BufWriter::new(rt.alloc(), io::writer(rt))?;
    let (_out, bad) = export_log(rt.alloc(), log, out)?;
    tell(rt, &bad)
}

/// Prints the keys and values, or the log, as CSV.
fn print_csv<S: Store>(rt: &HostRuntime, log: &mut Log<S>, is_log: bool) -> Result<(), Fault>
    ensures reads { OnlyReads S.Store log.old log.new result }
    ensures device { StaysAtDevice S.Store log.old log.new result }
{
    if is_log {
        return print_log(rt, log);
    }
    let out = BufWriter::new(rt.alloc(), io::writer(rt))?;
    export(rt.alloc(), log, out)?;
    Ok(())
}

/// Writes the entries of standard input.
fn import_input<S: Store>(
    rt: &HostRuntime,
    log: &mut Log<S>,
    hash_key: &[u8; HASH_KEY_LEN],
    writer: &str,
    is_log: bool,
    ahead: bool,
    input: Input,
) -> Result<(), Fault>
    ensures carried { Writes S.Store log.old log.new result (ImportsInput writer.now is_log ahead input) }
    ensures stands { StandsInStep S.Store hash_key.now log.old → StandsInStep S.Store hash_key.now log.new }
    ensures crash { Leaves S.Store log.old log.new (StaysInStep hash_key.now) }
{
    let time = now(rt)?;
    let limit = if is_log {
        Some(latest(time, ahead))
    } else {
        None
    };
    let came = entries_in(rt.alloc(), input);
    import(rt.alloc(), log, hash_key, writer, time, came, limit)
}

/// Leaves one row for each key, and drops removals that are older than this many milliseconds.
fn compact_older<S: Store>(
    rt: &HostRuntime,
    log: &mut Log<S>,
    hash_key: &[u8; HASH_KEY_LEN],
    forget: Option<u64>,
) -> Result<(), Fault>
    ensures carried { Writes S.Store log.old log.new result (Compacts forget) }
    ensures stands { StandsInStep S.Store hash_key.now log.old → StandsInStep S.Store hash_key.now log.new }
    ensures crash { Leaves S.Store log.old log.new (StaysInStep hash_key.now) }
{
    let before = match forget {
        Some(span) => now(rt)?.saturating_sub(span),
        None => 0,
    };
    compact(rt.alloc(), log, hash_key, before)?;
    Ok(())
}

/// Runs a command on the log of a store that hashes under this key and writes by this name, with what it read from standard input before. What it writes
/// to the log it writes to the tree.
pub fn run<S: Store>(
    rt: &HostRuntime,
    log: &mut Log<S>,
    hash_key: &[u8; HASH_KEY_LEN],
    writer: &str,
    command: TableCommand<'_>,
    input: Input,
) -> Result<(), Fault>
    ensures carried { Writes S.Store log.old log.new result (Carries (Table command.entry) writer.now input) }
    // A log and its tree that were in step stay so, also where the command fails.
    ensures stands { StandsInStep S.Store hash_key.now log.old → StandsInStep S.Store hash_key.now log.new }
    // A crash leaves what it could leave before, or a log that is in step with its tree if it was.
    ensures crash { Leaves S.Store log.old log.new (StaysInStep hash_key.now) }
{
    match command {
        TableCommand::Put {
            key,
            value,
            wanted,
            ..
        } => put_given(rt, log, hash_key, writer, key, value, wanted, input),
        TableCommand::Get { key } => unless_gone(print_value(rt, log, key)),
        TableCommand::Del { key } => del(rt.alloc(), log, hash_key, writer, now(rt)?, key),
        TableCommand::List { selection, json } => {
            unless_gone(print_list(rt, log, selection, json))
        }
        TableCommand::Count => print_count(rt, log),
        TableCommand::History { key, json } => unless_gone(print_history(rt, log, key, json)),
        TableCommand::Status { json } => print_status(rt, log, writer, json),
        TableCommand::Check { json } => print_check(rt, log, writer, json),
        TableCommand::Import { is_log, ahead } => {
            import_input(rt, log, hash_key, writer, is_log, ahead, input)
        }
        TableCommand::Export { is_log } => unless_gone(print_csv(rt, log, is_log)),
        TableCommand::Compact { forget } => compact_older(rt, log, hash_key, forget),
    }
}
