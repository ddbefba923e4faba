//! A command on the file of a store.
ghost use Rattle.std.specs.Prelude.{◌≡◌, ◌≢◌, [], false, string_bytes};
ghost use Rattle.store_file.specs.Entries.{HoldsEntries};
ghost use Rattle.mst_commands.specs.Carries.{Carries};
ghost use Rattle.mst_words.specs.declared.command.StoreCommand.TheVariants.{Table};
ghost use Rattle.store_file.specs.Changes.{WritesByNow};
ghost use Rattle.store_file.specs.Logs.{Finds, IsSteady, Leaves, Makes, OnlyReads};
ghost use Rattle.store_rows.specs.InStep.{HashesInStep, StandsInStep};
ghost use Rattle.mst.specs.Naming.{BeginsToCarry, CarriesBy, IsNewlyNamed, names_first, writes_by_name as is_by_name};

use crate::fault::Failure;
use merkle_digest::{PageDigest, RootHash, SipHasher};
use merkle_search_tree::MerkleSearchTree;
use merkle_search_tree::builder::{Builder, PageFormat};
use mst_commands::input::read_input;
use mst_commands::{Input, run};
use mst_files::closing::{Closing, close_behind};
use mst_files::fault::FileFault;
use mst_files::making::random_name;
use mst_files::opening::{expect_file, open_file, open_whole};
use mst_words::hash_key::number_of;
use mst_words::{StoreCommand, TableCommand};
use sqlite_std_file::OpenError;
use sqlite_trees::store::Store as Trees;
use std::alloc::{AllocError, Global};
use std::fs;
use store_file::Register;
use store_file::format::{Note, recognise};
use store_file::log::Log;
use store_file::naming::name_writer;
use store_file::table::{Entries, read_log};
use store_rows::checking::fits;
use store_rows::hashing::hash;

/// The root hash of a tree whose root page has this digest, or of a tree without keys.
fn root_hash_of(alloc: Global, digest: Option<PageDigest>) -> Result<RootHash, AllocError> {
    if let Some(digest) = digest {
        return Ok(RootHash::new(digest));
    }
    let mut tree: MerkleSearchTree<String, Register, SipHasher, 16> = Builder::default()
        .with_page_format(PageFormat::V2)
        .build(alloc);
    tree.root_hash().clone()
}

/// The root hash of what the file holds, by the tree in the file. What wasn't known of the tree's pages is found out and kept.
fn root_of<S: Trees>(rt: &HostRuntime, log: &mut Log<S>, note: &Note) -> Result<RootHash, Failure>
    ensures hashed { Makes S.Store log.old log.new result (HashesInStep note.now.hash_key) }
    ensures stands { StandsInStep S.Store note.now.hash_key log.old → StandsInStep S.Store note.now.hash_key log.new }
{
    let root = hash(rt.alloc(), log, &note.hash_key)?;
    Ok(root_hash_of(rt.alloc(), root.digest)?)
}

/// The same, once the tree in the file was found to be that of the rows.
fn checked_root<S: Trees>(
    rt: &HostRuntime,
    log: &mut Log<S>,
    note: &Note,
) -> Result<RootHash, Failure>
    ensures stands { StandsInStep S.Store note.now.hash_key log.old → StandsInStep S.Store note.now.hash_key log.new }
{
    if !fits(rt.alloc(), log, &note.hash_key)? {
        return Err(Failure::Misfit);
    }
    root_of(rt, log, note)
}

/// Prints a root hash: as a line of its own, as a line of a status, or as a member of an object of JSON.
fn print_root(rt: &HostRuntime, root: &RootHash, command: StoreCommand<'_>) -> Result<(), Failure> {
    match command {
        StoreCommand::Table(TableCommand::Status { json } | TableCommand::Check { json }) => {
            if json {
                print!(rt; "\"root\":\"{root}\"")?;
            } else {
                println!(rt; "root {root}")?;
            }
        }
        _ => println!(rt; "{root}")?,
    }
    Ok(())
}

/// Prints what ends a status: how many bytes the file has, where that is told, and the end of an object of JSON.
pub fn print_end(
    rt: &HostRuntime,
    command: StoreCommand<'_>,
    bytes: Option<u64>,
) -> Result<(), Failure> {
    let json = match command {
        StoreCommand::Table(TableCommand::Status { json } | TableCommand::Check { json }) => json,
        _ => return Ok(()),
    };
    match bytes {
        Some(bytes) if json => print!(rt; ",\"bytes\":{bytes}")?,
        Some(bytes) => println!(rt; "bytes {bytes}")?,
        None => {}
    }
    if json {
        println!(rt; "}}")?;
    }
    Ok(())
}

/// Whether a command writes by the store's name.
fn writes_by_name(command: StoreCommand<'_>) -> bool
    ensures { result ≡ is_by_name command.entry }
{
    matches!(
        command,
        StoreCommand::Table(
            TableCommand::Put { .. }
                | TableCommand::Del { .. }
                | TableCommand::Import { is_log: false, .. },
        )
    )
}

/// Draws a name for a store that has none, as one that `backup` made.
pub fn name_store<S: Trees>(
    rt: &HostRuntime,
    log: &mut Log<S>,
    note: &mut Note,
) -> Result<(), Failure>
    ensures kept { string_bytes note.old.writer ≢ [] → (log.new ≡ log.old) × (note.new ≡ note.old) }
    ensures named { string_bytes note.old.writer ≡ [] → Makes S.Store log.old log.new result (WritesByNow (string_bytes note.new.writer)) }
    ensures hash_key { note.new.hash_key ≡ note.old.hash_key }
    ensures stands { StandsInStep S.Store note.old.hash_key log.old → StandsInStep S.Store note.old.hash_key log.new }
    ensures steady { IsSteady S.Store log.old log.new }
    ensures crash { Leaves S.Store log.old log.new IsNewlyNamed }
{
    if note.writer.is_empty() {
        let name = random_name(rt)?;
        name_writer(rt.alloc(), log, name.as_str())?;
        note.writer = name;
    }
    Ok(())
}

/// The root hash, where a command tells it.
fn root_for<S: Trees>(
    rt: &HostRuntime,
    log: &mut Log<S>,
    note: &Note,
    command: StoreCommand<'_>,
) -> Result<Option<RootHash>, Failure>
    ensures stands { StandsInStep S.Store note.now.hash_key log.old → StandsInStep S.Store note.now.hash_key log.new }
{
    match command {
        StoreCommand::Root | StoreCommand::Table(TableCommand::Status { .. }) => {
            Ok(Some(root_of(rt, log, note)?))
        }
        StoreCommand::Table(TableCommand::Check { .. }) => Ok(Some(checked_root(rt, log, note)?)),
        _ => Ok(None),
    }
}

/// Runs a command on an open log of a store that notes this of itself, with what was read from standard input before. The root hash (`print_root`)
/// and what ends a status (`print_end`) aren't printed yet.
fn run_open<S: Trees>(
    rt: &HostRuntime,
    log: &mut Log<S>,
    note: &Note,
    command: StoreCommand<'_>,
    input: Input,
) -> Result<(), Failure>
    ensures carried { Makes S.Store log.old log.new result (Carries command.entry (string_bytes note.now.writer) input) }
    ensures crash { Leaves S.Store log.old log.new (Carries command.entry (string_bytes note.now.writer) input) }
    ensures stands { StandsInStep S.Store note.now.hash_key log.old → StandsInStep S.Store note.now.hash_key log.new }
    ensures steady { IsSteady S.Store log.old log.new }
{
    match command {
        StoreCommand::Table(command) => {
            run::run(
                rt,
                log,
                &note.hash_key,
                note.writer.as_str(),
                command,
                input,
            )?;
        }
        StoreCommand::Root => {}
        StoreCommand::HashKey => println!(rt; "{:032x}", number_of(&note.hash_key))?,
    }
    Ok(())
}

/// Runs a command on an open log, by a name that is drawn first where the command writes and the store has none.
fn run_named<S: Trees>(
    rt: &HostRuntime,
    log: &mut Log<S>,
    note: &mut Note,
    command: StoreCommand<'_>,
    input: Input,
) -> Result<(), Failure>
    ensures kept { names_first command.entry (string_bytes note.old.writer) ≡ false → note.new ≡ note.old }
    // It is carried out by the name that the note then has.
    ensures carried { Makes S.Store log.old log.new result (CarriesBy command.entry (string_bytes note.old.writer) input (string_bytes note.new.writer)) }
    ensures stands { StandsInStep S.Store note.old.hash_key log.old → StandsInStep S.Store note.old.hash_key log.new }
    ensures crash { Leaves S.Store log.old log.new (BeginsToCarry command.entry (string_bytes note.old.writer) input) }
{
    if writes_by_name(command) {
        name_store(rt, log, note)?;
    }
    run_open(rt, log, note, command, input)
}

/// The same, and prints the root hash behind what the command prints, where it tells that. Nothing is printed by a check that finds a tree
/// which doesn't fit the rows; if rows are damaged, it names these.
pub fn run_told<S: Trees>(
    rt: &HostRuntime,
    log: &mut Log<S>,
    note: &mut Note,
    command: StoreCommand<'_>,
    input: Input,
) -> Result<(), Failure> {
    let root = root_for(rt, log, note, command);
    if let Err(Failure::Misfit) = root {
        return Err(Failure::Misfit);
    }
    run_named(rt, log, note, command, input)?;
    if let Some(root) = root? {
        print_root(rt, &root, command)?;
    }
    Ok(())
}

/// What a store notes of itself, and all its entries.
fn whole_of<S: Trees>(rt: &HostRuntime, log: &mut Log<S>) -> Result<(Note, Entries), Failure>
    ensures entries { Finds S.Store log.old log.new result (λ trees whole. HoldsEntries trees whole.1.items) }
    ensures reads { OnlyReads S.Store log.old log.new result }
{
    let note = recognise(rt.alloc(), log)?;
    let entries = read_log(rt.alloc(), log)?;
    Ok((note, entries))
}

/// The same of a log that is open, and closes its file.
fn whole_on<S: Trees + Drop>(rt: &HostRuntime, log: Log<S>) -> Result<(Note, Entries), Failure>
where
    Log<S>: Closing,
{
    let mut log = log;
    let read = whole_of(rt, &mut log);
    close_behind(log, read)
}

/// What a store notes of itself, and all its entries, out of its file.
pub fn read_whole(rt: &HostRuntime, path: &str, seconds: u64) -> Result<(Note, Entries), Failure> {
    whole_on(rt, open_file(rt, path, seconds)?)
}

/// Runs a command by a log that is lent.
fn run_lent<S: Trees>(
    rt: &HostRuntime,
    log: &mut Log<S>,
    command: StoreCommand<'_>,
    input: Input,
) -> Result<(), Failure> {
    let mut note = recognise(rt.alloc(), log)?;
    run_told(rt, log, &mut note, command, input)
}

/// The same of a log that is open, and closes its file.
fn run_on<S: Trees + Drop>(
    rt: &HostRuntime,
    log: Log<S>,
    command: StoreCommand<'_>,
    input: Input,
) -> Result<(), Failure>
where
    Log<S>: Closing,
{
    let mut log = log;
    let done = run_lent(rt, &mut log, command, input);
    close_behind(log, done)
}

/// How many bytes a file has.
fn size_of(rt: &HostRuntime, path: &str) -> Result<u64, Failure> {
    match fs::metadata(rt, path) {
        Ok(found) => Ok(found.len()),
        Err(error) => Err(Failure::File(FileFault::Path(OpenError::Io(error)))),
    }
}

/// Runs a command on a file, which is opened once standard input was read to its end where the command takes something from there.
pub fn run(
    rt: &HostRuntime,
    path: &str,
    seconds: u64,
    command: StoreCommand<'_>,
) -> Result<(), Failure> {
    // (a file that isn't there is told before anything is typed)
    expect_file(rt, path)?;
    let input = read_input(rt, command)?;
    if let StoreCommand::Table(TableCommand::Check { .. }) = command {
        run_on(rt, open_whole(rt, path, seconds)?, command, input)?;
    } else {
        run_on(rt, open_file(rt, path, seconds)?, command, input)?;
    }
    print_end(rt, command, Some(size_of(rt, path)?))
}
