//! The format of a store's file: how it is made, and how it is recognised.
ghost use Rattle.std.specs.Prelude.{◌≡◌, ◌≢◌, ◌⊎◌, ℤ, [], ◌∷◌, true, false, string_bytes, IfOk, IfErr, OnOk, MatchResult};
ghost use Rattle.sqlite_trees.specs.Tree.{order_of};
ghost use Rattle.sqlite_trees.specs.View.{OnlyWrites};
ghost use Rattle.sqlite_value.specs.Keys.{plain};
ghost use Rattle.sqlite_value.specs.Value.{owned};
ghost use Rattle.sqlite_value.specs.declared.value.Value.TheVariants.{Blob, Int, Text};
ghost use Rattle.store_file.specs.Changes.{IsBlank, IsNewStore, HasNoteMore};
ghost use Rattle.store_file.specs.Entries.{note_in, note_row};
ghost use Rattle.store_file.specs.Notes.{IsOtherStore, Notes, NotesFormat};
ghost use Rattle.store_file.specs.Faults.{IsFailure, IsForeign};
ghost use Rattle.store_file.specs.Logs.{HasTables, IsClean, Finds, Makes, Refuses, OnlyReads, Writes};
ghost use Rattle.store_file.specs.Transactions.{CommitsNothing};
ghost use Rattle.store_file.specs.Walks.{StaysBut, MakesView};

use crate::catalog::{ABOUT, CELLS, ENTRIES};
use crate::entry::text_in;
use crate::fault::StoreFault;
use crate::log::{CURSOR, Log, commit, settled};
use sqlite_trees::error::StoreError;
use sqlite_trees::store::{Direction, Store};
use sqlite_value::row::Row;
use sqlite_value::value::ValueRef;
use std::alloc::Global;

/// The format of the file.
pub const FORMAT: i64 = 4;

/// How many bytes a hash key has.
pub const HASH_KEY_LEN: usize = 16;

/// What a store says of itself.
#[derive(Debug, Drop)]
pub struct Note {
    /// The format of the file.
    pub format: i64,
    /// The name by which the store writes.
    pub writer: String,
    /// The key of SipHash under which keys and values are hashed. Copies of one store have the same.
    pub hash_key: [u8; HASH_KEY_LEN],
}

/// Fills in the first note, and returns whether it is the only one.
pub(crate) fn only_note<S: Store>(
    trees: &mut S,
    none: &Row,
    first: &mut Row,
    second: &mut Row,
) -> Result<bool, StoreError>
    requires tables { IsClean S.Store trees.old → HasTables (S.Store.view trees.old) }
    requires none { none.now ≡ [] }
    ensures one { Finds S.Store trees.old trees.new result (λ old one. one ≡ true → old 1 ≡ first.new ∷ []) }
    ensures more { Finds S.Store trees.old trees.new result (λ old one. one ≡ false → IsForeign old) }
    ensures same { MakesView S.Store trees.old trees.new result StaysBut }
    ensures uncommitted { CommitsNothing S.Store trees.old trees.new }
{
    trees.seek(CURSOR, ABOUT, none, Direction::Forward)?;
    if !trees.next(CURSOR, first)? {
        return Ok(false);
    }
    Ok(!trees.next(CURSOR, second)?)
}

/// A number.
pub(crate) fn number_in(value: ValueRef<'_>) -> Result<i64, StoreFault>
    ensures number { IfOk result (λ number. owned value.entry ≡ Int number) }
    ensures failed { IfErr result IsFailure }
{
    match value {
        ValueRef::Int(number) => Ok(number),
        _ => Err(StoreFault::Malformed),
    }
}

/// A hash key.
fn hash_key_in(value: ValueRef<'_>) -> Result<[u8; HASH_KEY_LEN], StoreFault>
    ensures hash_key { IfOk result (λ hash_key. owned value.entry ≡ Blob hash_key) }
    ensures failed { IfErr result IsFailure }
{
    let ValueRef::Blob(bytes) = value else {
        return Err(StoreFault::Malformed);
    };
    match <[u8; HASH_KEY_LEN]>::try_from(bytes) {
        Ok(hash_key) => Ok(hash_key),
        Err(_) => Err(StoreFault::Malformed),
    }
}

/// What a row notes.
pub(crate) fn note_of(alloc: Global, row: &Row) -> Result<Note, StoreFault>
    ensures note { IfOk result (λ note. note_in row.now ≡ Int note.format ∷ Text (string_bytes note.writer) ∷ Blob note.hash_key ∷ []) }
    ensures failed { IfErr result IsFailure }
{
    let format = number_in(row.get(2))?;
    let writer = text_in(alloc, row.get(3))?;
    let hash_key = hash_key_in(row.get(4))?;
    Ok(Note {
        format,
        writer,
        hash_key,
    })
}

/// The note.
fn read_note<S: Store>(alloc: Global, trees: &mut S) -> Result<Note, StoreFault>
    requires tables { IsClean S.Store trees.old → HasTables (S.Store.view trees.old) }
    ensures noted { Finds S.Store trees.old trees.new result Notes }
    ensures foreign { Refuses S.Store trees.old trees.new result StoreFault.Foreign IsForeign }
    ensures faults { IfErr result (λ why. why ≢ StoreFault.Foreign → IsFailure why) }
    ensures same { MakesView S.Store trees.old trees.new result StaysBut }
    ensures uncommitted { CommitsNothing S.Store trees.old trees.new }
{
    let none = Row::new(alloc);
    let mut first = Row::new(alloc);
    if !only_note(trees, &none, &mut first, &mut Row::new(alloc))? {
        return Err(StoreFault::Foreign);
    }
    note_of(alloc, &first)
}

/// What the store says of itself, in whatever format it is. It takes the time of reading one row.
///
/// # Errors
///
/// [`StoreFault::Foreign`] where there is not just one note, [`StoreFault::Database`], [`StoreFault::Malformed`] and [`StoreFault::Memory`];
/// nothing is written.
pub fn about<S: Store>(alloc: Global, log: &mut Log<S>) -> Result<Note, StoreFault>
    ensures noted { Finds S.Store log.old log.new result Notes }
    ensures foreign { Refuses S.Store log.old log.new result StoreFault.Foreign IsForeign }
    ensures faults { IfErr result (λ why. why ≢ StoreFault.Foreign → IsFailure why) }
    ensures reads { OnlyReads S.Store log.old log.new result }
{
    let read = read_note(alloc, &mut log.trees);
    settled(&mut log.trees, read)
}

/// The note, where it has this program's format.
pub(crate) fn in_format(note: Note) -> Result<Note, StoreFault>
    ensures { MatchResult result (λ it. (it ≡ note) × (note.format ≡ FORMAT)) (λ why. (why ≡ StoreFault.Format note.format) × (note.format ≢ FORMAT)) }
{
    if note.format == FORMAT {
        Ok(note)
    } else {
        Err(StoreFault::Format(note.format))
    }
}

/// What the store says of itself, where it is in this format. It takes the time of reading one row.
///
/// ```rust crates/mst/src/tasks.rt
/// let note = recognise(rt.alloc(), log)?;
/// let entries = read_log(rt.alloc(), log)?;
/// Ok((note, entries))
/// ```
///
/// # Errors
///
/// As of [`about`], and [`StoreFault::Format`] where the store is one of another version of this program; nothing is written.
pub fn recognise<S: Store>(alloc: Global, log: &mut Log<S>) -> Result<Note, StoreFault>
    ensures noted { Finds S.Store log.old log.new result Notes }
    ensures format { IfOk result (λ note. note.format ≡ FORMAT) }
    ensures foreign { Refuses S.Store log.old log.new result StoreFault.Foreign IsForeign }
    ensures other { (n : ℤ) → Refuses S.Store log.old log.new result (StoreFault.Format n) (NotesFormat n) }
    ensures faults { IfErr result (λ why. IsFailure why ⊎ IsOtherStore why) }
    ensures reads { OnlyReads S.Store log.old log.new result }
{
    let note = about(alloc, log)?;
    in_format(note)
}

/// Makes a row the note of this format, this writer and this hash key.
fn fill_note(row: &mut Row, writer: &str, hash_key: &[u8; HASH_KEY_LEN]) -> Result<(), StoreFault>
    ensures note { OnOk result (row.new ≡ note_row FORMAT writer.now hash_key.now) }
    ensures failed { IfErr result IsFailure }
{
    row.clear();
    row.push(ValueRef::Int(1))?;
    row.push(ValueRef::Null)?;
    row.push(ValueRef::Int(FORMAT))?;
    row.push(ValueRef::Text(writer.as_bytes()))?;
    row.push(ValueRef::Blob(hash_key))?;
    Ok(())
}

/// Whether a table has no row.
fn is_empty<S: Store>(
    trees: &mut S,
    table: u32,
    none: &Row,
    row: &mut Row,
) -> Result<bool, StoreError>
    requires order { IsClean S.Store trees.old → order_of ((S.Store.view trees.old).shape table) ≡ plain }
    requires none { none.now ≡ [] }
    ensures empty { Finds S.Store trees.old trees.new result (λ old empty. empty ≡ true → old table ≡ []) }
    ensures filled { Finds S.Store trees.old trees.new result (λ old empty. empty ≡ false → old table ≢ []) }
    ensures same { MakesView S.Store trees.old trees.new result StaysBut }
    ensures uncommitted { CommitsNothing S.Store trees.old trees.new }
{
    trees.seek(CURSOR, table, none, Direction::Forward)?;
    Ok(!trees.next(CURSOR, row)?)
}

/// Whether no table has a row.
fn is_blank<S: Store>(trees: &mut S, none: &Row, row: &mut Row) -> Result<bool, StoreError>
    requires tables { IsClean S.Store trees.old → HasTables (S.Store.view trees.old) }
    requires none { none.now ≡ [] }
    ensures blank { Finds S.Store trees.old trees.new result (λ old blank. blank ≡ true → IsBlank old) }
    ensures other { Finds S.Store trees.old trees.new result (λ old blank. blank ≡ false → ¬ IsBlank old) }
    ensures same { MakesView S.Store trees.old trees.new result StaysBut }
    ensures uncommitted { CommitsNothing S.Store trees.old trees.new }
{
    if !is_empty(trees, ENTRIES, none, row)? {
        return Ok(false);
    }
    if !is_empty(trees, ABOUT, none, row)? {
        return Ok(false);
    }
    Ok(is_empty(trees, CELLS, none, row)?)
}

/// Writes the note.
pub(crate) fn write_note<S: Store>(
    trees: &mut S,
    row: &mut Row,
    writer: &str,
    hash_key: &[u8; HASH_KEY_LEN],
) -> Result<(), StoreFault>
    requires tables { IsClean S.Store trees.old → HasTables (S.Store.view trees.old) }
    ensures written { Makes S.Store trees.old trees.new result (HasNoteMore FORMAT writer.now hash_key.now) }
    ensures failed { IfErr result IsFailure }
    ensures frame { MakesView S.Store trees.old trees.new result OnlyWrites }
    ensures uncommitted { CommitsNothing S.Store trees.old trees.new }
{
    fill_note(row, writer, hash_key)?;
    trees.put(ABOUT, row)?;
    Ok(())
}

/// Writes the note where there is nothing yet.
fn begin<S: Store>(
    alloc: Global,
    trees: &mut S,
    writer: &str,
    hash_key: &[u8; HASH_KEY_LEN],
) -> Result<(), StoreFault>
    requires tables { IsClean S.Store trees.old → HasTables (S.Store.view trees.old) }
    ensures begun { Makes S.Store trees.old trees.new result (λ _. IsNewStore FORMAT writer.now hash_key.now) }
    ensures foreign { Refuses S.Store trees.old trees.new result StoreFault.Foreign (λ old. ¬ IsBlank old) }
    ensures frame { MakesView S.Store trees.old trees.new result OnlyWrites }
    ensures uncommitted { CommitsNothing S.Store trees.old trees.new }
{
    let none = Row::new(alloc);
    let mut row = Row::new(alloc);
    if !is_blank(trees, &none, &mut row)? {
        return Err(StoreFault::Foreign);
    }
    write_note(trees, &mut row, writer, hash_key)
}

/// Makes a store of tables without rows, which writes by this name and hashes under this key, or nothing. It takes the time of one transaction.
///
/// ```rust crates/mst_commands/src/backup.rt
/// create(alloc, log, writer, hash_key)?;
/// replace_all(alloc, log, hash_key, entries)
/// ```
///
/// # Errors
///
/// [`StoreFault::Foreign`] where a table has rows already, and faults of the file.
pub fn create<S: Store>(
    alloc: Global,
    log: &mut Log<S>,
    writer: &str,
    hash_key: &[u8; HASH_KEY_LEN],
) -> Result<(), StoreFault>
    ensures created { Writes S.Store log.old log.new result (λ _. IsNewStore FORMAT writer.now hash_key.now) }
    ensures foreign { Refuses S.Store log.old log.new result StoreFault.Foreign (λ trees. ¬ IsBlank trees) }
{
    let written = begin(alloc, &mut log.trees, writer, hash_key);
    commit(&mut log.trees, written)
}
