//! Another writer's name for a store.
ghost use Rattle.std.specs.Prelude.{◌≡◌, [], IfOk};
ghost use Rattle.sqlite_trees.specs.Tree.{without_rowid};
ghost use Rattle.sqlite_trees.specs.View.{OnlyWrites};
ghost use Rattle.store_file.specs.Changes.{WritesByNow};
ghost use Rattle.store_file.specs.Notes.{Notes};
ghost use Rattle.store_file.specs.Logs.{HasTables, IsClean, Finds, Makes, Writes};
ghost use Rattle.store_file.specs.Transactions.{CommitsNothing};
ghost use Rattle.store_file.specs.Walks.{StaysBut, MakesView};

use crate::catalog::ABOUT;
use crate::fault::StoreFault;
use crate::format::{FORMAT, Note, in_format, note_of, number_in, only_note, write_note};
use crate::log::{Log, commit};
use sqlite_trees::store::Store;
use sqlite_value::row::Row;
use std::alloc::Global;

/// The note, in this format, with the number of its row.
fn numbered_note<S: Store>(alloc: Global, trees: &mut S) -> Result<(i64, Note), StoreFault>
    requires tables { IsClean S.Store trees.old → HasTables (S.Store.view trees.old) }
    ensures noted { Finds S.Store trees.old trees.new result (λ old found. Notes old found.1) }
    ensures alone { Finds S.Store trees.old trees.new result (λ old found. without_rowid found.0 (old 1) ≡ []) }
    ensures format { IfOk result (λ found. found.1.format ≡ FORMAT) }
    ensures same { MakesView S.Store trees.old trees.new result StaysBut }
    ensures uncommitted { CommitsNothing S.Store trees.old trees.new }
{
    let none = Row::new(alloc);
    let mut row = Row::new(alloc);
    if !only_note(trees, &none, &mut row, &mut Row::new(alloc))? {
        return Err(StoreFault::Foreign);
    }
    let note = in_format(note_of(alloc, &row)?)?;
    Ok((number_in(row.get(0))?, note))
}

/// Takes out the note in the row of this number.
fn remove_note<S: Store>(trees: &mut S, number: i64) -> Result<(), StoreFault>
    requires tables { IsClean S.Store trees.old → HasTables (S.Store.view trees.old) }
    ensures removed { Makes S.Store trees.old trees.new result (λ old new. new 1 ≡ without_rowid number (old 1)) }
    ensures others { Makes S.Store trees.old trees.new result (λ old new. new 0 ≡ old 0) }
    ensures cells { Makes S.Store trees.old trees.new result (λ old new. new 2 ≡ old 2) }
    ensures frame { MakesView S.Store trees.old trees.new result OnlyWrites }
    ensures uncommitted { CommitsNothing S.Store trees.old trees.new }
{
    trees.delete(ABOUT, number)?;
    Ok(())
}

/// Puts a note with this writer's name in place of the note.
fn replace_note<S: Store>(alloc: Global, trees: &mut S, writer: &str) -> Result<(), StoreFault>
    requires tables { IsClean S.Store trees.old → HasTables (S.Store.view trees.old) }
    ensures named { Makes S.Store trees.old trees.new result (WritesByNow writer.now) }
    ensures frame { MakesView S.Store trees.old trees.new result OnlyWrites }
    ensures uncommitted { CommitsNothing S.Store trees.old trees.new }
{
    let (number, note) = numbered_note(alloc, trees)?;
    remove_note(trees, number)?;
    write_note(trees, &mut Row::new(alloc), writer, &note.hash_key)
}

/// Gives a store this writer's name in place of its own. It takes the time of one transaction.
///
/// # Errors
///
/// [`StoreFault::Foreign`] and [`StoreFault::Format`], as of [`recognise`](crate::format::recognise), and faults of the file.
pub fn name_writer<S: Store>(
    alloc: Global,
    log: &mut Log<S>,
    writer: &str,
) -> Result<(), StoreFault>
    ensures named { Writes S.Store log.old log.new result (WritesByNow writer.now) }
{
    let written = replace_note(alloc, &mut log.trees, writer);
    commit(&mut log.trees, written)
}
