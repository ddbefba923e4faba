//! A store in format 3, whose file has two tables and no tree: it is only read, to be written anew in this format.
ghost use Rattle.std.specs.Prelude.{◌≡◌, ◌⊎◌, IsTrue, IfOk, IfErr, map};
ghost use Rattle.sqlite_store.specs.Catalog.{wanted_of};
ghost use Rattle.sqlite_store.specs.FileStore.{view};
ghost use Rattle.sqlite_store.specs.Unopened.{files_of, wanted_by};
ghost use Rattle.sqlite_wal.specs.Reads.{AreClean};
ghost use Rattle.store_file.specs.Faults.{IsFailure};
ghost use Rattle.store_file.specs.Former.{HasFormerTables, former_tables};
ghost use Rattle.store_file.specs.Logs.{Finds, OnlyReads};
ghost use Rattle.store_file.specs.Notes.{IsOtherStore, Notes};

use crate::catalog::{ABOUT_SQL, ENTRIES_SQL};
use crate::fault::StoreFault;
use crate::file::{find_size, named};
use crate::format::{Note, about};
use crate::log::Log;
use sqlite_disk::{Disk, Files, digest_of};
use sqlite_pager::{Options, Pager};
use sqlite_store::{FileStore, Unopened};
use sqlite_trees::schema::Object;
use sqlite_trees::store::{Shape, Store};
use sqlite_value::keys::Order;
use sqlite_wal::PageSize;
use std::alloc::Global;

/// The format that is read here.
pub const FORMER_FORMAT: i64 = 3;

/// Its two tables, each at its number.
fn former_objects() -> [Object<'static>; 2]
    ensures { map wanted_of result ≡ former_tables }
{
    [
        Object {
            shape: Shape::Index(Order::PLAIN),
            kind: "table",
            name: "entry",
            table: "entry",
            reals: 0,
            sql: Some(ENTRIES_SQL),
        },
        Object {
            shape: Shape::Table,
            kind: "table",
            name: "about",
            table: "about",
            reals: 0,
            sql: Some(ABOUT_SQL),
        },
    ]
}

/// The two files under these tables, of which nothing is read yet.
fn unopened<D: Disk + Drop>(
    alloc: Global,
    files: Files<D>,
    size: PageSize,
) -> Result<Unopened<D>, StoreFault>
    ensures files { IfOk result (λ it. files_of it ≡ (files.log, files.db)) }
    ensures schema { IfOk result (λ it. wanted_by it ≡ former_tables) }
{
    let options = Options::new(digest_of(files.log.key(), b"salts"));
    let Ok(pager) = Pager::new(alloc, files, size, options) else {
        return Err(StoreFault::Memory);
    };
    match Unopened::new(alloc, pager, &former_objects()) {
        Ok(fresh) => Ok(fresh),
        Err(_) => Err(StoreFault::Memory),
    }
}

/// Opens the file of a store in format 3, and reads all its pages first. It asks nothing of the files.
///
/// # Errors
///
/// As of [`open_whole`](crate::open_whole). By the code, and by no clause, nothing is written.
pub fn open_former<D: Disk + Drop>(
    alloc: Global,
    files: Files<D>,
) -> Result<FileStore<D>, StoreFault>
    requires log { IsTrue (D.Disk.is_usable files.log) }
    requires db { IsTrue (D.Disk.is_usable files.db) }
    ensures honest { IfOk result (λ it. IsTrue (view it).is_clean → AreClean D.Disk files.log files.db) }
    ensures laid_out { IfOk result (λ it. IsTrue (view it).is_clean → HasFormerTables (view it)) }
{
    let mut files = files;
    let size = find_size(alloc, &mut files)?;
    let fresh = unopened(alloc, files, size)?;
    let before = fresh.tally();
    match fresh.open() {
        Ok(store) => Ok(store),
        Err((error, left)) => Err(named(error, before, &left)),
    }
}

/// What a store in format 3 says of itself. It takes the time of reading one row.
///
/// # Errors
///
/// As of [`about`], and [`StoreFault::Format`] where the store is in another format; nothing is written.
pub fn recognise_former<S: Store>(alloc: Global, log: &mut Log<S>) -> Result<Note, StoreFault>
    ensures noted { Finds S.Store log.old log.new result Notes }
    ensures format { IfOk result (λ note. note.format ≡ FORMER_FORMAT) }
    ensures faults { IfErr result (λ why. IsFailure why ⊎ IsOtherStore why) }
    ensures reads { OnlyReads S.Store log.old log.new result }
{
    let note = about(alloc, log)?;
    if note.format == FORMER_FORMAT {
        Ok(note)
    } else {
        Err(StoreFault::Format(note.format))
    }
}
