//! Stores over files in memory.
ghost use Rattle.std.specs.Prelude.{◌≡◌, [], IsSome, IsTrue, IfOk, OnOk};
ghost use Rattle.sqlite_disk.specs.Memory.{memory_is_usable};
ghost use Rattle.sqlite_store.specs.FileStore.{view};
ghost use Rattle.store_file.specs.Unsure.{disk_below};

use sqlite_disk::{Disk, Files, Memory};
use sqlite_pager::{Options, Pager};
use sqlite_store::{FileStore, Unopened};
use sqlite_trees::error::StoreError;
use sqlite_trees::schema::Object;
use sqlite_trees::store::{Direction, Shape, Store};
use sqlite_value::keys::Order;
use sqlite_value::order::is_same;
use sqlite_value::row::Row;
use sqlite_value::value::ValueRef;
use sqlite_wal::PageSize;
use std::alloc::Global;
use std::process::Abort;
use std::test::Fail;
use store_file::catalog::{
    ABOUT, ABOUT_SQL, ENTRIES, ENTRIES_SQL, FORMER_ABOUT_SQL, FORMER_ENTRIES_SQL,
};
use store_file::file::close_any;
use store_file::former::open_former;
use store_file::{
    StoreFault, Unsure, close, close_files, create, is_store, open, open_trusted, reopen,
};

type Pair = Files<Unsure<Memory>>;

/// Two empty files.
fn blank(alloc: Global) -> Pair
    ensures log { IsTrue (memory_is_usable (disk_below result.log)) }
    ensures db { IsTrue (memory_is_usable (disk_below result.db)) }
{
    Files {
        log: Unsure::new(Memory::new(alloc)),
        db: Unsure::new(Memory::new(alloc)),
    }
}

/// A database over files in memory whose two tables have the names of a store's, and are made so.
fn open_tables(
    alloc: Global,
    shape: Shape,
    entries: &str,
    notes: &str,
) -> Result<FileStore<Unsure<Memory>>, Fail> {
    let size = PageSize::new(512).ok_or("a page size")?;
    let pager = Pager::new(alloc, blank(alloc), size, Options::new(7))?;
    let about = Object {
        shape: Shape::Table,
        kind: "table",
        name: "about",
        table: "about",
        reals: 0,
        sql: Some(notes),
    };
    let entry = Object {
        shape,
        name: "entry",
        table: "entry",
        sql: Some(entries),
        ..about
    };
    match Unopened::new(alloc, pager, &[entry, about])?.create() {
        Ok(store) => Ok(store),
        Err((error, _)) => Err(Fail::from(error)),
    }
}

/// Such a database, each of whose tables has row numbers.
fn open_database(
    alloc: Global,
    entries: &str,
    notes: &str,
) -> Result<FileStore<Unsure<Memory>>, Fail> {
    open_tables(alloc, Shape::Table, entries, notes)
}

/// The files of such a database.
fn database(alloc: Global, entries: &str, notes: &str) -> Result<Pair, Fail>
    ensures log { IfOk result (λ files. IsTrue (memory_is_usable (disk_below files.log))) }
    ensures db { IfOk result (λ files. IsTrue (memory_is_usable (disk_below files.db))) }
{
    Ok(close_any(open_database(alloc, entries, notes)?)?.0)
}

/// The files of an empty store.
fn made(alloc: Global) -> Result<Pair, Fail>
    ensures log { IfOk result (λ files. IsTrue (memory_is_usable (disk_below files.log))) }
    ensures db { IfOk result (λ files. IsTrue (memory_is_usable (disk_below files.db))) }
{
    Ok(close_files(create(alloc, blank(alloc))?)?)
}

fn add<S: Store>(
    rt: &impl Abort,
    store: &mut S,
    row: &mut Row,
    key: &[u8],
    time: i64,
) -> Result<(), StoreError> {
    row.clear();
    row.push(ValueRef::Text(key))?;
    row.push(ValueRef::Int(time))?;
    row.push(ValueRef::Text(b"office"))?;
    row.push(ValueRef::Text(b"a value"))?;
    assert_eq!(rt; store.shape(ENTRIES), Shape::Index(Order::PLAIN));
    store.insert(ENTRIES, row)
}

/// Commits three entries and a row of the other table, and begins to write another entry.
fn fill<S: Store>(rt: &impl Abort, store: &mut S, row: &mut Row) -> Result<(), StoreError> {
    add(rt, store, row, b"banana", 7)?;
    add(rt, store, row, b"apple", 9)?;
    add(rt, store, row, b"apple", 3)?;
    row.clear();
    row.push(ValueRef::Int(1))?;
    row.push(ValueRef::Null)?;
    row.push(ValueRef::Int(2))?;
    row.push(ValueRef::Text(b"office"))?;
    assert_eq!(rt; store.shape(ABOUT), Shape::Table);
    store.put(ABOUT, row)?;
    store.commit()?;
    add(rt, store, row, b"cherry", 1)
}

/// Whether this entry is next.
fn is_next<S: Store>(
    store: &mut S,
    row: &mut Row,
    key: &[u8],
    time: i64,
) -> Result<bool, StoreError>
    requires { IsSome ((S.Store.view store.old).cursors 0) }
    ensures { OnOk result (IsSome ((S.Store.view store.new).cursors 0)) }
{
    let found = store.next(0, row)?;
    Ok(
        found
            && is_same(row.get(0), ValueRef::Text(key))
            && is_same(row.get(1), ValueRef::Int(time)),
    )
}

/// Whether the store has what was committed, and nothing else.
fn is_filled<S: Store>(rt: &impl Abort, store: &mut S, row: &mut Row) -> Result<bool, StoreError> {
    row.clear();
    assert_eq!(rt; store.shape(ENTRIES), Shape::Index(Order::PLAIN));
    store.seek(0, ENTRIES, row, Direction::Forward)?;
    let first = is_next(store, row, b"apple", 3)?;
    let second = is_next(store, row, b"apple", 9)?;
    let third = is_next(store, row, b"banana", 7)?;
    let ended = !store.next(0, row)?;
    assert_eq!(rt; store.shape(ABOUT), Shape::Table);
    let about = store.get(ABOUT, 1, row)? && is_same(row.get(3), ValueRef::Text(b"office"));
    Ok(first && second && third && ended && about)
}

/// The files of a store that was filled.
fn filled(rt: &impl Abort, alloc: Global) -> Result<Pair, Fail>
    ensures log { IfOk result (λ files. IsTrue (memory_is_usable (disk_below files.log))) }
    ensures db { IfOk result (λ files. IsTrue (memory_is_usable (disk_below files.db))) }
{
    let mut row = Row::new(alloc);
    let mut first = create(alloc, blank(alloc))?;
    let written = fill(rt, &mut first, &mut row);
    let files = close_files(first)?;
    written?;
    Ok(files)
}

/// Whether files are those of such a store, which is opened and closed.
fn are_filled(rt: &impl Abort, alloc: Global, files: Pair) -> Result<bool, Fail>
    requires log { IsTrue (memory_is_usable (disk_below files.log)) }
    requires db { IsTrue (memory_is_usable (disk_below files.db)) }
{
    let mut row = Row::new(alloc);
    let mut second = open(alloc, files)?;
    let found = is_filled(rt, &mut second, &mut row);
    close(second)?;
    Ok(found?)
}

#[test]
fn keeps_what_is_committed(rt: HostRuntime) -> Result<(), Fail> {
    let files = filled(&rt, rt.alloc())?;
    assert!(rt; are_filled(&rt, rt.alloc(), files)?);
    Ok(())
}

/// Whether a store that was filled has its rows where its tables aren't looked at.
fn is_filled_unseen(rt: &impl Abort, alloc: Global) -> Result<bool, Fail> {
    let files = filled(rt, alloc)?;
    let mut row = Row::new(alloc);
    let mut second = open_trusted(alloc, files)?;
    let found = is_filled(rt, &mut second, &mut row);
    close(second)?;
    Ok(found?)
}

#[test]
fn opens_what_is_trusted(rt: HostRuntime) -> Result<(), Fail> {
    assert!(rt; is_filled_unseen(&rt, rt.alloc())?);
    Ok(())
}

/// The files of a store in format 3 that was filled.
fn former(rt: &impl Abort, alloc: Global) -> Result<Pair, Fail>
    ensures log { IfOk result (λ files. IsTrue (memory_is_usable (disk_below files.log))) }
    ensures db { IfOk result (λ files. IsTrue (memory_is_usable (disk_below files.db))) }
{
    let mut row = Row::new(alloc);
    let mut first = open_tables(alloc, Shape::Index(Order::PLAIN), ENTRIES_SQL, ABOUT_SQL)?;
    let written = fill(rt, &mut first, &mut row);
    let files = close_any(first)?.0;
    written?;
    Ok(files)
}

/// Whether a store in format 3 that was filled has its rows.
fn is_former_filled(rt: &impl Abort, alloc: Global) -> Result<bool, Fail> {
    let files = former(rt, alloc)?;
    let mut row = Row::new(alloc);
    let mut second = open_former(alloc, files)?;
    let found = is_filled(rt, &mut second, &mut row);
    close_any(second)?;
    Ok(found?)
}

#[test]
fn opens_what_is_in_format_3(rt: HostRuntime) -> Result<(), Fail> {
    assert!(rt; is_former_filled(&rt, rt.alloc())?);
    Ok(())
}

/// Whether a store that was filled has its rows once it is closed and opened again.
fn is_filled_again(rt: &impl Abort, alloc: Global) -> Result<bool, Fail> {
    let mut row = Row::new(alloc);
    let mut first = create(alloc, blank(alloc))?;
    fill(rt, &mut first, &mut row)?;
    let mut second = reopen(alloc, first)?;
    let found = is_filled(rt, &mut second, &mut row);
    close(second)?;
    Ok(found?)
}

#[test]
fn opens_again_what_it_closed(rt: HostRuntime) -> Result<(), Fail> {
    assert!(rt; is_filled_again(&rt, rt.alloc())?);
    Ok(())
}

/// A store that is made, closed and opened again.
fn made_again<D: Disk + Drop>(alloc: Global, files: Files<D>) -> Result<FileStore<D>, Fail>
    requires log { IsTrue (D.Disk.is_usable files.log) }
    requires db { IsTrue (D.Disk.is_usable files.db) }
    ensures entries { IfOk result (λ it. IsTrue (view it).is_clean → (view it).committed 0 ≡ []) }
    ensures about { IfOk result (λ it. IsTrue (view it).is_clean → (view it).committed 1 ≡ []) }
{
    let new = create(alloc, files)?;
    Ok(reopen(alloc, new)?)
}

#[test]
fn opens_again_what_it_made(rt: HostRuntime) -> Result<(), Fail> {
    let alloc = rt.alloc();
    let files = Files {
        log: Memory::new(alloc),
        db: Memory::new(alloc),
    };
    let mut store = made_again(alloc, files)?;
    let mut row = Row::new(alloc);
    let tables = is_store(&store);
    let filled = is_filled(&rt, &mut store, &mut row);
    close(store)?;
    assert!(rt; tables?);
    assert!(rt; !filled?);
    Ok(())
}

#[test]
fn opens_no_other_file(rt: HostRuntime) -> Result<(), Fail> {
    let alloc = rt.alloc();
    assert_eq!(rt; open(alloc, blank(alloc)).err(), Some(StoreFault::Foreign));
    let mut text = blank(alloc);
    text.db
        .write_at(0, b"key,value\napple,3\nbanana,5\ncherry,1\n")?;
    assert_eq!(rt; open(alloc, text).err(), Some(StoreFault::Foreign));
    let other = database(alloc, "CREATE TABLE entry (a)", ABOUT_SQL)?;
    assert_eq!(rt; open(alloc, other).err(), Some(StoreFault::Foreign));
    for (format, entries, about) in [
        (1, FORMER_ENTRIES_SQL, FORMER_ABOUT_SQL),
        (2, ENTRIES_SQL, FORMER_ABOUT_SQL),
        (3, ENTRIES_SQL, ABOUT_SQL),
    ] {
        let former = database(alloc, entries, about)?;
        assert_eq!(rt; open(alloc, former).err(), Some(StoreFault::Format(format)));
    }
    Ok(())
}

/// Whether the files of such a database are given back as those of a store by neither call.
fn is_no_store(alloc: Global, entries: &str, notes: &str) -> Result<bool, Fail> {
    let files = close_files(open_database(alloc, entries, notes)?).err();
    let counted = close(open_database(alloc, entries, notes)?).err();
    Ok(files == Some(StoreFault::Foreign) && counted == Some(StoreFault::Foreign))
}

#[test]
fn gives_back_no_other_file(rt: HostRuntime) -> Result<(), Fail> {
    let alloc = rt.alloc();
    assert!(rt; is_no_store(alloc, "CREATE TABLE entry (a)", ABOUT_SQL)?);
    assert!(rt; is_no_store(alloc, FORMER_ENTRIES_SQL, FORMER_ABOUT_SQL)?);
    assert!(rt; is_no_store(alloc, ENTRIES_SQL, FORMER_ABOUT_SQL)?);
    assert!(rt; is_no_store(alloc, ENTRIES_SQL, ABOUT_SQL)?);
    Ok(())
}

#[test]
fn opens_no_damaged_file(rt: HostRuntime) -> Result<(), Fail> {
    let mut files = made(rt.alloc())?;
    // The text encoding is UTF-8.
    files.db.write_at(56, &[0, 0, 0, 9])?;
    assert_eq!(rt;
        open(rt.alloc(), files).err(),
        Some(StoreFault::Database(StoreError::Corrupt))
    );
    Ok(())
}

#[test]
fn makes_no_store_over_another(rt: HostRuntime) -> Result<(), Fail> {
    let files = made(rt.alloc())?;
    assert_eq!(rt; create(rt.alloc(), files).err(), Some(StoreFault::Exists));
    Ok(())
}

#[test]
fn says_why(rt: HostRuntime) -> Result<(), Fail> {
    let text = format!(in rt.alloc(); "{}", StoreFault::Foreign)?;
    assert_eq!(rt; text.as_str(), "the file isn't a store");
    Ok(())
}
