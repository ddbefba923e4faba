//! The file of a store is made, opened and closed.
ghost use Rattle.std.specs.Prelude.{◌≡◌, ◌≢◌, ◌⊎◌, [], IsTrue, IfOk, OnOk};
ghost use Rattle.sqlite_wal.specs.PageSize.{bytes_of};
ghost use Rattle.sqlite_wal.specs.Reads.{AreClean, OnlyReads, tally_of_files};
ghost use Rattle.sqlite_trees.specs.Tree.{Trees};
ghost use Rattle.sqlite_store.specs.FileStore.{view};
ghost use Rattle.sqlite_store.specs.Report.{named as name_of};
ghost use Rattle.sqlite_store.specs.Unopened.{state_of, files_of, wanted_by};
ghost use Rattle.store_file.specs.Catalog.{laid_out};
ghost use Rattle.store_file.specs.Faults.{open_fault_of};
ghost use Rattle.store_file.specs.Files.{HasStoreTables, HoldsStore, HoldsTrees, HoldsNothing, IsLaidOut, KeepStore, LeavesStore, image_of};

use crate::catalog::{expect_tables, objects};
use crate::fault::{StoreFault, open_fault_of, probe_fault_of};
use sqlite_disk::{Disk, Files, Tally, digest_of};
use sqlite_pager::{Options, Pager};
use sqlite_store::{FileStore, OpenError, Unopened, name_fault};
use sqlite_trees::error::StoreError;
use sqlite_trees::store::Store;
use sqlite_wal::{PageSize, probe_first_page, probe_page_size};
use std::alloc::{AllocError, Global};

/// The page size of a new file.
const NEW_SIZE: usize = 4096;

/// The first byte of a SQLite database.
const FIRST: u8 = b'S';

/// The two files under the schema of a store, of which nothing is read yet. The number from which the log's salts come is drawn from the
/// secret of the files, which it doesn't tell.
fn unopened<D: Disk + Drop>(
    alloc: Global,
    files: Files<D>,
    size: PageSize,
) -> Result<Unopened<D>, StoreFault>
    ensures files { IfOk result (λ it. files_of it ≡ (files.log, files.db)) }
    ensures size { IfOk result (λ it. (state_of it).page_size ≡ bytes_of size) }
    ensures schema { IfOk result (λ it. wanted_by it ≡ laid_out) }
{
    let options = Options::new(digest_of(files.log.key(), b"salts"));
    let Ok(pager) = Pager::new(alloc, files, size, options) else {
        return Err(StoreFault::Memory);
    };
    match Unopened::new(alloc, pager, &objects()) {
        Ok(fresh) => Ok(fresh),
        Err(_) => Err(StoreFault::Memory),
    }
}

/// The page size of a database, if the files hold one.
pub(crate) fn find_size<D: Disk>(
    alloc: Global,
    files: &mut Files<D>,
) -> Result<PageSize, StoreFault>
    requires log { IsTrue (D.Disk.is_usable files.old.log) }
    requires db { IsTrue (D.Disk.is_usable files.old.db) }
    ensures named { IfOk result (λ size. AreClean D.Disk files.new.log files.new.db → (held : HoldsStore (image_of D.Disk files.old)) → held.holds.size ≡ bytes_of size) }
    ensures log { OnlyReads D.Disk files.old.log files.new.log }
    ensures file { OnlyReads D.Disk files.old.db files.new.db }
{
    let Ok(found) = probe_page_size(files) else {
        return Err(StoreFault::Database(StoreError::Io));
    };
    let Some(size) = found else {
        return Err(StoreFault::Foreign);
    };
    match probe_first_page(alloc, files, size) {
        Ok(head) if head.0 == FIRST => Ok(size),
        Ok(_) => Err(StoreFault::Foreign),
        Err(error) => Err(probe_fault_of(error)),
    }
}

/// What a refusal means, where a failure of the disk is told by what the files met since this tally.
pub(crate) fn named<D: Disk>(error: OpenError, before: Tally, left: &Unopened<D>) -> StoreFault
    ensures told { error ≢ OpenError.Io → result ≡ open_fault_of error }
    ensures disk { error ≡ OpenError.Io → result ≡ StoreFault.Database (name_of before (tally_of_files D.Disk (files_of left.now))) }
{
    if error != OpenError::Io {
        return open_fault_of(error);
    }
    StoreFault::Database(name_fault(before, left.tally()))
}

/// Opens the file of a store, and reads of it the header, the list of free pages and the list of tables.
///
/// ```rust crates/store_file_tests/src/files.rt
/// let mut second = open(alloc, files)?;
/// let found = is_filled(rt, &mut second, &mut row);
/// close(second)?;
/// ```
///
/// # Errors
///
/// [`StoreFault::Foreign`] and [`StoreFault::Format`]: what the files are instead. [`StoreFault::Database`]: the disk failed or has no room, or the
/// file is damaged. [`StoreFault::Memory`]. By the code, and by no clause, nothing is written.
pub fn open<D: Disk + Drop>(alloc: Global, files: Files<D>) -> Result<FileStore<D>, StoreFault>
    requires log { IsTrue (D.Disk.is_usable files.log) }
    requires db { IsTrue (D.Disk.is_usable files.db) }
    requires sound { AreClean D.Disk files.log files.db → ∥ HoldsStore (image_of D.Disk files) ∥₁ }
    ensures honest { IfOk result (λ it. IsTrue (view it).is_clean → AreClean D.Disk files.log files.db) }
    ensures laid_out { IfOk result (λ it. IsTrue (view it).is_clean → IsLaidOut (view it)) }
    ensures found { IfOk result (λ it. IsTrue (view it).is_clean → (db : Trees) → HoldsTrees (image_of D.Disk files) db → (view it).committed ≡ db) }
{
    let mut files = files;
    let size = find_size(alloc, &mut files)?;
    let mut fresh = unopened(alloc, files, size)?;
    let before = fresh.tally();
    match fresh.read_catalog() {
        Ok(rows) => expect_tables(rows.as_slice())?,
        Err(error) => return Err(named(error, before, &fresh)),
    }
    match fresh.open_trusted() {
        Ok(store) => Ok(store),
        Err((error, left)) => Err(named(error, before, &left)),
    }
}

/// Opens the file of a store as [`open`] does, and recovers it once where that one does twice, as it doesn't read whose tables these are: a database
/// of other tables may be opened, too.
///
/// ```rust crates/store_file_tests/src/files.rt
/// let mut second = open_trusted(alloc, files)?;
/// let found = is_filled(rt, &mut second, &mut row);
/// ```
///
/// # Errors
///
/// As of [`open`], but for [`StoreFault::Format`].
pub fn open_trusted<D: Disk + Drop>(
    alloc: Global,
    files: Files<D>,
) -> Result<FileStore<D>, StoreFault>
    requires log { IsTrue (D.Disk.is_usable files.log) }
    requires db { IsTrue (D.Disk.is_usable files.db) }
    requires sound { AreClean D.Disk files.log files.db → ∥ HoldsStore (image_of D.Disk files) ∥₁ }
    ensures honest { IfOk result (λ it. IsTrue (view it).is_clean → AreClean D.Disk files.log files.db) }
    ensures laid_out { IfOk result (λ it. IsTrue (view it).is_clean → IsLaidOut (view it)) }
    ensures found { IfOk result (λ it. IsTrue (view it).is_clean → (db : Trees) → HoldsTrees (image_of D.Disk files) db → (view it).committed ≡ db) }
{
    let mut files = files;
    let size = find_size(alloc, &mut files)?;
    let fresh = unopened(alloc, files, size)?;
    let before = fresh.tally();
    match fresh.open_trusted() {
        Ok(store) => Ok(store),
        Err((error, left)) => Err(named(error, before, &left)),
    }
}

/// Opens the file of a store as [`open`] does, and reads all its pages first. It takes the time of that, and asks nothing of the files.
///
/// ```rust crates/mst_files/src/opening.rt
/// Ok(Log::over(store_file::open_whole(rt.alloc(), files)?))
/// ```
///
/// # Errors
///
/// [`StoreError::Corrupt`] of the database, unless each page is in one of the three tables or free, in one place, with rows that ascend; and those of
/// [`open`]. By the code, and by no clause, nothing is written.
pub fn open_whole<D: Disk + Drop>(
    alloc: Global,
    files: Files<D>,
) -> Result<FileStore<D>, StoreFault>
    requires log { IsTrue (D.Disk.is_usable files.log) }
    requires db { IsTrue (D.Disk.is_usable files.db) }
    ensures honest { IfOk result (λ it. IsTrue (view it).is_clean → AreClean D.Disk files.log files.db) }
    ensures laid_out { IfOk result (λ it. IsTrue (view it).is_clean → IsLaidOut (view it)) }
{
    let mut files = files;
    let size = find_size(alloc, &mut files)?;
    let fresh = unopened(alloc, files, size)?;
    let before = fresh.tally();
    match fresh.open() {
        Ok(store) => Ok(store),
        Err((error, left)) => Err(named(error, before, &left)),
    }
}

/// Makes an empty store in files that hold nothing.
///
/// ```rust crates/store_file_tests/src/files.rt
/// let mut first = create(alloc, blank(alloc))?;
/// let written = fill(rt, &mut first, &mut row);
/// let files = close_files(first)?;
/// ```
///
/// # Errors
///
/// [`StoreFault::Exists`] where they hold a database, a failure of the disk, or out of memory.
pub fn create<D: Disk + Drop>(alloc: Global, files: Files<D>) -> Result<FileStore<D>, StoreFault>
    requires log { IsTrue (D.Disk.is_usable files.log) }
    requires db { IsTrue (D.Disk.is_usable files.db) }
    ensures honest { IfOk result (λ it. IsTrue (view it).is_clean → AreClean D.Disk files.log files.db) }
    ensures laid_out { IfOk result (λ it. IsTrue (view it).is_clean → IsLaidOut (view it)) }
    ensures entries { IfOk result (λ it. IsTrue (view it).is_clean → (view it).committed 0 ≡ []) }
    ensures about { IfOk result (λ it. IsTrue (view it).is_clean → (view it).committed 1 ≡ []) }
    ensures cells { IfOk result (λ it. IsTrue (view it).is_clean → (view it).committed 2 ≡ []) }
    ensures nothing { IfOk result (λ it. IsTrue (view it).is_clean → ∥ HoldsNothing (image_of D.Disk files) ∥₁) }
{
    let size = PageSize::new(NEW_SIZE).unwrap();
    let fresh = unopened(alloc, files, size)?;
    let before = fresh.tally();
    match fresh.create() {
        Ok(store) => Ok(store),
        Err((OpenError::Refused, _)) => Err(StoreFault::Exists),
        Err((error, left)) => Err(named(error, before, &left)),
    }
}

/// The sizes that pages of a SQLite database may have.
const SIZES: [usize; 8] = [512, 1024, 2048, 4096, 8192, 16_384, 32_768, 65_536];

/// Whether the database has the tables of a store, as each has that was opened or made here. If so, `open` takes the files as a crash leaves them
/// at this moment, also one in the middle of a command: they hold a store, with the trees of which the clauses on crashes speak.
///
/// ```rust crates/store_file_tests/src/files.rt
/// let tables = is_store(&store);
/// ```
///
/// # Errors
///
/// [`AllocError`] if memory runs out.
#[tactic(auto, using(crate::proofs::StoreLemmas::left_in))]
pub fn is_store<D: Disk>(store: &FileStore<D>) -> Result<bool, AllocError>
    ensures tables { IfOk result (λ is. IsTrue is → HasStoreTables store.now) }
    ensures left { IfOk result (λ is. IsTrue is → LeavesStore store.now) }
{
    for bytes in SIZES {
        let Some(size) = PageSize::new(bytes) else {
            continue;
        };
        if store.is_over(size, &objects())? {
            return Ok(true);
        }
    }
    Ok(false)
}

/// Takes back what isn't committed, copies the log into the database file, and gives the files back, with whether they have the tables of a
/// store: as [`close_files`], of a database that may be another's.
///
/// # Errors
///
/// As those of [`close_files`], but for that of a database that isn't a store.
pub fn close_any<D: Disk + Drop>(store: FileStore<D>) -> Result<(Files<D>, bool), StoreFault>
    ensures usable { IfOk result (λ closed. IsTrue (D.Disk.is_usable closed.0.log) × IsTrue (D.Disk.is_usable closed.0.db)) }
    ensures copied { IfOk result (λ closed. IsTrue closed.1 → KeepStore D.Disk (view store).committed closed.0) }
    ensures honest { IfOk result (λ closed. AreClean D.Disk closed.0.log closed.0.db → IsTrue (view store).is_clean × IsTrue (view store).is_open) }
{
    let mut store = store;
    store.rollback();
    let copied = store.checkpoint();
    let is_store = is_store(&store);
    let files = store.close();
    copied?;
    Ok((files, is_store?))
}

/// Takes back what isn't committed, copies the log into the database file, and gives the files back. The database file alone has the store
/// then: its log has no page. It takes the time of copying the pages of the log.
///
/// # Errors
///
/// [`StoreFault::Database`] where the log can't be copied, the file is damaged or an earlier call failed, [`StoreFault::Memory`], and
/// [`StoreFault::Foreign`] where the database has other tables. By the code, and by no clause, what was committed is in the files then too.
pub fn close_files<D: Disk + Drop>(store: FileStore<D>) -> Result<Files<D>, StoreFault>
    ensures usable { IfOk result (λ files. IsTrue (D.Disk.is_usable files.log) × IsTrue (D.Disk.is_usable files.db)) }
    ensures copied { IfOk result (KeepStore D.Disk (view store).committed) }
    ensures honest { IfOk result (λ files. AreClean D.Disk files.log files.db → IsTrue (view store).is_clean × IsTrue (view store).is_open) }
{
    let (files, is_store) = close_any(store)?;
    if is_store {
        Ok(files)
    } else {
        Err(StoreFault::Foreign)
    }
}

/// As `close_files`, and the files are closed.
///
/// # Errors
///
/// As those of `close_files`.
pub fn close<D: Disk + Drop>(store: FileStore<D>) -> Result<(), StoreFault>
    // There were files then, which keep what was committed.
    ensures copied { OnOk result ((files : _) × KeepStore D.Disk (view store).committed files) }
{
    close_files(store)?;
    Ok(())
}

/// Closes a store and opens its files again by [`open_trusted`], as two runs of `mst` do, one after the other: a closed file has no log to recover. It
/// has what was committed, and takes the time of `close_files` and of `open_trusted`.
///
/// ```rust crates/store_file_tests/src/files.rt
/// let mut second = reopen(alloc, first)?;
/// let found = is_filled(rt, &mut second, &mut row);
/// ```
///
/// # Errors
///
/// As those of `close_files` and of `open_trusted`.
pub fn reopen<D: Disk + Drop>(
    alloc: Global,
    store: FileStore<D>,
) -> Result<FileStore<D>, StoreFault>
    ensures same { IfOk result (λ again. IsTrue (view again).is_clean → (view again).committed ≡ (view store).committed) }
    ensures laid_out { IfOk result (λ again. IsTrue (view again).is_clean → IsLaidOut (view again)) }
    ensures honest { IfOk result (λ again. IsTrue (view again).is_clean → IsTrue (view store).is_clean × IsTrue (view store).is_open) }
{
    let files = close_files(store)?;
    let again = open_trusted(alloc, files)?;
    Ok(again)
}
