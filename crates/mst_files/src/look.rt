//! What a file is, told by reading alone: so that a file of others stays as it is, and gets no log beside it.
ghost use Rattle.std.specs.Prelude.{◌<◌};

use crate::fault::FileFault;
use sqlite_std_file::OpenError;
use sqlite_trees::error::StoreError;
use std::alloc::Global;
use std::fs::{self, File};
use std::io::{self, Read};
use std::os::unix::fs::FileExt;
use store_file::catalog::{
    ABOUT_SQL, CELLS_SQL, ENTRIES_SQL, FORMER_ABOUT_SQL, FORMER_ENTRIES_SQL,
};
use store_file::{StoreFault, former};

/// The longest page of a SQLite database.
const LONGEST_PAGE: usize = 65_536;

/// The bytes of a database's header, after which the first page has its list of tables.
const HEADER: usize = 100;

/// The bytes of a log's header, and of the header of each page in it.
const LOG_HEADER: u64 = 32;

const FRAME_HEADER: usize = 24;

/// How many bytes a log has at least that may have pages: its header and that of a page.
pub(crate) const LOG_WITH_PAGES: u64 = 56;

/// How many pages of a log are looked at.
const MOST_FRAMES: u64 = 16_777_216;

/// What a first page is of.
#[derive(Clone, Copy, Debug, PartialEq, Eq)]
enum First {
    /// A store, or what may be a damaged one.
    Store,
    /// A store in an earlier format.
    Former(i64),
    /// A SQLite database that ends within its first page.
    Cut,
    /// Anything else.
    Other,
}

/// The byte at a place, or 0 after the end.
fn byte_at(bytes: &[u8], at: usize) -> usize
    ensures { result < 256 }
{
    match bytes.get(at) {
        Some(byte) => *byte as usize,
        None => 0,
    }
}

/// The number in two bytes, the higher first.
fn pair_at(bytes: &[u8], at: usize) -> usize
    ensures { result < 65536 }
{
    byte_at(bytes, at) * 256 + byte_at(bytes, at.saturating_add(1))
}

/// Where a row of a list of tables ends, which begins with its length in one byte or two and its number in one.
fn end_of_row(page: &[u8], start: usize) -> usize {
    let first = byte_at(page, start);
    let (length, bytes) = if first < 128 {
        (first, 2)
    } else {
        (
            (first - 128) * 128 + byte_at(page, start.saturating_add(1)),
            3,
        )
    };
    start.saturating_add(length).saturating_add(bytes)
}

/// Whether the row of a list of tables whose place stands here ends with how its table is made.
fn is_made_so(page: &[u8], place: usize, sql: &str) -> bool {
    let end = end_of_row(page, pair_at(page, place));
    end <= page.len() && page[..end].ends_with(sql.as_bytes())
}

/// Whether the first two rows of a list of tables are those of tables that are made so.
fn are_made_so(page: &[u8], entries: &str, about: &str) -> bool {
    is_made_so(page, 108, entries) && is_made_so(page, 110, about)
}

/// Whether the three rows of a list of tables are those of a store.
fn are_of_store(page: &[u8]) -> bool {
    are_made_so(page, ENTRIES_SQL, ABOUT_SQL) && is_made_so(page, 112, CELLS_SQL)
}

/// Whether a text stands somewhere in a page.
fn has_text(page: &[u8], text: &str) -> bool {
    for at in 0..page.len() {
        if page[at..].starts_with(text.as_bytes()) {
            return true;
        }
    }
    false
}

/// What a first page is of. A page of another kind than a list of tables, in which a store's tables stand, is one that was damaged.
fn first_of(page: &[u8]) -> First {
    let kind = byte_at(page, HEADER);
    if kind == 13 {
        let rows = pair_at(page, 103);
        return match rows {
            3 if are_of_store(page) => First::Store,
            2 if are_made_so(page, FORMER_ENTRIES_SQL, FORMER_ABOUT_SQL) => First::Former(1),
            2 if are_made_so(page, ENTRIES_SQL, FORMER_ABOUT_SQL) => First::Former(2),
            2 if are_made_so(page, ENTRIES_SQL, ABOUT_SQL) => First::Former(3),
            _ => First::Other,
        };
    }
    if kind != 5 && has_text(page, ENTRIES_SQL) && has_text(page, CELLS_SQL) {
        return First::Store;
    }
    if page.starts_with(b"SQLite format 3\0") && page.len() < pair_at(page, 16).max(512) {
        return First::Cut;
    }
    First::Other
}

/// The first bytes of a file, as many as there are up to a number.
fn read_up_to(alloc: Global, file: &File, most: usize) -> io::Result<Vec<u8>> {
    let mut bytes = Vec::new(alloc);
    let mut from = file.take(most as u64);
    from.read_to_end(&mut bytes)?;
    Ok(bytes)
}

/// The bytes of a file from a place on, up to a number.
fn read_from(alloc: Global, file: &File, at: u64, most: usize) -> io::Result<Vec<u8>> {
    let mut bytes = vec![in alloc; 0u8; most]?;
    let count = file.read_at(&mut bytes, at)?;
    bytes.truncate(count);
    Ok(bytes)
}

/// The number in four bytes, the highest first.
fn number_at(bytes: &[u8], at: usize) -> usize {
    pair_at(bytes, at) * 65_536 + pair_at(bytes, at.saturating_add(2))
}

/// Whether the page at a place of a log is the first one of a store.
fn is_store_at(alloc: Global, log: &File, at: u64, size: usize) -> io::Result<bool> {
    let page = read_from(alloc, log, at, size)?;
    Ok(page.len() == size && first_of(&page) == First::Store)
}

/// What the first pages in a log are of, those too that a recovery doesn't take.
#[derive(Clone, Copy, Debug, PartialEq, Eq)]
struct Logged {
    /// Whether one is of a store.
    has_store: bool,
    /// Whether one is of something else, or the log can't be read to its end.
    has_other: bool,
}

/// What the first pages in a log are of.
fn look_at_log(alloc: Global, log: &File) -> io::Result<Logged> {
    let head = read_from(alloc, log, 0, LOG_WITH_PAGES as usize)?;
    let size = number_at(&head, 8);
    let has_pages = head.len() as u64 == LOG_WITH_PAGES;
    let mut found = Logged {
        has_store: false,
        has_other: has_pages && (size < 512 || size > LONGEST_PAGE),
    };
    if !has_pages || found.has_other {
        return Ok(found);
    }
    let mut at = LOG_HEADER;
    for _ in 0..MOST_FRAMES {
        let frame = read_from(alloc, log, at, FRAME_HEADER)?;
        if frame.len() < FRAME_HEADER {
            return Ok(found);
        }
        let page = at.saturating_add(FRAME_HEADER as u64);
        if number_at(&frame, 0) == 1 {
            let is_store = is_store_at(alloc, log, page, size)?;
            found.has_store |= is_store;
            found.has_other |= !is_store;
        }
        at = page.saturating_add(size as u64);
    }
    found.has_other = true;
    Ok(found)
}

/// The name of the log beside a file, which lies where a link leads.
pub(crate) fn log_of(rt: &HostRuntime, path: &str) -> Result<String, FileFault> {
    let real = fs::canonicalize(rt, path).map_err(failure_of)?;
    Ok(format!(in rt.alloc(); "{}-wal", real.as_str())?)
}

/// What the first pages are of in the log beside a file, or nothing where there is no log.
fn log_beside(rt: &HostRuntime, path: &str) -> Result<Option<Logged>, FileFault> {
    let name = log_of(rt, path)?;
    if !is_plain(rt, name.as_str())? {
        return Ok(None);
    }
    let log = fs::open(rt, name.as_str()).map_err(failure_of)?;
    Ok(Some(look_at_log(rt.alloc(), &log).map_err(failure_of)?))
}

/// The first bytes of a file, which have its first page.
fn first_page(rt: &HostRuntime, path: &str) -> Result<Vec<u8>, FileFault> {
    let file = fs::open(rt, path).map_err(failure_of)?;
    read_up_to(rt.alloc(), &file, LONGEST_PAGE).map_err(failure_of)
}

/// Whether the first page of a file is one of a store, and so is each in the log beside it: whatever a recovery takes, the tables are then those of
/// a store.
pub(crate) fn has_tables(rt: &HostRuntime, path: &str) -> Result<bool, FileFault> {
    let page = first_page(rt, path)?;
    if first_of(&page) != First::Store {
        return Ok(false);
    }
    match log_beside(rt, path)? {
        Some(found) => Ok(!found.has_other),
        None => Ok(false),
    }
}

/// Whether the first page of a file is one of a store in format 3. None in its log is of another format, since no program adds a table to such a file.
pub(crate) fn is_former(rt: &HostRuntime, path: &str) -> Result<bool, FileFault> {
    let page = first_page(rt, path)?;
    Ok(first_of(&page) == First::Former(former::FORMER_FORMAT))
}

/// What a failure of the system at a path means.
fn failure_of(error: io::Error) -> FileFault {
    FileFault::Path(OpenError::Io(error))
}

/// Whether a plain file has this name.
fn is_plain(rt: &HostRuntime, path: &str) -> Result<bool, FileFault> {
    match fs::metadata(rt, path) {
        Ok(found) => Ok(found.is_file()),
        Err(error) if error.kind() == io::ErrorKind::NotFound => Ok(false),
        Err(error) => Err(failure_of(error)),
    }
}

/// Refuses the file of a store in a mode that isn't read here.
fn expect_mode(page: &[u8]) -> Result<(), FileFault> {
    if number_at(page, 52) != 0 {
        return Err(FileFault::Mode(
            "the file is a store with auto_vacuum on, which this program can't read: turn it off by sqlite3 FILE 'PRAGMA auto_vacuum = 0; VACUUM'",
        ));
    }
    if byte_at(page, 20) != 0 {
        return Err(FileFault::Mode(
            "the file is a store with reserved bytes in its pages, which this program can't read",
        ));
    }
    Ok(())
}

/// Refuses a file that is no store, or one in a mode that isn't read here. It reads the first page, and those of a log where that isn't one of a
/// store, and writes nothing. What is no plain file is left to the call that opens it. A store in format 3 is refused too, unless it is taken.
pub(crate) fn expect_store(
    rt: &HostRuntime,
    path: &str,
    takes_former: bool,
) -> Result<(), FileFault> {
    if !is_plain(rt, path)? {
        return Ok(());
    }
    let page = first_page(rt, path)?;
    let first = first_of(&page);
    let is_former = first == First::Former(former::FORMER_FORMAT);
    if first == First::Store || takes_former && is_former {
        return expect_mode(&page);
    }
    if let Some(
        Logged {
            has_store: true,
            ..
        },
    ) = log_beside(rt, path)?
    {
        return Ok(());
    }
    Err(FileFault::from(match first {
        First::Former(format) => StoreFault::Format(format),
        First::Cut => StoreFault::Database(StoreError::Corrupt),
        _ => StoreFault::Foreign,
    }))
}
