//! Opens the file of a store.
ghost use Rattle.std.specs.Prelude.{IfOk, IsTrue};

use crate::closing::{Closing, FileTrees};
use crate::fault::FileFault;
use crate::look::{expect_store, has_tables, is_former, log_of};
use mst_commands::Fault;
use sqlite_disk::{Disk, Files};
use sqlite_std_file::{File, OpenError, Unknown};
use sqlite_trees::store::Store;
use std::fs;
use std::thread::sleep;
use std::time::Duration;
use store_file::format::recognise;
use store_file::former::{open_former, recognise_former};
use store_file::log::Log;
use store_file::{StoreFault, Unsure};

/// Whether there is such a file.
fn is_there(rt: &HostRuntime, path: &str) -> Result<bool, OpenError> {
    Ok(fs::exists(rt, path)?)
}

/// How many times a second a file is tried that another process has.
const TRIES: u64 = 20;

/// What the system says of this process's limits.
const LIMITS: &str = "/proc/self/limits";

/// The limit on the length of files in a line of that, if it is the line that has it. A limit that is none has no number.
fn limit_in(line: &str) -> Option<u64> {
    let Some(rest) = line.strip_prefix("Max file size") else {
        return None;
    };
    let Some(word) = rest.split_ascii_whitespace().next() else {
        return None;
    };
    match word.parse::<u64>() {
        Ok(bytes) => Some(bytes),
        Err(_) => None,
    }
}

/// How many bytes a file may have. A write past that would end the process, so that no such is tried.
fn longest_file(rt: &HostRuntime) -> u64 {
    let Ok(limits) = fs::read_to_string(rt, LIMITS) else {
        return u64::MAX;
    };
    for line in limits.lines() {
        if let Some(bytes) = limit_in(line) {
            return bytes;
        }
    }
    u64::MAX
}

/// The file of a store and its log, as files of which nothing is known.
pub(crate) fn files_at(rt: &HostRuntime, path: &str) -> Result<Files<Unsure<File>>, OpenError>
    ensures log { IfOk result (λ files. IsTrue (⟦<Unsure<File> as Disk>⟧.is_usable files.log)) }
    ensures db { IfOk result (λ files. IsTrue (⟦<Unsure<File> as Disk>⟧.is_usable files.db)) }
{
    let most = longest_file(rt);
    let files = sqlite_std_file::open(rt, path, Unknown)?;
    Ok(Files {
        log: Unsure::within(files.log, most),
        db: Unsure::within(files.db, most),
    })
}

/// Whether a file wasn't opened since another process has it.
fn is_in_use(opened: &Result<Files<Unsure<File>>, OpenError>) -> bool {
    matches!(opened, Err(OpenError::Busy))
}

/// The files, once no other process has them. They are tried again for this many seconds.
fn wait_for(rt: &HostRuntime, path: &str, seconds: u64) -> Result<Files<Unsure<File>>, OpenError>
    ensures log { IfOk result (λ files. IsTrue (⟦<Unsure<File> as Disk>⟧.is_usable files.log)) }
    ensures db { IfOk result (λ files. IsTrue (⟦<Unsure<File> as Disk>⟧.is_usable files.db)) }
{
    let mut opened = files_at(rt, path);
    'tries: for _ in 0..seconds.saturating_mul(TRIES) {
        if !is_in_use(&opened) {
            break;
        }
        sleep(rt, Duration::from_millis(1_000 / TRIES));
        opened = files_at(rt, path);
    }
    opened
}

/// Refuses a name of no file.
pub fn expect_file(rt: &HostRuntime, path: &str) -> Result<(), FileFault> {
    if is_there(rt, path)? {
        Ok(())
    } else {
        Err(FileFault::Command(Fault::NoStore))
    }
}

/// Refuses a log that isn't one of a store, or of a store in format 3, by its note.
fn expect_note<S: Store>(
    rt: &HostRuntime,
    log: &mut Log<S>,
    is_former: bool,
) -> Result<(), StoreFault> {
    let _note = if is_former {
        recognise_former(rt.alloc(), log)?
    } else {
        recognise(rt.alloc(), log)?
    };
    Ok(())
}

/// A log that is one of a store, by its note. Else it is closed, and if the file had no log before it has none again.
fn noted<S: Store + Drop>(
    rt: &HostRuntime,
    log: Log<S>,
    name: &str,
    had_log: bool,
    is_former: bool,
) -> Result<Log<S>, FileFault>
where
    Log<S>: Closing,
{
    let mut log = log;
    match expect_note(rt, &mut log, is_former) {
        Ok(()) => Ok(log),
        Err(fault) => {
            if had_log {
                let _ = log.close_all();
            } else {
                log.close_without_log(rt, name);
            }
            Err(FileFault::from(fault))
        }
    }
}

/// The log of files that no other process has, at a path where a store is by its first page: in format 3 if that is said.
fn log_at(
    rt: &HostRuntime,
    path: &str,
    files: Files<Unsure<File>>,
    is_former: bool,
) -> Result<Log<FileTrees>, FileFault>
    requires log { IsTrue (⟦<Unsure<File> as Disk>⟧.is_usable files.log) }
    requires db { IsTrue (⟦<Unsure<File> as Disk>⟧.is_usable files.db) }
{
    let opened = if is_former {
        open_former(rt.alloc(), files)
    } else if has_tables(rt, path)? {
        store_file::open_trusted(rt.alloc(), files)
    } else {
        store_file::open(rt.alloc(), files)
    };
    Ok(Log::over(opened?))
}

/// Opens a file that is there, one of a store in format 3 too if that is taken.
fn open_taken(
    rt: &HostRuntime,
    path: &str,
    seconds: u64,
    takes_former: bool,
) -> Result<Log<FileTrees>, FileFault> {
    expect_file(rt, path)?;
    expect_store(rt, path, takes_former)?;
    let name = log_of(rt, path)?;
    let had_log = is_there(rt, name.as_str())?;
    let files = wait_for(rt, path, seconds)?;
    // (another process may have brought it into this format meanwhile)
    let is_former = takes_former && is_former(rt, path)?;
    let log = log_at(rt, path, files, is_former)?;
    noted(rt, log, name.as_str(), had_log, is_former)
}

/// Opens a file that is there. Where another process has it, it is tried again for this many seconds.
pub fn open_file(rt: &HostRuntime, path: &str, seconds: u64) -> Result<Log<FileTrees>, FileFault> {
    open_taken(rt, path, seconds, false)
}

/// The same of a store in this format or in format 3, whose log can be read as that of another.
pub(crate) fn open_either(
    rt: &HostRuntime,
    path: &str,
    seconds: u64,
) -> Result<Log<FileTrees>, FileFault> {
    open_taken(rt, path, seconds, true)
}

/// The log of files whose pages all were read and found to be where they belong.
fn whole_log(rt: &HostRuntime, files: Files<Unsure<File>>) -> Result<Log<FileTrees>, FileFault>
    requires log { IsTrue (⟦<Unsure<File> as Disk>⟧.is_usable files.log) }
    requires db { IsTrue (⟦<Unsure<File> as Disk>⟧.is_usable files.db) }
{
    Ok(Log::over(store_file::open_whole(rt.alloc(), files)?))
}

/// The same, once all its pages were read and found to be where they belong.
pub fn open_whole(rt: &HostRuntime, path: &str, seconds: u64) -> Result<Log<FileTrees>, FileFault> {
    expect_file(rt, path)?;
    expect_store(rt, path, false)?;
    let name = log_of(rt, path)?;
    let had_log = is_there(rt, name.as_str())?;
    let files = wait_for(rt, path, seconds)?;
    let log = whole_log(rt, files)?;
    noted(rt, log, name.as_str(), had_log, false)
}
