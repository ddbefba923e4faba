//! Writes the file of a store anew.
use crate::closing::{FileTrees, files_of};
use crate::fault::FileFault;
use crate::making::{Contents, fill_file, random, sync_folder};
use crate::opening::open_either;
use sqlite_disk::Files;
use sqlite_std_file::{File, OpenError};
use sqlite_trees::store::Store;
use std::alloc::Global;
use std::fs::{self, Metadata, OpenOptions, Permissions};
use std::io::{self, ErrorKind};
use std::os::unix::fs::{MetadataExt, OpenOptionsExt, PermissionsExt, fchown};
use store_file::format::{Note, about};
use store_file::log::Log;
use store_file::table::{Entries, read_log};
use store_file::{StoreFault, Unsure};

/// What a failure of the system means.
fn failure_of(error: io::Error) -> FileFault {
    FileFault::Path(OpenError::Io(error))
}

/// Success, too, where this process may not do it.
fn unless_denied(done: io::Result<()>) -> io::Result<()> {
    match done {
        Err(error) if error.kind() == ErrorKind::PermissionDenied => Ok(()),
        other => other,
    }
}

/// Makes a file without bytes, where there is none, with the mode of another file, and with its group and owner where this process may set them.
fn make_alike(rt: &HostRuntime, path: &str, other: &Metadata) -> io::Result<()> {
    let file = OpenOptions::new()
        .write(true)
        .create_new(true)
        .mode(0o600)
        .open(rt, path)?;
    unless_denied(fchown(&file, None, Some(other.gid())))?;
    unless_denied(fchown(&file, Some(other.uid()), None))?;
    file.set_permissions(Permissions::from_mode(other.mode() & 0o777))
}

/// Makes a store in a new file beside another one, whose place it takes once it is whole.
fn make_instead(
    rt: &HostRuntime,
    made: &str,
    path: &str,
    new: &Contents<'_>,
) -> Result<(), FileFault> {
    let other = fs::metadata(rt, path).map_err(failure_of)?;
    make_alike(rt, made, &other).map_err(failure_of)?;
    fill_file(rt, made, new)?;
    fs::rename(rt, made, path).map_err(failure_of)?;
    // (if it fails, a crash may still bring the other file back, which is whole too)
    let _ = sync_folder(rt, path);
    Ok(())
}

/// Makes a store in the place of a file, by whose name there is the old file or the whole new one at each moment. Stopped in between, it leaves a file and
/// a log under another name, which nothing needs.
fn replace(rt: &HostRuntime, path: &str, new: &Contents<'_>) -> Result<(), FileFault> {
    let number = random(rt)?;
    let made = format!(in rt.alloc(); "{path}-{number:016x}")?;
    let made_log = format!(in rt.alloc(); "{path}-{number:016x}-wal")?;
    let done = make_instead(rt, made.as_str(), path, new);
    if done.is_err() {
        let _ = fs::remove_file(rt, made.as_str());
    }
    let _ = fs::remove_file(rt, made_log.as_str());
    done
}

/// What a store notes of itself, and all its entries.
fn whole_of<S: Store>(alloc: Global, log: &mut Log<S>) -> Result<(Note, Entries), StoreFault> {
    let note = about(alloc, log)?;
    let entries = read_log(alloc, log)?;
    Ok((note, entries))
}

/// The same, and the files that it is read from, into which the log is copied, and which no other process has until they are dropped.
type Read = (Note, Entries, Files<Unsure<File>>);

/// Reads a store, and keeps its files.
fn read_file(rt: &HostRuntime, log: Log<FileTrees>) -> Result<Read, FileFault> {
    let mut log = log;
    let read = whole_of(rt.alloc(), &mut log);
    let files = files_of(log);
    let (note, entries) = read?;
    Ok((note, entries, files?))
}

/// Writes a file anew: its entries, the name by which it writes and its hash key as they are, in this format, and the tree made from the entries. A file in
/// format 3 is taken too, and one whose tree is damaged. No other process has the file until the new one is in its place, with its mode, group and owner. A
/// process that waits for it opens the new one. It takes memory for all entries, and room for a second file.
///
/// # Errors
///
/// [`FileFault`]: the file is then as it was.
pub fn rebuild(rt: &HostRuntime, path: &str, seconds: u64) -> Result<(), FileFault> {
    let log = open_either(rt, path, seconds)?;
    let (note, entries, files) = read_file(rt, log)?;
    let real = fs::canonicalize(rt, path).map_err(failure_of)?;
    let new = Contents {
        writer: note.writer.as_str(),
        hash_key: &note.hash_key,
        entries: &entries,
    };
    let done = replace(rt, real.as_str(), &new);
    drop(files);
    done
}
