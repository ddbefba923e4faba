//! Makes the file of a store.
use crate::closing::Closing;
use crate::fault::FileFault;
use crate::look::LOG_WITH_PAGES;
use crate::opening::files_at;
use mst_commands::Fault;
use mst_commands::backup::make_copy;
use sqlite_std_file::OpenError;
use sqlite_trees::store::Store;
use std::fs::{self, OpenOptions};
use std::hash::{BuildHasher, RandomState};
use std::io::{self, ErrorKind};
use std::os::unix::fs::OpenOptionsExt;
use store_file::format::HASH_KEY_LEN;
use store_file::log::Log;
use store_file::table::Entries;

/// A random number.
pub(crate) fn random(rt: &HostRuntime) -> Result<u64, FileFault> {
    match RandomState::new(rt) {
        Ok(state) => Ok(state.hash_one(&0u8)),
        Err(_) => Err(FileFault::Command(Fault::System)),
    }
}

/// A random name for a store to write by: 16 hexadecimal digits.
pub fn random_name(rt: &HostRuntime) -> Result<String, FileFault> {
    let number = random(rt)?;
    Ok(format!(in rt.alloc(); "{number:016x}")?)
}

/// The name, or a random one.
fn name_of_copy(rt: &HostRuntime, name: Option<&str>) -> Result<String, FileFault> {
    match name {
        Some(name) => Ok(String::from_str(rt.alloc(), name)?),
        None => random_name(rt),
    }
}

/// The hash key, or a random one.
fn key_of_store(
    rt: &HostRuntime,
    hash_key: Option<[u8; HASH_KEY_LEN]>,
) -> Result<[u8; HASH_KEY_LEN], FileFault> {
    if let Some(hash_key) = hash_key {
        return Ok(hash_key);
    }
    let (high, low) = (random(rt)?, random(rt)?);
    Ok((u128::from(high) << 64 | u128::from(low)).to_be_bytes())
}

/// What a new store has.
#[derive(Clone, Copy)]
pub(crate) struct Contents<'a> {
    /// The name by which it writes; if it is empty, the first write draws one.
    pub writer: &'a str,
    pub hash_key: &'a [u8; HASH_KEY_LEN],
    pub entries: &'a Entries,
}

/// Makes a store in tables without rows, and closes it.
fn create_on<S: Store + Drop>(
    rt: &HostRuntime,
    log: Log<S>,
    new: &Contents<'_>,
) -> Result<(), FileFault>
where
    Log<S>: Closing,
{
    let mut log = log;
    let made = make_copy(rt.alloc(), &mut log, new.writer, new.hash_key, new.entries);
    let closed = log.close_copied();
    made?;
    closed
}

/// Makes a store in a file without bytes.
pub(crate) fn fill_file(rt: &HostRuntime, path: &str, new: &Contents<'_>) -> Result<(), FileFault> {
    let files = files_at(rt, path)?;
    let log = Log::over(store_file::create(rt.alloc(), files)?);
    create_on(rt, log, new)
}

/// Makes a file without bytes, where there is none.
fn make_file(rt: &HostRuntime, path: &str) -> Result<(), FileFault> {
    let made = OpenOptions::new()
        .write(true)
        .create_new(true)
        .mode(0o644)
        .open(rt, path);
    match made {
        Ok(_file) => Ok(()),
        Err(error) if error.kind() == ErrorKind::AlreadyExists => {
            Err(FileFault::Command(Fault::Exists))
        }
        Err(error) => Err(FileFault::Path(OpenError::Io(error))),
    }
}

/// Refuses a name that a file has, or whose log has pages of another file.
fn expect_none(rt: &HostRuntime, path: &str, log: &str) -> Result<(), FileFault> {
    match fs::symlink_metadata(rt, path) {
        Ok(_) => return Err(FileFault::Command(Fault::Exists)),
        Err(error) if error.kind() == ErrorKind::NotFound => {}
        Err(error) => return Err(FileFault::Path(OpenError::Io(error))),
    }
    match fs::symlink_metadata(rt, log) {
        Ok(found) if !found.is_file() => {
            Err(FileFault::Path(OpenError::Io(ErrorKind::Unsupported.into())))
        }
        Ok(found) if found.len() >= LOG_WITH_PAGES => Err(FileFault::Mode(
            "there is a log without its file: remove FILE-wal",
        )),
        _ => Ok(()),
    }
}

/// Gives a file its name, unless one has it by now. The folder is synced too, so that the name is there after a crash.
fn put_in_place(rt: &HostRuntime, made: &str, path: &str, log: &str) -> Result<(), FileFault> {
    expect_none(rt, path, log)?;
    if let Err(error) = fs::rename(rt, made, path) {
        return Err(FileFault::Path(OpenError::Io(error)));
    }
    // (the next command on the file syncs its folder too)
    let _ = sync_folder(rt, path);
    Ok(())
}

/// Syncs the folder of a file.
pub(crate) fn sync_folder(rt: &HostRuntime, path: &str) -> io::Result<()> {
    let mut folder = fs::canonicalize(rt, path)?;
    folder.pop();
    fs::open(rt, folder.as_str())?.sync_all()
}

/// Makes a store in a new file, which has another name until the store is whole. So there is a store at the end, or no file of this name; stopped
/// in between, it leaves a file and a log under that other name, which nothing needs.
fn make_whole(rt: &HostRuntime, path: &str, new: &Contents<'_>) -> Result<(), FileFault> {
    let number = random(rt)?;
    let log = format!(in rt.alloc(); "{path}-wal")?;
    let made = format!(in rt.alloc(); "{path}-{number:016x}")?;
    let made_log = format!(in rt.alloc(); "{path}-{number:016x}-wal")?;
    expect_none(rt, path, log.as_str())?;
    make_file(rt, made.as_str())?;
    let done = match fill_file(rt, made.as_str(), new) {
        Ok(()) => put_in_place(rt, made.as_str(), path, log.as_str()),
        Err(failure) => Err(failure),
    };
    if done.is_err() {
        let _ = fs::remove_file(rt, made.as_str());
    }
    let _ = fs::remove_file(rt, made_log.as_str());
    done
}

/// Makes a store without entries, by this name and under this hash key, or random ones.
pub fn make_store(
    rt: &HostRuntime,
    path: &str,
    writer: Option<&str>,
    hash_key: Option<[u8; HASH_KEY_LEN]>,
) -> Result<(), FileFault> {
    let writer = name_of_copy(rt, writer)?;
    let hash_key = key_of_store(rt, hash_key)?;
    let new = Contents {
        writer: writer.as_str(),
        hash_key: &hash_key,
        entries: &Vec::new(rt.alloc()),
    };
    make_whole(rt, path, &new)
}

/// Makes a store of these entries under this hash key, without a name: the first write to each copy of it draws one.
pub fn make_backup(
    rt: &HostRuntime,
    path: &str,
    hash_key: &[u8; HASH_KEY_LEN],
    entries: &Entries,
) -> Result<(), FileFault> {
    let new = Contents {
        writer: "",
        hash_key,
        entries,
    };
    make_whole(rt, path, &new)
}
