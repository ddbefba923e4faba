//! Closes the file of a store.
use crate::fault::FileFault;
use sqlite_disk::Files;
use sqlite_std_file::File;
use sqlite_store::FileStore;
use sqlite_trees::error::StoreError;
use std::fs;
use store_file::log::Log;
use store_file::{StoreFault, Unsure};

/// The trees of a store's file.
pub type FileTrees = FileStore<Unsure<File>>;

/// A log whose file can be closed. What runs over any such one has no file to drop, whose many parts make a function slow to prove.
pub trait Closing: Sized + Drop {
    /// Closes the file, into which its log is copied.
    fn close_copied(self) -> Result<(), FileFault>;

    /// Closes the file. Where there is no room or no memory to copy what its log holds, the log keeps that, and what was committed is read
    /// from there.
    fn close_all(self) -> Result<(), FileFault>;

    /// Closes the file, and takes away the log of this name beside it once it has no pages, before another process can have the file.
    fn close_without_log(self, rt: &HostRuntime, name: &str);
}

impl Closing for Log<FileTrees> {
    fn close_copied(self) -> Result<(), FileFault> {
        store_file::close(self.into_trees())?;
        Ok(())
    }

    fn close_all(self) -> Result<(), FileFault> {
        match store_file::close(self.into_trees()) {
            Ok(()) | Err(StoreFault::Database(StoreError::Full) | StoreFault::Memory) => Ok(()),
            Err(fault) => Err(FileFault::from(fault)),
        }
    }

    fn close_without_log(self, rt: &HostRuntime, name: &str) {
        if let Ok(_files) = files_of(self) {
            let _ = fs::remove_file(rt, name);
        }
    }
}

/// Copies the log into the file, and returns both files, which no other process has until they are dropped.
pub(crate) fn files_of(log: Log<FileTrees>) -> Result<Files<Unsure<File>>, FileFault> {
    let (files, _is_store) = store_file::file::close_any(log.into_trees())?;
    Ok(files)
}

/// Closes the file of a log after what was done on it. Where both failed, the reason is that of the first.
///
/// # Errors
///
/// What was done failed, or a [`FileFault`].
pub fn close_behind<L: Closing, T: Drop, E: From<FileFault> + Drop>(
    log: L,
    done: Result<T, E>,
) -> Result<T, E> {
    let closed = log.close_all();
    let done = done?;
    closed?;
    Ok(done)
}
