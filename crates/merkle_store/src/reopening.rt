//! A log whose file is closed and opened again.
ghost use Rattle.std.specs.Prelude.{IfSome};
ghost use Rattle.merkle_store.specs.Kept.{Reopens};

use sqlite_disk::Disk;
use sqlite_store::FileStore;
use sqlite_trees::store::Store as Trees;
use std::alloc::Global;
use store_file::log::Log;

/// The log, once its file is closed and opened again by `close_files` and `open_trusted` of `store_file`, as `mst` does from one command to the next:
/// its tables have the rows that they had. There is none where the file can't be closed or opened, or memory runs out.
pub fn reopen<D: Disk + Drop>(alloc: Global, log: Log<FileStore<D>>) -> Option<Log<FileStore<D>>>
    ensures { IfSome result (Reopens ⟦<FileStore<D> as Trees>⟧ log) }
{
    match store_file::reopen(alloc, log.into_trees()) {
        Ok(trees) => Some(Log::over(trees)),
        Err(_) => None,
    }
}
