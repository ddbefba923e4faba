//! A law for callers. A call of it costs nothing when it runs.
ghost use Rattle.store_side.specs.FileLaws.{IsFileInStep};

use sqlite_trees::store::Store;

/// The trees of a log that is in step with its tree are a file that has rows and the tree of their digests, so a [`FileTree`](crate::FileTree) can be made
/// of them.
pub fn a_log_in_step_is_a_file<S: Store>()
    ensures { IsFileInStep S.Store }
{}
