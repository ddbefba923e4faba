//! The log of a store over the trees of a file.
ghost use Rattle.std.specs.Prelude.{◌≡◌, IfErr, IsErrOf, OnOk, OnErr};
ghost use Rattle.sqlite_trees.specs.View.{IsRolledBack};
ghost use Rattle.store_file.specs.Faults.{IsUnwritten};
ghost use Rattle.store_file.specs.Logs.{HasTables, IsClean, IsLog, IsOpen, IsSteady, Writes};
ghost use Rattle.store_file.specs.Transactions.{CommitsNothing, StaysQuiet, WereWritten};

use crate::fault::StoreFault;
use sqlite_trees::store::Store;
use std::marker::Model;

/// The one cursor in use.
pub(crate) const CURSOR: u16 = 0;

/// A log: each write that a store has seen, in the tables of a file. What it shows is committed, so a crash between two calls loses nothing of
/// it but where the file's own contract says so.
#[derive(Drop)]
pub struct Log<S: Store> {
    pub trees: S,
}

impl<S: Store> Model for Log<S> {
    ghost Value = { S };

    ghost coded = { S.code };

    ghost view = { λ log. log.trees };

    ghost invariant = { λ log. IsLog S.Store log.trees };
}

impl<S: Store> Log<S> {
    /// The log over trees that are those of a store.
    pub fn over(trees: S) -> Log<S>
        requires { IsLog S.Store trees }
        ensures { result ≡ trees }
    {
        Log { trees }
    }

    /// The trees, to be closed.
    pub fn into_trees(self) -> S
        ensures same { result ≡ self }
        ensures log { IsLog S.Store result }
    {
        let Log { trees } = self;
        trees
    }
}

/// After an error takes back what isn't committed.
pub(crate) fn settled<S: Store, A>(
    trees: &mut S,
    done: Result<A, StoreFault>,
) -> Result<A, StoreFault>
    ensures same { result ≡ done }
    ensures kept { OnOk result (trees.new ≡ trees.old) }
    ensures undone { OnErr result (IsRolledBack (S.Store.view trees.old) (S.Store.view trees.new)) }
    ensures quiet { OnErr result (StaysQuiet S.Store trees.old trees.new) }
{
    if done.is_err() {
        trees.rollback();
    }
    done
}

/// Ends a transaction over the trees of a log: commits what a call has written, or takes it back where the call failed. What can't be committed is taken
/// back too. It takes the time of the commit, and returns the error of the call.
///
/// ```rust crates/store_file/src/table.rt
/// let written = insert_all(alloc, &mut log.trees, entries);
/// commit(&mut log.trees, written)
/// ```
///
/// # Errors
///
/// That of the call, and [`StoreFault::Database`] and [`StoreFault::Memory`] of the commit: nothing of the transaction stays then.
pub fn commit<S: Store>(trees: &mut S, written: Result<(), StoreFault>) -> Result<(), StoreFault>
    requires tables { IsClean S.Store trees.old → HasTables (S.Store.view trees.old) }
    ensures log { IsLog S.Store trees.new }
    // Of whatever log the trees were before the call.
    ensures written { (log : S) → IsLog S.Store log → CommitsNothing S.Store log trees.old
        → Writes S.Store log trees.new result (λ _ new. WereWritten S.Store trees.old written new) }
    ensures steady { IsSteady S.Store trees.old trees.new }
    ensures was_open { IsClean S.Store trees.new → IsOpen S.Store trees.new → IsOpen S.Store trees.old }
    ensures late { IsErrOf result StoreFault.Time → IsErrOf written StoreFault.Time }
    ensures foreign { IsErrOf result StoreFault.Foreign → IsErrOf written StoreFault.Foreign }
    ensures faults { IfErr written IsUnwritten → IfErr result IsUnwritten }
{
    if let Err(why) = written {
        trees.rollback();
        return Err(why);
    }
    trees.commit()?;
    Ok(())
}
