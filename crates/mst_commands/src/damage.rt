//! Rows of the table that are no entries.
ghost use Rattle.std.specs.Prelude.{◌≡◌, [], IfErr, OnOk};
ghost use Rattle.store_file.specs.Logs.{Shows, OnlyReads};
ghost use Rattle.mst_commands.specs.Faults.{IsDevice};
ghost use Rattle.mst_commands.specs.Reads.{AreEntryRows};

use crate::escape::cut;
use crate::fault::Fault;
use sqlite_trees::store::Store;
use store_file::log::Log;
use store_file::sifting::{BadRow, sift};

/// Names a row on standard error, if that takes it.
fn tell_row(rt: &HostRuntime, row: &BadRow) -> Result<(), Fault>
    ensures { IfErr result (λ why. ¬ IsDevice why) }
{
    match &row.key {
        Some(key) => {
            let key = cut(rt.alloc(), key.as_str())?;
            let _ = eprintln!(rt; "mst: row {} is damaged: its key is {key}", row.number);
        }
        None => {
            let _ = eprintln!(rt; "mst: row {} is damaged, and so is its key", row.number);
        }
    }
    Ok(())
}

/// Names rows on standard error, and fails if there are any.
///
/// # Errors
///
/// [`Fault::Damaged`] with their number, and [`Fault::Store`] when out of memory.
pub fn tell(rt: &HostRuntime, bad: &[BadRow]) -> Result<(), Fault>
    ensures none { OnOk result (bad.now ≡ []) }
    ensures told { IfErr result (λ why. ¬ IsDevice why) }
{
    'rows: for row in bad {
        tell_row(rt, row)?;
    }
    if bad.is_empty() {
        Ok(())
    } else {
        Err(Fault::Damaged(bad.len()))
    }
}

/// Refuses a table with rows that are no entries, each of which it names on standard error. It takes the time and the memory of reading all rows.
///
/// # Errors
///
/// [`Fault::Damaged`] with the number of such rows, and [`Fault::Store`]. Nothing is written.
pub fn expect_entries<S: Store>(rt: &HostRuntime, log: &mut Log<S>) -> Result<(), Fault>
    ensures entries { Shows S.Store log.old log.new result AreEntryRows }
    ensures reads { OnlyReads S.Store log.old log.new result }
{
    let sifted = sift(rt.alloc(), log)?;
    tell(rt, &sifted.bad)
}
