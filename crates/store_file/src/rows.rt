//! What the table holds, without a tree: each key with its latest register.
ghost use Rattle.std.specs.Prelude.{◌≡◌, length, filter, IfOk, IfErr};
ghost use Rattle.std.specs.Option.{option_copied};
ghost use Rattle.key_order.specs.Text.{text_order};
ghost use Rattle.key_order.specs.Map.{IsMap, get};
ghost use Rattle.key_order.specs.Places.{IsPlaceOf, IsGapFor};
ghost use Rattle.store_file.specs.Logs.{IsClean, IsOpen, Finds, MakesAndFinds, Refuses, OnlyReads, Writes};
ghost use Rattle.store_file.specs.Faults.{IsFailure, IsUnwritten};
ghost use Rattle.store_file.specs.Rows.{AreLatest, HasLatestRows, HasLateRow, IsCompacted, stays};

use crate::fault::StoreFault;
use crate::log::Log;
use crate::register::Register;
use crate::table::{Entries, read_log, replace_all};
use sqlite_trees::store::Store;
use std::alloc::Global;
use std::cmp::Ordering;

/// What the file holds, in numbers.
#[derive(Clone, Copy, Debug, PartialEq, Eq, Drop)]
pub struct Summary {
    /// How many keys have a value.
    pub keys: usize,
    /// How many keys are removed.
    pub removed: usize,
    /// The greatest time of a register, or 0.
    pub last: u64,
}

/// Of each key the latest entry, ascending by key.
pub fn latest_rows(entries: Entries) -> Entries
    ensures { AreLatest entries.items result.items }
{
    let mut rows = entries;
    rows.sort_unstable();
    rows.reverse();
    rows.dedup_by(|later, kept| later.0 == kept.0);
    rows.reverse();
    rows
}

/// Each key with its latest register, ascending by key, removals too. It takes memory linear in the table, and the time of a sort of its rows.
///
/// # Errors
///
/// [`StoreFault::Database`] and [`StoreFault::Memory`].
pub fn read_latest<S: Store>(alloc: Global, log: &mut Log<S>) -> Result<Entries, StoreFault>
    ensures latest { Finds S.Store log.old log.new result (λ trees rows. HasLatestRows trees rows.items) }
    ensures failed { IfErr result IsFailure }
    ensures reads { OnlyReads S.Store log.old log.new result }
    ensures was_open { IsClean S.Store log.new → IsOpen S.Store log.new → IsOpen S.Store log.old }
{
    Ok(latest_rows(read_log(alloc, log)?))
}

/// Where the key is among ascending rows, or where it would go.
fn place(rows: &[(String, Register)], key: &String) -> Result<usize, usize>
    ensures found { IsMap text_order rows.now → IfOk result (λ at. IsPlaceOf text_order key.now rows.now at) }
    ensures absent { IsMap text_order rows.now → IfErr result (λ at. IsGapFor text_order key.now rows.now at) }
{
    rows.binary_search_by(
        |row: &(String, Register)| -> Ordering
            ensures { result ≡ text_order row.now.0 key.entry.now }
        { row.0.cmp(key) },
    )
}

/// The register of a key among ascending rows, which is found by halving.
pub fn register_in<'a>(rows: &'a [(String, Register)], key: &String) -> Option<&'a Register>
    ensures { IsMap text_order rows.now → option_copied result ≡ get text_order rows.now key.now }
{
    match place(rows, key) {
        Ok(at) => match rows.get(at) {
            Some(row) => Some(&row.1),
            None => None,
        },
        Err(_) => None,
    }
}

/// Takes out the rows of removals that are older than `before`. It looks at each row once.
pub fn forget(rows: &mut Entries, before: u64)
    ensures { rows.new.items ≡ filter (stays before) rows.old.items }
{
    rows.retain(
        |row: &(String, Register)| -> bool
            ensures { result ≡ stays before row.now }
        { row.1.value.is_some() || row.1.time >= before },
    );
}

/// Leaves one row in the table for each key, and none for a removal that is older than `before`, and returns how many are left.
///
/// # Errors
///
/// [`StoreFault::Database`], [`StoreFault::Malformed`] and [`StoreFault::Memory`]: the file is then as it was.
pub fn compact<S: Store>(alloc: Global, log: &mut Log<S>, before: u64) -> Result<usize, StoreFault>
    ensures compacted { Writes S.Store log.old log.new result (IsCompacted before) }
    ensures left { MakesAndFinds S.Store log.old log.new result (λ _ trees left. left ≡ length (trees 0)) }
    ensures late { Refuses S.Store log.old log.new result StoreFault.Time HasLateRow }
    ensures faults { IfErr result IsUnwritten }
{
    let mut rows = read_latest(alloc, log)?;
    forget(&mut rows, before);
    replace_all(alloc, log, &rows)?;
    Ok(rows.len())
}
