//! A store made of the entries of another one.
ghost use Rattle.store_file.specs.Logs.{Makes};
ghost use Rattle.store_rows.specs.InStep.{IsInStep};
ghost use Rattle.mst_commands.specs.Copies.{IsCopyOf};

use sqlite_trees::store::Store;
use std::alloc::Global;
use store_file::format::{FORMAT, HASH_KEY_LEN, create};
use store_file::log::Log;
use store_file::{Register, StoreFault};
use store_rows::writing::replace_all;

/// Makes a store of these entries in tables without rows, which writes by this name and hashes under this key. It has the tree of the entries, with nothing
/// known of its pages yet.
///
/// # Errors
///
/// As those of [`create`] and [`replace_all`]. There may then be a store without entries.
pub fn make_copy<S: Store>(
    alloc: Global,
    log: &mut Log<S>,
    writer: &str,
    hash_key: &[u8; HASH_KEY_LEN],
    entries: &[(String, Register)],
) -> Result<(), StoreFault>
    ensures copied { Makes S.Store log.old log.new result (λ _. IsCopyOf FORMAT writer.now hash_key.now entries.now) }
    ensures in_step { Makes S.Store log.old log.new result (λ _. IsInStep hash_key.now) }
{
    create(alloc, log, writer, hash_key)?;
    replace_all(alloc, log, hash_key, entries)
}
