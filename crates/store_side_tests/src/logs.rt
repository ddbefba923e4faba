//! Logs in memory with a table of cells.
ghost use Rattle.store_file.specs.Logs.{HasTables, IsClean, IsLog};
ghost use Rattle.store_rows.specs.InStep.{StandsInStep};

use sqlite_trees::error::StoreError;
use sqlite_trees::memory::MemStore;
use sqlite_trees::schema::Object;
use sqlite_trees::store::{Shape, Store};
use sqlite_value::keys::Order;
use std::alloc::{AllocError, Global};
use std::test::Fail;
use store_file::format::HASH_KEY_LEN;
use store_file::log::Log;
use store_file::table::Entries;
use store_file::{StoreFault, Value};
use store_rows::LatestDigests;
use store_rows::hashing::{Root, hash};
use store_rows::latest::{put, remove};
use store_rows::loading::add_many;
use store_rows::writing::{add_all, compact, replace_all};
use store_side::FileTree;
use store_side::laws::a_log_in_step_is_a_file;
use store_tree::outline::{Outline, outline_over};

/// A write to a log, and to the tree beside it.
#[derive(Drop)]
pub enum Write {
    /// Entries are added.
    Add(Entries),
    /// Entries are added, and the tree is loaded anew.
    Load(Entries),
    /// Entries are put in place of all others.
    Replace(Entries),
    /// At this time of the clock a value is written under a key, or the key is removed where there is none.
    Set(String, u64, Option<Value>),
    /// One entry is left for each key, and none for a removal that is older than this.
    Compact(u64),
}

/// What the table of cells tells of the tree after a write: its root, and what is over a gap.
#[derive(Drop)]
pub struct Told {
    pub root: Root,
    pub outline: Option<Outline>,
}

/// An empty log with an empty table of cells.
pub fn empty(alloc: Global) -> Result<Log<MemStore>, AllocError> {
    let entries = Object {
        shape: Shape::Index(Order::PLAIN),
        kind: "table",
        name: "entry",
        table: "entry",
        reals: 0,
        sql: None,
    };
    let about = Object {
        shape: Shape::Table,
        name: "about",
        table: "about",
        ..entries
    };
    let cells = Object {
        name: "cell",
        table: "cell",
        ..entries
    };
    let trees = MemStore::new(alloc, &[entries, about, cells])?;
    Ok(Log::over(trees))
}

/// The log over trees that are committed now.
fn committed<S: Store + Drop>(trees: S) -> Result<Log<S>, StoreError>
    requires tables { IsClean S.Store trees → HasTables (S.Store.view trees) }
{
    let mut trees = trees;
    trees.commit()?;
    Ok(Log::over(trees))
}

/// The log over trees, and what is over a gap, by their table of cells.
fn ask<S: Store + Drop>(
    alloc: Global,
    trees: S,
    pairs: &LatestDigests,
    gap: &(Option<String>, Option<String>),
) -> Result<(Log<S>, Option<Outline>), Fail>
    requires tables { IsClean S.Store trees → HasTables (S.Store.view trees) }
{
    let mut trees = trees;
    let outline = outline_over(alloc, &mut trees, pairs, &gap.0, &gap.1)?;
    let log = committed(trees)?;
    Ok((log, outline))
}

/// The name by which keys are set.
pub const WRITER: &str = "key 1";

/// Writes a value under a key, or removes it where there is none, and returns whether the key was there if it is removed.
fn set_key<S: Store>(
    alloc: Global,
    log: &mut Log<S>,
    hash_key: &[u8; HASH_KEY_LEN],
    key: &String,
    now: u64,
    value: &Option<Value>,
) -> Result<bool, StoreFault>
    ensures stands { StandsInStep S.Store hash_key.now log.old → StandsInStep S.Store hash_key.now log.new }
{
    let writer = String::from_str(alloc, WRITER)?;
    let key = key.clone()?;
    let Some(value) = value else {
        return remove(alloc, log, hash_key, writer, now, key);
    };
    let value = value.clone()?;
    put(alloc, log, hash_key, writer, now, key, value)?;
    Ok(false)
}

/// Makes a write to a log, and to the tree beside it, and returns what the call tells: how many entries are left, or 1 where a removed key was there; else 0.
fn make_write<S: Store>(
    alloc: Global,
    log: &mut Log<S>,
    hash_key: &[u8; HASH_KEY_LEN],
    write: &Write,
) -> Result<usize, StoreFault>
    ensures stands { StandsInStep S.Store hash_key.now log.old → StandsInStep S.Store hash_key.now log.new }
{
    match write {
        Write::Add(entries) => add_all(alloc, log, hash_key, entries)?,
        Write::Load(entries) => add_many(alloc, log, hash_key, entries)?,
        Write::Replace(entries) => replace_all(alloc, log, hash_key, entries)?,
        Write::Set(key, now, value) => {
            let was = set_key(alloc, log, hash_key, key, *now, value)?;
            return Ok(usize::from(was));
        }
        Write::Compact(before) => return compact(alloc, log, hash_key, *before),
    }
    Ok(0)
}

/// Makes a write to a log, and to the tree beside it, and asks what is over a gap, and for the root. It returns what the call tells, too.
pub fn write_and_ask<S: Store + Drop>(
    alloc: Global,
    log: Log<S>,
    hash_key: &[u8; HASH_KEY_LEN],
    write: &Write,
    gap: &(Option<String>, Option<String>),
) -> Result<(Log<S>, Told, usize), Fail> {
    let mut log = log;
    let count = make_write(alloc, &mut log, hash_key, write)?;
    let pairs = LatestDigests::new(hash_key);
    let (log, outline) = ask(alloc, log.into_trees(), &pairs, gap)?;
    let mut log = log;
    let root = hash(alloc, &mut log, hash_key)?;
    Ok((log, Told { root, outline }, count))
}

/// Makes writes to a log, and to the tree beside it, one after the other.
fn make_writes<S: Store>(
    alloc: Global,
    log: &mut Log<S>,
    hash_key: &[u8; HASH_KEY_LEN],
    writes: &[Write],
) -> Result<(), StoreFault>
    ensures stands { StandsInStep S.Store hash_key.now log.old → StandsInStep S.Store hash_key.now log.new }
{
    'writes: for write in writes {
        make_write(alloc, log, hash_key, write)?;
    }
    Ok(())
}

/// The asking side over a log that is in step with the tree beside it.
fn side_of<S: Store + Drop>(alloc: Global, trees: S, hash_key: &[u8; HASH_KEY_LEN]) -> FileTree<S>
    requires log { IsLog S.Store trees }
    requires stands { StandsInStep S.Store hash_key.now trees }
{
    a_log_in_step_is_a_file::<S>();
    FileTree::over(alloc, trees, LatestDigests::new(hash_key))
}

/// The asking side over a log from which all entries were taken out, and to which these writes were made then.
pub fn side_after<S: Store + Drop>(
    alloc: Global,
    log: Log<S>,
    hash_key: &[u8; HASH_KEY_LEN],
    writes: &[Write],
) -> Result<FileTree<S>, StoreFault> {
    let mut log = log;
    replace_all(alloc, &mut log, hash_key, &[])?;
    make_writes(alloc, &mut log, hash_key, writes)?;
    Ok(side_of(alloc, log.into_trees(), hash_key))
}
