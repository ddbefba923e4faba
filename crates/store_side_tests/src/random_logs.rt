//! Random writes to a log, after which its table of cells tells what the tree of its replica tells.
use crate::logs::{Told, WRITER, Write, empty, write_and_ask};
use merkle_search_tree::OutlineItem;
use merkle_store::rows::{EntryReplica, read_replica};
use sqlite_trees::memory::MemStore;
use std::alloc::{AllocError, Global};
use std::test::Fail;
use store_file::format::HASH_KEY_LEN;
use store_file::log::Log;
use store_file::table::Entries;
use store_file::{Register, Value};
use store_tree_tests::same::{are_items, is_digest, lent};
use test_keys::Random;

/// The hash key of the log.
const HASH_KEY: [u8; HASH_KEY_LEN] = [7; HASH_KEY_LEN];

/// A key by its number.
fn key_of(alloc: Global, number: u64) -> Result<String, AllocError> {
    format!(in alloc; "key {number}")
}

/// A random value: a text, bytes, or that the key is removed.
fn value(alloc: Global, random: &mut Random) -> Result<Option<Value>, AllocError> {
    let number = random.below(100);
    match random.below(5) {
        0 => Ok(None),
        1 => Ok(Some(Value::of(vec![in alloc; 255]?))),
        2 => Ok(Some(Value::of(vec![in alloc; 254, 1]?))),
        _ => Ok(Some(Value::Text(format!(in alloc; "{number}")?))),
    }
}

/// A random entry: of few times and writers, so that some are older than what is there, and some are there.
fn entry(alloc: Global, random: &mut Random, keys: u64) -> Result<(String, Register), AllocError> {
    let register = Register {
        time: random.below(20),
        writer: key_of(alloc, random.below(2))?,
        value: value(alloc, random)?,
    };
    Ok((key_of(alloc, random.below(keys))?, register))
}

/// One to three random entries.
fn entries(alloc: Global, random: &mut Random, keys: u64) -> Result<Entries, AllocError> {
    let mut entries = Vec::new(alloc);
    for _ in 0..random.below(3).saturating_add(1) {
        entries.push(entry(alloc, random, keys)?)?;
    }
    Ok(entries)
}

/// A random write: half of the time of a key, now and then a compaction or one that loads the tree anew, and seldom in place of all entries.
fn some_write(alloc: Global, random: &mut Random, keys: u64) -> Result<Write, AllocError> {
    match random.below(30) {
        0 => Ok(Write::Replace(entries(alloc, random, keys)?)),
        1 | 2 => Ok(Write::Compact(random.below(25))),
        3..=16 => {
            let key = key_of(alloc, random.below(keys))?;
            Ok(Write::Set(key, random.below(25), value(alloc, random)?))
        }
        17..=20 => Ok(Write::Load(entries(alloc, random, keys)?)),
        _ => Ok(Write::Add(entries(alloc, random, keys)?)),
    }
}

/// The register that a list has for a key.
fn register_of<'a>(rows: &'a [(String, Register)], key: &String) -> Option<&'a Register> {
    for row in rows {
        if row.0 == *key {
            return Some(&row.1);
        }
    }
    None
}

/// Puts the register of a key in its place in a list, which is not sorted, if it is later than what is there.
fn set(rows: &mut Entries, entry: (String, Register)) -> Result<(), AllocError> {
    let later = match register_of(rows, &entry.0) {
        Some(own) => *own < entry.1,
        None => true,
    };
    if later {
        rows.retain(|row: &(String, Register)| -> bool { row.0 != entry.0 });
        rows.push(entry)?;
    }
    Ok(())
}

/// Puts a copy of each of the entries in its place in a list.
fn set_all(rows: &mut Entries, entries: &[(String, Register)]) -> Result<(), AllocError> {
    for (key, register) in entries {
        set(rows, (key.clone()?, register.copy()?))?;
    }
    Ok(())
}

/// Writes a value under a key of a list, or removes it if it is there, and returns whether it was there if it is removed.
fn set_key(
    alloc: Global,
    rows: &mut Entries,
    key: &String,
    now: u64,
    value: &Option<Value>,
) -> Result<bool, AllocError> {
    let found = register_of(rows, key);
    let there = found.is_some_and(|own: &Register| -> bool { own.value.is_some() });
    if value.is_none() && !there {
        return Ok(false);
    }
    let register = Register {
        time: found.map_or(now, |own: &Register| -> u64 {
            now.max(own.time.saturating_add(1))
        }),
        writer: String::from_str(alloc, WRITER)?,
        value: value.clone()?,
    };
    set(rows, (key.clone()?, register))?;
    Ok(value.is_none())
}

/// Makes a write to a list of the latest registers, and returns what the call of the log is to tell.
fn write_to_list(alloc: Global, rows: &mut Entries, write: &Write) -> Result<usize, AllocError> {
    match write {
        Write::Add(entries) | Write::Load(entries) => set_all(rows, entries)?,
        Write::Replace(entries) => {
            rows.clear();
            set_all(rows, entries)?;
        }
        Write::Set(key, now, value) => {
            return Ok(usize::from(set_key(alloc, rows, key, *now, value)?));
        }
        Write::Compact(before) => {
            rows.retain(|row: &(String, Register)| -> bool {
                row.1.value.is_some() || row.1.time >= *before
            });
            return Ok(rows.len());
        }
    }
    Ok(0)
}

/// A bound by a random number: half of the time there is none.
fn bound(alloc: Global, random: &mut Random, keys: u64) -> Result<Option<String>, AllocError> {
    if random.below(2) == 0 {
        return Ok(None);
    }
    Ok(Some(key_of(alloc, random.below(keys))?))
}

/// Whether the root page has this digest in the tree of a replica, and the replica this many rows.
fn is_root(told: &Told, replica: &EntryReplica) -> bool {
    if told.root.count != replica.rows().len() as u64 {
        return false;
    }
    match replica.tree().whole() {
        None => told.root.digest.is_none(),
        Some(OutlineItem::Page(_, digest)) => is_digest(&told.root.digest, Some(digest)),
        Some(_) => false,
    }
}

/// Whether this is over a gap in the tree of a replica.
fn is_over(
    alloc: Global,
    told: &Told,
    replica: &EntryReplica,
    gap: &(Option<String>, Option<String>),
) -> Result<bool, Fail> {
    let Some(list) = replica.tree().outline(lent(gap))? else {
        return Ok(false);
    };
    let Some(outline) = &told.outline else {
        return Ok(list.is_empty());
    };
    let items = outline.items(alloc, lent(gap))?;
    Ok(!list.is_empty() && are_items(&items, &list))
}

/// Makes a random write to a log and to a list, and returns the log, if it has the rows of the list then, and its table of cells tells what the tree of its
/// replica tells.
fn write_at_random(
    alloc: Global,
    log: Log<MemStore>,
    rows: &mut Entries,
    random: &mut Random,
    keys: u64,
) -> Result<Option<Log<MemStore>>, Fail> {
    let write = some_write(alloc, random, keys)?;
    let gap = (bound(alloc, random, keys)?, bound(alloc, random, keys)?);
    let (mut log, told, count) = write_and_ask(alloc, log, &HASH_KEY, &write, &gap)?;
    let expected = write_to_list(alloc, rows, &write)?;
    rows.sort_unstable();
    let mut replica = read_replica(alloc, &mut log, &HASH_KEY)?;
    replica.hash();
    let same = count == expected && replica.rows() == rows.as_slice();
    if !same || !is_root(&told, &replica) || !is_over(alloc, &told, &replica, &gap)? {
        return Ok(None);
    }
    Ok(Some(log))
}

/// How many keys there are to choose from, and how many writes are made of them.
const BATCHES: [(u64, u64); 2] = [(6, 40), (80, 120)];

#[test]
fn random_writes_leave_the_tree_of_the_replica(rt: HostRuntime) -> Result<(), Fail> {
    for (keys, times) in BATCHES {
        let mut random = Random::new(keys);
        let mut log = empty(rt.alloc())?;
        let mut rows = Vec::new(rt.alloc());
        for _ in 0..times {
            let added = write_at_random(rt.alloc(), log, &mut rows, &mut random, keys)?;
            log = added.ok_or("another tree")?;
        }
    }
    Ok(())
}
