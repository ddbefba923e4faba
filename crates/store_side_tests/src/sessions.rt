//! A side that has its tree in a store's file brings of a peer what a replica of the same rows brings, and is asked as such a replica is.
use crate::logs::{Write, empty, side_after};
use merkle_digest::SipHasher;
use merkle_replica::Replica;
use merkle_search_tree::builder::{Builder, PageFormat};
use merkle_store::rows::EntryReplica;
use merkle_wire::{CatchingUp, KeptSide, KeptTree, MOST_BYTES, Next, answer_by};
use std::alloc::{AllocError, Global};
use std::test::Fail;
use store_file::format::HASH_KEY_LEN;
use store_file::{Register, Value};
use test_keys::Random;

/// The hash key of both sides.
const HASH_KEY: [u8; HASH_KEY_LEN] = [9; HASH_KEY_LEN];

/// Rows of a store, sorted by key.
type Rows = Vec<(String, Register)>;

/// The numbers of an entry: of its key, its time and its writer, which determine its value.
type Numbers = (u64, u64, u64);

/// The numbers of entries that are added, or put in place of all others.
#[derive(Drop)]
struct Given {
    numbers: Vec<Numbers>,
    anew: bool,
}

/// The entry of its numbers. Keys are in the order of their numbers.
fn entry_of(alloc: Global, numbers: &Numbers) -> Result<(String, Register), AllocError> {
    let (key, time, writer) = *numbers;
    let value = match time % 3 {
        0 => None,
        1 => Some(Value::of(vec![in alloc; 255]?)),
        _ => Some(Value::Text(format!(in alloc; "{time}")?)),
    };
    let register = Register {
        time,
        writer: format!(in alloc; "{writer}")?,
        value,
    };
    Ok((format!(in alloc; "{key:03}")?, register))
}

/// The entries of their numbers.
fn entries_of(alloc: Global, given: &[Numbers]) -> Result<Rows, AllocError> {
    let mut entries = Vec::new(alloc);
    for numbers in given {
        entries.push(entry_of(alloc, numbers)?)?;
    }
    Ok(entries)
}

/// One to four random entries at some of the keys.
fn some(alloc: Global, random: &mut Random, keys: u64, anew: bool) -> Result<Given, AllocError> {
    let mut numbers = Vec::new(alloc);
    for _ in 0..random.below(4).saturating_add(1) {
        numbers.push((random.below(keys), random.below(9), random.below(2)))?;
    }
    Ok(Given { numbers, anew })
}

/// Random entries, of which those of one time are put in place of all others.
fn random_given(
    alloc: Global,
    random: &mut Random,
    keys: u64,
    times: u64,
) -> Result<Vec<Given>, AllocError> {
    let anew = random.below(times / 2).saturating_add(1);
    let mut given = Vec::new(alloc);
    for time in 0..times {
        given.push(some(alloc, random, keys, time == anew)?)?;
    }
    Ok(given)
}

/// The writes of what is given.
fn writes_of(alloc: Global, given: &[Given]) -> Result<Vec<Write>, AllocError> {
    let mut writes = Vec::new(alloc);
    for new in given {
        let entries = entries_of(alloc, &new.numbers)?;
        writes.push(if new.anew {
            Write::Replace(entries)
        } else {
            Write::Add(entries)
        })?;
    }
    Ok(writes)
}

/// A replica without rows.
fn blank(alloc: Global) -> EntryReplica {
    let builder = Builder::default()
        .with_hasher(SipHasher::new(&HASH_KEY))
        .with_page_format(PageFormat::V2);
    Replica::new(alloc, builder)
}

/// The replica of what is given.
fn replica_of(alloc: Global, given: &[Given]) -> Result<EntryReplica, Fail> {
    let mut replica = blank(alloc);
    for new in given {
        if new.anew {
            replica = blank(alloc);
        }
        if replica.put_all(entries_of(alloc, &new.numbers)?).is_err() {
            return Err(Fail::new("memory"));
        }
    }
    Ok(replica)
}

/// The later of an entry and those that are given of a key, by the times and the writers.
fn later(given: &[Numbers], key: u64, than: Option<(u64, u64)>) -> Option<(u64, u64)> {
    let mut latest = than;
    for (at, time, writer) in given {
        if *at == key && latest < Some((*time, *writer)) {
            latest = Some((*time, *writer));
        }
    }
    latest
}

/// The time and the writer of the latest entry of a key, where it has one.
fn latest_of(given: &[Given], key: u64) -> Option<(u64, u64)> {
    let mut latest = None;
    for new in given {
        let before = if new.anew { None } else { latest };
        latest = later(&new.numbers, key, before);
    }
    latest
}

/// The latest rows of one side that the other lacks, or has with another register.
fn lacked(alloc: Global, own: &[Given], given: &[Given], keys: u64) -> Result<Rows, AllocError> {
    let mut rows = Vec::new(alloc);
    for key in 0..keys {
        let there = latest_of(given, key);
        if let Some((time, writer)) = there
            && there != latest_of(own, key)
        {
            rows.push(entry_of(alloc, &(key, time, writer))?)?;
        }
    }
    Ok(rows)
}

/// The rows that a side with about this many rows brings from a peer.
fn brought<
    T: KeptTree<16, String, Register, SipHasher>,
    P: KeptSide<16, String, Register, SipHasher, ()>,
>(alloc: Global, side: &mut T, count: u64, peer: &mut P) -> Result<Rows, Fail> {
    let Ok((mut session, mut message)) = CatchingUp::<String, Register>::begin_by(alloc, side)
    else {
        return Err(Fail::new("no question"));
    };
    for _ in 0..100 {
        let Ok(reply) = answer_by(alloc, peer, &(), &message, MOST_BYTES) else {
            return Err(Fail::new("no answer"));
        };
        match session.take_by(side, count, &reply) {
            Ok(Next::Ask(next, question)) => {
                session = next;
                message = question;
            }
            Ok(Next::Came(rows)) => return Ok(rows),
            Err(_) => return Err(Fail::new("not taken")),
        }
    }
    Err(Fail::new("no end"))
}

/// The rows that a side whose tree is in its file brings from a peer.
fn brought_by_file(
    alloc: Global,
    own: &[Given],
    count: u64,
    peer: &mut EntryReplica,
) -> Result<Rows, Fail> {
    let writes = writes_of(alloc, own)?;
    let mut side = side_after(alloc, empty(alloc)?, &HASH_KEY, &writes)?;
    let rows = brought(alloc, &mut side, count, peer);
    let _trees = side.into_trees();
    rows
}

/// The rows that a replica brings from a peer whose rows and tree are in its file.
fn brought_from_file(
    alloc: Global,
    replica: &mut EntryReplica,
    count: u64,
    given: &[Given],
) -> Result<Rows, Fail> {
    let writes = writes_of(alloc, given)?;
    let mut side = side_after(alloc, empty(alloc)?, &HASH_KEY, &writes)?;
    let rows = brought(alloc, replica, count, &mut side);
    let _trees = side.into_trees();
    rows
}

/// How many keys there are to choose from, how often entries are given to either side, and how many rows the asking side says that it has.
const CASES: [(u64, u64, u64, u64); 4] = [
    (5, 4, 4, 5),
    (60, 4, 40, 0),
    (60, 40, 40, 60),
    (300, 200, 200, 300),
];

/// Whether a file and a replica with the same rows bring of a peer the rows that they lack, of which there are some, and the replica brings them of a
/// file with the peer's rows.
fn bring_alike(alloc: Global, case: (u64, u64, u64, u64)) -> Result<bool, Fail> {
    let (keys, own_times, times, count) = case;
    let mut random = Random::new(keys);
    let own = random_given(alloc, &mut random, keys, own_times)?;
    let given = random_given(alloc, &mut random, keys, times)?;
    let expected = lacked(alloc, &own, &given, keys)?;
    let mut peer = replica_of(alloc, &given)?;
    let mut replica = replica_of(alloc, &own)?;
    let by_replica = brought(alloc, &mut replica, count, &mut peer)?;
    let by_file = brought_by_file(alloc, &own, count, &mut peer)?;
    let from_file = brought_from_file(alloc, &mut replica, count, &given)?;
    let both = by_replica == expected && by_file == expected;
    Ok(!expected.is_empty() && both && from_file == expected)
}

#[test]
fn a_file_brings_and_tells_what_a_replica_does(rt: HostRuntime) -> Result<(), Fail> {
    for case in CASES {
        assert!(rt; bring_alike(rt.alloc(), case)?, "{case:?}");
    }
    Ok(())
}

/// How many bytes replies may have, and how many entries the peer is given.
const PARTS: [(usize, u64); 4] = [(1, 10), (40, 40), (200, 40), (MOST_BYTES, 40)];

/// The reply of a file to a message, where a replica with its rows replies with the same bytes.
fn same_reply<P: KeptSide<16, String, Register, SipHasher, ()>>(
    alloc: Global,
    peer: &mut EntryReplica,
    file: &mut P,
    message: &[u8],
    most_bytes: usize,
) -> Result<Vec<u8>, Fail> {
    let Ok(reply) = answer_by(alloc, peer, &(), message, most_bytes) else {
        return Err(Fail::new("no reply"));
    };
    let Ok(told) = answer_by(alloc, file, &(), message, most_bytes) else {
        return Err(Fail::new("no reply of the file"));
    };
    if reply != told {
        return Err(Fail::new("another reply"));
    }
    Ok(told)
}

/// The rows that a replica without rows brings of a file, of which each reply is that of a replica with its rows, and how many replies these are.
fn brought_in_parts<P: KeptSide<16, String, Register, SipHasher, ()>>(
    alloc: Global,
    peer: &mut EntryReplica,
    file: &mut P,
    most_bytes: usize,
) -> Result<(Rows, usize), Fail> {
    let mut side = blank(alloc);
    let Ok((mut session, mut message)) = CatchingUp::<String, Register>::begin_by(alloc, &mut side)
    else {
        return Err(Fail::new("no question"));
    };
    for replies in 1..1000 {
        let reply = same_reply(alloc, peer, file, &message, most_bytes)?;
        match session.take_by(&mut side, 0, &reply) {
            Ok(Next::Ask(next, question)) => {
                session = next;
                message = question;
            }
            Ok(Next::Came(rows)) => return Ok((rows, replies)),
            Err(_) => return Err(Fail::new("not taken")),
        }
    }
    Err(Fail::new("no end"))
}

/// Whether a replica without rows brings all rows of a file in parts of this many bytes, in more replies where they have room for one row.
fn parts_bring_all(alloc: Global, most_bytes: usize, times: u64) -> Result<bool, Fail> {
    let mut random = Random::new(times);
    let given = random_given(alloc, &mut random, 60, times)?;
    let expected = lacked(alloc, &[], &given, 60)?;
    let mut peer = replica_of(alloc, &given)?;
    let writes = writes_of(alloc, &given)?;
    let mut file = side_after(alloc, empty(alloc)?, &HASH_KEY, &writes)?;
    let brought = brought_in_parts(alloc, &mut peer, &mut file, most_bytes);
    let _trees = file.into_trees();
    let (rows, replies) = brought?;
    let enough = most_bytes > 1 || replies > rows.len();
    Ok(!expected.is_empty() && rows == expected && enough)
}

#[test]
fn a_file_tells_rows_in_parts_as_a_replica_does(rt: HostRuntime) -> Result<(), Fail> {
    for (most_bytes, times) in PARTS {
        assert!(rt;
            parts_bring_all(rt.alloc(), most_bytes, times)?,
            "{most_bytes} {times}"
        );
    }
    Ok(())
}
