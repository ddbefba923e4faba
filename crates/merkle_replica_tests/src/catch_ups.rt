//! How many rows, rounds, pages and nodes catch-ups take, worked out by hand.

use merkle_replica::{CatchUpError, CaughtUp, Replica};
use merkle_search_tree::builder::Builder;
use std::alloc::{AllocError, Global};
use std::test::Fail;
use test_keys::{LevelHasher, number_hasher, number_key};

/// A map of number keys on given levels.
type Numbers = Replica<[u8; 2], u64, LevelHasher<[u8; 2]>, 32>;

/// How many keys there are.
const COUNT: usize = 40;

/// Puts a row.
fn put(replica: &mut Numbers, number: u16, value: u64) -> Result<(), AllocError> {
    replica.put(number_key(number), value)
}

/// A catch-up.
fn catch_up(a: &mut Numbers, b: &mut Numbers) -> Result<CaughtUp, CatchUpError> {
    a.catch_up(b)
}

/// Keys of a replica.
type Keys = &'static [u16];

/// Keys of a replica and of its peer, and how many rows a catch-up then joins, in how many rounds, how many pages it opens, and how many nodes
/// it compares. The key 3 is on level 1, and the others are on level 0.
const CASES: [(Keys, Keys, [usize; 4]); 8] = [
    (&[], &[], [0, 0, 0, 0]),
    (&[1, 2], &[], [0, 0, 0, 0]),
    (&[1, 2, 3, 4, 5], &[1, 2, 3, 4, 5], [0, 0, 0, 0]),
    (&[], &[1, 2], [2, 1, 1, 2]),
    (&[], &[1, 2, 3, 4, 5], [5, 2, 3, 5]),
    (&[1, 2, 3, 4], &[1, 2, 3, 4, 5], [1, 2, 2, 3]),
    (&[1, 2, 4, 5], &[1, 2, 3, 4, 5], [1, 2, 3, 5]),
    (&[1, 2, 3, 4, 5], &[3], [0, 1, 1, 1]),
];

/// A replica with these keys.
fn with_keys(alloc: Global, keys: Keys) -> Result<Numbers, AllocError> {
    let mut levels = [0; COUNT];
    levels[3] = 1;
    let builder = Builder::default().with_hasher(number_hasher(alloc, &levels)?);
    let mut replica = Numbers::new(alloc, builder);
    for key in keys {
        put(&mut replica, *key, 1)?;
    }
    Ok(replica)
}

/// What a catch-up did; none where memory ran out.
fn counts_of(answer: Result<CaughtUp, CatchUpError>) -> Option<[usize; 4]> {
    match answer {
        Ok(caught) => { Some([caught.joined, caught.rounds, caught.opened, caught.compared]) }
        Err(_) => None,
    }
}

#[test]
fn pages_that_are_missing_are_opened(rt: HostRuntime) -> Result<(), Fail> {
    for (keys, peer_keys, expected) in &CASES {
        let mut local = with_keys(rt.alloc(), *keys)?;
        let mut peer = with_keys(rt.alloc(), *peer_keys)?;
        assert!(rt;
            counts_of(catch_up(&mut local, &mut peer)) == Some(*expected),
            "{keys:?} {peer_keys:?}"
        );
    }
    Ok(())
}
