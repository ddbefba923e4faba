//! Replicas of rows that are handed in at once. Under `rt try --test --fail-alloc N -- a_refused` the Nth request for memory of a test
//! is refused.

use merkle_digest::SipHasher;
use merkle_replica::{Replica, RowsRefused};
use merkle_search_tree::LoadRefused;
use merkle_search_tree::builder::Builder;
use std::alloc::{AllocError, Global};
use std::test::Fail;

/// A map of texts, whose copies take memory.
type Texts = Replica<String, u64, SipHasher, 16>;

/// Rows of texts in this order, each with its place as value.
fn rows(alloc: Global, texts: &[&str]) -> Result<Vec<(String, u64)>, AllocError> {
    let mut rows = Vec::with_capacity(alloc, texts.len())?;
    let mut place = 0u64;
    for text in texts {
        rows.push((String::from_str(alloc, text)?, place))?;
        place = place.saturating_add(1);
    }
    Ok(rows)
}

/// The replica of rows.
fn loaded(alloc: Global, rows: Vec<(String, u64)>) -> Result<Texts, RowsRefused<String, u64>> {
    Replica::from_rows(alloc, Builder::default(), rows)
}

/// Puts a row.
fn put(replica: &mut Texts, row: (String, u64)) -> Result<(), AllocError> {
    replica.put(row.0, row.1)
}

/// The replica of rows that are put one after the other.
fn put_each(alloc: Global, rows: Vec<(String, u64)>) -> Result<Texts, AllocError> {
    let mut replica = Texts::new(alloc, Builder::default());
    for row in rows {
        put(&mut replica, row)?;
    }
    Ok(replica)
}

/// Lists of ascending texts.
const ASCENDING: [&[&str]; 4] = [
    &[],
    &["a"],
    &["a", "b", "c"],
    &[
        "", "a", "aa", "ab", "b", "ba", "c", "ca", "d", "e", "f", "g", "h", "i", "j", "k", "l",
        "m", "n", "o", "p", "q", "r", "s", "t", "u", "v", "w", "x", "y", "z",
    ],
];

#[test]
fn rows_make_the_replica_that_puts_make(rt: HostRuntime) -> Result<(), Fail> {
    let alloc = rt.alloc();
    for texts in ASCENDING {
        let mut put = put_each(alloc, rows(alloc, texts)?)?;
        match loaded(alloc, rows(alloc, texts)?) {
            Ok(mut replica) => {
                assert!(rt; replica.rows() == put.rows());
                assert!(rt; *replica.root_hash() == *put.root_hash());
            }
            Err(_) => return Err(Fail::from("refused")),
        }
    }
    Ok(())
}

/// Whether a load of three rows gives them, or hands them back when out of memory.
fn loads_three(alloc: Global) -> Result<bool, AllocError> {
    match loaded(alloc, rows(alloc, ASCENDING[2])?) {
        Ok(replica) => Ok(replica.rows().len() == 3),
        Err(refused) => Ok(refused.rows.len() == 3 && refused.why == LoadRefused::Memory),
    }
}

#[test]
fn a_refused_load_hands_the_rows_back(rt: HostRuntime) {
    assert!(rt; loads_three(rt.alloc()) != Ok(false));
}
