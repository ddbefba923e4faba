//! Many rows put at once.

use merkle_digest::SipHasher;
use merkle_replica::{PutsCut, Replica};
use merkle_search_tree::builder::Builder;
use std::alloc::{AllocError, Global};
use std::test::Fail;

/// A map of texts, whose copies take memory.
type Texts = Replica<String, u64, SipHasher, 16>;

/// The rows of these pairs.
fn rows(alloc: Global, pairs: &[(&str, u64)]) -> Result<Vec<(String, u64)>, AllocError> {
    let mut rows = Vec::with_capacity(alloc, pairs.len())?;
    for (text, number) in pairs {
        rows.push((String::from_str(alloc, text)?, *number))?;
    }
    Ok(rows)
}

/// Puts all rows.
fn put_all(replica: &mut Texts, rows: Vec<(String, u64)>) -> Result<(), PutsCut> {
    replica.put_all(rows)
}

/// Whether a map has these rows and no others.
fn has(replica: &Texts, wanted: &[(&str, u64)]) -> bool {
    let mut is_right = replica.rows().len() == wanted.len();
    for (row, pair) in replica.rows().iter().zip(wanted.iter()) {
        is_right = is_right && row.0.as_str() == pair.0 && row.1 == pair.1;
    }
    is_right
}

/// The rows of a map, rows that are put, and the rows afterwards, where the greater of two numbers is kept.
type Case = (
    &'static [(&'static str, u64)],
    &'static [(&'static str, u64)],
    &'static [(&'static str, u64)],
);

const CASES: [Case; 6] = [
    (&[], &[], &[]),
    (&[("b", 1)], &[], &[("b", 1)]),
    (
        &[],
        &[("c", 3), ("b", 2), ("a", 1)],
        &[("a", 1), ("b", 2), ("c", 3)],
    ),
    (
        &[("b", 5), ("d", 1)],
        &[("e", 1), ("d", 2), ("c", 3), ("b", 4), ("a", 5)],
        &[("a", 5), ("b", 5), ("c", 3), ("d", 2), ("e", 1)],
    ),
    (
        &[("a", 2)],
        &[("c", 1), ("a", 1), ("c", 7), ("b", 4), ("c", 3), ("a", 3)],
        &[("a", 3), ("b", 4), ("c", 7)],
    ),
    (&[], &[("a", 1), ("a", 1)], &[("a", 1)]),
];

/// Whether rows are put, after which a map has these.
fn puts(
    alloc: Global,
    replica: &mut Texts,
    new: &[(&str, u64)],
    after: &[(&str, u64)],
) -> Result<bool, AllocError> {
    Ok(put_all(replica, rows(alloc, new)?).is_ok() && has(replica, after))
}

#[test]
fn rows_are_put_in_any_order(rt: HostRuntime) -> Result<(), Fail> {
    for (before, new, after) in CASES {
        let mut replica = Texts::new(rt.alloc(), Builder::default());
        assert!(rt; puts(rt.alloc(), &mut replica, before, before)?);
        assert!(rt; puts(rt.alloc(), &mut replica, new, after)?);
    }
    Ok(())
}

/// Whether puts of three rows into a map of two leave the first ones in key order if memory runs out.
fn puts_three(alloc: Global) -> Result<bool, AllocError> {
    let mut replica = Texts::new(alloc, Builder::default());
    if put_all(&mut replica, rows(alloc, &[("b", 1), ("d", 1)])?).is_err() {
        return Err(AllocError);
    }
    let three = rows(alloc, &[("e", 2), ("b", 2), ("a", 2)])?;
    Ok(match put_all(&mut replica, three) {
        Ok(()) => has(&replica, &[("a", 2), ("b", 2), ("d", 1), ("e", 2)]),
        Err(PutsCut { done: 0 }) => has(&replica, &[("b", 1), ("d", 1)]),
        Err(PutsCut { done: 1 }) => has(&replica, &[("a", 2), ("b", 1), ("d", 1)]),
        Err(PutsCut { done }) => { done == 2 && has(&replica, &[("a", 2), ("b", 2), ("d", 1)]) }
    })
}

#[test]
fn a_refused_put_of_all_has_put_the_first_rows(rt: HostRuntime) {
    assert!(rt; puts_three(rt.alloc()) != Ok(false));
}
