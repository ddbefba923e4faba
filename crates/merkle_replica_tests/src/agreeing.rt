//! Tests of whether replicas agree by their root hashes.

use merkle_digest::SipHasher;
use merkle_replica::{Replica, agree};
use merkle_search_tree::builder::Builder;
use std::alloc::{AllocError, Global};
use std::test::Fail;

type Counts = Replica<String, u64, SipHasher, 16>;

/// A replica of these rows, put in their order.
fn counts(alloc: Global, rows: &[(&str, u64)]) -> Result<Counts, AllocError> {
    let mut replica: Counts = Replica::new(alloc, Builder::default());
    for row in rows {
        let key = String::from_str(alloc, row.0)?;
        replica.put(key, row.1)?;
    }
    Ok(replica)
}

#[test]
fn rows_put_in_another_order_agree(rt: HostRuntime) -> Result<(), Fail> {
    let alloc = rt.alloc();
    let mut a = counts(alloc, &[("apples", 3), ("bananas", 5), ("cherries", 1)])?;
    let mut b = counts(alloc, &[("cherries", 1), ("apples", 3), ("bananas", 5)])?;
    assert!(rt; agree(&mut a, &mut b));
    Ok(())
}

/// Whether replicas of these rows agree.
fn do_agree(
    alloc: Global,
    rows: &[(&str, u64)],
    others: &[(&str, u64)],
) -> Result<bool, AllocError> {
    let mut a = counts(alloc, rows)?;
    let mut b = counts(alloc, others)?;
    Ok(agree(&mut a, &mut b))
}

#[test]
fn another_value_disagrees(rt: HostRuntime) -> Result<(), Fail> {
    let rows = [("apples", 3), ("bananas", 5), ("cherries", 1)];
    let others = [("apples", 3), ("bananas", 6), ("cherries", 1)];
    assert!(rt; !do_agree(rt.alloc(), &rows, &others)?);
    Ok(())
}

#[test]
fn the_empty_replica_agrees_with_the_empty_one_alone(rt: HostRuntime) -> Result<(), Fail> {
    let alloc = rt.alloc();
    assert!(rt; do_agree(alloc, &[], &[])?);
    assert!(rt; !do_agree(alloc, &[], &[("apples", 3)])?);
    assert!(rt; !do_agree(alloc, &[("apples", 3)], &[])?);
    Ok(())
}

#[test]
fn a_catch_up_brings_what_the_peer_has(rt: HostRuntime) -> Result<(), Fail> {
    let alloc = rt.alloc();
    let mut a = counts(alloc, &[("apples", 3), ("bananas", 5)])?;
    let mut b = counts(alloc, &[("bananas", 7), ("cherries", 1)])?;
    let caught = a.catch_up(&mut b)?;
    assert_eq!(rt; caught.joined, 2);
    Ok(())
}

#[test]
fn a_pull_brings_what_the_peer_has(rt: HostRuntime) -> Result<(), Fail> {
    let alloc = rt.alloc();
    let mut a = counts(alloc, &[("apples", 3), ("bananas", 7), ("cherries", 1)])?;
    let mut b = counts(alloc, &[("bananas", 7), ("cherries", 1)])?;
    // the keys of `a` span those of `b`, so that one pull is enough
    let pulled = b.pull(&mut a)?;
    assert_eq!(rt; pulled.joined, 3);
    assert!(rt; agree(&mut a, &mut b));
    Ok(())
}
