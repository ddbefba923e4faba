use crate::rows::{are_rows, opened};
use examples::messages::gossip_by_messages;
use examples::store::Store;
use std::alloc::Global;
use std::test::Fail;

/// The rows of five replicas, the hub's first.
const ROWS: [&[(&str, u64)]; 5] = [
    &[("a", 1), ("b", 7)],
    &[("b", 5), ("c", 3)],
    &[],
    &[("a", 4), ("d", 2)],
    &[("c", 9)],
];

/// The greatest number at each name.
const JOIN: [(&str, u64); 4] = [("a", 4), ("b", 7), ("c", 9), ("d", 2)];

/// The replicas but the hub.
fn others(alloc: Global) -> Result<Vec<Store<u64>>, Fail> {
    let mut others = Vec::new(alloc);
    for rows in &ROWS[1..] {
        others.push(opened(alloc, rows)?)?;
    }
    Ok(others)
}

/// Whether gossip came to its end.
fn gossips(alloc: Global, hub: &mut Store<u64>, others: &mut [Store<u64>]) -> bool {
    gossip_by_messages(alloc, hub, others).is_ok()
}

#[test]
fn five_replicas_come_to_the_join_of_all(rt: HostRuntime) -> Result<(), Fail> {
    let mut hub = opened(rt.alloc(), ROWS[0])?;
    let mut others = others(rt.alloc())?;
    assert!(rt; gossips(rt.alloc(), &mut hub, &mut others));
    assert!(rt; are_rows(hub.rows(), &JOIN));
    for other in &others {
        assert!(rt; are_rows(other.rows(), &JOIN));
    }
    Ok(())
}
