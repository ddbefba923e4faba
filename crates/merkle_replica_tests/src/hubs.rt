//! Catch-ups of several replicas through a hub: what all hold afterwards, worked out value by value.

use merkle_digest::SipHasher;
use merkle_replica::{Replica, catch_up_all};
use merkle_search_tree::builder::Builder;
use std::alloc::{AllocError, Global};
use std::test::Fail;
use test_keys::{Random, have_values, number_key, raise};

/// A map of number keys.
type Numbers = Replica<[u8; 2], u64, SipHasher, 16>;

/// How many keys there are.
const COUNT: usize = 64;

/// A value for each key; 0 where the map lacks the key.
fn values_of(random: &mut Random) -> [u64; COUNT] {
    let mut values = [0; COUNT];
    random.fill(4, &mut values);
    values
}

/// Puts a row.
fn put(replica: &mut Numbers, number: u16, value: u64) -> Result<(), AllocError> {
    replica.put(number_key(number), value)
}

/// Catch-ups through a hub, and whether memory was there.
fn all_through(hub: &mut Numbers, others: &mut [Numbers]) -> bool {
    catch_up_all(hub, others).is_ok()
}

/// The map of these values.
fn numbers(alloc: Global, values: &[u64; COUNT]) -> Result<Numbers, AllocError> {
    let mut replica = Numbers::new(alloc, Builder::default());
    for (number, value) in (0u16..64).zip(values.iter()) {
        if *value > 0 {
            put(&mut replica, number, *value)?;
        }
    }
    Ok(replica)
}

/// Whether a hub and this many others come to hold the join of their random maps.
fn join_through_hub(alloc: Global, others: u64, random: &mut Random) -> Result<bool, AllocError> {
    let mut joined = values_of(random);
    let mut hub = numbers(alloc, &joined)?;
    let mut replicas = Vec::new(alloc);
    for _other in 0..others {
        let values = values_of(random);
        raise(&mut joined, &values);
        replicas.push(numbers(alloc, &values)?)?;
    }
    let are_made = all_through(&mut hub, &mut replicas);
    let mut all_hold = are_made && have_values(hub.rows(), &joined);
    for replica in &replicas {
        all_hold = all_hold && have_values(replica.rows(), &joined);
    }
    Ok(all_hold)
}

#[test]
fn a_hub_brings_all_to_the_join(rt: HostRuntime) -> Result<(), Fail> {
    let mut random = Random::new(2026);
    for others in 0..6 {
        for round in 0..8 {
            assert!(rt;
                join_through_hub(rt.alloc(), others, &mut random)?,
                "{others} others: round {round}"
            );
        }
    }
    Ok(())
}
