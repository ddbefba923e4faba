//! Sessions between replicas of random puts and removals, whose replies come in parts of random sizes. What each side is to have is worked out beside them,
//! value by value.
use crate::keys::Sample;
use crate::playing::{Rows, rows_lacked};
use crate::values::Worth;
use crate::wide::Wide;
use merkle_replica::Replica;
use merkle_search_tree::builder::{Builder, PageFormat};
use merkle_wire::MOST_BYTES;
use std::alloc::{AllocError, Global};
use std::num::NonZeroU8;
use std::test::Fail;
use test_keys::Random;

/// At how many bytes replies end.
const MOST: [usize; 5] = [1, 64, 200, 1000, MOST_BYTES];

/// The level bases: where it is small, few keys have several levels.
const BASES: [u8; 3] = [2, 4, 16];

/// A replica, and the value that it is to have at each of its keys, by their numbers; 0 where it is to lack the key.
#[derive(Drop)]
struct Side<K: Sample, V: Worth> {
    replica: Rows<K, V>,
    values: Vec<u64>,
}

/// A replica without rows, by a level base and a page format, for this many keys.
fn empty<K: Sample, V: Worth>(
    alloc: Global,
    settings: (u8, PageFormat),
    keys: u64,
) -> Result<Side<K, V>, AllocError> {
    let base = NonZeroU8::new(settings.0).ok_or(AllocError)?;
    let builder = Builder::default().with_level_base(base);
    let replica = Replica::new(alloc, builder.with_page_format(settings.1));
    Ok(Side {
        replica,
        values: vec![in alloc; 0; keys as usize]?,
    })
}

/// Puts a random value at a random key, or takes the key out.
fn update<K: Sample, V: Worth>(
    alloc: Global,
    side: &mut Side<K, V>,
    random: &mut Random,
) -> Result<(), AllocError> {
    let number = random.below(side.values.len() as u64);
    let value = random.below(5);
    let key = K::of(alloc, number)?;
    if let Some(place) = side.values.get_mut(number as usize) {
        *place = if value == 0 { 0 } else { (*place).max(value) };
    }
    if value == 0 {
        side.replica.del(&key)?;
    } else {
        side.replica.put(key, V::of(value))?;
    }
    Ok(())
}

/// Makes this many random updates.
fn updates<K: Sample, V: Worth>(
    alloc: Global,
    side: &mut Side<K, V>,
    count: u64,
    random: &mut Random,
) -> Result<(), AllocError> {
    for _update in 0..count {
        update(alloc, side, random)?;
    }
    Ok(())
}

/// Makes the same random updates on both sides, and then none, a few or many others on each.
fn part<K: Sample, V: Worth>(
    alloc: Global,
    sides: (&mut Side<K, V>, &mut Side<K, V>),
    random: &mut Random,
) -> Result<(), AllocError> {
    let (a, b) = sides;
    let keys = a.values.len() as u64;
    let same = random.below(keys.saturating_mul(2));
    let bound = if random.below(2) == 0 { 4 } else { keys };
    let mut again = *random;
    updates(alloc, a, same, random)?;
    updates(alloc, b, same, &mut again)?;
    let (a_own, b_own) = (random.below(bound), random.below(bound));
    updates(alloc, a, a_own, random)?;
    updates(alloc, b, b_own, random)
}

/// How many values the peer has that are others than one's own.
fn lacked(own: &[u64], peer: &[u64]) -> usize {
    let mut count = 0usize;
    for (value, other) in own.iter().zip(peer) {
        if *other > 0 && *other != *value {
            count = count.saturating_add(1);
        }
    }
    count
}

/// Takes in the greater value of each key.
fn raise(joined: &mut [u64], values: &[u64]) {
    for (value, other) in joined.iter_mut().zip(values) {
        *value = (*value).max(*other);
    }
}

/// Whether a session brings the rows of the peer that a side lacks or has with another value, and no others, and leaves the join.
fn catches_up<K: Sample, V: Worth>(
    alloc: Global,
    side: &mut Side<K, V>,
    peer: &mut Side<K, V>,
    most_bytes: usize,
) -> Result<bool, Fail> {
    let rows = rows_lacked(alloc, &mut side.replica, &mut peer.replica, most_bytes)?;
    let is_exact = rows.len() == lacked(&side.values, &peer.values);
    if side.replica.join_rows(rows).is_err() {
        return Ok(false);
    }
    raise(&mut side.values, &peer.values);
    Ok(is_exact && holds(alloc, side)?)
}

/// Whether a replica has the values that it is to have, and no other rows.
fn holds<K: Sample, V: Worth>(alloc: Global, side: &Side<K, V>) -> Result<bool, AllocError> {
    let mut rows = Vec::new(alloc);
    for (number, value) in side.values.iter().enumerate() {
        if *value > 0 {
            rows.push((K::of(alloc, number as u64)?, V::of(*value)))?;
        }
    }
    Ok(side.replica.rows() == rows.as_slice())
}

/// Two replicas with the same random updates and others of their own, of up to 20 keys, or seldom of up to 300.
fn pair<K: Sample, V: Worth>(
    alloc: Global,
    format: PageFormat,
    random: &mut Random,
) -> Result<(Side<K, V>, Side<K, V>), AllocError> {
    let most = if random.below(50) == 0 { 300 } else { 20 };
    let keys = random.below(most).saturating_add(1);
    let base = BASES.get(random.below(3) as usize).copied().unwrap_or(16);
    let mut a: Side<K, V> = empty(alloc, (base, format), keys)?;
    let mut b: Side<K, V> = empty(alloc, (base, format), keys)?;
    part(alloc, (&mut a, &mut b), random)?;
    Ok((a, b))
}

/// Whether sessions in both directions leave two random replicas with the join, and with one root hash.
fn pair_meets<K: Sample, V: Worth>(
    alloc: Global,
    format: PageFormat,
    random: &mut Random,
) -> Result<bool, Fail> {
    let most_bytes = MOST.get(random.below(5) as usize).copied().unwrap_or(64);
    let (a, b) = pair::<K, V>(alloc, format, random)?;
    let (mut a, mut b) = (a, b);
    let a_meets = catches_up(alloc, &mut a, &mut b, most_bytes)?;
    let b_meets = catches_up(alloc, &mut b, &mut a, most_bytes)?;
    Ok(a_meets && b_meets && a.replica.root_hash() == b.replica.root_hash())
}

/// The first of 500 pairs in each page format that doesn't come to hold the join.
fn first_apart<K: Sample, V: Worth>(alloc: Global, seed: u64) -> Result<Option<u64>, Fail> {
    let mut random = Random::new(seed);
    for pair in 0..500u64 {
        for format in [PageFormat::V1, PageFormat::V2] {
            if !pair_meets::<K, V>(alloc, format, &mut random)? {
                return Ok(Some(pair));
            }
        }
    }
    Ok(None)
}

#[test]
fn texts_meet(rt: HostRuntime) -> Result<(), Fail> {
    assert!(rt; first_apart::<String, u64>(rt.alloc(), 1)? == None);
    Ok(())
}

/// Here the values are longer than their digests.
#[test]
fn byte_strings_meet(rt: HostRuntime) -> Result<(), Fail> {
    assert!(rt; first_apart::<Vec<u8>, Wide>(rt.alloc(), 2)? == None);
    Ok(())
}
