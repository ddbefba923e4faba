//! Catch-ups in both directions between two maps of random puts and removals, whose keys are texts or byte strings. The joins are worked out
//! beside them, value by value.

use crate::kinds::{Kind, Map, del, put};
use merkle_digest::{HashBytes, Key};
use merkle_replica::catch_up_both;
use merkle_search_tree::builder::{Builder, PageFormat};
use std::alloc::{AllocError, Global};
use std::test::Fail;
use test_keys::{Random, raise};

/// A map, and the value that it is to have at each of its keys, by their numbers; 0 where it is to lack the key.
#[derive(Drop)]
struct Side<K: Key + HashBytes> {
    map: Map<K>,
    values: Vec<u64>,
}

/// Catch-ups in both directions, and whether memory was there.
fn both_ways<K: Kind + Drop>(a: &mut Map<K>, b: &mut Map<K>) -> bool {
    catch_up_both(a, b).is_ok()
}

/// Whether the root hashes of two maps are equal.
fn look_the_same<K: Kind>(a: &mut Map<K>, b: &mut Map<K>) -> bool {
    a.root_hash() == b.root_hash()
}

/// Whether a map has these values and no other rows.
fn holds<K: Kind + Drop>(alloc: Global, map: &Map<K>, values: &[u64]) -> Result<bool, AllocError> {
    let mut rows = map.rows().iter();
    for (number, value) in (0..u16::MAX).zip(values) {
        if *value > 0 {
            match rows.next() {
                None => return Ok(false),
                Some(row) => {
                    if row.0 != K::of(alloc, number)? || row.1 != *value {
                        return Ok(false);
                    }
                }
            }
        }
    }
    Ok(rows.next().is_none())
}

/// A map without rows, with a tree in a page format, for this many keys.
fn empty<K: Kind + Drop>(
    alloc: Global,
    format: PageFormat,
    keys: usize,
) -> Result<Side<K>, AllocError> {
    let map = Map::new(alloc, Builder::default().with_page_format(format));
    Ok(Side {
        map,
        values: vec![in alloc; 0; keys]?,
    })
}

/// Puts a random value at a random key, or takes the key out, and tells whether a removal told if it was there.
fn update<K: Kind + Drop>(
    alloc: Global,
    side: &mut Side<K>,
    random: &mut Random,
) -> Result<bool, AllocError> {
    let number = u16::try_from(random.below(side.values.len() as u64)).unwrap_or(0);
    let value = random.below(5);
    let was = side.values.get(number as usize).copied().unwrap_or(0);
    if let Some(place) = side.values.get_mut(number as usize) {
        *place = if value == 0 { 0 } else { was.max(value) };
    }
    if value == 0 {
        return Ok(del(alloc, &mut side.map, number)? == (was > 0));
    }
    put(alloc, &mut side.map, number, value)?;
    Ok(true)
}

/// Makes this many random updates, and tells whether each removal told if the key was there.
fn updates<K: Kind + Drop>(
    alloc: Global,
    side: &mut Side<K>,
    count: u64,
    random: &mut Random,
) -> Result<bool, AllocError> {
    let mut is_right = true;
    for _update in 0..count {
        is_right = update(alloc, side, random)? && is_right;
    }
    Ok(is_right)
}

/// Makes the same random updates on both sides, and then a few or many others on each.
fn part<K: Kind + Drop>(
    alloc: Global,
    a: &mut Side<K>,
    b: &mut Side<K>,
    random: &mut Random,
) -> Result<bool, AllocError> {
    let keys = a.values.len() as u64;
    let same = random.below(keys.saturating_mul(2));
    let bound = if random.below(2) == 0 { 4 } else { keys };
    let mut again = *random;
    let are_same = updates(alloc, a, same, random)? && updates(alloc, b, same, &mut again)?;
    let (a_own, b_own) = (random.below(bound), random.below(bound));
    Ok(are_same && updates(alloc, a, a_own, random)? && updates(alloc, b, b_own, random)?)
}

/// Whether catch-ups in both directions leave both sides with the join, and with one root hash.
fn meet<K: Kind + Drop>(
    alloc: Global,
    a: &mut Side<K>,
    b: &mut Side<K>,
) -> Result<bool, AllocError> {
    raise(&mut a.values, &b.values);
    raise(&mut b.values, &a.values);
    let are_made = both_ways(&mut a.map, &mut b.map);
    let a_holds = holds(alloc, &a.map, &a.values)?;
    let b_holds = holds(alloc, &b.map, &b.values)?;
    Ok(are_made && a_holds && b_holds && look_the_same(&mut a.map, &mut b.map))
}

/// Whether two maps come to hold the join after updates of each.
fn part_and_meet<K: Kind + Drop>(
    alloc: Global,
    a: &mut Side<K>,
    b: &mut Side<K>,
    random: &mut Random,
) -> Result<bool, AllocError> {
    Ok(part(alloc, a, b, random)? && meet(alloc, a, b)?)
}

/// Whether two maps of as many keys come to hold the join, and again after more updates.
fn pair_meets<K: Kind + Drop>(
    alloc: Global,
    format: PageFormat,
    keys: usize,
    random: &mut Random,
) -> Result<bool, AllocError> {
    let mut a: Side<K> = empty(alloc, format, keys)?;
    let mut b: Side<K> = empty(alloc, format, keys)?;
    let is_met = part_and_meet(alloc, &mut a, &mut b, random)?;
    Ok(is_met && part_and_meet(alloc, &mut a, &mut b, random)?)
}

/// The first of 334 pairs of maps in a page format that doesn't come to hold the join. Maps have up to 300 rows, and those of two pairs
/// up to 3,000.
fn first_apart<K: Kind + Drop>(
    alloc: Global,
    format: PageFormat,
    seed: u64,
) -> Result<Option<u64>, AllocError> {
    let mut random = Random::new(seed);
    for pair in 0..334u64 {
        let most = if pair < 2 { 3_000 } else { 300 };
        let keys = random.below(most).saturating_add(1) as usize;
        if !pair_meets::<K>(alloc, format, keys, &mut random)? {
            return Ok(Some(pair));
        }
    }
    Ok(None)
}

#[test]
fn maps_of_texts_meet_in_format_1(rt: HostRuntime) -> Result<(), Fail> {
    assert!(rt; first_apart::<String>(rt.alloc(), PageFormat::V1, 1)? == None);
    Ok(())
}

#[test]
fn maps_of_byte_strings_meet_in_format_2(rt: HostRuntime) -> Result<(), Fail> {
    assert!(rt; first_apart::<Vec<u8>>(rt.alloc(), PageFormat::V2, 4)? == None);
    Ok(())
}
