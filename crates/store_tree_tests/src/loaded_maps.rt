//! Random maps whose keys are loaded into a table of cells, after which it tells what a tree in memory tells of the same map.
use crate::random_maps::{
    BASES, Sides, empty, key_of, level_of, pages_alike, set_in_memory, write_at_random,
};
use std::alloc::{AllocError, Global};
use std::process::Abort;
use std::test::Fail;
use store_tree::TreeFault;
use store_tree::load::load;
use store_tree::table::has_table;
use test_keys::Random;

/// The keys of the map in ascending order, each with its level.
fn keys_of(alloc: Global, sides: &Sides) -> Result<Vec<(String, u8)>, AllocError> {
    let mut keys = Vec::new(alloc);
    for (key, _) in sides.rows.rows() {
        keys.push((key.clone()?, level_of(&sides.tree, key)))?;
    }
    Ok(keys)
}

/// Loads keys into the table of cells.
fn load_keys(
    rt: &impl Abort,
    alloc: Global,
    sides: &mut Sides,
    keys: &[(String, u8)],
) -> Result<(), TreeFault> {
    assert!(rt; has_table(&sides.store));
    load(alloc, &mut sides.store, keys)
}

/// Sets random keys in memory, this many times: these keys in the order in which they were set, some of them twice, each with its level.
fn set_at_random(
    alloc: Global,
    sides: &mut Sides,
    random: &mut Random,
    keys: u64,
    times: u64,
) -> Result<Vec<(String, u8)>, Fail> {
    let mut given = Vec::new(alloc);
    for _ in 0..times {
        let key = key_of(alloc, random.below(keys))?;
        set_in_memory(sides, &key, random.below(1000))?;
        let on = level_of(&sides.tree, &key);
        given.push((key, on))?;
    }
    let _ = sides.tree.root_hash();
    Ok(given)
}

/// How many keys there are to choose from, and how many are set before a load.
const LOADS: [(u64, u64); 3] = [(1, 1), (40, 30), (400, 250)];

#[test]
fn loaded_keys_have_the_tree_of_their_map(rt: HostRuntime) -> Result<(), Fail> {
    for base in BASES {
        let mut random = Random::new(u64::from(base));
        let mut sides = empty(rt.alloc(), base)?;
        for (keys, times) in LOADS {
            let _ = set_at_random(rt.alloc(), &mut sides, &mut random, keys, times)?;
            let all = keys_of(rt.alloc(), &sides)?;
            load_keys(&rt, rt.alloc(), &mut sides, &all)?;
            let pages = pages_alike(&rt, rt.alloc(), &mut sides)?;
            assert!(rt; pages.is_some(), "base {base}, {keys} keys");
            assert!(rt;
                write_at_random(&rt, rt.alloc(), &mut sides, &mut random, keys, 5)?,
                "writes after a load, base {base}, {keys} keys"
            );
        }
    }
    Ok(())
}

#[test]
fn a_load_leaves_nothing_of_another_map(rt: HostRuntime) -> Result<(), Fail> {
    for base in BASES {
        let mut random = Random::new(u64::from(base));
        let mut large = empty(rt.alloc(), base)?;
        assert!(rt; write_at_random(&rt, rt.alloc(), &mut large, &mut random, 100, 60)?);
        for times in [20, 1, 0] {
            let mut small = empty(rt.alloc(), base)?;
            std::mem::swap(&mut small.store, &mut large.store);
            let given = set_at_random(rt.alloc(), &mut small, &mut random, 100, times)?;
            load_keys(&rt, rt.alloc(), &mut small, &given)?;
            let pages = pages_alike(&rt, rt.alloc(), &mut small)?;
            assert!(rt; pages.is_some(), "base {base}, {times} keys");
            std::mem::swap(&mut small.store, &mut large.store);
        }
    }
    Ok(())
}
