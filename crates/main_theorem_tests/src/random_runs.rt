//! Two replicas carry out random updates of keys on random levels, and come together. The maps are worked out beside them, value by
//! value, and the root hashes by the plain program of the definition.

use main_theorem::{Exchange, Exchanged, Outcome, Run, RunRefused, converge};
use merkle_digest::{Hasher, RootHash, ValueDigest};
use merkle_search_tree::builder::{Builder, PageFormat};
use merkle_search_tree::updates::Update;
use std::alloc::{AllocError, Global};
use std::test::Fail;
use test_keys::{LevelHasher, Random, have_values, number_hasher, number_key, raise};
use test_trees::defined::defined_root_hash;

/// An update of a map of number keys.
type Change = Update<[u8; 2], u64>;

/// What became of a replica.
type Replicated = Outcome<[u8; 2], u64, LevelHasher<[u8; 2]>, 32>;

/// How many keys there are.
const COUNT: usize = 12;

/// The levels that a key can be on, level 0 twice as often as the others.
const LEVELS: [u8; 4] = [0, 0, 1, 2];

/// How many updates each replica carries out.
const UPDATES: usize = 24;

/// The number of a key.
fn number_of(random: &mut Random) -> u16 {
    u16::try_from(random.below(COUNT as u64)).unwrap_or(0)
}

/// The hasher that puts each key on a random level.
fn hasher_of(alloc: Global, random: &mut Random) -> Result<LevelHasher<[u8; 2]>, AllocError> {
    let mut levels = [0; COUNT];
    random.choose(&LEVELS, &mut levels);
    number_hasher(alloc, &levels)
}

/// A list of updates, and the value that it leaves at each key; 0 where it leaves none.
fn updates_of(
    alloc: Global,
    random: &mut Random,
) -> Result<(Vec<Change>, [u64; COUNT]), AllocError> {
    let mut updates = Vec::with_capacity(alloc, UPDATES)?;
    let mut values = [0; COUNT];
    for _update in 0..UPDATES {
        let number = number_of(random);
        match random.below(6) {
            0 => updates.push(Update::RootHash)?,
            1 => {
                set(&mut values, number, 0);
                updates.push(Update::Remove(number_key(number)))?;
            }
            _ => {
                let value = random.below(4).saturating_add(1);
                let greater = value.max(value_at(&values, number));
                set(&mut values, number, greater);
                updates.push(Update::Upsert(number_key(number), value))?;
            }
        }
    }
    Ok((updates, values))
}

/// The value at a key.
fn value_at(values: &[u64; COUNT], number: u16) -> u64 {
    values.get(number as usize).copied().unwrap_or(0)
}

/// Puts a value at a key.
fn set(values: &mut [u64; COUNT], number: u16, value: u64) {
    for (at, place) in values.iter_mut().enumerate() {
        if at == number as usize {
            *place = value;
        }
    }
}

/// Carries out the updates and the exchange.
fn run_both(
    alloc: Global,
    builder: Builder<LevelHasher<[u8; 2]>>,
    a: Vec<Change>,
    b: Vec<Change>,
    exchange: Exchange,
) -> Result<Run<[u8; 2], u64, LevelHasher<[u8; 2]>, 32>, RunRefused<[u8; 2]>> {
    converge(alloc, builder, a, b, exchange)
}

/// The root hash that the keys define which have values.
fn root_hash_of(
    alloc: Global,
    hasher: &LevelHasher<[u8; 2]>,
    format: PageFormat,
    values: &[u64; COUNT],
) -> Result<RootHash, AllocError> {
    let pairs = pairs(alloc, hasher, values)?;
    Ok(defined_root_hash(hasher, format, &pairs))
}

/// Whether all updates were accepted, the root hash before the exchange is the one that the values of then define, and the rows are
/// these at the end, with the defined root hash.
fn is_defined(
    alloc: Global,
    hasher: &LevelHasher<[u8; 2]>,
    format: PageFormat,
    outcome: Replicated,
    before: &[u64; COUNT],
    values: &[u64; COUNT],
) -> Result<bool, AllocError> {
    let first = root_hash_of(alloc, hasher, format, before)?;
    let last = root_hash_of(alloc, hasher, format, values)?;
    let replica = outcome.replica;
    let are_accepted = outcome.accepted.len() == UPDATES
        && outcome.accepted.iter().all(|accepted| *accepted);
    Ok(
        are_accepted
            && outcome.before.root_hash_cached() == Some(&first)
            && have_values(replica.rows(), values)
            && replica.tree().root_hash_cached() == Some(&last),
    )
}

/// The keys that have values, each with the digest of its value.
fn pairs(
    alloc: Global,
    hasher: &LevelHasher<[u8; 2]>,
    values: &[u64; COUNT],
) -> Result<Vec<([u8; 2], ValueDigest<32>)>, AllocError> {
    let mut pairs = Vec::new(alloc);
    for (number, value) in (0..u16::MAX).zip(values.iter()) {
        if *value > 0 {
            pairs.push((number_key(number), ValueDigest::new(hasher.hash(value))))?;
        }
    }
    Ok(pairs)
}

/// One run, and whether both replicas are as they were worked out.
fn runs_as_defined(
    alloc: Global,
    format: PageFormat,
    random: &mut Random,
    exchange: Exchange,
) -> Result<bool, AllocError> {
    let hasher = hasher_of(alloc, random)?;
    let (a_updates, a_values) = updates_of(alloc, random)?;
    let (b_updates, b_values) = updates_of(alloc, random)?;
    let mut joined = a_values;
    raise(&mut joined, &b_values);
    let builder = Builder::default()
        .with_page_format(format)
        .with_hasher(hasher.clone()?);
    let Ok(run) = run_both(alloc, builder, a_updates, b_updates, exchange) else {
        return Ok(false);
    };
    let is_made = match &run.exchanged {
        Exchanged::Nothing => exchange == Exchange::Apart,
        Exchanged::Pulled(pulls) => exchange == Exchange::ByTurns(pulls.len()),
        Exchanged::CaughtUp(_, _) => exchange == Exchange::ByCatchUps,
    };
    let a_wanted = if exchange == Exchange::Apart {
        a_values
    } else {
        joined
    };
    let b_wanted = if exchange == Exchange::Apart {
        b_values
    } else {
        joined
    };
    let a_is = is_defined(alloc, &hasher, format, run.a, &a_values, &a_wanted)?;
    let b_is = is_defined(alloc, &hasher, format, run.b, &b_values, &b_wanted)?;
    Ok(is_made && a_is && b_is)
}

#[test]
fn random_runs_converge(rt: HostRuntime) -> Result<(), Fail> {
    let exchanges = [
        Exchange::Apart,
        Exchange::ByTurns(4),
        Exchange::ByTurns(5),
        Exchange::ByCatchUps,
    ];
    for format in [PageFormat::V1, PageFormat::V2] {
        for exchange in &exchanges {
            let mut random = Random::new(2026);
            for round in 0..5 {
                assert!(rt;
                    runs_as_defined(rt.alloc(), format, &mut random, *exchange)?,
                    "{format:?}, {exchange:?}: round {round}"
                );
            }
        }
    }
    Ok(())
}
