//! Audits of random pairs of replicas under SipHash, which find that digests are faithful.
use crate::rows::{Rows, key_of};
use merkle_audit::is_faithful_session;
use merkle_search_tree::builder::{Builder, PageFormat};
use std::alloc::{AllocError, Global};
use std::num::NonZeroU8;
use std::test::Fail;
use test_keys::Random;

/// The level bases: where it is small, few keys have several levels.
const BASES: [u8; 3] = [2, 4, 16];

/// Whether the digests of a session of two replicas are faithful: those of pages, of values and of the nodes of pages are, and both sides digest
/// values alike.
fn are_faithful(alloc: Global, a: &mut Rows, b: &mut Rows) -> Result<bool, AllocError> {
    is_faithful_session(alloc, a, b)
}

/// A replica without rows, by a level base and a page format.
fn empty(alloc: Global, base: u8, format: PageFormat) -> Result<Rows, AllocError> {
    let base = NonZeroU8::new(base).ok_or(AllocError)?;
    let builder = Builder::default().with_level_base(base);
    Ok(Rows::new(alloc, builder.with_page_format(format)))
}

/// Puts random values at this many random keys, or takes the key out.
fn updates(
    alloc: Global,
    rows: &mut Rows,
    keys: u64,
    count: u64,
    random: &mut Random,
) -> Result<(), AllocError> {
    for _update in 0..count {
        let key = key_of(alloc, random.below(keys))?;
        match random.below(4) {
            0 => {
                rows.del(&key)?;
            }
            value => rows.put(key, value)?,
        }
    }
    Ok(())
}

/// Two replicas with the same random updates, often none, and then some of their own, often none, of up to 30 keys or seldom of up to 300: so values
/// are changed, rows are missing and more than the other's, and some replicas are equal or have no row.
fn pair(
    alloc: Global,
    format: PageFormat,
    random: &mut Random,
) -> Result<(Rows, Rows), AllocError> {
    let most = if random.below(50) == 0 { 300 } else { 30 };
    let keys = random.below(most).saturating_add(1);
    let base = BASES.get(random.below(3) as usize).copied().unwrap_or(16);
    let same = random.below(4).saturating_mul(keys);
    let (a_own, b_own) = (random.below(6), random.below(6));
    let mut a = empty(alloc, base, format)?;
    let mut b = empty(alloc, base, format)?;
    let mut again = *random;
    updates(alloc, &mut a, keys, same, random)?;
    updates(alloc, &mut b, keys, same, &mut again)?;
    updates(alloc, &mut a, keys, a_own, random)?;
    updates(alloc, &mut b, keys, b_own, random)?;
    Ok((a, b))
}

/// The first of 300 pairs in each page format whose digests aren't faithful.
fn first_other(alloc: Global, seed: u64) -> Result<Option<u64>, AllocError> {
    let mut random = Random::new(seed);
    for round in 0..300u64 {
        for format in [PageFormat::V1, PageFormat::V2] {
            let (mut a, mut b) = pair(alloc, format, &mut random)?;
            if !are_faithful(alloc, &mut a, &mut b)? {
                return Ok(Some(round));
            }
        }
    }
    Ok(None)
}

#[test]
fn sessions_are_faithful(rt: HostRuntime) -> Result<(), Fail> {
    assert!(rt; first_other(rt.alloc(), 6)? == None);
    Ok(())
}

/// Two replicas of one map, and two without rows.
#[test]
fn equal_and_empty_replicas(rt: HostRuntime) -> Result<(), Fail> {
    let alloc = rt.alloc();
    for count in [0, 1, 100] {
        let mut random = Random::new(7);
        let mut again = random;
        let mut a = empty(alloc, 4, PageFormat::V2)?;
        let mut b = empty(alloc, 4, PageFormat::V2)?;
        updates(alloc, &mut a, 50, count, &mut random)?;
        updates(alloc, &mut b, 50, count, &mut again)?;
        assert!(rt; a.rows() == b.rows());
        assert!(rt; are_faithful(alloc, &mut a, &mut b)?, "{count}");
    }
    Ok(())
}
