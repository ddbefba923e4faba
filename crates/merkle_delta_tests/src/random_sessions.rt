//! Sessions by deltas between random replicas bring the rows that plain ones bring, and no delta tells other bytes with the digest of the plain reply.
use crate::playing::{by_deltas, plainly};
use crate::rows::{Random, Rows};
use merkle_search_tree::builder::{Builder, PageFormat};
use merkle_wire::MOST_BYTES;
use std::alloc::{AllocError, Global};
use std::test::Fail;

/// At how many bytes plain replies end.
const MOST: [usize; 4] = [64, 1000, 5000, MOST_BYTES];

/// Puts a random value at a random one of this many keys, or takes the key out.
fn update(
    alloc: Global,
    rows: &mut Rows,
    keys: u64,
    random: &mut Random,
) -> Result<(), AllocError> {
    let number = random.below(keys).wrapping_mul(0x9e37_79b9_7f4a_7c15);
    let key = format!(in alloc; "k{number:016x}")?;
    let value = random.below(5);
    if value == 0 {
        rows.del(&key)?;
    } else {
        rows.put(key, value)?;
    }
    Ok(())
}

/// Makes this many random updates of this many keys.
fn updates(
    alloc: Global,
    rows: &mut Rows,
    keys: u64,
    count: u64,
    random: &mut Random,
) -> Result<(), AllocError> {
    for _update in 0..count {
        update(alloc, rows, keys, random)?;
    }
    Ok(())
}

/// Two replicas with the same random updates, and then some of their own.
fn pair(
    alloc: Global,
    format: PageFormat,
    random: &mut Random,
) -> Result<(Rows, Rows), AllocError> {
    let keys = random.below(400).saturating_add(1);
    let own = random.below(20);
    let mut again = *random;
    let mut a = Rows::new(alloc, Builder::default().with_page_format(format));
    updates(alloc, &mut a, keys, keys, random)?;
    updates(alloc, &mut a, keys, own, random)?;
    let mut b = Rows::new(alloc, Builder::default().with_page_format(format));
    updates(alloc, &mut b, keys, keys, &mut again)?;
    updates(alloc, &mut b, keys, own, random)?;
    Ok((a, b))
}

/// Whether a session by deltas between two random replicas brings what a plain one brings.
fn brings_the_same(alloc: Global, format: PageFormat, random: &mut Random) -> Result<bool, Fail> {
    let most_bytes = MOST.get(random.below(4) as usize).copied().unwrap_or(64);
    let (mut a, mut b) = pair(alloc, format, random)?;
    let (rows, _) = by_deltas(alloc, &mut a, &mut b, most_bytes)?;
    let (plain_rows, _) = plainly(alloc, &mut a, &mut b, most_bytes)?;
    Ok(rows == plain_rows)
}

#[test]
fn deltas_bring_what_plain_replies_bring(rt: HostRuntime) -> Result<(), Fail> {
    let mut random = Random::new(12_345);
    for pair in 0..150 {
        for format in [PageFormat::V1, PageFormat::V2] {
            assert!(rt; brings_the_same(rt.alloc(), format, &mut random)?, "{pair}");
        }
    }
    Ok(())
}
