//! The rows of a side in gaps.
ghost use Rattle.std.specs.Prelude.{◌≡◌, ◌≢◌, ◌≤◌, ◌⊎◌, Bool, true, false, cond, not, length, take, drop, [], IfOk, OnOk};
ghost use Rattle.std.specs.List.{AllByRecursion};
ghost use Rattle.key_order.specs.Map.{IsMap};
ghost use Rattle.merkle_tree_theory.specs.Gap.{is_after, is_before, pairs_within};
ghost use Rattle.merkle_wire.specs.Parts.{HasTold};
ghost use Rattle.merkle_wire.specs.Gaps.{owned_gap};
ghost use Rattle.merkle_wire.specs.Steps.{TellsPart};
ghost use Rattle.merkle_wire.specs.Tellings.{TellsRows, TellsRowsThatFit};

use crate::gaps::OwnedGap;
use crate::kept_side::KeptSide;
use crate::message::{Kind, begin};
use crate::outlines::is_full;
use crate::part_teller::PartTeller;
use merkle_bytes::Encode;
use merkle_digest::Key;
use merkle_replica::{Join, RowHasher};
use std::alloc::{AllocError, Global};

/// A message that tells the rows in the gaps, one gap after the other, as far as the bytes suffice.
pub(crate) fn tell_rows<
    K: Key + Encode,
    V: Join + Encode,
    H: RowHasher<N, K, V>,
    S: KeptSide<N, K, V, H, R>,
    R,
    const N: usize,
>(
    alloc: Global,
    side: &mut S,
    beside: &R,
    most_bytes: usize,
    gaps: &[OwnedGap<K>],
) -> Result<Vec<u8>, S::Error>
    ensures told { S.is_sound side.new → IfOk result (TellsRows K.encoding V.encoding K.cmp (S.contents side.old beside.now).rows gaps.now) }
    ensures kept { S.is_sound side.new → S.contents side.new beside.now ≡ S.contents side.old beside.now }
    ensures steady { S.is_sound side.new → S.is_sound side.old }
    ensures fits { S.is_sound side.new → IfOk result (TellsRowsThatFit K.encoding V.encoding most_bytes gaps.now) }
{
    let mut bytes = begin(alloc, Kind::RowsIn)?;
    'gaps: for gap in gaps {
        if is_full(&bytes, most_bytes) {
            return Ok(bytes);
        }
        side.add_part(beside, most_bytes, gap, &mut bytes)?;
    }
    Ok(bytes)
}

/// Writes the rows in a gap, or the first of them: how many they are, the rows, and a byte 1 where they are all, or 0 where more are after.
///
/// # Errors
///
/// Out of memory.
pub fn tell_part<K: Ord + Encode, V: Encode>(
    alloc: Global,
    rows: &[(K, V)],
    most_bytes: usize,
    gap: &OwnedGap<K>,
    bytes: &mut Vec<u8>,
) -> Result<(), AllocError>
    requires { IsMap K.cmp rows.now }
    ensures { OnOk result (TellsPart K.cmp K.encoding V.encoding rows.now most_bytes gap.now bytes.old bytes.new) }
{
    let found = rows_in(rows, gap);
    let mut part = PartTeller::begin(alloc, most_bytes, gap, bytes)?;
    let count = tell_first(&mut part, found)?;
    part.end::<K, V>(count == found.len(), bytes)?;
    Ok(())
}

/// The byte of a flag.
pub(crate) fn byte_of(flag: bool) -> u8
    ensures { result ≡ cond flag 1 0 }
{
    if flag { 1 } else { 0 }
}

/// Tells the first of the rows, as far as there is room, and returns how many they are.
fn tell_first<K: Encode, V: Encode>(
    part: &mut PartTeller,
    rows: &[(K, V)],
) -> Result<usize, AllocError>
    ensures inside { IfOk result (λ count. count ≤ length rows.now) }
    ensures some { IfOk result (λ count. rows.now ≢ [] → count ≢ 0) }
    ensures told { IfOk result (λ count. (more : Bool) × HasTold K.encoding V.encoding part.old part.new (take count rows.now) more
        × ((count ≡ length rows.now) ⊎ (more ≡ false))) }
{
    let mut count = 0;
    'rows: for row in rows {
        count += 1;
        if !part.add(row)? {
            return Ok(count);
        }
    }
    Ok(count)
}

/// The rows in a gap. It finds the first and the last by halving.
fn rows_in<'a, K: Ord, V>(rows: &'a [(K, V)], gap: &OwnedGap<K>) -> &'a [(K, V)]
    requires { IsMap K.cmp rows.now }
    ensures { result.now ≡ pairs_within K.cmp (owned_gap gap.now) rows.now }
{
    let first = count_upto(rows, &gap.after);
    let (_, behind) = rows.split_at(first);
    let count = count_before(behind, &gap.before);
    let (inside, _) = behind.split_at(count);
    inside
}

/// How many of the rows are not above the bound.
fn count_upto<K: Ord, V>(rows: &[(K, V)], bound: &Option<K>) -> usize
    requires { IsMap K.cmp rows.now }
    ensures inside { result ≤ length rows.now }
    ensures upto { AllByRecursion (λ row. is_after K.cmp bound.now row.0 ≡ false) (take result rows.now) }
    ensures behind { AllByRecursion (λ row. is_after K.cmp bound.now row.0 ≡ true) (drop result rows.now) }
{
    rows.partition_point(
        |row: &(K, V)| -> bool
            ensures { result ≡ not (is_after K.cmp bound.entry.now row.now.0) }
        { !is_after(&row.0, bound) },
    )
}

/// How many of the rows are below the bound.
fn count_before<K: Ord, V>(rows: &[(K, V)], bound: &Option<K>) -> usize
    requires { IsMap K.cmp rows.now }
    ensures inside { result ≤ length rows.now }
    ensures before { AllByRecursion (λ row. is_before K.cmp bound.now row.0 ≡ true) (take result rows.now) }
    ensures behind { AllByRecursion (λ row. is_before K.cmp bound.now row.0 ≡ false) (drop result rows.now) }
{
    rows.partition_point(
        |row: &(K, V)| -> bool
            ensures { result ≡ is_before K.cmp bound.entry.now row.now.0 }
        { is_before(&row.0, bound) },
    )
}

/// Whether the key is above the bound, where there is one.
pub(crate) fn is_after<K: Ord>(key: &K, bound: &Option<K>) -> bool
    ensures { result ≡ is_after K.cmp bound.now key.now }
{
    match bound {
        None => true,
        Some(bound) => *bound < *key,
    }
}

/// Whether the key is below the bound, where there is one.
pub(crate) fn is_before<K: Ord>(key: &K, bound: &Option<K>) -> bool
    ensures { result ≡ is_before K.cmp bound.now key.now }
{
    match bound {
        None => true,
        Some(bound) => *key < *bound,
    }
}
