//! Good ranges are cut out of bad ones.
ghost use Rattle.std.specs.Prelude.{◌≡◌, ◌<◌, drop, length, vec_len, OnOk, OnErr, IfOk};
ghost use Rattle.key_order.specs.Interval.{IsApart, meets};
ghost use Rattle.merkle_diff.specs.Answers.{IfFound};
ghost use Rattle.merkle_diff.specs.Cut.{IsExactCut, IsCut, piece, cut_one, pieces_left};
ghost use Rattle.merkle_diff.specs.DiffRange.{AddsSpans, span, spans};
ghost use Rattle.merkle_diff.specs.OnePass.{AddsPiecesLeft, LeavesAlikeFrom};

use crate::diff_range::DiffRange;
use crate::merge::{merge_overlapping, merged};
use key_order::{is_below, is_upto};
use std::alloc::{AllocError, Global};

/// Whether the ranges share a key.
fn do_meet<K: Ord>(a: &DiffRange<'_, K>, b: &DiffRange<'_, K>) -> bool
    ensures { result ≡ meets K.cmp (span a.now) (span b.now) }
{
    is_upto(a.start(), b.end()) && is_upto(b.start(), a.end())
}

/// Adds the range from `start` to `end` if it has more than one key.
fn push_piece<'a, K: Ord>(
    start: &'a K,
    end: &'a K,
    pieces: &mut Vec<DiffRange<'a, K>>,
) -> Result<(), AllocError>
    ensures { OnOk result (AddsSpans pieces.old (piece K.cmp start.entry.now end.entry.now) pieces.new) }
{
    if is_below(start, end) {
        pieces.push(DiffRange::new(start, end))?;
    }
    Ok(())
}

/// Adds what is left of `range` where `good` is cut out of it.
fn push_pieces<'a, K: Ord>(
    range: DiffRange<'a, K>,
    good: DiffRange<'a, K>,
    pieces: &mut Vec<DiffRange<'a, K>>,
) -> Result<(), AllocError>
    ensures { OnOk result (AddsSpans pieces.old (cut_one K.cmp (span good.entry) (span range.entry)) pieces.new) }
{
    if do_meet(&good, &range) {
        push_piece(range.start(), good.start(), pieces)?;
        push_piece(good.end(), range.end(), pieces)?;
    } else {
        pieces.push(range)?;
    }
    Ok(())
}

/// Adds what is left of `range` where the good ranges from the index `first` on are cut out of it, and returns the index of the
/// first of them that a later range may meet.
fn push_left<'a, K: Ord>(
    range: DiffRange<'a, K>,
    good: &[DiffRange<'a, K>],
    first: usize,
    pieces: &mut Vec<DiffRange<'a, K>>,
) -> Result<usize, AllocError>
    requires { IsApart K.cmp (spans good.now) }
    ensures pieces { OnOk result (AddsPiecesLeft K.cmp range.entry (drop first good.entry.now) pieces.old pieces.new) }
    ensures rest { IfOk result (λ next. LeavesAlikeFrom K.cmp (span range.entry).last good.entry.now first next) }
{
    let mut left = range;
    'good: for next in first..good.len() {
        let cut = good[next];
        if is_upto(left.end(), cut.end()) {
            push_pieces(left, cut, pieces)?;
            return Ok(next);
        }
        if is_upto(left.start(), cut.end()) {
            push_piece(left.start(), cut.start(), pieces)?;
            left = DiffRange::new(cut.end(), left.end());
        }
    }
    pieces.push(left)?;
    Ok(good.len())
}

/// What is left where the good ranges are cut out of the bad ones, by one pass over both.
fn all_left<'a, K: Ord>(
    alloc: Global,
    bad: &[DiffRange<'a, K>],
    good: &[DiffRange<'a, K>],
) -> Result<Vec<DiffRange<'a, K>>, AllocError>
    requires bad { IsApart K.cmp (spans bad.now) }
    requires good { IsApart K.cmp (spans good.now) }
    ensures left { IfFound result (λ left. left ≡ pieces_left K.cmp (spans bad.entry.now) (spans good.entry.now)) }
    ensures memory { OnErr result (0 < length bad.entry.now) }
{
    let mut pieces = Vec::new(alloc);
    let mut next = 0;
    'bad: for i in 0..bad.len() {
        next = push_left(bad[i], good, next, &mut pieces)?;
    }
    Ok(pieces)
}

/// Cuts the good ranges out of the bad ones, where both lists ascend and no two ranges of either meet.
///
/// Memory is taken only where both lists have a range.
pub fn cut_apart<'a, K: Ord>(
    alloc: Global,
    bad: Vec<DiffRange<'a, K>>,
    good: &[DiffRange<'a, K>],
) -> Result<Vec<DiffRange<'a, K>>, AllocError>
    requires bad { IsApart K.cmp (spans bad.items) }
    requires good { IsApart K.cmp (spans good.now) }
    ensures exact { IfFound result (IsExactCut K.cmp (spans bad.entry.items) (spans good.entry.now)) }
    ensures memory { OnErr result ((0 < vec_len bad.entry) × (0 < length good.entry.now)) }
{
    if good.is_empty() {
        return Ok(bad);
    }
    let mut left = all_left(alloc, &bad, good)?;
    merge_overlapping(&mut left);
    Ok(left)
}

/// Cuts the good ranges, which may be in any order and meet, out of the bad ones, which ascend and no two of which meet.
///
/// Of a bad range that a good one meets, what lies before and what lies after the good one stay, with its bounds; in the answer,
/// ranges that meet are one. The good ranges are sorted and merged, and then one pass over both lists is made.
///
/// # Errors
///
/// Out of memory: both lists are dropped. Memory is taken only where both lists have a range.
pub fn reduce_sync_range<'a, K: Ord>(
    alloc: Global,
    bad: Vec<DiffRange<'a, K>>,
    good: Vec<DiffRange<'a, K>>,
) -> Result<Vec<DiffRange<'a, K>>, AllocError>
    requires { IsApart K.cmp (spans bad.items) }
    ensures exact { IfFound result (IsExactCut K.cmp (spans bad.entry.items) (spans good.entry.items)) }
    ensures laws { IfFound result (IsCut K.cmp (spans bad.entry.items) (spans good.entry.items)) }
    ensures memory { OnErr result ((0 < vec_len bad.entry) × (0 < vec_len good.entry)) }
{
    let apart = merged(good);
    cut_apart(alloc, bad, &apart)
}
