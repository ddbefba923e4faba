//! The rows of a map in given ranges of keys.
ghost use Rattle.std.specs.Prelude.{◌≡◌, ◌<◌, ◌↔◌, true, length, IfSome, IsTrue};
ghost use Rattle.key_order.specs.Interval.{IsApart};
ghost use Rattle.key_order.specs.Map.{IsMap, rows_in};
ghost use Rattle.merkle_replica.specs.Answers.{spans_of};
ghost use Rattle.merkle_replica.specs.Steps.{AreRanges, BeginsBehind, FindsFirst};

use crate::seek::seek;
use key_order::{is_below, is_upto};
use std::marker::Model;

/// Of the rows of a replica in given ranges of keys those that are still to come, in ascending key order. A contract sees the list of
/// them. It walks over the rows and the ranges once, and takes no memory.
#[derive(Drop)]
pub struct RowsWithin<'a, K: Ord, V> {
    rows: &'a [(K, V)],
    ranges: &'a [(K, K)],
}

impl<'a, K: Ord, V> Model for RowsWithin<'a, K, V> {
    ghost use Rattle.std.specs.Prelude.{List};
    ghost use Rattle.std.specs.Coded.{coded_list, coded×};
    ghost use Rattle.key_order.specs.Interval.{IsApart};
    ghost use Rattle.key_order.specs.Map.{IsMap, rows_in};
    ghost use Rattle.merkle_replica.specs.Answers.{spans_of};

    ghost Value = { List (K × V) };

    ghost coded = { coded_list (coded× K.code V.code) };

    ghost view = { λ r. rows_in K.cmp (spans_of r.ranges.now) r.rows.now };

    ghost invariant = { λ r. IsMap K.cmp r.rows.now × IsApart K.cmp (spans_of r.ranges.now) };
}

impl<'a, K: Ord, V> RowsWithin<'a, K, V> {
    /// The rows in the ranges.
    pub(crate) fn new(rows: &'a [(K, V)], ranges: &'a [(K, K)]) -> Self
        requires ascending { IsMap K.cmp rows.now }
        requires apart { IsApart K.cmp (spans_of ranges.now) }
        ensures { result ≡ rows_in K.cmp (spans_of ranges.now) rows.now }
    {
        RowsWithin { rows, ranges }
    }
}

impl<'a, K: Ord, V> Iterator for RowsWithin<'a, K, V> {
    type Item = &'a (K, V);

    ghost use Rattle.std.specs.Iterator.{YieldsFirstRef, item_count};

    ghost next_gives = { YieldsFirstRef (λ rest. rest) };

    ghost remaining = { item_count (λ rest. rest) };

    fn next(&mut self) -> Option<&'a (K, V)> {
        let (row, rows, ranges) = first_within(self.rows, self.ranges)?;
        self.rows = rows;
        self.ranges = ranges;
        Some(row)
    }
}

/// The first of the rows that is in a range, the rows after it, and the ranges that don't end below it.
fn first_within<'a, K: Ord, V>(
    rows: &'a [(K, V)],
    ranges: &'a [(K, K)],
) -> Option<(&'a (K, V), &'a [(K, V)], &'a [(K, K)])>
    requires ascending { IsMap K.cmp rows.now }
    requires apart { IsApart K.cmp (spans_of ranges.now) }
    ensures gives { FindsFirst K.cmp rows.now ranges.now result }
    ensures ascending { IfSome result (λ found. IsMap K.cmp found.1.now) }
    ensures apart { IfSome result (λ found. IsApart K.cmp (spans_of found.2.now)) }
{
    let mut at = 0;
    'finding: for i in 0..rows.len() {
        let row = &rows[i];
        let (next, found) = seek(ranges, at, &row.0);
        at = next;
        if found {
            let (_, behind) = rows.split_at(i + 1);
            let (_, left) = ranges.split_at(at);
            return Some((row, behind, left));
        }
    }
    None
}

/// Whether each range starts at its end or below it, and ends below the start of the next.
pub(crate) fn are_ranges<K: Ord>(ranges: &[(K, K)]) -> bool
    ensures { IsTrue result ↔ AreRanges K.cmp (spans_of ranges.now) }
{
    'testing: for i in 0..ranges.len() {
        if !is_upto(&ranges[i].0, &ranges[i].1) {
            return false;
        }
        if !begins_behind(ranges, i) {
            return false;
        }
    }
    true
}

/// Whether a range starts after the end of the one before it, where there is one.
fn begins_behind<K: Ord>(ranges: &[(K, K)], i: usize) -> bool
    requires { i < length ranges.now }
    ensures behind { BeginsBehind K.cmp ranges.now i result }
    ensures first { i ≡ 0 → result ≡ true }
{
    i == 0 || is_below(&ranges[i - 1].1, &ranges[i].0)
}
