//! Rows within ascending ranges, found by one walk over both.
ghost use Rattle.std.specs.Prelude.{◌≡◌, ◌≤◌, length, take, drop};
ghost use Rattle.std.specs.List.{AllByRecursion};
ghost use Rattle.key_order.specs.Order.{Upto, Below, below};
ghost use Rattle.key_order.specs.Interval.{IsApart};
ghost use Rattle.key_order.specs.Map.{IsMap, rows_in};
ghost use Rattle.merkle_replica.specs.Answers.{spans_of};
ghost use Rattle.merkle_replica.specs.Seek.{ranges_from, begins_upto};

use key_order::{is_below, is_upto};

/// Where the first of the ranges from `from` on stands that doesn't end below the key, and whether the key is in it.
pub fn seek<K: Ord>(ranges: &[(K, K)], from: usize, key: &K) -> (usize, bool)
    requires { from ≤ length ranges.now }
    ensures bound { result.0 ≤ length ranges.now }
    ensures place { drop result.0 (spans_of ranges.now) ≡ ranges_from K.cmp key.now (drop from (spans_of ranges.now)) }
    ensures found { result.1 ≡ begins_upto K.cmp key.now (drop result.0 (spans_of ranges.now)) }
{
    'seeking: for at in from..ranges.len() {
        if !is_below(&ranges[at].1, key) {
            return (at, is_upto(&ranges[at].0, key));
        }
    }
    (ranges.len(), false)
}

/// How many rows have a key in one of the ranges.
pub fn count_within<K: Ord, V>(ranges: &[(K, K)], rows: &[(K, V)]) -> usize
    requires apart { IsApart K.cmp (spans_of ranges.now) }
    requires ascending { IsMap K.cmp rows.now }
    ensures { result ≡ length (rows_in K.cmp (spans_of ranges.now) rows.now) }
{
    let mut at = 0;
    let mut count = 0;
    'counting: for row in rows {
        let (next, found) = seek(ranges, at, &row.0);
        at = next;
        if found {
            count += 1;
        }
    }
    count
}

/// How many of the ascending rows are below the key. It finds the place by halving.
pub fn first_from<K: Ord, V>(rows: &[(K, V)], key: &K) -> usize
    requires { IsMap K.cmp rows.now }
    ensures inside { result ≤ length rows.now }
    ensures below { AllByRecursion (λ row. Below K.cmp row.0 key.now) (take result rows.now) }
    ensures rest { AllByRecursion (λ row. Upto K.cmp key.now row.0) (drop result rows.now) }
{
    rows.partition_point(
        |row: &(K, V)| -> bool
            ensures { result ≡ below K.cmp row.now.0 key.entry.now }
        { row.0 < *key },
    )
}
