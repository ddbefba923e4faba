//! Whether keys that came ascend within the gap that was asked for.
ghost use Rattle.std.specs.Prelude.{◌≡◌, IsTrue, false, map};
ghost use Rattle.key_order.specs.Map.{IsMap};
ghost use Rattle.merkle_search_tree.specs.Items.{bound_of};
ghost use Rattle.merkle_tree_theory.specs.Gap.{everywhere, IsAfter, IsBefore};
ghost use Rattle.merkle_wire.specs.Coming.{AscendIn};
ghost use Rattle.merkle_wire.specs.Gaps.{owned_gap};

use crate::gaps::OwnedGap;
use crate::rows_in::is_before;
use crate::wanted::Wanted;

/// Whether each key is above the one before it, and all are in the gap.
pub(crate) fn keys_lie_in<K: Ord>(keys: &[Wanted<K>], gap: &OwnedGap<K>) -> bool
    ensures inside { IsTrue result → AscendIn K.cmp (owned_gap gap.now) (map (λ w. w.key) keys.now) }
    ensures outside { result ≡ false → ¬ AscendIn K.cmp (owned_gap gap.now) (map (λ w. w.key) keys.now) }
{
    let mut after = gap.after.as_ref();
    'keys: for wanted in keys {
        if !is_between(&wanted.key, after, &gap.before) {
            return false;
        }
        after = Some(&wanted.key);
    }
    true
}

/// Whether each key is above the one before it, and all are in the gap.
pub(crate) fn rows_lie_in<K: Ord, V>(rows: &[(K, V)], gap: &OwnedGap<K>) -> bool
    ensures inside { IsTrue result → AscendIn K.cmp (owned_gap gap.now) (map (λ r. r.0) rows.now) }
    ensures outside { result ≡ false → ¬ AscendIn K.cmp (owned_gap gap.now) (map (λ r. r.0) rows.now) }
{
    let mut after = gap.after.as_ref();
    'rows: for row in rows {
        if !is_between(&row.0, after, &gap.before) {
            return false;
        }
        after = Some(&row.0);
    }
    true
}

/// Whether the key of each row is above the one before it.
pub fn rows_ascend<K: Ord + Drop, V>(rows: &[(K, V)]) -> bool
    ensures ascending { IsTrue result → IsMap K.cmp rows.now }
    ensures others { result ≡ false → ¬ AscendIn K.cmp everywhere (map (λ r. r.0) rows.now) }
{
    rows_lie_in(rows, &OwnedGap::everywhere())
}

/// Whether the key is above one bound and below the other.
fn is_between<K: Ord>(key: &K, after: Option<&K>, before: &Option<K>) -> bool
    ensures inside { IsTrue result → IsAfter K.cmp (bound_of after.entry) key.now × IsBefore K.cmp before.now key.now }
    ensures outside { result ≡ false → ¬ (IsAfter K.cmp (bound_of after.entry) key.now × IsBefore K.cmp before.now key.now) }
{
    if let Some(bound) = after {
        if !(*bound < *key) {
            return false;
        }
    }
    is_before(key, before)
}
