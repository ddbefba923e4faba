//! Laws over the definitions alone. Each function has no effect and takes no memory.
ghost use Rattle.std.specs.Prelude.{ℕ, List};
ghost use Rattle.merkle_diff.specs.Difference.{HaveOneAnswer};
ghost use Rattle.merkle_diff.specs.Entry.{Entry};

/// The exact walk of [`diff`](crate::diff) has one answer: two answers on the same lists have equal bounds, place by place.
pub fn the_exact_walk_has_one_answer<K: Ord>()
    ensures { (ls ps : List (Entry K (List ℕ))) → HaveOneAnswer K.cmp ls ps }
{}
