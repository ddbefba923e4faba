//! Many rows put at once.
ghost use Rattle.std.specs.Prelude.{◌≡◌, OnOk, IfErr};
ghost use Rattle.merkle_tree_theory.specs.State.{SameSettings};
ghost use Rattle.merkle_replica.specs.Puts.{IsPuts, IsPutsTo};

use crate::replica::Replica;
use key_order::Join;
use merkle_digest::{Hasher, Key};
use std::cmp::Ordering;

/// Out of memory before all rows were put.
#[derive(Clone, Copy, Debug, PartialEq, Eq)]
pub struct PutsCut {
    /// How many of the rows are joined, the first in key order. At 0 the rows are unchanged.
    pub done: usize,
}

impl<K: Key + Drop, V: Join + Drop, H: Hasher<N, K> + Hasher<N, V>, const N: usize> Replica<
    K,
    V,
    H,
    N,
> {
    /// Joins rows in any order, as if each were put, one after the other. It sorts them by key, and joins them in one pass: room for all
    /// of them is made first, and own rows from the first of them on are moved out of the way and back. A put of each moves the rows
    /// after it instead, so this is for many rows.
    ///
    /// ```rust crates/merkle_store/src/rows.rt
    /// match replica.put_all(entries) {
    ///     Ok(()) => Ok(replica),
    ///     Err(_) => Err(StoreFault::Memory),
    /// }
    /// ```
    ///
    /// # Errors
    ///
    /// [`PutsCut`] if memory runs out: the first rows in key order are joined, those of equal keys in the order in which they came,
    /// and the others are given up. An empty list is never refused.
    pub fn put_all(&mut self, rows: Vec<(K, V)>) -> Result<(), PutsCut>
        ensures joined { OnOk result (IsPuts K.cmp V.eq V.join_of self.old.rows rows.items self.new.rows) }
        ensures cut { IfErr result (λ cut. IsPutsTo K.cmp V.eq V.join_of self.old.rows rows.items cut.done self.new.rows) }
        ensures settings { SameSettings self.old.tree self.new.tree }
    {
        self.rows_ascend();
        let mut sorted = rows;
        let is_sorted = sorted
            .sort_by(
                |a: &(K, V), b: &(K, V)| -> Ordering
                    ensures { result ≡ K.cmp a.now.0 b.now.0 }
                { a.0.cmp(&b.0) },
            )
            .is_ok();
        if !is_sorted {
            return Err(PutsCut { done: 0 });
        }
        match self.join_rising(sorted) {
            Ok(()) => Ok(()),
            Err(done) => Err(PutsCut { done }),
        }
    }
}
