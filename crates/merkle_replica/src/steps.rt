//! The three steps of a pull, each on its own side of a wire: the ranges to ask for, the rows in them, and their join.
ghost use Rattle.std.specs.Prelude.{◌≡◌, ◌↔◌, IsSome, IfSome, IfOk, IfErr, OnOk, IsTrue};
ghost use Rattle.key_order.specs.Map.{IsMap, rows_in};
ghost use Rattle.key_order.specs.Join.{IsJoin};
ghost use Rattle.merkle_tree_theory.specs.Hashed.{hashed_tree};
ghost use Rattle.merkle_tree_theory.specs.State.{SameSettings};
ghost use Rattle.merkle_replica.specs.Answers.{spans_of};
ghost use Rattle.merkle_replica.specs.Steps.{AreRanges, IsJoinRefused, MayAskOf};

use crate::pull::ask_of;
use crate::replica::Replica;
use crate::row_hasher::RowHasher;
use crate::rows_within::{RowsWithin, are_ranges};
use key_order::{Join, is_below};
use merkle_diff::PageRangeSnapshot;
use merkle_digest::Key;
use std::alloc::AllocError;

/// Why rows that came were not all joined.
#[derive(Debug, Drop)]
pub enum JoinRefused<K, V> {
    /// A key is not above the one before it. The rows are handed back, and none of them is joined.
    NotAscending(Vec<(K, V)>),
    /// Out of memory: the first rows are joined, this many and not all, and the others are given up.
    Memory(usize),
}

impl<K: Key + Drop, V: Join + Drop, H: RowHasher<N, K, V>, const N: usize> Replica<K, V, H, N> {
    /// The first step of a pull: the ranges of keys to ask a peer for that sent these page ranges, ascending, each with its first and
    /// its last key. Any list will do; where it is that of the peer's tree, the ranges are those of a pull.
    ///
    /// It hashes the pages of the tree that lack a digest, walks over its pages and the list once, and copies the bounds of the ranges.
    ///
    /// ```rust crates/examples/src/wire.rt
    /// let theirs = read_page_ranges(alloc, page_ranges)?;
    /// let asked = store.ranges_to_ask_of(&theirs)?;
    /// let bytes = write_ranges(alloc, &asked)?;
    /// ```
    ///
    /// # Errors
    ///
    /// `AllocError` if memory runs out; the rows are then as they were, and the tree hashed.
    pub fn ranges_to_ask_of(
        &mut self,
        theirs: &PageRangeSnapshot<K>,
    ) -> Result<Vec<(K, K)>, AllocError>
        ensures answer { IfOk result (λ ranges. MayAskOf H.laws self.old theirs.now ranges.items) }
        ensures rows { self.new.rows ≡ self.old.rows }

        // The tree is hashed, whatever it answers.
        ensures tree { self.new.tree ≡ hashed_tree K.bytes_of self.old.tree }
        ensures settings { SameSettings self.old.tree self.new.tree }
    {
        self.hash();
        ask_of(self.alloc, self, theirs)
    }

    /// The second step of a pull, on the peer's side: its rows in these ranges, in ascending key order, without memory. `None` where a
    /// range ends before it starts, or doesn't start after the end of the one before it. It looks at the bounds of each range once, and the
    /// iterator then walks over rows and ranges once.
    ///
    /// ```rust crates/examples/src/wire.rt
    /// let Some(found) = store.rows_within(&ranges) else {
    ///     return Err(WireFault::Malformed);
    /// };
    /// let rows: Vec<&(String, u64)> = found.collect(alloc)?;
    /// ```
    pub fn rows_within<'a>(&'a self, ranges: &'a [(K, K)]) -> Option<RowsWithin<'a, K, V>>
        ensures some { IsSome result ↔ AreRanges K.cmp (spans_of ranges.now) }
        ensures rows { IfSome result (λ rows. rows ≡ rows_in K.cmp (spans_of ranges.now) self.now.rows) }
    {
        if are_ranges(ranges) {
            Some(RowsWithin::new(self.rows(), ranges))
        } else {
            None
        }
    }

    /// The third step of a pull: joins rows that came, strictly ascending by key, in one pass.
    ///
    /// Room for all of them is made before the first is joined. Own rows below the first of them stay where they are; those from it on
    /// are moved out of the way and back.
    ///
    /// ```rust crates/examples/src/wire.rt
    /// match store.join_rows(came) {
    ///     Ok(()) => Ok(()),
    ///     Err(JoinRefused::NotAscending(_)) => Err(WireFault::Malformed),
    ///     Err(JoinRefused::Memory(_)) => Err(WireFault::Memory),
    /// }
    /// ```
    ///
    /// # Errors
    ///
    /// [`JoinRefused::NotAscending`] hands back rows that don't ascend, and the replica is as before. [`JoinRefused::Memory`] where memory
    /// is refused: the first rows are joined and not all, and the others are given up.
    pub fn join_rows(&mut self, rows: Vec<(K, V)>) -> Result<(), JoinRefused<K, V>>
        ensures ascending { OnOk result (IsMap K.cmp rows.items) }
        ensures joined { OnOk result (IsJoin K.cmp V.eq V.join_of self.old.rows rows.items self.new.rows) }
        ensures refused { IfErr result (λ why. IsJoinRefused K.cmp V.eq V.join_of self.old.rows rows.items why self.new.rows) }

        // Rows that don't ascend leave the replica, caches included.
        ensures unchanged { ¬ (IsMap K.cmp rows.items) → self.new ≡ self.old }
        ensures settings { SameSettings self.old.tree self.new.tree }
    {
        if !ascend(&rows) {
            return Err(JoinRefused::NotAscending(rows));
        }
        match self.join_rising(rows) {
            Ok(()) => Ok(()),
            Err(done) => Err(JoinRefused::Memory(done)),
        }
    }
}

/// Whether each key is above the one before it.
fn ascend<K: Ord, V>(rows: &[(K, V)]) -> bool
    ensures { IsTrue result ↔ IsMap K.cmp rows.now }
{
    'testing: for i in 1..rows.len() {
        let (before, row) = (&rows[i - 1], &rows[i]);
        if !is_below(&before.0, &row.0) {
            return false;
        }
    }
    true
}
