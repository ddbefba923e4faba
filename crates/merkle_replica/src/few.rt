//! Joining few rows one by one, and many in one pass.
ghost use Rattle.std.specs.Prelude.{OnOk, IfErr};
ghost use Rattle.merkle_tree_theory.specs.State.{SameSettings};
ghost use Rattle.merkle_replica.specs.Puts.{IsRising, HasGathered, IsGatheredTo};

use crate::replica::Replica;
use key_order::Join;
use merkle_digest::{Hasher, Key};

/// How many new rows are put by themselves at most, each of which moves the own rows after it.
const FEW: usize = 4;

impl<K: Key + Drop, V: Join + Drop, H: Hasher<N, K> + Hasher<N, V>, const N: usize> Replica<
    K,
    V,
    H,
    N,
> {
    /// Joins rows whose keys don't fall: where few of them are new, each by a put, which moves no row where the key is there, else in one
    /// pass over both. Refused, it returns how many of them are joined.
    pub(crate) fn join_sparse(&mut self, theirs: Vec<(K, V)>) -> Result<(), usize>
        requires rising { IsRising K.cmp theirs.items }
        ensures all { OnOk result (HasGathered K.cmp V.eq V.join_of self.old.rows theirs.items self.new.rows) }
        ensures cut { IfErr result (IsGatheredTo K.cmp V.eq V.join_of self.old.rows theirs.items self.new.rows) }
        ensures settings { SameSettings self.old.tree self.new.tree }
    {
        if self.are_few_new(&theirs) {
            self.join_each(theirs)
        } else {
            self.join_rising(theirs)
        }
    }

    /// Whether few of the rows have keys that aren't there.
    fn are_few_new(&self, theirs: &[(K, V)]) -> bool {
        let mut left = FEW;
        'rows: for row in theirs {
            if self.row_at(&row.0).is_none() {
                if left == 0 {
                    return false;
                }
                left -= 1;
            }
        }
        true
    }

    /// Puts rows one after the other. Refused, it returns how many of them are joined.
    fn join_each(&mut self, theirs: Vec<(K, V)>) -> Result<(), usize>
        ensures all { OnOk result (HasGathered K.cmp V.eq V.join_of self.old.rows theirs.items self.new.rows) }
        ensures cut { IfErr result (IsGatheredTo K.cmp V.eq V.join_of self.old.rows theirs.items self.new.rows) }
        ensures settings { SameSettings self.old.tree self.new.tree }
    {
        self.rows_ascend();
        let mut done = 0;
        'joining: for row in theirs {
            if self.put(row.0, row.1).is_err() {
                return Err(done);
            }
            done += 1;
        }
        Ok(())
    }
}
