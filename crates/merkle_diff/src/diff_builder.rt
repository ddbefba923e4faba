//! Ranges of keys that are known to differ or to agree become the list of ranges to ask for.
ghost use Rattle.std.specs.Prelude.{◌≡◌, ◌≢◌, [], OnOk, OnErr};
ghost use Rattle.key_order.specs.Order.{Upto};

use crate::diff_range::DiffRange;
use crate::range_list::RangeList;
use crate::reduce::cut_apart;
use std::alloc::{AllocError, Global};

/// Ranges of keys that are known to be inconsistent, and ranges that are known to be consistent. A key strictly inside a consistent
/// range is not asked for, whatever else is known of it.
///
/// ```rust crates/merkle_diff_tests/src/shown.rt
/// let mut builder = DiffListBuilder::new(alloc);
/// builder.inconsistent(&1, &5)?;
/// builder.consistent(&1, &2)?;
/// let left = builder.into_diff_vec()?;
/// assert_eq!(rt; left.len(), 1);
/// assert_eq!(rt; (*left[0].start(), *left[0].end()), (2, 5));
/// ```
#[derive(Drop)]
pub struct DiffListBuilder<'a, K: Ord> {
    inconsistent: RangeList<'a, K>,
    consistent: RangeList<'a, K>,
    alloc: Global,
}

impl<'a, K: Ord> DiffListBuilder<'a, K> {
    ghost use Rattle.merkle_diff.specs.Answers.{IfFound};
    ghost use Rattle.merkle_diff.specs.DiffListBuilder.{inconsistent_spans, consistent_spans, IsDiffList};
    ghost use Rattle.merkle_diff.specs.RangeList.{Inserts};

    /// A builder with no ranges, which will take its memory from `alloc`.
    pub fn new(alloc: Global) -> DiffListBuilder<'a, K>
        ensures inconsistent { inconsistent_spans result ≡ [] }
        ensures consistent { consistent_spans result ≡ [] }
    {
        DiffListBuilder {
            inconsistent: RangeList::new(alloc),
            consistent: RangeList::new(alloc),
            alloc,
        }
    }

    /// Marks the range from `start` to `end`, both in it, inconsistent. `start` has to be at most `end`. It copies two references.
    ///
    /// # Errors
    ///
    /// Out of memory: the builder is as it was.
    pub fn inconsistent(&mut self, start: &'a K, end: &'a K) -> Result<(), AllocError>
        requires { Upto K.cmp start.now end.now }
        ensures ok { OnOk result (Inserts (inconsistent_spans self.old) start.now end.now (inconsistent_spans self.new)) }
        ensures err { OnErr result (inconsistent_spans self.new ≡ inconsistent_spans self.old) }
        ensures same { consistent_spans self.new ≡ consistent_spans self.old }
    {
        self.inconsistent.insert(start, end)
    }

    /// Marks the range from `start` to `end`, both in it, consistent. `start` has to be at most `end`. It copies two references.
    ///
    /// # Errors
    ///
    /// Out of memory: the builder is as it was.
    pub fn consistent(&mut self, start: &'a K, end: &'a K) -> Result<(), AllocError>
        requires { Upto K.cmp start.now end.now }
        ensures ok { OnOk result (Inserts (consistent_spans self.old) start.now end.now (consistent_spans self.new)) }
        ensures err { OnErr result (consistent_spans self.new ≡ consistent_spans self.old) }
        ensures same { inconsistent_spans self.new ≡ inconsistent_spans self.old }
    {
        self.consistent.insert(start, end)
    }

    /// The ranges to ask for: the merge of the consistent ranges cut out of the merge of the inconsistent ones. They ascend, and no
    /// two meet. It takes a sort of both kinds, and one pass over them.
    ///
    /// # Errors
    ///
    /// Out of memory: the builder is dropped. Memory is taken only where ranges of both kinds were marked.
    pub fn into_diff_vec(self) -> Result<Vec<DiffRange<'a, K>>, AllocError>
        ensures cut { IfFound result (IsDiffList K.cmp (inconsistent_spans self.entry) (consistent_spans self.entry)) }
        ensures memory { OnErr result ((inconsistent_spans self.entry ≢ []) × (consistent_spans self.entry ≢ [])) }
    {
        let bad = self.inconsistent.into_vec()?;
        let good = self.consistent.into_vec()?;
        cut_apart(self.alloc, bad, &good)
    }
}
