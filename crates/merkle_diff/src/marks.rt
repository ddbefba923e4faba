//! The ranges that the walk marks.
ghost use Rattle.std.specs.Prelude.{OnOk};
ghost use Rattle.merkle_diff.specs.Turn.{MarkedBad, MarkedGood};
ghost use Rattle.merkle_diff.specs.Walk.{gap_mark};

use crate::diff_range::DiffRange;
use key_order::is_upto;
use std::alloc::AllocError;

/// The ranges that the walk marked bad, and those that it marked good, in this order each.
#[derive(Drop)]
pub struct Marks<'p, K: Ord> {
    pub bad: Vec<DiffRange<'p, K>>,
    pub good: Vec<DiffRange<'p, K>>,
}

/// Marks the gap from `from` to `end` bad, if there is one.
pub fn mark_gap<'p, K: Ord>(
    from: &'p K,
    end: &'p K,
    marks: &mut Marks<'p, K>,
) -> Result<(), AllocError>
    ensures bad { OnOk result (MarkedBad marks.old (gap_mark K.cmp from.entry.now end.entry.now) marks.new) }
    ensures good { OnOk result (MarkedGood marks.old (gap_mark K.cmp from.entry.now end.entry.now) marks.new) }
{
    if is_upto(from, end) {
        marks.bad.push(DiffRange::new(from, end))?;
    }
    Ok(())
}
