//! What to ask a peer for, by its page ranges.
ghost use Rattle.std.specs.Prelude.{IfOk};
ghost use Rattle.std.specs.List.{AllByRecursion};
ghost use Rattle.key_order.specs.Text.{text_order};
ghost use Rattle.merkle_diff.specs.DiffRange.{spans};
ghost use Rattle.merkle_diff.specs.Difference.{IsInFirst};

use merkle_diff::{DiffRange, PageRangeSnapshot, diff_snapshots};
use std::alloc::{AllocError, Global};

/// The ranges of texts to ask a peer for that sent these page ranges: each is within the first of these.
///
/// # Errors
///
/// Out of memory.
pub fn ranges_to_fetch<'p>(
    alloc: Global,
    own: &'p PageRangeSnapshot<String>,
    came: &'p PageRangeSnapshot<String>,
) -> Result<Vec<DiffRange<'p, String>>, AllocError>
    ensures { IfOk result (λ found. AllByRecursion (IsInFirst text_order came.now) (spans found.items)) }
{
    diff_snapshots(alloc, own, came)
}
