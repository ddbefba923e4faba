//! The reply about the pages of a replica.
ghost use Rattle.std.specs.Prelude.{◌≡◌};
ghost use Rattle.merkle_tree_theory.specs.declared.page_format.PageFormat.{PageFormat};
ghost use Rattle.mst_pair.specs.Devices.{MarksFailure};
ghost use Rattle.mst_pair.specs.Engine.{WritesItsPages};
ghost use Rattle.mst_pair.specs.Pages.{HasDefaults};

use crate::reply::{write_list, write_no_memory};
use crate::sink::Sink;
use crate::source::Failed;
use crate::text_replica::{TextReplica, shows_its_rows};

/// Writes the range of each page of a replica, and the line `end`. Pages that lack a digest get it.
pub fn write_pages<W: Sink>(replica: &mut TextReplica, writer: &mut W) -> Result<(), Failed>
    ensures bytes { WritesItsPages replica.old result (W.taken writer.old) (W.taken writer.new) }
    ensures failed { MarksFailure result (W.has_failed writer.old) (W.has_failed writer.new) }
    ensures rows { replica.new.rows ≡ replica.old.rows }
    ensures defaults { (format : PageFormat) → HasDefaults format replica.old → HasDefaults format replica.new }
{
    replica.hash();
    shows_its_rows(replica);
    match replica.tree().serialise_page_ranges() {
        Ok(Some(ranges)) => write_list(&ranges, writer),
        Ok(None) => unreachable!(),
        Err(_) => write_no_memory(writer),
    }
}
