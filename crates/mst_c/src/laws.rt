//! Laws over the definitions alone. The function has no effect and takes no memory.

ghost use Rattle.c_trees.specs.Lists.{AreDigests, AreKeyRanges, ArePageRanges, AreRows, SpellOne};
ghost use Rattle.mst_c.specs.Goes.{HandleGoes};
ghost use denote.Param.Send.{IsSend};

use crate::handle::MstTree;

/// Bytes are read in one way: two lists of page ranges that they spell are the same, by the bytes of the keys, and so are two of key
/// ranges, of rows, and of digests. So what was written is what is read.
pub fn a_list_is_read_in_one_way()
    ensures page_ranges { SpellOne ArePageRanges }
    ensures key_ranges { SpellOne AreKeyRanges }
    ensures rows { SpellOne AreRows }
    ensures digests { SpellOne AreDigests }
{}

/// A handle may go to another thread, with its tree: what it owns says the same on each.
pub fn a_handle_goes_to_any_thread()
    ensures { HandleGoes }
{
    goes::<MstTree>();
}

fn goes<T: Send>()
    ensures { IsSend T.row }
{}
