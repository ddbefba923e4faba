//! Laws for callers. A call of one costs nothing when it runs.
ghost use Rattle.store_tree.specs.Calls.{BeginsEmpty};
ghost use Rattle.store_tree.specs.Texts.{TextsTellAlike};

/// A table without cells has the gaps of the map without keys, so an empty map needs no call to begin with.
pub fn no_cells_are_the_gaps_of_no_keys()
    ensures { BeginsEmpty }
{}

/// The tree of the bytes of a map's keys tells what the tree of the map tells: the digest of the root page, over each gap the page's digest and its
/// outline, and the digest of each key's value.
pub fn texts_tell_alike()
    ensures { TextsTellAlike }
{}
