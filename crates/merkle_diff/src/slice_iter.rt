//! Slices of page ranges, one range at a time.
ghost use Rattle.std.specs.Iterator.{YieldsFirstBy, item_count};
ghost use Rattle.std.specs.Prelude.{◌≡◌};
ghost use Rattle.merkle_diff.specs.PageRange.{entries, entry};
ghost use Rattle.merkle_diff.specs.SliceIter.{entries_to_come};

use crate::page_range::PageRange;
use std::slice::Iter;

/// The ranges of a slice that are still to come, in order, each as a copy. It takes no memory.
#[derive(Drop)]
pub struct SliceIter<'s, 'p, K: Ord> {
    rest: Iter<'s, PageRange<'p, K>>,
}

impl<'s, 'p, K: Ord> SliceIter<'s, 'p, K> {
    /// All ranges of the slice.
    pub fn new(ranges: &'s [PageRange<'p, K>]) -> SliceIter<'s, 'p, K>
        ensures { entries_to_come result ≡ entries ranges.now }
    {
        SliceIter {
            rest: ranges.iter(),
        }
    }
}

impl<'s, 'p, K: Ord> Iterator for SliceIter<'s, 'p, K> {
    type Item = PageRange<'p, K>;

    ghost next_gives = { YieldsFirstBy entry entries_to_come };

    ghost remaining = { item_count entries_to_come };

    fn next(&mut self) -> Option<PageRange<'p, K>> {
        let range = self.rest.next()?;
        Some(range.clone().unwrap())
    }
}
