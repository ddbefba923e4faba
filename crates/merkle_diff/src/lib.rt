//! Page ranges of Merkle search trees, and the ranges of keys in which two lists of them differ.
//!
//! A tree's list of page ranges is a summary that a replica sends to a peer: the span and the digest of each page, a page before
//! those below it (Auvolat and Taïani, "Merkle Search Trees: Efficient State-Based CRDTs in Open Networks"). [`diff`] compares a
//! local list with a peer's, and returns the ranges of keys that the local side can ask for. Both lists may be any lists: nothing
//! that a peer sends makes it fail, and all that it promises of any list is in its contract.
//!
//! [`diff`] compares keys by their order alone. Keys are borrowed, and cloned only where owned ranges or snapshots are made of borrowed
//! ones or copied.
#![tactic(auto)]

mod at_hand;
mod diff_builder;
mod diff_range;
mod difference;
pub mod laws;
mod lookahead;
mod marks;
mod merge;
mod owned_page_range;
mod page_range;
mod page_range_snapshot;
mod range_list;
mod reduce;
mod slice_iter;
mod walk;

pub use at_hand::{diff_lists, diff_slices, diff_snapshots};
pub use diff_range::DiffRange;
pub use difference::diff;
pub use owned_page_range::OwnedPageRange;
pub use page_range::PageRange;
pub use page_range_snapshot::{PageRangeSnapshot, SnapshotIter};

/// What `diff` is made of: lists of ranges, their merge, and the cut of good ranges out of bad ones.
pub mod parts {
    pub use crate::diff_builder::DiffListBuilder;
    pub use crate::merge::{merge_overlapping, sort_by_start};
    pub use crate::range_list::RangeList;
    pub use crate::reduce::reduce_sync_range;
}
