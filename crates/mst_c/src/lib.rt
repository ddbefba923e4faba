//! Merkle search trees for callers in C. A handle has a tree of byte strings, or none; each call returns a status.
//!
//! A caller passes pointers that are not null, and slices as a pointer and a length. `c/mst.c` tests that, and is what programs call.
#![tactic(auto)]

mod entries;
mod handle;
pub mod laws;
mod summaries;
mod trees;
mod updates;
