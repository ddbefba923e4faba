//! Sides of a sync that keep their rows elsewhere, for callers in C. A handle has a tree of the digests of byte strings, the catch-up that it is in, if
//! any, the message that is to be sent next, and a list of rows that came or of rows that are needed; or it has none of these. Each call returns a
//! status.
//!
//! A caller passes pointers that are not null, and slices as a pointer and a length. `c/mst_sync.c` tests that, and is what programs call.
#![tactic(auto)]

mod handle;
mod messages;
mod trees;
