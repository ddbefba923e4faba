//! Replicas of byte strings for callers in C. A handle has a replica with its rows, the catch-up that it is in, if any, and the message that is
//! to be sent next, or has none of these; each call returns a status.
//!
//! A caller passes pointers that are not null, and slices as a pointer and a length. `c/mst_replica.c` tests that, and is what programs call.
#![tactic(auto)]

mod handle;
mod messages;
mod replicas;
