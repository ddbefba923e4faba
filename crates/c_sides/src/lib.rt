//! Sides of a sync that keep their rows elsewhere, as the library for C has them: what a handle of `mst_sync_c` holds, and what its calls do with it.
#![tactic(auto)]

pub mod byte_sync;
pub mod handed;
pub mod laws;
pub mod needs;
pub mod status;
pub mod unread;
