//! Trees of byte strings, and lists as bytes, as the library for C has them: what a handle of `mst_c` holds, and what its calls do with it.
#![tactic(auto)]

pub mod byte_hasher;
pub mod byte_tree;
pub mod entries;
pub mod key;
pub mod reading;
pub mod walk;
pub mod wire;
