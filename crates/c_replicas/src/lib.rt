//! Replicas of byte strings, as the library for C has them: what a handle of `mst_replica_c` holds, and what its calls do with it.
#![tactic(auto)]

pub mod byte_replica;
