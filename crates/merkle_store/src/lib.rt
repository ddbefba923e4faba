//! The rows of a store's file as a replica in memory, by which copies of the file sync over any pair of streams.
#![tactic(auto)]

pub mod counting;
pub mod fetch_fault;
pub mod fetching;
pub mod framing;
pub mod laws;
pub mod news;
pub mod pausing;
pub mod reopening;
pub mod rows;
pub mod serving;
pub mod session_fault;
pub mod traffic;
pub mod wire;
