//! The latest registers of a store's log, by their digests, as the map of the tree in its file; and writes that keep the log and that tree in step.
#![tactic(auto)]

pub mod checking;
pub mod digests;
pub mod hashing;
pub mod latest;
pub mod laws;
pub mod loading;
pub mod writing;

pub use digests::LatestDigests;
