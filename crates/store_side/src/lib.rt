//! What a sync asks of a store and tells of it, found by seeks in its file, with no tree in memory.
#![tactic(auto)]

mod asked;
mod file_replica;
mod filed;
pub mod laws;
mod noted;
mod page_rows;
mod told;
pub mod tree_side;
mod visitors;

pub use tree_side::FileTree;
