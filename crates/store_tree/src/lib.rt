//! The Merkle search tree of a store, as a table in its file: pages are found by seeks, and no tree is in memory.
#![tactic(auto)]

mod cell;
pub mod comparing;
mod digest;
pub mod fault;
mod fill;
pub mod laws;
pub mod load;
pub mod outline;
pub mod over;
mod page;
pub mod pairs;
mod place;
pub mod root;
mod seek;
pub mod table;
pub mod write;

pub use fault::TreeFault;
