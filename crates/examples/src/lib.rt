//! Users' code over replicas and trees, each example with its theorem, proved from the public contracts of the crates that it uses.
#![tactic(auto)]

pub mod accounts;
pub mod asking;
pub mod audited;
pub mod deltas;
pub mod exchanging;
pub mod far_tree;
pub mod gossip;
pub mod hashing;
pub mod history;
mod lists;
pub mod meeting;
pub mod messages;
pub mod order;
pub mod readme;
pub mod register;
pub mod removable;
pub mod sessions;
pub mod set;
pub mod shelf;
pub mod store;
pub mod sync;
pub mod undo;
pub mod wire;
