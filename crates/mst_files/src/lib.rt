//! The file of a store: opened, closed and made, and told from other files by reading alone.
#![tactic(auto)]

pub mod closing;
pub mod fault;
mod look;
pub mod making;
pub mod opening;
pub mod rebuilding;
