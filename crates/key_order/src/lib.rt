//! Words on keys under an order, for the specifications of the crates above: the order itself, closed
//! intervals of keys, maps as ascending lists of pairs, the join of two maps, and texts as keys.
//!
//! `specs/` holds the definitions and `proofs/` their laws. The crate's code is two comparisons by the order, and the trait of values
//! that can be joined.
#![tactic(auto)]

mod join;
mod order;

pub use join::Join;
pub use order::{is_below, is_upto};
