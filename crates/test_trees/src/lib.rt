//! Trees that tests share: trees of keys on given levels, copies of their root pages, counts of what they have, and the root hash of
//! the defined tree by a plain program.
#![tactic(auto)]

pub mod defined;
pub mod root_pages;
pub mod tally;
pub mod trees;
