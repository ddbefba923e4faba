//! Tests of the tree of a store, over a store in memory, against trees in memory.
#![tactic(auto)]

#[cfg(test)]
mod loaded_maps;
#[cfg(test)]
mod random_maps;
pub mod same;
pub mod sorted_rows;
