//! Tests of the file of a store, over files in memory.
#![tactic(auto)]

#[cfg(test)]
mod files;
