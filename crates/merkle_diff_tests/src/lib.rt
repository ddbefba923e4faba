//! Tests of snapshots, lists of ranges and `diff`, by lists worked out by hand and answers of the Rust crate.
#![tactic(auto)]

#[cfg(test)]
mod cuts;
#[cfg(test)]
mod differences;
#[cfg(test)]
mod range_lists;
#[cfg(test)]
mod rust_answers;
#[cfg(test)]
mod shown;
#[cfg(test)]
mod text_keys;
#[cfg(test)]
mod texts;
