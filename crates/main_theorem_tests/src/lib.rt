//! The main theorem, carried out on random lists of updates.
#![tactic(auto)]

#[cfg(test)]
mod random_runs;
#[cfg(test)]
mod refusals;
