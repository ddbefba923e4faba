//! Tests of what a sync asks of a store, over a store in memory, against replicas in memory.
#![tactic(auto)]

#[cfg(test)]
mod logs;
#[cfg(test)]
mod random_logs;
#[cfg(test)]
mod sessions;
