//! The examples are run, with answers worked out by hand or by another program.
#![tactic(auto)]

#[cfg(test)]
mod audited;
#[cfg(test)]
mod deltas;
#[cfg(test)]
mod gossip;
#[cfg(test)]
mod hashing;
#[cfg(test)]
mod kept_rows;
#[cfg(test)]
mod meeting;
#[cfg(test)]
mod messages;
#[cfg(test)]
mod one_tree;
#[cfg(test)]
mod readme;
#[cfg(test)]
mod register;
#[cfg(test)]
mod removable;
#[cfg(test)]
mod rows;
#[cfg(test)]
mod set;
#[cfg(test)]
mod store;
#[cfg(test)]
mod sync;
#[cfg(test)]
mod wire;
