//! Tests of audits: what is decided of digests of replicas at hand.
#![tactic(auto)]

#[cfg(test)]
mod no_bytes;
#[cfg(test)]
mod planted;
#[cfg(test)]
mod random_audits;
#[cfg(test)]
mod rows;
#[cfg(test)]
mod streams;
