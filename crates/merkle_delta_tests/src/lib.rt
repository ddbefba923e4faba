//! Tests of catch-ups by deltas.
#![tactic(auto)]

#[cfg(test)]
mod chunks;
#[cfg(test)]
mod costs;
#[cfg(test)]
mod limits;
#[cfg(test)]
mod memory;
#[cfg(test)]
mod others;
#[cfg(test)]
mod playing;
#[cfg(test)]
mod random_sessions;
#[cfg(test)]
mod rows;
#[cfg(test)]
mod vectors;
