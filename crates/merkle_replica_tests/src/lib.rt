//! Tests of replicas that pull from each other, with answers from outside, and of refused memory.
#![tactic(auto)]

#[cfg(test)]
mod agreeing;
#[cfg(test)]
mod catch_ups;
#[cfg(test)]
mod hubs;
#[cfg(test)]
mod joins;
#[cfg(test)]
mod kinds;
#[cfg(test)]
mod loads;
#[cfg(test)]
mod memory;
#[cfg(test)]
mod mixed_formats;
#[cfg(test)]
mod puts;
#[cfg(test)]
mod random_catch_ups;
#[cfg(test)]
mod refused_catch_ups;
#[cfg(test)]
mod removals;
#[cfg(test)]
mod steps;
#[cfg(test)]
mod turns;
