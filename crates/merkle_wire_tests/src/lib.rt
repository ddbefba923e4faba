//! Tests of catch-ups over a wire.
#![tactic(auto)]

#[cfg(test)]
mod endless_rounds;
#[cfg(test)]
mod first_calls;
#[cfg(test)]
mod formats;
#[cfg(test)]
mod hex;
#[cfg(test)]
mod keys;
#[cfg(test)]
mod limits;
#[cfg(test)]
mod memory;
#[cfg(test)]
mod playing;
#[cfg(test)]
mod questions_refused;
#[cfg(test)]
mod random_sessions;
#[cfg(test)]
mod refusals;
#[cfg(test)]
mod sessions;
#[cfg(test)]
mod values;
#[cfg(test)]
mod vectors;
#[cfg(test)]
mod wide;
