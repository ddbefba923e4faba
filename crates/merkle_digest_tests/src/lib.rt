//! Tests of digests, levels and hash functions, with published vectors and answers from outside.
#![tactic(auto)]

#[cfg(test)]
mod digests;
#[cfg(test)]
mod fed_bytes;
#[cfg(test)]
mod key_bytes;
#[cfg(test)]
mod levels;
#[cfg(test)]
mod shown;
#[cfg(test)]
mod siphash;
