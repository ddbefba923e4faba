//! Digests, the levels that they give to keys, and the hash functions that make them: the base of a Merkle search tree
//! (Auvolat and Taïani, "Merkle Search Trees: Efficient State-Based CRDTs in Open Networks").
//!
//! No call here takes memory.
#![tactic(auto)]

mod digest;
mod hash_bytes;
mod hasher;
mod key;
mod key_bytes;
mod levels;
pub mod siphash;
mod wrappers;

pub use digest::Digest;
pub use hash_bytes::HashBytes;
pub use hasher::Hasher;
pub use key::{Key, SameClone};
pub use key_bytes::{KeyBytes, KeyBytesExact};
pub use levels::{default_level_base, level};
pub use siphash::{Sip24, SipHasher};
pub use wrappers::{PageDigest, RootHash, ValueDigest};
