//! What tests of trees and of replicas share: a hasher that puts each key on the level that a test asks for, values, kinds of keys, maps of
//! numbers, and numbers at random.
#![tactic(auto)]

mod descending;
mod keys;
mod level_hasher;
mod numbers;
mod random;

pub use descending::DescendingNumber;
pub use keys::{CaselessText, number_key};
pub use level_hasher::{LevelHasher, Value};
pub use numbers::{have_values, number_hasher, raise};
pub use random::Random;
