//! Replicas of a map from keys to values that can be joined.
//!
//! A [`Replica`] keeps its rows with the Merkle search tree of the digests of its values (`Contents`). Replicas pull from each
//! other what their trees show to differ (`Pulls`), and after four pulls by turns hold the join of their maps while digests are
//! faithful (`Faithful`). A pull can also be made in three steps, with whatever lies between two machines between them (`Steps`).
//! Such replicas are those of Auvolat and Taïani, "Merkle Search Trees: Efficient State-Based CRDTs in Open Networks".
#![tactic(auto)]

mod agreeing;
mod both_ways;
mod catch_up;
mod descent;
mod faults;
mod few;
mod gossip;
mod greatest;
pub mod laws;
mod merge;
mod pull;
mod puts;
mod replica;
mod row_hasher;
mod rows_within;
mod seek;
mod steps;
mod turns;
mod value_hasher;
mod wanted;

pub use agreeing::agree;
pub use both_ways::{CatchUpsError, catch_up_both};
pub use catch_up::{CatchUpError, CaughtUp};
pub use gossip::{CatchUpAllError, catch_up_all};
pub use greatest::Greatest;
pub use key_order::Join;
pub use pull::{PullError, Pulled};
pub use puts::PutsCut;
pub use replica::{Replica, RowsRefused};
pub use row_hasher::RowHasher;
pub use rows_within::RowsWithin;
pub use steps::JoinRefused;
pub use turns::{TurnsError, pull_by_turns};
pub use value_hasher::ValueHasher;
