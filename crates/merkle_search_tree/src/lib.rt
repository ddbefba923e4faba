//! A Merkle search tree: a map from keys to digests of values, kept as a tree of pages whose shape and digests depend on the map and on
//! the tree's settings alone (Auvolat and Taïani, "Merkle Search Trees: Efficient State-Based CRDTs in Open Networks"). Peers that hold
//! the same map under the same settings have the same root hash, in whatever order their keys came.
//!
//! The level of a key, from 0 to 255, is read off its digest. The keys of the greatest level are the nodes of the root page, and
//! the keys between two nodes stand in a page below, by the same rule.
#![tactic(auto)]

pub mod builder;
mod chain;
mod copy;
mod edge;
mod equality;
mod gap;
mod hash;
pub mod laws;
mod load;
mod lookup;
mod measure;
mod node_iter;
mod outline;
mod page;
mod page_range_iter;
mod page_ranges;
mod parting;
mod path;
mod remove;
mod spare;
mod split;
mod spot;
mod tree;
mod tree_copy;
mod tree_outline;
mod tree_ranges;
pub mod updates;
mod upsert;
pub mod visitor;

pub use gap::Gap;
pub use load::LoadRefused;
pub use merkle_diff as diff;
pub use merkle_digest as digest;
pub use node_iter::{NodeIter, NodeIterOf};
pub use outline::{OutlineItem, OutlineItemOf};
pub use page::{Node, NodeOf, Page, PageOf};
pub use page_range_iter::{PageRangeIter, PageRangeIterOf};
pub use tree::MerkleSearchTree;
pub use upsert::UpsertRefused;
