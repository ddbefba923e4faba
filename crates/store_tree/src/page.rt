//! Pages of the tree, as they are read from the table.
use crate::cell::Known;
use crate::pairs::DIGEST_LEN;
use merkle_digest::ValueDigest;

/// A node of a page, and what stands before it.
#[derive(Drop)]
pub struct Node {
    /// What stands between the node before it and its key.
    pub before: Known,
    /// The key.
    pub key: String,
    /// The digest of its value.
    pub digest: ValueDigest<DIGEST_LEN>,
}

/// What stands in a gap: the nodes of a level in order, and what stands after them.
#[derive(Drop)]
pub struct Page {
    /// The nodes.
    pub nodes: Vec<Node>,
    /// What stands after the last node, or in the whole gap where there is none.
    pub last: Known,
}
