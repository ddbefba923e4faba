//! Merkle search trees as mathematics: pages, the one tree of a map, streams and digests of pages, page ranges, and what an upsert and
//! a removal make of a tree.
//!
//! `specs/` holds the definitions and `proofs/` their laws; the crate's one type is [`PageFormat`], and it has no code. [`laws`] states
//! to callers what is proved of every map and every tree.
#![tactic(auto)]

pub mod laws;
mod page_format;

pub use page_format::PageFormat;
