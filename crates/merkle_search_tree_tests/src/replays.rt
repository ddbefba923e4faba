//! Lists of updates, where memory is at hand.

use merkle_digest::SipHasher;
use merkle_search_tree::MerkleSearchTree;
use merkle_search_tree::builder::Builder;
use merkle_search_tree::updates::{Update, replay};
use std::alloc::AllocError;
use test_keys::number_key;

/// The default tree of number keys.
type Tree = MerkleSearchTree<[u8; 2], u64, SipHasher, 16>;

#[test]
fn every_update_is_accepted(rt: HostRuntime) -> Result<(), AllocError> {
    let updates = vec![in rt.alloc();
        Update::Upsert(number_key(1), 10),
        Update::RootHash,
        Update::Upsert(number_key(2), 20),
        Update::Upsert(number_key(1), 11),
        Update::Remove(number_key(2)),
        Update::Remove(number_key(3)),
        Update::RootHash,
    ]?;
    let (tree, accepted): (Tree, Vec<bool>) = replay(rt.alloc(), Builder::default(), updates)?;
    assert!(rt; accepted.as_slice() == [true; 7].as_slice());
    let mut wanted: Tree = MerkleSearchTree::with_defaults(rt.alloc());
    assert!(rt; wanted.upsert(number_key(1), &11).is_ok());
    assert!(rt; tree.root_hash_cached() == Some(wanted.root_hash()));
    Ok(())
}
