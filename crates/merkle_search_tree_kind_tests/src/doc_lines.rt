//! The lines that the doc comments of the tree show.

use merkle_diff::{DiffRange, diff};
use merkle_digest::{RootHash, SipHasher};
use merkle_search_tree::MerkleSearchTree;
use merkle_search_tree::builder::{Builder, PageFormat};
use std::alloc::{AllocError, Global};
use std::num::NonZeroU8;

/// A tree of texts.
type Tree = MerkleSearchTree<String, u64, SipHasher, 16>;

/// The default tree of one key, and its root hash.
fn one_key(alloc: Global, key: String) -> Result<(Tree, RootHash), AllocError> {
    let mut tree: Tree = MerkleSearchTree::with_defaults(alloc);
    tree.upsert(key, &42)?;
    let digest = tree.root_hash().clone()?;
    Ok((tree, digest))
}

/// The page format of a tree that was built in format 2.
fn built_in_format_2(alloc: Global, base: NonZeroU8) -> PageFormat {
    let tree: Tree = Builder::default()
        .with_level_base(base)
        .with_page_format(PageFormat::V2)
        .build(alloc);
    tree.page_format()
}

/// The ranges of keys to ask the peer for.
fn ranges_to_ask<'a>(
    alloc: Global,
    local: &'a mut Tree,
    peer: &'a mut Tree,
) -> Result<Vec<DiffRange<'a, String>>, AllocError> {
    local.root_hash();
    peer.root_hash();
    let ours = local.serialise_page_ranges()?;
    let theirs = peer.serialise_page_ranges()?;
    match (ours, theirs) {
        (Some(ours), Some(theirs)) => diff(alloc, ours, theirs),
        _ => Ok(Vec::new(alloc)),
    }
}

/// How many they are.
fn asked(alloc: Global, local: &mut Tree, peer: &mut Tree) -> Result<usize, AllocError> {
    Ok(ranges_to_ask(alloc, local, peer)?.len())
}

/// The default tree of `bananas`, and its root hash.
fn bananas(alloc: Global) -> Result<(Tree, RootHash), AllocError> {
    one_key(alloc, String::from_str(alloc, "bananas")?)
}

/// Sets `bananas` to 24.
fn change(alloc: Global, tree: &mut Tree) -> Result<(), AllocError> {
    tree.upsert(String::from_str(alloc, "bananas")?, &24)?;
    Ok(())
}

#[test]
fn a_peer_is_asked_for_the_one_key_that_differs(rt: HostRuntime) -> Result<(), AllocError> {
    let (mut local, digest) = bananas(rt.alloc())?;
    let (mut peer, same) = bananas(rt.alloc())?;
    assert!(rt; digest == same);
    assert!(rt; asked(rt.alloc(), &mut local, &mut peer)? == 0);
    change(rt.alloc(), &mut peer)?;
    assert!(rt; asked(rt.alloc(), &mut local, &mut peer)? == 1);
    Ok(())
}

#[test]
fn a_builder_gives_its_page_format(rt: HostRuntime) -> Result<(), AllocError> {
    let base = NonZeroU8::new(32).ok_or(AllocError)?;
    assert!(rt; built_in_format_2(rt.alloc(), base) == PageFormat::V2);
    Ok(())
}
