//! Calls that make trees, copy them, let them go, count their keys and look one up.
ghost use Rattle.std.specs.Prelude.{◌≡◌, ◌≢◌, ◌<◌, ◌≤◌, ◌↔◌, ◌⊎◌, true, None, Some, Err};
ghost use Rattle.merkle_tree_theory.specs.declared.page_format.PageFormat.TheVariants.{V1, V2};
ghost use Rattle.merkle_search_tree.specs.Loading.{row_count};
ghost use Rattle.mst_c.specs.Handles.{ChangesTree, HasTreeDigest, HasNewTree, HasTree};
ghost use Rattle.c_values.specs.Handles.{CanMake, CannotMake};
ghost use Rattle.c_trees.specs.Trees.{IsCopied};
ghost use Rattle.c_values.specs.Keys.{pairs_of};

use crate::handle::{MstTree, put_back, take_out};
use c_trees::byte_tree::ByteTree;
use c_values::status::{ABSENT, ARGUMENT, DONE, MEMORY};
use c_values::{MstBytes16, format_of};
use std::alloc::Global;
use std::num::NonZeroU8;

/// Gives a handle that has no tree the empty tree with this key of SipHash, level base, page format and way of feeding keys.
///
/// `DONE`; `MEMORY`; `ARGUMENT` where the handle has a tree, the base is 0, the format isn't 1 or 2, or the way is above 2. Refused, the
/// handle is as before.
#[unsafe(no_mangle)]
pub extern "C" fn mst_proved_tree_new(
    alloc: Global,
    handle: &mut MstTree,
    key: &MstBytes16,
    level_base: u8,
    page_format: u8,
    key_feed: u8,
) -> u32
    ensures v1 { result ≡ 0 → page_format ≡ 1 → HasNewTree handle.new.tree key.now.bytes key_feed level_base V1 }
    ensures v2 { result ≡ 0 → page_format ≡ 2 → HasNewTree handle.new.tree key.now.bytes key_feed level_base V2 }
    ensures right { result ≢ 4 → CanMake handle.old.tree level_base page_format }
    ensures feed { result ≢ 4 → key_feed ≤ 2 }
    ensures argument { result ≡ 4 → CannotMake handle.old.tree level_base page_format ⊎ (2 < key_feed) }
    ensures unchanged { result ≢ 0 → handle.new.tree ≡ handle.old.tree }
    ensures status { (result ≡ 0) ⊎ (result ≡ 1) ⊎ (result ≡ 4) }
{
    let Some(base) = NonZeroU8::new(level_base) else {
        return ARGUMENT;
    };
    if key_feed > 2 {
        return ARGUMENT;
    }
    let Some(format) = format_of(page_format) else {
        return ARGUMENT;
    };
    let tree = ByteTree::new(alloc, &key.bytes, key_feed, base, format);
    give(alloc, handle, tree)
}

/// Gives a handle that has no tree this one.
fn give(alloc: Global, handle: &mut MstTree, tree: ByteTree) -> u32
    ensures done { result ≡ 0 → HasTree handle.new.tree (λ s. s ≡ tree.tree) }
    ensures empty { result ≢ 4 → handle.old.tree ≡ None }
    ensures unchanged { result ≢ 0 → handle.new.tree ≡ handle.old.tree }
    ensures argument { result ≡ 4 → handle.old.tree ≢ None }
    ensures status { (result ≡ 0) ⊎ (result ≡ 1) ⊎ (result ≡ 4) }
{
    if has_tree(alloc, handle) {
        return ARGUMENT;
    }
    match Box::new(alloc, tree) {
        Ok(boxed) => {
            put_back(handle, boxed);
            DONE
        }
        Err(_) => MEMORY,
    }
}

/// Whether a handle has a tree.
fn has_tree(alloc: Global, handle: &mut MstTree) -> bool
    ensures held { (result ≡ true) ↔ (handle.old.tree ≢ None) }
    ensures kept { handle.new.tree ≡ handle.old.tree }
{
    match take_out(alloc, handle) {
        Some(held) => {
            put_back(handle, held);
            true
        }
        None => false,
    }
}

/// Gives a handle that has no tree a copy of another handle's.
///
/// `DONE`; `MEMORY`; `ARGUMENT` where `handle` has no tree, or `copy` has one. Refused, both are as before.
#[unsafe(no_mangle)]
pub extern "C" fn mst_proved_tree_clone(
    alloc: Global,
    handle: &mut MstTree,
    copy: &mut MstTree,
) -> u32
    ensures copied { result ≡ 0 → ChangesTree handle.old.tree copy.new.tree IsCopied }
    ensures original { handle.new.tree ≡ handle.old.tree }
    ensures empty { result ≡ 0 → copy.old.tree ≡ None }
    ensures unchanged { result ≢ 0 → copy.new.tree ≡ copy.old.tree }
    ensures argument { result ≡ 4 → (handle.old.tree ≡ None) ⊎ (copy.old.tree ≢ None) }
    ensures no_tree { handle.old.tree ≡ None → result ≡ 4 }
    ensures held { copy.old.tree ≢ None → result ≡ 4 }
    ensures status { (result ≡ 0) ⊎ (result ≡ 1) ⊎ (result ≡ 4) }
{
    if has_tree(alloc, copy) {
        return ARGUMENT;
    }
    let Some(held) = take_out(alloc, handle) else {
        return ARGUMENT;
    };
    let made = held.try_clone();
    put_back(handle, held);
    match made {
        Ok(tree) => give(alloc, copy, tree),
        Err(_) => MEMORY,
    }
}

/// Lets the tree of a handle go, and leaves the handle without one.
#[unsafe(no_mangle)]
pub extern "C" fn mst_proved_tree_free(alloc: Global, handle: &mut MstTree)
    ensures { handle.new.tree ≡ None }
{
    drop(take_out(alloc, handle));
}

/// Writes how many keys a tree has, at most `usize::MAX`.
///
/// `DONE`; `MEMORY`; `ARGUMENT` where the handle has no tree. Refused, `count` is as before.
#[unsafe(no_mangle)]
pub extern "C" fn mst_proved_tree_len(alloc: Global, handle: &mut MstTree, count: &mut usize) -> u32
    ensures done { result ≡ 0 → HasTree handle.old.tree (λ s. count.new ≡ row_count (pairs_of s)) }
    ensures tree { handle.new.tree ≡ handle.old.tree }
    ensures unchanged { result ≢ 0 → count.new ≡ count.old }
    ensures argument { (result ≡ 4) ↔ (handle.old.tree ≡ None) }
    ensures status { (result ≡ 0) ⊎ (result ≡ 1) ⊎ (result ≡ 4) }
{
    let Some(held) = take_out(alloc, handle) else {
        return ARGUMENT;
    };
    let found = held.count();
    put_back(handle, held);
    match found {
        Ok(keys) => {
            *count = keys;
            DONE
        }
        Err(_) => MEMORY,
    }
}

/// Writes the digest of the value at a key.
///
/// `DONE`; `ABSENT` where the tree has no such key; `MEMORY`; `ARGUMENT` where the handle has no tree. But for `DONE`, `digest` is as
/// before.
#[unsafe(no_mangle)]
pub extern "C" fn mst_proved_tree_find(
    alloc: Global,
    handle: &mut MstTree,
    key: &[u8],
    digest: &mut MstBytes16,
) -> u32
    ensures done { result ≡ 0 → HasTreeDigest handle.old.tree key.now (Some digest.new.bytes) }
    ensures absent { result ≡ 5 → HasTreeDigest handle.old.tree key.now None }
    ensures tree { handle.new.tree ≡ handle.old.tree }
    ensures unchanged { result ≢ 0 → digest.new.bytes ≡ digest.old.bytes }
    ensures argument { (result ≡ 4) ↔ (handle.old.tree ≡ None) }
    ensures status { (result ≡ 0) ⊎ (result ≡ 1) ⊎ (result ≡ 4) ⊎ (result ≡ 5) }
{
    let Some(held) = take_out(alloc, handle) else {
        return ARGUMENT;
    };
    let found = held.find(alloc, key);
    put_back(handle, held);
    match found {
        Ok(Some(bytes)) => {
            digest.bytes = bytes;
            DONE
        }
        Ok(None) => ABSENT,
        Err(_) => MEMORY,
    }
}
