//! Calls that answer what a tree holds as digests, and compare two such answers.
ghost use Rattle.std.specs.Prelude.{◌≡◌, ◌≢◌, ◌↔◌, ◌⊎◌, None, Err};
ghost use Rattle.merkle_tree_theory.specs.Stream.{page_digest};
ghost use Rattle.mst_c.specs.Handles.{HasTree, IsOutputWhere, IsOutputOf, IsShortWhere, IsShortOf, OnlyHashes};
ghost use Rattle.c_trees.specs.Lists.{AreNotBothRanges, IsDiffOf, TellsDigests, TellsRanges};
ghost use Rattle.c_trees.specs.Pages.{TellsPageList};
ghost use Rattle.c_values.specs.Keys.{key_items};

use crate::handle::{MstTree, put_back, take_out};
use c_trees::reading::differences;
use c_values::status::{ARGUMENT, DONE, MEMORY, SHORT};
use c_values::{MstBytes16, put_bytes, put_made};
use std::alloc::Global;

/// Writes the root hash of a tree.
///
/// `DONE`; `ARGUMENT` where the handle has no tree, and `digest` is as before.
#[unsafe(no_mangle)]
pub extern "C" fn mst_proved_tree_root_hash(
    alloc: Global,
    handle: &mut MstTree,
    digest: &mut MstBytes16,
) -> u32
    ensures digest { result ≡ 0 → HasTree handle.old.tree (λ s. digest.new.bytes ≡ page_digest s.format key_items s.root) }
    ensures hashed { result ≡ 0 → OnlyHashes handle.old.tree handle.new.tree }
    ensures unchanged { result ≢ 0 → handle.new.tree ≡ handle.old.tree }
    ensures refused { result ≢ 0 → digest.new.bytes ≡ digest.old.bytes }
    ensures argument { (result ≡ 4) ↔ (handle.old.tree ≡ None) }
    ensures status { (result ≡ 0) ⊎ (result ≡ 4) }
{
    let Some(mut held) = take_out(alloc, handle) else {
        return ARGUMENT;
    };
    digest.bytes = held.root_hash();
    put_back(handle, held);
    DONE
}

/// Writes the page ranges of a tree to `out`, and how many bytes they are to `needed`. Into no room they are counted, and not made.
///
/// `DONE`; `SHORT` where `out` is too short, and `needed` is written and `out` as before; `MEMORY`; `ARGUMENT` where the handle has no
/// tree. But for `DONE`, `out` is as before, and but for `DONE` and `SHORT`, `needed`.
#[unsafe(no_mangle)]
pub extern "C" fn mst_proved_tree_page_ranges(
    alloc: Global,
    handle: &mut MstTree,
    out: &mut [u8],
    needed: &mut usize,
) -> u32
    ensures done { result ≡ 0 → IsOutputOf handle.new.tree TellsRanges out.old out.new needed.new }
    ensures short { result ≡ 3 → IsShortOf handle.new.tree TellsRanges out.old needed.new }
    ensures hashed { result ≢ 4 → OnlyHashes handle.old.tree handle.new.tree }
    ensures no_tree { result ≡ 4 → handle.new.tree ≡ None }
    ensures unchanged { result ≢ 0 → out.new ≡ out.old }
    ensures refused { result ≢ 0 → result ≢ 3 → needed.new ≡ needed.old }
    ensures argument { (result ≡ 4) ↔ (handle.old.tree ≡ None) }
    ensures status { (result ≡ 0) ⊎ (result ≡ 1) ⊎ (result ≡ 3) ⊎ (result ≡ 4) }
{
    let Some(mut held) = take_out(alloc, handle) else {
        return ARGUMENT;
    };
    if out.is_empty() {
        let len = held.page_ranges_len();
        put_back(handle, held);
        let Ok(len) = len else {
            return MEMORY;
        };
        *needed = len;
        return SHORT;
    }
    let bytes = held.page_ranges(alloc);
    put_back(handle, held);
    put_made(bytes, out, needed)
}

/// Writes the keys of a tree in their order, each with the digest of its value, to `out`, and how many bytes that is to `needed`.
///
/// `DONE`; `SHORT` where `out` is too short, and `needed` is written and `out` as before; `MEMORY`; `ARGUMENT` where the handle has no
/// tree. But for `DONE`, `out` is as before, and but for `DONE` and `SHORT`, `needed`.
#[unsafe(no_mangle)]
pub extern "C" fn mst_proved_tree_digests(
    alloc: Global,
    handle: &mut MstTree,
    out: &mut [u8],
    needed: &mut usize,
) -> u32
    ensures done { result ≡ 0 → IsOutputOf handle.old.tree TellsDigests out.old out.new needed.new }
    ensures short { result ≡ 3 → IsShortOf handle.old.tree TellsDigests out.old needed.new }
    ensures tree { handle.new.tree ≡ handle.old.tree }
    ensures unchanged { result ≢ 0 → out.new ≡ out.old }
    ensures refused { result ≢ 0 → result ≢ 3 → needed.new ≡ needed.old }
    ensures argument { (result ≡ 4) ↔ (handle.old.tree ≡ None) }
    ensures status { (result ≡ 0) ⊎ (result ≡ 1) ⊎ (result ≡ 3) ⊎ (result ≡ 4) }
{
    let Some(held) = take_out(alloc, handle) else {
        return ARGUMENT;
    };
    let bytes = held.digests(alloc);
    put_back(handle, held);
    put_made(bytes, out, needed)
}

/// Writes the pages of a tree as they are to `out`, and how many bytes they are to `needed`.
///
/// `DONE`; `SHORT` where `out` is too short, and `needed` is written and `out` as before; `MEMORY`; `ARGUMENT` where the handle has no
/// tree. But for `DONE`, `out` is as before, and but for `DONE` and `SHORT`, `needed`.
#[unsafe(no_mangle)]
pub extern "C" fn mst_proved_tree_pages(
    alloc: Global,
    handle: &mut MstTree,
    out: &mut [u8],
    needed: &mut usize,
) -> u32
    ensures done { result ≡ 0 → IsOutputOf handle.old.tree TellsPageList out.old out.new needed.new }
    ensures short { result ≡ 3 → IsShortOf handle.old.tree TellsPageList out.old needed.new }
    ensures tree { handle.new.tree ≡ handle.old.tree }
    ensures unchanged { result ≢ 0 → out.new ≡ out.old }
    ensures refused { result ≢ 0 → result ≢ 3 → needed.new ≡ needed.old }
    ensures argument { (result ≡ 4) ↔ (handle.old.tree ≡ None) }
    ensures status { (result ≡ 0) ⊎ (result ≡ 1) ⊎ (result ≡ 3) ⊎ (result ≡ 4) }
{
    let Some(held) = take_out(alloc, handle) else {
        return ARGUMENT;
    };
    let bytes = held.pages(alloc);
    put_back(handle, held);
    put_made(bytes, out, needed)
}

/// Writes to `out` the ranges of keys that local may ask of the peer, by their page ranges, and how many bytes they are to `needed`.
///
/// `DONE`; `SHORT` where `out` is too short, and `needed` is written and `out` as before; `MEMORY`; `MALFORMED` where a list isn't one
/// of page ranges. But for `DONE`, `out` is as before, and but for `DONE` and `SHORT`, `needed`.
#[unsafe(no_mangle)]
pub extern "C" fn mst_proved_diff(
    alloc: Global,
    local: &[u8],
    peer: &[u8],
    out: &mut [u8],
    needed: &mut usize,
) -> u32
    ensures done { result ≡ 0 → IsOutputWhere out.old out.new needed.new (IsDiffOf local.now peer.now) }
    ensures short { result ≡ 3 → IsShortWhere out.old needed.new (IsDiffOf local.now peer.now) }
    ensures malformed { result ≡ 2 → AreNotBothRanges local.now peer.now }
    ensures unchanged { result ≢ 0 → out.new ≡ out.old }
    ensures refused { result ≢ 0 → result ≢ 3 → needed.new ≡ needed.old }
    ensures status { (result ≡ 0) ⊎ (result ≡ 1) ⊎ (result ≡ 2) ⊎ (result ≡ 3) }
{
    match differences(alloc, local, peer) {
        Ok(bytes) => put_bytes(bytes.as_slice(), out, needed),
        Err(error) => error.status(),
    }
}
