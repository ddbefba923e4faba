//! Calls that change the map of a tree.
ghost use Rattle.std.specs.Prelude.{◌≡◌, ◌≢◌, ◌↔◌, ◌⊎◌, ℕ, List, None, true, false};
ghost use Rattle.merkle_tree_theory.specs.Dropped.{RemovalDropsFew};
ghost use Rattle.mst_c.specs.Handles.{ChangesTree};
ghost use Rattle.c_trees.specs.Lists.{AllSet, AreDigests, AreLoaded, AreRows, FirstSet, IsLoaded};
ghost use Rattle.c_trees.specs.Trees.{IsSet, SetDropsFew};
ghost use Rattle.c_values.specs.Trees.{IsDel, IsSetTo};
ghost use Rattle.c_values.specs.Lists.{row_list};

use crate::handle::{MstTree, put_back, take_out};
use c_values::MstBytes16;
use c_values::status::{ABSENT, ARGUMENT, DONE, MALFORMED, MEMORY};
use std::alloc::Global;

/// Sets a key to the digest of a value.
///
/// `DONE`; `MEMORY`; `ARGUMENT` where the handle has no tree. Refused, the tree is as before.
#[unsafe(no_mangle)]
pub extern "C" fn mst_proved_tree_upsert(
    alloc: Global,
    handle: &mut MstTree,
    key: &[u8],
    value: &[u8],
) -> u32
    ensures done { result ≡ 0 → ChangesTree handle.old.tree handle.new.tree (IsSet key.now value.now) }
    ensures few_more { result ≡ 0 → ChangesTree handle.old.tree handle.new.tree (SetDropsFew key.now) }
    ensures unchanged { result ≢ 0 → handle.new.tree ≡ handle.old.tree }
    ensures argument { (result ≡ 4) ↔ (handle.old.tree ≡ None) }
    ensures status { (result ≡ 0) ⊎ (result ≡ 1) ⊎ (result ≡ 4) }
{
    let Some(mut held) = take_out(alloc, handle) else {
        return ARGUMENT;
    };
    let status = match held.upsert(alloc, key, value) {
        Ok(()) => DONE,
        Err(_) => MEMORY,
    };
    put_back(handle, held);
    status
}

/// Sets a key to this digest of a value.
///
/// `DONE`; `MEMORY`; `ARGUMENT` where the handle has no tree. Refused, the tree is as before.
#[unsafe(no_mangle)]
pub extern "C" fn mst_proved_tree_upsert_digest(
    alloc: Global,
    handle: &mut MstTree,
    key: &[u8],
    digest: &MstBytes16,
) -> u32
    ensures done { result ≡ 0 → ChangesTree handle.old.tree handle.new.tree (IsSetTo key.now digest.now.bytes) }
    ensures few_more { result ≡ 0 → ChangesTree handle.old.tree handle.new.tree (SetDropsFew key.now) }
    ensures unchanged { result ≢ 0 → handle.new.tree ≡ handle.old.tree }
    ensures argument { (result ≡ 4) ↔ (handle.old.tree ≡ None) }
    ensures status { (result ≡ 0) ⊎ (result ≡ 1) ⊎ (result ≡ 4) }
{
    let Some(mut held) = take_out(alloc, handle) else {
        return ARGUMENT;
    };
    let status = match held.upsert_digest(alloc, key, &digest.bytes) {
        Ok(()) => DONE,
        Err(_) => MEMORY,
    };
    put_back(handle, held);
    status
}

/// Takes a key out.
///
/// `DONE`; `ABSENT` where the tree has no such key; `MEMORY`; `ARGUMENT` where the handle has no tree. But for `DONE`, the tree is as
/// before.
#[unsafe(no_mangle)]
pub extern "C" fn mst_proved_tree_remove(alloc: Global, handle: &mut MstTree, key: &[u8]) -> u32
    ensures done { result ≡ 0 → ChangesTree handle.old.tree handle.new.tree (IsDel key.now true) }
    ensures few_more { result ≡ 0 → ChangesTree handle.old.tree handle.new.tree RemovalDropsFew }
    ensures absent { result ≡ 5 → ChangesTree handle.old.tree handle.new.tree (IsDel key.now false) }
    ensures unchanged { result ≢ 0 → handle.new.tree ≡ handle.old.tree }
    ensures argument { (result ≡ 4) ↔ (handle.old.tree ≡ None) }
    ensures status { (result ≡ 0) ⊎ (result ≡ 1) ⊎ (result ≡ 4) ⊎ (result ≡ 5) }
{
    let Some(mut held) = take_out(alloc, handle) else {
        return ARGUMENT;
    };
    let status = match held.remove(alloc, key) {
        Ok(true) => DONE,
        Ok(false) => ABSENT,
        Err(_) => MEMORY,
    };
    put_back(handle, held);
    status
}

/// Sets the rows of a list one after the other, whatever the order of their keys, and writes how many were set.
///
/// `DONE`; `MEMORY`, and then those in front were set, and not all; `MALFORMED` where the bytes are no list of rows; `ARGUMENT` where
/// the handle has no tree. But for `DONE` and `MEMORY`, the tree and `done` are as before.
#[unsafe(no_mangle)]
pub extern "C" fn mst_proved_tree_upsert_rows(
    alloc: Global,
    handle: &mut MstTree,
    list: &[u8],
    done: &mut usize,
) -> u32
    ensures done { result ≡ 0 → ChangesTree handle.old.tree handle.new.tree (AllSet list.now done.new) }
    ensures refused { result ≡ 1 → ChangesTree handle.old.tree handle.new.tree (FirstSet list.now done.new) }
    ensures malformed { result ≡ 2 → (given : List (List ℕ × List ℕ)) → list.now ≢ row_list given }
    ensures unchanged { result ≢ 0 → result ≢ 1 → (handle.new.tree ≡ handle.old.tree) × (done.new ≡ done.old) }
    ensures argument { (result ≡ 4) ↔ (handle.old.tree ≡ None) }
    ensures status { (result ≡ 0) ⊎ (result ≡ 1) ⊎ (result ≡ 2) ⊎ (result ≡ 4) }
{
    let Some(mut held) = take_out(alloc, handle) else {
        return ARGUMENT;
    };
    let set = held.upsert_rows(alloc, list);
    put_back(handle, held);
    let Some((count, is_all)) = set else {
        return MALFORMED;
    };
    *done = count;
    if is_all { DONE } else { MEMORY }
}

/// Makes these rows the map of a tree, in place of the map that it has.
///
/// `DONE`; `MEMORY`; `MALFORMED` where the bytes are no list of rows, or the rows don't ascend strictly by key; `ARGUMENT` where the
/// handle has no tree. Refused, the tree is as before.
#[unsafe(no_mangle)]
pub extern "C" fn mst_proved_tree_load(alloc: Global, handle: &mut MstTree, rows: &[u8]) -> u32
    ensures done { result ≡ 0 → ChangesTree handle.old.tree handle.new.tree (IsLoaded rows.now) }
    ensures malformed { result ≡ 2 → (given : List (List ℕ × List ℕ)) → ¬ (AreRows rows.now given) }
    ensures unchanged { result ≢ 0 → handle.new.tree ≡ handle.old.tree }
    ensures argument { (result ≡ 4) ↔ (handle.old.tree ≡ None) }
    ensures status { (result ≡ 0) ⊎ (result ≡ 1) ⊎ (result ≡ 2) ⊎ (result ≡ 4) }
{
    let Some(mut held) = take_out(alloc, handle) else {
        return ARGUMENT;
    };
    let status = match held.load(alloc, rows) {
        Ok(()) => DONE,
        Err(error) => error.status(),
    };
    put_back(handle, held);
    status
}

/// Makes these keys with digests the map of a tree, in place of the map that it has.
///
/// `DONE`; `MEMORY`; `MALFORMED` where the bytes are no list of digests, or its keys don't ascend strictly; `ARGUMENT` where the handle
/// has no tree. Refused, the tree is as before.
#[unsafe(no_mangle)]
pub extern "C" fn mst_proved_tree_load_digests(
    alloc: Global,
    handle: &mut MstTree,
    list: &[u8],
) -> u32
    ensures done { result ≡ 0 → ChangesTree handle.old.tree handle.new.tree (AreLoaded list.now) }
    ensures malformed { result ≡ 2 → (given : List (List ℕ × List ℕ)) → ¬ (AreDigests list.now given) }
    ensures unchanged { result ≢ 0 → handle.new.tree ≡ handle.old.tree }
    ensures argument { (result ≡ 4) ↔ (handle.old.tree ≡ None) }
    ensures status { (result ≡ 0) ⊎ (result ≡ 1) ⊎ (result ≡ 2) ⊎ (result ≡ 4) }
{
    let Some(mut held) = take_out(alloc, handle) else {
        return ARGUMENT;
    };
    let status = match held.load_digests(alloc, list) {
        Ok(()) => DONE,
        Err(error) => error.status(),
    };
    put_back(handle, held);
    status
}
