//! Calls that make sides and let them go, set and take out keys, and read what a tree has.
ghost use Rattle.std.specs.Prelude.{◌≡◌, ◌≢◌, ◌↔◌, ◌⊎◌, None, Some, true, false};
ghost use Rattle.merkle_tree_theory.specs.declared.page_format.PageFormat.TheVariants.{V1, V2};
ghost use Rattle.c_sides.specs.Calls.{HasAt, HasKeys, HasRootDigest, IsPairDel, IsFresh, IsPairSet, OnlyHashes};
ghost use Rattle.c_values.specs.Handles.{CanMake, CannotMake, Changes, Has};

use crate::handle::{MstSync, put_back, take_out};
use c_sides::byte_sync::ByteSync;
use c_values::status::{ABSENT, ARGUMENT, DONE, MEMORY};
use c_values::{MstBytes16, format_of};
use std::alloc::Global;
use std::num::NonZeroU8;

/// Gives a handle that has no side the one with the empty tree that has this key of SipHash, level base and page format.
///
/// `DONE`; `MEMORY`; `ARGUMENT` where the handle has a side, the base is 0, or the format isn't 1 or 2. Refused, the handle is as before.
#[unsafe(no_mangle)]
pub extern "C" fn mst_proved_sync_new(
    alloc: Global,
    handle: &mut MstSync,
    key: &MstBytes16,
    level_base: u8,
    page_format: u8,
) -> u32
    ensures v1 { result ≡ 0 → page_format ≡ 1 → Has handle.new.held (IsFresh key.now.bytes level_base V1) }
    ensures v2 { result ≡ 0 → page_format ≡ 2 → Has handle.new.held (IsFresh key.now.bytes level_base V2) }
    ensures right { result ≢ 4 → CanMake handle.old.held level_base page_format }
    ensures argument { result ≡ 4 → CannotMake handle.old.held level_base page_format }
    ensures unchanged { result ≢ 0 → handle.new.held ≡ handle.old.held }
    ensures status { (result ≡ 0) ⊎ (result ≡ 1) ⊎ (result ≡ 4) }
{
    let Some(base) = NonZeroU8::new(level_base) else {
        return ARGUMENT;
    };
    let Some(format) = format_of(page_format) else {
        return ARGUMENT;
    };
    if let Some(held) = take_out(alloc, handle) {
        put_back(handle, held);
        return ARGUMENT;
    }
    match Box::new(alloc, ByteSync::new(alloc, &key.bytes, base, format)) {
        Ok(held) => {
            put_back(handle, held);
            DONE
        }
        Err(_) => MEMORY,
    }
}

/// Lets the side of a handle go, with the catch-up, the message and the list that it has, and leaves the handle without one.
#[unsafe(no_mangle)]
pub extern "C" fn mst_proved_sync_free(alloc: Global, handle: &mut MstSync)
    ensures { handle.new.held ≡ None }
{
    drop(take_out(alloc, handle));
}

/// Sets a key to the digest of a value.
///
/// `DONE`; `MEMORY`; `ARGUMENT` where the handle has no side. Refused, all is as before.
#[unsafe(no_mangle)]
pub extern "C" fn mst_proved_sync_set(
    alloc: Global,
    handle: &mut MstSync,
    key: &[u8],
    value: &[u8],
) -> u32
    ensures done { result ≡ 0 → Changes handle.old.held handle.new.held (IsPairSet key.now value.now) }
    ensures unchanged { result ≢ 0 → handle.new.held ≡ handle.old.held }
    ensures argument { (result ≡ 4) ↔ (handle.old.held ≡ None) }
    ensures status { (result ≡ 0) ⊎ (result ≡ 1) ⊎ (result ≡ 4) }
{
    let Some(mut held) = take_out(alloc, handle) else {
        return ARGUMENT;
    };
    let set = held.set(alloc, key, value);
    put_back(handle, held);
    match set {
        Ok(()) => DONE,
        Err(_) => MEMORY,
    }
}

/// Takes a key out.
///
/// `DONE`; `ABSENT` where there is no such key; `MEMORY`; `ARGUMENT` where the handle has no side. But for `DONE`, all is as before.
#[unsafe(no_mangle)]
pub extern "C" fn mst_proved_sync_remove(alloc: Global, handle: &mut MstSync, key: &[u8]) -> u32
    ensures done { result ≡ 0 → Changes handle.old.held handle.new.held (IsPairDel key.now true) }
    ensures absent { result ≡ 5 → Changes handle.old.held handle.new.held (IsPairDel key.now false) }
    ensures unchanged { result ≢ 0 → handle.new.held ≡ handle.old.held }
    ensures argument { (result ≡ 4) ↔ (handle.old.held ≡ None) }
    ensures status { (result ≡ 0) ⊎ (result ≡ 1) ⊎ (result ≡ 4) ⊎ (result ≡ 5) }
{
    let Some(mut held) = take_out(alloc, handle) else {
        return ARGUMENT;
    };
    let status = match held.remove(alloc, key) {
        Ok(true) => DONE,
        Ok(false) => ABSENT,
        Err(_) => MEMORY,
    };
    put_back(handle, held);
    status
}

/// Writes the digest of the value at a key.
///
/// `DONE`; `ABSENT` where there is no such key; `MEMORY`; `ARGUMENT` where the handle has no side. But for `DONE`, `digest` is as before.
#[unsafe(no_mangle)]
pub extern "C" fn mst_proved_sync_find(
    alloc: Global,
    handle: &mut MstSync,
    key: &[u8],
    digest: &mut MstBytes16,
) -> u32
    ensures done { result ≡ 0 → Has handle.old.held (HasAt key.now (Some digest.new.bytes)) }
    ensures absent { result ≡ 5 → Has handle.old.held (HasAt key.now None) }
    ensures side { handle.new.held ≡ handle.old.held }
    ensures unchanged { result ≢ 0 → digest.new.bytes ≡ digest.old.bytes }
    ensures argument { (result ≡ 4) ↔ (handle.old.held ≡ None) }
    ensures status { (result ≡ 0) ⊎ (result ≡ 1) ⊎ (result ≡ 4) ⊎ (result ≡ 5) }
{
    let Some(held) = take_out(alloc, handle) else {
        return ARGUMENT;
    };
    let found = held.find(alloc, key);
    put_back(handle, held);
    match found {
        Ok(Some(bytes)) => {
            digest.bytes = bytes;
            DONE
        }
        Ok(None) => ABSENT,
        Err(_) => MEMORY,
    }
}

/// Writes how many keys there are, at most `usize::MAX`.
///
/// `DONE`; `MEMORY`; `ARGUMENT` where the handle has no side. Refused, `count` is as before.
#[unsafe(no_mangle)]
pub extern "C" fn mst_proved_sync_len(alloc: Global, handle: &mut MstSync, count: &mut usize) -> u32
    ensures done { result ≡ 0 → Has handle.old.held (HasKeys count.new) }
    ensures side { handle.new.held ≡ handle.old.held }
    ensures unchanged { result ≢ 0 → count.new ≡ count.old }
    ensures argument { (result ≡ 4) ↔ (handle.old.held ≡ None) }
    ensures status { (result ≡ 0) ⊎ (result ≡ 1) ⊎ (result ≡ 4) }
{
    let Some(held) = take_out(alloc, handle) else {
        return ARGUMENT;
    };
    let found = held.count();
    put_back(handle, held);
    match found {
        Ok(keys) => {
            *count = keys;
            DONE
        }
        Err(_) => MEMORY,
    }
}

/// Writes the root hash.
///
/// `DONE`; `ARGUMENT` where the handle has no side, and `digest` is as before.
#[unsafe(no_mangle)]
pub extern "C" fn mst_proved_sync_root_hash(
    alloc: Global,
    handle: &mut MstSync,
    digest: &mut MstBytes16,
) -> u32
    ensures digest { result ≡ 0 → Has handle.old.held (HasRootDigest digest.new.bytes) }
    ensures kept { result ≡ 0 → Changes handle.old.held handle.new.held OnlyHashes }
    ensures unchanged { result ≢ 0 → handle.new.held ≡ handle.old.held }
    ensures refused { result ≢ 0 → digest.new.bytes ≡ digest.old.bytes }
    ensures argument { (result ≡ 4) ↔ (handle.old.held ≡ None) }
    ensures status { (result ≡ 0) ⊎ (result ≡ 4) }
{
    let Some(mut held) = take_out(alloc, handle) else {
        return ARGUMENT;
    };
    digest.bytes = held.root_hash();
    put_back(handle, held);
    DONE
}
