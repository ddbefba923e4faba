//! Calls that make replicas and let them go, join values, and read what a replica has.
ghost use Rattle.std.specs.Prelude.{◌≡◌, ◌≢◌, ◌↔◌, ◌⊎◌, None, length};
ghost use Rattle.merkle_tree_theory.specs.declared.page_format.PageFormat.TheVariants.{V1, V2};
ghost use Rattle.c_replicas.specs.Calls.{HasRootDigest, HasRows, HasValue, IsFresh, IsPut, OnlyHashes};
ghost use Rattle.c_values.specs.Output.{IsOutput, IsShort};
ghost use Rattle.c_values.specs.Handles.{CanMake, CannotMake, Changes, Has};
ghost use Rattle.c_replicas.specs.Values.{value_at};

use crate::handle::{MstReplica, put_back, take_out};
use c_replicas::byte_replica::ByteReplica;
use c_values::status::{ABSENT, ARGUMENT, DONE, MEMORY};
use c_values::{MstBytes16, format_of, put_bytes, put_made};
use std::alloc::Global;
use std::num::NonZeroU8;

/// Gives a handle that has no replica the one without rows that has this key of SipHash, level base and page format.
///
/// `DONE`; `MEMORY`; `ARGUMENT` where the handle has a replica, the base is 0, or the format isn't 1 or 2. Refused, the handle is as before.
#[unsafe(no_mangle)]
pub extern "C" fn mst_proved_replica_new(
    alloc: Global,
    handle: &mut MstReplica,
    key: &MstBytes16,
    level_base: u8,
    page_format: u8,
) -> u32
    ensures v1 { result ≡ 0 → page_format ≡ 1 → Has handle.new.held (IsFresh key.now.bytes level_base V1) }
    ensures v2 { result ≡ 0 → page_format ≡ 2 → Has handle.new.held (IsFresh key.now.bytes level_base V2) }
    ensures right { result ≢ 4 → CanMake handle.old.held level_base page_format }
    ensures argument { result ≡ 4 → CannotMake handle.old.held level_base page_format }
    ensures unchanged { result ≢ 0 → handle.new.held ≡ handle.old.held }
    ensures status { (result ≡ 0) ⊎ (result ≡ 1) ⊎ (result ≡ 4) }
{
    let Some(base) = NonZeroU8::new(level_base) else {
        return ARGUMENT;
    };
    let Some(format) = format_of(page_format) else {
        return ARGUMENT;
    };
    if let Some(held) = take_out(alloc, handle) {
        put_back(handle, held);
        return ARGUMENT;
    }
    match Box::new(alloc, ByteReplica::new(alloc, &key.bytes, base, format)) {
        Ok(held) => {
            put_back(handle, held);
            DONE
        }
        Err(_) => MEMORY,
    }
}

/// Lets the replica of a handle go, with the catch-up and the message that it has, and leaves the handle without one.
#[unsafe(no_mangle)]
pub extern "C" fn mst_proved_replica_free(alloc: Global, handle: &mut MstReplica)
    ensures { handle.new.held ≡ None }
{
    drop(take_out(alloc, handle));
}

/// Joins a value at a key: the greater one of it and the one that is there stays.
///
/// `DONE`; `MEMORY`; `ARGUMENT` where the handle has no replica. Refused, all is as before.
#[unsafe(no_mangle)]
pub extern "C" fn mst_proved_replica_put(
    alloc: Global,
    handle: &mut MstReplica,
    key: &[u8],
    value: &[u8],
) -> u32
    ensures done { result ≡ 0 → Changes handle.old.held handle.new.held (IsPut key.now value.now) }
    ensures unchanged { result ≢ 0 → handle.new.held ≡ handle.old.held }
    ensures argument { (result ≡ 4) ↔ (handle.old.held ≡ None) }
    ensures status { (result ≡ 0) ⊎ (result ≡ 1) ⊎ (result ≡ 4) }
{
    let Some(mut held) = take_out(alloc, handle) else {
        return ARGUMENT;
    };
    let put = held.put(alloc, key, value);
    put_back(handle, held);
    match put {
        Ok(()) => DONE,
        Err(_) => MEMORY,
    }
}

/// Writes the value at a key to `out`, and how many bytes it has to `needed`.
///
/// `DONE`; `ABSENT` where there is no such key; `SHORT` where `out` is too short, and `needed` is written and `out` as before; `MEMORY`;
/// `ARGUMENT` where the handle has no replica. But for `DONE`, `out` is as before, and but for `DONE` and `SHORT`, `needed`.
#[unsafe(no_mangle)]
pub extern "C" fn mst_proved_replica_get(
    alloc: Global,
    handle: &mut MstReplica,
    key: &[u8],
    out: &mut [u8],
    needed: &mut usize,
) -> u32
    ensures done { result ≡ 0 → Has handle.old.held (HasValue key.now (IsOutput out.old out.new needed.new)) }
    ensures short { result ≡ 3 → Has handle.old.held (HasValue key.now (IsShort out.old needed.new)) }
    ensures absent { result ≡ 5 → Has handle.old.held (λ h. value_at h.replica key.now ≡ None) }
    ensures replica { handle.new.held ≡ handle.old.held }
    ensures unchanged { result ≢ 0 → out.new ≡ out.old }
    ensures refused { result ≢ 0 → result ≢ 3 → needed.new ≡ needed.old }
    ensures argument { (result ≡ 4) ↔ (handle.old.held ≡ None) }
    ensures status { (result ≡ 0) ⊎ (result ≡ 1) ⊎ (result ≡ 3) ⊎ (result ≡ 4) ⊎ (result ≡ 5) }
{
    let Some(held) = take_out(alloc, handle) else {
        return ARGUMENT;
    };
    let status = match held.get(alloc, key) {
        Ok(Some(value)) => put_bytes(value, out, needed),
        Ok(None) => ABSENT,
        Err(_) => MEMORY,
    };
    put_back(handle, held);
    status
}

/// Writes how many rows there are.
///
/// `DONE`; `ARGUMENT` where the handle has no replica, and `count` is as before.
#[unsafe(no_mangle)]
pub extern "C" fn mst_proved_replica_len(
    alloc: Global,
    handle: &mut MstReplica,
    count: &mut usize,
) -> u32
    ensures done { result ≡ 0 → Has handle.old.held (λ h. count.new ≡ length h.replica.rows) }
    ensures replica { handle.new.held ≡ handle.old.held }
    ensures unchanged { result ≢ 0 → count.new ≡ count.old }
    ensures argument { (result ≡ 4) ↔ (handle.old.held ≡ None) }
    ensures status { (result ≡ 0) ⊎ (result ≡ 4) }
{
    let Some(held) = take_out(alloc, handle) else {
        return ARGUMENT;
    };
    *count = held.count();
    put_back(handle, held);
    DONE
}

/// Writes the root hash.
///
/// `DONE`; `ARGUMENT` where the handle has no replica, and `digest` is as before.
#[unsafe(no_mangle)]
pub extern "C" fn mst_proved_replica_root_hash(
    alloc: Global,
    handle: &mut MstReplica,
    digest: &mut MstBytes16,
) -> u32
    ensures digest { result ≡ 0 → Has handle.old.held (HasRootDigest digest.new.bytes) }
    ensures kept { result ≡ 0 → Changes handle.old.held handle.new.held OnlyHashes }
    ensures unchanged { result ≢ 0 → handle.new.held ≡ handle.old.held }
    ensures refused { result ≢ 0 → digest.new.bytes ≡ digest.old.bytes }
    ensures argument { (result ≡ 4) ↔ (handle.old.held ≡ None) }
    ensures status { (result ≡ 0) ⊎ (result ≡ 4) }
{
    let Some(mut held) = take_out(alloc, handle) else {
        return ARGUMENT;
    };
    digest.bytes = held.root_hash();
    put_back(handle, held);
    DONE
}

/// Writes the rows to `out`, as a list of rows in the order of their keys, and how many bytes that is to `needed`.
///
/// `DONE`; `SHORT` where `out` is too short, and `needed` is written and `out` as before; `MEMORY`; `ARGUMENT` where the handle has no
/// replica. But for `DONE`, `out` is as before, and but for `DONE` and `SHORT`, `needed`.
#[unsafe(no_mangle)]
pub extern "C" fn mst_proved_replica_rows(
    alloc: Global,
    handle: &mut MstReplica,
    out: &mut [u8],
    needed: &mut usize,
) -> u32
    ensures done { result ≡ 0 → Has handle.old.held (HasRows (IsOutput out.old out.new needed.new)) }
    ensures short { result ≡ 3 → Has handle.old.held (HasRows (IsShort out.old needed.new)) }
    ensures replica { handle.new.held ≡ handle.old.held }
    ensures unchanged { result ≢ 0 → out.new ≡ out.old }
    ensures refused { result ≢ 0 → result ≢ 3 → needed.new ≡ needed.old }
    ensures argument { (result ≡ 4) ↔ (handle.old.held ≡ None) }
    ensures status { (result ≡ 0) ⊎ (result ≡ 1) ⊎ (result ≡ 3) ⊎ (result ≡ 4) }
{
    let Some(held) = take_out(alloc, handle) else {
        return ARGUMENT;
    };
    let status = put_made(held.rows(alloc), out, needed);
    put_back(handle, held);
    status
}
