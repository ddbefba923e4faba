//! A side of a sync behind a pointer, as C holds it.
ghost use Rattle.std.specs.Coded.{coded_option};
ghost use Rattle.std.specs.Option.{option_map};
ghost use Rattle.std.specs.Prelude.{◌≡◌, None, Some, Option};
ghost use Rattle.c_values.specs.Owned.{handle_owns};
ghost use Rattle.c_sides.specs.contracts.byte_sync.ByteSync.{the_row};
ghost use Rattle.c_sides.specs.declared.byte_sync.ByteSync.{ByteSync as Held};

use c_sides::byte_sync::ByteSync;
use c_values::Handle;
use core::mem;
use std::alloc::Global;
use std::marker::Model;

/// A handle: the address of a side, or null, where it has none.
#[repr(C)]
pub struct MstSync {
    ptr: *mut u8,
    alloc: Global,
    pub ghost held: { Option Held } by { coded_option the_row.coded },
}

impl Model for MstSync {
    ghost also_owns = { λ h. handle_owns the_row h.alloc h.ptr h.held };
}

impl MstSync {
    fn of_handle(handle: Handle<ByteSync>) -> MstSync
        ensures { result.held ≡ handle.held }
    {
        let Handle { ptr, alloc } = handle;
        MstSync {
            ptr: ptr as *mut u8,
            alloc,
        }
    }

    fn into_handle(self) -> Handle<ByteSync>
        ensures { result.held ≡ self.held }
    {
        let MstSync { ptr, alloc } = self;
        Handle {
            ptr: ptr as *mut ByteSync,
            alloc,
        }
    }
}

/// Takes the side out of a handle, which has none then.
pub fn take_out(alloc: Global, handle: &mut MstSync) -> Option<Box<ByteSync>>
    ensures taken { option_map (λ held. held.value) result ≡ handle.old.held }
    ensures empty { handle.new.held ≡ None }
{
    let before = mem::replace(handle, MstSync::of_handle(Handle::empty(alloc)));
    before.into_handle().into_box()
}

/// Puts a side into a handle. One that it has is let go.
pub fn put_back(handle: &mut MstSync, held: Box<ByteSync>)
    ensures { handle.new.held ≡ Some held.value }
{
    let before = mem::replace(handle, MstSync::of_handle(Handle::of_box(held)));
    drop(before.into_handle().into_box());
}
