//! A replica behind a pointer, as C holds it.
ghost use Rattle.std.specs.Coded.{coded_option};
ghost use Rattle.std.specs.Option.{option_map};
ghost use Rattle.std.specs.Prelude.{◌≡◌, None, Some, Option};
ghost use Rattle.c_values.specs.Owned.{handle_owns};
ghost use Rattle.c_replicas.specs.contracts.byte_replica.ByteReplica.{the_row};
ghost use Rattle.c_replicas.specs.declared.byte_replica.ByteReplica.{ByteReplica as Held};

use c_replicas::byte_replica::ByteReplica;
use c_values::Handle;
use core::mem;
use std::alloc::Global;
use std::marker::Model;

/// A handle: the address of a replica, or null, where it has none.
#[repr(C)]
pub struct MstReplica {
    ptr: *mut u8,
    alloc: Global,
    pub ghost held: { Option Held } by { coded_option the_row.coded },
}

impl Model for MstReplica {
    ghost also_owns = { λ h. handle_owns the_row h.alloc h.ptr h.held };
}

impl MstReplica {
    fn of_handle(handle: Handle<ByteReplica>) -> MstReplica
        ensures { result.held ≡ handle.held }
    {
        let Handle { ptr, alloc } = handle;
        MstReplica {
            ptr: ptr as *mut u8,
            alloc,
        }
    }

    fn into_handle(self) -> Handle<ByteReplica>
        ensures { result.held ≡ self.held }
    {
        let MstReplica { ptr, alloc } = self;
        Handle {
            ptr: ptr as *mut ByteReplica,
            alloc,
        }
    }
}

/// Takes the replica out of a handle, which has none then.
pub fn take_out(alloc: Global, handle: &mut MstReplica) -> Option<Box<ByteReplica>>
    ensures taken { option_map (λ held. held.value) result ≡ handle.old.held }
    ensures empty { handle.new.held ≡ None }
{
    let before = mem::replace(handle, MstReplica::of_handle(Handle::empty(alloc)));
    before.into_handle().into_box()
}

/// Puts a replica into a handle. One that it has is let go.
pub fn put_back(handle: &mut MstReplica, held: Box<ByteReplica>)
    ensures { handle.new.held ≡ Some held.value }
{
    let before = mem::replace(handle, MstReplica::of_handle(Handle::of_box(held)));
    drop(before.into_handle().into_box());
}
