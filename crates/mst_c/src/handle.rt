//! A tree behind a pointer, as C holds it.
ghost use Rattle.std.specs.Coded.{coded_option};
ghost use Rattle.std.specs.Option.{option_map};
ghost use Rattle.std.specs.Prelude.{◌≡◌, None, Some, Option};
ghost use Rattle.c_values.specs.Owned.{handle_owns};
ghost use Rattle.c_trees.specs.contracts.byte_tree.ByteTree.{the_row};
ghost use Rattle.c_trees.specs.declared.byte_tree.ByteTree.{ByteTree as Held};

use c_trees::byte_tree::ByteTree;
use c_values::Handle;
use core::mem;
use std::alloc::Global;
use std::marker::Model;

/// A handle: the address of a tree, or null, where it has none.
#[repr(C)]
pub struct MstTree {
    ptr: *mut u8,
    alloc: Global,
    pub ghost tree: { Option Held } by { coded_option the_row.coded },
}

impl Model for MstTree {
    ghost also_owns = { λ h. handle_owns the_row h.alloc h.ptr h.tree };
}

/// What a handle owns may be used and given back on any thread.
unsafe impl Send for MstTree {}

impl MstTree {
    fn of_handle(handle: Handle<ByteTree>) -> MstTree
        ensures { result.tree ≡ handle.held }
    {
        let Handle { ptr, alloc } = handle;
        MstTree {
            ptr: ptr as *mut u8,
            alloc,
        }
    }

    fn into_handle(self) -> Handle<ByteTree>
        ensures { result.held ≡ self.tree }
    {
        let MstTree { ptr, alloc } = self;
        Handle {
            ptr: ptr as *mut ByteTree,
            alloc,
        }
    }
}

/// Takes the tree out of a handle, which has none then.
pub fn take_out(alloc: Global, handle: &mut MstTree) -> Option<Box<ByteTree>>
    ensures taken { option_map (λ tree. tree.value) result ≡ handle.old.tree }
    ensures empty { handle.new.tree ≡ None }
{
    let before = mem::replace(handle, MstTree::of_handle(Handle::empty(alloc)));
    before.into_handle().into_box()
}

/// Puts a tree into a handle. One that it has is let go.
pub fn put_back(handle: &mut MstTree, tree: Box<ByteTree>)
    ensures { handle.new.tree ≡ Some tree.value }
{
    let before = mem::replace(handle, MstTree::of_handle(Handle::of_box(tree)));
    drop(before.into_handle().into_box());
}
