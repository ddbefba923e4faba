//! What a call for C holds behind a pointer.
ghost use Rattle.std.specs.Prelude.{◌≡◌, None, Some, Option};
ghost use Rattle.std.specs.Coded.{coded_option};
ghost use Rattle.std.specs.Option.{option_map};
ghost use Rattle.c_values.specs.Owned.{handle_owns};

use std::alloc::Global;
use std::marker::Model;
use std::ptr::null_mut;

/// The address of a value on the heap, or null, where there is none.
pub struct Handle<T> {
    pub ptr: *mut T,
    pub alloc: Global,
    pub ghost held: { Option T } by { coded_option T.code },
}

impl<T> Model for Handle<T> {
    ghost also_owns = { λ h. handle_owns T.row h.alloc h.ptr h.held };
}

impl<T> Handle<T> {
    /// The handle of nothing.
    pub fn empty(alloc: Global) -> Handle<T>
        ensures { result.held ≡ None }
    {
        Handle {
            ptr: null_mut(),
            alloc,
        }
    }

    /// The handle of what a box has.
    pub fn of_box(whole: Box<T>) -> Handle<T>
    where
        T: Drop,
        ensures { result.held ≡ Some whole.value }
    {
        let (ptr, alloc) = Box::into_raw_with_allocator(whole);
        Handle { ptr, alloc }
    }

    /// The box of what the handle has, where it has something.
    pub fn into_box(self) -> Option<Box<T>>
        ensures { option_map (λ whole. whole.value) result ≡ self.held }
    {
        let Handle { ptr, alloc } = self;
        if ptr.is_null() {
            None
        } else {
            Some(unsafe { Box::from_raw(alloc, ptr) })
        }
    }
}
