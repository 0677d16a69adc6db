//! A member behind a pointer.

ghost use Rattle.std.specs.Prelude.{◌≡◌, None, Some};
ghost use Rattle.strm_ends.specs.Held.{held_owns, kept_coded, KeptValue, IsOpen};

use crate::member::Member;
use crate::parts::Parts;
use std::alloc::Global;
use std::marker::{Model, Send};

/// A member behind a pointer, or none, whatever the pointer says.
#[repr(C)]
#[derive(Drop)]
pub struct Held {
    ptr: *mut u8,
    alloc: Global,
    pub ghost kept: { KeptValue } by { kept_coded },
}

impl Model for Held {
    ghost also_owns = { λ h. held_owns h.alloc h.ptr h.kept };
}

// What is held may go to another thread, as a box of it may.
unsafe impl Send for Held {}

impl Held {
    pub(crate) fn of_parts(parts: Parts<Member, Global>) -> Held
        ensures { result.kept ≡ Some parts.value }
    {
        let Parts { ptr, alloc } = parts;
        Held {
            ptr: ptr as *mut u8,
            alloc,
        }
    }

    pub(crate) fn into_parts(self) -> Parts<Member, Global>
        requires { IsOpen self.kept }
        ensures { self.kept ≡ Some result.value }
    {
        let Held { ptr, alloc } = self;
        Parts {
            ptr: ptr as *mut Member,
            alloc,
        }
    }

    /// None, with any pointer.
    pub(crate) fn closed(alloc: Global, ptr: *mut u8) -> Held
        ensures { result.kept ≡ None }
    {
        Held { ptr, alloc }
    }
}
