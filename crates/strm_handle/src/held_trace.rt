//! A trace behind a pointer.

ghost use Rattle.std.specs.Prelude.{◌≡◌, None, Some};
ghost use Rattle.strm_handle.specs.Held.{IsOpen, TraceValue, trace_coded, trace_owns};

use crate::parts::Parts;
use crate::stored::Stored;
use std::alloc::Global;
use std::marker::{Model, Send};

/// A trace behind a pointer, or none, whatever the pointer says.
#[repr(C)]
#[derive(Drop)]
pub struct HeldTrace {
    ptr: *mut u8,
    alloc: Global,
    pub ghost kept: { TraceValue } by { trace_coded },
}

impl Model for HeldTrace {
    ghost also_owns = { λ h. trace_owns h.alloc h.ptr h.kept };
}

// What is held may go to another thread, as a box of it may.
unsafe impl Send for HeldTrace {}

impl HeldTrace {
    pub(crate) fn of_parts(parts: Parts<Stored, Global>) -> HeldTrace
        ensures { result.kept ≡ Some parts.value }
    {
        let Parts { ptr, alloc } = parts;
        HeldTrace {
            ptr: ptr as *mut u8,
            alloc,
        }
    }

    pub(crate) fn into_parts(self) -> Parts<Stored, Global>
        requires { IsOpen self.kept }
        ensures { self.kept ≡ Some result.value }
    {
        let HeldTrace { ptr, alloc } = self;
        Parts {
            ptr: ptr as *mut Stored,
            alloc,
        }
    }

    /// None, with any pointer.
    pub(crate) fn closed(alloc: Global, ptr: *mut u8) -> HeldTrace
        ensures { result.kept ≡ None }
    {
        HeldTrace { ptr, alloc }
    }
}
