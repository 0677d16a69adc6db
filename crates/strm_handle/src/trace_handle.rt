//! The handle of a trace.

ghost use Rattle.std.specs.Prelude.{◌≡◌, None, Some, false, is_some, option_map};

use crate::handle::sent;
use crate::held_trace::HeldTrace;
use crate::parts::Parts;
use crate::stored::Stored;
use std::alloc::Global;
use strm_image::Trace;
use strm_types::NoMemory;

/// What a cut handed out as a C program holds it, in place: it never looks behind the pointer, and all zeros is a closed one.
#[repr(C)]
#[derive(Drop)]
pub struct TraceHandle {
    pub held: HeldTrace,
    pub is_open: bool,
    pub ghost told: { is_some held.kept ≡ is_open },
}

// A handle without a trace.
fn closed(alloc: Global) -> TraceHandle
    ensures { result.held.kept ≡ None }
{
    // (the borrow checker wants the type of the pointer among the caller's own)
    let nowhere: *mut u8 = std::ptr::null_mut();
    TraceHandle {
        held: HeldTrace::closed(alloc, nowhere),
        is_open: false,
    }
}

impl TraceHandle {
    /// Whether a trace is there.
    pub fn is_open(&self) -> bool
        ensures { result ≡ is_some self.now.held.kept }
    {
        self.is_open
    }

    /// Puts a trace into a handle.
    pub(crate) fn put(&mut self, stored: Box<Stored, Global>)
        ensures { self.new.held.kept ≡ Some stored.value }
    {
        *self = sent(TraceHandle {
            held: HeldTrace::of_parts(Parts::of(stored)),
            is_open: true,
        });
    }

    /// Takes the trace out of a handle, which is closed then.
    #[tactic(auto, using(crate::proofs::Opens::closes, crate::proofs::Opens::opens))]
    pub(crate) fn take(&mut self, alloc: Global) -> Option<Box<Stored, Global>>
        ensures taken { option_map (λ stored. stored.value) result ≡ self.old.held.kept }
        ensures closed { self.new.held.kept ≡ None }
    {
        // As with a pair's, nothing is written to a closed one.
        if !self.is_open {
            return None;
        }
        let TraceHandle { held, .. } = std::mem::replace(self, closed(alloc));
        Some(held.into_parts().into_box())
    }
}

/// Memory for a trace. It is taken before a cut, so that want of memory changes nothing.
#[derive(Drop)]
pub struct TraceRoom {
    room: Box<Stored, Global>,
}

impl TraceRoom {
    /// Takes the memory of a handle's trace.
    pub fn new(alloc: Global) -> Result<TraceRoom, NoMemory> {
        let trace = Trace {
            base: Vec::new(alloc),
            entries: Vec::new(alloc),
            bytes: Vec::new(alloc),
        };
        match Box::new(alloc, Stored { trace }) {
            Ok(room) => Ok(TraceRoom { room }),
            Err(_) => Err(NoMemory),
        }
    }

    /// Puts a trace into a closed handle. No memory is taken.
    pub fn put(self, trace: Trace, handle: &mut TraceHandle)
        requires closed { is_some handle.old.held.kept ≡ false }
        ensures { handle.new.held.kept ≡ Some trace }
    {
        let TraceRoom { mut room } = self;
        *room = Stored { trace };
        handle.put(room);
    }
}
