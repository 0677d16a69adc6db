//! The handle of a C program.

ghost use Rattle.std.specs.Prelude.{◌≡◌, None, Some, is_some, option_map};

use crate::held::Held;
use crate::kept::Kept;
use crate::parts::Parts;
use std::alloc::Global;
use std::marker::Send;

/// A pair as a C program holds it, in place: it never looks behind the pointer, and all zeros is a closed one.
#[repr(C)]
#[derive(Drop)]
pub struct Handle {
    pub held: Held,
    pub is_open: bool,
    pub ghost told: { is_some held.kept ≡ is_open },
}

/// A handle may go from thread to thread, with what it holds.
pub(crate) fn sent<T: Send>(value: T) -> T
    ensures { result ≡ value }
{
    value
}

impl Handle {
    /// Whether a pair is there.
    pub(crate) fn is_open(&self) -> bool
        ensures { result ≡ is_some self.now.held.kept }
    {
        self.is_open
    }

    /// Puts a pair into a handle.
    pub(crate) fn put(&mut self, kept: Box<Kept, Global>)
        ensures { self.new.held.kept ≡ Some kept.value }
    {
        *self = sent(Handle {
            held: Held::of_parts(Parts::of(kept)),
            is_open: true,
        });
    }

    /// Takes the pair out of a handle, which is closed then.
    #[tactic(auto, using(crate::proofs::Opens::closes, crate::proofs::Opens::opens))]
    pub(crate) fn take(&mut self, alloc: Global) -> Option<Box<Kept, Global>>
        ensures taken { option_map (λ kept. kept.value) result ≡ self.old.held.kept }
        ensures closed { self.new.held.kept ≡ None }
    {
        // Nothing is written to a closed one: a signal handler may call while `put` writes to it.
        if !self.is_open {
            return None;
        }
        let closed = Handle {
            held: Held::closed(alloc, std::ptr::null_mut()),
            is_open: false,
        };
        let Handle { held, .. } = std::mem::replace(self, closed);
        Some(held.into_parts().into_box())
    }
}
