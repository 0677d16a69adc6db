//! The handle of a C program.

ghost use Rattle.std.specs.Prelude.{◌≡◌, None, Some, is_some, option_map};
ghost use Rattle.strm_ends.specs.Outcomes.{made_where};

use crate::held::Held;
use crate::member::Member;
use crate::numbers::Outcome;
use crate::parts::Parts;
use std::alloc::Global;
use std::marker::Send;

/// A member as a C program holds it, in place: it never looks behind the pointer, and all zeros is a closed one.
#[repr(C)]
#[derive(Drop)]
pub struct Handle {
    pub held: Held,
    pub is_open: bool,
    pub ghost told: { is_some held.kept ≡ is_open },
}

// A handle may go from thread to thread, with what it holds.
fn sent<T: Send>(value: T) -> T
    ensures { result ≡ value }
{
    value
}

impl Handle {
    /// Whether a member is there.
    pub(crate) fn is_open(&self) -> bool
        ensures { result ≡ is_some self.now.held.kept }
    {
        self.is_open
    }

    /// Puts a member into a handle.
    pub(crate) fn put(&mut self, member: Box<Member, Global>)
        ensures { self.new.held.kept ≡ Some member.value }
    {
        *self = sent(Handle {
            held: Held::of_parts(Parts::of(member)),
            is_open: true,
        });
    }

    /// Puts a second member into a closed handle, where the step that made it is done, and drops it else.
    pub(crate) fn put_made(&mut self, second: Box<Member, Global>, outcome: &Outcome)
        requires { self.old.held.kept ≡ None }
        ensures { self.new.held.kept ≡ made_where outcome.now second.value }
    {
        match outcome {
            Ok(()) => self.put(second),
            Err(_) => drop(second),
        }
    }

    /// Takes the member out of a handle, which is closed then.
    #[tactic(auto, using(crate::proofs::Opens::closes, crate::proofs::Opens::opens))]
    pub(crate) fn take(&mut self, alloc: Global) -> Option<Box<Member, Global>>
        ensures taken { option_map (λ member. member.value) result ≡ self.old.held.kept }
        ensures closed { self.new.held.kept ≡ None }
    {
        // Nothing is written to a closed one: a signal handler may call while `put` writes to it.
        if !self.is_open {
            return None;
        }
        let nowhere: *mut u8 = std::ptr::null_mut();
        let closed = Handle {
            held: Held::closed(alloc, nowhere),
            is_open: false,
        };
        let Handle { held, .. } = std::mem::replace(self, closed);
        Some(held.into_parts().into_box())
    }
}
