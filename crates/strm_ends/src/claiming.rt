//! Minors: what a member claims, and gives back.

ghost use Rattle.std.specs.Prelude.{◌≡◌};
ghost use Rattle.strm_ends.specs.Claiming.{ClaimsMinor, ReleasesMinor};
ghost use Rattle.strm_ends.specs.Outcomes.{AtMember};

use crate::handle::Handle;
use crate::hold::Hold;
use crate::numbers::{Outcome, not_done, number, pair_number};
use crate::seats::Seat;
use std::alloc::Global;
use std::mem::replace;
use strm_handle::refused;
use strm_locks::Object;
use strm_system::HostMinor;
use strm_types::Refusal;

impl<P: Object> Seat<P> {
    // Claims a minor, as nothing is in hand.
    fn claim(&mut self, pair: &mut u32) -> Outcome
        ensures { ClaimsMinor pair.old pair.new self.old result self.new }
    {
        let Some(opener) = &mut self.opener else {
            return not_done(Refusal::Einval);
        };
        let Hold::Nothing = self.hold else {
            return not_done(Refusal::Einval);
        };
        match self.host.claim(opener) {
            Ok(minor) => {
                *pair = pair_number(minor.system, minor.minor.number());
                self.hold = Hold::Minor(minor);
                Ok(())
            }
            Err(_) => not_done(Refusal::NoMinor),
        }
    }

    // Gives back the minor that is in hand.
    fn release(&mut self) -> Outcome
        ensures { ReleasesMinor self.old result self.new }
    {
        let Some(opener) = &mut self.opener else {
            return not_done(Refusal::Einval);
        };
        match replace(&mut self.hold, Hold::Nothing) {
            Hold::Minor(minor) => {
                self.host.release(opener, minor);
                Ok(())
            }
            other => {
                self.hold = other;
                not_done(Refusal::Einval)
            }
        }
    }
}

/// Claims the first minor of the host that it finds free: it is in hand then, and `pair` the number of its pair.
pub fn claim(alloc: Global, handle: &mut Handle, pair: &mut u32) -> u32
    ensures { AtMember (pair.new ≡ pair.old) (ClaimsMinor pair.old pair.new) handle.old.held.kept handle.new.held.kept result }
{
    let Some(mut member) = handle.take(alloc) else {
        return refused(Refusal::Einval);
    };
    let outcome = member.as_mut().seat.claim(pair);
    handle.put(member);
    number(outcome)
}

/// Gives back the minor that is in hand.
pub fn release(alloc: Global, handle: &mut Handle) -> u32
    ensures { AtMember (Unit {0}) ReleasesMinor handle.old.held.kept handle.new.held.kept result }
{
    let Some(mut member) = handle.take(alloc) else {
        return refused(Refusal::Einval);
    };
    let outcome = member.as_mut().seat.release();
    handle.put(member);
    number(outcome)
}
