//! Cutting the pair of an end: its trace goes behind a handle of its own.

ghost use Rattle.std.specs.Prelude.{◌≡◌, None};
ghost use Rattle.strm_ends.specs.Cutting.{CutsBy, CutsEnd, WithTrace};
ghost use Rattle.strm_ends.specs.Members.{HasEnd};

use crate::handle::Handle;
use crate::hold::Hold;
use crate::numbers::{NotDone, Outcome, not_done, number};
use crate::seats::Seat;
use std::alloc::Global;
use strm_handle::{TraceHandle, TraceRoom, refused};
use strm_locks::{Cut, NoBell, Object, PairEnd};
use strm_types::{NoMemory, Refusal};

impl<P: Object> Seat<P> {
    // Cuts the pair of an end. The memory of the handle's trace is taken before its lock.
    fn cut_by(
        &self,
        alloc: Global,
        system: u32,
        end: &PairEnd<P>,
        trace: &mut TraceHandle,
    ) -> Outcome
        requires end { HasEnd self.now.host self.now.opener system end.now }
        requires closed { trace.old.held.kept ≡ None }
        ensures { CutsBy self.now end.now trace.new.held.kept result self.now }
    {
        let Ok(room) = TraceRoom::new(alloc) else {
            return not_done(Refusal::NoMemory);
        };
        let Ok(cut) = self.host.at(system).try_cut(&NoBell, alloc, end) else {
            drop(room);
            return Err(NotDone::Busy);
        };
        let Cut {
            visit,
            trace: given,
        } = cut;
        drop(visit);
        match given {
            Ok(made) => {
                room.put(made, trace);
                Ok(())
            }
            Err(NoMemory) => {
                drop(room);
                not_done(Refusal::NoMemory)
            }
        }
    }

    // Cuts the pair of the end in hand.
    fn cut(&self, alloc: Global, trace: &mut TraceHandle) -> Outcome
        requires { trace.old.held.kept ≡ None }
        ensures { CutsEnd self.now trace.new.held.kept result self.now }
    {
        match &self.hold {
            Hold::End { system, end } => self.cut_by(alloc, *system, end, trace),
            _ => not_done(Refusal::Einval),
        }
    }
}

/// Cuts the pair of the end in hand: the base at which its journal begins and all that was entered since go behind the closed handle of a trace, and
/// its journal begins anew. The member and what its end was told stay. All memory is asked for before that; where it is refused, the pair stays.
pub fn cut(alloc: Global, handle: &mut Handle, trace: &mut TraceHandle) -> u32
    ensures { WithTrace handle.old.held.kept handle.new.held.kept trace.old.held.kept trace.new.held.kept result }
{
    if trace.is_open() {
        return refused(Refusal::Einval);
    }
    let Some(member) = handle.take(alloc) else {
        return refused(Refusal::Einval);
    };
    let outcome = member.as_ref().seat.cut(alloc, trace);
    handle.put(member);
    number(outcome)
}
