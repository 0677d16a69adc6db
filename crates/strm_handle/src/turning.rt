//! Turns of a C program.

ghost use Rattle.std.specs.Prelude.{◌≡◌};
ghost use Rattle.strm_handle.specs.Outcomes.{CallsAtHandle, Runs, turn_refused, Turns};

use crate::handle::Handle;
use crate::kept::refused;
use crate::replies::Went;
use std::alloc::Global;
use strm_types::Refusal;

/// Makes a turn of an enabled queue's service procedure.
pub fn turn(alloc: Global, handle: &mut Handle, queue: u32, went: &mut Went) -> u32
    ensures { CallsAtHandle (turn_refused queue) (went.new ≡ went.old) (Turns queue went.new) handle.old.held.kept handle.new.held.kept result }
{
    let Some(mut kept) = handle.take(alloc) else {
        return refused(Refusal::Einval);
    };
    let told = kept.as_mut().turn(queue, went);
    handle.put(kept);
    told
}

/// Makes turns of the queue that was enabled first, until none is enabled or the next one is refused, and tells how many were made.
pub fn runqueues(alloc: Global, handle: &mut Handle, turns: &mut usize) -> u32
    ensures { Runs turns.old turns.new handle.old.held.kept handle.new.held.kept result }
{
    let Some(mut kept) = handle.take(alloc) else {
        return refused(Refusal::Einval);
    };
    let told = kept.as_mut().runqueues(turns);
    handle.put(kept);
    told
}
