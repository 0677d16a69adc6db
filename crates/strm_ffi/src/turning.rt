//! Turns of a C program.

ghost use Rattle.std.specs.Prelude.{◌≡◌};
ghost use Rattle.strm_handle.specs.Outcomes.{CallsAtHandle, Runs, turn_refused, Turns};

use std::alloc::Global;
use strm_handle::{Handle, Went};

/// Makes a turn of an enabled queue's service procedure.
#[unsafe(no_mangle)]
pub extern "C" fn strm_turn(alloc: Global, handle: &mut Handle, queue: u32, went: &mut Went) -> u32
    ensures { CallsAtHandle (turn_refused queue) (went.new ≡ went.old) (Turns queue went.new) handle.old.held.kept handle.new.held.kept result }
{
    strm_handle::turn(alloc, handle, queue, went)
}

/// Makes turns of the queue that was enabled first, until none is enabled or the next one is refused, and tells how many were made.
#[unsafe(no_mangle)]
pub extern "C" fn strm_runqueues(alloc: Global, handle: &mut Handle, turns: &mut usize) -> u32
    ensures { Runs turns.old turns.new handle.old.held.kept handle.new.held.kept result }
{
    strm_handle::runqueues(alloc, handle, turns)
}
