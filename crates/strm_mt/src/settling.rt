//! Settling a pair, and beginning its journal anew.

ghost use Rattle.std.specs.Prelude.{◌≡◌};
ghost use Rattle.strm_ends.specs.Outcomes.{AtMember};
ghost use Rattle.strm_ends.specs.Settling.{Restarts, Settles};

use std::alloc::Global;
use strm_ends::{Account, Handle};

/// Settles the pair of the end in hand, which has all parts and the minor: what it was told is told, with both ledgers. The pair is as new, and its
/// minor in hand.
#[unsafe(no_mangle)]
pub extern "C" fn strm_mt_settle(alloc: Global, handle: &mut Handle, told: &mut Account) -> u32
    ensures { AtMember (told.new ≡ told.old) (Settles told.old told.new) handle.old.held.kept handle.new.held.kept result }
{
    strm_ends::settle(alloc, handle, told)
}

/// Begins the journal of the pair of the end in hand anew, in place. No memory is taken.
#[unsafe(no_mangle)]
pub extern "C" fn strm_mt_restart(alloc: Global, handle: &mut Handle) -> u32
    ensures { AtMember (Unit {0}) Restarts handle.old.held.kept handle.new.held.kept result }
{
    strm_ends::restart(alloc, handle)
}
