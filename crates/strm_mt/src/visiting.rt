//! Visits to any pair of the host: turns, looks and audits.

ghost use Rattle.std.specs.Prelude.{◌≡◌};
ghost use Rattle.strm_ends.specs.Outcomes.{AtMember};
ghost use Rattle.strm_ends.specs.Visiting.{Audits, Looks, TurnsFirst};

use std::alloc::Global;
use strm_ends::{Account, Handle, Prospect, Visit};

/// Makes the turn of the queue of a pair that was enabled first, if one is, and tells it.
#[unsafe(no_mangle)]
pub extern "C" fn strm_mt_turn(
    alloc: Global,
    handle: &mut Handle,
    pair: u32,
    told: &mut Visit,
) -> u32
    ensures { AtMember (told.new ≡ told.old) (TurnsFirst pair told.old told.new) handle.old.held.kept handle.new.held.kept result }
{
    strm_ends::turn(alloc, handle, pair, told)
}

/// What a side of a pair is ready for, and which of its queues is enabled first. No call is made.
#[unsafe(no_mangle)]
pub extern "C" fn strm_mt_ready(
    alloc: Global,
    handle: &mut Handle,
    pair: u32,
    side: u32,
    told: &mut Prospect,
) -> u32
    ensures { AtMember (told.new ≡ told.old) (Looks pair side told.old told.new) handle.old.held.kept handle.new.held.kept result }
{
    strm_ends::ready(alloc, handle, pair, side, told)
}

/// What was told of a pair in all so far, and its ledgers.
#[unsafe(no_mangle)]
pub extern "C" fn strm_mt_audit(
    alloc: Global,
    handle: &mut Handle,
    pair: u32,
    told: &mut Account,
) -> u32
    ensures { AtMember (told.new ≡ told.old) (Audits pair told.old told.new) handle.old.held.kept handle.new.held.kept result }
{
    strm_ends::audit(alloc, handle, pair, told)
}
