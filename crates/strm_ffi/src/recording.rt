//! The journal of a pair, entry by entry, and its beginning anew.

ghost use Rattle.std.specs.Prelude.{◌≡◌};
ghost use Rattle.strm_handle.specs.Entries.{NextEntry, taking};
ghost use Rattle.strm_handle.specs.Outcomes.{Restarts};

use std::alloc::Global;
use strm_handle::{Cursor, Entered, Handle};

/// Takes the entry at a cursor, which moves behind it. `out` has room for the bytes of its call and those of its answer.
#[unsafe(no_mangle)]
pub extern "C" fn strm_next_entry(
    alloc: Global,
    handle: &mut Handle,
    at: &mut Cursor,
    told: &mut Entered,
    out: &mut [u8],
) -> u32
    ensures stays { handle.new.held.kept ≡ handle.old.held.kept }
    ensures taken { NextEntry handle.old.held.kept (taking at.old told.old out.old) (taking at.new told.new out.new) result }
{
    strm_handle::next_entry(alloc, handle, at, told, out)
}

/// Begins the journal of a pair anew, in place. No memory is taken.
#[unsafe(no_mangle)]
pub extern "C" fn strm_restart(alloc: Global, handle: &mut Handle) -> u32
    ensures { Restarts handle.old.held.kept handle.new.held.kept result }
{
    strm_handle::restart(alloc, handle)
}
