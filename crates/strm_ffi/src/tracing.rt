//! Cutting a pair, and what its trace tells.

ghost use Rattle.std.specs.Prelude.{◌≡◌, None};
ghost use Rattle.strm_handle.specs.Entries.{taking};
ghost use Rattle.strm_handle.specs.Traces.{BaseOfTrace, Cuts, NextOfTrace};

use std::alloc::Global;
use strm_handle::{Cursor, Entered, Handle, TraceHandle};

/// Cuts a pair: the base at which its journal begins and all that was entered since go behind the handle of a trace, and its journal begins
/// anew. All memory is asked for first; where that is refused, the pair stays as it is.
#[unsafe(no_mangle)]
pub extern "C" fn strm_cut(alloc: Global, handle: &mut Handle, trace: &mut TraceHandle) -> u32
    ensures { Cuts handle.old.held.kept handle.new.held.kept trace.old.held.kept trace.new.held.kept result }
{
    strm_handle::cut(alloc, handle, trace)
}

/// Takes the entry at a cursor of a trace, which moves behind it. `out` has room for the bytes of its call and those of its answer.
#[unsafe(no_mangle)]
pub extern "C" fn strm_trace_next(
    alloc: Global,
    handle: &mut TraceHandle,
    at: &mut Cursor,
    told: &mut Entered,
    out: &mut [u8],
) -> u32
    ensures stays { handle.new.held.kept ≡ handle.old.held.kept }
    ensures taken { NextOfTrace handle.old.held.kept (taking at.old told.old out.old) (taking at.new told.new out.new) result }
{
    strm_handle::trace_next(alloc, handle, at, told, out)
}

/// Puts the image of a trace's base into a buffer, and tells how long it is, also where the buffer is too small.
#[unsafe(no_mangle)]
pub extern "C" fn strm_trace_base(
    alloc: Global,
    handle: &mut TraceHandle,
    out: &mut [u8],
    told: &mut usize,
) -> u32
    ensures stays { handle.new.held.kept ≡ handle.old.held.kept }
    ensures base { BaseOfTrace handle.old.held.kept told.old told.new out.old out.new result }
{
    strm_handle::trace_base(alloc, handle, out, told)
}

/// Frees a trace, over whose bytes zeros are written, and closes its handle. A closed one stays so.
#[unsafe(no_mangle)]
pub extern "C" fn strm_trace_free(alloc: Global, handle: &mut TraceHandle)
    ensures { handle.new.held.kept ≡ None }
{
    strm_handle::trace_free(alloc, handle);
}
