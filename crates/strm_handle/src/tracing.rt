//! Cutting a pair, and its trace behind a handle of its own.

ghost use Rattle.std.specs.Prelude.{◌≡◌, None, false, is_some};
ghost use Rattle.strm_handle.specs.Entries.{TakesStored, taking};
ghost use Rattle.strm_handle.specs.Images.{ImageInto};
ghost use Rattle.strm_handle.specs.Traces.{BaseOfTrace, Cuts, CutsPair, NextOfTrace};

use crate::entries::{Cursor, Entered};
use crate::handle::Handle;
use crate::kept::{Kept, give, refused};
use crate::recording::take_entry;
use crate::stored::Stored;
use crate::trace_handle::{TraceHandle, TraceRoom};
use crate::traces::forget;
use std::alloc::Global;
use strm_image::Trace;
use strm_types::{NoMemory, Refusal};

// Cuts a pair. The memory of the handle's trace is taken first.
fn cut_pair(alloc: Global, kept: &mut Kept, trace: &mut TraceHandle) -> u32
    requires closed { is_some trace.old.held.kept ≡ false }
    ensures { CutsPair kept.old kept.new trace.old.held.kept trace.new.held.kept result }
{
    let Ok(room) = TraceRoom::new(alloc) else {
        return refused(Refusal::NoMemory);
    };
    match kept.cut(alloc) {
        Ok(made) => {
            room.put(made, trace);
            0
        }
        Err(NoMemory) => refused(Refusal::NoMemory),
    }
}

/// Cuts a pair: the base at which its journal begins and all that was entered since go behind the handle of a trace, and its journal begins
/// anew. All memory is asked for first; where that is refused, the pair stays as it is.
pub fn cut(alloc: Global, handle: &mut Handle, trace: &mut TraceHandle) -> u32
    ensures { Cuts handle.old.held.kept handle.new.held.kept trace.old.held.kept trace.new.held.kept result }
{
    if trace.is_open() {
        return refused(Refusal::Einval);
    }
    let Some(mut kept) = handle.take(alloc) else {
        return refused(Refusal::Einval);
    };
    let cut = cut_pair(alloc, kept.as_mut(), trace);
    handle.put(kept);
    cut
}

// Takes the entry at a cursor of a trace.
fn entry_of(trace: &Trace, at: &mut Cursor, told: &mut Entered, out: &mut [u8]) -> u32
    ensures { TakesStored (trace.now).entries.items (trace.now).bytes.items (taking at.old told.old out.old) (taking at.new told.new out.new) result }
{
    let entries = trace.entries.as_slice();
    take_entry(entries, trace.bytes.as_slice(), at, told, out)
}

/// Takes the entry at a cursor of a trace, which moves behind it. `out` has room for the bytes of its call and those of its answer.
pub fn trace_next(
    alloc: Global,
    handle: &mut TraceHandle,
    at: &mut Cursor,
    told: &mut Entered,
    out: &mut [u8],
) -> u32
    ensures stays { handle.new.held.kept ≡ handle.old.held.kept }
    ensures taken { NextOfTrace handle.old.held.kept (taking at.old told.old out.old) (taking at.new told.new out.new) result }
{
    let Some(stored) = handle.take(alloc) else {
        return refused(Refusal::Einval);
    };
    let answered = entry_of(&stored.trace, at, told, out);
    handle.put(stored);
    answered
}

// Puts a text into a buffer that takes all of it.
fn put_text(text: &[u8], out: &mut [u8], told: &mut usize) -> u32
    ensures { ImageInto text.now told.new out.old out.new result }
{
    *told = text.len();
    if text.len() > out.len() {
        return refused(Refusal::Einval);
    }
    give(text, out);
    0
}

// Puts the base of a trace into a buffer.
fn put_base(trace: &Trace, out: &mut [u8], told: &mut usize) -> u32
    ensures { ImageInto (trace.now).base.items told.new out.old out.new result }
{
    put_text(trace.base.as_slice(), out, told)
}

/// Puts the image of a trace's base into a buffer, and tells how long it is, also where the buffer is too small.
pub fn trace_base(alloc: Global, handle: &mut TraceHandle, out: &mut [u8], told: &mut usize) -> u32
    ensures stays { handle.new.held.kept ≡ handle.old.held.kept }
    ensures base { BaseOfTrace handle.old.held.kept told.old told.new out.old out.new result }
{
    let Some(stored) = handle.take(alloc) else {
        return refused(Refusal::Einval);
    };
    let answered = put_base(&stored.trace, out, told);
    handle.put(stored);
    answered
}

/// Frees a trace, over whose bytes zeros are written, and closes its handle. A closed one stays so.
pub fn trace_free(alloc: Global, handle: &mut TraceHandle)
    ensures { handle.new.held.kept ≡ None }
{
    let Some(stored) = handle.take(alloc) else {
        return;
    };
    let Stored { trace } = Box::into_inner(stored);
    forget(trace);
}
