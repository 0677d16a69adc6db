//! Calls of a C program.

ghost use Rattle.std.specs.Prelude.{length, min, take};
ghost use Rattle.strm_types.specs.declared.events.Event.TheVariants.{Read, Write};
ghost use Rattle.strm_types.specs.declared.limits.TheConstants.{READ_MAX};
ghost use Rattle.strm_handle.specs.Calls.{brought};
ghost use Rattle.strm_handle.specs.Outcomes.{CallsAtHandle, ask_refused, side_refused, AnswersAsk, AnswersSide, Stay, no_bytes};

use std::alloc::Global;
use strm_handle::{Ask, Handle, Reply};

/// Makes any call: `ask` says which one, `bytes` are those that it brings, of a write the first 1024 at most, `out` has room for those that
/// it gives.
#[unsafe(no_mangle)]
pub extern "C" fn strm_call(
    alloc: Global,
    handle: &mut Handle,
    ask: &Ask,
    bytes: &[u8],
    out: &mut [u8],
    reply: &mut Reply,
) -> u32
    ensures { let bytes = brought ask.now bytes.now in
        CallsAtHandle (ask_refused ask.now bytes (length out.old)) (Stay out.old out.new reply.old reply.new)
        (AnswersAsk ask.now bytes reply.new out.old out.new) handle.old.held.kept handle.new.held.kept result }
{
    strm_handle::call(alloc, handle, ask, bytes, out, reply)
}

/// Writes the first 1024 bytes at most: write(2) of a side.
#[unsafe(no_mangle)]
pub extern "C" fn strm_write(
    alloc: Global,
    handle: &mut Handle,
    side: u32,
    bytes: &[u8],
    reply: &mut Reply,
) -> u32
    ensures { CallsAtHandle (side_refused side (Write (take 1024 bytes.now)) 0) (Stay no_bytes no_bytes reply.old reply.new)
        (AnswersSide side (Write (take 1024 bytes.now)) reply.new no_bytes no_bytes) handle.old.held.kept handle.new.held.kept result }
{
    strm_handle::write(alloc, handle, side, bytes, reply)
}

/// Reads as many bytes as a buffer has room for, up to 4096: read(2) of a side.
#[unsafe(no_mangle)]
pub extern "C" fn strm_read(
    alloc: Global,
    handle: &mut Handle,
    side: u32,
    out: &mut [u8],
    reply: &mut Reply,
) -> u32
    ensures { CallsAtHandle (side_refused side (Read (min (length out.old) READ_MAX)) (length out.old)) (Stay out.old out.new reply.old reply.new)
        (AnswersSide side (Read (min (length out.old) READ_MAX)) reply.new out.old out.new) handle.old.held.kept handle.new.held.kept result }
{
    strm_handle::read(alloc, handle, side, out, reply)
}
