//! Calls of a C program.

ghost use Rattle.std.specs.Prelude.{◌≡◌, length, min, take};
ghost use Rattle.strm_types.specs.declared.events.Event.TheVariants.{Read, Write};
ghost use Rattle.strm_types.specs.declared.limits.TheConstants.{READ_MAX};
ghost use Rattle.strm_handle.specs.Calls.{brought};
ghost use Rattle.strm_handle.specs.Outcomes.{CallsAtHandle, ask_refused, side_refused, AnswersAsk, AnswersSide, Stay, no_bytes};

use crate::asks::Ask;
use crate::handle::Handle;
use crate::kept::refused;
use crate::replies::Reply;
use std::alloc::Global;
use strm_types::{Event, READ_MAX, Refusal};

/// The most bytes that one write brings.
const WRITE_MOST: usize = 1024;

// The first bytes, as many as one write brings.
fn first_bytes<'a>(bytes: &'a [u8]) -> &'a [u8]
    ensures { result.now ≡ take 1024 bytes.now }
{
    &bytes[..WRITE_MOST.min(bytes.len())]
}

/// The bytes that a call brings: of a write no more than one brings.
pub fn brought<'a>(ask: &Ask, bytes: &'a [u8]) -> &'a [u8]
    ensures { result.now ≡ brought ask.now bytes.now }
{
    match ask.op {
        8 => first_bytes(bytes),
        _ => bytes,
    }
}

/// Makes any call: `ask` says which one, `bytes` are those that it brings, of a write the first 1024 at most, `out` has room for those that
/// it gives.
pub fn call(
    alloc: Global,
    handle: &mut Handle,
    ask: &Ask,
    bytes: &[u8],
    out: &mut [u8],
    reply: &mut Reply,
) -> u32
    ensures { let bytes = brought ask.now bytes.now in
        CallsAtHandle (ask_refused ask.now bytes (length out.old)) (Stay out.old out.new reply.old reply.new)
        (AnswersAsk ask.now bytes reply.new out.old out.new) handle.old.held.kept handle.new.held.kept result }
{
    let Some(mut kept) = handle.take(alloc) else {
        return refused(Refusal::Einval);
    };
    let told = kept.as_mut().ask(ask, brought(ask, bytes), out, reply);
    handle.put(kept);
    told
}

/// Writes the first 1024 bytes at most: write(2) of a side.
pub fn write(alloc: Global, handle: &mut Handle, side: u32, bytes: &[u8], reply: &mut Reply) -> u32
    ensures { CallsAtHandle (side_refused side (Write (take 1024 bytes.now)) 0) (Stay no_bytes no_bytes reply.old reply.new)
        (AnswersSide side (Write (take 1024 bytes.now)) reply.new no_bytes no_bytes) handle.old.held.kept handle.new.held.kept result }
{
    let Some(mut kept) = handle.take(alloc) else {
        return refused(Refusal::Einval);
    };
    let bytes = first_bytes(bytes);
    let told = kept.as_mut().write(side, bytes, reply);
    handle.put(kept);
    told
}

/// Reads as many bytes as a buffer has room for, up to 4096: read(2) of a side.
pub fn read(alloc: Global, handle: &mut Handle, side: u32, out: &mut [u8], reply: &mut Reply) -> u32
    ensures { CallsAtHandle (side_refused side (Read (min (length out.old) READ_MAX)) (length out.old)) (Stay out.old out.new reply.old reply.new)
        (AnswersSide side (Read (min (length out.old) READ_MAX)) reply.new out.old out.new) handle.old.held.kept handle.new.held.kept result }
{
    let Some(mut kept) = handle.take(alloc) else {
        return refused(Refusal::Einval);
    };
    let n = out.len().min(READ_MAX) as u32;
    let told = kept.as_mut().of_side(side, &Event::Read { n }, out, reply);
    handle.put(kept);
    told
}
