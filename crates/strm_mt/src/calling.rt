//! Calls of the end in hand.

ghost use Rattle.strm_handle.specs.Outcomes.{Stay};
ghost use Rattle.strm_ends.specs.Calling.{CallsEnd, told_of};
ghost use Rattle.strm_ends.specs.Outcomes.{AtMember};
ghost use Rattle.strm_ends.specs.Sharing.{Groups};

use std::alloc::Global;
use strm_ends::Handle;
use strm_handle::{Ask, Reply};

/// Makes any call but those that open a side, by the end in hand: `ask` says which one, and the end who calls. `bytes` are those that it brings, of a
/// write the first 1024 at most, `out` has room for those that it gives.
#[unsafe(no_mangle)]
pub extern "C" fn strm_mt_call(
    alloc: Global,
    handle: &mut Handle,
    ask: &Ask,
    bytes: &[u8],
    out: &mut [u8],
    reply: &mut Reply,
) -> u32
    ensures { AtMember (Stay out.old out.new reply.old reply.new)
        (CallsEnd ask.now bytes.now (told_of out.old out.new reply.old reply.new)) handle.old.held.kept handle.new.held.kept result }
{
    strm_ends::call(alloc, handle, ask, bytes, out, reply)
}

/// Sets who makes the later calls of the end in hand: a process of this group, 0 for none; whether it ignores or blocks SIGTTIN and SIGTTOU; and
/// whether its group is orphaned.
#[unsafe(no_mangle)]
pub extern "C" fn strm_mt_group(
    alloc: Global,
    handle: &mut Handle,
    group: u32,
    ignores: bool,
    orphaned: bool,
) -> u32
    ensures { AtMember (Unit {0}) (Groups group ignores orphaned) handle.old.held.kept handle.new.held.kept result }
{
    strm_ends::set_group(alloc, handle, group, ignores, orphaned)
}
