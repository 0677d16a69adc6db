//! Making hosts and members, and freeing them.

ghost use Rattle.std.specs.Prelude.{◌≡◌, None};
ghost use Rattle.strm_ends.specs.Making.{Makes, Seats, sizes_of};
ghost use Rattle.strm_ends.specs.Outcomes.{WithMade};

use std::alloc::Global;
use strm_ends::Handle;

/// Makes a host of so many pairs that nobody opened, each of so many blocks of each kind and so large a journal, and its first member.
#[unsafe(no_mangle)]
pub extern "C" fn strm_mt_make(
    alloc: Global,
    handle: &mut Handle,
    pairs: u32,
    blocks: usize,
    entries: usize,
    bytes: usize,
) -> u32
    ensures { Makes pairs (sizes_of blocks entries bytes) handle.old.held.kept handle.new.held.kept result }
{
    strm_ends::make(
        alloc,
        handle,
        pairs,
        strm_ends::sizes(blocks, entries, bytes),
    )
}

/// Makes a further member of a member's host, with an opener of its own and nothing in hand, in a closed handle.
#[unsafe(no_mangle)]
pub extern "C" fn strm_mt_seat(alloc: Global, handle: &mut Handle, made: &mut Handle) -> u32
    ensures { WithMade Seats handle.old.held.kept handle.new.held.kept made.old.held.kept made.new.held.kept result }
{
    strm_ends::seat(alloc, handle, made)
}

/// Closes a handle, and drops what its member has: an opener with what it holds, and an end with its parts.
#[unsafe(no_mangle)]
pub extern "C" fn strm_mt_free(alloc: Global, handle: &mut Handle)
    ensures { handle.new.held.kept ≡ None }
{
    strm_ends::free(alloc, handle);
}
