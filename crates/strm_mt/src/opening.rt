//! Opening the two sides of a pair.

ghost use Rattle.strm_ends.specs.Opening.{Opens, OpensSlave};
ghost use Rattle.strm_ends.specs.Outcomes.{AtMember, WithMade};

use std::alloc::Global;
use strm_ends::Handle;

/// Opens the master of the pair whose minor is in hand (open(2) of the master device): an end with all parts is in hand then. The minor stays in hand
/// where it isn't opened.
#[unsafe(no_mangle)]
pub extern "C" fn strm_mt_open(alloc: Global, handle: &mut Handle) -> u32
    ensures { AtMember (Unit {0}) Opens handle.old.held.kept handle.new.held.kept result }
{
    strm_ends::open(alloc, handle)
}

/// Opens the slave by a call of the end in hand (open(2) of the slave device): its end is in hand of a member that is made in a closed handle, and
/// has no opener.
#[unsafe(no_mangle)]
pub extern "C" fn strm_mt_open_slave(alloc: Global, handle: &mut Handle, made: &mut Handle) -> u32
    ensures { WithMade OpensSlave handle.old.held.kept handle.new.held.kept made.old.held.kept made.new.held.kept result }
{
    strm_ends::open_slave(alloc, handle, made)
}
