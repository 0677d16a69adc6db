//! What an end is told, and how it is cut in two and joined.

ghost use Rattle.std.specs.Prelude.{◌≡◌};
ghost use Rattle.strm_ends.specs.Outcomes.{AtMember, WithMade};
ghost use Rattle.strm_ends.specs.Sharing.{AreTogether, Joins, ShowsEnd, SplitsEnd};

use std::alloc::Global;
use strm_ends::{Handle, Share};

/// What the end in hand was told, its parts and its pair, and whom it calls as.
#[unsafe(no_mangle)]
pub extern "C" fn strm_mt_told(alloc: Global, handle: &mut Handle, share: &mut Share) -> u32
    ensures { AtMember (share.new ≡ share.old) (ShowsEnd share.old share.new) handle.old.held.kept handle.new.held.kept result }
{
    strm_ends::told(alloc, handle, share)
}

/// Cuts the end in hand in two: the second, with half of the parts, is in hand of a member that is made in a closed handle, and has no opener.
#[unsafe(no_mangle)]
pub extern "C" fn strm_mt_split(alloc: Global, handle: &mut Handle, made: &mut Handle) -> u32
    ensures { WithMade SplitsEnd handle.old.held.kept handle.new.held.kept made.old.held.kept made.new.held.kept result }
{
    strm_ends::split(alloc, handle, made)
}

/// Joins the end in hand of a second member of the same host to that of the first; both ends are of one pair. The second member is closed then.
#[unsafe(no_mangle)]
pub extern "C" fn strm_mt_join(alloc: Global, handle: &mut Handle, other: &mut Handle) -> u32
    requires { AreTogether handle.old.held.kept other.old.held.kept }
    ensures { Joins handle.old.held.kept other.old.held.kept handle.new.held.kept other.new.held.kept result }
{
    strm_ends::join(alloc, handle, other)
}
