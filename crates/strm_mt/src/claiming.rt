//! Minors: what a member claims, and gives back.

ghost use Rattle.std.specs.Prelude.{◌≡◌};
ghost use Rattle.strm_ends.specs.Claiming.{ClaimsMinor, ReleasesMinor};
ghost use Rattle.strm_ends.specs.Outcomes.{AtMember};

use std::alloc::Global;
use strm_ends::Handle;

/// Claims the first minor of the host that it finds free: it is in hand then, and `pair` the number of its pair.
#[unsafe(no_mangle)]
pub extern "C" fn strm_mt_claim(alloc: Global, handle: &mut Handle, pair: &mut u32) -> u32
    ensures { AtMember (pair.new ≡ pair.old) (ClaimsMinor pair.old pair.new) handle.old.held.kept handle.new.held.kept result }
{
    strm_ends::claim(alloc, handle, pair)
}

/// Gives back the minor that is in hand.
#[unsafe(no_mangle)]
pub extern "C" fn strm_mt_release(alloc: Global, handle: &mut Handle) -> u32
    ensures { AtMember (Unit {0}) ReleasesMinor handle.old.held.kept handle.new.held.kept result }
{
    strm_ends::release(alloc, handle)
}
