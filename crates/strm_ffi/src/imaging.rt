//! Images of a pair for a C program.

ghost use Rattle.std.specs.Prelude.{◌≡◌};
ghost use Rattle.strm_handle.specs.Images.{Images};

use std::alloc::Global;
use strm_handle::Handle;

/// Puts the image of a pair into a buffer, and tells how long it is, also where the buffer is too small.
#[unsafe(no_mangle)]
pub extern "C" fn strm_image(
    alloc: Global,
    handle: &mut Handle,
    out: &mut [u8],
    told: &mut usize,
) -> u32
    ensures stays { handle.new.held.kept ≡ handle.old.held.kept }
    ensures image { Images handle.old.held.kept told.old told.new out.old out.new result }
{
    strm_handle::image(alloc, handle, out, told)
}
