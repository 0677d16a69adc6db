//! Images of a pair for a C program.

ghost use Rattle.std.specs.Prelude.{◌≡◌};
ghost use Rattle.strm_handle.specs.Images.{ImageInto, Images, image_of};

use crate::handle::Handle;
use crate::kept::refused;
use std::alloc::Global;
use strm_pair::Pair;
use strm_raw::RawStore;
use strm_types::Refusal;

// Puts the image of a pair into a buffer that takes all of it.
#[tactic(auto, using(crate::proofs::ImageRows::image_put))]
fn put_image(pair: &Pair<RawStore>, out: &mut [u8], told: &mut usize) -> u32
    ensures { ImageInto (image_of pair.now) told.new out.old out.new result }
{
    let length = pair.image_into(&mut []);
    *told = length;
    if length > out.len() {
        return refused(Refusal::Einval);
    }
    pair.image_into(out);
    0
}

/// Puts the image of a pair into a buffer, and tells how long it is, also where the buffer is too small.
pub fn image(alloc: Global, handle: &mut Handle, out: &mut [u8], told: &mut usize) -> u32
    ensures stays { handle.new.held.kept ≡ handle.old.held.kept }
    ensures image { Images handle.old.held.kept told.old told.new out.old out.new result }
{
    let Some(kept) = handle.take(alloc) else {
        return refused(Refusal::Einval);
    };
    let answered = put_image(&kept.pair, out, told);
    handle.put(kept);
    answered
}
