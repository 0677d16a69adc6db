//! Pairs that are made of an image.

ghost use Rattle.std.specs.Prelude.{◌≡◌, ◌≢◌, true, false, IfErr, IfOk};
ghost use Rattle.strm_types.specs.declared.refusals.Refusal.TheVariants.{Einval, Enosr, NoMemory};
ghost use Rattle.strm_laws.proofs.NoOwn.{none as no_own};
ghost use Rattle.strm_laws.specs.Refusals.{enough};
ghost use Rattle.strm_image.specs.Image.{Imaged};
ghost use Rattle.strm_pair.specs.Restored.{IsImageFor, IsNoImage, image_blocks, restored};
ghost use Rattle.strm_handle.specs.Kept.{are_fit, kept_by, sizes_of};
ghost use Rattle.strm_handle.specs.Restored.{Restores};

use crate::choices::Choices;
use crate::handle::Handle;
use crate::kept::{Kept, refused};
use std::alloc::Global;
use strm_pair::Pair;
use strm_raw::RawStore;
use strm_types::{Content, Refusal};

// The pair of an image, over a store of its own.
fn kept_of(alloc: Global, choices: &Choices, text: &[u8]) -> Result<Box<Kept, Global>, Refusal>
    requires { are_fit choices.now ≡ true }
    ensures ok { IfOk result (λ kept. (x : Imaged) × (IsImageFor no_own text.now x × (kept.value ≡ kept_by choices.now (restored (sizes_of choices.now) x)))) }
    ensures einval { IfErr result (λ why. why ≡ Einval → IsNoImage no_own text.now) }
    ensures enosr { IfErr result (λ why. why ≡ Enosr → (x : Imaged) × (IsImageFor no_own text.now x
        × (enough (image_blocks x) (record { mblks = choices.now.blocks; dblks = choices.now.blocks }) ≡ false))) }
    ensures others { IfErr result (λ why. why ≢ Einval → why ≢ Enosr → why ≡ NoMemory) }
{
    let sizes = choices.sizes();
    let Ok(store) = RawStore::new(alloc, sizes.mblks, sizes.dblks) else {
        return Err(Refusal::NoMemory);
    };
    let pair = match Pair::restore(alloc, sizes, text, store) {
        Ok(pair) => pair,
        Err((why, _store)) => return Err(why),
    };
    let kept = Kept {
        pair,
        answer: Content::new(),
        anew: choices.anew,
        reserve: choices.reserve,
    };
    match Box::new(alloc, kept) {
        Ok(kept) => Ok(kept),
        Err(_) => Err(Refusal::NoMemory),
    }
}

/// Makes a pair of an image, and of what is chosen. All memory is taken here.
pub fn restore(alloc: Global, handle: &mut Handle, choices: &Choices, text: &[u8]) -> u32
    ensures { Restores choices.now text.now handle.old.held.kept handle.new.held.kept result }
{
    if handle.is_open() || !choices.are_fit() {
        return refused(Refusal::Einval);
    }
    match kept_of(alloc, choices, text) {
        Ok(kept) => {
            handle.put(kept);
            0
        }
        Err(why) => refused(why),
    }
}
