//! What an image and a pair that is made of it have to do with each other: each law is the contract of a function that makes the calls, or
//! does nothing.

ghost use Rattle.std.specs.Prelude.{◌≡◌, ◌≢◌, ℕ, [], List, replicate, IfOk, Some};
ghost use Rattle.strm_types.specs.declared.limits.Config.{Config};
ghost use Rattle.strm_types.specs.declared.limits.TheConstants.{LISTS};
ghost use Rattle.strm_types.specs.declared.refusals.Refusal.TheVariants.{Einval};
ghost use Rattle.strm_image.specs.declared.versions.Version.TheVariants.{First, Second};
ghost use Rattle.strm_image.specs.Format.{IsTextOf};
ghost use Rattle.strm_image.specs.HasImage.{counts_of};
ghost use Rattle.strm_image.specs.Image.{Imaged, image};
ghost use Rattle.strm_frame.specs.Hands.{IsWide};
ghost use Rattle.strm_pair.specs.Restored.{IsImageOf, refusal_in, restored};

use crate::{OwnModule, Pair};
use std::alloc::Global;
use strm_blocks::Blocks;
use strm_types::{Config, Refusal};

/// The pair that is made of the image of another one has its state, and its counts of what has gone by each rule. The image is one: it isn't
/// refused with EINVAL.
pub fn image_restores<B: Blocks + Drop, C: Blocks + Drop, M: OwnModule>(
    alloc: Global,
    sizes: Config,
    pair: &Pair<B, M>,
    store: C,
) -> Result<Pair<C, M>, (Refusal, C)>
    requires lists { (C.value store).lists ≡ replicate LISTS [] }
    requires hand { (C.value store).hand ≡ [] }
    requires wide { IsWide M.wide (C.value store) }
    ensures is_image { refusal_in result ≢ Some Einval }
    ensures state { IfOk result (λ p. p.state ≡ pair.now.state) }
    ensures gone { IfOk result (λ p. counts_of p.fates ≡ counts_of pair.now.fates) }
{
    let Ok(text) = pair.image(alloc) else {
        return Err((Refusal::NoMemory, store));
    };
    Pair::restore(alloc, sizes, text.as_slice(), store)
}

/// The pair that is made of a text, and its image, which is that text where it is of version 2.
pub fn restored_has_image<B: Blocks + Drop, M: OwnModule>(
    alloc: Global,
    sizes: Config,
    text: &[u8],
    store: B,
) -> Result<(Pair<B, M>, Vec<u8>), Refusal>
    requires lists { (B.value store).lists ≡ replicate LISTS [] }
    requires hand { (B.value store).hand ≡ [] }
    requires wide { IsWide M.wide (B.value store) }
    ensures same { (x : Imaged) → IsTextOf image text.now (Second, x) → IfOk result (λ made. made.1.items ≡ text.now) }
{
    let pair = match Pair::<B, M>::restore(alloc, sizes, text, store) {
        Ok(pair) => pair,
        Err((why, _store)) => return Err(why),
    };
    match pair.image(alloc) {
        Ok(image) => Ok((pair, image)),
        Err(_) => Err(Refusal::NoMemory),
    }
}

/// The pairs that are made of the texts of both versions of one state are the same.
pub fn versions_restore_alike()
    ensures { (limits : Config) (first second : List ℕ) (x y z : Imaged) → IsTextOf image first (First, x) → IsTextOf image second (Second, x)
        → IsImageOf first y → IsImageOf second z → restored limits y ≡ restored limits z }
{}
