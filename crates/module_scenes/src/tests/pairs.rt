//! Pairs on which a module of a user's own may stand, or none.

ghost use Rattle.std.specs.Prelude.{◌≡◌, [], IfOk, replicate};
ghost use Rattle.strm_types.specs.declared.limits.TheConstants.{LISTS};
ghost use Rattle.strm_frame.specs.Hands.{IsWide};

use std::alloc::{AllocError, Global};
use strm_blocks::{Blocks, Reserve};
use strm_pair::{NoModule, OwnModule, Pair};
use strm_types::{Config, Refusal};

/// The sizes of all pairs.
pub const SIZES: Config = Config {
    mblks: 64,
    dblks: 64,
    journal_events: 256,
    journal_bytes: 65536,
};

// A store that holds nothing, with as many data blocks as message blocks, as a module may want it.
fn store_for<B: Reserve, M: OwnModule>(alloc: Global) -> Result<B, AllocError>
    ensures lists { IfOk result (λ store. (B.value store).lists ≡ replicate LISTS []) }
    ensures hand { IfOk result (λ store. (B.value store).hand ≡ []) }
    ensures wide { IfOk result (λ store. IsWide M.wide (B.value store)) }
{
    B::reserve(alloc, SIZES.mblks, SIZES.dblks)
}

/// A pair that nobody opened.
pub fn new_pair<B: Reserve, M: OwnModule>(alloc: Global) -> Result<Pair<B, M>, AllocError> {
    let store = store_for::<B, M>(alloc)?;
    let Ok(pair) = Pair::new(alloc, SIZES, store) else {
        return Err(AllocError);
    };
    Ok(pair)
}

/// A pair that is made of an image, unless that is refused.
pub fn restored<B: Reserve, M: OwnModule>(
    alloc: Global,
    image: &[u8],
) -> Result<Option<Pair<B, M>>, AllocError> {
    let store = store_for::<B, M>(alloc)?;
    Ok(Pair::restore(alloc, SIZES, image, store).ok())
}

/// Why no pair without the module is made of an image.
pub fn refused_without<B: Reserve>(
    alloc: Global,
    image: &[u8],
) -> Result<Option<Refusal>, AllocError> {
    let store = store_for::<B, NoModule>(alloc)?;
    match Pair::<B>::restore(alloc, SIZES, image, store) {
        Ok(_) => Ok(None),
        Err((why, _store)) => Ok(Some(why)),
    }
}

/// The image of a pair.
pub fn image_of<B: Blocks + Drop, M: OwnModule>(
    alloc: Global,
    pair: &Pair<B, M>,
) -> Result<Vec<u8>, AllocError> {
    let Ok(image) = pair.image(alloc) else {
        return Err(AllocError);
    };
    Ok(image)
}
