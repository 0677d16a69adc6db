//! Calls that ask for memory, where it is refused: the answer says so, all stays as it was, and the same call goes well once there is
//! memory. `tools/refusals --tests strm_trials may_be_refused` refuses each request of them in turn.

ghost use Rattle.std.specs.Prelude.{◌≡◌, [], IfOk, replicate};
ghost use Rattle.strm_types.specs.declared.limits.TheConstants.{LISTS};

use super::no_memory::{SIZES, first_wrong};
use crate::memory::{MOST_TAKEN, all_memory};
use crate::tests::steps::{entries, store_of};
use std::alloc::{AllocError, Global};
use std::process::Abort;
use std::test::Fail;
use strm_blocks::{Reserve, TableStore};
use strm_pair::Pair;
use strm_raw::RawStore;
use strm_types::{NoMemory, Refusal};

// A store that holds nothing, which is asked for once more where it is refused.
fn store_twice<B: Reserve>(alloc: Global) -> Result<B, AllocError>
    ensures lists { IfOk result (λ store. (B.value store).lists ≡ replicate LISTS []) }
    ensures hand { IfOk result (λ store. (B.value store).hand ≡ []) }
{
    match store_of(alloc, &SIZES) {
        Ok(store) => Ok(store),
        Err(AllocError) => store_of(alloc, &SIZES),
    }
}

// Makes a pair. Where that is refused, the store comes back with all its blocks free.
fn pair_of<B: Reserve>(rt: &impl Abort, alloc: Global, store: B) -> Pair<B>
    requires lists { (B.value store).lists ≡ replicate LISTS [] }
    requires hand { (B.value store).hand ≡ [] }
{
    let store = match Pair::new(alloc, SIZES, store) {
        Ok(pair) => return pair,
        Err((NoMemory, store)) => store,
    };
    assert_eq!(rt; store.free_blocks(), (SIZES.mblks, SIZES.dblks));
    let Ok(pair) = Pair::new(alloc, SIZES, store) else {
        panic!(rt; "a pair is refused twice")
    };
    pair
}

// A pair over a store of its own, which has made its first 4 calls.
fn opened_pair<B: Reserve>(rt: &impl Abort, alloc: Global) -> Result<Pair<B>, AllocError> {
    let store: B = store_twice(alloc)?;
    let mut pair = pair_of(rt, alloc, store);
    assert!(rt; first_wrong(&mut pair, 4).is_none());
    Ok(pair)
}

// Makes the image of a pair, which has 300 bytes on a queue.
fn image_of<B: Reserve>(rt: &impl Abort, alloc: Global, pair: &Pair<B>) -> Vec<u8> {
    if let Ok(image) = pair.image(alloc) {
        return image;
    }
    let Ok(image) = pair.image(alloc) else {
        panic!(rt; "an image is refused twice")
    };
    assert!(rt; image.len() > 300);
    image
}

// Makes a pair of an image. Where that is refused, the store comes back with all its blocks free.
fn restored<B: Reserve>(rt: &impl Abort, alloc: Global, store: B, image: &[u8]) -> Pair<B>
    requires lists { (B.value store).lists ≡ replicate LISTS [] }
    requires hand { (B.value store).hand ≡ [] }
{
    let store = match Pair::restore(alloc, SIZES, image, store) {
        Ok(pair) => return pair,
        Err((refusal, store)) => {
            assert_eq!(rt; refusal, Refusal::NoMemory);
            store
        }
    };
    assert_eq!(rt; store.free_blocks(), (SIZES.mblks, SIZES.dblks));
    let Ok(pair) = Pair::restore(alloc, SIZES, image, store) else {
        panic!(rt; "an image is refused twice")
    };
    pair
}

// How many entries a cut hands out, unless it is refused.
fn cut<B: Reserve>(alloc: Global, pair: &mut Pair<B>) -> Option<usize> {
    let trace = pair.cut(alloc).ok()?;
    Some(trace.entries.len())
}

// Whether a pair that is made of an image has this image.
fn is_restored<B: Reserve>(
    rt: &impl Abort,
    alloc: Global,
    image: &[u8],
) -> Result<bool, AllocError> {
    let store: B = store_twice(alloc)?;
    let pair = restored(rt, alloc, store, image);
    Ok(image_of(rt, alloc, &pair).as_slice() == image)
}

// Cuts a pair, which has made 4 calls and a turn. Where that is refused, its journal stays.
fn cuts<B: Reserve>(rt: &impl Abort, alloc: Global, pair: &mut Pair<B>) {
    let made = entries(pair);
    let mut handed_out = cut(alloc, pair);
    if handed_out.is_none() {
        assert!(rt; entries(pair) == made);
        handed_out = cut(alloc, pair);
    }
    assert!(rt; handed_out == Some(made) && made > 4);
    assert!(rt; entries(pair) == 0);
}

// Makes each call that asks for memory, and once more where it is refused.
fn makes_all<B: Reserve>(rt: &impl Abort, alloc: Global) -> Result<(), AllocError> {
    let mut pair: Pair<B> = opened_pair(rt, alloc)?;
    let image = image_of(rt, alloc, &pair);
    assert!(rt; is_restored::<B>(rt, alloc, image.as_slice())?);
    cuts(rt, alloc, &mut pair);
    Ok(())
}

#[test]
fn any_one_request_for_memory_may_be_refused(rt: HostRuntime) -> Result<(), Fail> {
    makes_all::<RawStore>(&rt, rt.alloc())?;
    Ok(makes_all::<TableStore>(&rt, rt.alloc())?)
}

// Asks for a store where all memory is taken. A heap of which not all can be taken is left out, here and below.
fn refuses_store<B: Reserve>(rt: &impl Abort, alloc: Global) -> Result<(), AllocError> {
    let taken = all_memory(alloc)?;
    if taken.len() >= MOST_TAKEN {
        return Ok(());
    }
    let is_refused = B::reserve(alloc, 1, 1).is_err();
    drop(taken);
    assert!(rt; is_refused);
    Ok(())
}

// Makes a pair where all memory is taken, and once more where it was given back.
fn refuses_pair<B: Reserve>(rt: &impl Abort, alloc: Global) -> Result<(), AllocError> {
    let store: B = store_twice(alloc)?;
    let taken = all_memory(alloc)?;
    if taken.len() >= MOST_TAKEN {
        return Ok(());
    }
    let came: Result<Pair<B>, (NoMemory, B)> = Pair::new(alloc, SIZES, store);
    drop(taken);
    let Err((NoMemory, store)) = came else {
        panic!(rt; "a pair without memory")
    };
    assert_eq!(rt; store.free_blocks(), (SIZES.mblks, SIZES.dblks));
    let _ = pair_of(rt, alloc, store);
    Ok(())
}

// Makes the image of a pair where all memory is taken, and once more where it was given back.
fn is_short_of_an_image<B: Reserve>(
    rt: &impl Abort,
    alloc: Global,
    pair: &Pair<B>,
) -> Result<(), AllocError> {
    let taken = all_memory(alloc)?;
    let is_all = taken.len() < MOST_TAKEN;
    let is_refused = pair.image(alloc).is_err();
    drop(taken);
    assert!(rt; is_refused || !is_all);
    drop(image_of(rt, alloc, pair));
    Ok(())
}

// The same of a pair that is opened here.
fn refuses_image<B: Reserve>(rt: &impl Abort, alloc: Global) -> Result<(), AllocError> {
    let pair: Pair<B> = opened_pair(rt, alloc)?;
    let came = is_short_of_an_image(rt, alloc, &pair);
    drop(pair);
    came
}

// Makes each call over either store, beside a pair that takes as much of the stack as any call below. Where all addresses are taken, or
// were, the stack can't grow either, so the calls are made before, and it is as large as they want.
#[inline(never)]
fn makes_room(rt: &impl Abort, alloc: Global) -> Result<(), AllocError> {
    let beside: Pair<TableStore> = opened_pair(rt, alloc)?;
    makes_all::<RawStore>(rt, alloc)?;
    makes_all::<TableStore>(rt, alloc)?;
    drop(beside);
    Ok(())
}

// Makes each call that asks for memory where all is taken.
fn refuses_all<B: Reserve>(rt: &impl Abort, alloc: Global) -> Result<(), AllocError> {
    refuses_store::<B>(rt, alloc)?;
    refuses_pair::<B>(rt, alloc)?;
    refuses_image::<B>(rt, alloc)
}

#[test]
fn what_asks_for_memory_is_refused_where_none_is_left(rt: HostRuntime) -> Result<(), Fail> {
    makes_room(&rt, rt.alloc())?;
    refuses_all::<RawStore>(&rt, rt.alloc())?;
    Ok(refuses_all::<TableStore>(&rt, rt.alloc())?)
}
