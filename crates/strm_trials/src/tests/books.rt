//! A pair of an image whose book of what the master writes is full: writes are refused in both directions, and reads go on.

use super::no_memory::{SIZES, first_wrong};
use crate::tests::steps::{AGAIN, MASTER, SLAVE, Step, follow, new_pair, restored};
use crate::tests::texts::image_of;
use std::alloc::{AllocError, Global};
use std::process::Abort;
use std::test::Fail;
use strm_blocks::{Blocks, Reserve, TableStore};
use strm_pair::Pair;
use strm_raw::RawStore;
use strm_types::{Event, RULES, Refusal};

// Where the ledgers begin, from the end of an image: written, made and a number for each rule, of 8 bytes each, in both directions.
const LEDGERS: usize = 2 * 8 * (2 + RULES);

// Sets the highest byte of a number of the ledgers to that of 2^62.
fn fill(image: &mut Vec<u8>, number: usize) {
    let at = image
        .len()
        .saturating_sub(LEDGERS)
        .saturating_add(number.saturating_mul(8));
    if let Some(byte) = image.get_mut(at) {
        *byte = 0x40;
    }
}

// Opens a pair, and fills in its image what the master wrote and what was read of it.
fn full_image<B: Blocks + Drop>(
    rt: &impl Abort,
    alloc: Global,
    pair: &mut Pair<B>,
) -> Result<Vec<u8>, AllocError> {
    assert!(rt; first_wrong(pair, 3).is_none());
    let mut image = image_of(alloc, pair)?;
    fill(&mut image, 0);
    fill(&mut image, 2);
    Ok(image)
}

const REFUSED: [Step<'static>; 3] = [
    Step::Call(MASTER, Event::Write { bytes: b"a" }, Err(Refusal::Erange)),
    Step::Call(SLAVE, Event::Write { bytes: b"a" }, Err(Refusal::Erange)),
    Step::Call(SLAVE, Event::Read { n: 1 }, AGAIN),
];

// The image of a pair whose book is full.
fn image_of_full<B: Reserve>(rt: &impl Abort, alloc: Global) -> Result<Vec<u8>, AllocError> {
    let mut pair: Pair<B> = new_pair(alloc, SIZES)?;
    let image = full_image(rt, alloc, &mut pair);
    drop(pair);
    image
}

// Makes calls on the pair of that image.
fn refuses_by<B: Reserve>(rt: &impl Abort, alloc: Global, image: &[u8]) -> Result<(), AllocError> {
    let Some(mut full) = restored::<B>(alloc, SIZES, image)? else {
        panic!(rt; "an image is refused")
    };
    follow(rt, &mut full, "a full book", &REFUSED);
    drop(full);
    Ok(())
}

fn refuses_writes<B: Reserve>(rt: &impl Abort, alloc: Global) -> Result<(), AllocError> {
    let image = image_of_full::<B>(rt, alloc)?;
    let came = refuses_by::<B>(rt, alloc, image.as_slice());
    drop(image);
    came
}

#[test]
fn a_full_book_refuses_writes_of_both_sides(rt: HostRuntime) -> Result<(), Fail> {
    refuses_writes::<RawStore>(&rt, rt.alloc())?;
    Ok(refuses_writes::<TableStore>(&rt, rt.alloc())?)
}
