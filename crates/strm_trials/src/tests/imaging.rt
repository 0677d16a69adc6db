//! The image of a pair.

use super::steps::{DONE, MASTER, MASTER_DRIVER, SIZES, SLAVE, Step, follow, new_pair, opens};
use super::texts::{buffer, image_into, image_of};
use std::alloc::{AllocError, Global};
use std::process::Abort;
use std::test::Fail;
use strm_blocks::{Blocks, Reserve, TableStore};
use strm_image::read;
use strm_pair::Pair;
use strm_raw::RawStore;
use strm_types::{Answer, Event, ModuleName, Turn};

// The image of a new pair up to its ledgers. Nobody opened a side, the slave is locked, and the next ioctl is the first one. No side has a
// module, and its queues are as they are made: they want to be read. No queue is enabled.
const FRONT: &[u8] = b"STPI\x02\x00\x00\x01\x00\x00\x00\x01\
    \x00\x00\x00\x00\x00\x00\x01\x00\x00\x00\x00\x00\x00\x01\x00\x00\x00\x00\x00\x00\
    \x00\x00\x00\x00\x00\x00\x01\x00\x00\x00\x00\x00\x00\x01\x00\x00\x00\x00\x00\x00\
    \x00";

// Both ledgers follow: 23 numbers of 64 bits each.
const NO_LEDGERS: &[u8] = &[0; 368];

fn is_new(text: &[u8]) -> bool {
    text.len() == 421 && text.starts_with(FRONT) && text.ends_with(NO_LEDGERS)
}

const BEHIND: &[u8] = &[7; 91];

// Writes an image of 421 bytes into a buffer of 512, each of which is 7, and says whether it has these and those behind it stay.
fn is_written<B: Blocks + Drop>(pair: &Pair<B>, out: &mut [u8], image: &[u8]) -> bool {
    image_into(pair, out) == 421
        && out.len() == 512
        && out.starts_with(image)
        && out.ends_with(BEHIND)
}

// Whether an image of 421 bytes has these in a buffer of 420.
fn is_cut_off<B: Blocks + Drop>(pair: &Pair<B>, out: &mut [u8], image: &[u8]) -> bool {
    image_into(pair, out) == 421
        && out.len() == 420
        && image.starts_with(out)
        && image_into(pair, &mut []) == 421
}

// How many blocks the messages of an image take.
fn blocks_in(image: &[u8]) -> Option<usize> {
    let found = read(image)?;
    Some(found.state.blocks())
}

fn takes_421_bytes(image: &[u8]) -> bool {
    image.len() == 421 && !is_new(image) && blocks_in(image) == Some(0)
}

// Whether the image of a new pair has two silent streams.
fn is_silent<B: Blocks + Drop>(alloc: Global, pair: &Pair<B>) -> Result<bool, AllocError> {
    let image = image_of(alloc, pair)?;
    Ok(is_new(image.as_slice()))
}

// Whether the image of an opened pair takes 421 bytes, which go into a buffer, and of which one that is too small has the first ones.
fn is_opened<B: Blocks + Drop>(alloc: Global, pair: &Pair<B>) -> Result<bool, AllocError> {
    let image = image_of(alloc, pair)?;
    let mut out = buffer(alloc, 7, 512)?;
    let mut short = buffer(alloc, 7, 420)?;
    Ok(
        takes_421_bytes(image.as_slice())
            && is_written(pair, out.as_mut_slice(), image.as_slice())
            && is_cut_off(pair, short.as_mut_slice(), image.as_slice()),
    )
}

// An ldterm, half a line on its way, and a byte behind it.
const TYPING: [Step<'static>; 4] = [
    Step::Call(
        SLAVE,
        Event::Push {
            name: Some(ModuleName::Ldterm),
        },
        DONE,
    ),
    Step::Call(
        MASTER,
        Event::Write { bytes: b"one\ntw" },
        Ok(Answer::Count(6)),
    ),
    Step::Turn(MASTER_DRIVER, Ok(Turn::Moved(6))),
    Step::Call(MASTER, Event::Write { bytes: b"o" }, Ok(Answer::Count(1))),
];

// Whether the messages of the image take two blocks: "one\ntw" stands at the ldterm, and "o" at the driver.
fn has_two<B: Blocks + Drop>(alloc: Global, pair: &Pair<B>) -> Result<bool, AllocError> {
    let image = image_of(alloc, pair)?;
    Ok(blocks_in(image.as_slice()) == Some(2))
}

fn is_shown<B: Blocks + Drop>(
    rt: &impl Abort,
    alloc: Global,
    pair: &mut Pair<B>,
) -> Result<(), AllocError> {
    assert!(rt; is_silent(alloc, pair)?, "a new pair");
    opens(rt, pair);
    assert!(rt; is_opened(alloc, pair)?, "an opened pair");
    follow(rt, pair, "typing", &TYPING);
    assert!(rt; has_two(alloc, pair)?, "what stands on queues");
    Ok(())
}

fn is_imaged<B: Reserve>(rt: &impl Abort, alloc: Global) -> Result<(), AllocError> {
    let mut pair: Pair<B> = new_pair(alloc, SIZES)?;
    is_shown(rt, alloc, &mut pair)
}

#[test]
fn the_image_of_a_pair_has_its_streams_and_what_stands_on_queues(
    rt: HostRuntime,
) -> Result<(), Fail> {
    is_imaged::<TableStore>(&rt, rt.alloc())?;
    Ok(is_imaged::<RawStore>(&rt, rt.alloc())?)
}
