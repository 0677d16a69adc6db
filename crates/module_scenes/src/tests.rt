//! Scenes of a pair whose slave pushes a module of a user's own, over both stores: rows of steps, each with what must come of it. In the middle of each
//! an image is taken, no pair without the module is made of it, and the scene goes on with the pair that is made of it.

mod byte_counts;
mod code_pages;
mod lines;
mod pairs;
mod steps;

use crate::tests::pairs::{image_of, new_pair, refused_without, restored};
use crate::tests::steps::{OPENING, Step, follow};
use byte_counter::ByteCounter;
use code_page::CodePage;
use line_buffer::LineBuffer;
use std::alloc::{AllocError, Global};
use std::process::Abort;
use std::test::Fail;
use strm_blocks::{Reserve, TableStore};
use strm_pair::OwnModule;
use strm_raw::RawStore;
use strm_types::Refusal;

/// What a scene shows, its steps on a new pair whose sides are open, and those on the pair that is made of its image.
struct Scene<'a> {
    title: &'a str,
    first: &'a [Step<'a>],
    then: &'a [Step<'a>],
}

// Goes through the first part of a scene on a new pair, and gives its image.
fn begins<B: Reserve, M: OwnModule>(
    rt: &impl Abort,
    alloc: Global,
    scene: &Scene<'_>,
) -> Result<Vec<u8>, AllocError> {
    let mut pair = new_pair::<B, M>(alloc)?;
    follow(rt, &mut pair, scene.title, &OPENING);
    follow(rt, &mut pair, scene.title, scene.first);
    image_of(alloc, &pair)
}

// Goes through the second part of a scene on a pair that is made of this image.
fn goes_on<B: Reserve, M: OwnModule>(
    rt: &impl Abort,
    alloc: Global,
    scene: &Scene<'_>,
    image: &[u8],
) -> Result<(), AllocError> {
    let Some(mut pair) = restored::<B, M>(alloc, image)? else {
        panic!(rt; "{}: the image is refused", scene.title)
    };
    follow(rt, &mut pair, scene.title, scene.then);
    Ok(())
}

fn plays<B: Reserve, M: OwnModule>(
    rt: &impl Abort,
    alloc: Global,
    scene: &Scene<'_>,
) -> Result<(), AllocError> {
    let image = begins::<B, M>(rt, alloc, scene)?;
    let without = refused_without::<B>(alloc, image.as_slice())?;
    assert_eq!(rt; without, Some(Refusal::Einval), "{}", scene.title);
    goes_on::<B, M>(rt, alloc, scene, image.as_slice())
}

// Plays scenes over both stores.
fn play_all<M: OwnModule>(
    rt: &impl Abort,
    alloc: Global,
    scenes: &[Scene<'_>],
) -> Result<(), AllocError> {
    for scene in scenes {
        plays::<RawStore, M>(rt, alloc, scene)?;
        plays::<TableStore, M>(rt, alloc, scene)?;
    }
    Ok(())
}

#[test]
fn a_code_page_changes_bytes(rt: HostRuntime) -> Result<(), Fail> {
    play_all::<CodePage>(&rt, rt.alloc(), &code_pages::SCENES)?;
    Ok(())
}

#[test]
fn a_byte_counter_counts(rt: HostRuntime) -> Result<(), Fail> {
    play_all::<ByteCounter>(&rt, rt.alloc(), &byte_counts::SCENES)?;
    Ok(())
}

#[test]
fn a_line_buffer_gathers(rt: HostRuntime) -> Result<(), Fail> {
    play_all::<LineBuffer>(&rt, rt.alloc(), &lines::SCENES)?;
    Ok(())
}
