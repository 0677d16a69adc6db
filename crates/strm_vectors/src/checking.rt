//! Whether what a line says of an image holds.

ghost use Rattle.std.specs.Prelude.{◌≡◌, ◌<◌, ◌≤◌, Some, IfOk, OnOk};
ghost use Rattle.strm_types.specs.declared.refusals.Refusal.TheVariants.{Einval};
ghost use Rattle.strm_laws.proofs.NoOwn.{none as no_own};
ghost use Rattle.strm_image.specs.declared.versions.Version.TheVariants.{Second};
ghost use Rattle.strm_image.specs.Format.{IsTextOf};
ghost use Rattle.strm_image.specs.Image.{Imaged, image};
ghost use Rattle.strm_pair.specs.Restored.{IsImageFor, IsNoImage, image_blocks};
ghost use Rattle.strm_vectors.specs.Told.{Holds, IsFound, IsLeft};

use crate::differences::Difference;
use crate::pairs::{played, restored};
use crate::vectors::Vector;
use std::alloc::{AllocError, Global};
use strm_blocks::Reserve;
use strm_pair::Pair;
use strm_types::Refusal;

/// The most blocks of each kind that a store has.
const BLOCKS_MAX: usize = 65536;

// What a text gives: the image of its pair, and how many blocks the pair took.
#[derive(Drop)]
struct Found {
    image: Vec<u8>,
    mblks: usize,
    dblks: usize,
}

// As many blocks of each kind as have room for every text of this length: a message of 12 bytes takes at most two blocks.
fn room_for(text: &[u8]) -> usize
    ensures some { 0 < result }
    ensures few { result ≤ 65536 }
{
    (text.len() / 6 + 1).min(BLOCKS_MAX)
}

// What a pair that was made over so many blocks gives.
fn found_of<B: Reserve>(alloc: Global, pair: &Pair<B>, room: usize) -> Result<Found, Difference>
    requires mblks { pair.now.free.mblks ≤ room }
    requires dblks { pair.now.free.dblks ≤ room }
    ensures { IfOk result (λ f. IsLeft pair.now room f.image.items f.mblks f.dblks) }
{
    let (mblks, dblks) = pair.free_blocks();
    let image = pair.image(alloc)?;
    Ok(Found {
        image,
        mblks: room - mblks,
        dblks: room - dblks,
    })
}

// What a text gives over so many blocks of each kind.
fn found_over<B: Reserve>(alloc: Global, text: &[u8], room: usize) -> Result<Found, Difference>
    requires some { 0 < room }
    requires few { room ≤ 65536 }
    ensures { IfOk result (λ f. (x : Imaged) × (IsImageFor no_own text.now x × IsFound x f.image.items f.mblks f.dblks)) }
{
    let pair = restored::<B>(alloc, text, room, room)?;
    let found = found_of::<B>(alloc, &pair, room);
    drop(pair);
    found
}

// What a text gives over a store that has room for every text of its length. A text of version 2 is its pair's image.
fn found_in<B: Reserve>(alloc: Global, text: &[u8]) -> Result<Found, Difference>
    ensures { IfOk result (λ f. (x : Imaged) × (IsImageFor no_own text.now x × IsFound x f.image.items f.mblks f.dblks)) }
{
    let found = found_over::<B>(alloc, text, room_for(text))?;
    if text.get(4) == Some(&2) && found.image.as_slice() != text {
        return Err(Difference::OtherText);
    }
    Ok(found)
}

// A text takes so many blocks of each kind, and no fewer of either.
fn takes<B: Reserve>(
    alloc: Global,
    text: &[u8],
    found: &Found,
    blocks: u16,
) -> Result<(), Difference>
    ensures mblks { OnOk result (found.now.mblks ≡ blocks) }
    ensures dblks { OnOk result (found.now.dblks ≡ blocks) }
{
    let blocks = usize::from(blocks);
    if found.mblks != blocks || found.dblks != blocks {
        return Err(Difference::Takes {
            mblks: found.mblks,
            dblks: found.dblks,
        });
    }
    no_fewer::<B>(alloc, text, blocks)?;
    Ok(())
}

// So many blocks are enough for a text, and one less of either kind isn't.
fn no_fewer<B: Reserve>(alloc: Global, text: &[u8], blocks: usize) -> Result<(), Difference>
    requires { blocks < 65536 }
{
    if blocks > 0 {
        is_enough::<B>(alloc, text, blocks)?;
    }
    if blocks > 1 {
        is_short::<B>(alloc, text, blocks - 1, blocks)?;
        is_short::<B>(alloc, text, blocks, blocks - 1)?;
    }
    Ok(())
}

// A pair is made of a text over so many blocks of each kind.
fn is_enough<B: Reserve>(alloc: Global, text: &[u8], blocks: usize) -> Result<(), Difference>
    requires some { 0 < blocks }
    requires few { blocks ≤ 65536 }
{
    match refusal::<B>(alloc, text, blocks, blocks) {
        None => Ok(()),
        Some(why) => Err(Difference::Refused(why)),
    }
}

// Why no pair is made of a text over so many blocks, if none is.
fn refusal<B: Reserve>(alloc: Global, text: &[u8], mblks: usize, dblks: usize) -> Option<Refusal>
    requires some_mblks { 0 < mblks }
    requires few_mblks { mblks ≤ 65536 }
    requires some_dblks { 0 < dblks }
    requires few_dblks { dblks ≤ 65536 }
    ensures { result ≡ Some Einval → IsNoImage no_own text.now }
{
    restored::<B>(alloc, text, mblks, dblks).err()
}

// A text wants more blocks than these.
fn is_short<B: Reserve>(
    alloc: Global,
    text: &[u8],
    mblks: usize,
    dblks: usize,
) -> Result<(), Difference>
    requires some_mblks { 0 < mblks }
    requires few_mblks { mblks ≤ 65536 }
    requires some_dblks { 0 < dblks }
    requires few_dblks { dblks ≤ 65536 }
{
    match refusal::<B>(alloc, text, mblks, dblks) {
        None => Err(Difference::Enough { mblks, dblks }),
        Some(Refusal::Enosr) => Ok(()),
        Some(why) => Err(Difference::Refused(why)),
    }
}

// The pair of a text has this image, and takes so many blocks.
fn agrees<B: Reserve>(
    alloc: Global,
    text: &[u8],
    same: &[u8],
    blocks: u16,
) -> Result<(), Difference>
    ensures { OnOk result ((x : Imaged) × (IsImageFor no_own text.now x × (IsTextOf image same.now (Second, x) × (image_blocks x ≡ blocks)))) }
{
    let found = found_in::<B>(alloc, text)?;
    if found.image.as_slice() != same {
        return Err(Difference::OtherImage);
    }
    takes::<B>(alloc, text, &found, blocks)
}

// No pair is made of a text.
fn is_bad<B: Reserve>(alloc: Global, text: &[u8]) -> Result<(), Difference>
    ensures { OnOk result (IsNoImage no_own text.now) }
{
    match refusal::<B>(alloc, text, 1, 1) {
        None => Err(Difference::Restored),
        Some(why) => says_no_image(why),
    }
}

// It was refused as what is no image.
fn says_no_image(why: Refusal) -> Result<(), Difference>
    ensures { OnOk result (why ≡ Einval) }
{
    match why {
        Refusal::Einval => Ok(()),
        why => Err(Difference::Refused(why)),
    }
}

// The pairs of two texts have one image, and that of the first takes so many blocks.
fn are_alike<B: Reserve>(
    alloc: Global,
    text: &[u8],
    other: &[u8],
    blocks: u16,
) -> Result<(), Difference>
    ensures { OnOk result ((x : Imaged) × (IsImageFor no_own text.now x × (IsImageFor no_own other.now x × (image_blocks x ≡ blocks)))) }
{
    let found = found_in::<B>(alloc, other)?;
    agrees::<B>(alloc, text, found.image.as_slice(), blocks)
}

// The pair that a script leaves has the image of a text's pair, which takes so many blocks.
fn is_left<B: Reserve>(
    alloc: Global,
    text: &[u8],
    script: &[u8],
    blocks: u16,
) -> Result<(), Difference>
    ensures { OnOk result ((x : Imaged) × (IsImageFor no_own text.now x × (image_blocks x ≡ blocks))) }
{
    let left = played::<B>(alloc, script)?;
    agrees::<B>(alloc, text, left.as_slice(), blocks)
}

// A pair is made of a text.
fn is_image<B: Reserve>(alloc: Global, text: &[u8]) -> Result<(), Difference>
    ensures { OnOk result ((x : Imaged) × IsImageFor no_own text.now x) }
{
    let _found = found_in::<B>(alloc, text)?;
    Ok(())
}

/// Whether what a line says holds, and else the first thing that differs.
pub fn check<B: Reserve>(alloc: Global, vector: &Vector) -> Result<(), Difference>
    ensures { OnOk result (Holds vector.now) }
{
    match vector {
        Vector::Bad { text } => is_bad::<B>(alloc, text.as_slice()),
        Vector::Image {
            text,
            other,
            blocks,
        } => are_alike::<B>(alloc, text.as_slice(), other.as_slice(), *blocks),
        Vector::Script {
            script,
            text,
            blocks,
        } => is_left::<B>(alloc, text.as_slice(), script.as_slice(), *blocks),
        Vector::Untold { text } => is_image::<B>(alloc, text.as_slice()),
    }
}

// What a text gave, in words.
fn in_words(alloc: Global, found: &Found) -> Result<String, AllocError> {
    let image = hex::encode(alloc, found.image.as_slice())?;
    format!(in alloc; "image {image} {} {}", found.mblks, found.dblks)
}

/// What a text gives, in words: `image`, the image of its pair in hexadecimal, and how many message blocks and data blocks the pair took; or why
/// there is none.
pub fn restored_as<B: Reserve>(alloc: Global, text: &[u8]) -> Result<String, AllocError> {
    match found_in::<B>(alloc, text) {
        Ok(found) => in_words(alloc, &found),
        Err(difference) => format!(in alloc; "{difference}"),
    }
}
