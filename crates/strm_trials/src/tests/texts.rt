//! Images of pairs, in a buffer and in memory of their own.

use std::alloc::{AllocError, Global};
use strm_blocks::Blocks;
use strm_pair::Pair;

/// A buffer of so many bytes, which are all this one.
pub fn buffer(alloc: Global, byte: u8, len: usize) -> Result<Vec<u8>, AllocError> {
    Vec::from_elem(alloc, byte, len)
}

/// Writes the image of a pair into a buffer, as far as it goes, and says how long the image is.
pub fn image_into<B: Blocks + Drop>(pair: &Pair<B>, out: &mut [u8]) -> usize {
    pair.image_into(out)
}

/// Whether this is the image of a pair, in a buffer that has room for it.
pub fn is_imaged<B: Blocks + Drop>(pair: &Pair<B>, out: &mut [u8], image: &[u8]) -> bool {
    let length = image_into(pair, out);
    length == image.len() && out.starts_with(image)
}

/// The image of a pair in memory of its own.
pub fn image_of<B: Blocks + Drop>(alloc: Global, pair: &Pair<B>) -> Result<Vec<u8>, AllocError> {
    let Ok(text) = pair.image(alloc) else {
        return Err(AllocError);
    };
    Ok(text)
}
