//! What the lines say.

use crate::scripts::script_in;
use anyhow::{Result, bail};
use std::alloc::Global;

/// What a line says of an image.
#[derive(Drop)]
pub enum Vector {
    /// The text is the image of no state.
    Bad {
        text: Vec<u8>,
    },
    /// The text is an image, and its pair takes so many blocks of each kind and has the image that a pair of the other text has.
    Image {
        text: Vec<u8>,
        other: Vec<u8>,
        blocks: u16,
    },
    /// The pair that a script leaves has the image that a pair of the text has, which takes so many blocks of each kind.
    Script {
        script: Vec<u8>,
        text: Vec<u8>,
        blocks: u16,
    },
    /// Nothing: the answer is the image of the text's pair.
    Untold {
        text: Vec<u8>,
    },
}

/// What the fields of a line say: `bad TEXT WHY`; `flip TEXT EINVAL`; `WORD TEXT accepted OTHER BLOCKS` with the word `flip`, `also` or `from1`;
/// `restore TEXT`; and with any other first field `SCRIPT TEXT BLOCKS`. Texts are in hexadecimal, BLOCKS is below 65,536, and in SCRIPT `\n` stands
/// for the end of a line and `\\` for a backslash.
pub fn vector_of(alloc: Global, fields: &[&str]) -> Result<Vector> {
    match fields {
        ["bad", text, _] | ["flip", text, "EINVAL"] => Ok(Vector::Bad {
            text: hex::decode(alloc, *text)?,
        }),
        ["flip" | "also" | "from1", text, "accepted", other, blocks] => Ok(Vector::Image {
            text: hex::decode(alloc, *text)?,
            other: hex::decode(alloc, *other)?,
            blocks: blocks.parse::<u16>()?,
        }),
        ["restore", text] => Ok(Vector::Untold {
            text: hex::decode(alloc, *text)?,
        }),
        [script, text, blocks] => Ok(Vector::Script {
            script: script_in(alloc, script)?,
            text: hex::decode(alloc, *text)?,
            blocks: blocks.parse::<u16>()?,
        }),
        _ => bail!("{} fields", fields.len()),
    }
}
