//! What an M_SETOPTS sets at a stream head.

ghost use Rattle.std.specs.Prelude.{◌≡◌, ◌≤◌, length};
ghost use Rattle.strm_types.specs.Options.{mode_numbered, marks_in, options_in, tostop_in, tostop_numbered, with_tostop};

use crate::ioctls::word_at;
use crate::modes::ReadMode;

/// The marks of a queue: the high-water mark, from which on a band is full, and the low-water mark, down to which its count has
/// to come until writers go on.
#[derive(Clone, Copy)]
pub struct Marks {
    pub high: u32,
    pub low: u32,
}

/// What an M_SETOPTS sets at a stream head (STREAMS Programming Guide: `struct stroptions`): the read mode, TOSTOP (termio(7I)), and
/// the marks of all bands, each where it is given.
#[derive(Clone, Copy)]
pub struct Options {
    pub mode: Option<ReadMode>,
    pub tostop: Option<bool>,
    pub marks: Option<Marks>,
}

const NOTHING_SET: Options = Options {
    mode: None,
    tostop: None,
    marks: None,
};

// The read mode of a number: RNORM 0, RMSGD 1, RMSGN 2.
fn mode_numbered(number: u8) -> Option<ReadMode>
    ensures { result ≡ mode_numbered number }
{
    match number {
        0 => Some(ReadMode::ByteStream),
        1 => Some(ReadMode::MessageDiscard),
        2 => Some(ReadMode::MessageKeep),
        _ => None,
    }
}

// TOSTOP by its number: 0 or 1.
fn tostop_numbered(number: u8) -> Option<bool>
    ensures { result ≡ tostop_numbered number }
{
    match number {
        0 => Some(false),
        1 => Some(true),
        _ => None,
    }
}

// TOSTOP, where the first byte says it.
fn tostop_in(bytes: &[u8]) -> Option<bool>
    ensures { result ≡ tostop_in bytes.now }
{
    let (number, _) = bytes.split_first()?;
    tostop_numbered(*number)
}

// The marks that eight bytes give: none where they aren't in order, or the high one is 0.
fn marks_in(bytes: &[u8]) -> Option<Marks>
    requires { 8 ≤ length bytes.now }
    ensures { result ≡ marks_in bytes.now }
{
    let high = word_at(bytes, 0);
    let low = word_at(bytes, 4);
    if high == 0 || low > high {
        return None;
    }
    Some(Marks { high, low })
}

impl Options {
    // Those of two bytes. Where the second one isn't TOSTOP's nothing is set.
    fn with_tostop(mode: Option<ReadMode>, tostop: Option<bool>) -> Options
        ensures { result ≡ with_tostop mode tostop }
    {
        match tostop {
            None => NOTHING_SET,
            Some(tostop) => Options {
                mode,
                tostop: Some(tostop),
                marks: None,
            },
        }
    }

    /// Reads the bytes of an M_SETOPTS: a read mode (RNORM 0, RMSGD 1, RMSGN 2), and behind it nothing, or TOSTOP (0 or 1) in a
    /// byte, or the high-water and the low-water mark of 32 bits each. A mode or marks that aren't in range are as though they
    /// weren't given; another TOSTOP, and another number of bytes, set nothing.
    pub fn read(bytes: &[u8]) -> Options
        ensures { result ≡ options_in bytes.now }
    {
        let Some((mode, rest)) = bytes.split_first() else {
            return NOTHING_SET;
        };
        let mode = mode_numbered(*mode);
        match rest.len() {
            0 => Options {
                mode,
                tostop: None,
                marks: None,
            },
            1 => Options::with_tostop(mode, tostop_in(rest)),
            8 => Options {
                mode,
                tostop: None,
                marks: marks_in(rest),
            },
            _ => NOTHING_SET,
        }
    }
}
