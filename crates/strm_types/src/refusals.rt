//! Why a call is refused.

ghost use Rattle.std.specs.Prelude.{◌≡◌};
ghost use Rattle.strm_types.specs.Numbers.{number_of, refusal_numbered};
ghost use Rattle.strm_types.specs.Refused.{unless};

use thiserror::Error;

/// Why a call is refused. A refused call changes nothing. Each refusal has a number, from 1.
#[derive(Clone, Copy, Debug, Error, PartialEq)]
pub enum Refusal {
    #[error("EINVAL: an argument is out of range, or the call doesn't fit what is there")]
    Einval = 1,
    #[error("EAGAIN: the call would have to wait")]
    Eagain = 2,
    #[error("ENXIO: that side isn't open, or was hung up")]
    Enxio = 3,
    #[error("EBADMSG: the first message isn't one that a read can give")]
    Ebadmsg = 4,
    #[error("ENOSR: fewer message or data blocks are free than the call may need")]
    Enosr = 5,
    #[error("ERANGE: a size or a number is beyond its limit")]
    Erange = 6,
    #[error("the journal is full")]
    JournalFull = 7,
    #[error("each minor number is taken")]
    NoMinor = 8,
    #[error("memory was refused")]
    NoMemory = 9,
    #[error("another end still has a share of the pair")]
    StillShared = 10,
    #[error("EIO: the caller is in the background, and may not be stopped")]
    Eio = 11,
}

/// Memory was refused: the [`Refusal::NoMemory`] of a call that takes memory and has no other refusal.
#[derive(Clone, Copy, Debug, Error)]
#[error("memory was refused")]
pub struct NoMemory;

impl Refusal {
    /// The number of the refusal, from 1 for EINVAL to 11 for EIO.
    pub fn number(self) -> u8
        ensures { result ≡ number_of self }
    {
        self as u8
    }

    /// The refusal of a number, as an M_IOCNAK has it; EINVAL for a number that none has.
    pub fn numbered(number: u32) -> Refusal
        ensures { result ≡ refusal_numbered number }
    {
        match number {
            2 => Refusal::Eagain,
            3 => Refusal::Enxio,
            4 => Refusal::Ebadmsg,
            5 => Refusal::Enosr,
            6 => Refusal::Erange,
            7 => Refusal::JournalFull,
            8 => Refusal::NoMinor,
            9 => Refusal::NoMemory,
            10 => Refusal::StillShared,
            11 => Refusal::Eio,
            _ => Refusal::Einval,
        }
    }
}

/// A refusal unless a condition holds.
#[inline(always)]
pub fn unless(condition: bool, refusal: Refusal) -> Option<Refusal>
    ensures { result ≡ unless condition refusal }
{
    if condition { None } else { Some(refusal) }
}
