//! The headers of ioctl messages (streamio(7I): I_STR; sys/stream.h: `struct iocblk`).

ghost use Rattle.std.specs.Prelude.{◌≡◌, ◌≤◌, ◌+◌, length, Some};
ghost use Rattle.strm_types.specs.Acks.{acked};
ghost use Rattle.strm_types.specs.Ioctls.{asking, ioc_bytes, read_ioc, refused, word_at, word_bytes};

use crate::refusals::Refusal;

/// The header of an M_IOCTL, M_IOCACK or M_IOCNAK: 16 bytes in front of its payload. The command, the number by which the
/// answer is told from others (0 where none is wanted), the number of a refusal in an answer, and the result.
#[derive(Clone, Copy, Debug, PartialEq)]
pub struct Ioc {
    pub command: u32,
    pub number: u32,
    pub error: u32,
    pub result: u32,
}

/// The commands that terminals have, by their numbers (termio(7I), ptm(7D)): the termios, read or set at once, behind the
/// output, or behind the output with the input flushed; the size of the window, read or set; and a signal for the other side.
pub const TCGETS: u32 = 1;

pub const TCSETS: u32 = 2;

pub const TCSETSW: u32 = 3;

pub const TCSETSF: u32 = 4;

pub const TIOCGWINSZ: u32 = 5;

pub const TIOCSWINSZ: u32 = 6;

pub const TIOCSIGNAL: u32 = 7;

/// The foreground process group of the slave's terminal, read or set (POSIX: `tcgetpgrp`, `tcsetpgrp`): its stream head answers.
pub const TIOCGPGRP: u32 = 8;

pub const TIOCSPGRP: u32 = 9;

/// The number of 32 bits that stands so many bytes on, its most significant byte first.
pub fn word_at(bytes: &[u8], at: usize) -> u32
    requires { at + 4 ≤ length bytes.now }
    ensures { result ≡ word_at at bytes.now }
{
    u32::from_be_bytes([bytes[at], bytes[at + 1], bytes[at + 2], bytes[at + 3]])
}

impl Ioc {
    /// The header of a command that gets this number.
    pub fn asking(command: u32, number: u32) -> Ioc
        ensures { result ≡ asking command number }
    {
        Ioc {
            command,
            number,
            error: 0,
            result: 0,
        }
    }

    /// Reads the header that a message's bytes begin with; `None` exactly where they are fewer than 16.
    pub fn read(bytes: &[u8]) -> Option<Ioc>
        ensures { result ≡ read_ioc bytes.now }
    {
        if bytes.len() < 16 {
            return None;
        }
        Some(Ioc {
            command: word_at(bytes, 0),
            number: word_at(bytes, 4),
            error: word_at(bytes, 8),
            result: word_at(bytes, 12),
        })
    }

    /// The 16 bytes of the header, which [`Ioc::read`] reads back.
    pub fn bytes(&self) -> [u8; 16]
        ensures bytes { result ≡ ioc_bytes self.now }
        ensures back { read_ioc result ≡ Some self.now }
    {
        let a = self.command.to_be_bytes();
        let b = self.number.to_be_bytes();
        let c = self.error.to_be_bytes();
        let d = self.result.to_be_bytes();
        [
            a[0], a[1], a[2], a[3], b[0], b[1], b[2], b[3], c[0], c[1], c[2], c[3], d[0], d[1],
            d[2], d[3],
        ]
    }

    /// The header of the answer to a command that nobody knows: EINVAL (streamio(7I): I_STR).
    pub fn refused(&self) -> Ioc
        ensures { result ≡ refused self.now }
    {
        Ioc {
            error: u32::from(Refusal::Einval.number()),
            result: 0,
            ..*self
        }
    }

    /// The header of the answer that the command was obeyed (streamio(7I): I_STR).
    pub fn acked(&self) -> Ioc
        ensures { result ≡ acked self.now }
    {
        Ioc {
            error: 0,
            result: 0,
            ..*self
        }
    }
}
