//! Signals in messages (STREAMS Programming Guide: M_SIG, M_PCSIG), and those by which job control stops a caller.

ghost use Rattle.std.specs.Prelude.{◌≡◌};
ghost use Rattle.strm_types.specs.JobControl.{stop_number};
ghost use Rattle.strm_types.specs.Signals.{signal_in};

use crate::limits::SIGNAL_LAST;

/// The signal that stops a caller in the background (POSIX, General Terminal Interface: Terminal Access Control), by its number in
/// System V.
#[derive(Clone, Copy, PartialEq)]
pub enum StopSignal {
    /// It reads: SIGTTIN.
    Ttin = 26,
    /// It writes: SIGTTOU.
    Ttou = 27,
}

impl StopSignal {
    /// The number of the signal: 26 for SIGTTIN, 27 for SIGTTOU.
    pub fn number(self) -> u8
        ensures { result ≡ stop_number self }
    {
        self as u8
    }
}

/// The signal that bytes name, as those of an M_SIG or an M_PCSIG do: one byte, from 1 to 31; else there is none.
pub fn signal_in(bytes: &[u8]) -> Option<u8>
    ensures { result ≡ signal_in bytes.now }
{
    match bytes {
        [number] if *number != 0 && usize::from(*number) <= SIGNAL_LAST => Some(*number),
        _ => None,
    }
}
