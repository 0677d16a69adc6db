//! What an M_FLUSH asks for (STREAMS Programming Guide, "Flush Handling").

ghost use Rattle.std.specs.Prelude.{◌≡◌, ◌≤◌, length};
ghost use Rattle.strm_types.specs.Flushing.{asked_by, asked_of, flags_of, flush_bytes, read_flush, nothing_asked};
ghost use Rattle.std.specs.Prelude.{true};

use crate::events::FlushQueues;
use crate::kinds::Band;
use arrayvec::ArrayVec;

/// What an M_FLUSH asks for: whether queues of the read side (FLUSHR) and of the write side (FLUSHW) are to be emptied, and of
/// which band (FLUSHBAND), where not of all.
#[derive(Clone, Copy, Debug, PartialEq)]
pub struct FlushAsked {
    pub for_read: bool,
    pub for_write: bool,
    pub band: Option<Band>,
}

const NOTHING_ASKED: FlushAsked = FlushAsked {
    for_read: false,
    for_write: false,
    band: None,
};

impl FlushAsked {
    /// Reads the bytes of an M_FLUSH: flags, FLUSHR 1, FLUSHW 2 and FLUSHBAND 4, and with FLUSHBAND a band. Without a byte,
    /// or with FLUSHBAND and no band, nothing is asked.
    pub fn read(bytes: &[u8]) -> FlushAsked
        ensures asked { result ≡ asked_by bytes.now }
    {
        if bytes.is_empty() {
            return NOTHING_ASKED;
        }
        let flags = bytes[0];
        let asked = FlushAsked {
            for_read: flags % 2 == 1,
            for_write: flags / 2 % 2 == 1,
            band: None,
        };
        if flags / 4 % 2 == 0 {
            return asked;
        }
        if bytes.len() < 2 {
            return NOTHING_ASKED;
        }
        FlushAsked {
            band: Some(Band(bytes[1])),
            ..asked
        }
    }

    /// What a flush of a stream asks for, of a band or of all: `I_FLUSH` and `I_FLUSHBAND` of streamio(7I).
    pub fn of(what: FlushQueues, band: Option<Band>) -> FlushAsked
        ensures { result ≡ asked_of what band }
    {
        FlushAsked {
            for_read: !matches!(what, FlushQueues::Write),
            for_write: !matches!(what, FlushQueues::Read),
            band,
        }
    }

    // The worth of its flags: FLUSHR 1, FLUSHW 2.
    fn flags(&self) -> u8
        ensures value { result ≡ flags_of self.now.for_read self.now.for_write }
        ensures small { result ≤ 3 }
    {
        match (self.for_read, self.for_write) {
            (false, false) => 0,
            (true, false) => 1,
            (false, true) => 2,
            (true, true) => 3,
        }
    }

    /// The bytes of an M_FLUSH that asks for this.
    pub fn bytes(&self) -> ArrayVec<u8, 2>
        ensures { result.items ≡ flush_bytes self.now }
    {
        let mut bytes = ArrayVec::new();
        match self.band {
            Some(band) => {
                bytes.push(self.flags() + 4);
                bytes.push(band.0);
            }
            None => bytes.push(self.flags()),
        }
        bytes
    }

    /// The bytes of an M_FLUSH with FLUSHR alone, and the band where one is named.
    pub fn for_readers(&self) -> ArrayVec<u8, 2>
        ensures { result.items ≡ read_flush self.now.band }
    {
        let mut bytes = ArrayVec::new();
        match self.band {
            Some(band) => {
                bytes.push(5);
                bytes.push(band.0);
            }
            None => bytes.push(1),
        }
        bytes
    }
}
