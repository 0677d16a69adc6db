//! The modes of a stream head, what a getmsg(2) asks for, and what a putmsg(2) sends.

use crate::kinds::Band;

/// How a read treats the ends of messages (streamio(7I): I_SRDOPT).
#[derive(Clone, Copy, PartialEq)]
pub enum ReadMode {
    /// RNORM: bytes are taken across messages.
    ByteStream,
    /// RMSGN: a read ends with its message, whose rest stays.
    MessageKeep,
    /// RMSGD: a read ends with its message, whose rest is discarded.
    MessageDiscard,
}

/// How a read treats control parts (streamio(7I): I_SRDOPT).
#[derive(Clone, Copy, PartialEq)]
pub enum ControlMode {
    /// RPROTNORM: a read of a message that has one fails with EBADMSG.
    Refuse,
    /// RPROTDAT: they are given as data.
    Data,
    /// RPROTDIS: they are discarded.
    Discard,
}

/// One mode of a stream head that I_SRDOPT of streamio(7I) sets: how reads end, or what they do with control parts. The other
/// one stays.
#[derive(Clone, Copy, PartialEq)]
pub enum Mode {
    Read(ReadMode),
    Control(ControlMode),
}

/// Which message a getmsg(2) or getpmsg(2) takes: the first one, if it is of this kind.
#[derive(Clone, Copy, PartialEq)]
pub enum Wanted {
    /// Any message.
    Any,
    /// One of high priority.
    High,
    /// One of high priority, or of at least this band.
    Band(Band),
}

/// The priority of a message that a putmsg(2) or putpmsg(2) sends, or that a getmsg(2) or getpmsg(2) gives: high (RS_HIPRI,
/// MSG_HIPRI), or a band from 0 to 255 (MSG_BAND).
#[derive(Clone, Copy, Debug, PartialEq)]
pub enum Prio {
    High,
    Band(Band),
}
