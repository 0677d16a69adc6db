//! Which version an image has, and which of the queues of a stream stands at a place of it.

/// The version of an image. Version 1 lists the first [`FIRST_BANDS`] bands of each queue, version 2 those that aren't as a queue
/// is made.
#[derive(Clone, Copy)]
pub enum Version {
    First = 1,
    Second = 2,
}

/// How many bands of each queue version 1 lists. Its messages are of these alone.
pub const FIRST_BANDS: usize = 8;

/// Which of the queues of a stream one is: the head's, those of a module, or the driver's.
#[derive(Clone, Copy)]
pub enum QueueKind {
    Head,
    ModuleRead,
    ModuleWrite,
    Driver,
}

/// What there is of an ioctl under way, as a byte of an image says it.
#[derive(Clone, Copy)]
pub enum SlotKind {
    Free = 0,
    Waiting = 1,
    Answered = 2,
}

/// What the name of a module is, as a byte of an image says it: one of the three that there are, or one of a user's own, whose number
/// follows.
#[derive(Clone, Copy)]
pub enum NameKind {
    Ldterm = 1,
    Ptem = 2,
    Pckt = 3,
    Own = 4,
}

/// What a queue belongs to, as a byte of an image says it: a head, `ldterm`, a driver, or a module of a user's own, whose number follows.
#[derive(Clone, Copy)]
pub enum PlaceKind {
    Head = 0,
    Ldterm = 1,
    Driver = 2,
    Own = 3,
}

/// What messages take and hold: how many blocks of each kind they take, and how many of their bytes a ledger counts, which are
/// those of M_DATA, M_PROTO and M_PCPROTO.
#[derive(Clone, Copy)]
pub struct Load {
    pub blocks: usize,
    pub cells: u128,
}
