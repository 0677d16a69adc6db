//! Limits that all crates share, and the sizes that a pair is made with.

ghost use Rattle.std.specs.Prelude.{◌≡◌, ◌<◌, ◌^◌};
ghost use Rattle.strm_types.specs.Refused.{turn_blocks};
ghost use Rattle.strm_types.specs.Write.{chunk_count};

use crate::names::Place;

/// How many bytes a data block holds.
pub const BLOCK_SIZE: usize = 256;

/// How many lists of messages a store has.
pub const LISTS: usize = 16;

/// How many bands a queue has: 0 for ordinary messages, up to 255.
pub const BANDS: usize = 256;

/// The rank of messages of high priority, above that of any band.
pub const HIGH_PRIORITY_RANK: usize = 256;

/// How many modules a stream has at most.
pub const MODULES: usize = 3;

/// How often a message is handed on at most, with all that it gives rise to.
pub const HOPS: usize = 16;

/// The most bytes that one read gives, or one part of a getmsg(2).
pub const READ_MAX: usize = 4096;

/// The most bytes that one call gives: both parts of a getmsg(2).
pub const CONTENT_MAX: usize = 8192;

/// The most bytes of the control part and of the data part that one putmsg(2) sends.
pub const CONTROL_MAX: usize = 64;

pub const DATA_MAX: usize = 256;

/// The most bytes that an ioctl(2) sends behind its header, and that its answer gives.
pub const IOCTL_MAX: usize = 256;

/// The most bytes that a module of a user's own is set to.
pub const SETTINGS_MAX: usize = 320;

/// The first number of modules of a user's own that have queues: those of lower numbers have none.
pub const OWN_QUEUED: u8 = 128;

/// The number that no ioctl gets: a pair numbers its ioctls from 1, up to the one before it.
pub const IOCTL_END: u32 = 4294967295;

/// The last signal: a signal is a number from 1 to this one.
pub const SIGNAL_LAST: usize = 31;

/// How many bytes the journal has to have room for where a call asks for the signals that wait.
pub const SIGNALS_MAX: usize = 32;

/// How many blocks of each kind have to be free for a write or a putmsg(2), beside those that it takes.
pub const WRITE_BLOCKS: usize = 32;

/// How many blocks of each kind have to be free for an ioctl(2).
pub const IOCTL_BLOCKS: usize = 34;

/// How many blocks of each kind have to be free for a turn of a driver's queue.
pub const TURN_BLOCKS: usize = 8;

/// A service procedure may stop within a message where fewer blocks than these of some kind are free, and these have to be for a
/// turn of a module's queue.
pub const STOP_BLOCKS: usize = 32;

/// How many blocks of each kind have to be free for a flush, and for a push or a pop.
pub const CHANGE_BLOCKS: usize = 8;

/// How many blocks of each kind have to be free for a close.
pub const CLOSE_BLOCKS: usize = 2;

/// The sizes of a pair. All of it is reserved when the pair is made.
#[derive(Clone, Copy)]
pub struct Config {
    /// How many message blocks the pair has.
    pub mblks: usize,
    /// How many data blocks the pair has, of 256 bytes each.
    pub dblks: usize,
    /// How many entries the journal can hold.
    pub journal_events: usize,
    /// How many bytes of payloads and answers the journal can hold.
    pub journal_bytes: usize,
}

/// How many blocks so many bytes want, and how many messages a write of them makes: one for each begun 256, at least
/// one.
#[tactic(auto, unfolding(crate::specs::Write::chunk_count))]
pub fn chunk_count(bytes: usize) -> usize
    requires { bytes < 2 ^ 63 }
    ensures value { result ≡ chunk_count bytes }
    ensures small { result < 2 ^ 62 }
{
    ((bytes + (BLOCK_SIZE - 1)) / BLOCK_SIZE).max(1)
}

/// How many blocks of each kind have to be free for a turn of a queue at a place.
pub fn turn_blocks(place: Place) -> usize
    ensures { result ≡ turn_blocks place }
{
    match place {
        Place::Driver | Place::Head => TURN_BLOCKS,
        Place::Module(_) => STOP_BLOCKS,
    }
}
