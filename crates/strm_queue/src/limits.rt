//! What a queue takes: the tests of what its calls ask of their caller, and the marks that queues begin with.

ghost use Rattle.std.specs.Prelude.{◌≡◌, ◌&&◌, nat_le, nat_lt};

use strm_types::LISTS;

/// The high-water mark of a stream head's read queue as it is made, in bytes: `STRHIGH` of System V.
pub const HEAD_HIGH: u32 = 5120;

/// The low-water mark of a stream head's read queue as it is made, in bytes: `STRLOW` of System V.
pub const HEAD_LOW: u32 = 1024;

/// The high-water mark of any other queue as it is made, in bytes.
pub const OTHER_HIGH: u32 = 512;

/// The low-water mark of any other queue as it is made, in bytes.
pub const OTHER_LOW: u32 = 128;

/// Whether a store has a list of this number, below `LISTS`.
pub fn is_list(list: usize) -> bool
    ensures { result ≡ nat_lt list LISTS }
{
    list < LISTS
}

/// Whether a band can have these marks: a high-water mark of at least 1, and a low-water mark of at most that.
pub fn are_marks(high: u32, low: u32) -> bool
    ensures { result ≡ nat_le 1 high && nat_le low high }
{
    high >= 1 && low <= high
}
