//! Flow control of one band.

ghost use Rattle.std.specs.Prelude.{◌≡◌, ◌+◌, ◌≤◌, ◌<◌, ◌^◌, ◌↔◌, IsTrue, nat_le, false, if◌then◌else◌};
ghost use Rattle.strm_queue.specs.Flows.{count_in, kept_bytes, added_to, removed_from, flushed_of, marked_with, plain_flow, at_rest, relieved, relieves};
ghost use Rattle.strm_queue.specs.Flushes.{takes_all};

use crate::flush::Flush;
use crate::share::Share;
use strm_types::Marks;

/// The flow control of one band: how many bytes stand there, in messages of data (M_DATA, M_PROTO, M_PCPROTO) and in
/// others; the high-water and the low-water mark; whether the band is full, which it is from its high-water mark on;
/// and whether a writer waits for it. A store has 16 MiB at most, so numbers of 32 bits hold each count.
#[derive(Clone, Copy)]
pub struct Flow {
    pub data_bytes: u32,
    pub other_bytes: u32,
    pub high: u32,
    pub low: u32,
    pub full: bool,
    pub want_write: bool,
}

impl Flow {
    /// The flow control of a band where nothing stands, with these marks.
    pub fn new(high: u32, low: u32) -> Flow
        ensures { result ≡ record {
          data_bytes = 0;
          other_bytes = 0;
          high = high;
          low = low;
          full = nat_le high 0;
          want_write = false;
        } }
    {
        Flow {
            data_bytes: 0,
            other_bytes: 0,
            high,
            low,
            full: high == 0,
            want_write: false,
        }
    }

    /// How many bytes stand in the band.
    pub fn count(&self) -> u32
        requires { count_in self.now < 2 ^ 32 }
        ensures { result ≡ count_in self.now }
    {
        self.data_bytes + self.other_bytes
    }

    /// How many bytes of data stand in the band, or of all messages.
    pub(crate) fn kept(&self, data_alone: bool) -> u32
        requires { count_in self.now < 2 ^ 32 }
        ensures { result ≡ kept_bytes data_alone self.now }
    {
        if data_alone {
            self.data_bytes
        } else {
            self.count()
        }
    }

    /// With a message's bytes added.
    pub(crate) fn with(self, share: Share) -> Flow
        requires { count_in self + share.bytes < 2 ^ 32 }
        ensures { result ≡ added_to share.is_data share.bytes self }
    {
        let mut flow = self;
        if share.is_data {
            flow.data_bytes += share.bytes;
        } else {
            flow.other_bytes += share.bytes;
        }
        flow.full = flow.count() >= flow.high;
        flow
    }

    /// With a message's bytes taken away.
    pub(crate) fn without(self, share: Share) -> Flow
        requires small { count_in self < 2 ^ 32 }
        requires has { share.bytes ≤ (if share.is_data then self.data_bytes else self.other_bytes) }
        ensures { result ≡ removed_from share.is_data share.bytes self }
    {
        let mut flow = self;
        if share.is_data {
            flow.data_bytes -= share.bytes;
        } else {
            flow.other_bytes -= share.bytes;
        }
        flow.full = flow.count() >= flow.high;
        flow
    }

    /// After a flush of all messages, or of those of data.
    pub(crate) fn flushed(self, what: Flush) -> Flow
        requires { count_in self < 2 ^ 32 }
        ensures { result ≡ flushed_of (takes_all what) self }
    {
        let mut flow = self;
        flow.data_bytes = 0;
        if what.takes_all() {
            flow.other_bytes = 0;
        }
        flow.full = flow.count() >= flow.high;
        flow
    }

    /// With other marks.
    pub(crate) fn marked(self, high: u32, low: u32) -> Flow
        requires { count_in self < 2 ^ 32 }
        ensures { result ≡ marked_with high low self }
    {
        let mut flow = self;
        flow.high = high;
        flow.low = low;
        flow.full = flow.count() >= high;
        flow
    }

    /// Whether the band has these marks, and no writer waits for it.
    pub(crate) fn is_at_rest(&self, marks: Marks) -> bool
        ensures { IsTrue result ↔ plain_flow self.now ≡ at_rest marks }
    {
        self.high == marks.high && self.low == marks.low && !self.want_write
    }

    /// Whether a waiting writer is let go: the count is at or below the low-water mark.
    pub(crate) fn lets_go(&self) -> bool
        requires { count_in self.now < 2 ^ 32 }
        ensures { result ≡ relieves self.now }
    {
        self.want_write && self.count() <= self.low
    }

    /// Without its waiting writer, where that is let go.
    pub(crate) fn relieved(self) -> Flow
        requires { count_in self < 2 ^ 32 }
        ensures { result ≡ relieved self }
    {
        let mut flow = self;
        if flow.lets_go() {
            flow.want_write = false;
        }
        flow
    }
}
