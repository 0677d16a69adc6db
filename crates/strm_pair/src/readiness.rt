//! What a side's stream is ready for, as poll(2) asks.

ghost use Rattle.std.specs.Prelude.{◌≡◌};
ghost use Rattle.strm_pair.specs.Readiness.{is_answered, is_eagain, readiness};

use crate::streams::Streams;
use strm_blocks::Blocks;
use strm_own::OwnModule;
use strm_types::{Band, Refusal, Side, Slot, Wanted};

/// What the calls of a side find, as things stand. It is told by what they would be refused for, and no call is made.
#[derive(Clone, Copy, Debug, PartialEq)]
pub struct Ready {
    /// Whether the side is open; where it isn't, its calls are ENXIO.
    pub opened: bool,
    /// Whether a read of a byte or more isn't EAGAIN: it gives bytes, the end of input, or EBADMSG.
    pub reads: bool,
    /// Whether a get of any message isn't EAGAIN.
    pub gets: bool,
    /// Whether a write isn't EAGAIN: the first queue below the head isn't full in band 0.
    pub writes: bool,
    /// Whether signals wait.
    pub signals: bool,
    /// Whether an ioctl was answered, and nobody took the answer.
    pub answered: bool,
    /// Whether the other end is gone, so that nothing can be sent.
    pub hung_up: bool,
}

// Whether a call would have to wait.
fn is_eagain(refusal: Option<Refusal>) -> bool
    ensures { result ≡ is_eagain refusal }
{
    matches!(refusal, Some(Refusal::Eagain))
}

// Whether an ioctl was answered, and nobody took the answer.
fn is_answered<T>(slot: &Slot<T>) -> bool
    ensures { result ≡ is_answered slot.now }
{
    matches!(slot, Slot::Answered { .. })
}

impl Streams {
    ghost use Rattle.strm_pair.specs.Pairs.{state_in, AreHeld};

    /// What a side is ready for.
    pub fn ready<B: Blocks, M: OwnModule>(&self, store: &B, side: Side) -> Ready
        requires held { AreHeld (B.value store.now) self.now }
        ensures { result ≡ readiness M.does side (state_in (B.value store.now) self.now) }
    {
        let end = self.end(side);
        let at_end = self.is_at_end(store, side);
        Ready {
            opened: end.opened.is_open(),
            reads: !is_eagain(end.head.read_refusal(store, at_end, 1)),
            gets: !is_eagain(end.head.get_refusal(store, Wanted::Any, at_end)),
            writes: !self.is_full_below(store, side, Band(0)),
            signals: !end.head.signals.as_slice().is_empty(),
            answered: is_answered(&end.head.ioctl),
            hung_up: end.head.hung_up,
        }
    }
}
