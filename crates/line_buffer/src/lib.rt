//! A module of a user's own with queues: a line buffer. What is written waits on its write queue until a line is whole, or enough bytes stand there.
#![tactic(auto)]

ghost use Rattle.std.specs.Prelude.{◌≡◌};
ghost use Rattle.line_buffer.specs.LineBuffer.{waits};

use strm_blocks::{Blocks, InHand};
use strm_frame::Outbox;
use strm_frame::ioctls::is_ioctl;
use strm_laws::Behaves;
use strm_pair::{Own, OwnModule, has_byte, has_ioctl, pass_on};
use strm_queue::Queue;
use strm_queue::standing::total;
use strm_types::{Fates, MsgKind, Spot, Way};

/// The number of the module among a user's own: `ModuleName::Own(LINE_BUFFER)` is pushed. As it is 128 or more, the module has queues.
pub const LINE_BUFFER: u8 = 128;

/// The byte that ends a line: NL.
pub const LINE_END: u8 = 10;

/// How many bytes go on without a line's end.
pub const MOST: usize = 128;

/// A module that gathers lines on the way down. M_DATA waits on its write queue, and behind it M_IOCTL, until an NL stands there, `MOST` bytes do, or
/// an M_IOCTL; then a turn of the queue lets the first message go, as long as that holds of what stands there. All else passes at once, and so does
/// what comes up. No byte is changed.
pub enum LineBuffer {}

impl Behaves for LineBuffer {
    ghost use Rattle.line_buffer.specs.LineBuffer.{line_buffer};

    ghost does = { line_buffer };
}

// Whether messages of a kind wait.
fn waits(kind: MsgKind) -> bool
    ensures { result ≡ waits kind }
{
    matches!(kind, MsgKind::Data) || is_ioctl(kind)
}

impl OwnModule for LineBuffer {
    ghost use Rattle.std.specs.Prelude.{false, true};
    ghost use Rattle.line_buffer.specs.LineBuffer.{buffer-queues};

    ghost wide = { false };

    ghost queued = { true };

    ghost queues = { buffer-queues };

    fn queued() -> bool {
        true
    }

    fn made(number: u8) -> Option<Own> {
        if number == LINE_BUFFER {
            Some(Own::new(number, &[]))
        } else {
            None
        }
    }

    fn put<B: Blocks>(
        _own: &mut Own,
        _store: &mut B,
        here: Spot,
        message: InHand,
        _told: &mut Fates,
    ) -> Outbox {
        pass_on(here, message)
    }

    fn holds<B: Blocks>(_own: &Own, store: &B, here: Spot, message: &InHand) -> bool {
        match here.way {
            Way::Up => false,
            Way::Down => waits(store.kind(message, 0)),
        }
    }

    fn goes<B: Blocks>(_own: &Own, store: &B, _way: Way, queue: &Queue) -> bool {
        has_byte(store, queue, LINE_END) || total(store, queue) >= MOST || has_ioctl(store, queue)
    }
}
