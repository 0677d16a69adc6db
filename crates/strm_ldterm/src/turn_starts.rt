//! Turns of the module's queues begin (ldterm(7M); srv(9E); getq(9F)): what stands first passes whole, or comes into work.

ghost use Rattle.std.specs.Prelude.{ℕ, ◌≡◌, ◌<◌, ◌≤◌, ◌&&◌, false, nat_lt};
ghost use Rattle.strm_types.specs.declared.limits.TheConstants.{MODULES};
ghost use Rattle.strm_types.specs.Input.{is_data};
ghost use Rattle.strm_types.specs.Termios.{opost};
ghost use Rattle.strm_ldterm.specs.Stands.{keeps, IsHeld, paired};
ghost use Rattle.strm_ldterm.specs.Began.{BeganAs};
ghost use Rattle.strm_ldterm.specs.Outgone.{OutputBeganAs};

use crate::ldterm::Ldterm;
use bitflags::Flags;
use strm_blocks::Blocks;
use strm_frame::{Outbox, QueuePair, Sent};
use strm_msg::message_size;
use strm_queue::standing::dequeue;
use strm_types::{Band, MsgKind, OutputModes, Spot, Termios, Way};

/// What passes whole, and how many bytes it has.
#[derive(Drop)]
pub struct Passed {
    pub sent: Outbox,
    pub bytes: usize,
}

/// What a turn of the read queue begins with.
#[derive(Drop)]
pub enum InputBegun {
    /// Nothing stands there.
    Empty,
    /// A message passes whole.
    Whole(Passed),
    /// A message of data is in work, and has so many bytes.
    InWork { bytes: usize },
}

/// What a turn of the write queue begins with.
#[derive(Drop)]
pub enum OutputBegun {
    /// Nothing stands there, or a message passes whole.
    Whole(Passed),
    /// A message of data is in work, to go out: it has so many bytes, and this band.
    InWork { bytes: usize, band: Band },
}

// Whether a message of a kind is treated byte by byte.
fn is_data(kind: MsgKind) -> bool
    ensures { result ≡ is_data kind }
{
    matches!(kind, MsgKind::Data)
}

// Whether a message of a kind and so many bytes goes out byte by byte: M_DATA with bytes, under OPOST.
fn goes_out(termios: &Termios, kind: MsgKind, bytes: usize) -> bool
    ensures { result ≡ (is_data kind && (opost termios.now && nat_lt 0 bytes)) }
{
    is_data(kind) && termios.oflag.contains(OutputModes::OPOST) && bytes > 0
}

/// A turn of the write queue begins with what stands first there: M_DATA with bytes comes into work under OPOST, and all else goes down
/// whole. It takes no block. The cost is a step for each block of the message.
pub(crate) fn begin_output<B: Blocks>(
    ldterm: &mut Ldterm,
    queues: &mut QueuePair,
    store: &mut B,
    here: Spot,
) -> OutputBegun
    requires held { IsHeld (B.value store.old) (paired ldterm.old queues.old) }
    requires rests { (i : ℕ) → keeps (paired ldterm.old queues.old) i ≡ 0 }
    requires quiet { ldterm.old.echoing ≡ false }
    requires inside { 0 < here.at }
    requires small { here.at ≤ MODULES }
    ensures { OutputBeganAs (B.value store.old) (B.value store.new) here (paired ldterm.old queues.old) (paired ldterm.new queues.new) result }
{
    if queues.write.is_empty(store) {
        return OutputBegun::Whole(Passed {
            sent: Outbox::none(),
            bytes: 0,
        });
    }
    let Some(message) = dequeue(store, &mut queues.write) else {
        unreachable!()
    };
    store.audit();
    let bytes = message_size(store, &message);
    if goes_out(&ldterm.termios, store.kind(&message, 0), bytes) {
        let band = store.band(&message);
        ldterm.in_work = Some(message);
        return OutputBegun::InWork { bytes, band };
    }
    OutputBegun::Whole(Passed {
        sent: Outbox::one(Sent {
            to: here.toward(Way::Down),
            message,
        }),
        bytes,
    })
}

/// A turn of the read queue begins with what stands first there: M_DATA comes into work, and all else goes up whole. It takes no
/// block. The cost is a step for each block of the message.
pub(crate) fn begin_input<B: Blocks>(
    ldterm: &mut Ldterm,
    queues: &mut QueuePair,
    store: &mut B,
    here: Spot,
) -> InputBegun
    requires held { IsHeld (B.value store.old) (paired ldterm.old queues.old) }
    requires rests { (i : ℕ) → keeps (paired ldterm.old queues.old) i ≡ 0 }
    requires quiet { ldterm.old.echoing ≡ false }
    requires inside { 0 < here.at }
    requires small { here.at ≤ MODULES }
    ensures { BeganAs (B.value store.old) (B.value store.new) here (paired ldterm.old queues.old) (paired ldterm.new queues.new) result }
{
    if queues.read.is_empty(store) {
        return InputBegun::Empty;
    }
    let Some(message) = dequeue(store, &mut queues.read) else {
        unreachable!()
    };
    store.audit();
    let bytes = message_size(store, &message);
    if is_data(store.kind(&message, 0)) {
        ldterm.in_work = Some(message);
        return InputBegun::InWork { bytes };
    }
    InputBegun::Whole(Passed {
        sent: Outbox::one(Sent {
            to: here.toward(Way::Up),
            message,
        }),
        bytes,
    })
}
