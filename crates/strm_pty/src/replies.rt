//! Answers to ioctls, ioctls that tell of a change, and signals (streamio(7I): I_STR; STREAMS Programming Guide: M_IOCACK, M_IOCNAK,
//! M_IOCTL, M_PCSIG).

ghost use Rattle.std.specs.Prelude.{◌≡◌, ◌<◌, ◌≤◌, ◌++◌, drop, false, length, [], ◌∷◌};
ghost use Rattle.std.specs.Option.{option_to_list};
ghost use Rattle.strm_types.specs.declared.names.Way.TheVariants.{Up, Down};
ghost use Rattle.strm_types.specs.Acks.{ack_message, payload, telling_message};
ghost use Rattle.strm_types.specs.Flush.{is_data_kind};
ghost use Rattle.strm_types.specs.Ioctls.{ioc_bytes, nak_message};
ghost use Rattle.strm_types.specs.Deliver.{onward};
ghost use Rattle.strm_types.specs.Ptems.{signals_up, window_signal};
ghost use Rattle.strm_types.specs.Typing.{bare};
ghost use Rattle.strm_blocks.specs.Blocks.{IsInHand, block_at, in_hand, token};
ghost use Rattle.strm_frame.specs.Hands.{HasRoom};
ghost use Rattle.strm_frame.specs.Outboxes.{message_in, sent_of};
ghost use Rattle.strm_pty.specs.Does.{Makes, Swaps};
ghost use Rattle.strm_pty.specs.Shares.{BothCarry, CanPart};

use crate::making::make;
use crate::sharing::{part, share};
use arrayvec::ArrayVec;
use strm_blocks::{Blocks, InHand};
use strm_frame::{Acts, Outbox, Sent};
use strm_types::{Ioc, MsgKind, Spot, Way, Winsize};

/// The longest payload that is answered or told: that of a termios.
pub(crate) const GIVEN_MAX: usize = 35;

const IOCTL_SIZE: usize = 16 + GIVEN_MAX;

/// The signal of a window whose size changed (signal.h).
const SIGWINCH: u8 = 20;

// The bytes of an ioctl message: its header, and what stands behind it.
fn framed(ioc: Ioc, given: &[u8]) -> ArrayVec<u8, IOCTL_SIZE>
    requires { length given.now ≤ 35 }
    ensures bytes { result.items ≡ ioc_bytes ioc ++ given.now }
    ensures few { length result.items ≤ 256 }
{
    let header = ioc.bytes();
    let mut bytes = ArrayVec::new();
    bytes.try_extend_from_slice(&header).unwrap();
    bytes.try_extend_from_slice(given).unwrap();
    bytes
}

// Makes a message of a kind without parts, of band 0, that goes on from here.
fn send<B: Blocks>(store: &mut B, here: Spot, way: Way, kind: MsgKind, bytes: &[u8]) -> Sent
    requires kind { is_data_kind kind ≡ false }
    requires few { length bytes.now ≤ 256 }
    requires room { HasRoom (B.value store.old) 1 }
    requires inside { 0 < here.at }
    requires small { here.at < 255 }
    ensures { Makes (B.value store.old) (B.value store.new) 1 (result ∷ [])
        (onward way here (bare kind bytes.now) ∷ []) }
{
    let message = make(store, kind, bytes);
    Sent {
        to: here.toward(way),
        message,
    }
}

// Makes an M_PCSIG for those who read here.
fn signal_up<B: Blocks>(store: &mut B, here: Spot, signal: u8) -> Sent
    requires room { HasRoom (B.value store.old) 1 }
    requires inside { 0 < here.at }
    requires small { here.at < 255 }
    ensures { Makes (B.value store.old) (B.value store.new) 1 (result ∷ []) (signals_up here signal ∷ []) }
{
    send(store, here, Way::Up, MsgKind::Pcsig, &[signal])
}

// Makes it for SIGWINCH, where the size of the window changed.
fn signal_change<B: Blocks>(store: &mut B, here: Spot, old: Winsize, new: Winsize) -> Option<Sent>
    requires room { HasRoom (B.value store.old) 1 }
    requires inside { 0 < here.at }
    requires small { here.at < 255 }
    ensures { Makes (B.value store.old) (B.value store.new) 1 (option_to_list result) (window_signal here old new) }
{
    if old.is_same(&new) {
        None
    } else {
        Some(signal_up(store, here, SIGWINCH))
    }
}

// Makes an M_IOCACK that gives nothing, for the other side.
fn ack_below<B: Blocks>(store: &mut B, here: Spot, ioc: Ioc) -> Sent
    requires room { HasRoom (B.value store.old) 1 }
    requires inside { 0 < here.at }
    requires small { here.at < 255 }
    ensures { Makes (B.value store.old) (B.value store.new) 1 (result ∷ [])
        (onward Down here (ack_message ioc []) ∷ []) }
{
    let answer = framed(ioc.acked(), &[]);
    send(store, here, Way::Down, MsgKind::Iocack, answer.as_slice())
}

/// Frees an M_IOCTL, and answers it with M_IOCACK and what it gives, up the stream from which it came.
pub(crate) fn ack<B: Blocks>(
    store: &mut B,
    here: Spot,
    ioc: Ioc,
    given: &[u8],
    message: InHand,
) -> Acts
    requires in_hand { IsInHand (B.value store.old) (token message) }
    requires few { length given.now ≤ 35 }
    requires room { HasRoom (B.value store.old) 1 }
    requires inside { 0 < here.at }
    requires small { here.at < 255 }
    ensures notes { result.notes.items ≡ [] }
    ensures swaps { Swaps (B.value store.old) (B.value store.new) (token message) 1 (sent_of result.sent)
        (onward Up here (ack_message ioc given.now) ∷ []) }
{
    store.audit();
    store.free(message);
    let answer = framed(ioc.acked(), given);
    let sent = send(store, here, Way::Up, MsgKind::Iocack, answer.as_slice());
    Acts {
        notes: ArrayVec::new(),
        sent: Outbox::one(sent),
    }
}

/// Frees an M_IOCTL, and answers it with M_IOCNAK, EINVAL, back where it came from.
pub(crate) fn nak<B: Blocks>(
    store: &mut B,
    here: Spot,
    back: Way,
    ioc: Ioc,
    message: InHand,
) -> Acts
    requires in_hand { IsInHand (B.value store.old) (token message) }
    requires room { HasRoom (B.value store.old) 1 }
    requires inside { 0 < here.at }
    requires small { here.at < 255 }
    ensures notes { result.notes.items ≡ [] }
    ensures swaps { Swaps (B.value store.old) (B.value store.new) (token message) 1 (sent_of result.sent)
        (onward back here (nak_message ioc) ∷ []) }
{
    store.audit();
    store.free(message);
    let header = ioc.refused().bytes();
    let sent = send(store, here, back, MsgKind::Iocnak, &header);
    Acts {
        notes: ArrayVec::new(),
        sent: Outbox::one(sent),
    }
}

// Frees an M_IOCTL, and makes its answer and what tells the other side of it, each with a copy of its payload.
fn copy_both<B: Blocks>(
    store: &mut B,
    here: Spot,
    ioc: Ioc,
    given: &[u8],
    message: InHand,
) -> (Sent, Sent)
    requires in_hand { IsInHand (B.value store.old) (token message) }
    requires few { length given.now ≤ 35 }
    requires room { HasRoom (B.value store.old) 2 }
    requires inside { 0 < here.at }
    requires small { here.at < 255 }
    ensures { Swaps (B.value store.old) (B.value store.new) (token message) 2 (result.0 ∷ result.1 ∷ [])
        (onward Up here (ack_message ioc given.now) ∷ onward Down here (telling_message ioc given.now) ∷ []) }
{
    store.audit();
    store.free(message);
    let answer = framed(ioc.acked(), given);
    let first = send(store, here, Way::Up, MsgKind::Iocack, answer.as_slice());
    let telling = framed(Ioc::asking(ioc.command, 0), given);
    let second = send(store, here, Way::Down, MsgKind::Ioctl, telling.as_slice());
    (first, second)
}

// Answers an M_IOCTL with its payload, and tells the other side of it. Where the payload has a block of its own both share it, and else each has a
// copy.
fn tell_both<B: Blocks>(
    store: &mut B,
    here: Spot,
    ioc: Ioc,
    given: &[u8],
    message: InHand,
) -> (Sent, Sent)
    requires in_hand { IsInHand (B.value store.old) (token message) }
    requires kind { is_data_kind (block_at 0 (in_hand (B.value store.old) (token message))).kind ≡ false }
    requires given { given.now ≡ payload (message_in (B.value store.old) (token message)).plain }
    requires few { length given.now ≤ 35 }
    requires room { HasRoom (B.value store.old) 2 }
    requires inside { 0 < here.at }
    requires small { here.at < 255 }
    ensures swaps { Swaps (B.value store.old) (B.value store.new) (token message) 2 (result.0 ∷ result.1 ∷ [])
        (onward Up here (ack_message ioc given.now) ∷ onward Down here (telling_message ioc given.now) ∷ []) }
    ensures shared { let s = B.value store.old in CanPart s (token message) →
        BothCarry (B.value store.new) (drop 1 (in_hand s (token message))) (result.0 ∷ result.1 ∷ []) }
{
    match part(store, message) {
        Ok(both) => {
            store.audit();
            share(store, here, ioc, both)
        }
        Err(message) => copy_both(store, here, ioc, given, message),
    }
}

/// Lets an M_IOCTL go by which something was set from above. It is answered with what was set, then the other side is told of it by an
/// M_IOCTL of number 0, and then those who read here hear of a window that changed. It takes at most three blocks of each kind.
pub(crate) fn confirm<B: Blocks>(
    store: &mut B,
    here: Spot,
    ioc: Ioc,
    given: &[u8],
    windows: (Winsize, Winsize),
    message: InHand,
) -> Acts
    requires in_hand { IsInHand (B.value store.old) (token message) }
    requires kind { is_data_kind (block_at 0 (in_hand (B.value store.old) (token message))).kind ≡ false }
    requires given { given.now ≡ payload (message_in (B.value store.old) (token message)).plain }
    requires few { length given.now ≤ 35 }
    requires room { HasRoom (B.value store.old) 3 }
    requires inside { 0 < here.at }
    requires small { here.at < 255 }
    ensures notes { result.notes.items ≡ [] }
    ensures swaps { Swaps (B.value store.old) (B.value store.new) (token message) 3 (sent_of result.sent)
        (onward Up here (ack_message ioc given.now) ∷ onward Down here (telling_message ioc given.now)
        ∷ window_signal here windows.0 windows.1) }
    ensures shared { let s = B.value store.old in CanPart s (token message) →
        BothCarry (B.value store.new) (drop 1 (in_hand s (token message))) (sent_of result.sent) }
{
    let (first, second) = tell_both(store, here, ioc, given, message);
    let third = signal_change(store, here, windows.0, windows.1);
    Acts {
        notes: ArrayVec::new(),
        sent: Outbox {
            first: Some(first),
            second: Some(second),
            third,
            fourth: None,
        },
    }
}

/// Frees an M_IOCTL by which the other side set the window. Those who read here hear of a window that changed, and then the other side
/// has its answer. It takes at most two blocks of each kind.
pub(crate) fn hear<B: Blocks>(
    store: &mut B,
    here: Spot,
    ioc: Ioc,
    windows: (Winsize, Winsize),
    message: InHand,
) -> Acts
    requires in_hand { IsInHand (B.value store.old) (token message) }
    requires room { HasRoom (B.value store.old) 2 }
    requires inside { 0 < here.at }
    requires small { here.at < 255 }
    ensures notes { result.notes.items ≡ [] }
    ensures swaps { Swaps (B.value store.old) (B.value store.new) (token message) 2 (sent_of result.sent)
        (window_signal here windows.0 windows.1 ++ onward Down here (ack_message ioc []) ∷ []) }
{
    store.audit();
    store.free(message);
    let first = signal_change(store, here, windows.0, windows.1);
    let second = ack_below(store, here, ioc);
    Acts {
        notes: ArrayVec::new(),
        sent: Outbox {
            first,
            second: Some(second),
            third: None,
            fourth: None,
        },
    }
}

/// Frees an M_IOCTL by which the other side sent a signal. It goes up to those who read here, and then the other side has its answer. It
/// takes at most two blocks of each kind.
pub(crate) fn raise<B: Blocks>(
    store: &mut B,
    here: Spot,
    ioc: Ioc,
    signal: u8,
    message: InHand,
) -> Acts
    requires in_hand { IsInHand (B.value store.old) (token message) }
    requires room { HasRoom (B.value store.old) 2 }
    requires inside { 0 < here.at }
    requires small { here.at < 255 }
    ensures notes { result.notes.items ≡ [] }
    ensures swaps { Swaps (B.value store.old) (B.value store.new) (token message) 2 (sent_of result.sent)
        (signals_up here signal ∷ onward Down here (ack_message ioc []) ∷ []) }
{
    store.audit();
    store.free(message);
    let first = signal_up(store, here, signal);
    let second = ack_below(store, here, ioc);
    Acts {
        notes: ArrayVec::new(),
        sent: Outbox::two(first, second),
    }
}
