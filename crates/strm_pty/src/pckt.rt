//! The module pckt: what comes up a stream as packets, by which those who read above it learn what kind each message was (pckt(7M)).

ghost use Rattle.std.specs.Prelude.{◌≡◌, ◌<◌, ◌≤◌, suc, length, true, [], ◌∷◌};
ghost use Rattle.strm_types.specs.declared.limits.TheConstants.{MODULES};
ghost use Rattle.strm_types.specs.declared.names.Way.TheVariants.{Up};
ghost use Rattle.strm_types.specs.Cells.{plain};
ghost use Rattle.strm_types.specs.Costs.{packet_blocks, pckt_takes};
ghost use Rattle.strm_types.specs.Deliver.{tallied, onward};
ghost use Rattle.strm_types.specs.Flushing.{is_flush};
ghost use Rattle.strm_types.specs.Message.{is_held};
ghost use Rattle.strm_types.specs.Pckts.{is_packed, is_stop_or_start, pckt_on_way, pckt_packs, pckt_passes, plain_packed, writers_flush};
ghost use Rattle.strm_types.specs.declared.spots.Spot as spots;
ghost use Rattle.strm_blocks.specs.Blocks.{IsInHand, in_hand, token};
ghost use Rattle.strm_msg.specs.Messages.{IsChain};
ghost use Rattle.strm_queue.specs.Stored.{FreesNone};
ghost use Rattle.strm_frame.specs.Hands.{HasRoom};
ghost use Rattle.strm_frame.specs.Outboxes.{message_in};
ghost use Rattle.strm_pty.specs.Beside.{MayPass};
ghost use Rattle.strm_pty.specs.Does.{Makes, Swaps};
ghost use Rattle.strm_pty.specs.Packs.{Becomes, Packs, packet_of, pckt_in, puts};

use crate::making::make;
use arrayvec::ArrayVec;
use strm_blocks::{Blocks, InHand};
use strm_frame::flushes::asked_of;
use strm_frame::{Acts, Outbox, Sent};
use strm_msg::{message_size, set_kinds};
use strm_types::{Fates, FlushAsked, MsgKind, Spot, Way};

/// It is set to nothing. It keeps no messages, and no lists of a store are its own.
#[derive(Clone, Copy, Drop)]
pub struct Pckt;

// Whether packets are made of messages of a kind.
fn is_packed(kind: MsgKind) -> bool
    ensures { result ≡ is_packed kind }
{
    matches!(
        kind,
        MsgKind::Data
            | MsgKind::Proto
            | MsgKind::Ioctl
            | MsgKind::Pcproto
            | MsgKind::Read
            | MsgKind::Flush
            | MsgKind::Stop
            | MsgKind::Start
    )
}

// Whether the number of a kind says all: M_STOP and M_START.
fn is_stop_or_start(kind: MsgKind) -> bool
    ensures { result ≡ is_stop_or_start kind }
{
    matches!(kind, MsgKind::Stop | MsgKind::Start)
}

// Whether a message of a kind flushes: M_FLUSH.
fn is_flush(kind: MsgKind) -> bool
    ensures { result ≡ is_flush kind }
{
    matches!(kind, MsgKind::Flush)
}

// How many bytes are made for the packet of a message: the number of its kind, and the bytes of it that are in no part.
fn count_made<B: Blocks>(store: &B, message: &InHand) -> usize
    requires in_hand { IsInHand (B.value store.now) (token message.now) }
    requires chain { IsChain (in_hand (B.value store.now) (token message.now)) }
    ensures { result ≡ suc (length (plain_packed (message_in (B.value store.now) (token message.now)))) }
{
    store.audit();
    let kind = store.kind(message, 0);
    if kind.is_data_kind() || is_stop_or_start(kind) {
        1
    } else {
        message_size(store, message) + 1
    }
}

// Makes the packet of a message in hand, in one block more: an M_PROTO block with the number of its kind, behind which the blocks of the message
// are the data part. An M_STOP or M_START is freed.
fn pack<B: Blocks>(store: &mut B, message: InHand) -> InHand
    requires in_hand { IsInHand (B.value store.old) (token message) }
    requires chain { IsChain (in_hand (B.value store.old) (token message)) }
    requires room { HasRoom (B.value store.old) 1 }
    ensures { (here : spots.Spot) → let s = B.value store.old in
        Becomes s (B.value store.new) (token message) (token result) (packet_of here (message_in s (token message))) }
{
    let kind = store.kind(&message, 0);
    let band = store.band(&message);
    let Ok(front) = store.alloc_with(MsgKind::Proto, band, &[kind.number()]) else {
        unreachable!()
    };
    store.audit();
    if is_stop_or_start(kind) {
        store.free(message);
        return front;
    }
    let blocks = store.blocks(&message);
    set_kinds(store, &message, blocks, MsgKind::Data);
    store.link(front, message)
}

// Makes the packet of a message that comes up, and tells which bytes are made for it.
fn send_packet<B: Blocks>(store: &mut B, here: Spot, message: InHand, told: &mut Fates) -> Sent
    requires passes { MayPass (B.value store.old) (token message) here }
    requires goes { here.way ≡ Up }
    requires room { HasRoom (B.value store.old) 1 }
    ensures swaps { let s = B.value store.old in Swaps s (B.value store.new) (token message) 1 (result ∷ [])
        (onward Up here (packet_of here (message_in s (token message))) ∷ []) }
    ensures blocks { is_held (message_in (B.value store.old) (token message)).kind ≡ true → FreesNone (B.value store.old) (B.value store.new) }
    ensures told { told.new ≡ tallied (pckt_packs plain 0 here (message_in (B.value store.old) (token message))).gone told.old }
{
    let made = count_made(store, &message);
    told.tell_made(here.direction(), made);
    let message = pack(store, message);
    Sent {
        to: here.toward(Way::Up),
        message,
    }
}

// Makes what is passed up of an M_FLUSH.
fn pass_flush<B: Blocks>(store: &mut B, here: Spot, asked: FlushAsked) -> Sent
    requires room { HasRoom (B.value store.old) 1 }
    requires inside { 0 < here.at }
    requires small { here.at ≤ MODULES }
    ensures { Makes (B.value store.old) (B.value store.new) 1 (result ∷ []) (writers_flush here asked ∷ []) }
{
    let passed = FlushAsked {
        for_read: false,
        ..asked
    };
    let message = make(store, MsgKind::Flush, passed.bytes().as_slice());
    Sent {
        to: here.toward(Way::Up),
        message,
    }
}

// Sends a message on to the next place.
fn pass_on<B: Blocks>(store: &B, here: Spot, message: InHand, told: &Fates) -> Acts
    requires { MayPass (B.value store.now) (token message) here }
    ensures { let s = B.value store.now in
        Packs s s (token message) 0 result told.now told.now (pckt_passes here (message_in s (token message))) }
{
    let _ = store;
    let _ = told;
    Acts {
        notes: ArrayVec::new(),
        sent: Outbox::one(Sent {
            to: here.toward(here.way),
            message,
        }),
    }
}

// Sends the packet of an M_FLUSH up, and behind it what is passed of one with FLUSHW.
fn pack_flush<B: Blocks>(store: &mut B, here: Spot, message: InHand, told: &mut Fates) -> Acts
    requires passes { MayPass (B.value store.old) (token message) here }
    requires goes { here.way ≡ Up }
    requires flush { is_flush (message_in (B.value store.old) (token message)).kind ≡ true }
    requires room { let m = message_in (B.value store.old) (token message) in HasRoom (B.value store.old) (packet_blocks m.kind m.plain) }
    ensures { let s = B.value store.old in let m = message_in s (token message) in
        Packs s (B.value store.new) (token message) (packet_blocks m.kind m.plain) result told.old told.new
        (pckt_packs plain 0 here m) }
{
    let asked = asked_of(store, &message);
    let packet = send_packet(store, here, message, told);
    if !asked.for_write {
        return Acts {
            notes: ArrayVec::new(),
            sent: Outbox::one(packet),
        };
    }
    let flush = pass_flush(store, here, asked);
    Acts {
        notes: ArrayVec::new(),
        sent: Outbox::two(packet, flush),
    }
}

// Sends the packet of a message up that comes as one of a kind that is packed.
fn pack_up<B: Blocks>(store: &mut B, here: Spot, message: InHand, told: &mut Fates) -> Acts
    requires passes { MayPass (B.value store.old) (token message) here }
    requires goes { here.way ≡ Up }
    requires packed { is_packed (message_in (B.value store.old) (token message)).kind ≡ true }
    requires room { let m = message_in (B.value store.old) (token message) in HasRoom (B.value store.old) (packet_blocks m.kind m.plain) }
    ensures { let s = B.value store.old in let m = message_in s (token message) in
        Packs s (B.value store.new) (token message) (packet_blocks m.kind m.plain) result told.old told.new
        (pckt_packs plain 0 here m) }
{
    if is_flush(store.kind(&message, 0)) {
        return pack_flush(store, here, message, told);
    }
    let packet = send_packet(store, here, message, told);
    Acts {
        notes: ArrayVec::new(),
        sent: Outbox::one(packet),
    }
}

// Puts a message that comes up.
fn put_up<B: Blocks>(store: &mut B, here: Spot, message: InHand, told: &mut Fates) -> Acts
    requires passes { MayPass (B.value store.old) (token message) here }
    requires goes { here.way ≡ Up }
    requires room { let m = message_in (B.value store.old) (token message) in HasRoom (B.value store.old) (packet_blocks m.kind m.plain) }
    ensures { let s = B.value store.old in let m = message_in s (token message) in
        Packs s (B.value store.new) (token message) (packet_blocks m.kind m.plain) result told.old told.new
        (pckt_on_way plain 0 here Up m) }
{
    if is_packed(store.kind(&message, 0)) {
        pack_up(store, here, message, told)
    } else {
        pass_on(store, here, message, told)
    }
}

/// Puts a message in hand here, on its way up or down, and says what it does: `put(9E)`.
///
/// What goes down passes. M_DATA, M_PROTO, M_PCPROTO, M_IOCTL, M_STOP, M_START, M_FLUSH and M_READ that come up become a packet each: an M_PROTO of
/// the same band, whose control part is the number of the kind, and whose data part is all bytes of the message; M_STOP and M_START have none.
/// An M_FLUSH with FLUSHW goes up behind its packet too, without FLUSHR. All else passes. The number of the kind, and the bytes of a message other
/// than M_DATA, M_PROTO and M_PCPROTO, are told as made.
///
/// It takes one block of each kind at most for a packet, in which the blocks of the message are kept, and one more for an M_FLUSH that is passed. The
/// cost is a step for each block of the message.
pub fn put<B: Blocks>(store: &mut B, here: Spot, message: InHand, told: &mut Fates) -> Acts
    requires in_hand { IsInHand (B.value store.old) (token message) }
    requires chain { IsChain (in_hand (B.value store.old) (token message)) }
    requires room { let s = B.value store.old in HasRoom s (pckt_takes here (message_in s (token message))) }
    requires inside { 0 < here.at }
    requires small { here.at ≤ MODULES }
    ensures { let s = B.value store.old in let m = message_in s (token message) in
        Packs s (B.value store.new) (token message) (pckt_takes here m) result told.old told.new (puts here m pckt_in) }
{
    match here.way {
        Way::Down => pass_on(store, here, message, told),
        Way::Up => put_up(store, here, message, told),
    }
}
