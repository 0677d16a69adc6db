//! A byte of the message in work begins (ldterm(7M); termio(7I): IXON, IXANY).

ghost use Rattle.std.specs.Prelude.{◌≡◌, ◌≤◌, ◌<◌, ◌∷◌, [], length, drop, IfSome, MatchOption};
ghost use Rattle.strm_types.specs.declared.rules.Fates.{Fates};
ghost use Rattle.strm_types.specs.declared.limits.TheConstants.{MODULES};
ghost use Rattle.strm_types.specs.Cells.{plain};
ghost use Rattle.strm_types.specs.Input.{begins_next, cells_left, left_of, with_left};
ghost use Rattle.strm_types.specs.Ldterms.{sends};
ghost use Rattle.strm_types.specs.Message.{cells_of};
ghost use Rattle.strm_types.specs.Typing.{begins};
ghost use Rattle.strm_blocks.specs.Blocks.{IsFreshName, IsInHand, banded, block_at, dropped, held, in_hand, token};
ghost use Rattle.strm_queue.specs.Stored.{FreesBlocks};
ghost use Rattle.strm_frame.specs.Hands.{AreIn, HasRoom};
ghost use Rattle.strm_frame.specs.declared.queue_pair.QueuePair.{QueuePair};
ghost use Rattle.strm_frame.specs.Outboxes.{message_in, sent_of};
ghost use Rattle.strm_ldterm.specs.Becoming.{Becomes, IsFronted};
ghost use Rattle.strm_ldterm.specs.Does.{Proceeds};
ghost use Rattle.strm_ldterm.specs.Stands.{ldterm_in, keeps, IsData, IsHeld, paired};

use crate::ldterm::{Ldterm, Stage};
use crate::sending_keys::make;
use crate::strokes::{restarts, stroke_of};
use strm_blocks::{Blocks, InHand};
use strm_frame::{Outbox, Sent};
use strm_types::{MsgKind, Spot, Way};

// Frees the first block of a message of several: unlinkb(9F), freeb(9F). The band of the message stays.
fn drop_first<B: Blocks>(store: &mut B, message: InHand) -> InHand
    requires in_hand { IsInHand (B.value store.old) (token message) }
    requires more { 1 < length (in_hand (B.value store.old) (token message)) }
    ensures fresh { IsFreshName (B.value store.old) (token result) }
    ensures after { let chain = in_hand (B.value store.old) (token message) in
        B.value store.new ≡ held (dropped (B.value store.old) (token message)) (token result)
        (banded (block_at 0 chain).band (drop 1 chain)) }
{
    let band = store.band(&message);
    let (first, rest) = store.unlink(message);
    let Some(rest) = rest else { unreachable!() };
    store.free(first);
    store.set_band(&rest, band);
    rest
}

/// Frees blocks without bytes at the front of a message of data, up to one that has some; the last one stays.
#[inline(always)]
pub(crate) fn skip_empty<B: Blocks>(store: &mut B, mut message: InHand) -> InHand
    requires in_hand { IsInHand (B.value store.old) (token message) }
    requires is { IsData (B.value store.old) (token message) }
    ensures became { Becomes (B.value store.old) (B.value store.new) (token message) (token result)
        (message_in (B.value store.old) (token message)) }
    ensures in_hand { IsInHand (B.value store.new) (token result) }
    ensures shown { length (block_at 0 (in_hand (B.value store.new) (token result))).bytes ≡ 0 →
        cells_of (message_in (B.value store.old) (token message)) ≡ [] }
    ensures front { IsFronted (B.value store.new) (token result) }
{
    for _ in 1..store.blocks(&message) {
        store.audit();
        if store.block_len(&message, 0) > 0 {
            return message;
        }
        message = drop_first(store, message);
    }
    message
}

// Takes the next byte off the front of a message of data, if there is one: adjmsg(9F). Blocks without bytes before it are freed, and so is
// its own, where that was the last byte of it and another block stands behind it: all bytes of a message cost a step each, and one for each
// of its blocks.
fn take_byte<B: Blocks>(store: &mut B, message: InHand) -> (InHand, Option<u8>)
    requires in_hand { IsInHand (B.value store.old) (token message) }
    requires is { IsData (B.value store.old) (token message) }
    ensures became { let m = message_in (B.value store.old) (token message) in
        Becomes (B.value store.old) (B.value store.new) (token message) (token result.0)
        (left_of (drop 1 (cells_of m)) m) }
    ensures byte { let cells = cells_of (message_in (B.value store.old) (token message)) in
        MatchOption result.1 (cells ≡ []) (λ byte. cells ≡ byte ∷ drop 1 cells) }
    ensures front { IsFronted (B.value store.new) (token result.0) }
{
    let message = skip_empty(store, message);
    store.audit();
    if store.block_len(&message, 0) == 0 {
        return (message, None);
    }
    let byte = store.bytes_at(&message, 0)[0];
    store.trim_head(&message, 0, 1);
    store.audit();
    (skip_empty(store, message), Some(byte))
}

/// Takes the next byte of the message in work, if there is one. A block that this empties is freed, unless it is the message's last.
pub(crate) fn next_byte<B: Blocks>(ldterm: &mut Ldterm, store: &mut B) -> Option<u8>
    requires is { IfSome ldterm.old.in_work (λ m. IsData (B.value store.old) (token m)) }
    ensures did { (q : QueuePair) (f : Fates) → let s = B.value store.old in let x = paired ldterm.old q in let p = ldterm_in s x in
        IsHeld s x → AreIn s (λ _. 0) (keeps x) →
        Proceeds s (B.value store.new) x (paired ldterm.new q) 0 [] [] f f (sends [] (with_left (drop 1 (cells_left p)) p)) }
    ensures byte { (q : QueuePair) → let s = B.value store.old in let x = paired ldterm.old q in let p = ldterm_in s x in let cells = cells_left p in
        IsHeld s x → MatchOption result ((cells ≡ []) × (with_left (drop 1 cells) p ≡ p)) (λ byte. cells ≡ byte ∷ drop 1 cells) }
    ensures front { IfSome ldterm.new.in_work (λ m. IsFronted (B.value store.new) (token m)) }
    ensures frees { FreesBlocks (B.value store.old) (B.value store.new) }
{
    let Some(message) = ldterm.in_work.take() else {
        return None;
    };
    store.audit();
    let (message, byte) = take_byte(store, message);
    store.audit();
    ldterm.in_work = Some(message);
    byte
}

// A byte begins. Where output is stopped, and the byte starts it, an M_START goes down.
fn begin_with<B: Blocks>(ldterm: &mut Ldterm, store: &mut B, here: Spot, byte: u8) -> Outbox
    requires inside { 0 < here.at }
    requires small { here.at ≤ MODULES }
    requires room { HasRoom (B.value store.old) 1 }
    ensures { (q : QueuePair) (f : Fates) → let s = B.value store.old in let x = paired ldterm.old q in IsHeld s x → AreIn s (λ _. 0) (keeps x) →
        Proceeds s (B.value store.new) x (paired ldterm.new q) 1 [] (sent_of result) f f (begins plain here byte (ldterm_in s x)) }
{
    let stroke = stroke_of(&ldterm.termios, ldterm.after_lnext, byte);
    let started = ldterm.stopped && restarts(&ldterm.termios, stroke);
    ldterm.stage = Stage::Begun { started, byte };
    if !started {
        return Outbox::none();
    }
    ldterm.stopped = false;
    let message = make(store, MsgKind::Start, &[]);
    Outbox::one(Sent {
        to: here.toward(Way::Down),
        message,
    })
}

/// The next byte of the message in work begins. Where output is stopped, and the byte starts it, an M_START goes down. Where no byte
/// is left, nothing happens. It takes a block at most. All bytes of a message cost a step each, and one for each of its blocks.
pub(crate) fn begin<B: Blocks>(ldterm: &mut Ldterm, store: &mut B, here: Spot) -> Outbox
    requires is { IfSome ldterm.old.in_work (λ m. IsData (B.value store.old) (token m)) }
    requires inside { 0 < here.at }
    requires small { here.at ≤ MODULES }
    requires room { HasRoom (B.value store.old) 1 }
    ensures { (q : QueuePair) (f : Fates) → let s = B.value store.old in let x = paired ldterm.old q in let p = ldterm_in s x in
        IsHeld s x → AreIn s (λ _. 0) (keeps x) →
        Proceeds s (B.value store.new) x (paired ldterm.new q) 1 [] (sent_of result) f f (begins_next plain here (cells_left p) p) }
{
    let Some(byte) = next_byte(ldterm, store) else {
        return Outbox::none();
    };
    store.audit();
    begin_with(ldterm, store, here, byte)
}
