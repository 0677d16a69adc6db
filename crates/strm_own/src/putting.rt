//! What a put at a module of a user's own does, which has queues (put(9E), putq(9F); STREAMS Programming Guide, "Put Procedures", "Flush Handling").

ghost use Rattle.std.specs.Prelude.{ℕ, ◌≡◌, ◌≤◌, [], true, length, Some};
ghost use Rattle.strm_types.specs.declared.rules.Fates.{Fates};
ghost use Rattle.strm_types.specs.Budgets.{own_at};
ghost use Rattle.strm_types.specs.Cells.{plain};
ghost use Rattle.strm_types.specs.Flushing.{is_flush};
ghost use Rattle.strm_types.specs.Owns.{Own};
ghost use Rattle.strm_types.specs.OwnStands.{may_wait, own_acts, own_holds, own_queued, pair_flushed, way_flushed, woken};
ghost use Rattle.strm_types.specs.Standings.{stood};
ghost use Rattle.strm_types.specs.Tables.{own_does};
ghost use Rattle.strm_laws.specs.Behaviours.{own_by};
ghost use Rattle.strm_blocks.specs.Blocks.{IsInHand, block_at, in_hand, token};
ghost use Rattle.strm_msg.specs.Messages.{IsChain};
ghost use Rattle.strm_frame.specs.Hands.{IsWide};
ghost use Rattle.strm_frame.specs.Outboxes.{message_in};
ghost use Rattle.strm_frame.specs.Standings.{IsPairReady, pair_in};
ghost use Rattle.strm_pty.specs.Beside.{MayPass};
ghost use Rattle.strm_own.specs.Flushed.{Flushes};
ghost use Rattle.strm_own.specs.OwnPuts.{OwnPuts};
ghost use Rattle.strm_own.specs.Stands.{HasQueues, PutsThere};

use crate::asking::{both_ask, wake};
use crate::own::{Own, OwnModule, pass_on};
use arrayvec::ArrayVec;
use strm_blocks::{Blocks, InHand};
use strm_frame::flushes::asked_of;
use strm_frame::{Acts, Outbox, QueuePair, note_if, rooms};
use strm_types::{Band, Fates, MsgKind, Note, Spot, Way};

/// Puts a message that doesn't wait at the module.
pub(crate) fn put_alone<M: OwnModule, B: Blocks>(
    own: &mut Own,
    store: &mut B,
    here: Spot,
    message: InHand,
    told: &mut Fates,
) -> Acts
    requires may { MayPass (B.value store.old) (token message) here }
    requires wide { IsWide M.wide (B.value store.old) }
    ensures did { let s = B.value store.old in let m = message_in s (token message) in
        OwnPuts s (B.value store.new) own.new (token message) (own_at own_does here m) result.sent told.old told.new
        (M.does.puts plain here m own.old) }
    ensures notes { result.notes.items ≡ [] }
{
    let sent = M::put(own, store, here, message, told);
    Acts {
        notes: ArrayVec::new(),
        sent,
    }
}

// Takes from the queue of a way what a flush takes, where it is one of these, and says whether queues before it have room again.
fn flush_way<B: Blocks>(
    pair: &mut QueuePair,
    store: &mut B,
    here: Spot,
    band: Option<Band>,
    takes: bool,
    way: Way,
    told: &mut Fates,
) -> bool
    requires { IsPairReady (B.value store.old) pair.old }
    ensures { Flushes (B.value store.old) (B.value store.new) pair.old pair.new way result told.old told.new
        (way_flushed here band takes way (pair_in (B.value store.old) pair.old)) }
{
    takes && pair.flush(store, band, here.side, way, told)
}

// Obeys an M_FLUSH, at the read queue first, and hands it on.
fn pass_flush<B: Blocks>(
    pair: &mut QueuePair,
    store: &mut B,
    here: Spot,
    message: InHand,
    told: &mut Fates,
) -> Acts
    requires ready { IsPairReady (B.value store.old) pair.old }
    requires may { MayPass (B.value store.old) (token message) here }
    requires kind { is_flush (message_in (B.value store.old) (token message)).kind ≡ true }
    ensures did { (o : Own) (most : ℕ) → HasQueues o (Some pair.old) → let s = B.value store.old in
        PutsThere s (B.value store.new) o (Some pair.old) o (Some pair.new) (token message) most result told.old told.new
        (pair_flushed here (message_in s (token message)) o (pair_in s pair.old)) }
    ensures few { length result.notes.items ≤ 2 }
{
    let asked = asked_of(store, &message);
    let up = flush_way(pair, store, here, asked.band, asked.for_read, Way::Up, told);
    let down = flush_way(
        pair,
        store,
        here,
        asked.band,
        asked.for_write,
        Way::Down,
        told,
    );
    Acts {
        notes: rooms(up, down),
        sent: pass_on(here, message),
    }
}

// A message waits on the queue of its way.
fn wait<B: Blocks>(pair: &mut QueuePair, store: &mut B, way: Way, message: InHand) -> Acts
    requires ready { IsPairReady (B.value store.old) pair.old }
    requires in_hand { IsInHand (B.value store.old) (token message) }
    requires chain { IsChain (in_hand (B.value store.old) (token message)) }
    ensures did { (o : Own) (f : Fates) (most : ℕ) → HasQueues o (Some pair.old) → let s = B.value store.old in
        PutsThere s (B.value store.new) o (Some pair.old) o (Some pair.new) (token message) most result f f
        (own_queued way (message_in s (token message)) o (pair_in s pair.old)) }
    ensures few { length result.notes.items ≤ 2 }
{
    let enables = pair.put(store, way, message);
    Acts {
        notes: note_if(enables, Note::Enable(way)),
        sent: Outbox::none(),
    }
}

// Whether a message of a kind may wait on the queue of a way.
fn may_wait(way: Way, kind: MsgKind) -> bool
    ensures { result ≡ may_wait way kind }
{
    matches!(
        (kind, way),
        (MsgKind::Data | MsgKind::Proto, _) | (MsgKind::Ioctl, Way::Down)
    )
}

// Whether a message in hand waits: one that may, and of which the module says so.
fn holds<M: OwnModule, B: Blocks>(
    own: &Own,
    store: &B,
    here: Spot,
    kind: MsgKind,
    message: &InHand,
) -> bool
    requires may { MayPass (B.value store.now) (token message.now) here }
    requires kind { kind ≡ (block_at 0 (in_hand (B.value store.now) (token message.now))).kind }
    ensures { result ≡ own_holds (own_by M.does plain) here (message_in (B.value store.now) (token message.now)) own.now }
{
    may_wait(here.way, kind) && M::holds(own, store, here, message)
}

// Whether a message of a kind asks for a flush.
fn is_flush(kind: MsgKind) -> bool
    ensures { result ≡ is_flush kind }
{
    matches!(kind, MsgKind::Flush)
}

// What becomes of a message that comes: an M_FLUSH is obeyed, what waits is put on its queue, and all else is put at the module.
fn act<M: OwnModule, B: Blocks>(
    own: &mut Own,
    pair: &mut QueuePair,
    store: &mut B,
    here: Spot,
    message: InHand,
    told: &mut Fates,
) -> Acts
    requires ready { IsPairReady (B.value store.old) pair.old }
    requires has { HasQueues own.old (Some pair.old) }
    requires may { MayPass (B.value store.old) (token message) here }
    requires wide { IsWide M.wide (B.value store.old) }
    ensures did { let s = B.value store.old in let m = message_in s (token message) in
        PutsThere s (B.value store.new) own.old (Some pair.old) own.new (Some pair.new) (token message) (own_at own_does here m) result
        told.old told.new
        (own_acts (own_by M.does plain) here m own.old (pair_in s pair.old)) }
    ensures few { length result.notes.items ≤ 2 }
{
    let kind = store.kind(&message, 0);
    if is_flush(kind) {
        return pass_flush(pair, store, here, message, told);
    }
    if holds::<M, B>(own, store, here, kind, &message) {
        return wait(pair, store, here.way, message);
    }
    put_alone::<M, B>(own, store, here, message, told)
}

/// Puts a message in hand at the module, which has queues: an M_FLUSH is obeyed and goes on, what waits is put on the queue of its way, and all else
/// is put at the module itself. Beside what putq(9F) enables a queue is enabled whose first message may go on now, as none before could.
#[inline(never)]
pub(crate) fn put<M: OwnModule, B: Blocks>(
    own: &mut Own,
    pair: &mut QueuePair,
    store: &mut B,
    here: Spot,
    message: InHand,
    told: &mut Fates,
) -> Acts
    requires ready { IsPairReady (B.value store.old) pair.old }
    requires has { HasQueues own.old (Some pair.old) }
    requires may { MayPass (B.value store.old) (token message) here }
    requires wide { IsWide M.wide (B.value store.old) }
    ensures { let s = B.value store.old in let m = message_in s (token message) in let by = own_by M.does plain in
        PutsThere s (B.value store.new) own.old (Some pair.old) own.new (Some pair.new) (token message) (own_at own_does here m) result
        told.old told.new
        (woken by (stood own.old (Some (pair_in s pair.old))) (own_acts by here m own.old (pair_in s pair.old))) }
{
    let before = both_ask::<M, B>(own, store, pair);
    let acts = act::<M, B>(own, pair, store, here, message, told);
    wake::<M, B>(own, store, pair, before, acts)
}
