//! What a put at the module does (ldterm(7M); put(9E); putq(9F)).

ghost use Rattle.std.specs.Prelude.{◌≡◌, ◌<◌, ◌≤◌, if◌then◌else◌, [], ◌∷◌, ◌++◌, false};
ghost use Rattle.strm_types.specs.declared.names.Way.TheVariants.{Up, Down};
ghost use Rattle.strm_types.specs.declared.rules.Fates.{Fates};
ghost use Rattle.strm_types.specs.declared.limits.TheConstants.{MODULES};
ghost use Rattle.strm_types.specs.LdtermPuts.{ldterm_puts, waits_on};
ghost use Rattle.strm_types.specs.Deliver.{onward};
ghost use Rattle.strm_types.specs.Ldterms.{queued_at, sends, flush_passes};
ghost use Rattle.strm_types.specs.Budgets.{own_at};
ghost use Rattle.strm_types.specs.Flushing.{is_flush};
ghost use Rattle.strm_types.specs.Tables.{ldterm_does};
ghost use Rattle.strm_types.specs.Message.{is_held, is_high_priority};
ghost use Rattle.strm_types.specs.Ldterms.{waits_there};
ghost use Rattle.strm_blocks.specs.Blocks.{IsInHand, StoreValue, in_hand, block_at, token};
ghost use Rattle.strm_msg.specs.Messages.{IsChain};
ghost use Rattle.strm_queue.specs.Stored.{FreesNone};
ghost use Rattle.strm_frame.specs.Hands.{CanPut, HasRoom};
ghost use Rattle.strm_frame.specs.Outboxes.{message_in};
ghost use Rattle.strm_ldterm.specs.Stands.{ldterm_in, keeps, IsHeld, Paired, paired};
ghost use Rattle.strm_ldterm.specs.Does.{Does, Puts};
ghost use Rattle.std.specs.Prelude.{true};

use crate::answers::pass;
use crate::behind::goes_behind;
use crate::flushes::{flush_read, flush_write};
use crate::ldterm::Ldterm;
use arrayvec::ArrayVec;
use strm_blocks::{Blocks, InHand};
use strm_frame::flushes::asked_of;
use strm_frame::{Acts, Outbox, QueuePair, Sent, note_if, rooms};
use strm_queue::standing::enqueue;
use strm_types::{Fates, MsgKind, Note, Spot, Way};

// A message waits to go up.
fn wait_up<B: Blocks>(
    ldterm: &mut Ldterm,
    queues: &mut QueuePair,
    store: &mut B,
    message: InHand,
) -> Acts
    requires held { IsHeld (B.value store.old) (paired ldterm.old queues.old) }
    requires can_put { CanPut (B.value store.old) (token message) (keeps (paired ldterm.old queues.old)) }
    requires chain { IsChain (in_hand (B.value store.old) (token message)) }
    ensures does { (f : Fates) → let s = B.value store.old in
        Does s (B.value store.new) (paired ldterm.old queues.old) (paired ldterm.new queues.new) (token message) result f f
        (queued_at Up (message_in s (token message)) (ldterm_in s (paired ldterm.old queues.old))) }
    ensures blocks { FreesNone (B.value store.old) (B.value store.new) }
{
    store.audit();
    let enables = enqueue(store, &mut queues.read, message);
    Acts {
        notes: note_if(enables, Note::Enable(Way::Up)),
        sent: Outbox::none(),
    }
}

// A message waits to go down. One of band 0 stands behind the turn's echo, so that a new one begins, and one of another band before it.
fn wait_down<B: Blocks>(
    ldterm: &mut Ldterm,
    queues: &mut QueuePair,
    store: &mut B,
    message: InHand,
) -> Acts
    requires held { IsHeld (B.value store.old) (paired ldterm.old queues.old) }
    requires can_put { CanPut (B.value store.old) (token message) (keeps (paired ldterm.old queues.old)) }
    requires chain { IsChain (in_hand (B.value store.old) (token message)) }
    requires low { is_high_priority (message_in (B.value store.old) (token message)).kind ≡ false }
    ensures does { (f : Fates) → let s = B.value store.old in
        Does s (B.value store.new) (paired ldterm.old queues.old) (paired ldterm.new queues.new) (token message) result f f
        (queued_at Down (message_in s (token message)) (ldterm_in s (paired ldterm.old queues.old))) }
    ensures blocks { FreesNone (B.value store.old) (B.value store.new) }
{
    store.audit();
    let band = store.band(&message);
    ldterm.echoing &= band.0 > 0;
    let enables = enqueue(store, &mut queues.write, message);
    Acts {
        notes: note_if(enables, Note::Enable(Way::Down)),
        sent: Outbox::none(),
    }
}

/// Sends a message on to the next place.
pub(crate) fn pass_on(here: Spot, notes: ArrayVec<Note, 4>, message: InHand) -> Acts
    requires inside { 0 < here.at }
    requires small { here.at ≤ MODULES }
    ensures { (s : StoreValue) (x : Paired) (f : Fates) → IsHeld s x → IsChain (in_hand s (token message)) →
        let m = message_in s (token message) in
        Does s s x x (token message) result f f (record (sends (onward here.way here m ∷ []) (ldterm_in s x)) { notes = notes.items }) }
{
    Acts {
        notes,
        sent: Outbox::one(Sent {
            to: here.toward(here.way),
            message,
        }),
    }
}

// A message waits for the turn of its queue.
fn wait<B: Blocks>(
    ldterm: &mut Ldterm,
    queues: &mut QueuePair,
    store: &mut B,
    way: Way,
    message: InHand,
) -> Acts
    requires held { IsHeld (B.value store.old) (paired ldterm.old queues.old) }
    requires can_put { CanPut (B.value store.old) (token message) (keeps (paired ldterm.old queues.old)) }
    requires chain { IsChain (in_hand (B.value store.old) (token message)) }
    requires low { is_high_priority (message_in (B.value store.old) (token message)).kind ≡ false }
    ensures does { (f : Fates) → let s = B.value store.old in
        Does s (B.value store.new) (paired ldterm.old queues.old) (paired ldterm.new queues.new) (token message) result f f
        (queued_at way (message_in s (token message)) (ldterm_in s (paired ldterm.old queues.old))) }
    ensures blocks { FreesNone (B.value store.old) (B.value store.new) }
{
    match way {
        Way::Up => wait_up(ldterm, queues, store, message),
        Way::Down => wait_down(ldterm, queues, store, message),
    }
}

// Obeys an M_FLUSH, which goes on.
fn pass_flush<B: Blocks>(
    ldterm: &mut Ldterm,
    queues: &mut QueuePair,
    store: &mut B,
    here: Spot,
    message: InHand,
    told: &mut Fates,
) -> Acts
    requires held { IsHeld (B.value store.old) (paired ldterm.old queues.old) }
    requires can_put { CanPut (B.value store.old) (token message) (keeps (paired ldterm.old queues.old)) }
    requires chain { IsChain (in_hand (B.value store.old) (token message)) }
    requires kind { is_flush (message_in (B.value store.old) (token message)).kind ≡ true }
    requires inside { 0 < here.at }
    requires small { here.at ≤ MODULES }
    ensures { let s = B.value store.old in
        Does s (B.value store.new) (paired ldterm.old queues.old) (paired ldterm.new queues.new) (token message) result told.old told.new
        (flush_passes here (message_in s (token message)) (ldterm_in s (paired ldterm.old queues.old))) }
{
    store.audit();
    let asked = asked_of(store, &message);
    let up = flush_read(ldterm, queues, store, here, asked, told);
    let down = flush_write(ldterm, queues, store, here, asked, told);
    pass_on(here, rooms(up, down), message)
}

// Whether messages of a kind wait on its queues.
fn waits_there(kind: MsgKind) -> bool
    ensures { result ≡ waits_there kind }
{
    matches!(kind, MsgKind::Data | MsgKind::Proto)
}

// Whether a message in hand waits on the queue of its way.
fn waits_on<B: Blocks>(store: &B, way: Way, kind: MsgKind, message: &InHand) -> bool
    requires in_hand { IsInHand (B.value store.now) (token message.now) }
    requires chain { IsChain (in_hand (B.value store.now) (token message.now)) }
    requires kind { kind ≡ (block_at 0 (in_hand (B.value store.now) (token message.now))).kind }
    ensures { result ≡ waits_on way (message_in (B.value store.now) (token message.now)) }
{
    waits_there(kind) || goes_behind(store, way, kind, message)
}

// Whether a message of a kind asks for a flush.
fn is_flush(kind: MsgKind) -> bool
    ensures { result ≡ is_flush kind }
{
    matches!(kind, MsgKind::Flush)
}

/// Puts a message in hand here, on its way up or down, and says what it does: `put(9E)`. M_DATA and M_PROTO wait for the turn of their
/// queue, and on the way down with them an M_IOCTL of TCSETSW or TCSETSF. An M_FLUSH is obeyed and goes on, and all else goes on at once.
/// Of an M_IOCACK on its way up that answers TCSETS, TCSETSW or TCSETSF the termios of 35 bytes is taken up first: with TCSETSF what waits
/// to be read is flushed with the line, and an M_FLUSH goes up; the line goes up where lines are made no longer; and an M_SETOPTS tells the
/// head its read mode. That takes two blocks of each kind at most, and all else none. An M_DATA or M_PROTO frees none. The cost is a step for
/// each block of the message, and for a flush for each on the queues.
pub fn put<B: Blocks>(
    ldterm: &mut Ldterm,
    queues: &mut QueuePair,
    store: &mut B,
    here: Spot,
    message: InHand,
    told: &mut Fates,
) -> Acts
    requires held { IsHeld (B.value store.old) (paired ldterm.old queues.old) }
    requires can_put { CanPut (B.value store.old) (token message) (keeps (paired ldterm.old queues.old)) }
    requires chain { IsChain (in_hand (B.value store.old) (token message)) }
    requires room { HasRoom (B.value store.old) (own_at ldterm_does here (message_in (B.value store.old) (token message))) }
    requires inside { 0 < here.at }
    requires small { here.at ≤ MODULES }
    ensures does { let s = B.value store.old in let m = message_in s (token message) in
        Puts s (B.value store.new) (paired ldterm.old queues.old) (paired ldterm.new queues.new) (token message) (own_at ldterm_does here m) result
        told.old told.new
        (ldterm_puts here m (ldterm_in s (paired ldterm.old queues.old))) }
    ensures blocks { is_held (message_in (B.value store.old) (token message)).kind ≡ true → FreesNone (B.value store.old) (B.value store.new) }
{
    store.audit();
    let kind = store.kind(&message, 0);
    if waits_on(store, here.way, kind, &message) {
        return wait(ldterm, queues, store, here.way, message);
    }
    if is_flush(kind) {
        return pass_flush(ldterm, queues, store, here, message, told);
    }
    pass(ldterm, queues, store, here, kind, message, told)
}
