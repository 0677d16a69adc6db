//! What a head does with a message that comes up (STREAMS Programming Guide, "Stream Head" and "Flush Handling").

ghost use Rattle.std.specs.Prelude.{◌≡◌, ◌&&◌, ℕ, true, false, List, MatchOption};
ghost use Rattle.std.specs.List.{list_any};
ghost use Rattle.strm_types.specs.Deliver.{tallied};
ghost use Rattle.strm_types.specs.Flushing.{asked_by, is_flush};
ghost use Rattle.strm_types.specs.Heads.{is_pcproto, waits_for_readers, head_flushed, flush_up, with_marks_given, with_options, nak_down, obeyed, head_put};
ghost use Rattle.strm_types.specs.Ioctls.{read_ioc};
ghost use Rattle.strm_types.specs.Options.{are_marks, options_in};
ghost use Rattle.strm_types.specs.Flush.{is_data_kind};
ghost use Rattle.strm_types.specs.Message.{is_held};
ghost use Rattle.strm_types.specs.Signals.{signal_in, with_signal};
ghost use Rattle.strm_types.specs.Slots.{slot_answered};
ghost use Rattle.strm_types.specs.Heads as state;
ghost use Rattle.strm_blocks.specs.Blocks.{Block, StoreValue, IsInHand, in_hand, dropped, list_at, block_at, token};
ghost use Rattle.strm_msg.specs.Bytes.{bytes_of};
ghost use Rattle.strm_msg.specs.Messages.{message_of, IsChain};
ghost use Rattle.strm_queue.specs.Kept.{AreCounted};
ghost use Rattle.strm_queue.specs.Queues.{OnlyCounts};
ghost use Rattle.strm_queue.specs.Stored.{messages_on, queue_in, IsReady, IsHeadQueue, HoldsReadable, Changes, FreesBlocks, FreesNone};
ghost use Rattle.strm_head.specs.Heads.{head_in, notes_of, plain_slot, sent_down};

use crate::head::Head;
use crate::ioctls::HEADER;
use strm_blocks::{Blocks, InHand, Visitor};
use strm_msg::{booked_size, first_bytes};
use strm_queue::Queue;
use strm_queue::emptying::{Chosen, empty, going};
use strm_queue::standing::{enqueue, mark_all};
use strm_types::{Band, Fates, FlushAsked, IOCTL_MAX, Ioc, Marks, MsgKind, Options, Rule, Spot};

/// A message that goes down from a head for one that came up.
#[derive(Clone, Copy, Debug, PartialEq)]
pub enum Down {
    /// An M_FLUSH, which asks for this.
    Flush(FlushAsked),
    /// The M_IOCNAK that answers an M_IOCTL with this header: EINVAL, as nobody knows its command.
    Nak(Ioc),
}

/// What a put at a head hands back: whether a waiting writer is let go, and what goes down, if anything does.
#[derive(Clone, Copy, Debug, PartialEq)]
pub struct Came {
    pub lets_go: bool,
    pub down: Option<Down>,
}

const NOTHING: Came = Came {
    lets_go: false,
    down: None,
};

// Sees whether an M_PCPROTO stands on a list.
#[derive(Drop)]
struct Urgent {
    found: bool,
}

// Whether a kind is M_PCPROTO.
fn is_pcproto(kind: MsgKind) -> bool
    ensures { result ≡ is_pcproto kind }
{
    matches!(kind, MsgKind::Pcproto)
}

impl Visitor for Urgent {
    ghost use Rattle.std.specs.Prelude.{not, if◌then◌else◌};

    ghost after = { λ v b. if b.first then record { found = is_pcproto b.kind } else v };

    ghost goes_on = { λ v. not v.found };

    fn see(&mut self, first: bool, kind: MsgKind, _band: Band, _bytes: &[u8]) -> bool {
        if first {
            self.found = is_pcproto(kind);
        }
        !self.found
    }
}

// Whether an M_PCPROTO stands on a queue. The cost is a step for each block of the messages in front of it.
fn has_pcproto<B: Blocks>(store: &B, queue: &Queue) -> bool
    ensures { result ≡ list_any (λ m. is_pcproto m.kind) (messages_on (B.value store.now) queue.now.list) }
{
    store.audit();
    let mut urgent = Urgent { found: false };
    store.visit(queue.list, &mut urgent);
    urgent.found
}

// What an M_FLUSH asks for.
fn asked<B: Blocks>(store: &B, message: &InHand) -> FlushAsked
    requires { IsInHand (B.value store.now) (token message.now) }
    ensures asked { result ≡ asked_by (bytes_of (in_hand (B.value store.now) (token message.now))) }
{
    let mut bytes = [0u8; 2];
    let count = first_bytes(store, message, &mut bytes);
    FlushAsked::read(&bytes[..count])
}

// Whether a kind is M_FLUSH.
fn is_flush(kind: MsgKind) -> bool
    ensures { result ≡ is_flush kind }
{
    matches!(kind, MsgKind::Flush)
}

// The header of an M_IOCTL that wants an answer: its number isn't 0.
fn nak_of<B: Blocks>(store: &B, message: &InHand) -> Option<Down>
    requires { IsInHand (B.value store.now) (token message.now) }
    ensures { (here : Spot) → sent_down here result
        ≡ nak_down here (read_ioc (bytes_of (in_hand (B.value store.now) (token message.now)))) }
{
    let mut bytes = [0u8; HEADER];
    let count = first_bytes(store, message, &mut bytes);
    let ioc = Ioc::read(&bytes[..count])?;
    if ioc.number == 0 {
        return None;
    }
    Some(Down::Nak(ioc))
}

impl Head {
    // An M_DATA, M_PROTO or M_PCPROTO waits for the readers; a second M_PCPROTO goes.
    fn take_in<B: Blocks>(&mut self, store: &mut B, here: Spot, message: InHand, told: &mut Fates)
        requires ready { IsHeadQueue (B.value store.old) self.old.queue }
        requires in_hand { IsInHand (B.value store.old) (token message) }
        requires chain { IsChain (in_hand (B.value store.old) (token message)) }
        requires data { is_data_kind (block_at 0 (in_hand (B.value store.old) (token message))).kind ≡ true }
        ensures state { let s = B.value store.old in
            head_in (B.value store.new) self.new
            ≡ (waits_for_readers here (message_of (in_hand s (token message))) (head_in s self.old)).state }
        ensures told { let s = B.value store.old in
            told.new ≡ tallied (waits_for_readers here (message_of (in_hand s (token message))) (head_in s self.old)).gone told.old }
        ensures changes { Changes (dropped (B.value store.old) (token message)) (B.value store.new) self.old.queue self.new.queue }
        ensures readable { HoldsReadable (list_at (B.value store.new) self.new.queue.list) }
        ensures frees { FreesBlocks (B.value store.old) (B.value store.new) }
        ensures blocks { is_pcproto (block_at 0 (in_hand (B.value store.old) (token message))).kind ≡ false →
            FreesNone (B.value store.old) (B.value store.new) }
    {
        store.audit();
        if is_pcproto(store.kind(&message, 0)) && has_pcproto(store, &self.queue) {
            let bytes = booked_size(store, &message);
            told.tell(here.side.head().direction(), Rule::Doubled, bytes);
            store.free(message);
            return;
        }
        enqueue(store, &mut self.queue, message);
    }

    // FLUSHR: the queue is flushed. Says whether a waiting writer is let go.
    fn flush_own<B: Blocks>(
        &mut self,
        store: &mut B,
        here: Spot,
        asked: FlushAsked,
        told: &mut Fates,
    ) -> bool
        requires ready { IsHeadQueue (B.value store.old) self.old.queue }
        ensures state { let s = B.value store.old in
            head_in (B.value store.new) self.new ≡ (head_flushed here asked (head_in s self.old)).state }
        ensures notes { let s = B.value store.old in
            notes_of result ≡ (head_flushed here asked (head_in s self.old)).notes }
        ensures told { let s = B.value store.old in
            told.new ≡ tallied (head_flushed here asked (head_in s self.old)).gone told.old }
        ensures changes { Changes (B.value store.old) (B.value store.new) self.old.queue self.new.queue }
        ensures readable { HoldsReadable (list_at (B.value store.new) self.new.queue.list) }
        ensures frees { FreesBlocks (B.value store.old) (B.value store.new) }
    {
        let chosen = Chosen::of_data(asked.band);
        let bytes = going(store, &self.queue, chosen);
        told.tell(here.side.head().direction(), Rule::Flushed, bytes);
        empty(store, &mut self.queue, chosen)
    }

    // Does what an M_FLUSH asks for.
    fn obey<B: Blocks>(
        &mut self,
        store: &mut B,
        here: Spot,
        asked: FlushAsked,
        told: &mut Fates,
    ) -> Came
        requires ready { IsHeadQueue (B.value store.old) self.old.queue }
        ensures state { let s = B.value store.old in
            head_in (B.value store.new) self.new ≡ (flush_up here asked (head_in s self.old)).state }
        ensures notes { let s = B.value store.old in
            notes_of result.lets_go ≡ (flush_up here asked (head_in s self.old)).notes }
        ensures sent { let s = B.value store.old in
            sent_down here result.down ≡ (flush_up here asked (head_in s self.old)).sent }
        ensures told { let s = B.value store.old in
            told.new ≡ tallied (flush_up here asked (head_in s self.old)).gone told.old }
        ensures changes { Changes (B.value store.old) (B.value store.new) self.old.queue self.new.queue }
        ensures readable { HoldsReadable (list_at (B.value store.new) self.new.queue.list) }
        ensures frees { FreesBlocks (B.value store.old) (B.value store.new) }
    {
        let down = if asked.for_write {
            Some(Down::Flush(FlushAsked {
                for_read: false,
                ..asked
            }))
        } else {
            None
        };
        if !asked.for_read {
            return Came {
                lets_go: false,
                down,
            };
        }
        let lets_go = self.flush_own(store, here, asked, told);
        Came { lets_go, down }
    }

    // M_HANGUP: the other end is gone.
    fn hang_up(&mut self)
        ensures { self.new ≡ record self.old { hung_up = true } }
    {
        self.hung_up = true;
    }

    // M_SIG and M_PCSIG: a signal waits, if the message names one. One byte names it, and a second one says that it doesn't.
    fn take_signal<B: Blocks>(&mut self, store: &B, message: &InHand)
        requires { IsInHand (B.value store.now) (token message.now) }
        ensures { let bytes = bytes_of (in_hand (B.value store.now) (token message.now)) in
            self.new ≡ record self.old { signals = with_signal (signal_in bytes) self.old.signals } }
    {
        let mut bytes = [0u8; 2];
        let count = first_bytes(store, message, &mut bytes);
        self.signals.post(&bytes[..count]);
    }

    // Sets the marks of all bands, where they are given.
    fn set_marks(&mut self, marks: Option<Marks>)
        requires { MatchOption marks (Unit {0}) (λ m. are_marks m.high m.low ≡ true) }
        ensures state { (s : StoreValue) → IsReady s self.old.queue →
            head_in s self.new ≡ record (head_in s self.old) { queue = with_marks_given marks (queue_in s self.old.queue) } }
        ensures counted { (q : List (List Block)) → AreCounted self.old.queue.flows q → AreCounted self.new.queue.flows q }
        ensures others { OnlyCounts self.old.queue self.new.queue }
    {
        if let Some(marks) = marks {
            mark_all(&mut self.queue, marks);
        }
    }

    // M_SETOPTS: the read mode, TOSTOP and the marks, each where it is given. The longer form has nine bytes, and a tenth one says that it
    // isn't that.
    fn set_options<B: Blocks>(&mut self, store: &B, message: &InHand)
        requires { IsInHand (B.value store.now) (token message.now) }
        ensures state { let bytes = bytes_of (in_hand (B.value store.now) (token message.now)) in
            (s : StoreValue) → IsReady s self.old.queue → head_in s self.new ≡ with_options (options_in bytes) (head_in s self.old) }
        ensures counted { (q : List (List Block)) → AreCounted self.old.queue.flows q → AreCounted self.new.queue.flows q }
        ensures others { OnlyCounts self.old.queue self.new.queue }
    {
        let mut bytes = [0u8; 10];
        let count = first_bytes(store, message, &mut bytes);
        let options = Options::read(&bytes[..count]);
        self.read_mode = options.mode.unwrap_or(self.read_mode);
        self.tostop = options.tostop.unwrap_or(self.tostop);
        self.set_marks(options.marks);
    }

    // M_IOCACK and M_IOCNAK: the answer of the ioctl under way, if it is that.
    fn take_ioctl_answer<B: Blocks>(&mut self, store: &B, message: &InHand, is_ack: bool)
        requires { IsInHand (B.value store.now) (token message.now) }
        ensures state { let bytes = bytes_of (in_hand (B.value store.now) (token message.now)) in
            (s : StoreValue) → head_in s self.new ≡ record (head_in s self.old) { ioctl = slot_answered is_ack bytes (plain_slot self.old.ioctl) } }
        ensures queue { self.new.queue ≡ self.old.queue }
    {
        let mut bytes = [0u8; HEADER + IOCTL_MAX];
        let count = first_bytes(store, message, &mut bytes);
        self.take_answer(is_ack, &bytes[..count]);
    }

    // Does what a message says that has no parts and isn't an M_FLUSH, by its kind. Says what goes down.
    fn heed<B: Blocks>(&mut self, store: &B, kind: MsgKind, message: &InHand) -> Option<Down>
        requires in_hand { IsInHand (B.value store.now) (token message.now) }
        requires kind { is_flush kind ≡ false }
        ensures state { let bytes = bytes_of (in_hand (B.value store.now) (token message.now)) in
            (s : StoreValue) → (here : Spot) → IsReady s self.old.queue →
            head_in s self.new ≡ (obeyed here kind bytes (head_in s self.old)).state }
        ensures sent { let bytes = bytes_of (in_hand (B.value store.now) (token message.now)) in
            (h : state.Head ℕ) → (here : Spot) → sent_down here result ≡ (obeyed here kind bytes h).sent }
        ensures counted { (q : List (List Block)) → AreCounted self.old.queue.flows q → AreCounted self.new.queue.flows q }
        ensures others { OnlyCounts self.old.queue self.new.queue }
    {
        match kind {
            MsgKind::Hangup => self.hang_up(),
            MsgKind::Sig | MsgKind::Pcsig => self.take_signal(store, message),
            MsgKind::Setopts => self.set_options(store, message),
            MsgKind::Iocack => self.take_ioctl_answer(store, message, true),
            MsgKind::Iocnak => self.take_ioctl_answer(store, message, false),
            MsgKind::Ioctl => return nak_of(store, message),
            _ => {}
        }
        None
    }

    /// Takes a message that comes up: `put(9E)` at the top of a stream. M_DATA, M_PROTO and M_PCPROTO wait for the readers, but
    /// for a second M_PCPROTO, which goes. An M_FLUSH with FLUSHR flushes the queue, and one with FLUSHW goes down again
    /// without FLUSHR. An M_HANGUP says that the other end is gone. M_SIG and M_PCSIG leave a signal. An M_SETOPTS sets the
    /// read mode and the marks. M_IOCACK and M_IOCNAK answer the ioctl under way. An M_IOCTL that wants an answer is answered
    /// with M_IOCNAK. All others are freed. No block is taken, and none is freed by an M_DATA or an M_PROTO.
    pub fn put<B: Blocks>(
        &mut self,
        store: &mut B,
        here: Spot,
        message: InHand,
        told: &mut Fates,
    ) -> Came
        requires ready { IsHeadQueue (B.value store.old) self.old.queue }
        requires in_hand { IsInHand (B.value store.old) (token message) }
        requires chain { IsChain (in_hand (B.value store.old) (token message)) }
        ensures state { let s = B.value store.old in
            head_in (B.value store.new) self.new
            ≡ (head_put here (message_of (in_hand s (token message))) (head_in s self.old)).state }
        ensures notes { let s = B.value store.old in
            notes_of result.lets_go ≡ (head_put here (message_of (in_hand s (token message))) (head_in s self.old)).notes }
        ensures sent { let s = B.value store.old in
            sent_down here result.down ≡ (head_put here (message_of (in_hand s (token message))) (head_in s self.old)).sent }
        ensures told { let s = B.value store.old in
            told.new ≡ tallied (head_put here (message_of (in_hand s (token message))) (head_in s self.old)).gone told.old }
        ensures changes { Changes (dropped (B.value store.old) (token message)) (B.value store.new) self.old.queue self.new.queue }
        ensures readable { HoldsReadable (list_at (B.value store.new) self.new.queue.list) }
        ensures frees { FreesBlocks (B.value store.old) (B.value store.new) }
        ensures blocks { is_held (block_at 0 (in_hand (B.value store.old) (token message))).kind ≡ true →
            FreesNone (B.value store.old) (B.value store.new) }
    {
        store.audit();
        let kind = store.kind(&message, 0);
        if kind.is_data_kind() {
            self.take_in(store, here, message, told);
            return NOTHING;
        }
        if is_flush(kind) {
            let asked = asked(store, &message);
            store.free(message);
            return self.obey(store, here, asked, told);
        }
        let down = self.heed(store, kind, &message);
        store.free(message);
        Came {
            lets_go: false,
            down,
        }
    }
}
