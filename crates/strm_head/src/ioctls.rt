//! The ioctl that is under way on a stream, at its head (ioctl(2), streamio(7I): I_STR).

ghost use Rattle.std.specs.Prelude.{ℕ, ◌≡◌, ◌≤◌, List, [], length, if◌then◌else◌};
ghost use Rattle.strm_types.specs.declared.answers.Answer.TheVariants.{Done, Bytes};
ghost use Rattle.strm_types.specs.Dropped.{is_met, number_sought, slot_dropped};
ghost use Rattle.strm_types.specs.Ioctls.{ioctl_message};
ghost use Rattle.strm_types.specs.Journal.{answer_len, reply_in};
ghost use Rattle.strm_types.specs.Message.{Message};
ghost use Rattle.strm_types.specs.Slots as slots;
ghost use Rattle.strm_types.specs.Slots.{answer_body, is_free, slot_answered, slot_behind, told_of, with_answer};
ghost use Rattle.strm_blocks.specs.Blocks.{StoreValue, free_m, free_d, token};
ghost use Rattle.strm_head.specs.Heads.{head_in, plain_slot};
ghost use Rattle.strm_head.specs.Sending.{ioctl_blocks, Sends};

use crate::head::Head;
use crate::sending::make;
use arrayvec::ArrayVec;
use strm_blocks::{Blocks, InHand};
use strm_types::{
    Answer, Band, Content, IOCTL_MAX, Ioc, MsgKind, Refusal, Slot, TCSETS, TCSETSF, TCSETSW,
    TIOCGPGRP, TIOCSIGNAL, TIOCSWINSZ, sets_group, word_at,
};

/// The bytes of an answer, behind its header.
pub type IoctlBytes = ArrayVec<u8, IOCTL_MAX>;

/// How many bytes the header of an ioctl message has.
pub(crate) const HEADER: usize = 16;

// What stands behind the header of an answer, 256 bytes at most.
#[inline(always)]
fn answer_body(bytes: &[u8]) -> IoctlBytes
    requires { HEADER ≤ length bytes.now }
    ensures { result.items ≡ answer_body bytes.now }
{
    let rest = &bytes[HEADER..];
    let count = rest.len().min(IOCTL_MAX);
    let mut body = ArrayVec::new();
    body.try_extend_from_slice(&rest[..count]).unwrap();
    body
}

// The slot with the answer of the ioctl that waits: M_IOCACK or M_IOCNAK. Inlined, as it is large.
#[inline(always)]
fn with_answer(is_ack: bool, number: u32, command: u32, ioc: Ioc, bytes: &[u8]) -> Slot<IoctlBytes>
    requires { HEADER ≤ length bytes.now }
    ensures { plain_slot result ≡ with_answer is_ack number command ioc bytes.now }
{
    Slot::Answered {
        number,
        command,
        acked: is_ack,
        error: ioc.error,
        body: answer_body(bytes),
    }
}

// Puts an answer that comes up into the slot that waits for it, where it stays: the slot is large. One that is nobody's leaves the slot.
fn settle(slot: &mut Slot<IoctlBytes>, is_ack: bool, bytes: &[u8])
    ensures { plain_slot slot.new ≡ slot_answered is_ack bytes.now (plain_slot slot.old) }
{
    let Slot::Waiting { number, command } = *slot else {
        return;
    };
    let Some(ioc) = Ioc::read(bytes) else {
        return;
    };
    if ioc.number == number {
        *slot = with_answer(is_ack, number, command, ioc, bytes);
    }
}

// Whether the answer of a command gives nothing but that it is done.
fn gives_nothing(command: u32) -> bool
    ensures { result ≡ slots.gives_nothing command }
{
    command == TCSETS
        || command == TCSETSW
        || command == TCSETSF
        || command == TIOCSWINSZ
        || command == TIOCSIGNAL
}

// The answer of an ioctl that was acknowledged.
fn give(command: u32, body: &[u8], out: &mut Content) -> Answer<u32>
    requires fresh { out.old.items ≡ [] }
    requires few { length body.now ≤ IOCTL_MAX }
    ensures told { reply_in result out.new.items ≡ (if slots.gives_nothing command then Done else Bytes body.now) }
    ensures len { answer_len result ≡ length out.new.items }
    ensures few { length out.new.items ≤ IOCTL_MAX }
{
    if gives_nothing(command) {
        return Answer::Done;
    }
    out.try_extend_from_slice(body).unwrap();
    Answer::Bytes(body.len() as u32)
}

// What the caller is told of a slot, with its bytes in `out`.
fn tell(slot: &Slot<IoctlBytes>, out: &mut Content) -> Answer<u32>
    requires { out.old.items ≡ [] }
    ensures told { reply_in result out.new.items ≡ told_of (plain_slot slot.now) }
    ensures len { answer_len result ≡ length out.new.items }
    ensures few { length out.new.items ≤ IOCTL_MAX }
{
    match slot {
        Slot::Free => Answer::Done,
        Slot::Waiting { number, .. } => Answer::Pending(*number),
        Slot::Answered {
            acked: true,
            command,
            body,
            ..
        } => give(*command, body.as_slice(), out),
        Slot::Answered { error, .. } => Answer::Nak(Refusal::numbered(*error)),
    }
}

// Frees a slot whose answer was given.
fn leave(slot: &mut Slot<IoctlBytes>)
    ensures { plain_slot slot.new ≡ slot_behind (plain_slot slot.old) }
{
    if !matches!(slot, Slot::Waiting { .. }) {
        *slot = Slot::Free;
    }
}

/// Makes the M_IOCTL that an ioctl(2) sends down a stream: a block for its header, and an M_DATA block for its bytes where there
/// are some.
pub fn make_ioctl<B: Blocks>(store: &mut B, ioc: Ioc, body: &[u8]) -> InHand
    requires few { length body.now ≤ IOCTL_MAX }
    requires room_m { ioctl_blocks body.now ≤ free_m (B.value store.old) }
    requires room_d { ioctl_blocks body.now ≤ free_d (B.value store.old) }
    ensures { Sends (B.value store.old) (B.value store.new) (token result) (ioctl_message ioc body.now) (ioctl_blocks body.now) }
{
    let header = make(store, MsgKind::Ioctl, Band(0), &ioc.bytes());
    if body.is_empty() {
        return header;
    }
    let behind = make(store, MsgKind::Data, Band(0), body);
    store.link(header, behind)
}

impl Head {
    ghost use Rattle.strm_types.specs.declared.slots.Slot.TheVariants.{Free, Waiting};
    ghost use Rattle.strm_types.specs.JobControl.{group_behind, group_reply};

    /// Whether no ioctl is under way on the stream.
    pub fn is_idle(&self) -> bool
        ensures { result ≡ is_free self.now.ioctl }
    {
        matches!(self.ioctl, Slot::Free)
    }

    /// An ioctl of this number is under way, and waits for its answer.
    pub fn begin_ioctl(&mut self, number: u32, command: u32)
        ensures state { (s : StoreValue) → head_in s self.new ≡ record (head_in s self.old) { ioctl = Waiting number command } }
        ensures queue { self.new.queue ≡ self.old.queue }
    {
        self.ioctl = Slot::Waiting { number, command };
    }

    /// The number of the ioctl that waits for its answer, if one does.
    pub fn number_sought(&self) -> Option<u32>
        ensures { result ≡ number_sought self.now.ioctl }
    {
        match self.ioctl {
            Slot::Waiting { number, .. } => Some(number),
            Slot::Free | Slot::Answered { .. } => None,
        }
    }

    /// Ends the ioctl that waits for its answer, where its M_IOCTL was met among messages that go with a module: nobody will answer it any
    /// more, so its caller is told EINVAL, as by a driver that doesn't know the command (streamio(7I): I_POP).
    pub fn drop_ioctl(&mut self, met: bool)
        ensures state { (s : StoreValue) (ms : List (Message ℕ)) → met ≡ is_met (number_sought self.old.ioctl) ms →
            head_in s self.new ≡ record (head_in s self.old) { ioctl = slot_dropped ms (plain_slot self.old.ioctl) } }
        ensures queue { self.new.queue ≡ self.old.queue }
    {
        let Slot::Waiting { number, command } = self.ioctl else {
            return;
        };
        if met {
            self.ioctl = Slot::Answered {
                number,
                command,
                acked: false,
                error: Refusal::Einval.number().into(),
                body: ArrayVec::new(),
            };
        }
    }

    /// What a call for the answer of the ioctl of a number is refused for: EINVAL where it isn't under way, EAGAIN while it waits.
    pub fn result_refusal(&self, number: u32) -> Option<Refusal>
        ensures { result ≡ slots.result_refusal number self.now.ioctl }
    {
        let (own, refusal) = match &self.ioctl {
            Slot::Free => return Some(Refusal::Einval),
            Slot::Waiting { number, .. } => (*number, Some(Refusal::Eagain)),
            Slot::Answered { number, .. } => (*number, None),
        };
        if own == number {
            refusal
        } else {
            Some(Refusal::Einval)
        }
    }

    /// Tells what became of the ioctl under way, once: that it is done or the bytes of its answer, why it was refused, or its
    /// number while it waits. The bytes are in `out`, which is empty before.
    pub fn tell_ioctl(&mut self, out: &mut Content) -> Answer<u32>
        requires { out.old.items ≡ [] }
        ensures told { reply_in result out.new.items ≡ told_of (plain_slot self.old.ioctl) }
        ensures len { answer_len result ≡ length out.new.items }
        ensures few { length out.new.items ≤ IOCTL_MAX }
        ensures state { (s : StoreValue) → head_in s self.new ≡ record (head_in s self.old) { ioctl = slot_behind (plain_slot self.old.ioctl) } }
        ensures queue { self.new.queue ≡ self.old.queue }
    {
        let answer = tell(&self.ioctl, out);
        leave(&mut self.ioctl);
        answer
    }

    /// Answers TIOCGPGRP with the foreground process group, four bytes in `out`, and TIOCSPGRP with four bytes by setting it; with any other
    /// number of bytes that is EINVAL. No ioctl is under way behind it.
    pub fn tell_group(&mut self, command: u32, body: &[u8], out: &mut Content) -> Answer<u32>
        requires fresh { out.old.items ≡ [] }
        ensures told { reply_in result out.new.items ≡ group_reply command body.now self.old.group }
        ensures len { answer_len result ≡ length out.new.items }
        ensures few { length out.new.items ≤ IOCTL_MAX }
        ensures state { (s : StoreValue) → head_in s self.new
            ≡ record (head_in s self.old) { group = group_behind command body.now self.old.group; ioctl = Free } }
        ensures queue { self.new.queue ≡ self.old.queue }
    {
        self.ioctl = Slot::Free;
        if command == TIOCGPGRP {
            out.try_extend_from_slice(&self.group.to_be_bytes())
                .unwrap();
            return Answer::Bytes(4);
        }
        if !sets_group(command, body) {
            return Answer::Nak(Refusal::Einval);
        }
        self.group = word_at(body, 0);
        Answer::Done
    }

    // Takes an M_IOCACK or an M_IOCNAK of these bytes.
    pub(crate) fn take_answer(&mut self, is_ack: bool, bytes: &[u8])
        ensures state { (s : StoreValue) → head_in s self.new ≡ record (head_in s self.old) { ioctl = slot_answered is_ack bytes.now (plain_slot self.old.ioctl) } }
        ensures queue { self.new.queue ≡ self.old.queue }
    {
        settle(&mut self.ioctl, is_ack, bytes);
    }
}
