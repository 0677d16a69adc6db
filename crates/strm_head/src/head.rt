//! A stream head.

ghost use Rattle.std.specs.Prelude.{◌≡◌, ◌≤◌, [], length, false};
ghost use Rattle.strm_types.specs.Reads.{read_refusal, head_draw, read_queue, read_lets_go, read_told};
ghost use Rattle.strm_types.specs.Gets.{get_refusal, first_data};
ghost use Rattle.strm_queue.specs.Stored.{messages_on, queue_in, IsHeadQueue, Keeps};

use crate::ioctls::IoctlBytes;
use crate::signals::Signals;
use crate::standing::{finds_none, starts_refused};
use crate::{reading, standing};
use strm_blocks::Blocks;
use strm_queue::lengths::first_data;
use strm_queue::standing::messages;
use strm_queue::{HEAD_HIGH, HEAD_LOW, Queue};
use strm_types::{
    Access, Caller, Content, ControlMode, Dir, Fates, Mode, READ_MAX, ReadMode, Refusal,
    SIGNALS_MAX, Slot, Verdict, Wanted, held,
};

/// A stream head: the queue of what waits for its readers, how they read it, and what it keeps of what came up.
#[derive(Drop)]
pub struct Head {
    pub queue: Queue,
    pub read_mode: ReadMode,
    pub control_mode: ControlMode,
    /// Whether a write of a caller in the background is stopped: TOSTOP of `termio(7I)`, told by an M_SETOPTS.
    pub tostop: bool,
    /// The foreground process group of the terminal, 0 for none: set by TIOCSPGRP on the slave.
    pub group: u32,
    /// Whether an M_HANGUP came up, as the other end is gone.
    pub hung_up: bool,
    /// The signals that came up and that nobody took yet.
    pub signals: Signals,
    /// The ioctl that is under way on the stream.
    pub ioctl: Slot<IoctlBytes>,
}

/// What waits for readers (streamio(7I): I_NREAD): how many bytes the data part of the first message has, and how many
/// messages there are.
#[derive(Clone, Copy, Debug, PartialEq)]
pub struct Waiting {
    pub first: u32,
    pub messages: u32,
}

impl Head {
    ghost use Rattle.strm_blocks.specs.Blocks.{StoreValue};
    ghost use Rattle.strm_blocks.specs.Blocks.{list_at};
    ghost use Rattle.strm_queue.specs.Kept.{AreCounted};
    ghost use Rattle.strm_types.specs.Heads.{new_head, with_mode};
    ghost use Rattle.strm_types.specs.JobControl as job_control;
    ghost use Rattle.strm_types.specs.JobControl.{foreground};
    ghost use Rattle.strm_head.specs.Leaving.{Frees};
    ghost use Rattle.strm_head.specs.Heads.{head_in};

    /// A head on an empty queue: RNORM and RPROTNORM, without TOSTOP and without a foreground group. No signal waits, and no ioctl is under way.
    pub fn new(queue: Queue) -> Head
        ensures queue { result.queue ≡ queue }
        ensures read_mode { result.read_mode ≡ ByteStream }
        ensures control_mode { result.control_mode ≡ Refuse }
        ensures tostop { result.tostop ≡ false }
        ensures group { result.group ≡ 0 }
        ensures hung_up { result.hung_up ≡ false }
        ensures signals { result.signals ≡ [] }
        ensures ioctl { result.ioctl ≡ Free }
    {
        Head {
            queue,
            read_mode: ReadMode::ByteStream,
            control_mode: ControlMode::Refuse,
            tostop: false,
            group: 0,
            hung_up: false,
            signals: Signals::new(),
            ioctl: Slot::Free,
        }
    }

    /// Makes the head as new, in place, where nothing stands on its queue.
    pub fn renew(&mut self)
        ensures list { self.new.queue.list ≡ self.old.queue.list }
        ensures counted { AreCounted self.new.queue.flows [] }
        ensures head { (s : StoreValue) → list_at s self.old.queue.list ≡ [] → head_in s self.new ≡ new_head }
    {
        self.queue.renew(HEAD_HIGH, HEAD_LOW);
        self.read_mode = ReadMode::ByteStream;
        self.control_mode = ControlMode::Refuse;
        self.tostop = false;
        self.group = 0;
        self.hung_up = false;
        self.signals = Signals::new();
        self.ioctl = Slot::Free;
    }

    ghost use Rattle.strm_types.specs.declared.modes.ReadMode.TheVariants.{ByteStream};
    ghost use Rattle.strm_types.specs.declared.modes.ControlMode.TheVariants.{Refuse};
    ghost use Rattle.strm_types.specs.declared.slots.Slot.TheVariants.{Free};

    /// What job control makes of a caller's call, by what that does at the terminal: nothing, where the other end is gone.
    #[inline(always)]
    pub fn held(&self, access: Option<Access>, caller: Caller) -> Verdict
        ensures { result ≡ job_control.held access self.now.tostop (foreground self.now.hung_up self.now.group) caller }
    {
        let foreground = if self.hung_up { 0 } else { self.group };
        held(access, self.tostop, foreground, caller)
    }

    /// Sets how reads treat the ends of messages. The control mode stays.
    pub fn set_read_mode(&mut self, mode: ReadMode)
        ensures { self.new ≡ record self.old { read_mode = mode } }
    {
        self.read_mode = mode;
    }

    /// Sets how reads treat control parts. The read mode stays.
    pub fn set_control_mode(&mut self, mode: ControlMode)
        ensures { self.new ≡ record self.old { control_mode = mode } }
    {
        self.control_mode = mode;
    }

    /// Sets one mode, and the other one stays.
    pub fn set_mode(&mut self, mode: Mode)
        ensures mode { (s : StoreValue) → head_in s self.new ≡ with_mode mode (head_in s self.old) }
        ensures queue { self.new.queue ≡ self.old.queue }
    {
        match mode {
            Mode::Read(read_mode) => self.set_read_mode(read_mode),
            Mode::Control(control_mode) => self.set_control_mode(control_mode),
        }
    }

    /// Takes the signals that wait, a byte each, in the order in which they came first. They are in `out`, which is empty before.
    pub fn take_signals(&mut self, out: &mut Content)
        requires { out.old.items ≡ [] }
        ensures given { out.new.items ≡ self.old.signals }
        ensures few { length out.new.items ≤ SIGNALS_MAX }
        ensures state { (s : StoreValue) → head_in s self.new ≡ record (head_in s self.old) { signals = [] } }
        ensures queue { self.new.queue ≡ self.old.queue }
    {
        out.try_extend_from_slice(self.signals.as_slice()).unwrap();
        self.signals.clear();
    }

    /// What a read of up to `n` bytes is refused for, before it takes anything: EAGAIN where it finds nothing and the input
    /// isn't at its end, EBADMSG for a control part under RPROTNORM.
    #[inline(always)]
    pub fn read_refusal<B: Blocks>(&self, store: &B, at_end: bool, n: usize) -> Option<Refusal>
        requires { IsHeadQueue (B.value store.now) self.now.queue }
        ensures { result ≡ read_refusal self.now.control_mode at_end n (messages_on (B.value store.now) self.now.queue.list) }
    {
        if n == 0 {
            return None;
        }
        if finds_none(store, &self.queue, self.control_mode) {
            return if at_end { None } else { Some(Refusal::Eagain) };
        }
        if starts_refused(store, &self.queue, self.control_mode) {
            return Some(Refusal::Ebadmsg);
        }
        None
    }

    /// What a getmsg(2) or getpmsg(2) is refused for: EAGAIN where the first message isn't the one that is asked for, or there
    /// is none and the input isn't at its end.
    pub fn get_refusal<B: Blocks>(&self, store: &B, wanted: Wanted, at_end: bool) -> Option<Refusal>
        ensures { result ≡ get_refusal wanted at_end (messages_on (B.value store.now) self.now.queue.list) }
    {
        standing::get_refusal(store, &self.queue, wanted, at_end)
    }

    /// What waits for readers. The cost is a step for each block of the first message, however many messages there are.
    pub fn nread<B: Blocks>(&self, store: &B) -> Waiting
        requires { IsHeadQueue (B.value store.now) self.now.queue }
        ensures first { result.first ≡ first_data (messages_on (B.value store.now) self.now.queue.list) }
        ensures messages { result.messages ≡ length (messages_on (B.value store.now) self.now.queue.list) }
    {
        store.audit();
        Waiting {
            first: first_data(store, &self.queue).unwrap_or(0) as u32,
            messages: messages(store, &self.queue) as u32,
        }
    }

    /// Gives up to `n` bytes of what waits, tells by which rules bytes of the direction go, and says whether a waiting writer
    /// is let go. Where `read_refusal` refuses the read, or there is nothing to take, nothing changes. The cost is a step for
    /// each block of the messages that are taken or passed over, and of the first one that stays.
    pub fn read<B: Blocks>(
        &mut self,
        store: &mut B,
        n: usize,
        out: &mut Content,
        direction: Dir,
        fates: &mut Fates,
    ) -> bool
        requires ready { IsHeadQueue (B.value store.old) self.old.queue }
        requires most { n ≤ READ_MAX }
        requires fresh { out.old.items ≡ [] }
        ensures given { out.new.items ≡ (head_draw self.old.read_mode self.old.control_mode n (messages_on (B.value store.old) self.old.queue.list)).given }
        ensures most_given { length out.new.items ≤ n }
        ensures queue { queue_in (B.value store.new) self.new.queue
            ≡ read_queue self.old.read_mode self.old.control_mode n (queue_in (B.value store.old) self.old.queue) }
        ensures went { result ≡ read_lets_go self.old.read_mode self.old.control_mode n (queue_in (B.value store.old) self.old.queue) }
        ensures told { fates.new ≡ read_told direction self.old.read_mode self.old.control_mode n (messages_on (B.value store.old) self.old.queue.list) fates.old }
        ensures frees { Frees (B.value store.old) (B.value store.new) self.old.queue.list }
        ensures keeps { Keeps (B.value store.old) (B.value store.new) self.old.queue self.new.queue }
        ensures ready { IsHeadQueue (B.value store.new) self.new.queue }
        ensures modes { self.new ≡ record self.old { queue = self.new.queue } }
    {
        reading::read(
            store,
            &mut self.queue,
            self.read_mode,
            self.control_mode,
            n,
            out,
            direction,
            fates,
        )
    }
}
