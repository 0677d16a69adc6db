//! A pair with room for an answer, and the calls and turns of numbers at it.

ghost use Rattle.std.specs.Prelude.{◌≡◌, ◌≤◌, ◌++◌, None, true, false, [], length, drop, slice_get, IfErr, IfNone, IfOk};
ghost use Rattle.strm_types.specs.declared.events.Event.TheVariants.{Write};
ghost use Rattle.strm_types.specs.Events.{request};
ghost use Rattle.strm_handle.specs.Calls.{event_at};
ghost use Rattle.strm_types.specs.Numbers.{number_of};
ghost use Rattle.strm_handle.specs.Kept.{is_full, is_held_back, made_at};
ghost use Rattle.strm_handle.specs.Few.{FewAsked, FewBytes};
ghost use Rattle.strm_handle.specs.Outcomes.{CallsAt, is_held, refused_before, refused_within, ask_refused, side_refused, turn_refused, Answers, AnswersAsk, AnswersSide, RunsQueues, Stay, Turns, TurnsFirst, no_bytes, number_told, run_refused, waits_told};
ghost use Rattle.strm_handle.specs.Traces.{IsWhole};
ghost use Rattle.strm_image.specs.Traces.{IsTrace};
ghost use Rattle.strm_laws.specs.Pair.{new_pair, restarted};
ghost use Rattle.strm_laws.specs.Refusals.{blocks_asked};

use crate::anew::{call_at, turn_at};
use crate::answering::replied;
use crate::asking::{caller_of, event_of};
use crate::asks::Ask;
use crate::numbers::{queue_of, side_of, went};
use crate::replies::{Reply, Went};
use crate::reserve::{has_blocks, has_many, sends};
use crate::traces::copied;
use std::alloc::Global;
use std::marker::Model;
use strm_image::Trace;
use strm_pair::Pair;
use strm_raw::RawStore;
use strm_types::{Caller, Content, Event, NoMemory, Refusal, Side};

/// So many turns a run makes at most of a pair whose journal begins anew: two `ldterm`s that echo each other's echo never end.
const TURNS_MAX: usize = 65536;

/// A pair in one piece of memory with room for an answer, and what was chosen for it. Contracts see the pair and the choices.
#[derive(Drop)]
pub(crate) struct Kept {
    pub(crate) pair: Pair<RawStore>,
    pub(crate) answer: Content,
    /// Whether a full journal begins anew.
    pub(crate) anew: bool,
    /// How many blocks of each kind are in reserve: none where it is 0.
    pub(crate) reserve: usize,
}

impl Model for Kept {
    ghost use Rattle.strm_handle.specs.Kept.{IsHeld, KeptPair};

    ghost Value = { KeptPair };

    ghost view = { λ k. record { pair = k.pair; anew = k.anew; reserve = k.reserve } };

    ghost invariant = { λ k. IsHeld (record { pair = k.pair; anew = k.anew; reserve = k.reserve }) k.answer.items };
}

/// The number that an export answers for a refusal.
pub fn refused(refusal: Refusal) -> u32
    ensures { result ≡ number_of refusal }
{
    u32::from(refusal.number())
}

// The number that is told where turns stopped.
fn told(stopped: Option<Refusal>) -> u32
    ensures { result ≡ number_told stopped }
{
    match stopped {
        None => 0,
        Some(why) => refused(why),
    }
}

/// Copies bytes to the front of a buffer.
pub fn give(bytes: &[u8], out: &mut [u8])
    requires { length bytes.now ≤ length out.old }
    ensures { out.new ≡ bytes.now ++ drop (length bytes.now) out.old }
{
    out[..bytes.len()].copy_from_slice(bytes);
}

impl Kept {
    /// Whether the reserve holds back what a side sends, that asks for so many blocks.
    pub(crate) fn is_held_back(&self, side: Side, blocks: usize) -> bool
        ensures { result ≡ is_held_back side blocks self.now }
    {
        self.reserve > 0
            && (!has_blocks(&self.pair, blocks, self.reserve) && has_many(&self.pair, side))
    }

    // Whether the reserve holds back a call that asks for so many blocks.
    fn holds(&self, caller: Caller, event: &Event<&[u8]>, blocks: usize) -> bool
        requires { blocks ≡ blocks_asked (request event.now) }
        ensures { result ≡ is_held caller (request event.now) self.now }
    {
        sends(event) && self.is_held_back(caller.side, blocks)
    }

    // What a call is refused for before the pair is asked: a buffer that is too small for the greatest answer, and then the reserve.
    #[inline(always)]
    fn refusal_before(&self, caller: Caller, event: &Event<&[u8]>, room: usize) -> Option<Refusal>
        ensures { result ≡ refused_before caller (request event.now) room self.now }
    {
        let needs = event.needs();
        if needs.gives > room {
            return Some(Refusal::Einval);
        }
        if self.holds(caller, event, needs.blocks) {
            return Some(Refusal::Eagain);
        }
        None
    }

    // Makes a call that isn't refused before the pair is asked.
    #[inline(always)]
    fn call_pair(
        &mut self,
        caller: Caller,
        event: &Event<&[u8]>,
        out: &mut [u8],
        reply: &mut Reply,
    ) -> u32
        requires few { FewBytes (request event.now) }
        requires free { refused_before caller (request event.now) (length out.old) self.old ≡ None }
        ensures { CallsAt (refused_within caller (request event.now) (length out.old))
            (Stay out.old out.new reply.old reply.new)
            (Answers caller (request event.now) reply.new out.old out.new) self.old self.new result }
    {
        let answer = match call_at(&mut self.pair, self.anew, caller, event, &mut self.answer) {
            Ok(answer) => answer,
            Err(refusal) => return refused(refusal),
        };
        give(self.answer.as_slice(), out);
        // What was read stands in the caller's buffer alone.
        self.answer.clear();
        *reply = replied(&answer);
        0
    }

    /// Makes a call, whose answer goes into a reply and a buffer. One whose greatest answer doesn't fit the buffer isn't made, nor one that the
    /// reserve holds back.
    #[inline(always)]
    pub(crate) fn call(
        &mut self,
        caller: Caller,
        event: &Event<&[u8]>,
        out: &mut [u8],
        reply: &mut Reply,
    ) -> u32
        requires few { FewBytes (request event.now) }
        ensures { CallsAt (refused_within caller (request event.now) (length out.old))
            (Stay out.old out.new reply.old reply.new)
            (Answers caller (request event.now) reply.new out.old out.new) self.old self.new result }
    {
        match self.refusal_before(caller, event, out.len()) {
            Some(refusal) => refused(refusal),
            None => self.call_pair(caller, event, out, reply),
        }
    }

    /// Makes the call of numbers.
    pub(crate) fn ask(&mut self, ask: &Ask, bytes: &[u8], out: &mut [u8], reply: &mut Reply) -> u32
        requires few { FewAsked (event_at ask.now bytes.now) }
        ensures { CallsAt (ask_refused ask.now bytes.now (length out.old))
            (Stay out.old out.new reply.old reply.new)
            (AnswersAsk ask.now bytes.now reply.new out.old out.new) self.old self.new result }
    {
        let Some(caller) = caller_of(ask) else {
            return refused(Refusal::Einval);
        };
        match event_of(ask, bytes) {
            Some(event) => self.call(caller, &event, out, reply),
            None => refused(Refusal::Einval),
        }
    }

    /// Makes a call of a side whose caller has no process group.
    #[inline(always)]
    pub(crate) fn of_side(
        &mut self,
        side: u32,
        event: &Event<&[u8]>,
        out: &mut [u8],
        reply: &mut Reply,
    ) -> u32
        requires few { FewBytes (request event.now) }
        ensures { CallsAt (side_refused side (request event.now) (length out.old))
            (Stay out.old out.new reply.old reply.new)
            (AnswersSide side (request event.now) reply.new out.old out.new) self.old self.new result }
    {
        match side_of(side) {
            Some(side) => self.call(Caller::of(side), event, out, reply),
            None => refused(Refusal::Einval),
        }
    }

    /// Writes bytes of a side, of which there are no more than one write brings.
    #[inline(always)]
    pub(crate) fn write(&mut self, side: u32, bytes: &[u8], reply: &mut Reply) -> u32
        requires few { length bytes.now ≤ 1024 }
        ensures { CallsAt (side_refused side (Write bytes.now) 0) (Stay no_bytes no_bytes reply.old reply.new)
            (AnswersSide side (Write bytes.now) reply.new no_bytes no_bytes) self.old self.new result }
    {
        self.of_side(side, &Event::Write { bytes }, &mut [], reply)
    }

    /// Makes a turn of the queue of a number.
    pub(crate) fn turn(&mut self, queue: u32, told: &mut Went) -> u32
        ensures { CallsAt (turn_refused queue) (told.new ≡ told.old) (Turns queue told.new) self.old self.new result }
    {
        let Some(name) = queue_of(queue) else {
            return refused(Refusal::Einval);
        };
        let turn = match turn_at(&mut self.pair, self.anew, name) {
            Ok(turn) => turn,
            Err(refusal) => return refused(refusal),
        };
        *told = went(turn);
        0
    }

    // Makes turns of a pair whose full journal stays.
    fn run_on(&mut self, turns: &mut usize) -> u32
        requires { self.old.anew ≡ false }
        ensures { RunsQueues turns.new self.old self.new result }
    {
        let ran = self.pair.runqueues();
        *turns = ran.turns;
        told(ran.stopped)
    }

    // Makes the turn of the queue that was enabled first. Err: no queue is enabled, or it is refused.
    fn turn_first(&mut self) -> Result<(), Option<Refusal>>
        ensures ok { IfOk result (λ _. TurnsFirst self.old self.new) }
        ensures stopped { IfErr result (λ why. (self.new ≡ made_at run_refused self.old)
            × ((why ≡ run_refused self.new) × IfNone why ((self.new).pair.state.enabled ≡ []))) }
        ensures goes_on { IfErr result (λ why. (self.old).anew ≡ true → is_full why ≡ false) }
    {
        let Some(queue) = self.pair.first_enabled() else {
            return Err(None);
        };
        if let Err(refusal) = turn_at(&mut self.pair, self.anew, queue) {
            return Err(Some(refusal));
        }
        Ok(())
    }

    // The number that is told behind as many turns as a run makes.
    fn waits(&self) -> u32
        ensures { result ≡ waits_told (slice_get (self.now).pair.state.enabled 0) }
    {
        match self.pair.first_enabled() {
            None => 0,
            Some(_) => refused(Refusal::Eagain),
        }
    }

    // Makes turns of a pair whose full journal begins anew.
    fn run_anew(&mut self, turns: &mut usize) -> u32
        requires { self.old.anew ≡ true }
        ensures { RunsQueues turns.new self.old self.new result }
    {
        for made in 0..TURNS_MAX {
            if let Err(why) = self.turn_first() {
                *turns = made;
                return told(why);
            }
        }
        *turns = TURNS_MAX;
        self.waits()
    }

    /// Makes turns until no queue is enabled or the next one is refused.
    pub(crate) fn runqueues(&mut self, turns: &mut usize) -> u32
        ensures { RunsQueues turns.new self.old self.new result }
    {
        if self.anew {
            self.run_anew(turns)
        } else {
            self.run_on(turns)
        }
    }

    /// Begins the journal anew.
    pub(crate) fn restart(&mut self)
        ensures { self.new ≡ record self.old { pair = restarted (self.old).pair } }
    {
        self.pair.restart();
    }

    /// Hands out the base of the journal and all that was entered since, and begins the journal anew. The memory is asked for first.
    pub(crate) fn cut(&mut self, alloc: Global) -> Result<Trace, NoMemory>
        ensures trace { IfOk result (λ t. IsTrace (self.old).pair t × IsWhole t) }
        ensures restarted { IfOk result (λ _. self.new ≡ record self.old { pair = restarted (self.old).pair }) }
        ensures stays { IfErr result (λ _. self.new ≡ self.old) }
    {
        let trace = copied(alloc, self.pair.journal())?;
        self.restart();
        Ok(trace)
    }

    /// Makes the pair as new, so that no byte of a message, a line or the journal is left in its memory; none of an answer is.
    pub(crate) fn wipe(&mut self)
        ensures { self.new.pair ≡ new_pair self.old.pair.limits }
    {
        self.pair.reset();
    }
}

/// Gives the memory of a pair back, which is as new.
pub(crate) fn give_back(kept: Box<Kept, Global>)
    requires { kept.value.pair ≡ new_pair kept.value.pair.limits }
{
    drop(kept);
}
