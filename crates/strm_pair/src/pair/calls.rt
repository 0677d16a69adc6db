//! Calls as they are made: those that are refused, those that stop their caller, and those that are carried out, each entered in the journal.

ghost use Rattle.std.specs.Prelude.{◌≡◌, ◌≤◌, length};
ghost use Rattle.strm_types.specs.declared.entries.Entry.TheVariants.{Called};
ghost use Rattle.strm_types.specs.declared.events.Event.TheVariants.{Read, Write};
ghost use Rattle.strm_types.specs.declared.job_control.Verdict.TheVariants.{Allowed, Stopped};
ghost use Rattle.strm_types.specs.declared.limits.TheConstants.{READ_MAX};
ghost use Rattle.strm_types.specs.Events.{request};
ghost use Rattle.strm_types.specs.Journal.{answer_len, reply_in};
ghost use Rattle.strm_laws.specs.Pair.{AddsEntry, call_verdict};
ghost use Rattle.strm_pair.specs.Makes.{Makes};
ghost use Rattle.strm_pair.specs.Parts.{longest_part};

use crate::pair::Pair;
use strm_blocks::Blocks;
use strm_own::OwnModule;
use strm_types::{Answer, Caller, Content, Event, Refusal, StopSignal, Verdict};

impl<B: Blocks + Drop, M: OwnModule> Pair<B, M> {
    // Enters a call that stops its caller.
    fn stop(
        &mut self,
        caller: Caller,
        event: &Event<&[u8]>,
        signal: StopSignal,
        out: &mut Content,
    ) -> Answer<u32>
        requires { call_verdict M.does self.old caller (request event.now) ≡ Stopped signal }
        ensures adds { AddsEntry M.does self.old self.new (Called caller (request event.now) (reply_in result out.new.items)) }
        ensures filled { answer_len result ≡ length out.new.items }
        ensures parts { longest_part result ≤ READ_MAX }
    {
        self.store.audit();
        out.clear();
        let answer = Answer::Stop(signal);
        self.journal.add_call(caller, event, answer, &[]);
        answer
    }

    // Carries a call out, and enters it with its answer.
    #[inline(always)]
    fn perform(&mut self, caller: Caller, event: &Event<&[u8]>, out: &mut Content) -> Answer<u32>
        requires { call_verdict M.does self.old caller (request event.now) ≡ Allowed }
        ensures adds { AddsEntry M.does self.old self.new (Called caller (request event.now) (reply_in result out.new.items)) }
        ensures filled { answer_len result ≡ length out.new.items }
        ensures parts { longest_part result ≤ READ_MAX }
    {
        self.store.audit();
        let told = &mut self.fates;
        let answer = self
            .streams
            .carry_out::<B, M>(&mut self.shelf, &mut self.store, caller, event, out, told);
        self.journal.add_call(caller, event, answer, out.as_slice());
        answer
    }

    /// Makes a call as [`Pair::call`] says. Inlined, so that where the kind of the call is known nothing asks for it again.
    #[inline(always)]
    pub(super) fn make(
        &mut self,
        caller: Caller,
        event: &Event<&[u8]>,
        out: &mut Content,
    ) -> Result<Answer<u32>, Refusal>
        ensures { Makes M.does self.old self.new caller (request event.now) result out.old out.new }
    {
        match self.verdict(caller, event) {
            Verdict::Refused(refusal) => Err(refusal),
            Verdict::Stopped(signal) => Ok(self.stop(caller, event, signal, out)),
            Verdict::Allowed => Ok(self.perform(caller, event, out)),
        }
    }

    /// Writes bytes down the caller's stream: write(2), the call `Event::Write`. It is refused as [`Pair::call`] says, and answers how many bytes were
    /// taken (`Count`), or the signal that stops the caller (`Stop`). It stands where it is called, so that what is asked of a call by its kind alone
    /// is known as it is compiled.
    #[inline(always)]
    pub fn write(
        &mut self,
        caller: Caller,
        bytes: &[u8],
        out: &mut Content,
    ) -> Result<Answer<u32>, Refusal>
        ensures { Makes M.does self.old self.new caller (Write bytes.now) result out.old out.new }
    {
        self.make(caller, &Event::Write { bytes }, out)
    }

    /// Reads at most `n` bytes of the caller's stream head, more than 4096 count as 4096, into `out`: read(2), the call `Event::Read`. It is refused as
    /// [`Pair::call`] says, and answers how many there are (`Bytes`), or the signal that stops the caller (`Stop`).
    #[inline(always)]
    pub fn read(
        &mut self,
        caller: Caller,
        n: u32,
        out: &mut Content,
    ) -> Result<Answer<u32>, Refusal>
        ensures { Makes M.does self.old self.new caller (Read n) result out.old out.new }
    {
        self.make(caller, &Event::Read { n }, out)
    }

    /// Writes as [`Pair::write`] does. Out of line, as is [`Pair::read_apart`], so that [`Pair::call`] is small enough to stand where it is called.
    #[inline(never)]
    pub(super) fn write_apart(
        &mut self,
        caller: Caller,
        bytes: &[u8],
        out: &mut Content,
    ) -> Result<Answer<u32>, Refusal>
        ensures { Makes M.does self.old self.new caller (Write bytes.now) result out.old out.new }
    {
        self.write(caller, bytes, out)
    }

    /// Reads as [`Pair::read`] does.
    #[inline(never)]
    pub(super) fn read_apart(
        &mut self,
        caller: Caller,
        n: u32,
        out: &mut Content,
    ) -> Result<Answer<u32>, Refusal>
        ensures { Makes M.does self.old self.new caller (Read n) result out.old out.new }
    {
        self.read(caller, n, out)
    }

    /// Makes a call as [`Pair::call`] says: putmsg(2). Out of line, so that its locals are cleared for it alone, as are those of what follows.
    #[inline(never)]
    pub(super) fn put_apart(
        &mut self,
        caller: Caller,
        event: &Event<&[u8]>,
        out: &mut Content,
    ) -> Result<Answer<u32>, Refusal>
        ensures { Makes M.does self.old self.new caller (request event.now) result out.old out.new }
    {
        match event {
            Event::Put {
                prio,
                control,
                body,
            } => {
                let put = Event::Put {
                    prio: *prio,
                    control: *control,
                    body: *body,
                };
                self.make(caller, &put, out)
            }
            _ => self.call_apart(caller, event, out),
        }
    }

    /// Makes a call as [`Pair::call`] says: getmsg(2).
    #[inline(never)]
    pub(super) fn get_apart(
        &mut self,
        caller: Caller,
        event: &Event<&[u8]>,
        out: &mut Content,
    ) -> Result<Answer<u32>, Refusal>
        ensures { Makes M.does self.old self.new caller (request event.now) result out.old out.new }
    {
        match event {
            Event::Get { wanted, cmax, dmax } => {
                let get = Event::Get {
                    wanted: *wanted,
                    cmax: *cmax,
                    dmax: *dmax,
                };
                self.make(caller, &get, out)
            }
            _ => self.call_apart(caller, event, out),
        }
    }

    /// Makes a call as [`Pair::call`] says: ioctl(2).
    #[inline(never)]
    pub(super) fn ioctl_apart(
        &mut self,
        caller: Caller,
        event: &Event<&[u8]>,
        out: &mut Content,
    ) -> Result<Answer<u32>, Refusal>
        ensures { Makes M.does self.old self.new caller (request event.now) result out.old out.new }
    {
        match event {
            Event::Ioctl { command, body } => {
                let command = *command;
                self.make(caller, &Event::Ioctl { command, body }, out)
            }
            _ => self.call_apart(caller, event, out),
        }
    }

    /// Makes a call as [`Pair::call`] says. Each new pair is opened by three: these have a frame of their own.
    #[inline(never)]
    pub(super) fn open_apart(
        &mut self,
        caller: Caller,
        event: &Event<&[u8]>,
        out: &mut Content,
    ) -> Result<Answer<u32>, Refusal>
        ensures { Makes M.does self.old self.new caller (request event.now) result out.old out.new }
    {
        match event {
            Event::OpenMaster | Event::Unlock | Event::OpenSlave => self.make(caller, event, out),
            _ => self.call_apart(caller, event, out),
        }
    }

    /// Makes a call as [`Pair::call`] says. Out of line, so that a write and a read don't pay for what these need of a frame.
    #[inline(never)]
    pub(super) fn call_apart(
        &mut self,
        caller: Caller,
        event: &Event<&[u8]>,
        out: &mut Content,
    ) -> Result<Answer<u32>, Refusal>
        ensures { Makes M.does self.old self.new caller (request event.now) result out.old out.new }
    {
        self.make(caller, event, out)
    }
}
