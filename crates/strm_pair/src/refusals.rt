//! What a call is refused for, by the streams alone.

ghost use Rattle.std.specs.Prelude.{◌≡◌, ◌||◌, not, None};
ghost use Rattle.strm_types.specs.Events.{request};
ghost use Rattle.strm_laws.specs.Pushes.{may_stand, named_by};
ghost use Rattle.strm_laws.specs.Refusals.{at_end, in_range, is_reached, refused_at_once, refused_by_state, stop_of, unfit, unmet};
ghost use Rattle.strm_types.specs.JobControl.{foreground, held, judged};
ghost use Rattle.strm_types.specs.Needs.{needs};
ghost use Rattle.strm_types.specs.Refused.{unless, or_else};
ghost use Rattle.strm_laws.specs.Writes.{is_full_below};
ghost use Rattle.strm_pair.specs.Parts.{is_held_back};
ghost use Rattle.strm_types.specs.declared.refusals.Refusal.TheVariants.{Eagain, Einval};
ghost use Rattle.strm_types.specs.Names.{is_never, is_open};
ghost use Rattle.strm_laws.specs.State.{stream};

use crate::ends::StreamEnd;
use crate::stacks::module_count;
use crate::streams::Streams;
use strm_blocks::Blocks;
use strm_own::{OwnModule, is_known};
use strm_queue::standing::has_no_data;
use strm_types::{
    Access, Band, Caller, Event, IOCTL_END, MODULES, ModuleName, Needs, Openness, Prio, Reach,
    Refusal, Side, Verdict, unless,
};

/// The first refusal, else the second.
pub(crate) fn or_else(first: Option<Refusal>, second: Option<Refusal>) -> Option<Refusal>
    ensures { result ≡ or_else first second }
{
    match first {
        Some(refusal) => Some(refusal),
        None => second,
    }
}

// A refusal where a condition is asked for that doesn't hold.
#[inline(always)]
fn needed(is_asked: bool, condition: bool, refusal: Refusal) -> Option<Refusal>
    ensures { result ≡ unless (not is_asked || condition) refusal }
{
    unless(!is_asked || condition, refusal)
}

impl Streams {
    ghost use Rattle.strm_blocks.specs.Blocks.{StoreValue};
    ghost use Rattle.strm_pair.specs.Streams.{stream_in};
    ghost use Rattle.strm_types.specs.declared.names.Side.TheVariants.{Master, Slave};
    ghost use Rattle.strm_pair.specs.Pairs.{state_in, end_at, AreHeld};

    /// The stream of a side.
    pub(crate) fn end(&self, side: Side) -> &StreamEnd
        ensures end { result.now ≡ end_at side self.now }
        ensures stream { (s : StoreValue) → stream_in s result.now ≡ stream side (state_in s self.now) }
    {
        self.ends.get(side)
    }

    // Whether the stream is there that a call of a side asks for.
    #[inline(always)]
    fn is_reached(&self, side: Side, reach: Reach) -> bool
        ensures { (s : StoreValue) → result ≡ is_reached side reach (state_in s self.now) }
    {
        match reach {
            Reach::Nothing => true,
            Reach::Master => self.ends.master.opened.is_open(),
            Reach::Own => self.end(side).opened.is_open(),
            Reach::Down => self.end(side).opened.is_open() && !self.end(side).head.hung_up,
        }
    }

    /// Whether the books of both directions have room.
    #[inline(always)]
    pub(crate) fn in_range(&self) -> bool
        ensures { (s : StoreValue) → result ≡ in_range (state_in s self.now) }
    {
        self.books.master.has_room() && self.books.slave.has_room()
    }

    // EINVAL where the master was opened before.
    fn opened_before(&self) -> Option<Refusal>
        ensures { (s : StoreValue) → result ≡ unless (is_never (stream Master (state_in s self.now)).opened) Einval }
    {
        unless(
            matches!(self.ends.master.opened, Openness::Never),
            Refusal::Einval,
        )
    }

    // EINVAL where the slave is open, EAGAIN where it is locked.
    fn unready(&self) -> Option<Refusal>
        ensures { (s : StoreValue) → let state = state_in s self.now in
            result ≡ or_else (unless (not (is_open (stream Slave state).opened)) Einval) (unless (not state.locked) Eagain) }
    {
        or_else(
            unless(!self.ends.slave.opened.is_open(), Refusal::Einval),
            unless(!self.locked, Refusal::Eagain),
        )
    }

    /// Whether a side's head is at the end of its input, where nothing is to be read there.
    #[inline(always)]
    pub(crate) fn is_at_end<B: Blocks>(&self, store: &B, side: Side) -> bool
        requires { AreHeld (B.value store.now) self.now }
        ensures { result ≡ at_end side (state_in (B.value store.now) self.now) }
    {
        match side {
            Side::Slave => self.ends.slave.head.hung_up,
            Side::Master => {
                self.ends.master.head.hung_up
                    || (self.ends.slave.opened.is_closed()
                        && has_no_data(store, &self.ends.slave.driver)
                        && self.ends.master.stack.none_waits_up(store)
                        && has_no_data(store, &self.ends.master.head.queue))
            }
        }
    }

    // Whether a message of this priority finds the first queue below a side's head full in its band. One of high priority waits for
    // nothing.
    fn is_held_back<B: Blocks>(&self, store: &B, side: Side, prio: Prio) -> bool
        requires held { AreHeld (B.value store.now) self.now }
        ensures { let state = state_in (B.value store.now) self.now in
            result ≡ is_held_back prio (λ band. is_full_below band side state) }
    {
        match prio {
            Prio::High => false,
            Prio::Band(band) => self.is_full_below(store, side, band),
        }
    }

    /// What a call of a side is refused for before all else, by what it asks for: the stream, then its arguments, then numbers
    /// and books.
    #[inline(always)]
    pub fn unmet(&self, side: Side, needs: &Needs) -> Option<Refusal>
        ensures { (s : StoreValue) → result ≡ unmet (state_in s self.now) side needs.now }
    {
        let numbered = needed(needs.numbered, self.next_ioctl < IOCTL_END, Refusal::Erange);
        let booked = needed(needs.makes, self.in_range(), Refusal::Erange);
        or_else(
            unless(self.is_reached(side, needs.reach), Refusal::Enxio),
            or_else(
                needed(needs.masters, side.is_master(), Refusal::Einval),
                or_else(needs.wrong, or_else(numbered, booked)),
            ),
        )
    }

    // Whether a module of a name may be pushed on a side's stream: there are modules of the name, there is room, and none of its name stands there.
    fn may_push<M: OwnModule>(&self, side: Side, name: Option<ModuleName>) -> bool
        ensures { (s : StoreValue) → result ≡ may_stand (named_by M.does name) (stream side (state_in s self.now)).modules }
    {
        let Some(kind) = name else {
            return false;
        };
        let stack = &self.end(side).stack;
        is_known::<M>(kind) && (module_count(stack) < MODULES && !stack.has(kind))
    }

    // What job control makes of a caller's call that does this at the terminal.
    #[inline(always)]
    fn hold(&self, caller: Caller, access: Option<Access>) -> Verdict
        ensures { (s : StoreValue) → let h = (stream caller.side (state_in s self.now)).head in
            result ≡ held access h.tostop (foreground h.hung_up h.group) caller }
    {
        self.end(caller.side).head.held(access, caller)
    }

    /// The verdict of the state on a call that isn't refused at once, and that does this at the terminal: job control's, and then whether
    /// the call fits what is there.
    #[inline(always)]
    pub fn verdict<B: Blocks, M: OwnModule>(
        &self,
        store: &B,
        caller: Caller,
        event: &Event<&[u8]>,
        access: Option<Access>,
    ) -> Verdict
        requires held { AreHeld (B.value store.now) self.now }
        requires allowed { refused_at_once (state_in (B.value store.now) self.now) caller (request event.now) ≡ None }
        requires access { access ≡ (needs (request event.now)).access }
        ensures { let state = state_in (B.value store.now) self.now in
            result ≡ judged (refused_by_state M.does state caller (request event.now)) (stop_of state caller (request event.now)) }
    {
        match self.hold(caller, access) {
            Verdict::Allowed => match self.unfit::<B, M>(store, caller, event) {
                Some(refusal) => Verdict::Refused(refusal),
                None => Verdict::Allowed,
            },
            held => held,
        }
    }

    // What a call that isn't held is refused for, as it doesn't fit what is there.
    #[inline(always)]
    fn unfit<B: Blocks, M: OwnModule>(
        &self,
        store: &B,
        caller: Caller,
        event: &Event<&[u8]>,
    ) -> Option<Refusal>
        requires held { AreHeld (B.value store.now) self.now }
        requires allowed { refused_at_once (state_in (B.value store.now) self.now) caller (request event.now) ≡ None }
        ensures { result ≡ unfit M.does (state_in (B.value store.now) self.now) caller (request event.now) }
    {
        match event {
            Event::OpenMaster => self.opened_before(),
            Event::OpenSlave => self.unready(),
            Event::Write { .. } => {
                let is_full = self.is_full_below(store, caller.side, Band(0));
                unless(!is_full, Refusal::Eagain)
            }
            Event::Read { n } => {
                let at_end = self.is_at_end(store, caller.side);
                let head = &self.end(caller.side).head;
                head.read_refusal(store, at_end, *n as usize)
            }
            Event::Put {
                prio,
                control,
                body,
            } => {
                let is_sent = control.is_some() || body.is_some();
                unless(
                    !(is_sent && self.is_held_back(store, caller.side, *prio)),
                    Refusal::Eagain,
                )
            }
            Event::Get { wanted, .. } => {
                let at_end = self.is_at_end(store, caller.side);
                let head = &self.end(caller.side).head;
                head.get_refusal(store, *wanted, at_end)
            }
            Event::Ioctl { .. } => unless(self.end(caller.side).head.is_idle(), Refusal::Eagain),
            Event::IoctlResult { number } => self.end(caller.side).head.result_refusal(*number),
            Event::Push { name } => {
                unless(self.may_push::<M>(caller.side, *name), Refusal::Einval)
            }
            Event::Pop | Event::Look => { unless(self.top(caller.side).is_some(), Refusal::Einval) }
            Event::Unlock | Event::Shut | Event::Flush { .. } => None,
            Event::Mode { .. } | Event::Nread | Event::Signals => None,
        }
    }
}
