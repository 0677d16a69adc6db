//! What ends do on a pair under its lock.

ghost use Rattle.std.specs.Prelude.{◌≡◌, ◌≢◌, [], ◌∷◌, ◌++◌, MatchResult};
ghost use Rattle.strm_types.specs.Events.{request};
ghost use Rattle.strm_locks.specs.Books.{closed_book};
ghost use Rattle.strm_locks.specs.Ends.{IsOf, IsOpened, Calls, CallsSlave, OpenedAs, Splits, joined_end, kept_end, slave_end};
ghost use Rattle.strm_locks.specs.Reports.{at_rest};
ghost use Rattle.strm_locks.specs.Rules.{fresh};
ghost use Rattle.strm_locks.specs.Settles.{IsAll, IsShown, IsSettled};
ghost use Rattle.strm_locks.specs.Shares.{IsSame, IsSeated, HasOpened, HasPair, Became, Applied, Opened, lock_of};
ghost use Rattle.strm_locks.specs.Sounds.{IsSound, IsSoundAt};
ghost use Rattle.strm_laws.specs.Pair.{PairState, new_pair, restarted};
ghost use Rattle.strm_locks.specs.Turns.{Cuts, IsCut, IsRefusedOpen, IsRestart, IsVisit, MeetsPair, Visits};

use crate::bell::Wakes;
use crate::busy::Busy;
use crate::end::{ALL_PARTS, End, StillShared};
use crate::gate::{At, Gate, NoGate};
use crate::held::{Made, Settled};
use crate::lock::Lock;
use crate::object::Object;
use crate::rule::Place;
use crate::told::Told;
use crate::visit::{Closed, Cut, NotOpened, Post, Visit};
use std::alloc::Global;
use std::sync::Wait;
use strm_image::Trace;
use strm_types::{Answer, Caller, Content, Event, NoMemory, Refusal, Side};

impl<P: Object> Lock<P> {
    // What the holder of the lock does is done on the pair in its slot, which is lent in place.

    pub(crate) fn call_held(
        &self,
        seat: &mut Place<P>,
        caller: Caller,
        event: &Event<&[u8]>,
        out: &mut Content,
    ) -> (Result<Answer<u32>, Refusal>, Told)
        requires own { seat.old.table_id ≡ self.now.table }
        requires lock { HasOpened seat.old }
        ensures same { IsSame seat.old seat.new × (seat.new.me.0 ≡ seat.old.me.0) }
        ensures did { Became (λ k k'. Applied k caller (request event.now) out.old.items out.new.items result k') seat.old.me.1 seat.new.me.1 }
    {
        let held = seat.slot_mut(&self.table.shared, 0);
        held.audit();
        held.call_told(caller, event, out)
    }

    pub(crate) fn open_held(
        &self,
        seat: &mut Place<P>,
        out: &mut Content,
    ) -> (Result<Answer<u32>, Refusal>, Told)
        requires own { seat.old.table_id ≡ self.now.table }
        requires lock { HasPair seat.old }
        ensures same { IsSame seat.old seat.new × (seat.new.me.0 ≡ seat.old.me.0) }
        ensures did { Became (λ k k'. Opened k out.new.items result k') seat.old.me.1 seat.new.me.1 }
    {
        let held = seat.slot_mut(&self.table.shared, 0);
        held.audit();
        held.open(out)
    }

    pub(crate) fn turn_held(&self, seat: &mut Place<P>) -> Option<Made>
        requires own { seat.old.table_id ≡ self.now.table }
        requires lock { HasPair seat.old }
        ensures same { IsSame seat.old seat.new × (seat.new.me.0 ≡ seat.old.me.0) }
        ensures did { Became (λ k k'. (k'.book ≡ k.book) × IsSound k.pair × Visits k.pair result k'.pair) seat.old.me.1 seat.new.me.1 }
    {
        let held = seat.slot_mut(&self.table.shared, 0);
        held.audit();
        held.turn_first()
    }

    pub(crate) fn restart_held(&self, seat: &mut Place<P>)
        requires own { seat.old.table_id ≡ self.now.table }
        requires lock { HasPair seat.old }
        ensures same { IsSame seat.old seat.new × (seat.new.me.0 ≡ seat.old.me.0) }
        ensures did { Became (λ k k'. (k'.book ≡ k.book) × IsSound k.pair × (k'.pair ≡ restarted k.pair)) seat.old.me.1 seat.new.me.1 }
    {
        let held = seat.slot_mut(&self.table.shared, 0);
        held.audit();
        held.restart();
    }

    pub(crate) fn cut_held(&self, seat: &mut Place<P>, alloc: Global) -> Result<Trace, NoMemory>
        requires own { seat.old.table_id ≡ self.now.table }
        requires lock { HasPair seat.old }
        ensures same { IsSame seat.old seat.new × (seat.new.me.0 ≡ seat.old.me.0) }
        ensures did { Became (λ k k'. (k'.book ≡ k.book) × IsSound k.pair × Cuts k.pair result k'.pair) seat.old.me.1 seat.new.me.1 }
    {
        let held = seat.slot_mut(&self.table.shared, 0);
        held.audit();
        held.cut(alloc)
    }

    pub(crate) fn close_held(&self, seat: &mut Place<P>) -> Settled
        requires own { seat.old.table_id ≡ self.now.table }
        requires lock { HasPair seat.old }
        ensures same { IsSame seat.old seat.new × (seat.new.me.0 ≡ seat.old.me.0) }
        ensures did { Became (λ k k'. (k'.book ≡ closed_book) × IsShown k result × (k'.pair ≡ new_pair k.pair.limits)) seat.old.me.1 seat.new.me.1 }
    {
        let held = seat.slot_mut(&self.table.shared, 0);
        held.close()
    }

    /// Opens the master of a pair that nobody opened since it was made or settled: `open(2)` of the master device. The end has all parts, and
    /// was told of this call alone. It is refused as that pair refuses the call: by JournalFull or ENOSR, where its sizes have no room for it;
    /// and by EINVAL where the pair was opened before, and is an end's, or was dropped with one.
    pub fn open<R: Wait>(&self, rt: &R) -> Result<End<P>, NotOpened<P>>
        ensures { MatchResult result (IsOpened self.now) (λ n. IsRefusedOpen self.now n.visit n.refusal) }
    {
        let mut tries = 0;
        for _ in rt.forever() {
            match self.try_open(&Wakes) {
                Ok(opened) => return opened,
                Err(Busy) => self.wait(rt, &mut tries),
            }
        }
        unreachable!()
    }

    /// Makes one call as the end does, with the bytes that it gives in `out`. The end was told of it then: its entry, with this caller, event
    /// and answer, and the bytes that it wrote and read. It is refused as the pair refuses it; the pair, what the end was told and `out` stay
    /// then. The end meets the pair once, and nothing else is done to it between.
    pub fn call<R: Wait>(
        &self,
        rt: &R,
        end: &mut End<P>,
        event: &Event<&[u8]>,
        out: &mut Content,
    ) -> Result<Answer<u32>, Refusal>
        requires { IsOf self.now end.old }
        ensures { Calls end.old (request event.now) out.old.items out.new.items result end.new }
    {
        let mut tries = 0;
        for _ in rt.forever() {
            match self.try_call(&Wakes, end, event, out) {
                Ok(answer) => return answer,
                Err(Busy) => self.wait(rt, &mut tries),
            }
        }
        unreachable!()
    }

    /// Opens the slave by a call of an end: `open(2)` of the slave device. The end was told of that call; the new one calls as the slave, was
    /// told nothing, and has half of the end's parts, rounded down. An end of one part is refused, without a call, and it alone by ERANGE; each
    /// other refusal is the pair's. The end stays where it is refused.
    pub fn open_slave<R: Wait>(&self, rt: &R, end: &mut End<P>) -> Result<End<P>, Refusal>
        requires { IsOf self.now end.old }
        ensures { CallsSlave (λ e. e) end.old result end.new }
    {
        let mut tries = 0;
        for _ in rt.forever() {
            match self.try_open_slave(&Wakes, end) {
                Ok(opened) => return opened,
                Err(Busy) => self.wait(rt, &mut tries),
            }
        }
        unreachable!()
    }

    // Cuts the slave's end off an end, which has two parts at least.
    pub(crate) fn cut_slave(&self, end: &mut End<P>) -> End<P>
        requires own { IsOf self.now end.old }
        requires two { end.old.parts ≢ 1 }
        ensures first { end.new ≡ kept_end end.old }
        ensures second { result ≡ slave_end end.old }
    {
        let given = self.split_seat(&mut end.seat);
        let half = end.parts / 2;
        end.parts -= half;
        End {
            seat: given,
            caller: Caller::of(Side::Slave),
            told: Told::nothing(),
            parts: half,
        }
    }

    /// Cuts an end in two, both with its caller: the first was told all that it was, and the second nothing; it has half of the parts, rounded
    /// down. An end of one part comes back.
    pub fn split_end(&self, end: End<P>) -> Result<(End<P>, End<P>), End<P>>
        requires { IsOf self.now end }
        ensures { Splits (λ e. e) (λ e. e) end result }
    {
        if end.parts == 1 {
            return Err(end);
        }
        let End {
            mut seat,
            caller,
            told,
            parts,
        } = end;
        let given = self.split_seat(&mut seat);
        let half = parts / 2;
        let first = End {
            seat,
            caller,
            told,
            parts: parts - half,
        };
        let second = End {
            seat: given,
            caller,
            told: Told::nothing(),
            parts: half,
        };
        Ok((first, second))
    }

    /// One end of two, with what both were told and the parts of both. It calls as the first does.
    pub fn join_ends(&self, first: End<P>, second: End<P>) -> End<P>
        requires first { IsOf self.now first }
        requires second { IsOf self.now second }
        ensures { result ≡ joined_end first second }
    {
        let End {
            mut seat,
            caller,
            told,
            parts,
        } = first;
        let End {
            seat: other,
            caller: _,
            told: more,
            parts: rest,
        } = second;
        self.join_seat(&mut seat, other);
        End {
            seat,
            caller,
            told: told.plus(&more),
            parts: parts + rest,
        }
    }

    /// Settles with an end that has all parts: what it was told, with those that were joined to it, is what the pair's book has and what its
    /// ledgers say, and its entries are the calls of the journal, in some order. The pair is left as new, and may be opened again.
    ///
    /// An end that lacks parts comes back: another end has them, or was dropped with them.
    pub fn settle<R: Wait>(&self, rt: &R, end: End<P>) -> Result<Closed<P>, (StillShared, End<P>)>
        requires { IsOf self.now end }
        ensures { MatchResult result
            (λ c. (end.parts ≡ ALL_PARTS) × IsOf c.visit.lock end × IsSettled end c.settled c.visit.met)
            (λ back. (end.parts ≢ ALL_PARTS) × (back.1 ≡ end)) }
    {
        let mut mine = end;
        let mut tries = 0;
        for _ in rt.forever() {
            match self.try_settle(&Wakes, mine) {
                Ok(settled) => return settled,
                Err((Busy, back)) => mine = back,
            }
            self.wait(rt, &mut tries);
        }
        unreachable!()
    }

    /// Begins the pair's journal anew, at the state that it has: so no session ends for a full journal. No end is told of it, and the book keeps
    /// the calls of the entries that go. No memory is taken.
    pub fn restart<R: Wait>(&self, rt: &R) -> Visit<P>
        ensures { IsRestart self.now result }
    {
        let mut seat = self.sit();
        self.take(rt, &mut seat);
        self.restart_held(&mut seat);
        self.pass(&mut seat);
        Visit { seat, made: None }
    }

    /// Cuts the pair: it hands out the base at which the journal began and all entries since, and begins the journal anew, as `restart` does.
    /// The trace is of the pair as the visit found it. It takes the memory of the trace while it has the lock; where memory is refused, the pair
    /// stays. No end is told of it, and the book keeps the calls of the entries that go.
    pub fn cut<R: Wait>(&self, rt: &R, alloc: Global) -> Cut<P>
        ensures { IsCut self.now result.visit result.trace }
    {
        let mut seat = self.sit();
        self.take(rt, &mut seat);
        let trace = self.cut_held(&mut seat, alloc);
        self.pass(&mut seat);
        let visit = Visit { seat, made: None };
        Cut { visit, trace }
    }

    /// Makes one turn of the queue that was enabled first, if any. The visit tells which queue it was and what the pair answered: so the pair
    /// answers for the turn, from what was found under the lock, and the turn stands in the journal. No end is told of it.
    pub fn turn<R: Wait>(&self, rt: &R) -> Visit<P>
        ensures { IsVisit self.now result }
    {
        let mut post = self.post();
        let made = self.visit(rt, &NoGate, At { worker: 0, pair: 0 }, &mut post);
        Visit::of(post, made)
    }

    // A seat that met nothing.
    pub(crate) fn post(&self) -> Post<P>
        ensures { result ≡ at_rest self.now }
    {
        Post { seat: self.sit() }
    }

    // One visit by a seat, within a gate.
    pub(crate) fn visit<R: Wait, G: Gate>(
        &self,
        rt: &R,
        gate: &G,
        at: At,
        post: &mut Post<P>,
    ) -> Option<Made>
        requires { post.old.lock ≡ self.now }
        ensures { MeetsPair post.old result post.new }
    {
        self.take(rt, &mut post.seat);
        gate.before(at.worker, at.pair);
        let made = self.turn_held(&mut post.seat);
        gate.after(at.worker, at.pair);
        self.pass(&mut post.seat);
        made
    }
}
