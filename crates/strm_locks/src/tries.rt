//! Calls and visits that don't wait: each is made at once where the lock is free, or says that another thread has it, and then nothing was done.
//! Those that wait are made of these. Behind the store that frees the lock they ring.

ghost use Rattle.std.specs.Prelude.{◌≡◌, ◌≢◌, IfOk, IfSome, MatchOption, MatchResult, [], ◌∷◌, ◌++◌};
ghost use Rattle.strm_laws.specs.Pair.{PairState, new_pair};
ghost use Rattle.strm_locks.specs.Audits.{IsAudited};
ghost use Rattle.strm_locks.specs.Ends.{Calls, CallsSlave, IsOf, IsOpened, OpenedAs};
ghost use Rattle.strm_locks.specs.Rules.{fresh};
ghost use Rattle.strm_locks.specs.Settles.{IsAll, IsSettled};
ghost use Rattle.strm_locks.specs.Shares.{IsSame, IsSeated, lock_of};
ghost use Rattle.strm_locks.specs.Sounds.{IsSoundAt};
ghost use Rattle.strm_locks.specs.Turns.{IsCut, IsRefusedOpen, IsRestart, IsVisit};
ghost use Rattle.strm_types.specs.Events.{request};

use crate::audits::Audit;
use crate::bell::Bell;
use crate::busy::Busy;
use crate::end::{ALL_PARTS, End, StillShared};
use crate::held::Settled;
use crate::lock::Lock;
use crate::object::Object;
use crate::rule::Place;
use crate::told::Told;
use crate::visit::{Closed, Cut, NotOpened, Visit};
use std::alloc::Global;
use strm_types::{Answer, Caller, Content, Event, Refusal, Side};

impl<P: Object> Lock<P> {
    /// Opens the master as `open` does, where the lock is free.
    pub fn try_open<B: Bell>(&self, bell: &B) -> Result<Result<End<P>, NotOpened<P>>, Busy>
        ensures { IfOk result (λ opened. MatchResult opened (IsOpened self.now) (λ n. IsRefusedOpen self.now n.visit n.refusal)) }
    {
        let mut seat = self.sit();
        let mut out = Content::new();
        let Some(opened) = self.try_open_by(bell, &mut seat, &mut out) else {
            return Err(Busy);
        };
        match opened.0 {
            Ok(_) => Ok(Ok(End {
                seat,
                caller: Caller::of(Side::Master),
                told: opened.1,
                parts: ALL_PARTS,
            })),
            Err(refusal) => {
                let visit = Visit { seat, made: None };
                Ok(Err(NotOpened { refusal, visit }))
            }
        }
    }

    // The same by a seat that was told nothing. It has all parts then, or nothing still; and no lock. None where another thread has the lock.
    fn try_open_by<B: Bell>(
        &self,
        bell: &B,
        seat: &mut Place<P>,
        out: &mut Content,
    ) -> Option<(Result<Answer<u32>, Refusal>, Told)>
        requires own { seat.old.table_id ≡ self.now.table }
        requires fresh { seat.old.me ≡ (fresh self.now.sizes, []) }
        ensures same { IsSame seat.old seat.new }
        ensures opened { IfSome result (λ r. (p : PairState) × (q : PairState) × IsSoundAt self.now p
            × OpenedAs self.now.sizes p q out.new.items r.1 seat.new.me r.0) }
    {
        if !self.try_take(seat) {
            return None;
        }
        let (answer, told) = self.open_held(seat, out);
        self.give(bell, seat);
        Some((answer, told))
    }

    /// Makes one call as `call` does, where the lock is free. Else the end, what it was told and `out` stay.
    pub fn try_call<B: Bell>(
        &self,
        bell: &B,
        end: &mut End<P>,
        event: &Event<&[u8]>,
        out: &mut Content,
    ) -> Result<Result<Answer<u32>, Refusal>, Busy>
        requires { IsOf self.now end.old }
        ensures { MatchResult result
            (λ answer. Calls end.old (request event.now) out.old.items out.new.items answer end.new)
            (λ _. (end.new ≡ end.old) × (out.new ≡ out.old)) }
    {
        if !self.try_take(&mut end.seat) {
            return Err(Busy);
        }
        let (answer, more) = self.call_held(&mut end.seat, end.caller, event, out);
        self.give(bell, &mut end.seat);
        end.told = end.told.plus(&more);
        Ok(answer)
    }

    /// Opens the slave by a call of an end as `open_slave` does, where the lock is free. Else the end stays.
    pub fn try_open_slave<B: Bell>(
        &self,
        bell: &B,
        end: &mut End<P>,
    ) -> Result<Result<End<P>, Refusal>, Busy>
        requires { IsOf self.now end.old }
        ensures { MatchResult result (λ opened. CallsSlave (λ e. e) end.old opened end.new) (λ _. end.new ≡ end.old) }
    {
        if end.parts == 1 {
            return Ok(Err(Refusal::Erange));
        }
        let mut out = Content::new();
        match self.try_call(bell, end, &Event::OpenSlave, &mut out) {
            Err(Busy) => Err(Busy),
            Ok(Err(refusal)) => Ok(Err(refusal)),
            Ok(Ok(_)) => Ok(Ok(self.cut_slave(end))),
        }
    }

    /// Settles with an end that has all parts as `settle` does, where the lock is free. An end that lacks parts comes back whether it is or not.
    pub fn try_settle<B: Bell>(
        &self,
        bell: &B,
        end: End<P>,
    ) -> Result<Result<Closed<P>, (StillShared, End<P>)>, (Busy, End<P>)>
        requires { IsOf self.now end }
        ensures { MatchResult result
            (λ settled. MatchResult settled
            (λ c. (end.parts ≡ ALL_PARTS) × IsOf c.visit.lock end × IsSettled end c.settled c.visit.met)
            (λ back. (end.parts ≢ ALL_PARTS) × (back.1 ≡ end)))
            (λ back. (end.parts ≡ ALL_PARTS) × (back.1 ≡ end)) }
    {
        if end.parts != ALL_PARTS {
            return Ok(Err((StillShared, end)));
        }
        let End {
            mut seat,
            caller,
            told,
            parts,
        } = end;
        let Some(settled) = self.try_settle_by(bell, &mut seat) else {
            let back = End {
                seat,
                caller,
                told,
                parts,
            };
            return Err((Busy, back));
        };
        let visit = Visit { seat, made: None };
        Ok(Ok(Closed { settled, visit }))
    }

    // The same by the seat of such an end, which has nothing since but what it met, and no lock; None, and all stays, where another thread has it.
    fn try_settle_by<B: Bell>(&self, bell: &B, seat: &mut Place<P>) -> Option<Settled>
        requires own { lock_of seat.old ≡ self.now }
        requires all { IsSeated seat.old.me seat.old.me.0.told ALL_PARTS }
        ensures same { IsSame seat.old seat.new }
        ensures sizes { seat.new.me.0.sizes ≡ seat.old.me.0.sizes }
        ensures settled { MatchOption result (seat.new.me ≡ seat.old.me)
            (λ s. (p : PairState) × (p.limits ≡ seat.old.me.0.sizes) × IsAll seat.old.me.0.told seat.old.me.0.made p s
            × (seat.new.me.0.met ≡ seat.old.me.0.met ++ p ∷ [] ++ new_pair p.limits ∷ [])) }
    {
        if !self.try_take(seat) {
            return None;
        }
        let settled = self.close_held(seat);
        self.give_closed(bell, seat);
        Some(settled)
    }

    /// Makes one turn as `turn` does, where the lock is free.
    pub fn try_turn<B: Bell>(&self, bell: &B) -> Result<Visit<P>, Busy>
        ensures { IfOk result (IsVisit self.now) }
    {
        let mut seat = self.sit();
        if !self.try_take(&mut seat) {
            return Err(Busy);
        }
        let made = self.turn_held(&mut seat);
        self.pass_by(bell, &mut seat);
        Ok(Visit { seat, made })
    }

    /// Begins the pair's journal anew as `restart` does, where the lock is free.
    pub fn try_restart<B: Bell>(&self, bell: &B) -> Result<Visit<P>, Busy>
        ensures { IfOk result (IsRestart self.now) }
    {
        let mut seat = self.sit();
        if !self.try_take(&mut seat) {
            return Err(Busy);
        }
        self.restart_held(&mut seat);
        self.pass_by(bell, &mut seat);
        Ok(Visit { seat, made: None })
    }

    /// Cuts the pair as `cut` does, where the lock is free.
    pub fn try_cut<B: Bell>(&self, bell: &B, alloc: Global) -> Result<Cut<P>, Busy>
        ensures { IfOk result (λ c. IsCut self.now c.visit c.trace) }
    {
        let mut seat = self.sit();
        if !self.try_take(&mut seat) {
            return Err(Busy);
        }
        let trace = self.cut_held(&mut seat, alloc);
        self.pass_by(bell, &mut seat);
        let visit = Visit { seat, made: None };
        Ok(Cut { visit, trace })
    }

    /// Audits the pair as `audit` does, where the lock is free. What it tells is each clause of an audit (`IsAudited`).
    pub fn try_audit<B: Bell>(&self, bell: &B) -> Result<Audit<P>, Busy>
        ensures { IfOk result (λ a. (a.visit.lock ≡ self.now) × IsAudited a.visit a.told a.ms a.sm) }
    {
        let mut seat = self.sit();
        if !self.try_take(&mut seat) {
            return Err(Busy);
        }
        let shown = self.look_held(&mut seat);
        self.pass_by(bell, &mut seat);
        let visit = Visit { seat, made: None };
        Ok(Audit {
            told: shown.told,
            ms: shown.ms,
            sm: shown.sm,
            visit,
        })
    }
}
