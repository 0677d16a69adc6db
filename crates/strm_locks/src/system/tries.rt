//! Calls and visits at a system that don't wait, by the number of the pair: those of [`Lock`].

ghost use Rattle.std.specs.Prelude.{◌≡◌, ◌≢◌, ◌<◌, ◌⊎◌, None, Some, IfOk, MatchResult, length, slice_get};
ghost use Rattle.strm_types.specs.Events.{request};
ghost use Rattle.strm_locks.specs.Audits.{IsAudited};
ghost use Rattle.strm_locks.specs.Ends.{Calls, CallsSlave, IsOpened};
ghost use Rattle.strm_locks.specs.Settles.{IsSettled};
ghost use Rattle.strm_locks.specs.Systems.{IsOne, numbered};
ghost use Rattle.strm_locks.specs.Turns.{IsCut, IsRefusedOpen, IsRestart, IsVisit};
ghost use Rattle.strm_locks.specs.declared.end.TheConstants.{ALL_PARTS};

use super::{PairEnd, System};
use crate::audits::Audit;
use crate::bell::Bell;
use crate::busy::Busy;
use crate::end::StillShared;
use crate::object::Object;
use crate::visit::{Closed, Cut, NotOpened, Visit};
use std::alloc::Global;
use strm_minors::Minor;
use strm_types::{Answer, Content, Event, Refusal};

/// An end whose pair was settled, or that lacks parts or the minor.
type Settling<P> = Result<(Closed<P>, Minor), (StillShared, PairEnd<P>)>;

impl<P: Object> System<P> {
    /// Opens the master of a minor's pair as `open` does, where its lock is free. Else the minor comes back.
    pub fn try_open<B: Bell>(
        &self,
        bell: &B,
        minor: Minor,
    ) -> Result<Result<PairEnd<P>, (NotOpened<P>, Minor)>, (Busy, Minor)>
        requires { minor < length self.now.locks }
        ensures { MatchResult result
            (λ opened. MatchResult opened
            (λ e. (e.pair ≡ minor) × (e.minor ≡ Some minor) × IsOne self.now e × IsOpened e.end.lock e.end)
            (λ n. (n.1 ≡ minor) × (slice_get self.now.locks minor ≡ Some n.0.visit.lock) × IsRefusedOpen n.0.visit.lock n.0.visit n.0.refusal))
            (λ back. back.1 ≡ minor) }
    {
        let pair = minor.number();
        match self.lock(pair).try_open(bell) {
            Err(Busy) => Err((Busy, minor)),
            Ok(Err(why)) => Ok(Err((why, minor))),
            Ok(Ok(end)) => Ok(Ok(PairEnd {
                pair,
                end,
                minor: Some(minor),
            })),
        }
    }

    /// Makes one call as `call` does, where the lock of the end's pair is free. Else the end and `out` stay.
    pub fn try_call<B: Bell>(
        &self,
        bell: &B,
        end: &mut PairEnd<P>,
        event: &Event<&[u8]>,
        out: &mut Content,
    ) -> Result<Result<Answer<u32>, Refusal>, Busy>
        requires { IsOne self.now end.old }
        ensures pair { end.new.pair ≡ end.old.pair }
        ensures minor { end.new.minor ≡ end.old.minor }
        ensures one { IsOne self.now end.new }
        ensures told { MatchResult result
            (λ answer. Calls end.old.end (request event.now) out.old.items out.new.items answer end.new.end)
            (λ _. (end.new.end ≡ end.old.end) × (out.new ≡ out.old)) }
    {
        self.lock(end.pair).try_call(bell, &mut end.end, event, out)
    }

    /// Opens the slave of the end's pair as `open_slave` does, where its lock is free. Else the end stays.
    pub fn try_open_slave<B: Bell>(
        &self,
        bell: &B,
        end: &mut PairEnd<P>,
    ) -> Result<Result<PairEnd<P>, Refusal>, Busy>
        requires { IsOne self.now end.old }
        ensures pair { end.new.pair ≡ end.old.pair }
        ensures minor { end.new.minor ≡ end.old.minor }
        ensures one { IsOne self.now end.new }
        ensures slave { IfOk result (λ opened. IfOk opened (λ slave. IsOne self.now slave)) }
        ensures opened { MatchResult result
            (λ opened. CallsSlave (numbered end.old.pair None) end.old.end opened end.new.end)
            (λ _. end.new.end ≡ end.old.end) }
    {
        match self.lock(end.pair).try_open_slave(bell, &mut end.end) {
            Err(Busy) => Err(Busy),
            Ok(Err(refusal)) => Ok(Err(refusal)),
            Ok(Ok(slave)) => Ok(Ok(PairEnd {
                pair: end.pair,
                end: slave,
                minor: None,
            })),
        }
    }

    /// Settles the end's pair as `settle` does, where its lock is free. An end that lacks parts or the minor comes back whether it is or not.
    pub fn try_settle<B: Bell>(
        &self,
        bell: &B,
        end: PairEnd<P>,
    ) -> Result<Settling<P>, (Busy, PairEnd<P>)>
        requires { IsOne self.now end }
        ensures { MatchResult result
            (λ settled. MatchResult settled
            (λ c. (end.end.parts ≡ ALL_PARTS) × (end.minor ≡ Some c.1) × (c.1 ≡ end.pair)
            × (slice_get self.now.locks end.pair ≡ Some c.0.visit.lock) × IsSettled end.end c.0.settled c.0.visit.met)
            (λ back. ((end.end.parts ≢ ALL_PARTS) ⊎ (end.minor ≡ None)) × (back.1 ≡ end)))
            (λ back. (end.end.parts ≡ ALL_PARTS) × (end.minor ≢ None) × (back.1 ≡ end)) }
    {
        let PairEnd { pair, end, minor } = end;
        let Some(minor) = minor else {
            let minor = None;
            return Ok(Err((StillShared, PairEnd { pair, end, minor })));
        };
        match self.lock(pair).try_settle(bell, end) {
            Ok(Ok(closed)) => Ok(Ok((closed, minor))),
            Ok(Err((shared, end))) => {
                let minor = Some(minor);
                Ok(Err((shared, PairEnd { pair, end, minor })))
            }
            Err((Busy, end)) => {
                let minor = Some(minor);
                Err((Busy, PairEnd { pair, end, minor }))
            }
        }
    }

    /// Makes a turn of the queue of a pair that was enabled first, as `turn` does, where its lock is free.
    pub fn try_turn<B: Bell>(&self, bell: &B, pair: u32) -> Result<Visit<P>, Busy>
        requires { pair < length self.now.locks }
        ensures { IfOk result (λ v. (slice_get self.now.locks pair ≡ Some v.lock) × IsVisit v.lock v) }
    {
        self.lock(pair).try_turn(bell)
    }

    /// Begins the journal of an end's pair anew, as `restart` does, where its lock is free.
    pub fn try_restart<B: Bell>(&self, bell: &B, end: &PairEnd<P>) -> Result<Visit<P>, Busy>
        requires { IsOne self.now end.now }
        ensures { IfOk result (λ v. (slice_get self.now.locks end.now.pair ≡ Some v.lock) × IsRestart v.lock v) }
    {
        self.lock(end.pair).try_restart(bell)
    }

    /// Cuts an end's pair, as `cut` does, where its lock is free. What the end was told stays.
    pub fn try_cut<B: Bell>(
        &self,
        bell: &B,
        alloc: Global,
        end: &PairEnd<P>,
    ) -> Result<Cut<P>, Busy>
        requires { IsOne self.now end.now }
        ensures { IfOk result (λ c. (slice_get self.now.locks end.now.pair ≡ Some c.visit.lock) × IsCut c.visit.lock c.visit c.trace) }
    {
        self.lock(end.pair).try_cut(bell, alloc)
    }

    /// Audits a pair as `audit` does, where its lock is free. What it tells is each clause of an audit (`IsAudited`).
    pub fn try_audit<B: Bell>(&self, bell: &B, pair: u32) -> Result<Audit<P>, Busy>
        requires { pair < length self.now.locks }
        ensures { IfOk result (λ a. (slice_get self.now.locks pair ≡ Some a.visit.lock) × IsAudited a.visit a.told a.ms a.sm) }
    {
        self.lock(pair).try_audit(bell)
    }
}
