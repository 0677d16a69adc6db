//! Visits to any pair of the host: turns, looks and audits.

ghost use Rattle.std.specs.Prelude.{◌≡◌, ◌<◌, ◌≤◌, None, IfNone, IfSome, length, slice_get};
ghost use Rattle.strm_laws.proofs.NoOwn.{none as no_own};
ghost use Rattle.strm_laws.specs.Refusals.{enough};
ghost use Rattle.strm_locks.specs.Systems.{Plan};
ghost use Rattle.strm_pair.specs.Readiness.{readiness};
ghost use Rattle.strm_handle.specs.Numbers.{queue_at, side_at};
ghost use Rattle.strm_handle.specs.Ready.{bits_of};
ghost use Rattle.strm_ends.specs.Members.{lock_at};
ghost use Rattle.strm_ends.specs.Outcomes.{AtMember};
ghost use Rattle.strm_ends.specs.Visiting.{Audits, Looks, TellsVisit, TurnsFirst};

use crate::accounts::{Account, Prospect, Visit};
use crate::handle::Handle;
use crate::member::{HostPair, Member};
use crate::numbers::{NotDone, Outcome, not_done, number};
use crate::seats::Seat;
use crate::settling::account;
use std::alloc::Global;
use strm_handle::{
    NO_QUEUE, WRITE_BLOCKS_MOST, Went, bits_of, has_blocks, number_at, queue_number, refused,
    side_of, went,
};
use strm_locks::{Busy, Made, NoBell, Object, System};
use strm_system::PAIRS;
use strm_types::{Refusal, Side};

// What a visit made, as a C program is told it.
fn visit(made: Option<Made>) -> Visit
    ensures { TellsVisit made result }
{
    let nothing = Went { kind: 0, moved: 0 };
    let Some(made) = made else {
        return Visit {
            queue: NO_QUEUE,
            refusal: 0,
            went: nothing,
        };
    };
    let queue = queue_number(made.queue);
    match made.answer {
        Ok(turn) => Visit {
            queue,
            refusal: 0,
            went: went(turn),
        },
        Err(why) => Visit {
            queue,
            refusal: refused(why),
            went: nothing,
        },
    }
}

// What a side of a pair is ready for.
fn prospect(object: &HostPair, side: Side) -> Prospect
    ensures bits { result.bits ≡ bits_of (readiness no_own side object.now.pair.state) (enough 36 object.now.pair.free) }
    ensures queue { queue_at result.queue ≡ slice_get object.now.pair.state.enabled 0 }
    ensures few { result.queue ≤ 12 }
{
    let pair = &object.pair;
    let has_blocks = has_blocks(pair, WRITE_BLOCKS_MOST, 0);
    Prospect {
        bits: bits_of(pair.ready(side), has_blocks),
        queue: number_at(pair.enabled(), 0),
    }
}

// A pair of a host: its system, and its number there.
struct Found<'a, P: Object> {
    system: &'a System<P>,
    pair: u32,
}

impl<P: Object> Seat<P> {
    // The pair of a number, if there is one.
    fn found(&self, pair: u32) -> Option<Found<'_, P>>
        ensures there { IfSome result (λ f. lock_at self.now.host pair ≡ slice_get f.system.now.locks f.pair) }
        ensures within { IfSome result (λ f. f.pair < length f.system.now.locks) }
        ensures none { IfNone result (lock_at self.now.host pair ≡ None) }
    {
        let number = pair / PAIRS;
        if number >= self.host.systems() {
            return None;
        }
        let system = self.host.at(number);
        let pair = pair % PAIRS;
        if pair >= system.pairs() {
            return None;
        }
        Some(Found { system, pair })
    }

    // Makes the turn of the queue of a pair that was enabled first.
    fn turn(&self, pair: u32, told: &mut Visit) -> Outcome
        ensures { TurnsFirst pair told.old told.new self.now result self.now }
    {
        let Some(Found { system, pair }) = self.found(pair) else {
            return not_done(Refusal::Einval);
        };
        match system.try_turn(&NoBell, pair) {
            Ok(made) => {
                *told = visit(made.made());
                drop(made);
                Ok(())
            }
            Err(Busy) => Err(NotDone::Busy),
        }
    }

    // Audits a pair.
    fn audit(&self, pair: u32, told: &mut Account) -> Outcome
        ensures { Audits pair told.old told.new self.now result self.now }
    {
        let Some(Found { system, pair }) = self.found(pair) else {
            return not_done(Refusal::Einval);
        };
        match system.try_audit(&NoBell, pair) {
            Ok(audit) => {
                *told = account(&audit.told, &audit.ms, &audit.sm);
                Ok(())
            }
            Err(Busy) => Err(NotDone::Busy),
        }
    }
}

impl Member {
    // Looks what a side of a pair is ready for.
    fn look(&self, pair: u32, side: u32, told: &mut Prospect) -> Outcome
        ensures { Looks pair side told.old told.new self.now result self.now }
    {
        let Some(side) = side_of(side) else {
            return not_done(Refusal::Einval);
        };
        let Some(Found { system, pair }) = self.seat.found(pair) else {
            return not_done(Refusal::Einval);
        };
        let look = |object: &HostPair| prospect(object, side);
        match system.try_look(&NoBell, pair, look) {
            Ok((visit, seen)) => {
                drop(visit);
                *told = seen;
                Ok(())
            }
            Err(Busy) => Err(NotDone::Busy),
        }
    }
}

/// Makes the turn of the queue of a pair that was enabled first, if one is, and tells it.
pub fn turn(alloc: Global, handle: &mut Handle, pair: u32, told: &mut Visit) -> u32
    ensures { AtMember (told.new ≡ told.old) (TurnsFirst pair told.old told.new) handle.old.held.kept handle.new.held.kept result }
{
    let Some(member) = handle.take(alloc) else {
        return refused(Refusal::Einval);
    };
    let outcome = member.as_ref().seat.turn(pair, told);
    handle.put(member);
    number(outcome)
}

/// What a side of a pair is ready for, and which of its queues is enabled first. No call is made.
pub fn ready(alloc: Global, handle: &mut Handle, pair: u32, side: u32, told: &mut Prospect) -> u32
    ensures { AtMember (told.new ≡ told.old) (Looks pair side told.old told.new) handle.old.held.kept handle.new.held.kept result }
{
    let Some(member) = handle.take(alloc) else {
        return refused(Refusal::Einval);
    };
    let outcome = member.as_ref().look(pair, side, told);
    handle.put(member);
    number(outcome)
}

/// All that was told of a pair, and its ledgers.
pub fn audit(alloc: Global, handle: &mut Handle, pair: u32, told: &mut Account) -> u32
    ensures { AtMember (told.new ≡ told.old) (Audits pair told.old told.new) handle.old.held.kept handle.new.held.kept result }
{
    let Some(member) = handle.take(alloc) else {
        return refused(Refusal::Einval);
    };
    let outcome = member.as_ref().seat.audit(pair, told);
    handle.put(member);
    number(outcome)
}
