//! What an end is told, and how it is cut in two and joined.

ghost use Rattle.std.specs.Prelude.{◌≡◌, ◌<◌, None, Some, IfOk, MatchResult};
ghost use Rattle.strm_locks.specs.Systems.{Numbered};
ghost use Rattle.strm_ends.specs.declared.hold.Hold.TheVariants.{End, Nothing};
ghost use Rattle.strm_ends.specs.Members.{HasEnd, HasInHand, seated};
ghost use Rattle.strm_ends.specs.Outcomes.{AtMember, WithMade, made_where};
ghost use Rattle.strm_ends.specs.Sharing.{AreTogether, Joins, JoinsMember, Shows, ShowsEnd, SplitsBy, SplitsEnd, joined_by, joined_holds, sums_told};

use crate::accounts::{Share, Sides, Sums};
use crate::handle::Handle;
use crate::hold::Hold;
use crate::member::Member;
use crate::numbers::{Outcome, not_done, number, pair_number};
use crate::seats::Seat;
use std::alloc::Global;
use std::mem::replace;
use strm_handle::{refused, side_number};
use strm_locks::{Each, Object, PairEnd, Told};
use strm_system::{Host, HostOpener};
use strm_types::Refusal;

// Bytes by side, as a C program is told them.
fn sides(each: Each) -> Sides
    ensures master { result.from_master ≡ each.from_master }
    ensures slave { result.from_slave ≡ each.from_slave }
{
    Sides {
        from_master: each.from_master,
        from_slave: each.from_slave,
    }
}

/// What was told, as a C program is told it.
pub(crate) fn sums(told: &Told) -> Sums
    ensures { sums_told result ≡ told.now }
{
    Sums {
        calls: told.calls,
        written: sides(told.written),
        read: sides(told.read),
    }
}

// An end, as a C program is told it.
fn shown<P: Object>(system: u32, end: &PairEnd<P>) -> Share
    requires system { system < 1024 }
    requires pair { end.now.pair < 64 }
    ensures { Shows result system end.now }
{
    let part = end.end();
    let caller = part.caller();
    Share {
        told: sums(&part.told()),
        parts: part.parts(),
        pair: pair_number(system, end.pair()),
        side: side_number(caller.side),
        group: caller.group,
        ignores: caller.ignores,
        orphaned: caller.orphaned,
    }
}

// Joins what two members of a host have in hand, where both are ends of one pair.
fn join_holds<P: Object>(
    host: &Host<P>,
    opener: &Option<HostOpener>,
    first: Hold<PairEnd<P>>,
    second: Hold<PairEnd<P>>,
) -> Result<Hold<PairEnd<P>>, (Hold<PairEnd<P>>, Hold<PairEnd<P>>)>
    requires first { HasInHand host.now opener.now first }
    requires second { HasInHand host.now None second }
    ensures joined { MatchResult result
        (λ hold. joined_holds first second ≡ Some hold)
        (λ back. (joined_holds first second ≡ None) × (back.0 ≡ first) × (back.1 ≡ second)) }
    ensures hand { IfOk result (λ hold. HasInHand host.now opener.now hold) }
{
    match (first, second) {
        (
            Hold::End { system, end },
            Hold::End {
                system: there,
                end: other,
            },
        ) => {
            if system != there {
                return Err((
                    Hold::End { system, end },
                    Hold::End {
                        system: there,
                        end: other,
                    },
                ));
            }
            match host.at(system).join_ends(end, other) {
                Ok(end) => Ok(Hold::End { system, end }),
                Err((end, other)) => Err((
                    Hold::End { system, end },
                    Hold::End { system, end: other },
                )),
            }
        }
        (first, second) => Err((first, second)),
    }
}

impl<P: Object> Seat<P> {
    // Joins the end in hand of another member of the host, which has nothing in hand then. False: they stay.
    fn join(&mut self, other: &mut Seat<P>) -> bool
        requires { self.old.host ≡ other.old.host }
        ensures { JoinsMember (joined_by other.old.opener self.old.hold other.old.hold) self.old other.old result self.new other.new }
    {
        if other.opener.is_some() {
            return false;
        }
        let first = replace(&mut self.hold, Hold::Nothing);
        let second = replace(&mut other.hold, Hold::Nothing);
        match join_holds(&self.host, &self.opener, first, second) {
            Ok(hold) => {
                self.have(hold);
                true
            }
            Err((first, second)) => {
                self.have(first);
                other.have(second);
                false
            }
        }
    }

    // What the end in hand is told.
    fn told(&self, share: &mut Share) -> Outcome
        ensures { ShowsEnd share.old share.new self.now result self.now }
    {
        match &self.hold {
            Hold::End { system, end } => {
                // The end is of the host, and no system has more than 64 pairs.
                let pairs = self.host.at(*system).pairs();
                let is_there = end.pair() < pairs;
                prove!(is_there);
                *share = shown(*system, end);
                Ok(())
            }
            _ => not_done(Refusal::Einval),
        }
    }

    // Cuts an end in two, as nothing is in hand; the first is in hand then, and the second of a second one.
    fn split_by(&mut self, system: u32, end: PairEnd<P>, second: &mut Seat<P>) -> Outcome
        requires end { HasEnd self.old.host self.old.opener system end }
        requires empty { self.old.hold ≡ Nothing }
        requires beside { second.old ≡ seated self.old.host None Nothing }
        ensures { SplitsBy self.old system end (made_where result second.new) result self.new }
    {
        match self.host.at(system).split_end(end) {
            Ok((end, other)) => {
                self.have(Hold::End { system, end });
                second.have(Hold::End { system, end: other });
                Ok(())
            }
            Err(end) => {
                self.have(Hold::End { system, end });
                not_done(Refusal::Erange)
            }
        }
    }

    // Cuts the end in hand in two: the second is in hand of a second one then.
    fn split(&mut self, second: &mut Seat<P>) -> Outcome
        requires beside { second.old ≡ seated self.old.host None Nothing }
        ensures { SplitsEnd self.old (made_where result second.new) result self.new }
    {
        match replace(&mut self.hold, Hold::Nothing) {
            Hold::End { system, end } => self.split_by(system, end, second),
            other => {
                self.have(other);
                not_done(Refusal::Einval)
            }
        }
    }
}

impl Member {
    // Cuts the end in hand in two. The memory of the second member is taken before that.
    fn split(&mut self, alloc: Global, made: &mut Handle) -> Outcome
        requires { made.old.held.kept ≡ None }
        ensures { SplitsEnd self.old made.new.held.kept result self.new }
    {
        if !self.seat.has_end() {
            return not_done(Refusal::Einval);
        }
        let Some(mut second) = self.beside(alloc) else {
            return not_done(Refusal::NoMemory);
        };
        let outcome = self.seat.split(&mut second.as_mut().seat);
        made.put_made(second, &outcome);
        outcome
    }
}

/// What the end in hand was told, its parts and its pair, and whom it calls as.
pub fn told(alloc: Global, handle: &mut Handle, share: &mut Share) -> u32
    ensures { AtMember (share.new ≡ share.old) (ShowsEnd share.old share.new) handle.old.held.kept handle.new.held.kept result }
{
    let Some(member) = handle.take(alloc) else {
        return refused(Refusal::Einval);
    };
    let outcome = member.as_ref().seat.told(share);
    handle.put(member);
    number(outcome)
}

/// Joins the end in hand of a second member of the same host to that of the first; both ends are of one pair. The second member is closed then.
pub fn join(alloc: Global, handle: &mut Handle, other: &mut Handle) -> u32
    requires { AreTogether handle.old.held.kept other.old.held.kept }
    ensures { Joins handle.old.held.kept other.old.held.kept handle.new.held.kept other.new.held.kept result }
{
    let Some(mut first) = handle.take(alloc) else {
        return refused(Refusal::Einval);
    };
    let Some(mut second) = other.take(alloc) else {
        handle.put(first);
        return refused(Refusal::Einval);
    };
    let joined = first.as_mut().seat.join(&mut second.as_mut().seat);
    handle.put(first);
    if joined {
        drop(second);
        return 0;
    }
    other.put(second);
    refused(Refusal::Einval)
}

/// Cuts the end in hand in two: the second, with half of the parts, is in hand of a member that is made in a closed handle, and has no opener.
pub fn split(alloc: Global, handle: &mut Handle, made: &mut Handle) -> u32
    ensures { WithMade SplitsEnd handle.old.held.kept handle.new.held.kept made.old.held.kept made.new.held.kept result }
{
    if made.is_open() {
        return refused(Refusal::Einval);
    }
    let Some(mut member) = handle.take(alloc) else {
        return refused(Refusal::Einval);
    };
    let outcome = member.as_mut().split(alloc, made);
    handle.put(member);
    number(outcome)
}
