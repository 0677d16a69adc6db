//! Opening the two sides of a pair.

ghost use Rattle.std.specs.Prelude.{◌≡◌, None};
ghost use Rattle.strm_ends.specs.declared.hold.Hold.TheVariants.{Nothing};
ghost use Rattle.strm_ends.specs.Members.{HasEnd, HoldsMinor, seated};
ghost use Rattle.strm_ends.specs.Opening.{Opens, OpensMinor, OpensSlave, OpensSlaveBy};
ghost use Rattle.strm_ends.specs.Outcomes.{AtMember, WithMade, made_where};

use crate::handle::Handle;
use crate::hold::Hold;
use crate::member::Member;
use crate::numbers::{NotDone, Outcome, not_done, number};
use crate::seats::Seat;
use std::alloc::Global;
use std::mem::replace;
use strm_handle::refused;
use strm_locks::{Busy, NoBell, Object, PairEnd};
use strm_system::HostMinor;
use strm_types::Refusal;

impl<P: Object> Seat<P> {
    // Opens the master of a minor's pair, as nothing is in hand.
    fn open_minor(&mut self, minor: HostMinor) -> Outcome
        requires held { HoldsMinor self.old.host self.old.opener minor }
        requires empty { self.old.hold ≡ Nothing }
        ensures { OpensMinor self.old minor result self.new }
    {
        let HostMinor { system, minor } = minor;
        match self.host.at(system).try_open(&NoBell, minor) {
            Err((Busy, minor)) => {
                self.have(Hold::Minor(HostMinor { system, minor }));
                Err(NotDone::Busy)
            }
            Ok(Err((not, minor))) => {
                self.have(Hold::Minor(HostMinor { system, minor }));
                not_done(not.refusal)
            }
            Ok(Ok(end)) => {
                self.have(Hold::End { system, end });
                Ok(())
            }
        }
    }

    // Opens the master of the pair whose minor is in hand.
    fn open(&mut self) -> Outcome
        ensures { Opens self.old result self.new }
    {
        match replace(&mut self.hold, Hold::Nothing) {
            Hold::Minor(minor) => self.open_minor(minor),
            other => {
                self.have(other);
                not_done(Refusal::Einval)
            }
        }
    }

    // Opens the slave by a call of an end, as nothing is in hand; the end is in hand then, and the slave's of a second one.
    fn open_slave_by(&mut self, system: u32, mut end: PairEnd<P>, second: &mut Seat<P>) -> Outcome
        requires end { HasEnd self.old.host self.old.opener system end }
        requires empty { self.old.hold ≡ Nothing }
        requires beside { second.old ≡ seated self.old.host None Nothing }
        ensures { OpensSlaveBy self.old system end (made_where result second.new) result self.new }
    {
        let opened = self.host.at(system).try_open_slave(&NoBell, &mut end);
        self.have(Hold::End { system, end });
        match opened {
            Err(Busy) => Err(NotDone::Busy),
            Ok(Err(why)) => not_done(why),
            Ok(Ok(slave)) => {
                second.have(Hold::End { system, end: slave });
                Ok(())
            }
        }
    }

    // Opens the slave by a call of the end in hand: its end is in hand of a second one then.
    fn open_slave(&mut self, second: &mut Seat<P>) -> Outcome
        requires beside { second.old ≡ seated self.old.host None Nothing }
        ensures { OpensSlave self.old (made_where result second.new) result self.new }
    {
        match replace(&mut self.hold, Hold::Nothing) {
            Hold::End { system, end } => self.open_slave_by(system, end, second),
            other => {
                self.have(other);
                not_done(Refusal::Einval)
            }
        }
    }
}

impl Member {
    // Opens the slave by a call of the end in hand. The memory of the second member is taken before that.
    fn open_slave(&mut self, alloc: Global, made: &mut Handle) -> Outcome
        requires { made.old.held.kept ≡ None }
        ensures { OpensSlave self.old made.new.held.kept result self.new }
    {
        if !self.seat.has_end() {
            return not_done(Refusal::Einval);
        }
        let Some(mut second) = self.beside(alloc) else {
            return not_done(Refusal::NoMemory);
        };
        let outcome = self.seat.open_slave(&mut second.as_mut().seat);
        made.put_made(second, &outcome);
        outcome
    }
}

/// Opens the master of the pair whose minor is in hand (open(2) of the master device): an end with all parts is in hand then. The minor stays in hand
/// where it isn't opened.
pub fn open(alloc: Global, handle: &mut Handle) -> u32
    ensures { AtMember (Unit {0}) Opens handle.old.held.kept handle.new.held.kept result }
{
    let Some(mut member) = handle.take(alloc) else {
        return refused(Refusal::Einval);
    };
    let outcome = member.as_mut().seat.open();
    handle.put(member);
    number(outcome)
}

/// Opens the slave by a call of the end in hand (open(2) of the slave device): its end is in hand of a member that is made in a closed handle and has
/// no opener.
pub fn open_slave(alloc: Global, handle: &mut Handle, made: &mut Handle) -> u32
    ensures { WithMade OpensSlave handle.old.held.kept handle.new.held.kept made.old.held.kept made.new.held.kept result }
{
    if made.is_open() {
        return refused(Refusal::Einval);
    }
    let Some(mut member) = handle.take(alloc) else {
        return refused(Refusal::Einval);
    };
    let outcome = member.as_mut().open_slave(alloc, made);
    handle.put(member);
    number(outcome)
}
