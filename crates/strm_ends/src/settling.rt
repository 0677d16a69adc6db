//! Settling a pair, and beginning its journal anew.

ghost use Rattle.std.specs.Prelude.{◌≡◌};
ghost use Rattle.strm_types.specs.declared.ledger.Ledger.{Ledger};
ghost use Rattle.strm_locks.specs.declared.held.Settled.{Settled};
ghost use Rattle.strm_handle.specs.Outcomes.{books_told};
ghost use Rattle.strm_ends.specs.declared.hold.Hold.TheVariants.{Nothing};
ghost use Rattle.strm_ends.specs.Members.{HasEnd};
ghost use Rattle.strm_ends.specs.Outcomes.{AtMember};
ghost use Rattle.strm_ends.specs.Settling.{Restarts, Settles, SettlesBy, account_told};

use crate::accounts::Account;
use crate::handle::Handle;
use crate::hold::Hold;
use crate::numbers::{NotDone, Outcome, not_done, number};
use crate::seats::Seat;
use crate::sharing::sums;
use std::alloc::Global;
use std::mem::replace;
use strm_handle::{Books, refused};
use strm_locks::{Busy, Closed, NoBell, Object, PairEnd, Told};
use strm_system::HostMinor;
use strm_types::{Ledger, Refusal};

// A ledger, as a C program is told it.
fn books(ledger: &Ledger) -> Books
    ensures { books_told result ≡ ledger.now }
{
    Books {
        written: ledger.written,
        made: ledger.made,
        queued: ledger.queued,
        inlined: ledger.inline,
        gone: ledger.fates,
    }
}

/// What was told of a pair in all, and its ledgers, as a C program is told them.
pub(crate) fn account(told: &Told, ms: &Ledger, sm: &Ledger) -> Account
    ensures { account_told result ≡ record { told = told.now; ms = ms.now; sm = sm.now } }
{
    Account {
        told: sums(told),
        ms: books(ms),
        sm: books(sm),
    }
}

impl<P: Object> Seat<P> {
    // Settles the pair of an end, as nothing is in hand; its minor is in hand then, or the end.
    fn settle_by(&mut self, system: u32, end: PairEnd<P>, told: &mut Account) -> Outcome
        requires end { HasEnd self.old.host self.old.opener system end }
        requires empty { self.old.hold ≡ Nothing }
        ensures { SettlesBy self.old system end told.old told.new result self.new }
    {
        match self.host.at(system).try_settle(&NoBell, end) {
            Err((Busy, end)) => {
                self.have(Hold::End { system, end });
                Err(NotDone::Busy)
            }
            Ok(Err((_shared, end))) => {
                self.have(Hold::End { system, end });
                not_done(Refusal::StillShared)
            }
            Ok(Ok((closed, minor))) => {
                let Closed { settled, visit } = closed;
                drop(visit);
                *told = account(&settled.told, &settled.ms, &settled.sm);
                self.have(Hold::Minor(HostMinor { system, minor }));
                Ok(())
            }
        }
    }

    // Settles the pair of the end in hand.
    fn settle(&mut self, told: &mut Account) -> Outcome
        ensures { Settles told.old told.new self.old result self.new }
    {
        match replace(&mut self.hold, Hold::Nothing) {
            Hold::End { system, end } => self.settle_by(system, end, told),
            other => {
                self.have(other);
                not_done(Refusal::Einval)
            }
        }
    }

    // Begins the journal of the end's pair anew.
    fn restart(&self) -> Outcome
        ensures { Restarts self.now result self.now }
    {
        let Hold::End { system, end } = &self.hold else {
            return not_done(Refusal::Einval);
        };
        match self.host.at(*system).try_restart(&NoBell, end) {
            Ok(visit) => {
                drop(visit);
                Ok(())
            }
            Err(Busy) => Err(NotDone::Busy),
        }
    }
}

/// Settles the pair of the end in hand, which has all parts and the minor: what it was told is told, with both ledgers. The pair is as new, and its
/// minor in hand.
pub fn settle(alloc: Global, handle: &mut Handle, told: &mut Account) -> u32
    ensures { AtMember (told.new ≡ told.old) (Settles told.old told.new) handle.old.held.kept handle.new.held.kept result }
{
    let Some(mut member) = handle.take(alloc) else {
        return refused(Refusal::Einval);
    };
    let outcome = member.as_mut().seat.settle(told);
    handle.put(member);
    number(outcome)
}

/// Begins the journal of the pair of the end in hand anew, in place. No memory is taken.
pub fn restart(alloc: Global, handle: &mut Handle) -> u32
    ensures { AtMember (Unit {0}) Restarts handle.old.held.kept handle.new.held.kept result }
{
    let Some(member) = handle.take(alloc) else {
        return refused(Refusal::Einval);
    };
    let outcome = member.as_ref().seat.restart();
    handle.put(member);
    number(outcome)
}
