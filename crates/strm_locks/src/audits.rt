//! An audit of a pair: what holds of it whenever its lock is free, whatever any threads called.

ghost use Rattle.std.specs.Prelude.{◌≡◌, ◌<◌, Some, length, slice_get};
ghost use Rattle.strm_types.specs.declared.names.Dir.{Dir};
ghost use Rattle.strm_types.specs.declared.names.Dir.TheVariants.{MasterToSlave, SlaveToMaster};
ghost use Rattle.strm_types.specs.Cells.{Origin, plain};
ghost use Rattle.strm_laws.proofs.NoOwn.{none as no_own};
ghost use Rattle.strm_laws.specs.Kept.{told_by};
ghost use Rattle.strm_laws.specs.Ledgers.{Balanced, ledger_of};
ghost use Rattle.strm_laws.specs.State.{AreOrdered};
ghost use Rattle.strm_laws.specs.Step.{IsLegal, replay};
ghost use Rattle.strm_locks.specs.Audits.{AreTold, Found, IsAudited, IsBookOf};
ghost use Rattle.strm_locks.specs.Settles.{IsShown};
ghost use Rattle.strm_locks.specs.Shares.{Became, HasPair, IsSame};
ghost use Rattle.strm_locks.specs.Sounds.{HasBlocks, IsPlacedOnce};

use crate::held::Settled;
use crate::lock::Lock;
use crate::object::Object;
use crate::rule::Place;
use crate::system::System;
use crate::told::Told;
use crate::visit::Visit;
use std::sync::Wait;
use strm_types::Ledger;

/// What an audit found of a pair: what its ends were told in all, both its ledgers (`ms` is that of what the master wrote), and the visit that
/// found them.
#[derive(Drop)]
pub struct Audit<P: Object> {
    pub told: Told,
    pub ms: Ledger,
    pub sm: Ledger,
    pub visit: Visit<P>,
}

impl<P: Object> Lock<P> {
    // What the pair in its slot tells. It stays.
    pub(crate) fn look_held(&self, seat: &mut Place<P>) -> Settled
        requires own { seat.old.table_id ≡ self.now.table }
        requires lock { HasPair seat.old }
        ensures same { IsSame seat.old seat.new × (seat.new.me.0 ≡ seat.old.me.0) }
        ensures did { Became (λ k k'. (k' ≡ k) × IsShown k result) seat.old.me.1 seat.new.me.1 }
    {
        let held = seat.slot_mut(&self.table.shared, 0);
        held.look()
    }

    // The audit, and all that is known of it.
    fn audited<R: Wait>(&self, rt: &R) -> Audit<P>
        ensures here { result.visit.lock ≡ self.now }
        ensures found { IsAudited result.visit result.told result.ms result.sm }
    {
        let mut seat = self.sit();
        self.take(rt, &mut seat);
        let shown = self.look_held(&mut seat);
        self.pass(&mut seat);
        let visit = Visit { seat, made: None };
        Audit {
            told: shown.told,
            ms: shown.ms,
            sm: shown.sm,
            visit,
        }
    }

    /// Takes the lock, looks, and gives it back. Of the pair that it found, and left as it was, it tells what holds of every pair whose lock is
    /// free, after any calls of any threads:
    ///
    /// - it has the sizes of the pair that the lock was made with (`sizes`);
    /// - its journal is legal from its base (`legal`), and the queues for which its message blocks stand are the plain queues that replaying it
    ///   gives (`stands`);
    /// - each queue is ordered by priority, and first come within each (`ordered`);
    /// - each message has a message block at least, and where none stands all blocks of both kinds are free (`blocks`);
    /// - in each direction what was written and made is what stands on queues and in lines, and what has gone by each rule (`balanced`), which
    ///   is what the journal's entries let go (`gone`); and every byte that stood there where the journal begins, or was booked since, has one
    ///   place, in its own direction, and no other byte has any (`once`);
    /// - both ledgers are that pair's own (`ledgers`);
    /// - what is told is its book: its calls, and the bytes that they wrote and read (`book`), and what its ends were told adds up to it (`ends`).
    pub fn audit<R: Wait>(&self, rt: &R) -> Audit<P>
        ensures here { result.visit.lock ≡ self.now }
        ensures sizes { Found result.visit (λ p. p.limits ≡ self.now.sizes) }
        ensures legal { Found result.visit (λ p. IsLegal no_own plain p.base p.journal) }
        ensures stands { Found result.visit (λ p. p.state ≡ replay no_own plain p.base p.journal) }
        ensures ordered { Found result.visit (λ p. AreOrdered p.state) }
        ensures blocks { Found result.visit HasBlocks }
        ensures balanced { Found result.visit (λ p. (dir : Dir) → Balanced dir p.state p.fates) }
        ensures gone { Found result.visit (λ p. p.fates ≡ told_by no_own plain p.base p.journal p.base_fates) }
        ensures once { Found result.visit (λ p. (o : Origin) → IsPlacedOnce o p) }
        ensures ledgers { Found result.visit (λ p.
            (result.ms ≡ ledger_of MasterToSlave p.state p.fates) × (result.sm ≡ ledger_of SlaveToMaster p.state p.fates)) }
        ensures book { Found result.visit (λ p. IsBookOf p result.told) }
        ensures ends { Found result.visit (λ p. AreTold p result.told) }
    {
        self.audited(rt)
    }
}

impl<P: Object> System<P> {
    /// What [`Lock::audit`] tells of a pair: clause by clause what holds of it, whatever any threads called.
    pub fn audit<R: Wait>(&self, rt: &R, pair: u32) -> Audit<P>
        requires { pair < length self.now.locks }
        ensures here { slice_get self.now.locks pair ≡ Some result.visit.lock }
        ensures sizes { Found result.visit (λ p. p.limits ≡ result.visit.lock.sizes) }
        ensures legal { Found result.visit (λ p. IsLegal no_own plain p.base p.journal) }
        ensures stands { Found result.visit (λ p. p.state ≡ replay no_own plain p.base p.journal) }
        ensures ordered { Found result.visit (λ p. AreOrdered p.state) }
        ensures blocks { Found result.visit HasBlocks }
        ensures balanced { Found result.visit (λ p. (dir : Dir) → Balanced dir p.state p.fates) }
        ensures gone { Found result.visit (λ p. p.fates ≡ told_by no_own plain p.base p.journal p.base_fates) }
        ensures once { Found result.visit (λ p. (o : Origin) → IsPlacedOnce o p) }
        ensures ledgers { Found result.visit (λ p.
            (result.ms ≡ ledger_of MasterToSlave p.state p.fates) × (result.sm ≡ ledger_of SlaveToMaster p.state p.fates)) }
        ensures book { Found result.visit (λ p. IsBookOf p result.told) }
        ensures ends { Found result.visit (λ p. AreTold p result.told) }
    {
        self.lock(pair).audit(rt)
    }
}
