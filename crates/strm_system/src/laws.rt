//! What an entry adds to the numbers of its pair.

ghost use Rattle.strm_types.specs.Journal.{PlainEntry};
ghost use Rattle.strm_laws.proofs.NoOwn.{none as no_own};
ghost use Rattle.strm_laws.specs.Pair.{AddsEntry, PairState};
ghost use Rattle.strm_locks.specs.Tallies.{Tallies};
ghost use Rattle.strm_system.specs.Known.{IsKnown};

/// Where a pair adds an entry to its journal, its numbers of written and of read bytes grow by what the entry wrote and read (write(2),
/// read(2), putmsg(2), getmsg(2)). Counts by rule go modulo 2^64: for a call this wants that the ledger of the direction that its caller
/// reads agrees, before it and behind it.
pub fn entries_are_tallied()
    ensures { (p q : PairState) (e : PlainEntry) → IsKnown e p → IsKnown e q → AddsEntry no_own p q e → Tallies p q e }
{}
