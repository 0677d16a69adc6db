//! What a lock may hold.

ghost use Rattle.std.specs.Prelude.{◌≡◌, MatchOption, IsOk, Err, IfOk, length, slice_get};
ghost use Rattle.strm_types.specs.declared.entries.Entry.TheVariants.{Called, Turned};
ghost use Rattle.strm_types.specs.Events.{request};
ghost use Rattle.strm_types.specs.Journal.{answer_len, reply_in};
ghost use Rattle.strm_laws.proofs.NoOwn.{none as no_own};
ghost use Rattle.strm_laws.specs.Ledgers.{ledger_of};
ghost use Rattle.strm_laws.specs.Pair.{PairState, AddsEntry, Stops, call_refused, new_pair, queue_refused, restarted};
ghost use Rattle.strm_laws.specs.State.{book};
ghost use Rattle.strm_locks.specs.Sounds.{IsSound};
ghost use Rattle.strm_locks.specs.Tallies.{Tallies, bytes_read};
ghost use Rattle.strm_locks.specs.Turns.{Cuts};

use std::alloc::Global;
use strm_image::Trace;
use strm_types::{Answer, Caller, Content, Dir, Event, Ledger, NoMemory, QueueName, Refusal, Turn};

/// A pair, to its lock: a call or a turn is refused by name and changes nothing, or it adds one entry to the journal; and the pair can be
/// made as new in place.
pub trait Object: Drop {
    /// The pair, as contracts see it.
    ghost pair_of: { Self → PairState };

    /// Makes a call, and tells it with the bytes that it gives in `out`. A refused call leaves the pair and `out`.
    fn call(
        &mut self,
        caller: Caller,
        event: &Event<&[u8]>,
        out: &mut Content,
    ) -> Result<Answer<u32>, Refusal>
        ensures refused { MatchOption (call_refused no_own (pair_of self.old) caller (request event.now)) (IsOk result)
            (λ r. (result ≡ Err r) × ((pair_of self.new ≡ pair_of self.old) × (out.new ≡ out.old))) }
        ensures adds { IfOk result (λ answer.
            AddsEntry no_own (pair_of self.old) (pair_of self.new) (Called caller (request event.now) (reply_in answer out.new.items))) }
        ensures tally { IfOk result (λ answer.
            Tallies (pair_of self.old) (pair_of self.new) (Called caller (request event.now) (reply_in answer out.new.items))) }
        ensures filled { IfOk result (λ answer. answer_len answer ≡ length out.new.items) };

    /// Makes a turn of an enabled queue. A refused turn leaves the pair.
    fn turn(&mut self, name: QueueName) -> Result<Turn, Refusal>
        ensures refused { MatchOption (queue_refused (pair_of self.old) name) (IsOk result)
            (λ r. (result ≡ Err r) × (pair_of self.new ≡ pair_of self.old)) }
        ensures adds { IfOk result (λ turn. AddsEntry no_own (pair_of self.old) (pair_of self.new) (Turned name turn)) }
        ensures stops { IfOk result (λ turn. Stops (pair_of self.old) (pair_of self.new) name turn) }
        ensures tally { IfOk result (λ turn. Tallies (pair_of self.old) (pair_of self.new) (Turned name turn)) };

    /// The queue that was enabled first, if any.
    fn first_enabled(&self) -> Option<QueueName>
        ensures { result ≡ slice_get (pair_of self.now).state.enabled 0 };

    /// How many bytes were written in a direction.
    fn written(&self, direction: Dir) -> u64
        ensures { result ≡ (book direction (pair_of self.now).state).written };

    /// How many bytes of a direction readers have.
    fn read(&self, direction: Dir) -> u64
        ensures { result ≡ bytes_read direction (pair_of self.now).fates };

    /// The ledger of a direction.
    fn ledger(&self, direction: Dir) -> Ledger
        ensures { result ≡ ledger_of direction (pair_of self.now).state (pair_of self.now).fates };

    /// What holds of every pair, whatever was called. It does nothing.
    fn audit(&self)
        ensures { IsSound (pair_of self.now) };

    /// Begins the journal anew, at the state that the pair has, in place. It takes no memory.
    fn restart(&mut self)
        ensures { pair_of self.new ≡ restarted (pair_of self.old) };

    /// Hands out a trace of the pair, the base at which its journal begins and all entries since, and begins the journal anew at the state that
    /// the pair has. It is refused for want of memory alone, and the pair stays then.
    fn cut(&mut self, alloc: Global) -> Result<Trace, NoMemory>
        ensures { Cuts (pair_of self.old) result (pair_of self.new) };

    /// Makes the pair as new, in place: nobody opened it. It takes no memory.
    fn reset(&mut self)
        ensures { pair_of self.new ≡ new_pair (pair_of self.old).limits };
}
