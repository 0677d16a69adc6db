//! What a lock holds: a pair with its book.

ghost use Rattle.std.specs.Fn.{FnOnceReturnsAt};
ghost use Rattle.std.specs.Prelude.{◌≡◌, ◌≢◌, length, MatchOption, IsOk, Err, IfOk};
ghost use Rattle.strm_types.specs.declared.entries.Entry.TheVariants.{Called, Turned};
ghost use Rattle.strm_types.specs.Events.{request};
ghost use Rattle.strm_types.specs.Journal.{answer_len, reply_in};
ghost use Rattle.strm_laws.proofs.NoOwn.{none as no_own};
ghost use Rattle.strm_laws.specs.Pair.{AddsEntry, Stops, call_refused, queue_refused, restarted};

use crate::end::ALL_PARTS;
use crate::object::Object;
use crate::told::{Each, Told};
use std::alloc::Global;
use std::marker::Model;
use strm_image::Trace;
use strm_types::{
    Answer, Caller, Content, Dir, Event, Ledger, NoMemory, QueueName, Refusal, Side, Turn,
};

/// A pair with its book, which a thread has while it holds the lock. Contracts see the pair, and the book: what all ends were told since the
/// pair was opened, as the history the calls since, of which those of the journal are the last, and the parts that no end has.
///
/// The book can't differ from what the pair did: its numbers of bytes and its history are the pair's own.
pub struct Held<P: Object> {
    pair: P,
    calls: u64,
    left: u64,
    // A line of the cache that nothing uses: what lies behind on the heap is another thread's, as the next pair of a system.
    apart: [u64; 8],
}

// Of its own, so that who owns one doesn't take it apart at each way out.
impl<P: Object> Drop for Held<P> {
    fn drop(self) {
        let Held {
            pair: _,
            calls: _,
            left: _,
            apart: _,
        } = self;
    }
}

/// What the ends of a pair were told in all, and the pair's ledgers, when it was settled: that of what the master wrote (`ms`), and that of
/// what the slave wrote (`sm`).
#[derive(Clone, Copy)]
pub struct Settled {
    pub told: Told,
    pub ms: Ledger,
    pub sm: Ledger,
}

/// A turn that was made under a lock: of which queue, and what the pair answered.
#[derive(Clone, Copy)]
pub struct Made {
    pub queue: QueueName,
    pub answer: Result<Turn, Refusal>,
}

impl<P: Object> Model for Held<P> {
    ghost use Rattle.strm_locks.specs.Books.{IsKept, Kept, kept};

    ghost Value = { Kept };

    ghost view = { λ h. kept h.calls (P.pair_of h.pair) h.left };

    ghost invariant = { λ h. IsKept h.calls h.left (P.pair_of h.pair) };
}

impl<P: Object> Held<P> {
    ghost use Rattle.strm_laws.specs.Pair.{new_pair};
    ghost use Rattle.strm_locks.specs.Books.{closed_book, history_of, Adds, IsBelow, IsCounted, IsNew, Fits, minus};
    ghost use Rattle.strm_locks.specs.Settles.{IsShown};
    ghost use Rattle.strm_locks.specs.Shares.{entry_of, Did, Opens};
    ghost use Rattle.strm_locks.specs.Sounds.{IsSound};
    ghost use Rattle.strm_locks.specs.Turns.{Cuts, Visits};

    /// A pair that nobody opened, with a closed book.
    pub fn new(pair: P) -> Held<P>
        requires { IsNew (P.pair_of pair) }
        ensures pair { result.pair ≡ P.pair_of pair }
        ensures book { result.book ≡ closed_book }
    {
        Held {
            pair,
            calls: 0,
            left: ALL_PARTS,
            apart: [0; 8],
        }
    }

    // What holds of every pair, and that its calls are counted.
    pub(crate) fn audit(&self)
        ensures sound { IsSound self.now.pair }
        ensures counted { IsCounted self.now.book.totals.calls (history_of self.now.pair) }
    {
        let _calls = self.calls;
        self.pair.audit();
    }

    // Makes a call of a pair that is open. The book gains its entry and its tally; a refused call leaves the pair, the book and `out`.
    fn call(
        &mut self,
        caller: Caller,
        event: &Event<&[u8]>,
        out: &mut Content,
    ) -> Result<Answer<u32>, Refusal>
        requires open { self.old.book.left ≢ ALL_PARTS }
        ensures refused { MatchOption (call_refused no_own self.old.pair caller (request event.now)) (IsOk result)
            (λ r. (result ≡ Err r) × ((self.new ≡ self.old) × (out.new ≡ out.old))) }
        ensures adds { IfOk result (λ answer.
            AddsEntry no_own self.old.pair self.new.pair (Called caller (request event.now) (reply_in answer out.new.items))) }
        ensures filled { IfOk result (λ answer. answer_len answer ≡ length out.new.items) }
        ensures book { IfOk result (λ answer.
            Adds self.old.book (entry_of caller (request event.now) out.new.items answer) self.new.book) }
    {
        match self.pair.call(caller, event, out) {
            Err(refusal) => Err(refusal),
            Ok(answer) => {
                self.calls = self.calls.saturating_add(1);
                Ok(answer)
            }
        }
    }

    // Makes a turn of an enabled queue. The book stays.
    fn turn(&mut self, name: QueueName) -> Result<Turn, Refusal>
        ensures refused { MatchOption (queue_refused self.old.pair name) (IsOk result)
            (λ r. (result ≡ Err r) × (self.new ≡ self.old)) }
        ensures adds { IfOk result (λ turn. AddsEntry no_own self.old.pair self.new.pair (Turned name turn)) }
        ensures stops { IfOk result (λ turn. Stops self.old.pair self.new.pair name turn) }
        ensures book { self.new.book ≡ self.old.book }
    {
        self.pair.turn(name)
    }

    // Begins the pair's journal anew, at the state that it has, in place: no memory is taken, and nothing is refused. The book stays: its
    // history has the calls of the entries that go.
    pub(crate) fn restart(&mut self)
        ensures pair { self.new.pair ≡ restarted self.old.pair }
        ensures book { self.new.book ≡ self.old.book }
    {
        self.pair.restart();
    }

    // Cuts the pair: it hands out the base at which the journal began and all entries since, and begins the journal anew, as `restart` does.
    // Where memory is refused the pair stays. The book stays in either case: its history has the calls of the entries that go.
    pub(crate) fn cut(&mut self, alloc: Global) -> Result<Trace, NoMemory>
        ensures pair { Cuts self.old.pair result self.new.pair }
        ensures book { self.new.book ≡ self.old.book }
    {
        self.pair.cut(alloc)
    }

    // What all ends were told together.
    fn told(&self) -> Told
        ensures { result ≡ self.now.book.totals }
    {
        Told {
            calls: self.calls,
            written: Each {
                from_master: self.pair.written(Dir::MasterToSlave),
                from_slave: self.pair.written(Dir::SlaveToMaster),
            },
            read: Each {
                from_master: self.pair.read(Dir::MasterToSlave),
                from_slave: self.pair.read(Dir::SlaveToMaster),
            },
        }
    }

    // A turn of the queue that was enabled first, if any.
    pub(crate) fn turn_first(&mut self) -> Option<Made>
        ensures book { self.new.book ≡ self.old.book }
        ensures made { Visits self.old.pair result self.new.pair }
    {
        let queue = self.pair.first_enabled()?;
        let answer = self.turn(queue);
        Some(Made { queue, answer })
    }

    // A call, and what it told.
    pub(crate) fn call_told(
        &mut self,
        caller: Caller,
        event: &Event<&[u8]>,
        out: &mut Content,
    ) -> (Result<Answer<u32>, Refusal>, Told)
        requires open { self.old.book.left ≢ ALL_PARTS }
        ensures answer { Did self.old caller (request event.now) out.old.items out.new.items result.0 self.new }
        ensures below { IsBelow self.old.book.totals self.new.book.totals }
        ensures fits { Fits self.new.book.totals }
        ensures growth { result.1 ≡ minus self.new.book.totals self.old.book.totals }
    {
        let before = self.told();
        let answer = self.call(caller, event, out);
        let after = self.told();
        (answer, after.minus(&before))
    }

    // The call that opens the master of a pair that nobody opened: it gives all parts away. Else EINVAL, which tells nothing.
    pub(crate) fn open(&mut self, out: &mut Content) -> (Result<Answer<u32>, Refusal>, Told)
        ensures answer { Opens self.old out.new.items result.0 self.new }
        ensures below { IsBelow self.old.book.totals self.new.book.totals }
        ensures fits { Fits self.new.book.totals }
        ensures growth { result.1 ≡ minus self.new.book.totals self.old.book.totals }
    {
        let before = self.told();
        if self.left != ALL_PARTS {
            return (Err(Refusal::Einval), Told::nothing());
        }
        let caller = Caller::of(Side::Master);
        match self.pair.call(caller, &Event::OpenMaster, out) {
            Err(refusal) => (Err(refusal), Told::nothing()),
            Ok(granted) => {
                let calls = self.calls.saturating_add(1);
                self.calls = calls;
                self.left = 0;
                let after = self.told();
                (Ok(granted), after.minus(&before))
            }
        }
    }

    // What a look answers of the pair.
    pub(crate) fn seen<T, F: FnOnce(&P) -> T>(&self, look: F) -> T
        requires { F.IsAlwaysCallable look }
        ensures { (x : P) × (P.pair_of x ≡ self.now.pair) × FnOnceReturnsAt F.FnOnce look x result }
    {
        look(&self.pair)
    }

    // What the book has, and the ledgers of the pair.
    pub(crate) fn look(&self) -> Settled
        ensures { IsShown self.now result }
    {
        self.audit();
        let told = self.told();
        let ms = self.pair.ledger(Dir::MasterToSlave);
        let sm = self.pair.ledger(Dir::SlaveToMaster);
        Settled { told, ms, sm }
    }

    // Closes the book, and gives what it had. The pair is as new, and no end has a part.
    pub(crate) fn close(&mut self) -> Settled
        ensures pair { self.new.pair ≡ new_pair self.old.pair.limits }
        ensures closed { self.new.book ≡ closed_book }
        ensures gives { IsShown self.old result }
    {
        let settled = self.look();
        self.pair.reset();
        self.calls = 0;
        self.left = ALL_PARTS;
        settled
    }
}
