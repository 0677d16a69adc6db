//! The lock of a pair: a table with a word, which is 1 while a seat has the pair, and one slot, in which the pair lies with its book
//! while the word is 0. Each function but `new` is one kind of step.

ghost use Rattle.std.specs.Prelude.{◌≡◌, ◌≤◌, [], ◌∷◌, IfOk, MatchBool};
ghost use Rattle.strm_locks.specs.Books.{closed_book, Kept, Fits};
ghost use Rattle.strm_locks.specs.Rules.{fresh, kept_half, split_half, joined, grown, leaving, closing};
ghost use Rattle.strm_locks.specs.Shares.{IsFree, IsSame, HasLock, MayGive, lock_of};

use crate::bell::{Bell, Wakes};
use crate::end::ALL_PARTS;
use crate::held::Held;
use crate::object::Object;
use crate::rule::{Board, Empty, Give, Halves, Look, Pass, Place, Sit, Take};
use atomic_table::{Refused, Table};
use std::alloc::{AllocError, Global};
use std::hint::spin_loop;
use std::marker::Model;
use std::snapshot::Snapshot;
use std::sync::Wait;
use std::sync::atomic::{AtomicU64, Ordering};

// How many words a lock has, and the one of them that is used. A line of the cache is eight words, so wherever the allocator laid these,
// the line of the one that is used has nothing but words of this lock: threads that take different locks don't wait for each other's line.
const WORDS: usize = 16;

const WORD: usize = 8;

// How often a thread tries again before it parks. Its pauses come to 63 of the processor's then, some microseconds.
const PAUSES: u32 = 6;

/// A pair under its lock, which threads share by a `&`. One thread at a time has the pair, and with it the book of what all ends were told.
///
/// A call that takes the lock waits until it is free: it tries again for some microseconds, then it parks, and is woken where the lock is given
/// back. Nothing is said of which thread gets it, nor when. An end that is handed in is of this lock: it was opened with it, or split or joined
/// from such.
///
/// Contracts see which lock it is, and the sizes of its pair, which stay.
pub struct Lock<P: Object> {
    pub(crate) table: Board<P>,
    // How many threads park, or are about to. No contract speaks of it: it saves the system call where none does.
    waiting: AtomicU64,
}

// Of its own, so that who owns one doesn't take it apart at each way out.
impl<P: Object> Drop for Lock<P> {
    fn drop(self) {
        let Lock {
            table: _,
            waiting: _,
        } = self;
    }
}

impl<P: Object> Model for Lock<P> {
    ghost use Rattle.std.specs.Prelude.{◌≡◌};
    ghost use Rattle.strm_locks.specs.Books.{LockId};
    ghost use Rattle.strm_locks.specs.declared.lock.TheConstants.{WORDS};

    ghost Value = { LockId };

    ghost view = { λ l. record { table = l.table.shared.table_id; sizes = l.table.shared.key.value.pair.limits } };

    ghost invariant = { λ l. (l.table.shared.table_id.words ≡ WORDS) × (l.table.shared.table_id.slots ≡ 1) };
}

impl<P: Object> Lock<P> {
    /// The lock of a pair that nobody opened, which is free. It is refused for want of memory alone, and no later call takes any.
    pub fn new(alloc: Global, held: Held<P>) -> Result<Lock<P>, AllocError>
        requires { held.book ≡ closed_book }
        ensures { IfOk result (λ lock. lock.sizes ≡ held.pair.limits) }
    {
        let made = Snapshot::of(&held);
        let mut slots = Vec::with_capacity(alloc, 1)?;
        slots.push_reserved(held);
        match Table::new(alloc, &[0; WORDS], slots, &made) {
            Ok((table, _seat)) => Ok(Lock {
                table,
                waiting: AtomicU64::new(0),
            }),
            Err(Refused { slots: _ }) => Err(AllocError),
        }
    }

    // A seat that was told nothing and has no part.
    pub(crate) fn sit(&self) -> Place<P>
        ensures { (result.table_id ≡ self.now.table) × (result.me ≡ (fresh self.now.sizes, [])) }
    {
        self.table.shared.load_new_seat::<Sit>(WORD).1
    }

    // Tries the lock once, and has it and the pair where it was free; else nothing happened. The word is tested and set in one step.
    pub(crate) fn try_take(&self, seat: &mut Place<P>) -> bool
        requires own { lock_of seat.old ≡ self.now }
        requires free { IsFree seat.old }
        ensures same { IsSame seat.old seat.new }
        ensures lock { MatchBool result ((k : Kept) × HasLock seat.old.me.0 k seat.new) (seat.new.me ≡ seat.old.me) }
    {
        self.table.shared.compare_exchange::<Take>(seat, WORD, 0, 1) == 0
    }

    // Takes the lock, and with it the pair: it is tried, and where it isn't free the thread parks until it is given back.
    pub(crate) fn take<R: Wait>(&self, rt: &R, seat: &mut Place<P>)
        requires own { lock_of seat.old ≡ self.now }
        requires free { IsFree seat.old }
        ensures same { IsSame seat.old seat.new }
        ensures lock { (k : Kept) × HasLock seat.old.me.0 k seat.new }
    {
        let mut tries = 0;
        for _ in rt.forever() {
            if self.try_take(seat) {
                return;
            }
            self.wait(rt, &mut tries);
        }
        unreachable!()
    }

    // Waits for another try, whose number it counts. Who has the lock gives it back within a call or a turn, mostly in less time than it takes to
    // park: so the first tries are made after a pause, each twice as long as the one before, and behind these the thread parks.
    pub(crate) fn wait<R: Wait>(&self, rt: &R, tries: &mut u32) {
        if *tries < PAUSES {
            for _ in 0..1u32 << *tries {
                spin_loop();
            }
            *tries += 1;
            return;
        }
        self.park(rt);
    }

    // Parks while the word is 1. It is noted before: who gives the lock back sees the note, or this thread sees the word at 0.
    #[cold]
    fn park<R: Wait>(&self, rt: &R) {
        self.waiting.fetch_add(1, Ordering::SeqCst);
        self.table.shared.park(rt, WORD, 1);
        self.waiting.fetch_sub(1, Ordering::SeqCst);
    }

    // Wakes one that waits, behind the store that gave the lock back.
    pub(crate) fn wake(&self) {
        if self.waiting.load(Ordering::SeqCst) > 0 {
            self.table.shared.wake_one(WORD);
        }
    }

    // Gives the pair and the lock back, and rings. The seat was told what the book gained.
    pub(crate) fn give<B: Bell>(&self, bell: &B, seat: &mut Place<P>)
        requires own { seat.old.table_id ≡ self.now.table }
        requires held { seat.old.me.0.holds ≡ 1 }
        requires lock { (k : Kept) × (seat.old.me.1 ≡ (0, k) ∷ []) × MayGive seat.old.me.0 k.book × (k.pair.limits ≡ self.now.sizes) }
        ensures same { IsSame seat.old seat.new }
        ensures told { (k : Kept) → seat.old.me.1 ≡ (0, k) ∷ [] → seat.new.me ≡ (grown seat.old.me.0 seat.old.me.0.found k, []) }
    {
        self.table.shared.store::<Give>(seat, WORD, 0);
        bell.ring(self);
    }

    // The same where the book was closed, by a seat that had all parts.
    pub(crate) fn give_closed<B: Bell>(&self, bell: &B, seat: &mut Place<P>)
        requires own { seat.old.table_id ≡ self.now.table }
        requires held { (seat.old.me.0.holds ≡ 1) × (seat.old.me.0.parts ≡ ALL_PARTS) }
        requires lock { (k : Kept) × (seat.old.me.1 ≡ (0, k) ∷ []) × (k.book ≡ closed_book) × (k.pair.limits ≡ self.now.sizes) }
        ensures same { IsSame seat.old seat.new }
        ensures met { (k : Kept) → seat.old.me.1 ≡ (0, k) ∷ [] → seat.new.me ≡ (closing seat.old.me.0 k.pair, []) }
    {
        self.table.shared.store::<Empty>(seat, WORD, 0);
        bell.ring(self);
    }

    // The same at the end of a visit, where the book stayed: the seat was told nothing, and has met the pair that it leaves.
    pub(crate) fn pass_by<B: Bell>(&self, bell: &B, seat: &mut Place<P>)
        requires own { seat.old.table_id ≡ self.now.table }
        requires held { seat.old.me.0.holds ≡ 1 }
        requires lock { (k : Kept) × (seat.old.me.1 ≡ (0, k) ∷ []) × (k.book ≡ seat.old.me.0.found) × (k.pair.limits ≡ self.now.sizes) }
        ensures same { IsSame seat.old seat.new }
        ensures met { (k : Kept) → seat.old.me.1 ≡ (0, k) ∷ [] → seat.new.me ≡ (leaving seat.old.me.0 k.pair, []) }
    {
        self.table.shared.store::<Pass>(seat, WORD, 0);
        bell.ring(self);
    }

    // The same, and a thread that waits is woken.
    pub(crate) fn pass(&self, seat: &mut Place<P>)
        requires own { seat.old.table_id ≡ self.now.table }
        requires held { seat.old.me.0.holds ≡ 1 }
        requires lock { (k : Kept) × (seat.old.me.1 ≡ (0, k) ∷ []) × (k.book ≡ seat.old.me.0.found) × (k.pair.limits ≡ self.now.sizes) }
        ensures same { IsSame seat.old seat.new }
        ensures met { (k : Kept) → seat.old.me.1 ≡ (0, k) ∷ [] → seat.new.me ≡ (leaving seat.old.me.0 k.pair, []) }
    {
        self.pass_by(&Wakes, seat);
    }

    // Cuts a seat in two: this one keeps what was told, and the second has half of the parts, rounded down.
    pub(crate) fn split_seat(&self, seat: &mut Place<P>) -> Place<P>
        requires own { seat.old.table_id ≡ self.now.table }
        requires free { IsFree seat.old }
        ensures first { IsSame seat.old seat.new × (seat.new.me ≡ (kept_half seat.old.me.0, [])) }
        ensures second { (result.table_id ≡ self.now.table) × (result.me ≡ (split_half seat.old.me.0, [])) }
    {
        self.table.shared.split_seat::<Halves>(seat)
    }

    // Joins two seats, and looks: the rule says that the numbers of both together fit.
    pub(crate) fn join_seat(&self, seat: &mut Place<P>, other: Place<P>)
        requires own { seat.old.table_id ≡ self.now.table }
        requires free { IsFree seat.old }
        requires other_own { other.table_id ≡ self.now.table }
        requires other_free { IsFree other }
        ensures same { IsSame seat.old seat.new × (seat.new.me ≡ (joined seat.old.me.0 other.me.0, [])) }
        ensures fits { Fits seat.new.me.0.told }
        ensures most { seat.new.me.0.parts ≤ ALL_PARTS }
    {
        self.table.shared.join_seat::<Halves>(seat, other);
        self.table.shared.load::<Look>(seat, WORD);
    }
}
