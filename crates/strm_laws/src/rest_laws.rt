//! Why turns come to rest (STREAMS Programming Guide, "Service Procedures"): each leaves less work than it found, so there are no more of them than
//! there is work. Each law is the contract of a function that does nothing.

ghost use Rattle.std.specs.Prelude.{◌≡◌, ◌≢◌, ◌<◌, ◌≤◌, ◌+◌, ℕ, true, length, None, Some};
ghost use Rattle.strm_types.specs.declared.answers.Turn.{Turn};
ghost use Rattle.strm_types.specs.declared.limits.TheConstants.{STOP_BLOCKS};
ghost use Rattle.strm_types.specs.declared.names.QueueName.{QueueName};
ghost use Rattle.strm_types.specs.declared.refusals.Refusal.TheVariants.{JournalFull};
ghost use Rattle.strm_types.specs.Cells.{Cells};
ghost use Rattle.strm_types.specs.Journal.{room_used};
ghost use Rattle.strm_types.specs.Names.{is_enabled};
ghost use Rattle.strm_laws.specs.Pair.{PairState, RanTurns, next_refused};
ghost use Rattle.strm_laws.specs.Refusals.{enough, in_range};
ghost use Rattle.strm_laws.specs.Rest.{EchoesOnce, NoneQueues, work};
ghost use Rattle.strm_laws.specs.Restorable.{Restorable};
ghost use Rattle.strm_laws.specs.StackCosts.{stands_of};
ghost use Rattle.strm_laws.specs.State.{State};
ghost use Rattle.strm_laws.specs.Step.{IsTurn};
ghost use Rattle.strm_laws.specs.Turns.{turned};

use crate::behaviours::Behaves;

/// A turn of an enabled queue leaves less work: where no module that has queues stands on either stream, whichever answer it is given; and where of
/// such modules one ldterm stands there, with no pckt below it, of a pair that an image may hold, as each is. A turn of ldterm's treats a byte at
/// least of a message that has any, which is enough, however short blocks are. Two ldterms that echo each other don't come to rest.
pub fn turns_leave_less<C, K: Behaves>()
    ensures plain { (cells : Cells C) (name : QueueName) (turn : Turn) (s : State C) → NoneQueues (stands_of s) → is_enabled name s.enabled ≡ true →
        work (turned K.does cells name turn s).state < work s }
    ensures echoed { (cells : Cells C) (old new : State C) (name : QueueName) (turn : Turn) → EchoesOnce (stands_of old) → Restorable old →
        IsTurn K.does cells old name turn new → work new < work old }
{}

/// So many turns, each of the queue that was enabled first, took as much work away at least, and there are no more of them than there was. With
/// room in the journal for as many the next turn isn't refused for the journal's sake: in the end no queue is enabled, or the turn of the first one
/// that is is refused for another reason. That is none where `STOP_BLOCKS` blocks of each kind are free and no book is full.
pub fn turns_come_to_rest<K: Behaves>()
    ensures plain { (n : ℕ) (old new : PairState) → RanTurns K.does n old new → NoneQueues (stands_of old.state) →
        n + work new.state ≤ work old.state }
    ensures echoed { (n : ℕ) (old new : PairState) → RanTurns K.does n old new → EchoesOnce (stands_of old.state) → Restorable old.state →
        n + work new.state ≤ work old.state }
    ensures room { (n : ℕ) (old new : PairState) → RanTurns K.does n old new → n + work new.state ≤ work old.state →
        length old.journal + work old.state ≤ old.limits.journal_events → room_used old.journal ≤ old.limits.journal_bytes →
        next_refused new ≢ Some JournalFull }
    ensures goes { (n : ℕ) (old new : PairState) → RanTurns K.does n old new → n + work new.state ≤ work old.state →
        length old.journal + work old.state ≤ old.limits.journal_events → room_used old.journal ≤ old.limits.journal_bytes →
        in_range new.state ≡ true → enough STOP_BLOCKS new.free ≡ true → next_refused new ≡ None }
{}
