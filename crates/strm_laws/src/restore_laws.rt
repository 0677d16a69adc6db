//! What an image of a pair may hold, every pair has: each reason for which an image would be refused is impossible of the states of a legal
//! journal. Each law is the contract of a function that does nothing, and holds of bytes and of bytes with their origin alike.

ghost use Rattle.std.specs.Prelude.{◌≡◌, ℕ, List, true};
ghost use Rattle.strm_types.specs.declared.answers.Turn.{Turn};
ghost use Rattle.strm_types.specs.declared.events.Caller.{Caller};
ghost use Rattle.strm_types.specs.declared.names.QueueName.{QueueName};
ghost use Rattle.strm_types.specs.declared.rules.Fates.{Fates};
ghost use Rattle.strm_types.specs.Cells.{Cells, plain};
ghost use Rattle.strm_types.specs.Events.{Request};
ghost use Rattle.strm_types.specs.Journal.{PlainEntry};
ghost use Rattle.strm_types.specs.Rules.{no_fates};
ghost use Rattle.strm_laws.specs.Bases.{IsBase};
ghost use Rattle.strm_laws.specs.Calls.{called};
ghost use Rattle.strm_laws.specs.Kept.{told_by};
ghost use Rattle.strm_laws.specs.Known.{all_known};
ghost use Rattle.strm_laws.specs.Ledgers.{FewBooked};
ghost use Rattle.strm_laws.specs.Restorable.{AreWithinEntries, IsWithinEntry, Restorable};
ghost use Rattle.strm_laws.specs.State.{State, opening};
ghost use Rattle.strm_laws.specs.Step.{IsLegal, Step, replay};
ghost use Rattle.strm_laws.specs.Turns.{turned};

use crate::behaviours::Behaves;

/// A pair as it is made can be restored, and so can each pair behind a step, and behind a legal journal, whose calls name bands that queues have.
pub fn restorable_stays<C, K: Behaves>()
    ensures opening { (s : State C) → s ≡ opening → Restorable s }
    ensures step { (cells : Cells C) (old new : State C) (entry : PlainEntry) → IsWithinEntry entry → Restorable old → Step K.does cells old entry new → Restorable new }
    ensures journal { (cells : Cells C) (s : State C) (entries : List PlainEntry) → AreWithinEntries entries → Restorable s → IsLegal K.does cells s entries → Restorable (replay K.does cells s entries) }
{}

/// On the streams of a pair as it is made there are modules of all names that stand there, and so behind a call, a turn and all entries of a journal:
/// a push adds no module of a number that isn't known, and no put and no turn gives one another name.
pub fn known_modules_stay<C, K: Behaves>()
    ensures opening { (s : State C) → s ≡ opening → all_known K.does s ≡ true }
    ensures call { (cells : Cells C) (caller : Caller) (asked : Request) (s : State C) → all_known K.does s ≡ true →
        all_known K.does (called K.does cells caller asked s).state ≡ true }
    ensures turn { (cells : Cells C) (name : QueueName) (turn : Turn) (s : State C) → all_known K.does s ≡ true →
        all_known K.does (turned K.does cells name turn s).state ≡ true }
    ensures journal { (cells : Cells C) (s : State C) (entries : List PlainEntry) → all_known K.does s ≡ true →
        all_known K.does (replay K.does cells s entries) ≡ true }
{}

/// A pair as it is made is a base, and so is each state of a legal journal that begins at one, whose calls name bands that queues have, as
/// long as no book is past its end. So a journal can begin anew at any of them.
pub fn bases_stay<K: Behaves>()
    ensures opening { IsBase opening no_fates }
    ensures journal { (s : State ℕ) (fates : Fates) (es : List PlainEntry) → IsBase s fates → AreWithinEntries es → IsLegal K.does plain s es →
        FewBooked (replay K.does plain s es) → IsBase (replay K.does plain s es) (told_by K.does plain s es fates) }
{}
