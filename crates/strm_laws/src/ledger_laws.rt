//! Every byte once: each has one place, and the numbers of a ledger agree.

ghost use Rattle.std.specs.Prelude.{◌≡◌, ◌↔◌, ◌+◌, ◌<◌, ◌^◌, ℕ, if◌then◌else◌, List};
ghost use Rattle.strm_types.specs.declared.events.Caller.{Caller};
ghost use Rattle.strm_types.specs.declared.names.Dir.{Dir};
ghost use Rattle.strm_types.specs.Events.{Request};
ghost use Rattle.strm_types.specs.Cells.{AreCells, Cells, Origin, plain, tagged};
ghost use Rattle.strm_types.specs.Journal.{PlainEntry};
ghost use Rattle.strm_types.specs.declared.rules.Fates.{Fates};
ghost use Rattle.strm_laws.specs.Based.{based};
ghost use Rattle.strm_laws.specs.Kept.{AreIdle, NothingUnread, told_by};
ghost use Rattle.strm_laws.specs.Ledgers.{Balanced, is_booked, own_places_of, places_of};
ghost use Rattle.strm_types.specs.Refused.{or_else};
ghost use Rattle.strm_laws.specs.Refusals.{refused_at_once, refused_by_state};
ghost use Rattle.strm_laws.specs.State.{State, book, map_state};
ghost use Rattle.strm_laws.specs.Step.{IsLegal, replay};

use crate::behaviours::Behaves;

/// Behind each legal journal, from whatever state it begins, every byte that stood there or was written or made since has exactly one place, on a
/// queue, in an unfinished line, or among what has gone by a rule, and no other byte has any; and the place is one of the direction in
/// which it stood or was written or made.
pub fn each_byte_has_one_place<K: Behaves>()
    ensures once { (o : Origin) (base : State ℕ) (es : List PlainEntry) → NothingUnread base → AreIdle base → IsLegal K.does plain base es →
        places_of K.does o base es ≡ (if is_booked o base (replay K.does tagged (based base) es) then 1 else 0) }
    ensures own { (o : Origin) (base : State ℕ) (es : List PlainEntry) → NothingUnread base → AreIdle base → IsLegal K.does plain base es →
        own_places_of K.does o base es ≡ (if is_booked o base (replay K.does tagged (based base) es) then 1 else 0) }
{}

/// In each direction what was written and made is what stands on its queues and in its lines and what has gone by each rule, behind each
/// legal journal that begins where this is so. The counts of a ledger go modulo 2^64, so this wants that no more was written and made.
pub fn ledgers_agree<K: Behaves>()
    ensures { (dir : Dir) (base : State ℕ) (fates : Fates) (es : List PlainEntry) → NothingUnread base → AreIdle base → IsLegal K.does plain base es →
        Balanced dir base fates → let s = replay K.does plain base es in (book dir s).written + (book dir s).made < 2 ^ 64 →
        Balanced dir s (told_by K.does plain base es fates) }
{}

/// Whatever stands for bytes, a call is refused for the same; so a journal is legal for bytes with their origin exactly where it is for
/// plain ones. Those of a base are its bytes, where nothing of a turn is under way.
pub fn refusals_forget_origins<C, D, K: Behaves>()
    ensures call { (f : C → D) (s : State C) (caller : Caller) (asked : Request) →
        or_else (refused_at_once (map_state f s) caller asked) (refused_by_state K.does (map_state f s) caller asked)
        ≡ or_else (refused_at_once s caller asked) (refused_by_state K.does s caller asked) }
    ensures legal { (cells : Cells C) (s : State C) (es : List PlainEntry) → AreCells cells → IsLegal K.does plain (map_state cells.byte s) es ↔ IsLegal K.does cells s es }
    ensures forgets { (base : State ℕ) → AreIdle base → map_state tagged.byte (based base) ≡ base }
{}
