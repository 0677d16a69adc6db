//! What follows from the definitions of the line discipline (termio(7I): "Canonical Mode Input Processing"; ldterm(7M)). Each law
//! is the contract of a function that does nothing, and holds of bytes and of bytes with their origin alike.

ghost use Rattle.std.specs.Prelude.{◌≡◌, ℕ, ◌+◌, ◌*◌, ◌++◌, Bool, List, Option, length, drop};
ghost use Rattle.strm_types.specs.declared.spots.Spot.{Spot};
ghost use Rattle.strm_types.specs.declared.names.Dir.{Dir};
ghost use Rattle.strm_types.specs.Names.{direction_at};
ghost use Rattle.strm_types.specs.Cells.{AreCells, Cells, plain};
ghost use Rattle.strm_types.specs.Input.{next_stage, stages, stages_done};
ghost use Rattle.strm_laws.specs.LdtermWeights.{ActedKeeps, EchoStands, IgnoresMapping, MayServe, ldterm_weight};
ghost use Rattle.strm_laws.specs.LdtermOrigins.{map_ldterm, map_serving};
ghost use Rattle.strm_types.specs.LdtermPuts.{ldterm_puts};
ghost use Rattle.strm_types.specs.LdtermServes.{ldterm_serves};
ghost use Rattle.strm_laws.specs.LdtermTurns.{IsItsTurn, IsOrderly};
ghost use Rattle.strm_types.specs.Standings.{new_pair};
ghost use Rattle.strm_types.specs.Ldterms.{Discipline, discipline, new_ldterm};
ghost use Rattle.strm_types.specs.Lines.{Edit, ErasesByte, ErasesWord, ErasesAll, edited, line_of};
ghost use Rattle.strm_types.specs.Message.{Message, map_message, weight_of};
ghost use Rattle.strm_types.specs.Origins.{map_acted};
ghost use Rattle.strm_laws.specs.Places.{weight_gone, weight_sent};
ghost use Rattle.strm_laws.specs.Standing.{standing_line};

/// The line that is edited byte by byte is what stands of all that was typed: a byte stands where there was room for it and no later
/// edit takes it.
pub fn line_stands<C>()
    ensures { (blank : C → Bool) (edits : List (Edit C)) → line_of blank edits ≡ standing_line blank edits }
{}

/// What an edit takes stands at the end of the line: what it leaves and what is left out are the line.
pub fn edits_leave_a_prefix<C>()
    ensures byte { (blank : C → Bool) (line : List C) → let left = edited blank ErasesByte line in left ++ drop (length left) line ≡ line }
    ensures word { (blank : C → Bool) (line : List C) → let left = edited blank ErasesWord line in left ++ drop (length left) line ≡ line }
    ensures all { (blank : C → Bool) (line : List C) → let left = edited blank ErasesAll line in left ++ drop (length left) line ≡ line }
{}

/// ldterm loses no cell, and makes none but those that it tells: of any cells, those that it holds, that are sent on and that go by a
/// rule are those that it held before, with those of the message that is put, or with those that are told as made. A put makes none.
/// A turn may map a cell to another byte, so its test says the same of the two. `stage` is one stage of a turn; `stages` are several
/// with the end of the turn, which comes between two bytes; `serves` is a call of the service procedure. The turn's echo is there to grow,
/// and stays there.
pub fn ldterm_keeps_cells<C>()
    ensures put { (p : Dir → C → Bool) (here : Spot) (m : Message C) (l : Discipline C) → let t = ldterm_puts here m l in
        ldterm_weight p here.side t.state + (weight_sent p t.sent + weight_gone p t.gone) ≡ ldterm_weight p here.side l + weight_of (p (direction_at here.way here.side)) m }
    ensures stage { (p : Dir → C → Bool) (cells : Cells C) (here : Spot) (made : ℕ) (l : Discipline C) → IgnoresMapping cells p → EchoStands l →
        ActedKeeps p here.side (next_stage cells here made l) (ldterm_weight p here.side l) }
    ensures echo { (cells : Cells C) (here : Spot) (made : ℕ) (l : Discipline C) → EchoStands l → EchoStands (next_stage cells here made l).state }
    ensures stages { (p : Dir → C → Bool) (cells : Cells C) (here : Spot) (n bytes made : ℕ) (l : Discipline C) → IgnoresMapping cells p →
        EchoStands l →
        n + stages_done l.stage ≡ 3 * bytes → ActedKeeps p here.side (stages cells here n made l) (ldterm_weight p here.side l) }
    ensures serves { (p : Dir → C → Bool) (cells : Cells C) (here : Spot) (made : ℕ) (again : Bool) (stop : Option ℕ) (l : Discipline C) →
        IgnoresMapping cells p →
        EchoStands l → MayServe here.way again stop l → ActedKeeps p here.side (ldterm_serves cells here made again stop l).acted (ldterm_weight p here.side l) }
{}

/// Forgetting the origins of bytes commutes with what ldterm does: with a put, whatever cells are mapped to, and with a call of its
/// service procedure, whose cells have the bytes that they were given.
pub fn ldterm_forgets<C, D>()
    ensures put { (f : C → D) (here : Spot) (m : Message C) (l : Discipline C) →
        ldterm_puts here (map_message f m) (map_ldterm f l) ≡ map_acted f (map_ldterm f) (ldterm_puts here m l) }
    ensures serves { (cells : Cells C) (here : Spot) (made : ℕ) (again : Bool) (stop : Option ℕ) (l : Discipline C) → AreCells cells →
        ldterm_serves plain here made again stop (map_ldterm cells.byte l)
        ≡ map_serving cells.byte (map_ldterm cells.byte) (ldterm_serves cells here made again stop l) }
{}

/// What holds of ldterm stays so. It holds of one as it is pushed, and behind each put and each call of its service procedure, as no
/// other turn begins while a turn of its read queue goes on. So the turn's echo is there to grow.
pub fn ldterm_stays_orderly<C>()
    ensures new { IsOrderly (discipline (new_ldterm {C = C}) new_pair) }
    ensures put { (here : Spot) (m : Message C) (l : Discipline C) → IsOrderly l → IsOrderly (ldterm_puts here m l).state }
    ensures serves { (cells : Cells C) (here : Spot) (made : ℕ) (again : Bool) (stop : Option ℕ) (l : Discipline C) → IsOrderly l →
        IsItsTurn here.way again l → IsOrderly (ldterm_serves cells here made again stop l).acted.state }
    ensures echo { (l : Discipline C) → IsOrderly l → EchoStands l }
{}
