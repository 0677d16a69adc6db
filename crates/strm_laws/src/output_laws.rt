//! What follows from the definitions of output to a terminal (termio(7I): "Output Modes"; ldterm(7M)). Each law is the contract of a
//! function that does nothing, and holds of bytes and of bytes with their origin alike.

ghost use Rattle.std.specs.Prelude.{◌≡◌, ◌≤◌, ℕ, ◌+◌, ◌*◌, Bool, false, List, [], ◌∷◌, ◌++◌, length, map, count_by, None, Option};
ghost use Rattle.strm_types.specs.declared.names.Dir.{Dir};
ghost use Rattle.strm_types.specs.declared.output.TheConstants.{COLUMN_MAX};
ghost use Rattle.strm_types.specs.declared.spots.Spot.{Spot};
ghost use Rattle.strm_types.specs.declared.termios.Termios.{Termios};
ghost use Rattle.strm_types.specs.Cells.{AreCells, Cells, plain};
ghost use Rattle.strm_types.specs.Input.{is_data, made_of, output_passes};
ghost use Rattle.strm_laws.specs.LdtermOrigins.{map_ldterm, map_serving};
ghost use Rattle.strm_laws.specs.LdtermTurns.{IsOrderly};
ghost use Rattle.strm_laws.specs.LdtermWeights.{ActedKeeps, IgnoresMapping, ldterm_weight};
ghost use Rattle.strm_types.specs.Ldterms.{Discipline};
ghost use Rattle.strm_types.specs.Message.{Message};
ghost use Rattle.strm_types.specs.Output.{given_for, map_output, post, posts, told_for};
ghost use Rattle.strm_types.specs.OutputTurns.{output_serves};
ghost use Rattle.strm_laws.specs.Places.{weight_gone, weight_made};
ghost use Rattle.strm_types.specs.Queue.{map_messages};
ghost use Rattle.strm_types.specs.Termios.{opost};

/// Without OPOST all that stands on the write queue goes down as it is, and what isn't M_DATA does so in any case; the column stays.
pub fn output_passes_unposted<C>()
    ensures unposted { (cells : Cells C) (here : Spot) (stop : Option ℕ) (made : ℕ) (ms : List (Message C)) (l : Discipline C) →
        opost l.termios ≡ false →
        output_serves cells here stop made ms l ≡ output_passes cells here ms l }
    ensures others { (cells : Cells C) (here : Spot) (stop : Option ℕ) (made : ℕ) (m : Message C) (rest : List (Message C)) (l : Discipline C) →
        is_data m.kind ≡ false →
        output_serves cells here stop made (m ∷ rest) l ≡ output_passes cells here (m ∷ rest) l }
{}

/// Bytes go out one after the other: each gives what it gives alone, where those before it have left the carriage, and so do several.
pub fn output_is_bytewise<C>()
    ensures alone { (cells : Cells C) (dir : Dir) (made : ℕ) (t : Termios) (column : ℕ) (c : C) → let p = post t column (cells.byte c) in
        posts cells dir made t column (c ∷ []) ≡ record { given = given_for cells dir p.given made c; column = p.column; told = told_for cells dir p.given made c } }
    ensures joined { (cells : Cells C) (dir : Dir) (made : ℕ) (t : Termios) (column : ℕ) (xs ys : List C) →
        let first = posts cells dir made t column xs in let more = posts cells dir (made + made_of first.told) t first.column ys in
        posts cells dir made t column (xs ++ ys) ≡ record { given = first.given ++ more.given; column = more.column; told = first.told ++ more.told } }
{}

/// Output loses no cell, and makes none but those that it tells: of any cells, those that are given and that go by a rule are those
/// that go out, with those that are told as made. A byte may stand for another one, so the test says the same of the two.
pub fn output_keeps_cells<C>()
    ensures posts { (p : Dir → C → Bool) (cells : Cells C) (dir : Dir) (made : ℕ) (t : Termios) (column : ℕ) (xs : List C) → IgnoresMapping cells p →
        let u = posts cells dir made t column xs in count_by (p dir) u.given + weight_gone p u.told ≡ count_by (p dir) xs + weight_made p u.told }
    ensures serves { (p : Dir → C → Bool) (cells : Cells C) (here : Spot) (stop : Option ℕ) (made : ℕ) (l : Discipline C) → IgnoresMapping cells p →
        ActedKeeps p here.side (output_serves cells here stop made l.write_queue.messages l).acted (ldterm_weight p here.side l) }
{}

/// No column passes the greatest one, and a byte gives 8 at most, and has as many made.
pub fn output_is_bounded<C>()
    ensures column { (cells : Cells C) (dir : Dir) (made : ℕ) (t : Termios) (column : ℕ) (xs : List C) → column ≤ COLUMN_MAX →
        (posts cells dir made t column xs).column ≤ COLUMN_MAX }
    ensures given { (cells : Cells C) (dir : Dir) (made : ℕ) (t : Termios) (column : ℕ) (xs : List C) →
        length (posts cells dir made t column xs).given ≤ 8 * length xs }
    ensures made { (cells : Cells C) (dir : Dir) (made : ℕ) (t : Termios) (column : ℕ) (xs : List C) →
        made_of (posts cells dir made t column xs).told ≤ 8 * length xs }
{}

/// Forgetting the origins of bytes commutes with output, of cells that have the bytes that they were given.
pub fn output_forgets<C>()
    ensures posts { (cells : Cells C) (dir : Dir) (made : ℕ) (t : Termios) (column : ℕ) (xs : List C) → AreCells cells →
        posts plain dir made t column (map cells.byte xs) ≡ map_output cells.byte (posts cells dir made t column xs) }
    ensures serves { (cells : Cells C) (here : Spot) (stop : Option ℕ) (made : ℕ) (ms : List (Message C)) (l : Discipline C) → AreCells cells →
        output_serves plain here stop made (map_messages cells.byte ms) (map_ldterm cells.byte l)
        ≡ map_serving cells.byte (map_ldterm cells.byte) (output_serves cells here stop made ms l) }
{}

/// What holds of ldterm stays so behind a turn of its write queue, while no message is in work.
pub fn output_stays_orderly<C>()
    ensures { (cells : Cells C) (here : Spot) (stop : Option ℕ) (made : ℕ) (ms : List (Message C)) (l : Discipline C) → IsOrderly l →
        l.in_work ≡ None →
        IsOrderly (output_serves cells here stop made ms l).acted.state }
{}
