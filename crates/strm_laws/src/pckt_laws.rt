//! What follows from the definition of what pckt does (pckt(7M)). Each law is the contract of a function that does nothing, and holds of
//! bytes and of bytes with their origin alike.

ghost use Rattle.std.specs.Prelude.{◌≡◌, ℕ, suc, ◌+◌, Bool, true, false, [], length};
ghost use Rattle.strm_types.specs.declared.names.Dir.{Dir};
ghost use Rattle.strm_types.specs.declared.names.Way.TheVariants.{Up, Down};
ghost use Rattle.strm_types.specs.declared.spots.Spot.{Spot};
ghost use Rattle.strm_types.specs.Cells.{AreCells, Cells, plain};
ghost use Rattle.strm_types.specs.Budgets.{Within, emits_at};
ghost use Rattle.strm_types.specs.Input.{made_of};
ghost use Rattle.strm_types.specs.Message.{Message, map_message, weight_of};
ghost use Rattle.strm_types.specs.Names.{direction_at};
ghost use Rattle.strm_types.specs.Origins.{map_acted};
ghost use Rattle.strm_types.specs.Pckts.{Pckt, is_packed, pckt_passes, pckt_puts, plain_packed};
ghost use Rattle.strm_laws.specs.Places.{weight_gone, weight_made, weight_sent};
ghost use Rattle.strm_types.specs.Shapes.{shape_of};
ghost use Rattle.strm_types.specs.Tables.{pckt_does};

/// pckt holds no cell, loses none, and makes none but those that it tells: of any cells, those that are sent on and that go by a rule are
/// those of the message that is put, and those that are told as made. No queue's place on the enabled list changes.
pub fn pckt_keeps_cells<C>()
    ensures put { (p : Dir → C → Bool) (cells : Cells C) (made : ℕ) (here : Spot) (m : Message C) → let t = pckt_puts cells made here m in
        weight_sent p t.sent + weight_gone p t.gone ≡ weight_of (p (direction_at here.way here.side)) m + weight_made p t.gone }
    ensures notes { (cells : Cells C) (made : ℕ) (here : Spot) (m : Message C) → (pckt_puts cells made here m).notes ≡ [] }
{}

/// Of a message that comes up and is packed, the number of its kind is made, and its bytes that are in no part; and nothing of a message that
/// goes down, or isn't packed, which passes as it is.
pub fn pckt_makes<C>()
    ensures packed { (cells : Cells C) (made : ℕ) (here : Spot) (m : Message C) → here.way ≡ Up → is_packed m.kind ≡ true →
        made_of (pckt_puts cells made here m).gone ≡ suc (length (plain_packed m)) }
    ensures down { (cells : Cells C) (made : ℕ) (here : Spot) (m : Message C) → here.way ≡ Down →
        pckt_puts cells made here m ≡ pckt_passes here m }
    ensures others { (cells : Cells C) (made : ℕ) (here : Spot) (m : Message C) → is_packed m.kind ≡ false →
        pckt_puts cells made here m ≡ pckt_passes here m }
{}

/// Forgetting the origins of bytes commutes with a put at pckt, where cells have the bytes that they were given. Plain bytes are the same
/// whatever was made before.
pub fn pckt_forgets<C>()
    ensures forgets { (cells : Cells C) (made : ℕ) (here : Spot) (m : Message C) → AreCells cells →
        pckt_puts plain made here (map_message cells.byte m) ≡ map_acted cells.byte (λ (q : Pckt). q) (pckt_puts cells made here m) }
    ensures plain { (a b : ℕ) (here : Spot) (m : Message ℕ) → pckt_puts plain a here m ≡ pckt_puts plain b here m }
{}

/// What pckt sends is within its table, by which budgets are reckoned.
pub fn pckt_keeps_its_table<C>()
    ensures { (cells : Cells C) (made : ℕ) (here : Spot) (m : Message C) →
        Within (pckt_puts cells made here m).sent (emits_at here (pckt_does here.way (shape_of m))) }
{}
