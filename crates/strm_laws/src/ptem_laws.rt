//! What follows from the definition of what ptem does (ptem(7M)). Each law is the contract of a function that does nothing, and holds of
//! bytes and of bytes with their origin alike.

ghost use Rattle.std.specs.Prelude.{◌≡◌, Bool, []};
ghost use Rattle.strm_types.specs.declared.spots.Spot.{Spot};
ghost use Rattle.strm_types.specs.declared.names.Dir.{Dir};
ghost use Rattle.strm_types.specs.Names.{direction_at};
ghost use Rattle.strm_types.specs.Budgets.{Within, emits_at};
ghost use Rattle.strm_types.specs.Message.{Message, map_message, weight_of};
ghost use Rattle.strm_types.specs.Origins.{map_acted};
ghost use Rattle.strm_laws.specs.Places.{weight_sent};
ghost use Rattle.strm_types.specs.Ptems.{Ptem, ptem_puts};
ghost use Rattle.strm_types.specs.Shapes.{shape_of};
ghost use Rattle.strm_types.specs.Tables.{ptem_does};

/// ptem holds no cell, and loses none: of any cells, those of a message that is put at it are sent on. None goes by a rule and none is
/// made, and no queue's place on the enabled list changes.
pub fn ptem_keeps_cells<C>()
    ensures sent { (p : Dir → C → Bool) (here : Spot) (m : Message C) (l : Ptem) → weight_sent p (ptem_puts here m l).sent ≡ weight_of (p (direction_at here.way here.side)) m }
    ensures gone { (here : Spot) (m : Message C) (l : Ptem) → (ptem_puts here m l).gone ≡ [] }
    ensures notes { (here : Spot) (m : Message C) (l : Ptem) → (ptem_puts here m l).notes ≡ [] }
{}

/// Forgetting the origins of bytes commutes with a put at ptem, whatever cells are mapped to.
pub fn ptem_forgets<C, D>()
    ensures { (f : C → D) (here : Spot) (m : Message C) (l : Ptem) →
        ptem_puts here (map_message f m) l ≡ map_acted f (λ (q : Ptem). q) (ptem_puts here m l) }
{}

/// What ptem sends is within its table, by which budgets are reckoned.
pub fn ptem_keeps_its_table<C>()
    ensures { (here : Spot) (m : Message C) (l : Ptem) →
        Within (ptem_puts here m l).sent (emits_at here (ptem_does here.way (shape_of m))) }
{}
