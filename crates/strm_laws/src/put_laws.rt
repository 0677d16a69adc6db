//! What follows from the definitions of puts in a pair (STREAMS Programming Guide, "Put Procedures"): at its heads, at its
//! drivers, and at places where nothing stands. Each law is the contract of a function that does nothing, and holds of bytes and
//! of bytes with their origin alike.

ghost use Rattle.std.specs.Prelude.{◌≡◌, ◌<◌, ◌≤◌, ◌+◌, Bool, List, count_by, map, take, true, false};
ghost use Rattle.strm_types.specs.declared.limits.TheConstants.{HOPS};
ghost use Rattle.strm_types.specs.declared.names.Side.{Side};
ghost use Rattle.strm_types.specs.declared.names.Way.TheVariants.{Down};
ghost use Rattle.strm_types.specs.declared.spots.Across.{Across};
ghost use Rattle.strm_types.specs.declared.spots.Spot.{Spot};
ghost use Rattle.strm_types.specs.declared.names.Dir.{Dir};
ghost use Rattle.strm_types.specs.Cells.{AreCells, Cells, plain};
ghost use Rattle.strm_types.specs.Budgets.{Costed, beyond, budget, most};
ghost use Rattle.strm_types.specs.Drivers.{driver_put};
ghost use Rattle.strm_laws.specs.Behaviours.{MayTestOwn};
ghost use Rattle.strm_laws.specs.Earlier.{NoModules};
ghost use Rattle.strm_types.specs.Heads.{head_put, Head};
ghost use Rattle.strm_laws.specs.Kept.{NothingUnread, state_weight};
ghost use Rattle.strm_types.specs.Message.{Message, has_parts};
ghost use Rattle.strm_types.specs.Names.{is_closed, direction_from};
ghost use Rattle.strm_types.specs.Origins.{PutsAgree};
ghost use Rattle.strm_laws.specs.Places.{PutKeeps, weight_gone, weight_made};
ghost use Rattle.strm_laws.specs.PutEffect.{put_effect};
ghost use Rattle.strm_laws.specs.Puts.{SameButMade, delivered, put_in};
ghost use Rattle.strm_laws.specs.SideCosts.{costs};
ghost use Rattle.strm_laws.specs.StackCosts.{StandOnce, Stands, stands_of};
ghost use Rattle.strm_types.specs.Shapes.{At};
ghost use Rattle.strm_types.specs.Queue.{Queue};
ghost use Rattle.strm_laws.specs.State.{State, map_state};
ghost use Rattle.strm_laws.specs.Writes.{cells_sent, map_wrote};

use crate::behaviours::Behaves;

/// A put sends on no more than the tables say of what stands there, wherever that is, and no put changes which modules stand. By these a
/// delivery ends from any spot, whatever modules stand on the streams; and where each stands on a side once at most it takes few blocks.
pub fn puts_keep_budgets<C, K: Behaves>()
    ensures within { (cells : Cells C) → Costed (λ (s : State C). costs (stands_of s)) (put_in K.does cells) }
    ensures ends { (all : Stands) (a : At) → budget (costs all) HOPS a < beyond }
    ensures few { (all : Stands) → StandOnce all → (a : At) → budget (costs all) HOPS a ≤ most a }
{}

/// No put loses a cell, or makes one that it doesn't tell: of any cells, those stand on the queues, are sent on, or have gone by a
/// rule that stood there before, came with the message, or were made. Where modules of a user's own change bytes, the cells are told apart by what
/// stays of them.
pub fn puts_keep_cells<C, K: Behaves>()
    ensures { (p : Dir → C → Bool) (cells : Cells C) → MayTestOwn K.does cells p → PutKeeps p (state_weight p) (put_in K.does cells) }
{}

/// Neither a head nor a driver makes a cell: only modules do.
pub fn ends_make_nothing<C>()
    ensures head { (p : Dir → C → Bool) (here : Spot) (m : Message C) (h : Head C) → weight_made p (head_put here m h).gone ≡ 0 }
    ensures driver { (p : Dir → C → Bool) (side : Side) (across : Across) (here : Spot) (m : Message C) (q : Queue C) →
        weight_made p (driver_put side across here m q).gone ≡ 0 }
{}

/// Puts do the same to cells and to their bytes, where their origins are forgotten and cells have the bytes that they were given.
pub fn puts_forget_origins<C, K: Behaves>()
    ensures { (cells : Cells C) → AreCells cells → PutsAgree cells.byte (map_state cells.byte) (put_in K.does cells) (put_in K.does plain) }
{}

/// No delivery opens or closes a side, unlocks the slave, numbers an ioctl or books a byte as written, and a side that isn't open has
/// nothing for its readers behind one, where it had nothing before.
pub fn deliveries_leave_the_ends<C, K: Behaves>()
    ensures same { (cells : Cells C) (to : Spot) (m : Message C) (s : State C) → SameButMade s (delivered K.does cells to m s).state }
    ensures unread { (cells : Cells C) (to : Spot) (m : Message C) (s : State C) → NothingUnread s →
        NothingUnread (delivered K.does cells to m s).state }
{}

/// Where no module stands on a pair's streams, a message with parts that goes down from a head, as that of a putmsg(2), is put on the
/// driver's queue, which is enabled as putq(9F) has it. Nothing else changes and nothing goes. Its premise is that the master
/// isn't closed, as then nothing crosses any more.
pub fn puts_stand_at_the_driver<C, K: Behaves>()
    ensures { (cells : Cells C) (side : Side) (m : Message C) (s : State C) → has_parts m ≡ true → is_closed s.ends.master.opened ≡ false → NoModules s →
        delivered K.does cells (record { side = side; at = 1; way = Down }) m s ≡ put_effect side m s }
{}

/// Chunks of a write that are delivered one after the other lose no cell, and make none but what is told: of any cells, those stand
/// on the queues or have gone by a rule that stood there before, were taken, or were made; told apart as in puts.
pub fn writes_keep_cells<C, K: Behaves>()
    ensures { (p : Dir → C → Bool) (cells : Cells C) (side : Side) (xs : List C) (s : State C) → MayTestOwn K.does cells p →
        let t = cells_sent K.does cells side xs s in
        state_weight p t.state + weight_gone p t.gone ≡
        state_weight p s + (count_by (p (direction_from side)) (take t.taken xs) + weight_made p t.gone) }
{}

/// They do the same to cells and to their bytes.
pub fn writes_forget_origins<C, K: Behaves>()
    ensures { (cells : Cells C) (side : Side) (xs : List C) (s : State C) → AreCells cells →
        cells_sent K.does plain side (map cells.byte xs) (map_state cells.byte s) ≡ map_wrote cells.byte (cells_sent K.does cells side xs s) }
{}
