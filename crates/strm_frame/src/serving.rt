//! Turns of the modules' queues on a stream (srv(9E); STREAMS Programming Guide, "Service Procedures"). The layer above asks
//! what the first message asks, and whether there is room past the place; it serves, delivers what was sent, and ends the
//! turn.

ghost use Rattle.std.specs.Prelude.{◌≡◌, ◌<◌, ◌≤◌, ◌-◌, true, false, length, map, slice_index_or, HoldsAt};
ghost use Rattle.strm_types.specs.declared.limits.TheConstants.{MODULES};
ghost use Rattle.strm_types.specs.declared.spots.Asks.TheVariants.{Empty};
ghost use Rattle.strm_types.specs.Modules.{change_among};
ghost use Rattle.strm_types.specs.ModuleQueues.{at_place};
ghost use Rattle.strm_types.specs.Standings.{HoldsOfPart, of_part, messages_at, queue_changed};
ghost use Rattle.strm_types.specs.Service.{turn_ended, end_relieves, has_more};
ghost use Rattle.strm_types.specs.Queue.{first_size};
ghost use Rattle.strm_frame.specs.Does.{EndsTurn, Serves};
ghost use Rattle.strm_frame.specs.Standings.{Fits, keeps_of, owns, standing_in};
ghost use Rattle.strm_frame.specs.Hands.{AreIn, HasRoom, IsWide};
ghost use Rattle.strm_frame.specs.Serves.{served_among, stop_of};
ghost use Rattle.strm_frame.specs.Stacks.{all_in, all_of, AreHeld};

use crate::modules::{Module, Procedures};
use crate::service::{Served, TurnEnd};
use crate::stack::Stack;
use crate::standing::Standing;
use strm_blocks::Blocks;
use strm_types::{Asks, Fates, Spot, Way};

// What the first message asks, of one of several modules, counted from 0.
fn asks_among<W, B: Blocks, M: Procedures<W>>(
    store: &B,
    modules: &[Standing<M>],
    at: usize,
    way: Way,
) -> Asks
    requires within { at < length modules.now }
    requires held { AreHeld (Fits M.IsHeld) owns (B.value store.now) modules.now }
    ensures asks { result ≡ slice_index_or (map (M.asks M.by way) (map (standing_in M.plain (B.value store.now)) modules.now)) at Empty }
    ensures few { slice_index_or (map (λ p. first_size (messages_at way p))
        (map (standing_in M.plain (B.value store.now)) modules.now)) at 0 ≤ 16777216 }
{
    modules[at].asks::<W, B>(store, way)
}

// Ends a turn, of one of several modules, counted from 0.
fn end_turn_among<B: Blocks, M: Module>(
    store: &B,
    modules: &mut [Standing<M>],
    at: usize,
    way: Way,
    took: bool,
) -> TurnEnd
    requires within { at < length modules.old }
    requires held { AreHeld (Fits M.IsHeld) owns (B.value store.now) modules.old }
    ensures length { length modules.new ≡ length modules.old }
    ensures does { let s = B.value store.now in let ps = all_in (standing_in M.plain) s modules.old in
        EndsTurn (all_in (standing_in M.plain)) (AreHeld (Fits M.IsHeld) owns) (all_of owns) (all_of (keeps_of M.keeps)) s modules.old modules.new
        result
        (slice_index_or (map (end_relieves took way) ps) at false) (slice_index_or (map (has_more way) ps) at false)
        (change_among (queue_changed way (turn_ended took)) at ps) }
{
    modules[at].end_turn(store, way, took)
}

// Treats the first message, of one of several modules, counted from 0.
fn serve_among<W, B: Blocks, M: Procedures<W>>(
    store: &mut B,
    modules: &mut [Standing<M>],
    at: usize,
    here: Spot,
    again: bool,
    told: &mut Fates,
) -> Served
    requires within { at < length modules.old }
    requires held { AreHeld (Fits M.IsHeld) owns (B.value store.old) modules.old }
    requires turn { HoldsAt (HoldsOfPart (M.MayServe here.way again)) (map (standing_in M.plain (B.value store.old)) modules.old) at }
    requires kept { AreIn (B.value store.old) (λ _. 0) (all_of (keeps_of M.keeps) modules.old) }
    requires room { HasRoom (B.value store.old) (slice_index_or (map (of_part (M.turn_cost here again))
        (map (standing_in M.plain (B.value store.old)) modules.old)) at 0) }
    requires wide { IsWide M.wide (B.value store.old) }
    requires inside { 0 < here.at }
    requires small { here.at ≤ MODULES }
    ensures length { length modules.new ≡ length modules.old }
    ensures does { let s = B.value store.old in
        Serves (all_in (standing_in M.plain)) (AreHeld (Fits M.IsHeld) owns) (all_of owns) (all_of (keeps_of M.keeps))
        (λ ps. slice_index_or (map (of_part (M.turn_cost here true)) ps) at 0) (λ bytes ps. HoldsAt (M.MayStop here.way again bytes) ps at)
        s (B.value store.new) modules.old modules.new result told.old told.new
        (served_among (M.serves M.by here again (stop_of result)) at (all_in (standing_in M.plain) s modules.old)) }
{
    store.audit();
    modules[at].serve::<W, B>(store, here, again, told)
}

impl<M: Module + Default> Stack<M> {
    /// What the first message asks of a module's queue of a way, at a place.
    pub fn asks<W, B: Blocks>(&self, store: &B, place: usize, way: Way) -> Asks
    where
        M: Procedures<W>,
        requires inside { 0 < place }
        requires within { place ≤ length self.now.modules.items }
        requires held { AreHeld (Fits M.IsHeld) owns (B.value store.now) self.now.modules.items }
        ensures asks { result ≡ at_place (M.asks M.by way) Empty place
            (map (standing_in M.plain (B.value store.now)) self.now.modules.items) }
        ensures few { at_place (λ p. first_size (messages_at way p)) 0 place
            (map (standing_in M.plain (B.value store.now)) self.now.modules.items) ≤ 16777216 }
    {
        asks_among::<W, B, M>(store, self.modules.as_slice(), place - 1, way)
    }

    /// Calls the service procedure of a module's queue, at a place: `srv(9E)`. `again` is for one more call in the same turn,
    /// once all is delivered that the last one sent. It is called so only where the last call asked for that, and for the first
    /// time in a turn only where nothing of a turn is under way in the module. It may stop within its message only where fewer
    /// than `STOP_BLOCKS` blocks of some kind are left.
    pub fn serve<W, B: Blocks>(
        &mut self,
        store: &mut B,
        here: Spot,
        again: bool,
        told: &mut Fates,
    ) -> Served
    where
        M: Procedures<W>,
        requires inside { 0 < here.at }
        requires within { here.at ≤ length self.old.modules.items }
        requires held { AreHeld (Fits M.IsHeld) owns (B.value store.old) self.old.modules.items }
        requires turn { HoldsAt (HoldsOfPart (M.MayServe here.way again))
            (map (standing_in M.plain (B.value store.old)) self.old.modules.items) (here.at - 1) }
        requires kept { AreIn (B.value store.old) (λ _. 0) (all_of (keeps_of M.keeps) self.old.modules.items) }
        requires room { HasRoom (B.value store.old) (at_place (of_part (M.turn_cost here again)) 0 here.at
            (map (standing_in M.plain (B.value store.old)) self.old.modules.items)) }
        requires wide { IsWide M.wide (B.value store.old) }
        ensures length { length self.new.modules.items ≡ length self.old.modules.items }
        ensures does { let s = B.value store.old in let xs = self.old.modules.items in
            Serves (all_in (standing_in M.plain)) (AreHeld (Fits M.IsHeld) owns) (all_of owns) (all_of (keeps_of M.keeps))
            (at_place (of_part (M.turn_cost here true)) 0 here.at) (λ bytes ps. HoldsAt (M.MayStop here.way again bytes) ps (here.at - 1))
            s (B.value store.new) xs self.new.modules.items result told.old told.new
            (served_among (M.serves M.by here again (stop_of result)) (here.at - 1) (all_in (standing_in M.plain) s xs)) }
    {
        serve_among::<W, B, M>(
            store,
            self.modules.as_mut_slice(),
            here.at as usize - 1,
            here,
            again,
            told,
        )
    }

    /// Ends a turn of a module's queue of a way, at a place, when all is delivered that was sent. `took` says whether bytes
    /// were taken from it.
    pub fn end_turn<B: Blocks>(&mut self, store: &B, place: usize, way: Way, took: bool) -> TurnEnd
        requires inside { 0 < place }
        requires within { place ≤ length self.old.modules.items }
        requires held { AreHeld (Fits M.IsHeld) owns (B.value store.now) self.old.modules.items }
        ensures length { length self.new.modules.items ≡ length self.old.modules.items }
        ensures does { let s = B.value store.now in let xs = self.old.modules.items in let ps = all_in (standing_in M.plain) s xs in
            EndsTurn (all_in (standing_in M.plain)) (AreHeld (Fits M.IsHeld) owns) (all_of owns) (all_of (keeps_of M.keeps)) s xs
            self.new.modules.items result
            (at_place (end_relieves took way) false place ps) (at_place (has_more way) false place ps)
            (change_among (queue_changed way (turn_ended took)) (place - 1) ps) }
    {
        end_turn_among(store, self.modules.as_mut_slice(), place - 1, way, took)
    }
}
