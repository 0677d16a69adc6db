//! Turns of the queues of modules (srv(9E); STREAMS Programming Guide, "Service Procedures", "Flow Control"). Places count from the
//! head's, 0, over the modules from the top, to the driver's.

ghost use Rattle.std.specs.Prelude.{ℕ, ◌≡◌, ◌≤◌, ◌<◌, length, false};
ghost use Rattle.strm_types.specs.declared.limits.TheConstants.{STOP_BLOCKS};
ghost use Rattle.strm_types.specs.declared.names.ModuleName.{ModuleName};
ghost use Rattle.strm_types.specs.declared.names.Place.TheVariants.{Module};
ghost use Rattle.strm_types.specs.Cells.{plain};
ghost use Rattle.strm_types.specs.ModuleQueues.{at_place};
ghost use Rattle.strm_laws.specs.Ledgers.{FewBooked};
ghost use Rattle.strm_laws.specs.ModuleTurns.{module_turn_ended, module_turned, place_named, queue_ended, stayed_at};
ghost use Rattle.strm_laws.specs.Pair.{MovesOn};
ghost use Rattle.strm_types.specs.Service.{end_relieves, has_more};
ghost use Rattle.strm_laws.specs.State.{stream, with_stream};
ghost use Rattle.strm_blocks.specs.Blocks.{StoreValue};
ghost use Rattle.strm_frame.specs.Hands.{IsWide};
ghost use Rattle.strm_pair.specs.declared.module_turns.Begun.TheVariants.{Over};
ghost use Rattle.strm_pair.specs.ModuleTurned.{BeginsAs};

use crate::named_queues::place_named;
use crate::streams::Streams;
use strm_blocks::Blocks;
use strm_frame::TurnEnd;
use strm_own::OwnModule;
use strm_types::{Asks, Fates, Place, QueueName, Side, Spot, Turn};

/// What a turn of a module's queue begins with: it is over, with this answer, or the module at a place may serve.
#[derive(Clone, Copy)]
pub(crate) enum Begun {
    Over(Turn),
    Serves(Spot),
}

impl Streams {
    ghost use Rattle.strm_laws.specs.Restorable.{IsThere};
    ghost use Rattle.strm_laws.specs.StackCosts.{stands_of};
    ghost use Rattle.strm_pair.specs.Effects.{AreAtRest, Leads, MayDeliver};
    ghost use Rattle.strm_pair.specs.Enabling.{AreFewEnabled};
    ghost use Rattle.strm_pair.specs.Pairs.{free_in, state_in, AreBeside, AreHeld, kept_by};

    /// The place of the module on a side's stream whose queues have a name.
    pub(crate) fn module_named(&self, side: Side, name: Place) -> Option<usize>
        ensures { (s : StoreValue) → result ≡ place_named name (stream side (state_in s self.now)).modules }
    {
        place_named(&self.end(side).stack, name)
    }

    // The queue of the module at a place comes to the end of a turn, in which bytes were taken of it or not.
    fn end_queue<B: Blocks>(&mut self, store: &B, here: Spot, took: bool) -> TurnEnd
        requires beside { AreBeside (B.value store.now) self.old }
        requires inside { 0 < here.at }
        requires within { here.at ≤ length (stream here.side (state_in (B.value store.now) self.old)).modules }
        ensures state { let s = state_in (B.value store.now) self.old in state_in (B.value store.now) self.new
            ≡ with_stream here.side (queue_ended here took (stream here.side s)) s }
        ensures room { result.room ≡ at_place (end_relieves took here.way) false here.at
            (stream here.side (state_in (B.value store.now) self.old)).modules }
        ensures more { result.more ≡ at_place (has_more here.way) false here.at
            (stream here.side (state_in (B.value store.now) self.old)).modules }
        ensures beside { AreBeside (B.value store.now) self.new }
        ensures keeps { (i : ℕ) → kept_by self.new i ≡ kept_by self.old i }
    {
        self.ends
            .get_mut(here.side)
            .stack
            .end_turn(store, here.at as usize, here.way, took)
    }

    // A turn that treats nothing is over: the queue wants to be read where it is empty, and else it doesn't.
    fn stay<B: Blocks>(&mut self, store: &B, here: Spot, turn: Turn) -> Begun
        requires held { AreHeld (B.value store.now) self.old }
        requires inside { 0 < here.at }
        requires within { here.at ≤ length (stream here.side (state_in (B.value store.now) self.old)).modules }
        ensures over { result ≡ Over turn }
        ensures state { state_in (B.value store.now) self.new
            ≡ (stayed_at turn here (state_in (B.value store.now) self.old)).state }
        ensures held { AreHeld (B.value store.now) self.new }
    {
        self.end_queue(store, here, false);
        Begun::Over(turn)
    }

    /// Begins a turn of a module's queue, which is off the list of enabled queues. Where no module has such a queue, or nothing stands
    /// there, the turn is over as an idle one; where its first message may not go on, as a blocked one, and a writer waits for room
    /// where that is what it asks for. Nothing of a turn is under way.
    pub(crate) fn begin_module_turn<B: Blocks, M: OwnModule>(
        &mut self,
        store: &B,
        name: QueueName,
    ) -> Begun
        requires { AreAtRest (B.value store.now) self.old }
        ensures begins { BeginsAs M.does (state_in (B.value store.now) self.old) (state_in (B.value store.now) self.new)
            name result }
        ensures held { AreHeld (B.value store.now) self.new }
    {
        let Some(at) = self.module_named(name.side, name.place) else {
            return Begun::Over(Turn::Idle);
        };
        let here = Spot {
            side: name.side,
            at: at as u8,
            way: name.way,
        };
        match self.end(name.side).stack.asks::<M, B>(store, at, name.way) {
            Asks::Empty => self.stay(store, here, Turn::Idle),
            Asks::Held => self.stay(store, here, Turn::Blocked),
            Asks::Free => Begun::Serves(here),
            Asks::Room(band) => {
                if self.has_room_past(store, name.side, name.way, at, band) {
                    return Begun::Serves(here);
                }
                self.wait_past(name.side, name.way, at, band);
                self.stay(store, here, Turn::Blocked)
            }
        }
    }

    // The end of a turn in which messages were treated.
    fn end_module_turn<B: Blocks>(&mut self, store: &B, name: QueueName, here: Spot, took: bool)
        requires beside { AreBeside (B.value store.now) self.old }
        requires enabled { AreFewEnabled (state_in (B.value store.now) self.old) }
        requires there { IsThere (stands_of (state_in (B.value store.now) self.old)) name }
        requires inside { 0 < here.at }
        requires within { here.at ≤ length (stream here.side (state_in (B.value store.now) self.old)).modules }
        ensures state { state_in (B.value store.now) self.new
            ≡ module_turn_ended name here took (state_in (B.value store.now) self.old) }
        ensures beside { AreBeside (B.value store.now) self.new }
        ensures keeps { (i : ℕ) → kept_by self.new i ≡ kept_by self.old i }
    {
        let end = self.end_queue(store, here, took);
        self.let_go(here.side, here.way, here.at as usize, end.room);
        self.enabled.enable_if(end.more, name);
    }

    /// A turn of a module's queue, which is off the list of enabled queues: its first message is treated, as far as the blocks that are
    /// free allow and for a byte at least where it has any, unless it may not go on.
    pub(crate) fn turn_module<B: Blocks, M: OwnModule>(
        &mut self,
        store: &mut B,
        name: QueueName,
        told: &mut Fates,
    ) -> Turn
        requires may { MayDeliver (B.value store.old) self.old STOP_BLOCKS }
        requires wide { IsWide M.wide (B.value store.old) }
        ensures turn { result ≡ (module_turned M.does plain name result (state_in (B.value store.old) self.old)).turn }
        ensures leads { let s = B.value store.old in let is = module_turned M.does plain name result (state_in s self.old) in
            Leads s (B.value store.new) self.new told.old told.new is.state is.gone }
        ensures few { FewBooked (state_in (B.value store.new) self.new) }
        ensures stops { (owner : ModuleName) → name.place ≡ Module owner →
            MovesOn (state_in (B.value store.old) self.old) (free_in (B.value store.new)) name result }
    {
        match self.begin_module_turn::<B, M>(store, name) {
            Begun::Over(turn) => turn,
            Begun::Serves(here) => {
                let bytes = self.call_on::<B, M>(store, here, told);
                self.end_module_turn(store, name, here, bytes > 0);
                Turn::Moved(bytes as u32)
            }
        }
    }
}
