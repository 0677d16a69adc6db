//! Flushes and closes of a side's stream (streamio(7I): I_FLUSH; close(2); STREAMS Programming Guide, "Flush Handling").

ghost use Rattle.std.specs.Prelude.{◌≡◌, []};
ghost use Rattle.strm_types.specs.declared.answers.Answer.TheVariants.{Done};
ghost use Rattle.strm_types.specs.declared.rules.Rule.TheVariants.{EndClosed};
ghost use Rattle.strm_types.specs.Cells.{plain};
ghost use Rattle.strm_laws.specs.Closes.{head_emptied, driver_emptied, ended, hung_up_at, closed_at};
ghost use Rattle.strm_types.specs.Emptied.{of_all};
ghost use Rattle.strm_laws.specs.Puts.{flushed_on};
ghost use Rattle.strm_laws.specs.StackCosts.{stands_of};
ghost use Rattle.strm_frame.specs.Hands.{IsWide};
ghost use Rattle.strm_pair.specs.Shelves.{IsStocked};

use crate::shelves::Shelf;
use crate::streams::Streams;
use strm_blocks::Blocks;
use strm_frame::clear_queue;
use strm_head::make_flush;
use strm_own::OwnModule;
use strm_types::{Answer, Band, Fates, FlushAsked, FlushQueues, Rule, Side, Spot, Way};

impl Streams {
    ghost use Rattle.strm_types.specs.declared.names.Side.TheVariants.{Slave};
    ghost use Rattle.strm_pair.specs.Effects.{AreAtRest, Becomes, Delivers, Leads, MayDeliver};
    ghost use Rattle.strm_pair.specs.Enabling.{AreFewEnabled};
    ghost use Rattle.strm_pair.specs.Pairs.{state_in, AreHeld};

    /// Flushes a side's stream: an M_FLUSH goes down from its head, with all that it gives rise to.
    #[inline(never)]
    pub fn flush<B: Blocks, M: OwnModule>(
        &mut self,
        store: &mut B,
        side: Side,
        what: FlushQueues,
        band: Option<Band>,
        told: &mut Fates,
    ) -> Answer<u32>
        requires may { MayDeliver (B.value store.old) self.old 6 }
        requires wide { IsWide M.wide (B.value store.old) }
        ensures answer { result ≡ Done }
        ensures delivers { let s = B.value store.old in let is = flushed_on M.does plain band side what (state_in s self.old) in
            Delivers s (B.value store.new) self.old self.new told.old told.new is.state is.gone 5 }
    {
        let message = make_flush(store, FlushAsked::of(what, band));
        let below = Spot {
            side,
            at: 1,
            way: Way::Down,
        };
        self.deliver_alone::<B, M>(store, below, message, told);
        Answer::Done
    }

    // Lets all go that stands at a side's head.
    fn clear_head<B: Blocks>(&mut self, store: &mut B, side: Side, told: &mut Fates)
        requires held { AreHeld (B.value store.old) self.old }
        requires enabled { AreFewEnabled (state_in (B.value store.old) self.old) }
        ensures { let s = B.value store.old in let is = head_emptied EndClosed of_all side (state_in s self.old) in
            Leads s (B.value store.new) self.new told.old told.new is.state is.gone }
    {
        let direction = side.head().direction();
        let gone = clear_queue(
            store,
            &mut self.ends.get_mut(side).head.queue,
            None,
            direction,
            Rule::EndClosed,
            told,
        );
        self.let_go(side, Way::Up, 0, gone.room);
    }

    // Lets all go that stands at a side's driver.
    fn clear_driver<B: Blocks>(&mut self, store: &mut B, side: Side, told: &mut Fates)
        requires held { AreHeld (B.value store.old) self.old }
        requires enabled { AreFewEnabled (state_in (B.value store.old) self.old) }
        ensures { let s = B.value store.old in let is = driver_emptied EndClosed of_all side (state_in s self.old) in
            Leads s (B.value store.new) self.new told.old told.new is.state is.gone }
    {
        let direction = side.driver().direction();
        let at = self.driver_place(side);
        let gone = clear_queue(
            store,
            &mut self.ends.get_mut(side).driver,
            None,
            direction,
            Rule::EndClosed,
            told,
        );
        self.let_go(side, Way::Down, at, gone.room);
    }

    // A side is closed, with a head as new.
    fn end_side<B: Blocks>(&mut self, store: &mut B, side: Side)
        requires { AreHeld (B.value store.old) self.old }
        ensures { (told : Fates) → let s = B.value store.old in
            Leads s (B.value store.new) self.new told told (ended side (state_in s self.old)) [] }
    {
        self.ends.get_mut(side).close(store);
    }

    // An M_HANGUP goes up the slave's stream, where that is open.
    fn hang_up(&mut self)
        ensures { Becomes self.old self.new (hung_up_at Slave) }
    {
        if self.ends.slave.opened.is_open() {
            self.ends.slave.head.hung_up = true;
        }
    }

    /// Closes a side. What stands for its readers goes, then its modules from the top with all that they have, and with the
    /// master what both drivers have; the slave's driver keeps what it has for the master. The slave is hung up where the master goes.
    #[inline(never)]
    pub fn shut<B: Blocks, M: OwnModule>(
        &mut self,
        shelf: &mut Shelf,
        store: &mut B,
        side: Side,
        told: &mut Fates,
    ) -> Answer<u32>
        requires rests { AreAtRest (B.value store.old) self.old }
        requires stocked { IsStocked M.queued shelf.old (stands_of (state_in (B.value store.old) self.old)) }
        ensures stocked { IsStocked M.queued shelf.new (stands_of (state_in (B.value store.new) self.new)) }
        ensures answer { result ≡ Done }
        ensures leads { let s = B.value store.old in let is = closed_at side (state_in s self.old) in
            Leads s (B.value store.new) self.new told.old told.new is.state is.gone }
    {
        // From the top: what is let go by a queue that is emptied is the next one's, which then goes, and its turn with it.
        self.clear_head(store, side, told);
        self.clear_modules(shelf, store, side, Rule::EndClosed, told);
        match side {
            Side::Master => {
                // Behind the modules: nothing of the master's stream waits for its driver any more, but the slave's may for that one's.
                self.clear_driver(store, Side::Master, told);
                self.clear_driver(store, Side::Slave, told);
                // A head becomes as new once nothing stands there.
                self.end_side(store, Side::Master);
                // The slave hears last that the master has gone.
                self.hang_up();
                Answer::Done
            }
            Side::Slave => {
                self.end_side(store, Side::Slave);
                Answer::Done
            }
        }
    }
}
