//! A turn of a driver: what goes from it up the other side's stream (STREAMS Programming Guide, "Service Procedures").

ghost use Rattle.std.specs.Prelude.{◌≡◌, ◌&&◌, [], not, false, MatchOption};
ghost use Rattle.strm_types.specs.declared.names.Way.TheVariants.{Up};
ghost use Rattle.strm_types.specs.Cells.{plain};
ghost use Rattle.strm_laws.specs.Earlier.{driver_place};
ghost use Rattle.strm_types.specs.Message.{is_held};
ghost use Rattle.strm_laws.specs.Past.{has_room_past};
ghost use Rattle.strm_laws.specs.Turns.{driver_turned, turn_ended, with_driver};
ghost use Rattle.strm_types.specs.Queue.{is_none_left};
ghost use Rattle.strm_laws.specs.State.{stream};
ghost use Rattle.strm_frame.specs.Hands.{IsWide};
ghost use Rattle.strm_queue.specs.Stored.{messages_on, queue_in, IsReady};
ghost use Rattle.strm_pty.specs.Does.{OnlyQueue};
ghost use Rattle.strm_pair.specs.Took.{settled, settling_relieves, TookFirst, MovesAcross};

use crate::streams::Streams;
use strm_blocks::{Blocks, InHand};
use strm_frame::TurnEnd;
use strm_msg::message_size;
use strm_own::OwnModule;
use strm_queue::Queue;
use strm_queue::standing::{dequeue, relieve};
use strm_types::{Band, Fates, MsgKind, Side, Spot, Turn, Way};

// A queue from which a turn took a message of this size, once what came of that is done: it wants to be read where nothing is
// left, and where bytes went its waiting writers are let go.
fn settle<B: Blocks>(store: &B, queue: &mut Queue, size: usize) -> TurnEnd
    requires { IsReady (B.value store.now) queue.old }
    ensures queue { queue_in (B.value store.now) queue.new ≡ settled size (queue_in (B.value store.now) queue.old) }
    ensures room { result.room ≡ settling_relieves size (queue_in (B.value store.now) queue.old) }
    ensures more { result.more ≡ not (is_none_left (messages_on (B.value store.now) queue.old.list)) }
    ensures only { OnlyQueue (B.value store.now) (B.value store.now) queue.old queue.new }
{
    let is_empty = queue.is_empty(store);
    let more = !is_empty;
    queue.want_read = queue.want_read || is_empty;
    if size == 0 {
        return TurnEnd { room: false, more };
    }
    TurnEnd {
        room: relieve(queue),
        more,
    }
}

impl Streams {
    ghost use Rattle.strm_blocks.specs.Blocks.{token};
    ghost use Rattle.strm_pair.specs.Effects.{AreAtRest, Becomes, Delivers, MayDeliver};
    ghost use Rattle.strm_pair.specs.Enabling.{AreFewEnabled};
    ghost use Rattle.strm_pair.specs.Pairs.{state_in, end_at, AreBeside, AreHeld};

    // Takes the first message off the queue of a side's driver.
    fn take_first<B: Blocks>(&mut self, store: &mut B, side: Side) -> Option<InHand>
        requires { AreAtRest (B.value store.old) self.old }
        ensures { MatchOption result
            (messages_on (B.value store.old) (end_at side self.old).driver.list ≡ [])
            (λ m. TookFirst side (B.value store.old) (B.value store.new) self.old self.new (token m)) }
    {
        dequeue(store, &mut self.ends.get_mut(side).driver)
    }

    // The end of a turn that took a message of this size off the queue of a side's driver.
    fn end_turn<B: Blocks>(&mut self, store: &B, side: Side, size: usize)
        requires held { AreHeld (B.value store.now) self.old }
        requires enabled { AreFewEnabled (state_in (B.value store.now) self.old) }
        ensures state { state_in (B.value store.now) self.new ≡ turn_ended side size (state_in (B.value store.now) self.old) }
        ensures held { AreHeld (B.value store.now) self.new }
    {
        let end = settle(store, &mut self.ends.get_mut(side).driver, size);
        let at = self.driver_place(side);
        self.let_go(side, Way::Down, at, end.room);
        self.enabled.enable_if(end.more, side.driver());
    }

    // A driver's first message goes up the other side's stream, with all that it gives rise to.
    fn move_across<B: Blocks, M: OwnModule>(
        &mut self,
        store: &mut B,
        side: Side,
        told: &mut Fates,
    ) -> Turn
        requires may { MayDeliver (B.value store.old) self.old 8 }
        requires some { is_none_left (messages_on (B.value store.old) (end_at side self.old).driver.list) ≡ false }
        requires wide { IsWide M.wide (B.value store.old) }
        ensures { MovesAcross M.does side (B.value store.old) (B.value store.new) self.old self.new result told.old told.new }
    {
        let Some(message) = self.take_first(store, side) else {
            return Turn::Idle;
        };
        store.audit();
        // Asked first: behind its delivery the message is another's, or gone.
        let size = message_size(store, &message);
        let above = side.other();
        let at = self.modules_on(above);
        let up = Spot {
            side: above,
            at: at as u8,
            way: Way::Up,
        };
        self.deliver_alone::<B, M>(store, up, message, told);
        // Behind the delivery: this queue, and the one that is let go, are enabled behind all that the message has enabled.
        self.end_turn(store, side, size);
        Turn::Moved(size as u32)
    }

    // A driver's queue keeps what it has, and wants to be read or not.
    fn keep(&mut self, side: Side, want_read: bool)
        ensures { Becomes self.old self.new
            (λ st. with_driver side (record (stream side st).driver.queue { want_read = want_read }) st) }
    {
        self.ends.get_mut(side).driver.want_read = want_read;
    }

    // Whether flow control stops a message of this kind and band at the nearest queue past a side's driver, on the way up.
    fn is_stopped<B: Blocks>(&self, store: &B, side: Side, kind: MsgKind, band: Band) -> bool
        requires beside { AreBeside (B.value store.now) self.now }
        ensures { let st = state_in (B.value store.now) self.now in
            result ≡ (is_held kind && not (has_room_past side Up (driver_place side st) band.0 st)) }
    {
        let at = self.driver_place(side);
        kind.is_held() && !self.has_room_past(store, side, Way::Up, at, band)
    }

    /// A turn of a side's driver, which is off the list of enabled queues: its first message goes up the other side's stream,
    /// unless that isn't open or the next queue there is full.
    pub(crate) fn turn_driver<B: Blocks, M: OwnModule>(
        &mut self,
        store: &mut B,
        side: Side,
        told: &mut Fates,
    ) -> Turn
        requires may { MayDeliver (B.value store.old) self.old 8 }
        requires wide { IsWide M.wide (B.value store.old) }
        ensures turn { result ≡ (driver_turned M.does plain side (state_in (B.value store.old) self.old)).turn }
        ensures delivers { let s = B.value store.old in let is = driver_turned M.does plain side (state_in s self.old) in
            Delivers s (B.value store.new) self.old self.new told.old told.new is.state is.gone 8 }
    {
        let Some(first) = store.peek(self.end(side).driver.list) else {
            self.keep(side, true);
            return Turn::Idle;
        };
        let above = side.other();
        let across = self.end(above);
        if !across.opened.is_open() {
            self.keep(side, false);
            return Turn::Blocked;
        }
        if self.is_stopped(store, above, first.kind, first.band) {
            self.keep(side, false);
            let at = self.driver_place(above);
            self.wait_past(above, Way::Up, at, first.band);
            return Turn::Blocked;
        }
        self.move_across::<B, M>(store, side, told)
    }
}
