//! Room past a place of a side's stream: the nearest queue there is a module's, or else the one at the stream's end (canputnext(9F),
//! bcanput(9F); STREAMS Programming Guide, "Flow Control"). Places count from the head's, 0, over the modules from the top, to the
//! driver's.

ghost use Rattle.std.specs.Prelude.{ℕ, ◌≡◌, ◌<◌};
ghost use Rattle.strm_types.specs.ModuleQueues.{place_past, with_waiting};
ghost use Rattle.strm_laws.specs.Past.{end_queue, has_room_past, may_pass, waits_on, with_end_queue, writer_waits};
ghost use Rattle.strm_types.specs.Queue.{is_full};
ghost use Rattle.strm_laws.specs.Writes.{is_full_below};
ghost use Rattle.strm_blocks.specs.Blocks.{StoreValue};
ghost use Rattle.strm_queue.specs.Stored.{IsReady};
ghost use Rattle.strm_pair.specs.Streams.{IsSide, stream_in};
ghost use Rattle.strm_pair.specs.Stacks.{IsStackHeld};

use crate::ends::StreamEnd;
use crate::streams::Streams;
use strm_blocks::Blocks;
use strm_queue::standing::is_full;
use strm_types::{Band, Side, Way};

impl StreamEnd {
    // Whether a band is full of the queue at the end of a way: the head's, and the driver's.
    fn is_end_full<B: Blocks>(&self, store: &B, way: Way, band: Band) -> bool
        requires head { IsReady (B.value store.now) self.now.head.queue }
        requires driver { IsReady (B.value store.now) self.now.driver }
        ensures { result ≡ is_full band.0 (end_queue way (stream_in (B.value store.now) self.now)) }
    {
        match way {
            Way::Up => is_full(store, &self.head.queue, band),
            Way::Down => is_full(store, &self.driver, band),
        }
    }

    // Whether a message of a band may go on past a place of the stream.
    fn may_pass<B: Blocks>(&self, store: &B, way: Way, at: usize, band: Band) -> bool
        requires head { IsReady (B.value store.now) self.now.head.queue }
        requires driver { IsReady (B.value store.now) self.now.driver }
        requires stack { IsStackHeld (B.value store.now) self.now.stack }
        ensures { result ≡ may_pass way at band.0 (stream_in (B.value store.now) self.now) }
    {
        match self.stack.can_pass(store, way, band, at) {
            Some(room) => room,
            None => !self.is_end_full(store, way, band),
        }
    }

    // Has a writer wait for room in a band of the queue at the end of a way.
    fn wait_at_end(&mut self, way: Way, band: Band)
        ensures stream { (s : StoreValue) → let t = stream_in s self.old in
            stream_in s self.new ≡ with_end_queue way (with_waiting band.0 (end_queue way t)) t }
        ensures side { (s : StoreValue) (first : ℕ) → IsSide s first self.old → IsSide s first self.new }
    {
        match way {
            Way::Up => self.head.queue.let_wait(band),
            Way::Down => self.driver.let_wait(band),
        }
    }

    // Has a writer wait for room in a band of the nearest queue past a place.
    fn wait_past(&mut self, way: Way, at: usize, band: Band)
        ensures stream { (s : StoreValue) → let t = stream_in s self.old in
            stream_in s self.new ≡ waits_on way band.0 (place_past way at t.modules) t }
        ensures side { (s : StoreValue) (first : ℕ) → IsSide s first self.old → IsSide s first self.new }
    {
        match self.stack.place_past(way, at) {
            Some(_) => self.stack.let_wait_past(way, band, at),
            None => self.wait_at_end(way, band),
        }
    }
}

impl Streams {
    ghost use Rattle.strm_pair.specs.Effects.{Becomes};
    ghost use Rattle.strm_pair.specs.Pairs.{AreBeside, state_in};

    /// Whether a message of a band may go on past a place of a side's stream, as messages of a way go. Nobody waits by this.
    #[inline(always)]
    pub(crate) fn has_room_past<B: Blocks>(
        &self,
        store: &B,
        side: Side,
        way: Way,
        at: usize,
        band: Band,
    ) -> bool
        requires beside { AreBeside (B.value store.now) self.now }
        ensures { result ≡ has_room_past side way at band.0 (state_in (B.value store.now) self.now) }
    {
        self.ends.get(side).may_pass(store, way, at, band)
    }

    /// Whether a band is full of the first queue below a side's head (canput(9F)).
    pub(crate) fn is_full_below<B: Blocks>(&self, store: &B, side: Side, band: Band) -> bool
        requires beside { AreBeside (B.value store.now) self.now }
        ensures { result ≡ is_full_below band.0 side (state_in (B.value store.now) self.now) }
    {
        !self.has_room_past(store, side, Way::Down, 0, band)
    }

    /// Has a writer wait for room in a band past a place of a side's stream, as messages of a way go: want-write is set on the nearest
    /// queue there.
    pub(crate) fn wait_past(&mut self, side: Side, way: Way, at: usize, band: Band)
        ensures { Becomes self.old self.new (writer_waits side way at band.0) }
    {
        self.ends.get_mut(side).wait_past(way, at, band);
    }
}
