//! One side's stream.

ghost use Rattle.std.specs.Prelude.{ℕ, ◌≡◌, ◌≤◌, ◌+◌, []};
ghost use Rattle.strm_blocks.specs.Blocks.{StoreValue};
ghost use Rattle.strm_laws.specs.State.{new_stream};
ghost use Rattle.strm_pair.specs.Streams.{IsBlank, IsSide, stream_in};
ghost use Rattle.strm_pair.specs.Renewed.{RenewsHead};
ghost use Rattle.strm_pair.specs.Lists.{first_list};
ghost use Rattle.strm_pair.specs.Shelves.{Restocks, pairs_among, room_on, tables_on};
ghost use Rattle.strm_types.specs.declared.names.Openness.TheVariants.{Open, Closed};
ghost use Rattle.strm_queue.specs.Stored.{IsReady};

use crate::shelves::Shelf;
use crate::stacks::{Stack, take_modules};
use strm_blocks::Blocks;
use strm_head::Head;
use strm_queue::{Flush, OTHER_HIGH, OTHER_LOW, Queue};
use strm_types::{Openness, Side};

/// The first of the eight lists on which a side's queues stand.
pub(crate) fn first_list(side: Side) -> usize
    ensures list { result ≡ first_list side }
    ensures small { result ≤ 8 }
{
    match side {
        Side::Master => 0,
        Side::Slave => 8,
    }
}

/// The stream of one side: its head, its modules and its driver's queue, and whether it was opened.
#[derive(Drop)]
pub(crate) struct StreamEnd {
    pub opened: Openness,
    pub head: Head,
    pub stack: Stack,
    pub driver: Queue,
}

impl StreamEnd {
    // Makes the head as new, with nothing on its queue.
    fn renew_head<B: Blocks>(&mut self, store: &mut B)
        requires { IsReady (B.value store.old) self.old.head.queue }
        ensures { RenewsHead (B.value store.old) (B.value store.new) self.old self.new self.old.opened }
    {
        store.audit();
        self.head.queue.flushq(store, Flush::All);
        self.head.renew();
    }

    /// Opens the stream, with a head as new.
    pub fn open<B: Blocks>(&mut self, store: &mut B)
        requires { IsReady (B.value store.old) self.old.head.queue }
        ensures { RenewsHead (B.value store.old) (B.value store.new) self.old self.new Open }
    {
        self.opened = Openness::Open;
        self.renew_head(store);
    }

    /// Closes the stream, with a head as new.
    pub fn close<B: Blocks>(&mut self, store: &mut B)
        requires { IsReady (B.value store.old) self.old.head.queue }
        ensures { RenewsHead (B.value store.old) (B.value store.new) self.old self.new Closed }
    {
        self.opened = Openness::Closed;
        self.renew_head(store);
    }

    /// Makes the stream as new, in place, where nothing stands on its lists: nobody opened it, and no module stands there. The tables of the queues
    /// of those that did go onto the shelf.
    pub fn renew(&mut self, shelf: &mut Shelf)
        requires { tables_on shelf.old + pairs_among self.old.stack.modules.items ≤ room_on shelf.old }
        ensures side { (s t : StoreValue) (first : ℕ) → IsSide s first self.old → IsBlank t first → IsSide t first self.new }
        ensures stream { (s t : StoreValue) (first : ℕ) → IsSide s first self.old → IsBlank t first → stream_in t self.new ≡ new_stream }
        ensures stack { self.new.stack.modules.items ≡ [] }
        ensures shelf { Restocks shelf.old shelf.new (pairs_among self.old.stack.modules.items) 0 }
    {
        self.opened = Openness::Never;
        self.head.renew();
        take_modules(&mut self.stack, shelf);
        self.driver.renew(OTHER_HIGH, OTHER_LOW);
    }
}
