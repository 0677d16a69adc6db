//! The pair of queues that a stream gives a module when it is pushed, and what is asked of it and done with it, whatever the module
//! (qinit(9S); srv(9E), getq(9F), canput(9F); streamio(7I): I_POP).

ghost use Rattle.std.specs.Prelude.{ℕ, ◌≡◌, ◌<◌, ◌+◌, not, [], length, MatchOption, Some};
ghost use Rattle.strm_types.specs.declared.limits.TheConstants.{LISTS};
ghost use Rattle.strm_types.specs.Deliver.{Goes, counted_with};
ghost use Rattle.strm_types.specs.Dropped.{is_met};
ghost use Rattle.strm_types.specs.Emptied.{of_all, of_data, cells_gone, queue_behind, writer_goes};
ghost use Rattle.strm_types.specs.ModuleQueues.{with_waiting};
ghost use Rattle.strm_types.specs.Names.{direction_at};
ghost use Rattle.strm_types.specs.Queue.{is_none_left};
ghost use Rattle.strm_types.specs.Rules.{told_more};
ghost use Rattle.strm_types.specs.Service.{turn_ended, turn_relieves};
ghost use Rattle.strm_types.specs.Standings.{new_pair, pair_changed, way_queue};
ghost use Rattle.strm_types.specs.declared.rules.Rule.TheVariants.{Flushed};
ghost use Rattle.strm_blocks.specs.Blocks.{IsInHand, StoreValue, in_hand, list_at, token};
ghost use Rattle.strm_msg.specs.Messages.{IsChain};
ghost use Rattle.strm_queue.specs.Stored.{FreesBlocks};
ghost use Rattle.strm_frame.specs.Hands.{OnlyOwn, once};
ghost use Rattle.strm_frame.specs.Queued.{PutsOn, TakesFirst, TakesNone};
ghost use Rattle.strm_frame.specs.Serves.{SameHand};
ghost use Rattle.strm_frame.specs.Standings.{IsPairReady, lists_of, pair_in, queues_own, the_queue};

use crate::queues::{Emptied, clear_queue, end_queue_turn, flush_queue};
use crate::service::TurnEnd;
use std::alloc::{AllocError, Global};
use strm_blocks::{Blocks, InHand};
use strm_queue::standing::{dequeue, enqueue};
use strm_queue::{OTHER_HIGH, OTHER_LOW, Queue, Table};
use strm_types::{Band, Dir, Fates, Rule, Side, Way};

/// The tables of two queues, which a pair gives back when its module goes.
#[derive(Drop)]
pub struct Tables {
    pub read: Table,
    pub write: Table,
}

impl Tables {
    /// Asks for the memory of both.
    pub fn new(alloc: Global) -> Result<Tables, AllocError> {
        Ok(Tables {
            read: Table::new(alloc)?,
            write: Table::new(alloc)?,
        })
    }
}

/// A read queue and a write queue.
#[derive(Drop)]
pub struct QueuePair {
    pub read: Queue,
    pub write: Queue,
}

/// The direction in which messages go a way on a side's stream.
pub fn direction_at(way: Way, side: Side) -> Dir
    ensures { result ≡ direction_at way side }
{
    match way {
        Way::Down => side.direction(),
        Way::Up => side.other().direction(),
    }
}

impl QueuePair {
    /// Two queues as a module that is pushed is given them, on these lists, on which nothing stands. The read queue's comes first, so that
    /// who sees a store's lists knows which is which.
    pub fn new(read_list: usize, write_list: usize, tables: Tables) -> QueuePair
        requires read { read_list < LISTS }
        requires write { write_list < LISTS }
        requires apart { read_list < write_list }
        ensures state { (s : StoreValue) → list_at s read_list ≡ [] → list_at s write_list ≡ [] → pair_in s result ≡ new_pair }
        ensures ready { (s : StoreValue) → list_at s read_list ≡ [] → list_at s write_list ≡ [] → IsPairReady s result }
        ensures owns { (k : ℕ) → queues_own (Some result) k ≡ once read_list k + once write_list k }
    {
        QueuePair {
            read: Queue::new(read_list, OTHER_HIGH, OTHER_LOW, tables.read),
            write: Queue::new(write_list, OTHER_HIGH, OTHER_LOW, tables.write),
        }
    }

    /// Gives the tables of its queues back, for the next module that is pushed.
    pub fn into_tables(self) -> Tables {
        Tables {
            read: self.read.into_table(),
            write: self.write.into_table(),
        }
    }

    /// The queue of a way.
    pub fn queue(&self, way: Way) -> &Queue
        ensures { result.now ≡ the_queue way self.now }
    {
        match way {
            Way::Up => &self.read,
            Way::Down => &self.write,
        }
    }

    /// Has a writer of a band wait at the queue of a way, until there is room again: want-write is set there.
    pub fn let_wait(&mut self, way: Way, band: Band)
        ensures state { (s : StoreValue) → pair_in s self.new ≡ pair_changed way (with_waiting band.0) (pair_in s self.old) }
        ensures ready { (s : StoreValue) → IsPairReady s self.old → IsPairReady s self.new }
        ensures lists { lists_of (Some self.new) ≡ lists_of (Some self.old) }
    {
        match way {
            Way::Up => self.read.let_wait(band),
            Way::Down => self.write.let_wait(band),
        }
    }

    /// Ends a turn of the queue of a way: want-read is set where it is empty and cleared where it isn't, and where the turn took bytes,
    /// waiting writers are let go.
    pub fn end_turn<B: Blocks>(&mut self, store: &B, way: Way, took: bool) -> TurnEnd
        requires ready { IsPairReady (B.value store.now) self.old }
        ensures state { pair_in (B.value store.now) self.new ≡ pair_changed way (turn_ended took) (pair_in (B.value store.now) self.old) }
        ensures room { result.room ≡ turn_relieves took (way_queue way (pair_in (B.value store.now) self.old)) }
        ensures more { result.more ≡ not (is_none_left (way_queue way (pair_in (B.value store.now) self.old)).messages) }
        ensures ready { IsPairReady (B.value store.now) self.new }
        ensures lists { lists_of (Some self.new) ≡ lists_of (Some self.old) }
    {
        match way {
            Way::Up => end_queue_turn(store, &mut self.read, took),
            Way::Down => end_queue_turn(store, &mut self.write, took),
        }
    }

    /// Lets all go that stands on the queue of a way, on a side's stream. Its bytes go by a rule. It says whether queues before it have room
    /// again, and whether the M_IOCTL of a number was among the messages, where one is sought.
    pub fn clear<B: Blocks>(
        &mut self,
        store: &mut B,
        seeking: Option<u32>,
        side: Side,
        way: Way,
        rule: Rule,
        told: &mut Fates,
    ) -> Emptied
        requires ready { IsPairReady (B.value store.old) self.old }
        ensures state { pair_in (B.value store.new) self.new ≡ pair_changed way (queue_behind of_all) (pair_in (B.value store.old) self.old) }
        ensures room { result.room ≡ writer_goes of_all (way_queue way (pair_in (B.value store.old) self.old)) }
        ensures met { result.met ≡ is_met seeking (way_queue way (pair_in (B.value store.old) self.old)).messages }
        ensures told { told.new ≡ told_more (direction_at way side) rule
            (length (cells_gone of_all (way_queue way (pair_in (B.value store.old) self.old)).messages)) told.old }
        ensures ready { IsPairReady (B.value store.new) self.new }
        ensures lists { lists_of (Some self.new) ≡ lists_of (Some self.old) }
        ensures own { OnlyOwn (B.value store.old) (B.value store.new) (queues_own (Some self.old)) (queues_own (Some self.new)) }
        ensures hand { SameHand (B.value store.old) (B.value store.new) }
        ensures frees { FreesBlocks (B.value store.old) (B.value store.new) }
    {
        let direction = direction_at(way, side);
        match way {
            Way::Up => clear_queue(store, &mut self.read, seeking, direction, rule, told),
            Way::Down => clear_queue(store, &mut self.write, seeking, direction, rule, told),
        }
    }

    /// Puts a message in hand on the queue of a way, and says whether that enables it: `putq(9F)`. The cost is that of `putq`.
    pub fn put<B: Blocks>(&mut self, store: &mut B, way: Way, message: InHand) -> bool
        requires ready { IsPairReady (B.value store.old) self.old }
        requires in_hand { IsInHand (B.value store.old) (token message) }
        requires chain { IsChain (in_hand (B.value store.old) (token message)) }
        ensures { PutsOn (B.value store.old) (B.value store.new) self.old self.new way (token message) result }
    {
        store.audit();
        match way {
            Way::Up => enqueue(store, &mut self.read, message),
            Way::Down => enqueue(store, &mut self.write, message),
        }
    }

    /// Takes the first message off the queue of a way into the hand: `getq(9F)`. `None` where none stands there. The cost is a step for each
    /// block of the message.
    pub fn take<B: Blocks>(&mut self, store: &mut B, way: Way) -> Option<InHand>
        requires { IsPairReady (B.value store.old) self.old }
        ensures { MatchOption result (TakesNone (B.value store.old) (B.value store.new) self.old self.new way)
            (λ m. TakesFirst (B.value store.old) (B.value store.new) self.old self.new way (token m)) }
    {
        match way {
            Way::Up => dequeue(store, &mut self.read),
            Way::Down => dequeue(store, &mut self.write),
        }
    }

    /// Takes from the queue of a way, on a side's stream, what a flush takes, of one band or of all: `flushq(9F)` and `flushband(9F)` with
    /// FLUSHDATA. It says whether queues before it have room again. The cost is a step for each block on the queue.
    pub fn flush<B: Blocks>(
        &mut self,
        store: &mut B,
        band: Option<Band>,
        side: Side,
        way: Way,
        told: &mut Fates,
    ) -> bool
        requires ready { IsPairReady (B.value store.old) self.old }
        ensures state { pair_in (B.value store.new) self.new ≡ pair_changed way (queue_behind (of_data band)) (pair_in (B.value store.old) self.old) }
        ensures went { result ≡ writer_goes (of_data band) (way_queue way (pair_in (B.value store.old) self.old)) }
        ensures told { told.new ≡ counted_with
            (Goes (direction_at way side) Flushed (cells_gone (of_data band) (way_queue way (pair_in (B.value store.old) self.old)).messages)) told.old }
        ensures ready { IsPairReady (B.value store.new) self.new }
        ensures lists { lists_of (Some self.new) ≡ lists_of (Some self.old) }
        ensures own { OnlyOwn (B.value store.old) (B.value store.new) (queues_own (Some self.old)) (queues_own (Some self.new)) }
        ensures hand { SameHand (B.value store.old) (B.value store.new) }
        ensures frees { FreesBlocks (B.value store.old) (B.value store.new) }
    {
        let direction = direction_at(way, side);
        match way {
            Way::Up => flush_queue(store, &mut self.read, direction, band, told),
            Way::Down => flush_queue(store, &mut self.write, direction, band, told),
        }
    }
}
