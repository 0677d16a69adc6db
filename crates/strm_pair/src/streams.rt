//! Both streams of a pair, and what calls and turns do to them, on the store in which their messages stand.

ghost use Rattle.std.specs.Bool.{OnTrue};
ghost use Rattle.std.specs.Prelude.{ℕ, ◌≡◌, ◌+◌, ◌≤◌, false, true, [], length, min, IfOk, None};
ghost use Rattle.strm_laws.specs.Ledgers.{FewBooked};
ghost use Rattle.strm_types.specs.Cells.{plain};
ghost use Rattle.strm_laws.specs.Known.{all_known};
ghost use Rattle.strm_laws.specs.StackCosts.{stands_of};
ghost use Rattle.strm_laws.specs.State.{opening, new_stream};
ghost use Rattle.strm_types.specs.declared.answers.Answer.TheVariants.{Done, Bytes};
ghost use Rattle.strm_types.specs.declared.names.Openness.TheVariants.{Open};
ghost use Rattle.strm_types.specs.Events.{request};
ghost use Rattle.strm_laws.specs.Calls.{delivers, mode_set, opened_slave, performed, read_at};
ghost use Rattle.strm_laws.specs.Pair.{MovesOn};
ghost use Rattle.strm_laws.specs.Turns.{turned};
ghost use Rattle.strm_types.specs.declared.limits.TheConstants.{READ_MAX};
ghost use Rattle.strm_frame.specs.Hands.{HasRoom, IsWide};
ghost use Rattle.strm_laws.specs.Refusals.{blocks_asked, refused_at_once, unfit};
ghost use Rattle.strm_types.specs.Refused.{turn_blocks};
ghost use Rattle.strm_laws.specs.Spares.{spare};
ghost use Rattle.strm_types.specs.Journal.{reply_in, answer_len, content_max};
ghost use Rattle.strm_blocks.specs.Blocks.{StoreValue, empty_store};
ghost use Rattle.strm_pair.specs.Shelves.{IsFull, IsStocked, Restocks, pairs_in, room_on, tables_on};
ghost use Rattle.strm_pair.specs.Streams.{IsBlank, IsSide, stream_in};
ghost use Rattle.strm_pair.specs.Parts.{longest_part};

use crate::ends::{StreamEnd, first_list};
use crate::shelves::Shelf;
use crate::stacks::Stack;
use std::alloc::{AllocError, Global};
use strm_blocks::Blocks;
use strm_frame::Enabled;
use strm_head::Head;
use strm_own::OwnModule;
use strm_queue::{HEAD_HIGH, HEAD_LOW, OTHER_HIGH, OTHER_LOW, Queue, Table};
use strm_types::{
    Answer, Book, Both, Caller, Content, Event, Fates, MODULES, Mode, Openness, Place, QueueName,
    READ_MAX, Side, Turn, Way,
};

/// The streams of a pair, whether its slave is locked, the queues that are enabled, the number that the next ioctl gets,
/// and what was booked of each direction.
pub(crate) struct Streams {
    pub ends: Both<StreamEnd>,
    pub locked: bool,
    pub enabled: Enabled,
    pub next_ioctl: u32,
    pub books: Both<Book>,
}

// Of its own, so that who owns one doesn't take it apart at each way out.
impl Drop for Streams {
    fn drop(self) {
        let Streams {
            ends: _,
            locked: _,
            enabled: _,
            next_ioctl: _,
            books: _,
        } = self;
    }
}

/// The tables of the queues at both ends of a side's stream.
#[derive(Drop)]
pub(crate) struct SideTables {
    pub head: Table,
    pub driver: Table,
}

impl SideTables {
    /// Asks for the memory.
    pub fn new(alloc: Global) -> Result<SideTables, AllocError> {
        Ok(SideTables {
            head: Table::new(alloc)?,
            driver: Table::new(alloc)?,
        })
    }
}

/// The tables of all queues that a pair may have.
#[derive(Drop)]
pub(crate) struct QueueTables {
    pub ends: Both<SideTables>,
    pub shelf: Shelf,
}

/// Asks for the tables of all queues that a pair may have with these modules of a user's own: 32 KB where none of them have queues, and 64 KB else.
pub(crate) fn queue_tables<M: OwnModule>(alloc: Global) -> Result<QueueTables, AllocError>
    ensures { IfOk result (λ tables. IsFull M.queued tables.shelf) }
{
    let pairs = if M::queued() { 2 * MODULES } else { 2 };
    Ok(QueueTables {
        ends: Both {
            master: SideTables::new(alloc)?,
            slave: SideTables::new(alloc)?,
        },
        shelf: Shelf::new(alloc, pairs)?,
    })
}

// A stream that nobody opened, whose queues stand on the lists from a number on: the head's and the driver's. Those behind are for the queues of
// modules.
fn new_end(first: usize, tables: SideTables) -> StreamEnd
    requires { first ≤ 8 }
    ensures side { (s : StoreValue) → IsBlank s first → IsSide s first result }
    ensures stream { (s : StoreValue) → IsBlank s first → stream_in s result ≡ new_stream }
{
    StreamEnd {
        opened: Openness::Never,
        head: Head::new(Queue::new(first, HEAD_HIGH, HEAD_LOW, tables.head)),
        stack: Stack::new(),
        driver: Queue::new(first + 1, OTHER_HIGH, OTHER_LOW, tables.driver),
    }
}

impl Streams {
    ghost use Rattle.strm_types.specs.declared.names.Side.TheVariants.{Master};
    ghost use Rattle.strm_pair.specs.Effects.{AreAtRest, Becomes, Leads, MayDeliver};
    ghost use Rattle.strm_pair.specs.Enabling.{AreFewEnabled};
    ghost use Rattle.strm_pair.specs.Pairs.{free_in, state_in, end_at, with_end, AreBeside, AreHeld};

    /// The streams of a new pair.
    pub fn new(tables: Both<SideTables>) -> Streams
        ensures state { (mblks dblks : ℕ) → state_in (empty_store mblks dblks) result ≡ opening }
        ensures held { (mblks dblks : ℕ) → AreHeld (empty_store mblks dblks) result }
    {
        Streams {
            ends: Both {
                master: new_end(first_list(Side::Master), tables.master),
                slave: new_end(first_list(Side::Slave), tables.slave),
            },
            locked: true,
            enabled: Enabled::new(),
            next_ioctl: 1,
            books: Both {
                master: Book::new(),
                slave: Book::new(),
            },
        }
    }

    /// Makes the streams as new, in place, where nothing stands in the store. The tables of the queues of modules that stood go onto the shelf.
    pub fn renew(&mut self, shelf: &mut Shelf)
        requires { tables_on shelf.old + pairs_in self.old ≤ room_on shelf.old }
        ensures shelf { Restocks shelf.old shelf.new (pairs_in self.old) 0 }
        ensures state { (s : StoreValue) (mblks dblks : ℕ) → AreBeside s self.old → state_in (empty_store mblks dblks) self.new ≡ opening }
        ensures held { (s : StoreValue) (mblks dblks : ℕ) → AreBeside s self.old → AreHeld (empty_store mblks dblks) self.new }
    {
        self.ends.master.renew(shelf);
        self.ends.slave.renew(shelf);
        self.locked = true;
        self.enabled = Enabled::new();
        self.next_ioctl = 1;
        self.books.master = Book::new();
        self.books.slave = Book::new();
    }

    // Opens the master.
    fn open_master(&mut self) -> Answer<u32>
        ensures answer { result ≡ Done }
        ensures streams { self.new ≡ with_end Master (record (end_at Master self.old) { opened = Open }) self.old }
    {
        self.ends.master.opened = Openness::Open;
        Answer::Done
    }

    // Lets the slave be opened.
    fn unlock(&mut self) -> Answer<u32>
        ensures answer { result ≡ Done }
        ensures streams { self.new ≡ record self.old { locked = false } }
    {
        self.locked = false;
        Answer::Done
    }

    /// Opens the slave: its head is as new, and what waits for it may come.
    #[inline(never)]
    pub fn open_slave<B: Blocks>(&mut self, store: &mut B) -> Answer<u32>
        requires held { AreHeld (B.value store.old) self.old }
        requires enabled { AreFewEnabled (state_in (B.value store.old) self.old) }
        ensures answer { result ≡ Done }
        ensures leads { (told : Fates) → let s = B.value store.old in
            Leads s (B.value store.new) self.new told told (opened_slave (state_in s self.old)) [] }
    {
        self.ends.slave.open(store);
        if !self.ends.master.driver.is_empty(store) {
            self.enabled.enable(Side::Master.driver());
        }
        Answer::Done
    }

    // Sets a mode of a side's head.
    #[inline(never)]
    fn set_mode(&mut self, side: Side, mode: Mode)
        ensures { Becomes self.old self.new (mode_set side mode) }
    {
        self.ends.get_mut(side).head.set_mode(mode);
    }

    /// Reads up to `n` bytes from a side's head into `out`, as its modes say.
    #[inline(always)]
    pub fn read<B: Blocks>(
        &mut self,
        store: &mut B,
        side: Side,
        n: u32,
        out: &mut Content,
        told: &mut Fates,
    )
        requires held { AreHeld (B.value store.old) self.old }
        requires enabled { AreFewEnabled (state_in (B.value store.old) self.old) }
        requires fresh { out.old.items ≡ [] }
        ensures answer { Bytes out.new.items ≡ (read_at plain side n (state_in (B.value store.old) self.old)).answer }
        ensures most { length out.new.items ≤ min n READ_MAX }
        ensures leads { let s = B.value store.old in let is = read_at plain side n (state_in s self.old) in
            Leads s (B.value store.new) self.new told.old told.new is.state is.gone }
    {
        let wanted = (n as usize).min(READ_MAX);
        let direction = side.head().direction();
        let goes = self
            .ends
            .get_mut(side)
            .head
            .read(store, wanted, out, direction, told);
        self.let_go(side, Way::Up, 0, goes);
    }

    /// Carries out a call that nothing refuses, and that doesn't stop its caller. What a read or a get gives stands in `out`, which is empty else.
    #[inline(always)]
    pub fn carry_out<B: Blocks, M: OwnModule>(
        &mut self,
        shelf: &mut Shelf,
        store: &mut B,
        caller: Caller,
        event: &Event<&[u8]>,
        out: &mut Content,
        told: &mut Fates,
    ) -> Answer<u32>
        requires rests { AreAtRest (B.value store.old) self.old }
        requires allowed { refused_at_once (state_in (B.value store.old) self.old) caller (request event.now) ≡ None }
        requires fits { unfit M.does (state_in (B.value store.old) self.old) caller (request event.now) ≡ None }
        requires room { HasRoom (B.value store.old) (blocks_asked (request event.now)) }
        requires wide { IsWide M.wide (B.value store.old) }
        requires known { all_known M.does (state_in (B.value store.old) self.old) ≡ true }
        requires stocked { IsStocked M.queued shelf.old (stands_of (state_in (B.value store.old) self.old)) }
        ensures stocked { IsStocked M.queued shelf.new (stands_of (state_in (B.value store.new) self.new)) }
        ensures answer { reply_in result out.new.items
            ≡ (performed M.does plain caller (request event.now) (state_in (B.value store.old) self.old)).answer }
        ensures filled { answer_len result ≡ length out.new.items }
        ensures content { length out.new.items ≤ content_max (request event.now) }
        ensures parts { longest_part result ≤ READ_MAX }
        ensures leads { let s = B.value store.old in let is = performed M.does plain caller (request event.now) (state_in s self.old) in
            Leads s (B.value store.new) self.new told.old told.new is.state is.gone }
        ensures left { OnTrue (delivers (request event.now))
            (spare (state_in (B.value store.old) self.old) ≤ spare (state_in (B.value store.new) self.new) + 30) }
    {
        out.clear();
        let side = caller.side;
        match event {
            Event::OpenMaster => self.open_master(),
            Event::Unlock => self.unlock(),
            Event::OpenSlave => self.open_slave(store),
            Event::Shut => self.shut::<B, M>(shelf, store, side, told),
            Event::Flush { what, band } => self.flush::<B, M>(store, side, *what, *band, told),
            Event::Push { name } => self.push::<B, M>(shelf, store, side, *name, told),
            Event::Pop => self.pop::<B, M>(shelf, store, side, told),
            Event::Look => self.look(side),
            Event::Write { bytes } => Answer::Count(self.write::<B, M>(store, side, bytes, told)),
            Event::Read { n } => {
                self.read(store, side, *n, out, told);
                Answer::Bytes(out.len() as u32)
            }
            Event::Put {
                prio,
                control,
                body,
            } => self.putmsg::<B, M>(store, side, *prio, *control, *body, told),
            Event::Get { wanted, cmax, dmax } => {
                self.getmsg(store, side, *wanted, *cmax, *dmax, out, told)
            }
            Event::Mode { mode } => {
                self.set_mode(side, *mode);
                Answer::Done
            }
            Event::Nread => self.nread(store, side),
            Event::Ioctl { command, body } => self.ioctl::<B, M>(
                store, side, *command, body, out, told,
            ),
            Event::IoctlResult { .. } => self.tell_ioctl(side, out),
            Event::Signals => self.take_signals(side, out),
        }
    }

    /// A turn of an enabled queue.
    pub fn turn<B: Blocks, M: OwnModule>(
        &mut self,
        store: &mut B,
        name: QueueName,
        told: &mut Fates,
    ) -> Turn
        requires may { MayDeliver (B.value store.old) self.old (turn_blocks name.place) }
        requires wide { IsWide M.wide (B.value store.old) }
        ensures turn { result ≡ (turned M.does plain name result (state_in (B.value store.old) self.old)).turn }
        ensures leads { let s = B.value store.old in let is = turned M.does plain name result (state_in s self.old) in
            Leads s (B.value store.new) self.new told.old told.new is.state is.gone }
        ensures few { FewBooked (state_in (B.value store.new) self.new) }
        ensures stops { MovesOn (state_in (B.value store.old) self.old) (free_in (B.value store.new)) name result }
    {
        self.enabled.remove(name);
        match name.place {
            Place::Driver => self.turn_driver::<B, M>(store, name.side, told),
            Place::Module(_) => self.turn_module::<B, M>(store, name, told),
            Place::Head => Turn::Idle,
        }
    }
}
