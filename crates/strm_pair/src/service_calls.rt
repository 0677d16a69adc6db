//! Calls of a turn of a module's queue, one after the other: what each sends is delivered before the next one (srv(9E); STREAMS
//! Programming Guide, "Service Procedures").

ghost use Rattle.std.specs.Prelude.{◌≡◌, ◌≤◌, ◌<◌, ◌+◌, ◌^◌, length, false};
ghost use Rattle.strm_types.specs.declared.limits.TheConstants.{MODULES, STOP_BLOCKS};
ghost use Rattle.strm_laws.specs.State.{stream};
ghost use Rattle.strm_types.specs.LdtermCalls.{bytes_left};
ghost use Rattle.strm_laws.specs.TurnCalls.{discipline_of, module_at};
ghost use Rattle.strm_frame.specs.Hands.{IsWide};
ghost use Rattle.strm_frame.specs.Outboxes.{sent_of};
ghost use Rattle.strm_pair.specs.ModuleServed.{ActsAs, BookTakes, CallsAs, IsKeptAll, MayBook, MayCall, StackServes, StopsFew, TreatsAs, between, call_of, with_more};

use crate::stacks::place_at;
use crate::streams::Streams;
use strm_blocks::Blocks;
use strm_frame::{Served, deliver_all};
use strm_own::OwnModule;
use strm_types::{Fates, HOPS, Side, Spot};

// How many bytes were made in each direction, modulo 2^64.
#[derive(Clone, Copy)]
pub(crate) struct Made {
    from_master: u64,
    from_slave: u64,
}

impl Made {
    fn new(from_master: u64, from_slave: u64) -> Made
        ensures counts { result ≡ record { from_master = from_master; from_slave = from_slave } }
        ensures few { (from_master < 2 ^ 64) × (from_slave < 2 ^ 64) }
    {
        Made {
            from_master,
            from_slave,
        }
    }

    // Those that are told.
    pub(crate) fn of(told: &Fates) -> Made
        ensures counts { result ≡ record { from_master = told.now.made_from_master; from_slave = told.now.made_from_slave } }
        ensures few { (result.from_master < 2 ^ 64) × (result.from_slave < 2 ^ 64) }
    {
        Made::new(told.made_from_master, told.made_from_slave)
    }

    // How many more there are than before.
    fn since(self, before: Made) -> Made
        ensures { result ≡ record { from_master = between before.from_master self.from_master; from_slave = between before.from_slave self.from_slave } }
    {
        Made {
            from_master: self.from_master.wrapping_sub(before.from_master),
            from_slave: self.from_slave.wrapping_sub(before.from_slave),
        }
    }
}

// What a call of a turn did: how many bytes it treated, whether it stopped for want of blocks, and whether it asks for another one.
#[derive(Clone, Copy)]
pub(crate) struct Call {
    bytes: usize,
    stopped: bool,
    again: bool,
}

impl Streams {
    ghost use Rattle.strm_laws.specs.StackCosts.{stands_of};
    ghost use Rattle.strm_pair.specs.Effects.{MayDeliver};
    ghost use Rattle.strm_pair.specs.Enabling.{AreFewEnabled};
    ghost use Rattle.strm_pair.specs.Pairs.{state_in, end_at, with_end, AreBeside, SamePool};

    // How many bytes are booked as made in each direction.
    pub(crate) fn booked(&self) -> Made
        ensures counts { result ≡ record { from_master = self.now.books.master.made; from_slave = self.now.books.slave.made } }
        ensures few { (result.from_master < 2 ^ 64) × (result.from_slave < 2 ^ 64) }
    {
        Made::new(self.books.master.made, self.books.slave.made)
    }

    // Books what was made since so many had been, in each direction.
    pub(crate) fn book_made(&mut self, before: Made, told: &Fates)
        requires master { BookTakes self.old.books.master.made (between before.from_master told.now.made_from_master) }
        requires slave { BookTakes self.old.books.slave.made (between before.from_slave told.now.made_from_slave) }
        ensures { self.new ≡ record self.old {
          books = with_more (between before.from_master told.now.made_from_master) (between before.from_slave told.now.made_from_slave) self.old.books;
        } }
    {
        let made = Made::of(told).since(before);
        let booked = self.booked();
        self.books.master.made = booked.from_master + made.from_master;
        self.books.slave.made = booked.from_slave + made.from_slave;
    }

    // The stack of a side serves a call of a turn, and nothing else of the streams changes.
    fn serve_at<B: Blocks, M: OwnModule>(
        &mut self,
        store: &mut B,
        here: Spot,
        again: bool,
        told: &mut Fates,
    ) -> Served
        requires may { MayCall (B.value store.old) self.old here again }
        requires wide { IsWide M.wide (B.value store.old) }
        ensures streams { self.new ≡ with_end here.side (record (end_at here.side self.old) { stack = (end_at here.side self.new).stack }) self.old }
        ensures serves { StackServes M.does (B.value store.old) (B.value store.new) (end_at here.side self.old).stack
            (end_at here.side self.new).stack here again result told.old told.new }
    {
        self.ends
            .get_mut(here.side)
            .stack
            .serve::<M, B>(store, here, again, told)
    }

    // The module at a place serves a call of a turn: what it says of its queues goes by how the stream was before, and what it made is
    // booked.
    fn act<B: Blocks, M: OwnModule>(
        &mut self,
        store: &mut B,
        here: Spot,
        again: bool,
        told: &mut Fates,
    ) -> Served
        requires may { MayCall (B.value store.old) self.old here again }
        requires books { MayBook here again (state_in (B.value store.old) self.old) }
        requires wide { IsWide M.wide (B.value store.old) }
        ensures { ActsAs M.does (B.value store.old) (B.value store.new) self.old self.new here again
            (call_of result) (sent_of result.acts.sent) told.old told.new }
    {
        store.audit();
        let at = here.at as usize;
        let place = place_at(&self.end(here.side).stack, at);
        let before = Made::of(told);
        let served = self.serve_at::<B, M>(store, here, again, told);
        self.note(here.side, place, at, served.acts.notes.as_slice());
        self.book_made(before, told);
        served
    }

    // A call of a turn, and the delivery of what it sent.
    fn call_module<B: Blocks, M: OwnModule>(
        &mut self,
        store: &mut B,
        here: Spot,
        again: bool,
        told: &mut Fates,
    ) -> Call
        requires may { MayCall (B.value store.old) self.old here again }
        requires low { here.at ≤ MODULES }
        requires books { MayBook here again (state_in (B.value store.old) self.old) }
        requires wide { IsWide M.wide (B.value store.old) }
        ensures { CallsAs M.does (B.value store.old) (B.value store.new) self.old self.new here again result told.old told.new }
    {
        let served = self.act::<B, M>(store, here, again, told);
        store.audit();
        let call = Call {
            bytes: served.bytes,
            stopped: served.stopped,
            again: served.again,
        };
        deliver_all::<B, M, Streams>(store, self, HOPS, served.acts.sent, told);
        call
    }

    /// The calls of a turn, until one asks for no other: how many bytes they treated, one at least where the message has any. Where what they send
    /// is kept ahead they leave some of it only where few blocks are free behind them.
    pub(crate) fn call_on<B: Blocks, M: OwnModule>(
        &mut self,
        store: &mut B,
        here: Spot,
        told: &mut Fates,
    ) -> usize
        requires may { MayDeliver (B.value store.old) self.old STOP_BLOCKS }
        requires inside { 0 < here.at }
        requires low { here.at ≤ MODULES }
        requires within { here.at ≤ length (stream here.side (state_in (B.value store.old) self.old)).modules }
        requires few { bytes_left here.way false (discipline_of (module_at here (state_in (B.value store.old) self.old))) ≤ 16777216 }
        requires wide { IsWide M.wide (B.value store.old) }
        ensures treats { TreatsAs M.does here result (state_in (B.value store.old) self.old)
            (state_in (B.value store.new) self.new) told.old told.new }
        ensures few { StopsFew here result (state_in (B.value store.old) self.old) (B.value store.new) }
        ensures beside { AreBeside (B.value store.new) self.new }
        ensures hand { IsKeptAll (B.value store.new) self.new }
        ensures pool { SamePool (B.value store.old) (B.value store.new) }
        ensures enabled { AreFewEnabled (state_in (B.value store.new) self.new) }
        ensures stands { stands_of (state_in (B.value store.new) self.new) ≡ stands_of (state_in (B.value store.old) self.old) }
    {
        let mut call = self.call_module::<B, M>(store, here, false, told);
        let mut bytes = call.bytes;
        while call.again {
            call = self.call_module::<B, M>(store, here, true, told);
            bytes += call.bytes;
        }
        bytes
    }
}
