//! A queue.

ghost use Rattle.std.specs.Prelude.{◌≡◌, ◌<◌, ◌≤◌, ℕ, true, false, List, [], MatchOption, Some, None, slice_set, sum_by, map, replicate};
ghost use Rattle.strm_types.specs.Message.{is_high_priority};
ghost use Rattle.strm_blocks.specs.Blocks.{IsInHand, in_hand, list_at, placed, dropped, put, put_back, block_at, token};
ghost use Rattle.strm_blocks.specs.Outcomes.{Popped, Unpopped, flushed};
ghost use Rattle.strm_queue.specs.Kept.{AreCounted, bytes_of, data_bytes_of, data_share, count_of, band_of, enables, flow_at, is_full};
ghost use Rattle.strm_blocks.specs.Blocks.{Block};
ghost use Rattle.strm_queue.specs.Flows.{count_in, marked_with, relieves, relieved, plain_flows};
ghost use Rattle.strm_queue.specs.Flushes.{takes_all};
ghost use Rattle.strm_types.specs.Queue.{with_writer_at, with_marks, is_none_left};
ghost use Rattle.strm_types.specs.declared.kinds.Band.{Band};
ghost use Rattle.strm_types.specs.declared.limits.TheConstants.{BANDS, LISTS};
ghost use Rattle.std.specs.List.{list_any};

use crate::flows::Flows;
use crate::flush::Flush;
use crate::share::share_of;
use crate::table::Table;
use strm_blocks::{Blocks, FlushWhat, InHand};
use strm_types::{Band, Marks};

/// A queue: the number of its list in a store, the flow control of its bands from 0 up, and its flags. Want-read says
/// that a message of band 0 that is put enables the queue; no-enable that only a message of high priority does.
#[derive(Drop)]
pub struct Queue {
    pub list: usize,
    pub flows: Flows,
    pub want_read: bool,
    pub no_enable: bool,
    pub ghost on_list: { list < LISTS },
}

impl Queue {
    ghost use Rattle.strm_queue.specs.Queues.{OnlyCounts};

    /// A queue for a list with nothing on it, with the same marks in each band: `HEAD_HIGH` and `HEAD_LOW` for a head's,
    /// `OTHER_HIGH` and `OTHER_LOW` for any other. `is_list` and `are_marks` test what is asked here. What the bands above 0 have
    /// is kept in the table, at no cost for its making.
    pub fn new(list: usize, high: u32, low: u32, table: Table) -> Queue
        requires list { list < LISTS }
        requires some { 1 ≤ high }
        requires order { low ≤ high }
        ensures counted { AreCounted result.flows [] }
        ensures flows { plain_flows result.flows ≡ replicate BANDS (record { high = high; low = low; want_write = false }) }
        ensures list { result.list ≡ list }
        ensures want_read { result.want_read ≡ true }
        ensures no_enable { result.no_enable ≡ false }
    {
        Queue {
            list,
            flows: Flows::new(high, low, table),
            want_read: true,
            no_enable: false,
        }
    }

    /// Makes the queue as new, in place, where nothing stands on its list.
    pub fn renew(&mut self, high: u32, low: u32)
        requires some { 1 ≤ high }
        requires order { low ≤ high }
        ensures counted { AreCounted self.new.flows [] }
        ensures flows { plain_flows self.new.flows ≡ replicate BANDS (record { high = high; low = low; want_write = false }) }
        ensures list { self.new.list ≡ self.old.list }
        ensures want_read { self.new.want_read ≡ true }
        ensures no_enable { self.new.no_enable ≡ false }
    {
        self.flows.renew(high, low);
        self.want_read = true;
        self.no_enable = false;
    }

    /// Gives the queue's table back, for another queue.
    pub fn into_table(self) -> Table {
        self.flows.into_table()
    }

    /// Puts a message behind all of at least its rank, and says whether that enables the queue: a message of high
    /// priority always does, a banded one unless no-enable is set, one of band 0 where want-read is set too: `putq(9F)`.
    ///
    /// The cost is a step for each block of the message, and the store's for finding the place.
    #[inline(always)]
    pub fn putq<B: Blocks>(&mut self, store: &mut B, message: InHand) -> bool
        requires counted { AreCounted self.old.flows (list_at (B.value store.old) self.old.list) }
        requires in_hand { IsInHand (B.value store.old) (token message) }
        ensures placed { let s = B.value store.old in
            B.value store.new ≡ placed (dropped s (token message)) self.old.list
            (put (in_hand s (token message)) (list_at s self.old.list)) }
        ensures counted { AreCounted self.new.flows (list_at (B.value store.new) self.new.list) }
        ensures flows { plain_flows self.new.flows ≡ plain_flows self.old.flows }
        ensures enables { result
            ≡ enables (in_hand (B.value store.old) (token message)) self.old.want_read self.old.no_enable }
        ensures others { OnlyCounts self.old self.new }
    {
        store.audit();
        let share = share_of(store, &message);
        store.insert_back(self.list, message);
        self.flows.add(share);
        share.enables(self.want_read, self.no_enable)
    }

    /// Puts a message in front of all of at most its rank: `putbq(9F)`. It enables nothing. The cost is that of `putq`.
    pub fn putbq<B: Blocks>(&mut self, store: &mut B, message: InHand)
        requires counted { AreCounted self.old.flows (list_at (B.value store.old) self.old.list) }
        requires in_hand { IsInHand (B.value store.old) (token message) }
        ensures placed { let s = B.value store.old in
            B.value store.new ≡ placed (dropped s (token message)) self.old.list
            (put_back (in_hand s (token message)) (list_at s self.old.list)) }
        ensures counted { AreCounted self.new.flows (list_at (B.value store.new) self.new.list) }
        ensures flows { plain_flows self.new.flows ≡ plain_flows self.old.flows }
        ensures others { OnlyCounts self.old self.new }
    {
        store.audit();
        let share = share_of(store, &message);
        store.insert_front(self.list, message);
        self.flows.add(share);
    }

    /// Takes the first message, if there is one, which clears want-read: `getq(9F)`. Waiting writers are let go by
    /// `back_enable`, once what is left of the message is put back. The cost is a step for each block of the message.
    #[inline(always)]
    pub fn getq<B: Blocks>(&mut self, store: &mut B) -> Option<InHand>
        requires { AreCounted self.old.flows (list_at (B.value store.old) self.old.list) }
        ensures taken { MatchOption result (Unpopped (B.value store.old) (B.value store.new) self.old.list)
            (λ m. Popped (B.value store.old) (B.value store.new) self.old.list (token m)) }
        ensures counted { AreCounted self.new.flows (list_at (B.value store.new) self.new.list) }
        ensures flows { plain_flows self.new.flows ≡ plain_flows self.old.flows }
        ensures want_read { MatchOption result (self.new.want_read ≡ self.old.want_read)
            (λ _. self.new.want_read ≡ false) }
        ensures list { self.new.list ≡ self.old.list }
        ensures no_enable { self.new.no_enable ≡ self.old.no_enable }
    {
        store.audit();
        let message = store.pop(self.list)?;
        let share = share_of(store, &message);
        self.flows.remove(share);
        self.want_read = false;
        Some(message)
    }

    /// How many bytes count in a band: all of its messages', and in band 0 those of high priority too.
    pub fn count(&self, band: Band) -> usize
        ensures kept { result ≡ count_in (flow_at band.0 self.now.flows) }
        ensures count { (q : List (List Block)) → AreCounted self.now.flows q → result ≡ count_of band.0 q }
    {
        self.flows.at(band).count() as usize
    }

    /// How many bytes stand on the queue, in all bands.
    pub fn total(&self) -> usize
        ensures total { (q : List (List Block)) → AreCounted self.now.flows q → result ≡ sum_by bytes_of q }
    {
        self.flows.total()
    }

    /// How many bytes of data stand on the queue, in messages of data of one band or of all: what a flush takes.
    pub fn data_bytes(&self, band: Option<Band>) -> usize
        ensures all { (q : List (List Block)) → AreCounted self.now.flows q → band ≡ None → result ≡ sum_by data_bytes_of q }
        ensures one { (q : List (List Block)) (b : Band) → AreCounted self.now.flows q → band ≡ Some b → result ≡ sum_by (data_share b.0) q }
    {
        self.flows.data_bytes(band)
    }

    /// Whether a band's count is at or above its high-water mark.
    pub fn is_full(&self, band: Band) -> bool
        ensures low { band.0 < BANDS }
        ensures kept { result ≡ (flow_at band.0 self.now.flows).full }
        ensures full { (q : List (List Block)) → AreCounted self.now.flows q →
            result ≡ is_full (flow_at band.0 self.now.flows).high band.0 q }
    {
        self.flows.is_full(band)
    }

    // Sets want-read where nothing stands on the list.
    fn see_empty<B: Blocks>(&mut self, store: &B)
        ensures empty { list_at (B.value store.now) self.old.list ≡ [] → self.new.want_read ≡ true }
        ensures filled { (list_at (B.value store.now) self.old.list ≡ [] → ⊥) →
            self.new.want_read ≡ self.old.want_read }
        ensures flows { self.new.flows ≡ self.old.flows }
        ensures list { self.new.list ≡ self.old.list }
        ensures no_enable { self.new.no_enable ≡ self.old.no_enable }
    {
        if store.is_empty(self.list) {
            self.want_read = true;
        }
    }

    /// Frees the messages of data, or all of them: `flushq(9F)` with FLUSHDATA or FLUSHALL.
    /// Want-read is set where that leaves the queue empty.
    pub fn flushq<B: Blocks>(&mut self, store: &mut B, what: Flush)
        requires { AreCounted self.old.flows (list_at (B.value store.old) self.old.list) }
        ensures flushed { let s = B.value store.old in
            B.value store.new ≡ placed s self.old.list
            (flushed (record { all = takes_all what; band = None }) (list_at s self.old.list)) }
        ensures counted { AreCounted self.new.flows (list_at (B.value store.new) self.new.list) }
        ensures flows { plain_flows self.new.flows ≡ plain_flows self.old.flows }
        ensures empty { list_at (B.value store.new) self.old.list ≡ [] → self.new.want_read ≡ true }
        ensures filled { (list_at (B.value store.new) self.old.list ≡ [] → ⊥) →
            self.new.want_read ≡ self.old.want_read }
        ensures list { self.new.list ≡ self.old.list }
        ensures no_enable { self.new.no_enable ≡ self.old.no_enable }
    {
        store.audit();
        store.drop_where(
            self.list,
            FlushWhat {
                all: what.takes_all(),
                band: None,
            },
        );
        self.flows.flush(what);
        self.see_empty(store);
    }

    /// Frees the messages of data of one band, and for band 0 those of high priority too: `flushband(9F)` with FLUSHDATA.
    /// Want-read is set where that leaves the queue empty.
    pub fn flushband<B: Blocks>(&mut self, store: &mut B, band: Band)
        requires counted { AreCounted self.old.flows (list_at (B.value store.old) self.old.list) }
        ensures flushed { let s = B.value store.old in
            B.value store.new ≡ placed s self.old.list
            (flushed (record { all = false; band = Some band }) (list_at s self.old.list)) }
        ensures counted { AreCounted self.new.flows (list_at (B.value store.new) self.new.list) }
        ensures flows { plain_flows self.new.flows ≡ plain_flows self.old.flows }
        ensures empty { list_at (B.value store.new) self.old.list ≡ [] → self.new.want_read ≡ true }
        ensures filled { (list_at (B.value store.new) self.old.list ≡ [] → ⊥) →
            self.new.want_read ≡ self.old.want_read }
        ensures list { self.new.list ≡ self.old.list }
        ensures no_enable { self.new.no_enable ≡ self.old.no_enable }
    {
        store.audit();
        store.drop_where(
            self.list,
            FlushWhat {
                all: false,
                band: Some(band),
            },
        );
        self.flows.flush_band(band);
        self.see_empty(store);
    }

    /// Sets the marks of a band. It is full from then on exactly where its count is at or above the new high-water mark.
    pub fn set_marks(&mut self, band: Band, high: u32, low: u32)
        requires some { 1 ≤ high }
        requires order { low ≤ high }
        ensures marks { self.new.flows
            ≡ slice_set self.old.flows band.0 (marked_with high low (flow_at band.0 self.old.flows)) }
        ensures counted { (q : List (List Block)) → AreCounted self.old.flows q → AreCounted self.new.flows q }
        ensures others { OnlyCounts self.old self.new }
    {
        self.flows.mark(band, high, low);
    }

    /// Sets the same marks in each band. A band is full from then on exactly where its count is at or above the new high-water
    /// mark, and a writer that waits does so still.
    pub fn mark_bands(&mut self, marks: Marks)
        requires some { 1 ≤ marks.high }
        requires order { marks.low ≤ marks.high }
        ensures flows { plain_flows self.new.flows ≡ map (with_marks marks.high marks.low) (plain_flows self.old.flows) }
        ensures counted { (q : List (List Block)) → AreCounted self.old.flows q → AreCounted self.new.flows q }
        ensures others { OnlyCounts self.old self.new }
    {
        self.flows.mark_all(marks.high, marks.low);
    }

    /// Whether no message stands on the queue's list.
    pub fn is_empty<B: Blocks>(&self, store: &B) -> bool
        ensures { result ≡ is_none_left (list_at (B.value store.now) self.now.list) }
    {
        store.is_empty(self.list)
    }

    /// Sets want-write of a band, for a writer that waits until `back_enable` lets it go.
    pub fn let_wait(&mut self, band: Band)
        ensures flows { plain_flows self.new.flows ≡ with_writer_at band.0 (plain_flows self.old.flows) }
        ensures counted { (q : List (List Block)) → AreCounted self.old.flows q → AreCounted self.new.flows q }
        ensures others { OnlyCounts self.old self.new }
    {
        self.flows.set_waiting(band, true);
    }

    /// Lets the waiting writers of each band go whose count is at or below its low-water mark: want-write is cleared.
    /// Answers whether there was one, and the nearest earlier queue that has service is then to be enabled.
    #[inline(always)]
    pub fn back_enable(&mut self) -> bool
        ensures went { result ≡ list_any relieves self.old.flows }
        ensures flows { (band : ℕ) → band < BANDS → flow_at band self.new.flows ≡ relieved (flow_at band self.old.flows) }
        ensures counted { (q : List (List Block)) → AreCounted self.old.flows q → AreCounted self.new.flows q }
        ensures others { OnlyCounts self.old self.new }
    {
        self.flows.relieve()
    }
}
