//! The flow control of a queue's bands.

ghost use Rattle.std.specs.Prelude.{◌≡◌, ◌<◌, ◌≤◌, ◌+◌, ℕ, true, false, List, [], length, Some, None, MatchOption, not, ◌||◌, if◌then◌else◌, slice_set, sum_by, replicate, map};
ghost use Rattle.std.specs.List.{list_any};
ghost use Rattle.std.specs.Bool.{OnFalse};
ghost use Rattle.strm_types.specs.declared.kinds.Band.{Band};
ghost use Rattle.strm_types.specs.Queue.{with_marks};
ghost use Rattle.strm_types.specs.declared.limits.TheConstants.{BANDS};
ghost use Rattle.strm_types.specs.declared.options.Marks.{Marks};
ghost use Rattle.strm_blocks.specs.Blocks.{Block};
ghost use Rattle.strm_queue.specs.Flows.{count_in, IsMarked, added_to, removed_from, flushed_of, marked_with, waiting, relieves, relieved, plain_flows};
ghost use Rattle.strm_queue.specs.Flushes.{takes_all};
ghost use Rattle.strm_queue.specs.Kept.{AreCounted, bytes_of, data_bytes_of, data_share, flow_at, RestAbove};

use crate::banded::Banded;
use crate::flow::Flow;
use crate::flush::Flush;
use crate::share::Share;
use crate::table::Table;
use std::marker::Model;
use strm_types::{Band, Marks};

/// The flow control of the bands of a queue: that of band 0 beside that of all others. Contracts see a list, from band 0 up.
#[derive(Drop)]
pub struct Flows {
    first: Flow,
    others: Banded,
}

impl Model for Flows {
    ghost use Rattle.std.specs.Prelude.{List, ◌∷◌};
    ghost use Rattle.strm_queue.specs.declared.flow.Flow.{Flow};

    ghost Value = { List Flow };

    ghost use Rattle.strm_queue.specs.Kept.{AreFlows};

    ghost view = { λ f. f.first ∷ f.others };

    ghost invariant = { λ f. AreFlows (f.first ∷ f.others) };
}

impl Flows {
    /// The flow control of bands where nothing stands, each with these marks.
    pub(crate) fn new(high: u32, low: u32, table: Table) -> Flows
        requires { 1 ≤ high }
        ensures counted { AreCounted result [] }
        ensures flows { plain_flows result ≡ replicate BANDS (record { high = high; low = low; want_write = false }) }
    {
        Flows {
            first: Flow::new(high, low),
            others: Banded::new(high, low, table),
        }
    }

    /// Makes the flow control of all bands as new, in place.
    pub(crate) fn renew(&mut self, high: u32, low: u32)
        requires { 1 ≤ high }
        ensures counted { AreCounted self.new [] }
        ensures flows { plain_flows self.new ≡ replicate BANDS (record { high = high; low = low; want_write = false }) }
    {
        self.first = Flow::new(high, low);
        self.others.renew(high, low);
    }

    /// Gives the room of the bands above 0 back.
    pub(crate) fn into_table(self) -> Table {
        self.others.into_table()
    }

    // The flow control of a band by its number.
    #[inline(always)]
    fn get(&self, band: usize) -> Flow
        requires { band < BANDS }
        ensures flow { result ≡ flow_at band self.now }
        ensures few { count_in result ≤ 16777216 }
        ensures marked { IsMarked result }
    {
        if band == 0 {
            return self.first;
        }
        self.others.at(band - 1)
    }

    // Sets the flow control of a band.
    #[inline(always)]
    fn set(&mut self, band: usize, flow: Flow)
        requires band { band < BANDS }
        requires few { count_in flow ≤ 16777216 }
        requires marked { IsMarked flow }
        ensures { self.new ≡ slice_set self.old band flow }
    {
        if band == 0 {
            self.first = flow;
        } else {
            self.others.set(band - 1, flow);
        }
    }

    /// The flow control of a band.
    pub fn at(&self, band: Band) -> Flow
        ensures flow { result ≡ flow_at band.0 self.now }
        ensures few { count_in result ≤ 16777216 }
        ensures low { band.0 < BANDS }
    {
        self.get(usize::from(band.0))
    }

    /// Whether a band is full.
    pub fn is_full(&self, band: Band) -> bool
        ensures full { result ≡ (flow_at band.0 self.now).full }
        ensures low { band.0 < BANDS }
    {
        self.get(usize::from(band.0)).full
    }

    /// The marks of all bands above 0, where they have the same ones and no writer waits for any of them. The cost is a step where
    /// none of them has been given marks of its own and no writer waits for one, or else a step for each band at most.
    pub fn shared_above(&self) -> Option<Marks>
        ensures { MatchOption result ((marks : Marks) → RestAbove marks self.now → ⊥) (λ marks. RestAbove marks self.now) }
    {
        self.others.shared()
    }

    /// How many bytes stand in all bands. The cost is a step for each band above 0 where some do.
    pub(crate) fn total(&self) -> usize
        ensures { (q : List (List Block)) → AreCounted self.now q → result ≡ sum_by bytes_of q }
    {
        self.first.count() as usize + self.others.total(false)
    }

    /// How many bytes of data stand in one band, or in all, at the cost of `total`.
    pub(crate) fn data_bytes(&self, band: Option<Band>) -> usize
        ensures all { (q : List (List Block)) → AreCounted self.now q → band ≡ None → result ≡ sum_by data_bytes_of q }
        ensures one { (q : List (List Block)) (b : Band) → AreCounted self.now q → band ≡ Some b → result ≡ sum_by (data_share b.0) q }
    {
        if let Some(band) = band {
            return self.at(band).data_bytes as usize;
        }
        self.first.data_bytes as usize + self.others.total(true)
    }

    /// Counts a message in. Band 0 is apart and inlined, since most messages count there.
    #[inline(always)]
    pub(crate) fn add(&mut self, share: Share)
        requires few { count_in (flow_at share.band.0 self.old) + share.bytes ≤ 16777216 }
        ensures { self.new ≡ slice_set self.old share.band.0
            (added_to share.is_data share.bytes (flow_at share.band.0 self.old)) }
    {
        if share.band.0 > 0 {
            self.add_above(share);
            return;
        }
        let flow = self.get(0);
        self.set(0, flow.with(share));
    }

    // Counts a message in, of any band.
    #[inline(never)]
    fn add_above(&mut self, share: Share)
        requires few { count_in (flow_at share.band.0 self.old) + share.bytes ≤ 16777216 }
        ensures { self.new ≡ slice_set self.old share.band.0
            (added_to share.is_data share.bytes (flow_at share.band.0 self.old)) }
    {
        let at = usize::from(share.band.0);
        let flow = self.get(at);
        self.set(at, flow.with(share));
    }

    /// Counts a message out. Band 0 is apart and inlined, as in `add`.
    #[inline(always)]
    pub(crate) fn remove(&mut self, share: Share)
        requires has { share.bytes ≤ (if share.is_data then (flow_at share.band.0 self.old).data_bytes
            else (flow_at share.band.0 self.old).other_bytes) }
        ensures { self.new ≡ slice_set self.old share.band.0
            (removed_from share.is_data share.bytes (flow_at share.band.0 self.old)) }
    {
        if share.band.0 > 0 {
            self.remove_above(share);
            return;
        }
        let flow = self.get(0);
        self.set(0, flow.without(share));
    }

    // Counts a message out, of any band.
    #[inline(never)]
    fn remove_above(&mut self, share: Share)
        requires has { share.bytes ≤ (if share.is_data then (flow_at share.band.0 self.old).data_bytes
            else (flow_at share.band.0 self.old).other_bytes) }
        ensures { self.new ≡ slice_set self.old share.band.0
            (removed_from share.is_data share.bytes (flow_at share.band.0 self.old)) }
    {
        let at = usize::from(share.band.0);
        let flow = self.get(at);
        self.set(at, flow.without(share));
    }

    /// Counts out what a flush of all messages, or of those of data, has taken. The cost is that of `total`.
    pub(crate) fn flush(&mut self, what: Flush)
        ensures each { (band : ℕ) → band < BANDS → flow_at band self.new ≡ flushed_of (takes_all what) (flow_at band self.old) }
        ensures eight { length self.new ≡ length self.old }
    {
        self.first = self.first.flushed(what);
        self.others.flush(what);
    }

    /// Counts out what a flush of data of one band has taken.
    pub(crate) fn flush_band(&mut self, band: Band)
        ensures low { band.0 < BANDS }
        ensures flows { self.new ≡ slice_set self.old band.0 (flushed_of false (flow_at band.0 self.old)) }
    {
        let at = usize::from(band.0);
        let flow = self.get(at);
        self.set(at, flow.flushed(Flush::Data));
    }

    /// Sets the marks of a band.
    pub(crate) fn mark(&mut self, band: Band, high: u32, low: u32)
        ensures { self.new ≡ slice_set self.old band.0 (marked_with high low (flow_at band.0 self.old)) }
    {
        let at = usize::from(band.0);
        let flow = self.get(at);
        self.set(at, flow.marked(high, low));
    }

    /// Sets the same marks in each band, whatever their number.
    pub(crate) fn mark_all(&mut self, high: u32, low: u32)
        ensures flows { plain_flows self.new ≡ map (with_marks high low) (plain_flows self.old) }
        ensures counted { (q : List (List Block)) → AreCounted self.old q → AreCounted self.new q }
    {
        self.first = self.first.marked(high, low);
        self.others.mark(high, low);
    }

    /// Sets or clears want-write of a band: whether a writer waits for it.
    pub fn set_waiting(&mut self, band: Band, waits: bool)
        ensures flows { self.new ≡ slice_set self.old band.0 (waiting waits (flow_at band.0 self.old)) }
        ensures counted { (q : List (List Block)) → AreCounted self.old q → AreCounted self.new q }
    {
        let at = usize::from(band.0);
        let mut flow = self.get(at);
        flow.want_write = waits;
        self.set(at, flow);
    }

    /// Lets the waiting writers of each band go whose count is at or below its low-water mark, and says whether there was one.
    /// Only bands for which a writer waits are asked.
    #[inline(always)]
    pub(crate) fn relieve(&mut self) -> bool
        ensures went { result ≡ list_any relieves self.old }
        ensures each { (band : ℕ) → band < BANDS → flow_at band self.new ≡ relieved (flow_at band self.old) }
        ensures counted { (q : List (List Block)) → AreCounted self.old q → AreCounted self.new q }
    {
        if !self.has_waiting() {
            return false;
        }
        self.relieve_waiting()
    }

    // Whether a writer waits for a band.
    fn has_waiting(&self) -> bool
        ensures none { OnFalse result ((band : ℕ) → band < BANDS → (flow_at band self.now).want_write ≡ false) }
        ensures eight { length self.now ≡ BANDS }
    {
        self.first.want_write || !self.others.waiting().is_empty()
    }

    // What `relieve` does where a writer waits. It is apart, since mostly none does.
    #[cold]
    #[inline(never)]
    fn relieve_waiting(&mut self) -> bool
        ensures went { result ≡ list_any relieves self.old }
        ensures each { (band : ℕ) → band < BANDS → flow_at band self.new ≡ relieved (flow_at band self.old) }
        ensures counted { (q : List (List Block)) → AreCounted self.old q → AreCounted self.new q }
    {
        let went = self.first.lets_go();
        self.first = self.first.relieved();
        went | self.others.relieve()
    }
}
