//! The flow control of the bands above 0.

ghost use Rattle.std.specs.Prelude.{◌≡◌, ◌<◌, ◌≤◌, ◌+◌, ℕ, false, MatchOption, length, map, replicate, slice_set, sum_by};
ghost use Rattle.std.specs.List.{list_any};
ghost use Rattle.strm_types.specs.declared.limits.TheConstants.{BANDS};
ghost use Rattle.strm_types.specs.declared.options.Marks.{Marks};
ghost use Rattle.strm_queue.specs.Flows.{count_in, IsMarked, flushed_of, marked_with, relieves, relieved, kept_bytes};
ghost use Rattle.strm_queue.specs.Flushes.{takes_all};
ghost use Rattle.strm_queue.specs.Kept.{AllRest, FewBytes, flow_at};
ghost use Rattle.strm_queue.specs.Sets.{has};

use crate::bandset::BandSet;
use crate::common::Common;
use crate::flow::Flow;
use crate::flush::Flush;
use crate::table::Table;
use std::marker::Model;
use strm_types::{BANDS, Marks};

/// The flow control of the bands above 0. Contracts see a list, from band 1 up: place 0 is that of band 1.
#[derive(Drop)]
pub(crate) struct Banded {
    common: Common,
    table: Table,
}

impl Model for Banded {
    ghost use Rattle.std.specs.Prelude.{List};
    ghost use Rattle.strm_queue.specs.declared.flow.Flow.{Flow};

    ghost Value = { List Flow };

    ghost use Rattle.strm_queue.specs.Rows.{all_rows, flows_from, AreRows};

    ghost view = { λ b. flows_from b.common 0 (all_rows b.table.rows.items) };

    ghost invariant = { λ b. AreRows (all_rows b.table.rows.items) };
}

impl Banded {
    /// Bands where nothing stands, each with these marks, in a room of which nothing is left.
    pub fn new(high: u32, low: u32, table: Table) -> Banded
        requires { 1 ≤ high }
        ensures { result ≡ replicate 255 (record {
          data_bytes = 0;
          other_bytes = 0;
          high = high;
          low = low;
          full = false;
          want_write = false;
        }) }
    {
        Banded {
            common: Common::new(high, low),
            table,
        }
    }

    /// Makes all bands as new, in place.
    pub fn renew(&mut self, high: u32, low: u32)
        requires { 1 ≤ high }
        ensures { self.new ≡ replicate 255 (record {
          data_bytes = 0;
          other_bytes = 0;
          high = high;
          low = low;
          full = false;
          want_write = false;
        }) }
    {
        self.common = Common::new(high, low);
    }

    /// Gives the room back.
    pub fn into_table(self) -> Table {
        self.table
    }

    /// The flow control of a band.
    pub fn at(&self, at: usize) -> Flow
        requires within { at + 1 < BANDS }
        requires few { FewBytes self.now }
        ensures flow { result ≡ flow_at at self.now }
        ensures marked { IsMarked result }
    {
        self.common.flow(at, self.table.row(at))
    }

    /// Sets the flow control of a band.
    pub fn set(&mut self, at: usize, flow: Flow)
        requires within { at + 1 < BANDS }
        requires few { count_in flow ≤ 16777216 }
        requires marked { IsMarked flow }
        ensures { self.new ≡ slice_set self.old at flow }
    {
        let row = self.common.set(at, flow);
        self.table.write(at, row);
    }

    /// Sets the same marks in each band, whatever their number.
    pub fn mark(&mut self, high: u32, low: u32)
        ensures { self.new ≡ map (marked_with high low) self.old }
    {
        self.common.mark(high, low);
    }

    // The bands where bytes stand.
    fn filled(&self) -> BandSet
        ensures none { (at : ℕ) → at + 1 < BANDS → has result at ≡ false → count_in (flow_at at self.now) ≡ 0 }
        ensures marked { (at : ℕ) → at + 1 < BANDS → IsMarked (flow_at at self.now) }
        ensures each { length self.now + 1 ≡ BANDS }
    {
        let _ = &self.table;
        self.common.filled
    }

    /// The bands for which a writer waits.
    pub fn waiting(&self) -> BandSet
        ensures waits { (at : ℕ) → at + 1 < BANDS → has result at ≡ (flow_at at self.now).want_write }
        ensures each { length self.now + 1 ≡ BANDS }
    {
        let _ = &self.table;
        self.common.waiting
    }

    /// The marks of all bands, where they have the same ones and no writer waits for any. The cost is a step where no band has marks
    /// of its own and no writer waits for one, or else a step for each band at most.
    pub fn shared(&self) -> Option<Marks>
        requires { FewBytes self.now }
        ensures { MatchOption result ((marks : Marks) → AllRest marks self.now → ⊥) (λ marks. AllRest marks self.now) }
    {
        if let Some(marks) = self.common.shared() {
            return Some(marks);
        }
        self.same_marks()
    }

    // What `shared` does where a band has marks of its own or a writer waits. It is apart, since mostly neither holds.
    #[cold]
    #[inline(never)]
    fn same_marks(&self) -> Option<Marks>
        requires { FewBytes self.now }
        ensures { MatchOption result ((marks : Marks) → AllRest marks self.now → ⊥) (λ marks. AllRest marks self.now) }
    {
        let first = self.at(0);
        let marks = Marks {
            high: first.high,
            low: first.low,
        };
        for at in 0..BANDS - 1 {
            if !self.at(at).is_at_rest(marks) {
                return None;
            }
        }
        Some(marks)
    }

    /// How many bytes stand in these bands, all of them or those of data alone.
    pub fn total(&self, data_alone: bool) -> usize
        requires { FewBytes self.now }
        ensures { result ≡ sum_by (kept_bytes data_alone) self.now }
    {
        let filled = self.filled();
        let mut total = 0;
        let mut from = 0;
        while let Some(at) = filled.next(from) {
            let flow = self.at(at);
            total += flow.kept(data_alone) as usize;
            from = at + 1;
        }
        total
    }

    /// Counts out what a flush of all messages, or of those of data, has taken.
    pub fn flush(&mut self, what: Flush)
        requires { FewBytes self.old }
        ensures each { (at : ℕ) → at + 1 < BANDS → flow_at at self.new ≡ flushed_of (takes_all what) (flow_at at self.old) }
        ensures long { length self.new ≡ length self.old }
    {
        let filled = self.filled();
        let mut from = 0;
        while let Some(at) = filled.next(from) {
            let flow = self.at(at);
            self.set(at, flow.flushed(what));
            from = at + 1;
        }
    }

    /// Lets the waiting writers of each band go whose count is at or below its low-water mark, and says whether there was one.
    pub fn relieve(&mut self) -> bool
        requires { FewBytes self.old }
        ensures went { result ≡ list_any relieves self.old }
        ensures each { (at : ℕ) → at + 1 < BANDS → flow_at at self.new ≡ relieved (flow_at at self.old) }
        ensures long { length self.new ≡ length self.old }
    {
        let waiting = self.waiting();
        let mut went = false;
        let mut from = 0;
        while let Some(at) = waiting.next(from) {
            let flow = self.at(at);
            went |= flow.lets_go();
            self.set(at, flow.relieved());
            from = at + 1;
        }
        went
    }
}
