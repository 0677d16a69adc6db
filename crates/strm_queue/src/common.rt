//! What the bands above 0 of a queue have in common, and what is kept of each.

ghost use Rattle.std.specs.Prelude.{◌≡◌, ◌≢◌, ◌<◌, ◌+◌, ◌^◌, ℕ, IfSome, false, nat_lt};
ghost use Rattle.strm_types.specs.declared.limits.TheConstants.{BANDS};
ghost use Rattle.strm_queue.specs.Flows.{count_in, marked_with, plain_flow, at_rest, IsMarked};
ghost use Rattle.strm_queue.specs.Rows.{counts_of, high_of, low_of, row_flow};
ghost use Rattle.strm_queue.specs.Sets.{has};
ghost use Rattle.strm_queue.specs.declared.common.Row.{Row};

use crate::bandset::BandSet;
use crate::flow::Flow;
use strm_types::Marks;

/// The counts of a band where bytes stand, and its own marks where it has some.
#[derive(Clone, Copy)]
pub(crate) struct Row {
    pub data_bytes: u32,
    pub other_bytes: u32,
    pub high: u32,
    pub low: u32,
}

/// No byte.
pub(crate) const EMPTY: Row = Row {
    data_bytes: 0,
    other_bytes: 0,
    high: 0,
    low: 0,
};

/// The marks of bands that have none of their own; the bands that do, those where bytes stand, and those for which a writer
/// waits.
#[derive(Clone, Copy)]
pub(crate) struct Common {
    pub marks: Marks,
    pub marked: BandSet,
    pub filled: BandSet,
    pub waiting: BandSet,
}

impl Common {
    /// Bands where nothing stands, and for which nobody waits.
    pub fn new(high: u32, low: u32) -> Common
        ensures high { result.marks.high ≡ high }
        ensures low { result.marks.low ≡ low }
        ensures marked { (at : ℕ) → has result.marked at ≡ false }
        ensures filled { (at : ℕ) → has result.filled at ≡ false }
        ensures waiting { (at : ℕ) → has result.waiting at ≡ false }
    {
        Common {
            marks: Marks { high, low },
            marked: BandSet::new(),
            filled: BandSet::new(),
            waiting: BandSet::new(),
        }
    }

    // The counts of a band: what is left in the row of one where no byte stands tells nothing.
    fn counts_of(&self, at: usize, row: Row) -> Row
        requires { at + 1 < BANDS }
        ensures { result ≡ counts_of self.now at row }
    {
        if self.filled.has(at) { row } else { EMPTY }
    }

    // The marks of a band.
    fn marks_of(&self, at: usize, row: Row) -> Marks
        requires { at + 1 < BANDS }
        ensures high { result.high ≡ high_of self.now at row }
        ensures low { result.low ≡ low_of self.now at row }
    {
        if self.marked.has(at) {
            Marks {
                high: row.high,
                low: row.low,
            }
        } else {
            self.marks
        }
    }

    /// The flow control of a band.
    pub fn flow(&self, at: usize, row: Row) -> Flow
        requires within { at + 1 < BANDS }
        requires few { count_in (row_flow self.now at row) < 2 ^ 32 }
        ensures { result ≡ row_flow self.now at row }
    {
        let marks = self.marks_of(at, row);
        let counts = self.counts_of(at, row);
        Flow {
            data_bytes: counts.data_bytes,
            other_bytes: counts.other_bytes,
            high: marks.high,
            low: marks.low,
            full: counts.data_bytes + counts.other_bytes >= marks.high,
            want_write: self.waiting.has(at),
        }
    }

    /// The marks of all bands, where none has marks of its own and no writer waits for one.
    pub fn shared(&self) -> Option<Marks>
        ensures { IfSome result (λ marks. (at : ℕ) (row : Row) → at + 1 < BANDS → plain_flow (row_flow self.now at row) ≡ at_rest marks) }
    {
        if self.marked.is_empty() && self.waiting.is_empty() {
            Some(self.marks)
        } else {
            None
        }
    }

    /// Sets the flow control of a band, and tells its row.
    pub fn set(&mut self, at: usize, flow: Flow) -> Row
        requires within { at + 1 < BANDS }
        requires few { count_in flow < 2 ^ 32 }
        requires marked { IsMarked flow }
        ensures here { row_flow self.new at result ≡ flow }
        ensures others { (k : ℕ) (row : Row) → k ≢ at → row_flow self.new k row ≡ row_flow self.old k row }
    {
        let shares = flow.high == self.marks.high && flow.low == self.marks.low;
        self.marked.put(at, !shares);
        self.filled.put(at, flow.count() > 0);
        self.waiting.put(at, flow.want_write);
        Row {
            data_bytes: flow.data_bytes,
            other_bytes: flow.other_bytes,
            high: flow.high,
            low: flow.low,
        }
    }

    /// Sets the marks of all bands.
    pub fn mark(&mut self, high: u32, low: u32)
        ensures each { (at : ℕ) (row : Row) → row_flow self.new at row ≡ marked_with high low (row_flow self.old at row) }
    {
        self.marks = Marks { high, low };
        self.marked = BandSet::new();
    }
}
