//! The room in which a queue keeps what it has of the bands above 0.

ghost use Rattle.std.specs.Prelude.{◌≡◌, ◌<◌, ◌≤◌, ◌+◌, length, slice_set, vec_capacity};
ghost use Rattle.strm_types.specs.declared.limits.TheConstants.{BANDS};
ghost use Rattle.strm_queue.specs.Rows.{all_rows, row_at};

use crate::common::{EMPTY, Row};
use std::alloc::{AllocError, Global};
use strm_types::BANDS;

const OTHERS: usize = BANDS - 1;

/// Room for the counts and marks of a queue's bands above 0: 255 rows of 16 bytes, on the heap. A queue has one from its making
/// on, and gives it back by `Queue::into_table`. So queues come and go without memory being asked for, and each band has its place
/// whatever the others hold: a queue that is restored may have marks of its own in every band. Rows are written up to that of the highest band
/// that was used, so none is where all messages are of band 0 or of high priority.
#[derive(Drop)]
pub struct Table {
    rows: Vec<Row>,
    pub ghost few: { length rows.items < BANDS },
    pub ghost room: { BANDS ≤ vec_capacity rows + 1 },
}

impl Table {
    /// Asks for the memory.
    pub fn new(alloc: Global) -> Result<Table, AllocError> {
        Ok(Table {
            rows: Vec::with_capacity(alloc, OTHERS)?,
        })
    }

    /// The row of a band, by its place: that of band 1 is the first.
    #[inline(always)]
    pub(crate) fn row(&self, at: usize) -> Row
        ensures { result ≡ row_at at (all_rows self.now.rows.items) }
    {
        match self.rows.get(at) {
            Some(row) => *row,
            None => EMPTY,
        }
    }

    /// Writes the row of a band, by its place.
    #[inline(always)]
    pub(crate) fn write(&mut self, at: usize, row: Row)
        requires { at + 1 < BANDS }
        ensures { all_rows self.new.rows.items ≡ slice_set (all_rows self.old.rows.items) at row }
    {
        if self.rows.len() <= at {
            self.reach(at + 1);
        }
        self.rows[at] = row;
    }

    // Writes rows where nothing counts, up to so many in all.
    #[cold]
    #[inline(never)]
    fn reach(&mut self, count: usize)
        requires few { count < BANDS }
        requires more { length self.old.rows.items ≤ count }
        ensures rows { all_rows self.new.rows.items ≡ all_rows self.old.rows.items }
        ensures count { length self.new.rows.items ≡ count }
    {
        let Ok(()) = self.rows.resize(count, EMPTY) else {
            unreachable!()
        };
    }
}
