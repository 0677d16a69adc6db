//! The numbers of a ledger: the book of a direction, what stands in its lines, and the sum of what has gone.

ghost use Rattle.std.specs.Prelude.{ℕ, ◌≡◌, ◌<◌, ◌≤◌, ◌^◌, sum_by};
ghost use Rattle.strm_laws.specs.Ledgers.{inline};
ghost use Rattle.strm_laws.specs.State.{book};

use crate::streams::Streams;
use strm_blocks::Blocks;
use strm_types::{Book, Dir, Side};

/// The sum of counts.
pub(crate) fn sum(counts: &[u64]) -> u64
    requires { sum_by (λ n. n) counts.now < 2 ^ 64 }
    ensures { result ≡ sum_by (λ n. n) counts.now }
{
    let Some((first, rest)) = counts.split_first() else {
        return 0;
    };
    *first + sum(rest)
}

impl Streams {
    ghost use Rattle.strm_blocks.specs.Blocks.{StoreValue};
    ghost use Rattle.strm_pair.specs.Pairs.{state_in};

    /// What was booked of a direction.
    pub(crate) fn book(&self, direction: Dir) -> Book
        ensures { (s : StoreValue) → result ≡ book direction (state_in s self.now) }
    {
        match direction {
            Dir::MasterToSlave => self.books.master,
            Dir::SlaveToMaster => self.books.slave,
        }
    }

    /// How many bytes stand in the unfinished lines of a direction, which are its reader's.
    pub(crate) fn line_lens(&self, direction: Dir) -> usize
        ensures { (s : StoreValue) → result ≡ inline direction (state_in s self.now) }
    {
        match direction {
            Dir::MasterToSlave => self.end(Side::Slave).stack.line_lens(),
            Dir::SlaveToMaster => self.end(Side::Master).stack.line_lens(),
        }
    }
}
