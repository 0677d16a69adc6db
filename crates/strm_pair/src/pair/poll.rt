//! What those ask of a pair who wait for it: what a side is ready for, and what is left of the journal.

ghost use Rattle.std.specs.Prelude.{◌≡◌, ◌+◌, length};
ghost use Rattle.strm_types.specs.Journal.{room_used};
ghost use Rattle.strm_pair.specs.Readiness.{readiness};

use crate::pair::Pair;
use crate::readiness::Ready;
use strm_blocks::Blocks;
use strm_own::OwnModule;
use strm_types::Side;

impl<B: Blocks + Drop, M: OwnModule> Pair<B, M> {
    /// What a side is ready for (poll(2)). The cost is a step for each module, and under RPROTDIS one for each message in front that a read
    /// passes over.
    pub fn ready(&self, side: Side) -> Ready
        ensures { result ≡ readiness M.does side self.now.state }
    {
        self.streams.ready::<B, M>(&self.store, side)
    }

    /// How many more entries the journal takes, and how many of their bytes.
    pub fn journal_left(&self) -> (usize, usize)
        ensures entries { result.0 + length self.now.journal ≡ self.now.limits.journal_events }
        ensures bytes { result.1 + room_used self.now.journal ≡ self.now.limits.journal_bytes }
    {
        (self.journal.left(), self.journal.bytes_left())
    }
}
