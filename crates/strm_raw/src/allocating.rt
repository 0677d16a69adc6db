//! A message block and a data block that are taken from those that are free.
ghost use Rattle.std.specs.Prelude.{◌≤◌, length, MatchResult};
ghost use Rattle.strm_blocks.specs.Blocks.{filled_block, token};
ghost use Rattle.strm_blocks.specs.Outcomes.{Copied, NoneFree};

use crate::making::{free_data, free_message};
use crate::msg_nodes::Shows;
use crate::raw::RawStore;
use strm_blocks::{InHand, NoBlocks};
use strm_types::{Band, MsgKind};

impl RawStore {
    /// Takes a free message block and a free data block with these bytes written, as a message of that kind and band.
    #[inline(always)]
    pub(crate) fn alloc_free(
        &mut self,
        kind: MsgKind,
        band: Band,
        bytes: &[u8],
    ) -> Result<InHand, NoBlocks>
        requires { length bytes.now ≤ 256 }
        ensures { MatchResult result
            (λ m. Copied self.old self.new (token m) (filled_block kind band.0 bytes.now))
            (λ _. NoneFree self.old self.new) }
    {
        if self.spare_m == 0 {
            return Err(NoBlocks);
        }
        if self.spare_d == 0 {
            return Err(NoBlocks);
        }
        let number = free_data(&mut self.memory, &mut self.ledger, self.free_data);
        let at = free_message(&mut self.memory, &mut self.ledger, self.free_msg);
        let free = self.memory.message(at);
        let next = self.memory.datum(number).next;
        self.free_msg = free.next;
        self.free_data = next;
        self.spare_m -= 1;
        self.spare_d -= 1;
        self.memory.set_references(number, 1);
        let shows = Shows {
            kind,
            band: band.0,
            number,
            start: 0,
            end: bytes.len(),
        };
        self.memory.show(at, shows);
        // The bytes come last: what stands in registers needn't be kept over their copy.
        self.memory.write(number, 0, bytes);
        self.ledger.note(at.at, number.at, 0, 0);
        Ok(InHand::of(free.name))
    }

    /// The same. It stands apart, so that the ordinary way saves no registers for what makes a node.
    #[cold]
    #[inline(never)]
    pub(crate) fn alloc_unlinked(
        &mut self,
        kind: MsgKind,
        band: Band,
        bytes: &[u8],
    ) -> Result<InHand, NoBlocks>
        requires { length bytes.now ≤ 256 }
        ensures { MatchResult result
            (λ m. Copied self.old self.new (token m) (filled_block kind band.0 bytes.now))
            (λ _. NoneFree self.old self.new) }
    {
        self.alloc_free(kind, band, bytes)
    }
}
