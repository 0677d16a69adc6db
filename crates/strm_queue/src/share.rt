//! What a message adds to the counts of a queue.

ghost use Rattle.std.specs.Prelude.{◌≡◌, ◌<◌, ◌≤◌, ◌+◌, ◌||◌, ◌&&◌, not, nat_lt};
ghost use Rattle.strm_types.specs.declared.limits.TheConstants.{BANDS};
ghost use Rattle.strm_types.specs.Message.{is_high_priority};
ghost use Rattle.strm_types.specs.Flush.{is_data_kind, counted_band};
ghost use Rattle.strm_blocks.specs.Blocks.{IsInHand, in_hand, block_at, token};
ghost use Rattle.strm_queue.specs.Kept.{bytes_of, band_of, is_data};

use strm_blocks::{Blocks, InHand};
use strm_types::Band;

/// The band in which a message counts, how many bytes it has, whether it is of a kind that a flush of data takes, and
/// whether it is of high priority.
#[derive(Clone, Copy)]
pub(crate) struct Share {
    pub band: Band,
    pub bytes: u32,
    pub is_data: bool,
    pub is_high: bool,
}

impl Share {
    /// Whether a put of this message enables a queue with these flags that has a service procedure.
    pub fn enables(self, want_read: bool, no_enable: bool) -> bool
        ensures { result ≡ (self.is_high || (not no_enable && (nat_lt 0 self.band.0 || want_read))) }
    {
        self.is_high || (!no_enable && (self.band.0 > 0 || want_read))
    }
}

/// What a message in hand adds to the counts of a queue.
pub(crate) fn share_of<B: Blocks>(store: &B, message: &InHand) -> Share
    requires { IsInHand (B.value store.now) (token message.now) }
    ensures band { result.band.0 ≡ band_of (in_hand (B.value store.now) (token message.now)) }
    ensures low { result.band.0 < BANDS }
    ensures bytes { result.bytes ≡ bytes_of (in_hand (B.value store.now) (token message.now)) }
    ensures kind { result.is_data ≡ is_data (in_hand (B.value store.now) (token message.now)) }
    ensures high { result.is_high
        ≡ is_high_priority (block_at 0 (in_hand (B.value store.now) (token message.now))).kind }
{
    store.audit();
    let summary = store.summary(message);
    let is_high = summary.kind.is_high_priority();
    Share {
        band: if is_high { Band(0) } else { summary.band },
        bytes: summary.bytes as u32,
        is_data: summary.kind.is_data_kind(),
        is_high,
    }
}
