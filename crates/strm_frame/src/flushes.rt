//! What is read of an M_FLUSH in hand (STREAMS Programming Guide, "Flush Handling").

ghost use Rattle.std.specs.Prelude.{◌≡◌, false, true};
ghost use Rattle.strm_types.specs.Flush.{is_data_kind};
ghost use Rattle.strm_types.specs.Flushing.{asked_by};
ghost use Rattle.strm_blocks.specs.Blocks.{IsInHand, in_hand, block_at, token};
ghost use Rattle.strm_frame.specs.Outboxes.{message_in};

use strm_blocks::{Blocks, InHand};
use strm_msg::first_bytes;
use strm_types::FlushAsked;

/// What an M_FLUSH in hand asks for.
pub fn asked_of<B: Blocks>(store: &B, message: &InHand) -> FlushAsked
    requires in_hand { IsInHand (B.value store.now) (token message.now) }
    requires kind { is_data_kind (block_at 0 (in_hand (B.value store.now) (token message.now))).kind ≡ false }
    ensures asked { result ≡ asked_by (message_in (B.value store.now) (token message.now)).plain }
{
    let mut bytes = [0; 2];
    let count = first_bytes(store, message, &mut bytes);
    FlushAsked::read(&bytes[..count])
}
