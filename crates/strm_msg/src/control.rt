//! Control bytes that leave a message.
ghost use Rattle.std.specs.Prelude.{◌≡◌, ◌≤◌, length, take};
ghost use Rattle.strm_blocks.specs.Blocks.{IsInHand, in_hand, changed, token};
ghost use Rattle.strm_msg.specs.Bytes.{control_bytes};
ghost use Rattle.strm_msg.specs.Messages.{IsChain};
ghost use Rattle.strm_msg.specs.Taken.{without_control};

use crate::adjust::adjmsg;
use crate::bytes::first_bytes;
use strm_blocks::{Blocks, InHand};

/// Takes the first bytes of a message's control part into a buffer, as many as the buffer has room for, and trims them from the
/// message's M_PROTO or M_PCPROTO blocks, which stay in the chain (`adjmsg(9F)`). The data part stays as it is.
pub fn take_control<B: Blocks>(store: &mut B, message: &InHand, buffer: &mut [u8])
    requires in_hand { IsInHand (B.value store.old) (token message.now) }
    requires chain { IsChain (in_hand (B.value store.old) (token message.now)) }
    requires has { length buffer.old ≤ length (control_bytes (in_hand (B.value store.old) (token message.now))) }
    ensures given { buffer.new ≡ take (length buffer.old) (control_bytes (in_hand (B.value store.old) (token message.now))) }
    ensures trimmed { let chain = in_hand (B.value store.old) (token message.now) in
        B.value store.new ≡ changed (B.value store.old) (token message.now) (without_control (length buffer.old) chain) }
{
    let count = buffer.len();
    first_bytes(store, message, buffer);
    adjmsg(store, message, count as isize);
}
