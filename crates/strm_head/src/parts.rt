//! The control part of a message that is read (streamio(7I): I_SRDOPT with RPROTDAT and RPROTDIS).

ghost use Rattle.std.specs.Prelude.{◌≡◌, ◌<◌, ◌≤◌, true, length};
ghost use Rattle.strm_types.specs.Flush.{is_data_kind};
ghost use Rattle.strm_blocks.specs.Blocks.{IsInHand, in_hand, changed, dropped, block_at, token};
ghost use Rattle.strm_msg.specs.Bytes.{bytes_of};
ghost use Rattle.strm_msg.specs.Emptied.{Beside};
ghost use Rattle.strm_msg.specs.Messages.{IsChain};
ghost use Rattle.strm_head.specs.Parted.{shown_chain, rest_chain};

use strm_blocks::{Blocks, InHand};
use strm_msg::{control_len, free_emptied, trim_front};
use strm_types::ControlMode;

/// Leaves a message with the bytes alone that a read could give of it: under RPROTDIS those of its control part go.
pub(crate) fn show<B: Blocks>(store: &mut B, message: &InHand, control: ControlMode)
    requires in_hand { IsInHand (B.value store.old) (token message.now) }
    requires chain { IsChain (in_hand (B.value store.old) (token message.now)) }
    requires data { is_data_kind (block_at 0 (in_hand (B.value store.old) (token message.now))).kind ≡ true }
    ensures { let chain = in_hand (B.value store.old) (token message.now) in
        B.value store.new ≡ changed (B.value store.old) (token message.now) (shown_chain control chain) }
{
    if let ControlMode::Discard = control {
        let size = control_len(store, message).unwrap_or(0);
        trim_front(store, message, size);
    }
}

/// Leaves a message without its first `n` bytes, which a read has given. It keeps its kind while bytes of its control part
/// are left, and is M_DATA then; a part without bytes goes, and so does each block without.
pub(crate) fn leave_rest<B: Blocks>(store: &mut B, message: InHand, n: usize) -> InHand
    requires in_hand { IsInHand (B.value store.old) (token message) }
    requires chain { IsChain (in_hand (B.value store.old) (token message)) }
    requires data { is_data_kind (block_at 0 (in_hand (B.value store.old) (token message))).kind ≡ true }
    requires less { n < length (bytes_of (in_hand (B.value store.old) (token message))) }
    ensures { let chain = in_hand (B.value store.old) (token message) in
        Beside (dropped (B.value store.old) (token message)) (B.value store.new) (token result) (rest_chain n chain) }
{
    trim_front(store, &message, n);
    free_emptied(store, message)
}
