//! Blocks without bytes that leave a message.
ghost use Rattle.std.specs.Prelude.{◌≡◌, ◌<◌, length, MatchOption};
ghost use Rattle.std.specs.Bool.{OnTrue, OnFalse};
ghost use Rattle.strm_blocks.specs.Blocks.{IsInHand, dropped, in_hand, token};
ghost use Rattle.strm_msg.specs.Bytes.{bytes_of};
ghost use Rattle.strm_msg.specs.Emptied.{filled_blocks, without_emptied, Beside, FreedWhole};

use strm_blocks::{Blocks, InHand};

// Whether each block of a message shows bytes.
fn all_show<B: Blocks>(store: &B, message: &InHand) -> bool
    requires { IsInHand (B.value store.now) (token message.now) }
    ensures all { let chain = in_hand (B.value store.now) (token message.now) in OnTrue result (filled_blocks chain ≡ chain) }
    ensures some { let chain = in_hand (B.value store.now) (token message.now) in
        OnFalse result (length (filled_blocks chain) < length chain) }
{
    for at in 0..store.blocks(message) {
        if store.block_len(message, at) == 0 {
            return false;
        }
    }
    true
}

// Frees the blocks of a message that show no bytes, and all of it where none does.
fn keep_filled<B: Blocks>(store: &mut B, message: InHand) -> Option<InHand>
    requires { IsInHand (B.value store.old) (token message) }
    ensures { let chain = in_hand (B.value store.old) (token message) in
        MatchOption result
        (FreedWhole (B.value store.old) (B.value store.new) (token message))
        (λ m. Beside (dropped (B.value store.old) (token message)) (B.value store.new) (token m) (filled_blocks chain)) }
{
    if all_show(store, &message) {
        return Some(message);
    }
    store.audit();
    let empty = store.block_len(&message, 0) == 0;
    let (first, rest) = store.unlink(message);
    let Some(rest) = rest else {
        store.free(first);
        return None;
    };
    let kept = keep_filled(store, rest);
    if empty {
        store.free(first);
        return kept;
    }
    match kept {
        Some(rest) => Some(store.link(first, rest)),
        None => Some(first),
    }
}

/// Frees the blocks of a message that show no bytes: unlinkb(9F), freeb(9F). The message, which has bytes, keeps its band and has
/// the kind of the first block that is left. It takes a step for each block where all show bytes.
pub fn free_emptied<B: Blocks>(store: &mut B, message: InHand) -> InHand
    requires in_hand { IsInHand (B.value store.old) (token message) }
    requires some { 0 < length (bytes_of (in_hand (B.value store.old) (token message))) }
    ensures { let chain = in_hand (B.value store.old) (token message) in
        Beside (dropped (B.value store.old) (token message)) (B.value store.new) (token result) (without_emptied chain) }
{
    let band = store.band(&message);
    let Some(rest) = keep_filled(store, message) else {
        unreachable!()
    };
    store.set_band(&rest, band);
    rest
}
