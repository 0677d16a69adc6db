//! Data bytes that leave a message.
ghost use Rattle.std.specs.Prelude.{◌≡◌, ◌≤◌, ◌<◌, ◌+◌, ◌-◌, ◌++◌, min, length, take, drop};
ghost use Rattle.strm_blocks.specs.Blocks.{IsInHand, in_hand, changed, block_at, with_block, trimmed_head, token};
ghost use Rattle.strm_msg.specs.Bytes.{control_bytes, data_bytes};
ghost use Rattle.strm_msg.specs.Taken.{without_data, filled};

use strm_blocks::{Blocks, InHand};

/// Copies bytes into a buffer from a place on, as many as it has room for. Returns how many.
pub(crate) fn copy_into(buffer: &mut [u8], from: usize, bytes: &[u8]) -> usize
    requires { from ≤ length buffer.old }
    ensures count { result ≡ min (length buffer.old - from) (length bytes.now) }
    ensures copied { buffer.new ≡ (take from buffer.old ++ take result bytes.now) ++ drop (from + result) buffer.old }
{
    let count = (buffer.len() - from).min(bytes.len());
    buffer[from..from + count].copy_from_slice(&bytes[..count]);
    count
}

/// Takes bytes of one block into a buffer from a place on, and trims them from the block. Returns how many.
fn take_from_block<B: Blocks>(
    store: &mut B,
    message: &InHand,
    at: usize,
    buffer: &mut [u8],
    from: usize,
) -> usize
    requires in_hand { IsInHand (B.value store.old) (token message.now) }
    requires within { at < length (in_hand (B.value store.old) (token message.now)) }
    requires room { from ≤ length buffer.old }
    ensures count { result ≡ min (length buffer.old - from)
        (length (block_at at (in_hand (B.value store.old) (token message.now))).bytes) }
    ensures copied { buffer.new ≡ (take from buffer.old
        ++ take result (block_at at (in_hand (B.value store.old) (token message.now))).bytes)
        ++ drop (from + result) buffer.old }
    ensures trimmed { let chain = in_hand (B.value store.old) (token message.now) in
        B.value store.new ≡ changed (B.value store.old) (token message.now)
        (with_block at (trimmed_head result (block_at at chain)) chain) }
{
    let count = copy_into(buffer, from, store.bytes_at(message, at));
    store.trim_head(message, at, count);
    count
}

/// Takes the first bytes of a message's data part into a buffer, as many as both have, and trims them from the message's
/// M_DATA blocks, which stay in the chain (`adjmsg(9F)` within each). The control part stays as it is. Returns how many.
pub fn take_data<B: Blocks>(store: &mut B, message: &InHand, buffer: &mut [u8]) -> usize
    requires { IsInHand (B.value store.old) (token message.now) }
    ensures count { result ≡ min (length buffer.old)
        (length (data_bytes (in_hand (B.value store.old) (token message.now)))) }
    ensures given { buffer.new ≡ filled buffer.old (data_bytes (in_hand (B.value store.old) (token message.now))) }
    ensures trimmed { let chain = in_hand (B.value store.old) (token message.now) in
        B.value store.new ≡ changed (B.value store.old) (token message.now) (without_data (length buffer.old) chain) }
    ensures left { data_bytes (in_hand (B.value store.new) (token message.now))
        ≡ drop result (data_bytes (in_hand (B.value store.old) (token message.now))) }
    ensures control { control_bytes (in_hand (B.value store.new) (token message.now))
        ≡ control_bytes (in_hand (B.value store.old) (token message.now)) }
{
    store.audit();
    let count = store.blocks(message);
    let mut done = 0;
    for at in 0..count {
        if store.kind(message, at).is_body_kind() {
            done += take_from_block(store, message, at, buffer, done);
        }
    }
    done
}
