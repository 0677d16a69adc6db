//! Messages made of bytes, and the first bytes of a message.
ghost use Rattle.std.specs.Prelude.{◌≡◌, ◌≤◌, ◌*◌, min, length, take, drop, MatchResult};
ghost use Rattle.strm_types.specs.Write as write;
ghost use Rattle.strm_blocks.specs.Blocks.{IsInHand, in_hand, token};
ghost use Rattle.strm_blocks.specs.Outcomes.{Copied, NoneFree};
ghost use Rattle.strm_msg.specs.Bytes.{bytes_of};
ghost use Rattle.strm_msg.specs.Made.{MadeOf, TooFew, piece};
ghost use Rattle.strm_msg.specs.Taken.{filled};

use crate::data::copy_into;
use strm_blocks::{Blocks, InHand, NoBlocks};
use strm_types::{Band, MsgKind, chunk_count};

/// The chunk of that number, from 0: 256 bytes, or what is left.
fn chunk_at(bytes: &[u8], at: usize) -> &[u8]
    requires { at * 256 ≤ length bytes.now }
    ensures chunk { result.now ≡ take 256 (drop (at * 256) bytes.now) }
    ensures short { length result.now ≤ 256 }
{
    let from = at * 256;
    let rest = &bytes[from..];
    let len = rest.len().min(256);
    &rest[..len]
}

/// Makes a message of one block that shows these bytes.
#[inline(always)]
pub(crate) fn block_of<B: Blocks>(
    store: &mut B,
    kind: MsgKind,
    band: Band,
    bytes: &[u8],
) -> Result<InHand, NoBlocks>
    requires { length bytes.now ≤ 256 }
    ensures { MatchResult result
        (λ m. Copied (B.value store.old) (B.value store.new) (token m) (piece kind band.0 bytes.now))
        (λ _. NoneFree (B.value store.old) (B.value store.new)) }
{
    store.alloc_with(kind, band, bytes)
}

/// Makes a message of a kind and a band that shows these bytes, as `allocb(9F)`, a copy and `linkb(9F)` for each 256 of
/// them. It takes one block of each kind for each begun 256 bytes, and at least one; `NoBlocks` where fewer are free,
/// and then nothing changes.
#[inline(always)]
pub fn from_bytes<B: Blocks>(
    store: &mut B,
    kind: MsgKind,
    band: Band,
    bytes: &[u8],
) -> Result<InHand, NoBlocks>
    ensures { MatchResult result
        (λ m. MadeOf (B.value store.old) (B.value store.new) (token m) kind band.0 bytes.now)
        (λ _. TooFew (B.value store.old) (B.value store.new) (write.chunk_count (length bytes.now))) }
{
    let count = chunk_count(bytes.len());
    let mut message = block_of(store, kind, band, chunk_at(bytes, 0))?;
    for at in 1..count {
        match block_of(store, kind, band, chunk_at(bytes, at)) {
            Ok(next) => message = store.link(message, next),
            Err(NoBlocks) => {
                store.free(message);
                return Err(NoBlocks);
            }
        }
    }
    Ok(message)
}

/// Copies the first bytes of a message into a buffer, as many as both have, whatever the kinds of its blocks. The message
/// keeps them. Returns how many.
pub fn first_bytes<B: Blocks>(store: &B, message: &InHand, buffer: &mut [u8]) -> usize
    requires { IsInHand (B.value store.now) (token message.now) }
    ensures count { result ≡ min (length buffer.old)
        (length (bytes_of (in_hand (B.value store.now) (token message.now)))) }
    ensures given { buffer.new ≡ filled buffer.old (bytes_of (in_hand (B.value store.now) (token message.now))) }
{
    let mut done = 0;
    for at in 0..store.blocks(message) {
        if done == buffer.len() {
            return done;
        }
        done += copy_into(buffer, done, store.bytes_at(message, at));
    }
    done
}
