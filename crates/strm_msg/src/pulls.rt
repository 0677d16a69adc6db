//! Bytes of a message that are joined in one block.
ghost use Rattle.std.specs.Prelude.{◌≡◌, ◌≤◌, ◌<◌, ◌++◌, ℕ, List, [], ◌∷◌, length, take, drop, MatchResult, Option, None, Some};
ghost use Rattle.strm_blocks.specs.Blocks.{IsInHand, in_hand, held, dropped, changed, block_at, token};
ghost use Rattle.strm_blocks.specs.Outcomes.{Copied, NoneFree};
ghost use Rattle.strm_msg.specs.Bytes.{bytes_of};
ghost use Rattle.strm_msg.specs.Taken.{filled};
ghost use Rattle.strm_msg.specs.Made.{piece};
ghost use Rattle.strm_msg.specs.Runs.{front_run};
ghost use Rattle.strm_msg.specs.Pulled.{run_bytes, asked_of, count_refusal, without_joined, PulledUp, PullRefused};

use crate::adjust::{End, run_at};
use crate::bytes::{block_of, first_bytes};
use crate::kinds::same_kind;
use strm_blocks::{Blocks, InHand, NoBlocks};
use strm_types::Refusal;

/// Why a message was not pulled up, and its name again.
#[derive(Drop)]
pub struct NotPulled {
    /// EINVAL, ERANGE or ENOSR.
    pub refusal: Refusal,
    /// The message, as it was.
    pub message: InHand,
}

/// How many bytes of a run of `size` are to be joined for `n`: that many, or all for -1.
fn joined_count(n: isize, size: usize) -> Result<usize, Refusal>
    ensures { MatchResult result
        (λ count. (asked_of n size ≡ Some count) × (count ≤ 256))
        (λ refusal. count_refusal (asked_of n size) ≡ Some refusal) }
{
    if n < -1 {
        return Err(Refusal::Einval);
    }
    let count = if n == -1 { size } else { n as usize };
    if count > size {
        return Err(Refusal::Einval);
    }
    if count > 256 {
        return Err(Refusal::Erange);
    }
    Ok(count)
}

/// Makes a message of one block, of a message's kind and band, that shows its first bytes.
fn join<B: Blocks>(store: &mut B, message: &InHand, count: usize) -> Result<InHand, NoBlocks>
    requires in_hand { IsInHand (B.value store.old) (token message.now) }
    requires few { count ≤ 256 }
    requires enough { count ≤ length (bytes_of (in_hand (B.value store.old) (token message.now))) }
    ensures { let chain = in_hand (B.value store.old) (token message.now) in let b = block_at 0 chain in
        MatchResult result
        (λ m. Copied (B.value store.old) (B.value store.new) (token m)
        (piece b.kind b.band (take count (bytes_of chain))))
        (λ _. NoneFree (B.value store.old) (B.value store.new)) }
{
    store.audit();
    let kind = store.kind(message, 0);
    let band = store.band(message);
    let mut buffer = [0u8; 256];
    first_bytes(store, message, &mut buffer);
    block_of(store, kind, band, &buffer[..count])
}

/// Frees the second block of a message, if it has one: `unlinkb(9F)`, `freeb(9F)`.
fn free_second<B: Blocks>(store: &mut B, message: InHand) -> InHand
    requires { IsInHand (B.value store.old) (token message) }
    ensures kept_name { token result ≡ token message }
    ensures freed { let chain = in_hand (B.value store.old) (token message) in
        B.value store.new ≡ changed (B.value store.old) (token message) (take 1 chain ++ drop 2 chain) }
{
    let (first, behind) = store.unlink(message);
    let Some(behind) = behind else {
        return first;
    };
    let (second, rest) = store.unlink(behind);
    store.free(second);
    match rest {
        Some(rest) => store.link(first, rest),
        None => first,
    }
}

/// Takes the first bytes of a run of blocks of one kind off the message behind its first block. Blocks in which nothing is
/// left are freed, and the next one is trimmed at its head.
fn drop_joined<B: Blocks>(store: &mut B, mut message: InHand, count: usize) -> InHand
    requires { IsInHand (B.value store.old) (token message) }
    ensures kept_name { token result ≡ token message }
    ensures dropped { let chain = in_hand (B.value store.old) (token message) in
        B.value store.new ≡ changed (B.value store.old) (token message)
        (take 1 chain ++ without_joined (block_at 0 chain).kind count (drop 1 chain)) }
{
    let blocks = store.blocks(&message);
    let kind = store.kind(&message, 0);
    let mut left = count;
    for _ in 1..blocks {
        if !same_kind(store.kind(&message, 1), kind) {
            return message;
        }
        let len = store.block_len(&message, 1);
        if len > left {
            store.trim_head(&message, 1, left);
            return message;
        }
        left -= len;
        message = free_second(store, message);
    }
    message
}

/// Joins the first `n` bytes of a message in one block, or for -1 all bytes of the run of blocks of one kind at its front:
/// `pullupmsg(9F)`. They all come from that run. The new block has the kind and the band of the message and a data block
/// of its own. Blocks of the run in which nothing is left are freed, as far as those bytes reach, the next one is trimmed
/// at its head, and all others stay as they are. It takes one block of each kind before it frees others.
///
/// EINVAL where `n` is below -1 or the run has fewer bytes, else ERANGE for more than 256, else ENOSR where none of either
/// kind of block is free. Then nothing changes, and the message's name is given back.
pub fn pullup<B: Blocks>(store: &mut B, message: InHand, n: isize) -> Result<InHand, NotPulled>
    requires { IsInHand (B.value store.old) (token message) }
    ensures { MatchResult result
        (λ m. PulledUp (B.value store.old) (B.value store.new) (token message) (token m) n)
        (λ not. PullRefused (B.value store.old) (B.value store.new) (token message)
        (token not.message) n not.refusal) }
{
    let run = run_at(store, &message, End::Head);
    let count = match joined_count(n, run.len) {
        Ok(count) => count,
        Err(refusal) => return Err(NotPulled { refusal, message }),
    };
    let joined = match join(store, &message, count) {
        Ok(joined) => joined,
        Err(NoBlocks) => return Err(NotPulled {
            refusal: Refusal::Enosr,
            message,
        }),
    };
    let whole = store.link(joined, message);
    Ok(drop_joined(store, whole, count))
}
