//! Bytes trimmed at an end of a message.
ghost use Rattle.std.specs.Prelude.{◌≡◌, ◌≤◌, ◌<◌, pos, map, length};
ghost use Rattle.std.specs.Bool.{OnTrue, OnFalse};
ghost use Rattle.strm_blocks.specs.Blocks.{IsInHand, in_hand, changed, block_at, with_block, trimmed_head, free_m, free_d, token};
ghost use Rattle.strm_msg.specs.Bytes.{bytes_of};
ghost use Rattle.strm_msg.specs.Runs.{front_run};
ghost use Rattle.strm_msg.specs.Adjusted.{adjusted, has_bytes, left_of, seen_from, trim_at, trimmed_by, trimmed_front, without_bytes};
ghost use Rattle.strm_msg.specs.Adjusted as adjusting;

use crate::kinds::same_kind;
use strm_blocks::{Blocks, InHand};

/// An end of a message.
#[derive(Clone, Copy)]
pub(crate) enum End {
    Head,
    Tail,
}

/// The blocks of one kind at an end of a message: how many, and how many bytes they have.
#[derive(Clone, Copy)]
pub(crate) struct Run {
    pub(crate) blocks: usize,
    pub(crate) len: usize,
}

/// The end that a number of bytes to trim speaks of: the tail below 0.
fn end_of(n: isize) -> End
    ensures { result ≡ adjusting.end_of n }
{
    if n < 0 { End::Tail } else { End::Head }
}

/// The place of the block that stands so many blocks from an end of a message of `count` blocks.
fn place_from(end: End, count: usize, steps: usize) -> usize
    requires { steps < count }
    ensures place { result ≡ adjusting.place_from end count steps }
    ensures within { result < count }
{
    match end {
        End::Head => steps,
        End::Tail => count - 1 - steps,
    }
}

/// The run of blocks of one kind at an end of a message.
pub(crate) fn run_at<B: Blocks>(store: &B, message: &InHand, end: End) -> Run
    requires { IsInHand (B.value store.now) (token message.now) }
    ensures blocks { result.blocks
        ≡ length (front_run (seen_from end (in_hand (B.value store.now) (token message.now)))) }
    ensures len { result.len
        ≡ length (bytes_of (front_run (seen_from end (in_hand (B.value store.now) (token message.now))))) }
{
    store.audit();
    let count = store.blocks(message);
    let kind = store.kind(message, place_from(end, count, 0));
    let mut len = 0;
    for steps in 0..count {
        let at = place_from(end, count, steps);
        if !same_kind(store.kind(message, at), kind) {
            return Run { blocks: steps, len };
        }
        len += store.block_len(message, at);
    }
    Run { blocks: count, len }
}

/// Trims bytes of block `at` of a message at an end of the block.
fn trim_block<B: Blocks>(store: &mut B, message: &InHand, end: End, at: usize, n: usize)
    requires in_hand { IsInHand (B.value store.old) (token message.now) }
    requires within { at < length (in_hand (B.value store.old) (token message.now)) }
    requires enough { n ≤ length (block_at at (in_hand (B.value store.old) (token message.now))).bytes }
    ensures { let chain = in_hand (B.value store.old) (token message.now) in
        B.value store.new ≡ changed (B.value store.old) (token message.now)
        (with_block at (trim_at end n (block_at at chain)) chain) }
{
    match end {
        End::Head => store.trim_head(message, at, n),
        End::Tail => store.trim_tail(message, at, n),
    }
}

/// Trims bytes of so many blocks at an end of a message, those nearest to the end first.
fn trim_blocks<B: Blocks>(store: &mut B, message: &InHand, end: End, blocks: usize, n: usize)
    requires in_hand { IsInHand (B.value store.old) (token message.now) }
    requires within { blocks ≤ length (in_hand (B.value store.old) (token message.now)) }
    ensures { let chain = in_hand (B.value store.old) (token message.now) in
        B.value store.new ≡ changed (B.value store.old) (token message.now)
        (seen_from end (trimmed_front (trim_at end) n blocks (seen_from end chain))) }
{
    let count = store.blocks(message);
    let mut left = n;
    for steps in 0..blocks {
        let at = place_from(end, count, steps);
        let part = left.min(store.block_len(message, at));
        trim_block(store, message, end, at, part);
        left -= part;
    }
}

/// Trims bytes off an end of a message: `adjmsg(9F)`. From 0 up it trims the first `n` bytes, below 0 the last `-n`, all
/// of them within the blocks at that end that are of one kind; those stay in the chain, some of them with no bytes.
/// False where these blocks have fewer bytes, and then nothing changes.
pub fn adjmsg<B: Blocks>(store: &mut B, message: &InHand, n: isize) -> bool
    requires { IsInHand (B.value store.old) (token message.now) }
    ensures answer { result ≡ has_bytes n (in_hand (B.value store.old) (token message.now)) }
    ensures trimmed { let chain = in_hand (B.value store.old) (token message.now) in
        B.value store.new ≡ changed (B.value store.old) (token message.now) (adjusted n chain) }
    ensures refused { OnFalse result (B.value store.new ≡ B.value store.old) }
    ensures nothing { n ≡ pos 0 → B.value store.new ≡ B.value store.old }
    ensures left { let shown = bytes_of (in_hand (B.value store.old) (token message.now)) in
        OnTrue result (bytes_of (in_hand (B.value store.new) (token message.now)) ≡ left_of n shown) }
    // The blocks stay, with their kinds, bands and data blocks, and so no block is taken or freed.
    ensures blocks { map without_bytes (in_hand (B.value store.new) (token message.now))
        ≡ map without_bytes (in_hand (B.value store.old) (token message.now)) }
    ensures free_m { free_m (B.value store.new) ≡ free_m (B.value store.old) }
    ensures free_d { free_d (B.value store.new) ≡ free_d (B.value store.old) }
{
    let end = end_of(n);
    let size = n.unsigned_abs();
    let run = run_at(store, message, end);
    if run.len < size {
        return false;
    }
    trim_blocks(store, message, end, run.blocks, size);
    true
}

/// Trims the first `n` bytes of a message, or all of them where they are fewer, whatever the kinds of its blocks. All blocks stay, some
/// of them with no bytes.
pub fn trim_front<B: Blocks>(store: &mut B, message: &InHand, n: usize)
    requires { IsInHand (B.value store.old) (token message.now) }
    ensures { let chain = in_hand (B.value store.old) (token message.now) in
        B.value store.new ≡ changed (B.value store.old) (token message.now) (trimmed_by trimmed_head n chain) }
{
    let count = store.blocks(message);
    trim_blocks(store, message, End::Head, count, n);
}
