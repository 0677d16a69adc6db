//! Output under OPOST: bytes of the message in work go out one after the other, and what they give is gathered, to go down together
//! (termio(7I): "Output Modes"; ldterm(7M)).

ghost use Rattle.std.specs.Prelude.{ℕ, ◌≡◌, ◌<◌, ◌≤◌, ◌+◌, ◌++◌, [], true, length, is_some, take, drop, IfSome};
ghost use Rattle.strm_types.specs.declared.limits.TheConstants.{STOP_BLOCKS};
ghost use Rattle.strm_types.specs.declared.rules.Fates.{Fates};
ghost use Rattle.strm_types.specs.Input.{cells_left, left_of};
ghost use Rattle.strm_types.specs.Ldterms.{sends};
ghost use Rattle.strm_types.specs.Message.{cells_of};
ghost use Rattle.strm_blocks.specs.Blocks.{IsInHand, block_at, in_hand, token};
ghost use Rattle.strm_frame.specs.Hands.{AreIn, HasRoom};
ghost use Rattle.strm_frame.specs.declared.queue_pair.QueuePair.{QueuePair};
ghost use Rattle.strm_frame.specs.Outboxes.{message_in};
ghost use Rattle.strm_ldterm.specs.Becoming.{Becomes};
ghost use Rattle.strm_ldterm.specs.Does.{Proceeds};
ghost use Rattle.strm_ldterm.specs.FreeBefore.{blocks_grown};
ghost use Rattle.strm_ldterm.specs.Posting.{PoursAs, poured};
ghost use Rattle.strm_ldterm.specs.Stands.{IsData, IsGathered, IsHeld, keeps, ldterm_in, paired};

use crate::first_steps::skip_empty;
use crate::ldterm::Ldterm;
use crate::line_keys::gather;
use crate::output_runs::{Flow, flow_out};
use crate::plain_runs::run_most;
use crate::service_calls::are_few;
use arrayvec::ArrayVec;
use strm_blocks::{Blocks, InHand};
use strm_frame::QueuePair;
use strm_types::{Fates, Spot};

// Takes bytes off the front of a message of data, so many of its first block: adjmsg(9F). The block is freed where it is empty then and another
// one stands behind it.
fn trim_front<B: Blocks>(store: &mut B, message: InHand, bytes: usize) -> InHand
    requires in_hand { IsInHand (B.value store.old) (token message) }
    requires is { IsData (B.value store.old) (token message) }
    requires within { bytes ≤ length (block_at 0 (in_hand (B.value store.old) (token message))).bytes }
    ensures became { let m = message_in (B.value store.old) (token message) in
        Becomes (B.value store.old) (B.value store.new) (token message) (token result) (left_of (drop bytes (cells_of m)) m) }
    ensures front { let i = token message in let cells = cells_of (message_in (B.value store.old) i) in
        cells ≡ take bytes (block_at 0 (in_hand (B.value store.old) i)).bytes ++ drop bytes cells }
{
    store.trim_head(&message, 0, bytes);
    store.audit();
    skip_empty(store, message)
}

// Gathers what bytes gave, or nothing.
fn gather_flow<B: Blocks>(ldterm: &mut Ldterm, store: &mut B, bytes: &[u8])
    requires gathers { IfSome ldterm.old.gathered (λ m. IsGathered (B.value store.old) (token m)) }
    requires few { length bytes.now ≤ 256 }
    requires room { HasRoom (B.value store.old) 1 }
    ensures { (q : QueuePair) (f : Fates) → let s = B.value store.old in let x = paired ldterm.old q in let p = ldterm_in s x in
        IsHeld s x → AreIn s (λ _. 0) (keeps x) →
        Proceeds s (B.value store.new) x (paired ldterm.new q) 1 [] [] f f (sends [] (record p { gathered = p.gathered ++ bytes.now })) }
{
    if !bytes.is_empty() {
        gather(ldterm, store, bytes);
    }
}

// Bytes at the front of the message in work go out, as many as its first block has of them and a block has room for what they give; one alone
// where not so many blocks are free that each of them would begin with `STOP_BLOCKS`. Tells how many they are.
fn post_front<B: Blocks>(
    ldterm: &mut Ldterm,
    queues: &QueuePair,
    store: &mut B,
    here: Spot,
    told: &mut Fates,
) -> usize
    requires held { IsHeld (B.value store.old) (paired ldterm.old queues.now) }
    requires kept { AreIn (B.value store.old) (λ _. 0) (keeps (paired ldterm.old queues.now)) }
    requires room { HasRoom (B.value store.old) STOP_BLOCKS }
    requires work { is_some ldterm.old.in_work ≡ true }
    requires some { 0 < length (cells_left (ldterm_in (B.value store.old) (paired ldterm.old queues.now))) }
    ensures does { let s = B.value store.old in
        Proceeds s (B.value store.new) (paired ldterm.old queues.now) (paired ldterm.new queues.now) 1 [] [] told.old told.new
        (poured here result (ldterm_in s (paired ldterm.old queues.now))) }
    ensures some { 0 < result }
    ensures within { result ≤ length (cells_left (ldterm_in (B.value store.old) (paired ldterm.old queues.now))) }
    ensures begun { (byte : ℕ) → let p = ldterm_in (B.value store.old) (paired ldterm.old queues.now) in
        byte < result → HasRoom (B.value store.old) (STOP_BLOCKS + blocks_grown p (poured here byte p).state) }
{
    let _ = queues;
    let Some(message) = ldterm.in_work.take() else {
        unreachable!()
    };
    let most = run_most(store).max(1);
    store.audit();
    let message = skip_empty(store, message);
    store.audit();
    let mut flow = Flow {
        column: ldterm.column,
        given: ArrayVec::new(),
    };
    let first = store.bytes_at(&message, 0);
    let most = first.len().min(most);
    let taken = flow_out(&ldterm.termios, here, &first[..most], &mut flow, told);
    let message = trim_front(store, message, taken);
    store.audit();
    ldterm.in_work = Some(message);
    gather_flow(ldterm, store, flow.given.as_slice());
    ldterm.column = flow.column;
    taken
}

/// Bytes of the message in work go out, as long as blocks aren't few before the next one, and says how many are left. What they give is
/// gathered in blocks of 256 bytes. The cost is in proportion to the bytes that go out and to what they give.
pub(crate) fn post_bytes<B: Blocks>(
    ldterm: &mut Ldterm,
    queues: &QueuePair,
    store: &mut B,
    here: Spot,
    bytes: usize,
    told: &mut Fates,
) -> usize
    requires held { IsHeld (B.value store.old) (paired ldterm.old queues.now) }
    requires kept { AreIn (B.value store.old) (λ _. 0) (keeps (paired ldterm.old queues.now)) }
    requires work { is_some ldterm.old.in_work ≡ true }
    requires bytes { bytes ≡ length (cells_left (ldterm_in (B.value store.old) (paired ldterm.old queues.now))) }
    ensures { PoursAs (B.value store.old) (B.value store.new) here (paired ldterm.old queues.now) (paired ldterm.new queues.now) bytes result
        told.old told.new }
{
    let mut left = bytes;
    while left > 0 && !are_few(store) {
        store.audit();
        left -= post_front(ldterm, queues, store, here, told);
    }
    left
}
