//! New heads, and messages that come up to one.

ghost use Rattle.std.specs.Prelude.{◌≡◌, [], IfSome};
ghost use Rattle.strm_blocks.specs.Blocks.{IsInHand, in_hand, list_at, token};
ghost use Rattle.strm_msg.specs.Messages.{IsChain};
ghost use Rattle.strm_queue.specs.Stored.{IsHeadQueue};

use strm_blocks::{Blocks, InHand};
use strm_head::{Head, make_flush, make_message, write};
use strm_queue::{HEAD_HIGH, HEAD_LOW, Queue, Table};
use strm_types::{Band, FlushAsked, MsgKind, Prio, put_refusal};

/// The priority and the parts of a message.
pub type Sent<'a> = (Prio, Option<&'a [u8]>, Option<&'a [u8]>);

// A new queue of a head, on an empty list.
fn fresh_queue<B: Blocks>(store: &B, table: Table) -> Queue
    requires { list_at (B.value store.now) 3 ≡ [] }
    ensures { IsHeadQueue (B.value store.now) result }
{
    let _ = store;
    Queue::new(3, HEAD_HIGH, HEAD_LOW, table)
}

/// A new head on an empty list.
pub fn fresh<B: Blocks>(store: &B, table: Table) -> Head
    requires { list_at (B.value store.now) 3 ≡ [] }
    ensures { IsHeadQueue (B.value store.now) result.queue }
{
    Head::new(fresh_queue(store, table))
}

/// A message of band 0 with these bytes, where they fit and a block is free.
pub fn one_block<B: Blocks>(
    store: &mut B,
    head: &Head,
    kind: MsgKind,
    bytes: &[u8],
) -> Option<InHand>
    requires { IsHeadQueue (B.value store.old) head.now.queue }
    ensures ready { IsHeadQueue (B.value store.new) head.now.queue }
    ensures in_hand { IfSome result (λ m. IsInHand (B.value store.new) (token m)) }
    ensures chain { IfSome result (λ m. IsChain (in_hand (B.value store.new) (token m))) }
{
    let _ = head;
    if bytes.len() > 256 {
        return None;
    }
    let Ok(message) = store.alloc_with(kind, Band(0), bytes) else {
        return None;
    };
    Some(message)
}

/// The same of two blocks, of which the second is of M_DATA.
pub fn two_blocks<B: Blocks>(
    store: &mut B,
    head: &Head,
    kind: MsgKind,
    front: &[u8],
    behind: &[u8],
) -> Option<InHand>
    requires { IsHeadQueue (B.value store.old) head.now.queue }
    ensures ready { IsHeadQueue (B.value store.new) head.now.queue }
    ensures in_hand { IfSome result (λ m. IsInHand (B.value store.new) (token m)) }
    ensures chain { IfSome result (λ m. IsChain (in_hand (B.value store.new) (token m))) }
{
    let _ = head;
    if front.len() > 256 || behind.len() > 256 {
        return None;
    }
    let Ok(first) = store.alloc_with(kind, Band(0), front) else {
        return None;
    };
    let Ok(second) = store.alloc_with(MsgKind::Data, Band(0), behind) else {
        store.free(first);
        return None;
    };
    Some(store.link(first, second))
}

/// What a putmsg makes of these parts, where it is a message and two blocks are free.
pub fn put_message<B: Blocks>(store: &mut B, head: &Head, sent: Sent<'_>) -> Option<InHand>
    requires { IsHeadQueue (B.value store.old) head.now.queue }
    ensures ready { IsHeadQueue (B.value store.new) head.now.queue }
    ensures in_hand { IfSome result (λ m. IsInHand (B.value store.new) (token m)) }
    ensures chain { IfSome result (λ m. IsChain (in_hand (B.value store.new) (token m))) }
{
    let _ = head;
    let free = store.free_blocks();
    if put_refusal(sent.0, sent.1, sent.2).is_some() || free.0 < 2 || free.1 < 2 {
        return None;
    }
    make_message(store, sent.0, sent.1, sent.2)
}

/// A chunk of a write, where it fits and a block is free.
pub fn chunk<B: Blocks>(store: &mut B, head: &Head, bytes: &[u8]) -> Option<InHand>
    requires { IsHeadQueue (B.value store.old) head.now.queue }
    ensures ready { IsHeadQueue (B.value store.new) head.now.queue }
    ensures in_hand { IfSome result (λ m. IsInHand (B.value store.new) (token m)) }
    ensures chain { IfSome result (λ m. IsChain (in_hand (B.value store.new) (token m))) }
{
    let _ = head;
    let (mblks, dblks) = store.free_blocks();
    if bytes.len() > 256 || mblks == 0 || dblks == 0 {
        return None;
    }
    Some(write(store, bytes))
}

/// An M_FLUSH, where a block is free.
pub fn flush_message<B: Blocks>(store: &mut B, head: &Head, asked: FlushAsked) -> Option<InHand>
    requires { IsHeadQueue (B.value store.old) head.now.queue }
    ensures ready { IsHeadQueue (B.value store.new) head.now.queue }
    ensures in_hand { IfSome result (λ m. IsInHand (B.value store.new) (token m)) }
    ensures chain { IfSome result (λ m. IsChain (in_hand (B.value store.new) (token m))) }
{
    let _ = head;
    let (mblks, dblks) = store.free_blocks();
    if mblks == 0 || dblks == 0 {
        return None;
    }
    Some(make_flush(store, asked))
}
