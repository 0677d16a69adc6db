//! A queue beside its store, as the plain messages that stand there: what is counted and full, and who is let go (STREAMS
//! Programming Guide, "Flow Control").

ghost use Rattle.std.specs.Prelude.{◌≡◌, ◌<◌, ◌≤◌, ◌&&◌, Bool, true, [], length, List, MatchOption};
ghost use Rattle.strm_types.specs.declared.kinds.MsgKind.{MsgKind};
ghost use Rattle.strm_types.specs.Message.{is_held};
ghost use Rattle.strm_types.specs.Emptied.{cells_gone, of_data};
ghost use Rattle.strm_types.specs.Refused.{has_no_data};
ghost use Rattle.strm_types.specs.Queue.{put_on, put_enables, bytes_of, count_of, is_full, marked, relieved, relieves};
ghost use Rattle.strm_blocks.specs.Blocks.{Block, StoreValue, IsInHand, block_at, in_hand, list_at, dropped, token};
ghost use Rattle.strm_msg.specs.Messages.{message_of, IsChain};
ghost use Rattle.strm_queue.specs.Kept.{AreCounted};
ghost use Rattle.strm_queue.specs.Queues.{OnlyCounts};
ghost use Rattle.strm_queue.specs.Stored.{queue_in, messages_on, Holds, IsReady, Changes, FreesBlocks, FreesNone, NoneTaken, Dequeued};

use crate::queue::Queue;
use strm_blocks::{Blocks, InHand, Visitor};
use strm_types::{Band, Marks, MsgKind};

/// How many bytes count in a band of a queue.
pub fn count<B: Blocks>(store: &B, queue: &Queue, band: Band) -> usize
    requires ready { IsReady (B.value store.now) queue.now }
    ensures { result ≡ count_of band.0 (messages_on (B.value store.now) queue.now.list) }
{
    store.audit();
    queue.count(band)
}

/// How many bytes stand on a queue. The cost is a step for each band above 0 where some do.
pub fn total<B: Blocks>(store: &B, queue: &Queue) -> usize
    requires { IsReady (B.value store.now) queue.now }
    ensures { result ≡ bytes_of (messages_on (B.value store.now) queue.now.list) }
{
    let _ = store;
    queue.total()
}

/// How many bytes a flush takes off a queue, of one band or of all: those of M_DATA, M_PROTO and M_PCPROTO.
pub fn data_bytes<B: Blocks>(store: &B, queue: &Queue, band: Option<Band>) -> usize
    requires ready { IsReady (B.value store.now) queue.now }
    ensures { result ≡ length (cells_gone (of_data band) (messages_on (B.value store.now) queue.now.list)) }
{
    let _ = store;
    queue.data_bytes(band)
}

/// How many messages stand on a queue: `qsize(9F)`. The cost is the same whatever stands there.
pub fn messages<B: Blocks>(store: &B, queue: &Queue) -> usize
    ensures { result ≡ length (messages_on (B.value store.now) queue.now.list) }
{
    store.messages(queue.list)
}

/// How many messages stand on a queue, and how many bytes they have. The cost is the same however many messages there are, and a
/// step for each band above 0 where bytes stand.
pub fn sizes<B: Blocks>(store: &B, queue: &Queue) -> (usize, usize)
    requires ready { IsReady (B.value store.now) queue.now }
    ensures messages { result.0 ≡ length (messages_on (B.value store.now) queue.now.list) }
    ensures bytes { result.1 ≡ bytes_of (messages_on (B.value store.now) queue.now.list) }
{
    (messages(store, queue), total(store, queue))
}

// Sees whether a message that flow control would hold back stands on a list.
#[derive(Drop)]
struct Ordinary {
    found: bool,
}

impl Visitor for Ordinary {
    ghost use Rattle.std.specs.Prelude.{not, if◌then◌else◌};

    ghost after = { λ v b. if b.first then record { found = is_held b.kind } else v };

    ghost goes_on = { λ v. not v.found };

    fn see(&mut self, first: bool, kind: MsgKind, _band: Band, _bytes: &[u8]) -> bool {
        if first {
            self.found = kind.is_held();
        }
        !self.found
    }
}

/// Whether no M_DATA or M_PROTO stands on a queue. The cost is a step for each block of the messages in front of the first one.
pub fn has_no_data<B: Blocks>(store: &B, queue: &Queue) -> bool
    ensures { result ≡ has_no_data (messages_on (B.value store.now) queue.now.list) }
{
    store.audit();
    let mut ordinary = Ordinary { found: false };
    store.visit(queue.list, &mut ordinary);
    !ordinary.found
}

/// Whether a band of a queue is full: its count is at or above its high-water mark.
pub fn is_full<B: Blocks>(store: &B, queue: &Queue, band: Band) -> bool
    requires ready { IsReady (B.value store.now) queue.now }
    ensures { result ≡ is_full band.0 (queue_in (B.value store.now) queue.now) }
{
    store.audit();
    queue.is_full(band)
}

/// Lets waiting writers go where the count has come down to the low-water mark, and says whether one was.
#[inline(always)]
pub fn relieve(queue: &mut Queue) -> bool
    ensures queue { (s : StoreValue) → IsReady s queue.old → queue_in s queue.new ≡ relieved (queue_in s queue.old) }
    ensures went { (s : StoreValue) → IsReady s queue.old → result ≡ relieves (queue_in s queue.old) }
    ensures counted { (q : List (List Block)) → AreCounted queue.old.flows q → AreCounted queue.new.flows q }
    ensures others { OnlyCounts queue.old queue.new }
{
    queue.back_enable()
}

/// Sets the same high-water and low-water mark in each band of a queue, as an M_SETOPTS does at a stream head: `strqset(9F)`
/// with QHIWAT and QLOWAT for each. The messages stay, and so do the writers that wait.
pub fn mark_all(queue: &mut Queue, marks: Marks)
    requires some { 1 ≤ marks.high }
    requires order { marks.low ≤ marks.high }
    ensures queue { (s : StoreValue) → IsReady s queue.old → queue_in s queue.new ≡ marked marks.high marks.low (queue_in s queue.old) }
    ensures counted { (q : List (List Block)) → AreCounted queue.old.flows q → AreCounted queue.new.flows q }
    ensures others { OnlyCounts queue.old queue.new }
{
    queue.mark_bands(marks);
}

/// Puts a message in hand on a queue, and says whether that enables a queue with a service procedure: `putq(9F)`. No block is taken or freed.
#[inline(always)]
pub fn enqueue<B: Blocks>(store: &mut B, queue: &mut Queue, message: InHand) -> bool
    requires ready { IsReady (B.value store.old) queue.old }
    requires in_hand { IsInHand (B.value store.old) (token message) }
    requires chain { IsChain (in_hand (B.value store.old) (token message)) }
    ensures queue { queue_in (B.value store.new) queue.new
        ≡ put_on (message_of (in_hand (B.value store.old) (token message))) (queue_in (B.value store.old) queue.old) }
    ensures enables { result
        ≡ put_enables (message_of (in_hand (B.value store.old) (token message))) (queue_in (B.value store.old) queue.old) }
    ensures holds { (test : MsgKind → Bool) → test (block_at 0 (in_hand (B.value store.old) (token message))).kind ≡ true →
        Holds test (list_at (B.value store.old) queue.old.list) → Holds test (list_at (B.value store.new) queue.new.list) }
    ensures changes { Changes (dropped (B.value store.old) (token message)) (B.value store.new) queue.old queue.new }
    ensures frees { FreesBlocks (B.value store.old) (B.value store.new) }
    ensures blocks { FreesNone (B.value store.old) (B.value store.new) }
{
    store.audit();
    queue.putq(store, message)
}

/// Takes the first message off a queue into the hand, with its chain as it stood there: `getq(9F)`. None where no message
/// stands there.
#[inline(always)]
pub fn dequeue<B: Blocks>(store: &mut B, queue: &mut Queue) -> Option<InHand>
    requires { IsReady (B.value store.old) queue.old }
    ensures { MatchOption result (NoneTaken (B.value store.old) (B.value store.new) queue.old queue.new)
        (λ m. Dequeued (B.value store.old) (B.value store.new) queue.old queue.new (token m)) }
{
    store.audit();
    queue.getq(store)
}
