//! How many bytes the first message on a queue has, or the first one that has M_DATA blocks.
ghost use Rattle.std.specs.Prelude.{◌≡◌, false, true, unwrap_or};
ghost use Rattle.strm_types.specs.Queue.{first_size};
ghost use Rattle.strm_queue.specs.Lengths.{length_on};
ghost use Rattle.strm_queue.specs.Stored.{messages_on, IsReady};
ghost use Rattle.strm_blocks.specs.Blocks.{list_at};

use crate::queue::Queue;
use strm_blocks::{Blocks, Visitor};
use strm_types::{Band, MsgKind};

// Adds up the blocks of one message: all of them, or its M_DATA blocks. It is the first message, or the first that has such a block.
#[derive(Drop)]
struct Measure {
    data_only: bool,
    passes_over: bool,
    met: bool,
    more: bool,
    found: Option<usize>,
}

impl Visitor for Measure {
    ghost use Rattle.strm_queue.specs.Lengths.{measured};

    ghost after = { measured };

    ghost goes_on = { λ v. v.more };

    fn see(&mut self, first: bool, kind: MsgKind, _band: Band, bytes: &[u8]) -> bool {
        if first && self.met && (!self.passes_over || self.found.is_some()) {
            self.more = false;
            return false;
        }
        self.met = true;
        if !self.data_only || kind.is_body_kind() {
            let before = self.found.unwrap_or(0);
            self.found = Some(before.saturating_add(bytes.len()));
        }
        self.more
    }
}

// Tells how many bytes one message has, in all of its blocks or in its M_DATA blocks; none where it has no such block, or there is none.
#[inline(always)]
fn length<B: Blocks>(store: &B, queue: &Queue, data_only: bool, passes_over: bool) -> Option<usize>
    ensures { result ≡ length_on data_only passes_over (list_at (B.value store.now) queue.now.list) }
{
    store.audit();
    let mut measure = Measure {
        data_only,
        passes_over,
        met: false,
        more: true,
        found: None,
    };
    store.visit(queue.list, &mut measure);
    measure.found
}

/// How many bytes the first message on a queue has; none where none stands there. The cost is a step for each block of it.
pub fn first_size<B: Blocks>(store: &B, queue: &Queue) -> usize
    requires { IsReady (B.value store.now) queue.now }
    ensures { result ≡ first_size (messages_on (B.value store.now) queue.now.list) }
{
    length(store, queue, false, false).unwrap_or(0)
}

/// How many bytes the M_DATA blocks of the first message on a queue have; none where it has no such block, or none stands
/// there. The cost is a step for each block of it.
pub fn first_data<B: Blocks>(store: &B, queue: &Queue) -> Option<usize>
    ensures { result ≡ length_on true false (list_at (B.value store.now) queue.now.list) }
{
    length(store, queue, true, false)
}

/// How many bytes the M_DATA blocks of the first message that has such a block have; none where no message has one. The cost
/// is a step for each block of the messages that are passed over, and of that one.
pub fn next_data<B: Blocks>(store: &B, queue: &Queue) -> Option<usize>
    ensures { result ≡ length_on true true (list_at (B.value store.now) queue.now.list) }
{
    length(store, queue, true, true)
}
