//! The last message of a queue, taken off it for a writer that has more to add to it (STREAMS Programming Guide, "Message Queues").

ghost use Rattle.std.specs.Prelude.{◌≡◌, MatchOption};
ghost use Rattle.strm_blocks.specs.Blocks.{list_at, token};
ghost use Rattle.strm_blocks.specs.Outcomes.{PoppedLast, Unpopped};
ghost use Rattle.strm_queue.specs.Flows.{plain_flows};
ghost use Rattle.strm_queue.specs.Kept.{AreCounted};
ghost use Rattle.strm_queue.specs.Stored.{IsReady, NoneTaken};
ghost use Rattle.strm_queue.specs.Taken.{TakenLast};

use crate::queue::Queue;
use crate::share::share_of;
use strm_blocks::{Blocks, InHand};

impl Queue {
    ghost use Rattle.strm_queue.specs.Queues.{OnlyCounts};

    /// Takes the last message, if there is one. It is no service of the queue: want-read stays, and so do the writers that wait, since
    /// the message comes back with more in it. The cost is a step for each block of the message.
    pub fn take_last<B: Blocks>(&mut self, store: &mut B) -> Option<InHand>
        requires { AreCounted self.old.flows (list_at (B.value store.old) self.old.list) }
        ensures taken { MatchOption result (Unpopped (B.value store.old) (B.value store.new) self.old.list)
            (λ m. PoppedLast (B.value store.old) (B.value store.new) self.old.list (token m)) }
        ensures counted { AreCounted self.new.flows (list_at (B.value store.new) self.new.list) }
        ensures flows { plain_flows self.new.flows ≡ plain_flows self.old.flows }
        ensures others { OnlyCounts self.old self.new }
    {
        store.audit();
        let message = store.pop_last(self.list)?;
        let share = share_of(store, &message);
        self.flows.remove(share);
        Some(message)
    }
}

/// Takes the last message off a queue into the hand, with its chain as it stood there. None where no message stands there. No block is
/// taken or freed.
pub fn take_last<B: Blocks>(store: &mut B, queue: &mut Queue) -> Option<InHand>
    requires { IsReady (B.value store.old) queue.old }
    ensures { MatchOption result (NoneTaken (B.value store.old) (B.value store.new) queue.old queue.new)
        (λ m. TakenLast (B.value store.old) (B.value store.new) queue.old queue.new (token m)) }
{
    store.audit();
    queue.take_last(store)
}
