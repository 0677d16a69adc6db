//! Messages that a driver keeps for the other side, or frees.

ghost use Rattle.std.specs.Prelude.{◌≡◌, [], false};
ghost use Rattle.strm_types.specs.Drivers.{taken_in};
ghost use Rattle.strm_blocks.specs.Blocks.{IsInHand, in_hand, token};
ghost use Rattle.strm_msg.specs.Messages.{IsChain};
ghost use Rattle.strm_queue.specs.Stored.{queue_in, FreesNone, IsReady};
ghost use Rattle.strm_frame.specs.Outboxes.{message_in, sent_of};
ghost use Rattle.strm_pty.specs.Does.{Does, Swaps};

use arrayvec::ArrayVec;
use strm_blocks::{Blocks, InHand};
use strm_frame::{Acts, Outbox, note_if};
use strm_msg::booked_size;
use strm_queue::Queue;
use strm_queue::standing::enqueue;
use strm_types::{Across, Fates, Note, Rule, Side, Way};

/// Frees a message, and nothing comes of it.
pub(crate) fn let_go<B: Blocks>(store: &mut B, message: InHand) -> Acts
    requires { IsInHand (B.value store.old) (token message) }
    ensures notes { result.notes.items ≡ [] }
    ensures sent { sent_of result.sent ≡ [] }
    ensures swaps { Swaps (B.value store.old) (B.value store.new) (token message) 0 (sent_of result.sent) [] }
{
    store.audit();
    store.free(message);
    Acts {
        notes: ArrayVec::new(),
        sent: Outbox::none(),
    }
}

/// Puts a message on the driver's queue, from which it will go up the other side's stream, and no block is freed. Once the master is
/// closed it is freed, and its bytes are told.
#[inline(always)]
pub(crate) fn take_in<B: Blocks>(
    store: &mut B,
    queue: &mut Queue,
    across: Across,
    side: Side,
    message: InHand,
    told: &mut Fates,
) -> Acts
    requires ready { IsReady (B.value store.old) queue.old }
    requires in_hand { IsInHand (B.value store.old) (token message) }
    requires chain { IsChain (in_hand (B.value store.old) (token message)) }
    ensures does { let s = B.value store.old in
        Does s (B.value store.new) queue.old queue.new (token message) 0 result told.old told.new
        (taken_in side across (message_in s (token message)) (queue_in s queue.old)) }
    ensures blocks { across.ended ≡ false → FreesNone (B.value store.old) (B.value store.new) }
{
    if across.ended {
        told.tell(
            side.direction(),
            Rule::EndClosed,
            booked_size(store, &message),
        );
        return let_go(store, message);
    }
    store.audit();
    let enables = enqueue(store, queue, message);
    Acts {
        notes: note_if(enables, Note::Enable(Way::Down)),
        sent: Outbox::none(),
    }
}
