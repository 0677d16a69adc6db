//! The end of a call of the read queue's service procedure (ldterm(7M); srv(9E); putbq(9F)).

ghost use Rattle.std.specs.Prelude.{◌≡◌, ◌≤◌, ◌<◌, length, None, Some, []};
ghost use Rattle.std.specs.Option.{option_to_list};
ghost use Rattle.strm_types.specs.declared.rules.Fates.{Fates};
ghost use Rattle.strm_types.specs.declared.limits.TheConstants.{MODULES};
ghost use Rattle.strm_types.specs.Cells.{plain};
ghost use Rattle.strm_types.specs.Input.{back_on, cells_left, finished};
ghost use Rattle.strm_types.specs.Ldterms.{sends};
ghost use Rattle.strm_types.specs.Message.{cells_of};
ghost use Rattle.strm_types.specs.Queue.{put_back};
ghost use Rattle.strm_types.specs.Typing.{gathered_up};
ghost use Rattle.strm_blocks.specs.Blocks.{IsInHand, StoreValue, in_hand, dropped, token};
ghost use Rattle.strm_msg.specs.Messages.{message_of, IsChain};
ghost use Rattle.strm_queue.specs.Stored.{queue_in, IsReady, Changes, FreesBlocks, FreesNone};
ghost use Rattle.strm_frame.specs.Hands.{AreIn};
ghost use Rattle.strm_frame.specs.declared.queue_pair.QueuePair.{QueuePair};
ghost use Rattle.strm_frame.specs.Outboxes.{message_in, sent_of};
ghost use Rattle.strm_ldterm.specs.Stands.{ldterm_in, keeps, IsHeld, paired};
ghost use Rattle.strm_ldterm.specs.Does.{Alters, Proceeds};

use crate::ldterm::{Ldterm, Stage};
use strm_blocks::{Blocks, InHand};
use strm_frame::{Outbox, QueuePair, Sent};
use strm_msg::booked_size;
use strm_queue::Queue;
use strm_types::{Spot, Way};

// Puts a message in hand back on a queue, in front of all of at most its rank: putbq(9F).
fn put_back<B: Blocks>(store: &mut B, queue: &mut Queue, message: InHand)
    requires ready { IsReady (B.value store.old) queue.old }
    requires in_hand { IsInHand (B.value store.old) (token message) }
    requires chain { IsChain (in_hand (B.value store.old) (token message)) }
    ensures queue { let q = queue_in (B.value store.old) queue.old in queue_in (B.value store.new) queue.new
        ≡ record q { messages = put_back (message_of (in_hand (B.value store.old) (token message))) q.messages } }
    ensures changes { Changes (dropped (B.value store.old) (token message)) (B.value store.new) queue.old queue.new }
    ensures frees { FreesBlocks (B.value store.old) (B.value store.new) }
    ensures blocks { FreesNone (B.value store.old) (B.value store.new) }
{
    store.audit();
    queue.putbq(store, message);
}

/// What is left of a message that was in work goes back to the front of a queue. Where nothing is left of it, it is freed.
pub(crate) fn return_rest<B: Blocks>(store: &mut B, queue: &mut Queue, message: InHand)
    requires ready { IsReady (B.value store.old) queue.old }
    requires in_hand { IsInHand (B.value store.old) (token message) }
    requires chain { IsChain (in_hand (B.value store.old) (token message)) }
    ensures queue { let s = B.value store.old in
        queue_in (B.value store.new) queue.new ≡ back_on (Some (message_in s (token message))) (queue_in s queue.old) }
    ensures changes { Changes (dropped (B.value store.old) (token message)) (B.value store.new) queue.old queue.new }
    ensures frees { FreesBlocks (B.value store.old) (B.value store.new) }
    ensures blocks { 0 < length (cells_of (message_in (B.value store.old) (token message))) →
        FreesNone (B.value store.old) (B.value store.new) }
{
    if booked_size(store, &message) == 0 {
        store.free(message);
        return;
    }
    put_back(store, queue, message);
}

// What is left of the message in work goes back to the front of the read queue.
fn return_work<B: Blocks>(ldterm: &mut Ldterm, queues: &mut QueuePair, store: &mut B)
    requires held { IsHeld (B.value store.old) (paired ldterm.old queues.old) }
    requires kept { AreIn (B.value store.old) (λ _. 0) (keeps (paired ldterm.old queues.old)) }
    ensures state { let p = ldterm_in (B.value store.old) (paired ldterm.old queues.old) in
        ldterm_in (B.value store.new) (paired ldterm.new queues.new)
        ≡ record p { in_work = None; read_queue = back_on p.in_work p.read_queue } }
    ensures alters { Alters (B.value store.old) (B.value store.new) (paired ldterm.old queues.old) (paired ldterm.new queues.new) }
    ensures blocks { 0 < length (cells_left (ldterm_in (B.value store.old) (paired ldterm.old queues.old))) →
        FreesNone (B.value store.old) (B.value store.new) }
{
    let Some(message) = ldterm.in_work.take() else {
        return;
    };
    store.audit();
    return_rest(store, &mut queues.read, message);
}

/// What was gathered goes up as one message, where there is any.
pub(crate) fn send_gathered(ldterm: &mut Ldterm, here: Spot) -> Option<Sent>
    requires inside { 0 < here.at }
    requires small { here.at ≤ MODULES }
    ensures { (s : StoreValue) (q : QueuePair) (f : Fates) → let x = paired ldterm.old q in let p = ldterm_in s x in IsHeld s x →
        Proceeds s s x (paired ldterm.new q) 0 [] (option_to_list result) f f
        (sends (gathered_up plain here p.gathered) (record p { gathered = [] })) }
{
    let Some(message) = ldterm.gathered.take() else {
        return None;
    };
    Some(Sent {
        to: here.toward(Way::Up),
        message,
    })
}

/// Ends a call of the service procedure of the read queue. The turn's echo stands on the write queue as any other message from then
/// on, what is left of the message in work goes back to the front of its queue, and what was gathered goes up as one M_DATA. It takes no
/// block, and frees none where bytes of the message in work are left. The cost is a step for each block of these messages, and for each
/// message of a higher rank on the read queue.
pub(crate) fn finish<B: Blocks>(
    ldterm: &mut Ldterm,
    queues: &mut QueuePair,
    store: &mut B,
    here: Spot,
) -> Outbox
    requires held { IsHeld (B.value store.old) (paired ldterm.old queues.old) }
    requires kept { AreIn (B.value store.old) (λ _. 0) (keeps (paired ldterm.old queues.old)) }
    requires inside { 0 < here.at }
    requires small { here.at ≤ MODULES }
    ensures did { (f : Fates) → let s = B.value store.old in
        Proceeds s (B.value store.new) (paired ldterm.old queues.old) (paired ldterm.new queues.new) 0 [] (sent_of result) f f
        (finished plain here (ldterm_in s (paired ldterm.old queues.old))) }
    ensures blocks { 0 < length (cells_left (ldterm_in (B.value store.old) (paired ldterm.old queues.old))) →
        FreesNone (B.value store.old) (B.value store.new) }
{
    // Where the turn stops within its message it ends as well: the next one begins an echo of its own, and goes on with what is left.
    ldterm.echoing = false;
    return_work(ldterm, queues, store);
    store.audit();
    // Last, so that nothing is in hand here while it is delivered.
    let first = send_gathered(ldterm, here);
    ldterm.stage = Stage::Between;
    Outbox {
        first,
        second: None,
        third: None,
        fourth: None,
    }
}
