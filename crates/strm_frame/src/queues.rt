//! Turns of a module's queue, and what becomes of it with the module, for modules that keep a queue of strm_queue each way
//! (srv(9E), getq(9F); streamio(7I): I_POP).

ghost use Rattle.std.specs.Prelude.{◌≡◌, not, length};
ghost use Rattle.strm_types.specs.Dropped.{has_ioctl, is_ioctl_of, is_met};
ghost use Rattle.strm_types.specs.Deliver.{Goes, counted_with};
ghost use Rattle.strm_types.specs.Emptied.{of_all, of_data, cells_gone, emptied, queue_behind, writer_goes};
ghost use Rattle.strm_types.specs.Rules.{told_more};
ghost use Rattle.strm_types.specs.declared.rules.Rule.TheVariants.{Flushed};
ghost use Rattle.strm_types.specs.Service.{turn_ended, turn_relieves};
ghost use Rattle.strm_types.specs.Queue.{is_none_left};
ghost use Rattle.strm_blocks.specs.Blocks.{IsInHand, in_hand, token};
ghost use Rattle.strm_msg.specs.Messages.{IsChain};
ghost use Rattle.strm_queue.specs.Stored.{queue_in, messages_on, IsReady, Changes, FreesBlocks};
ghost use Rattle.strm_frame.specs.Outboxes.{message_in};

use crate::ioctls::{header_of, is_ioctl};
use crate::service::TurnEnd;
use strm_blocks::{Blocks, InHand};
use strm_queue::Queue;
use strm_queue::emptying::{Chosen, empty, going};
use strm_queue::standing::{dequeue, relieve, total};
use strm_types::{Band, Dir, Fates, Rule};

/// Ends a turn of a queue: it wants to be read where nothing stands there, and where the turn took bytes its waiting writers
/// are let go.
pub fn end_queue_turn<B: Blocks>(store: &B, queue: &mut Queue, took: bool) -> TurnEnd
    requires { IsReady (B.value store.now) queue.old }
    ensures queue { queue_in (B.value store.now) queue.new ≡ turn_ended took (queue_in (B.value store.now) queue.old) }
    ensures room { result.room ≡ turn_relieves took (queue_in (B.value store.now) queue.old) }
    ensures more { result.more ≡ not (is_none_left (messages_on (B.value store.now) queue.old.list)) }
    ensures ready { IsReady (B.value store.now) queue.new }
    ensures list { queue.new.list ≡ queue.old.list }
{
    queue.want_read = queue.is_empty(store);
    let more = !queue.want_read;
    if !took {
        return TurnEnd { room: false, more };
    }
    TurnEnd {
        room: relieve(queue),
        more,
    }
}

/// What became of a queue that was emptied: whether queues before it have room again, and whether the M_IOCTL that is sought
/// went with its messages.
#[derive(Clone, Copy)]
pub struct Emptied {
    pub room: bool,
    pub met: bool,
}

// Whether a message in hand is the M_IOCTL of a number.
fn is_ioctl_of<B: Blocks>(store: &B, message: &InHand, number: u32) -> bool
    requires in_hand { IsInHand (B.value store.now) (token message.now) }
    requires chain { IsChain (in_hand (B.value store.now) (token message.now)) }
    ensures { result ≡ is_ioctl_of number (message_in (B.value store.now) (token message.now)) }
{
    if !is_ioctl(store.kind(message, 0)) {
        return false;
    }
    match header_of(store, message) {
        Some(ioc) => ioc.number == number,
        None => false,
    }
}

// Takes the messages off a queue one after the other, and says whether the M_IOCTL of a number was among them.
fn take_all<B: Blocks>(store: &mut B, queue: &mut Queue, number: u32) -> bool
    requires { IsReady (B.value store.old) queue.old }
    ensures queue { queue_in (B.value store.new) queue.new ≡ emptied of_all (queue_in (B.value store.old) queue.old) }
    ensures met { result ≡ has_ioctl number (messages_on (B.value store.old) queue.old.list) }
    ensures changes { Changes (B.value store.old) (B.value store.new) queue.old queue.new }
    ensures frees { FreesBlocks (B.value store.old) (B.value store.new) }
{
    let mut met = false;
    while !queue.is_empty(store) {
        let Some(message) = dequeue(store, queue) else {
            unreachable!()
        };
        store.audit();
        met |= is_ioctl_of(store, &message, number);
        store.free(message);
    }
    queue.want_read = true;
    met
}

// Empties a queue message by message, as the M_IOCTL of a number is sought among them.
fn empty_seeking<B: Blocks>(store: &mut B, queue: &mut Queue, number: u32) -> Emptied
    requires { IsReady (B.value store.old) queue.old }
    ensures queue { queue_in (B.value store.new) queue.new ≡ queue_behind of_all (queue_in (B.value store.old) queue.old) }
    ensures room { result.room ≡ writer_goes of_all (queue_in (B.value store.old) queue.old) }
    ensures met { result.met ≡ has_ioctl number (messages_on (B.value store.old) queue.old.list) }
    ensures changes { Changes (B.value store.old) (B.value store.new) queue.old queue.new }
    ensures frees { FreesBlocks (B.value store.old) (B.value store.new) }
{
    let before = total(store, queue);
    let met = take_all(store, queue, number);
    if total(store, queue) == before {
        return Emptied { room: false, met };
    }
    Emptied {
        room: relieve(queue),
        met,
    }
}

/// Lets all go that stands on a queue. Its bytes of a direction go by a rule. It says whether queues before it have room
/// again, and whether the M_IOCTL that is sought was among the messages, where one is: then each of them is looked at.
pub fn clear_queue<B: Blocks>(
    store: &mut B,
    queue: &mut Queue,
    seeking: Option<u32>,
    direction: Dir,
    rule: Rule,
    told: &mut Fates,
) -> Emptied
    requires { IsReady (B.value store.old) queue.old }
    ensures queue { queue_in (B.value store.new) queue.new
        ≡ queue_behind of_all (queue_in (B.value store.old) queue.old) }
    ensures room { result.room ≡ writer_goes of_all (queue_in (B.value store.old) queue.old) }
    ensures met { result.met ≡ is_met seeking (messages_on (B.value store.old) queue.old.list) }
    ensures told { told.new ≡ told_more direction rule
        (length (cells_gone of_all (messages_on (B.value store.old) queue.old.list))) told.old }
    ensures changes { Changes (B.value store.old) (B.value store.new) queue.old queue.new }
    ensures frees { FreesBlocks (B.value store.old) (B.value store.new) }
{
    let bytes = going(store, queue, Chosen::All);
    told.tell(direction, rule, bytes);
    match seeking {
        Some(number) => empty_seeking(store, queue, number),
        None => Emptied {
            room: empty(store, queue, Chosen::All),
            met: false,
        },
    }
}

/// Takes from a queue what a flush takes, of one band or of all, and says whether that lets a waiting writer go. Its bytes of a direction are
/// told as flushed.
pub fn flush_queue<B: Blocks>(
    store: &mut B,
    queue: &mut Queue,
    direction: Dir,
    band: Option<Band>,
    told: &mut Fates,
) -> bool
    requires ready { IsReady (B.value store.old) queue.old }
    ensures queue { queue_in (B.value store.new) queue.new ≡ queue_behind (of_data band) (queue_in (B.value store.old) queue.old) }
    ensures went { result ≡ writer_goes (of_data band) (queue_in (B.value store.old) queue.old) }
    ensures told { told.new ≡ counted_with
        (Goes direction Flushed (cells_gone (of_data band) (messages_on (B.value store.old) queue.old.list))) told.old }
    ensures changes { Changes (B.value store.old) (B.value store.new) queue.old queue.new }
    ensures frees { FreesBlocks (B.value store.old) (B.value store.new) }
{
    let chosen = Chosen::of_data(band);
    told.tell(direction, Rule::Flushed, going(store, queue, chosen));
    empty(store, queue, chosen)
}
