//! What a driver does with an M_FLUSH (STREAMS Programming Guide, "Flush Handling").

ghost use Rattle.std.specs.Prelude.{◌≡◌, ◌&&◌, true, false, if◌then◌else◌};
ghost use Rattle.std.specs.Option.{option_to_list};
ghost use Rattle.strm_types.specs.Drivers.{bottom_across, driver_across, own_flushed, freed};
ghost use Rattle.strm_types.specs.Drivers.{reader_flush, flush_down, flush_across};
ghost use Rattle.strm_types.specs.Flush.{is_data_kind};
ghost use Rattle.strm_types.specs.Flushing.{asked_by};
ghost use Rattle.strm_blocks.specs.Blocks.{IsInHand, in_hand, block_at, token};
ghost use Rattle.strm_queue.specs.Stored.{queue_in, IsReady};
ghost use Rattle.strm_frame.specs.Hands.{HasRoom};
ghost use Rattle.strm_frame.specs.Outboxes.{message_in};
ghost use Rattle.strm_pty.specs.Does.{Does, Alters, Makes};

use crate::making::flush_to;
use arrayvec::ArrayVec;
use strm_blocks::{Blocks, InHand};
use strm_frame::flushes::asked_of;
use strm_frame::{Acts, Outbox, Sent, note_if};
use strm_queue::Queue;
use strm_queue::emptying::{Chosen, empty, going};
use strm_types::{Across, Fates, FlushAsked, MODULES, Note, Rule, Side, Spot, Way};

// The place above the other side's driver, on the way up.
fn bottom_across(side: Side, across: Across) -> Spot
    ensures { result ≡ bottom_across side across }
{
    Spot {
        side: side.other(),
        at: across.bottom,
        way: Way::Up,
    }
}

// The other side's driver, which is behind all places for modules.
fn driver_across(side: Side, across: Across) -> Spot
    ensures { result ≡ driver_across side across }
{
    let _ = across;
    Spot {
        side: side.other(),
        at: MODULES as u8 + 1,
        way: Way::Up,
    }
}

// Flushes a driver's own queue, where a condition holds, and says whose places on the enabled list change.
fn flush_own<B: Blocks>(
    store: &mut B,
    queue: &mut Queue,
    goes: bool,
    side: Side,
    asked: FlushAsked,
    told: &mut Fates,
) -> ArrayVec<Note, 4>
    requires ready { IsReady (B.value store.old) queue.old }
    ensures { let s = B.value store.old in let q = queue_in s queue.old in
        Alters s (B.value store.new) queue.old queue.new result.items told.old told.new
        (if goes then own_flushed side asked q else freed q) }
{
    if !goes {
        return ArrayVec::new();
    }
    let chosen = Chosen::of_data(asked.band);
    told.tell(side.direction(), Rule::Flushed, going(store, queue, chosen));
    let relieved = empty(store, queue, chosen);
    note_if(relieved, Note::Room(Way::Down))
}

// Makes an M_FLUSH for the readers across, where a condition holds and that side is open.
fn flush_readers<B: Blocks>(
    store: &mut B,
    goes: bool,
    side: Side,
    across: Across,
    asked: FlushAsked,
) -> Option<Sent>
    requires { HasRoom (B.value store.old) 1 }
    ensures { Makes (B.value store.old) (B.value store.new) 1 (option_to_list result)
        (reader_flush (goes && across.is_open) asked (bottom_across side across)) }
{
    if across.is_open {
        flush_to(store, goes, asked, bottom_across(side, across))
    } else {
        None
    }
}

/// Obeys an M_FLUSH that comes down. It takes at most two blocks of each kind.
pub(crate) fn flush_down<B: Blocks>(
    store: &mut B,
    queue: &mut Queue,
    across: Across,
    side: Side,
    message: InHand,
    told: &mut Fates,
) -> Acts
    requires ready { IsReady (B.value store.old) queue.old }
    requires in_hand { IsInHand (B.value store.old) (token message) }
    requires kind { is_data_kind (block_at 0 (in_hand (B.value store.old) (token message))).kind ≡ false }
    requires room { HasRoom (B.value store.old) 2 }
    ensures { let s = B.value store.old in
        Does s (B.value store.new) queue.old queue.new (token message) 2 result told.old told.new
        (flush_down side across (asked_by (message_in s (token message)).plain) (queue_in s queue.old)) }
{
    let asked = asked_of(store, &message);
    store.audit();
    store.free(message);
    let notes = flush_own(store, queue, asked.for_write, side, asked, told);
    let readers = flush_readers(store, asked.for_write, side, across, asked);
    let driver = flush_to(store, asked.for_read, asked, driver_across(side, across));
    Acts {
        notes,
        sent: Outbox {
            first: readers,
            second: driver,
            third: None,
            fourth: None,
        },
    }
}

/// Obeys an M_FLUSH that the other driver has sent. It takes at most one block of each kind.
pub(crate) fn flush_across<B: Blocks>(
    store: &mut B,
    queue: &mut Queue,
    across: Across,
    side: Side,
    message: InHand,
    told: &mut Fates,
) -> Acts
    requires ready { IsReady (B.value store.old) queue.old }
    requires in_hand { IsInHand (B.value store.old) (token message) }
    requires kind { is_data_kind (block_at 0 (in_hand (B.value store.old) (token message))).kind ≡ false }
    requires room { HasRoom (B.value store.old) 1 }
    ensures { let s = B.value store.old in
        Does s (B.value store.new) queue.old queue.new (token message) 1 result told.old told.new
        (flush_across side across (asked_by (message_in s (token message)).plain) (queue_in s queue.old)) }
{
    let asked = asked_of(store, &message);
    store.audit();
    store.free(message);
    let notes = flush_own(store, queue, asked.for_read, side, asked, told);
    let readers = flush_readers(store, asked.for_read, side, across, asked);
    Acts {
        notes,
        sent: Outbox {
            first: readers,
            second: None,
            third: None,
            fourth: None,
        },
    }
}
