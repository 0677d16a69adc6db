//! What a driver does with an M_IOCTL (streamio(7I): I_STR).

ghost use Rattle.std.specs.Prelude.{◌≡◌, ◌<◌, ◌^◌, ◌==◌, ◌||◌, ◌&&◌, false, [], ◌∷◌};
ghost use Rattle.strm_types.specs.declared.names.Way.TheVariants.{Up};
ghost use Rattle.strm_types.specs.Deliver.{toward};
ghost use Rattle.strm_types.specs.Drivers.{ioctl_put};
ghost use Rattle.strm_types.specs.Flush.{is_data_kind};
ghost use Rattle.strm_types.specs.Ioctls.{read_ioc, nak_message};
ghost use Rattle.strm_types.specs.Names.{is_master};
ghost use Rattle.strm_blocks.specs.Blocks.{IsInHand, in_hand, block_at, token};
ghost use Rattle.strm_msg.specs.Messages.{IsChain};
ghost use Rattle.strm_queue.specs.Stored.{queue_in, IsReady};
ghost use Rattle.strm_frame.specs.Hands.{HasRoom};
ghost use Rattle.strm_frame.specs.Outboxes.{message_in, sent_of};
ghost use Rattle.strm_pty.specs.Does.{Does, Swaps};

use crate::making::make;
use crate::taking::{let_go, take_in};
use arrayvec::ArrayVec;
use strm_blocks::{Blocks, InHand};
use strm_frame::ioctls::header_of;
use strm_frame::{Acts, Outbox, Sent};
use strm_queue::Queue;
use strm_types::{Across, Fates, Ioc, MsgKind, Side, Spot, Way};

// Frees an M_IOCTL, and answers it with M_IOCNAK, up the stream from which it came.
fn answer<B: Blocks>(store: &mut B, here: Spot, ioc: Ioc, message: InHand) -> Acts
    requires in_hand { IsInHand (B.value store.old) (token message) }
    requires room { HasRoom (B.value store.old) 1 }
    requires inside { 0 < here.at }
    requires small { here.at < 255 }
    ensures notes { result.notes.items ≡ [] }
    ensures swaps { Swaps (B.value store.old) (B.value store.new) (token message) 1 (sent_of result.sent)
        (record { to = toward Up here; message = nak_message ioc } ∷ []) }
{
    store.audit();
    store.free(message);
    let header = ioc.refused().bytes();
    let message = make(store, MsgKind::Iocnak, &header);
    Acts {
        notes: ArrayVec::new(),
        sent: Outbox::one(Sent {
            to: here.toward(Way::Up),
            message,
        }),
    }
}

// Whether an M_IOCTL goes across: one that asks nothing, and a master's while the slave is open.
fn goes_across(side: Side, across: Across, ioc: Ioc) -> bool
    ensures { result ≡ (ioc.number == 0 || (is_master side && across.is_open)) }
{
    let is_master = match side {
        Side::Master => true,
        Side::Slave => false,
    };
    ioc.number == 0 || (is_master && across.is_open)
}

/// Passes an M_IOCTL on to the other side, or answers it. It takes at most one block of each kind.
pub(crate) fn put_ioctl<B: Blocks>(
    store: &mut B,
    queue: &mut Queue,
    across: Across,
    here: Spot,
    message: InHand,
    told: &mut Fates,
) -> Acts
    requires ready { IsReady (B.value store.old) queue.old }
    requires in_hand { IsInHand (B.value store.old) (token message) }
    requires chain { IsChain (in_hand (B.value store.old) (token message)) }
    requires kind { is_data_kind (block_at 0 (in_hand (B.value store.old) (token message))).kind ≡ false }
    requires room { HasRoom (B.value store.old) 1 }
    requires inside { 0 < here.at }
    requires small { here.at < 255 }
    ensures { let s = B.value store.old in let m = message_in s (token message) in
        Does s (B.value store.new) queue.old queue.new (token message) 1 result told.old told.new
        (ioctl_put here.side across here (read_ioc m.plain) m (queue_in s queue.old)) }
{
    let Some(ioc) = header_of(store, &message) else {
        return let_go(store, message);
    };
    if goes_across(here.side, across, ioc) {
        take_in(store, queue, across, here.side, message, told)
    } else {
        answer(store, here, ioc, message)
    }
}
