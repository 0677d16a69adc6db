//! A put at a driver (put(9E), ptm(7D), pts(7D)).

ghost use Rattle.std.specs.Prelude.{◌≡◌, ◌<◌, ◌≤◌, ◌+◌, true, false};
ghost use Rattle.strm_types.specs.declared.limits.TheConstants.{MODULES};
ghost use Rattle.strm_types.specs.declared.names.Way.TheVariants.{Up, Down};
ghost use Rattle.strm_types.specs.Deliver.{tallied};
ghost use Rattle.strm_types.specs.Drivers.{crosses, driver_put, put_down, put_across};
ghost use Rattle.strm_types.specs.Flush.{is_data_kind};
ghost use Rattle.strm_blocks.specs.Blocks.{IsInHand, in_hand, block_at, token};
ghost use Rattle.strm_msg.specs.Messages.{IsChain};
ghost use Rattle.strm_types.specs.Message.{is_held};
ghost use Rattle.strm_queue.specs.Stored.{queue_in, FreesNone, IsReady};
ghost use Rattle.strm_frame.specs.Hands.{HasRoom, Hands, Spends, SamePool};
ghost use Rattle.strm_frame.specs.Outboxes.{message_in, sent_of, times_sent, parcels_in, AreChains};
ghost use Rattle.strm_pty.specs.Does.{Does, OnlyQueue, driver_cost};

use crate::answering::put_ioctl;
use crate::flushing::{flush_across, flush_down};
use crate::taking::{let_go, take_in};
use strm_blocks::{Blocks, InHand};
use strm_frame::Acts;
use strm_queue::Queue;
use strm_types::{Across, Fates, MsgKind, Spot, Way};

// Whether messages of a kind always cross.
#[tactic(auto, unfolding(strm_types::specs::Drivers::crosses))]
fn crosses(kind: MsgKind) -> bool
    ensures { result ≡ crosses kind }
{
    matches!(
        kind,
        MsgKind::Data
            | MsgKind::Proto
            | MsgKind::Pcproto
            | MsgKind::Stop
            | MsgKind::Start
            | MsgKind::Iocack
            | MsgKind::Iocnak
    )
}

// Puts a message without parts that comes down.
fn put_down<B: Blocks>(
    store: &mut B,
    queue: &mut Queue,
    across: Across,
    here: Spot,
    kind: MsgKind,
    message: InHand,
    told: &mut Fates,
) -> Acts
    requires ready { IsReady (B.value store.old) queue.old }
    requires in_hand { IsInHand (B.value store.old) (token message) }
    requires chain { IsChain (in_hand (B.value store.old) (token message)) }
    requires kind_is { (block_at 0 (in_hand (B.value store.old) (token message))).kind ≡ kind }
    requires kind { is_data_kind kind ≡ false }
    requires room { HasRoom (B.value store.old) (driver_cost Down kind) }
    requires inside { 0 < here.at }
    requires small { here.at ≤ MODULES + 1 }
    ensures { let s = B.value store.old in
        Does s (B.value store.new) queue.old queue.new (token message) (driver_cost Down kind) result
        told.old told.new
        (put_down here.side across here kind (message_in s (token message)) (queue_in s queue.old)) }
{
    match kind {
        MsgKind::Flush => flush_down(store, queue, across, here.side, message, told),
        MsgKind::Ioctl => put_ioctl(store, queue, across, here, message, told),
        _ if crosses(kind) => take_in(store, queue, across, here.side, message, told),
        _ => let_go(store, message),
    }
}

// Puts a message without parts that the other driver has sent.
fn put_across<B: Blocks>(
    store: &mut B,
    queue: &mut Queue,
    across: Across,
    here: Spot,
    kind: MsgKind,
    message: InHand,
    told: &mut Fates,
) -> Acts
    requires ready { IsReady (B.value store.old) queue.old }
    requires in_hand { IsInHand (B.value store.old) (token message) }
    requires kind_is { (block_at 0 (in_hand (B.value store.old) (token message))).kind ≡ kind }
    requires kind { is_data_kind kind ≡ false }
    requires room { HasRoom (B.value store.old) (driver_cost Up kind) }
    ensures { let s = B.value store.old in
        Does s (B.value store.new) queue.old queue.new (token message) (driver_cost Up kind) result
        told.old told.new
        (put_across here.side across kind (message_in s (token message)) (queue_in s queue.old)) }
{
    match kind {
        MsgKind::Flush => flush_across(store, queue, across, here.side, message, told),
        _ => let_go(store, message),
    }
}

// Puts a message at a driver.
fn put_any<B: Blocks>(
    store: &mut B,
    queue: &mut Queue,
    across: Across,
    here: Spot,
    kind: MsgKind,
    message: InHand,
    told: &mut Fates,
) -> Acts
    requires ready { IsReady (B.value store.old) queue.old }
    requires in_hand { IsInHand (B.value store.old) (token message) }
    requires chain { IsChain (in_hand (B.value store.old) (token message)) }
    requires kind_is { (block_at 0 (in_hand (B.value store.old) (token message))).kind ≡ kind }
    requires room { HasRoom (B.value store.old) (driver_cost here.way kind) }
    requires inside { 0 < here.at }
    requires small { here.at ≤ MODULES + 1 }
    ensures does { let s = B.value store.old in
        Does s (B.value store.new) queue.old queue.new (token message) (driver_cost here.way kind) result
        told.old told.new
        (driver_put here.side across here (message_in s (token message)) (queue_in s queue.old)) }
    ensures blocks { is_data_kind kind ≡ true → across.ended ≡ false → FreesNone (B.value store.old) (B.value store.new) }
{
    if kind.is_data_kind() {
        return take_in(store, queue, across, here.side, message, told);
    }
    match here.way {
        Way::Down => put_down(store, queue, across, here, kind, message, told),
        Way::Up => put_across(store, queue, across, here, kind, message, told),
    }
}

/// Puts a message in hand at the driver of `here.side`, which comes down to it, or up from the other side's driver,
/// and says what it does: `put(9E)`. `queue` is the driver's own, and `across` tells of the other side.
///
/// A message that crosses is queued, and from there it will go up the other side's stream: no block is freed by an M_DATA
/// or M_PROTO. Once the master is closed it is freed, and its bytes are told as of the end that was closed. An M_FLUSH empties the driver's own
/// queue for FLUSHW and goes on to the readers across, and for FLUSHR it goes to the other driver. An M_IOCTL with
/// a number other than 0 that nobody across can answer is answered with M_IOCNAK, EINVAL. All others are freed.
///
/// It takes at most as many blocks of each kind as `driver_cost` says: two for an M_FLUSH that comes down, one for
/// one that comes across and for an M_IOCTL, none for others. The cost is a step for each block of the message, and
/// for an M_FLUSH for each on the queue.
pub fn put<B: Blocks>(
    store: &mut B,
    queue: &mut Queue,
    across: Across,
    here: Spot,
    message: InHand,
    told: &mut Fates,
) -> Acts
    requires ready { IsReady (B.value store.old) queue.old }
    requires in_hand { IsInHand (B.value store.old) (token message) }
    requires chain { IsChain (in_hand (B.value store.old) (token message)) }
    requires room { let s = B.value store.old in
        HasRoom s (driver_cost here.way (message_in s (token message)).kind) }
    requires inside { 0 < here.at }
    requires small { here.at ≤ MODULES + 1 }
    ensures state { let s = B.value store.old in
        queue_in (B.value store.new) queue.new ≡
        (driver_put here.side across here (message_in s (token message)) (queue_in s queue.old)).state }
    ensures notes { let s = B.value store.old in
        result.notes.items ≡
        (driver_put here.side across here (message_in s (token message)) (queue_in s queue.old)).notes }
    ensures sent { let s = B.value store.old in
        parcels_in (B.value store.new) (sent_of result.sent) ≡
        (driver_put here.side across here (message_in s (token message)) (queue_in s queue.old)).sent }
    ensures told { let s = B.value store.old in
        told.new ≡ tallied
        (driver_put here.side across here (message_in s (token message)) (queue_in s queue.old)).gone told.old }
    ensures only { OnlyQueue (B.value store.old) (B.value store.new) queue.old queue.new }
    ensures chains { AreChains (B.value store.new) (sent_of result.sent) }
    ensures hands { Hands (B.value store.old) (B.value store.new) (token message) (λ _. 0) (λ _. 0)
        (λ i. times_sent i (sent_of result.sent)) }
    ensures spends { let s = B.value store.old in
        Spends s (B.value store.new) (driver_cost here.way (message_in s (token message)).kind) 0 }
    ensures blocks { is_held (message_in (B.value store.old) (token message)).kind ≡ true → across.ended ≡ false →
        FreesNone (B.value store.old) (B.value store.new) }
    ensures pool { SamePool (B.value store.old) (B.value store.new) }
{
    store.audit();
    let kind = store.kind(&message, 0);
    put_any(store, queue, across, here, kind, message, told)
}
