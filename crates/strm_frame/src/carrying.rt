//! Delivery: a message is put at a spot, and each message that this gives rise to is carried on in turn, with all that
//! it gives rise to, until queues or ends have taken all.

ghost use Rattle.strm_types.specs.Deliver.{carried, in_turn};
ghost use Rattle.strm_blocks.specs.Blocks.{in_hand, token};
ghost use Rattle.strm_msg.specs.Messages.{IsChain};
ghost use Rattle.strm_types.specs.Budgets.{budget, cost_of};
ghost use Rattle.strm_frame.specs.Outboxes.{AreChains, message_in, parcels_in, sent_of, spot_in, times_sent};
ghost use Rattle.strm_queue.specs.Stored.{FreesNone};
ghost use Rattle.strm_frame.specs.Does.{Delivers, StaysAlone};
ghost use Rattle.strm_frame.specs.Hands.{AreIn, CanPut, MayDeliver, once};

use crate::parcels::Outbox;
use crate::places::Stations;
use strm_blocks::{Blocks, InHand};
use strm_types::{Fates, Spot};

/// Delivers a message to a spot, with all that it gives rise to: what is put there sends others on, and each is carried
/// with all that it gives rise to before the next. It is handed on at most `hops` times. One that stays frees no block.
///
/// The cost is that of the puts. No byte is copied but by a put, and no memory is taken.
#[cycle(delivery)]
pub fn deliver<B: Blocks, W, S: Stations<B, W>>(
    store: &mut B,
    stations: &mut S,
    hops: usize,
    to: Spot,
    message: InHand,
    told: &mut Fates,
)
    requires held { S.IsHeld (B.value store.old) stations.old }
    requires can_put { CanPut (B.value store.old) (token message) (S.keeps stations.old) }
    requires chain { IsChain (in_hand (B.value store.old) (token message)) }
    requires may { let s = B.value store.old in let p = S.plain s stations.old in
        MayDeliver s (S.spare p) (budget (S.costs p) hops (spot_in s to (token message))) }
    ensures delivers { let s = B.value store.old in let p = S.plain s stations.old in let m = message_in s (token message) in
        Delivers S.plain S.IsHeld S.keeps S.spare s (B.value store.new) stations.old stations.new (once (token message))
        (budget (S.costs p) hops (spot_in s to (token message))) told.old told.new (carried S.puts hops (record { to = to; message = m }) p) }
    ensures blocks { let s = B.value store.old in
        S.stays (S.plain s stations.old) to (message_in s (token message)) → FreesNone s (B.value store.new) }
{
    let sent = stations.put_at(store, to, message, told);
    store.audit();
    if sent.is_empty() {
        return;
    }
    let left = hops - 1;
    deliver_all::<B, W, S>(store, stations, left, sent, told);
}

/// Delivers messages one after the other, each with all that it gives rise to before the next. Each is handed on at most `hops`
/// times. One that is alone and stays frees no block.
#[cycle(delivery)]
pub fn deliver_all<B: Blocks, W, S: Stations<B, W>>(
    store: &mut B,
    stations: &mut S,
    hops: usize,
    sent: Outbox,
    told: &mut Fates,
)
    requires held { S.IsHeld (B.value store.old) stations.old }
    requires are_in { AreIn (B.value store.old) (λ i. times_sent i (sent_of sent)) (S.keeps stations.old) }
    requires chains { AreChains (B.value store.old) (sent_of sent) }
    requires may { let s = B.value store.old in let p = S.plain s stations.old in
        MayDeliver s (S.spare p) (cost_of (budget (S.costs p) hops) (parcels_in s (sent_of sent))) }
    ensures delivers { let s = B.value store.old in let p = S.plain s stations.old in let parcels = parcels_in s (sent_of sent) in
        Delivers S.plain S.IsHeld S.keeps S.spare s (B.value store.new) stations.old stations.new (λ i. times_sent i (sent_of sent))
        (cost_of (budget (S.costs p) hops) parcels) told.old told.new (in_turn (carried S.puts hops) parcels p) }
    ensures blocks { let s = B.value store.old in
        StaysAlone S.stays (S.plain s stations.old) (parcels_in s (sent_of sent)) → FreesNone s (B.value store.new) }
{
    let mut left = sent;
    if left.is_empty() {
        return;
    }
    while let Some(next) = left.take_first() {
        store.audit();
        deliver::<B, W, S>(store, stations, hops, next.to, next.message, told);
    }
}
