//! What stands on the streams of a pair.

ghost use Rattle.std.specs.Prelude.{ℕ, ◌≡◌};
ghost use Rattle.strm_types.specs.declared.spots.Spot.{Spot};
ghost use Rattle.strm_types.specs.Message.{Message};
ghost use Rattle.strm_types.specs.Budgets.{Costed, Costs};
ghost use Rattle.strm_types.specs.Deliver.{Took};
ghost use Rattle.strm_types.specs.Shapes.{At};
ghost use Rattle.strm_blocks.specs.Blocks.{StoreValue, in_hand, token};
ghost use Rattle.strm_msg.specs.Messages.{IsChain};
ghost use Rattle.strm_queue.specs.Stored.{FreesNone};
ghost use Rattle.strm_frame.specs.Does.{PutsAt, StaysAlone};
ghost use Rattle.strm_frame.specs.Outboxes.{message_in, sent_of, spot_in};
ghost use Rattle.strm_frame.specs.Hands.{CanPut, SameFor, MayTake};

use crate::parcels::Outbox;
use strm_blocks::{Blocks, InHand};
use strm_types::{Fates, Spot};

/// Stations at which messages are put: heads, modules and drivers with their queues, on a store of blocks.
pub trait Stations<B: Blocks, W> {
    /// The plain state of the stations.
    ghost Plain: { Type 0 };

    /// What the stations and the store stand for.
    ghost plain: { StoreValue → Self → Plain };

    /// The store and the stations beside it fit.
    ghost IsHeld: { StoreValue → Self → Type 0 };

    /// How often the stations themselves keep a message of a name in hand.
    ghost keeps: { Self → ℕ → ℕ };

    /// What a message does that is put at a spot.
    ghost puts: { Spot → Message ℕ → Plain → Took ℕ Plain };

    /// What a put at a spot does at most, by the shape of what is put: how many blocks of each kind it takes, and what it sends on.
    ghost costs: { Plain → At → Costs };

    /// How much of what else the stations count, as bytes that they make, may come to what is there: in units of which a message takes no
    /// more than blocks.
    ghost spare: { Plain → ℕ };

    /// A message that stays, put at a spot: it comes to stand on a queue with its blocks, as it is or in what is made of it, and frees none.
    ghost stays: { Plain → Spot → Message ℕ → Type 0 };

    /// Puts a message in hand at a spot, and gives what is sent on, in order.
    fn put_at(&mut self, store: &mut B, to: Spot, message: InHand, told: &mut Fates) -> Outbox
        requires held { IsHeld (B.value store.old) self.old }
        requires can_put { CanPut (B.value store.old) (token message) (keeps self.old) }
        requires chain { IsChain (in_hand (B.value store.old) (token message)) }
        requires room { let s = B.value store.old in
            MayTake s (spare (plain s self.old)) (costs (plain s self.old) (spot_in s to (token message))).own }
        ensures puts { let s = B.value store.old in let p = plain s self.old in
            PutsAt plain IsHeld keeps spare (costs p (spot_in s to (token message))).own s (B.value store.new) self.old self.new
            (token message) (sent_of result) told.old told.new (puts to (message_in s (token message)) p) }
        ensures blocks { let s = B.value store.old in
            stays (plain s self.old) to (message_in s (token message)) → FreesNone s (B.value store.new) };

    /// The stations stand for the same, and fit, wherever the lists are the same and what they keep in hand is.
    ghost frame: { (s t : StoreValue) (x : Self) → SameFor s t (keeps x) → IsHeld s x → (plain t x ≡ plain s x) ×
        IsHeld t x };

    /// A put sends on no more than that, and no put changes it.
    ghost costed: { Costed costs puts };

    /// A message that stays waits there, or is sent on as one that stays.
    ghost stays_on: { (to : Spot) (m : Message ℕ) (p : Plain) → stays p to m → let t = puts to m p in StaysAlone stays t.state t.sent };
}
