//! A module of a user's own among those of a stream's stack (STREAMS Programming Guide, "Modules"; qinit(9S)). It has no line. Where its number is from
//! `OWN_QUEUED` on it has queues, and keeps nothing in hand between two calls.

use crate::asking::asked_on;
use crate::own::{Own, OwnModule};
use crate::{putting, serving};
use strm_blocks::{Blocks, InHand};
use strm_frame::{Acts, Module, Procedures, QueuePair, Served};
use strm_types::{Asks, Fates, ModuleName, Spot, Way};

impl Module for Own {
    ghost use Rattle.std.specs.Prelude.{◌≡◌, refl, [], false};
    ghost use Rattle.strm_types.specs.declared.names.ModuleName.TheVariants as names;
    ghost use Rattle.strm_types.specs.Owns as plain;
    ghost use Rattle.strm_types.specs.OwnStands as there;
    ghost use Rattle.strm_types.specs.Tables.{own_does};
    ghost use Rattle.strm_own.specs.Stands as stands;
    ghost use Rattle.strm_own.specs.StandsLaws.{has-same};

    ghost Plain = { plain.Own };

    ghost plain = { λ s x. x };

    ghost name_of = { λ p. names.Own p.number };

    ghost IsHeld = { λ s x queues. stands.HasQueues x queues };

    ghost keeps = { λ x i. 0 };

    ghost puts = { λ by here m x. there.own_puts by here m x };

    ghost line_of = { λ p. [] };

    ghost without_line = { λ p. p };

    ghost asks = { λ by way x. there.own_asks by way x };

    ghost serves = { λ by here again stop x. there.own_serves by here x };

    ghost MayServe = { λ way again p. again ≡ false };

    ghost MayStop = { λ way again bytes x. ⊥ };

    ghost does = { λ p. own_does };

    ghost holds = { λ p. false };

    ghost turn_cost = { λ here again p. stands.turn_room };

    fn name(&self) -> ModuleName {
        ModuleName::Own(self.number())
    }

    fn line_len(&self) -> usize {
        0
    }

    fn clear_line(&mut self) -> usize {
        0
    }

    ghost frame = { λ s t x queues others lists same held. (refl, has-same x queues others lists held) };

    ghost rested = { λ s t x queues others lists none held. (refl, has-same x queues others lists held) };

    ghost rests = { λ s x queues way i held may. refl };

    ghost either_way = { λ way other p may. may };

    ghost line_stays = { λ p way again may. may };
}

impl<M: OwnModule> Procedures<M> for Own {
    ghost use Rattle.strm_types.specs.Cells as cells;
    ghost use Rattle.strm_laws.specs.Behaviours.{own_by};
    ghost use Rattle.strm_own.specs.StandsLaws.{own-once, own-within};

    ghost by = { own_by M.does cells.plain };

    ghost wide = { M.wide };

    fn put<B: Blocks>(
        &mut self,
        queues: &mut Option<QueuePair>,
        store: &mut B,
        here: Spot,
        message: InHand,
        told: &mut Fates,
    ) -> Acts {
        store.audit();
        match queues {
            Some(pair) => putting::put::<M, B>(self, pair, store, here, message, told),
            None => putting::put_alone::<M, B>(self, store, here, message, told),
        }
    }

    fn asks<B: Blocks>(&self, queues: &Option<QueuePair>, store: &B, way: Way) -> Asks {
        match queues {
            Some(pair) => asked_on::<M, B>(self, store, way, pair.queue(way)),
            None => Asks::Empty,
        }
    }

    fn serve<B: Blocks>(
        &mut self,
        queues: &mut Option<QueuePair>,
        store: &mut B,
        here: Spot,
        _again: bool,
        told: &mut Fates,
    ) -> Served {
        match queues {
            Some(pair) => serving::serve::<M, B>(self, pair, store, here, told),
            None => serving::unserved(),
        }
    }

    ghost within = { λ here m x. own-within M.does here m x };

    ghost put_stays = { λ here m x way again may. may };

    ghost turn_goes = { λ here again stop x may. own-once (own_by M.does cells.plain) here x };
}
