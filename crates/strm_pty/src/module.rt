//! The modules, as a stream's stack of modules has them (STREAMS Programming Guide, "Modules"). They have no queues and no line, and no turn of
//! theirs is ever made.

use crate::pckt::{self, Pckt};
use crate::ptem::{self, Ptem};
use arrayvec::ArrayVec;
use strm_blocks::{Blocks, InHand};
use strm_frame::{Acts, Module, Outbox, Procedures, QueuePair, Served};
use strm_types::{Asks, Fates, ModuleName, Spot, Way};

impl Module for Pckt {
    ghost use Rattle.std.specs.Prelude.{◌≡◌, refl, None, [], true, false};
    ghost use Rattle.strm_types.specs.declared.names.ModuleName.TheVariants as names;
    ghost use Rattle.strm_types.specs.declared.spots.Asks.TheVariants.{Empty};
    ghost use Rattle.strm_types.specs.Pckts as plain;
    ghost use Rattle.strm_types.specs.Tables.{pckt_does};
    ghost use Rattle.strm_types.specs.Service.{acts_alone, unserved};
    ghost use Rattle.strm_frame.specs.StandingLaws.{none-same};
    ghost use Rattle.strm_pty.specs.Packs.{pckt_in, puts};

    ghost Plain = { plain.Pckt };

    ghost plain = { λ s x. pckt_in };

    ghost name_of = { λ p. names.Pckt };

    ghost IsHeld = { λ s x queues. queues ≡ None };

    ghost keeps = { λ x i. 0 };

    ghost puts = { λ by here m x. acts_alone (puts here m) x };

    ghost line_of = { λ p. [] };

    ghost without_line = { λ p. p };

    ghost asks = { λ by way x. Empty };

    ghost serves = { λ by here again stop x. unserved x };

    ghost MayServe = { λ way again p. again ≡ false };

    ghost MayStop = { λ way again bytes x. ⊥ };

    ghost does = { λ p. pckt_does };

    ghost holds = { λ p. true };

    ghost turn_cost = { λ here again p. 0 };

    fn name(&self) -> ModuleName {
        ModuleName::Pckt
    }

    fn line_len(&self) -> usize {
        0
    }

    fn clear_line(&mut self) -> usize {
        0
    }

    ghost frame = { λ s t x queues others lists same held. (refl, none-same queues others lists held) };

    ghost rested = { λ s t x queues others lists none held. (refl, none-same queues others lists held) };

    ghost rests = { λ s x queues way i held may. refl };

    ghost either_way = { λ way other p may. may };

    ghost line_stays = { λ p way again may. may };
}

impl Procedures<()> for Pckt {
    ghost use Rattle.std.specs.Prelude.{refl, false};
    ghost use Rattle.strm_types.specs.Cells as cells;
    ghost use Rattle.strm_types.proofs.PcktWithin.{pckt-within};
    ghost use Rattle.strm_frame.specs.NoOwn.{no_own};

    ghost by = { no_own };

    ghost wide = { false };

    fn put<B: Blocks>(
        &mut self,
        _queues: &mut Option<QueuePair>,
        store: &mut B,
        here: Spot,
        message: InHand,
        told: &mut Fates,
    ) -> Acts {
        store.audit();
        pckt::put(store, here, message, told)
    }

    fn asks<B: Blocks>(&self, _queues: &Option<QueuePair>, _store: &B, _way: Way) -> Asks {
        Asks::Empty
    }

    fn serve<B: Blocks>(
        &mut self,
        _queues: &mut Option<QueuePair>,
        _store: &mut B,
        _here: Spot,
        _again: bool,
        _told: &mut Fates,
    ) -> Served {
        Served {
            acts: Acts {
                notes: ArrayVec::new(),
                sent: Outbox::none(),
            },
            bytes: 0,
            stopped: false,
            again: false,
        }
    }

    ghost within = { λ here m x. pckt-within cells.plain 0 here m };

    ghost put_stays = { λ here m x way again may. may };

    ghost turn_goes = { λ here again stop x may. refl };
}

impl Module for Ptem {
    ghost use Rattle.std.specs.Prelude.{◌≡◌, refl, None, [], true, false};
    ghost use Rattle.strm_types.specs.declared.names.ModuleName.TheVariants as names;
    ghost use Rattle.strm_types.specs.declared.spots.Asks.TheVariants.{Empty};
    ghost use Rattle.strm_types.specs.Ptems as plain;
    ghost use Rattle.strm_types.specs.Tables.{ptem_does};
    ghost use Rattle.strm_types.specs.Service.{acts_alone, unserved};
    ghost use Rattle.strm_frame.specs.StandingLaws.{none-same};
    ghost use Rattle.strm_pty.specs.Beside.{ptem_in};

    ghost Plain = { plain.Ptem };

    ghost plain = { λ s x. ptem_in x };

    ghost name_of = { λ p. names.Ptem };

    ghost IsHeld = { λ s x queues. queues ≡ None };

    ghost keeps = { λ x i. 0 };

    ghost puts = { λ by here m x. acts_alone (plain.ptem_puts here m) x };

    ghost line_of = { λ p. [] };

    ghost without_line = { λ p. p };

    ghost asks = { λ by way x. Empty };

    ghost serves = { λ by here again stop x. unserved x };

    ghost MayServe = { λ way again p. again ≡ false };

    ghost MayStop = { λ way again bytes x. ⊥ };

    ghost does = { λ p. ptem_does };

    ghost holds = { λ p. true };

    ghost turn_cost = { λ here again p. 0 };

    fn name(&self) -> ModuleName {
        ModuleName::Ptem
    }

    fn line_len(&self) -> usize {
        0
    }

    fn clear_line(&mut self) -> usize {
        0
    }

    ghost frame = { λ s t x queues others lists same held. (refl, none-same queues others lists held) };

    ghost rested = { λ s t x queues others lists none held. (refl, none-same queues others lists held) };

    ghost rests = { λ s x queues way i held may. refl };

    ghost either_way = { λ way other p may. may };

    ghost line_stays = { λ p way again may. may };
}

impl Procedures<()> for Ptem {
    ghost use Rattle.std.specs.Prelude.{refl, false};
    ghost use Rattle.strm_types.specs.Ptems as plain;
    ghost use Rattle.strm_types.proofs.PtemWithin.{ptem-within};
    ghost use Rattle.strm_frame.specs.NoOwn.{no_own};

    ghost by = { no_own };

    ghost wide = { false };

    fn put<B: Blocks>(
        &mut self,
        _queues: &mut Option<QueuePair>,
        store: &mut B,
        here: Spot,
        message: InHand,
        _told: &mut Fates,
    ) -> Acts {
        store.audit();
        ptem::put(self, store, here, message)
    }

    fn asks<B: Blocks>(&self, _queues: &Option<QueuePair>, _store: &B, _way: Way) -> Asks {
        Asks::Empty
    }

    fn serve<B: Blocks>(
        &mut self,
        _queues: &mut Option<QueuePair>,
        _store: &mut B,
        _here: Spot,
        _again: bool,
        _told: &mut Fates,
    ) -> Served {
        Served {
            acts: Acts {
                notes: ArrayVec::new(),
                sent: Outbox::none(),
            },
            bytes: 0,
            stopped: false,
            again: false,
        }
    }

    ghost within = { λ here m x. ptem-within here m x.part };

    ghost put_stays = { λ here m x way again may. may };

    ghost turn_goes = { λ here again stop x may. refl };
}
