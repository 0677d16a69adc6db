//! The modules that may stand on a side's stream: ldterm (ldterm(7M)), ptem (ptem(7M)), pckt (pckt(7M)) and those of a user's own, each as it is by
//! itself.

ghost use Rattle.std.specs.Prelude.{ℕ, ◌≡◌, false, MatchOption};
ghost use Rattle.strm_types.specs.Ptems.{new_ptem};
ghost use Rattle.strm_laws.specs.Pushes.{is_known};
ghost use Rattle.strm_laws.specs.Stacked.{OfPtem, without_kind_line};
ghost use Rattle.strm_blocks.specs.Blocks.{StoreValue};
ghost use Rattle.strm_pair.specs.AnyModules.{IsBare, IsMade, kind_in};

use strm_blocks::{Blocks, InHand};
use strm_frame::{Acts, Module, Procedures, QueuePair, Served};
use strm_ldterm::Ldterm;
use strm_own::{Own, OwnModule};
use strm_pty::{Pckt, Ptem};
use strm_types::{Asks, Fates, ModuleName, Spot, Way};

/// A module of any kind.
#[derive(Drop)]
pub enum AnyModule {
    Ldterm(Ldterm),
    Ptem(Ptem),
    Pckt(Pckt),
    Own(Own),
}

impl Default for AnyModule {
    ghost is_default = { λ x. (s : StoreValue) → kind_in s x ≡ OfPtem new_ptem };

    /// What stands in the unused places of an array.
    fn default() -> AnyModule {
        AnyModule::Ptem(Ptem::new())
    }
}

impl AnyModule {
    /// One as its name makes it. `None` where there are no modules of the name.
    pub(crate) fn made<M: OwnModule>(name: ModuleName) -> Option<AnyModule>
        ensures { MatchOption result (is_known M.does name ≡ false) (IsMade M.does name) }
    {
        match name {
            ModuleName::Ldterm => Some(AnyModule::Ldterm(Ldterm::new())),
            ModuleName::Ptem => Some(AnyModule::Ptem(Ptem::new())),
            ModuleName::Pckt => Some(AnyModule::Pckt(Pckt)),
            ModuleName::Own(number) => match M::made(number) {
                Some(own) => Some(AnyModule::Own(own)),
                None => None,
            },
        }
    }

    /// Lets the unfinished line go, before the module is taken off. All else stays.
    pub(crate) fn wipe(&mut self)
        ensures bare { IsBare self.new }
        ensures lineless { (s : StoreValue) → kind_in s self.new ≡ without_kind_line (kind_in s self.old) }
    {
        if let AnyModule::Ldterm(ldterm) = self {
            let _ = ldterm.line.clear();
        }
    }
}

impl Module for AnyModule {
    ghost use Rattle.strm_types.specs.Cells as cells;
    ghost use Rattle.strm_types.specs.Tables.{name_does, name_holds};
    ghost use Rattle.strm_laws.specs.Stacked as plain;
    ghost use Rattle.strm_types.specs.LdtermCalls.{Ends};
    ghost use Rattle.strm_laws.specs.TurnCalls.{discipline_of};
    ghost use Rattle.strm_pair.specs.AnyModules as any;

    ghost Plain = { plain.Module ℕ };

    ghost plain = { λ s x. any.kind_in s x };

    ghost name_of = { plain.kind_name };

    ghost IsHeld = { λ s x queues. any.IsKindHeld s x queues };

    ghost keeps = { λ x. any.kind_keeps x };

    ghost puts = { λ own here m x. plain.puts_by own cells.plain 0 here m x };

    ghost line_of = { plain.kind_line };

    ghost without_line = { plain.without_kind_line };

    ghost asks = { plain.asks_by };

    ghost serves = { λ own here again stop x. plain.serves_by own cells.plain here 0 again stop x };

    ghost MayServe = { any.MayServe };

    ghost MayStop = { λ way again bytes x. Ends way again (discipline_of x) bytes };

    ghost does = { λ p. name_does (plain.kind_name p) };

    ghost holds = { λ p. name_holds (plain.kind_name p) };

    ghost turn_cost = { any.kind_cost };

    fn name(&self) -> ModuleName {
        match self {
            AnyModule::Ldterm(ldterm) => Module::name(ldterm),
            AnyModule::Ptem(ptem) => Module::name(ptem),
            AnyModule::Pckt(pckt) => Module::name(pckt),
            AnyModule::Own(own) => Module::name(own),
        }
    }

    fn line_len(&self) -> usize {
        match self {
            AnyModule::Ldterm(ldterm) => Module::line_len(ldterm),
            AnyModule::Ptem(ptem) => Module::line_len(ptem),
            AnyModule::Pckt(pckt) => Module::line_len(pckt),
            AnyModule::Own(own) => Module::line_len(own),
        }
    }

    fn clear_line(&mut self) -> usize {
        match self {
            AnyModule::Ldterm(ldterm) => Module::clear_line(ldterm),
            AnyModule::Ptem(ptem) => Module::clear_line(ptem),
            AnyModule::Pckt(pckt) => Module::clear_line(pckt),
            AnyModule::Own(own) => Module::clear_line(own),
        }
    }

    ghost frame = { λ s t x queues others lists same held. any.module-frame s t x queues others lists same held };

    ghost rested = { λ s t x queues others lists none held. any.module-rested s t x queues others lists none held };

    ghost rests = { λ s x queues way i held may. any.serves-rests s x queues way i held may };

    ghost either_way = { λ way other p may. any.either-serves way other p may };

    ghost line_stays = { λ p way again may. any.line-serves way again p may };
}

impl<M: OwnModule> Procedures<M> for AnyModule {
    ghost use Rattle.strm_types.specs.Cells as cells;
    ghost use Rattle.strm_laws.specs.Behaviours.{own_by};
    ghost use Rattle.strm_laws.proofs.PutsWithin.{module-within};
    ghost use Rattle.strm_pair.specs.AnyModules as any;

    ghost by = { own_by M.does cells.plain };

    ghost wide = { M.wide };

    fn put<B: Blocks>(
        &mut self,
        queues: &mut Option<QueuePair>,
        store: &mut B,
        here: Spot,
        message: InHand,
        told: &mut Fates,
    ) -> Acts {
        match self {
            AnyModule::Ldterm(ldterm) => ldterm.put(queues, store, here, message, told),
            AnyModule::Ptem(ptem) => ptem.put(queues, store, here, message, told),
            AnyModule::Pckt(pckt) => pckt.put(queues, store, here, message, told),
            AnyModule::Own(own) => { Procedures::<M>::put(own, queues, store, here, message, told) }
        }
    }

    fn asks<B: Blocks>(&self, queues: &Option<QueuePair>, store: &B, way: Way) -> Asks {
        match self {
            AnyModule::Ldterm(ldterm) => ldterm.asks(queues, store, way),
            AnyModule::Ptem(ptem) => ptem.asks(queues, store, way),
            AnyModule::Pckt(pckt) => pckt.asks(queues, store, way),
            AnyModule::Own(own) => Procedures::<M>::asks(own, queues, store, way),
        }
    }

    fn serve<B: Blocks>(
        &mut self,
        queues: &mut Option<QueuePair>,
        store: &mut B,
        here: Spot,
        again: bool,
        told: &mut Fates,
    ) -> Served {
        match self {
            AnyModule::Ldterm(ldterm) => ldterm.serve(queues, store, here, again, told),
            AnyModule::Ptem(ptem) => ptem.serve(queues, store, here, false, told),
            AnyModule::Pckt(pckt) => pckt.serve(queues, store, here, false, told),
            AnyModule::Own(own) => { Procedures::<M>::serve(own, queues, store, here, false, told) }
        }
    }

    ghost within = { λ here m x. module-within M.does cells.plain 0 here m x };

    ghost put_stays = { λ here m x way again may. any.puts-serve M.does here m way again x.part x.queues may };

    ghost turn_goes = { λ here again stop x may. any.serves-on M.does here again stop x.part x.queues may };
}
