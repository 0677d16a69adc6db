//! The module, as a stream's stack of modules has it (STREAMS Programming Guide, "Modules").

ghost use Rattle.std.specs.Prelude.{ℕ, true};
ghost use Rattle.strm_types.specs.declared.names.ModuleName.TheVariants as names;

use crate::asks::asked_on;
use crate::ldterm::Ldterm;
use crate::{ldterm, puts, service_calls};
use strm_blocks::{Blocks, InHand};
use strm_frame::{Acts, Module, Procedures, QueuePair, Served};
use strm_types::{Asks, Fates, ModuleName, Spot, Way};

impl Module for Ldterm {
    ghost use Rattle.strm_types.specs.Cells as cells;
    ghost use Rattle.strm_types.specs.LdtermStands as there;
    ghost use Rattle.strm_types.specs.Ldterms as plain;
    ghost use Rattle.strm_types.specs.Tables.{ldterm_does};
    ghost use Rattle.strm_types.specs.LdtermCalls.{Ends};
    ghost use Rattle.strm_ldterm.specs.Bounds as bounds;
    ghost use Rattle.strm_ldterm.specs.Frames.{own-frame, own-rested};
    ghost use Rattle.strm_ldterm.specs.Resting.{own-rests};
    ghost use Rattle.strm_ldterm.specs.Served as served;
    ghost use Rattle.strm_ldterm.specs.ServedLaws.{either-served, line-served};
    ghost use Rattle.strm_ldterm.specs.Stands as stands;

    ghost Plain = { plain.Ldterm ℕ };

    ghost plain = { λ s x. stands.own_in s x };

    ghost name_of = { λ p. names.Ldterm };

    ghost IsHeld = { λ s x queues. stands.HasInHand s x queues };

    ghost keeps = { λ x. stands.keeps_itself x };

    ghost puts = { λ by here m x. there.puts_there here m x };

    ghost line_of = { λ p. p.line };

    ghost without_line = { plain.lineless };

    ghost asks = { λ by way x. there.asks_there way x };

    ghost serves = { λ by here again stop x. there.serves_there cells.plain here 0 again stop x };

    ghost MayServe = { λ way again p. served.MayBeServed way again p };

    ghost MayStop = { λ way again bytes x. Ends way again (there.discipline_at x) bytes };

    ghost does = { λ p. ldterm_does };

    ghost holds = { λ p. true };

    ghost turn_cost = { bounds.turn_cost };

    fn name(&self) -> ModuleName {
        ldterm::name()
    }

    fn line_len(&self) -> usize {
        self.line.len()
    }

    fn clear_line(&mut self) -> usize {
        self.line.clear()
    }

    ghost frame = { λ s t x queues others lists same held. own-frame s t x queues others lists same held };

    ghost rested = { λ s t x queues others lists none held. own-rested s t x queues others lists none held };

    ghost rests = { λ s x queues way i held may. own-rests s x queues way i held may };

    ghost either_way = { λ way other p may. either-served way other p may };

    ghost line_stays = { λ p way again may. line-served way again p may };
}

impl Procedures<()> for Ldterm {
    ghost use Rattle.std.specs.Prelude.{false};
    ghost use Rattle.strm_types.specs.Cells as cells;
    ghost use Rattle.strm_types.specs.LdtermStands as there;
    ghost use Rattle.strm_types.proofs.LdtermWithin.{ldterm-within};
    ghost use Rattle.strm_frame.specs.NoOwn.{no_own};
    ghost use Rattle.strm_ldterm.specs.ServedLaws.{puts-served, serves-served};

    ghost by = { no_own };

    ghost wide = { false };

    fn put<B: Blocks>(
        &mut self,
        queues: &mut Option<QueuePair>,
        store: &mut B,
        here: Spot,
        message: InHand,
        told: &mut Fates,
    ) -> Acts {
        let Some(pair) = queues else { unreachable!() };
        store.audit();
        puts::put(self, pair, store, here, message, told)
    }

    fn asks<B: Blocks>(&self, queues: &Option<QueuePair>, store: &B, way: Way) -> Asks {
        let Some(pair) = queues else { unreachable!() };
        asked_on(store, pair.queue(way), way, self.stopped)
    }

    fn serve<B: Blocks>(
        &mut self,
        queues: &mut Option<QueuePair>,
        store: &mut B,
        here: Spot,
        again: bool,
        told: &mut Fates,
    ) -> Served {
        let Some(pair) = queues else { unreachable!() };
        self.audit();
        store.audit();
        service_calls::serve(self, pair, store, here, again, told)
    }

    ghost within = { λ here m x. ldterm-within here m (there.discipline_at x) };

    ghost put_stays = { λ here m x way again may. puts-served here m way again (there.discipline_at x) may };

    ghost turn_goes = { λ here again stop x may. serves-served cells.plain here 0 again stop (there.discipline_at x) may };
}
