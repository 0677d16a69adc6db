//! Messages that calls and turns send (STREAMS Programming Guide, "Put Procedures").

ghost use Rattle.strm_types.specs.Cells.{plain};
ghost use Rattle.strm_laws.specs.Puts.{delivered};
ghost use Rattle.strm_laws.specs.Spares.{spare};
ghost use Rattle.strm_types.specs.Budgets.{most_of};
ghost use Rattle.strm_frame.specs.Hands.{IsWide, MayTake, Takes};
ghost use Rattle.strm_frame.specs.Outboxes.{message_in};
ghost use Rattle.strm_pair.specs.Alone.{IsAlone};
ghost use Rattle.strm_blocks.specs.Blocks.{token};

use crate::streams::Streams;
use strm_blocks::{Blocks, InHand};
use strm_frame::deliver;
use strm_own::OwnModule;
use strm_types::{Fates, HOPS, Spot};

impl Streams {
    ghost use Rattle.strm_pair.specs.Effects.{Leads};
    ghost use Rattle.strm_pair.specs.Pairs.{state_in};

    /// Delivers the one message in hand to a spot, with all that it gives rise to. Nothing is in hand behind it. As each module stands on a
    /// stream once at most, it takes few blocks, and little of the books.
    pub(crate) fn deliver_alone<B: Blocks, M: OwnModule>(
        &mut self,
        store: &mut B,
        to: Spot,
        message: InHand,
        told: &mut Fates,
    )
        requires alone { IsAlone (B.value store.old) self.old (token message) }
        requires room { let s = B.value store.old in
            MayTake s (spare (state_in s self.old)) (most_of to (message_in s (token message))) }
        requires wide { IsWide M.wide (B.value store.old) }
        ensures leads { let s = B.value store.old in let is = delivered M.does plain to (message_in s (token message)) (state_in s self.old) in
            Leads s (B.value store.new) self.new told.old told.new is.state is.gone }
        ensures takes { let s = B.value store.old in let t = B.value store.new in
            Takes s t (spare (state_in s self.old)) (spare (state_in t self.new)) (most_of to (message_in s (token message))) 0 }
    {
        deliver::<B, M, Streams>(store, self, HOPS, to, message, told);
    }
}
