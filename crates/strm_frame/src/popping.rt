//! What becomes of a module that is taken off its stream (streamio(7I): I_POP; close(2)).

ghost use Rattle.std.specs.Prelude.{ℕ, ◌≡◌, ◌<◌, [], length, map, slice_index_or};
ghost use Rattle.strm_types.specs.declared.names.Way.TheVariants.{Down};
ghost use Rattle.strm_types.specs.ModuleQueues.{at_place};
ghost use Rattle.strm_types.specs.Standings.{messages_at};
ghost use Rattle.strm_types.specs.Modules.{act_among};
ghost use Rattle.strm_types.specs.Service.{cleared};
ghost use Rattle.strm_frame.specs.Does.{Clears};
ghost use Rattle.strm_frame.specs.Standings.{Fits, keeps_of, owns, standing_in};
ghost use Rattle.strm_frame.specs.Stacks.{all_in, all_of, AreHeld};

use crate::modules::{LetGo, Module};
use crate::stack::Stack;
use crate::standing::Standing;
use strm_blocks::Blocks;
use strm_types::{Fates, Rule, Side};

// Lets all go that stands on the queues and in the line of one of several modules,
// counted from 0.
fn clear_among<B: Blocks, M: Module>(
    store: &mut B,
    modules: &mut [Standing<M>],
    at: usize,
    side: Side,
    rule: Rule,
    seeking: Option<u32>,
    told: &mut Fates,
) -> LetGo
    requires within { at < length modules.old }
    requires held { AreHeld (Fits M.IsHeld) owns (B.value store.old) modules.old }
    requires rests { (i : ℕ) → all_of (keeps_of M.keeps) modules.old i ≡ 0 }
    ensures length { length modules.new ≡ length modules.old }
    ensures does { let s = B.value store.old in let ps = all_in (standing_in M.plain) s modules.old in
        Clears (all_in (standing_in M.plain)) (AreHeld (Fits M.IsHeld) owns) (all_of owns) (all_of (keeps_of M.keeps)) s (B.value store.new)
        modules.old modules.new
        seeking (slice_index_or (map (messages_at Down) ps) at []) result told.old told.new
        (act_among (cleared M.line_of M.without_line side rule) at ps) }
{
    store.audit();
    modules[at].clear(store, side, rule, seeking, told)
}

impl<M: Module + Default> Stack<M> {
    /// Lets all go that stands on the queues and in the line of the module on top, before `pop` takes it off: its bytes go by
    /// a rule. It tells which queues before its own have room again, and whether the M_IOCTL of a number stood on its write queue, where
    /// one is sought. Nothing where no module stands.
    pub fn clear_top<B: Blocks>(
        &mut self,
        store: &mut B,
        side: Side,
        rule: Rule,
        seeking: Option<u32>,
        told: &mut Fates,
    ) -> LetGo
        requires held { AreHeld (Fits M.IsHeld) owns (B.value store.old) self.old.modules.items }
        requires rests { (i : ℕ) → all_of (keeps_of M.keeps) self.old.modules.items i ≡ 0 }
        ensures length { length self.new.modules.items ≡ length self.old.modules.items }
        ensures does { let s = B.value store.old in let xs = self.old.modules.items in let ps = all_in (standing_in M.plain) s xs in
            Clears (all_in (standing_in M.plain)) (AreHeld (Fits M.IsHeld) owns) (all_of owns) (all_of (keeps_of M.keeps)) s (B.value store.new) xs
            self.new.modules.items
            seeking (at_place (messages_at Down) [] 1 ps) result told.old told.new
            (act_among (cleared M.line_of M.without_line side rule) 0 ps) }
    {
        if self.modules.is_empty() {
            return LetGo::nothing();
        }
        clear_among(
            store,
            self.modules.as_mut_slice(),
            0,
            side,
            rule,
            seeking,
            told,
        )
    }
}
