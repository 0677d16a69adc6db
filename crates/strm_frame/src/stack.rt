//! The modules of a stream.

ghost use Rattle.std.specs.Prelude.{◌≡◌, ◌<◌, ◌≤◌, ◌-◌, ◌*◌, [], ◌∷◌, length, map, slice_index_or, sum_by, true, false, MatchOption, MatchResult};
ghost use Rattle.strm_types.specs.declared.keys.TheConstants.{LINE_MAX};
ghost use Rattle.strm_types.specs.declared.limits.TheConstants.{MODULES};
ghost use Rattle.strm_types.specs.Budgets.{own_at};
ghost use Rattle.strm_types.specs.Modules.{put_among, may_push, stands, top_name};
ghost use Rattle.strm_types.specs.Standings.{of_part};
ghost use Rattle.strm_blocks.specs.Blocks.{StoreValue, in_hand, token};
ghost use Rattle.strm_msg.specs.Messages.{IsChain};
ghost use Rattle.strm_frame.specs.Does.{Puts};
ghost use Rattle.strm_frame.specs.Standings.{Fits, keeps_of, owns, standing_in};
ghost use Rattle.strm_frame.specs.Stacks.{all_in, all_of, AreHeld};
ghost use Rattle.strm_types.specs.ModuleQueues.{at_place};
ghost use Rattle.strm_frame.specs.Outboxes.{message_in};
ghost use Rattle.strm_frame.specs.Hands.{CanPut, HasRoom, IsWide};

use crate::modules::{Acts, Module, Procedures};
use crate::standing::Standing;
use arrayvec::ArrayVec;
use strm_blocks::{Blocks, InHand};
use strm_types::{Fates, MODULES, ModuleName, Spot};

/// The modules of a stream, from the top down, each with its queues: at most three, each name once.
#[derive(Drop)]
pub struct Stack<M> {
    pub modules: ArrayVec<Standing<M>, 3>,
}

// Whether a module of a name stands among these.
fn stands<M: Module>(modules: &[Standing<M>], name: ModuleName) -> bool
    ensures { (s : StoreValue) → result ≡ stands (of_part M.name_of) name (map (standing_in M.plain s) modules.now) }
{
    let Some((first, rest)) = modules.split_first() else {
        return false;
    };
    first.module.name().is_same(name) || stands(rest, name)
}

// How many bytes stand in the unfinished lines of these modules.
fn line_lens<M: Module>(modules: &[Standing<M>]) -> usize
    requires { length modules.now ≤ MODULES }
    ensures lines { (s : StoreValue) → result ≡ sum_by (of_part (λ p. length (M.line_of p))) (map (standing_in M.plain s) modules.now) }
    ensures few { result ≤ LINE_MAX * length modules.now }
{
    let Some((first, rest)) = modules.split_first() else {
        return 0;
    };
    first.module.line_len() + line_lens(rest)
}

// Puts a message at one of several modules, counted from 0.
fn put_among<W, B: Blocks, M: Procedures<W>>(
    store: &mut B,
    modules: &mut [Standing<M>],
    at: usize,
    to: Spot,
    message: InHand,
    told: &mut Fates,
) -> Acts
    requires within { at < length modules.old }
    requires held { AreHeld (Fits M.IsHeld) owns (B.value store.old) modules.old }
    requires can_put { CanPut (B.value store.old) (token message) (all_of (keeps_of M.keeps) modules.old) }
    requires chain { IsChain (in_hand (B.value store.old) (token message)) }
    requires room { let s = B.value store.old in
        HasRoom s (slice_index_or (map (of_part (λ p. own_at (M.does p) to (message_in s (token message))))
        (map (standing_in M.plain s) modules.old)) at 0) }
    requires wide { IsWide M.wide (B.value store.old) }
    requires inside { 0 < to.at }
    requires small { to.at ≤ MODULES }
    ensures length { length modules.new ≡ length modules.old }
    ensures does { let s = B.value store.old in let m = message_in s (token message) in let ps = all_in (standing_in M.plain) s modules.old in
        Puts (all_in (standing_in M.plain)) (AreHeld (Fits M.IsHeld) owns) (all_of owns) (all_of (keeps_of M.keeps)) s (B.value store.new)
        modules.old modules.new (slice_index_or (map (of_part M.holds) ps) at true) (token message)
        (slice_index_or (map (of_part (λ p. own_at (M.does p) to m)) ps) at 0)
        result told.old told.new (put_among (M.puts M.by) at to m ps) }
{
    store.audit();
    modules[at].put::<W, B>(store, to, message, told)
}

impl<M: Module + Default> Stack<M> {
    /// No module.
    pub fn new() -> Stack<M>
        ensures { result.modules.items ≡ [] }
    {
        Stack {
            modules: ArrayVec::new(),
        }
    }

    /// Whether a module of a name stands on the stream: `I_FIND` of streamio(7I).
    pub fn has(&self, name: ModuleName) -> bool
        ensures { (s : StoreValue) → result ≡ stands (of_part M.name_of) name (map (standing_in M.plain s) self.now.modules.items) }
    {
        stands(self.modules.as_slice(), name)
    }

    /// How many bytes stand in the unfinished lines of the modules.
    pub fn line_lens(&self) -> usize
        ensures lines { (s : StoreValue) → result ≡ sum_by (of_part (λ p. length (M.line_of p)))
            (map (standing_in M.plain s) self.now.modules.items) }
        ensures few { result ≤ LINE_MAX * MODULES }
    {
        line_lens(self.modules.as_slice())
    }

    /// Pushes a module on top: `I_PUSH` of streamio(7I). It comes back where three stand, or one of its name.
    pub fn push(&mut self, pushed: Standing<M>) -> Result<(), Standing<M>>
        ensures pushed { (s : StoreValue) → MatchResult result
            (λ _. (may_push (of_part M.name_of) (standing_in M.plain s pushed) (map (standing_in M.plain s) self.old.modules.items) ≡ true) ×
            (self.new.modules.items ≡ pushed ∷ self.old.modules.items))
            (λ back. (may_push (of_part M.name_of) (standing_in M.plain s pushed) (map (standing_in M.plain s) self.old.modules.items) ≡ false) ×
            ((back ≡ pushed) × (self.new ≡ self.old))) }
    {
        if self.modules.len() >= MODULES || self.has(pushed.module.name()) {
            return Err(pushed);
        }
        self.modules.insert(0, pushed);
        Ok(())
    }

    /// Takes the module off that is on top, if there is one: `I_POP` of streamio(7I).
    pub fn pop(&mut self) -> Option<Standing<M>>
        ensures { MatchOption result
            ((self.old.modules.items ≡ []) × (self.new ≡ self.old))
            (λ top. self.old.modules.items ≡ top ∷ self.new.modules.items) }
    {
        self.modules.pop_at(0)
    }

    /// The name of the module on top, if there is one: `I_LOOK` of streamio(7I).
    pub fn look(&self) -> Option<ModuleName>
        ensures { (s : StoreValue) → result ≡ top_name (of_part M.name_of) (map (standing_in M.plain s) self.now.modules.items) }
    {
        let top = self.modules.as_slice().first()?;
        Some(top.module.name())
    }

    /// Puts a message at a module, whose place counts from 1 for the one on top. The cost is that of its put.
    pub fn put<W, B: Blocks>(
        &mut self,
        store: &mut B,
        to: Spot,
        message: InHand,
        told: &mut Fates,
    ) -> Acts
    where
        M: Procedures<W>,
        requires inside { 0 < to.at }
        requires within { to.at ≤ length self.old.modules.items }
        requires held { AreHeld (Fits M.IsHeld) owns (B.value store.old) self.old.modules.items }
        requires can_put { CanPut (B.value store.old) (token message) (all_of (keeps_of M.keeps) self.old.modules.items) }
        requires chain { IsChain (in_hand (B.value store.old) (token message)) }
        requires room { let s = B.value store.old in
            HasRoom s (at_place (of_part (λ p. own_at (M.does p) to (message_in s (token message)))) 0 to.at
            (map (standing_in M.plain s) self.old.modules.items)) }
        requires wide { IsWide M.wide (B.value store.old) }
        ensures length { length self.new.modules.items ≡ length self.old.modules.items }
        ensures does { let s = B.value store.old in let m = message_in s (token message) in
            let xs = self.old.modules.items in let ps = all_in (standing_in M.plain) s xs in
            Puts (all_in (standing_in M.plain)) (AreHeld (Fits M.IsHeld) owns) (all_of owns) (all_of (keeps_of M.keeps)) s (B.value store.new)
            xs self.new.modules.items (at_place (of_part M.holds) true to.at ps) (token message)
            (at_place (of_part (λ p. own_at (M.does p) to m)) 0 to.at ps)
            result told.old told.new (put_among (M.puts M.by) (to.at - 1) to m ps) }
    {
        put_among::<W, B, M>(
            store,
            self.modules.as_mut_slice(),
            to.at as usize - 1,
            to,
            message,
            told,
        )
    }
}
