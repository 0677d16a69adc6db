//! Modules that are pushed on a side's stream and taken off it (streamio(7I): I_PUSH, I_POP, I_LOOK; close(2)).

ghost use Rattle.std.specs.Prelude.{ℕ, List, ◌≡◌, ◌<◌, ◌∷◌, ◌+◌, not, true, ◌≤◌, MatchOption, IfNone, IfSome, Some, length};
ghost use Rattle.strm_types.specs.declared.answers.Answer.TheVariants.{Done};
ghost use Rattle.strm_laws.specs.Calls.{looked};
ghost use Rattle.strm_laws.specs.Earlier.{before_at};
ghost use Rattle.strm_types.specs.Dropped.{is_met};
ghost use Rattle.strm_types.specs.Journal.{answer_len, reply_in};
ghost use Rattle.strm_types.specs.Options.{mode_number};
ghost use Rattle.strm_laws.specs.Pushes.{all_taken, below_top, let_come, may_stand, messages_on, mode_behind, mode_on_push, mode_put, modules_emptied, named_by, popped, pushed_named, top_on, with_modules};
ghost use Rattle.strm_types.specs.declared.names.Way.TheVariants.{Up};
ghost use Rattle.strm_types.specs.Names.{have_queues};
ghost use Rattle.strm_types.specs.Queue.{is_none_left};
ghost use Rattle.strm_laws.specs.Known.{all_known};
ghost use Rattle.strm_laws.specs.StackCosts.{stands_of};
ghost use Rattle.strm_laws.specs.State.{stream};
ghost use Rattle.strm_frame.specs.Hands.{HasRoom, IsWide};
ghost use Rattle.strm_pair.specs.Parts.{longest_part};
ghost use Rattle.strm_pair.specs.Shelves.{IsStocked, Restocks, pairs_in, room_on, tables_on};
ghost use Rattle.strm_pair.specs.Taken.{TookNone, TookTop, WithoutTop};

use crate::earlier::note;
use crate::ends::first_list;
use crate::shelves::Shelf;
use crate::stacks::{Taken, module_count, push_named, take_top};
use crate::streams::Streams;
use strm_blocks::Blocks;
use strm_own::OwnModule;
use strm_pty::make;
use strm_types::{Answer, Fates, ModuleName, MsgKind, ReadMode, Rule, Side, Spot, Way};

// The number of a read mode in an M_SETOPTS: RNORM, RMSGD and RMSGN.
fn mode_number(mode: ReadMode) -> u8
    ensures { result ≡ mode_number mode }
{
    match mode {
        ReadMode::ByteStream => 0,
        ReadMode::MessageDiscard => 1,
        ReadMode::MessageKeep => 2,
    }
}

// The read mode that a head is given where a module of this name is pushed below it: ldterm makes lines.
fn mode_on_push(name: ModuleName) -> Option<ReadMode>
    ensures { result ≡ mode_on_push name }
{
    match name {
        ModuleName::Ldterm => Some(ReadMode::MessageKeep),
        ModuleName::Ptem | ModuleName::Pckt | ModuleName::Own(_) => None,
    }
}

// The read mode that a head is given where the module on top, if one stood there, is taken off.
fn mode_behind(name: Option<ModuleName>) -> Option<ReadMode>
    ensures { result ≡ mode_behind name }
{
    match name {
        Some(ModuleName::Ldterm) => Some(ReadMode::ByteStream),
        Some(ModuleName::Ptem | ModuleName::Pckt | ModuleName::Own(_)) | None => None,
    }
}

/// What was on top of a side's stream before it was taken off: its name, where a module stood there, and whether the M_IOCTL that is
/// sought went with it.
#[derive(Drop)]
pub(crate) struct TakenOff {
    pub name: Option<ModuleName>,
    pub met: bool,
}

impl Streams {
    ghost use Rattle.strm_blocks.specs.Blocks.{StoreValue};
    ghost use Rattle.strm_pair.specs.Effects.{AreAtRest, Leads};
    ghost use Rattle.strm_pair.specs.Enabling.{MayLetGo};
    ghost use Rattle.strm_pair.specs.Pairs.{state_in, end_at, with_end, AreBeside, AreHeld};

    // Takes the module on top off the stack of a side, and changes nothing else of the streams. It tells whether the M_IOCTL of a number
    // went with it, where one is sought.
    fn take_off<B: Blocks>(
        &mut self,
        shelf: &mut Shelf,
        store: &mut B,
        side: Side,
        rule: Rule,
        seeking: Option<u32>,
        told: &mut Fates,
    ) -> Option<Taken>
        requires rests { AreAtRest (B.value store.old) self.old }
        requires room { tables_on shelf.old + pairs_in self.old ≤ room_on shelf.old }
        ensures streams { self.new ≡ with_end side (record (end_at side self.old) { stack = (end_at side self.new).stack }) self.old }
        ensures none { IfNone result (self.new ≡ self.old) }
        ensures shelf { Restocks shelf.old shelf.new (pairs_in self.old) (pairs_in self.new) }
        ensures took { let s = B.value store.old in let t = B.value store.new in
            let x = (end_at side self.old).stack in let y = (end_at side self.new).stack in
            MatchOption result (TookNone s t x y told.old told.new) (λ taken. TookTop side rule s t x y told.old told.new taken) }
        ensures met { IfSome result
            (λ taken. taken.met ≡ is_met seeking (below_top (stream side (state_in (B.value store.old) self.old)).modules)) }
    {
        let end = self.ends.get_mut(side);
        take_top(&mut end.stack, shelf, store, side, rule, seeking, told)
    }

    /// Takes the module off that is on top of a side's stream, and tells its name, where one stands there: what stands on its
    /// queues and in its line goes by a rule, its queues aren't enabled any more, and queues before them have room again where
    /// that lets a writer go. It tells whether the M_IOCTL of a number went with it, where one is sought.
    pub(crate) fn take_top<B: Blocks>(
        &mut self,
        shelf: &mut Shelf,
        store: &mut B,
        side: Side,
        rule: Rule,
        seeking: Option<u32>,
        told: &mut Fates,
    ) -> TakenOff
        requires rests { AreAtRest (B.value store.old) self.old }
        requires room { tables_on shelf.old + pairs_in self.old ≤ room_on shelf.old }
        ensures shelf { Restocks shelf.old shelf.new (pairs_in self.old) (pairs_in self.new) }
        ensures taken { WithoutTop side rule (B.value store.old) (B.value store.new) self.old self.new told.old told.new result.name }
        ensures met { result.met
            ≡ is_met seeking (below_top (stream side (state_in (B.value store.old) self.old)).modules) }
    {
        let earlier = self.earlier(side, 1);
        let Some(taken) = self.take_off(shelf, store, side, rule, seeking, told) else {
            return TakenOff {
                name: None,
                met: false,
            };
        };
        let place = taken.name.place();
        note(
            &mut self.enabled,
            side,
            place,
            earlier,
            taken.notes.as_slice(),
        );
        self.enabled.forget(side, taken.name);
        TakenOff {
            name: Some(taken.name),
            met: taken.met,
        }
    }

    // Takes all modules off a side's stream, which are so many.
    fn take_all<B: Blocks>(
        &mut self,
        shelf: &mut Shelf,
        store: &mut B,
        side: Side,
        rule: Rule,
        told: &mut Fates,
        count: usize,
    )
        requires rests { AreAtRest (B.value store.old) self.old }
        requires count { count ≡ length (stream side (state_in (B.value store.old) self.old)).modules }
        requires room { tables_on shelf.old + pairs_in self.old ≤ room_on shelf.old }
        ensures shelf { Restocks shelf.old shelf.new (pairs_in self.old) (pairs_in self.new) }
        ensures leads { let s = B.value store.old in let st = state_in s self.old in
            let is = all_taken rule side (stream side st).modules st in
            Leads s (B.value store.new) self.new told.old told.new is.state is.gone }
    {
        if count == 0 {
            return;
        }
        self.take_top(shelf, store, side, rule, None, told);
        self.take_all(shelf, store, side, rule, told, count - 1);
    }

    /// Takes all modules off a side's stream, from the top: what each has goes by a rule.
    pub(crate) fn clear_modules<B: Blocks>(
        &mut self,
        shelf: &mut Shelf,
        store: &mut B,
        side: Side,
        rule: Rule,
        told: &mut Fates,
    )
        requires rests { AreAtRest (B.value store.old) self.old }
        requires room { tables_on shelf.old + pairs_in self.old ≤ room_on shelf.old }
        ensures shelf { Restocks shelf.old shelf.new (pairs_in self.old) (pairs_in self.new) }
        ensures leads { let s = B.value store.old in let is = modules_emptied rule side (state_in s self.old) in
            Leads s (B.value store.new) self.new told.old told.new is.state is.gone }
    {
        let count = module_count(&self.end(side).stack);
        self.take_all(shelf, store, side, rule, told, count);
    }

    // A side's head is told its read mode, and that TOSTOP isn't set, where there is a mode to tell, by an M_SETOPTS that comes up to it.
    fn put_mode<B: Blocks, M: OwnModule>(
        &mut self,
        store: &mut B,
        side: Side,
        mode: Option<ReadMode>,
        told: &mut Fates,
    )
        requires rests { AreAtRest (B.value store.old) self.old }
        requires room { HasRoom (B.value store.old) 1 }
        requires wide { IsWide M.wide (B.value store.old) }
        ensures { let s = B.value store.old in let is = mode_put side mode (state_in s self.old) in
            Leads s (B.value store.new) self.new told.old told.new is.state is.gone }
    {
        let Some(mode) = mode else {
            return;
        };
        let message = make(store, MsgKind::Setopts, &[mode_number(mode), 0]);
        let head = Spot {
            side,
            at: 0,
            way: Way::Up,
        };
        self.deliver_alone::<B, M>(store, head, message, told);
    }

    /// Pops the module that is on top of a side's stream: what it has goes, and the head is told its read mode. The ioctl under way ends as
    /// refused where its M_IOCTL went with the module, as nobody will answer it any more. Nothing where no module stands (streamio(7I): I_POP).
    #[inline(never)]
    pub fn pop<B: Blocks, M: OwnModule>(
        &mut self,
        shelf: &mut Shelf,
        store: &mut B,
        side: Side,
        told: &mut Fates,
    ) -> Answer<u32>
        requires rests { AreAtRest (B.value store.old) self.old }
        requires room { HasRoom (B.value store.old) 1 }
        requires wide { IsWide M.wide (B.value store.old) }
        requires stocked { IsStocked M.queued shelf.old (stands_of (state_in (B.value store.old) self.old)) }
        ensures stocked { IsStocked M.queued shelf.new (stands_of (state_in (B.value store.new) self.new)) }
        ensures answer { result ≡ Done }
        ensures leads { let s = B.value store.old in let is = popped side (state_in s self.old) in
            Leads s (B.value store.new) self.new told.old told.new is.state is.gone }
    {
        let seeking = self.end(side).head.number_sought();
        let taken = self.take_top(shelf, store, side, Rule::ModulePopped, seeking, told);
        self.put_mode::<B, M>(store, side, mode_behind(taken.name), told);
        self.drop_ioctl(side, taken.met);
        Answer::Done
    }

    /// The name of the module on top of a side's stream, if one stands there.
    pub(crate) fn top(&self, side: Side) -> Option<ModuleName>
        ensures { (s : StoreValue) → result ≡ top_on side (state_in s self.now) }
    {
        self.end(side).stack.look()
    }

    /// Tells the name of the module on top of a side's stream (streamio(7I): I_LOOK).
    pub fn look(&self, side: Side) -> Answer<u32>
        ensures answer { (s : StoreValue) (bytes : List ℕ) → reply_in result bytes ≡ (looked side (state_in s self.now)).answer }
        ensures empty { answer_len result ≡ 0 }
        ensures no_part { longest_part result ≡ 0 }
    {
        match self.top(side) {
            Some(name) => Answer::Name(name),
            None => Answer::Done,
        }
    }

    // Pushes a module on the stack of a side, as its name makes it: one that may stand there.
    fn put_on<B: Blocks, M: OwnModule>(
        &mut self,
        shelf: &mut Shelf,
        store: &B,
        side: Side,
        name: ModuleName,
    )
        requires held { AreHeld (B.value store.now) self.old }
        requires shelf { have_queues name ≡ true → 0 < tables_on shelf.old }
        requires may_stand { may_stand (named_by M.does (Some name)) (stream side (state_in (B.value store.now) self.old)).modules ≡ true }
        ensures state { let s = state_in (B.value store.now) self.old in IfSome (named_by M.does (Some name))
            (λ p. state_in (B.value store.now) self.new ≡ with_modules side (p ∷ (stream side s).modules) s) }
        ensures held { AreHeld (B.value store.now) self.new }
        ensures shelf { Restocks shelf.old shelf.new (pairs_in self.old) (pairs_in self.new) }
    {
        let end = self.ends.get_mut(side);
        push_named::<B, M>(&mut end.stack, shelf, store, name, first_list(side));
    }

    // Whether messages wait on the queue of a side's driver.
    fn driver_waits<B: Blocks>(&self, store: &B, side: Side) -> bool
        ensures { result ≡ not (is_none_left (stream side (state_in (B.value store.now) self.now)).driver.queue.messages) }
    {
        !self.end(side).driver.is_empty(store)
    }

    // Whether messages wait on the queue before the read queue of the module on top: that of the nearest module below it that has queues, or the
    // other side's driver.
    fn waits_below<B: Blocks>(&self, store: &B, side: Side) -> bool
        requires { AreBeside (B.value store.now) self.now }
        ensures { let s = state_in (B.value store.now) self.now in IfSome (before_at side Up 1 s)
            (λ name. result ≡ not (is_none_left (messages_on name s))) }
    {
        let stack = &self.end(side).stack;
        match stack.place_before(Way::Up, 1) {
            Some(place) => stack.sizes(store, place, Way::Up).0 > 0,
            None => self.driver_waits(store, side.other()),
        }
    }

    // What waits before the read queue of the module on top may come to it, where it has one.
    fn let_come<B: Blocks>(&mut self, store: &B, side: Side, comes: bool)
        requires beside { AreBeside (B.value store.now) self.old }
        requires room { MayLetGo side Up 1 comes self.old }
        ensures { let s = state_in (B.value store.now) self.old in
            self.new ≡ record self.old { enabled = (let_come comes side s).enabled } }
    {
        if !comes {
            return;
        }
        let waits = self.waits_below(store, side);
        self.let_go(side, Way::Up, 1, waits);
    }

    /// Pushes a module on a side's stream, one that may stand there: the head is told its read mode, and what waits before the
    /// module may come to it (streamio(7I): I_PUSH).
    #[inline(never)]
    pub fn push<B: Blocks, M: OwnModule>(
        &mut self,
        shelf: &mut Shelf,
        store: &mut B,
        side: Side,
        name: Option<ModuleName>,
        told: &mut Fates,
    ) -> Answer<u32>
        requires rests { AreAtRest (B.value store.old) self.old }
        requires may_stand { may_stand (named_by M.does name) (stream side (state_in (B.value store.old) self.old)).modules ≡ true }
        requires room { HasRoom (B.value store.old) 1 }
        requires wide { IsWide M.wide (B.value store.old) }
        requires known { all_known M.does (state_in (B.value store.old) self.old) ≡ true }
        requires stocked { IsStocked M.queued shelf.old (stands_of (state_in (B.value store.old) self.old)) }
        ensures stocked { IsStocked M.queued shelf.new (stands_of (state_in (B.value store.new) self.new)) }
        ensures answer { result ≡ Done }
        ensures leads { let s = B.value store.old in let is = pushed_named side (named_by M.does name) (state_in s self.old) in
            Leads s (B.value store.new) self.new told.old told.new is.state is.gone }
    {
        let Some(name) = name else {
            return Answer::Done;
        };
        self.put_mode::<B, M>(store, side, mode_on_push(name), told);
        self.put_on::<B, M>(shelf, store, side, name);
        self.let_come(store, side, name.has_queues());
        Answer::Done
    }
}
