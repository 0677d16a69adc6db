//! The modules of a side's stream (streamio(7I): I_PUSH, I_POP, I_LOOK; STREAMS Programming Guide, "Modules"). Places count from 1 for the
//! module on top.

ghost use Rattle.std.specs.Prelude.{ℕ, ◌≡◌, ◌<◌, ◌≤◌, ◌+◌, ◌-◌, true, [], ◌∷◌, length, slice_index_or, IfNone, IfSome, MatchOption, None, Some, List};
ghost use Rattle.strm_types.specs.declared.limits.TheConstants.{LISTS};
ghost use Rattle.strm_types.specs.Dropped.{is_met};
ghost use Rattle.strm_laws.specs.Earlier.{places_of};
ghost use Rattle.strm_laws.specs.Pushes.{below_top, may_stand, named_by};
ghost use Rattle.strm_types.specs.Names.{have_queues};
ghost use Rattle.strm_blocks.specs.Blocks.{StoreValue};
ghost use Rattle.strm_pair.specs.AnyModules.{AnyStanding, IsBare};
ghost use Rattle.strm_pair.specs.Given.{GivenFor};
ghost use Rattle.strm_pair.specs.Shelves.{Restocks, pairs_among, room_on, tables_on};
ghost use Rattle.strm_pair.specs.Shows.{one_pair};
ghost use Rattle.strm_pair.specs.Stacks.{modules_in, IsStackHeld, stack_owns, stack_keeps};
ghost use Rattle.strm_pair.specs.Streams.{AreFor};
ghost use Rattle.strm_pair.specs.Taken.{TookNone, TookTop};

use crate::modules::AnyModule;
use crate::shelves::Shelf;
use arrayvec::ArrayVec;
use strm_blocks::Blocks;
use strm_frame::{Module, QueuePair, Standing};
use strm_own::OwnModule;
use strm_types::{Fates, MODULES, ModuleName, Note, Place, Rule, Side};

/// The modules of a side's stream.
pub(crate) type Stack = strm_frame::Stack<AnyModule>;

/// A module that was taken off a stack: its name, which queues before its own have room again, and whether the M_IOCTL that is sought
/// stood on its write queue.
#[derive(Drop)]
pub(crate) struct Taken {
    pub name: ModuleName,
    pub notes: ArrayVec<Note, 4>,
    pub met: bool,
}

/// How many modules stand on a stack.
pub(crate) fn module_count(stack: &Stack) -> usize
    ensures { (s : StoreValue) → result ≡ length (modules_in s stack.now) }
{
    stack.modules.len()
}

/// The place of queues that the module of a place has, if it has queues.
pub(crate) fn place_at(stack: &Stack, at: usize) -> Option<Place>
    requires inside { 0 < at }
    requires within { (s : StoreValue) → at ≤ length (modules_in s stack.now) }
    ensures { (s : StoreValue) → result ≡ slice_index_or (places_of (modules_in s stack.now)) (at - 1) None }
{
    match stack.modules.as_slice().get(at - 1) {
        Some(standing) => standing.module.name().place(),
        None => None,
    }
}

/// How many of these modules have queues.
pub(crate) fn pairs_among(modules: &[Standing<AnyModule>]) -> usize
    requires { length modules.now ≤ MODULES }
    ensures pairs { result ≡ pairs_among modules.now }
    ensures few { result ≤ length modules.now }
{
    let Some((first, rest)) = modules.split_first() else {
        return 0;
    };
    let one = if first.queues.is_some() { 1 } else { 0 };
    one + pairs_among(rest)
}

// The queues of a module that was taken off, where it has any. Its line was let go.
fn queues_of(standing: Standing<AnyModule>) -> Option<QueuePair>
    requires { IsBare standing.module }
    ensures { result ≡ standing.queues }
{
    standing.queues
}

/// Takes the module on top off its stack, if there is one, and puts the tables of its queues onto the shelf. Its unfinished line is let go where
/// it stands.
pub(crate) fn pop_top(stack: &mut Stack, shelf: &mut Shelf)
    requires { tables_on shelf.old + pairs_among stack.old.modules.items ≤ room_on shelf.old }
    ensures rest { (x : AnyStanding) (xs : List AnyStanding) → stack.old.modules.items ≡ x ∷ xs → stack.new.modules.items ≡ xs }
    ensures shelf { Restocks shelf.old shelf.new (pairs_among stack.old.modules.items) (pairs_among stack.new.modules.items) }
{
    if let Some(top) = stack.modules.as_mut_slice().first_mut() {
        top.module.wipe();
    }
    let Some(standing) = stack.pop() else {
        return;
    };
    if let Some(queues) = queues_of(standing) {
        shelf.put(queues.into_tables());
    }
}

/// Takes all modules off a stack, and puts the tables of their queues onto the shelf.
pub(crate) fn take_modules(stack: &mut Stack, shelf: &mut Shelf)
    requires { tables_on shelf.old + pairs_among stack.old.modules.items ≤ room_on shelf.old }
    ensures none { stack.new.modules.items ≡ [] }
    ensures shelf { Restocks shelf.old shelf.new (pairs_among stack.old.modules.items) 0 }
{
    while !stack.modules.is_empty() {
        pop_top(stack, shelf);
    }
}

/// Takes the module on top off its stack, which keeps nothing in hand: what stands on the queues and in the line of the
/// module goes by a rule, and its tables onto the shelf. It tells whether the M_IOCTL of a number went with them, where one is
/// sought. `None` where no module stands (streamio(7I): I_POP; close(2)).
pub(crate) fn take_top<B: Blocks>(
    stack: &mut Stack,
    shelf: &mut Shelf,
    store: &mut B,
    side: Side,
    rule: Rule,
    seeking: Option<u32>,
    told: &mut Fates,
) -> Option<Taken>
    requires held { IsStackHeld (B.value store.old) stack.old }
    requires rests { (i : ℕ) → stack_keeps stack.old i ≡ 0 }
    requires room { tables_on shelf.old + pairs_among stack.old.modules.items ≤ room_on shelf.old }
    ensures took { MatchOption result
        (TookNone (B.value store.old) (B.value store.new) stack.old stack.new told.old told.new)
        (λ taken. TookTop side rule (B.value store.old) (B.value store.new) stack.old stack.new told.old told.new taken) }
    ensures met { IfSome result (λ taken. taken.met ≡ is_met seeking (below_top (modules_in (B.value store.old) stack.old))) }
    ensures none { IfNone result (stack.new ≡ stack.old) }
    ensures shelf { Restocks shelf.old shelf.new (pairs_among stack.old.modules.items) (pairs_among stack.new.modules.items) }
{
    let name = stack.look()?;
    let gone = stack.clear_top(store, side, rule, seeking, told);
    pop_top(stack, shelf);
    Some(Taken {
        name,
        notes: gone.notes,
        met: gone.met,
    })
}

// The queues that a module of a name is given when it is pushed, where modules of its name have any: on two lists from a number on, and their
// tables are taken off the shelf.
fn queues_for(name: ModuleName, first: usize, shelf: &mut Shelf) -> Option<QueuePair>
    requires first { have_queues name ≡ true → first + 1 < LISTS }
    requires shelf { have_queues name ≡ true → 0 < tables_on shelf.old }
    ensures given { GivenFor name first result }
    ensures shelf { Restocks shelf.old shelf.new 0 (one_pair result) }
{
    if !name.has_queues() {
        return None;
    }
    Some(QueuePair::new(first, first + 1, shelf.take()))
}

/// Pushes a module on top of a stack, as its name makes it: one that may stand there (streamio(7I): I_PUSH). The queues of the stack stand on lists
/// behind those of its stream's ends, which start from a number on: its own on the next two behind those of the modules below it.
pub(crate) fn push_named<B: Blocks, M: OwnModule>(
    stack: &mut Stack,
    shelf: &mut Shelf,
    store: &B,
    name: ModuleName,
    first: usize,
)
    requires small { first ≤ 8 }
    requires may_stand { may_stand (named_by M.does (Some name)) (modules_in (B.value store.now) stack.old) ≡ true }
    requires held { IsStackHeld (B.value store.now) stack.old }
    requires lists { AreFor (B.value store.now) (first + 2) (stack_owns stack.old) }
    requires shelf { have_queues name ≡ true → 0 < tables_on shelf.old }
    ensures shelf { Restocks shelf.old shelf.new (pairs_among stack.old.modules.items) (pairs_among stack.new.modules.items) }
    ensures modules { IfSome (named_by M.does (Some name))
        (λ p. modules_in (B.value store.now) stack.new ≡ p ∷ modules_in (B.value store.now) stack.old) }
    ensures held { IsStackHeld (B.value store.now) stack.new }
    ensures lists { AreFor (B.value store.now) (first + 2) (stack_owns stack.new) }
    ensures keeps { (i : ℕ) → stack_keeps stack.new i ≡ stack_keeps stack.old i }
{
    let _ = store;
    let Some(module) = AnyModule::made::<M>(name) else {
        unreachable!()
    };
    let pairs = pairs_among(stack.modules.as_slice());
    let _ = stack.push(Standing {
        module,
        queues: queues_for(name, first + 2 + 2 * pairs, shelf),
    });
}
