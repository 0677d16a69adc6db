//! What the first messages of a module's queues ask, and which queues are enabled as what they ask changes (srv(9E); canputnext(9F), qenable(9F)).

ghost use Rattle.std.specs.Prelude.{◌≡◌, ◌≤◌, ◌++◌, [], ◌∷◌, if◌then◌else◌, length};
ghost use Rattle.strm_types.specs.declared.names.Way.TheVariants.{Up, Down};
ghost use Rattle.strm_types.specs.declared.spots.Note.TheVariants.{Enable};
ghost use Rattle.strm_types.specs.Cells.{plain};
ghost use Rattle.strm_types.specs.OwnStands.{goes_anew, own_asked};
ghost use Rattle.strm_types.specs.Queue.{first_size};
ghost use Rattle.strm_types.specs.Standings.{way_queue};
ghost use Rattle.strm_laws.specs.Behaviours.{own_by};
ghost use Rattle.strm_queue.specs.Stored.{IsReady, messages_on};
ghost use Rattle.strm_frame.specs.Standings.{IsPairReady, pair_in};

use crate::own::{Own, OwnModule};
use arrayvec::ArrayVec;
use strm_blocks::Blocks;
use strm_frame::{Acts, QueuePair};
use strm_queue::Queue;
use strm_types::{Asks, Note, Way};

/// What the first message of a queue, which is that of a way, asks before it goes on: nothing holds one of high priority back, and else the module
/// says whether it may go on, where its band has room ahead. A message has no more bytes than all blocks of a store.
#[inline(never)]
pub(crate) fn asked_on<M: OwnModule, B: Blocks>(
    own: &Own,
    store: &B,
    way: Way,
    queue: &Queue,
) -> Asks
    requires ready { IsReady (B.value store.now) queue.now }
    ensures asks { result ≡ own_asked (own_by M.does plain) way own.now (messages_on (B.value store.now) queue.now.list) }
    ensures few { first_size (messages_on (B.value store.now) queue.now.list) ≤ 16777216 }
{
    store.audit();
    let Some(peek) = store.peek(queue.list) else {
        return Asks::Empty;
    };
    if peek.kind.is_high_priority() {
        return Asks::Free;
    }
    if M::goes(own, store, way, queue) {
        Asks::Room(peek.band)
    } else {
        Asks::Held
    }
}

/// What the first message of the read queue and that of the write queue ask.
#[derive(Clone, Copy)]
pub struct BothAsk {
    pub read: Asks,
    pub write: Asks,
}

/// What the first messages of both queues ask.
pub(crate) fn both_ask<M: OwnModule, B: Blocks>(own: &Own, store: &B, pair: &QueuePair) -> BothAsk
    requires { IsPairReady (B.value store.now) pair.now }
    ensures read { result.read ≡ own_asked (own_by M.does plain) Up own.now (way_queue Up (pair_in (B.value store.now) pair.now)).messages }
    ensures write { result.write ≡ own_asked (own_by M.does plain) Down own.now (way_queue Down (pair_in (B.value store.now) pair.now)).messages }
{
    BothAsk {
        read: asked_on::<M, B>(own, store, Way::Up, &pair.read),
        write: asked_on::<M, B>(own, store, Way::Down, &pair.write),
    }
}

// Whether a first message goes on that asks so, and what stood first before asked otherwise.
fn goes_anew(before: Asks, after: Asks) -> bool
    ensures { result ≡ goes_anew before after }
{
    match (before, after) {
        (_, Asks::Empty | Asks::Held) => false,
        (Asks::Free, Asks::Free) => false,
        (Asks::Room(one), Asks::Room(other)) => one.0 != other.0,
        _ => true,
    }
}

// Notes that queues are enabled whose first message goes anew, behind two notes at most.
fn note_anew(notes: &mut ArrayVec<Note, 4>, before: BothAsk, after: BothAsk)
    requires { length notes.old.items ≤ 2 }
    ensures { notes.new.items ≡ notes.old.items ++ ((if goes_anew before.read after.read then Enable Up ∷ [] else [])
        ++ (if goes_anew before.write after.write then Enable Down ∷ [] else [])) }
{
    if goes_anew(before.read, after.read) {
        notes.push(Note::Enable(Way::Up));
    }
    if goes_anew(before.write, after.write) {
        notes.push(Note::Enable(Way::Down));
    }
}

/// What was done, and that the queues are enabled whose first message goes on as nothing before did: by what the first messages asked before, and ask
/// behind it. At most two notes are there.
pub(crate) fn wake<M: OwnModule, B: Blocks>(
    own: &Own,
    store: &B,
    pair: &QueuePair,
    before: BothAsk,
    acts: Acts,
) -> Acts
    requires ready { IsPairReady (B.value store.now) pair.now }
    requires few { length acts.notes.items ≤ 2 }
    ensures notes { let asked = own_asked (own_by M.does plain) in let after = pair_in (B.value store.now) pair.now in
        result.notes.items ≡ acts.notes.items
        ++ ((if goes_anew before.read (asked Up own.now (way_queue Up after).messages) then Enable Up ∷ [] else [])
        ++ (if goes_anew before.write (asked Down own.now (way_queue Down after).messages) then Enable Down ∷ [] else [])) }
    ensures sent { result.sent ≡ acts.sent }
{
    let after = both_ask::<M, B>(own, store, pair);
    let mut acts = acts;
    note_anew(&mut acts.notes, before, after);
    acts
}
