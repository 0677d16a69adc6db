//! Looks of a C program: no call is made.

ghost use Rattle.std.specs.Prelude.{◌≡◌, ◌≤◌, slice_get, option_and_then, length};
ghost use Rattle.strm_types.specs.Queue.{bytes_of};
ghost use Rattle.strm_laws.specs.Ledgers.{ledger_of};
ghost use Rattle.strm_pair.specs.Shows.{first_at, messages_at};
ghost use Rattle.strm_handle.specs.Numbers.{direction_at, queue_at};
ghost use Rattle.strm_handle.specs.Outcomes.{AtHandle, named, Tells, books_told};

use crate::handle::Handle;
use crate::kept::refused;
use crate::numbers::{NO_QUEUE, number_at, queue_of, side_of};
use crate::replies::{Books, Sizes};
use std::alloc::Global;
use strm_types::Refusal;

/// The queue at a place of the enabled list; `NO_QUEUE` behind the last one, and of a closed handle.
pub fn enabled(alloc: Global, handle: &mut Handle, place: usize) -> u32
    ensures stays { handle.new.held.kept ≡ handle.old.held.kept }
    ensures told { queue_at result ≡ option_and_then (λ k. slice_get k.pair.state.enabled place) handle.old.held.kept }
    ensures few { result ≤ 12 }
{
    let Some(kept) = handle.take(alloc) else {
        return NO_QUEUE;
    };
    let queue = number_at(kept.pair.enabled(), place);
    handle.put(kept);
    queue
}

/// How many messages stand on a queue, and how many bytes they have.
pub fn sizes(alloc: Global, handle: &mut Handle, queue: u32, told: &mut Sizes) -> u32
    ensures { AtHandle (named (queue_at queue)) (told.new ≡ told.old)
        (Tells (queue_at queue) (λ p name. (told.new.messages ≡ length (messages_at name p.state)) × (told.new.bytes ≡ bytes_of (messages_at name p.state))))
        handle.old.held.kept handle.new.held.kept result }
{
    let Some(kept) = handle.take(alloc) else {
        return refused(Refusal::Einval);
    };
    let answered = match queue_of(queue) {
        Some(name) => {
            let (messages, bytes) = kept.pair.sizes(name);
            *told = Sizes { messages, bytes };
            0
        }
        None => refused(Refusal::Einval),
    };
    handle.put(kept);
    answered
}

/// How many bytes the first message of a queue has.
pub fn first_size(alloc: Global, handle: &mut Handle, queue: u32, told: &mut usize) -> u32
    ensures { AtHandle (named (queue_at queue)) (told.new ≡ told.old)
        (Tells (queue_at queue) (λ p name. told.new ≡ first_at name p.state)) handle.old.held.kept handle.new.held.kept result }
{
    let Some(kept) = handle.take(alloc) else {
        return refused(Refusal::Einval);
    };
    let answered = match queue_of(queue) {
        Some(name) => {
            *told = kept.pair.first_size(name);
            0
        }
        None => refused(Refusal::Einval),
    };
    handle.put(kept);
    answered
}

/// Where the bytes are that a side wrote.
pub fn ledger(alloc: Global, handle: &mut Handle, side: u32, told: &mut Books) -> u32
    ensures { AtHandle (named (direction_at side)) (told.new ≡ told.old)
        (Tells (direction_at side) (λ p direction. books_told told.new ≡ ledger_of direction p.state p.fates)) handle.old.held.kept handle.new.held.kept result }
{
    let Some(kept) = handle.take(alloc) else {
        return refused(Refusal::Einval);
    };
    let answered = match side_of(side) {
        Some(side) => {
            let ledger = kept.pair.ledger(side.direction());
            let gone = ledger.fates;
            *told = Books {
                written: ledger.written,
                made: ledger.made,
                queued: ledger.queued,
                inlined: ledger.inline,
                gone,
            };
            0
        }
        None => refused(Refusal::Einval),
    };
    handle.put(kept);
    answered
}
