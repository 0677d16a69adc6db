//! Looks of a C program: no call is made.

ghost use Rattle.std.specs.Prelude.{◌≡◌, ◌≤◌, None, slice_get, option_and_then, length};
ghost use Rattle.strm_types.specs.Queue.{bytes_of};
ghost use Rattle.strm_laws.specs.Ledgers.{ledger_of};
ghost use Rattle.strm_pair.specs.Shows.{first_at, messages_at};
ghost use Rattle.strm_handle.specs.Numbers.{direction_at, queue_at, side_at};
ghost use Rattle.strm_handle.specs.Outcomes.{AtHandle, named, Tells, books_told};
ghost use Rattle.strm_handle.specs.Ready.{TellsLeft, ready_at};

use std::alloc::Global;
use strm_handle::{Books, Handle, Left, Sizes};

/// The queue at a place of the enabled list; 12 behind the last one, and of a closed handle.
#[unsafe(no_mangle)]
pub extern "C" fn strm_enabled(alloc: Global, handle: &mut Handle, place: usize) -> u32
    ensures stays { handle.new.held.kept ≡ handle.old.held.kept }
    ensures told { queue_at result ≡ option_and_then (λ k. slice_get k.pair.state.enabled place) handle.old.held.kept }
    ensures few { result ≤ 12 }
{
    strm_handle::enabled(alloc, handle, place)
}

/// How many messages stand on a queue, and how many bytes they have.
#[unsafe(no_mangle)]
pub extern "C" fn strm_sizes(
    alloc: Global,
    handle: &mut Handle,
    queue: u32,
    told: &mut Sizes,
) -> u32
    ensures { AtHandle (named (queue_at queue)) (told.new ≡ told.old)
        (Tells (queue_at queue) (λ p name. (told.new.messages ≡ length (messages_at name p.state)) × (told.new.bytes ≡ bytes_of (messages_at name p.state))))
        handle.old.held.kept handle.new.held.kept result }
{
    strm_handle::sizes(alloc, handle, queue, told)
}

/// How many bytes the first message of a queue has.
#[unsafe(no_mangle)]
pub extern "C" fn strm_first_size(
    alloc: Global,
    handle: &mut Handle,
    queue: u32,
    told: &mut usize,
) -> u32
    ensures { AtHandle (named (queue_at queue)) (told.new ≡ told.old)
        (Tells (queue_at queue) (λ p name. told.new ≡ first_at name p.state)) handle.old.held.kept handle.new.held.kept result }
{
    strm_handle::first_size(alloc, handle, queue, told)
}

/// Where the bytes are that a side wrote.
#[unsafe(no_mangle)]
pub extern "C" fn strm_ledger(
    alloc: Global,
    handle: &mut Handle,
    side: u32,
    told: &mut Books,
) -> u32
    ensures { AtHandle (named (direction_at side)) (told.new ≡ told.old)
        (Tells (direction_at side) (λ p direction. books_told told.new ≡ ledger_of direction p.state p.fates)) handle.old.held.kept handle.new.held.kept result }
{
    strm_handle::ledger(alloc, handle, side, told)
}

/// What a side is ready for, as bits: 0 of a side that isn't open, of a number that is no side's, and of a closed handle.
#[unsafe(no_mangle)]
pub extern "C" fn strm_ready(alloc: Global, handle: &mut Handle, side: u32) -> u32
    ensures stays { handle.new.held.kept ≡ handle.old.held.kept }
    ensures told { result ≡ ready_at (side_at side) handle.old.held.kept }
{
    strm_handle::ready(alloc, handle, side)
}

/// How many blocks are free, and how many entries and bytes the journal takes yet.
#[unsafe(no_mangle)]
pub extern "C" fn strm_room(alloc: Global, handle: &mut Handle, told: &mut Left) -> u32
    ensures { AtHandle (λ p. None) (told.new ≡ told.old) (TellsLeft told.new) handle.old.held.kept handle.new.held.kept result }
{
    strm_handle::room(alloc, handle, told)
}
