//! What an event loop asks for: what a side is ready for, and what is left of a pair.

ghost use Rattle.std.specs.Prelude.{◌≡◌, ◌≤◌, None};
ghost use Rattle.strm_handle.specs.Numbers.{side_at};
ghost use Rattle.strm_handle.specs.Outcomes.{AtHandle};
ghost use Rattle.strm_handle.specs.Ready.{IsLeft, TellsLeft, bit, bits_of, ready_at};

use crate::handle::Handle;
use crate::kept::refused;
use crate::numbers::side_of;
use crate::replies::Left;
use crate::reserve::has_blocks;
use std::alloc::Global;
use strm_pair::{Pair, Ready};
use strm_raw::RawStore;
use strm_types::Refusal;

/// How many blocks a write of the most bytes asks for.
pub const WRITE_BLOCKS_MOST: usize = 36;

// A bit, where it is set.
const fn bit(number: u32, is_set: bool) -> u32
    ensures value { result ≡ bit number is_set }
    ensures few { result ≤ number }
{
    if is_set { number } else { 0 }
}

/// The bits of what a side is ready for, where a write finds its blocks, and isn't held back, or not.
pub fn bits_of(ready: Ready, has_blocks: bool) -> u32
    ensures { result ≡ bits_of ready has_blocks }
{
    if !ready.opened {
        return 0;
    }
    let writes = ready.writes && !ready.hung_up && has_blocks;
    bit(1, ready.reads)
        + (bit(2, ready.gets)
            + (bit(4, writes)
                + (bit(8, ready.signals) + (bit(16, ready.answered) + bit(32, ready.hung_up)))))
}

// What is left of a pair.
fn left_of(pair: &Pair<RawStore>) -> Left
    ensures { IsLeft result pair.now }
{
    let (mblks, dblks) = pair.free_blocks();
    let (entries, bytes) = pair.journal_left();
    Left {
        blocks: mblks.min(dblks),
        entries,
        bytes,
    }
}

/// What a side is ready for, as bits: 0 of a side that isn't open, of a number that is no side's, and of a closed handle.
pub fn ready(alloc: Global, handle: &mut Handle, side: u32) -> u32
    ensures stays { handle.new.held.kept ≡ handle.old.held.kept }
    ensures told { result ≡ ready_at (side_at side) handle.old.held.kept }
{
    let Some(side) = side_of(side) else {
        return 0;
    };
    let Some(kept) = handle.take(alloc) else {
        return 0;
    };
    let has_blocks = has_blocks(&kept.pair, WRITE_BLOCKS_MOST, 0)
        && !kept.as_ref().is_held_back(side, WRITE_BLOCKS_MOST);
    let bits = bits_of(kept.pair.ready(side), has_blocks);
    handle.put(kept);
    bits
}

/// How many blocks are free, and how many entries and bytes the journal takes yet.
pub fn room(alloc: Global, handle: &mut Handle, told: &mut Left) -> u32
    ensures { AtHandle (λ p. None) (told.new ≡ told.old) (TellsLeft told.new) handle.old.held.kept handle.new.held.kept result }
{
    let Some(kept) = handle.take(alloc) else {
        return refused(Refusal::Einval);
    };
    *told = left_of(&kept.pair);
    handle.put(kept);
    0
}
