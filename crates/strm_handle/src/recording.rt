//! The journal of a pair, entry by entry, and its beginning anew.

ghost use Rattle.std.specs.Prelude.{◌≡◌, ◌+◌, ◌<◌, ◌≤◌, IfNone, IfSome};
ghost use Rattle.strm_handle.specs.Entries.{NextEntry, TakesAt, TakesStored, taking};
ghost use Rattle.strm_handle.specs.Outcomes.{Restarts};

use crate::entries::{Cursor, Entered, numbers_of};
use crate::handle::Handle;
use crate::kept::{give, refused};
use std::alloc::Global;
use strm_journal::Packed;
use strm_pair::Pair;
use strm_raw::RawStore;
use strm_types::Refusal;

// Where the bytes of an entry end that begin at a place, of so many. None: they aren't all there.
fn end_of(entry: &Entered, from: usize, kept: usize) -> Option<usize>
    ensures there { IfSome result (λ end. (end ≡ from + (entry.now.brings + entry.now.reply.bytes)) × (end ≤ kept)) }
    ensures lacking { IfNone result (kept < from + (entry.now.brings + entry.now.reply.bytes)) }
{
    if from > kept {
        return None;
    }
    let left = kept - from;
    if entry.brings > left {
        return None;
    }
    if entry.reply.bytes > left - entry.brings {
        return None;
    }
    Some(from + entry.brings + entry.reply.bytes)
}

/// Takes the entry at a cursor of a journal: its entries, and their bytes in order.
pub(crate) fn take_entry(
    entries: &[Packed],
    bytes: &[u8],
    at: &mut Cursor,
    told: &mut Entered,
    out: &mut [u8],
) -> u32
    ensures { TakesStored entries.now bytes.now (taking at.old told.old out.old) (taking at.new told.new out.new) result }
{
    let Some(entry) = entries.get(at.entry) else {
        return refused(Refusal::Eagain);
    };
    let entry = numbers_of(entry);
    // A cursor that stands at an entry has its bytes behind it.
    let Some(behind) = end_of(&entry, at.byte, bytes.len()) else {
        return refused(Refusal::Einval);
    };
    *told = entry;
    if behind - at.byte > out.len() {
        return refused(Refusal::Einval);
    }
    give(&bytes[at.byte..behind], out);
    *at = Cursor {
        entry: at.entry + 1,
        byte: behind,
    };
    0
}

// Takes the entry at a cursor of a pair's journal.
fn pair_entry(pair: &Pair<RawStore>, at: &mut Cursor, told: &mut Entered, out: &mut [u8]) -> u32
    ensures { TakesAt (pair.now).journal (taking at.old told.old out.old) (taking at.new told.new out.new) result }
{
    let recorded = pair.journal();
    take_entry(recorded.entries, recorded.bytes, at, told, out)
}

/// Takes the entry at a cursor, which moves behind it. `out` has room for the bytes of its call and those of its answer.
pub fn next_entry(
    alloc: Global,
    handle: &mut Handle,
    at: &mut Cursor,
    told: &mut Entered,
    out: &mut [u8],
) -> u32
    ensures stays { handle.new.held.kept ≡ handle.old.held.kept }
    ensures taken { NextEntry handle.old.held.kept (taking at.old told.old out.old) (taking at.new told.new out.new) result }
{
    let Some(kept) = handle.take(alloc) else {
        return refused(Refusal::Einval);
    };
    let answered = pair_entry(&kept.pair, at, told, out);
    handle.put(kept);
    answered
}

/// Begins the journal of a pair anew, in place. No memory is taken.
pub fn restart(alloc: Global, handle: &mut Handle) -> u32
    ensures { Restarts handle.old.held.kept handle.new.held.kept result }
{
    let Some(mut kept) = handle.take(alloc) else {
        return refused(Refusal::Einval);
    };
    kept.as_mut().restart();
    handle.put(kept);
    0
}
