//! What an M_FLUSH takes from the module (ldterm(7M); STREAMS Programming Guide, "Flush Handling").

ghost use Rattle.std.specs.Prelude.{◌≡◌, [], ◌∷◌, if◌then◌else◌};
ghost use Rattle.strm_types.specs.declared.names.Way.TheVariants.{Up, Down};
ghost use Rattle.strm_types.specs.declared.spots.Note.TheVariants.{Room};
ghost use Rattle.strm_types.specs.Ldterms.{takes_band_0, line_flushed, read_flushed, write_flushed};
ghost use Rattle.strm_blocks.specs.Blocks.{StoreValue};
ghost use Rattle.strm_frame.specs.declared.queue_pair.QueuePair.{QueuePair};
ghost use Rattle.strm_ldterm.specs.Stands.{ldterm_in, IsHeld, paired};
ghost use Rattle.strm_ldterm.specs.Does.{Flushes};

use crate::ldterm::Ldterm;
use strm_blocks::Blocks;
use strm_frame::{QueuePair, direction_at, flush_queue};
use strm_types::{Band, Fates, FlushAsked, Rule, Spot, Way};

// Whether a flush takes band 0.
fn takes_band_0(band: Option<Band>) -> bool
    ensures { result ≡ takes_band_0 band }
{
    match band {
        Some(band) => band.0 == 0,
        None => true,
    }
}

/// The unfinished line goes, where a flush takes band 0.
pub(crate) fn flush_line(ldterm: &mut Ldterm, here: Spot, band: Option<Band>, told: &mut Fates)
    ensures { (s : StoreValue) (q : QueuePair) → IsHeld s (paired ldterm.old q) →
        Flushes s s (paired ldterm.old q) (paired ldterm.new q) [] told.old told.new (line_flushed here band (ldterm_in s (paired ldterm.old q))) }
{
    if !takes_band_0(band) || ldterm.line.len() == 0 {
        return;
    }
    let gone = ldterm.line.clear();
    told.tell(direction_at(Way::Up, here.side), Rule::Flushed, gone);
}

/// FLUSHR: what waits to go up goes, and with band 0 the unfinished line. It says whether queues before have room again.
pub(crate) fn flush_read<B: Blocks>(
    ldterm: &mut Ldterm,
    queues: &mut QueuePair,
    store: &mut B,
    here: Spot,
    asked: FlushAsked,
    told: &mut Fates,
) -> bool
    requires held { IsHeld (B.value store.old) (paired ldterm.old queues.old) }
    ensures { let s = B.value store.old in
        Flushes s (B.value store.new) (paired ldterm.old queues.old) (paired ldterm.new queues.new) (if result then Room Up ∷ [] else []) told.old
        told.new
        (read_flushed here asked (ldterm_in s (paired ldterm.old queues.old))) }
{
    if !asked.for_read {
        return false;
    }
    let direction = direction_at(Way::Up, here.side);
    let room = flush_queue(store, &mut queues.read, direction, asked.band, told);
    flush_line(ldterm, here, asked.band, told);
    room
}

/// FLUSHW: what waits to go down goes, with the turn's echo where band 0 goes. It says whether queues before have room again.
pub(crate) fn flush_write<B: Blocks>(
    ldterm: &mut Ldterm,
    queues: &mut QueuePair,
    store: &mut B,
    here: Spot,
    asked: FlushAsked,
    told: &mut Fates,
) -> bool
    requires held { IsHeld (B.value store.old) (paired ldterm.old queues.old) }
    ensures { let s = B.value store.old in
        Flushes s (B.value store.new) (paired ldterm.old queues.old) (paired ldterm.new queues.new) (if result then Room Down ∷ [] else []) told.old
        told.new
        (write_flushed here asked (ldterm_in s (paired ldterm.old queues.old))) }
{
    if !asked.for_write {
        return false;
    }
    let whole = takes_band_0(asked.band);
    ldterm.echoing &= !whole;
    let direction = direction_at(Way::Down, here.side);
    flush_queue(store, &mut queues.write, direction, asked.band, told)
}
