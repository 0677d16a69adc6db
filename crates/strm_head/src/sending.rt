//! What write(2), putmsg(2), putpmsg(2) and flushes send down a stream.

ghost use Rattle.std.specs.Prelude.{◌≡◌, ◌≤◌, ◌<◌, true, false, length, None, MatchOption};
ghost use Rattle.strm_types.specs.declared.limits.TheConstants.{BANDS};
ghost use Rattle.strm_types.specs.Flushing.{flush_bytes, flush_message};
ghost use Rattle.strm_types.specs.Message.{data_message};
ghost use Rattle.strm_types.specs.PutMsg as puts;
ghost use Rattle.strm_blocks.specs.Blocks.{filled_block, free_m, free_d, token};
ghost use Rattle.strm_blocks.specs.Outcomes.{Copied};
ghost use Rattle.strm_head.specs.Sending.{control_kind, lent, Sends};

use strm_blocks::{Blocks, InHand};
use strm_types::{Band, DATA_MAX, FlushAsked, MsgKind, Prio};

// The band of a priority.
fn band_of(prio: Prio) -> Band
    ensures band { result.0 ≡ puts.put_band prio }
    ensures low { result.0 < BANDS }
{
    match prio {
        Prio::High => Band(0),
        Prio::Band(band) => band,
    }
}

// The kind of a message of a priority that has a control part.
fn control_kind(prio: Prio) -> MsgKind
    ensures { result ≡ control_kind prio }
{
    match prio {
        Prio::High => MsgKind::Pcproto,
        Prio::Band(_) => MsgKind::Proto,
    }
}

// Makes a message of one block.
pub(crate) fn make<B: Blocks>(store: &mut B, kind: MsgKind, band: Band, bytes: &[u8]) -> InHand
    requires few { length bytes.now ≤ 256 }
    requires room_m { 0 < free_m (B.value store.old) }
    requires room_d { 0 < free_d (B.value store.old) }
    ensures { Copied (B.value store.old) (B.value store.new) (token result) (filled_block kind band.0 bytes.now) }
{
    let Ok(message) = store.alloc_with(kind, band, bytes) else {
        unreachable!()
    };
    message
}

/// Makes the message that a putmsg(2) or putpmsg(2) sends, M_PCPROTO for high priority, else M_PROTO with a control part and
/// M_DATA without, in one block for each part that is there. None is made where neither is.
pub fn make_message<B: Blocks>(
    store: &mut B,
    prio: Prio,
    control: Option<&[u8]>,
    body: Option<&[u8]>,
) -> Option<InHand>
    requires allowed { puts.put_refusal prio (lent control) (lent body) ≡ None }
    requires room_m { puts.put_blocks (lent control) (lent body) ≤ free_m (B.value store.old) }
    requires room_d { puts.put_blocks (lent control) (lent body) ≤ free_d (B.value store.old) }
    ensures made { let c = lent control.entry in let b = lent body.entry in
        MatchOption result (B.value store.new ≡ B.value store.old)
        (λ m. Sends (B.value store.old) (B.value store.new) (token m) (puts.put_message prio c b) (puts.put_blocks c b)) }
    ensures none { let c = lent control.entry in let b = lent body.entry in
        MatchOption result (puts.no_parts c b ≡ true) (λ _. puts.no_parts c b ≡ false) }
{
    let band = band_of(prio);
    let Some(control) = control else {
        return match body {
            Some(body) => Some(make(store, MsgKind::Data, band, body)),
            None => None,
        };
    };
    let first = make(store, control_kind(prio), band, control);
    let Some(body) = body else {
        return Some(first);
    };
    let second = make(store, MsgKind::Data, band, body);
    Some(store.link(first, second))
}

/// Makes one chunk of a write(2), at most 256 bytes: an M_DATA message of band 0, in one block of each kind. Whether the queue below has
/// room for it (canput(9F)) is asked before.
pub fn write<B: Blocks>(store: &mut B, chunk: &[u8]) -> InHand
    requires few { length chunk.now ≤ DATA_MAX }
    requires room_m { 0 < free_m (B.value store.old) }
    requires room_d { 0 < free_d (B.value store.old) }
    ensures { Sends (B.value store.old) (B.value store.new) (token result) (data_message chunk.now) 1 }
{
    make(store, MsgKind::Data, Band(0), chunk)
}

/// Makes the M_FLUSH that I_FLUSH and I_FLUSHBAND send down (streamio(7I)), in one block of each kind.
pub fn make_flush<B: Blocks>(store: &mut B, asked: FlushAsked) -> InHand
    requires room_m { 0 < free_m (B.value store.old) }
    requires room_d { 0 < free_d (B.value store.old) }
    ensures { Sends (B.value store.old) (B.value store.new) (token result) (flush_message (flush_bytes asked)) 1 }
{
    let bytes = asked.bytes();
    make(store, MsgKind::Flush, Band(0), bytes.as_slice())
}
