//! What the first message of a queue asks before it goes on (srv(9E); canputnext(9F), bcanput(9F)).

ghost use Rattle.std.specs.Prelude.{◌≡◌, ◌≤◌};
ghost use Rattle.strm_types.specs.Asking.{asked_by, asked_first};
ghost use Rattle.strm_types.specs.Queue.{first_size};
ghost use Rattle.strm_queue.specs.Stored.{messages_on, IsReady};

use strm_blocks::Blocks;
use strm_queue::Queue;
use strm_types::{Asks, Band, MsgKind, Way};

// What a message of a kind and a band asks, while output is stopped or not.
fn asked_by(way: Way, stopped: bool, kind: MsgKind, band: Band) -> Asks
    ensures asks { result ≡ asked_by way stopped kind band.0 }
{
    match (kind, way) {
        (MsgKind::Data, Way::Up) => Asks::Room(Band(0)),
        (MsgKind::Data, Way::Down) if stopped => Asks::Held,
        (MsgKind::Data | MsgKind::Proto, _) => Asks::Room(band),
        _ => Asks::Free,
    }
}

/// What the first message of a queue of a way asks before it goes on. While output is stopped, M_DATA on the write queue goes nowhere. A
/// message has no more bytes than all blocks of a store.
pub(crate) fn asked_on<B: Blocks>(store: &B, queue: &Queue, way: Way, stopped: bool) -> Asks
    requires ready { IsReady (B.value store.now) queue.now }
    ensures asks { result ≡ asked_first way stopped (messages_on (B.value store.now) queue.now.list) }
    ensures few { first_size (messages_on (B.value store.now) queue.now.list) ≤ 16777216 }
{
    store.audit();
    match store.peek(queue.list) {
        Some(peek) => asked_by(way, stopped, peek.kind, peek.band),
        None => Asks::Empty,
    }
}
