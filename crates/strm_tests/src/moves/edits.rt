//! Changes of a message.

ghost use Rattle.strm_blocks.specs.Blocks.{IsInHand, token};

use strm_blocks::{Blocks, InHand};
use strm_types::{Band, MsgKind};

/// A change of a message.
#[derive(Drop)]
pub enum Edit<'a> {
    /// So many bytes go at the head of a block, or all that it shows.
    TrimHead(usize, usize),
    /// So many bytes go at the tail of a block, or all that it shows.
    TrimTail(usize, usize),
    /// A block gets another kind.
    Kind(usize, MsgKind),
    /// The message gets another band.
    Band(u8),
    /// Of bytes that are written into the last block so many have room.
    Append(&'a [u8], usize),
}

// Trims a block at its head, where the message has it.
fn trims_head<B: Blocks>(store: &mut B, message: &InHand, block: usize, n: usize) -> bool
    requires { IsInHand (B.value store.old) (token message.now) }
    ensures { IsInHand (B.value store.new) (token message.now) }
{
    if block >= store.blocks(message) {
        return false;
    }
    store.trim_head(message, block, n);
    true
}

// The same at its tail.
fn trims_tail<B: Blocks>(store: &mut B, message: &InHand, block: usize, n: usize) -> bool
    requires { IsInHand (B.value store.old) (token message.now) }
    ensures { IsInHand (B.value store.new) (token message.now) }
{
    if block >= store.blocks(message) {
        return false;
    }
    store.trim_tail(message, block, n);
    true
}

// Gives a block another kind, where the message has it.
fn turns<B: Blocks>(store: &mut B, message: &InHand, block: usize, kind: MsgKind) -> bool
    requires { IsInHand (B.value store.old) (token message.now) }
    ensures { IsInHand (B.value store.new) (token message.now) }
{
    if block >= store.blocks(message) {
        return false;
    }
    store.set_kind(message, block, kind);
    true
}

fn bands<B: Blocks>(store: &mut B, message: &InHand, band: u8) -> bool
    requires { IsInHand (B.value store.old) (token message.now) }
    ensures { IsInHand (B.value store.new) (token message.now) }
{
    store.set_band(message, Band(band));
    true
}

// How many of these bytes had room.
fn appends<B: Blocks>(store: &mut B, message: &InHand, bytes: &[u8]) -> usize
    requires { IsInHand (B.value store.old) (token message.now) }
    ensures { IsInHand (B.value store.new) (token message.now) }
{
    store.append(message, bytes)
}

/// Changes a message, and says whether that can be.
pub fn change<B: Blocks>(store: &mut B, message: &InHand, edit: &Edit<'_>) -> bool
    requires { IsInHand (B.value store.old) (token message.now) }
    ensures { IsInHand (B.value store.new) (token message.now) }
{
    match edit {
        Edit::TrimHead(block, n) => trims_head(store, message, *block, *n),
        Edit::TrimTail(block, n) => trims_tail(store, message, *block, *n),
        Edit::Kind(block, kind) => turns(store, message, *block, *kind),
        Edit::Band(band) => bands(store, message, *band),
        Edit::Append(bytes, count) => appends(store, message, bytes) == *count,
    }
}
