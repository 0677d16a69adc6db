//! What is seen of a message, and of a list by a visitor.

ghost use Rattle.std.specs.Prelude.{true, ◌≡◌, ◌-◌, ◌==◌, ◌<◌, if◌then◌else◌, length, not};
ghost use Rattle.strm_blocks.specs.Blocks.{IsInHand, token};

use strm_blocks::{Blocks, InHand, Visitor};
use strm_types::{Band, MsgKind};

/// What is seen of a message.
#[derive(Drop)]
pub enum Look<'a> {
    /// So many blocks.
    Blocks(usize),
    /// A block of this kind, which shows these bytes.
    Shows(usize, MsgKind, &'a [u8]),
    /// A block that shows so many bytes.
    Len(usize, usize),
    /// The band.
    Band(u8),
    /// What it is counted by.
    Counts(MsgKind, u8, usize),
    /// A visitor that passes so many blocks over is told of this one last.
    Told(usize, Told),
    /// A visitor that passes so many blocks over passes all, and so many are left to pass over.
    Passed(usize, usize),
    /// Its name is the one that is kept in a place, or isn't.
    Named(usize, bool),
}

/// A block of which a visitor is told: whether it is the first of its message, its kind and band, and how many bytes it shows.
pub type Told = (bool, MsgKind, u8, usize);

/// Names of messages that are kept.
pub type Names = [u32; 2];

/// Seeks the block behind so many.
#[derive(Drop)]
pub struct Seeker {
    left: usize,
    found: bool,
    first: bool,
    kind: MsgKind,
    band: u8,
    len: usize,
}

impl Visitor for Seeker {
    ghost after = { λ v b. if v.left == 0
        then record { left = 0; found = true; first = b.first; kind = b.kind; band = b.band; len = length b.bytes }
        else record v { left = v.left - 1 } };

    ghost goes_on = { λ v. not v.found };

    fn see(&mut self, first: bool, kind: MsgKind, band: Band, bytes: &[u8]) -> bool {
        if self.left == 0 {
            self.found = true;
            self.first = first;
            self.kind = kind;
            self.band = band.0;
            self.len = bytes.len();
        } else {
            self.left -= 1;
        }
        !self.found
    }
}

fn seeks(left: usize) -> Seeker {
    Seeker {
        left,
        found: false,
        first: false,
        kind: MsgKind::Data,
        band: 0,
        len: 0,
    }
}

pub fn has_found(seeker: &Seeker, told: Told) -> bool {
    seeker.found && (seeker.first, seeker.kind, seeker.band, seeker.len) == told
}

pub fn has_passed(seeker: &Seeker, left: usize) -> bool {
    !seeker.found && seeker.left == left
}

// Whether a message has a block of this kind, which shows these bytes.
fn shows<B: Blocks>(store: &B, message: &InHand, block: usize, kind: MsgKind, bytes: &[u8]) -> bool
    requires { IsInHand (B.value store.now) (token message.now) }
{
    block < store.blocks(message)
        && store.kind(message, block) == kind
        && store.bytes_at(message, block) == bytes
}

fn has_len<B: Blocks>(store: &B, message: &InHand, block: usize, len: usize) -> bool
    requires { IsInHand (B.value store.now) (token message.now) }
{
    block < store.blocks(message) && store.block_len(message, block) == len
}

fn is_counted<B: Blocks>(store: &B, message: &InHand, kind: MsgKind, band: u8, bytes: usize) -> bool
    requires { IsInHand (B.value store.now) (token message.now) }
{
    let seen = store.summary(message);
    seen.kind == kind && seen.band.0 == band && seen.bytes == bytes
}

// What is sought among a message's blocks.
fn sought<B: Blocks>(store: &B, message: &InHand, left: usize) -> Seeker
    requires { IsInHand (B.value store.now) (token message.now) }
{
    let mut seeker = seeks(left);
    store.visit_message(message, &mut seeker);
    seeker
}

/// Whether a message is as it looks.
pub fn is_so<B: Blocks>(store: &B, names: &Names, message: &InHand, look: &Look<'_>) -> bool
    requires { IsInHand (B.value store.now) (token message.now) }
{
    match look {
        Look::Blocks(count) => store.blocks(message) == *count,
        Look::Shows(block, kind, bytes) => shows(store, message, *block, *kind, bytes),
        Look::Len(block, len) => has_len(store, message, *block, *len),
        Look::Band(band) => store.band(message).0 == *band,
        Look::Counts(kind, band, bytes) => is_counted(store, message, *kind, *band, *bytes),
        Look::Told(left, told) => has_found(&sought(store, message, *left), *told),
        Look::Passed(over, left) => has_passed(&sought(store, message, *over), *left),
        Look::Named(place, same) => (names[*place % 2] == message.name()) == *same,
    }
}

/// What is sought among the blocks of a list's messages.
pub fn sought_on<B: Blocks>(store: &B, list: usize, left: usize) -> Seeker
    requires { list < 8 }
{
    let mut seeker = seeks(left);
    store.visit(list, &mut seeker);
    seeker
}
