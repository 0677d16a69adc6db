//! An entry of a journal as a C program is told it.

ghost use Rattle.std.specs.Prelude.{◌≡◌, ◌+◌};
ghost use Rattle.strm_types.specs.Journal.{entry_len, event_len};
ghost use Rattle.strm_handle.specs.Entries.{Enters};

use crate::answering::{nothing, replied};
use crate::asking::asked;
use crate::asks::Ask;
use crate::numbers::{NO_QUEUE, queue_number, went};
use crate::replies::{Reply, Went};
use strm_journal::Packed;
use strm_types::{Entry, Event};

/// How many entries of a journal were taken, and how many of their bytes.
#[repr(C)]
#[derive(Drop)]
pub struct Cursor {
    pub entry: usize,
    pub byte: usize,
}

/// An entry: of a call its numbers and those of its answer, of a turn its queue and what it did. The bytes stand in the caller's buffer,
/// those of the call first.
#[repr(C)]
#[derive(Drop)]
pub struct Entered {
    /// How many bytes its call brought.
    pub brings: usize,
    /// 0 a call, 1 a turn.
    pub kind: u32,
    pub queue: u32,
    pub ask: Ask,
    pub reply: Reply,
    pub went: Went,
}

// How many bytes a call brought.
fn brought(event: &Event<u32>) -> usize
    ensures { result ≡ event_len event.now }
{
    match *event {
        Event::Write { bytes } => bytes as usize,
        Event::Put { control, body, .. } => {
            control.unwrap_or(0) as usize + body.unwrap_or(0) as usize
        }
        Event::Ioctl { body, .. } => body as usize,
        _ => 0,
    }
}

// The numbers of an entry.
fn numbers_told(entry: &Entry<u32>) -> Entered
    ensures bytes { result.brings + result.reply.bytes ≡ entry_len entry.now }
    ensures told { Enters result entry.now }
{
    match entry {
        Entry::Called {
            caller,
            event,
            answer,
        } => Entered {
            brings: brought(event),
            kind: 0,
            queue: NO_QUEUE,
            ask: asked(*caller, event),
            reply: replied(answer),
            went: Went { kind: 0, moved: 0 },
        },
        Entry::Turned { queue, turn } => Entered {
            brings: 0,
            kind: 1,
            queue: queue_number(*queue),
            ask: Ask::none(),
            reply: nothing(),
            went: went(*turn),
        },
    }
}

/// The numbers of a packed entry.
pub(crate) fn numbers_of(packed: &Packed) -> Entered
    ensures bytes { result.brings + result.reply.bytes ≡ entry_len packed.now }
    ensures told { Enters result packed.now }
{
    numbers_told(&packed.entry())
}
