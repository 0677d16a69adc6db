//! The entries of a pair's journal.

use crate::answers::{Answer, Turn};
use crate::events::{Caller, Event};
use crate::names::QueueName;

/// An entry of a journal, over what stands for its bytes: a call with its answer, or a turn of a queue. What a journal keeps of
/// one tells an `Entry<u32>`, and the bytes stand apart in one buffer, in the order of the entries: of each first the bytes of its
/// call, and then those of its answer. An `Entry<u32>` takes 60 bytes.
#[derive(Clone, Copy, PartialEq)]
pub enum Entry<T> {
    Called {
        caller: Caller,
        event: Event<T>,
        answer: Answer<T>,
    },
    Turned {
        queue: QueueName,
        turn: Turn,
    },
}

const _: () = prove!(size_of::<Entry<u32>>() == 60);
