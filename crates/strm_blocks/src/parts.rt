//! How long a message is, and where it belongs on a list.
ghost use Rattle.std.specs.Prelude.{◌≡◌, ◌<◌, ◌≤◌, ◌^◌, nat_le, nat_lt, length, IsTrue};
ghost use Rattle.std.specs.List.{prefix_len};
ghost use Rattle.strm_types.specs.Ranked.{IsOrdered};
ghost use Rattle.strm_blocks.specs.Message.{message_at, rank_in, listed_rank};
ghost use Rattle.strm_blocks.specs.Parts.{lens, summary_in};

use crate::asked::Summary;
use crate::message::{Message, MessageBlock, first_block};
use std::collections::LinkedList;
use strm_types::{Band, HIGH_PRIORITY_RANK};

// The rank of a message: 256 for high priority, else its band.
fn rank_of(blocks: &LinkedList<MessageBlock>) -> usize
    ensures { result ≡ rank_in blocks.now }
{
    match blocks.front() {
        None => 0,
        Some(block) if block.kind.is_high_priority() => HIGH_PRIORITY_RANK,
        Some(block) => usize::from(block.band),
    }
}

/// The rank of the first message of a list.
pub(crate) fn rank_of_first(list: &LinkedList<Message>) -> usize
    requires { 0 < length list.now }
    ensures { result ≡ rank_in (message_at 0 list.now).blocks }
{
    rank_of(&list.front().unwrap().blocks)
}

/// Whether the last message of a list has at least a rank. Of an empty list it hasn't.
fn ends_in_rank(list: &LinkedList<Message>, rank: usize) -> bool
    requires { IsOrdered listed_rank list.now }
    ensures { IsTrue result → length list.now ≡ prefix_len (λ m. nat_le rank (rank_in m.blocks)) list.now }
{
    match list.back() {
        None => false,
        Some(last) => rank <= rank_of(&last.blocks),
    }
}

/// The place behind all messages of at least a rank: `putq(9F)`. One step where the last message has at least that rank,
/// else one for each message of at least that rank.
pub(crate) fn place_behind(list: &LinkedList<Message>, rank: usize) -> usize
    requires { IsOrdered listed_rank list.now }
    ensures { result ≡ prefix_len (λ m. nat_le rank (rank_in m.blocks)) list.now }
{
    if ends_in_rank(list, rank) {
        return list.len();
    }
    let mut rest = list.iter();
    let mut place = 0;
    while let Some(message) = rest.next() {
        if rank_of(&message.blocks) < rank {
            return place;
        }
        place += 1;
    }
    place
}

/// The place in front of all messages of at most a rank: `putbq(9F)`.
pub(crate) fn place_before(list: &LinkedList<Message>, rank: usize) -> usize
    ensures { result ≡ prefix_len (λ m. nat_lt rank (rank_in m.blocks)) list.now }
{
    let mut rest = list.iter();
    let mut place = 0;
    while let Some(message) = rest.next() {
        if rank_of(&message.blocks) <= rank {
            return place;
        }
        place += 1;
    }
    place
}

/// How many bytes lie between the places of blocks.
pub(crate) fn total_len(blocks: &LinkedList<MessageBlock>) -> usize
    requires { lens blocks.now < 2 ^ 63 }
    ensures { result ≡ lens blocks.now }
{
    let mut rest = blocks.iter();
    let mut total = 0;
    while let Some(block) = rest.next() {
        total += block.end.saturating_sub(block.start);
    }
    total
}

/// What a message of these blocks is counted by.
pub(crate) fn summary_at(blocks: &LinkedList<MessageBlock>) -> Summary
    requires { lens blocks.now < 2 ^ 63 }
    ensures { result ≡ summary_in blocks.now }
{
    let block = first_block(blocks);
    Summary {
        kind: block.kind,
        band: Band(block.band),
        bytes: total_len(blocks),
    }
}
