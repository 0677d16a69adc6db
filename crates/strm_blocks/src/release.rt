//! Giving back the blocks of messages.
ghost use Rattle.std.specs.Prelude.{ℕ, ◌≡◌, ◌<◌, ◌≤◌, ◌+◌, ◌^◌, ◌==◌, [], ◌++◌, not, if◌then◌else◌, length, count_by, sum_by, filter, slice_index_or};
ghost use Rattle.strm_blocks.specs.Message.{naming, named, block_count, message_at, flushes_message};

use crate::asked::FlushWhat;
use crate::data::DataBlocks;
use crate::kinds::is_flushed;
use crate::message::{Message, MessageBlock, first_block, part_blocks, take_node};
use std::collections::LinkedList;

/// Takes away the references that blocks have to their data blocks.
fn release_all(blocks: &LinkedList<MessageBlock>, pool: &mut DataBlocks)
    requires { (d : ℕ) → count_by (λ b. b.number == d) blocks.now ≤ slice_index_or pool.old.references d 0 }
    ensures released { (d : ℕ) → slice_index_or pool.new.references d 0 + count_by (λ b. b.number == d) blocks.now
        ≡ slice_index_or pool.old.references d 0 }
    ensures bytes { pool.new.bytes ≡ pool.old.bytes }
    ensures count { length pool.new.references ≡ length pool.old.references }
{
    let mut rest = blocks.iter();
    while let Some(block) = rest.next() {
        pool.release(block.number);
    }
}

/// Gives back the blocks of all messages of a list, and lets the messages stand idle.
#[inline(always)]
pub(crate) fn give_back(
    mut taken: LinkedList<Message>,
    idle: &mut LinkedList<Message>,
    spare: &mut LinkedList<MessageBlock>,
    pool: &mut DataBlocks,
)
    requires named { (d : ℕ) → sum_by (naming d) taken ≤ slice_index_or pool.old.references d 0 }
    requires few_messages { length idle.old + length taken < 2 ^ 63 }
    requires few_blocks { length spare.old + sum_by block_count taken < 2 ^ 63 }
    ensures messages { length idle.new ≡ length idle.old + length taken }
    ensures names { (i : ℕ) → sum_by (named i) idle.new ≡ sum_by (named i) idle.old + sum_by (named i) taken }
    ensures blocks { length spare.new ≡ length spare.old + sum_by block_count taken }
    ensures released { (d : ℕ) → slice_index_or pool.new.references d 0 + sum_by (naming d) taken
        ≡ slice_index_or pool.old.references d 0 }
    ensures bytes { pool.new.bytes ≡ pool.old.bytes }
    ensures count { length pool.new.references ≡ length pool.old.references }
{
    'each: while !taken.is_empty() {
        let mut node = take_node(&mut taken, 0);
        let mut blocks = part_blocks(&mut node, 0, 0);
        release_all(&blocks, pool);
        spare.append(&mut blocks).unwrap();
        idle.append(&mut node).unwrap();
    }
}

/// Takes the messages that a flush takes out of a list.
pub(crate) fn sift(list: &mut LinkedList<Message>, what: FlushWhat) -> LinkedList<Message>
    ensures kept { list.new ≡ filter (λ m. not (flushes_message what m)) list.old }
    ensures taken { result ≡ filter (λ m. flushes_message what m) list.old }
{
    let _len = list.len();
    let mut rest = list.split_off(0).unwrap();
    let mut taken = list.split_off(0).unwrap();
    'each: while !rest.is_empty() {
        let node = take_node(&mut rest, 0);
        let flushed = is_first_flushed(what, &node);
        add_to_one(&mut taken, list, node, flushed);
    }
    taken
}

/// Adds messages to the first list or to the second.
fn add_to_one(
    first: &mut LinkedList<Message>,
    second: &mut LinkedList<Message>,
    mut node: LinkedList<Message>,
    to_first: bool,
)
    requires first_few { length first.old + length node < 2 ^ 63 }
    requires second_few { length second.old + length node < 2 ^ 63 }
    ensures first { first.new ≡ (if to_first then first.old ++ node else first.old) }
    ensures second { second.new ≡ (if to_first then second.old else second.old ++ node) }
{
    if to_first {
        first.append(&mut node).unwrap();
    } else {
        second.append(&mut node).unwrap();
    }
}

/// Whether a flush takes the first message of a list.
fn is_first_flushed(what: FlushWhat, node: &LinkedList<Message>) -> bool
    requires { 0 < length node.now }
    ensures { result ≡ flushes_message what (message_at 0 node.now) }
{
    let message = node.front().unwrap();
    let block = first_block(&message.blocks);
    is_flushed(what, block.kind, block.band)
}
