//! Message blocks, messages, and what is done to lists of them. Blocks and messages are nodes of linked lists, which
//! move from list to list, so that nothing here takes memory.
ghost use Rattle.std.specs.Prelude.{ℕ, ◌≡◌, ◌<◌, ◌≤◌, ◌+◌, ◌^◌, ◌==◌, [], ◌∷◌, ◌++◌, length, take, drop, slice_set, sum_by, replicate};
ghost use Rattle.strm_blocks.specs.Message.{message_at, row_at, without_at, with_blocks, place_in, rank_in, weigh};

use std::collections::LinkedList;
use std::mem::swap;
use strm_types::{LISTS, MsgKind};

/// A message block: the number of its data block, and of that the read place and the write place.
#[derive(Clone, Copy)]
pub(crate) struct MessageBlock {
    pub(crate) kind: MsgKind,
    pub(crate) band: u8,
    pub(crate) number: usize,
    pub(crate) start: usize,
    pub(crate) end: usize,
}

/// A message: a chain of blocks. It keeps its name for ever, also while it stands idle and has no block.
#[derive(Drop)]
pub(crate) struct Message {
    pub(crate) name: u32,
    pub(crate) blocks: LinkedList<MessageBlock>,
}

/// The message at a place of a list, taken off it. The only one of a list is the list itself.
#[inline(always)]
pub(crate) fn take_node(list: &mut LinkedList<Message>, at: usize) -> LinkedList<Message>
    requires { at < length list.old }
    ensures rest { list.new ≡ without_at at list.old }
    ensures node { result ≡ message_at at list.old ∷ [] }
{
    if list.len() == 1 {
        return list.split_off(0).unwrap();
    }
    take_of_many(list, at)
}

// The message at a place of a list, whatever stands beside it.
#[inline(never)]
fn take_of_many(list: &mut LinkedList<Message>, at: usize) -> LinkedList<Message>
    requires { at < length list.old }
    ensures rest { list.new ≡ without_at at list.old }
    ensures node { result ≡ message_at at list.old ∷ [] }
{
    let _len = list.len();
    let mut node = list.split_off(at).unwrap();
    let mut rest = node.split_off(1).unwrap();
    list.append(&mut rest).unwrap();
    node
}

/// Puts messages into a list at a place. Where it is empty they are the list.
#[inline(always)]
pub(crate) fn put_node(list: &mut LinkedList<Message>, at: usize, mut node: LinkedList<Message>)
    requires within { at ≤ length list.old }
    requires few { length list.old + length node < 2 ^ 63 }
    ensures { list.new ≡ take at list.old ++ (node ++ drop at list.old) }
{
    if list.is_empty() {
        swap(list, &mut node);
        return;
    }
    put_among(list, at, node);
}

// Puts messages into a list at a place, whatever stands there.
#[inline(never)]
fn put_among(list: &mut LinkedList<Message>, at: usize, mut node: LinkedList<Message>)
    requires within { at ≤ length list.old }
    requires few { length list.old + length node < 2 ^ 63 }
    ensures { list.new ≡ take at list.old ++ (node ++ drop at list.old) }
{
    let mut rest = list.split_off(at).unwrap();
    node.append(&mut rest).unwrap();
    list.append(&mut node).unwrap();
}

/// Gives the message at a place of a list other blocks, and hands out those that it had.
pub(crate) fn swap_blocks(
    list: &mut LinkedList<Message>,
    at: usize,
    blocks: &mut LinkedList<MessageBlock>,
)
    requires { at < length list.old }
    ensures given { list.new ≡ slice_set list.old at (with_blocks blocks.old (message_at at list.old)) }
    ensures taken { blocks.new ≡ (message_at at list.old).blocks }
{
    if at == 0 {
        swap(&mut list.front_mut().unwrap().blocks, blocks);
        return;
    }
    let _len = list.len();
    let mut rest = list.split_off(at).unwrap();
    let message = rest.front_mut().unwrap();
    swap(&mut message.blocks, blocks);
    list.append(&mut rest).unwrap();
}

/// Puts a block into a chain in place of another one.
pub(crate) fn set_block(chain: &mut LinkedList<MessageBlock>, at: usize, block: MessageBlock)
    requires { at < length chain.old }
    ensures { chain.new ≡ slice_set chain.old at block }
{
    if at == 0 {
        *chain.front_mut().unwrap() = block;
        return;
    }
    let _len = chain.len();
    let mut rest = chain.split_off(at).unwrap();
    let place = rest.front_mut().unwrap();
    *place = block;
    chain.append(&mut rest).unwrap();
}

/// Takes the blocks from a place on from the message at a place of a list.
pub(crate) fn part_blocks(
    list: &mut LinkedList<Message>,
    at: usize,
    from: usize,
) -> LinkedList<MessageBlock>
    requires within { at < length list.old }
    requires there { from ≤ length (message_at at list.old).blocks }
    ensures kept { let m = message_at at list.old in
        list.new ≡ slice_set list.old at (with_blocks (take from m.blocks) m) }
    ensures rest { result ≡ drop from (message_at at list.old).blocks }
{
    if at == 0 {
        return list.front_mut().unwrap().blocks.split_off(from).unwrap();
    }
    let _len = list.len();
    let mut rest = list.split_off(at).unwrap();
    let message = rest.front_mut().unwrap();
    let parted = message.blocks.split_off(from).unwrap();
    list.append(&mut rest).unwrap();
    parted
}

/// Hangs blocks behind those of the message at a place.
pub(crate) fn join_blocks(
    list: &mut LinkedList<Message>,
    at: usize,
    mut blocks: LinkedList<MessageBlock>,
)
    requires within { at < length list.old }
    requires few { length (message_at at list.old).blocks + length blocks < 2 ^ 63 }
    ensures { let m = message_at at list.old in list.new ≡ slice_set list.old at (with_blocks (m.blocks ++ blocks) m) }
{
    let _len = list.len();
    let mut rest = list.split_off(at).unwrap();
    let message = rest.front_mut().unwrap();
    message.blocks.append(&mut blocks).unwrap();
    list.append(&mut rest).unwrap();
}

/// The place of the message of a name in a list, or the list's length where there is none.
pub(crate) fn place_of(list: &LinkedList<Message>, name: u32) -> usize
    ensures { result ≡ place_in name list.now }
{
    let mut rest = list.iter();
    let mut place = 0;
    while let Some(message) = rest.next() {
        if message.name == name {
            return place;
        }
        place += 1;
    }
    place
}

/// The message of a name, taken off a list.
pub(crate) fn take_named(list: &mut LinkedList<Message>, name: u32) -> LinkedList<Message>
    requires { place_in name list.old < length list.old }
    ensures rest { list.new ≡ without_at (place_in name list.old) list.old }
    ensures node { result ≡ message_at (place_in name list.old) list.old ∷ [] }
{
    let place = place_of(list, name);
    take_node(list, place)
}

/// A block of a chain.
pub(crate) fn block_at(chain: &LinkedList<MessageBlock>, at: usize) -> MessageBlock
    requires { at < length chain.now }
    ensures { result ≡ row_at at chain.now }
{
    let mut rest = chain.iter();
    *rest.nth(at).unwrap()
}

/// The blocks of the message of a name.
pub(crate) fn blocks_of(list: &LinkedList<Message>, name: u32) -> &LinkedList<MessageBlock>
    requires { place_in name list.now < length list.now }
    ensures { result.now ≡ (message_at (place_in name list.now) list.now).blocks }
{
    let place = place_of(list, name);
    let mut rest = list.iter();
    let message = rest.nth(place).unwrap();
    &message.blocks
}

/// A block of the message of a name.
pub(crate) fn block_in(list: &LinkedList<Message>, name: u32, at: usize) -> MessageBlock
    requires there { place_in name list.now < length list.now }
    requires within { at < length (message_at (place_in name list.now) list.now).blocks }
    ensures { result ≡ row_at at (message_at (place_in name list.now) list.now).blocks }
{
    block_at(blocks_of(list, name), at)
}

/// Gives a spare block these contents, as a chain of one block.
pub(crate) fn chain_with(
    spare: &mut LinkedList<MessageBlock>,
    block: MessageBlock,
) -> LinkedList<MessageBlock>
    requires { 0 < length spare.old }
    ensures chain { result ≡ block ∷ [] }
    ensures rest { spare.new ≡ drop 1 spare.old }
{
    let mut rest = spare.split_off(1).unwrap();
    swap(spare, &mut rest);
    set_block(&mut rest, 0, block);
    rest
}

/// Gives blocks to an idle message, which then stands in hand, first. Returns its name.
pub(crate) fn hold(
    hand: &mut LinkedList<Message>,
    idle: &mut LinkedList<Message>,
    mut blocks: LinkedList<MessageBlock>,
) -> u32
    requires some { 0 < length idle.old }
    requires few { length hand.old + 1 < 2 ^ 63 }
    ensures name { result ≡ (message_at 0 idle.old).name }
    ensures hand { hand.new ≡ with_blocks blocks (message_at 0 idle.old) ∷ hand.old }
    ensures idle { idle.new ≡ drop 1 idle.old }
{
    let mut node = take_node(idle, 0);
    swap_blocks(&mut node, 0, &mut blocks);
    let name = name_of(&node);
    put_node(hand, 0, node);
    name
}

/// Gives a spare block these contents, as the only one of an idle message, which then stands in hand, first. Returns its
/// name.
pub(crate) fn hold_block(
    hand: &mut LinkedList<Message>,
    idle: &mut LinkedList<Message>,
    spare: &mut LinkedList<MessageBlock>,
    block: MessageBlock,
) -> u32
    requires some { 0 < length idle.old }
    requires spare { 0 < length spare.old }
    requires few { length hand.old + 1 < 2 ^ 63 }
    ensures name { result ≡ (message_at 0 idle.old).name }
    ensures hand { hand.new ≡ with_blocks (block ∷ []) (message_at 0 idle.old) ∷ hand.old }
    ensures idle { idle.new ≡ drop 1 idle.old }
    ensures spare { spare.new ≡ drop 1 spare.old }
{
    let chain = chain_with(spare, block);
    hold(hand, idle, chain)
}

/// The name of the first message of a list.
pub(crate) fn name_of(list: &LinkedList<Message>) -> u32
    requires { 0 < length list.now }
    ensures { result ≡ (message_at 0 list.now).name }
{
    list.front().unwrap().name
}

/// Puts a block of the message of a name in place of another one.
pub(crate) fn replace_block(
    list: &mut LinkedList<Message>,
    name: u32,
    at: usize,
    block: MessageBlock,
)
    requires there { place_in name list.old < length list.old }
    requires within { at < length (message_at (place_in name list.old) list.old).blocks }
    ensures { let place = place_in name list.old in let m = message_at place list.old in
        list.new ≡ slice_set list.old place (with_blocks (slice_set m.blocks at block) m) }
{
    let place = place_of(list, name);
    let _len = list.len();
    let mut rest = list.split_off(place).unwrap();
    let message = rest.front_mut().unwrap();
    set_block(&mut message.blocks, at, block);
    list.append(&mut rest).unwrap();
}

/// The first block of a chain. For a chain of no block, one of M_DATA and band 0.
pub(crate) fn first_block(chain: &LinkedList<MessageBlock>) -> MessageBlock
    ensures { result ≡ row_at 0 chain.now }
{
    match chain.front() {
        Some(block) => *block,
        None => MessageBlock {
            kind: MsgKind::Data,
            band: 0,
            number: 0,
            start: 0,
            end: 0,
        },
    }
}

/// Takes all messages off the lists and out of the hand.
pub(crate) fn gather(
    lists: &mut [LinkedList<Message>; LISTS],
    hand: &mut LinkedList<Message>,
) -> LinkedList<Message>
    requires { weigh (λ _. 1) lists.old hand.old < 2 ^ 63 }
    ensures lists { lists.new ≡ replicate LISTS [] }
    ensures hand { hand.new ≡ [] }
    ensures taken { (g : Message → ℕ) → sum_by g result ≡ weigh g lists.old hand.old }
{
    let mut taken = hand.split_off(0).unwrap();
    for list in 0..LISTS {
        taken.append(&mut lists[list]).unwrap();
    }
    taken
}
