//! The plain store of blocks.
ghost use Rattle.std.specs.Prelude.{[], ◌≡◌, ◌<◌, ◌≤◌, length, replicate, IfOk, MatchResult};
ghost use Rattle.strm_blocks.specs.Blocks.{empty_store};
ghost use Rattle.strm_blocks.specs.Pool.{Reserves, ReservesNone};

use crate::asked::{FlushWhat, NoBlocks, Peek, Summary};
use crate::blocks::Blocks;
use crate::data::DataBlocks;
use crate::in_hand::InHand;
use crate::message::{
    Message, MessageBlock, block_at, block_in, blocks_of, first_block, gather, hold, hold_block,
    join_blocks, name_of, part_blocks, place_of, put_node, replace_block, take_named, take_node,
};
use crate::parts::{place_before, place_behind, rank_of_first, summary_at};
use crate::release::{give_back, sift};
use crate::visiting::{tell_list, tell_message};
use crate::visitor::Visitor;
use std::alloc::{AllocError, Global};
use std::collections::LinkedList;
use std::marker::Model;
use strm_types::{BLOCK_SIZE, Band, LISTS, MsgKind};

/// A store of message blocks and data blocks in linked lists and tables. All of its memory is reserved when it is made:
/// its blocks and messages are nodes, which move from list to list.
pub struct TableStore {
    lists: [LinkedList<Message>; LISTS],
    hand: LinkedList<Message>,
    idle: LinkedList<Message>,
    spare: LinkedList<MessageBlock>,
    data: DataBlocks,
    mblks: usize,
}

// Of its own, so that who owns one doesn't take it apart at each way out.
impl Drop for TableStore {
    fn drop(self) {
        let TableStore {
            lists: _,
            hand: _,
            idle: _,
            spare: _,
            data: _,
            mblks: _,
        } = self;
    }
}

impl Model for TableStore {
    ghost use Rattle.strm_blocks.specs.Blocks.{StoreValue};

    ghost Value = { StoreValue };

    ghost use Rattle.strm_blocks.specs.Table.{value_of, IsTableStore};

    ghost view = { value_of };

    ghost invariant = { IsTableStore };
}

impl TableStore {
    /// A store of so many message blocks and data blocks, from 1 to 65536 of each, with nothing in it. All memory is
    /// taken here, and `AllocError` says that it was refused.
    pub fn new(alloc: Global, mblks: usize, dblks: usize) -> Result<TableStore, AllocError>
        requires some_mblks { 0 < mblks }
        requires few_mblks { mblks ≤ 65536 }
        requires some_dblks { 0 < dblks }
        requires few_dblks { dblks ≤ 65536 }
        ensures { IfOk result (λ s. s ≡ empty_store mblks dblks) }
    {
        let data = DataBlocks::new(alloc, dblks)?;
        let mut idle = LinkedList::new(alloc);
        let mut spare = LinkedList::new(alloc);
        for name in 0..mblks {
            idle.push_back(Message {
                name: name as u32,
                blocks: LinkedList::new(alloc),
            })?;
            spare.push_back(MessageBlock {
                kind: MsgKind::Data,
                band: 0,
                number: 0,
                start: 0,
                end: 0,
            })?;
        }
        Ok(TableStore {
            lists: no_lists(alloc),
            hand: LinkedList::new(alloc),
            idle,
            spare,
            data,
            mblks,
        })
    }
}

// Lists with no message.
fn no_lists(alloc: Global) -> [LinkedList<Message>; LISTS]
    ensures { result ≡ replicate LISTS [] }
{
    [
        LinkedList::new(alloc),
        LinkedList::new(alloc),
        LinkedList::new(alloc),
        LinkedList::new(alloc),
        LinkedList::new(alloc),
        LinkedList::new(alloc),
        LinkedList::new(alloc),
        LinkedList::new(alloc),
        LinkedList::new(alloc),
        LinkedList::new(alloc),
        LinkedList::new(alloc),
        LinkedList::new(alloc),
        LinkedList::new(alloc),
        LinkedList::new(alloc),
        LinkedList::new(alloc),
        LinkedList::new(alloc),
    ]
}

// Takes a data block, where a message block is spare for it.
fn reserve(spare: &LinkedList<MessageBlock>, pool: &mut DataBlocks) -> Result<usize, NoBlocks>
    ensures { MatchResult result
        (λ d. Reserves (length spare.now) pool.old pool.new d)
        (λ _. ReservesNone (length spare.now) pool.old pool.new) }
{
    if spare.is_empty() {
        return Err(NoBlocks);
    }
    match pool.take() {
        Some(number) => Ok(number),
        None => Err(NoBlocks),
    }
}

impl Blocks for TableStore {
    ghost value = { λ s. s };

    fn audit(&self) {
        self.data.audit();
    }

    fn alloc(&mut self, kind: MsgKind) -> Result<InHand, NoBlocks> {
        let number = reserve(&self.spare, &mut self.data)?;
        let block = MessageBlock {
            kind,
            band: 0,
            number,
            start: 0,
            end: 0,
        };
        Ok(InHand {
            name: hold_block(&mut self.hand, &mut self.idle, &mut self.spare, block),
        })
    }

    fn alloc_with(&mut self, kind: MsgKind, band: Band, bytes: &[u8]) -> Result<InHand, NoBlocks> {
        let number = reserve(&self.spare, &mut self.data)?;
        self.data.audit();
        self.data.write(number, 0, bytes);
        let block = MessageBlock {
            kind,
            band: band.0,
            number,
            start: 0,
            end: bytes.len(),
        };
        Ok(InHand {
            name: hold_block(&mut self.hand, &mut self.idle, &mut self.spare, block),
        })
    }

    fn dup(&mut self, message: &InHand, at: usize) -> Result<InHand, NoBlocks> {
        let block = block_in(&self.hand, message.name, at);
        if self.spare.is_empty() {
            return Err(NoBlocks);
        }
        if self.data.references(block.number) == 255 {
            return Err(NoBlocks);
        }
        self.data.share(block.number);
        Ok(InHand {
            name: hold_block(&mut self.hand, &mut self.idle, &mut self.spare, block),
        })
    }

    fn copy(&mut self, message: &InHand, at: usize) -> Result<InHand, NoBlocks> {
        let block = block_in(&self.hand, message.name, at);
        let number = reserve(&self.spare, &mut self.data)?;
        self.data.audit();
        self.data.copy(block.number, block.start, block.end, number);
        let copied = MessageBlock {
            kind: block.kind,
            band: block.band,
            number,
            start: 0,
            end: block.end - block.start,
        };
        Ok(InHand {
            name: hold_block(&mut self.hand, &mut self.idle, &mut self.spare, copied),
        })
    }

    fn free(&mut self, message: InHand) {
        let taken = take_named(&mut self.hand, message.name);
        give_back(taken, &mut self.idle, &mut self.spare, &mut self.data);
    }

    fn link(&mut self, first: InHand, second: InHand) -> InHand {
        let mut node = take_named(&mut self.hand, second.name);
        let rest = part_blocks(&mut node, 0, 0);
        put_node(&mut self.idle, 0, node);
        let place = place_of(&self.hand, first.name);
        join_blocks(&mut self.hand, place, rest);
        first
    }

    fn unlink(&mut self, message: InHand) -> (InHand, Option<InHand>) {
        let place = place_of(&self.hand, message.name);
        let rest = part_blocks(&mut self.hand, place, 1);
        if rest.is_empty() {
            return (message, None);
        }
        let name = hold(&mut self.hand, &mut self.idle, rest);
        (message, Some(InHand { name }))
    }

    fn append(&mut self, message: &InHand, bytes: &[u8]) -> usize {
        let blocks = blocks_of(&self.hand, message.name);
        let last = blocks.len() - 1;
        let mut block = block_at(blocks, last);
        if self.data.references(block.number) > 1 {
            return 0;
        }
        self.data.audit();
        let count = bytes.len().min(BLOCK_SIZE - block.end);
        self.data.write(block.number, block.end, &bytes[..count]);
        block.end += count;
        replace_block(&mut self.hand, message.name, last, block);
        count
    }

    fn bytes_at(&self, message: &InHand, at: usize) -> &[u8] {
        let block = block_in(&self.hand, message.name, at);
        self.data.shown(block.number, block.start, block.end)
    }

    fn trim_head(&mut self, message: &InHand, at: usize, n: usize) {
        let mut block = block_in(&self.hand, message.name, at);
        self.data.audit();
        block.start += n.min(block.end.saturating_sub(block.start));
        replace_block(&mut self.hand, message.name, at, block);
    }

    fn trim_tail(&mut self, message: &InHand, at: usize, n: usize) {
        let mut block = block_in(&self.hand, message.name, at);
        self.data.audit();
        block.end -= n.min(block.end.saturating_sub(block.start));
        replace_block(&mut self.hand, message.name, at, block);
    }

    fn blocks(&self, message: &InHand) -> usize {
        blocks_of(&self.hand, message.name).len()
    }

    fn block_len(&self, message: &InHand, at: usize) -> usize {
        let block = block_in(&self.hand, message.name, at);
        self.data.shown(block.number, block.start, block.end).len()
    }

    fn kind(&self, message: &InHand, at: usize) -> MsgKind {
        block_in(&self.hand, message.name, at).kind
    }

    fn set_kind(&mut self, message: &InHand, at: usize, kind: MsgKind) {
        let mut block = block_in(&self.hand, message.name, at);
        block.kind = kind;
        replace_block(&mut self.hand, message.name, at, block);
    }

    fn band(&self, message: &InHand) -> Band {
        Band(first_block(blocks_of(&self.hand, message.name)).band)
    }

    fn summary(&self, message: &InHand) -> Summary {
        self.data.audit();
        summary_at(blocks_of(&self.hand, message.name))
    }

    fn set_band(&mut self, message: &InHand, band: Band) {
        let mut block = block_in(&self.hand, message.name, 0);
        block.band = band.0;
        replace_block(&mut self.hand, message.name, 0, block);
    }

    fn is_empty(&self, list: usize) -> bool {
        self.lists[list].is_empty()
    }

    fn messages(&self, list: usize) -> usize {
        self.lists[list].len()
    }

    fn insert_back(&mut self, list: usize, message: InHand) {
        let node = take_named(&mut self.hand, message.name);
        let rank = rank_of_first(&node);
        let place = place_behind(&self.lists[list], rank);
        put_node(&mut self.lists[list], place, node);
    }

    fn insert_front(&mut self, list: usize, message: InHand) {
        let node = take_named(&mut self.hand, message.name);
        let rank = rank_of_first(&node);
        let place = place_before(&self.lists[list], rank);
        put_node(&mut self.lists[list], place, node);
    }

    fn pop(&mut self, list: usize) -> Option<InHand> {
        if self.lists[list].is_empty() {
            return None;
        }
        let node = take_node(&mut self.lists[list], 0);
        let name = name_of(&node);
        put_node(&mut self.hand, 0, node);
        Some(InHand { name })
    }

    fn pop_last(&mut self, list: usize) -> Option<InHand> {
        let count = self.lists[list].len();
        if count == 0 {
            return None;
        }
        let node = take_node(&mut self.lists[list], count - 1);
        let name = name_of(&node);
        put_node(&mut self.hand, 0, node);
        Some(InHand { name })
    }

    fn peek(&self, list: usize) -> Option<Peek> {
        let message = self.lists[list].front()?;
        let block = first_block(&message.blocks);
        Some(Peek {
            kind: block.kind,
            band: Band(block.band),
        })
    }

    fn visit<V: Visitor>(&self, list: usize, visitor: &mut V) {
        tell_list(&self.data, &self.lists[list], visitor);
    }

    fn visit_message<V: Visitor>(&self, message: &InHand, visitor: &mut V) {
        let _ = tell_message(&self.data, blocks_of(&self.hand, message.name), visitor);
    }

    fn drop_where(&mut self, list: usize, what: FlushWhat) {
        let taken = sift(&mut self.lists[list], what);
        give_back(taken, &mut self.idle, &mut self.spare, &mut self.data);
    }

    fn free_blocks(&self) -> (usize, usize) {
        (self.spare.len(), self.data.free_count())
    }

    fn reset(&mut self) {
        let taken = gather(&mut self.lists, &mut self.hand);
        give_back(taken, &mut self.idle, &mut self.spare, &mut self.data);
    }
}
