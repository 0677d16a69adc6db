//! The calls of the store, and what each of them costs.

use crate::chains::{block_link, chain_bytes, chain_len, last_link};
use crate::changes::Change;
use crate::data_nodes::DataNode;
use crate::making::free_message;
use crate::msg_nodes::{MsgNode, Shows};
use crate::neighbours::{Course, NO_ENDS, keep, open};
use crate::raw::RawStore;
use crate::tails::hang;
use crate::visiting::{tell_list, tell_message};
use std::alloc::{AllocError, Global};
use strm_blocks::{Blocks, FlushWhat, InHand, NoBlocks, Peek, Reserve, Summary, Visitor};
use strm_types::{Band, LISTS, MsgKind};

impl Blocks for RawStore {
    ghost value = { λ s. s };

    fn audit(&self) {
        let _ = &self.ledger;
    }

    /// The cost is the same whatever the store's size.
    fn alloc(&mut self, kind: MsgKind) -> Result<InHand, NoBlocks> {
        self.alloc_with(kind, Band(0), &[])
    }

    /// The cost is that of the bytes, whatever the store's size.
    fn alloc_with(&mut self, kind: MsgKind, band: Band, bytes: &[u8]) -> Result<InHand, NoBlocks> {
        if self.free_msg.is_none() || self.free_data.is_none() {
            return self.alloc_unlinked(kind, band, bytes);
        }
        self.alloc_free(kind, band, bytes)
    }

    /// It takes a step for each block before block `at`.
    fn dup(&mut self, message: &InHand, at: usize) -> Result<InHand, NoBlocks> {
        if self.spare_m == 0 {
            return Err(NoBlocks);
        }
        let first = self.memory.message_link(message.name() as usize);
        let link = block_link(&self.memory, first, at);
        let block = self.memory.message(link);
        let references = self.memory.datum(block.number).references;
        if references == 255 {
            return Err(NoBlocks);
        }
        let free = free_message(&mut self.memory, &mut self.ledger, self.free_msg);
        let taken = self.memory.message(free);
        self.memory.set_references(block.number, references + 1);
        let shows = Shows {
            kind: block.kind,
            band: block.band,
            number: block.number,
            start: block.start,
            end: block.end,
        };
        self.memory.show(free, shows);
        self.free_msg = taken.next;
        self.spare_m -= 1;
        self.ledger.note(free.at, block.number.at, 0, 0);
        Ok(InHand::of(taken.name))
    }

    /// It takes a step for each block before block `at`, and copies 512 bytes at most.
    fn copy(&mut self, message: &InHand, at: usize) -> Result<InHand, NoBlocks> {
        let first = self.memory.message_link(message.name() as usize);
        let link = block_link(&self.memory, first, at);
        let block = self.memory.message(link);
        let DataNode { bytes, .. } = *self.memory.datum(block.number);
        let shown = &bytes[block.start..block.end];
        self.alloc_with(block.kind, Band(block.band), shown)
    }

    /// It takes a step for each block.
    fn free(&mut self, message: InHand) {
        let mut left = Some(message);
        while let Some(whole) = left {
            let (first, rest) = self.unlink(whole);
            self.free_one(first);
            left = rest;
        }
    }

    /// It takes a step for each block of the first.
    fn link(&mut self, first: InHand, second: InHand) -> InHand {
        hang(&mut self.memory, &mut self.ledger, first, second)
    }

    /// The cost is the same whatever the message's length.
    fn unlink(&mut self, message: InHand) -> (InHand, Option<InHand>) {
        let at = self.memory.message_link(message.name() as usize);
        let node = self.memory.message(at);
        let Some(rest) = node.next else {
            return (message, None);
        };
        let name = self.memory.message(rest).name;
        self.memory.set_next(at, None);
        self.ledger.note(at.at, node.number.at, 0, 0);
        (message, Some(InHand::of(name)))
    }

    /// It takes a step for each block of the message, and the cost of the bytes.
    fn append(&mut self, message: &InHand, bytes: &[u8]) -> usize {
        let first = self.memory.message_link(message.name() as usize);
        let last = last_link(&self.memory, first, self.memory.messages());
        let node = self.memory.message(last);
        if self.memory.datum(node.number).references > 1 {
            return 0;
        }
        let count = bytes.len().min(256 - node.end);
        self.memory.write(node.number, node.end, &bytes[..count]);
        let end = node.end + count;
        self.memory.set_message(last, MsgNode { end, ..node });
        count
    }

    /// It takes a step for each block before block `at`.
    fn bytes_at(&self, message: &InHand, at: usize) -> &[u8] {
        let _ = &self.ledger;
        let first = self.memory.message_link(message.name() as usize);
        let link = block_link(&self.memory, first, at);
        let node = self.memory.message(link);
        let datum = self.memory.datum(node.number);
        &datum.bytes[node.start..node.end]
    }

    /// It takes a step for each block before block `at`.
    fn trim_head(&mut self, message: &InHand, at: usize, n: usize) {
        self.change(message, at, Change::Head(n));
    }

    /// It takes a step for each block before block `at`.
    fn trim_tail(&mut self, message: &InHand, at: usize, n: usize) {
        self.change(message, at, Change::Tail(n));
    }

    /// It takes a step for each block.
    fn blocks(&self, message: &InHand) -> usize {
        let _ = &self.ledger;
        let first = self.memory.message_link(message.name() as usize);
        chain_len(&self.memory, first, self.memory.messages())
    }

    /// It takes a step for each block before block `at`.
    fn block_len(&self, message: &InHand, at: usize) -> usize {
        self.bytes_at(message, at).len()
    }

    /// It takes a step for each block before block `at`.
    fn kind(&self, message: &InHand, at: usize) -> MsgKind {
        let _ = &self.ledger;
        let first = self.memory.message_link(message.name() as usize);
        let link = block_link(&self.memory, first, at);
        self.memory.message(link).kind
    }

    /// It takes a step for each block before block `at`.
    fn set_kind(&mut self, message: &InHand, at: usize, kind: MsgKind) {
        self.change(message, at, Change::Kind(kind));
    }

    /// The cost is the same whatever the message's length.
    fn band(&self, message: &InHand) -> Band {
        let _ = &self.ledger;
        let first = self.memory.message_link(message.name() as usize);
        Band(self.memory.message(first).band)
    }

    /// It takes a step for each block.
    fn summary(&self, message: &InHand) -> Summary {
        let _ = &self.ledger;
        let first = self.memory.message_link(message.name() as usize);
        let node = self.memory.message(first);
        Summary {
            kind: node.kind,
            band: Band(node.band),
            bytes: chain_bytes(&self.memory, first, self.memory.messages()),
        }
    }

    /// The cost is the same whatever the message's length.
    fn set_band(&mut self, message: &InHand, band: Band) {
        let _ = &self.ledger;
        self.change(message, 0, Change::Band(band.0));
    }

    /// One load.
    fn is_empty(&self, list: usize) -> bool {
        let _ = &self.ledger;
        self.messages(list) == 0
    }

    /// One load.
    fn messages(&self, list: usize) -> usize {
        let _ = &self.ledger;
        self.ends[list].count
    }

    /// It takes one step where the last message of the list has at least the new one's rank, and else a step for each
    /// message that is passed.
    fn insert_back(&mut self, list: usize, message: InHand) {
        self.insert(list, message, Course::Back);
    }

    /// It takes one step where the first message of the list has at most the new one's rank, and else a step for each
    /// message that is passed.
    fn insert_front(&mut self, list: usize, message: InHand) {
        self.insert(list, message, Course::On);
    }

    /// The cost is the same whatever the list's length.
    fn pop(&mut self, list: usize) -> Option<InHand> {
        self.take_end(list, Course::On)
    }

    /// The cost is the same whatever the list's length.
    fn pop_last(&mut self, list: usize) -> Option<InHand> {
        self.take_end(list, Course::Back)
    }

    /// The cost is the same whatever the list's length.
    fn peek(&self, list: usize) -> Option<Peek> {
        let _ = &self.ledger;
        let first = open(self.ends[list]).first?;
        let node = self.memory.message(first);
        Some(Peek {
            kind: node.kind,
            band: Band(node.band),
        })
    }

    /// It takes a step for each block of which the visitor is told.
    fn visit<V: Visitor>(&self, list: usize, visitor: &mut V) {
        let _ = &self.ledger;
        tell_list(&self.memory, open(self.ends[list]), visitor);
    }

    /// It takes a step for each block of which the visitor is told.
    fn visit_message<V: Visitor>(&self, message: &InHand, visitor: &mut V) {
        let _ = &self.ledger;
        let first = self.memory.message_link(message.name() as usize);
        let _ = tell_message(&self.memory, first, visitor);
    }

    /// It takes a step for each message of the list, and two for each block that goes.
    fn drop_where(&mut self, list: usize, what: FlushWhat) {
        if let Some(taken) = self.take_flushed(list, what) {
            self.free(taken);
        }
    }

    /// Two loads.
    fn free_blocks(&self) -> (usize, usize) {
        let _ = &self.ledger;
        (self.spare_m, self.spare_d)
    }

    /// It takes a step for each data block that was used since the store was made or reset.
    fn reset(&mut self) {
        self.memory.clear();
        let (message, datum) = self.memory.begins();
        self.ledger.note(message.at, datum.at, 0, 0);
        self.ends = [keep(NO_ENDS); LISTS];
        self.free_msg = None;
        self.free_data = None;
        (self.spare_m, self.spare_d) = self.memory.room();
    }
}

impl Reserve for RawStore {
    fn reserve(alloc: Global, mblks: usize, dblks: usize) -> Result<RawStore, AllocError> {
        RawStore::new(alloc, mblks, dblks)
    }
}
