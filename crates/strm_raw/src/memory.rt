//! All nodes of a store. What lies in memory is read and written here alone; a pointer is seen as the number of its node.
ghost use Rattle.std.specs.Prelude.{◌≡◌, ◌<◌, ◌≤◌, ◌+◌, length, option_map, IfOk, take, drop, ◌++◌, [], ◌∷◌};
ghost use Rattle.strm_raw.specs.Numbered.{IsMsg, IsMsgOrNone, IsData, IsDataOrNone, Fits, IsRow, row_of, data_of, row_at, data_at, msg_number, data_number, with_row, with_data, no_row, no_data, no_bytes, showing};
ghost use Rattle.strm_raw.specs.Wiped.{AreBlank};
ghost use Rattle.std_alloc.specs.Vec.{vec_capacity};

use crate::data_nodes::{DataLink, DataNode};
use crate::msg_nodes::{MsgLink, MsgNode, Shows};
use crate::nodes::{place_of, reach, reach_mut};
use std::alloc::{AllocError, Global};
use std::marker::Model;
use strm_types::MsgKind;

/// The nodes of message blocks and of data blocks, each kind in one block of memory, which is reserved and given back once.
/// A node is made when it is first used, behind those that are made, and lies where it is from then on. No byte of a message is left in
/// what is given back.
pub(crate) struct Memory {
    msgs: Vec<MsgNode>,
    datas: Vec<DataNode>,
}

impl Model for Memory {
    ghost use Rattle.std_alloc.specs.Vec.{vec_ptr, vec_capacity, vec_items};
    ghost use Rattle.strm_raw.specs.Numbered.{Nodes, rows, nodes_of, AreLinked};

    ghost Value = { Nodes };

    ghost view = { λ m. nodes_of (rows (vec_ptr m.msgs) (vec_capacity m.msgs) (vec_items m.msgs)) (rows (vec_ptr m.datas) (vec_capacity m.datas) (vec_items m.datas)) };

    ghost invariant = { λ m. AreLinked (rows (vec_ptr m.msgs) (vec_capacity m.msgs) (vec_items m.msgs)) (rows (vec_ptr m.datas) (vec_capacity m.datas) (vec_items m.datas)) };
}

impl Drop for Memory {
    fn drop(mut self) {
        self.clear();
        let Memory { msgs: _, datas } = self;
        give_back(datas);
    }
}

// Writes zeros over the bytes of data blocks.
fn wipe(nodes: &mut [DataNode])
    ensures { AreBlank nodes.new }
{
    for data in nodes {
        data.bytes = [0; 256];
    }
}

// Forgets data blocks, in whose bytes zeros stand alone.
fn forget(nodes: &mut Vec<DataNode>)
    requires { AreBlank nodes.old.items }
    ensures items { nodes.new.items ≡ [] }
    ensures capacity { vec_capacity nodes.new ≡ vec_capacity nodes.old }
{
    nodes.clear();
}

// Gives the memory of data blocks back, all of which were forgotten.
fn give_back(nodes: Vec<DataNode>)
    requires { nodes.items ≡ [] }
{
    drop(nodes);
}

impl Memory {
    /// Room for so many message blocks and data blocks, none of which is made.
    pub(crate) fn new(alloc: Global, mblks: usize, dblks: usize) -> Result<Memory, AllocError>
        ensures rows { IfOk result (λ m. m.rows ≡ []) }
        ensures datas { IfOk result (λ m. m.datas ≡ []) }
        ensures mblks { IfOk result (λ m. m.mblks ≡ mblks) }
        ensures dblks { IfOk result (λ m. m.dblks ≡ dblks) }
    {
        let datas = Vec::with_capacity(alloc, dblks)?;
        let msgs = Vec::with_capacity(alloc, mblks)?;
        Ok(Memory { msgs, datas })
    }

    /// Makes the next message block. It names the first data block, and is linked to no other.
    #[cold]
    pub(crate) fn make_message(&mut self) -> MsgLink
        requires room { length self.old.rows < self.old.mblks }
        requires few { self.old.mblks ≤ 65536 }
        requires data { 0 < length self.old.datas }
        ensures made { self.new ≡ record self.old { rows = self.old.rows ++ no_row ∷ [] } }
        ensures there { IsMsg self.old.mat (length self.old.rows + 1) result }
        ensures number { msg_number self.old.mat result ≡ length self.old.rows }
    {
        let index = self.msgs.len();
        let number = self.data_link(0);
        self.msgs.push_reserved(MsgNode {
            kind: MsgKind::Data,
            band: 0,
            name: index as u32,
            number,
            start: 0,
            end: 0,
            next: None,
            ahead: None,
            behind: None,
        });
        MsgLink {
            at: place_of(&self.msgs, self.msgs.as_ptr(), index),
        }
    }

    /// Makes the next data block. No message block names it.
    #[cold]
    pub(crate) fn make_data(&mut self) -> DataLink
        requires { length self.old.datas < self.old.dblks }
        ensures made { self.new ≡ record self.old { datas = self.old.datas ++ no_data ∷ [] } }
        ensures there { IsData self.old.dat (length self.old.datas + 1) result }
        ensures number { data_number self.old.dat result ≡ length self.old.datas }
    {
        let index = self.datas.len();
        self.datas.push_reserved(DataNode {
            next: None,
            references: 0,
            bytes: [0; 256],
        });
        DataLink {
            at: place_of(&self.datas, self.datas.as_ptr(), index),
        }
    }

    /// Writes zeros over the bytes of all data blocks, and forgets all nodes.
    pub(crate) fn clear(&mut self)
        ensures rows { self.new.rows ≡ [] }
        ensures datas { self.new.datas ≡ [] }
        ensures mblks { self.new.mblks ≡ self.old.mblks }
        ensures dblks { self.new.dblks ≡ self.old.dblks }
    {
        wipe(self.datas.as_mut_slice());
        forget(&mut self.datas);
        self.msgs.clear();
    }

    /// Where the message blocks begin, and where the data blocks do.
    pub(crate) fn begins(&self) -> (MsgLink, DataLink)
        ensures messages { result.0.at ≡ self.now.mat }
        ensures data { result.1.at ≡ self.now.dat }
    {
        let (message, datum) = (self.msgs.as_ptr(), self.datas.as_ptr());
        (
            MsgLink {
                at: message.cast_mut(),
            },
            DataLink {
                at: datum.cast_mut(),
            },
        )
    }

    /// How many message blocks and how many data blocks there is room for.
    pub(crate) fn room(&self) -> (usize, usize)
        ensures { result ≡ (self.now.mblks, self.now.dblks) }
    {
        (self.msgs.capacity(), self.datas.capacity())
    }

    /// How many message blocks are made.
    pub(crate) fn messages(&self) -> usize
        ensures { result ≡ length self.now.rows }
    {
        self.msgs.len()
    }

    /// Where a message block lies.
    pub(crate) fn message_link(&self, index: usize) -> MsgLink
        requires { index < length self.now.rows }
        ensures there { IsMsg self.now.mat (length self.now.rows) result }
        ensures number { msg_number self.now.mat result ≡ index }
    {
        MsgLink {
            at: place_of(&self.msgs, self.msgs.as_ptr(), index),
        }
    }

    /// Where a data block lies.
    pub(crate) fn data_link(&self, index: usize) -> DataLink
        requires { index < length self.now.datas }
        ensures there { IsData self.now.dat (length self.now.datas) result }
        ensures number { data_number self.now.dat result ≡ index }
    {
        DataLink {
            at: place_of(&self.datas, self.datas.as_ptr(), index),
        }
    }

    /// What stands in the message block to which a pointer leads.
    pub(crate) fn message(&self, at: MsgLink) -> MsgNode
        requires { IsMsg self.now.mat (length self.now.rows) at }
        ensures row { row_of self.now.mat self.now.dat result ≡ row_at (msg_number self.now.mat at) self.now.rows }
        ensures links { Fits self.now result }
        ensures name { result.name ≡ msg_number self.now.mat at }
    {
        *reach(&self.msgs, at.at)
    }

    /// Writes a message block, which keeps its own number.
    pub(crate) fn set_message(&mut self, at: MsgLink, node: MsgNode)
        requires there { IsMsg self.old.mat (length self.old.rows) at }
        requires links { Fits self.old node }
        requires name { node.name ≡ msg_number self.old.mat at }
        ensures { self.new ≡ with_row (msg_number self.old.mat at) (row_of self.old.mat self.old.dat node) self.old }
    {
        *reach_mut(&mut self.msgs, at.at) = node;
    }

    /// Lets a message block lead to another next one, or to none.
    pub(crate) fn set_next(&mut self, at: MsgLink, to: Option<MsgLink>)
        requires there { IsMsg self.old.mat (length self.old.rows) at }
        requires link { IsMsgOrNone self.old.mat (length self.old.rows) to }
        ensures { let i = msg_number self.old.mat at in
            self.new ≡ with_row i (record (row_at i self.old.rows) { next = option_map (msg_number self.old.mat) to }) self.old }
    {
        let node = reach_mut(&mut self.msgs, at.at);
        node.next = to;
    }

    /// Lets a list lead on from a message to another one, or to none.
    pub(crate) fn set_ahead(&mut self, at: MsgLink, to: Option<MsgLink>)
        requires there { IsMsg self.old.mat (length self.old.rows) at }
        requires link { IsMsgOrNone self.old.mat (length self.old.rows) to }
        ensures { let i = msg_number self.old.mat at in
            self.new ≡ with_row i (record (row_at i self.old.rows) { ahead = option_map (msg_number self.old.mat) to }) self.old }
    {
        let node = reach_mut(&mut self.msgs, at.at);
        node.ahead = to;
    }

    /// Lets a list lead back from a message to another one, or to none.
    pub(crate) fn set_behind(&mut self, at: MsgLink, to: Option<MsgLink>)
        requires there { IsMsg self.old.mat (length self.old.rows) at }
        requires link { IsMsgOrNone self.old.mat (length self.old.rows) to }
        ensures { let i = msg_number self.old.mat at in
            self.new ≡ with_row i (record (row_at i self.old.rows) { behind = option_map (msg_number self.old.mat) to }) self.old }
    {
        let node = reach_mut(&mut self.msgs, at.at);
        node.behind = to;
    }

    /// Lets a message block show bytes of a data block, with no next one.
    #[inline(always)]
    pub(crate) fn show(&mut self, at: MsgLink, shows: Shows)
        requires there { IsMsg self.old.mat (length self.old.rows) at }
        requires data { IsData self.old.dat (length self.old.datas) shows.number }
        ensures { let i = msg_number self.old.mat at in self.new ≡ with_row i (showing self.old.dat shows (row_at i self.old.rows)) self.old }
    {
        let node = reach_mut(&mut self.msgs, at.at);
        node.kind = shows.kind;
        node.band = shows.band;
        node.number = shows.number;
        node.start = shows.start;
        node.end = shows.end;
        node.next = None;
    }

    /// What stands in the data block to which a pointer leads.
    pub(crate) fn datum(&self, at: DataLink) -> &DataNode
        requires { IsData self.now.dat (length self.now.datas) at }
        ensures row { data_of self.now.dat result.now ≡ data_at (data_number self.now.dat at) self.now.datas }
        ensures link { IsDataOrNone self.now.dat (length self.now.datas) result.now.next }
        ensures sized { length result.now.bytes ≡ 256 }
    {
        reach(&self.datas, at.at)
    }

    /// Takes the last reference away from a data block, which gets another next one. Zeros are written over its bytes.
    pub(crate) fn wipe_datum(&mut self, at: DataLink, next: Option<DataLink>)
        requires there { IsData self.old.dat (length self.old.datas) at }
        requires link { IsDataOrNone self.old.dat (length self.old.datas) next }
        ensures { self.new ≡ with_data (data_number self.old.dat at)
            (record { next = option_map (data_number self.old.dat) next; references = 0; bytes = no_bytes }) self.old }
    {
        let node = reach_mut(&mut self.datas, at.at);
        node.references = 0;
        node.next = next;
        node.bytes = [0; 256];
    }

    /// Gives a data block so many references.
    pub(crate) fn set_references(&mut self, at: DataLink, references: u8)
        requires { IsData self.old.dat (length self.old.datas) at }
        ensures { let i = data_number self.old.dat at in
            self.new ≡ with_data i (record (data_at i self.old.datas) { references = references }) self.old }
    {
        let node = reach_mut(&mut self.datas, at.at);
        node.references = references;
    }

    /// Writes bytes into a data block, from a place on.
    pub(crate) fn write(&mut self, at: DataLink, from: usize, bytes: &[u8])
        requires there { IsData self.old.dat (length self.old.datas) at }
        requires room { from + length bytes.now ≤ 256 }
        ensures { let i = data_number self.old.dat at in let old = (data_at i self.old.datas).bytes in
            self.new ≡ with_data i (record (data_at i self.old.datas) { bytes = take from old ++ (bytes.now ++ drop (from + length bytes.now) old) }) self.old }
    {
        let node = reach_mut(&mut self.datas, at.at);
        node.bytes[from..from + bytes.len()].copy_from_slice(bytes);
    }
}
