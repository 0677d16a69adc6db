//! The store whose blocks are nodes in raw memory.
ghost use Rattle.std.specs.Prelude.{◌≡◌, ◌<◌, ◌≤◌, ◌^◌, ◌⊎◌, length, IfOk};
ghost use Rattle.strm_blocks.specs.Blocks.{IsInHand, token, in_hand, dropped, empty_store};
ghost use Rattle.strm_raw.specs.Raw.{GivesLast, GivesOne};
ghost use Rattle.strm_raw.specs.Numbered.{IsData, IsDataOrNone, data_at, data_number};

use crate::data_nodes::DataLink;
use crate::ledger::Ledger;
use crate::memory::Memory;
use crate::msg_nodes::MsgLink;
use crate::neighbours::{KeptEnds, NO_ENDS, keep};
use std::alloc::{AllocError, Global};
use std::marker::Model;
use std::ptr::null_mut;
use strm_blocks::InHand;
use strm_types::LISTS;

/// A store of message blocks and data blocks (STREAMS Programming Guide, "Message Structure"). Each block is a node, in
/// memory that is reserved when the store is made and given back when it is dropped: a message block leads to the next one
/// of its message by `b_cont` and to its data block, and a data block keeps `db_ref`, each link being a raw pointer. Blocks
/// that were freed are linked too, the one freed last first; where none is, the next node is made that was never used. A
/// message in hand is named by the number of its first block's node.
pub struct RawStore {
    pub(crate) memory: Memory,
    pub(crate) ends: [KeptEnds; LISTS],
    pub(crate) free_msg: Option<MsgLink>,
    pub(crate) free_data: Option<DataLink>,
    pub(crate) spare_m: usize,
    pub(crate) spare_d: usize,
    pub(crate) ledger: Ledger,
}

// Of its own, so that who owns one doesn't take it apart at each way out.
impl Drop for RawStore {
    fn drop(self) {
        let RawStore {
            memory: _,
            ends: _,
            free_msg: _,
            free_data: _,
            spare_m: _,
            spare_d: _,
            ledger: _,
        } = self;
    }
}

impl Model for RawStore {
    ghost use Rattle.strm_blocks.specs.Blocks.{StoreValue};

    ghost Value = { StoreValue };

    ghost use Rattle.strm_raw.specs.RawStore.{value_of, IsRawStore};

    ghost view = { value_of };

    ghost invariant = { IsRawStore };
}

impl RawStore {
    /// A store of so many message blocks and data blocks, from 1 to 65536 of each, with nothing in it. All memory is
    /// taken here, and `AllocError` says that it was refused. The cost is the same whatever the numbers: no block is made
    /// before it is used.
    pub fn new(alloc: Global, mblks: usize, dblks: usize) -> Result<RawStore, AllocError>
        requires some_mblks { 0 < mblks }
        requires few_mblks { mblks ≤ 65536 }
        requires some_dblks { 0 < dblks }
        requires few_dblks { dblks ≤ 65536 }
        ensures { IfOk result (λ s. s ≡ empty_store mblks dblks) }
    {
        let memory = Memory::new(alloc, mblks, dblks)?;
        let mut ledger = Ledger::new();
        let (message, datum) = memory.begins();
        ledger.note(message.at, datum.at, 0, 0);
        Ok(RawStore {
            memory,
            ends: [keep(NO_ENDS); LISTS],
            free_msg: None,
            free_data: None,
            spare_m: mblks,
            spare_d: dblks,
            ledger,
        })
    }

    /// Gives back a message of one block.
    pub(crate) fn free_one(&mut self, message: InHand)
        requires in_hand { IsInHand self.old (token message) }
        requires single { length (in_hand self.old (token message)) ≡ 1 }
        ensures { self.new ≡ dropped self.old (token message) }
    {
        let at = self.memory.message_link(message.name() as usize);
        let node = self.memory.message(at);
        release(
            &mut self.memory,
            &mut self.ledger,
            node.number,
            &mut self.free_data,
            &mut self.spare_d,
        );
        self.memory.set_next(at, self.free_msg);
        self.free_msg = Some(at);
        self.spare_m += 1;
        self.ledger.note(at.at, node.number.at, 0, 0);
    }
}

// Takes a reference away from a data block. Where it has no other it is the first free one, and its bytes are zeros.
fn release(
    memory: &mut Memory,
    ledger: &mut Ledger,
    number: DataLink,
    first: &mut Option<DataLink>,
    spare: &mut usize,
)
    requires there { IsData memory.old.dat (length memory.old.datas) number }
    requires first { IsDataOrNone memory.old.dat (length memory.old.datas) first.old }
    requires named { 0 < (data_at (data_number memory.old.dat number) memory.old.datas).references }
    requires few { spare.old < 2 ^ 63 }
    ensures { GivesLast memory.old memory.new ledger.old.roster ledger.new.roster number first.old first.new spare.old spare.new
        ⊎ GivesOne memory.old memory.new ledger.old.roster ledger.new.roster number first.old first.new spare.old spare.new }
{
    let references = memory.datum(number).references;
    if references == 1 {
        memory.wipe_datum(number, *first);
        ledger.note(null_mut(), number.at, 0, 0);
        *first = Some(number);
        *spare += 1;
        return;
    }
    memory.set_references(number, references - 1);
}
