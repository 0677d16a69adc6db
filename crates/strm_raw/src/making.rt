//! The free blocks that are given out next: of each kind the one freed last, or else one that was never used, which is made.
ghost use Rattle.std.specs.Prelude.{None, ◌≡◌, ◌<◌, ◌≤◌, length};
ghost use Rattle.strm_raw.specs.Made.{GivesMessage, GivesData};
ghost use Rattle.strm_raw.specs.Numbered.{IsMsg, IsMsgOrNone, IsData, IsDataOrNone};

use crate::data_nodes::DataLink;
use crate::ledger::Ledger;
use crate::memory::Memory;
use crate::msg_nodes::MsgLink;
use std::ptr::null_mut;

/// The message block that is given out next, where `first` is the one freed last.
#[inline(always)]
pub(crate) fn free_message(
    memory: &mut Memory,
    ledger: &mut Ledger,
    first: Option<MsgLink>,
) -> MsgLink
    requires first { IsMsgOrNone memory.old.mat (length memory.old.rows) first }
    requires room { first ≡ None → length memory.old.rows < memory.old.mblks }
    requires few { memory.old.mblks ≤ 65536 }
    requires data { 0 < length memory.old.datas }
    ensures given { GivesMessage memory.old memory.new ledger.old.roster ledger.new.roster first result }
    ensures there { IsMsg memory.new.mat (length memory.new.rows) result }
    ensures beside { memory.new ≡ record memory.old { rows = memory.new.rows } }
{
    let Some(at) = first else {
        let made = memory.make_message();
        ledger.note(made.at, null_mut(), 0, 0);
        return made;
    };
    at
}

/// The data block that is given out next, where `first` is the one freed last.
#[inline(always)]
pub(crate) fn free_data(
    memory: &mut Memory,
    ledger: &mut Ledger,
    first: Option<DataLink>,
) -> DataLink
    requires first { IsDataOrNone memory.old.dat (length memory.old.datas) first }
    requires room { first ≡ None → length memory.old.datas < memory.old.dblks }
    ensures given { GivesData memory.old memory.new ledger.old.roster ledger.new.roster first result }
    ensures there { IsData memory.new.dat (length memory.new.datas) result }
    ensures beside { memory.new ≡ record memory.old { datas = memory.new.datas } }
{
    let Some(at) = first else {
        let made = memory.make_data();
        ledger.note(null_mut(), made.at, 0, 0);
        return made;
    };
    at
}
