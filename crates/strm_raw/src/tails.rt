//! A message that hangs behind another one.
ghost use Rattle.std.specs.Prelude.{◌≡◌, ◌<◌, length};
ghost use Rattle.strm_blocks.specs.Blocks.{token};
ghost use Rattle.strm_raw.specs.Tails.{Hangs};

use crate::chains::last_link;
use crate::ledger::Ledger;
use crate::memory::Memory;
use std::ptr::null_mut;
use strm_blocks::InHand;

/// Hangs the second message behind the first. It takes a step for each block of the first.
pub(crate) fn hang(
    memory: &mut Memory,
    ledger: &mut Ledger,
    first: InHand,
    second: InHand,
) -> InHand
    requires first { token first < length memory.old.rows }
    requires second { token second < length memory.old.rows }
    ensures kept_name { token result ≡ token first }
    ensures hangs { Hangs memory.old memory.new ledger.old.roster ledger.new.roster (token first) (token second) }
{
    let head = memory.message_link(first.name() as usize);
    let behind = second.name() as usize;
    let next = memory.message_link(behind);
    let last = last_link(memory, head, memory.messages());
    memory.set_next(last, Some(next));
    ledger.note(head.at, null_mut(), behind, 0);
    first
}
