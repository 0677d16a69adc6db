//! A visitor is told of the blocks of messages.
ghost use Rattle.std.specs.Prelude.{true, ℕ, ◌≡◌, ◌≤◌, ◌++◌, List, if◌then◌else◌, length, map};
ghost use Rattle.strm_blocks.specs.Outcomes.{SeenBlock, seen_in, seen_on, told};
ghost use Rattle.strm_raw.specs.Numbered.{IsMsg, IsMsgOrNone, msg_number, row_at};
ghost use Rattle.strm_raw.specs.Lists.{AreWhole, IsList};
ghost use Rattle.strm_raw.specs.Raw.{IsChain, askew, block_no, chain_of};
ghost use Rattle.strm_raw.specs.Roster.{Msg};

use crate::memory::Memory;
use crate::msg_nodes::MsgLink;
use crate::neighbours::Ends;
use strm_blocks::Visitor;
use strm_types::Band;

/// Tells a visitor of the blocks of a message in their order, until it wants no more. Returns whether it wants to be told
/// of the next message.
pub(crate) fn tell_message<V: Visitor>(memory: &Memory, first: MsgLink, visitor: &mut V) -> bool
    requires there { IsMsg memory.now.mat (length memory.now.rows) first }
    requires straight { (i : ℕ) → askew (row_at i memory.now.rows) ≡ 0 }
    ensures { (is : List ℕ) → IsChain memory.now.rows (msg_number memory.now.mat first) is → length is ≤ length memory.now.rows
        → (more : List SeenBlock)
        → told V.after V.goes_on visitor.old (seen_in true (map (block_no memory.now) is) ++ more)
        ≡ (if result then told V.after V.goes_on visitor.new more else visitor.new) }
{
    let mut link = first;
    let mut leads = true;
    let mut left = memory.messages();
    while left > 0 {
        let node = memory.message(link);
        let bytes = &memory.datum(node.number).bytes[node.start..node.end];
        if !visitor.see(leads, node.kind, Band(node.band), bytes) {
            return false;
        }
        let Some(next) = node.next else {
            return true;
        };
        link = next;
        leads = false;
        left -= 1;
    }
    true
}

/// Tells a visitor of the blocks of the messages of a list in their order, until it wants no more.
pub(crate) fn tell_list<V: Visitor>(memory: &Memory, ends: Ends, visitor: &mut V)
    requires there { IsMsgOrNone memory.now.mat (length memory.now.rows) ends.first }
    requires straight { (i : ℕ) → askew (row_at i memory.now.rows) ≡ 0 }
    ensures { (q : List Msg) → IsList memory.now ends q → AreWhole memory.now.rows q
        → visitor.new ≡ told V.after V.goes_on visitor.old (seen_on (map (chain_of memory.now) q)) }
{
    let mut at = ends.first;
    let mut left = memory.messages();
    while left > 0 {
        let Some(link) = at else {
            return;
        };
        if !tell_message(memory, link, visitor) {
            return;
        }
        at = memory.message(link).ahead;
        left -= 1;
    }
}
