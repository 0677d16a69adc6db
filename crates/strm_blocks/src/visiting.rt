//! A visitor is told of the blocks of messages.
ghost use Rattle.std.specs.Prelude.{◌≡◌, ◌++◌, if◌then◌else◌, List, map, true};
ghost use Rattle.std.specs.List.{AllByRecursion};
ghost use Rattle.strm_blocks.specs.Outcomes.{SeenBlock, seen_in, seen_on, told};
ghost use Rattle.strm_blocks.specs.Table.{shown, chain_of, IsShown};

use crate::data::DataBlocks;
use crate::message::{Message, MessageBlock};
use crate::visitor::Visitor;
use std::collections::LinkedList;
use strm_types::Band;

/// Tells a visitor of the blocks of a message in their order, until it wants no more. Returns whether it wants to be told
/// of the next message.
pub(crate) fn tell_message<V: Visitor>(
    pool: &DataBlocks,
    blocks: &LinkedList<MessageBlock>,
    visitor: &mut V,
) -> bool
    requires { AllByRecursion (IsShown pool.now) blocks.now }
    ensures { (more : List SeenBlock) →
        told V.after V.goes_on visitor.old (seen_in true (map (shown pool.now.bytes) blocks.now) ++ more)
        ≡ (if result then told V.after V.goes_on visitor.new more else visitor.new) }
{
    let mut rest = blocks.iter();
    let mut first = true;
    while let Some(block) = rest.next() {
        let bytes = pool.shown(block.number, block.start, block.end);
        if !visitor.see(first, block.kind, Band(block.band), bytes) {
            return false;
        }
        first = false;
    }
    true
}

/// Tells a visitor of the blocks of messages in their order, until it wants no more.
pub(crate) fn tell_list<V: Visitor>(pool: &DataBlocks, list: &LinkedList<Message>, visitor: &mut V)
    requires { AllByRecursion (λ m. AllByRecursion (IsShown pool.now) m.blocks) list.now }
    ensures { visitor.new
        ≡ told V.after V.goes_on visitor.old (seen_on (map (chain_of pool.now.bytes) list.now)) }
{
    let mut rest = list.iter();
    while let Some(message) = rest.next() {
        if !tell_message(pool, &message.blocks, visitor) {
            return;
        }
    }
}
