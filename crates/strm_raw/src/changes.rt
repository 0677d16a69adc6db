//! What calls change of one block of a message.
ghost use Rattle.std.specs.Prelude.{◌≡◌, ◌<◌, ◌≤◌, ◌+◌, length};
ghost use Rattle.strm_blocks.specs.Blocks.{IsInHand, block_at, changed, in_hand, token, with_block};
ghost use Rattle.strm_raw.specs.Changes.{changed_by, node_by};

use crate::chains::block_link;
use crate::msg_nodes::MsgNode;
use crate::raw::RawStore;
use strm_blocks::InHand;
use strm_types::MsgKind;

/// What is changed: the read place is moved on by so many bytes, or the write place back, at most by all that are shown;
/// or the block gets another kind, or another band.
#[derive(Clone, Copy)]
pub(crate) enum Change {
    Head(usize),
    Tail(usize),
    Kind(MsgKind),
    Band(u8),
}

// A message block that shows so many bytes, changed.
#[inline(always)]
fn changed_node(node: MsgNode, shown: usize, change: Change) -> MsgNode
    requires straight { node.start + shown ≤ node.end }
    requires few { node.end ≤ 256 }
    ensures { result ≡ node_by change shown node }
{
    match change {
        Change::Head(n) => MsgNode {
            start: node.start + n.min(shown),
            ..node
        },
        Change::Tail(n) => MsgNode {
            end: node.end - n.min(shown),
            ..node
        },
        Change::Kind(kind) => MsgNode { kind, ..node },
        Change::Band(band) => MsgNode { band, ..node },
    }
}

impl RawStore {
    /// Changes block `at` of a message. It takes a step for each block before it.
    #[inline(always)]
    pub(crate) fn change(&mut self, message: &InHand, at: usize, change: Change)
        requires in_hand { IsInHand self.old (token message.now) }
        requires within { at < length (in_hand self.old (token message.now)) }
        ensures { let chain = in_hand self.old (token message.now) in
            self.new ≡ changed self.old (token message.now) (with_block at (changed_by change (block_at at chain)) chain) }
    {
        let first = self.memory.message_link(message.name() as usize);
        let link = block_link(&self.memory, first, at);
        let node = self.memory.message(link);
        let shown = self.memory.datum(node.number).bytes[node.start..node.end].len();
        self.memory
            .set_message(link, changed_node(node, shown, change));
    }
}
