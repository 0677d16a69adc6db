//! Which blocks are of one kind, and blocks of another kind.
ghost use Rattle.std.specs.Prelude.{◌≡◌, ◌≤◌, ◌↔◌, IsTrue, length};
ghost use Rattle.strm_blocks.specs.Blocks.{IsInHand, in_hand, changed, token};
ghost use Rattle.strm_msg.specs.Retyped.{retyped};
ghost use Rattle.strm_msg.specs.Runs as runs;

use strm_blocks::{Blocks, InHand};
use strm_types::MsgKind;

/// Whether two kinds are one.
#[tactic(auto, unfolding(crate::specs::Runs::same_kind))]
pub(crate) fn same_kind(a: MsgKind, b: MsgKind) -> bool
    ensures same { result ≡ runs.same_kind a b }
    ensures one { IsTrue result ↔ (a ≡ b) }
{
    a.number() == b.number()
}

/// Gives the first `count` blocks of a message another kind (datab(9S): `db_type`). Their bytes and bands stay, and so do the
/// other blocks.
pub fn set_kinds<B: Blocks>(store: &mut B, message: &InHand, count: usize, kind: MsgKind)
    requires in_hand { IsInHand (B.value store.old) (token message.now) }
    requires within { count ≤ length (in_hand (B.value store.old) (token message.now)) }
    ensures { let chain = in_hand (B.value store.old) (token message.now) in
        B.value store.new ≡ changed (B.value store.old) (token message.now) (retyped count kind chain) }
{
    for at in 0..count {
        store.set_kind(message, at, kind);
    }
}
