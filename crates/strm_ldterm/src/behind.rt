//! What goes behind the output that stands on the write queue (termio(7I): TCSETSW, TCSETSF; ldterm(7M)).

ghost use Rattle.std.specs.Prelude.{◌≡◌, ◌&&◌};
ghost use Rattle.strm_types.specs.Commands.{is_asked, sets_behind};
ghost use Rattle.strm_types.specs.Ioctls.{read_ioc};
ghost use Rattle.strm_types.specs.LdtermPuts.{goes_behind, waits_behind};
ghost use Rattle.strm_blocks.specs.Blocks.{IsInHand, in_hand, block_at, token};
ghost use Rattle.strm_msg.specs.Messages.{IsChain};
ghost use Rattle.strm_frame.specs.Outboxes.{message_in};

use strm_blocks::{Blocks, InHand};
use strm_frame::ioctls::{header_of, is_ioctl};
use strm_types::{MsgKind, TCSETSF, TCSETSW, Way};

// Whether a command waits until the output has gone.
fn sets_behind(command: u32) -> bool
    ensures { result ≡ sets_behind command }
{
    command == TCSETSW || command == TCSETSF
}

// Whether a message in hand is an M_IOCTL of such a command.
fn asks_behind<B: Blocks>(store: &B, kind: MsgKind, message: &InHand) -> bool
    requires in_hand { IsInHand (B.value store.now) (token message.now) }
    requires chain { IsChain (in_hand (B.value store.now) (token message.now)) }
    requires kind { kind ≡ (block_at 0 (in_hand (B.value store.now) (token message.now))).kind }
    ensures { let m = message_in (B.value store.now) (token message.now) in
        result ≡ (is_asked m && waits_behind (read_ioc m.plain)) }
{
    if !is_ioctl(kind) {
        return false;
    }
    match header_of(store, message) {
        None => false,
        Some(ioc) => sets_behind(ioc.command),
    }
}

/// Whether a message in hand goes behind the output that stands there: on its way down an M_IOCTL of TCSETSW or TCSETSF.
pub(crate) fn goes_behind<B: Blocks>(store: &B, way: Way, kind: MsgKind, message: &InHand) -> bool
    requires in_hand { IsInHand (B.value store.now) (token message.now) }
    requires chain { IsChain (in_hand (B.value store.now) (token message.now)) }
    requires kind { kind ≡ (block_at 0 (in_hand (B.value store.now) (token message.now))).kind }
    ensures { result ≡ goes_behind way (message_in (B.value store.now) (token message.now)) }
{
    match way {
        Way::Up => false,
        Way::Down => asks_behind(store, kind, message),
    }
}
