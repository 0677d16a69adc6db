//! Messages that a driver makes, and what it reads of those that it has in hand.

ghost use Rattle.std.specs.Prelude.{◌≡◌, ◌≤◌, false, true, length};
ghost use Rattle.std.specs.Option.{option_to_list};
ghost use Rattle.strm_types.specs.Drivers.{reader_flush};
ghost use Rattle.strm_types.specs.Flush.{is_data_kind};
ghost use Rattle.strm_blocks.specs.Blocks.{token};
ghost use Rattle.strm_frame.specs.Hands.{HasRoom};
ghost use Rattle.strm_pty.specs.Does.{MadeOne, Makes};

use strm_blocks::{Blocks, InHand};
use strm_frame::Sent;
use strm_msg::from_bytes;
use strm_types::{Band, FlushAsked, MsgKind, Spot};

/// Makes a message of a kind without parts, of band 0, in one block.
pub fn make<B: Blocks>(store: &mut B, kind: MsgKind, bytes: &[u8]) -> InHand
    requires kind { is_data_kind kind ≡ false }
    requires few { length bytes.now ≤ 256 }
    requires room { HasRoom (B.value store.old) 1 }
    ensures { MadeOne (B.value store.old) (B.value store.new) (token result) kind bytes.now }
{
    let Ok(message) = from_bytes(store, kind, Band(0), bytes) else {
        unreachable!()
    };
    message
}

/// Makes an M_FLUSH for readers that goes to a spot, where a condition holds.
pub(crate) fn flush_to<B: Blocks>(
    store: &mut B,
    goes: bool,
    asked: FlushAsked,
    to: Spot,
) -> Option<Sent>
    requires { HasRoom (B.value store.old) 1 }
    ensures { Makes (B.value store.old) (B.value store.new) 1 (option_to_list result)
        (reader_flush goes asked to) }
{
    if goes {
        let message = make(store, MsgKind::Flush, asked.for_readers().as_slice());
        Some(Sent { to, message })
    } else {
        None
    }
}
