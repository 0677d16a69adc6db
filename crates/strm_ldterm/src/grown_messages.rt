//! Messages of data in hand to which bytes are added (linkb(9F); STREAMS Programming Guide, "Message Structure").

ghost use Rattle.std.specs.Prelude.{◌≡◌, ◌≤◌, length};
ghost use Rattle.strm_frame.specs.Hands.{HasRoom};
ghost use Rattle.strm_ldterm.specs.Stands.{IsData};
ghost use Rattle.strm_ldterm.specs.Grown.{Grown, Begins};
ghost use Rattle.strm_blocks.specs.Blocks.{token};

use strm_blocks::{Blocks, InHand};
use strm_msg::from_bytes;
use strm_types::{Band, MsgKind};

/// Makes an ordinary message of data of at most 256 bytes: M_DATA of band 0, in one block.
pub(crate) fn begin<B: Blocks>(store: &mut B, bytes: &[u8]) -> InHand
    requires few { length bytes.now ≤ 256 }
    requires room { HasRoom (B.value store.old) 1 }
    ensures { Begins (B.value store.old) (B.value store.new) (token result) bytes.now 1 }
{
    let Ok(message) = from_bytes(store, MsgKind::Data, Band(0), bytes) else {
        unreachable!()
    };
    message
}

// Adds at most 256 bytes to a message of data, in a block of their own.
fn hang<B: Blocks>(store: &mut B, message: InHand, bytes: &[u8]) -> InHand
    requires data { IsData (B.value store.old) (token message) }
    requires few { length bytes.now ≤ 256 }
    requires room { HasRoom (B.value store.old) 1 }
    ensures kept_name { token result ≡ token message }
    ensures grown { Grown (B.value store.old) (B.value store.new) (token message) bytes.now 1 }
{
    store.audit();
    let more = begin(store, bytes);
    store.link(message, more)
}

/// Adds at most 256 bytes to a message of data, as far as its last block has room for them, and the rest in a block that is linked. It
/// takes one block of each kind at most.
pub(crate) fn grow<B: Blocks>(store: &mut B, message: InHand, bytes: &[u8]) -> InHand
    requires data { IsData (B.value store.old) (token message) }
    requires few { length bytes.now ≤ 256 }
    requires room { HasRoom (B.value store.old) 1 }
    ensures kept_name { token result ≡ token message }
    ensures grown { Grown (B.value store.old) (B.value store.new) (token message) bytes.now 1 }
{
    store.audit();
    let taken = store.append(&message, bytes);
    if taken == bytes.len() {
        return message;
    }
    hang(store, message, &bytes[taken..])
}
