//! How many bytes the parts of a message have.
ghost use Rattle.std.specs.Prelude.{◌≡◌, length};
ghost use Rattle.strm_blocks.specs.Blocks.{IsInHand, in_hand, token};
ghost use Rattle.strm_types.specs.Message.{cells_of, size_of};
ghost use Rattle.strm_msg.specs.Bytes.{bytes_of, control_blocks, data_blocks, data_bytes, length_of_part};
ghost use Rattle.strm_msg.specs.Messages.{message_of, IsChain};
ghost use Rattle.strm_msg.specs.Parted.{longer};

use strm_blocks::{Blocks, InHand, Visitor};
use strm_types::{Band, MsgKind};

/// How many bytes a message has, in all of its blocks.
pub fn message_size<B: Blocks>(store: &B, message: &InHand) -> usize
    requires { IsInHand (B.value store.now) (token message.now) }
    ensures bytes { result ≡ length (bytes_of (in_hand (B.value store.now) (token message.now))) }
    ensures message { IsChain (in_hand (B.value store.now) (token message.now)) →
        result ≡ size_of (message_of (in_hand (B.value store.now) (token message.now))) }
{
    store.summary(message).bytes
}

/// How many bytes of a message the ledgers count: all those of an M_DATA, M_PROTO or M_PCPROTO message, and none of another.
pub fn booked_size<B: Blocks>(store: &B, message: &InHand) -> usize
    requires in_hand { IsInHand (B.value store.now) (token message.now) }
    requires chain { IsChain (in_hand (B.value store.now) (token message.now)) }
    ensures { result ≡ length (cells_of (message_of (in_hand (B.value store.now) (token message.now)))) }
{
    store.audit();
    if store.kind(message, 0).is_data_kind() {
        message_size(store, message)
    } else {
        0
    }
}

// Adds up the parts of a message: the blocks at its front that are its control part, and its M_DATA blocks.
#[derive(Drop)]
struct PartSizes {
    in_front: bool,
    control: Option<usize>,
    body: Option<usize>,
}

// A length with the bytes of one more block.
fn longer(found: Option<usize>, bytes: &[u8]) -> Option<usize>
    ensures { result ≡ longer found bytes.now }
{
    Some(found.unwrap_or(0).saturating_add(bytes.len()))
}

impl Visitor for PartSizes {
    ghost use Rattle.std.specs.Prelude.{true};
    ghost use Rattle.strm_msg.specs.Parted.{parted};

    ghost after = { parted };

    ghost goes_on = { λ v. true };

    fn see(&mut self, _first: bool, kind: MsgKind, _band: Band, bytes: &[u8]) -> bool {
        self.in_front = self.in_front && kind.is_control_kind();
        if self.in_front {
            self.control = longer(self.control, bytes);
        }
        if kind.is_body_kind() {
            self.body = longer(self.body, bytes);
        }
        true
    }
}

fn part_sizes<B: Blocks>(store: &B, message: &InHand) -> PartSizes
    requires { IsInHand (B.value store.now) (token message.now) }
    ensures control { result.control ≡ length_of_part (control_blocks (in_hand (B.value store.now) (token message.now))) }
    ensures body { result.body ≡ length_of_part (data_blocks (in_hand (B.value store.now) (token message.now))) }
{
    store.audit();
    let mut sizes = PartSizes {
        in_front: true,
        control: None,
        body: None,
    };
    store.visit_message(message, &mut sizes);
    sizes
}

/// How many bytes the control part of a message has, nothing where no M_PROTO or M_PCPROTO block stands at its front.
pub fn control_len<B: Blocks>(store: &B, message: &InHand) -> Option<usize>
    requires { IsInHand (B.value store.now) (token message.now) }
    ensures { result ≡ length_of_part (control_blocks (in_hand (B.value store.now) (token message.now))) }
{
    part_sizes(store, message).control
}

/// How many bytes the data part of a message has, nothing where it has no M_DATA block.
pub fn data_len<B: Blocks>(store: &B, message: &InHand) -> Option<usize>
    requires { IsInHand (B.value store.now) (token message.now) }
    ensures { result ≡ length_of_part (data_blocks (in_hand (B.value store.now) (token message.now))) }
{
    part_sizes(store, message).body
}

/// How many bytes the M_DATA blocks of a message have, whatever stands between them: `msgdsize(9F)`.
pub fn msgdsize<B: Blocks>(store: &B, message: &InHand) -> usize
    requires { IsInHand (B.value store.now) (token message.now) }
    ensures { result ≡ length (data_bytes (in_hand (B.value store.now) (token message.now))) }
{
    data_len(store, message).unwrap_or(0)
}
