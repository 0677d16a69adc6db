//! What is read of an ioctl message in hand: its header, and what stands behind it (streamio(7I): I_STR; sys/stream.h: `struct iocblk`).

ghost use Rattle.std.specs.Prelude.{◌≡◌, false, take};
ghost use Rattle.strm_types.specs.Acks.{payload};
ghost use Rattle.strm_types.specs.Commands.{is_ioctl, sets_termios};
ghost use Rattle.strm_types.specs.Flush.{is_data_kind};
ghost use Rattle.strm_types.specs.Ioctls.{read_ioc};
ghost use Rattle.strm_blocks.specs.Blocks.{IsInHand, in_hand, block_at, token};
ghost use Rattle.strm_frame.specs.Outboxes.{message_in};

use arrayvec::ArrayVec;
use strm_blocks::{Blocks, InHand};
use strm_msg::first_bytes;
use strm_types::{Ioc, MsgKind, TCSETS, TCSETSF, TCSETSW};

// The longest payload that a module looks at: that of a termios.
const LONGEST: usize = 35;

/// One byte more, so that a longer payload is known.
pub const PAYLOAD_READ: usize = LONGEST + 1;

/// Whether a message of a kind asks: M_IOCTL.
pub fn is_ioctl(kind: MsgKind) -> bool
    ensures { result ≡ is_ioctl kind }
{
    matches!(kind, MsgKind::Ioctl)
}

/// Whether a command sets the termios, at once, behind the output, or behind it with the input flushed.
pub fn sets_termios(command: u32) -> bool
    ensures { result ≡ sets_termios command }
{
    command == TCSETS || command == TCSETSW || command == TCSETSF
}

/// The header of an ioctl message in hand, if it has one.
pub fn header_of<B: Blocks>(store: &B, message: &InHand) -> Option<Ioc>
    requires in_hand { IsInHand (B.value store.now) (token message.now) }
    requires kind { is_data_kind (block_at 0 (in_hand (B.value store.now) (token message.now))).kind ≡ false }
    ensures { result ≡ read_ioc (message_in (B.value store.now) (token message.now)).plain }
{
    let mut bytes = [0; 16];
    let count = first_bytes(store, message, &mut bytes);
    Ioc::read(&bytes[..count])
}

/// The first 36 bytes of the payload of an ioctl message in hand, whichever blocks they stand in. A payload that a module takes has fewer.
pub fn payload_of<B: Blocks>(store: &B, message: &InHand) -> ArrayVec<u8, PAYLOAD_READ>
    requires in_hand { IsInHand (B.value store.now) (token message.now) }
    requires kind { is_data_kind (block_at 0 (in_hand (B.value store.now) (token message.now))).kind ≡ false }
    ensures { result.items ≡ take 36 (payload (message_in (B.value store.now) (token message.now)).plain) }
{
    let mut bytes = [0; 16 + PAYLOAD_READ];
    let count = first_bytes(store, message, &mut bytes);
    let mut payload = ArrayVec::new();
    if count > 16 {
        let bytes = &bytes[..count];
        payload.try_extend_from_slice(&bytes[16..]).unwrap();
    }
    payload
}
