//! A payload that two messages show over one data block (dupb(9F); STREAMS Programming Guide, "Message Structure").

ghost use Rattle.std.specs.Prelude.{◌≡◌, ◌<◌, ◌≤◌, ◌++◌, MatchResult, drop, false, length, [], ◌∷◌};
ghost use Rattle.strm_types.specs.declared.names.Way.TheVariants.{Up, Down};
ghost use Rattle.strm_types.specs.Acks.{ack_message, telling_message};
ghost use Rattle.strm_types.specs.Flush.{is_data_kind};
ghost use Rattle.strm_types.specs.Deliver.{onward};
ghost use Rattle.strm_types.specs.Typing.{bare};
ghost use Rattle.strm_blocks.specs.Blocks.{IsInHand, in_hand, token};
ghost use Rattle.strm_msg.specs.Bytes.{bytes_of};
ghost use Rattle.strm_frame.specs.Hands.{HasRoom};
ghost use Rattle.strm_pty.specs.Does.{Swaps};
ghost use Rattle.strm_pty.specs.Shares.{AreShared, BothCarry, Parts, SendsBoth, Unparted};

use strm_blocks::{Blocks, InHand};
use strm_frame::Sent;
use strm_types::{Band, Ioc, MsgKind, Spot, Way};

const HEADER_SIZE: usize = 16;

/// Parts a message of two blocks whose first one has 16 bytes, as the header of an ioctl: that block goes, and the other one is there twice,
/// over one data block. A message of another shape comes back as it is, and so does one of whose payload no more message blocks may be made.
pub(crate) fn part<B: Blocks>(store: &mut B, message: InHand) -> Result<(InHand, InHand), InHand>
    requires { IsInHand (B.value store.old) (token message) }
    ensures { let s = B.value store.old in MatchResult result
        (λ both. Parts s (B.value store.new) (token message) (token both.0) (token both.1))
        (λ same. Unparted s (B.value store.new) (token message) (token same)) }
{
    store.audit();
    if store.blocks(&message) != 2 || store.block_len(&message, 0) != HEADER_SIZE {
        return Err(message);
    }
    let Ok(copy) = store.dup(&message, 1) else {
        return Err(message);
    };
    let (header, behind) = store.unlink(message);
    let Some(payload) = behind else {
        unreachable!()
    };
    store.audit();
    store.free(header);
    Ok((payload, copy))
}

/// Sends a message in hand on, behind a block of a kind without parts, whose kind it has then.
pub fn send_behind<B: Blocks>(
    store: &mut B,
    here: Spot,
    way: Way,
    kind: MsgKind,
    header: &[u8],
    message: InHand,
) -> Sent
    requires in_hand { IsInHand (B.value store.old) (token message) }
    requires kind { is_data_kind kind ≡ false }
    requires few { length header.now ≤ 256 }
    requires room { HasRoom (B.value store.old) 1 }
    requires inside { 0 < here.at }
    requires small { here.at < 255 }
    ensures swaps { let s = B.value store.old in Swaps s (B.value store.new) (token message) 1 (result ∷ [])
        (onward way here (bare kind (header.now ++ bytes_of (in_hand s (token message)))) ∷ []) }
    ensures carries { drop 1 (in_hand (B.value store.new) (token result.message)) ≡ in_hand (B.value store.old) (token message) }
{
    let Ok(front) = store.alloc_with(kind, Band(0), header) else {
        unreachable!()
    };
    store.audit();
    let message = store.link(front, message);
    Sent {
        to: here.toward(way),
        message,
    }
}

/// Answers an M_IOCTL with its payload, and tells the other side of it by an M_IOCTL of number 0 with the same payload, which is in hand twice.
pub(crate) fn share<B: Blocks>(
    store: &mut B,
    here: Spot,
    ioc: Ioc,
    both: (InHand, InHand),
) -> (Sent, Sent)
    requires shared { AreShared (B.value store.old) (token both.0) (token both.1) }
    requires room { HasRoom (B.value store.old) 2 }
    requires inside { 0 < here.at }
    requires small { here.at < 255 }
    ensures sends { SendsBoth (B.value store.old) (B.value store.new) (token both.0) (token both.1) (result.0 ∷ result.1 ∷ []) (let given = bytes_of (in_hand (B.value store.old) (token both.0)) in
        onward Up here (ack_message ioc given) ∷ onward Down here (telling_message ioc given) ∷ []) }
    ensures carries { BothCarry (B.value store.new) (in_hand (B.value store.old) (token both.0)) (result.0 ∷ result.1 ∷ []) }
{
    let answer = ioc.acked().bytes();
    let first = send_behind(store, here, Way::Up, MsgKind::Iocack, &answer, both.0);
    store.audit();
    let telling = Ioc::asking(ioc.command, 0).bytes();
    let second = send_behind(store, here, Way::Down, MsgKind::Ioctl, &telling, both.1);
    (first, second)
}
