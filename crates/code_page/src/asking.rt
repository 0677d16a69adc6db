//! The M_IOCTL that sets the page, and its answers (streamio(7I): I_STR; STREAMS Programming Guide: M_IOCTL, M_IOCACK, M_IOCNAK).

ghost use Rattle.std.specs.Prelude.{◌≡◌, ◌≤◌, if◌then◌else◌, ℕ, length, Some, true};
ghost use Rattle.strm_types.specs.declared.limits.TheConstants.{SETTINGS_MAX};
ghost use Rattle.strm_types.specs.declared.rules.Fates.{Fates};
ghost use Rattle.strm_types.specs.Acks.{payload};
ghost use Rattle.strm_types.specs.Cells.{plain};
ghost use Rattle.strm_types.specs.Commands.{is_asked};
ghost use Rattle.strm_types.specs.Ioctls.{read_ioc};
ghost use Rattle.strm_blocks.specs.Blocks.{IsInHand, in_hand, token};
ghost use Rattle.strm_msg.specs.Messages.{IsChain};
ghost use Rattle.strm_frame.specs.Hands.{IsWide};
ghost use Rattle.strm_frame.specs.Outboxes.{message_in};
ghost use Rattle.strm_pty.specs.Beside.{MayPass};
ghost use Rattle.strm_own.specs.OwnPuts.{OwnPuts};
ghost use Rattle.code_page.specs.CodePages.{is_page, ours, page_command, page_of, page_puts};

use crate::{PAGE_SIZE, SETPAGE};
use strm_blocks::{Blocks, InHand};
use strm_frame::Outbox;
use strm_frame::ioctls::{header_of, is_ioctl};
use strm_msg::first_bytes;
use strm_pair::{Own, reply};
use strm_types::{Ioc, MsgKind, Spot, Way};

// How many bytes an M_IOCTL with a page has: its header in front.
const SETS: usize = 16 + PAGE_SIZE;

// One byte more, so that a longer payload is known.
const READ: usize = SETS + 1;

// The header of an M_IOCTL in hand with the module's command.
fn header_in<B: Blocks>(store: &B, message: &InHand) -> Option<Ioc>
    requires in_hand { IsInHand (B.value store.now) (token message.now) }
    requires chain { IsChain (in_hand (B.value store.now) (token message.now)) }
    ensures { let m = message_in (B.value store.now) (token message.now) in result ≡ page_command (is_asked m) (read_ioc m.plain) }
{
    if !is_ioctl(store.kind(message, 0)) {
        return None;
    }
    let ioc = header_of(store, message)?;
    if ioc.command == SETPAGE {
        Some(ioc)
    } else {
        None
    }
}

/// The header of a message in hand that asks the module: it comes down.
pub(crate) fn asked_of<B: Blocks>(store: &B, here: Spot, message: &InHand) -> Option<Ioc>
    requires in_hand { IsInHand (B.value store.now) (token message.now) }
    requires chain { IsChain (in_hand (B.value store.now) (token message.now)) }
    ensures { result ≡ ours here.way (message_in (B.value store.now) (token message.now)) }
{
    match here.way {
        Way::Down => header_in(store, message),
        Way::Up => None,
    }
}

// Sets the module to bytes.
fn set_to(own: &mut Own, page: &[u8])
    requires { length page.now ≤ SETTINGS_MAX }
    ensures { own.new ≡ record own.old { settings = page_of page.now } }
{
    own.set(page);
}

// Sets the module to the page that an M_IOCTL brings, and says whether it brings one.
fn set_page<B: Blocks>(own: &mut Own, store: &B, message: &InHand) -> bool
    requires in_hand { IsInHand (B.value store.now) (token message.now) }
    requires asked { is_asked (message_in (B.value store.now) (token message.now)) ≡ true }
    ensures page { result ≡ is_page (payload (message_in (B.value store.now) (token message.now)).plain) }
    ensures set { let given = payload (message_in (B.value store.now) (token message.now)).plain in
        own.new ≡ (if result then record own.old { settings = page_of given } else own.old) }
{
    let mut bytes = [0; READ];
    let count = first_bytes(store, message, &mut bytes);
    if count != SETS {
        return false;
    }
    set_to(own, &bytes[16..SETS]);
    true
}

/// Answers an M_IOCTL that asks the module.
pub(crate) fn answer<B: Blocks>(
    own: &mut Own,
    store: &mut B,
    here: Spot,
    ioc: Ioc,
    message: InHand,
) -> Outbox
    requires may { MayPass (B.value store.old) (token message) here }
    requires wide { IsWide true (B.value store.old) }
    requires asked { is_asked (message_in (B.value store.old) (token message)) ≡ true }
    ensures { (told : Fates) (most : ℕ) → OwnPuts (B.value store.old) (B.value store.new) own.new (token message) most result told told
        (page_puts (Some ioc) plain here (message_in (B.value store.old) (token message)) own.old) }
{
    if set_page(own, store, &message) {
        reply(store, here, MsgKind::Iocack, &ioc.acked().bytes(), message)
    } else {
        reply(
            store,
            here,
            MsgKind::Iocnak,
            &ioc.refused().bytes(),
            message,
        )
    }
}
