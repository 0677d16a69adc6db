//! The module ptem: the ioctls of a terminal on a pseudoterminal (ptem(7M), termio(7I)).

ghost use Rattle.std.specs.Prelude.{◌≡◌, ◌<◌, ◌≤◌, drop, true};
ghost use Rattle.strm_types.specs.declared.limits.TheConstants.{MODULES};
ghost use Rattle.strm_types.specs.declared.names.Way.TheVariants.{Up, Down};
ghost use Rattle.strm_types.specs.Acks.{payload};
ghost use Rattle.strm_types.specs.Budgets.{own_at};
ghost use Rattle.strm_types.specs.Ptems.{acks, asked_above, asked_below, new_ptem};
ghost use Rattle.strm_types.specs.Ptems.{ptem_passes, ptem_puts, signal_told, termios_set, window_set, window_told};
ghost use Rattle.strm_types.specs.Signals.{signal_in};
ghost use Rattle.strm_types.specs.Tables.{ptem_does};
ghost use Rattle.strm_types.specs.Termios.{read_termios, termios_bytes};
ghost use Rattle.strm_types.specs.Winsizes.{read_winsize, winsize_bytes};
ghost use Rattle.strm_types.specs.Message.{is_held};
ghost use Rattle.strm_blocks.specs.Blocks.{IsInHand, in_hand, token};
ghost use Rattle.strm_msg.specs.Messages.{IsChain};
ghost use Rattle.strm_queue.specs.Stored.{FreesNone};
ghost use Rattle.strm_frame.specs.Hands.{HasRoom};
ghost use Rattle.strm_frame.specs.Outboxes.{message_in, sent_of};
ghost use Rattle.strm_pty.specs.Beside.{MayAnswer, MayPass, Puts, ptem_in};
ghost use Rattle.strm_pty.specs.Shares.{BothCarry, CanPart};

use crate::replies::{ack, confirm, hear, nak, raise};
use arrayvec::ArrayVec;
use strm_blocks::{Blocks, InHand};
use strm_frame::ioctls::{header_of, is_ioctl, payload_of, sets_termios};
use strm_frame::{Acts, Outbox, Sent};
use strm_types::{
    Ioc, Spot, TCGETS, TIOCGWINSZ, TIOCSIGNAL, TIOCSWINSZ, Termios, Way, Winsize, signal_in,
};

/// What the terminal is set to. It keeps no messages, and no lists of a store are its own.
#[derive(Clone, Copy, Drop)]
pub struct Ptem {
    pub termios: Termios,
    /// The size of the terminal's window.
    pub window: Winsize,
}

impl Ptem {
    /// The module as it is pushed.
    pub fn new() -> Ptem
        ensures { ptem_in result ≡ new_ptem }
    {
        Ptem {
            termios: Termios::new(),
            window: Winsize::new(),
        }
    }
}

// Sends a message on to the next place.
fn pass_on<B: Blocks>(ptem: &Ptem, store: &B, here: Spot, message: InHand) -> Acts
    requires { MayPass (B.value store.now) (token message) here }
    ensures { let s = B.value store.now in Puts s s ptem.now ptem.now (token message) here result (ptem_passes here) }
{
    let _ = ptem;
    let _ = store;
    Acts {
        notes: ArrayVec::new(),
        sent: Outbox::one(Sent {
            to: here.toward(here.way),
            message,
        }),
    }
}

// TCGETS: the termios is told.
fn tell_termios<B: Blocks>(
    ptem: &Ptem,
    store: &mut B,
    here: Spot,
    ioc: Ioc,
    message: InHand,
) -> Acts
    requires { MayAnswer (B.value store.old) (token message) here Down }
    ensures { Puts (B.value store.old) (B.value store.new) ptem.now ptem.now (token message) here result
        (λ m. acks Up here ioc (termios_bytes ptem.now.termios)) }
{
    let bytes = ptem.termios.bytes();
    ack(store, here, ioc, &bytes, message)
}

// TIOCGWINSZ: the size of the window is told.
fn tell_window<B: Blocks>(ptem: &Ptem, store: &mut B, here: Spot, ioc: Ioc, message: InHand) -> Acts
    requires { MayAnswer (B.value store.old) (token message) here Down }
    ensures { Puts (B.value store.old) (B.value store.new) ptem.now ptem.now (token message) here result
        (λ m. acks Up here ioc (winsize_bytes ptem.now.window)) }
{
    let bytes = ptem.window.bytes();
    ack(store, here, ioc, &bytes, message)
}

// TCSETS, TCSETSW, TCSETSF: the termios is set.
fn set_termios<B: Blocks>(
    ptem: &mut Ptem,
    store: &mut B,
    here: Spot,
    ioc: Ioc,
    message: InHand,
) -> Acts
    requires { MayAnswer (B.value store.old) (token message) here Down }
    ensures does { Puts (B.value store.old) (B.value store.new) ptem.old ptem.new (token message) here result
        (λ m. let given = payload m.plain in termios_set here ioc given (read_termios given)) }
    ensures shared { let s = B.value store.old in CanPart s (token message) →
        BothCarry (B.value store.new) (drop 1 (in_hand s (token message))) (sent_of result.sent) }
{
    let given = payload_of(store, &message);
    let Some(termios) = Termios::read(given.as_slice()) else {
        return nak(store, here, Way::Up, ioc, message);
    };
    ptem.termios = termios;
    let windows = (ptem.window, ptem.window);
    confirm(store, here, ioc, given.as_slice(), windows, message)
}

// TIOCSWINSZ from above: the size of the window is set.
fn set_window<B: Blocks>(
    ptem: &mut Ptem,
    store: &mut B,
    here: Spot,
    ioc: Ioc,
    message: InHand,
) -> Acts
    requires { MayAnswer (B.value store.old) (token message) here Down }
    ensures does { Puts (B.value store.old) (B.value store.new) ptem.old ptem.new (token message) here result
        (λ m. let given = payload m.plain in window_set here ioc given (read_winsize given)) }
    ensures shared { let s = B.value store.old in CanPart s (token message) →
        BothCarry (B.value store.new) (drop 1 (in_hand s (token message))) (sent_of result.sent) }
{
    let given = payload_of(store, &message);
    let Some(window) = Winsize::read(given.as_slice()) else {
        return nak(store, here, Way::Up, ioc, message);
    };
    let windows = (ptem.window, window);
    ptem.window = window;
    confirm(store, here, ioc, given.as_slice(), windows, message)
}

// TIOCSWINSZ from below: the other side has set the size of the window.
fn hear_window<B: Blocks>(
    ptem: &mut Ptem,
    store: &mut B,
    here: Spot,
    ioc: Ioc,
    message: InHand,
) -> Acts
    requires { MayAnswer (B.value store.old) (token message) here Up }
    ensures { Puts (B.value store.old) (B.value store.new) ptem.old ptem.new (token message) here result
        (λ m. window_told here ioc (read_winsize (payload m.plain))) }
{
    let given = payload_of(store, &message);
    let Some(window) = Winsize::read(given.as_slice()) else {
        return nak(store, here, Way::Down, ioc, message);
    };
    let windows = (ptem.window, window);
    ptem.window = window;
    hear(store, here, ioc, windows, message)
}

// TIOCSIGNAL from below: the other side has sent a signal.
fn hear_signal<B: Blocks>(ptem: &Ptem, store: &mut B, here: Spot, ioc: Ioc, message: InHand) -> Acts
    requires { MayAnswer (B.value store.old) (token message) here Up }
    ensures { Puts (B.value store.old) (B.value store.new) ptem.now ptem.now (token message) here result
        (λ m. signal_told here ioc (signal_in (payload m.plain))) }
{
    let given = payload_of(store, &message);
    match signal_in(given.as_slice()) {
        None => nak(store, here, Way::Down, ioc, message),
        Some(signal) => raise(store, here, ioc, signal, message),
    }
}

// An M_IOCTL that comes down, by its command.
fn put_above<B: Blocks>(
    ptem: &mut Ptem,
    store: &mut B,
    here: Spot,
    ioc: Ioc,
    message: InHand,
) -> Acts
    requires { MayAnswer (B.value store.old) (token message) here Down }
    ensures does { Puts (B.value store.old) (B.value store.new) ptem.old ptem.new (token message) here result
        (λ m. asked_above here ioc (payload m.plain) m) }
    ensures shared { let s = B.value store.old in CanPart s (token message) →
        BothCarry (B.value store.new) (drop 1 (in_hand s (token message))) (sent_of result.sent) }
{
    if ioc.command == TCGETS {
        return tell_termios(ptem, store, here, ioc, message);
    }
    if ioc.command == TIOCGWINSZ {
        return tell_window(ptem, store, here, ioc, message);
    }
    if sets_termios(ioc.command) {
        return set_termios(ptem, store, here, ioc, message);
    }
    if ioc.command == TIOCSWINSZ {
        return set_window(ptem, store, here, ioc, message);
    }
    pass_on(ptem, store, here, message)
}

// An M_IOCTL that comes up from the other side, by its command.
fn put_below<B: Blocks>(
    ptem: &mut Ptem,
    store: &mut B,
    here: Spot,
    ioc: Ioc,
    message: InHand,
) -> Acts
    requires { MayAnswer (B.value store.old) (token message) here Up }
    ensures { Puts (B.value store.old) (B.value store.new) ptem.old ptem.new (token message) here result
        (λ m. asked_below here ioc (payload m.plain) m) }
{
    if ioc.command == TIOCSWINSZ {
        return hear_window(ptem, store, here, ioc, message);
    }
    if ioc.command == TIOCSIGNAL {
        return hear_signal(ptem, store, here, ioc, message);
    }
    pass_on(ptem, store, here, message)
}

/// Puts a message in hand here, on its way up or down, and says what it does: `put(9E)`.
///
/// An M_IOCTL that comes down is answered up: TCGETS and TIOCGWINSZ with what the terminal is set to, TCSETS, TCSETSW, TCSETSF and
/// TIOCSWINSZ with what they set, of which an M_IOCTL of number 0 then tells the other side. One that comes up from there is answered down:
/// TIOCSWINSZ sets the window, and TIOCSIGNAL sends a signal up. Where the window changed, SIGWINCH goes up. A payload of another length than
/// 35, 8 or 1 bytes, or no signal from 1 to 31, is answered with M_IOCNAK, EINVAL. All else goes on.
///
/// It takes three blocks of each kind at most for an M_IOCTL that comes down, two for one that comes up, and none for others. The cost is a step for
/// each block of the message.
pub fn put<B: Blocks>(ptem: &mut Ptem, store: &mut B, here: Spot, message: InHand) -> Acts
    requires in_hand { IsInHand (B.value store.old) (token message) }
    requires chain { IsChain (in_hand (B.value store.old) (token message)) }
    requires room { let s = B.value store.old in HasRoom s (own_at ptem_does here (message_in s (token message))) }
    requires inside { 0 < here.at }
    requires small { here.at ≤ MODULES }
    ensures does { Puts (B.value store.old) (B.value store.new) ptem.old ptem.new (token message) here result
        (ptem_puts here) }
    ensures blocks { is_held (message_in (B.value store.old) (token message)).kind ≡ true → FreesNone (B.value store.old) (B.value store.new) }
    ensures shared { let s = B.value store.old in here.way ≡ Down → CanPart s (token message) →
        BothCarry (B.value store.new) (drop 1 (in_hand s (token message))) (sent_of result.sent) }
{
    store.audit();
    let kind = store.kind(&message, 0);
    if !is_ioctl(kind) {
        return pass_on(ptem, store, here, message);
    }
    let Some(ioc) = header_of(store, &message) else {
        return pass_on(ptem, store, here, message);
    };
    match here.way {
        Way::Down => put_above(ptem, store, here, ioc, message),
        Way::Up => put_below(ptem, store, here, ioc, message),
    }
}
