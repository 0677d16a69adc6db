//! What is taken up of an answer that comes up past the module: the termios that was set (ldterm(7M); termio(7I): TCSETS, TCSETSW, TCSETSF;
//! streamio(7I): I_SRDOPT).

ghost use Rattle.std.specs.Prelude.{◌≡◌, ◌<◌, ◌≤◌, ◌==◌, if◌then◌else◌, [], ◌∷◌, Some, false, true};
ghost use Rattle.std.specs.Option.{option_to_list};
ghost use Rattle.strm_types.specs.declared.limits.TheConstants.{MODULES};
ghost use Rattle.strm_types.specs.declared.names.Way.TheVariants.{Up};
ghost use Rattle.strm_types.specs.declared.rules.Fates.{Fates};
ghost use Rattle.strm_types.specs.declared.spots.Note.TheVariants.{Room};
ghost use Rattle.strm_types.specs.Commands.{is_acked, is_iocack};
ghost use Rattle.strm_types.specs.Budgets.{own_at};
ghost use Rattle.strm_types.specs.LdtermPuts.{goes_on, passes_on_way, told_by_header};
ghost use Rattle.strm_types.specs.Options.{mode_number, tostop_number};
ghost use Rattle.strm_types.specs.Tables.{ldterm_does};
ghost use Rattle.strm_types.specs.TakenUp.{ends_lines, input_flushed, read_mode_of, taken_up};
ghost use Rattle.strm_types.specs.Termios.{tostop};
ghost use Rattle.strm_blocks.specs.Blocks.{StoreValue, in_hand, block_at, token};
ghost use Rattle.strm_msg.specs.Messages.{IsChain};
ghost use Rattle.strm_frame.specs.Hands.{AreIn, CanPut, HasRoom};
ghost use Rattle.strm_frame.specs.declared.queue_pair.QueuePair.{QueuePair};
ghost use Rattle.strm_frame.specs.Outboxes.{message_in};
ghost use Rattle.strm_ldterm.specs.Does.{Proceeds, Puts};
ghost use Rattle.strm_ldterm.specs.Stands.{ldterm_in, keeps, IsHeld, Paired, paired};
ghost use Rattle.strm_ldterm.specs.TakingUp.{flush_takes, line_takes, termios_set};

use crate::flushes::flush_read;
use crate::ldterm::Ldterm;
use crate::puts::pass_on;
use crate::sending_keys::make_line;
use crate::signal_keys::send_up;
use arrayvec::ArrayVec;
use bitflags::Flags;
use strm_blocks::{Blocks, InHand};
use strm_frame::ioctls::{header_of, payload_of, sets_termios};
use strm_frame::{Acts, Outbox, QueuePair, Sent, note_if};
use strm_types::{Fates, FlushAsked, Ioc, LocalModes, MsgKind, Note, Spot, TCSETSF, Termios, Way};

// The read modes of a head, by their numbers (streamio(7I): I_SRDOPT): a stream of bytes, and a message a read.
const RNORM: u8 = 0;

const RMSGN: u8 = 2;

// Whether messages of a kind answer that a command was obeyed: M_IOCACK.
fn is_iocack(kind: MsgKind) -> bool
    ensures { result ≡ is_iocack kind }
{
    matches!(kind, MsgKind::Iocack)
}

// Whether a command flushes input: TCSETSF.
fn flushes_input(command: u32) -> bool
    ensures { result ≡ (command == TCSETSF) }
{
    command == TCSETSF
}

// Whether lines were made, and are made no longer.
fn ends_lines(old: &Termios, new: &Termios) -> bool
    ensures { result ≡ ends_lines old.now new.now }
{
    old.lflag.contains(LocalModes::ICANON) && !new.lflag.contains(LocalModes::ICANON)
}

// The number of the read mode that goes with a termios: where lines are made a read gives one of them.
fn mode_of(termios: &Termios) -> u8
    ensures { result ≡ mode_number (read_mode_of termios.now) }
{
    if termios.lflag.contains(LocalModes::ICANON) {
        RMSGN
    } else {
        RNORM
    }
}

// TOSTOP of a termios, as an M_SETOPTS has it.
fn tostop_of(termios: &Termios) -> u8
    ensures { result ≡ tostop_number (tostop termios.now) }
{
    u8::from(termios.lflag.contains(LocalModes::TOSTOP))
}

// A message goes on at once.
fn go_on(here: Spot, message: InHand) -> Acts
    requires inside { 0 < here.at }
    requires small { here.at ≤ MODULES }
    ensures { (s : StoreValue) (x : Paired) (f : Fates) → IsHeld s x → IsChain (in_hand s (token message)) →
        let m = message_in s (token message) in
        Puts s s x x (token message) (own_at ldterm_does here m) result f f (goes_on here m (ldterm_in s x)) }
{
    pass_on(here, ArrayVec::new(), message)
}

// TCSETSF: what waits to be read is flushed, with the line, and an M_FLUSH goes up. It says whether queues before have room again.
fn flush_input<B: Blocks>(
    ldterm: &mut Ldterm,
    queues: &mut QueuePair,
    store: &mut B,
    here: Spot,
    command: u32,
    told: &mut Fates,
) -> (bool, Option<Sent>)
    requires held { IsHeld (B.value store.old) (paired ldterm.old queues.old) }
    requires kept { AreIn (B.value store.old) (λ _. 0) (keeps (paired ldterm.old queues.old)) }
    requires inside { 0 < here.at }
    requires small { here.at ≤ MODULES }
    requires room { HasRoom (B.value store.old) 1 }
    ensures { let s = B.value store.old in
        Proceeds s (B.value store.new) (paired ldterm.old queues.old) (paired ldterm.new queues.new) (flush_takes command)
        (if result.0 then Room Up ∷ [] else []) (option_to_list result.1) told.old told.new
        (input_flushed here command (ldterm_in s (paired ldterm.old queues.old))) }
{
    if !flushes_input(command) {
        return (false, None);
    }
    let up_alone = FlushAsked {
        for_read: true,
        for_write: false,
        band: None,
    };
    store.audit();
    let room = flush_read(ldterm, queues, store, here, up_alone, told);
    store.audit();
    let flush = send_up(store, here, MsgKind::Flush, &[1]);
    (room, Some(flush))
}

// The termios is set. Where lines are made no longer the unfinished one goes up, unless it is empty.
fn set_termios<B: Blocks>(
    ldterm: &mut Ldterm,
    store: &mut B,
    here: Spot,
    termios: Termios,
) -> Option<Sent>
    requires inside { 0 < here.at }
    requires small { here.at ≤ MODULES }
    requires room { HasRoom (B.value store.old) (line_takes ldterm.old.line) }
    ensures { (q : QueuePair) (f : Fates) → let s = B.value store.old in let x = paired ldterm.old q in
        IsHeld s x → AreIn s (λ _. 0) (keeps x) →
        Proceeds s (B.value store.new) x (paired ldterm.new q) (line_takes ldterm.old.line) [] (option_to_list result) f f
        (termios_set here termios (ldterm_in s x)) }
{
    let ends = ends_lines(&ldterm.termios, &termios);
    ldterm.termios = termios;
    if !ends || ldterm.line.len() == 0 {
        return None;
    }
    let message = make_line(store, ldterm.line.bytes(), &[]);
    let _ = ldterm.line.clear();
    Some(Sent {
        to: here.toward(Way::Up),
        message,
    })
}

// The answer to a command that set a termios: with TCSETSF input is flushed, the termios is set, the head is told its read mode and
// TOSTOP, and the answer goes on.
fn take_up<B: Blocks>(
    ldterm: &mut Ldterm,
    queues: &mut QueuePair,
    store: &mut B,
    here: Spot,
    set: (u32, Termios),
    message: InHand,
    told: &mut Fates,
) -> Acts
    requires held { IsHeld (B.value store.old) (paired ldterm.old queues.old) }
    requires can_put { CanPut (B.value store.old) (token message) (keeps (paired ldterm.old queues.old)) }
    requires chain { IsChain (in_hand (B.value store.old) (token message)) }
    requires acked { is_acked (message_in (B.value store.old) (token message)) ≡ true }
    requires up { here.way ≡ Up }
    requires inside { 0 < here.at }
    requires small { here.at ≤ MODULES }
    requires room { HasRoom (B.value store.old) 2 }
    ensures { let s = B.value store.old in let m = message_in s (token message) in
        Puts s (B.value store.new) (paired ldterm.old queues.old) (paired ldterm.new queues.new) (token message) (own_at ldterm_does here m) result
        told.old told.new
        (taken_up here set.0 set.1 m (ldterm_in s (paired ldterm.old queues.old))) }
{
    store.audit();
    let (room, flush) = flush_input(ldterm, queues, store, here, set.0, told);
    store.audit();
    let line = set_termios(ldterm, store, here, set.1);
    store.audit();
    let mode = send_up(
        store,
        here,
        MsgKind::Setopts,
        &[mode_of(&set.1), tostop_of(&set.1)],
    );
    Acts {
        notes: note_if(room, Note::Room(Way::Up)),
        sent: Outbox {
            first: flush,
            second: line,
            third: Some(mode),
            fourth: Some(Sent {
                to: here.toward(Way::Up),
                message,
            }),
        },
    }
}

// An answer that comes up, by its header: the termios that a command set is taken up, where the answer has one.
fn obey<B: Blocks>(
    ldterm: &mut Ldterm,
    queues: &mut QueuePair,
    store: &mut B,
    here: Spot,
    ioc: Ioc,
    message: InHand,
    told: &mut Fates,
) -> Acts
    requires held { IsHeld (B.value store.old) (paired ldterm.old queues.old) }
    requires can_put { CanPut (B.value store.old) (token message) (keeps (paired ldterm.old queues.old)) }
    requires chain { IsChain (in_hand (B.value store.old) (token message)) }
    requires acked { is_acked (message_in (B.value store.old) (token message)) ≡ true }
    requires up { here.way ≡ Up }
    requires inside { 0 < here.at }
    requires small { here.at ≤ MODULES }
    requires room { HasRoom (B.value store.old) 2 }
    ensures { let s = B.value store.old in let m = message_in s (token message) in
        Puts s (B.value store.new) (paired ldterm.old queues.old) (paired ldterm.new queues.new) (token message) (own_at ldterm_does here m) result
        told.old told.new
        (told_by_header here (Some ioc) m (ldterm_in s (paired ldterm.old queues.old))) }
{
    store.audit();
    if !sets_termios(ioc.command) {
        return go_on(here, message);
    }
    let given = payload_of(store, &message);
    let Some(termios) = Termios::read(given.as_slice()) else {
        return go_on(here, message);
    };
    take_up(
        ldterm,
        queues,
        store,
        here,
        (ioc.command, termios),
        message,
        told,
    )
}

// What passes at once on its way up: an M_IOCACK is looked at.
fn pass_up<B: Blocks>(
    ldterm: &mut Ldterm,
    queues: &mut QueuePair,
    store: &mut B,
    here: Spot,
    kind: MsgKind,
    message: InHand,
    told: &mut Fates,
) -> Acts
    requires held { IsHeld (B.value store.old) (paired ldterm.old queues.old) }
    requires can_put { CanPut (B.value store.old) (token message) (keeps (paired ldterm.old queues.old)) }
    requires chain { IsChain (in_hand (B.value store.old) (token message)) }
    requires kind { kind ≡ (block_at 0 (in_hand (B.value store.old) (token message))).kind }
    requires up { here.way ≡ Up }
    requires inside { 0 < here.at }
    requires small { here.at ≤ MODULES }
    requires room { HasRoom (B.value store.old) (own_at ldterm_does here (message_in (B.value store.old) (token message))) }
    ensures { let s = B.value store.old in let m = message_in s (token message) in
        Puts s (B.value store.new) (paired ldterm.old queues.old) (paired ldterm.new queues.new) (token message) (own_at ldterm_does here m) result
        told.old told.new
        (passes_on_way Up here m (ldterm_in s (paired ldterm.old queues.old))) }
{
    store.audit();
    if !is_iocack(kind) {
        return go_on(here, message);
    }
    let Some(ioc) = header_of(store, &message) else {
        return go_on(here, message);
    };
    obey(ldterm, queues, store, here, ioc, message, told)
}

/// What passes at once. On its way up an M_IOCACK is looked at: it tells the termios that was set. It takes two blocks of each kind at most.
pub(crate) fn pass<B: Blocks>(
    ldterm: &mut Ldterm,
    queues: &mut QueuePair,
    store: &mut B,
    here: Spot,
    kind: MsgKind,
    message: InHand,
    told: &mut Fates,
) -> Acts
    requires held { IsHeld (B.value store.old) (paired ldterm.old queues.old) }
    requires can_put { CanPut (B.value store.old) (token message) (keeps (paired ldterm.old queues.old)) }
    requires chain { IsChain (in_hand (B.value store.old) (token message)) }
    requires kind { kind ≡ (block_at 0 (in_hand (B.value store.old) (token message))).kind }
    requires inside { 0 < here.at }
    requires small { here.at ≤ MODULES }
    requires room { HasRoom (B.value store.old) (own_at ldterm_does here (message_in (B.value store.old) (token message))) }
    ensures { let s = B.value store.old in let m = message_in s (token message) in
        Puts s (B.value store.new) (paired ldterm.old queues.old) (paired ldterm.new queues.new) (token message) (own_at ldterm_does here m) result
        told.old told.new
        (passes_on_way here.way here m (ldterm_in s (paired ldterm.old queues.old))) }
{
    match here.way {
        Way::Down => go_on(here, message),
        Way::Up => pass_up(ldterm, queues, store, here, kind, message, told),
    }
}
