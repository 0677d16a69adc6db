//! Keys that send a signal: INTR, QUIT and SUSP (termio(7I): "Special Characters", NOFLSH; STREAMS Programming Guide, M_PCSIG).

ghost use Rattle.std.specs.Prelude.{◌≡◌, ◌≤◌, ◌<◌, [], ◌∷◌, false, true, length};
ghost use Rattle.strm_types.specs.declared.kinds.MsgKind.TheVariants.{Pcsig};
ghost use Rattle.strm_types.specs.declared.limits.TheConstants.{MODULES};
ghost use Rattle.strm_types.specs.declared.names.Way.TheVariants.{Up};
ghost use Rattle.strm_types.specs.declared.rules.Fates.{Fates};
ghost use Rattle.strm_types.specs.declared.rules.Rule.TheVariants.{Flushed, SignalKey};
ghost use Rattle.strm_types.specs.Cells.{plain};
ghost use Rattle.strm_types.specs.Flush.{is_data_kind};
ghost use Rattle.strm_types.specs.Flushing.{flush_bytes, flush_message};
ghost use Rattle.strm_types.specs.Deliver.{onward};
ghost use Rattle.strm_types.specs.Ldterms.{sends};
ghost use Rattle.strm_types.specs.Termios.{noflsh};
ghost use Rattle.strm_types.specs.Typing.{bare, lost, signals, strikes};
ghost use Rattle.strm_frame.specs.Hands.{AreIn, HasRoom, Spends};
ghost use Rattle.strm_frame.specs.declared.queue_pair.QueuePair.{QueuePair};
ghost use Rattle.strm_frame.specs.Outboxes.{sent_of};
ghost use Rattle.strm_ldterm.specs.Does.{Proceeds};
ghost use Rattle.strm_ldterm.specs.SignalKeys.{sends_signal};
ghost use Rattle.strm_ldterm.specs.Stands.{ldterm_in, keeps, IsHeld, Paired, paired};

use crate::call_ends::send_gathered;
use crate::flushes::flush_line;
use crate::ldterm::Ldterm;
use crate::sending_keys::make;
use bitflags::Flags;
use strm_blocks::Blocks;
use strm_frame::{Outbox, Sent, direction_at};
use strm_types::{Fates, FlushAsked, Key, LocalModes, MsgKind, Rule, Spot, Termios, Way};

// The signals of the keys (signal.h).
const SIGINT: u8 = 2;

const SIGQUIT: u8 = 3;

const SIGTSTP: u8 = 24;

// Whether the line stays where a signal is sent.
fn keeps_line(termios: &Termios) -> bool
    ensures { result ≡ noflsh termios.now }
{
    termios.lflag.contains(LocalModes::NOFLSH)
}

/// Makes a message without parts that goes up.
pub(crate) fn send_up<B: Blocks>(store: &mut B, here: Spot, kind: MsgKind, bytes: &[u8]) -> Sent
    requires inside { 0 < here.at }
    requires small { here.at ≤ MODULES }
    requires room { HasRoom (B.value store.old) 1 }
    requires kind { is_data_kind kind ≡ false }
    requires few { length bytes.now ≤ 256 }
    ensures does { (x : Paired) (f : Fates) → let s = B.value store.old in IsHeld s x → AreIn s (λ _. 0) (keeps x) →
        Proceeds s (B.value store.new) x x 1 [] (result ∷ []) f f (sends (onward Up here (bare kind bytes.now) ∷ []) (ldterm_in s x)) }
    ensures spends { Spends (B.value store.old) (B.value store.new) 1 0 }
{
    let message = make(store, kind, bytes);
    Sent {
        to: here.toward(Way::Up),
        message,
    }
}

// The line is flushed, and an M_FLUSH goes up.
fn flush_typed<B: Blocks>(
    ldterm: &mut Ldterm,
    store: &mut B,
    here: Spot,
    asked: FlushAsked,
    told: &mut Fates,
) -> Sent
    requires inside { 0 < here.at }
    requires small { here.at ≤ MODULES }
    requires room { HasRoom (B.value store.old) 1 }
    ensures does { (q : QueuePair) → let s = B.value store.old in let x = paired ldterm.old q in let p = ldterm_in s x in
        IsHeld s x → AreIn s (λ _. 0) (keeps x) →
        Proceeds s (B.value store.new) x (paired ldterm.new q) 1 [] (result ∷ []) told.old told.new
        (record (sends (onward Up here (flush_message (flush_bytes asked)) ∷ []) (record p { line = [] }))
        { gone = lost plain here Flushed p.line }) }
    ensures spends { Spends (B.value store.old) (B.value store.new) 1 0 }
{
    store.audit();
    flush_line(ldterm, here, None, told);
    let bytes = asked.bytes();
    send_up(store, here, MsgKind::Flush, bytes.as_slice())
}

// The signal goes up, and the key is told.
fn send_key<B: Blocks>(store: &mut B, here: Spot, signal: u8, byte: u8, told: &mut Fates) -> Sent
    requires inside { 0 < here.at }
    requires small { here.at ≤ MODULES }
    requires room { HasRoom (B.value store.old) 1 }
    ensures { (x : Paired) → let s = B.value store.old in IsHeld s x → AreIn s (λ _. 0) (keeps x) →
        Proceeds s (B.value store.new) x x 1 [] (result ∷ []) told.old told.new
        (record (sends (onward Up here (bare Pcsig (signal ∷ [])) ∷ []) (ldterm_in s x)) { gone = lost plain here SignalKey (byte ∷ []) }) }
{
    let _ = byte;
    told.tell(direction_at(Way::Up, here.side), Rule::SignalKey, 1);
    send_up(store, here, MsgKind::Pcsig, &[signal])
}

// A signal key: what was gathered goes up first. Without NOFLSH the line is flushed, and an M_FLUSH goes up. The signal follows.
fn signal_with<B: Blocks>(
    ldterm: &mut Ldterm,
    store: &mut B,
    here: Spot,
    asked: FlushAsked,
    signal: u8,
    byte: u8,
    told: &mut Fates,
) -> Outbox
    requires inside { 0 < here.at }
    requires small { here.at ≤ MODULES }
    requires room { HasRoom (B.value store.old) 2 }
    ensures { (q : QueuePair) → let s = B.value store.old in let x = paired ldterm.old q in IsHeld s x → AreIn s (λ _. 0) (keeps x) →
        Proceeds s (B.value store.new) x (paired ldterm.new q) 2 [] (sent_of result) told.old told.new
        (signals plain here asked signal byte (ldterm_in s x)) }
{
    let keeps = keeps_line(&ldterm.termios);
    let first = send_gathered(ldterm, here);
    store.audit();
    if keeps {
        let second = Some(send_key(store, here, signal, byte, told));
        return Outbox {
            first,
            second,
            third: None,
            fourth: None,
        };
    }
    let second = Some(flush_typed(ldterm, store, here, asked, told));
    store.audit();
    let third = Some(send_key(store, here, signal, byte, told));
    Outbox {
        first,
        second,
        third,
        fourth: None,
    }
}

/// INTR, QUIT or SUSP: what was gathered goes up first. Without NOFLSH the line is flushed, and an M_FLUSH goes up, of both ways for
/// INTR and QUIT and of what was typed for SUSP. The M_PCSIG follows. It takes two blocks at most.
pub(crate) fn signal<B: Blocks>(
    ldterm: &mut Ldterm,
    store: &mut B,
    here: Spot,
    key: Key,
    byte: u8,
    told: &mut Fates,
) -> Outbox
    requires inside { 0 < here.at }
    requires small { here.at ≤ MODULES }
    requires room { HasRoom (B.value store.old) 2 }
    requires key { sends_signal key ≡ true }
    ensures { (q : QueuePair) → let s = B.value store.old in let x = paired ldterm.old q in IsHeld s x → AreIn s (λ _. 0) (keeps x) →
        Proceeds s (B.value store.new) x (paired ldterm.new q) 2 [] (sent_of result) told.old told.new
        (strikes plain here key byte (ldterm_in s x)) }
{
    let both_ways = FlushAsked {
        for_read: true,
        for_write: true,
        band: None,
    };
    match key {
        Key::Intr => signal_with(ldterm, store, here, both_ways, SIGINT, byte, told),
        Key::Quit => signal_with(ldterm, store, here, both_ways, SIGQUIT, byte, told),
        Key::Susp => {
            let up_alone = FlushAsked {
                for_read: true,
                for_write: false,
                band: None,
            };
            signal_with(ldterm, store, here, up_alone, SIGTSTP, byte, told)
        }
        _ => unreachable!(),
    }
}
