//! Keys that send: STOP, EOF and what ends a line (termio(7I): "Special Characters"; ldterm(7M)).

ghost use Rattle.std.specs.Prelude.{◌≡◌, ◌≤◌, ◌<◌, ◌+◌, false, length, [], ◌++◌};
ghost use Rattle.strm_types.specs.declared.keys.Key.TheVariants.{Eof, Delimiter};
ghost use Rattle.strm_types.specs.declared.limits.TheConstants.{MODULES};
ghost use Rattle.strm_types.specs.declared.rules.Fates.{Fates};
ghost use Rattle.strm_types.specs.Cells.{plain};
ghost use Rattle.strm_types.specs.Flush.{is_data_kind};
ghost use Rattle.strm_types.specs.Message.{data_message};
ghost use Rattle.strm_types.specs.Typing.{bare, line_sent, stops, strikes};
ghost use Rattle.strm_frame.specs.Hands.{AreIn, HasRoom};
ghost use Rattle.strm_frame.specs.declared.queue_pair.QueuePair.{QueuePair};
ghost use Rattle.strm_frame.specs.Outboxes.{sent_of};
ghost use Rattle.strm_ldterm.specs.Does.{Proceeds};
ghost use Rattle.strm_ldterm.specs.Sending.{MadeOne};
ghost use Rattle.strm_ldterm.specs.Stands.{ldterm_in, keeps, IsHeld, paired};
ghost use Rattle.strm_blocks.specs.Blocks.{token};

use crate::ldterm::Ldterm;
use strm_blocks::{Blocks, InHand};
use strm_frame::{Outbox, Sent, direction_at};
use strm_msg::from_bytes;
use strm_types::{Band, Fates, MsgKind, Rule, Spot, Way};

/// Makes a message of a kind without parts, of band 0, of at most 256 bytes, in one block.
pub(crate) fn make<B: Blocks>(store: &mut B, kind: MsgKind, bytes: &[u8]) -> InHand
    requires kind { is_data_kind kind ≡ false }
    requires few { length bytes.now ≤ 256 }
    requires room { HasRoom (B.value store.old) 1 }
    ensures { MadeOne (B.value store.old) (B.value store.new) (token result) (bare kind bytes.now) }
{
    let Ok(message) = from_bytes(store, kind, Band(0), bytes) else {
        unreachable!()
    };
    message
}

/// Makes an M_DATA of band 0 of a line and what ends it, in one block. Each byte is copied once.
pub(crate) fn make_line<B: Blocks>(store: &mut B, line: &[u8], ending: &[u8]) -> InHand
    requires few { length line.now + length ending.now ≤ 256 }
    requires room { HasRoom (B.value store.old) 1 }
    ensures { MadeOne (B.value store.old) (B.value store.new) (token result) (data_message (line.now ++ ending.now)) }
{
    let Ok(message) = store.alloc_with(MsgKind::Data, Band(0), line) else {
        unreachable!()
    };
    let _ = store.append(&message, ending);
    message
}

/// STOP: output is stopped, and an M_STOP goes down, unless it was stopped already. It takes a block at most.
pub fn stop<B: Blocks>(
    ldterm: &mut Ldterm,
    store: &mut B,
    here: Spot,
    byte: u8,
    told: &mut Fates,
) -> Outbox
    requires inside { 0 < here.at }
    requires small { here.at ≤ MODULES }
    requires room { HasRoom (B.value store.old) 1 }
    ensures { (q : QueuePair) → let s = B.value store.old in let x = paired ldterm.old q in IsHeld s x → AreIn s (λ _. 0) (keeps x) →
        Proceeds s (B.value store.new) x (paired ldterm.new q) 1 [] (sent_of result) told.old told.new
        (stops plain here byte (ldterm_in s x)) }
{
    let _ = byte;
    told.tell(direction_at(Way::Up, here.side), Rule::FlowKey, 1);
    if ldterm.stopped {
        return Outbox::none();
    }
    ldterm.stopped = true;
    let message = make(store, MsgKind::Stop, &[]);
    Outbox::one(Sent {
        to: here.toward(Way::Down),
        message,
    })
}

// The line goes up with what ends it, at most a byte, and is empty then.
fn send_line<B: Blocks>(ldterm: &mut Ldterm, store: &mut B, here: Spot, ending: &[u8]) -> Outbox
    requires inside { 0 < here.at }
    requires small { here.at ≤ MODULES }
    requires room { HasRoom (B.value store.old) 1 }
    requires few { length ending.now ≤ 1 }
    ensures { (q : QueuePair) (f : Fates) → let s = B.value store.old in let x = paired ldterm.old q in let p = ldterm_in s x in
        IsHeld s x → AreIn s (λ _. 0) (keeps x) →
        Proceeds s (B.value store.new) x (paired ldterm.new q) 1 [] (sent_of result) f f (line_sent plain here (p.line ++ ending.now) p) }
{
    let message = make_line(store, ldterm.line.bytes(), ending);
    let _ = ldterm.line.clear();
    Outbox::one(Sent {
        to: here.toward(Way::Up),
        message,
    })
}

/// EOF: the line goes up as M_DATA, also an empty one, and the key itself goes by a rule of its own. It takes a block.
pub fn end_file<B: Blocks>(
    ldterm: &mut Ldterm,
    store: &mut B,
    here: Spot,
    byte: u8,
    told: &mut Fates,
) -> Outbox
    requires inside { 0 < here.at }
    requires small { here.at ≤ MODULES }
    requires room { HasRoom (B.value store.old) 1 }
    ensures { (q : QueuePair) → let s = B.value store.old in let x = paired ldterm.old q in IsHeld s x → AreIn s (λ _. 0) (keeps x) →
        Proceeds s (B.value store.new) x (paired ldterm.new q) 1 [] (sent_of result) told.old told.new
        (strikes plain here Eof byte (ldterm_in s x)) }
{
    let _ = byte;
    told.tell(direction_at(Way::Up, here.side), Rule::EofKey, 1);
    send_line(ldterm, store, here, &[])
}

/// A delimiter: the line goes up with it as M_DATA, at most 256 bytes in one block.
pub fn end_line<B: Blocks>(ldterm: &mut Ldterm, store: &mut B, here: Spot, byte: u8) -> Outbox
    requires inside { 0 < here.at }
    requires small { here.at ≤ MODULES }
    requires room { HasRoom (B.value store.old) 1 }
    ensures { (q : QueuePair) (f : Fates) → let s = B.value store.old in let x = paired ldterm.old q in IsHeld s x → AreIn s (λ _. 0) (keeps x) →
        Proceeds s (B.value store.new) x (paired ldterm.new q) 1 [] (sent_of result) f f (strikes plain here Delimiter byte (ldterm_in s x)) }
{
    send_line(ldterm, store, here, &[byte])
}
