//! What a byte of a turn does once it has begun: its key, and its echo (termio(7I): "Canonical Mode Input Processing", "Special
//! Characters").

ghost use Rattle.std.specs.Prelude.{◌≡◌, ◌<◌, ◌≤◌, ◌+◌, ◌++◌, [], true, false, length, is_some, IfNone, IfSome};
ghost use Rattle.strm_types.specs.declared.limits.TheConstants.{MODULES, STOP_BLOCKS};
ghost use Rattle.strm_types.specs.declared.spots.Spot as spots;
ghost use Rattle.strm_types.specs.Cells.{plain};
ghost use Rattle.strm_types.specs.Input.{cells_left, next_stage};
ghost use Rattle.strm_types.specs.Ldterms.{Begun};
ghost use Rattle.strm_types.specs.Queue.{is_none_left};
ghost use Rattle.strm_types.specs.Typing.{is_lnext, strikes, struck, stroke_at, wakes};
ghost use Rattle.strm_frame.specs.Hands.{AreIn, HasRoom};
ghost use Rattle.strm_frame.specs.declared.queue_pair.QueuePair.{QueuePair};
ghost use Rattle.strm_frame.specs.Outboxes.{sent_of};
ghost use Rattle.strm_ldterm.specs.Stands.{ldterm_in, keeps, stage_in, IsHeld, paired};
ghost use Rattle.strm_ldterm.specs.Does.{Proceeds};
ghost use Rattle.strm_ldterm.specs.Quiet.{is_quiet};
ghost use Rattle.strm_ldterm.specs.Turns.{ahead, leaves, needs, one_after, stages_left};

use crate::echoes::{echo_of, of_slice, short_echo};
use crate::first_steps::begin;
use crate::ldterm::{Ldterm, Stage};
use crate::line_keys::{is_quiet, strike_quiet};
use crate::sending_keys::{end_file, end_line, stop};
use crate::signal_keys::signal;
use crate::standing_echo::echo;
use crate::strokes::stroke_of;
use arrayvec::ArrayVec;
use std::mem;
use strm_blocks::Blocks;
use strm_frame::{Acts, Outbox, QueuePair};
use strm_types::{Fates, Key, Note, Spot, Stroke, Way};

// Whether the next byte stands behind LNEXT.
fn is_lnext(key: Key) -> bool
    ensures { result ≡ is_lnext key }
{
    matches!(key, Key::Lnext)
}

// The queue of output is enabled where a byte has started output, unless nothing stands there.
fn wakes<B: Blocks>(
    ldterm: &Ldterm,
    queues: &QueuePair,
    store: &B,
    started: bool,
) -> ArrayVec<Note, 4>
    ensures { (here : spots.Spot) → result.items ≡ wakes plain here started (ldterm_in (B.value store.now) (paired ldterm.now queues.now)) }
{
    let mut notes = ArrayVec::new();
    if started && !queues.write.is_empty(store) {
        notes.push(Note::Enable(Way::Down));
    }
    notes
}

// What a key does that may send something.
fn strike_sending<B: Blocks>(
    ldterm: &mut Ldterm,
    store: &mut B,
    here: Spot,
    key: Key,
    byte: u8,
    told: &mut Fates,
) -> Outbox
    requires inside { 0 < here.at }
    requires small { here.at ≤ MODULES }
    requires room { HasRoom (B.value store.old) 2 }
    requires sends { is_quiet key ≡ false }
    ensures { (q : QueuePair) → let s = B.value store.old in let x = paired ldterm.old q in IsHeld s x → AreIn s (λ _. 0) (keeps x) →
        Proceeds s (B.value store.new) x (paired ldterm.new q) 2 [] (sent_of result) told.old told.new
        (strikes plain here key byte (ldterm_in s x)) }
{
    match key {
        Key::Stop => stop(ldterm, store, here, byte, told),
        Key::Eof => end_file(ldterm, store, here, byte, told),
        Key::Delimiter => end_line(ldterm, store, here, byte),
        Key::Intr | Key::Quit | Key::Susp => signal(ldterm, store, here, key, byte, told),
        _ => unreachable!(),
    }
}

// A key that may send something. Its echo is still to come.
fn strike_and_send<B: Blocks>(
    ldterm: &mut Ldterm,
    queues: &QueuePair,
    store: &mut B,
    here: Spot,
    started: bool,
    byte: u8,
    stroke: Stroke,
    told: &mut Fates,
) -> Acts
    requires held { IsHeld (B.value store.old) (paired ldterm.old queues.now) }
    requires kept { AreIn (B.value store.old) (λ _. 0) (keeps (paired ldterm.old queues.now)) }
    requires inside { 0 < here.at }
    requires small { here.at ≤ MODULES }
    requires room { HasRoom (B.value store.old) 2 }
    requires stroke { stroke ≡ stroke_at plain here byte (ldterm_in (B.value store.old) (paired ldterm.old queues.now)) }
    requires sends { is_quiet stroke.key ≡ false }
    ensures does { let s = B.value store.old in
        Proceeds s (B.value store.new) (paired ldterm.old queues.now) (paired ldterm.new queues.now) 2 result.notes.items (sent_of result.sent)
        told.old told.new
        (struck plain here started byte (ldterm_in s (paired ldterm.old queues.now))) }
    ensures stage { stages_left (stage_in ldterm.new.stage) ≡ 1 }
{
    let notes = wakes(ldterm, queues, store, started);
    let echo = short_echo(&ldterm.termios, stroke);
    ldterm.after_lnext = false;
    let sent = strike_sending(ldterm, store, here, stroke.key, stroke.byte, told);
    ldterm.stage = Stage::Answered { echo };
    Acts { notes, sent }
}

// A key that sends nothing, with its echo.
fn strike_and_echo<B: Blocks>(
    ldterm: &mut Ldterm,
    queues: &mut QueuePair,
    store: &mut B,
    here: Spot,
    started: bool,
    byte: u8,
    stroke: Stroke,
    told: &mut Fates,
) -> ArrayVec<Note, 4>
    requires held { IsHeld (B.value store.old) (paired ldterm.old queues.old) }
    requires kept { AreIn (B.value store.old) (λ _. 0) (keeps (paired ldterm.old queues.old)) }
    requires work { is_some ldterm.old.in_work ≡ true }
    requires room { HasRoom (B.value store.old) 25 }
    requires stroke { stroke ≡ stroke_at plain here byte (ldterm_in (B.value store.old) (paired ldterm.old queues.old)) }
    requires quiet { is_quiet stroke.key ≡ true }
    ensures { let s = B.value store.old in
        Proceeds s (B.value store.new) (paired ldterm.old queues.old) (paired ldterm.new queues.new) 25 result.items [] told.old told.new
        (one_after (struck plain here started byte (ldterm_in s (paired ldterm.old queues.old))) (next_stage plain here 0)) }
{
    let woken = wakes(ldterm, queues, store, started);
    let plan = echo_of(&ldterm.termios, &ldterm.line, stroke);
    ldterm.after_lnext = is_lnext(stroke.key);
    strike_quiet(ldterm, store, here, stroke.key, stroke.byte, told);
    ldterm.stage = Stage::Between;
    store.audit();
    let notes = echo(ldterm, queues, store, here, plan, told);
    join(woken, notes)
}

/// Notes and those behind them.
pub(crate) fn join(mut first: ArrayVec<Note, 4>, second: ArrayVec<Note, 4>) -> ArrayVec<Note, 4>
    requires { length first.items + length second.items ≤ 4 }
    ensures { result.items ≡ first.items ++ second.items }
{
    let Ok(()) = first.try_extend_from_slice(second.as_slice()) else {
        unreachable!()
    };
    first
}

// The echo of a byte whose key may have sent something.
fn answer<B: Blocks>(
    ldterm: &mut Ldterm,
    queues: &mut QueuePair,
    store: &mut B,
    here: Spot,
    told: &mut Fates,
) -> ArrayVec<Note, 4>
    requires held { IsHeld (B.value store.old) (paired ldterm.old queues.old) }
    requires kept { AreIn (B.value store.old) (λ _. 0) (keeps (paired ldterm.old queues.old)) }
    requires work { is_some ldterm.old.in_work ≡ true }
    requires room { HasRoom (B.value store.old) 1 }
    requires stage { stages_left (stage_in ldterm.old.stage) ≡ 1 }
    ensures { let s = B.value store.old in
        Proceeds s (B.value store.new) (paired ldterm.old queues.old) (paired ldterm.new queues.new) 1 result.items [] told.old told.new
        (next_stage plain here 0 (ldterm_in s (paired ldterm.old queues.old))) }
{
    let Stage::Answered { echo: bytes } = mem::replace(&mut ldterm.stage, Stage::Between) else {
        unreachable!()
    };
    echo(
        ldterm,
        queues,
        store,
        here,
        of_slice(bytes.as_slice()),
        told,
    )
}

// A byte that has begun does what its key does, and is echoed unless something was sent.
fn strike<B: Blocks>(
    ldterm: &mut Ldterm,
    queues: &mut QueuePair,
    store: &mut B,
    here: Spot,
    started: bool,
    byte: u8,
    told: &mut Fates,
) -> Acts
    requires held { IsHeld (B.value store.old) (paired ldterm.old queues.old) }
    requires kept { AreIn (B.value store.old) (λ _. 0) (keeps (paired ldterm.old queues.old)) }
    requires work { is_some ldterm.old.in_work ≡ true }
    requires inside { 0 < here.at }
    requires small { here.at ≤ MODULES }
    requires room { HasRoom (B.value store.old) 28 }
    ensures does { let s = B.value store.old in
        Proceeds s (B.value store.new) (paired ldterm.old queues.old) (paired ldterm.new queues.new) 26 result.notes.items (sent_of result.sent)
        told.old told.new
        (one_after (struck plain here started byte (ldterm_in s (paired ldterm.old queues.old))) (next_stage plain here 0)) }
    ensures leaves { is_none_left (sent_of result.sent) ≡ false →
        HasRoom (B.value store.new) 26 × (stages_left (stage_in ldterm.new.stage) ≡ 1) }
    ensures rest { HasRoom (B.value store.new) 1 }
{
    let stroke = stroke_of(&ldterm.termios, ldterm.after_lnext, byte);
    if is_quiet(stroke.key) {
        return Acts {
            notes: strike_and_echo(ldterm, queues, store, here, started, byte, stroke, told),
            sent: Outbox::none(),
        };
    }
    let mut acts = strike_and_send(ldterm, queues, store, here, started, byte, stroke, told);
    if acts.sent.is_empty() {
        store.audit();
        let echoed = answer(ldterm, queues, store, here, told);
        acts.notes = join(acts.notes, echoed);
    }
    acts
}

// The byte that has begun, and whether it has started output.
fn begun_byte(stage: &Stage) -> Option<(bool, u8)>
    ensures some { IfSome result (λ begun. stage_in stage.now ≡ Begun begun.0 begun.1) }
    ensures none { IfNone result (stages_left (stage_in stage.now) ≤ 1) }
{
    match stage {
        Stage::Begun { started, byte } => Some((*started, *byte)),
        _ => None,
    }
}

/// The rest of a byte that has begun, up to the first thing that is sent.
pub(crate) fn resume<B: Blocks>(
    ldterm: &mut Ldterm,
    queues: &mut QueuePair,
    store: &mut B,
    here: Spot,
    told: &mut Fates,
) -> Acts
    requires held { IsHeld (B.value store.old) (paired ldterm.old queues.old) }
    requires kept { AreIn (B.value store.old) (λ _. 0) (keeps (paired ldterm.old queues.old)) }
    requires work { is_some ldterm.old.in_work ≡ true }
    requires inside { 0 < here.at }
    requires small { here.at ≤ MODULES }
    requires room { HasRoom (B.value store.old) (needs (stage_in ldterm.old.stage)) }
    requires stage { 0 < stages_left (stage_in ldterm.old.stage) }
    ensures does { let s = B.value store.old in let p = ldterm_in s (paired ldterm.old queues.old) in
        Proceeds s (B.value store.new) (paired ldterm.old queues.old) (paired ldterm.new queues.new) 26 result.notes.items (sent_of result.sent)
        told.old told.new
        (ahead here (stages_left p.stage) p) }
    ensures leaves { is_none_left (sent_of result.sent) ≡ false →
        HasRoom (B.value store.new) 26 × (stages_left (stage_in ldterm.new.stage) ≡ 1) }
    ensures rest { HasRoom (B.value store.new) 1 }
{
    match begun_byte(&ldterm.stage) {
        Some((started, byte)) => strike(ldterm, queues, store, here, started, byte, told),
        None => Acts {
            notes: answer(ldterm, queues, store, here, told),
            sent: Outbox::none(),
        },
    }
}

/// The next byte of the message in work, up to the first thing that is sent.
pub(crate) fn treat_byte<B: Blocks>(
    ldterm: &mut Ldterm,
    queues: &mut QueuePair,
    store: &mut B,
    here: Spot,
    told: &mut Fates,
) -> Acts
    requires held { IsHeld (B.value store.old) (paired ldterm.old queues.old) }
    requires kept { AreIn (B.value store.old) (λ _. 0) (keeps (paired ldterm.old queues.old)) }
    requires inside { 0 < here.at }
    requires small { here.at ≤ MODULES }
    requires room { HasRoom (B.value store.old) STOP_BLOCKS }
    requires stage { stages_left (stage_in ldterm.old.stage) ≡ 0 }
    requires some { 0 < length (cells_left (ldterm_in (B.value store.old) (paired ldterm.old queues.old))) }
    ensures does { let s = B.value store.old in
        Proceeds s (B.value store.new) (paired ldterm.old queues.old) (paired ldterm.new queues.new) 27 result.notes.items (sent_of result.sent)
        told.old told.new
        (ahead here 3 (ldterm_in s (paired ldterm.old queues.old))) }
    ensures leaves { is_none_left (sent_of result.sent) ≡ false →
        HasRoom (B.value store.new) (leaves (stage_in ldterm.new.stage)) × (0 < stages_left (stage_in ldterm.new.stage)) }
{
    let sent = begin(ldterm, store, here);
    if !sent.is_empty() {
        return Acts {
            notes: ArrayVec::new(),
            sent,
        };
    }
    store.audit();
    resume(ldterm, queues, store, here, told)
}
