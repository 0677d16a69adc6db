//! Runs of plain bytes in a turn, which are treated at once: lines that are pasted, or sent by a program (termio(7I): "Canonical Mode
//! Input Processing", "Non-Canonical Mode Input Processing", ECHO).

ghost use Rattle.std.specs.Prelude.{ℕ, ◌≡◌, ◌<◌, ◌≤◌, ◌+◌, ◌*◌, ◌++◌, ◌==◌, ◌&&◌, [], true, false, length, drop, take, slice_index_or, is_some, IfSome};
ghost use Rattle.std.specs.List.{AllByRecursion, list_any};
ghost use Rattle.strm_types.specs.declared.keys.TheConstants.{LINE_MAX};
ghost use Rattle.strm_types.specs.declared.limits.TheConstants.{STOP_BLOCKS};
ghost use Rattle.strm_types.specs.declared.rules.Fates.{Fates};
ghost use Rattle.strm_types.specs.Input.{cells_left, left_of, with_left};
ghost use Rattle.strm_types.specs.Ldterms.{sends};
ghost use Rattle.strm_types.specs.Message.{cells_of};
ghost use Rattle.strm_types.specs.Queue.{count_of, flow_of};
ghost use Rattle.strm_types.specs.Termios.{icanon};
ghost use Rattle.strm_blocks.specs.Blocks.{IsInHand, token};
ghost use Rattle.strm_frame.specs.Hands.{AreIn, HasRoom};
ghost use Rattle.strm_frame.specs.declared.queue_pair.QueuePair.{QueuePair};
ghost use Rattle.strm_frame.specs.Outboxes.{message_in};
ghost use Rattle.strm_ldterm.specs.Becoming.{Becomes, IsFronted};
ghost use Rattle.strm_ldterm.specs.Does.{Proceeds};
ghost use Rattle.strm_ldterm.specs.FreeBefore.{blocks_grown};
ghost use Rattle.strm_ldterm.specs.PlainRuns.{MayRun, has_keys, is_plain, run_echoed, turns_ends, typed_run};
ghost use Rattle.strm_ldterm.specs.Stands.{IsData, IsGathered, IsHeld, keeps, ldterm_in, stage_in, paired};
ghost use Rattle.strm_ldterm.specs.Turns.{ahead, bytes_on, stages_left};

use crate::echoes::RUN_MAX;
use crate::first_steps::skip_empty;
use crate::ldterm::Ldterm;
use crate::line_keys::gather;
use crate::standing_echo::stand_run;
use arrayvec::ArrayVec;
use bitflags::Flags;
use strm_blocks::{Blocks, InHand};
use strm_frame::{QueuePair, direction_at};
use strm_queue::standing::count;
use strm_types::{
    Band, Fates, InputModes, LINE_MAX, LocalModes, Note, STOP_BLOCKS, Spot, Termios, Way,
};

/// What became of plain bytes that were treated at once: how many they were, and what is noted of their echo.
#[derive(Drop)]
pub(crate) struct Ran {
    pub bytes: usize,
    pub notes: ArrayVec<Note, 4>,
}

/// How many blocks of each kind a run takes at most: one for what is gathered, and one for its echo.
const RUN_BLOCKS: usize = 2;

/// Marks the bytes from one up to another, in a mode that says so.
pub(crate) fn mark(odd: &mut [bool; 256], mode: bool, from: usize, to: usize)
    requires { to ≤ 256 }
    ensures stays { (b : ℕ) → slice_index_or odd.new b true ≡ false → slice_index_or odd.old b true ≡ false }
    ensures marked { (b : ℕ) → mode ≡ true → from ≤ b → b < to → slice_index_or odd.new b true ≡ true }
{
    if !mode {
        return;
    }
    for at in from..to {
        odd[at] = true;
    }
}

// Marks each of these bytes.
fn mark_each(odd: &mut [bool; 256], bytes: &[u8])
    ensures stays { (b : ℕ) → slice_index_or odd.new b true ≡ false → slice_index_or odd.old b true ≡ false }
    ensures none { (b : ℕ) → slice_index_or odd.new b true ≡ false → list_any (λ c. c == b) bytes.now ≡ false }
{
    for at in 0..bytes.len() {
        odd[usize::from(bytes[at])] = true;
    }
}

/// Whether a control byte of the termios may be a key.
pub(crate) fn has_keys(termios: &Termios) -> bool
    ensures { result ≡ has_keys termios.now }
{
    termios.lflag.contains(LocalModes::ICANON)
        || termios.lflag.contains(LocalModes::ISIG)
        || termios.iflag.contains(InputModes::IXON)
}

/// Whether a newline or a carriage return may be taken as another byte, or as a key.
pub(crate) fn turns_ends(termios: &Termios) -> bool
    ensures { result ≡ turns_ends termios.now }
{
    termios.lflag.contains(LocalModes::ICANON)
        || termios.iflag.contains(InputModes::IGNCR)
        || termios.iflag.contains(InputModes::ICRNL)
        || termios.iflag.contains(InputModes::INLCR)
}

// Marks the bytes that may be keys, where there are keys. One pass over the control bytes.
fn mark_keys(odd: &mut [bool; 256], termios: &Termios)
    ensures stays { (b : ℕ) → slice_index_or odd.new b true ≡ false → slice_index_or odd.old b true ≡ false }
    ensures none { (b : ℕ) → slice_index_or odd.new b true ≡ false →
        (has_keys termios.now && list_any (λ c. c == b) termios.now.control) ≡ false }
{
    if has_keys(termios) {
        mark_each(odd, &termios.control);
    }
}

// Marks the bytes that aren't plain: those that may be keys, are taken as other ones, or are echoed as other ones. In raw mode without echo
// there are none.
fn mark_odd(odd: &mut [bool; 256], termios: &Termios)
    ensures { (b : ℕ) → slice_index_or odd.new b true ≡ false → is_plain termios.now b ≡ true }
{
    let echo = termios.lflag.contains(LocalModes::ECHO);
    let ends = turns_ends(termios);
    mark(odd, echo, 0, 32);
    mark(odd, echo, 127, 128);
    mark(odd, ends, 10, 11);
    mark(odd, ends, 13, 14);
    mark(odd, termios.iflag.contains(InputModes::ISTRIP), 128, 256);
    mark(odd, termios.iflag.contains(InputModes::IUCLC), 65, 91);
    mark_keys(odd, termios);
}

/// How many bytes at the front aren't marked.
pub(crate) fn plain_len(odd: &[bool; 256], bytes: &[u8]) -> usize
    ensures within { result ≤ length bytes.now }
    ensures plain { AllByRecursion (λ b. slice_index_or odd.now b true ≡ false) (take result bytes.now) }
{
    for at in 0..bytes.len() {
        if odd[usize::from(bytes[at])] {
            return at;
        }
    }
    bytes.len()
}

// Takes bytes that aren't marked off the front of a message of data into a run, as far as its first block that has some has them, and so
// many at most: adjmsg(9F). The block is freed where it is empty then and another one stands behind it.
fn take_plain<B: Blocks>(
    store: &mut B,
    message: InHand,
    odd: &[bool; 256],
    most: usize,
    run: &mut ArrayVec<u8, RUN_MAX>,
) -> InHand
    requires in_hand { IsInHand (B.value store.old) (token message) }
    requires is { IsData (B.value store.old) (token message) }
    requires fresh { run.old.items ≡ [] }
    ensures became { let m = message_in (B.value store.old) (token message) in
        Becomes (B.value store.old) (B.value store.new) (token message) (token result)
        (left_of (drop (length run.new.items) (cells_of m)) m) }
    ensures front { let cells = cells_of (message_in (B.value store.old) (token message)) in
        cells ≡ run.new.items ++ drop (length run.new.items) cells }
    ensures plain { AllByRecursion (λ b. slice_index_or odd.now b true ≡ false) run.new.items }
    ensures few { length run.new.items ≤ most }
    ensures trimmed { IsFronted (B.value store.new) (token result) }
{
    let message = skip_empty(store, message);
    store.audit();
    let bytes = store.bytes_at(&message, 0);
    let within = bytes.len().min(most);
    let taken = plain_len(odd, &bytes[..within]);
    let Ok(()) = run.try_extend_from_slice(&bytes[..taken]) else {
        unreachable!()
    };
    store.trim_head(&message, 0, taken);
    store.audit();
    skip_empty(store, message)
}

/// Takes bytes that aren't marked off the front of the message in work into a run, as many as its first block has of them, and so many at
/// most. A block that this empties is freed, unless it is the message's last.
pub(crate) fn take_front<B: Blocks>(
    ldterm: &mut Ldterm,
    store: &mut B,
    odd: &[bool; 256],
    most: usize,
    run: &mut ArrayVec<u8, RUN_MAX>,
)
    requires is { IfSome ldterm.old.in_work (λ m. IsData (B.value store.old) (token m)) }
    requires fresh { run.old.items ≡ [] }
    ensures did { (q : QueuePair) (f : Fates) → let s = B.value store.old in let x = paired ldterm.old q in let p = ldterm_in s x in
        IsHeld s x → AreIn s (λ _. 0) (keeps x) →
        Proceeds s (B.value store.new) x (paired ldterm.new q) 0 [] [] f f (sends [] (with_left (drop (length run.new.items) (cells_left p)) p)) }
    ensures front { (q : QueuePair) → let cells = cells_left (ldterm_in (B.value store.old) (paired ldterm.old q)) in
        cells ≡ run.new.items ++ drop (length run.new.items) cells }
    ensures plain { AllByRecursion (λ b. slice_index_or odd.now b true ≡ false) run.new.items }
    ensures few { length run.new.items ≤ most }
    ensures trimmed { IfSome ldterm.new.in_work (λ m. IsFronted (B.value store.new) (token m)) }
{
    let Some(message) = ldterm.in_work.take() else {
        return;
    };
    store.audit();
    let message = take_plain(store, message, odd, most, run);
    store.audit();
    ldterm.in_work = Some(message);
}

/// How many bytes may be treated at once, as far as blocks go. A run takes two blocks of each kind at most, and so many are free that each
/// of its bytes begins with `STOP_BLOCKS`.
pub(crate) fn run_most<B: Blocks>(store: &B) -> usize
    ensures few { result ≤ 256 }
    ensures many { 0 < result → HasRoom (B.value store.now) (STOP_BLOCKS + 2) }
{
    let (message_blocks, data_blocks) = store.free_blocks();
    if message_blocks < STOP_BLOCKS + RUN_BLOCKS || data_blocks < STOP_BLOCKS + RUN_BLOCKS {
        return 0;
    }
    RUN_MAX
}

// How many bytes more leave band 0 of the write queue at its high-water mark, so that it isn't full before the last of them; 0 where it
// is full.
fn echo_room<B: Blocks>(ldterm: &Ldterm, queues: &QueuePair, store: &B) -> usize
    requires { IsHeld (B.value store.now) (paired ldterm.now queues.now) }
    ensures { let q = (ldterm_in (B.value store.now) (paired ldterm.now queues.now)).write_queue in
        0 < result → count_of 0 q.messages + result ≤ (flow_of 0 q).high }
{
    let counted = count(store, &queues.write, Band(0));
    (queues.write.flows.at(Band(0)).high as usize).saturating_sub(counted)
}

// How many plain bytes may be treated at once, where any may.
fn run_room<B: Blocks>(ldterm: &Ldterm, queues: &QueuePair, store: &B) -> usize
    requires { IsHeld (B.value store.now) (paired ldterm.now queues.now) }
    ensures may { 0 < result → MayRun result (ldterm_in (B.value store.now) (paired ldterm.now queues.now)) }
    ensures few { result ≤ 256 }
    ensures many { 0 < result → HasRoom (B.value store.now) (STOP_BLOCKS + 2) }
{
    if ldterm.stopped || ldterm.after_lnext {
        return 0;
    }
    let most = run_most(store);
    let typed = if ldterm.termios.lflag.contains(LocalModes::ICANON) {
        most.min(LINE_MAX - ldterm.line.len())
    } else {
        most
    };
    if !ldterm.termios.lflag.contains(LocalModes::ECHO) {
        return typed;
    }
    typed.min(echo_room(ldterm, queues, store))
}

// Plain bytes stand in the line, or wait to go up together where no lines are made.
fn type_run<B: Blocks>(ldterm: &mut Ldterm, store: &mut B, run: &[u8])
    requires gathers { IfSome ldterm.old.gathered (λ m. IsGathered (B.value store.old) (token m)) }
    requires some { 0 < length run.now }
    requires few { length run.now ≤ 256 }
    requires line { icanon ldterm.old.termios ≡ true → length ldterm.old.line + length run.now ≤ LINE_MAX }
    requires room { HasRoom (B.value store.old) 1 }
    ensures { (q : QueuePair) (f : Fates) → let s = B.value store.old in let x = paired ldterm.old q in IsHeld s x → AreIn s (λ _. 0) (keeps x) →
        Proceeds s (B.value store.new) x (paired ldterm.new q) 1 [] [] f f (sends [] (typed_run run.now (ldterm_in s x))) }
{
    if ldterm.termios.lflag.contains(LocalModes::ICANON) {
        ldterm.line.extend(run);
    } else {
        gather(ldterm, store, run);
    }
}

// Plain bytes are echoed as themselves under ECHO, where band 0 of the write queue has room for them.
fn echo_run<B: Blocks>(
    ldterm: &mut Ldterm,
    queues: &mut QueuePair,
    store: &mut B,
    here: Spot,
    run: &[u8],
    told: &mut Fates,
) -> ArrayVec<Note, 4>
    requires held { IsHeld (B.value store.old) (paired ldterm.old queues.old) }
    requires kept { AreIn (B.value store.old) (λ _. 0) (keeps (paired ldterm.old queues.old)) }
    requires work { is_some ldterm.old.in_work ≡ true }
    requires few { length run.now ≤ 256 }
    requires room { HasRoom (B.value store.old) 1 }
    ensures { let s = B.value store.old in
        Proceeds s (B.value store.new) (paired ldterm.old queues.old) (paired ldterm.new queues.new) 1 result.items [] told.old told.new
        (run_echoed here run.now (ldterm_in s (paired ldterm.old queues.old))) }
{
    if ldterm.termios.lflag.contains(LocalModes::ECHO) {
        told.tell_made(direction_at(Way::Down, here.side), run.len());
        return stand_run(ldterm, queues, store, run);
    }
    ArrayVec::new()
}

/// Treats plain bytes at the front of the message in work at once, as many as its first block has of them, the line has room for, and
/// can be echoed before the write queue is full: just as if they were treated one after the other. They take two blocks of each kind at
/// most, and there are some only where each of them begins with `STOP_BLOCKS` free. The cost is a step for each byte, and a pass over a table of 256 bytes.
pub(crate) fn treat_run<B: Blocks>(
    ldterm: &mut Ldterm,
    queues: &mut QueuePair,
    store: &mut B,
    here: Spot,
    told: &mut Fates,
) -> Ran
    requires held { IsHeld (B.value store.old) (paired ldterm.old queues.old) }
    requires kept { AreIn (B.value store.old) (λ _. 0) (keeps (paired ldterm.old queues.old)) }
    requires room { HasRoom (B.value store.old) 2 }
    requires stage { stages_left (stage_in ldterm.old.stage) ≡ 0 }
    ensures does { let s = B.value store.old in
        Proceeds s (B.value store.new) (paired ldterm.old queues.old) (paired ldterm.new queues.new) 2 result.notes.items [] told.old told.new
        (ahead here (3 * result.bytes) (ldterm_in s (paired ldterm.old queues.old))) }
    ensures within { result.bytes ≤ length (cells_left (ldterm_in (B.value store.old) (paired ldterm.old queues.old))) }
    ensures begun { let p = ldterm_in (B.value store.old) (paired ldterm.old queues.old) in
        (byte : ℕ) → byte < result.bytes → HasRoom (B.value store.old) (STOP_BLOCKS + blocks_grown p (bytes_on here byte p).state) }
    ensures many { HasRoom (B.value store.old) STOP_BLOCKS → HasRoom (B.value store.new) STOP_BLOCKS }
{
    let mut odd = [false; 256];
    mark_odd(&mut odd, &ldterm.termios);
    let most = run_room(ldterm, queues, store);
    let mut front = ArrayVec::new();
    take_front(ldterm, store, &odd, most, &mut front);
    let run = front.as_slice();
    if run.is_empty() {
        return Ran {
            bytes: 0,
            notes: ArrayVec::new(),
        };
    }
    store.audit();
    type_run(ldterm, store, run);
    store.audit();
    let notes = echo_run(ldterm, queues, store, here, run, told);
    Ran {
        bytes: run.len(),
        notes,
    }
}
