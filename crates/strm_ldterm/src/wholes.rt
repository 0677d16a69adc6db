//! A message in work goes on itself where none of its bytes would be changed, echoed or acted upon (ldterm(7M); termio(7I): "Non-Canonical
//! Mode Input Processing"; putnext(9F)).

ghost use Rattle.std.specs.Prelude.{◌≡◌, ◌<◌, ◌≤◌, ◌+◌, [], ◌∷◌, true, false, is_some, length, IfSome, None};
ghost use Rattle.std.specs.List.{AllByRecursion};
ghost use Rattle.strm_types.specs.declared.limits.TheConstants.{MODULES, STOP_BLOCKS};
ghost use Rattle.strm_types.specs.declared.output.TheConstants.{COLUMN_MAX};
ghost use Rattle.strm_types.specs.declared.rules.Fates.{Fates};
ghost use Rattle.strm_types.specs.Input.{cells_left};
ghost use Rattle.strm_types.specs.Deliver.{onward};
ghost use Rattle.strm_types.specs.Ldterms.{sends};
ghost use Rattle.strm_blocks.specs.Blocks.{IsInHand, token};
ghost use Rattle.strm_frame.specs.Hands.{AreIn, HasRoom};
ghost use Rattle.strm_frame.specs.declared.queue_pair.QueuePair.{QueuePair};
ghost use Rattle.strm_frame.specs.Outboxes.{sent_of};
ghost use Rattle.strm_ldterm.specs.Does.{Proceeds};
ghost use Rattle.strm_ldterm.specs.FreeBefore.{blocks_for};
ghost use Rattle.strm_ldterm.specs.Outgone.{data_of, let_go};
ghost use Rattle.strm_ldterm.specs.PlainRuns.{MayPass, is_raw};
ghost use Rattle.strm_ldterm.specs.Posting.{is_printed, poured};
ghost use Rattle.strm_ldterm.specs.Stands.{IsData, IsHeld, keeps, ldterm_in, paired};
ghost use Rattle.strm_ldterm.specs.Turns.{one_after};

use crate::ldterm::Ldterm;
use crate::output_runs::{is_printed, printed_len};
use crate::plain_runs::{has_keys, turns_ends};
use crate::posts::moved_on;
use crate::write_turns::reband;
use bitflags::Flags;
use strm_blocks::{Blocks, InHand};
use strm_frame::{Outbox, Sent};
use strm_types::{BLOCK_SIZE, Band, InputModes, LocalModes, STOP_BLOCKS, Spot, Termios, Way};

// Whether each byte that is typed is plain: raw mode without an echo.
fn is_raw(termios: &Termios) -> bool
    ensures { result ≡ is_raw termios.now }
{
    !has_keys(termios)
        && !turns_ends(termios)
        && !termios.lflag.contains(LocalModes::ECHO)
        && !termios.iflag.contains(InputModes::ISTRIP)
        && !termios.iflag.contains(InputModes::IUCLC)
}

/// Whether a message of so many bytes stands in no more blocks than they fill, and so many are free that each of them would begin with
/// `STOP_BLOCKS` if they were gathered.
pub(crate) fn is_free_for<B: Blocks>(store: &B, message: &InHand, bytes: usize) -> bool
    requires in_hand { IsInHand (B.value store.now) (token message.now) }
    requires few { bytes ≤ 16777216 }
    ensures { result ≡ true → HasRoom (B.value store.now) (STOP_BLOCKS + blocks_for bytes) }
{
    let filled = (bytes + (BLOCK_SIZE - 1)) / BLOCK_SIZE;
    let (message_blocks, data_blocks) = store.free_blocks();
    store.blocks(message) <= filled
        && message_blocks >= STOP_BLOCKS + filled
        && data_blocks >= STOP_BLOCKS + filled
}

/// Whether what is left of the message in work, so many bytes, goes up as it is.
pub(crate) fn goes_up<B: Blocks>(ldterm: &Ldterm, store: &B, bytes: usize) -> bool
    requires is { IfSome ldterm.now.in_work (λ m. IsData (B.value store.now) (token m)) }
    requires few { bytes ≤ 16777216 }
    ensures some { result ≡ true → 0 < bytes }
    ensures may { (q : QueuePair) → result ≡ true → MayPass (ldterm_in (B.value store.now) (paired ldterm.now q)) }
    ensures room { result ≡ true → HasRoom (B.value store.now) (STOP_BLOCKS + blocks_for bytes) }
{
    if bytes == 0 || ldterm.stopped || ldterm.after_lnext || !is_raw(&ldterm.termios) {
        return false;
    }
    if ldterm.gathered.is_some() || ldterm.echoing {
        return false;
    }
    let Some(message) = &ldterm.in_work else {
        return false;
    };
    store.audit();
    is_free_for(store, message, bytes)
}

/// What is left of the message in work goes on itself, in a band. No byte is copied, and no block is taken.
pub(crate) fn pass_work<B: Blocks>(
    ldterm: &mut Ldterm,
    store: &mut B,
    here: Spot,
    way: Way,
    band: Band,
) -> Outbox
    requires is { IfSome ldterm.old.in_work (λ m. IsData (B.value store.old) (token m)) }
    requires inside { 0 < here.at }
    requires small { here.at ≤ MODULES }
    requires work { is_some ldterm.old.in_work ≡ true }
    ensures { (q : QueuePair) (f : Fates) → let s = B.value store.old in let x = paired ldterm.old q in let p = ldterm_in s x in
        IsHeld s x → AreIn s (λ _. 0) (keeps x) →
        Proceeds s (B.value store.new) x (paired ldterm.new q) 0 [] (sent_of result) f f
        (sends (onward way here (data_of band.0 (cells_left p)) ∷ []) (record p { in_work = None })) }
{
    let Some(message) = ldterm.in_work.take() else {
        unreachable!()
    };
    store.audit();
    reband(store, &message, band);
    Outbox::one(Sent {
        to: here.toward(way),
        message,
    })
}

/// Whether the message in work, so many bytes, goes down as it is: all of them stand in its first block, and go out as themselves. The cost
/// is a step for each byte up to the first one that doesn't.
pub(crate) fn goes_down<B: Blocks>(ldterm: &Ldterm, store: &B, bytes: usize) -> bool
    requires is { IfSome ldterm.now.in_work (λ m. IsData (B.value store.now) (token m)) }
    requires some { 0 < bytes }
    ensures printed { (q : QueuePair) → let cells = cells_left (ldterm_in (B.value store.now) (paired ldterm.now q)) in
        bytes ≡ length cells → result ≡ true → AllByRecursion (λ b. is_printed ldterm.now.termios b ≡ true) cells }
    ensures short { result ≡ true → bytes ≤ 256 }
    ensures room { result ≡ true → HasRoom (B.value store.now) (STOP_BLOCKS + blocks_for bytes) }
{
    let Some(message) = &ldterm.in_work else {
        return false;
    };
    store.audit();
    let first = store.bytes_at(message, 0);
    if first.len() < bytes {
        return false;
    }
    // Most output that has a newline ends with one, and so isn't walked twice.
    if !is_printed(&ldterm.termios, first[bytes - 1]) {
        return false;
    }
    if printed_len(&ldterm.termios, first) < bytes {
        return false;
    }
    is_free_for(store, message, bytes)
}

/// The message in work goes down as it is, where each of its bytes goes out as itself, and the carriage moves on.
pub(crate) fn post_whole<B: Blocks>(
    ldterm: &mut Ldterm,
    store: &mut B,
    here: Spot,
    band: Band,
    bytes: usize,
) -> Outbox
    requires is { IfSome ldterm.old.in_work (λ m. IsData (B.value store.old) (token m)) }
    requires inside { 0 < here.at }
    requires small { here.at ≤ MODULES }
    requires work { is_some ldterm.old.in_work ≡ true }
    requires some { 0 < bytes }
    requires short { bytes ≤ 256 }
    ensures column { ldterm.old.column ≤ COLUMN_MAX }
    ensures did { (q : QueuePair) (f : Fates) → let s = B.value store.old in let x = paired ldterm.old q in let p = ldterm_in s x in
        IsHeld s x → AreIn s (λ _. 0) (keeps x) → p.gathered ≡ [] → bytes ≡ length (cells_left p) →
        AllByRecursion (λ b. is_printed ldterm.old.termios b ≡ true) (cells_left p) →
        Proceeds s (B.value store.new) x (paired ldterm.new q) 0 [] (sent_of result) f f (one_after (poured here bytes p) (let_go here band.0)) }
{
    let column = moved_on(ldterm.column, bytes);
    let sent = pass_work(ldterm, store, here, Way::Down, band);
    ldterm.column = column;
    sent
}
