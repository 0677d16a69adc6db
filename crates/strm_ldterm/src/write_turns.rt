//! Turns of the write queue: bytes of M_DATA go out under OPOST, and all else goes down whole (ldterm(7M), "Write-side Behavior"; termio(7I):
//! "Output Modes"; srv(9E); putbq(9F)).

ghost use Rattle.std.specs.Prelude.{ℕ, Bool, ◌≡◌, ◌<◌, ◌≤◌, [], false, length, map, IfSome, None};
ghost use Rattle.strm_types.specs.declared.limits.TheConstants.{MODULES};
ghost use Rattle.strm_types.specs.declared.names.Way.TheVariants.{Down};
ghost use Rattle.strm_types.specs.declared.rules.Fates.{Fates};
ghost use Rattle.strm_types.specs.Input.{back_on, cells_left};
ghost use Rattle.strm_types.specs.Deliver.{onward};
ghost use Rattle.strm_types.specs.Ldterms.{sends};
ghost use Rattle.strm_types.specs.Message.{cells_of};
ghost use Rattle.strm_types.specs.OutputTurns.{with_given};
ghost use Rattle.strm_blocks.specs.Blocks.{IsInHand, token};
ghost use Rattle.strm_frame.specs.Hands.{AreIn};
ghost use Rattle.strm_frame.specs.Outboxes.{message_in, sent_of};
ghost use Rattle.strm_ldterm.specs.Becoming.{Becomes};
ghost use Rattle.strm_ldterm.specs.Called.{ServesAs};
ghost use Rattle.strm_ldterm.specs.Does.{Alters, Proceeds};
ghost use Rattle.strm_queue.specs.Stored.{FreesNone};
ghost use Rattle.strm_ldterm.specs.Outgone.{data_of, let_go};
ghost use Rattle.strm_ldterm.specs.Stands.{IsData, IsGathered, IsHeld, keeps, ldterm_in, stage_in, paired};
ghost use Rattle.strm_ldterm.specs.Turns.{stages_left};

use crate::call_ends::return_rest;
use crate::ldterm::Ldterm;
use crate::output::post_bytes;
use crate::service_calls::of_whole;
use crate::turn_starts::{OutputBegun, Passed, begin_output};
use crate::wholes::{goes_down, post_whole};
use arrayvec::ArrayVec;
use strm_blocks::{Blocks, InHand};
use strm_frame::{Acts, Outbox, QueuePair, Sent, Served};
use strm_types::{Band, Fates, Spot, Way};

// What is left of the message in work goes back to the front of the write queue.
fn return_output<B: Blocks>(ldterm: &mut Ldterm, queues: &mut QueuePair, store: &mut B)
    requires held { IsHeld (B.value store.old) (paired ldterm.old queues.old) }
    requires kept { AreIn (B.value store.old) (λ _. 0) (keeps (paired ldterm.old queues.old)) }
    ensures state { let p = ldterm_in (B.value store.old) (paired ldterm.old queues.old) in
        ldterm_in (B.value store.new) (paired ldterm.new queues.new)
        ≡ record p { in_work = None; write_queue = back_on p.in_work p.write_queue } }
    ensures alters { Alters (B.value store.old) (B.value store.new) (paired ldterm.old queues.old) (paired ldterm.new queues.new) }
    ensures blocks { 0 < length (cells_left (ldterm_in (B.value store.old) (paired ldterm.old queues.old))) →
        FreesNone (B.value store.old) (B.value store.new) }
{
    let Some(message) = ldterm.in_work.take() else {
        return;
    };
    store.audit();
    return_rest(store, &mut queues.write, message);
}

// Does nothing. Its contract is what holds of every band, as its number is a byte.
fn audit_band(band: Band)
    ensures { band.0 < 256 }
{
    let _ = usize::from(band.0);
}

/// Gives a message of data in hand another band.
pub(crate) fn reband<B: Blocks>(store: &mut B, message: &InHand, band: Band)
    requires in_hand { IsInHand (B.value store.old) (token message.now) }
    requires is { IsData (B.value store.old) (token message.now) }
    ensures became { let i = token message.now in
        Becomes (B.value store.old) (B.value store.new) i i (data_of band.0 (cells_of (message_in (B.value store.old) i))) }
    ensures blocks { FreesNone (B.value store.old) (B.value store.new) }
{
    store.audit();
    audit_band(band);
    store.set_band(message, band);
}

// What was gathered goes down as one message of a band, where there is any.
fn send_output<B: Blocks>(ldterm: &mut Ldterm, store: &mut B, here: Spot, band: Band) -> Outbox
    requires gathers { IfSome ldterm.old.gathered (λ m. IsGathered (B.value store.old) (token m)) }
    requires inside { 0 < here.at }
    requires small { here.at ≤ MODULES }
    ensures did { (q : QueuePair) (f : Fates) → let s = B.value store.old in let x = paired ldterm.old q in let p = ldterm_in s x in
        IsHeld s x → AreIn s (λ _. 0) (keeps x) →
        Proceeds s (B.value store.new) x (paired ldterm.new q) 0 [] (sent_of result) f f
        (sends (map (onward Down here) (with_given p.gathered (data_of band.0 []))) (record p { gathered = [] })) }
    ensures blocks { FreesNone (B.value store.old) (B.value store.new) }
{
    let Some(message) = ldterm.gathered.take() else {
        return Outbox::none();
    };
    store.audit();
    reband(store, &message, band);
    Outbox::one(Sent {
        to: here.toward(Way::Down),
        message,
    })
}

// Ends a turn in which bytes went out: what is left of the message in work goes back to the front of the write queue, and what was gathered goes
// down. It takes no block, and frees none where bytes are left. The cost is a step for each block of these messages, and for each message
// of a higher rank on the write queue.
fn let_go<B: Blocks>(
    ldterm: &mut Ldterm,
    queues: &mut QueuePair,
    store: &mut B,
    here: Spot,
    band: Band,
) -> Outbox
    requires held { IsHeld (B.value store.old) (paired ldterm.old queues.old) }
    requires kept { AreIn (B.value store.old) (λ _. 0) (keeps (paired ldterm.old queues.old)) }
    requires inside { 0 < here.at }
    requires small { here.at ≤ MODULES }
    ensures did { (f : Fates) → let s = B.value store.old in
        Proceeds s (B.value store.new) (paired ldterm.old queues.old) (paired ldterm.new queues.new) 0 [] (sent_of result) f f
        (let_go here band.0 (ldterm_in s (paired ldterm.old queues.old))) }
    ensures blocks { 0 < length (cells_left (ldterm_in (B.value store.old) (paired ldterm.old queues.old))) →
        FreesNone (B.value store.old) (B.value store.new) }
{
    return_output(ldterm, queues, store);
    store.audit();
    send_output(ldterm, store, here, band)
}

/// A turn of the write queue: what stands first there goes down, and M_DATA goes out byte by byte under OPOST, until fewer than
/// `STOP_BLOCKS` blocks of some kind are free before the next byte. What is left goes back to the front of its queue then. M_DATA whose bytes
/// all go out as themselves goes down in its own blocks. The cost is in proportion to the bytes that go out and to what they give, and a
/// step for each block of the message.
pub(crate) fn serve_output<B: Blocks>(
    ldterm: &mut Ldterm,
    queues: &mut QueuePair,
    store: &mut B,
    here: Spot,
    told: &mut Fates,
) -> Served
    requires held { IsHeld (B.value store.old) (paired ldterm.old queues.old) }
    requires kept { AreIn (B.value store.old) (λ _. 0) (keeps (paired ldterm.old queues.old)) }
    requires inside { 0 < here.at }
    requires small { here.at ≤ MODULES }
    requires way { here.way ≡ Down }
    requires rests { (i : ℕ) → keeps (paired ldterm.old queues.old) i ≡ 0 }
    requires quiet { ldterm.old.echoing ≡ false }
    requires stage { stages_left (stage_in ldterm.old.stage) ≡ 0 }
    ensures { (again : Bool) → ServesAs (B.value store.old) (B.value store.new) here (paired ldterm.old queues.old) (paired ldterm.new queues.new)
        again result told.old told.new }
{
    match begin_output(ldterm, queues, store, here) {
        OutputBegun::Whole(passed) => of_whole(passed),
        OutputBegun::InWork { bytes, band } => {
            store.audit();
            if goes_down(ldterm, store, bytes) {
                let sent = post_whole(ldterm, store, here, band, bytes);
                return of_whole(Passed { sent, bytes });
            }
            let left = post_bytes(ldterm, queues, store, here, bytes, told);
            store.audit();
            let sent = let_go(ldterm, queues, store, here, band);
            Served {
                acts: Acts {
                    notes: ArrayVec::new(),
                    sent,
                },
                bytes: bytes - left,
                stopped: left > 0,
                again: false,
            }
        }
    }
}
