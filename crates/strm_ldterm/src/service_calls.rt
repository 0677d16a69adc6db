//! Calls of the service procedure: on the read queue bytes of the message in work, one after the other (srv(9E); STREAMS Programming
//! Guide, "Service Procedures").

ghost use Rattle.std.specs.Prelude.{ℕ, ◌≡◌, ◌<◌, ◌≤◌, ◌&&◌, [], true, false, length, is_some, nat_lt, IfSome};
ghost use Rattle.strm_types.specs.declared.limits.TheConstants.{MODULES, STOP_BLOCKS};
ghost use Rattle.strm_types.specs.declared.names.Way.TheVariants.{Up};
ghost use Rattle.strm_types.specs.Input.{cells_left};
ghost use Rattle.strm_blocks.specs.Blocks.{token};
ghost use Rattle.strm_frame.specs.Hands.{AreIn, HasRoom};
ghost use Rattle.strm_frame.specs.declared.queue_pair.QueuePair.{QueuePair};
ghost use Rattle.strm_frame.specs.Serves.{least_free};
ghost use Rattle.strm_ldterm.specs.Stands.{ldterm_in, keeps, stage_in, IsData, IsHeld, paired};
ghost use Rattle.strm_ldterm.specs.Called.{RunAs, ServesAs, TreatsAs};
ghost use Rattle.strm_ldterm.specs.Served.{IsServed};
ghost use Rattle.strm_ldterm.specs.Turns.{needs, stages_left};

use crate::call_ends::finish;
use crate::ldterm::{Ldterm, Stage};
use crate::plain_runs::treat_run;
use crate::treated_bytes::{join, resume, treat_byte};
use crate::turn_starts::{InputBegun, Passed, begin_input};
use crate::wholes::{goes_up, pass_work};
use crate::write_turns::serve_output;
use arrayvec::ArrayVec;
use strm_blocks::Blocks;
use strm_frame::{Acts, Outbox, QueuePair, Served};
use strm_msg::booked_size;
use strm_types::{Band, Fates, Note, STOP_BLOCKS, Spot, Way};

/// What became of bytes that were treated one after the other, and how many are left: nothing was sent, and they are at their end or
/// blocks are few; or the next one has sent something.
#[derive(Drop)]
pub(crate) enum Run {
    Out {
        notes: ArrayVec<Note, 4>,
        left: usize,
    },
    Into {
        acts: Acts,
        left: usize,
    },
}

/// Whether fewer blocks of some kind are free than a byte may take.
pub(crate) fn are_few<B: Blocks>(store: &B) -> bool
    ensures { result ≡ nat_lt (least_free (B.value store.now)) STOP_BLOCKS }
{
    let (message_blocks, data_blocks) = store.free_blocks();
    message_blocks < STOP_BLOCKS || data_blocks < STOP_BLOCKS
}

// How many bytes are left of the message in work.
fn work_left<B: Blocks>(ldterm: &Ldterm, store: &B) -> usize
    requires { IfSome ldterm.now.in_work (λ m. IsData (B.value store.now) (token m)) }
    ensures bytes { (q : QueuePair) → result ≡ length (cells_left (ldterm_in (B.value store.now) (paired ldterm.now q))) }
    ensures few { result ≤ 16777216 }
{
    let Some(message) = &ldterm.in_work else {
        return 0;
    };
    store.audit();
    booked_size(store, message)
}

// Treats the bytes that are left of the message in work, until one sends something or blocks are few: plain bytes at once, and one that
// isn't plain by itself.
fn treat_bytes<B: Blocks>(
    ldterm: &mut Ldterm,
    queues: &mut QueuePair,
    store: &mut B,
    here: Spot,
    bytes: usize,
    told: &mut Fates,
) -> Run
    requires held { IsHeld (B.value store.old) (paired ldterm.old queues.old) }
    requires kept { AreIn (B.value store.old) (λ _. 0) (keeps (paired ldterm.old queues.old)) }
    requires inside { 0 < here.at }
    requires small { here.at ≤ MODULES }
    requires room { HasRoom (B.value store.old) 1 }
    requires stage { stages_left (stage_in ldterm.old.stage) ≡ 0 }
    requires bytes { bytes ≡ length (cells_left (ldterm_in (B.value store.old) (paired ldterm.old queues.old))) }
    ensures { RunAs (B.value store.old) (B.value store.new) here (paired ldterm.old queues.old) (paired ldterm.new queues.new) bytes told.old
        told.new result }
{
    let mut notes = ArrayVec::new();
    let mut left = bytes;
    while left > 0 && !are_few(store) {
        store.audit();
        let ran = treat_run(ldterm, queues, store, here, told);
        notes = join(notes, ran.notes);
        left -= ran.bytes;
        if left == 0 || are_few(store) {
            return Run::Out { notes, left };
        }
        store.audit();
        let more = treat_byte(ldterm, queues, store, here, told);
        notes = join(notes, more.notes);
        if !more.sent.is_empty() {
            return Run::Into {
                acts: Acts {
                    notes,
                    sent: more.sent,
                },
                left,
            };
        }
        left -= 1;
    }
    Run::Out { notes, left }
}

// A call that stands between two bytes. Bytes that would be gathered unchanged, and nothing else, go up in their own message.
fn treat_on<B: Blocks>(
    ldterm: &mut Ldterm,
    queues: &mut QueuePair,
    store: &mut B,
    here: Spot,
    told: &mut Fates,
) -> Served
    requires held { IsHeld (B.value store.old) (paired ldterm.old queues.old) }
    requires kept { AreIn (B.value store.old) (λ _. 0) (keeps (paired ldterm.old queues.old)) }
    requires inside { 0 < here.at }
    requires small { here.at ≤ MODULES }
    requires room { HasRoom (B.value store.old) 1 }
    requires stage { stages_left (stage_in ldterm.old.stage) ≡ 0 }
    requires work { is_some ldterm.old.in_work ≡ true }
    ensures does { TreatsAs (B.value store.old) (B.value store.new) here (paired ldterm.old queues.old) (paired ldterm.new queues.new) result
        told.old told.new }
    ensures few { result.bytes ≤ 16777216 }
    ensures noted { length result.acts.notes.items ≤ 2 }
{
    let bytes = work_left(ldterm, store);
    if goes_up(ldterm, store, bytes) {
        let sent = pass_work(ldterm, store, here, Way::Up, Band(0));
        return of_whole(Passed { sent, bytes });
    }
    match treat_bytes(ldterm, queues, store, here, bytes, told) {
        Run::Into { acts, left } => Served {
            acts,
            bytes: bytes - left,
            stopped: false,
            again: true,
        },
        Run::Out { notes, left } => {
            store.audit();
            let sent = finish(ldterm, queues, store, here);
            Served {
                acts: Acts { notes, sent },
                bytes: bytes - left,
                stopped: left > 0,
                again: false,
            }
        }
    }
}

// Whether a byte has begun.
fn is_under_way(stage: &Stage) -> bool
    ensures { result ≡ nat_lt 0 (stages_left (stage_in stage.now)) }
{
    !matches!(stage, Stage::Between)
}

/// Treats the message in work: the byte that has begun, and those that are left. It ends where something is sent, to be called again,
/// and stops where fewer blocks are free than a byte may take: what is left goes back to the front of its queue then. The cost is
/// in proportion to the bytes that are treated, and a step for each block of the message.
#[inline(always)]
pub(crate) fn treat<B: Blocks>(
    ldterm: &mut Ldterm,
    queues: &mut QueuePair,
    store: &mut B,
    here: Spot,
    told: &mut Fates,
) -> Served
    requires held { IsHeld (B.value store.old) (paired ldterm.old queues.old) }
    requires kept { AreIn (B.value store.old) (λ _. 0) (keeps (paired ldterm.old queues.old)) }
    requires inside { 0 < here.at }
    requires small { here.at ≤ MODULES }
    requires room { HasRoom (B.value store.old) (needs (stage_in ldterm.old.stage)) }
    requires work { is_some ldterm.old.in_work ≡ true }
    ensures { TreatsAs (B.value store.old) (B.value store.new) here (paired ldterm.old queues.old) (paired ldterm.new queues.new) result told.old
        told.new }
{
    if !is_under_way(&ldterm.stage) {
        return treat_on(ldterm, queues, store, here, told);
    }
    let first = resume(ldterm, queues, store, here, told);
    if !first.sent.is_empty() {
        return Served {
            acts: first,
            bytes: 0,
            stopped: false,
            again: true,
        };
    }
    store.audit();
    let rest = treat_on(ldterm, queues, store, here, told);
    Served {
        acts: Acts {
            notes: join(first.notes, rest.acts.notes),
            sent: rest.acts.sent,
        },
        bytes: rest.bytes + 1,
        stopped: rest.stopped,
        again: rest.again,
    }
}

/// What a call did in which a message passed whole, or none.
pub(crate) fn of_whole(passed: Passed) -> Served
    ensures notes { result.acts.notes.items ≡ [] }
    ensures sent { result.acts.sent ≡ passed.sent }
    ensures bytes { result.bytes ≡ passed.bytes }
    ensures stopped { result.stopped ≡ false }
    ensures again { result.again ≡ false }
{
    Served {
        acts: Acts {
            notes: ArrayVec::new(),
            sent: passed.sent,
        },
        bytes: passed.bytes,
        stopped: false,
        again: false,
    }
}

// The first call of a turn of the read queue.
fn serve_input<B: Blocks>(
    ldterm: &mut Ldterm,
    queues: &mut QueuePair,
    store: &mut B,
    here: Spot,
    told: &mut Fates,
) -> Served
    requires held { IsHeld (B.value store.old) (paired ldterm.old queues.old) }
    requires kept { AreIn (B.value store.old) (λ _. 0) (keeps (paired ldterm.old queues.old)) }
    requires inside { 0 < here.at }
    requires small { here.at ≤ MODULES }
    requires room { HasRoom (B.value store.old) 1 }
    requires way { here.way ≡ Up }
    requires rests { (i : ℕ) → keeps (paired ldterm.old queues.old) i ≡ 0 }
    requires quiet { ldterm.old.echoing ≡ false }
    requires stage { stages_left (stage_in ldterm.old.stage) ≡ 0 }
    ensures { ServesAs (B.value store.old) (B.value store.new) here (paired ldterm.old queues.old) (paired ldterm.new queues.new) false result
        told.old told.new }
{
    match begin_input(ldterm, queues, store, here) {
        InputBegun::Empty => of_whole(Passed {
            sent: Outbox::none(),
            bytes: 0,
        }),
        InputBegun::Whole(passed) => of_whole(passed),
        InputBegun::InWork { bytes } => {
            let _ = bytes;
            store.audit();
            treat(ldterm, queues, store, here, told)
        }
    }
}

/// Calls the service procedure of its queue of a way: `srv(9E)`. On the write queue M_DATA goes out byte by byte under OPOST, and all else
/// goes down whole. On the read queue M_DATA is treated byte by byte, and all else goes up whole. `again` is for one more call in the same turn
/// of the read queue, once all is delivered that the last one sent: a call ends where something is sent. It begins a byte only where
/// `STOP_BLOCKS` blocks of each kind are free, and stops within the message only where, before a byte begins, they aren't; the rest of
/// the message goes back to the front of its queue then. Where blocks are many, a message of which no byte would be changed, echoed or acted upon
/// goes on in its own blocks. The cost is in proportion to the bytes that are treated, and a step for each block of the message.
pub fn serve<B: Blocks>(
    ldterm: &mut Ldterm,
    queues: &mut QueuePair,
    store: &mut B,
    here: Spot,
    again: bool,
    told: &mut Fates,
) -> Served
    requires held { IsHeld (B.value store.old) (paired ldterm.old queues.old) }
    requires kept { AreIn (B.value store.old) (λ _. 0) (keeps (paired ldterm.old queues.old)) }
    requires inside { 0 < here.at }
    requires small { here.at ≤ MODULES }
    requires turn { IsServed here.way again (ldterm_in (B.value store.old) (paired ldterm.old queues.old)) }
    requires room { HasRoom (B.value store.old) (needs (stage_in ldterm.old.stage)) }
    ensures { ServesAs (B.value store.old) (B.value store.new) here (paired ldterm.old queues.old) (paired ldterm.new queues.new) again
        result told.old told.new }
{
    match here.way {
        Way::Down => serve_output(ldterm, queues, store, here, told),
        Way::Up if again => treat(ldterm, queues, store, here, told),
        Way::Up => serve_input(ldterm, queues, store, here, told),
    }
}
