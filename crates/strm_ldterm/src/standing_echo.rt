//! The echo of a byte, which stands last on the write queue while a turn is under way (termio(7I): ECHO; ldterm(7M)).

ghost use Rattle.std.specs.Prelude.{◌≡◌, ◌<◌, ◌≤◌, ◌*◌, length, [], true, is_some, if◌then◌else◌};
ghost use Rattle.strm_types.specs.declared.rules.Fates.{Fates};
ghost use Rattle.strm_types.specs.declared.spots.Spot.{Spot};
ghost use Rattle.strm_types.specs.Cells.{plain};
ghost use Rattle.strm_types.specs.Message.{data_message};
ghost use Rattle.strm_types.specs.Queue.{put_enables};
ghost use Rattle.strm_types.specs.Typing.{echo_grows, echo_stands, echoed};
ghost use Rattle.strm_types.specs.Write.{chunk_count};
ghost use Rattle.strm_queue.specs.Stored.{IsReady, messages_on, queue_in};
ghost use Rattle.strm_queue.specs.Taken.{TakenLast};
ghost use Rattle.strm_frame.specs.Hands.{AreIn, HasRoom};
ghost use Rattle.strm_ldterm.specs.Stands.{EndsPlain, IsData, IsHeld, IsOrdinary, keeps, ldterm_in, paired};
ghost use Rattle.strm_ldterm.specs.Does.{Proceeds};
ghost use Rattle.strm_ldterm.specs.Echoes.{echo_bytes};
ghost use Rattle.strm_ldterm.specs.Grown.{Grown, Begins, BeginsLast, GrowsLast};
ghost use Rattle.strm_blocks.specs.Blocks.{token};

use crate::echoes::Echo;
use crate::grown_messages::{begin, grow};
use crate::ldterm::Ldterm;
use crate::lines::Line;
use arrayvec::ArrayVec;
use strm_blocks::{Blocks, InHand};
use strm_frame::{QueuePair, direction_at, note_if};
use strm_queue::Queue;
use strm_queue::standing::{enqueue, is_full};
use strm_queue::taking::take_last;
use strm_types::{Band, Fates, Note, Rule, Spot, Way, chunk_count};

// Adds an echo to a message of data, run by run, so many at most.
fn grow_by_runs<B: Blocks>(
    store: &mut B,
    message: InHand,
    plan: Echo,
    line: &Line,
    runs: usize,
) -> InHand
    requires data { IsData (B.value store.old) (token message) }
    requires enough { length (echo_bytes plan line.now) ≤ runs * 256 }
    requires room { HasRoom (B.value store.old) runs }
    ensures kept_name { token result ≡ token message }
    ensures grown { Grown (B.value store.old) (B.value store.new) (token message) (echo_bytes plan line.now) runs }
{
    let mut plan = plan;
    let mut grown = message;
    let mut run = ArrayVec::new();
    for at in 0..runs {
        plan.take_run(line, &mut run);
        grown = grow(store, grown, run.as_slice());
    }
    grown
}

// Makes a message of an echo, run by run, so many at most.
fn begin_by_runs<B: Blocks>(store: &mut B, plan: Echo, line: &Line, runs: usize) -> InHand
    requires some { 0 < runs }
    requires enough { length (echo_bytes plan line.now) ≤ runs * 256 }
    requires room { HasRoom (B.value store.old) runs }
    ensures { Begins (B.value store.old) (B.value store.new) (token result) (echo_bytes plan line.now) runs }
{
    let mut plan = plan;
    let mut run = ArrayVec::new();
    plan.take_run(line, &mut run);
    let begun = begin(store, run.as_slice());
    grow_by_runs(store, begun, plan, line, runs - 1)
}

// Takes the message of data that stands last on a queue into the hand.
fn take_echo<B: Blocks>(store: &mut B, queue: &mut Queue) -> InHand
    requires ready { IsReady (B.value store.old) queue.old }
    requires last { EndsPlain (messages_on (B.value store.old) queue.old.list) }
    ensures taken { TakenLast (B.value store.old) (B.value store.new) queue.old queue.new (token result) }
    ensures ordinary { IsOrdinary (B.value store.new) (token result) }
{
    let Some(echo) = take_last(store, queue) else {
        unreachable!()
    };
    echo
}

// Adds an echo to the message of data that stands last on a queue, run by run, so many at most.
fn grow_echo<B: Blocks>(store: &mut B, queue: &mut Queue, plan: Echo, line: &Line, runs: usize)
    requires ready { IsReady (B.value store.old) queue.old }
    requires last { EndsPlain (messages_on (B.value store.old) queue.old.list) }
    requires enough { length (echo_bytes plan line.now) ≤ runs * 256 }
    requires room { HasRoom (B.value store.old) runs }
    ensures { GrowsLast (B.value store.old) (B.value store.new) queue.old queue.new (echo_bytes plan line.now) runs }
{
    let echo = take_echo(store, queue);
    store.audit();
    let grown = grow_by_runs(store, echo, plan, line, runs);
    store.audit();
    let _ = enqueue(store, queue, grown);
}

// Puts an echo last on a queue, run by run, so many at most, and says whether that enables the queue.
fn begin_echo<B: Blocks>(
    store: &mut B,
    queue: &mut Queue,
    plan: Echo,
    line: &Line,
    runs: usize,
) -> bool
    requires ready { IsReady (B.value store.old) queue.old }
    requires some { 0 < runs }
    requires enough { length (echo_bytes plan line.now) ≤ runs * 256 }
    requires room { HasRoom (B.value store.old) runs }
    ensures begins { BeginsLast (B.value store.old) (B.value store.new) queue.old queue.new (echo_bytes plan line.now) runs }
    ensures enables { result ≡ put_enables (data_message (echo_bytes plan line.now)) (queue_in (B.value store.old) queue.old) }
{
    let begun = begin_by_runs(store, plan, line, runs);
    store.audit();
    enqueue(store, queue, begun)
}

// Lets an echo of some bytes stand last on the write queue, where band 0 isn't full.
fn let_stand<B: Blocks>(
    ldterm: &mut Ldterm,
    queues: &mut QueuePair,
    store: &mut B,
    plan: Echo,
    runs: usize,
) -> ArrayVec<Note, 4>
    requires held { IsHeld (B.value store.old) (paired ldterm.old queues.old) }
    requires kept { AreIn (B.value store.old) (λ _. 0) (keeps (paired ldterm.old queues.old)) }
    requires work { is_some ldterm.old.in_work ≡ true }
    requires some { 0 < runs }
    requires enough { length (echo_bytes plan ldterm.old.line) ≤ runs * 256 }
    requires room { HasRoom (B.value store.old) runs }
    ensures { (here : Spot) (f : Fates) → let s = B.value store.old in let p = ldterm_in s (paired ldterm.old queues.old) in
        let bytes = echo_bytes plan ldterm.old.line in
        Proceeds s (B.value store.new) (paired ldterm.old queues.old) (paired ldterm.new queues.new) runs result.items [] f f
        (record (if ldterm.old.echoing then echo_grows plain here bytes p else echo_stands plain here bytes p) { gone = [] }) }
{
    if ldterm.echoing {
        grow_echo(store, &mut queues.write, plan, &ldterm.line, runs);
        return ArrayVec::new();
    }
    let enables = begin_echo(store, &mut queues.write, plan, &ldterm.line, runs);
    ldterm.echoing = true;
    note_if(enables, Note::Enable(Way::Down))
}

// Adds at most 256 bytes to the message of data that stands last on a queue.
fn grow_run<B: Blocks>(store: &mut B, queue: &mut Queue, run: &[u8])
    requires ready { IsReady (B.value store.old) queue.old }
    requires last { EndsPlain (messages_on (B.value store.old) queue.old.list) }
    requires few { length run.now ≤ 256 }
    requires room { HasRoom (B.value store.old) 1 }
    ensures { GrowsLast (B.value store.old) (B.value store.new) queue.old queue.new run.now 1 }
{
    let echo = take_echo(store, queue);
    store.audit();
    let grown = grow(store, echo, run);
    store.audit();
    let _ = enqueue(store, queue, grown);
}

// Puts at most 256 bytes last on a queue, and says whether that enables it.
fn begin_run<B: Blocks>(store: &mut B, queue: &mut Queue, run: &[u8]) -> bool
    requires ready { IsReady (B.value store.old) queue.old }
    requires few { length run.now ≤ 256 }
    requires room { HasRoom (B.value store.old) 1 }
    ensures begins { BeginsLast (B.value store.old) (B.value store.new) queue.old queue.new run.now 1 }
    ensures enables { result ≡ put_enables (data_message run.now) (queue_in (B.value store.old) queue.old) }
{
    let begun = begin(store, run);
    store.audit();
    enqueue(store, queue, begun)
}

/// Lets bytes stand last on the write queue as the turn's echo, or behind what stands of it, at least one and at most 256: band 0 isn't
/// full. They take one block of each kind at most.
pub(crate) fn stand_run<B: Blocks>(
    ldterm: &mut Ldterm,
    queues: &mut QueuePair,
    store: &mut B,
    run: &[u8],
) -> ArrayVec<Note, 4>
    requires held { IsHeld (B.value store.old) (paired ldterm.old queues.old) }
    requires kept { AreIn (B.value store.old) (λ _. 0) (keeps (paired ldterm.old queues.old)) }
    requires work { is_some ldterm.old.in_work ≡ true }
    requires few { length run.now ≤ 256 }
    requires room { HasRoom (B.value store.old) 1 }
    ensures { (here : Spot) (f : Fates) → let s = B.value store.old in let p = ldterm_in s (paired ldterm.old queues.old) in
        Proceeds s (B.value store.new) (paired ldterm.old queues.old) (paired ldterm.new queues.new) 1 result.items [] f f
        (record (if ldterm.old.echoing then echo_grows plain here run.now p else echo_stands plain here run.now p) { gone = [] }) }
{
    if ldterm.echoing {
        grow_run(store, &mut queues.write, run);
        return ArrayVec::new();
    }
    let enables = begin_run(store, &mut queues.write, run);
    ldterm.echoing = true;
    note_if(enables, Note::Enable(Way::Down))
}

/// Echoes a byte, which is the last of what a byte does. Its echo is told as made in the direction of the write queue, and where band 0
/// of that queue isn't full it stands last there: the turn's echo is one message, which grows. The first byte that is echoed begins it,
/// and that enables the queue as `putq(9F)` says. Where band 0 is full before, none of the echo stands, and all of it is told as gone
/// (EchoFull). It takes one block of each kind at most for each begun 256 bytes. The cost is a step for each byte of the echo, and for
/// each block of the turn's echo.
pub(crate) fn echo<B: Blocks>(
    ldterm: &mut Ldterm,
    queues: &mut QueuePair,
    store: &mut B,
    here: Spot,
    plan: Echo,
    told: &mut Fates,
) -> ArrayVec<Note, 4>
    requires held { IsHeld (B.value store.old) (paired ldterm.old queues.old) }
    requires kept { AreIn (B.value store.old) (λ _. 0) (keeps (paired ldterm.old queues.old)) }
    requires work { is_some ldterm.old.in_work ≡ true }
    requires room { HasRoom (B.value store.old) (chunk_count (length (echo_bytes plan ldterm.old.line))) }
    ensures { let s = B.value store.old in let bytes = echo_bytes plan ldterm.old.line in
        Proceeds s (B.value store.new) (paired ldterm.old queues.old) (paired ldterm.new queues.new) (chunk_count (length bytes)) result.items []
        told.old told.new
        (echoed plain here 0 bytes (ldterm_in s (paired ldterm.old queues.old))) }
{
    let len = plan.len(&ldterm.line);
    if len == 0 {
        return ArrayVec::new();
    }
    store.audit();
    let runs = chunk_count(len);
    let direction = direction_at(Way::Down, here.side);
    told.tell_made(direction, len);
    if is_full(store, &queues.write, Band(0)) {
        told.tell(direction, Rule::EchoFull, len);
        return ArrayVec::new();
    }
    let_stand(ldterm, queues, store, plan, runs)
}
