//! What a head gives its readers, in each read mode and control mode (read(2), streamio(7I): I_SRDOPT).

ghost use Rattle.std.specs.Prelude.{◌≡◌, ◌<◌, ◌≤◌, ◌+◌, ◌++◌, ◌-◌, ℕ, Bool, true, false, not, [], length, take, drop, if◌then◌else◌};
ghost use Rattle.std.specs.Bool.{OnTrue, OnFalse};
ghost use Rattle.strm_types.specs.Deliver.{tallied};
ghost use Rattle.strm_types.specs.Queue as plain;
ghost use Rattle.strm_types.specs.Reads.{Drawn, wanted_after, head_draw, none_went, read_queue, read_lets_go, read_fates, read_told};
ghost use Rattle.strm_blocks.specs.Blocks.{IsInHand, in_hand, list_at, token};
ghost use Rattle.strm_msg.specs.Bytes.{bytes_of};
ghost use Rattle.strm_queue.specs.Stored.{queue_in, messages_on, SameFlags, IsReady, IsHeadQueue, Keeps};
ghost use Rattle.strm_head.specs.Leaving.{Frees, Leaves, StepLeaves, Taken};
ghost use Rattle.strm_head.specs.Drawing.{drawn_on, Stepped, discards, drops_control, more_behind, behind_passed, first_goes};

use crate::parts::{leave_rest, show};
use crate::standing::{drops_control, first_passed, takes_none, takes_one};
use strm_blocks::{Blocks, InHand};
use strm_msg::message_size;
use strm_queue::Queue;
use strm_queue::standing::{relieve, total};
use strm_types::{CONTENT_MAX, Content, ControlMode, Dir, Fates, ReadMode, Rule};

/// One step of a read: how many bytes are wanted still, and how many were discarded.
#[derive(Clone, Copy)]
pub(crate) struct Step {
    pub more: usize,
    pub discarded: usize,
}

/// The step that ends a read and discards nothing.
const LAST: Step = Step {
    more: 0,
    discarded: 0,
};

// Bytes that are to be written over.
static BLANK: [u8; CONTENT_MAX] = [0; CONTENT_MAX];

// Adds so many bytes to what a read gives, which are to be written over.
pub(crate) fn grow(out: &mut Content, count: usize)
    requires { length out.old.items + count ≤ 8192 }
    ensures front { take (length out.old.items) out.new.items ≡ out.old.items }
    ensures long { length out.new.items ≡ length out.old.items + count }
{
    out.try_extend_from_slice(&BLANK[..count]).unwrap();
}

// Adds the first so many bytes of a message, which keeps them, to what a read gives.
fn copy_into<B: Blocks>(store: &B, message: &InHand, count: usize, out: &mut Content)
    requires in_hand { IsInHand (B.value store.now) (token message.now) }
    requires has { count ≤ length (bytes_of (in_hand (B.value store.now) (token message.now))) }
    requires room { length out.old.items + count ≤ 4096 }
    ensures { let chain = in_hand (B.value store.now) (token message.now) in
        out.new.items ≡ out.old.items ++ take count (bytes_of chain) }
{
    store.audit();
    let mut left = count;
    for at in 0..store.blocks(message) {
        let bytes = store.bytes_at(message, at);
        let part = left.min(bytes.len());
        out.try_extend_from_slice(&bytes[..part]).unwrap();
        left -= part;
    }
}

// How many bytes a read still wants behind a message of this size: a read of messages ends with its message.
fn still_wanted(read: ReadMode, wanted: usize, size: usize) -> usize
    requires { size ≤ wanted }
    ensures { result ≡ wanted_after read wanted size }
{
    match read {
        ReadMode::ByteStream => wanted - size,
        _ => 0,
    }
}

// Whether what a read leaves of a message is discarded.
fn discards(read: ReadMode) -> bool
    ensures { result ≡ discards read }
{
    matches!(read, ReadMode::MessageDiscard)
}

// The step that took a message of this size away: what it has beyond what is wanted was discarded.
fn step_behind(read: ReadMode, wanted: usize, size: usize) -> Step
    ensures more { result.more ≡ more_behind read wanted size }
    ensures discarded { result.discarded ≡ size - wanted }
{
    if size == 0 || wanted < size {
        return Step {
            more: 0,
            discarded: size.saturating_sub(wanted),
        };
    }
    Step {
        more: still_wanted(read, wanted, size),
        discarded: 0,
    }
}

// Whether what a read leaves of a message of this size is put back.
fn keeps_rest(read: ReadMode, wanted: usize, size: usize) -> bool
    ensures keeps { OnTrue result ((wanted < size) × (discards read ≡ false)) }
    ensures goes { OnFalse result (wanted < size → discards read ≡ true) }
{
    wanted < size && !discards(read)
}

// Takes the first message away, if there is one.
fn drop_first<B: Blocks>(store: &mut B, queue: &mut Queue)
    requires ready { IsHeadQueue (B.value store.old) queue.old }
    ensures left { messages_on (B.value store.new) queue.old.list ≡ drop 1 (messages_on (B.value store.old) queue.old.list) }
    ensures taken { Taken (list_at (B.value store.old) queue.old.list) (list_at (B.value store.new) queue.old.list) }
    ensures flags { SameFlags queue.old queue.new }
    ensures keeps { Keeps (B.value store.old) (B.value store.new) queue.old queue.new }
{
    store.audit();
    let Some(message) = queue.getq(store) else {
        return;
    };
    store.free(message);
}

// Takes the messages away that a read passes over, up to the first that it doesn't.
fn drop_passed<B: Blocks>(store: &mut B, queue: &mut Queue, control: ControlMode)
    requires ready { IsHeadQueue (B.value store.old) queue.old }
    ensures left { messages_on (B.value store.new) queue.old.list
        ≡ behind_passed control (messages_on (B.value store.old) queue.old.list) }
    ensures taken { Taken (list_at (B.value store.old) queue.old.list) (list_at (B.value store.new) queue.old.list) }
    ensures flags { SameFlags queue.old queue.new }
    ensures keeps { Keeps (B.value store.old) (B.value store.new) queue.old queue.new }
{
    if !drops_control(control) {
        return;
    }
    let mut passed = first_passed(store, queue, control);
    while passed {
        drop_first(store, queue);
        passed = first_passed(store, queue, control);
    }
}

// Adds up to `wanted` bytes of the first message to `out`. What is left of it is put back, or discarded under RMSGD.
fn take_first<B: Blocks>(
    store: &mut B,
    queue: &mut Queue,
    read: ReadMode,
    control: ControlMode,
    wanted: usize,
    out: &mut Content,
) -> Step
    requires ready { IsHeadQueue (B.value store.old) queue.old }
    requires some { 0 < wanted }
    requires room { length out.old.items + wanted ≤ 4096 }
    ensures took { let old = messages_on (B.value store.old) queue.old.list in
        let new = messages_on (B.value store.new) queue.old.list in
        (begun : Bool) → first_goes control begun old ≡ true →
        Stepped read control begun wanted result.more result.discarded old new out.old.items out.new.items }
    ensures leaves { let old = list_at (B.value store.old) queue.old.list in
        StepLeaves result.more old (list_at (B.value store.new) queue.old.list) }
    ensures flags { SameFlags queue.old queue.new }
    ensures keeps { Keeps (B.value store.old) (B.value store.new) queue.old queue.new }
{
    store.audit();
    let Some(message) = queue.getq(store) else {
        return LAST;
    };
    show(store, &message, control);
    let len = message_size(store, &message);
    let part = wanted.min(len);
    copy_into(store, &message, part, out);
    if keeps_rest(read, wanted, len) {
        let rest = leave_rest(store, message, wanted);
        queue.putbq(store, rest);
        return LAST;
    }
    store.free(message);
    step_behind(read, wanted, len)
}

// Adds up to `wanted` bytes of the first message that isn't passed over to `out`. Where a read that has begun to give doesn't take it, all
// stay; one that hasn't finds one that it takes.
fn draw_first<B: Blocks>(
    store: &mut B,
    queue: &mut Queue,
    read: ReadMode,
    control: ControlMode,
    begun: bool,
    wanted: usize,
    out: &mut Content,
) -> Step
    requires ready { IsHeadQueue (B.value store.old) queue.old }
    requires some { 0 < wanted }
    requires room { length out.old.items + wanted ≤ 4096 }
    requires goes { begun ≡ false → first_goes control false (behind_passed control (messages_on (B.value store.old) queue.old.list)) ≡ true }
    ensures took { let old = messages_on (B.value store.old) queue.old.list in
        let new = messages_on (B.value store.new) queue.old.list in
        Stepped read control begun wanted result.more result.discarded old new out.old.items out.new.items }
    ensures leaves { let old = list_at (B.value store.old) queue.old.list in
        StepLeaves result.more old (list_at (B.value store.new) queue.old.list) }
    ensures flags { SameFlags queue.old queue.new }
    ensures keeps { Keeps (B.value store.old) (B.value store.new) queue.old queue.new }
{
    if !takes_one(store, queue, control, begun) {
        return LAST;
    }
    drop_passed(store, queue, control);
    take_first(store, queue, read, control, wanted, out)
}

// Adds up to `wanted` bytes of the first messages to `out`, of which there is one that the read takes, and says how many were discarded.
fn gather<B: Blocks>(
    store: &mut B,
    queue: &mut Queue,
    read: ReadMode,
    control: ControlMode,
    wanted: usize,
    out: &mut Content,
) -> usize
    requires ready { IsHeadQueue (B.value store.old) queue.old }
    requires room { length out.old.items + wanted ≤ 4096 }
    requires goes { first_goes control false (behind_passed control (messages_on (B.value store.old) queue.old.list)) ≡ true }
    ensures given { let d = drawn_on read control false wanted (messages_on (B.value store.old) queue.old.list) in
        out.new.items ≡ out.old.items ++ d.given }
    ensures discarded { let d = drawn_on read control false wanted (messages_on (B.value store.old) queue.old.list) in
        result ≡ length d.discarded }
    ensures left { messages_on (B.value store.new) queue.old.list
        ≡ (drawn_on read control false wanted (messages_on (B.value store.old) queue.old.list)).left }
    ensures leaves { Leaves (list_at (B.value store.old) queue.old.list) (list_at (B.value store.new) queue.old.list) }
    ensures most { length out.new.items ≤ length out.old.items + wanted }
    ensures flags { SameFlags queue.old queue.new }
    ensures keeps { Keeps (B.value store.old) (B.value store.new) queue.old queue.new }
{
    let mut wanted = wanted;
    let mut begun = false;
    let mut discarded = 0;
    while wanted > 0 {
        let step = draw_first(store, queue, read, control, begun, wanted, out);
        wanted = step.more;
        discarded = step.discarded;
        begun = true;
    }
    discarded
}

// Tells how many bytes were given, discarded and dropped.
fn tell(fates: &mut Fates, direction: Dir, given: usize, discarded: usize, dropped: usize)
    ensures { (d : Drawn ℕ) → length d.given ≡ given → length d.discarded ≡ discarded → length d.dropped ≡ dropped →
        fates.new ≡ tallied (read_fates direction d) fates.old }
{
    fates.tell(direction, Rule::Read, given);
    fates.tell(direction, Rule::RestDiscarded, discarded);
    fates.tell(direction, Rule::ControlDropped, dropped);
}

// Whether bytes went by a read: so many were given, discarded and dropped.
fn went(given: usize, discarded: usize, dropped: usize) -> bool
    ensures { (d : Drawn ℕ) → length d.given ≡ given → length d.discarded ≡ discarded → length d.dropped ≡ dropped →
        none_went d ≡ not result }
{
    given > 0 || discarded > 0 || dropped > 0
}

// How many bytes stand on a queue of which a read may drop some: none but under RPROTDIS.
fn droppable<B: Blocks>(store: &B, queue: &Queue, control: ControlMode) -> usize
    requires { IsReady (B.value store.now) queue.now }
    ensures { result ≡ (if drops_control control then plain.bytes_of (messages_on (B.value store.now) queue.now.list) else 0) }
{
    if drops_control(control) {
        total(store, queue)
    } else {
        0
    }
}

// How many of the bytes that stood on a queue neither stand there still nor were given or discarded.
fn missing(before: usize, after: usize, given: usize, discarded: usize) -> usize
    ensures { result ≡ before - after - given - discarded }
{
    let gone = before.saturating_sub(after);
    gone.saturating_sub(given).saturating_sub(discarded)
}

/// Gives up to `n` bytes of the first messages, tells by which rules bytes go, and says whether a waiting writer is let go.
/// Bytes that leave the queue and are neither given nor discarded are those of control parts. Each block of the message that stays in
/// part shows bytes; all others that were read are free.
pub fn read<B: Blocks>(
    store: &mut B,
    queue: &mut Queue,
    read: ReadMode,
    control: ControlMode,
    n: usize,
    out: &mut Content,
    direction: Dir,
    fates: &mut Fates,
) -> bool
    requires ready { IsHeadQueue (B.value store.old) queue.old }
    requires most { n ≤ 4096 }
    requires fresh { out.old.items ≡ [] }
    ensures given { out.new.items ≡ (head_draw read control n (messages_on (B.value store.old) queue.old.list)).given }
    ensures most_given { length out.new.items ≤ n }
    ensures queue { let q = queue_in (B.value store.old) queue.old in
        queue_in (B.value store.new) queue.new ≡ read_queue read control n q }
    ensures went { result ≡ read_lets_go read control n (queue_in (B.value store.old) queue.old) }
    ensures told { fates.new ≡ read_told direction read control n (messages_on (B.value store.old) queue.old.list) fates.old }
    ensures frees { Frees (B.value store.old) (B.value store.new) queue.old.list }
    ensures keeps { Keeps (B.value store.old) (B.value store.new) queue.old queue.new }
{
    store.audit();
    if takes_none(store, queue, control, n) {
        return false;
    }
    let before = droppable(store, queue, control);
    queue.want_read = false;
    let discarded = gather(store, queue, read, control, n, out);
    store.audit();
    let after = droppable(store, queue, control);
    let dropped = missing(before, after, out.len(), discarded);
    tell(fates, direction, out.len(), discarded, dropped);
    went(out.len(), discarded, dropped) && relieve(queue)
}
