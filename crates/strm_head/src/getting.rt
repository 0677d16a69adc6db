//! What a head gives to getmsg(2) and getpmsg(2).

ghost use Rattle.std.specs.Prelude.{◌≡◌, ◌≤◌, ◌<◌, ◌+◌, ◌++◌, ℕ, [], ◌∷◌, List, length, take, min, not, ◌||◌, true, nat_lt, unwrap_or, option_map, Option};
ghost use Rattle.strm_types.specs.Flush.{is_data_kind};
ghost use Rattle.strm_types.specs.Gets.{head_get, parts_of};
ghost use Rattle.strm_types.specs.GetQueues.{gets_none, get_queue, get_lets_go, get_told};
ghost use Rattle.strm_types.specs.Message.{Message, part};
ghost use Rattle.strm_blocks.specs.Blocks.{IsInHand, in_hand, list_at, changed, token};
ghost use Rattle.strm_msg.specs.Bytes.{bytes_of, control_bytes, data_bytes, control_blocks, data_blocks, length_of_part};
ghost use Rattle.strm_msg.specs.Emptied.{without_emptied};
ghost use Rattle.strm_msg.specs.Messages.{message_of, IsChain};
ghost use Rattle.strm_msg.specs.Taken.{without_control, without_data};
ghost use Rattle.strm_queue.specs.Flows.{plain_flows};
ghost use Rattle.strm_queue.specs.Kept.{AreCounted, band_of};
ghost use Rattle.strm_queue.specs.Queues.{OnlyCounts};
ghost use Rattle.strm_queue.specs.Stored.{queue_in, messages_on, IsHeadQueue, Keeps};
ghost use Rattle.strm_head.specs.Getting.{put_rest, prio_at, Gives, TakesFirst};
ghost use Rattle.strm_head.specs.Leaving.{Frees, Leaves};
ghost use Rattle.strm_head.specs.Parted.{cut_by};

use crate::reading::grow;
use crate::standing::get_refusal;
use strm_blocks::{Blocks, InHand};
use strm_msg::{control_len, data_len, free_emptied, take_control, take_data};
use strm_queue::Queue;
use strm_queue::standing::relieve;
use strm_types::{Band, Content, Dir, Fates, Prio, Rule, Wanted};

/// What a getmsg(2) gave of the first message.
#[derive(Clone, Copy, Debug, PartialEq)]
pub struct Gotten {
    /// How many bytes of the control part it gave; none where the message has no control part, or there is no message.
    pub control: Option<u32>,
    /// How many bytes of the data part it gave; none where the message has no data part, or there is no message.
    pub body: Option<u32>,
    /// The priority of the message, band 0 where there is none.
    pub prio: Prio,
    /// MORECTL: bytes of the control part are left.
    pub more_control: bool,
    /// MOREDATA: bytes of the data part are left.
    pub more_data: bool,
    /// Whether a waiting writer is let go.
    pub lets_go: bool,
}

// A get that has nothing to take.
const NOTHING: Gotten = Gotten {
    control: None,
    body: None,
    prio: Prio::Band(Band(0)),
    more_control: false,
    more_data: false,
    lets_go: false,
};

// How many bytes of a part are given, nothing where it is absent, and whether it has more.
#[derive(Clone, Copy)]
struct Piece {
    given: Option<u32>,
    more: bool,
}

// Up to `most` bytes of a part of that length.
fn piece_of(len: Option<usize>, most: usize) -> Piece
    requires { most ≤ 4096 }
    ensures given { result.given ≡ option_map (λ n. min most n) len }
    ensures more { result.more ≡ nat_lt most (unwrap_or len 0) }
{
    match len {
        Some(len) => Piece {
            given: Some(most.min(len) as u32),
            more: most < len,
        },
        None => Piece {
            given: None,
            more: false,
        },
    }
}

// Whether one of two parts has more.
fn has_more(first: Piece, second: Piece) -> bool
    ensures { result ≡ (first.more || second.more) }
{
    first.more || second.more
}

// Takes the first so many bytes off a message's control part into an empty buffer.
fn take_control_into<B: Blocks>(store: &mut B, message: &InHand, count: usize, out: &mut Content)
    requires in_hand { IsInHand (B.value store.old) (token message.now) }
    requires chain { IsChain (in_hand (B.value store.old) (token message.now)) }
    requires has { count ≤ length (control_bytes (in_hand (B.value store.old) (token message.now))) }
    requires room { count ≤ 4096 }
    requires fresh { out.old.items ≡ [] }
    ensures given { out.new.items ≡ take count (control_bytes (in_hand (B.value store.old) (token message.now))) }
    ensures trimmed { let chain = in_hand (B.value store.old) (token message.now) in
        B.value store.new ≡ changed (B.value store.old) (token message.now) (without_control count chain) }
{
    grow(out, count);
    take_control(store, message, out.as_mut_slice());
}

// Takes the first so many bytes off a message's data part, behind what a buffer has.
fn take_data_into<B: Blocks>(store: &mut B, message: &InHand, count: usize, out: &mut Content)
    requires in_hand { IsInHand (B.value store.old) (token message.now) }
    requires has { count ≤ length (data_bytes (in_hand (B.value store.old) (token message.now))) }
    requires room { length out.old.items + count ≤ 8192 }
    ensures given { out.new.items ≡ out.old.items ++ take count (data_bytes (in_hand (B.value store.old) (token message.now))) }
    ensures trimmed { let chain = in_hand (B.value store.old) (token message.now) in
        B.value store.new ≡ changed (B.value store.old) (token message.now) (without_data count chain) }
{
    let from = out.len();
    grow(out, count);
    take_data(store, message, &mut out.as_mut_slice()[from..]);
}

// Takes so many bytes off the parts of a message into an empty buffer, those of the control part first.
fn take_parts<B: Blocks>(
    store: &mut B,
    message: &InHand,
    count: usize,
    data_count: usize,
    out: &mut Content,
)
    requires in_hand { IsInHand (B.value store.old) (token message.now) }
    requires chain { IsChain (in_hand (B.value store.old) (token message.now)) }
    requires has_control { count ≤ length (control_bytes (in_hand (B.value store.old) (token message.now))) }
    requires has_data { data_count ≤ length (data_bytes (in_hand (B.value store.old) (token message.now))) }
    requires room { count ≤ 4096 }
    requires data_room { data_count ≤ 4096 }
    requires fresh { out.old.items ≡ [] }
    ensures given { let chain = in_hand (B.value store.old) (token message.now) in
        out.new.items ≡ take count (control_bytes chain) ++ take data_count (data_bytes chain) }
    ensures cut { let chain = in_hand (B.value store.old) (token message.now) in
        B.value store.new ≡ changed (B.value store.old) (token message.now) (cut_by count data_count chain) }
{
    take_control_into(store, message, count, out);
    take_data_into(store, message, data_count, out);
}

// The priority of a message in hand.
fn prio_of<B: Blocks>(store: &B, message: &InHand) -> Prio
    requires { IsInHand (B.value store.now) (token message.now) }
    ensures { result ≡ prio_at (message_of (in_hand (B.value store.now) (token message.now))) }
{
    store.audit();
    if store.kind(message, 0).is_high_priority() {
        Prio::High
    } else {
        Prio::Band(store.band(message))
    }
}

// Puts back what is left of a message whose bytes were taken, where bytes of its control part or of its data part are left, and
// frees it where none are. Blocks without bytes are freed.
fn put_rest<B: Blocks>(store: &mut B, queue: &mut Queue, message: InHand, left: bool)
    requires counted { AreCounted queue.old.flows (list_at (B.value store.old) queue.old.list) }
    requires in_hand { IsInHand (B.value store.old) (token message) }
    requires some { left ≡ true → 0 < length (bytes_of (in_hand (B.value store.old) (token message))) }
    ensures left { B.value store.new ≡ put_rest left (B.value store.old) (token message) queue.old.list
        (without_emptied (in_hand (B.value store.old) (token message))) }
    ensures counted { AreCounted queue.new.flows (list_at (B.value store.new) queue.new.list) }
    ensures flows { plain_flows queue.new.flows ≡ plain_flows queue.old.flows }
    ensures others { OnlyCounts queue.old queue.new }
{
    if !left {
        store.free(message);
        return;
    }
    let rest = free_emptied(store, message);
    queue.putbq(store, rest);
}

// Takes up to these many bytes of each part of the first message. What is left of the message is put back, and where nothing is
// left it is freed.
fn take_first<B: Blocks>(
    store: &mut B,
    queue: &mut Queue,
    cmax: usize,
    dmax: usize,
    out: &mut Content,
) -> Gotten
    requires ready { IsHeadQueue (B.value store.old) queue.old }
    requires control_most { cmax ≤ 4096 }
    requires data_most { dmax ≤ 4096 }
    requires fresh { out.old.items ≡ [] }
    ensures took { (m : Message ℕ) (rest : List (Message ℕ)) → messages_on (B.value store.old) queue.old.list ≡ m ∷ rest →
        TakesFirst result out.new.items (B.value store.old) (B.value store.new) queue.old queue.new
        (parts_of cmax dmax m rest) }
    ensures leaves { Leaves (list_at (B.value store.old) queue.old.list) (list_at (B.value store.new) queue.old.list) }
    ensures keeps { Keeps (B.value store.old) (B.value store.new) queue.old queue.new }
{
    store.audit();
    let Some(message) = queue.getq(store) else {
        return NOTHING;
    };
    let prio = prio_of(store, &message);
    let first = piece_of(control_len(store, &message), cmax);
    let second = piece_of(data_len(store, &message), dmax);
    take_parts(
        store,
        &message,
        first.given.unwrap_or(0) as usize,
        second.given.unwrap_or(0) as usize,
        out,
    );
    put_rest(store, queue, message, has_more(first, second));
    Gotten {
        control: first.given,
        body: second.given,
        prio,
        more_control: first.more,
        more_data: second.more,
        lets_go: false,
    }
}

// Whether the first message is the one that a get asks for.
fn finds<B: Blocks>(store: &B, queue: &Queue, wanted: Wanted) -> bool
    ensures { result ≡ not (gets_none wanted (messages_on (B.value store.now) queue.now.list)) }
{
    match get_refusal(store, queue, wanted, false) {
        Some(_) => false,
        None => true,
    }
}

/// Gives up to `cmax` bytes of the control part and then up to `dmax` of the data part of the first message, where it is the one
/// that is asked for: getmsg(2), getpmsg(2). It tells that bytes of the direction went to a reader, and says whether a waiting writer
/// is let go. What is left of the message is put back, without a part of which nothing is left; one that has no control part any
/// more is M_DATA, of band 0 where it was of high priority. Where there is nothing to take nothing changes, and both parts are
/// absent. It takes no block, frees each block of what is left that has no bytes, copies each byte once, and takes a step for each
/// block of the message.
pub fn getmsg<B: Blocks>(
    store: &mut B,
    queue: &mut Queue,
    wanted: Wanted,
    cmax: usize,
    dmax: usize,
    out: &mut Content,
    direction: Dir,
    fates: &mut Fates,
) -> Gotten
    requires ready { IsHeadQueue (B.value store.old) queue.old }
    requires control_most { cmax ≤ 4096 }
    requires data_most { dmax ≤ 4096 }
    requires fresh { out.old.items ≡ [] }
    ensures gives { Gives result out.new.items
        (head_get wanted cmax dmax (messages_on (B.value store.old) queue.old.list)) }
    ensures queue { queue_in (B.value store.new) queue.new ≡ get_queue wanted cmax dmax (queue_in (B.value store.old) queue.old) }
    ensures went { result.lets_go ≡ get_lets_go wanted cmax dmax (queue_in (B.value store.old) queue.old) }
    ensures told { fates.new ≡ get_told direction wanted cmax dmax (messages_on (B.value store.old) queue.old.list) fates.old }
    ensures frees { Frees (B.value store.old) (B.value store.new) queue.old.list }
    ensures keeps { Keeps (B.value store.old) (B.value store.new) queue.old queue.new }
    ensures ready { IsHeadQueue (B.value store.new) queue.new }
{
    store.audit();
    if !finds(store, queue, wanted) {
        return NOTHING;
    }
    let mut got = take_first(store, queue, cmax, dmax, out);
    store.audit();
    let count = out.len();
    fates.tell(direction, Rule::Read, count);
    got.lets_go = count > 0 && relieve(queue);
    got
}
