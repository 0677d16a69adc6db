//! Steps that are taken at a stream head, each with what must come of it.

ghost use Rattle.std.specs.Prelude.{◌≡◌, []};
ghost use Rattle.strm_blocks.specs.Blocks.{IsInHand, in_hand, token};
ghost use Rattle.strm_msg.specs.Messages.{IsChain};
ghost use Rattle.strm_queue.specs.Stored.{IsHeadQueue};

use super::made::{Sent, chunk, flush_message, fresh, one_block, put_message, two_blocks};
use std::alloc::{AllocError, Global};
use std::process::Abort;
use strm_blocks::{Blocks, InHand, Reserve, TableStore};
use strm_head::{Came, Down, Gotten, Head, Vectored, getmsg};
use strm_queue::Table;
use strm_raw::RawStore;
use strm_types::{
    Answer, Band, Content, ControlMode, Dir, Fates, FlushAsked, MsgKind, Prio, ReadMode, Refusal,
    Rule, Side, Spot, Wanted, Way,
};

/// What a get hands back: how many bytes of the control part and of the data part it gives, where there is one, the message's priority,
/// whether bytes of each part are left, and the bytes, those of the control part first.
pub type Got<'a> = (Option<u32>, Option<u32>, Prio, (bool, bool), &'a [u8]);

/// What comes up to a head or is asked of it, and what must come of it.
pub enum Step<'a> {
    /// A message of one block comes up, and this goes down.
    Comes(MsgKind, &'a [u8], Option<Down>),
    /// The same, where so many bytes are flushed, and so many go as those of a second M_PCPROTO.
    Takes(MsgKind, &'a [u8], Option<Down>, u64, u64),
    /// A message of two blocks comes up, of which the second is of M_DATA. Nothing goes down.
    ComesInTwo(MsgKind, &'a [u8], &'a [u8]),
    /// A message that a putmsg makes comes up.
    Sent(Sent<'a>),
    /// No putmsg makes a message of nothing.
    SendsNone(Prio),
    /// A chunk of a write comes up.
    Writes(&'a [u8]),
    /// An M_FLUSH comes up, and this one goes down.
    Flushes(FlushAsked, FlushAsked),
    /// The modes are these from now on.
    SetModes(ReadMode, ControlMode),
    /// A read of so many bytes, at the end of the input or not, is refused for this.
    ReadRefused(bool, usize, Option<Refusal>),
    /// A read of so many bytes gives these, so many are discarded, and so many of control parts dropped.
    Read(usize, &'a [u8], u64, u64),
    /// A read into a vector, at the end of the input or not, gives these bytes or is refused.
    Vector(bool, Result<&'a [u8], Refusal>),
    /// A message is there that a get of high priority may have, or none is.
    HasHigh(bool),
    /// A get with room for so many bytes of each part hands this back.
    Get(Wanted, usize, usize, Got<'a>),
    /// A get of any message, whatever it hands back.
    Draw(usize, usize),
    /// So many bytes wait in the first message's data part, and so many messages.
    Waits(u32, u32),
    /// The other end is gone or isn't.
    HungUp(bool),
    /// So many blocks of each kind are free.
    Free(usize),
    /// These signals wait, and are taken.
    Signals(&'a [u8]),
    /// The read mode is this.
    ReadsIn(ReadMode),
    /// The last band has this high-water and this low-water mark.
    Marked(u32, u32),
    /// An ioctl of this number and command begins.
    Begins(u32, u32),
    /// The caller is told this of the ioctl under way, with these bytes.
    Told(Answer<u32>, &'a [u8]),
    /// A call for the answer of the ioctl of this number is refused for this.
    Refuses(u32, Option<Refusal>),
}

/// What steps at new heads show, the first steps at each, and what follows at one of them after the other.
pub struct Run<'a> {
    pub title: &'a str,
    pub first: &'a [Step<'a>],
    pub thens: &'a [&'a [Step<'a>]],
}

// The head of the slave's stream.
const HERE: Spot = Spot {
    side: Side::Slave,
    at: 0,
    way: Way::Up,
};

// A message comes up.
fn arrives<B: Blocks>(store: &mut B, head: &mut Head, message: InHand, told: &mut Fates) -> Came
    requires ready { IsHeadQueue (B.value store.old) head.old.queue }
    requires in_hand { IsInHand (B.value store.old) (token message) }
    requires chain { IsChain (in_hand (B.value store.old) (token message)) }
    ensures { IsHeadQueue (B.value store.new) head.new.queue }
{
    head.put(store, HERE, message, told)
}

fn goes_down(came: Came, down: Option<Down>) -> bool {
    !came.lets_go && came.down == down
}

/// Whether this goes down for a message that comes up, so many bytes are flushed, and so many go as those of a second M_PCPROTO.
pub fn answers<B: Blocks>(
    store: &mut B,
    head: &mut Head,
    message: (MsgKind, &[u8]),
    down: Option<Down>,
    gone: (u64, u64),
) -> bool
    requires { IsHeadQueue (B.value store.old) head.old.queue }
    ensures { IsHeadQueue (B.value store.new) head.new.queue }
{
    let Some(message) = one_block(store, head, message.0, message.1) else {
        return false;
    };
    let mut told = Fates::none();
    let came = arrives(store, head, message, &mut told);
    let flushed = told.from_master[Rule::Flushed.number()];
    let doubled = told.from_master[Rule::Doubled.number()];
    goes_down(came, down) && (flushed, doubled) == gone
}

// Whether nothing goes down for a message of two blocks that comes up.
fn takes_two<B: Blocks>(
    store: &mut B,
    head: &mut Head,
    kind: MsgKind,
    front: &[u8],
    behind: &[u8],
) -> bool
    requires { IsHeadQueue (B.value store.old) head.old.queue }
    ensures { IsHeadQueue (B.value store.new) head.new.queue }
{
    let Some(message) = two_blocks(store, head, kind, front, behind) else {
        return false;
    };
    goes_down(arrives(store, head, message, &mut Fates::none()), None)
}

// Whether there is a message of these parts, for which nothing goes down when it comes up.
fn takes_sent<B: Blocks>(store: &mut B, head: &mut Head, sent: Sent<'_>) -> bool
    requires { IsHeadQueue (B.value store.old) head.old.queue }
    ensures { IsHeadQueue (B.value store.new) head.new.queue }
{
    let Some(message) = put_message(store, head, sent) else {
        return false;
    };
    goes_down(arrives(store, head, message, &mut Fates::none()), None)
}

// Whether one block fewer of each kind is free.
fn took_one(before: (usize, usize), now: (usize, usize)) -> bool {
    before.0.checked_sub(1) == Some(now.0) && before.1.checked_sub(1) == Some(now.1)
}

// Whether a chunk of a write takes a block of each kind, and nothing goes down for it when it comes up.
fn writes<B: Blocks>(store: &mut B, head: &mut Head, bytes: &[u8]) -> bool
    requires { IsHeadQueue (B.value store.old) head.old.queue }
    ensures { IsHeadQueue (B.value store.new) head.new.queue }
{
    let free = store.free_blocks();
    let Some(message) = chunk(store, head, bytes) else {
        return false;
    };
    let took = took_one(free, store.free_blocks());
    let came = arrives(store, head, message, &mut Fates::none());
    took && goes_down(came, None)
}

// Whether this M_FLUSH goes down for one that comes up.
fn flushes<B: Blocks>(store: &mut B, head: &mut Head, asked: FlushAsked, down: FlushAsked) -> bool
    requires { IsHeadQueue (B.value store.old) head.old.queue }
    ensures { IsHeadQueue (B.value store.new) head.new.queue }
{
    let Some(message) = flush_message(store, head, asked) else {
        return false;
    };
    let came = arrives(store, head, message, &mut Fates::none());
    goes_down(came, Some(Down::Flush(down)))
}

// Reads up to so many bytes into an empty buffer.
fn read<B: Blocks>(store: &mut B, head: &mut Head, n: usize, out: &mut Content, told: &mut Fates)
    requires ready { IsHeadQueue (B.value store.old) head.old.queue }
    requires fresh { out.old.items ≡ [] }
    ensures { IsHeadQueue (B.value store.new) head.new.queue }
{
    head.read(store, n.min(4096), out, Dir::MasterToSlave, told);
}

// Whether a read gives these bytes, all of which are told to have gone, and so many are discarded and dropped.
fn reads<B: Blocks>(
    store: &mut B,
    head: &mut Head,
    n: usize,
    bytes: &[u8],
    gone: (u64, u64),
) -> bool
    requires { IsHeadQueue (B.value store.old) head.old.queue }
    ensures { IsHeadQueue (B.value store.new) head.new.queue }
{
    let mut out = Content::new();
    let mut told = Fates::none();
    read(store, head, n, &mut out, &mut told);
    let count = told.from_master[Rule::Read.number()];
    let discarded = told.from_master[Rule::RestDiscarded.number()];
    let dropped = told.from_master[Rule::ControlDropped.number()];
    out.as_slice() == bytes && count == bytes.len() as u64 && (discarded, dropped) == gone
}

// Reads up to 100 bytes into a vector, and says what it has, whether a writer is let go, and how many bytes are told to have gone.
fn read_vector<B: Blocks>(
    alloc: Global,
    store: &mut B,
    head: &mut Head,
    at_end: bool,
    told: &mut Fates,
) -> Result<Vectored, Refusal>
    requires { IsHeadQueue (B.value store.old) head.old.queue }
    ensures { IsHeadQueue (B.value store.new) head.new.queue }
{
    head.read_vec(alloc, store, at_end, 100, Dir::MasterToSlave, told)
}

fn has_filled(came: Result<Vectored, Refusal>, wanted: Result<&[u8], Refusal>) -> bool {
    match (came, wanted) {
        (Ok(read), Ok(bytes)) => read.bytes.as_slice() == bytes && !read.lets_go,
        (Err(refusal), Err(wanted)) => refusal == wanted,
        (Ok(_), Err(_)) | (Err(_), Ok(_)) => false,
    }
}

/// Whether a read into a vector gives these bytes, all of which are told to have gone and no writer waits for, or is refused for this.
pub fn fills<B: Blocks>(
    alloc: Global,
    store: &mut B,
    head: &mut Head,
    at_end: bool,
    wanted: Result<&[u8], Refusal>,
) -> bool
    requires { IsHeadQueue (B.value store.old) head.old.queue }
    ensures { IsHeadQueue (B.value store.new) head.new.queue }
{
    let mut told = Fates::none();
    let came = read_vector(alloc, store, head, at_end, &mut told);
    let count = match wanted {
        Ok(bytes) => bytes.len() as u64,
        Err(_) => 0,
    };
    has_filled(came, wanted) && told.from_master[Rule::Read.number()] == count
}

// Gets with room for so many bytes of each part, into an empty buffer.
fn get<B: Blocks>(
    store: &mut B,
    head: &mut Head,
    asked: (Wanted, usize, usize),
    out: &mut Content,
    told: &mut Fates,
) -> Gotten
    requires ready { IsHeadQueue (B.value store.old) head.old.queue }
    requires fresh { out.old.items ≡ [] }
    ensures { IsHeadQueue (B.value store.new) head.new.queue }
{
    getmsg(
        store,
        &mut head.queue,
        asked.0,
        asked.1.min(4096),
        asked.2.min(4096),
        out,
        Dir::MasterToSlave,
        told,
    )
}

fn is_gotten(got: Gotten, out: &[u8], wanted: Got<'_>) -> bool {
    let (control, body, prio, more, bytes) = wanted;
    let wanted = Gotten {
        control,
        body,
        prio,
        more_control: more.0,
        more_data: more.1,
        lets_go: false,
    };
    got == wanted && out == bytes
}

// Whether a get hands this back, all of which is told to have gone, and no writer waits.
fn gives<B: Blocks>(
    store: &mut B,
    head: &mut Head,
    asked: (Wanted, usize, usize),
    wanted: Got<'_>,
) -> bool
    requires { IsHeadQueue (B.value store.old) head.old.queue }
    ensures { IsHeadQueue (B.value store.new) head.new.queue }
{
    let mut out = Content::new();
    let mut told = Fates::none();
    let got = get(store, head, asked, &mut out, &mut told);
    let count = told.from_master[Rule::Read.number()];
    is_gotten(got, out.as_slice(), wanted) && count == out.len() as u64
}

fn draws<B: Blocks>(store: &mut B, head: &mut Head, cmax: usize, dmax: usize) -> bool
    requires { IsHeadQueue (B.value store.old) head.old.queue }
    ensures { IsHeadQueue (B.value store.new) head.new.queue }
{
    let asked = (Wanted::Any, cmax, dmax);
    get(store, head, asked, &mut Content::new(), &mut Fates::none());
    true
}

fn sets_modes(head: &mut Head, read: ReadMode, control: ControlMode) -> bool
    ensures { head.new.queue ≡ head.old.queue }
{
    head.set_read_mode(read);
    head.set_control_mode(control);
    true
}

// Takes the signals that wait, and says whether they are these.
fn has_signals(head: &mut Head, numbers: &[u8]) -> bool
    ensures { head.new.queue ≡ head.old.queue }
{
    let mut out = Content::new();
    head.take_signals(&mut out);
    out.as_slice() == numbers
}

// Begins an ioctl, and says whether none was under way.
fn begins(head: &mut Head, number: u32, command: u32) -> bool
    ensures { head.new.queue ≡ head.old.queue }
{
    let idle = head.is_idle();
    head.begin_ioctl(number, command);
    idle
}

// Asks what became of the ioctl under way, and says whether this is told, with these bytes.
fn tells(head: &mut Head, answer: Answer<u32>, bytes: &[u8]) -> bool
    ensures { head.new.queue ≡ head.old.queue }
{
    let mut out = Content::new();
    let told = head.tell_ioctl(&mut out);
    told == answer && out.as_slice() == bytes
}

fn waits<B: Blocks>(store: &B, head: &Head, first: u32, messages: u32) -> bool
    requires { IsHeadQueue (B.value store.now) head.now.queue }
{
    let waiting = head.nread(store);
    (waiting.first, waiting.messages) == (first, messages)
}

fn is_marked(head: &Head, high: u32, low: u32) -> bool {
    let flow = head.queue.flows.at(Band(255));
    (flow.high, flow.low) == (high, low)
}

// Whether what is to be seen of a head is seen, which changes nothing but what the head tells once.
fn is_so<B: Blocks>(store: &B, head: &mut Head, step: &Step<'_>) -> bool
    requires { IsHeadQueue (B.value store.now) head.old.queue }
    ensures { head.new.queue ≡ head.old.queue }
{
    match step {
        Step::SetModes(read, control) => sets_modes(head, *read, *control),
        Step::ReadRefused(at_end, n, refusal) => head.read_refusal(store, *at_end, *n) == *refusal,
        Step::HasHigh(is) => head.get_refusal(store, Wanted::High, false).is_none() == *is,
        Step::Waits(first, messages) => waits(store, head, *first, *messages),
        Step::HungUp(is) => head.hung_up == *is,
        Step::Free(blocks) => store.free_blocks() == (*blocks, *blocks),
        Step::Signals(numbers) => has_signals(head, numbers),
        Step::ReadsIn(mode) => head.read_mode == *mode,
        Step::Marked(high, low) => is_marked(head, *high, *low),
        Step::Begins(number, command) => begins(head, *number, *command),
        Step::Told(answer, bytes) => tells(head, *answer, bytes),
        Step::Refuses(number, refusal) => head.result_refusal(*number) == *refusal,
        _ => false,
    }
}

// Takes a step, and says whether what must come of it does.
fn goes<B: Blocks>(alloc: Global, store: &mut B, head: &mut Head, step: &Step<'_>) -> bool
    requires { IsHeadQueue (B.value store.old) head.old.queue }
    ensures { IsHeadQueue (B.value store.new) head.new.queue }
{
    match step {
        Step::Comes(kind, bytes, down) => answers(store, head, (*kind, bytes), *down, (0, 0)),
        Step::Takes(kind, bytes, down, flushed, doubled) => {
            answers(store, head, (*kind, bytes), *down, (*flushed, *doubled))
        }
        Step::ComesInTwo(kind, front, behind) => { takes_two(store, head, *kind, front, behind) }
        Step::Sent(sent) => takes_sent(store, head, *sent),
        Step::SendsNone(prio) => !takes_sent(store, head, (*prio, None, None)),
        Step::Writes(chunk) => writes(store, head, chunk),
        Step::Flushes(asked, down) => flushes(store, head, *asked, *down),
        Step::Read(n, bytes, rest, control) => reads(store, head, *n, bytes, (*rest, *control)),
        Step::Vector(at_end, wanted) => fills(alloc, store, head, *at_end, *wanted),
        Step::Get(wanted, cmax, dmax, got) => gives(store, head, (*wanted, *cmax, *dmax), *got),
        Step::Draw(cmax, dmax) => draws(store, head, *cmax, *dmax),
        step => is_so(store, head, step),
    }
}

// Takes steps in turn.
fn follow<B: Blocks>(
    rt: &impl Abort,
    alloc: Global,
    store: &mut B,
    head: &mut Head,
    part: (&str, &[Step<'_>]),
)
    requires { IsHeadQueue (B.value store.old) head.old.queue }
    ensures { IsHeadQueue (B.value store.new) head.new.queue }
{
    let (title, steps) = part;
    for at in 0..steps.len() {
        assert!(rt; goes(alloc, store, head, &steps[at]), "{title}: step {at}");
    }
}

// Takes steps in turn at a new head of a store with ten free blocks of each kind.
fn play<B: Reserve>(
    rt: &impl Abort,
    alloc: Global,
    run: &Run<'_>,
    then: &[Step<'_>],
) -> Result<(), AllocError> {
    let mut store = B::reserve(alloc, 10, 10)?;
    let mut head = fresh(&store, Table::new(alloc)?);
    follow(rt, alloc, &mut store, &mut head, (run.title, run.first));
    follow(rt, alloc, &mut store, &mut head, (run.title, then));
    Ok(())
}

/// Takes the steps of runs, each over tables and over raw blocks.
pub fn plays(rt: &impl Abort, alloc: Global, runs: &[Run<'_>]) -> Result<(), AllocError> {
    for run in runs {
        for then in run.thens {
            play::<TableStore>(rt, alloc, run, then)?;
            play::<RawStore>(rt, alloc, run, then)?;
        }
    }
    Ok(())
}
