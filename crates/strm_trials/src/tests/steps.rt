//! Steps of a run on a pair, each with what must come of it.

ghost use Rattle.std.specs.Prelude.{◌≡◌, ◌<◌, ◌≤◌, [], IfOk, replicate};
ghost use Rattle.strm_types.specs.declared.limits.TheConstants.{LISTS};

use std::alloc::{AllocError, Global};
use std::process::Abort;
use strm_blocks::{Blocks, Reserve, Visitor};
use strm_pair::{Pair, Ran};
use strm_types::{
    Answer, Band, Caller, Config, Content, Dir, Event, Ledger, MsgKind, Place, Prio, QueueName,
    Refusal, Rule, Side, Turn, Way,
};

pub const MASTER: Caller = Caller {
    side: Side::Master,
    group: 0,
    ignores: false,
    orphaned: false,
};

pub const SLAVE: Caller = Caller {
    side: Side::Slave,
    group: 0,
    ignores: false,
    orphaned: false,
};

pub const MASTER_DRIVER: QueueName = QueueName {
    side: Side::Master,
    place: Place::Driver,
    way: Way::Down,
};

pub const SLAVE_DRIVER: QueueName = QueueName {
    side: Side::Slave,
    place: Place::Driver,
    way: Way::Down,
};

pub const SLAVE_HEAD: QueueName = QueueName {
    side: Side::Slave,
    place: Place::Head,
    way: Way::Up,
};

pub const ORDINARY: Prio = Prio::Band(Band(0));

pub const SIZES: Config = Config {
    mblks: 256,
    dblks: 256,
    journal_events: 8192,
    journal_bytes: 262144,
};

/// What a call answers, where a read has how many bytes it gives.
pub type Came = Result<Answer<u32>, Refusal>;

pub const DONE: Came = Ok(Answer::Done);

pub const NOT_OPEN: Came = Err(Refusal::Enxio);

pub const INVALID: Came = Err(Refusal::Einval);

pub const AGAIN: Came = Err(Refusal::Eagain);

pub const NO_BLOCKS: Came = Err(Refusal::Enosr);

pub const FULL: Came = Err(Refusal::JournalFull);

/// A step of a run, and what must come of it.
pub enum Step<'a> {
    /// A call answers so.
    Call(Caller, Event<&'a [u8]>, Came),
    /// A read of at most so many bytes gives these.
    Read(Caller, u32, &'a [u8]),
    /// A turn answers so.
    Turn(QueueName, Result<Turn, Refusal>),
    /// So many queues are enabled, and this one first.
    Enabled(usize, Option<QueueName>),
    /// So many message blocks and so many data blocks are free.
    Free(usize, usize),
    /// So many bytes count in a band of a queue, and it is full or isn't.
    Counts(QueueName, Band, usize, bool),
    /// So many messages with so many bytes stand on a queue.
    Sizes(QueueName, usize, usize),
    /// So many bytes have gone by a rule, from the master and from the slave.
    Gone(Rule, u64, u64),
    /// The first message on the list of the master's driver has so many bytes, or there is none.
    Stored(Option<usize>),
    /// The journal has so many entries, and these bytes.
    Entered(usize, &'a [u8]),
    /// The pair is made as new.
    Reset,
    /// The journal begins anew, and the ledger of what the master wrote is as before.
    Restart,
    /// So many turns can be made, and the next one is refused for this.
    Runs(Ran),
}

/// A run on a new pair: what it shows, the pair's sizes, and its steps, in two parts.
pub struct Run<'a> {
    pub title: &'a str,
    pub sizes: Config,
    pub first: &'a [Step<'a>],
    pub then: &'a [Step<'a>],
}

fn gives<B: Blocks + Drop>(pair: &mut Pair<B>, caller: Caller, n: u32, bytes: &[u8]) -> bool {
    match pair.apply(caller, &Event::Read { n }) {
        Ok(Answer::Bytes(given)) => given.as_slice() == bytes,
        _ => false,
    }
}

/// Whether a call answers so.
pub fn answers<B: Blocks + Drop>(
    pair: &mut Pair<B>,
    caller: Caller,
    event: &Event<&[u8]>,
    came: Came,
) -> bool {
    let mut out = Content::new();
    pair.call(caller, event, &mut out) == came
}

fn enables<B: Blocks + Drop>(pair: &Pair<B>, count: usize, first: Option<QueueName>) -> bool {
    pair.enabled().len() == count && pair.first_enabled() == first
}

fn counts<B: Blocks + Drop>(
    pair: &Pair<B>,
    queue: QueueName,
    band: Band,
    bytes: usize,
    full: bool,
) -> bool {
    pair.count(queue, band) == bytes && pair.is_full(queue, band) == full
}

// Sees how many bytes the first block of a list shows.
#[derive(Drop)]
struct FirstBlock {
    bytes: Option<usize>,
}

impl Visitor for FirstBlock {
    ghost use Rattle.std.specs.Prelude.{false, length, Some};

    ghost after = { λ v b. record { bytes = Some (length b.bytes) } };

    ghost goes_on = { λ v. false };

    fn see(&mut self, _first: bool, _kind: MsgKind, _band: Band, bytes: &[u8]) -> bool {
        self.bytes = Some(bytes.len());
        false
    }
}

fn stored<B: Blocks + Drop>(pair: &Pair<B>) -> Option<usize> {
    let mut first = FirstBlock { bytes: None };
    pair.store().visit(1, &mut first);
    first.bytes
}

// How many bytes have gone by a rule, from the master and from the slave.
fn gone<B: Blocks + Drop>(pair: &Pair<B>, rule: Rule) -> (u64, u64) {
    let fates = pair.fates();
    let at = rule.number();
    (fates.from_master[at], fates.from_slave[at])
}

/// How many entries the journal has.
pub fn entries<B: Blocks + Drop>(pair: &Pair<B>) -> usize {
    pair.journal().entries.len()
}

/// Whether the journal has so many entries, and these bytes.
pub fn has_entered<B: Blocks + Drop>(pair: &Pair<B>, count: usize, bytes: &[u8]) -> bool {
    let journal = pair.journal();
    journal.entries.len() == count && journal.bytes == bytes
}

// Whether a ledger has the numbers of another one.
fn is_alike(one: &Ledger, other: &Ledger) -> bool {
    one.written == other.written
        && one.made == other.made
        && one.queued == other.queued
        && one.inline == other.inline
        && one.fates == other.fates
}

// The ledger of what the master wrote.
fn masters_ledger<B: Blocks + Drop>(pair: &Pair<B>) -> Ledger {
    pair.ledger(Dir::MasterToSlave)
}

/// Begins the journal anew.
pub fn restart<B: Blocks + Drop>(pair: &mut Pair<B>) {
    pair.restart();
}

// Begins the journal anew, and says whether the ledger of what the master wrote is as before.
fn keeps_its_ledger<B: Blocks + Drop>(pair: &mut Pair<B>) -> bool {
    let before = masters_ledger(pair);
    restart(pair);
    is_alike(&before, &masters_ledger(pair))
}

/// Makes the turns that can be made.
pub fn runqueues<B: Blocks + Drop>(pair: &mut Pair<B>) -> Ran {
    pair.runqueues()
}

fn turns<B: Blocks + Drop>(pair: &mut Pair<B>, queue: QueueName) -> Result<Turn, Refusal> {
    pair.turn(queue)
}

/// Makes the pair as new.
pub fn reset<B: Blocks + Drop>(pair: &mut Pair<B>) {
    pair.reset();
}

/// Whether what must come of a step comes of it.
pub fn goes<B: Blocks + Drop>(pair: &mut Pair<B>, step: &Step<'_>) -> bool {
    match step {
        Step::Call(caller, event, came) => answers(pair, *caller, event, *came),
        Step::Read(caller, n, bytes) => gives(pair, *caller, *n, bytes),
        Step::Turn(queue, answer) => turns(pair, *queue) == *answer,
        Step::Runs(ran) => runqueues(pair) == *ran,
        Step::Restart => keeps_its_ledger(pair),
        Step::Reset => {
            reset(pair);
            true
        }
        _ => shows(pair, step),
    }
}

// Whether the pair shows what a step says.
fn shows<B: Blocks + Drop>(pair: &Pair<B>, step: &Step<'_>) -> bool {
    match step {
        Step::Enabled(count, first) => enables(pair, *count, *first),
        Step::Free(mblks, dblks) => pair.free_blocks() == (*mblks, *dblks),
        Step::Counts(queue, band, bytes, full) => counts(pair, *queue, *band, *bytes, *full),
        Step::Sizes(queue, messages, bytes) => pair.sizes(*queue) == (*messages, *bytes),
        Step::Gone(rule, master, slave) => gone(pair, *rule) == (*master, *slave),
        Step::Stored(body) => stored(pair) == *body,
        Step::Entered(count, bytes) => has_entered(pair, *count, bytes),
        _ => false,
    }
}

/// Goes through the steps of a run that shows this.
pub fn follow<B: Blocks + Drop>(
    rt: &impl Abort,
    pair: &mut Pair<B>,
    title: &str,
    steps: &[Step<'_>],
) {
    for index in 0..steps.len() {
        assert!(rt; goes(pair, &steps[index]), "{title}, step {index}");
    }
}

// So many blocks, as a store has them.
fn within(blocks: usize) -> usize
    ensures some { 0 < result }
    ensures few { result ≤ 65536 }
{
    if blocks == 0 {
        1
    } else if blocks > 65536 {
        65536
    } else {
        blocks
    }
}

// A store that holds nothing.
fn empty<B: Reserve>(alloc: Global, mblks: usize, dblks: usize) -> Result<B, AllocError>
    requires some_mblks { 0 < mblks }
    requires few_mblks { mblks ≤ 65536 }
    requires some_dblks { 0 < dblks }
    requires few_dblks { dblks ≤ 65536 }
    ensures lists { IfOk result (λ store. (B.value store).lists ≡ replicate LISTS []) }
    ensures hand { IfOk result (λ store. (B.value store).hand ≡ []) }
{
    B::reserve(alloc, mblks, dblks)
}

/// A store of 1 to 65536 blocks of each kind, which holds nothing.
pub fn store_of<B: Reserve>(alloc: Global, sizes: &Config) -> Result<B, AllocError>
    ensures lists { IfOk result (λ store. (B.value store).lists ≡ replicate LISTS []) }
    ensures hand { IfOk result (λ store. (B.value store).hand ≡ []) }
{
    empty(alloc, within(sizes.mblks), within(sizes.dblks))
}

/// A pair that nobody opened, of 1 to 65536 blocks of each kind.
pub fn new_pair<B: Reserve>(alloc: Global, sizes: Config) -> Result<Pair<B>, AllocError> {
    let store: B = store_of(alloc, &sizes)?;
    let Ok(pair) = Pair::new(alloc, sizes, store) else {
        return Err(AllocError);
    };
    Ok(pair)
}

/// A pair that is made of an image, unless that is refused.
pub fn restored<B: Reserve>(
    alloc: Global,
    sizes: Config,
    image: &[u8],
) -> Result<Option<Pair<B>>, AllocError> {
    let store: B = store_of(alloc, &sizes)?;
    Ok(Pair::restore(alloc, sizes, image, store).ok())
}

/// The steps that open both sides.
pub const OPENING: [Step<'static>; 3] = [
    Step::Call(MASTER, Event::OpenMaster, DONE),
    Step::Call(MASTER, Event::Unlock, DONE),
    Step::Call(MASTER, Event::OpenSlave, DONE),
];

/// Opens both sides.
pub fn opens<B: Blocks + Drop>(rt: &impl Abort, pair: &mut Pair<B>) {
    follow(rt, pair, "opening", &OPENING);
}

/// Goes through the steps of a run on a new pair of its sizes.
pub fn follow_run<B: Reserve>(
    rt: &impl Abort,
    alloc: Global,
    run: &Run<'_>,
) -> Result<(), AllocError> {
    let mut pair: Pair<B> = new_pair(alloc, run.sizes)?;
    follow(rt, &mut pair, run.title, run.first);
    follow(rt, &mut pair, run.title, run.then);
    Ok(())
}
