//! Steps on a pair with a module of a user's own, each with what must come of it.

use crate::tests::pairs::SIZES;
use byte_counter::{NUMBER, count};
use code_page::{PAGE_SIZE, SETPAGE};
use std::process::Abort;
use strm_blocks::Blocks;
use strm_pair::{OwnModule, Pair, Ran};
use strm_types::{Answer, Caller, Content, Dir, Event, Ledger, Refusal, Rule, Side, Wanted};

pub const MASTER: Caller = Caller {
    side: Side::Master,
    group: 0,
    ignores: false,
    orphaned: false,
};

pub const SLAVE: Caller = Caller {
    side: Side::Slave,
    group: 0,
    ignores: false,
    orphaned: false,
};

/// What a call answers, where a read has how many bytes it gives.
pub type Came = Result<Answer<u32>, Refusal>;

pub const DONE: Came = Ok(Answer::Done);

/// A read of all that stands there.
pub const READ: Event<&[u8]> = Event::Read { n: 4096 };

/// The steps that open both sides.
pub const OPENING: [Step<'static>; 3] = [
    Step::Call(MASTER, Event::OpenMaster, DONE),
    Step::Call(MASTER, Event::Unlock, DONE),
    Step::Call(SLAVE, Event::OpenSlave, DONE),
];

/// What a page makes of bytes.
#[derive(Clone, Copy)]
pub enum Page {
    /// Capital letters of small ones.
    Capitals,
    /// The next small letter of each, and `a` of `z`.
    Next,
}

/// A step of a scene, and what must come of it.
pub enum Step<'a> {
    /// A call answers so.
    Call(Caller, Event<&'a [u8]>, Came),
    /// A call answers so, and all turns are made behind it.
    Settles(Caller, Event<&'a [u8]>, Came),
    /// A write of bytes takes all, and all turns are made behind it.
    Writes(Caller, &'a [u8]),
    /// An ioctl of so many bytes of a page sets it, and answers so.
    Set(Caller, Page, usize, Came),
    /// So many turns are made, and then none is left.
    Runs(usize),
    /// The master writes bytes, all turns are made, and the slave reads these.
    Types(&'a [u8], &'a [u8]),
    /// The slave writes bytes, all turns are made, and the master reads these.
    Shows(&'a [u8], &'a [u8]),
    /// A read gives these bytes.
    Reads(Caller, &'a [u8]),
    /// A get gives a message with this control part and this data part.
    Gets(Caller, &'a [u8], &'a [u8]),
    /// So many bytes were written in a direction and so many were made, and so many were read: no other has gone, and none stands there.
    Told(Dir, u64, u64, u64),
    /// The byte counter on the slave's stream has counted so many bytes.
    Counted(u64),
    /// All blocks are free.
    Free,
}

fn next_letter(byte: u8) -> u8 {
    match byte {
        b'a'..=b'y' => byte.wrapping_add(1),
        b'z' => b'a',
        _ => byte,
    }
}

fn other(page: Page, byte: u8) -> u8 {
    match page {
        Page::Capitals => byte.to_ascii_uppercase(),
        Page::Next => next_letter(byte),
    }
}

fn bytes_of(page: Page) -> [u8; PAGE_SIZE] {
    let mut bytes = [0; PAGE_SIZE];
    for at in 0..PAGE_SIZE {
        bytes[at] = other(page, at as u8);
    }
    bytes
}

// What a call answers. Its bytes stand in `out`.
fn calls<B: Blocks + Drop, M: OwnModule>(
    pair: &mut Pair<B, M>,
    caller: Caller,
    event: &Event<&[u8]>,
    out: &mut Content,
) -> Came {
    pair.call(caller, event, out)
}

// Makes all turns.
fn turns<B: Blocks + Drop, M: OwnModule>(pair: &mut Pair<B, M>) -> Ran {
    pair.runqueues()
}

fn ledger<B: Blocks + Drop, M: OwnModule>(pair: &Pair<B, M>, direction: Dir) -> Ledger {
    pair.ledger(direction)
}

fn answers<B: Blocks + Drop, M: OwnModule>(
    pair: &mut Pair<B, M>,
    caller: Caller,
    event: &Event<&[u8]>,
    came: Came,
) -> bool {
    calls(pair, caller, event, &mut Content::new()) == came
}

fn settles<B: Blocks + Drop, M: OwnModule>(
    pair: &mut Pair<B, M>,
    caller: Caller,
    event: &Event<&[u8]>,
    came: Came,
) -> bool {
    let as_told = answers(pair, caller, event, came);
    turns(pair);
    as_told
}

fn sets<B: Blocks + Drop, M: OwnModule>(
    pair: &mut Pair<B, M>,
    caller: Caller,
    page: Page,
    count: usize,
    came: Came,
) -> bool {
    let bytes = bytes_of(page);
    let set = Event::Ioctl {
        command: SETPAGE,
        body: &bytes[..count.min(PAGE_SIZE)],
    };
    answers(pair, caller, &set, came)
}

fn runs<B: Blocks + Drop, M: OwnModule>(pair: &mut Pair<B, M>, count: usize) -> bool {
    let ran = turns(pair);
    ran.turns == count && ran.stopped.is_none()
}

fn reads<B: Blocks + Drop, M: OwnModule>(
    pair: &mut Pair<B, M>,
    caller: Caller,
    bytes: &[u8],
) -> bool {
    let mut out = Content::new();
    let read = calls(pair, caller, &READ, &mut out);
    read.is_ok() && out.as_slice() == bytes
}

// Writes bytes, makes all turns, and says whether all bytes were taken.
fn writes<B: Blocks + Drop, M: OwnModule>(
    pair: &mut Pair<B, M>,
    caller: Caller,
    bytes: &[u8],
) -> bool {
    let wrote = calls(pair, caller, &Event::Write { bytes }, &mut Content::new());
    turns(pair);
    match wrote {
        Ok(Answer::Count(count)) => count as usize == bytes.len(),
        _ => false,
    }
}

const ANY: Event<&[u8]> = Event::Get {
    wanted: Wanted::Any,
    cmax: 4096,
    dmax: 4096,
};

fn gets<B: Blocks + Drop, M: OwnModule>(
    pair: &mut Pair<B, M>,
    caller: Caller,
    control: &[u8],
    body: &[u8],
) -> bool {
    let mut out = Content::new();
    let got = calls(pair, caller, &ANY, &mut out);
    got.is_ok() && out.as_slice().strip_prefix(control) == Some(body)
}

// Whether a ledger tells that so many bytes were written and made, and so many read, and that none stands there.
fn tells(ledger: &Ledger, written: u64, made: u64, read: u64) -> bool {
    ledger.written == written
        && ledger.made == made
        && ledger.queued == 0
        && ledger.inline == 0
        && ledger.fates[Rule::Read.number()] == read
}

fn counted<B: Blocks + Drop, M: OwnModule>(pair: &Pair<B, M>) -> Option<u64> {
    pair.settings(Side::Slave, NUMBER).map(count)
}

fn goes<B: Blocks + Drop, M: OwnModule>(pair: &mut Pair<B, M>, step: &Step<'_>) -> bool {
    match step {
        Step::Call(caller, event, came) => answers(pair, *caller, event, *came),
        Step::Settles(caller, event, came) => settles(pair, *caller, event, *came),
        Step::Set(caller, page, count, came) => sets(pair, *caller, *page, *count, *came),
        Step::Runs(count) => runs(pair, *count),
        Step::Writes(caller, bytes) => writes(pair, *caller, bytes),
        Step::Types(bytes, read) => writes(pair, MASTER, bytes) && reads(pair, SLAVE, read),
        Step::Shows(bytes, read) => writes(pair, SLAVE, bytes) && reads(pair, MASTER, read),
        Step::Reads(caller, bytes) => reads(pair, *caller, bytes),
        Step::Gets(caller, control, body) => gets(pair, *caller, control, body),
        Step::Told(dir, written, made, read) => tells(&ledger(pair, *dir), *written, *made, *read),
        Step::Counted(bytes) => counted(pair) == Some(*bytes),
        Step::Free => pair.free_blocks() == (SIZES.mblks, SIZES.dblks),
    }
}

/// Goes through steps, each of which has to go as it says.
pub fn follow<B: Blocks + Drop, M: OwnModule>(
    rt: &impl Abort,
    pair: &mut Pair<B, M>,
    title: &str,
    steps: &[Step<'_>],
) {
    for index in 0..steps.len() {
        assert!(rt; goes(pair, &steps[index]), "{title}, step {index}");
    }
}
