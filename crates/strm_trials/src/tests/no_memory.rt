//! Calls on a pair where all memory is taken. No allocator that counts can stand in its store, which is made with
//! `Global`, so a test takes what there is: whatever asks for more behind that is refused.

use crate::memory::{MOST_TAKEN, all_memory};
use crate::tests::steps::{
    AGAIN, DONE, INVALID, MASTER, SLAVE, SLAVE_HEAD, Step, entries, goes, new_pair, reset, restart,
    runqueues,
};
use std::alloc::{AllocError, Global};
use std::process::Abort;
use std::test::Fail;
use strm_blocks::{Blocks, Reserve, TableStore};
use strm_pair::Pair;
use strm_raw::RawStore;
use strm_types::{
    Answer, Band, Config, Event, FlushQueues, Mode, Prio, ReadMode, Refusal, TIOCGWINSZ, Wanted,
};

pub const SIZES: Config = Config {
    mblks: 64,
    dblks: 64,
    journal_events: 64,
    journal_bytes: 8192,
};

const BYTES: &[u8] = &[b'z'; 300];

const AB: &[u8] = b"ab";

const CDE: &[u8] = b"cde";

// Calls, each with what it answers. All turns that can be made are made behind each of them.
const CALLS: &[Step<'static>] = &[
    Step::Call(MASTER, Event::OpenMaster, DONE),
    Step::Call(MASTER, Event::Unlock, DONE),
    Step::Call(SLAVE, Event::OpenSlave, DONE),
    Step::Call(
        MASTER,
        Event::Write { bytes: BYTES },
        Ok(Answer::Count(300)),
    ),
    Step::Call(SLAVE, Event::Read { n: 4096 }, Ok(Answer::Bytes(300))),
    Step::Call(SLAVE, Event::Read { n: 4096 }, AGAIN),
    Step::Call(
        MASTER,
        Event::Put {
            prio: Prio::Band(Band(1)),
            control: Some(AB),
            body: Some(CDE),
        },
        DONE,
    ),
    Step::Call(
        SLAVE,
        Event::Nread,
        Ok(Answer::Sizes {
            first: 3,
            messages: 1,
        }),
    ),
    Step::Call(
        SLAVE,
        Event::Get {
            wanted: Wanted::Any,
            cmax: 1,
            dmax: 9,
        },
        Ok(Answer::Msg {
            prio: Prio::Band(Band(1)),
            control: Some(1),
            body: Some(3),
            more_control: true,
            more_data: false,
        }),
    ),
    Step::Call(
        SLAVE,
        Event::Get {
            wanted: Wanted::Any,
            cmax: 9,
            dmax: 9,
        },
        Ok(Answer::Msg {
            prio: Prio::Band(Band(1)),
            control: Some(1),
            body: None,
            more_control: false,
            more_data: false,
        }),
    ),
    Step::Call(
        SLAVE,
        Event::Mode {
            mode: Mode::Read(ReadMode::MessageDiscard),
        },
        DONE,
    ),
    Step::Call(SLAVE, Event::Write { bytes: BYTES }, Ok(Answer::Count(300))),
    Step::Call(MASTER, Event::Read { n: 1 }, Ok(Answer::Bytes(1))),
    Step::Call(
        MASTER,
        Event::Flush {
            what: FlushQueues::Both,
            band: None,
        },
        DONE,
    ),
    Step::Call(
        MASTER,
        Event::Flush {
            what: FlushQueues::Read,
            band: Some(Band(0)),
        },
        DONE,
    ),
    Step::Call(
        MASTER,
        Event::Ioctl {
            command: TIOCGWINSZ,
            body: b"ab",
        },
        Ok(Answer::Pending(1)),
    ),
    Step::Call(
        MASTER,
        Event::IoctlResult { number: 1 },
        Ok(Answer::Nak(Refusal::Einval)),
    ),
    Step::Call(
        SLAVE,
        Event::Ioctl {
            command: TIOCGWINSZ,
            body: b"",
        },
        Ok(Answer::Nak(Refusal::Einval)),
    ),
    Step::Call(SLAVE, Event::Signals, Ok(Answer::Signals(0))),
    Step::Call(MASTER, Event::Look, INVALID),
    Step::Call(MASTER, Event::Pop, INVALID),
    Step::Call(SLAVE, Event::Write { bytes: BYTES }, Ok(Answer::Count(300))),
    Step::Call(MASTER, Event::Shut, DONE),
    Step::Call(SLAVE, Event::Shut, DONE),
];

// Makes the turns that can be made; whether none was refused.
fn rests<B: Blocks + Drop>(pair: &mut Pair<B>) -> bool {
    runqueues(pair).stopped.is_none()
}

// Makes so many of the calls, and the turns behind each: the first call that doesn't go as it says, if any.
pub fn first_wrong<B: Blocks + Drop>(pair: &mut Pair<B>, calls: usize) -> Option<usize> {
    let all: &[Step<'_>] = CALLS;
    for at in 0..all.len().min(calls) {
        if !goes(pair, &all[at]) || !rests(pair) {
            return Some(at);
        }
    }
    None
}

// Whether a pair can be cut.
fn is_cut<B: Blocks + Drop>(alloc: Global, pair: &mut Pair<B>) -> bool {
    pair.cut(alloc).is_ok()
}

// How many messages and bytes stand at the slave's head.
fn at_the_head<B: Blocks + Drop>(pair: &Pair<B>) -> (usize, usize) {
    pair.sizes(SLAVE_HEAD)
}

// What is seen of a pair: the first call that doesn't go as it says, how many entries the journal has then, whether it is cut, how many entries
// that leaves, how many there are where it has begun anew, and the first wrong call and the head's sizes once more in a pair as new.
#[derive(Drop)]
struct Seen {
    first: Option<usize>,
    entries: usize,
    is_cut: bool,
    kept: usize,
    anew: usize,
    second: Option<usize>,
    shown: (usize, usize),
}

fn look<B: Blocks + Drop>(alloc: Global, pair: &mut Pair<B>) -> Seen {
    let first = first_wrong(pair, CALLS.len());
    let made = entries(pair);
    let is_cut = is_cut(alloc, pair);
    let kept = entries(pair);
    restart(pair);
    let anew = entries(pair);
    reset(pair);
    let second = first_wrong(pair, CALLS.len());
    Seen {
        first,
        entries: made,
        is_cut,
        kept,
        anew,
        second,
        shown: at_the_head(pair),
    }
}

fn has_memory(alloc: Global) -> bool {
    let Ok(one) = Vec::<u8>::with_capacity(alloc, 1) else {
        return false;
    };
    drop(one);
    true
}

// Makes the calls on a pair where all memory is taken.
fn goes_without_memory<B: Blocks + Drop>(
    rt: &impl Abort,
    alloc: Global,
    pair: &mut Pair<B>,
) -> Result<(), AllocError> {
    let taken = all_memory(alloc)?;
    let most = taken.len() >= MOST_TAKEN;
    let is_left = !most && has_memory(alloc);
    let seen = look(alloc, pair);
    drop(taken);
    assert!(rt; !is_left, "all memory is taken");
    assert!(rt; seen.first.is_none());
    assert!(rt; seen.entries > CALLS.len());
    assert!(rt;
        most || (!seen.is_cut && seen.kept == seen.entries),
        "a cut is refused, and the journal stays"
    );
    assert!(rt; seen.anew == 0, "it begins anew without memory");
    assert!(rt; seen.second.is_none(), "once more, in a pair as new");
    assert!(rt; seen.shown == (0, 0));
    Ok(())
}

fn takes_no_memory<B: Reserve>(rt: &impl Abort, alloc: Global) -> Result<(), AllocError> {
    let mut pair: Pair<B> = new_pair(alloc, SIZES)?;
    goes_without_memory(rt, alloc, &mut pair)
}

#[test]
fn calls_take_no_memory(rt: HostRuntime) -> Result<(), Fail> {
    takes_no_memory::<RawStore>(&rt, rt.alloc())?;
    Ok(takes_no_memory::<TableStore>(&rt, rt.alloc())?)
}
