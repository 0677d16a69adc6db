//! Calls and turns on a pair, with answers worked out by hand.

mod books;
mod cuts;
mod imaging;
mod ioctls;
mod messages;
mod no_memory;
mod refused;
mod restarts;
mod restoring;
mod running;
mod steps;
mod texts;

use crate::tests::steps::*;
use crate::tests::texts::buffer;
use std::alloc::{AllocError, Global};
use std::process::Abort;
use std::test::Fail;
use strm_blocks::{Blocks, Reserve, TableStore};
use strm_pair::Pair;
use strm_raw::RawStore;
use strm_types::{Answer, Band, Config, Event, FlushQueues, ModuleName, Refusal, Rule, Turn};

const CROSSING: [Step<'static>; 10] = [
    Step::Call(MASTER, Event::Write { bytes: b"abc" }, Ok(Answer::Count(3))),
    Step::Enabled(1, Some(MASTER_DRIVER)),
    Step::Turn(MASTER_DRIVER, Ok(Turn::Moved(3))),
    Step::Enabled(0, None),
    Step::Read(SLAVE, 2, b"ab"),
    Step::Read(SLAVE, 10, b"c"),
    Step::Call(SLAVE, Event::Read { n: 10 }, AGAIN),
    Step::Read(SLAVE, 0, b""),
    Step::Free(256, 256),
    Step::Entered(8, b"abcabc"),
];

const LONG: &[u8] = &[b'z'; 600];

const FILLING: [Step<'static>; 5] = [
    Step::Call(MASTER, Event::Write { bytes: LONG }, Ok(Answer::Count(512))),
    Step::Counts(MASTER_DRIVER, Band(0), 512, true),
    Step::Call(MASTER, Event::Write { bytes: b"z" }, AGAIN),
    Step::Turn(MASTER_DRIVER, Ok(Turn::Moved(256))),
    Step::Call(MASTER, Event::Write { bytes: b"z" }, Ok(Answer::Count(1))),
];

const RENEWING: [Step<'static>; 14] = [
    Step::Call(MASTER, Event::Write { bytes: LONG }, Ok(Answer::Count(512))),
    Step::Turn(MASTER_DRIVER, Ok(Turn::Moved(256))),
    Step::Counts(MASTER_DRIVER, Band(0), 256, false),
    Step::Counts(SLAVE_HEAD, Band(0), 256, false),
    Step::Stored(Some(256)),
    Step::Reset,
    Step::Counts(MASTER_DRIVER, Band(0), 0, false),
    Step::Counts(SLAVE_HEAD, Band(0), 0, false),
    Step::Stored(None),
    Step::Enabled(0, None),
    Step::Free(256, 256),
    Step::Entered(0, b""),
    Step::Call(MASTER, Event::OpenMaster, DONE),
    Step::Call(MASTER, Event::OpenSlave, AGAIN),
];

const ONE_BYTE: Event<&'static [u8]> = Event::Write { bytes: b"a" };

const FEW_BLOCKS: Config = Config {
    mblks: 32,
    dblks: 32,
    journal_events: 10,
    journal_bytes: 10,
};

const ONE_BLOCK_MORE: Config = Config {
    mblks: 33,
    dblks: 33,
    journal_events: 10,
    journal_bytes: 10,
};

const A_MESSAGE_BLOCK_MORE: Config = Config {
    mblks: 33,
    dblks: 32,
    journal_events: 10,
    journal_bytes: 10,
};

const A_DATA_BLOCK_MORE: Config = Config {
    mblks: 32,
    dblks: 33,
    journal_events: 10,
    journal_bytes: 10,
};

const TOO_FEW: [Step<'static>; 1] = [Step::Call(MASTER, ONE_BYTE, NO_BLOCKS)];

const ENOUGH: [Step<'static>; 1] = [Step::Call(MASTER, ONE_BYTE, Ok(Answer::Count(1)))];

const THREE_ENTRIES: Config = Config {
    mblks: 256,
    dblks: 256,
    journal_events: 3,
    journal_bytes: 100,
};

const REFUSED_AS_FULL: [Step<'static>; 3] = [
    Step::Call(MASTER, ONE_BYTE, FULL),
    Step::Call(MASTER, Event::Read { n: 1 }, FULL),
    Step::Entered(3, b""),
];

const MANY_ENTRIES: Config = Config {
    mblks: 64,
    dblks: 64,
    journal_events: 20000,
    journal_bytes: 100,
};

const UNLOCKING: [Step<'static>; 1] = [Step::Call(MASTER, Event::Unlock, DONE)];

const FULL_OF_UNLOCKS: [Step<'static>; 2] = [
    Step::Entered(20000, b""),
    Step::Call(MASTER, Event::Unlock, FULL),
];

// A pair is made with room for as many entries as it is asked for, and takes a call for each of them.
fn fills_its_journal<B: Blocks + Drop>(rt: &impl Abort, pair: &mut Pair<B>) {
    follow(rt, pair, "a journal of 20,000 entries", &OPENING);
    for _ in 3..20000 {
        follow(rt, pair, "a journal of 20,000 entries", &UNLOCKING);
    }
    follow(rt, pair, "a journal of 20,000 entries", &FULL_OF_UNLOCKS);
}

fn is_filled<B: Reserve>(rt: &impl Abort, alloc: Global) -> Result<(), AllocError> {
    let mut pair: Pair<B> = new_pair(alloc, MANY_ENTRIES)?;
    fills_its_journal(rt, &mut pair);
    Ok(())
}

#[test]
fn a_journal_of_twenty_thousand_entries_is_filled(rt: HostRuntime) -> Result<(), Fail> {
    Ok(is_filled::<TableStore>(&rt, rt.alloc())?)
}

const BAD_CALLS: [Step<'static>; 15] = [
    Step::Call(MASTER, Event::Read { n: 1 }, NOT_OPEN),
    Step::Call(SLAVE, Event::OpenSlave, NOT_OPEN),
    Step::Call(SLAVE, Event::OpenMaster, DONE),
    Step::Call(MASTER, Event::OpenMaster, INVALID),
    Step::Call(MASTER, Event::OpenSlave, AGAIN),
    Step::Call(SLAVE, Event::Unlock, NOT_OPEN),
    Step::Call(MASTER, Event::Unlock, DONE),
    Step::Call(MASTER, Event::Unlock, DONE),
    Step::Call(MASTER, Event::OpenSlave, DONE),
    Step::Call(MASTER, Event::OpenSlave, INVALID),
    Step::Call(SLAVE, Event::Unlock, INVALID),
    Step::Turn(MASTER_DRIVER, Err(Refusal::Einval)),
    Step::Turn(SLAVE_HEAD, Err(Refusal::Einval)),
    Step::Call(SLAVE, Event::Read { n: u32::MAX }, AGAIN),
    Step::Entered(4, b""),
];

const ALL_BLOCKS: Config = Config {
    mblks: 65536,
    dblks: 65536,
    journal_events: 10,
    journal_bytes: 2097152,
};

// A write of more bytes than the mark is taken up to it.
fn takes_512<B: Blocks + Drop>(rt: &impl Abort, pair: &mut Pair<B>, bytes: &[u8]) {
    assert!(rt; answers(pair, SLAVE, &Event::Write { bytes }, Ok(Answer::Count(512))));
}

fn is_written_to<B: Reserve>(
    rt: &impl Abort,
    alloc: Global,
    bytes: &[u8],
) -> Result<(), AllocError> {
    let mut pair: Pair<B> = new_pair(alloc, ALL_BLOCKS)?;
    opens(rt, &mut pair);
    takes_512(rt, &mut pair, bytes);
    Ok(())
}

#[test]
fn a_huge_write_is_taken_up_to_the_mark(rt: HostRuntime) -> Result<(), Fail> {
    let huge = buffer(rt.alloc(), 7, 1048576)?;
    Ok(is_written_to::<TableStore>(&rt, rt.alloc(), huge.as_slice())?)
}

const WITH_AN_EMPTY_WRITE: [Step<'static>; 9] = [
    Step::Call(MASTER, ONE_BYTE, Ok(Answer::Count(1))),
    Step::Call(MASTER, Event::Write { bytes: b"" }, Ok(Answer::Count(0))),
    Step::Call(MASTER, Event::Write { bytes: b"b" }, Ok(Answer::Count(1))),
    Step::Turn(MASTER_DRIVER, Ok(Turn::Moved(1))),
    Step::Turn(MASTER_DRIVER, Ok(Turn::Moved(0))),
    Step::Turn(MASTER_DRIVER, Ok(Turn::Moved(1))),
    Step::Read(SLAVE, 9, b"a"),
    Step::Read(SLAVE, 9, b""),
    Step::Read(SLAVE, 9, b"b"),
];

const ALL_WRITES: Event<&'static [u8]> = Event::Flush {
    what: FlushQueues::Write,
    band: None,
};

const LAST_BAND: Event<&'static [u8]> = Event::Flush {
    what: FlushQueues::Write,
    band: Some(Band(255)),
};

const FLUSHING: [Step<'static>; 11] = [
    Step::Call(MASTER, Event::Write { bytes: b"abc" }, Ok(Answer::Count(3))),
    Step::Sizes(MASTER_DRIVER, 1, 3),
    Step::Call(MASTER, LAST_BAND, DONE),
    Step::Sizes(MASTER_DRIVER, 1, 3),
    Step::Gone(Rule::Flushed, 0, 0),
    Step::Call(MASTER, ALL_WRITES, DONE),
    Step::Sizes(MASTER_DRIVER, 0, 0),
    Step::Gone(Rule::Flushed, 3, 0),
    Step::Turn(MASTER_DRIVER, Ok(Turn::Idle)),
    Step::Call(SLAVE, Event::Read { n: 1 }, AGAIN),
    Step::Entered(7, b"abc"),
];

const CLOSING_THE_SLAVE: [Step<'static>; 11] = [
    Step::Call(MASTER, Event::Write { bytes: b"abc" }, Ok(Answer::Count(3))),
    Step::Turn(MASTER_DRIVER, Ok(Turn::Moved(3))),
    Step::Call(SLAVE, Event::Shut, DONE),
    Step::Read(MASTER, 9, b""),
    Step::Call(MASTER, Event::Write { bytes: b"d" }, Ok(Answer::Count(1))),
    Step::Turn(MASTER_DRIVER, Ok(Turn::Blocked)),
    Step::Call(MASTER, Event::OpenSlave, DONE),
    Step::Turn(MASTER_DRIVER, Ok(Turn::Moved(1))),
    Step::Read(SLAVE, 9, b"d"),
    Step::Gone(Rule::EndClosed, 3, 0),
    Step::Gone(Rule::Read, 1, 0),
];

const CLOSING_THE_MASTER: [Step<'static>; 14] = [
    Step::Call(SLAVE, Event::Write { bytes: b"abc" }, Ok(Answer::Count(3))),
    Step::Call(MASTER, Event::Shut, DONE),
    Step::Free(256, 256),
    Step::Gone(Rule::EndClosed, 0, 3),
    Step::Call(SLAVE, Event::Write { bytes: b"d" }, NOT_OPEN),
    Step::Call(SLAVE, ALL_WRITES, NOT_OPEN),
    Step::Call(SLAVE, Event::Pop, NOT_OPEN),
    Step::Read(SLAVE, 9, b""),
    Step::Call(MASTER, Event::Read { n: 9 }, NOT_OPEN),
    Step::Call(MASTER, Event::OpenMaster, INVALID),
    Step::Call(SLAVE, Event::Shut, DONE),
    Step::Call(SLAVE, Event::OpenSlave, NOT_OPEN),
    Step::Reset,
    Step::Gone(Rule::EndClosed, 0, 0),
];

const PTEM: Event<&'static [u8]> = Event::Push {
    name: Some(ModuleName::Ptem),
};

// One of a user's own: the pairs here have none.
const OWN: Event<&'static [u8]> = Event::Push {
    name: Some(ModuleName::Own(4)),
};

const UNKNOWN: [Step<'static>; 9] = [
    Step::Call(SLAVE, PTEM, DONE),
    Step::Call(SLAVE, PTEM, INVALID),
    Step::Call(SLAVE, Event::Look, Ok(Answer::Name(ModuleName::Ptem))),
    Step::Call(SLAVE, Event::Pop, DONE),
    Step::Call(SLAVE, Event::Push { name: None }, INVALID),
    Step::Call(SLAVE, OWN, INVALID),
    Step::Call(SLAVE, Event::Pop, INVALID),
    Step::Call(SLAVE, Event::Look, INVALID),
    Step::Entered(6, b""),
];

// The runs of this file.
const RUNS: [Run<'static>; 14] = [
    Run {
        title: "bytes cross to the slave",
        sizes: SIZES,
        first: &OPENING,
        then: &CROSSING,
    },
    Run {
        title: "a full driver holds writers",
        sizes: SIZES,
        first: &OPENING,
        then: &FILLING,
    },
    Run {
        title: "a pair is made as new in place",
        sizes: SIZES,
        first: &OPENING,
        then: &RENEWING,
    },
    Run {
        title: "thirty-two blocks are kept back",
        sizes: FEW_BLOCKS,
        first: &OPENING,
        then: &TOO_FEW,
    },
    Run {
        title: "one block more is written to",
        sizes: ONE_BLOCK_MORE,
        first: &OPENING,
        then: &ENOUGH,
    },
    Run {
        title: "a message block more isn't enough",
        sizes: A_MESSAGE_BLOCK_MORE,
        first: &OPENING,
        then: &TOO_FEW,
    },
    Run {
        title: "a data block more isn't enough",
        sizes: A_DATA_BLOCK_MORE,
        first: &OPENING,
        then: &TOO_FEW,
    },
    Run {
        title: "a full journal refuses",
        sizes: THREE_ENTRIES,
        first: &OPENING,
        then: &REFUSED_AS_FULL,
    },
    Run {
        title: "bad calls are refused by name",
        sizes: SIZES,
        first: &BAD_CALLS,
        then: &[],
    },
    Run {
        title: "an empty write reads as nothing",
        sizes: SIZES,
        first: &OPENING,
        then: &WITH_AN_EMPTY_WRITE,
    },
    Run {
        title: "a flush takes what was written",
        sizes: SIZES,
        first: &OPENING,
        then: &FLUSHING,
    },
    Run {
        title: "a closed slave ends the master's input",
        sizes: SIZES,
        first: &OPENING,
        then: &CLOSING_THE_SLAVE,
    },
    Run {
        title: "a closed master hangs the slave up",
        sizes: SIZES,
        first: &OPENING,
        then: &CLOSING_THE_MASTER,
    },
    Run {
        title: "one ptem stands and no unknown name",
        sizes: SIZES,
        first: &OPENING,
        then: &UNKNOWN,
    },
];

const TABLES: [&[Run<'static>]; 5] = [
    &RUNS,
    &messages::RUNS,
    &ioctls::RUNS,
    &running::RUNS,
    &restarts::RUNS,
];

#[test]
fn each_run_goes_as_it_says(rt: HostRuntime) -> Result<(), Fail> {
    for runs in TABLES {
        for told in runs {
            follow_run::<TableStore>(&rt, rt.alloc(), told)?;
            follow_run::<RawStore>(&rt, rt.alloc(), told)?;
        }
    }
    Ok(())
}
