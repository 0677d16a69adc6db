//! Ioctls on both sides' streams, with answers worked out by hand from streamio(7I).

use super::steps::{
    AGAIN, Came, DONE, INVALID, MASTER, MASTER_DRIVER, NOT_OPEN, OPENING, Run, SIZES, SLAVE,
    SLAVE_DRIVER, Step,
};
use strm_types::{Answer, Config, Event, Refusal, TIOCGWINSZ, Turn};

const ASK: Event<&'static [u8]> = Event::Ioctl {
    command: TIOCGWINSZ,
    body: b"",
};

const FIRST: Event<&'static [u8]> = Event::IoctlResult { number: 1 };

const NOBODY_KNOWS: Came = Ok(Answer::Nak(Refusal::Einval));

const ASKING: [Step<'static>; 15] = [
    Step::Call(MASTER, ASK, Ok(Answer::Pending(1))),
    Step::Call(MASTER, ASK, AGAIN),
    Step::Sizes(MASTER_DRIVER, 1, 16),
    Step::Call(MASTER, FIRST, AGAIN),
    Step::Turn(MASTER_DRIVER, Ok(Turn::Moved(16))),
    Step::Sizes(SLAVE_DRIVER, 1, 16),
    Step::Turn(SLAVE_DRIVER, Ok(Turn::Moved(16))),
    Step::Call(MASTER, Event::IoctlResult { number: 2 }, INVALID),
    Step::Call(MASTER, FIRST, NOBODY_KNOWS),
    Step::Call(MASTER, FIRST, INVALID),
    Step::Call(SLAVE, ASK, NOBODY_KNOWS),
    Step::Call(SLAVE, Event::IoctlResult { number: 2 }, INVALID),
    Step::Call(SLAVE, Event::Signals, Ok(Answer::Signals(0))),
    Step::Free(256, 256),
    Step::Entered(9, b""),
];

const WITH_BYTES: Event<&'static [u8]> = Event::Ioctl {
    command: 99,
    body: b"xyz",
};

const TOO_LONG: Event<&'static [u8]> = Event::Ioctl {
    command: 99,
    body: &[b'x'; 257],
};

const OUTLIVING: [Step<'static>; 15] = [
    Step::Call(MASTER, TOO_LONG, Err(Refusal::Erange)),
    Step::Call(MASTER, WITH_BYTES, Ok(Answer::Pending(1))),
    Step::Sizes(MASTER_DRIVER, 1, 19),
    Step::Free(254, 254),
    Step::Call(SLAVE, Event::Shut, DONE),
    Step::Turn(MASTER_DRIVER, Ok(Turn::Blocked)),
    Step::Call(MASTER, FIRST, AGAIN),
    Step::Call(MASTER, Event::OpenSlave, DONE),
    Step::Turn(MASTER_DRIVER, Ok(Turn::Moved(19))),
    Step::Turn(SLAVE_DRIVER, Ok(Turn::Moved(16))),
    Step::Call(MASTER, FIRST, NOBODY_KNOWS),
    Step::Call(MASTER, Event::Shut, DONE),
    Step::Call(SLAVE, ASK, NOT_OPEN),
    Step::Call(MASTER, FIRST, NOT_OPEN),
    Step::Entered(11, b"xyz"),
];

const FEW_BYTES: Config = Config {
    mblks: 33,
    dblks: 34,
    journal_events: 10,
    journal_bytes: 255,
};

const REFUSED: [Step<'static>; 2] = [
    Step::Call(MASTER, ASK, Err(Refusal::JournalFull)),
    Step::Call(MASTER, Event::Signals, Ok(Answer::Signals(0))),
];

const FEW_BLOCKS: Config = Config {
    mblks: 33,
    dblks: 34,
    journal_events: 10,
    journal_bytes: 256,
};

const NO_ROOM: [Step<'static>; 1] = [Step::Call(MASTER, ASK, Err(Refusal::Enosr))];

/// The runs of this file.
pub const RUNS: [Run<'static>; 4] = [
    // The answer of a master's ioctl comes back over both drivers, that of a slave's within the call.
    Run {
        title: "an ioctl is answered once",
        sizes: SIZES,
        first: &OPENING,
        then: &ASKING,
    },
    // What the master asks waits for the next slave.
    Run {
        title: "a master's ioctl outlives the slave",
        sizes: SIZES,
        first: &OPENING,
        then: &OUTLIVING,
    },
    // An ioctl wants room for its answer in the journal, and 34 blocks.
    Run {
        title: "an ioctl asks for room in the journal",
        sizes: FEW_BYTES,
        first: &OPENING,
        then: &REFUSED,
    },
    Run {
        title: "an ioctl asks for blocks",
        sizes: FEW_BLOCKS,
        first: &OPENING,
        then: &NO_ROOM,
    },
];
