//! What a line buffer lets wait, and what takes it along (setvbuf(3C): line buffered).

use crate::tests::Scene;
use crate::tests::steps::{Came, DONE, MASTER, READ, SLAVE, Step};
use line_buffer::LINE_BUFFER;
use strm_types::{Answer, Event, FlushQueues, ModuleName, Refusal};

const PUSH: Step<'static> = Step::Call(
    SLAVE,
    Event::Push {
        name: Some(ModuleName::Own(LINE_BUFFER)),
    },
    DONE,
);

// Nothing came.
const WAITS: Came = Err(Refusal::Eagain);

const NOTHING: Step<'static> = Step::Call(MASTER, READ, WAITS);

const PART: [Step<'static>; 3] = [PUSH, Step::Writes(SLAVE, b"abc"), NOTHING];

const LINE_ENDS: [Step<'static>; 4] = [
    Step::Writes(SLAVE, b"def\nghi"),
    Step::Reads(MASTER, b"abcdef\nghi"),
    Step::Writes(SLAVE, b"j"),
    NOTHING,
];

const TYPED: [Step<'static>; 1] = [Step::Types(b"typed", b"typed")];

const MANY: [Step<'static>; 3] = [PUSH, Step::Writes(SLAVE, &[97; 127]), NOTHING];

const ONE_MORE: [Step<'static>; 2] = [Step::Writes(SLAVE, b"a"), Step::Reads(MASTER, &[97; 127])];

const ASKS: [Step<'static>; 3] = [
    Step::Settles(
        SLAVE,
        Event::Ioctl {
            command: 1,
            body: b"four",
        },
        Ok(Answer::Pending(1)),
    ),
    Step::Settles(
        SLAVE,
        Event::IoctlResult { number: 1 },
        Ok(Answer::Nak(Refusal::Einval)),
    ),
    Step::Reads(MASTER, b"abc"),
];

const FLUSHES: [Step<'static>; 3] = [
    Step::Settles(
        SLAVE,
        Event::Flush {
            what: FlushQueues::Write,
            band: None,
        },
        DONE,
    ),
    Step::Writes(SLAVE, b"\n"),
    Step::Reads(MASTER, b"\n"),
];

const POPS: [Step<'static>; 3] = [
    Step::Settles(SLAVE, Event::Pop, DONE),
    Step::Writes(SLAVE, b"d"),
    Step::Reads(MASTER, b"d"),
];

/// All scenes, each on a new pair.
pub const SCENES: [Scene<'static>; 6] = [
    Scene {
        title: "what is written waits until a line is whole",
        first: &PART,
        then: &LINE_ENDS,
    },
    Scene {
        title: "what is typed passes",
        first: &PART,
        then: &TYPED,
    },
    Scene {
        title: "where 128 bytes stand the first message needs no line's end",
        first: &MANY,
        then: &ONE_MORE,
    },
    Scene {
        title: "an M_IOCTL takes along what waits before it",
        first: &PART,
        then: &ASKS,
    },
    Scene {
        title: "a flush takes what waits",
        first: &PART,
        then: &FLUSHES,
    },
    Scene {
        title: "what waits goes with the module",
        first: &PART,
        then: &POPS,
    },
];
