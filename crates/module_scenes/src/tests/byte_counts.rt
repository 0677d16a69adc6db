//! What a byte counter counts, in front of an image of its pair and behind it.

use crate::tests::Scene;
use crate::tests::steps::{DONE, MASTER, SLAVE, Step};
use byte_counter::NUMBER;
use strm_types::{Answer, Band, Event, ModuleName, Prio, Refusal};

const PUSH: Step<'static> = Step::Call(
    SLAVE,
    Event::Push {
        name: Some(ModuleName::Own(NUMBER)),
    },
    DONE,
);

const BOTH_WAYS: [Step<'static>; 6] = [
    PUSH,
    Step::Writes(MASTER, b"typed"),
    Step::Writes(SLAVE, b"told"),
    Step::Reads(SLAVE, b"typed"),
    Step::Reads(MASTER, b"told"),
    Step::Counted(9),
];

const FURTHER: [Step<'static>; 4] = [
    Step::Counted(9),
    Step::Types(b"more", b"more"),
    Step::Counted(13),
    Step::Free,
];

const PARTS: [Step<'static>; 5] = [
    PUSH,
    Step::Settles(
        SLAVE,
        Event::Put {
            prio: Prio::Band(Band(0)),
            control: Some(b"four"),
            body: Some(b"odd"),
        },
        DONE,
    ),
    Step::Settles(
        MASTER,
        Event::Put {
            prio: Prio::High,
            control: Some(b"four"),
            body: Some(b"a"),
        },
        DONE,
    ),
    Step::Settles(
        SLAVE,
        Event::Put {
            prio: Prio::Band(Band(1)),
            control: Some(b"four"),
            body: None,
        },
        DONE,
    ),
    Step::Counted(4),
];

const PARTS_GOT: [Step<'static>; 5] = [
    Step::Gets(MASTER, b"four", b""),
    Step::Gets(MASTER, b"four", b"odd"),
    Step::Gets(SLAVE, b"four", b"a"),
    Step::Counted(4),
    Step::Free,
];

const ASKING: [Step<'static>; 3] = [
    PUSH,
    Step::Settles(
        SLAVE,
        Event::Ioctl {
            command: 1,
            body: b"four",
        },
        Ok(Answer::Nak(Refusal::Einval)),
    ),
    Step::Counted(0),
];

// Another one begins at 0.
const COUNTED_ANEW: [Step<'static>; 5] = [
    Step::Types(b"more", b"more"),
    Step::Counted(4),
    Step::Call(SLAVE, Event::Pop, DONE),
    PUSH,
    Step::Counted(0),
];

/// All scenes, each on a new pair.
pub const SCENES: [Scene<'static>; 3] = [
    Scene {
        title: "bytes are counted up and down",
        first: &BOTH_WAYS,
        then: &FURTHER,
    },
    Scene {
        title: "of a message with a control part the data part is counted",
        first: &PARTS,
        then: &PARTS_GOT,
    },
    Scene {
        title: "an M_IOCTL isn't counted",
        first: &ASKING,
        then: &COUNTED_ANEW,
    },
];
