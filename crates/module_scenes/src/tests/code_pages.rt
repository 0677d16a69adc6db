//! What a code page does with the bytes that pass it, with its ioctl and beside ldterm (streamio(7I): I_PUSH, I_LOOK, I_POP, I_STR).

use crate::tests::Scene;
use crate::tests::steps::{Came, DONE, MASTER, Page, SLAVE, Step};
use code_page::{CODE_PAGE, PAGE_SIZE, SETPAGE};
use strm_types::{Answer, Band, Dir, Event, ModuleName, Prio, Refusal};

const INVALID: Came = Err(Refusal::Einval);

// An ioctl is obeyed, and its answer has no bytes.
const OBEYED: Came = Ok(Answer::Bytes(0));

const REFUSED: Came = Ok(Answer::Nak(Refusal::Einval));

const NAME: ModuleName = ModuleName::Own(CODE_PAGE);

const PUSH: Step<'static> = Step::Call(SLAVE, Event::Push { name: Some(NAME) }, DONE);

const PUSH_LDTERM: Step<'static> = Step::Call(
    SLAVE,
    Event::Push {
        name: Some(ModuleName::Ldterm),
    },
    DONE,
);

const LOOK: Step<'static> = Step::Call(SLAVE, Event::Look, Ok(Answer::Name(NAME)));

const NONE_THERE: Step<'static> = Step::Call(SLAVE, Event::Look, INVALID);

const POP: Step<'static> = Step::Call(SLAVE, Event::Pop, DONE);

const CAPITALS: Step<'static> = Step::Set(SLAVE, Page::Capitals, PAGE_SIZE, OBEYED);

const NEXT: Step<'static> = Step::Set(SLAVE, Page::Next, PAGE_SIZE, OBEYED);

// The bytes that are typed at the master, and those that the slave shows there.
const TYPED: &[u8] = b"abz-Q\n";

const SHOWN: &[u8] = b"Say: y\x00\xff";

const PUSHING: [Step<'static>; 5] = [
    Step::Call(
        SLAVE,
        Event::Push {
            name: Some(ModuleName::Own(2)),
        },
        INVALID,
    ),
    NONE_THERE,
    PUSH,
    LOOK,
    Step::Call(SLAVE, Event::Push { name: Some(NAME) }, INVALID),
];

const PLAIN: [Step<'static>; 10] = [
    LOOK,
    Step::Types(TYPED, TYPED),
    Step::Shows(SHOWN, SHOWN),
    Step::Told(Dir::MasterToSlave, 6, 0, 6),
    Step::Told(Dir::SlaveToMaster, 8, 0, 8),
    Step::Free,
    POP,
    NONE_THERE,
    Step::Call(SLAVE, Event::Pop, INVALID),
    Step::Free,
];

const CHANGED: [Step<'static>; 6] = [
    PUSH,
    CAPITALS,
    Step::Types(TYPED, b"ABZ-Q\n"),
    Step::Shows(SHOWN, b"SAY: Y\x00\xff"),
    NEXT,
    Step::Call(MASTER, Event::Write { bytes: TYPED }, Ok(Answer::Count(6))),
];

// What was typed before the image was taken passes the page behind it.
const CHANGED_AGAIN: [Step<'static>; 9] = [
    Step::Runs(1),
    Step::Reads(SLAVE, b"bca-Q\n"),
    Step::Shows(SHOWN, b"Sbz: z\x00\xff"),
    POP,
    PUSH,
    Step::Types(TYPED, TYPED),
    Step::Told(Dir::MasterToSlave, 18, 0, 18),
    Step::Told(Dir::SlaveToMaster, 16, 0, 16),
    Step::Free,
];

// An ioctl that comes with too few bytes, with none, with too many, or of another command.
const REFUSING: [Step<'static>; 8] = [
    PUSH,
    Step::Set(SLAVE, Page::Next, 255, REFUSED),
    Step::Types(TYPED, TYPED),
    CAPITALS,
    Step::Set(SLAVE, Page::Next, 255, REFUSED),
    Step::Set(SLAVE, Page::Next, 0, REFUSED),
    Step::Call(
        SLAVE,
        Event::Ioctl {
            command: SETPAGE + 1,
            body: &[0; 256],
        },
        REFUSED,
    ),
    Step::Call(
        SLAVE,
        Event::Ioctl {
            command: SETPAGE,
            body: &[0; 257],
        },
        Err(Refusal::Erange),
    ),
];

// What comes up from the master asks nobody here.
const REFUSING_STILL: [Step<'static>; 5] = [
    Step::Set(MASTER, Page::Next, PAGE_SIZE, Ok(Answer::Pending(6))),
    Step::Runs(2),
    Step::Call(MASTER, Event::IoctlResult { number: 6 }, REFUSED),
    Step::Types(TYPED, b"ABZ-Q\n"),
    Step::Free,
];

// Messages with a control part, and one of high priority.
const PARTS: [Step<'static>; 3] = [
    PUSH,
    NEXT,
    Step::Call(
        SLAVE,
        Event::Put {
            prio: Prio::Band(Band(0)),
            control: Some(b"abc"),
            body: Some(b"abc"),
        },
        DONE,
    ),
];

const PARTS_GOT: [Step<'static>; 6] = [
    Step::Runs(1),
    Step::Gets(MASTER, b"abc", b"bcd"),
    Step::Call(
        MASTER,
        Event::Put {
            prio: Prio::High,
            control: Some(b"xyz"),
            body: Some(b"xyz"),
        },
        DONE,
    ),
    Step::Runs(1),
    Step::Gets(SLAVE, b"xyz", b"yza"),
    Step::Free,
];

// Below ldterm: what is typed passes once before it makes a line, and its echo once more. Through ldterm the ioctl comes too.
const BELOW: [Step<'static>; 5] = [
    PUSH,
    NEXT,
    PUSH_LDTERM,
    Step::Types(TYPED, b"bca-Q\n"),
    Step::Reads(MASTER, b"cdb-Q\r\n"),
];

const STILL_BELOW: [Step<'static>; 4] = [
    Step::Shows(SHOWN, b"Sbz: z\x00\xff"),
    CAPITALS,
    Step::Types(TYPED, b"ABZ-Q\n"),
    Step::Reads(MASTER, b"ABZ-Q\r\n"),
];

// Above ldterm: the line is changed, and its echo isn't.
const ABOVE: [Step<'static>; 3] = [PUSH_LDTERM, PUSH, NEXT];

const STILL_ABOVE: [Step<'static>; 3] = [
    Step::Types(TYPED, b"bca-Q\n"),
    Step::Reads(MASTER, b"abz-Q\r\n"),
    Step::Free,
];

/// All scenes, each on a new pair.
pub const SCENES: [Scene<'static>; 6] = [
    Scene {
        title: "before it is set all passes as it is",
        first: &PUSHING,
        then: &PLAIN,
    },
    Scene {
        title: "a page changes bytes both ways till another one is set",
        first: &CHANGED,
        then: &CHANGED_AGAIN,
    },
    Scene {
        title: "what is no page is refused, and the old page stays",
        first: &REFUSING,
        then: &REFUSING_STILL,
    },
    Scene {
        title: "a control part stays",
        first: &PARTS,
        then: &PARTS_GOT,
    },
    Scene {
        title: "below ldterm an echo passes twice",
        first: &BELOW,
        then: &STILL_BELOW,
    },
    Scene {
        title: "above ldterm only the line passes",
        first: &ABOVE,
        then: &STILL_ABOVE,
    },
];
