//! Pairs that are made of images: what is told of them, how they go on, and the images to which that leads.

use super::steps::{
    MASTER, MASTER_DRIVER, ORDINARY, SIZES, SLAVE, SLAVE_DRIVER, SLAVE_HEAD, Step, follow, restored,
};
use super::texts::{buffer, is_imaged};
use std::alloc::{AllocError, Global};
use std::process::Abort;
use std::test::Fail;
use strm_blocks::{Blocks, Reserve, TableStore};
use strm_pair::Pair;
use strm_raw::RawStore;
use strm_types::{
    Answer, Band, Config, Event, ModuleName, Place, Prio, QueueName, Refusal, Side, Turn, Wanted,
    Way,
};

// An image of version 2 up to the streams: both sides are open, the slave isn't locked, the next ioctl is the first one.
const OPEN: &[u8] = b"STPI\x02\x01\x01\x00\x00\x00\x00\x01";

// A stream up to its head's queue: modes and flags of its head, no signal, no ioctl, no module.
const STREAM: &[u8] = &[0; 6];

// A queue as it is made, one of which the last getq found a message, and both where so many messages follow.
const QUEUE: &[u8] = b"\x01\x00\x00\x00\x00\x00\x00";

const READ: &[u8] = b"\x00\x00\x00\x00\x00\x00\x00";

const TWO: &[u8] = b"\x01\x00\x00\x00\x00\x00\x02";

const THREE: &[u8] = b"\x01\x00\x00\x00\x00\x00\x03";

const READ_TWO: &[u8] = b"\x00\x00\x00\x00\x00\x00\x02";

// An M_PROTO of band 0 up to its parts, and an M_DATA up to its data part.
const PROTO: &[u8] = b"\x01\x00";

const DATA: &[u8] = b"\x00\x00\x00\x00\x00\x00\x00";

// Parts of 300 bytes and of 299, up to these, and one of none.
const LONG: &[u8] = b"\x01\x00\x00\x01\x2c";

const LONG_BUT_ONE: &[u8] = b"\x01\x00\x00\x01\x2b";

const EMPTY: &[u8] = b"\x01\x00\x00\x00\x00";

const HELLO: &[u8] = b"\x01\x00\x00\x00\x05hello";

// An M_IOCTL of band 0 with a header and 20 bytes of payload.
const IOCTL: &[u8] = b"\x0e\x00\x00\x00\x00\x00\x00\x01\x00\x00\x00\x24\
    \x00\x00\x00\x01\x00\x00\x00\x01\x00\x00\x00\x00\x00\x00\x00\x00pppppppppppppppppppp";

const CONTROL: &[u8] = &[b'c'; 300];

const BODY: &[u8] = &[b'd'; 300];

// No queue is enabled, and the driver of the master is.
const NONE_ENABLED: &[u8] = &[0];

const DRIVER_ENABLED: &[u8] = b"\x01\x00\x02\x01";

// A ledger of which nothing was written, what follows the bytes written and made of one of which nothing has gone, and what follows the
// bytes that were read.
const SILENT: &[u8] = &[0; 184];

const NOTHING_GONE: &[u8] = &[0; 168];

const ALL_READ: &[u8] = &[0; 160];

// Adds parts to a text.
fn append(text: &mut Vec<u8>, parts: &[&[u8]]) -> Result<(), AllocError> {
    for part in parts {
        text.extend_from_slice(*part)?;
    }
    Ok(())
}

fn joined(alloc: Global, parts: &[&[u8]]) -> Result<Vec<u8>, AllocError> {
    let mut text = Vec::new(alloc);
    match append(&mut text, parts) {
        Ok(()) => Ok(text),
        Err(AllocError) => {
            drop(text);
            Err(AllocError)
        }
    }
}

// What is told of a pair that is made of an image: both images are said by their parts.
struct Restoring<'a> {
    title: &'a str,
    from: &'a [&'a [u8]],
    steps: &'a [Step<'a>],
    to: &'a [&'a [u8]],
}

// Goes through the steps from one image to another one, of 4096 bytes at most.
fn goes<B: Blocks + Drop>(
    rt: &impl Abort,
    alloc: Global,
    pair: &mut Pair<B>,
    told: &Restoring<'_>,
) -> Result<(), AllocError> {
    let from = joined(alloc, told.from)?;
    let to = joined(alloc, told.to)?;
    let mut out = buffer(alloc, 0, 4096)?;
    let (title, out) = (told.title, out.as_mut_slice());
    assert!(rt;
        is_imaged(pair, out, from.as_slice()),
        "{title}, as it is restored"
    );
    follow(rt, pair, title, told.steps);
    assert!(rt;
        is_imaged(pair, out, to.as_slice()),
        "{title}, behind the steps"
    );
    Ok(())
}

// The same on a pair that is made of the first image.
fn leads<B: Reserve>(
    rt: &impl Abort,
    alloc: Global,
    told: &Restoring<'_>,
) -> Result<(), AllocError> {
    let from = joined(alloc, told.from)?;
    let Some(mut pair) = restored::<B>(alloc, FORTY_BLOCKS, from.as_slice())? else {
        panic!(rt; "an image is refused")
    };
    goes(rt, alloc, &mut pair, told)
}

const FORTY_BLOCKS: Config = Config {
    mblks: 40,
    dblks: 40,
    ..SIZES
};

// On the master's driver an M_PROTO of three blocks, an M_DATA of one and an M_IOCTL of two.
const THREE_MESSAGES: [&[u8]; 18] = [
    OPEN,
    STREAM,
    QUEUE,
    THREE,
    PROTO,
    LONG,
    CONTROL,
    EMPTY,
    DATA,
    HELLO,
    IOCTL,
    STREAM,
    QUEUE,
    QUEUE,
    DRIVER_ENABLED,
    b"\x00\x00\x00\x00\x00\x00\x01\x31\x00\x00\x00\x00\x00\x00\x00\x00",
    NOTHING_GONE,
    SILENT,
];

const CROSSING: [Step<'static>; 14] = [
    Step::Free(34, 34),
    Step::Sizes(MASTER_DRIVER, 3, 341),
    Step::Stored(Some(256)),
    Step::Turn(MASTER_DRIVER, Ok(Turn::Moved(300))),
    Step::Stored(Some(5)),
    Step::Turn(MASTER_DRIVER, Ok(Turn::Moved(5))),
    Step::Stored(Some(16)),
    Step::Turn(MASTER_DRIVER, Ok(Turn::Moved(36))),
    Step::Sizes(SLAVE_HEAD, 2, 305),
    Step::Call(
        SLAVE,
        Event::Get {
            wanted: Wanted::Any,
            cmax: 300,
            dmax: 300,
        },
        Ok(Answer::Msg {
            prio: ORDINARY,
            control: Some(300),
            body: Some(0),
            more_control: false,
            more_data: false,
        }),
    ),
    Step::Entered(4, CONTROL),
    Step::Read(SLAVE, 9, b"hello"),
    Step::Turn(SLAVE_DRIVER, Ok(Turn::Moved(16))),
    Step::Free(40, 40),
];

const CROSSED: [&[u8]; 11] = [
    OPEN,
    STREAM,
    QUEUE,
    QUEUE,
    STREAM,
    READ,
    QUEUE,
    NONE_ENABLED,
    b"\x00\x00\x00\x00\x00\x00\x01\x31\x00\x00\x00\x00\x00\x00\x00\x00\x00\x00\x00\x00\x00\x00\x01\x31",
    ALL_READ,
    SILENT,
];

// At the slave's head an M_PROTO with both parts and an M_DATA, all of two blocks each.
const TWO_BLOCKS: [&[u8]; 19] = [
    OPEN,
    STREAM,
    QUEUE,
    QUEUE,
    STREAM,
    TWO,
    PROTO,
    LONG,
    CONTROL,
    LONG,
    BODY,
    DATA,
    LONG,
    BODY,
    QUEUE,
    NONE_ENABLED,
    b"\x00\x00\x00\x00\x00\x00\x03\x84\x00\x00\x00\x00\x00\x00\x00\x00",
    NOTHING_GONE,
    SILENT,
];

const GETTING: [Step<'static>; 4] = [
    Step::Free(34, 34),
    Step::Call(
        SLAVE,
        Event::Get {
            wanted: Wanted::Any,
            cmax: 1,
            dmax: 1,
        },
        Ok(Answer::Msg {
            prio: ORDINARY,
            control: Some(1),
            body: Some(1),
            more_control: true,
            more_data: true,
        }),
    ),
    Step::Entered(1, b"cd"),
    Step::Free(34, 34),
];

const BUT_TWO_BYTES: [&[u8]; 19] = [
    OPEN,
    STREAM,
    QUEUE,
    QUEUE,
    STREAM,
    READ_TWO,
    PROTO,
    LONG_BUT_ONE,
    &[b'c'; 299],
    LONG_BUT_ONE,
    &[b'd'; 299],
    DATA,
    LONG,
    BODY,
    QUEUE,
    NONE_ENABLED,
    b"\x00\x00\x00\x00\x00\x00\x03\x84\x00\x00\x00\x00\x00\x00\x00\x00\x00\x00\x00\x00\x00\x00\x00\x02",
    ALL_READ,
    SILENT,
];

// At the slave's head bands 5 and 7, for which writers wait; band 5 is full from 3 bytes on, and has 5. The master's driver isn't to be
// enabled by a message, as no getq found it empty, and the slave's, as enabling is off.
const WRITERS_WAIT: [&[u8]; 13] = [
    OPEN,
    STREAM,
    QUEUE,
    READ,
    STREAM,
    b"\x01\x00\x02\x05\x00\x00\x00\x03\x00\x00\x00\x01\x01\x07\x00\x00\x14\x00\x00\x00\x04\x00\x01\x00\x00\x00\x01",
    b"\x00\x05\x00\x00\x00\x00\x00",
    HELLO,
    b"\x03\x00\x00\x00\x00\x00\x00",
    NONE_ENABLED,
    b"\x00\x00\x00\x00\x00\x00\x00\x05\x00\x00\x00\x00\x00\x00\x00\x00",
    NOTHING_GONE,
    SILENT,
];

const GOING_ON: [Step<'static>; 11] = [
    Step::Free(39, 39),
    Step::Counts(SLAVE_HEAD, Band(5), 5, true),
    Step::Counts(SLAVE_HEAD, Band(7), 0, false),
    Step::Call(MASTER, Event::Write { bytes: b"a" }, Ok(Answer::Count(1))),
    Step::Call(SLAVE, Event::Write { bytes: b"b" }, Ok(Answer::Count(1))),
    Step::Enabled(0, None),
    Step::Call(
        SLAVE,
        Event::Get {
            wanted: Wanted::Any,
            cmax: 9,
            dmax: 9,
        },
        Ok(Answer::Msg {
            prio: Prio::Band(Band(5)),
            control: None,
            body: Some(5),
            more_control: false,
            more_data: false,
        }),
    ),
    Step::Enabled(1, Some(MASTER_DRIVER)),
    Step::Turn(MASTER_DRIVER, Ok(Turn::Moved(1))),
    Step::Read(SLAVE, 9, b"a"),
    Step::Turn(SLAVE_DRIVER, Err(Refusal::Einval)),
];

const WRITERS_GONE: [&[u8]; 14] = [
    OPEN,
    STREAM,
    QUEUE,
    QUEUE,
    STREAM,
    b"\x00\x00\x01\x05\x00\x00\x00\x03\x00\x00\x00\x01\x00\x00\x00\x00\x00",
    b"\x03\x00\x00\x00\x00\x00\x01",
    DATA,
    b"\x01\x00\x00\x00\x01b",
    NONE_ENABLED,
    b"\x00\x00\x00\x00\x00\x00\x00\x06\x00\x00\x00\x00\x00\x00\x00\x00\x00\x00\x00\x00\x00\x00\x00\x06",
    ALL_READ,
    b"\x00\x00\x00\x00\x00\x00\x00\x01\x00\x00\x00\x00\x00\x00\x00\x00",
    NOTHING_GONE,
];

// A stream whose one module is an ldterm, up to its head's queue: lines are edited, output stops and any byte starts it, and a TAB goes
// out as spaces. Output is stopped, the column is 9, and the line has 2 bytes.
const LDTERM: &[u8] = b"\x00\x00\x00\x00\x00\x01\x01";

const TERMIOS: &[u8] = b"\x00\x00\x0c\x00\x00\x00\x18\x01\x00\x00\x00\x00\x00\x00\x00\x02\
    \x00\x00\x00\x00\x00\x00\x00\x00\x00\x00\x00\x00\x00\x00\x00\x00\x00\x00\x00";

const STOPPED: [&[u8]; 15] = [
    OPEN,
    STREAM,
    QUEUE,
    QUEUE,
    LDTERM,
    TERMIOS,
    b"\x01\x00\x00\x00\x00\x09\x02ls",
    QUEUE,
    QUEUE,
    QUEUE,
    QUEUE,
    NONE_ENABLED,
    b"\x00\x00\x00\x00\x00\x00\x00\x02\x00\x00\x00\x00\x00\x00\x00\x00",
    NOTHING_GONE,
    SILENT,
];

const LDTERM_READ: QueueName = QueueName {
    side: Side::Slave,
    place: Place::Module(ModuleName::Ldterm),
    way: Way::Up,
};

const LDTERM_WRITE: QueueName = QueueName {
    side: Side::Slave,
    place: Place::Module(ModuleName::Ldterm),
    way: Way::Down,
};

const STARTING: [Step<'static>; 10] = [
    Step::Call(SLAVE, Event::Write { bytes: b"\t" }, Ok(Answer::Count(1))),
    Step::Turn(LDTERM_WRITE, Ok(Turn::Blocked)),
    Step::Call(MASTER, Event::Write { bytes: b"\n" }, Ok(Answer::Count(1))),
    Step::Turn(MASTER_DRIVER, Ok(Turn::Moved(1))),
    Step::Turn(LDTERM_READ, Ok(Turn::Moved(1))),
    Step::Read(SLAVE, 9, b"ls\n"),
    Step::Turn(LDTERM_WRITE, Ok(Turn::Moved(1))),
    Step::Turn(SLAVE_DRIVER, Ok(Turn::Moved(0))),
    Step::Turn(SLAVE_DRIVER, Ok(Turn::Moved(7))),
    Step::Read(MASTER, 9, b"       "),
];

// The TAB went out as seven spaces, and is booked as replaced.
const STARTED: [&[u8]; 18] = [
    OPEN,
    STREAM,
    READ,
    QUEUE,
    LDTERM,
    TERMIOS,
    b"\x00\x00\x00\x00\x00\x10\x00",
    QUEUE,
    QUEUE,
    READ,
    QUEUE,
    NONE_ENABLED,
    b"\x00\x00\x00\x00\x00\x00\x00\x03\x00\x00\x00\x00\x00\x00\x00\x00\x00\x00\x00\x00\x00\x00\x00\x03",
    ALL_READ,
    b"\x00\x00\x00\x00\x00\x00\x00\x01\x00\x00\x00\x00\x00\x00\x00\x07\x00\x00\x00\x00\x00\x00\x00\x07",
    &[0; 136],
    b"\x00\x00\x00\x00\x00\x00\x00\x01",
    &[0; 16],
];

const TEXTS: [Restoring<'static>; 4] = [
    Restoring {
        title: "messages stand as a text has them",
        from: &THREE_MESSAGES,
        steps: &CROSSING,
        to: &CROSSED,
    },
    Restoring {
        title: "messages of two blocks are whole",
        from: &TWO_BLOCKS,
        steps: &GETTING,
        to: &BUT_TWO_BYTES,
    },
    Restoring {
        title: "a queue is as a text has it",
        from: &WRITERS_WAIT,
        steps: &GOING_ON,
        to: &WRITERS_GONE,
    },
    Restoring {
        title: "an ldterm is as a text has it",
        from: &STOPPED,
        steps: &STARTING,
        to: &STARTED,
    },
];

#[test]
fn a_restored_pair_is_and_goes_on_as_a_text_has_it(rt: HostRuntime) -> Result<(), Fail> {
    for told in &TEXTS {
        leads::<TableStore>(&rt, rt.alloc(), told)?;
        leads::<RawStore>(&rt, rt.alloc(), told)?;
    }
    Ok(())
}
