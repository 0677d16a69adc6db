//! Turns made till none is enabled, or the next one is refused.

use super::steps::{MASTER, OPENING, Run, SIZES, Step};
use strm_pair::Ran;
use strm_types::{Answer, Config, Event, Refusal};

// Room for the entries of the opening, a write and one turn.
const FIVE: Config = Config {
    journal_events: 5,
    ..SIZES
};

// A write of 600 bytes leaves 512 in two messages for the driver.
const WRITE: Step<'static> = Step::Call(
    MASTER,
    Event::Write {
        bytes: &[b'z'; 600],
    },
    Ok(Answer::Count(512)),
);

const RESTING: [Step<'static>; 2] = [
    WRITE,
    Step::Runs(Ran {
        turns: 2,
        stopped: None,
    }),
];

const STOPPED: [Step<'static>; 2] = [
    WRITE,
    Step::Runs(Ran {
        turns: 1,
        stopped: Some(Refusal::JournalFull),
    }),
];

/// The runs of this file.
pub const RUNS: [Run<'static>; 2] = [
    Run {
        title: "turns come to rest",
        sizes: SIZES,
        first: &OPENING,
        then: &RESTING,
    },
    Run {
        title: "a full journal stops them",
        sizes: FIVE,
        first: &OPENING,
        then: &STOPPED,
    },
];
