//! A journal that is full, and begins anew.

use super::steps::{FULL, MASTER, MASTER_DRIVER, OPENING, Run, SLAVE, SLAVE_HEAD, Step};
use strm_types::{Answer, Config, Event, Rule, Turn};

const FIVE_ENTRIES: Config = Config {
    mblks: 256,
    dblks: 256,
    journal_events: 5,
    journal_bytes: 100,
};

const BEGINNING_ANEW: [Step<'static>; 18] = [
    Step::Call(MASTER, Event::Write { bytes: b"abc" }, Ok(Answer::Count(3))),
    Step::Turn(MASTER_DRIVER, Ok(Turn::Moved(3))),
    Step::Entered(5, b"abc"),
    Step::Call(SLAVE, Event::Read { n: 2 }, FULL),
    Step::Sizes(SLAVE_HEAD, 1, 3),
    Step::Gone(Rule::Read, 0, 0),
    Step::Restart,
    Step::Entered(0, b""),
    Step::Sizes(SLAVE_HEAD, 1, 3),
    Step::Read(SLAVE, 2, b"ab"),
    Step::Entered(1, b"ab"),
    Step::Sizes(SLAVE_HEAD, 1, 1),
    Step::Gone(Rule::Read, 2, 0),
    Step::Restart,
    Step::Entered(0, b""),
    Step::Gone(Rule::Read, 2, 0),
    Step::Read(SLAVE, 9, b"c"),
    Step::Gone(Rule::Read, 3, 0),
];

/// The runs of this file.
pub const RUNS: [Run<'static>; 1] = [Run {
    title: "a full journal begins anew and the call goes through",
    sizes: FIVE_ENTRIES,
    first: &OPENING,
    then: &BEGINNING_ANEW,
}];
