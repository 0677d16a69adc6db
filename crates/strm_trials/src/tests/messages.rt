//! Messages that cross a pair by putmsg(2) and getmsg(2), and the modes in which reads have them, with answers worked out by
//! hand from the manual pages and from streamio(7I).

use super::steps::{
    AGAIN, Came, DONE, INVALID, MASTER, MASTER_DRIVER, OPENING, ORDINARY, Run, SIZES, SLAVE,
    SLAVE_HEAD, Step,
};
use strm_types::{Answer, Band, ControlMode, Event, Mode, Prio, Refusal, Rule, Turn, Wanted};

const AB: &[u8] = b"ab";

const CDE: &[u8] = b"cde";

const LONG: &[u8] = &[b'z'; 600];

const BANDED: Prio = Prio::Band(Band(2));

const TOO_LONG: Came = Err(Refusal::Erange);

const PUT_BOTH: Event<&'static [u8]> = Event::Put {
    prio: BANDED,
    control: Some(AB),
    body: Some(CDE),
};

const PUT_HIGH_DATA: Event<&'static [u8]> = Event::Put {
    prio: Prio::High,
    control: None,
    body: Some(CDE),
};

const PUT_LONG: Event<&'static [u8]> = Event::Put {
    prio: BANDED,
    control: Some(LONG),
    body: None,
};

const PUT_NOTHING: Event<&'static [u8]> = Event::Put {
    prio: ORDINARY,
    control: None,
    body: None,
};

const PUT_DATA: Event<&'static [u8]> = Event::Put {
    prio: ORDINARY,
    control: None,
    body: Some(CDE),
};

const PUT_HIGH: Event<&'static [u8]> = Event::Put {
    prio: Prio::High,
    control: Some(AB),
    body: None,
};

const PUT_BANDED: Event<&'static [u8]> = Event::Put {
    prio: BANDED,
    control: None,
    body: Some(CDE),
};

const GET_HIGH: Event<&'static [u8]> = Event::Get {
    wanted: Wanted::High,
    cmax: 9,
    dmax: 9,
};

const GET_FROM_BAND_2: Event<&'static [u8]> = Event::Get {
    wanted: Wanted::Band(Band(2)),
    cmax: 1,
    dmax: 5000,
};

const GET_ANY: Event<&'static [u8]> = Event::Get {
    wanted: Wanted::Any,
    cmax: 9,
    dmax: 9,
};

const BYTES_AS_DATA: Event<&'static [u8]> = Event::Mode {
    mode: Mode::Control(ControlMode::Data),
};

const CROSSING: [Step<'static>; 12] = [
    Step::Call(MASTER, PUT_BOTH, DONE),
    Step::Sizes(MASTER_DRIVER, 1, 5),
    Step::Turn(MASTER_DRIVER, Ok(Turn::Moved(5))),
    Step::Call(
        SLAVE,
        Event::Nread,
        Ok(Answer::Sizes {
            first: 3,
            messages: 1,
        }),
    ),
    Step::Call(SLAVE, Event::Read { n: 9 }, Err(Refusal::Ebadmsg)),
    Step::Call(SLAVE, GET_HIGH, AGAIN),
    Step::Call(
        SLAVE,
        GET_FROM_BAND_2,
        Ok(Answer::Msg {
            prio: BANDED,
            control: Some(1),
            body: Some(3),
            more_control: true,
            more_data: false,
        }),
    ),
    Step::Call(SLAVE, BYTES_AS_DATA, DONE),
    Step::Read(SLAVE, 9, b"b"),
    Step::Gone(Rule::Read, 5, 0),
    Step::Free(256, 256),
    Step::Entered(9, b"abcdeacdeb"),
];

const REFUSING: [Step<'static>; 9] = [
    Step::Call(MASTER, PUT_HIGH_DATA, INVALID),
    Step::Call(MASTER, PUT_LONG, TOO_LONG),
    Step::Call(SLAVE, GET_ANY, AGAIN),
    Step::Call(MASTER, PUT_NOTHING, DONE),
    Step::Sizes(MASTER_DRIVER, 0, 0),
    Step::Call(MASTER, Event::Write { bytes: LONG }, Ok(Answer::Count(512))),
    Step::Call(MASTER, PUT_DATA, AGAIN),
    Step::Call(MASTER, PUT_HIGH, DONE),
    Step::Sizes(MASTER_DRIVER, 3, 514),
];

const HIGH_FIRST: [Step<'static>; 6] = [
    Step::Call(MASTER, PUT_BANDED, DONE),
    Step::Call(MASTER, PUT_HIGH, DONE),
    Step::Turn(MASTER_DRIVER, Ok(Turn::Moved(2))),
    Step::Turn(MASTER_DRIVER, Ok(Turn::Moved(3))),
    Step::Sizes(SLAVE_HEAD, 2, 5),
    Step::Call(
        SLAVE,
        GET_HIGH,
        Ok(Answer::Msg {
            prio: Prio::High,
            control: Some(2),
            body: None,
            more_control: false,
            more_data: false,
        }),
    ),
];

const PUT_IN_BAND_7: Event<&'static [u8]> = Event::Put {
    prio: Prio::Band(Band(7)),
    control: None,
    body: Some(AB),
};

const PUT_IN_BAND_200: Event<&'static [u8]> = Event::Put {
    prio: Prio::Band(Band(200)),
    control: None,
    body: Some(AB),
};

const PUT_IN_BAND_255: Event<&'static [u8]> = Event::Put {
    prio: Prio::Band(Band(255)),
    control: None,
    body: Some(AB),
};

const BANDS_IN_ORDER: [Step<'static>; 9] = [
    Step::Call(MASTER, PUT_IN_BAND_7, DONE),
    Step::Call(MASTER, PUT_IN_BAND_255, DONE),
    Step::Call(MASTER, PUT_IN_BAND_200, DONE),
    Step::Turn(MASTER_DRIVER, Ok(Turn::Moved(2))),
    Step::Turn(MASTER_DRIVER, Ok(Turn::Moved(2))),
    Step::Turn(MASTER_DRIVER, Ok(Turn::Moved(2))),
    Step::Call(
        SLAVE,
        GET_ANY,
        Ok(Answer::Msg {
            prio: Prio::Band(Band(255)),
            control: None,
            body: Some(2),
            more_control: false,
            more_data: false,
        }),
    ),
    Step::Call(
        SLAVE,
        GET_ANY,
        Ok(Answer::Msg {
            prio: Prio::Band(Band(200)),
            control: None,
            body: Some(2),
            more_control: false,
            more_data: false,
        }),
    ),
    Step::Call(
        SLAVE,
        GET_ANY,
        Ok(Answer::Msg {
            prio: Prio::Band(Band(7)),
            control: None,
            body: Some(2),
            more_control: false,
            more_data: false,
        }),
    ),
];

/// The runs of this file.
pub const RUNS: [Run<'static>; 4] = [
    Run {
        title: "a message crosses with its parts",
        sizes: SIZES,
        first: &OPENING,
        then: &CROSSING,
    },
    Run {
        title: "bad puts and gets are refused by name",
        sizes: SIZES,
        first: &OPENING,
        then: &REFUSING,
    },
    Run {
        title: "high priority comes first",
        sizes: SIZES,
        first: &OPENING,
        then: &HIGH_FIRST,
    },
    Run {
        title: "higher bands come first",
        sizes: SIZES,
        first: &OPENING,
        then: &BANDS_IN_ORDER,
    },
];
