//! Messages that a putmsg makes, as gets have them, with answers worked out by hand from getmsg(2) and putmsg(2).

use super::made::Sent;
use super::steps::{Got, Run, Step, plays};
use std::test::Fail;
use strm_types::{Band, Prio, Refusal, Wanted, put_refusal};

pub(super) const ORDINARY: Prio = Prio::Band(Band(0));

const BANDED: Prio = Prio::Band(Band(200));

pub(super) const AB: &[u8] = b"ab";

const CDE: &[u8] = b"cde";

const ABCDE: &[u8] = b"abcde";

pub(super) const EMPTY: &[u8] = b"";

pub(super) const BOTH: Sent<'static> = (BANDED, Some(AB), Some(CDE));

pub(super) const HIGH: Sent<'static> = (Prio::High, Some(AB), Some(CDE));

// The whole of each, and nothing.
const WHOLE: Got<'static> = (Some(2), Some(3), BANDED, (false, false), ABCDE);

const WHOLE_HIGH: Got<'static> = (Some(2), Some(3), Prio::High, (false, false), ABCDE);

const NOTHING: Got<'static> = (None, None, ORDINARY, (false, false), EMPTY);

// A get of just the room for both parts, and then one of what is left.
const ASKED: [&[Step<'static>]; 8] = [
    &[
        Step::Sent(BOTH),
        Step::Get(Wanted::Any, 2, 3, WHOLE),
        Step::Get(Wanted::Any, 4096, 4096, NOTHING),
    ],
    &[
        Step::Sent(BOTH),
        Step::Get(Wanted::Band(Band(200)), 2, 3, WHOLE),
        Step::Get(Wanted::Any, 4096, 4096, NOTHING),
    ],
    &[
        Step::Sent(BOTH),
        Step::Get(Wanted::Band(Band(201)), 2, 3, NOTHING),
        Step::Get(Wanted::Any, 4096, 4096, WHOLE),
    ],
    &[
        Step::Sent(BOTH),
        Step::Get(Wanted::High, 2, 3, NOTHING),
        Step::Get(Wanted::Any, 4096, 4096, WHOLE),
    ],
    &[
        Step::Sent(HIGH),
        Step::Get(Wanted::High, 2, 3, WHOLE_HIGH),
        Step::Get(Wanted::Any, 4096, 4096, NOTHING),
    ],
    &[
        Step::Sent(HIGH),
        Step::Get(Wanted::Band(Band(255)), 2, 3, WHOLE_HIGH),
        Step::Get(Wanted::Any, 4096, 4096, NOTHING),
    ],
    &[
        Step::Sent((ORDINARY, None, Some(EMPTY))),
        Step::Get(
            Wanted::Any,
            2,
            3,
            (None, Some(0), ORDINARY, (false, false), EMPTY),
        ),
        Step::Get(Wanted::Any, 4096, 4096, NOTHING),
    ],
    &[
        Step::SendsNone(ORDINARY),
        Step::Get(Wanted::Any, 2, 3, NOTHING),
        Step::Get(Wanted::Any, 4096, 4096, NOTHING),
    ],
];

// A get without the room for both parts, and then one of what is left.
const LEFT: [&[Step<'static>]; 5] = [
    &[
        Step::Sent(BOTH),
        Step::Get(
            Wanted::Any,
            1,
            9,
            (Some(1), Some(3), BANDED, (true, false), b"acde"),
        ),
        Step::Get(
            Wanted::Any,
            4096,
            4096,
            (Some(1), None, BANDED, (false, false), b"b"),
        ),
    ],
    &[
        Step::Sent(BOTH),
        Step::Get(
            Wanted::Any,
            9,
            1,
            (Some(2), Some(1), BANDED, (false, true), b"abc"),
        ),
        Step::Get(
            Wanted::Any,
            4096,
            4096,
            (None, Some(2), BANDED, (false, false), b"de"),
        ),
    ],
    &[
        Step::Sent(BOTH),
        Step::Get(
            Wanted::Any,
            0,
            0,
            (Some(0), Some(0), BANDED, (true, true), EMPTY),
        ),
        Step::Get(Wanted::Any, 4096, 4096, WHOLE),
    ],
    &[
        Step::Sent(HIGH),
        Step::Get(
            Wanted::Any,
            9,
            0,
            (Some(2), Some(0), Prio::High, (false, true), AB),
        ),
        Step::Get(
            Wanted::Any,
            4096,
            4096,
            (None, Some(3), ORDINARY, (false, false), CDE),
        ),
    ],
    &[
        Step::Sent(HIGH),
        Step::Get(
            Wanted::Any,
            1,
            9,
            (Some(1), Some(3), Prio::High, (true, false), b"acde"),
        ),
        Step::Get(
            Wanted::Any,
            4096,
            4096,
            (Some(1), None, Prio::High, (false, false), b"b"),
        ),
    ],
];

const RUNS: [Run<'static>; 2] = [
    Run {
        title: "gets give the message that is asked for",
        first: &[],
        thens: &ASKED,
    },
    Run {
        title: "gets leave what they have no room for",
        first: &[],
        thens: &LEFT,
    },
];

#[test]
fn gets_give_what_is_asked_for_and_has_room(rt: HostRuntime) -> Result<(), Fail> {
    Ok(plays(&rt, rt.alloc(), &RUNS)?)
}

const LONG: &[u8] = &[b'x'; 257];

const LAST: Prio = Prio::Band(Band(255));

#[test]
fn puts_are_refused_for_their_arguments(rt: HostRuntime) -> Result<(), Fail> {
    let rows: [(Sent<'_>, Option<Refusal>); 9] = [
        (BOTH, None),
        ((BANDED, None, None), None),
        ((Prio::High, None, Some(CDE)), Some(Refusal::Einval)),
        ((Prio::High, None, Some(LONG)), Some(Refusal::Einval)),
        ((LAST, Some(AB), None), None),
        ((LAST, Some(LONG), None), Some(Refusal::Erange)),
        ((BANDED, Some(&LONG[..65]), None), Some(Refusal::Erange)),
        (
            (BANDED, Some(&LONG[..64]), Some(LONG)),
            Some(Refusal::Erange),
        ),
        ((BANDED, Some(&LONG[..64]), Some(&LONG[..256])), None),
    ];
    for (sent, wanted) in rows {
        assert_eq!(&rt; put_refusal(sent.0, sent.1, sent.2), wanted);
    }
    Ok(())
}
