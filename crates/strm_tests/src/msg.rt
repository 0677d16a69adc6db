//! Messages in a store of tables and in one of linked nodes, with answers worked out by hand.

mod pages;
mod rows;

use pages::{Page, plays_pages};
use rows::{Call, Case, Seen, Wanted, plays};
use std::test::Fail;
use strm_types::{MsgKind, Refusal};

// Bytes that are all alike.
const LETTERS: &[u8] = &[b'x'; 600];

const X300: &[u8] = &[b'x'; 300];

const X280: &[u8] = &[b'x'; 280];

const X256: &[u8] = &[b'x'; 256];

const X88: &[u8] = &[b'x'; 88];

const X44: &[u8] = &[b'x'; 44];

const X20: &[u8] = &[b'x'; 20];

const IN_AND_OUT: Case<'static> = Case {
    title: "bytes go in and come out",
    size: (10, 10),
    first: (MsgKind::Data, X300),
    second: None,
    of_copy: &[],
    rows: &[
        (Call::Adjust(0, true), (300, (None, Some(300)), (8, 8))),
        (Call::Take(280, X280), (20, (None, Some(20)), (8, 8))),
        (Call::Take(280, X20), (0, (None, Some(0)), (8, 8))),
    ],
};

const OF_ALL_BLOCKS: Case<'static> = Case {
    title: "a message has the bytes of all its blocks",
    size: (4, 4),
    first: (MsgKind::Sig, X300),
    second: None,
    of_copy: &[],
    rows: &[(Call::Size(300), (0, (None, None), (2, 2)))],
};

const COPIED: Case<'static> = Case {
    title: "copies have the parts of what was copied",
    size: (4, 3),
    first: (MsgKind::Proto, b"head"),
    second: Some((MsgKind::Data, b"body..")),
    of_copy: &[],
    rows: &[
        (
            Call::Dup(Some((6, (Some(4), Some(6)), (0, 1)))),
            (6, (Some(4), Some(6)), (2, 1)),
        ),
        (Call::Copy(None), (6, (Some(4), Some(6)), (2, 1))),
        (Call::Take(4, b"body"), (2, (Some(4), Some(2)), (2, 1))),
        (
            Call::Dup(Some((2, (Some(4), Some(2)), (0, 1)))),
            (2, (Some(4), Some(2)), (2, 1)),
        ),
    ],
};

const WHOLE: Seen = (300, (Some(4), Some(300)), (1, 1));

const TRIMMED: Case<'static> = Case {
    title: "bytes are trimmed within a run",
    size: (4, 4),
    first: (MsgKind::Proto, b"head"),
    second: Some((MsgKind::Data, X300)),
    of_copy: &[],
    rows: &[
        (Call::Adjust(5, false), WHOLE),
        (Call::Adjust(-301, false), WHOLE),
        (Call::Adjust(isize::MIN, false), WHOLE),
        (Call::Adjust(isize::MAX, false), WHOLE),
        (Call::Adjust(0, true), WHOLE),
        (Call::Adjust(3, true), (300, (Some(1), Some(300)), (1, 1))),
        (Call::Adjust(-50, true), (250, (Some(1), Some(250)), (1, 1))),
        (Call::Adjust(1, true), (250, (Some(0), Some(250)), (1, 1))),
        (Call::Adjust(1, false), (250, (Some(0), Some(250)), (1, 1))),
        (Call::Adjust(-250, true), (0, (Some(0), Some(0)), (1, 1))),
    ],
};

const COPY_TRIMMED: Case<'static> = Case {
    title: "a copy is trimmed and the message stays",
    size: (10, 10),
    first: (MsgKind::Data, LETTERS),
    second: None,
    of_copy: &[
        (Call::Dup(None), (600, (None, Some(600)), (1, 4))),
        (Call::Adjust(300, true), (300, (None, Some(300)), (1, 4))),
        (Call::Adjust(-301, false), (300, (None, Some(300)), (1, 4))),
    ],
    rows: &[(
        Call::Dup(Some((600, (None, Some(600)), (4, 7)))),
        (600, (None, Some(600)), (7, 7)),
    )],
};

const JOINED: Case<'static> = Case {
    title: "bytes of a run are joined",
    size: (3, 3),
    first: (MsgKind::Data, b"abc"),
    second: Some((MsgKind::Data, b"de")),
    of_copy: &[],
    rows: &[
        (
            Call::Pull(6, Some(Refusal::Einval)),
            (5, (None, Some(5)), (1, 1)),
        ),
        (
            Call::Pull(-2, Some(Refusal::Einval)),
            (5, (None, Some(5)), (1, 1)),
        ),
        (
            Call::Show(&[(MsgKind::Data, b"abc"), (MsgKind::Data, b"de")]),
            (5, (None, Some(5)), (1, 1)),
        ),
        (Call::Pull(4, None), (5, (None, Some(5)), (1, 1))),
        (
            Call::Show(&[(MsgKind::Data, b"abcd"), (MsgKind::Data, b"e")]),
            (5, (None, Some(5)), (1, 1)),
        ),
        (Call::Pull(-1, None), (5, (None, Some(5)), (2, 2))),
        (
            Call::Show(&[(MsgKind::Data, b"abcde")]),
            (5, (None, Some(5)), (2, 2)),
        ),
        (Call::Pull(0, None), (5, (None, Some(5)), (1, 1))),
        (
            Call::Show(&[(MsgKind::Data, b""), (MsgKind::Data, b"abcde")]),
            (5, (None, Some(5)), (1, 1)),
        ),
    ],
};

const FRONT: Case<'static> = Case {
    title: "only the front run is joined",
    size: (3, 3),
    first: (MsgKind::Proto, b"head"),
    second: Some((MsgKind::Data, b"body")),
    of_copy: &[],
    rows: &[
        (
            Call::Pull(5, Some(Refusal::Einval)),
            (4, (Some(4), Some(4)), (1, 1)),
        ),
        (Call::Pull(-1, None), (4, (Some(4), Some(4)), (1, 1))),
        (
            Call::Show(&[(MsgKind::Proto, b"head"), (MsgKind::Data, b"body")]),
            (4, (Some(4), Some(4)), (1, 1)),
        ),
        (Call::Pull(1, None), (4, (Some(4), Some(4)), (0, 0))),
        (
            Call::Show(&[
                (MsgKind::Proto, b"h"),
                (MsgKind::Proto, b"ead"),
                (MsgKind::Data, b"body"),
            ]),
            (4, (Some(4), Some(4)), (0, 0)),
        ),
        (
            Call::Pull(4, Some(Refusal::Enosr)),
            (4, (Some(4), Some(4)), (0, 0)),
        ),
        (
            Call::Pull(5, Some(Refusal::Einval)),
            (4, (Some(4), Some(4)), (0, 0)),
        ),
    ],
};

const LARGE: Wanted<'static> = (MsgKind::Data, X256);

const AT_MOST_A_BLOCK: Case<'static> = Case {
    title: "at most a data block is joined",
    size: (4, 4),
    first: (MsgKind::Data, LETTERS),
    second: None,
    of_copy: &[],
    rows: &[
        (
            Call::Pull(-1, Some(Refusal::Erange)),
            (600, (None, Some(600)), (1, 1)),
        ),
        (
            Call::Pull(257, Some(Refusal::Erange)),
            (600, (None, Some(600)), (1, 1)),
        ),
        (
            Call::Pull(601, Some(Refusal::Einval)),
            (600, (None, Some(600)), (1, 1)),
        ),
        (Call::Pull(256, None), (600, (None, Some(600)), (1, 1))),
        (
            Call::Show(&[LARGE, LARGE, (MsgKind::Data, X88)]),
            (600, (None, Some(600)), (1, 1)),
        ),
    ],
};

const TURNED: Case<'static> = Case {
    title: "blocks of control become data",
    size: (4, 4),
    first: (MsgKind::Proto, X300),
    second: None,
    of_copy: &[],
    rows: &[
        (Call::Turn(MsgKind::Data), (300, (None, Some(300)), (2, 2))),
        (
            Call::Show(&[LARGE, (MsgKind::Data, X44)]),
            (300, (None, Some(300)), (2, 2)),
        ),
    ],
};

const CASES: [Case<'static>; 9] = [
    IN_AND_OUT,
    OF_ALL_BLOCKS,
    COPIED,
    TRIMMED,
    COPY_TRIMMED,
    JOINED,
    FRONT,
    AT_MOST_A_BLOCK,
    TURNED,
];

#[test]
fn messages_are_as_wanted_behind_each_call(rt: HostRuntime) -> Result<(), Fail> {
    Ok(plays(&rt, rt.alloc(), &CASES)?)
}

const PAGES: [Page<'static>; 4] = [
    // One block is shared, and the other one isn't.
    Page {
        first: (MsgKind::Data, b"a line, "),
        second: b"and more\n",
        then: &[(MsgKind::Data, b"A LINE, "), (MsgKind::Data, b"AND MORE\n")],
        free: 0,
    },
    Page {
        first: (MsgKind::Data, b""),
        second: b"`az{\xe1",
        then: &[(MsgKind::Data, b""), (MsgKind::Data, b"`AZ{\xe1")],
        free: 0,
    },
    // A control part stays.
    Page {
        first: (MsgKind::Proto, b"head"),
        second: b"body",
        then: &[(MsgKind::Proto, b"head"), (MsgKind::Data, b"BODY")],
        free: 1,
    },
    // So does a message without parts.
    Page {
        first: (MsgKind::Ioctl, b"asks"),
        second: b"word",
        then: &[(MsgKind::Ioctl, b"asks"), (MsgKind::Data, b"word")],
        free: 1,
    },
];

#[test]
fn the_data_part_gets_other_bytes_by_a_table(rt: HostRuntime) -> Result<(), Fail> {
    Ok(plays_pages(&rt, rt.alloc(), &PAGES)?)
}
