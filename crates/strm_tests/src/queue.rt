//! Queues over a store of tables and over one of linked nodes, with answers worked out by hand.

mod steps;

use std::test::Fail;
use steps::{Run, Step, plays};
use strm_types::MsgKind;

const PUT_BACK: [Step<'static>; 7] = [
    Step::Put(MsgKind::Data, 0, b"a"),
    Step::Put(MsgKind::Data, 0, b"b"),
    Step::PutBack(b"c"),
    Step::Take(b"c"),
    Step::Take(b"a"),
    Step::Take(b"b"),
    Step::TakeNone,
];

const OF_ALL_RANKS: [Step<'static>; 10] = [
    Step::Put(MsgKind::Data, 0, b"a"),
    Step::Put(MsgKind::Data, 1, b"b"),
    Step::Put(MsgKind::Pcproto, 0, b"c"),
    Step::Put(MsgKind::Data, 1, b"d"),
    Step::Counts(0, 2),
    Step::Counts(1, 2),
    Step::Take(b"c"),
    Step::Take(b"b"),
    Step::Take(b"d"),
    Step::Take(b"a"),
];

const HUNDRED_AND_FIFTY: &[u8] = &[b'x'; 150];

const AT_THE_MARK: [Step<'static>; 7] = [
    Step::Put(MsgKind::Data, 0, HUNDRED_AND_FIFTY),
    Step::Put(MsgKind::Data, 0, HUNDRED_AND_FIFTY),
    Step::Counts(0, 300),
    Step::Marks(0, 300, 10, true),
    Step::Marks(0, 301, 10, false),
    Step::Flush,
    Step::Counts(0, 0),
];

const OF_BANDS: [Step<'static>; 11] = [
    Step::Put(MsgKind::Data, 0, b"a"),
    Step::Put(MsgKind::Data, 200, b"b"),
    Step::Put(MsgKind::Data, 7, b"c"),
    Step::Put(MsgKind::Data, 255, b"d"),
    Step::Put(MsgKind::Data, 200, b"e"),
    Step::Take(b"d"),
    Step::Take(b"b"),
    Step::Take(b"e"),
    Step::Take(b"c"),
    Step::Take(b"a"),
    Step::TakeNone,
];

const FULL_IN_ONE_BAND: [Step<'static>; 14] = [
    Step::Put(MsgKind::Data, 7, HUNDRED_AND_FIFTY),
    Step::Put(MsgKind::Data, 200, HUNDRED_AND_FIFTY),
    Step::Put(MsgKind::Data, 255, HUNDRED_AND_FIFTY),
    Step::Marks(200, 150, 10, true),
    Step::Full(0, false),
    Step::Full(7, false),
    Step::Full(199, false),
    Step::Full(255, false),
    Step::Marks(255, 150, 150, true),
    Step::Marks(200, 151, 10, false),
    Step::Full(255, true),
    Step::Full(7, false),
    Step::Full(0, false),
    Step::Flush,
];

const COMING_DOWN: [Step<'static>; 21] = [
    Step::Put(MsgKind::Data, 200, b"a"),
    Step::Put(MsgKind::Data, 200, b"bc"),
    Step::Put(MsgKind::Data, 200, b"def"),
    Step::Put(MsgKind::Data, 7, HUNDRED_AND_FIFTY),
    Step::Counts(200, 6),
    Step::Marks(200, 6, 3, true),
    Step::LetWait(200),
    Step::LetWait(7),
    Step::BackEnable(false),
    Step::Take(b"a"),
    // Below the high-water mark, and above the low one.
    Step::Counts(200, 5),
    Step::Full(200, false),
    Step::BackEnable(false),
    Step::Waits(200, true),
    Step::Take(b"bc"),
    Step::Counts(200, 3),
    Step::BackEnable(true),
    Step::Waits(200, false),
    Step::Waits(7, true),
    Step::BackEnable(false),
    Step::Flush,
];

const FLUSHED_IN_ONE_BAND: [Step<'static>; 12] = [
    Step::Put(MsgKind::Data, 0, b"a"),
    Step::Put(MsgKind::Data, 200, b"bc"),
    Step::Put(MsgKind::Data, 255, b"d"),
    Step::Put(MsgKind::Data, 200, b"e"),
    Step::Counts(200, 3),
    Step::FlushBand(200),
    Step::Counts(0, 1),
    Step::Counts(200, 0),
    Step::Counts(255, 1),
    Step::Take(b"d"),
    Step::Take(b"a"),
    Step::TakeNone,
];

const MARKED_IN_ALL_BANDS: [Step<'static>; 17] = [
    Step::Put(MsgKind::Data, 0, HUNDRED_AND_FIFTY),
    Step::Put(MsgKind::Data, 7, HUNDRED_AND_FIFTY),
    Step::Put(MsgKind::Data, 255, HUNDRED_AND_FIFTY),
    Step::Marks(255, 200, 10, false),
    Step::Full(7, false),
    Step::MarkAll(150, 10),
    Step::Full(0, true),
    Step::Full(3, false),
    Step::Full(7, true),
    Step::Full(200, false),
    Step::Full(255, true),
    Step::MarkAll(151, 151),
    Step::Full(0, false),
    Step::Full(7, false),
    Step::Full(200, false),
    Step::Full(255, false),
    Step::Flush,
];

const RUNS: [Run<'static>; 8] = [
    Run {
        title: "what is put back is taken next",
        list: 3,
        steps: &PUT_BACK,
    },
    Run {
        title: "ranks come in order",
        list: 0,
        steps: &OF_ALL_RANKS,
    },
    Run {
        title: "a band is full from its mark on",
        list: 0,
        steps: &AT_THE_MARK,
    },
    Run {
        title: "bands come from 255 down",
        list: 5,
        steps: &OF_BANDS,
    },
    Run {
        title: "marks of a band leave the others",
        list: 7,
        steps: &FULL_IN_ONE_BAND,
    },
    Run {
        title: "writers go at the low mark of their band",
        list: 0,
        steps: &COMING_DOWN,
    },
    Run {
        title: "a flush of a band leaves the others",
        list: 0,
        steps: &FLUSHED_IN_ONE_BAND,
    },
    Run {
        title: "all bands get the marks",
        list: 0,
        steps: &MARKED_IN_ALL_BANDS,
    },
];

#[test]
fn queues_keep_to_ranks_and_marks(rt: HostRuntime) -> Result<(), Fail> {
    Ok(plays(&rt, rt.alloc(), &RUNS)?)
}
