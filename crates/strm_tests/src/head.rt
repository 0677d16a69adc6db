//! Reads of a head in each read mode, and what comes up to it, with answers worked out by hand.

mod freeing;
mod gets;
mod heeds;
mod made;
mod steps;
mod vectors;

use std::test::Fail;
use steps::{Run, Step, plays};
use strm_head::Down;
use strm_types::{Band, ControlMode, FlushAsked, MsgKind, ReadMode, Refusal};

const STREAM: ReadMode = ReadMode::ByteStream;

const KEEP: ReadMode = ReadMode::MessageKeep;

const DISCARD: ReadMode = ReadMode::MessageDiscard;

const TWO_STAND: [Step<'static>; 2] = [
    Step::Comes(MsgKind::Data, b"hello", None),
    Step::Comes(MsgKind::Data, b"abc", None),
];

const EMPTY: [Step<'static>; 2] = [
    Step::ReadRefused(false, 1, Some(Refusal::Eagain)),
    Step::ReadRefused(true, 1, None),
];

// FLUSHW of all bands, of band 0 and of band 200, which goes down again.
const FLUSHW: Option<Down> = Some(Down::Flush(FlushAsked {
    for_read: false,
    for_write: true,
    band: None,
}));

const FLUSHW_0: Option<Down> = Some(Down::Flush(FlushAsked {
    for_read: false,
    for_write: true,
    band: Some(Band(0)),
}));

const FLUSHW_200: Option<Down> = Some(Down::Flush(FlushAsked {
    for_read: false,
    for_write: true,
    band: Some(Band(200)),
}));

const HELLO: [Step<'static>; 1] = [Step::Comes(MsgKind::Data, b"hello", None)];

const READS: [&[Step<'static>]; 4] = [
    // A byte stream is read across messages.
    &[
        Step::SetModes(STREAM, ControlMode::Refuse),
        Step::ReadRefused(false, 6, None),
        Step::Read(6, b"helloa", 0, 0),
        Step::Waits(2, 1),
    ],
    // The rest of a message is kept, or discarded.
    &[
        Step::SetModes(KEEP, ControlMode::Refuse),
        Step::ReadRefused(false, 2, None),
        Step::Read(2, b"he", 0, 0),
        Step::Waits(3, 2),
    ],
    &[
        Step::SetModes(DISCARD, ControlMode::Refuse),
        Step::ReadRefused(false, 2, None),
        Step::Read(2, b"he", 3, 0),
        Step::Waits(3, 1),
    ],
    // A read ends with its message.
    &[
        Step::SetModes(KEEP, ControlMode::Refuse),
        Step::ReadRefused(false, 8, None),
        Step::Read(8, b"hello", 0, 0),
        Step::Waits(3, 1),
    ],
];

// What comes up, and what is to be seen then: how many bytes wait and how many messages, and whether the other end is gone.
const OBEYED: [&[Step<'static>]; 7] = [
    &[
        Step::Takes(MsgKind::Flush, b"\x01", None, 5, 0),
        Step::Waits(0, 0),
        Step::HungUp(false),
    ],
    &[
        Step::Takes(MsgKind::Flush, b"\x02", FLUSHW, 0, 0),
        Step::Waits(5, 1),
        Step::HungUp(false),
    ],
    &[
        Step::Takes(MsgKind::Flush, b"\x03", FLUSHW, 5, 0),
        Step::Waits(0, 0),
        Step::HungUp(false),
    ],
    &[
        Step::Takes(MsgKind::Flush, b"\x07\x00", FLUSHW_0, 5, 0),
        Step::Waits(0, 0),
        Step::HungUp(false),
    ],
    &[
        Step::Takes(MsgKind::Flush, b"\x07\xc8", FLUSHW_200, 0, 0),
        Step::Waits(5, 1),
        Step::HungUp(false),
    ],
    &[
        Step::Comes(MsgKind::Hangup, b"", None),
        Step::Waits(5, 1),
        Step::HungUp(true),
    ],
    &[
        Step::Comes(MsgKind::Ctl, b"x", None),
        Step::Waits(5, 1),
        Step::HungUp(false),
    ],
];

const DOUBLED: [&[Step<'static>]; 4] = [
    &[
        Step::Comes(MsgKind::Pcproto, b"ab", None),
        Step::Takes(MsgKind::Pcproto, b"cde", None, 0, 3),
        Step::Waits(0, 1),
        Step::HungUp(false),
    ],
    &[
        Step::Comes(MsgKind::Pcproto, b"ab", None),
        Step::Takes(MsgKind::Data, b"cde", None, 0, 0),
        Step::Waits(0, 2),
        Step::HungUp(false),
    ],
    &[
        Step::Comes(MsgKind::Proto, b"ab", None),
        Step::Takes(MsgKind::Pcproto, b"cde", None, 0, 0),
        Step::Waits(0, 2),
        Step::HungUp(false),
    ],
    &[
        Step::Comes(MsgKind::Proto, b"ab", None),
        Step::Takes(MsgKind::Proto, b"cde", None, 0, 0),
        Step::Waits(0, 2),
        Step::HungUp(false),
    ],
];

// An M_PCPROTO of "ab" and "cd", an M_PROTO of "x" without a data part, and an M_DATA of "ef".
const THREE_STAND: [Step<'static>; 3] = [
    Step::ComesInTwo(MsgKind::Pcproto, b"ab", b"cd"),
    Step::Comes(MsgKind::Proto, b"x", None),
    Step::Comes(MsgKind::Data, b"ef", None),
];

const PARTS: [&[Step<'static>]; 11] = [
    &[
        Step::SetModes(STREAM, ControlMode::Refuse),
        Step::Read(3, b"", 0, 0),
        Step::Waits(2, 3),
        Step::HasHigh(true),
    ],
    &[
        Step::SetModes(STREAM, ControlMode::Data),
        Step::Read(1, b"a", 0, 0),
        Step::Waits(2, 3),
        Step::HasHigh(true),
    ],
    &[
        Step::SetModes(STREAM, ControlMode::Data),
        Step::Read(3, b"abc", 0, 0),
        Step::Waits(1, 3),
        Step::HasHigh(false),
    ],
    &[
        Step::SetModes(STREAM, ControlMode::Data),
        Step::Read(6, b"abcdxe", 0, 0),
        Step::Waits(1, 1),
        Step::HasHigh(false),
    ],
    &[
        Step::SetModes(KEEP, ControlMode::Data),
        Step::Read(9, b"abcd", 0, 0),
        Step::Waits(0, 2),
        Step::HasHigh(false),
    ],
    &[
        Step::SetModes(DISCARD, ControlMode::Data),
        Step::Read(1, b"a", 3, 0),
        Step::Waits(0, 2),
        Step::HasHigh(false),
    ],
    &[
        Step::SetModes(STREAM, ControlMode::Discard),
        Step::Read(1, b"c", 0, 2),
        Step::Waits(1, 3),
        Step::HasHigh(false),
    ],
    &[
        Step::SetModes(STREAM, ControlMode::Discard),
        Step::Read(2, b"cd", 0, 2),
        Step::Waits(0, 2),
        Step::HasHigh(false),
    ],
    &[
        Step::SetModes(STREAM, ControlMode::Discard),
        Step::Read(3, b"cde", 0, 3),
        Step::Waits(1, 1),
        Step::HasHigh(false),
    ],
    &[
        Step::SetModes(KEEP, ControlMode::Discard),
        Step::Read(9, b"cd", 0, 2),
        Step::Waits(0, 2),
        Step::HasHigh(false),
    ],
    &[
        Step::SetModes(DISCARD, ControlMode::Discard),
        Step::Read(1, b"c", 1, 2),
        Step::Waits(0, 2),
        Step::HasHigh(false),
    ],
];

const RUNS: [Run<'static>; 5] = [
    Run {
        title: "a read ends as its mode says",
        first: &TWO_STAND,
        thens: &READS,
    },
    Run {
        title: "an empty head waits",
        first: &EMPTY,
        thens: &[&[]],
    },
    Run {
        title: "what comes up is obeyed",
        first: &HELLO,
        thens: &OBEYED,
    },
    Run {
        title: "one M_PCPROTO waits at most",
        first: &[],
        thens: &DOUBLED,
    },
    Run {
        title: "control parts are read by their mode",
        first: &THREE_STAND,
        thens: &PARTS,
    },
];

#[test]
fn reads_go_by_their_modes_and_what_comes_up_is_obeyed(rt: HostRuntime) -> Result<(), Fail> {
    Ok(plays(&rt, rt.alloc(), &RUNS)?)
}
