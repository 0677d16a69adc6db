//! Blocks that a read or a get frees of a message of which it leaves a part, with answers worked out by hand from read(2) and getmsg(2).

use super::gets::{AB, BOTH, EMPTY, HIGH, ORDINARY};
use super::made::Sent;
use super::steps::{Run, Step, plays};
use std::test::Fail;
use strm_types::{ControlMode, ReadMode};

const EMPTY_DATA: Sent<'static> = (ORDINARY, Some(AB), Some(EMPTY));

// A message, a get with room for so many bytes of each part, and how many blocks of ten are free behind it.
const GETS: [&[Step<'static>]; 8] = [
    &[Step::Sent(BOTH), Step::Draw(0, 0), Step::Free(8)],
    &[Step::Sent(BOTH), Step::Draw(1, 1), Step::Free(8)],
    &[Step::Sent(BOTH), Step::Draw(1, 9), Step::Free(9)],
    &[Step::Sent(BOTH), Step::Draw(9, 1), Step::Free(9)],
    &[Step::Sent(BOTH), Step::Draw(9, 9), Step::Free(10)],
    &[Step::Sent(HIGH), Step::Draw(9, 0), Step::Free(9)],
    &[Step::Sent(HIGH), Step::Draw(1, 3), Step::Free(9)],
    &[Step::Sent(EMPTY_DATA), Step::Draw(1, 0), Step::Free(9)],
];

const AS_DATA: Step<'static> = Step::SetModes(ReadMode::ByteStream, ControlMode::Data);

const WITHOUT: Step<'static> = Step::SetModes(ReadMode::ByteStream, ControlMode::Discard);

// The same of reads.
const READS: [&[Step<'static>]; 7] = [
    &[
        Step::Sent(BOTH),
        AS_DATA,
        Step::Read(1, b"a", 0, 0),
        Step::Free(8),
    ],
    &[
        Step::Sent(BOTH),
        AS_DATA,
        Step::Read(2, b"ab", 0, 0),
        Step::Free(9),
    ],
    &[
        Step::Sent(BOTH),
        AS_DATA,
        Step::Read(4, b"abcd", 0, 0),
        Step::Free(9),
    ],
    &[
        Step::Sent(BOTH),
        AS_DATA,
        Step::Read(5, b"abcde", 0, 0),
        Step::Free(10),
    ],
    &[
        Step::Sent(BOTH),
        WITHOUT,
        Step::Read(1, b"c", 0, 2),
        Step::Free(9),
    ],
    &[
        Step::Sent(HIGH),
        AS_DATA,
        Step::Read(3, b"abc", 0, 0),
        Step::Free(9),
    ],
    &[
        Step::Sent(EMPTY_DATA),
        AS_DATA,
        Step::Read(1, b"a", 0, 0),
        Step::Free(9),
    ],
];

const RUNS: [Run<'static>; 2] = [
    Run {
        title: "gets free the blocks that they empty",
        first: &[],
        thens: &GETS,
    },
    Run {
        title: "reads free the blocks that they empty",
        first: &[],
        thens: &READS,
    },
];

#[test]
fn blocks_that_are_emptied_are_freed(rt: HostRuntime) -> Result<(), Fail> {
    Ok(plays(&rt, rt.alloc(), &RUNS)?)
}
