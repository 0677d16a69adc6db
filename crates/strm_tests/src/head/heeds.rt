//! Signals, options, ioctls and their answers at a head, with answers worked out by hand.

ghost use Rattle.std.specs.Prelude.{◌≤◌, length};

use super::steps::{Run, Step, plays};
use std::alloc::{AllocError, Global};
use std::process::Abort;
use std::test::Fail;
use strm_blocks::{Blocks, Reserve, TableStore};
use strm_head::{Down, make_ioctl};
use strm_raw::RawStore;
use strm_types::{Answer, IOCTL_MAX, Ioc, MsgKind, ReadMode, Refusal, TCGETS, TCSETS};

const SIGNALS: [Step<'static>; 10] = [
    Step::Comes(MsgKind::Sig, b"\x02", None),
    Step::Comes(MsgKind::Pcsig, b"\x1f", None),
    Step::Comes(MsgKind::Sig, b"\x01", None),
    Step::Comes(MsgKind::Sig, b"\x02", None),
    Step::Comes(MsgKind::Sig, b"\0", None),
    Step::Comes(MsgKind::Sig, b"\x20", None),
    Step::Comes(MsgKind::Pcsig, b"\x03\x03", None),
    Step::Comes(MsgKind::Pcsig, b"", None),
    Step::Signals(b"\x02\x1f\x01"),
    Step::Signals(b""),
];

const OPTIONS: [Step<'static>; 18] = [
    Step::Comes(MsgKind::Setopts, b"\x01", None),
    Step::ReadsIn(ReadMode::MessageDiscard),
    Step::Comes(MsgKind::Setopts, b"\x02", None),
    Step::ReadsIn(ReadMode::MessageKeep),
    Step::Comes(MsgKind::Setopts, b"\x03", None),
    Step::ReadsIn(ReadMode::MessageKeep),
    Step::Comes(MsgKind::Setopts, b"\0", None),
    Step::ReadsIn(ReadMode::ByteStream),
    Step::Comes(MsgKind::Setopts, b"\x01\0\0\x02\0\0\0\0\x04", None),
    Step::ReadsIn(ReadMode::MessageDiscard),
    Step::Marked(512, 4),
    Step::Comes(MsgKind::Setopts, b"\x02\0\0\0\x04\0\0\0\x05", None),
    Step::ReadsIn(ReadMode::MessageKeep),
    Step::Marked(512, 4),
    Step::Comes(MsgKind::Setopts, b"\0\0\0\0\x09\0\0\0", None),
    Step::Comes(MsgKind::Setopts, b"\0\0\0\0\x09\0\0\0\x04\0", None),
    Step::ReadsIn(ReadMode::MessageKeep),
    Step::Marked(512, 4),
];

const SEVEN: &[u8] = b"\0\0\0\x01\0\0\0\x07\0\0\0\0\0\0\0\0hi";

const SEVEN_AGAIN: &[u8] = b"\0\0\0\x01\0\0\0\x07\0\0\0\0\0\0\0\0no";

const EIGHT: &[u8] = b"\0\0\0\x01\0\0\0\x08\0\0\0\0\0\0\0\0no";

const ACKS: [Step<'static>; 15] = [
    Step::Refuses(7, Some(Refusal::Einval)),
    Step::Begins(7, TCGETS),
    Step::Told(Answer::Pending(7), b""),
    Step::Refuses(7, Some(Refusal::Eagain)),
    Step::Refuses(8, Some(Refusal::Einval)),
    Step::Comes(MsgKind::Iocack, EIGHT, None),
    Step::Refuses(7, Some(Refusal::Eagain)),
    Step::Comes(MsgKind::Iocack, SEVEN, None),
    Step::Comes(MsgKind::Iocack, SEVEN_AGAIN, None),
    Step::Comes(MsgKind::Iocnak, SEVEN, None),
    Step::Refuses(7, None),
    Step::Refuses(8, Some(Refusal::Einval)),
    Step::Told(Answer::Bytes(2), b"hi"),
    Step::Told(Answer::Done, b""),
    Step::Refuses(7, Some(Refusal::Einval)),
];

const REFUSED: &[u8] = b"\0\0\0\x01\0\0\0\x01\0\0\0\x06\0\0\0\0no";

const REFUSED_FOR_NOTHING: &[u8] = b"\0\0\0\x01\0\0\0\x02\0\0\0\x63\0\0\0\0";

const NAKS: [Step<'static>; 9] = [
    Step::Begins(1, TCGETS),
    Step::Comes(MsgKind::Iocnak, REFUSED, None),
    Step::Told(Answer::Nak(Refusal::Erange), b""),
    Step::Begins(2, TCGETS),
    Step::Comes(MsgKind::Iocnak, REFUSED_FOR_NOTHING, None),
    Step::Told(Answer::Nak(Refusal::Einval), b""),
    Step::Begins(7, TCSETS),
    Step::Comes(MsgKind::Iocack, SEVEN, None),
    Step::Told(Answer::Done, b""),
];

const EXES: &[u8] = &[b'x'; IOCTL_MAX];

const CUT: [Step<'static>; 4] = [
    Step::Begins(7, 99),
    Step::ComesInTwo(
        MsgKind::Iocack,
        b"\0\0\0\x01\0\0\0\x07\0\0\0\0\0\0\0\0x",
        EXES,
    ),
    Step::Told(Answer::Bytes(IOCTL_MAX as u32), EXES),
    Step::Told(Answer::Done, b""),
];

const ASKED: Ioc = Ioc {
    command: 5,
    number: 9,
    error: 0,
    result: 0,
};

const ASKS: [Step<'static>; 3] = [
    Step::Comes(
        MsgKind::Ioctl,
        b"\0\0\0\x05\0\0\0\x09\0\0\0\0\0\0\0\0hi",
        Some(Down::Nak(ASKED)),
    ),
    Step::Comes(MsgKind::Ioctl, b"\0\0\0\x05\0\0\0\0\0\0\0\0\0\0\0\0", None),
    Step::Comes(MsgKind::Ioctl, b"\0\0\0\x05\0\0\0\x09\0\0\0\0\0\0\0", None),
];

const NOTHING_LEFT: [Step<'static>; 1] = [Step::Free(10)];

const RUNS: [Run<'static>; 6] = [
    Run {
        title: "signals wait once in order",
        first: &SIGNALS,
        thens: &[&NOTHING_LEFT],
    },
    Run {
        title: "options are set where they are given",
        first: &OPTIONS,
        thens: &[&NOTHING_LEFT],
    },
    Run {
        title: "answers are given once",
        first: &ACKS,
        thens: &[&NOTHING_LEFT],
    },
    Run {
        title: "answers say why or that it is done",
        first: &NAKS,
        thens: &[&NOTHING_LEFT],
    },
    Run {
        title: "long answers are cut",
        first: &CUT,
        thens: &[&NOTHING_LEFT],
    },
    Run {
        title: "ioctls that come up are answered",
        first: &ASKS,
        thens: &[&NOTHING_LEFT],
    },
];

#[test]
fn a_head_heeds_what_comes_up(rt: HostRuntime) -> Result<(), Fail> {
    Ok(plays(&rt, rt.alloc(), &RUNS)?)
}

// Whether an M_IOCTL with this body takes so many blocks of each kind, which are free again behind it.
fn makes<B: Blocks>(store: &mut B, body: &[u8], blocks: usize) -> bool
    requires { length body.now ≤ IOCTL_MAX }
{
    let (mblks, dblks) = store.free_blocks();
    if mblks < 2 || dblks < 2 {
        return false;
    }
    let message = make_ioctl(store, Ioc::asking(TCSETS, 7), body);
    let count = store.blocks(&message);
    let (free_m, free_d) = store.free_blocks();
    store.free(message);
    count == blocks
        && mblks.checked_sub(blocks) == Some(free_m)
        && dblks.checked_sub(blocks) == Some(free_d)
        && store.free_blocks() == (mblks, dblks)
}

// Bodies, and how many blocks their M_IOCTL takes.
fn are_made<B: Reserve>(rt: &impl Abort, alloc: Global) -> Result<(), AllocError> {
    let mut store = B::reserve(alloc, 2, 2)?;
    assert!(rt; makes(&mut store, b"", 1));
    assert!(rt; makes(&mut store, b"ab", 2));
    assert!(rt; makes(&mut store, EXES, 2));
    Ok(())
}

#[test]
fn ioctls_take_a_block_or_two(rt: HostRuntime) -> Result<(), Fail> {
    are_made::<TableStore>(&rt, rt.alloc())?;
    Ok(are_made::<RawStore>(&rt, rt.alloc())?)
}
