//! Each call of a store of each kind once, through the bound, and how many references a data block can have, with answers worked out by
//! hand.

use crate::moves::{Edit, Game, Look, Move, play_all};
use std::test::Fail;
use strm_blocks::{FlushWhat, TableStore};
use strm_raw::RawStore;
use strm_types::{Band, MsgKind};

pub const DATA: MsgKind = MsgKind::Data;

pub const PROTO: MsgKind = MsgKind::Proto;

pub const PCPROTO: MsgKind = MsgKind::Pcproto;

// 45 of 300 message blocks are free beside a data block of 255 references, which can have no more, and then all.
const PILED: [Move<'static>; 7] = [
    Move::Alloc(0, DATA, true),
    Move::Pile(0, 1, 254),
    Move::Look(0, Look::Blocks(255)),
    Move::Room(45, 299),
    Move::Dup(0, 0, 1, false),
    Move::Free(0),
    Move::Room(300, 300),
];

const OF_BAND_3: FlushWhat = FlushWhat {
    all: false,
    band: Some(Band(3)),
};

// A message is as wanted behind each call, and so are the free blocks. The rest of it is in hand when all is freed.
const EACH_CALL: [Move<'static>; 31] = [
    Move::Alloc(0, PROTO, true),
    Move::Edit(0, Edit::Append(b"ab", 2)),
    Move::Alloc(1, DATA, true),
    Move::Edit(1, Edit::Append(b"cdef", 4)),
    Move::Link(0, 1),
    Move::Edit(0, Edit::TrimHead(1, 1)),
    Move::Edit(0, Edit::TrimTail(1, 1)),
    Move::Copy(0, 1, 3, true),
    Move::Look(3, Look::Len(0, 2)),
    Move::Free(3),
    Move::Dup(0, 1, 3, true),
    Move::Look(3, Look::Len(0, 2)),
    Move::Free(3),
    Move::Edit(0, Edit::Band(3)),
    Move::Pass(0, 2),
    Move::Peek(2, Some((PROTO, 3))),
    Move::Pass(2, 0),
    Move::Look(0, Look::Told(0, (true, PROTO, 3, 2))),
    Move::Look(0, Look::Told(1, (false, DATA, 0, 2))),
    Move::Look(0, Look::Blocks(2)),
    Move::Look(0, Look::Band(3)),
    Move::Look(0, Look::Shows(1, DATA, b"de")),
    Move::Part(0, 4, true),
    Move::Look(4, Look::Shows(0, DATA, b"de")),
    Move::Lose(4),
    Move::Pass(0, 7),
    Move::Room(6, 6),
    Move::Flush(7, OF_BAND_3),
    Move::Room(7, 7),
    Move::Reset,
    Move::Room(8, 8),
];

const TELLING: [Move<'static>; 8] = [
    Move::Stand(5, 0),
    Move::Make(5, PROTO, 2, b"ab"),
    Move::Make(5, DATA, 2, b"cdef"),
    Move::Make(5, DATA, 2, b"gh"),
    Move::Told(5, 1, (true, DATA, 2, 4)),
    Move::Passed(5, 9, 6),
    Move::Stand(5, 3),
    Move::Room(5, 5),
];

const FROM_ITS_END: [Move<'static>; 14] = [
    Move::Make(5, DATA, 2, b"ab"),
    Move::Make(5, DATA, 2, b"cd"),
    Move::Make(5, PCPROTO, 2, b"ef"),
    Move::Last(5, 0, true),
    Move::Look(0, Look::Shows(0, DATA, b"cd")),
    Move::Free(0),
    Move::Last(5, 0, true),
    Move::Look(0, Look::Shows(0, DATA, b"ab")),
    Move::Free(0),
    Move::Last(5, 0, true),
    Move::Look(0, Look::Shows(0, PCPROTO, b"ef")),
    Move::Free(0),
    Move::Last(5, 0, false),
    Move::Room(8, 8),
];

const COUNTING: [Move<'static>; 7] = [
    Move::Make(0, DATA, 2, b"abc"),
    Move::Edit(0, Edit::Kind(0, PROTO)),
    Move::Look(0, Look::Counts(PROTO, 2, 3)),
    Move::Edit(0, Edit::TrimHead(0, 300)),
    Move::Look(0, Look::Counts(PROTO, 2, 0)),
    Move::Free(0),
    Move::Room(8, 8),
];

const GAMES: [Game<'static>; 5] = [
    Game {
        title: "a data block has at most 255 references",
        mblks: 300,
        dblks: 300,
        first: &PILED,
        then: &PILED,
    },
    Game {
        title: "each call does its work",
        mblks: 8,
        dblks: 8,
        first: &EACH_CALL,
        then: &EACH_CALL,
    },
    Game {
        title: "a visitor is told until it wants no more",
        mblks: 8,
        dblks: 8,
        first: &TELLING,
        then: &[],
    },
    Game {
        title: "the last message is taken first by pop_last",
        mblks: 8,
        dblks: 8,
        first: &FROM_ITS_END,
        then: &[],
    },
    Game {
        title: "a message is counted at once",
        mblks: 8,
        dblks: 8,
        first: &COUNTING,
        then: &[],
    },
];

#[test]
fn each_call_of_a_store_does_its_work(rt: HostRuntime) -> Result<(), Fail> {
    play_all::<TableStore>(&rt, rt.alloc(), &GAMES)?;
    Ok(play_all::<RawStore>(&rt, rt.alloc(), &GAMES)?)
}
