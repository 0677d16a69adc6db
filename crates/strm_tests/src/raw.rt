//! What a caller sees of a store, with answers worked out by hand: over raw blocks and over tables alike, but for names of messages.

mod walk;

use crate::blocks::{DATA, PCPROTO, PROTO};
use crate::moves::{Edit, Game, Look, Move, follow, new_store, play_all};
use std::alloc::{AllocError, Global};
use std::process::Abort;
use std::test::Fail;
use strm_blocks::{Blocks, FlushWhat, Reserve, TableStore};
use strm_raw::RawStore;
use strm_types::Band;

// The 256th reference is refused, also where others were given back.
const REFERENCES: [Move<'static>; 11] = [
    Move::Alloc(0, DATA, true),
    Move::Dups(0, 1, 253),
    Move::Dup(0, 0, 2, true),
    Move::Free(2),
    Move::FreeAll(1),
    Move::Dups(0, 1, 254),
    Move::Dup(0, 0, 2, false),
    Move::FreeAll(1),
    Move::Room(299, 1),
    Move::Free(0),
    Move::Room(300, 2),
];

const TRIMMING: [Move<'static>; 17] = [
    Move::Make(0, DATA, 1, b"abcdef"),
    Move::Dup(0, 0, 1, true),
    Move::Edit(0, Edit::TrimHead(0, 2)),
    Move::Edit(0, Edit::TrimTail(0, 1)),
    Move::Look(0, Look::Shows(0, DATA, b"cde")),
    Move::Look(1, Look::Shows(0, DATA, b"abcdef")),
    Move::Edit(0, Edit::TrimHead(0, 4)),
    Move::Look(0, Look::Len(0, 0)),
    Move::Edit(0, Edit::Kind(0, PROTO)),
    Move::Edit(0, Edit::Band(7)),
    Move::Look(0, Look::Shows(0, PROTO, b"")),
    Move::Look(0, Look::Band(7)),
    Move::Look(1, Look::Shows(0, DATA, b"abcdef")),
    Move::Look(1, Look::Band(1)),
    Move::Free(0),
    Move::Free(1),
    Move::Room(2, 2),
];

const COPYING: [Move<'static>; 8] = [
    Move::Make(0, PROTO, 3, b"abcd"),
    Move::Edit(0, Edit::TrimHead(0, 2)),
    Move::Copy(0, 0, 1, true),
    Move::Room(0, 0),
    Move::Look(1, Look::Shows(0, PROTO, b"cd")),
    Move::Look(1, Look::Counts(PROTO, 3, 2)),
    Move::Free(0),
    Move::Room(1, 1),
];

const FILLING: [Move<'static>; 8] = [
    Move::Alloc(0, PROTO, true),
    Move::Alloc(1, DATA, true),
    Move::Link(0, 1),
    Move::Edit(0, Edit::Append(b"abcd", 4)),
    Move::Look(0, Look::Shows(1, DATA, b"abcd")),
    Move::Edit(0, Edit::Append(&[7; 300], 252)),
    Move::Look(0, Look::Len(0, 0)),
    Move::Look(0, Look::Len(1, 256)),
];

const SHARED: [Move<'static>; 3] = [
    Move::Make(0, DATA, 0, b"abcd"),
    Move::Dup(0, 0, 1, true),
    Move::Edit(0, Edit::Append(b"e", 0)),
];

const OF_BAND_2: FlushWhat = FlushWhat {
    all: false,
    band: Some(Band(2)),
};

// A list of messages of several ranks, of which a flush takes two. The last one has two blocks.
const LISTING: [Move<'static>; 11] = [
    Move::Make(1, DATA, 0, b""),
    Move::Make(1, DATA, 2, b"a"),
    Move::Make(1, PCPROTO, 0, b"ab"),
    Move::MakeInFront(1, DATA, 0, b"abc"),
    Move::MakeInFront(1, DATA, 2, b"abcd"),
    Move::Make(1, PROTO, 1, b"abcde"),
    Move::Make(1, DATA, 0, b"abcdef"),
    Move::Flush(1, OF_BAND_2),
    Move::Make(2, DATA, 0, b"a"),
    Move::Make(3, DATA, 0, b"bc"),
    Move::Link(2, 3),
];

// What is seen of it block by block, of its last message and of its first one.
const LISTED: [Move<'static>; 20] = [
    Move::Pass(2, 1),
    Move::Told(1, 0, (true, PCPROTO, 0, 2)),
    Move::Told(1, 1, (true, PROTO, 1, 5)),
    Move::Told(1, 2, (true, DATA, 0, 3)),
    Move::Told(1, 3, (true, DATA, 0, 0)),
    Move::Told(1, 4, (true, DATA, 0, 6)),
    Move::Told(1, 5, (true, DATA, 0, 1)),
    Move::Told(1, 6, (false, DATA, 0, 2)),
    Move::Passed(1, 7, 0),
    Move::Peek(1, Some((PCPROTO, 0))),
    Move::Last(1, 2, true),
    Move::Look(2, Look::Told(0, (true, DATA, 0, 1))),
    Move::Look(2, Look::Told(1, (false, DATA, 0, 2))),
    Move::Look(2, Look::Passed(2, 0)),
    Move::Look(2, Look::Passed(7, 5)),
    Move::Look(2, Look::Counts(DATA, 0, 3)),
    Move::Free(2),
    Move::Look(1, Look::Counts(PCPROTO, 0, 2)),
    Move::Free(1),
    Move::Room(4, 4),
];

const LOWEST: [Move<'static>; 9] = [
    Move::Make(7, DATA, 0, b"a"),
    Move::Make(7, DATA, 1, b"bc"),
    Move::Last(7, 0, true),
    Move::Look(0, Look::Counts(DATA, 0, 1)),
    Move::Stand(7, 1),
    Move::Lose(0),
    Move::Reset,
    Move::Stand(7, 0),
    Move::Room(3, 3),
];

const GAMES: [Game<'static>; 7] = [
    Game {
        title: "a data block has at most 255 references at a time",
        mblks: 300,
        dblks: 2,
        first: &REFERENCES,
        then: &[],
    },
    Game {
        title: "a trim takes no more than is shown",
        mblks: 2,
        dblks: 2,
        first: &TRIMMING,
        then: &[],
    },
    Game {
        title: "a copy shows what is left of a block",
        mblks: 2,
        dblks: 2,
        first: &COPYING,
        then: &[],
    },
    Game {
        title: "an append fills the last block",
        mblks: 3,
        dblks: 2,
        first: &FILLING,
        then: &[],
    },
    Game {
        title: "an append fills no shared block",
        mblks: 2,
        dblks: 1,
        first: &SHARED,
        then: &[],
    },
    Game {
        title: "a list is in order of rank",
        mblks: 8,
        dblks: 8,
        first: &LISTING,
        then: &LISTED,
    },
    Game {
        title: "the last of a list has the lowest rank",
        mblks: 3,
        dblks: 3,
        first: &LOWEST,
        then: &[],
    },
];

#[test]
fn both_stores_are_seen_alike(rt: HostRuntime) -> Result<(), Fail> {
    play_all::<TableStore>(&rt, rt.alloc(), &GAMES)?;
    Ok(play_all::<RawStore>(&rt, rt.alloc(), &GAMES)?)
}

// A message's blocks have their names whichever way it is linked, and the one that was freed last is used next.
const PARTED: [Move<'static>; 15] = [
    Move::Alloc(0, PROTO, true),
    Move::Alloc(1, DATA, true),
    Move::Keep(0, 0),
    Move::Keep(1, 1),
    Move::Link(0, 1),
    Move::Look(0, Look::Blocks(2)),
    Move::Part(0, 1, true),
    Move::Look(0, Look::Named(0, true)),
    Move::Look(1, Look::Named(1, true)),
    Move::Link(1, 0),
    Move::Free(1),
    Move::Room(3, 3),
    Move::Alloc(0, DATA, true),
    Move::Look(0, Look::Named(0, true)),
    Move::Free(0),
];

const FREED: [Move<'static>; 20] = [
    Move::Alloc(0, DATA, true),
    Move::Alloc(1, DATA, true),
    Move::Keep(0, 0),
    Move::Keep(1, 1),
    Move::Free(0),
    Move::Free(1),
    Move::Room(3, 3),
    Move::Alloc(0, DATA, true),
    Move::Alloc(1, DATA, true),
    Move::Alloc(2, DATA, true),
    Move::Look(0, Look::Named(1, true)),
    Move::Look(1, Look::Named(0, true)),
    Move::Look(2, Look::Named(0, false)),
    Move::Look(2, Look::Named(1, false)),
    Move::Room(0, 0),
    Move::Alloc(3, DATA, false),
    Move::Reset,
    Move::Room(3, 3),
    Move::Alloc(0, DATA, true),
    Move::Look(0, Look::Named(0, true)),
];

const NAMING: [Game<'static>; 2] = [
    Game {
        title: "a message is linked, parted and freed",
        mblks: 3,
        dblks: 3,
        first: &PARTED,
        then: &[],
    },
    Game {
        title: "blocks that were freed come before those never used",
        mblks: 3,
        dblks: 3,
        first: &FREED,
        then: &[],
    },
];

#[test]
fn blocks_are_used_again_from_the_last_freed_on(rt: HostRuntime) -> Result<(), Fail> {
    Ok(play_all::<RawStore>(&rt, rt.alloc(), &NAMING)?)
}

const IN_ONE: [Move<'static>; 2] = [Move::Alloc(0, DATA, true), Move::Keep(0, 0)];

const IN_THE_OTHER: [Move<'static>; 6] = [
    Move::Make(0, PROTO, 2, b"abc"),
    Move::Look(0, Look::Named(0, true)),
    Move::Look(0, Look::Blocks(1)),
    Move::Look(0, Look::Len(0, 3)),
    Move::Look(0, Look::Shows(0, PROTO, b"abc")),
    Move::Look(0, Look::Band(2)),
];

const ONE_IS_FREED: [Move<'static>; 2] = [Move::Free(0), Move::Room(2, 2)];

const THE_OTHER_IS_FREED: [Move<'static>; 3] = [Move::Room(2, 2), Move::Free(0), Move::Room(3, 3)];

fn are_apart<B: Blocks>(rt: &impl Abort, one: &mut B, other: &mut B) {
    let title = "two stores give out equal numbers";
    let mut names = [0; 2];
    follow(rt, one, &mut names, title, &IN_ONE);
    follow(rt, other, &mut names, title, &IN_THE_OTHER);
    follow(rt, one, &mut names, title, &ONE_IS_FREED);
    follow(rt, other, &mut names, title, &THE_OTHER_IS_FREED);
}

fn two_are_apart<B: Reserve>(rt: &impl Abort, alloc: Global) -> Result<(), AllocError> {
    let mut one: B = new_store(alloc, 2, 2)?;
    let mut other: B = new_store(alloc, 3, 3)?;
    are_apart(rt, &mut one, &mut other);
    Ok(())
}

#[test]
fn two_stores_give_out_equal_numbers(rt: HostRuntime) -> Result<(), Fail> {
    Ok(two_are_apart::<RawStore>(&rt, rt.alloc())?)
}
