//! A long walk of calls on both stores, side by side: behind each the lists are compared, block by block.
ghost use Rattle.std.specs.Prelude.{◌≡◌, ◌<◌, ◌≤◌, length};
ghost use Rattle.strm_blocks.specs.Blocks.{IsInHand, in_hand, token};

use crate::moves::{Edit, Move, goes, new_store};
use std::alloc::{AllocError, Global};
use std::process::Abort;
use std::test::Fail;
use strm_blocks::{Blocks, FlushWhat, InHand, Reserve, TableStore, Visitor};
use strm_raw::RawStore;
use strm_types::{Band, MsgKind};

// The list on which nothing stands between two moves.
const ASIDE: usize = 7;

// More messages than stand on a list.
const ALL: usize = 40;

static TEXT: &[u8; 64] = b"0123456789abcdefghijklmnopqrstuvwxyzABCDEFGHIJKLMNOPQRSTUVWXYZ+/";

// The number behind another one, which looks like chance.
fn number_behind(number: u64) -> u64 {
    number
        .wrapping_mul(6364136223846793005)
        .wrapping_add(1442695040888963407)
}

// A roll of a die with so many sides.
fn side(number: &mut u64, sides: usize) -> usize
    requires { 0 < sides }
    ensures { result < sides }
{
    *number = number_behind(*number);
    ((*number / 4294967296) as usize) % sides
}

// A move, of which lists are rolled, a block, a number of bytes, a kind and a band. Whether it can be made is for the stores to say.
fn rolled(number: &mut u64) -> Move<'static> {
    let kinds = [
        MsgKind::Data,
        MsgKind::Data,
        MsgKind::Proto,
        MsgKind::Pcproto,
    ];
    let (from, to) = (side(number, ASIDE), side(number, ASIDE));
    let many = 1 + side(number, 4);
    let (block, n) = (side(number, many), side(number, 65));
    let (kind, band) = (kinds[side(number, 4)], side(number, 3) as u8);
    let bytes = &TEXT[..n.min(64)];
    match side(number, 17) {
        0 => Move::Make(to, kind, band, bytes),
        1 => Move::MakeInFront(to, kind, band, bytes),
        2 | 3 => Move::Alloc(to, kind, true),
        4 => Move::Link(from, to),
        5 => Move::Part(from, to, true),
        6 => Move::Dup(from, block, to, true),
        7 => Move::Edit(from, Edit::TrimHead(block, n)),
        8 => Move::Edit(from, Edit::TrimTail(block, n)),
        9 => Move::Edit(from, Edit::Kind(block, kind)),
        10 => Move::Edit(from, Edit::Band(band)),
        11 => Move::Edit(from, Edit::Append(bytes, n.min(64))),
        12 => Move::Copy(from, block, to, true),
        13 => Move::Pass(from, to),
        14 => Move::Last(from, to, true),
        _ if n < 4 => Move::Flush(from, flush(n, band)),
        _ => Move::Free(from),
    }
}

// A flush of one of four kinds.
fn flush(n: usize, band: u8) -> FlushWhat {
    FlushWhat {
        all: n < 2,
        band: if n % 2 == 0 { Some(Band(band)) } else { None },
    }
}

// Whether two messages, each in hand in its store, are alike in each block.
fn are_alike<A: Blocks, B: Blocks>(one: &A, here: &InHand, other: &B, there: &InHand) -> bool
    requires here { IsInHand (A.value one.now) (token here.now) }
    requires there { IsInHand (B.value other.now) (token there.now) }
{
    let count = one.blocks(here);
    if other.blocks(there) != count || one.summary(here) != other.summary(there) {
        return false;
    }
    for at in 0..count {
        if one.kind(here, at) != other.kind(there, at) {
            return false;
        }
        if one.bytes_at(here, at) != other.bytes_at(there, at) {
            return false;
        }
    }
    true
}

// Counts the messages of which it is told.
#[derive(Drop)]
struct Heads {
    count: usize,
}

impl Visitor for Heads {
    ghost use Rattle.std.specs.Prelude.{◌+◌, ◌-◌, ◌^◌, min, true, if◌then◌else◌};

    ghost after = { λ v b. if b.first then record { count = min (v.count + 1) (2 ^ 64 - 1) } else v };

    ghost goes_on = { λ v. true };

    fn see(&mut self, first: bool, _kind: MsgKind, _band: Band, _bytes: &[u8]) -> bool {
        if first {
            self.count = self.count.saturating_add(1);
        }
        true
    }
}

// Whether a store knows how many messages stand on a list.
fn is_counted<B: Blocks>(store: &B, list: usize) -> bool
    requires { list < 8 }
{
    let mut heads = Heads { count: 0 };
    store.visit(list, &mut heads);
    store.messages(list) == heads.count
}

// Puts the messages of a list of both stores on another one, in their order; whether each two were alike.
fn pass_on<A: Blocks, B: Blocks>(one: &mut A, other: &mut B, from: usize, to: usize) -> bool
    requires from { from < 8 }
    requires to { to < 8 }
{
    let mut alike = one.peek(from) == other.peek(from);
    for _ in 0..ALL {
        let Some(here) = one.pop(from) else {
            return alike && other.is_empty(from);
        };
        let Some(there) = other.pop(from) else {
            return false;
        };
        alike = alike && are_alike(one, &here, other, &there);
        one.insert_back(to, here);
        other.insert_back(to, there);
    }
    false
}

// Whether the lists of both stores are alike, which stay as they are, and as many blocks free; and each store knows how many
// messages stand on each of its lists.
fn all_alike<A: Blocks, B: Blocks>(one: &mut A, other: &mut B) -> bool {
    let mut alike = one.free_blocks() == other.free_blocks();
    for list in 0..ASIDE {
        let counted = is_counted(one, list) && is_counted(other, list);
        let there = pass_on(one, other, list, ASIDE);
        let back = pass_on(one, other, ASIDE, list);
        alike = alike && counted && there && back;
    }
    alike
}

fn walk<A: Blocks, B: Blocks>(rt: &impl Abort, one: &mut A, other: &mut B) {
    let mut number = 1u64;
    let mut names = [0; 2];
    for at in 0..4000u32 {
        let by = rolled(&mut number);
        let did = goes(one, &mut names, &by);
        assert!(rt; goes(other, &mut names, &by) == did, "at move {at}");
        assert!(rt; all_alike(one, other), "behind move {at}");
    }
}

fn walks<A: Reserve, B: Reserve>(rt: &impl Abort, alloc: Global) -> Result<(), AllocError> {
    let mut one: A = new_store(alloc, 24, 20)?;
    let mut other: B = new_store(alloc, 24, 20)?;
    walk(rt, &mut one, &mut other);
    Ok(())
}

#[test]
fn both_stores_are_alike_behind_each_move(rt: HostRuntime) -> Result<(), Fail> {
    Ok(walks::<RawStore, TableStore>(&rt, rt.alloc())?)
}
