//! Rows of calls on a message, what they are to answer, and what is to be seen after each. Between two calls the message stands on a list.

ghost use Rattle.strm_blocks.specs.Blocks.{IsInHand, token};

use crate::moves::{frees, lay, links, list_of, new_store, put_back, take};
use std::alloc::{AllocError, Global};
use std::process::Abort;
use strm_blocks::{Blocks, InHand, Reserve, TableStore};
use strm_msg::{
    NotPulled, adjmsg, control_len, copymsg, data_len, dupmsg, from_bytes, message_size, msgdsize,
    pullup, set_kinds, take_data,
};
use strm_raw::RawStore;
use strm_types::{Band, MsgKind, Refusal};

// A block of a message: its kind and its bytes.
pub(crate) type Wanted<'a> = (MsgKind, &'a [u8]);

// The lengths of a message's control part and of its data part.
pub(crate) type Parts = (Option<usize>, Option<usize>);

// How many message blocks and how many data blocks are free.
pub(crate) type Free = (usize, usize);

// What is seen of a message and its store: the size, the parts, and the free blocks.
pub(crate) type Seen = (usize, Parts, Free);

// A call on a message, and what it is to answer.
pub(crate) enum Call<'a> {
    // Bytes are trimmed, or are not.
    Adjust(isize, bool),
    // A buffer of so many bytes gets these.
    Take(usize, &'a [u8]),
    // What is seen of a duplicate, which is freed again; nothing where there are too few blocks.
    Dup(Option<Seen>),
    // What is seen of a copy, which is freed again; nothing where there are too few blocks.
    Copy(Option<Seen>),
    // So many bytes are joined, or are refused.
    Pull(isize, Option<Refusal>),
    // All of its blocks have so many bytes.
    Size(usize),
    // All of its blocks get a kind.
    Turn(MsgKind),
    // The message is of band 3 and has just these blocks.
    Show(&'a [Wanted<'a>]),
}

// A call, and what is to be seen after it.
pub(crate) type Row<'a> = (Call<'a>, Seen);

// A message of band 3, of a block or more for each of one or two runs of bytes, and calls on it, in a store of so many message blocks and
// data blocks.
pub(crate) struct Case<'a> {
    pub(crate) title: &'a str,
    pub(crate) size: (u16, u16),
    pub(crate) first: Wanted<'a>,
    pub(crate) second: Option<Wanted<'a>>,
    // Calls on a copy of it, before.
    pub(crate) of_copy: &'a [Row<'a>],
    pub(crate) rows: &'a [Row<'a>],
}

// The list of what is made to be looked at.
const ASIDE: usize = 7;

fn seen<B: Blocks>(store: &B, message: &InHand) -> Seen
    requires { IsInHand (B.value store.now) (token message.now) }
{
    let parts = (control_len(store, message), data_len(store, message));
    (msgdsize(store, message), parts, store.free_blocks())
}

// What is seen of a list's first message.
fn seen_on<B: Blocks>(store: &mut B, list: usize) -> Option<Seen> {
    let message = take(store, list)?;
    let seen = seen(store, &message);
    put_back(store, list, message);
    Some(seen)
}

fn adjust<B: Blocks>(store: &mut B, message: &InHand, n: isize) -> bool
    requires { IsInHand (B.value store.old) (token message.now) }
    ensures { IsInHand (B.value store.new) (token message.now) }
{
    adjmsg(store, message, n)
}

fn adjusts<B: Blocks>(store: &mut B, list: usize, n: isize) -> Option<bool> {
    let message = take(store, list)?;
    let trimmed = adjust(store, &message, n);
    put_back(store, list, message);
    Some(trimmed)
}

// Takes data bytes into a buffer, and returns how many.
fn fill<B: Blocks>(store: &mut B, message: &InHand, buffer: &mut [u8]) -> usize
    requires { IsInHand (B.value store.old) (token message.now) }
    ensures { IsInHand (B.value store.new) (token message.now) }
{
    take_data(store, message, buffer)
}

// Whether data bytes that are taken into a buffer of so many bytes, at most 280, are these.
fn takes<B: Blocks>(store: &mut B, list: usize, room: usize, wanted: &[u8]) -> bool {
    let Some(message) = take(store, list) else {
        return false;
    };
    let mut buffer = [0u8; 280];
    let count = fill(store, &message, &mut buffer[..room.min(280)]);
    put_back(store, list, message);
    &buffer[..count.min(280)] == wanted
}

// Puts a duplicate of a list's first message on another one, and says whether there is room for it.
fn dups<B: Blocks>(store: &mut B, list: usize, to: usize) -> bool {
    let Some(message) = take(store, list) else {
        return false;
    };
    let Ok(twin) = dupmsg(store, &message) else {
        put_back(store, list, message);
        return false;
    };
    store.insert_back(list_of(to), twin);
    put_back(store, list, message);
    true
}

// The same by a copy.
fn copies<B: Blocks>(store: &mut B, list: usize, to: usize) -> bool {
    let Some(message) = take(store, list) else {
        return false;
    };
    let Ok(copy) = copymsg(store, &message) else {
        put_back(store, list, message);
        return false;
    };
    store.insert_back(list_of(to), copy);
    put_back(store, list, message);
    true
}

// What is seen of a duplicate, which is freed again.
fn seen_of_dup<B: Blocks>(store: &mut B, list: usize) -> Option<Seen> {
    if !dups(store, list, ASIDE) {
        return None;
    }
    let seen = seen_on(store, ASIDE);
    frees(store, ASIDE);
    seen
}

// The same of a copy.
fn seen_of_copy<B: Blocks>(store: &mut B, list: usize) -> Option<Seen> {
    if !copies(store, list, ASIDE) {
        return None;
    }
    let seen = seen_on(store, ASIDE);
    frees(store, ASIDE);
    seen
}

fn pulled<B: Blocks>(store: &mut B, message: InHand, n: isize) -> (InHand, Option<Refusal>)
    requires { IsInHand (B.value store.old) (token message) }
    ensures { IsInHand (B.value store.new) (token result.0) }
{
    match pullup(store, message, n) {
        Ok(message) => (message, None),
        Err(NotPulled { refusal, message }) => (message, Some(refusal)),
    }
}

// Whether bytes are joined, or refused for this.
fn pulls<B: Blocks>(store: &mut B, list: usize, n: isize, wanted: Option<Refusal>) -> bool {
    let Some(message) = take(store, list) else {
        return false;
    };
    let (message, refusal) = pulled(store, message, n);
    put_back(store, list, message);
    refusal == wanted
}

fn size<B: Blocks>(store: &mut B, list: usize) -> Option<usize> {
    let message = take(store, list)?;
    let size = message_size(store, &message);
    put_back(store, list, message);
    Some(size)
}

fn turn<B: Blocks>(store: &mut B, message: &InHand, kind: MsgKind)
    requires { IsInHand (B.value store.old) (token message.now) }
    ensures { IsInHand (B.value store.new) (token message.now) }
{
    let count = store.blocks(message);
    set_kinds(store, message, count, kind);
}

fn turns<B: Blocks>(store: &mut B, list: usize, kind: MsgKind) -> bool {
    let Some(message) = take(store, list) else {
        return false;
    };
    turn(store, &message, kind);
    put_back(store, list, message);
    true
}

pub(crate) fn is_made_of<B: Blocks>(store: &B, message: &InHand, wanted: &[Wanted<'_>]) -> bool
    requires { IsInHand (B.value store.now) (token message.now) }
{
    let count = store.blocks(message);
    if count != wanted.len() || store.band(message) != Band(3) {
        return false;
    }
    for at in 0..count {
        let (kind, bytes) = wanted[at];
        if store.kind(message, at) != kind || store.bytes_at(message, at) != bytes {
            return false;
        }
    }
    true
}

// Whether a list's first message is of band 3 and has just these blocks.
pub(crate) fn shows<B: Blocks>(store: &mut B, list: usize, wanted: &[Wanted<'_>]) -> bool {
    let Some(message) = take(store, list) else {
        return false;
    };
    let same = is_made_of(store, &message, wanted);
    put_back(store, list, message);
    same
}

// Makes a call on a list's first message, and says whether it answers what it is to.
fn answers<B: Blocks>(store: &mut B, list: usize, call: &Call<'_>) -> bool {
    match call {
        Call::Adjust(n, wanted) => adjusts(store, list, *n) == Some(*wanted),
        Call::Take(room, wanted) => takes(store, list, *room, wanted),
        Call::Dup(wanted) => seen_of_dup(store, list) == *wanted,
        Call::Copy(wanted) => seen_of_copy(store, list) == *wanted,
        Call::Pull(n, wanted) => pulls(store, list, *n, *wanted),
        Call::Size(wanted) => size(store, list) == Some(*wanted),
        Call::Turn(kind) => turns(store, list, *kind),
        Call::Show(wanted) => shows(store, list, wanted),
    }
}

// Makes the calls of the rows on a list's first message and frees it.
fn walk<B: Blocks>(rt: &impl Abort, store: &mut B, list: usize, title: &str, rows: &[Row<'_>]) {
    for at in 0..rows.len() {
        let (call, wanted) = &rows[at];
        assert!(rt;
            answers(store, list, call),
            "{title}: the answer of row {at}"
        );
        assert!(rt;
            seen_on(store, list) == Some(*wanted),
            "{title}: behind row {at}"
        );
    }
    assert!(rt; frees(store, list), "{title}");
}

// Puts a message of these bytes on a list, and says whether there is room for it.
fn makes<B: Blocks>(store: &mut B, list: usize, wanted: Wanted<'_>) -> bool {
    let Ok(message) = from_bytes(store, wanted.0, Band(3), wanted.1) else {
        return false;
    };
    lay(store, list, message);
    true
}

// Puts a case's message on the first list.
fn makes_all<B: Blocks>(store: &mut B, case: &Case<'_>) -> bool {
    let Some(second) = case.second else {
        return makes(store, 0, case.first);
    };
    makes(store, 0, case.first) && makes(store, 1, second) && links(store, 0, 1)
}

// Makes a case's message, then the calls of other rows on a copy of it, while a duplicate stands, and then its own calls. Nothing is left.
fn follow<B: Blocks>(rt: &impl Abort, store: &mut B, case: &Case<'_>) {
    let free = store.free_blocks();
    assert!(rt; makes_all(store, case), "{}", case.title);
    if !case.of_copy.is_empty() {
        assert!(rt; dups(store, 0, 1) && copies(store, 0, 2), "{}", case.title);
        walk(rt, store, 2, case.title, case.of_copy);
        assert!(rt; frees(store, 1), "{}", case.title);
    }
    walk(rt, store, 0, case.title, case.rows);
    assert!(rt; store.free_blocks() == free, "{}", case.title);
}

fn play<B: Reserve>(rt: &impl Abort, alloc: Global, case: &Case<'_>) -> Result<(), AllocError> {
    let mut store: B = new_store(alloc, case.size.0, case.size.1)?;
    follow(rt, &mut store, case);
    Ok(())
}

// Plays cases, each in a new store of each kind.
pub(crate) fn plays(rt: &impl Abort, alloc: Global, cases: &[Case<'_>]) -> Result<(), AllocError> {
    for case in cases {
        play::<TableStore>(rt, alloc, case)?;
        play::<RawStore>(rt, alloc, case)?;
    }
    Ok(())
}
