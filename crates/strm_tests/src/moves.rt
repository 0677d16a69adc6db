//! Moves on a store of any kind, each with what must come of it. Between two moves each message stands on one of the first eight lists.

mod edits;
mod looks;

ghost use Rattle.std.specs.Prelude.{◌≡◌, ◌<◌, IfOk, IfSome};
ghost use Rattle.strm_blocks.specs.Blocks.{IsInHand, token};

pub use edits::Edit;
use edits::change;
pub use looks::{Look, Names, Told};
use looks::{has_found, has_passed, is_so, sought_on};
use std::alloc::{AllocError, Global};
use std::process::Abort;
use strm_blocks::{Blocks, FlushWhat, InHand, NoBlocks, Reserve};
use strm_types::{Band, MsgKind};

/// What is done to a store, and what must come of it. Lists are counted from 0 to 7, and a message is the first one of its list.
#[derive(Drop)]
pub enum Move<'a> {
    /// A message of one block of a kind and a band, with these bytes, is put on a list behind those of its rank.
    Make(usize, MsgKind, u8, &'a [u8]),
    /// The same in front of those of its rank.
    MakeInFront(usize, MsgKind, u8, &'a [u8]),
    /// A message of one block of a kind, with nothing written, is put on a list; or no block is free.
    Alloc(usize, MsgKind, bool),
    /// The message of the second list is hung behind that of the first one.
    Link(usize, usize),
    /// A message is parted: the rest behind its first block goes to the second list, or there is none.
    Part(usize, usize, bool),
    /// A block of a message is duplicated to another list, or can't be.
    Dup(usize, usize, usize, bool),
    /// A message's first block is duplicated to another list so many times.
    Dups(usize, usize, usize),
    /// The same, and each duplicate is hung behind the message. Nothing stands on the other list.
    Pile(usize, usize, usize),
    /// A block of a message is copied to another list, or can't be.
    Copy(usize, usize, usize, bool),
    /// A message is freed.
    Free(usize),
    /// All messages of a list are freed, one by one.
    FreeAll(usize),
    /// A message is taken, and its name forgotten.
    Lose(usize),
    /// A message goes to another list, behind those of its rank.
    Pass(usize, usize),
    /// The last message of a list goes to another one, or there is none.
    Last(usize, usize, bool),
    /// The messages of a list go that a flush takes.
    Flush(usize, FlushWhat),
    /// All messages go.
    Reset,
    /// A message is changed.
    Edit(usize, Edit<'a>),
    /// What is seen of a message.
    Look(usize, Look<'a>),
    /// A message's name is kept in a place.
    Keep(usize, usize),
    /// So many messages stand on a list.
    Stand(usize, usize),
    /// The kind and the band of a list's first message, if there is one.
    Peek(usize, Option<(MsgKind, u8)>),
    /// What a visitor of a list is told, as of a message.
    Told(usize, usize, Told),
    Passed(usize, usize, usize),
    /// So many message blocks and so many data blocks are free.
    Room(usize, usize),
}

/// What moves on a new store show, how many message blocks and data blocks it has, and the moves, in two parts.
pub struct Game<'a> {
    pub title: &'a str,
    pub mblks: u16,
    pub dblks: u16,
    pub first: &'a [Move<'a>],
    pub then: &'a [Move<'a>],
}

// A list.
pub fn list_of(list: usize) -> usize
    ensures { result < 8 }
{
    list % 8
}

pub fn take<B: Blocks>(store: &mut B, list: usize) -> Option<InHand>
    ensures { IfSome result (λ m. IsInHand (B.value store.new) (token m)) }
{
    store.pop(list_of(list))
}

// Puts a message on a list, behind those of its rank.
pub fn lay<B: Blocks>(store: &mut B, list: usize, message: InHand)
    requires { IsInHand (B.value store.old) (token message) }
{
    store.insert_back(list_of(list), message);
}

// The same in front of those of its rank.
pub fn put_back<B: Blocks>(store: &mut B, list: usize, message: InHand)
    requires { IsInHand (B.value store.old) (token message) }
{
    store.insert_front(list_of(list), message);
}

/// A message of one block, where the bytes fit.
pub fn made<B: Blocks>(
    store: &mut B,
    kind: MsgKind,
    band: u8,
    bytes: &[u8],
) -> Result<InHand, NoBlocks>
    ensures in_hand { IfOk result (λ m. IsInHand (B.value store.new) (token m)) }
    ensures lists { (B.value store.new).lists ≡ (B.value store.old).lists }
{
    if bytes.len() > 256 {
        return Err(NoBlocks);
    }
    store.alloc_with(kind, Band(band), bytes)
}

fn makes<B: Blocks>(store: &mut B, list: usize, head: (MsgKind, u8), bytes: &[u8]) -> bool {
    let Ok(message) = made(store, head.0, head.1, bytes) else {
        return false;
    };
    lay(store, list, message);
    true
}

fn makes_in_front<B: Blocks>(
    store: &mut B,
    list: usize,
    head: (MsgKind, u8),
    bytes: &[u8],
) -> bool {
    let Ok(message) = made(store, head.0, head.1, bytes) else {
        return false;
    };
    put_back(store, list, message);
    true
}

fn allocates<B: Blocks>(store: &mut B, list: usize, kind: MsgKind) -> bool {
    let Ok(message) = store.alloc(kind) else {
        return false;
    };
    lay(store, list, message);
    true
}

pub fn links<B: Blocks>(store: &mut B, front: usize, behind: usize) -> bool {
    let Some(first) = store.pop(list_of(front)) else {
        return false;
    };
    let Some(second) = store.pop(list_of(behind)) else {
        lay(store, front, first);
        return false;
    };
    let message = store.link(first, second);
    lay(store, front, message);
    true
}

// Parts a message, and says whether there is a rest.
fn parts<B: Blocks>(store: &mut B, list: usize, to: usize) -> bool {
    let Some(message) = store.pop(list_of(list)) else {
        return false;
    };
    let (first, rest) = store.unlink(message);
    let Some(rest) = rest else {
        lay(store, list, first);
        return false;
    };
    store.insert_back(list_of(list), first);
    lay(store, to, rest);
    true
}

// Duplicates a block of a message, and says whether that can be.
fn shares<B: Blocks>(store: &mut B, list: usize, block: usize, to: usize) -> bool {
    let Some(message) = take(store, list) else {
        return false;
    };
    if block >= store.blocks(&message) {
        put_back(store, list, message);
        return false;
    }
    let Ok(more) = store.dup(&message, block) else {
        put_back(store, list, message);
        return false;
    };
    store.insert_back(list_of(to), more);
    put_back(store, list, message);
    true
}

// Duplicates a message's first block so many times.
fn shares_all<B: Blocks>(store: &mut B, list: usize, to: usize, count: usize) -> bool {
    for _ in 0..count {
        if !shares(store, list, 0, to) {
            return false;
        }
    }
    true
}

// Duplicates a message's first block so many times, and hangs each duplicate behind the message.
fn piles<B: Blocks>(store: &mut B, list: usize, by: usize, count: usize) -> bool {
    for _ in 0..count {
        if !shares(store, list, 0, by) || !links(store, list, by) {
            return false;
        }
    }
    true
}

// Copies a block of a message, and says whether that can be.
fn copies<B: Blocks>(store: &mut B, list: usize, block: usize, to: usize) -> bool {
    let Some(message) = take(store, list) else {
        return false;
    };
    if block >= store.blocks(&message) {
        put_back(store, list, message);
        return false;
    }
    let Ok(more) = store.copy(&message, block) else {
        put_back(store, list, message);
        return false;
    };
    store.insert_back(list_of(to), more);
    put_back(store, list, message);
    true
}

pub fn frees<B: Blocks>(store: &mut B, list: usize) -> bool {
    let Some(message) = take(store, list) else {
        return false;
    };
    store.free(message);
    true
}

fn frees_all<B: Blocks>(store: &mut B, list: usize) -> bool {
    for _ in 0..store.messages(list_of(list)) {
        if !frees(store, list) {
            return false;
        }
    }
    store.is_empty(list_of(list))
}

fn passes<B: Blocks>(store: &mut B, list: usize, to: usize) -> bool {
    let Some(message) = take(store, list) else {
        return false;
    };
    lay(store, to, message);
    true
}

// Puts the last message of a list on another one, and says whether there is one.
fn passes_last<B: Blocks>(store: &mut B, list: usize, to: usize) -> bool {
    let Some(message) = store.pop_last(list_of(list)) else {
        return false;
    };
    store.insert_back(list_of(to), message);
    true
}

fn edits_first<B: Blocks>(store: &mut B, list: usize, edit: &Edit<'_>) -> bool {
    let Some(message) = take(store, list) else {
        return false;
    };
    let done = change(store, &message, edit);
    put_back(store, list, message);
    done
}

fn sees<B: Blocks>(store: &mut B, names: &Names, list: usize, look: &Look<'_>) -> bool {
    let Some(message) = take(store, list) else {
        return false;
    };
    let seen = is_so(store, names, &message, look);
    put_back(store, list, message);
    seen
}

// Keeps the name of a message in a place.
fn keeps<B: Blocks>(store: &mut B, names: &mut Names, list: usize, place: usize) -> bool {
    let Some(message) = take(store, list) else {
        return false;
    };
    names[place % 2] = message.name();
    put_back(store, list, message);
    true
}

fn flushes<B: Blocks>(store: &mut B, list: usize, what: FlushWhat) -> bool {
    store.drop_where(list_of(list), what);
    true
}

fn resets<B: Blocks>(store: &mut B) -> bool {
    store.reset();
    true
}

fn stand<B: Blocks>(store: &B, list: usize, count: usize) -> bool {
    store.messages(list_of(list)) == count && store.is_empty(list_of(list)) == (count == 0)
}

fn peeks<B: Blocks>(store: &B, list: usize, wanted: Option<(MsgKind, u8)>) -> bool {
    let seen = store.peek(list_of(list));
    seen.map(|peek| (peek.kind, peek.band.0)) == wanted
}

/// Makes a move, and says whether what must come of it does.
pub fn goes<B: Blocks>(store: &mut B, names: &mut Names, by: &Move<'_>) -> bool {
    match by {
        Move::Make(list, kind, band, bytes) => makes(store, *list, (*kind, *band), bytes),
        Move::MakeInFront(list, kind, band, bytes) => {
            makes_in_front(store, *list, (*kind, *band), bytes)
        }
        Move::Alloc(list, kind, done) => allocates(store, *list, *kind) == *done,
        Move::Link(front, behind) => links(store, *front, *behind),
        Move::Part(list, to, rest) => parts(store, *list, *to) == *rest,
        Move::Dup(list, block, to, done) => shares(store, *list, *block, *to) == *done,
        Move::Dups(list, to, count) => shares_all(store, *list, *to, *count),
        Move::Pile(list, by, count) => piles(store, *list, *by, *count),
        Move::Copy(list, block, to, done) => copies(store, *list, *block, *to) == *done,
        Move::Free(list) => frees(store, *list),
        Move::FreeAll(list) => frees_all(store, *list),
        Move::Lose(list) => take(store, *list).is_some(),
        Move::Pass(list, to) => passes(store, *list, *to),
        Move::Last(list, to, done) => passes_last(store, *list, *to) == *done,
        Move::Edit(list, edit) => edits_first(store, *list, edit),
        Move::Look(list, look) => sees(store, names, *list, look),
        Move::Keep(list, place) => keeps(store, names, *list, *place),
        Move::Flush(list, what) => flushes(store, *list, *what),
        Move::Reset => resets(store),
        Move::Stand(list, count) => stand(store, *list, *count),
        Move::Peek(list, wanted) => peeks(store, *list, *wanted),
        Move::Told(list, left, told) => has_found(&sought_on(store, list_of(*list), *left), *told),
        Move::Passed(list, over, left) => has_passed(
            &sought_on(store, list_of(*list), *over),
            *left,
        ),
        Move::Room(mblks, dblks) => store.free_blocks() == (*mblks, *dblks),
    }
}

/// Makes moves in turn.
pub fn follow<B: Blocks>(
    rt: &impl Abort,
    store: &mut B,
    names: &mut Names,
    title: &str,
    moves: &[Move<'_>],
) {
    for at in 0..moves.len() {
        assert!(rt; goes(store, names, &moves[at]), "{title}: move {at}");
    }
}

/// A store with nothing in it, of at least a block of each kind.
pub fn new_store<B: Reserve>(alloc: Global, mblks: u16, dblks: u16) -> Result<B, AllocError> {
    B::reserve(alloc, usize::from(mblks.max(1)), usize::from(dblks.max(1)))
}

fn play<B: Reserve>(rt: &impl Abort, alloc: Global, game: &Game<'_>) -> Result<(), AllocError> {
    let mut store: B = new_store(alloc, game.mblks, game.dblks)?;
    let mut names = [0; 2];
    follow(rt, &mut store, &mut names, game.title, game.first);
    follow(rt, &mut store, &mut names, game.title, game.then);
    Ok(())
}

/// Plays games, each on a new store.
pub fn play_all<B: Reserve>(
    rt: &impl Abort,
    alloc: Global,
    games: &[Game<'_>],
) -> Result<(), AllocError> {
    for game in games {
        play::<B>(rt, alloc, game)?;
    }
    Ok(())
}
