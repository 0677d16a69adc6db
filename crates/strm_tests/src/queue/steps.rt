//! Steps that are taken on a queue over a store of each kind, and what is to be seen after each.

ghost use Rattle.std.specs.Prelude.{◌≡◌, ◌<◌, List, []};
ghost use Rattle.strm_blocks.specs.Blocks.{Block, list_at};
ghost use Rattle.strm_queue.specs.Kept.{AreCounted};

use crate::moves::{list_of, made};
use std::alloc::{AllocError, Global};
use std::process::Abort;
use strm_blocks::{Blocks, Reserve, TableStore};
use strm_queue::standing::mark_all;
use strm_queue::{Flush, Queue, Table, are_marks};
use strm_raw::RawStore;
use strm_types::{Band, Marks, MsgKind};

// What comes to a queue, and what is to be seen of it then.
pub(crate) enum Step<'a> {
    // A message of this kind and band is put, which enables the queue.
    Put(MsgKind, u8, &'a [u8]),
    // A message of data of band 0 is put back.
    PutBack(&'a [u8]),
    // A take gives a message whose first block shows these bytes.
    Take(&'a [u8]),
    // A take gives none.
    TakeNone,
    // So many bytes count in a band.
    Counts(u8, usize),
    // A band gets a high-water and a low-water mark, and is full then or not.
    Marks(u8, u32, u32, bool),
    // All bands get a high-water and a low-water mark.
    MarkAll(u32, u32),
    // A band is full or not.
    Full(u8, bool),
    // The messages of data are freed.
    Flush,
    // The messages of data of a band are freed.
    FlushBand(u8),
    // A writer of a band waits from now on.
    LetWait(u8),
    // A writer of a band waits or not.
    Waits(u8, bool),
    // Writers whose band has come down to its low-water mark are let go, and there is one or not.
    BackEnable(bool),
}

// What steps on a queue for a list show, and the steps.
pub(crate) struct Run<'a> {
    pub(crate) title: &'a str,
    pub(crate) list: usize,
    pub(crate) steps: &'a [Step<'a>],
}

// Puts a message, and says whether that enables the queue.
fn puts<B: Blocks>(queue: &mut Queue, store: &mut B, kind: MsgKind, band: u8, bytes: &[u8]) -> bool
    requires { AreCounted queue.old.flows (list_at (B.value store.old) queue.old.list) }
    ensures { AreCounted queue.new.flows (list_at (B.value store.new) queue.new.list) }
{
    let Ok(message) = made(store, kind, band, bytes) else {
        return false;
    };
    queue.putq(store, message)
}

// Puts a message of data back.
fn puts_back<B: Blocks>(queue: &mut Queue, store: &mut B, bytes: &[u8]) -> bool
    requires { AreCounted queue.old.flows (list_at (B.value store.old) queue.old.list) }
    ensures { AreCounted queue.new.flows (list_at (B.value store.new) queue.new.list) }
{
    let Ok(message) = made(store, MsgKind::Data, 0, bytes) else {
        return false;
    };
    queue.putbq(store, message);
    true
}

// Takes the first message of a queue, and says whether its first block shows these bytes.
fn next_shows<B: Blocks>(queue: &mut Queue, store: &mut B, bytes: &[u8]) -> bool
    requires { AreCounted queue.old.flows (list_at (B.value store.old) queue.old.list) }
    ensures { AreCounted queue.new.flows (list_at (B.value store.new) queue.new.list) }
{
    let Some(message) = queue.getq(store) else {
        return false;
    };
    let some = store.blocks(&message) > 0;
    let right = some && store.bytes_at(&message, 0) == bytes;
    store.free(message);
    right
}

// Takes the first message of a queue, if there is one, and says whether there is none.
fn has_none<B: Blocks>(queue: &mut Queue, store: &mut B) -> bool
    requires { AreCounted queue.old.flows (list_at (B.value store.old) queue.old.list) }
    ensures { AreCounted queue.new.flows (list_at (B.value store.new) queue.new.list) }
{
    match queue.getq(store) {
        Some(message) => {
            store.free(message);
            false
        }
        None => true,
    }
}

// Sets the marks of a band, and says whether it is full then.
fn is_full_at(queue: &mut Queue, band: u8, high: u32, low: u32) -> bool
    ensures counted { (q : List (List Block)) → AreCounted queue.old.flows q → AreCounted queue.new.flows q }
    ensures list { queue.new.list ≡ queue.old.list }
{
    if !are_marks(high, low) {
        return false;
    }
    queue.set_marks(Band(band), high, low);
    queue.is_full(Band(band))
}

// Sets the marks of all bands, and says whether they may be that.
fn marks_all(queue: &mut Queue, high: u32, low: u32) -> bool
    ensures counted { (q : List (List Block)) → AreCounted queue.old.flows q → AreCounted queue.new.flows q }
    ensures list { queue.new.list ≡ queue.old.list }
{
    if !are_marks(high, low) {
        return false;
    }
    mark_all(queue, Marks { high, low });
    true
}

fn flushes<B: Blocks>(queue: &mut Queue, store: &mut B) -> bool
    requires { AreCounted queue.old.flows (list_at (B.value store.old) queue.old.list) }
    ensures { AreCounted queue.new.flows (list_at (B.value store.new) queue.new.list) }
{
    queue.flushq(store, Flush::Data);
    true
}

fn flushes_band<B: Blocks>(queue: &mut Queue, store: &mut B, band: u8) -> bool
    requires { AreCounted queue.old.flows (list_at (B.value store.old) queue.old.list) }
    ensures { AreCounted queue.new.flows (list_at (B.value store.new) queue.new.list) }
{
    queue.flushband(store, Band(band));
    true
}

fn lets_wait(queue: &mut Queue, band: u8) -> bool
    ensures counted { (q : List (List Block)) → AreCounted queue.old.flows q → AreCounted queue.new.flows q }
    ensures list { queue.new.list ≡ queue.old.list }
{
    queue.let_wait(Band(band));
    true
}

fn waits(queue: &Queue, band: u8) -> bool {
    queue.flows.at(Band(band)).want_write
}

// Takes a step, and says whether what is to be seen is seen.
fn goes<B: Blocks>(queue: &mut Queue, store: &mut B, step: &Step<'_>) -> bool
    requires { AreCounted queue.old.flows (list_at (B.value store.old) queue.old.list) }
    ensures { AreCounted queue.new.flows (list_at (B.value store.new) queue.new.list) }
{
    match step {
        Step::Put(kind, band, bytes) => puts(queue, store, *kind, *band, bytes),
        Step::PutBack(bytes) => puts_back(queue, store, bytes),
        Step::Take(bytes) => next_shows(queue, store, bytes),
        Step::TakeNone => has_none(queue, store),
        Step::Counts(band, bytes) => queue.count(Band(*band)) == *bytes,
        Step::Marks(band, high, low, full) => is_full_at(queue, *band, *high, *low) == *full,
        Step::MarkAll(high, low) => marks_all(queue, *high, *low),
        Step::Full(band, full) => queue.is_full(Band(*band)) == *full,
        Step::Flush => flushes(queue, store),
        Step::FlushBand(band) => flushes_band(queue, store, *band),
        Step::LetWait(band) => lets_wait(queue, *band),
        Step::Waits(band, wanted) => waits(queue, *band) == *wanted,
        Step::BackEnable(went) => queue.back_enable() == *went,
    }
}

// Takes the steps of a run in turn on a queue for a list of the store with nothing on it.
fn all_go<B: Blocks>(rt: &impl Abort, store: &mut B, list: usize, table: Table, run: &Run<'_>)
    requires list { list < 8 }
    requires empty { list_at (B.value store.old) list ≡ [] }
{
    let mut queue = Queue::new(list, 512, 128, table);
    for at in 0..run.steps.len() {
        assert!(rt;
            goes(&mut queue, store, &run.steps[at]),
            "{}: step {at}",
            run.title
        );
    }
}

// Takes the steps of a run over a store, and leaves nothing in it.
fn play<B: Reserve>(rt: &impl Abort, alloc: Global, run: &Run<'_>) -> Result<(), AllocError> {
    let list = list_of(run.list);
    let mut store = B::reserve(alloc, 10, 10)?;
    all_go(rt, &mut store, list, Table::new(alloc)?, run);
    assert!(rt; store.free_blocks() == (10, 10), "{}", run.title);
    Ok(())
}

// Takes the steps of runs, each over a store of each kind.
pub(crate) fn plays(rt: &impl Abort, alloc: Global, runs: &[Run<'_>]) -> Result<(), AllocError> {
    for run in runs {
        play::<TableStore>(rt, alloc, run)?;
        play::<RawStore>(rt, alloc, run)?;
    }
    Ok(())
}
