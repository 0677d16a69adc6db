//! Reads into vectors, chunks of writes and flushes that go down, with answers worked out by hand.

ghost use Rattle.strm_queue.specs.Stored.{IsHeadQueue};

use super::made::fresh;
use super::steps::{Run, Step, answers, fills, plays};
use std::alloc::Global;
use std::process::Abort;
use std::test::Fail;
use strm_blocks::{Blocks, TableStore};
use strm_head::Head;
use strm_queue::Table;
use strm_types::{Dir, Fates, FlushAsked, MsgKind, Refusal};

const VECTORS: [Step<'static>; 6] = [
    Step::Vector(false, Err(Refusal::Eagain)),
    Step::Vector(true, Ok(b"")),
    Step::Comes(MsgKind::Data, b"abc", None),
    Step::Vector(false, Ok(b"abc")),
    Step::Vector(false, Err(Refusal::Eagain)),
    Step::Free(10),
];

const REFUSED: [Step<'static>; 3] = [
    Step::ComesInTwo(MsgKind::Pcproto, b"ab", b"cde"),
    Step::Vector(true, Err(Refusal::Ebadmsg)),
    Step::Waits(3, 1),
];

const CHUNK: [Step<'static>; 3] = [
    Step::Writes(b"abc"),
    Step::Vector(false, Ok(b"abc")),
    Step::Free(10),
];

// FLUSHRW, and FLUSHW, which goes down again.
const BOTH: FlushAsked = FlushAsked {
    for_read: true,
    for_write: true,
    band: None,
};

const WRITE: FlushAsked = FlushAsked {
    for_read: false,
    for_write: true,
    band: None,
};

const FLUSH: [Step<'static>; 4] = [
    Step::Comes(MsgKind::Data, b"abc", None),
    Step::Flushes(BOTH, WRITE),
    Step::Waits(0, 0),
    Step::Free(10),
];

const RUNS: [Run<'static>; 4] = [
    Run {
        title: "a vector has what waits",
        first: &VECTORS,
        thens: &[&[]],
    },
    Run {
        title: "a refused read leaves the message",
        first: &REFUSED,
        thens: &[&[]],
    },
    Run {
        title: "a chunk of a write is read",
        first: &CHUNK,
        thens: &[&[]],
    },
    Run {
        title: "a flush empties a head",
        first: &FLUSH,
        thens: &[&[]],
    },
];

#[test]
fn vectors_chunks_and_flushes_go_as_wanted(rt: HostRuntime) -> Result<(), Fail> {
    Ok(plays(&rt, rt.alloc(), &RUNS)?)
}

// Reads "abc" into a vector, at once or behind a refusal of memory.
fn reads_or_is_refused<B: Blocks>(rt: &impl Abort, alloc: Global, store: &mut B, head: &mut Head)
    requires { IsHeadQueue (B.value store.old) head.old.queue }
{
    assert!(rt; answers(store, head, (MsgKind::Data, b"abc"), None, (0, 0)));
    let mut told = Fates::none();
    match head.read_vec(alloc, store, false, 100, Dir::MasterToSlave, &mut told) {
        Ok(read) => assert!(rt; read.bytes.as_slice() == b"abc".as_slice()),
        Err(refusal) => {
            assert!(rt; refusal == Refusal::NoMemory);
            assert!(rt; fills(alloc, store, head, false, Ok(b"abc")));
        }
    }
}

// `tools/refusals --tests strm_tests may_be_refused` refuses each request for memory of it in turn.
#[test]
fn memory_for_a_read_may_be_refused(rt: HostRuntime) -> Result<(), Fail> {
    let mut store = TableStore::new(rt.alloc(), 10, 10)?;
    let mut head = fresh(&store, Table::new(rt.alloc())?);
    reads_or_is_refused(&rt, rt.alloc(), &mut store, &mut head);
    Ok(())
}
