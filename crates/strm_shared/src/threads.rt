//! Threads at one pair and at several: what they hand over, what their ends are told, and that two of them run at once.

ghost use Rattle.strm_minors.specs.Openers.{IsOf};
ghost use Rattle.strm_locks.specs.Systems.{IsOne};

use crate::steps::{makes, opened, opened_master, settled, told, turn, worked, writes};
use std::alloc::Global;
use std::process::Abort;
use std::sync::Wait;
use std::sync::atomic::{AtomicU64, Ordering};
use std::thread::{Threads, join, yield_now};
use strm_locks::{Gate, Object, PairEnd, Settled, System};
use strm_minors::Opener;
use strm_types::Event;

// How many bytes the writer hands over, five at a time.
const ALL: u64 = 80;

// The master's thread: it writes until all is written. A write that is refused for want of room is made again.
fn write_all<P: Object, R: Wait>(rt: &R, system: &System<P>, end: PairEnd<P>) -> PairEnd<P>
    requires { IsOne system.now end }
    ensures { IsOne system.now result }
{
    let mut end = end;
    for _ in rt.forever() {
        if told(&end).written.from_master >= ALL {
            return end;
        }
        let _ = writes(rt, system, &mut end, b"hello");
    }
    unreachable!()
}

// The slave's thread: it reads until all is read.
fn read_all<P: Object, R: Wait>(rt: &R, system: &System<P>, end: PairEnd<P>) -> PairEnd<P>
    requires { IsOne system.now end }
    ensures { IsOne system.now result }
{
    let mut end = end;
    for _ in rt.forever() {
        if told(&end).read.from_master >= ALL {
            return end;
        }
        turn(rt, system, &end);
        let _ = makes(rt, system, &mut end, &Event::Read { n: 64 });
    }
    unreachable!()
}

// A worker's thread.
fn make_turns<P: Object, R: Wait>(rt: &R, system: &System<P>) {
    if system.pairs() > 0 {
        for _ in 0..1000 {
            let _ = system.turn(rt, 0);
        }
    }
}

// Reads all, beside a worker.
fn read_beside<P: Object + Send, R: Threads + Wait + Sync>(
    rt: &R,
    system: &System<P>,
    end: PairEnd<P>,
) -> PairEnd<P>
    requires { IsOne system.now end }
    ensures { IsOne system.now result }
{
    let (end, _) = join(
        rt,
        || -> PairEnd<P>
            requires { IsOne system.now end }
            ensures { IsOne system.entry.now result }
        { read_all(rt, system, end) },
        || make_turns(rt, system),
    );
    end
}

// One thread writes all and another reads it, beside a worker.
fn both_hand_over<P: Object + Send, R: Threads + Wait + Sync + Abort>(
    rt: &R,
    system: &System<P>,
    master: PairEnd<P>,
    slave: PairEnd<P>,
) -> (PairEnd<P>, PairEnd<P>)
    requires master { IsOne system.now master }
    requires slave { IsOne system.now slave }
    ensures master { IsOne system.now result.0 }
    ensures slave { IsOne system.now result.1 }
{
    join(
        rt,
        || -> PairEnd<P>
            requires { IsOne system.now master }
            ensures { IsOne system.entry.now result }
        { write_all(rt, system, master) },
        || -> PairEnd<P>
            requires { IsOne system.now slave }
            ensures { IsOne system.entry.now result }
        { read_beside(rt, system, slave) },
    )
}

pub(crate) fn hand_over<P: Object + Send, R: Threads + Wait + Sync + Abort>(
    rt: &R,
    system: &System<P>,
    opener: &mut Opener,
)
    requires { IsOf system.now.minors opener.old }
{
    let (master, slave) = opened(rt, system, opener);
    let (master, slave) = both_hand_over(rt, system, master, slave);
    is_handed_over(rt, &settled(rt, system, slave, master));
}

fn is_handed_over<R: Abort>(rt: &R, settled: &Settled) {
    assert!(rt; settled.told.written.from_master == ALL && settled.told.read.from_master == ALL);
    assert!(rt; settled.ms.written == ALL && settled.ms.queued == 0);
}

// The gate holds worker 1 before its turn on pair 1 until worker 0 is at its own on pair 0, and worker 0 there until worker 1's turn is done.
// Workers that run one after the other, in either order, don't meet.
#[derive(Drop)]
struct Meeting {
    came: AtomicU64,
    done: AtomicU64,
    seen: AtomicU64,
}

impl Meeting {
    // Notes it where a flag is set within so many looks.
    fn see(&self, flag: &AtomicU64) {
        for _ in 0..10_000_000u32 {
            if flag.load(Ordering::SeqCst) == 1 {
                self.seen.fetch_add(1, Ordering::SeqCst);
                return;
            }
            yield_now();
        }
    }
}

impl Gate for Meeting {
    fn before(&self, worker: u32, pair: u32) {
        if worker == 0 && pair == 0 {
            self.came.store(1, Ordering::SeqCst);
            self.see(&self.done);
        } else if worker == 1 && pair == 1 {
            self.see(&self.came);
        }
    }

    fn after(&self, worker: u32, pair: u32) {
        if worker == 1 && pair == 1 {
            self.done.store(1, Ordering::SeqCst);
        }
    }
}

pub(crate) fn workers_meet<P: Object + Send, R: Threads + Wait + Sync + Abort>(
    rt: &R,
    alloc: Global,
    system: &System<P>,
    opener: &mut Opener,
)
    requires { IsOf system.now.minors opener.old }
{
    let mut first = opened_master(rt, system, opener);
    let mut second = opened_master(rt, system, opener);
    let _ = writes(rt, system, &mut first, b"x");
    let _ = writes(rt, system, &mut second, b"y");
    meet(rt, alloc, system);
}

fn meet<P: Object + Send, R: Threads + Wait + Sync + Abort>(
    rt: &R,
    alloc: Global,
    system: &System<P>,
) {
    let gate = Meeting {
        came: AtomicU64::new(0),
        done: AtomicU64::new(0),
        seen: AtomicU64::new(0),
    };
    let report = worked(rt, alloc, system, (2, 1), &gate);
    assert!(rt; gate.seen.load(Ordering::SeqCst) == 2);
    assert!(rt; report.started == 2 && report.turns == 2);
}
