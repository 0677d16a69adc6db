//! Workers: each visit takes the lock and gives it back, and is counted.

ghost use Rattle.strm_minors.specs.Openers.{IsOf};

use crate::steps::{opened, worked, writes};
use std::alloc::Global;
use std::process::Abort;
use std::sync::Wait;
use std::thread::Threads;
use strm_locks::{Crew, End, Lock, NoGate, Object, PairEnd, System};
use strm_minors::{Minor, Minors, Opener};
use strm_system::{Locked, Store};

fn may_be_sent<T: Send>() {}

fn may_be_shared<T: Sync>() {}

// Threads share locks, systems and the word of minors, and have ends and openers of their own.
#[test]
fn ends_may_be_sent_and_locks_shared() {
    may_be_sent::<Minor>();
    may_be_sent::<Opener>();
    may_be_shared::<Minors>();
    may_be_sent::<End<Locked<Store>>>();
    may_be_sent::<PairEnd<Locked<Store>>>();
    may_be_sent::<Crew<Locked<Store>>>();
    may_be_shared::<Lock<Locked<Store>>>();
    may_be_shared::<System<Locked<Store>>>();
}

// Four workers visit two pairs that nobody opened, so no queue is enabled there.
pub(crate) fn visits_two<P: Object + Send, R: Threads + Wait + Sync + Abort>(
    rt: &R,
    alloc: Global,
    system: &System<P>,
) {
    let report = worked(rt, alloc, system, (4, 10000), &NoGate);
    assert!(rt; report.started == 4 && report.idle == 40000);
    let report = worked(rt, alloc, system, (0, 1), &NoGate);
    assert!(rt; report.started == 0 && report.idle == 0);
}

// Opens a pair and writes there, which enables a queue.
fn is_enabled<P: Object, R: Wait + Abort>(rt: &R, system: &System<P>, opener: &mut Opener)
    requires { IsOf system.now.minors opener.old }
    ensures { IsOf system.now.minors opener.new }
{
    let (mut master, _slave) = opened(rt, system, opener);
    assert!(rt; writes(rt, system, &mut master, b"x"));
}

// One worker visits three pairs round, and the first two of them twice. At those a queue is enabled, till its turn is made.
pub(crate) fn visits_round<P: Object + Send, R: Threads + Wait + Sync + Abort>(
    rt: &R,
    alloc: Global,
    system: &System<P>,
    opener: &mut Opener,
)
    requires { IsOf system.now.minors opener.old }
{
    is_enabled(rt, system, opener);
    is_enabled(rt, system, opener);
    let report = worked(rt, alloc, system, (1, 5), &NoGate);
    assert!(rt; report.started == 1 && report.turns == 2 && report.idle == 3);
    assert!(rt; report.blocked == 0 && report.refused == 0);
}

// Where there is no pair, no visit is made.
pub(crate) fn visits_none<P: Object + Send, R: Threads + Wait + Sync + Abort>(
    rt: &R,
    alloc: Global,
    system: &System<P>,
) {
    let report = worked(rt, alloc, system, (3, 5), &NoGate);
    assert!(rt; report.started == 3 && report.turns == 0 && report.idle == 0);
}
