//! A journal that is full, and one that is cut: the session goes on where it is begun anew, and its ends are told all calls.

ghost use Rattle.strm_minors.specs.Openers.{IsOf};
ghost use Rattle.strm_locks.specs.Systems.{IsOne};

use crate::steps::{cut, opened, restart, settled, writes};
use crate::systems::SIZES;
use std::alloc::Global;
use std::process::Abort;
use std::sync::Wait;
use strm_image::Trace;
use strm_journal::Packed;
use strm_locks::{Object, PairEnd, System};
use strm_minors::Opener;
use strm_types::Config;

// Room for the three calls that open a pair, and for a write.
pub(crate) const FOUR: Config = Config {
    journal_events: 4,
    ..SIZES
};

// Fills the journal by a write, and writes on once it begins anew.
fn writes_on<P: Object, R: Wait + Abort>(rt: &R, system: &System<P>, master: &mut PairEnd<P>)
    requires { IsOne system.now master.old }
    ensures { IsOne system.now master.new }
{
    assert!(rt; writes(rt, system, master, b"a"));
    assert!(rt; !writes(rt, system, master, b"b"));
    restart(rt, system, master);
    assert!(rt; writes(rt, system, master, b"b"));
}

pub(crate) fn go_on<P: Object, R: Wait + Abort>(rt: &R, system: &System<P>, opener: &mut Opener)
    requires { IsOf system.now.minors opener.old }
{
    let (mut master, slave) = opened(rt, system, opener);
    writes_on(rt, system, &mut master);
    let settled = settled(rt, system, master, slave);
    assert!(rt; settled.told.calls == 5 && settled.ms.written == 2);
}

// Cuts the pair of an end, and once more where memory is refused.
pub(crate) fn is_cut<P: Object, R: Wait + Abort>(
    rt: &R,
    alloc: Global,
    system: &System<P>,
    end: &PairEnd<P>,
) -> Trace
    requires { IsOne system.now end.now }
{
    if let Some(trace) = cut(rt, alloc, system, end) {
        return trace;
    }
    let Some(trace) = cut(rt, alloc, system, end) else {
        panic!(rt; "a cut is refused twice")
    };
    trace
}

// Both ends of a new pair, behind a write.
fn written<P: Object, R: Wait + Abort>(
    rt: &R,
    system: &System<P>,
    opener: &mut Opener,
) -> (PairEnd<P>, PairEnd<P>)
    requires { IsOf system.now.minors opener.old }
    ensures opener { IsOf system.now.minors opener.new }
    ensures master { IsOne system.now result.0 }
    ensures slave { IsOne system.now result.1 }
{
    let (mut master, slave) = opened(rt, system, opener);
    assert!(rt; writes(rt, system, &mut master, b"abc"));
    (master, slave)
}

// Cuts a pair by each of its ends.
fn cut_twice<P: Object, R: Wait + Abort>(
    rt: &R,
    alloc: Global,
    system: &System<P>,
    master: &PairEnd<P>,
    slave: &PairEnd<P>,
) -> (Trace, Trace)
    requires master { IsOne system.now master.now }
    requires slave { IsOne system.now slave.now }
{
    let first = is_cut(rt, alloc, system, master);
    (first, is_cut(rt, alloc, system, slave))
}

fn four_calls_are_told<P: Object, R: Wait + Abort>(
    rt: &R,
    system: &System<P>,
    master: PairEnd<P>,
    slave: PairEnd<P>,
)
    requires master { IsOne system.now master }
    requires slave { IsOne system.now slave }
{
    let settled = settled(rt, system, master, slave);
    assert!(rt; settled.told.calls == 4 && settled.ms.written == 3);
}

// Cuts a pair behind a write, and again: the base of the second trace is the state that the first cut found.
fn writes_and_is_cut<P: Object, R: Wait + Abort>(
    rt: &R,
    alloc: Global,
    system: &System<P>,
    opener: &mut Opener,
) -> (Trace, Trace)
    requires { IsOf system.now.minors opener.old }
    ensures { IsOf system.now.minors opener.new }
{
    let (master, slave) = written(rt, system, opener);
    let traces = cut_twice(rt, alloc, system, &master, &slave);
    four_calls_are_told(rt, system, master, slave);
    traces
}

// Whether the entries of two traces tell the same.
fn tell_alike(one: &[Packed], two: &[Packed]) -> bool {
    one.len() == two.len() && one.iter().zip(two).all(|(a, b)| a.entry() == b.entry())
}

fn same(one: &Trace, two: &Trace) -> bool {
    one.base.as_slice() == two.base.as_slice()
        && tell_alike(one.entries.as_slice(), two.entries.as_slice())
        && one.bytes.as_slice() == two.bytes.as_slice()
}

// The first trace has all four entries, and the second begins behind them.
fn have_all_and_none<R: Abort>(rt: &R, first: &Trace, second: &Trace) {
    assert!(rt; first.entries.len() == 4 && first.bytes.as_slice() == b"abc".as_slice());
    assert!(rt; second.entries.is_empty() && second.base.as_slice() != first.base.as_slice());
}

// Where a cut of one pair is refused, none of the other is: what both hand out is the same all the same.
pub(crate) fn two_are_cut<P: Object, R: Wait + Abort>(
    rt: &R,
    alloc: Global,
    system: &System<P>,
    opener: &mut Opener,
)
    requires { IsOf system.now.minors opener.old }
{
    let one = writes_and_is_cut(rt, alloc, system, opener);
    have_all_and_none(rt, &one.0, &one.1);
    let other = writes_and_is_cut(rt, alloc, system, opener);
    assert!(rt; same(&one.0, &other.0) && same(&one.1, &other.1));
    drop(other);
    drop(one);
}
