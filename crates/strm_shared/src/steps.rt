//! What ends do in tests. Behind a step a test has to know that the ends are of their system still, and no more.

ghost use Rattle.std.specs.Prelude.{◌<◌, IfOk, IfSome, length};
ghost use Rattle.strm_minors.specs.Openers.{IsOf};
ghost use Rattle.strm_locks.specs.Systems.{IsOne};

use std::alloc::Global;
use std::process::Abort;
use std::sync::Wait;
use std::thread::Threads;
use strm_image::Trace;
use strm_locks::{Closed, Gate, Object, PairEnd, Report, Settled, System, Told};
use strm_minors::{Minor, Opener};
use strm_types::{Answer, Content, Event, Refusal};

// A minor of the system.
pub(crate) fn claimed<P: Object, R: Abort>(rt: &R, system: &System<P>, opener: &mut Opener) -> Minor
    requires { IsOf system.now.minors opener.old }
    ensures opener { IsOf system.now.minors opener.new }
    ensures minor { result < length system.now.locks }
{
    let Ok(minor) = system.claim(opener) else {
        panic!(rt; "no minor")
    };
    minor
}

// Opens the pair of a minor, or gives the minor back.
pub(crate) fn tried<P: Object, R: Wait>(
    rt: &R,
    system: &System<P>,
    minor: Minor,
) -> Result<PairEnd<P>, (Refusal, Minor)>
    requires { minor < length system.now.locks }
    ensures { IfOk result (λ end. IsOne system.now end) }
{
    match system.open(rt, minor) {
        Ok(end) => Ok(end),
        Err((why, minor)) => Err((why.refusal, minor)),
    }
}

// Why the pair of a minor isn't opened, and the minor, if it isn't.
pub(crate) fn not_opened<P: Object, R: Wait>(
    rt: &R,
    system: &System<P>,
    minor: Minor,
) -> Option<(Refusal, Minor)>
    requires { minor < length system.now.locks }
{
    tried(rt, system, minor).err()
}

// The master's end of the pair of a new minor.
pub(crate) fn opened_master<P: Object, R: Wait + Abort>(
    rt: &R,
    system: &System<P>,
    opener: &mut Opener,
) -> PairEnd<P>
    requires { IsOf system.now.minors opener.old }
    ensures opener { IsOf system.now.minors opener.new }
    ensures end { IsOne system.now result }
{
    let minor = claimed(rt, system, opener);
    let Ok(end) = tried(rt, system, minor) else {
        panic!(rt; "refused")
    };
    end
}

// Both ends of the pair of a new minor, which is unlocked.
pub(crate) fn opened<P: Object, R: Wait + Abort>(
    rt: &R,
    system: &System<P>,
    opener: &mut Opener,
) -> (PairEnd<P>, PairEnd<P>)
    requires { IsOf system.now.minors opener.old }
    ensures opener { IsOf system.now.minors opener.new }
    ensures master { IsOne system.now result.0 }
    ensures slave { IsOne system.now result.1 }
{
    let mut master = opened_master(rt, system, opener);
    unlock(rt, system, &mut master);
    let slave = slave_of(rt, system, &mut master);
    (master, slave)
}

pub(crate) fn unlock<P: Object, R: Wait + Abort>(rt: &R, system: &System<P>, end: &mut PairEnd<P>)
    requires { IsOne system.now end.old }
    ensures { IsOne system.now end.new }
{
    let unlocked = call(rt, system, end, &Event::Unlock, &mut Content::new());
    assert!(rt; unlocked.is_ok());
}

pub(crate) fn slave_of<P: Object, R: Wait + Abort>(
    rt: &R,
    system: &System<P>,
    end: &mut PairEnd<P>,
) -> PairEnd<P>
    requires { IsOne system.now end.old }
    ensures end { IsOne system.now end.new }
    ensures slave { IsOne system.now result }
{
    let Ok(slave) = open_slave(rt, system, end) else {
        panic!(rt; "refused")
    };
    slave
}

pub(crate) fn open_slave<P: Object, R: Wait>(
    rt: &R,
    system: &System<P>,
    end: &mut PairEnd<P>,
) -> Result<PairEnd<P>, Refusal>
    requires { IsOne system.now end.old }
    ensures end { IsOne system.now end.new }
    ensures slave { IfOk result (λ slave. IsOne system.now slave) }
{
    system.open_slave(rt, end)
}

// Why the end opens no slave, if it opens none.
pub(crate) fn no_slave<P: Object, R: Wait>(
    rt: &R,
    system: &System<P>,
    end: &mut PairEnd<P>,
) -> Option<Refusal>
    requires { IsOne system.now end.old }
    ensures { IsOne system.now end.new }
{
    open_slave(rt, system, end).err()
}

pub(crate) fn call<P: Object, R: Wait>(
    rt: &R,
    system: &System<P>,
    end: &mut PairEnd<P>,
    event: &Event<&[u8]>,
    out: &mut Content,
) -> Result<Answer<u32>, Refusal>
    requires { IsOne system.now end.old }
    ensures { IsOne system.now end.new }
{
    system.call(rt, end, event, out)
}

// What an end was told.
pub(crate) fn told<P: Object>(end: &PairEnd<P>) -> Told {
    end.end().told()
}

// Makes a call without an answer's bytes; whether it was granted.
pub(crate) fn makes<P: Object, R: Wait>(
    rt: &R,
    system: &System<P>,
    end: &mut PairEnd<P>,
    event: &Event<&[u8]>,
) -> bool
    requires { IsOne system.now end.old }
    ensures { IsOne system.now end.new }
{
    call(rt, system, end, event, &mut Content::new()).is_ok()
}

// Writes a text; whether it was granted.
pub(crate) fn writes<P: Object, R: Wait>(
    rt: &R,
    system: &System<P>,
    end: &mut PairEnd<P>,
    bytes: &[u8],
) -> bool
    requires { IsOne system.now end.old }
    ensures { IsOne system.now end.new }
{
    makes(rt, system, end, &Event::Write { bytes })
}

// Whether a read gives just this text.
pub(crate) fn reads<P: Object, R: Wait>(
    rt: &R,
    system: &System<P>,
    end: &mut PairEnd<P>,
    bytes: &[u8],
) -> bool
    requires { IsOne system.now end.old }
    ensures { IsOne system.now end.new }
{
    let mut out = Content::new();
    let read = call(rt, system, end, &Event::Read { n: 64 }, &mut out);
    read.is_ok() && out.as_slice() == bytes
}

// A turn of the end's pair.
pub(crate) fn turn<P: Object, R: Wait>(rt: &R, system: &System<P>, end: &PairEnd<P>)
    requires { IsOne system.now end.now }
{
    let _ = system.turn(rt, end.pair());
}

// Both halves of an end, unless it has one part.
fn cut_in_two<P: Object>(system: &System<P>, end: PairEnd<P>) -> Option<(PairEnd<P>, PairEnd<P>)>
    requires { IsOne system.now end }
    ensures { IfSome result (λ two. IsOne system.now two.0 × IsOne system.now two.1) }
{
    system.split_end(end).ok()
}

// An end that can't be split.
pub(crate) fn unsplit<P: Object>(system: &System<P>, end: PairEnd<P>) -> Option<PairEnd<P>>
    requires { IsOne system.now end }
    ensures { IfSome result (λ end. IsOne system.now end) }
{
    system.split_end(end).err()
}

// Both halves of an end.
pub(crate) fn halves<P: Object, R: Abort>(
    rt: &R,
    system: &System<P>,
    end: PairEnd<P>,
) -> (PairEnd<P>, PairEnd<P>)
    requires { IsOne system.now end }
    ensures first { IsOne system.now result.0 }
    ensures second { IsOne system.now result.1 }
{
    let Some(two) = cut_in_two(system, end) else {
        panic!(rt; "one part")
    };
    two
}

pub(crate) fn joined<P: Object>(
    system: &System<P>,
    first: PairEnd<P>,
    second: PairEnd<P>,
) -> Option<PairEnd<P>>
    requires first { IsOne system.now first }
    requires second { IsOne system.now second }
    ensures { IfSome result (λ end. IsOne system.now end) }
{
    system.join_ends(first, second).ok()
}

// Two ends that aren't joined.
pub(crate) fn apart<P: Object>(
    system: &System<P>,
    first: PairEnd<P>,
    second: PairEnd<P>,
) -> Option<(PairEnd<P>, PairEnd<P>)>
    requires first { IsOne system.now first }
    requires second { IsOne system.now second }
{
    system.join_ends(first, second).err()
}

// One end of two of a pair.
pub(crate) fn rejoined<P: Object, R: Abort>(
    rt: &R,
    system: &System<P>,
    first: PairEnd<P>,
    second: PairEnd<P>,
) -> PairEnd<P>
    requires first { IsOne system.now first }
    requires second { IsOne system.now second }
    ensures { IsOne system.now result }
{
    let Some(end) = joined(system, first, second) else {
        panic!(rt; "two pairs")
    };
    end
}

// What was told of the pair of an end that has all parts of it.
pub(crate) fn settled_with<P: Object, R: Wait>(
    rt: &R,
    system: &System<P>,
    end: PairEnd<P>,
) -> Option<(Settled, Minor)>
    requires { IsOne system.now end }
    ensures { IfSome result (λ two. two.1 < length system.now.locks) }
{
    match system.settle(rt, end) {
        Ok((closed, minor)) => {
            let Closed { settled, visit } = closed;
            drop(visit);
            Some((settled, minor))
        }
        Err(back) => {
            drop(back);
            None
        }
    }
}

// Settles the pair of two ends, which have all parts of it.
pub(crate) fn settled<P: Object, R: Wait + Abort>(
    rt: &R,
    system: &System<P>,
    first: PairEnd<P>,
    second: PairEnd<P>,
) -> Settled
    requires first { IsOne system.now first }
    requires second { IsOne system.now second }
{
    let all = rejoined(rt, system, first, second);
    let Some((settled, _)) = settled_with(rt, system, all) else {
        panic!(rt; "shared")
    };
    settled
}

// Begins the journal of the end's pair anew.
pub(crate) fn restart<P: Object, R: Wait>(rt: &R, system: &System<P>, end: &PairEnd<P>)
    requires { IsOne system.now end.now }
{
    let _ = system.restart(rt, end);
}

// The trace of a cut of the end's pair, unless memory was refused.
pub(crate) fn cut<P: Object, R: Wait>(
    rt: &R,
    alloc: Global,
    system: &System<P>,
    end: &PairEnd<P>,
) -> Option<Trace>
    requires { IsOne system.now end.now }
{
    system.cut(rt, alloc, end).trace.ok()
}

// So many workers, with so many visits each.
pub(crate) fn worked<P: Object + Send, R: Threads + Wait + Sync, G: Gate + Sync>(
    rt: &R,
    alloc: Global,
    system: &System<P>,
    (workers, visits): (u32, u32),
    gate: &G,
) -> Report {
    system.run_workers(rt, alloc, workers, visits, gate)
}
