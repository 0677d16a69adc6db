//! What threads do with the ends of a pair.

ghost use Rattle.std.specs.Prelude.{◌<◌, IfSome};
ghost use Rattle.std.specs.Thread.{IsSync};
ghost use Rattle.strm_locks.specs.Systems.{IsOne};
ghost use Rattle.strm_storm.specs.Rounds.{AreEnds};

use crate::ends::{Ends, joined};
use std::sync::Wait;
use std::thread::{Threads, join};
use strm_locks::{Object, PairEnd, System};
use strm_types::{Content, Event};

/// So many threads, each of which makes so many rounds.
#[derive(Clone, Copy)]
pub struct Crew {
    pub threads: u32,
    pub rounds: u32,
}

impl Crew {
    // Half of its threads, and the others.
    fn halves(&self) -> (Crew, Crew)
        requires { 1 < self.now.threads }
        ensures few { (0 < result.0.threads) × (result.0.threads < self.now.threads) }
        ensures rest { (0 < result.1.threads) × (result.1.threads < self.now.threads) }
    {
        let few = Crew {
            threads: self.threads / 2,
            ..*self
        };
        let rest = Crew {
            threads: self.threads - few.threads,
            ..*self
        };
        (few, rest)
    }
}

// The turns of a pair's enabled queues, 64 at most.
fn turns<P: Object, R: Wait>(rt: &R, system: &System<P>, end: &PairEnd<P>)
    requires { IsOne system.now end.now }
{
    for _ in 0..64 {
        if system.turn(rt, end.pair()).made().is_none() {
            return;
        }
    }
}

// Rounds of a thread that has both ends, or a part of each: the master writes a byte, turns carry it, and the slave reads one. What is refused is
// not made again.
fn rounds<P: Object, R: Wait>(rt: &R, system: &System<P>, ends: Ends<P>, count: u32) -> Ends<P>
    requires { AreEnds system.now ends }
    ensures { AreEnds system.now result }
{
    let mut ends = ends;
    let mut out = Content::new();
    for _ in 0..count {
        let bytes = b"z".as_slice();
        let _ = system.call(rt, &mut ends.master, &Event::Write { bytes }, &mut out);
        turns(rt, system, &ends.master);
        let _ = system.call(rt, &mut ends.slave, &Event::Read { n: 1 }, &mut out);
    }
    ends
}

// The rounds of one thread: both ends, joined.
fn alone<P: Object, R: Wait>(
    rt: &R,
    system: &System<P>,
    ends: Ends<P>,
    count: u32,
) -> Option<PairEnd<P>>
    requires { AreEnds system.now ends }
    ensures { IfSome result (λ e. IsOne system.now e) }
{
    let Ends { master, slave } = rounds(rt, system, ends, count);
    joined(system, master, slave)
}

// One end of what two threads give back.
fn both<P: Object>(
    system: &System<P>,
    first: Option<PairEnd<P>>,
    second: Option<PairEnd<P>>,
) -> Option<PairEnd<P>>
    requires first { IfSome first (λ e. IsOne system.now e) }
    requires second { IfSome second (λ e. IsOne system.now e) }
    ensures { IfSome result (λ e. IsOne system.now e) }
{
    joined(system, first?, second?)
}

/// The rounds of a crew at one pair, each thread with its own part of both ends. It gives back one end of all.
pub fn share<P: Object + Send, R: Threads + Wait + Sync>(
    rt: &R,
    system: &System<P>,
    ends: Ends<P>,
    crew: Crew,
) -> Option<PairEnd<P>>
    requires ends { AreEnds system.now ends }
    requires some { 0 < crew.threads }
    ensures { IfSome result (λ e. IsOne system.now e) }
{
    if crew.threads == 1 {
        return alone(rt, system, ends, crew.rounds);
    }
    let (few, rest) = crew.halves();
    let (ends, more) = ends.split(system)?;
    let (first, second) = join(
        rt,
        || -> Option<PairEnd<P>>
            requires { IsSync R.row × (0 < few.threads) × AreEnds system.now ends }
            ensures { IfSome result (λ e. IsOne system.entry.now e) }
        { share(rt, system, ends, few) },
        || -> Option<PairEnd<P>>
            requires { IsSync R.row × (0 < rest.threads) × AreEnds system.now more }
            ensures { IfSome result (λ e. IsOne system.entry.now e) }
        { share(rt, system, more, rest) },
    );
    both(system, first, second)
}
