//! Rounds of calls and turns that threads make on the pairs of a system, for `bench/run` to time.

ghost use Rattle.std.specs.Prelude.{◌<◌};
ghost use Rattle.strm_minors.specs.Openers.{IsOf};

mod crews;
mod plans;

use crate::ends::opened;
use crews::{Crew, share};
pub use plans::LoadPlan;
use plans::Sums;
use std::alloc::Global;
use std::sync::Wait;
use std::thread::{Threads, map_vec};
use strm_locks::{Object, System};
use strm_minors::{Minor, Opener};
use strm_system::{Fresh, system};
use strm_types::Config;

// What each pair of a plan has.
fn sizes_of(plan: &LoadPlan) -> Config {
    Config {
        mblks: 256,
        dblks: 256,
        journal_events: plan.entries as usize,
        journal_bytes: plan.entries as usize * 8,
    }
}

// As many minors as a plan has pairs, or all that are free.
fn claimed<P: Object>(
    alloc: Global,
    system: &System<P>,
    opener: Opener,
    plan: &LoadPlan,
) -> Option<Vec<Minor>>
    requires { IsOf system.now.minors opener }
{
    let mut opener = opener;
    let mut minors = Vec::new(alloc);
    for _ in 0..plan.pairs {
        let Ok(minor) = system.claim(&mut opener) else {
            break;
        };
        minors.push(minor).ok()?;
    }
    Some(minors)
}

// Opens a pair, has a crew make its rounds there, and settles it: what was told, and the minor.
fn at_pair<P: Object + Send, R: Threads + Wait + Sync>(
    rt: &R,
    system: &System<P>,
    minor: Minor,
    crew: Crew,
) -> Option<(Sums, Minor)>
    requires some { 0 < crew.threads }
{
    if minor.number() >= system.pairs() {
        return None;
    }
    let ends = opened(rt, system, minor).ok()?;
    let all = share(rt, system, ends, crew)?;
    let (closed, minor) = system.settle(rt, all).ok()?;
    let told = closed.settled.told;
    let sums = Sums {
        calls: told.calls,
        written: told.written.from_master,
        read: told.read.from_master,
    };
    Some((sums, minor))
}

// What was told at pairs that settled, and their minors.
#[derive(Drop)]
struct Loaded {
    sums: Sums,
    minors: Vec<Minor>,
}

// Those of one pair more. A pair that was refused is none.
fn add(all: &mut Loaded, one: Option<(Sums, Minor)>) -> Option<()> {
    let (more, minor) = one?;
    all.sums = all.sums.plus(&more);
    all.minors.push(minor).ok()
}

// The rounds at all pairs at once.
fn at_all<P: Object + Send, R: Threads + Wait + Sync>(
    rt: &R,
    alloc: Global,
    system: &System<P>,
    minors: Vec<Minor>,
    crew: Crew,
) -> Option<Loaded>
    requires { 0 < crew.threads }
{
    let each = |minor: Minor| -> Option<(Sums, Minor)>
        requires { 0 < crew.threads }
    { at_pair(rt, system, minor, crew) };
    let told = map_vec(rt, minors, &each).ok()?;
    let mut all = Loaded {
        sums: Sums::none(),
        minors: Vec::new(alloc),
    };
    for one in told {
        add(&mut all, one)?;
    }
    Some(all)
}

// Carries out a plan at a system of its pairs, none of them opened.
fn load_on<P: Object + Send, R: Threads + Wait + Sync>(
    rt: &R,
    alloc: Global,
    system: &System<P>,
    opener: Opener,
    plan: &LoadPlan,
) -> Option<Sums>
    requires { IsOf system.now.minors opener }
{
    let crew = Crew {
        threads: plan.threads,
        rounds: plan.rounds,
    };
    let minors = claimed(alloc, system, opener, plan)?;
    let Loaded { sums, minors } = at_all(rt, alloc, system, minors, crew)?;
    if !plan.warm {
        return Some(sums);
    }
    let more = at_all(rt, alloc, system, minors, crew)?;
    Some(sums.plus(&more.sums))
}

/// Carries out a plan: what the ends of all pairs were told. It tells nothing where memory was refused, or a pair couldn't be opened or
/// settled.
pub fn make_load<P: Fresh + Send, R: Threads + Wait + Sync>(
    rt: &R,
    alloc: Global,
    plan: &LoadPlan,
) -> Option<Sums> {
    match system::<P>(alloc, plan.pairs, sizes_of(plan)) {
        Ok((system, opener)) => load_on(rt, alloc, &system, opener, plan),
        Err(_) => None,
    }
}
