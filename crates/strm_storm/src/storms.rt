//! A storm: threads that call at random on the pairs of a system, while workers make the turns.

ghost use Rattle.std.specs.Prelude.{◌≡◌, ◌≤◌, false, slice_index};
ghost use Rattle.strm_minors.specs.Openers.{IsOf};
ghost use Rattle.strm_storm.specs.Storms.{IsStorm, all_counted};

mod counts;
mod crew;
mod dealing;
mod hands;
mod plans;
mod random;

use counts::Counts;
use crew::{Gathered, blow};
use dealing::all_opened;
use hands::all_settle;
pub use plans::StormPlan;
use std::alloc::Global;
use std::sync::Wait;
use std::thread::Threads;
use strm_locks::{Object, System};
use strm_minors::Opener;
use strm_system::{Fresh, system};
use strm_types::{Config, Refusal};

/// What the calls of a storm came to: how many were granted, and how many were refused, by the refusal's number. The calls that open the pairs
/// aren't counted.
#[derive(Clone, Copy)]
pub struct StormReport {
    pub calls: u64,
    pub refused: [u64; 12],
    /// Whether each pair was settled, its ends were told what the threads counted themselves, and its ledgers balance.
    pub settled: bool,
}

impl StormReport {
    fn of(counts: &Counts, settled: bool) -> StormReport
        ensures { result ≡ record { calls = counts.now.granted; refused = counts.now.refused; settled = settled } }
    {
        StormReport {
            calls: counts.granted,
            refused: counts.refused,
            settled,
        }
    }

    // Where the system or a thread couldn't be had.
    fn short_of(counts: &Counts) -> StormReport
        requires { all_counted counts.now ≤ 1048576 }
        ensures settled { result.settled ≡ false }
        ensures refused { 1 ≤ slice_index result.refused 9 }
    {
        let mut counts = *counts;
        counts.add(&Err(Refusal::NoMemory));
        StormReport::of(&counts, false)
    }
}

// A storm on a system of as many pairs as it has, none of them opened.
fn storm_on<P: Object + Send, R: Threads + Wait + Sync>(
    rt: &R,
    alloc: Global,
    system: &System<P>,
    opener: Opener,
    plan: StormPlan,
) -> StormReport
    requires { IsOf system.now.minors opener }
    ensures { IsStorm plan result }
{
    let mut opener = opener;
    let Ok(sides) = all_opened(rt, alloc, system, &mut opener, plan.pairs) else {
        return StormReport::short_of(&Counts::none());
    };
    let Ok(gathered) = blow(rt, alloc, system, sides, plan) else {
        return StormReport::short_of(&Counts::none());
    };
    let Gathered {
        hands,
        counts,
        whole,
    } = gathered;
    let settled = match hands {
        Some(hands) => all_settle(rt, system, hands),
        None => false,
    };
    if whole {
        StormReport::of(&counts, settled)
    } else {
        StormReport::short_of(&counts)
    }
}

// What the journal and the store of each pair of a storm have.
const SIZES: Config = Config {
    mblks: 512,
    dblks: 512,
    journal_events: 8192,
    journal_bytes: 262_144,
};

/// Makes a storm: a system of pairs over 512 blocks of each kind, with 8,192 entries and 262,144 bytes of a journal. Each pair is opened and
/// unlocked, its slave is opened, and each thread is given an end of each pair: masters' where its number is even, else slaves'. It picks each
/// call by the next number of a generator, that begins with the seed and the thread's number: an eighth each are writes of up to 299 bytes, new
/// lines, short and long reads, pushes, pops, flushes, and cuts of the pair. As many workers make that many visits meanwhile.
/// Then all ends are joined, and the pairs settled.
///
/// The report counts each call of each thread once. Where the system or a thread can't be had, NoMemory is counted as refused instead, and the
/// storm isn't settled.
pub fn storm<P: Fresh + Send, R: Threads + Wait + Sync>(
    rt: &R,
    alloc: Global,
    plan: StormPlan,
) -> StormReport
    ensures { IsStorm plan result }
{
    match system::<P>(alloc, plan.pairs, SIZES) {
        Ok((system, opener)) => storm_on(rt, alloc, &system, opener, plan),
        Err(_) => StormReport::short_of(&Counts::none()),
    }
}
