//! Rounds at the pairs of a host, by several threads.

ghost use Rattle.std.specs.Prelude.{◌≡◌, ℕ, ◌+◌, ◌<◌, ◌≤◌, IfOk, List};
ghost use Rattle.std.specs.Thread.{IsSync};
ghost use Rattle.strm_system.specs.Hosts.{AreOf};
ghost use Rattle.strm_locks.specs.Systems.{Plan};
ghost use Rattle.strm_storm.specs.Rounds.{AreRounds};

use crate::plans::HostPlan;
use crate::rounds::{Round, next_round};
use std::alloc::{AllocError, Global};
use std::sync::Wait;
use std::thread::{Threads, join};
use strm_locks::Object;
use strm_system::{Fresh, Host, HostOpener, host};
use strm_types::Config;

/// The rounds that were made of those that were asked for, and how many were refused.
#[derive(Drop)]
pub struct Rounds<P: Object> {
    pub made: Vec<Round<P>>,
    pub refused: u32,
}

// How many rounds are asked for, and by how many threads, one at least.
#[derive(Clone, Copy)]
struct Share {
    rounds: u32,
    threads: u32,
    ghost few_rounds: { rounds ≤ 65536 },
}

impl Share {
    // Its two halves: half of the threads, with as much of the rounds, and the others.
    fn halves(&self) -> (Share, Share)
        ensures rounds { result.0.rounds + result.1.rounds ≡ self.now.rounds }
        ensures threads { 1 < self.now.threads → (result.0.threads < self.now.threads) × (result.1.threads < self.now.threads) }
    {
        let Share {
            rounds,
            threads,
            ..
        } = *self;
        let few = Share {
            rounds: rounds / 2,
            threads: threads / 2,
        };
        let rest = Share {
            rounds: rounds - few.rounds,
            threads: threads - few.threads,
        };
        (few, rest)
    }
}

/// How many pairs of a host were claimed, opened, written, read and settled, and how many were not.
#[derive(Clone, Copy)]
pub struct HostReport {
    pub settled: u32,
    pub refused: u32,
}

// All rounds of two threads.
fn both<P: Object>(first: Rounds<P>, second: Rounds<P>) -> Result<Rounds<P>, AllocError>
    requires few { first.refused + second.refused < 4294967296 }
    ensures { IfOk result (λ both. (host : List Plan) (m : ℕ) (n : ℕ) → AreRounds host m first → AreRounds host n second → AreRounds host (m + n) both) }
{
    let Rounds { mut made, refused } = first;
    let Rounds {
        made: mut more,
        refused: others,
    } = second;
    made.append(&mut more)?;
    let refused = refused + others;
    Ok(Rounds { made, refused })
}

// The rounds of one thread, one after the other.
fn serial_rounds<P: Object, R: Wait>(
    rt: &R,
    alloc: Global,
    host: &Host<P>,
    opener: HostOpener,
    rounds: u32,
) -> Result<Rounds<P>, AllocError>
    requires { AreOf host.now opener }
    ensures { IfOk result (AreRounds host.now rounds) }
{
    let mut opener = opener;
    let mut made = Vec::new(alloc);
    let mut refused = 0u32;
    for asked in 0..rounds {
        match next_round(rt, host, &mut opener) {
            Ok(round) => made.push(round)?,
            Err(_) => refused += 1,
        }
    }
    Ok(Rounds { made, refused })
}

// The opener, and one for a second thread.
fn two_openers<P: Object>(
    alloc: Global,
    host: &Host<P>,
    opener: HostOpener,
) -> Result<(HostOpener, HostOpener), AllocError>
    requires { AreOf host.now opener }
    ensures { IfOk result (λ two. AreOf host.now two.0 × AreOf host.now two.1) }
{
    host.split_opener(alloc, opener).ok().ok_or(AllocError)
}

// The rounds of so many threads, each with an opener of its own.
fn all_rounds<P: Object + Send, R: Threads + Wait + Sync>(
    rt: &R,
    alloc: Global,
    host: &Host<P>,
    opener: HostOpener,
    share: Share,
) -> Result<Rounds<P>, AllocError>
    requires { AreOf host.now opener }
    ensures { IfOk result (AreRounds host.now share.rounds) }
{
    if share.threads < 2 {
        return serial_rounds(rt, alloc, host, opener, share.rounds);
    }
    let (few, rest) = share.halves();
    let (opener, other) = two_openers(alloc, host, opener)?;
    let (first, second) = join(
        rt,
        || -> Result<Rounds<P>, AllocError>
            requires { IsSync R.row × AreOf host.now opener }
            ensures { IfOk result (AreRounds host.entry.now few.rounds) }
        { all_rounds(rt, alloc, host, opener, few) },
        || -> Result<Rounds<P>, AllocError>
            requires { IsSync R.row × AreOf host.now other }
            ensures { IfOk result (AreRounds host.entry.now rest.rounds) }
        { all_rounds(rt, alloc, host, other, rest) },
    );
    let first = first?;
    let second = second?;
    both(first, second)
}

// What the pairs of a host have: room for a write, whose bytes a turn carries.
const SIZES: Config = Config {
    mblks: 40,
    dblks: 40,
    journal_events: 16,
    journal_bytes: 64,
};

// Has the threads of a plan make a round at each pair of a host.
fn serve_on<P: Object + Send, R: Threads + Wait + Sync>(
    rt: &R,
    alloc: Global,
    host: &Host<P>,
    opener: HostOpener,
    plan: HostPlan,
) -> Result<HostReport, AllocError>
    requires { AreOf host.now opener }
    ensures { IfOk result (λ r. r.settled + r.refused ≡ plan.pairs) }
{
    let share = Share {
        rounds: plan.pairs,
        threads: plan.threads,
    };
    let rounds = all_rounds(rt, alloc, host, opener, share)?;
    Ok(HostReport {
        settled: rounds.made.len() as u32,
        refused: rounds.refused,
    })
}

/// Makes a host of so many pairs over 40 blocks of each kind, and has so many threads make a round at each: a thread claims a minor, opens the
/// pair and its slave, writes three bytes, makes a turn, reads them, and settles the pair. It is refused where the host can't be had, and where
/// memory for what the threads give back can't.
pub fn serve<P: Fresh + Send, R: Threads + Wait + Sync>(
    rt: &R,
    alloc: Global,
    plan: HostPlan,
) -> anyhow::Result<HostReport>
    ensures { IfOk result (λ r. r.settled + r.refused ≡ plan.pairs) }
{
    let (host, opener) = host::<P>(alloc, plan.pairs, SIZES)?;
    Ok(serve_on(rt, alloc, &host, opener, plan)?)
}
