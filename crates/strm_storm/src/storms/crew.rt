//! The threads of a storm.

ghost use Rattle.std.specs.Prelude.{◌≡◌, ℕ, ◌*◌, ◌<◌, ◌≤◌, All, IfOk, IfSome, length};
ghost use Rattle.strm_storm.specs.Storms.{AreHands, AreOf, IsGathered, IsJob, all_counted};

use super::counts::Counts;
use super::dealing::{Job, Sides, all_dealt};
use super::hands::{Hand, gathered};
use super::plans::StormPlan;
use super::random::next;
use std::alloc::{AllocError, Global};
use std::sync::Wait;
use std::thread;
use std::thread::{Promise, PromisedHandle, Scope, Threads};
use strm_locks::{NoGate, Object, System};

/// What a thread gives back: its ends, and what its calls came to.
#[derive(Drop)]
struct Done<P: Object> {
    hands: Vec<Hand<P>>,
    counts: Counts,
}

// A thread of a storm: each number picks a pair, and a call there.
fn work<P: Object, R: Wait>(rt: &R, alloc: Global, system: &System<P>, job: Job<P>) -> Done<P>
    requires some { 0 < length job.hands.items }
    requires ends { AreHands system.now job.hands.items }
    requires few { job.calls ≤ 65536 }
    ensures ends { AreHands system.now result.hands.items }
    ensures all { all_counted result.counts ≡ job.calls }
{
    let Job {
        mut hands,
        seed,
        calls,
    } = job;
    let pairs = hands.len() as u64;
    let mut counts = Counts::none();
    let mut number = seed;
    for made in 0..calls {
        number = next(number);
        let pair = ((number >> 32) % pairs) as usize;
        let outcome = hands[pair].call(rt, alloc, system, number);
        counts.add(&outcome);
    }
    Done { hands, counts }
}

// What a thread promises: its ends are of the system still, and it has made all its calls.
#[derive(Drop)]
struct Keeps<'a, P: Object> {
    system: &'a System<P>,
    calls: u32,
}

impl<'a, P: Object> Promise<Done<P>> for Keeps<'a, P> {
    ghost kept_by = { λ p d. AreHands p.system.now d.hands.items × (all_counted d.counts ≡ p.calls) };
}

/// What a storm came to: one hand for each pair, unless one can't be had, what all calls came to, and whether each thread ran.
#[derive(Drop)]
pub(crate) struct Gathered<P: Object> {
    pub hands: Option<Vec<Hand<P>>>,
    pub counts: Counts,
    pub whole: bool,
}

type Thread<'s, P> = PromisedHandle<Done<P>, Keeps<'s, P>>;

// Starts a thread for a job, unless it can't be had.
fn started<'s, E, P: Object + Send, R: Threads + Wait + Sync>(
    scope: &Scope<'s, E>,
    rt: &'s R,
    alloc: Global,
    system: &'s System<P>,
    job: Job<P>,
) -> Option<Thread<'s, P>>
    requires { IsJob system.now job.calls job × (job.calls ≤ 65536) }
    ensures { IfSome result (λ t. (t.promise.system.now ≡ system.now) × (t.promise.calls ≡ job.calls)) }
{
    let keeps = Keeps {
        system,
        calls: job.calls,
    };
    let thread = scope.spawn_with(
        keeps,
        move || -> Done<P>
            requires { IsJob system.now job.calls job × (job.calls ≤ 65536) }
            ensures { AreHands system.entry.now result.hands.items × (all_counted result.counts ≡ job.calls) }
        { work(rt, alloc, system, job) },
    );
    thread.ok()
}

// Starts a thread for each job. One that can't be had is left out.
fn all_started<'s, E, P: Object + Send, R: Threads + Wait + Sync>(
    scope: &Scope<'s, E>,
    rt: &'s R,
    alloc: Global,
    system: &'s System<P>,
    jobs: Vec<Job<P>>,
) -> Result<Vec<Thread<'s, P>>, AllocError>
    requires { All (λ j. IsJob system.now j.calls j × (j.calls ≤ 65536)) jobs.items }
    ensures few { IfOk result (λ v. length v.items ≤ length jobs.items) }
    ensures kept { (calls : ℕ) → All (λ j. j.calls ≡ calls) jobs.items → IfOk result (λ v. All (λ t. (t.promise.system.now ≡ system.now) × (t.promise.calls ≡ calls)) v.items) }
{
    let mut threads = Vec::with_capacity(alloc, jobs.len())?;
    for job in jobs {
        let Some(thread) = started(scope, rt, alloc, system, job) else {
            continue;
        };
        threads.push(thread)?;
    }
    Ok(threads)
}

// One hand for each pair, unless there was none before.
fn more_gathered<P: Object>(
    alloc: Global,
    system: &System<P>,
    first: Option<Vec<Hand<P>>>,
    second: Vec<Hand<P>>,
) -> Option<Vec<Hand<P>>>
    requires one { IfSome first (λ v. AreHands system.now v.items) }
    requires two { AreHands system.now second.items }
    ensures { IfSome result (λ v. AreHands system.now v.items) }
{
    match gathered(alloc, system, first?, second) {
        Ok(hands) => Some(hands),
        Err(_) => None,
    }
}

// Waits for threads, and puts together what they give back.
fn joined<'s, P: Object, R: Threads>(
    rt: &R,
    alloc: Global,
    system: &System<P>,
    hands: Vec<Hand<P>>,
    threads: Vec<Thread<'s, P>>,
) -> (Option<Vec<Hand<P>>>, Counts)
    requires hands { AreHands system.now hands.items }
    requires kept { All (λ t. (t.promise.system.now ≡ system.now) × (t.promise.calls ≤ 65536)) threads.items }
    requires few { length threads.items ≤ 16 }
    ensures hands { IfSome result.0 (λ v. AreHands system.now v.items) }
    ensures all { (calls : ℕ) → All (λ t. t.promise.calls ≡ calls) threads.entry.items → all_counted result.1 ≡ length threads.entry.items * calls }
    ensures few { all_counted result.1 ≤ 1048576 }
{
    let mut counts = Counts::none();
    let mut hands = Some(hands);
    for thread in threads {
        let done = thread.join(rt);
        counts = counts.plus(&done.counts);
        hands = more_gathered(alloc, system, hands, done.hands);
    }
    (hands, counts)
}

/// Runs the threads of a storm on these ends, and as many workers meanwhile. It is refused where memory is before a thread runs.
pub(crate) fn blow<P: Object + Send, R: Threads + Wait + Sync>(
    rt: &R,
    alloc: Global,
    system: &System<P>,
    sides: Sides<P>,
    plan: StormPlan,
) -> Result<Gathered<P>, AllocError>
    requires masters { AreOf system.now plan.pairs sides.masters.items }
    requires slaves { AreOf system.now plan.pairs sides.slaves.items }
    ensures { IfOk result (λ g. IsGathered system.now plan.threads plan.calls g) }
{
    let (sides, jobs) = all_dealt(alloc, system, sides, plan)?;
    let Sides { masters, slaves } = sides;
    let hands = gathered(alloc, system, masters, slaves)?;
    let (wanted, calls) = (plan.threads, plan.calls);
    thread::scope(
        thread::scope_env(),
        rt,
        |scope| -> Result<Gathered<P>, AllocError>
            requires { All (λ j. IsJob system.now calls j) jobs.items × (length jobs.items ≡ wanted) × AreHands system.now hands.items × (wanted ≤ 16) × (calls ≤ 65536) }
            ensures { IfOk result (λ g. IsGathered system.entry.now wanted calls g) }
        {
            let mut crew = system.crew(alloc, wanted)?;
            let threads = all_started(scope, rt, alloc, system, jobs)?;
            let whole = threads.len() == wanted as usize;
            system.run_crew(rt, &mut crew, calls, &NoGate);
            let (hands, counts) = joined(rt, alloc, system, hands, threads);
            Ok(Gathered {
                hands,
                counts,
                whole,
            })
        },
    )
}
