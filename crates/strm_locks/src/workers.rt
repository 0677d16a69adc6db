//! Workers: threads that visit the pairs of a system, and make the turns of enabled queues.

ghost use Rattle.std.specs.Prelude.{◌≡◌, ◌⊎◌, ℕ, ◌+◌, ◌<◌, ◌≤◌, IfOk, length, map, replicate, slice_index_or};
ghost use Rattle.strm_locks.specs.Reports.{AreAt, AreCrew, IsReportOf, Meets, Serves, Tours, Works, at_rest, both, counted, nobody, total, visits_at};

use crate::gate::{At, Gate};
use crate::held::Made;
use crate::object::Object;
use crate::system::System;
use crate::visit::Post;
use std::alloc::{AllocError, Global};
use std::marker::Model;
use std::sync::Wait;
use std::thread::{Threads, for_each_mut};
use strm_types::Turn;

/// What workers did: how many ran, how many turns they made, how many of these found the queue blocked, how many were refused, and how many
/// visits found no queue enabled.
#[derive(Clone, Copy)]
pub struct Report {
    pub started: u64,
    pub turns: u64,
    pub blocked: u64,
    pub refused: u64,
    pub idle: u64,
}

// One worker that made no visit.
const BEGUN: Report = Report {
    started: 1,
    turns: 0,
    blocked: 0,
    refused: 0,
    idle: 0,
};

// No worker.
const NOBODY: Report = Report {
    started: 0,
    ..BEGUN
};

impl Report {
    // With one visit more.
    fn counted(&self, made: &Option<Made>) -> Report
        requires room { self.now.turns + self.now.refused + self.now.idle < 4294967296 }
        requires blocked { self.now.blocked ≤ self.now.turns }
        ensures { result ≡ counted made.now self.now }
    {
        let mut report = *self;
        match made {
            None => report.idle += 1,
            Some(made) => match made.answer {
                Ok(Turn::Blocked) => {
                    report.turns += 1;
                    report.blocked += 1;
                }
                Ok(_) => report.turns += 1,
                Err(_) => report.refused += 1,
            },
        }
        report
    }

    // What two reports say together.
    fn plus(&self, more: &Report) -> Report
        requires started { self.now.started + more.now.started < 18446744073709551616 }
        requires turns { self.now.turns + more.now.turns < 18446744073709551616 }
        requires blocked { self.now.blocked + more.now.blocked < 18446744073709551616 }
        requires refused { self.now.refused + more.now.refused < 18446744073709551616 }
        requires idle { self.now.idle + more.now.idle < 18446744073709551616 }
        ensures { result ≡ both self.now more.now }
    {
        Report {
            started: self.started + more.started,
            turns: self.turns + more.turns,
            blocked: self.blocked + more.blocked,
            refused: self.refused + more.refused,
            idle: self.idle + more.idle,
        }
    }
}

/// One worker: a seat at each pair of a system, by the pair's number.
#[derive(Drop)]
struct Worker<P: Object> {
    posts: Vec<Post<P>>,
}

impl<P: Object> Model for Worker<P> {
    ghost use Rattle.std.specs.Prelude.{List};
    ghost use Rattle.strm_locks.specs.Turns.{Posted};

    ghost Value = { List Posted };

    ghost view = { λ w. w.posts.items };
}

// A worker, and what it reported last.
#[derive(Drop)]
struct Hand<P: Object> {
    worker: Worker<P>,
    report: Report,
}

/// Workers of a system, numbered from 0 on, each with a seat at each pair, by which it makes its visits. `System::crew` makes them; those that are
/// handed in are of that system.
///
/// Contracts see, for each worker and each pair, which lock it is, and the pairs that the worker met there: each as it found it, and as it left
/// it.
pub struct Crew<P: Object> {
    hands: Vec<Hand<P>>,
}

// Of its own, so that who owns one doesn't take it apart at each way out.
impl<P: Object> Drop for Crew<P> {
    fn drop(self) {
        let Crew { hands: _ } = self;
    }
}

impl<P: Object> Model for Crew<P> {
    ghost use Rattle.std.specs.Prelude.{◌<◌, List, length, map};
    ghost use Rattle.strm_locks.specs.Turns.{Posted};

    ghost Value = { List (List Posted) };

    ghost view = { λ c. map (λ h. h.worker) c.hands.items };

    ghost invariant = { λ c. length c.hands.items < 4294967296 };
}

// What a worker of this number is to do: so many visits.
#[derive(Clone, Copy)]
struct Shift {
    first: u32,
    visits: u32,
}

impl<P: Object> System<P> {
    // One worker, which met nothing.
    fn worker(&self, alloc: Global) -> Result<Worker<P>, AllocError>
        ensures { IfOk result (λ w. w ≡ map at_rest self.now.locks) }
    {
        let mut posts = Vec::new(alloc);
        for pair in 0..self.pairs() {
            let post = self.lock(pair).post();
            posts.push(post)?;
        }
        Ok(Worker { posts })
    }

    /// So many workers, which met nothing. They are refused for want of memory alone.
    pub fn crew(&self, alloc: Global, workers: u32) -> Result<Crew<P>, AllocError>
        ensures rest { IfOk result (λ crew. crew ≡ replicate workers (map at_rest self.now.locks)) }
        ensures own { IfOk result (λ crew. AreCrew self.now.locks crew) }
    {
        let mut all = Vec::new(alloc);
        for made in 0..workers {
            let worker = self.worker(alloc)?;
            all.push(Hand {
                worker,
                report: BEGUN,
            })?;
        }
        Ok(Crew { hands: all })
    }

    // One visit of a worker to a pair, within a gate.
    fn visit<R: Wait, G: Gate>(
        &self,
        rt: &R,
        gate: &G,
        at: At,
        worker: &mut Worker<P>,
    ) -> Option<Made>
        requires pair { at.pair < length self.now.locks }
        requires own { AreAt self.now.locks worker.old }
        ensures met { Meets worker.old at.pair result worker.new }
        ensures own { AreAt self.now.locks worker.new }
    {
        let post = &mut worker.posts[at.pair as usize];
        self.lock(at.pair).visit(rt, gate, at, post)
    }

    // All visits of the first worker of a shift: it goes from pair to pair, first to that of its number, modulo the number of pairs, and tells each
    // visit once. Where the system has no pair it makes none.
    fn tour<R: Wait, G: Gate>(
        &self,
        rt: &R,
        gate: &G,
        shift: Shift,
        worker: &mut Worker<P>,
    ) -> Report
        requires { AreAt self.now.locks worker.old }
        ensures tours { Tours (length self.now.locks) shift.first (visits_at (length self.now.locks) shift.visits) worker.old result worker.new }
        ensures own { AreAt self.now.locks worker.new }
        ensures counted { IsReportOf 1 (visits_at (length self.now.locks) shift.visits) result }
    {
        let pairs = self.pairs();
        let mut report = BEGUN;
        if pairs == 0 {
            return report;
        }
        for visit in 0..shift.visits {
            let pair = ((shift.first as u64 + visit as u64) % pairs as u64) as u32;
            let at = At {
                worker: shift.first,
                pair,
            };
            report = report.counted(&self.visit(rt, gate, at, worker));
        }
        report
    }
}

// A worker's visits, and what it reports.
fn serve<P: Object, R: Wait, G: Gate>(
    rt: &R,
    system: &System<P>,
    gate: &G,
    shift: Shift,
    hand: &mut Hand<P>,
)
    requires { AreAt system.now.locks hand.old.worker }
    ensures { Serves system.now.locks shift.first shift.visits hand.old.worker hand.new.report hand.new.worker }
{
    hand.report = system.tour(rt, gate, shift, &mut hand.worker);
}

// The visits of all workers, each on a thread.
fn serve_all<P: Object + Send, R: Threads + Wait + Sync, G: Gate + Sync>(
    rt: &R,
    system: &System<P>,
    gate: &G,
    visits: u32,
    hands: &mut [Hand<P>],
)
    requires few { length hands.old < 4294967296 }
    requires own { (i : ℕ) (d : _) → i < length hands.old → AreAt system.now.locks (slice_index_or hands.old i d).worker }
    ensures { (i : ℕ) (d : _) → i < length hands.old →
        Serves system.now.locks i visits
        (slice_index_or hands.old i d).worker (slice_index_or hands.new i d).report (slice_index_or hands.new i d).worker }
{
    let threads = hands.len();
    if threads == 0 {
        return;
    }
    for_each_mut(
        rt,
        hands,
        threads,
        &|number: usize, hand: &mut Hand<P>|
            requires { (number < 4294967296) × AreAt system.now.locks hand.now.worker }
            ensures { Serves system.entry.now.locks number visits hand.entry.now.worker hand.exit.now.report hand.exit.now.worker }
        {
            let first = number as u32;
            serve(rt, system, gate, Shift { first, visits }, hand);
        },
    );
}

// What all workers report together, each of so many visits at so many pairs.
fn told<P: Object>(hands: &[Hand<P>], pairs: u32, visits: u32) -> Report
    requires few { length hands.now < 4294967296 }
    requires each { (i : ℕ) (d : _) → i < length hands.now → IsReportOf 1 (visits_at pairs visits) (slice_index_or hands.now i d).report }
    ensures total { result ≡ total (map (λ h. h.report) hands.now) }
    ensures counted { IsReportOf (length hands.now) (visits_at pairs visits) result }
{
    let mut report = NOBODY;
    for hand in hands {
        report = report.plus(&hand.report);
    }
    report
}

impl<P: Object + Send> System<P> {
    /// Runs the workers of a crew, each on a thread of its own where one can be made. Each makes so many visits: the worker of number i first to the pair of
    /// number i, modulo the number of pairs, then to the next, and so on round. A visit makes one turn of the queue that was enabled first there,
    /// if any, under the pair's lock and within the gate. The report counts each visit once; where there is no pair, no visit is made.
    pub fn run_crew<R: Threads + Wait + Sync, G: Gate + Sync>(
        &self,
        rt: &R,
        crew: &mut Crew<P>,
        visits: u32,
        gate: &G,
    ) -> Report
        requires { AreCrew self.now.locks crew.old }
        ensures works { Works (length self.now.locks) (visits_at (length self.now.locks) visits) 0 crew.old result crew.new }
        ensures own { AreCrew self.now.locks crew.new }
        ensures counted { IsReportOf (length crew.old) (visits_at (length self.now.locks) visits) result }
    {
        let pairs = self.pairs();
        let hands = crew.hands.as_mut_slice();
        serve_all(rt, self, gate, visits, hands);
        told(hands, pairs, visits)
    }

    /// Runs so many workers, as `run_crew` does those of a crew that is made here and let go. None starts where memory for it is refused.
    pub fn run_workers<R: Threads + Wait + Sync, G: Gate + Sync>(
        &self,
        rt: &R,
        alloc: Global,
        workers: u32,
        visits: u32,
        gate: &G,
    ) -> Report
        ensures { let each = visits_at (length self.now.locks) visits in IsReportOf workers each result ⊎ (result ≡ nobody) }
    {
        match self.crew(alloc, workers) {
            Ok(mut crew) => self.run_crew(rt, &mut crew, visits, gate),
            Err(_) => NOBODY,
        }
    }
}
