//! Four threads at one pair, each with an end of its own, and a fifth that audits the pair meanwhile; what the four counted of
//! their own calls is what their ends were told.

ghost use Rattle.std.specs.Prelude.{◌<◌, length};
ghost use Rattle.strm_minors.specs.Openers.{IsOf};
ghost use Rattle.strm_locks.specs.Systems.{IsOne};

use crate::steps::{call, halves, opened, rejoined, settled_with, turn};
use std::process::Abort;
use std::sync::Wait;
use std::sync::atomic::{AtomicU64, Ordering};
use std::thread::{Threads, join};
use strm_locks::{Object, PairEnd, Settled, System, Told};
use strm_minors::Opener;
use strm_types::{Answer, Config, Content, Event, FlushQueues, Ledger, Refusal};

// A journal that takes each call of the four, and a turn behind each.
pub(crate) const AMPLE: Config = Config {
    mblks: 512,
    dblks: 512,
    journal_events: 16384,
    journal_bytes: 262144,
};

// What the threads of a side counted of their own calls: those that were granted, and how many bytes they wrote and read.
#[derive(Drop)]
struct Tally {
    calls: AtomicU64,
    wrote: AtomicU64,
    read: AtomicU64,
}

impl Tally {
    fn none() -> Tally {
        Tally {
            calls: AtomicU64::new(0),
            wrote: AtomicU64::new(0),
            read: AtomicU64::new(0),
        }
    }

    // Counts a call that is granted.
    fn note(&self, answer: &Result<Answer<u32>, Refusal>) {
        let (wrote, read) = match answer {
            Ok(Answer::Count(n)) => (*n, 0),
            Ok(Answer::Bytes(n)) => (0, *n),
            Ok(_) => (0, 0),
            Err(_) => return,
        };
        self.calls.fetch_add(1, Ordering::SeqCst);
        self.wrote.fetch_add(wrote as u64, Ordering::SeqCst);
        self.read.fetch_add(read as u64, Ordering::SeqCst);
    }

    // How many calls, bytes written and bytes read.
    fn told(&self) -> (u64, u64, u64) {
        let calls = self.calls.load(Ordering::SeqCst);
        let wrote = self.wrote.load(Ordering::SeqCst);
        (calls, wrote, self.read.load(Ordering::SeqCst))
    }
}

// Those of both sides.
#[derive(Drop)]
struct Tallies {
    masters: Tally,
    slaves: Tally,
}

fn event_at(at: u32) -> Event<&'static [u8]> {
    match at % 5 {
        0 | 1 => Event::Write {
            bytes: b"abcdefg\n".as_slice(),
        },
        2 | 3 => Event::Read { n: 5 },
        _ => Event::Flush {
            what: FlushQueues::Both,
            band: None,
        },
    }
}

// A thousand calls, writes, reads and a flush in turn, and a visit of the pair behind each.
fn work<P: Object, R: Wait>(
    rt: &R,
    system: &System<P>,
    tally: &Tally,
    end: PairEnd<P>,
) -> PairEnd<P>
    requires { IsOne system.now end }
    ensures { IsOne system.now result }
{
    let mut end = end;
    for at in 0..1000u32 {
        let answer = call(rt, system, &mut end, &event_at(at), &mut Content::new());
        tally.note(&answer);
        turn(rt, system, &end);
    }
    end
}

// Two threads of one side.
fn both_work<P: Object + Send, R: Threads + Wait + Sync + Abort>(
    rt: &R,
    system: &System<P>,
    tally: &Tally,
    first: PairEnd<P>,
    second: PairEnd<P>,
) -> (PairEnd<P>, PairEnd<P>)
    requires first { IsOne system.now first }
    requires second { IsOne system.now second }
    ensures first { IsOne system.now result.0 }
    ensures second { IsOne system.now result.1 }
{
    join(
        rt,
        || -> PairEnd<P>
            requires { IsOne system.now first }
            ensures { IsOne system.entry.now result }
        { work(rt, system, tally, first) },
        || -> PairEnd<P>
            requires { IsOne system.now second }
            ensures { IsOne system.entry.now result }
        { work(rt, system, tally, second) },
    )
}

// Two threads of one side, each with half of its end.
fn two_work<P: Object + Send, R: Threads + Wait + Sync + Abort>(
    rt: &R,
    system: &System<P>,
    tally: &Tally,
    end: PairEnd<P>,
) -> PairEnd<P>
    requires { IsOne system.now end }
    ensures { IsOne system.now result }
{
    let (first, second) = halves(rt, system, end);
    let (first, second) = both_work(rt, system, tally, first, second);
    rejoined(rt, system, first, second)
}

// Two threads of each side.
fn sides_work<P: Object + Send, R: Threads + Wait + Sync + Abort>(
    rt: &R,
    system: &System<P>,
    tallies: &Tallies,
    master: PairEnd<P>,
    slave: PairEnd<P>,
) -> (PairEnd<P>, PairEnd<P>)
    requires master { IsOne system.now master }
    requires slave { IsOne system.now slave }
    ensures master { IsOne system.now result.0 }
    ensures slave { IsOne system.now result.1 }
{
    join(
        rt,
        || -> PairEnd<P>
            requires { IsOne system.now master }
            ensures { IsOne system.entry.now result }
        { two_work(rt, system, &tallies.masters, master) },
        || -> PairEnd<P>
            requires { IsOne system.now slave }
            ensures { IsOne system.entry.now result }
        { two_work(rt, system, &tallies.slaves, slave) },
    )
}

// Two threads of each side, and one end of all.
fn four_work<P: Object + Send, R: Threads + Wait + Sync + Abort>(
    rt: &R,
    system: &System<P>,
    tallies: &Tallies,
    master: PairEnd<P>,
    slave: PairEnd<P>,
) -> PairEnd<P>
    requires master { IsOne system.now master }
    requires slave { IsOne system.now slave }
    ensures { IsOne system.now result }
{
    let (master, slave) = sides_work(rt, system, tallies, master, slave);
    rejoined(rt, system, master, slave)
}

// Whether all bytes of a ledger are somewhere. No sum of 23 numbers of 64 bits saturates one of 128.
fn balances(ledger: &Ledger) -> bool {
    let mut there = ledger.queued as u128 + ledger.inline as u128;
    for gone in ledger.fates {
        there = there.saturating_add(gone as u128);
    }
    ledger.written as u128 + ledger.made as u128 == there
}

// Whether the sums of an audit balance.
fn is_good(told: &Told, ms: &Ledger, sm: &Ledger) -> bool {
    told.written.from_master == ms.written
        && told.written.from_slave == sm.written
        && balances(ms)
        && balances(sm)
}

// Looks at the pair once, whatever others do there: whether its sums balanced.
fn audits_once<P: Object, R: Wait>(rt: &R, system: &System<P>) -> bool
    requires { 0 < length system.now.locks }
{
    let audit = system.audit(rt, 0);
    is_good(&audit.told, &audit.ms, &audit.sm)
}

// Looks at the pair so often: how often its sums balanced.
fn audits<P: Object, R: Wait>(rt: &R, system: &System<P>, times: u32) -> u32 {
    let mut good = 0u32;
    if system.pairs() == 0 {
        return good;
    }
    for _ in 0..times {
        if audits_once(rt, system) {
            good = good.saturating_add(1);
        }
    }
    good
}

// Whether the ends were told how many bytes the threads of both sides wrote and read.
fn are_bytes(
    told: &Told,
    (wrote, read): (u64, u64),
    (slaves_wrote, slaves_read): (u64, u64),
) -> bool {
    told.written.from_master == wrote
        && told.written.from_slave == slaves_wrote
        && told.read.from_master == slaves_read
        && told.read.from_slave == read
}

// Whether the ends were told what the threads counted and the three calls that opened the pair, and both ledgers balance.
fn agrees(settled: &Settled, tallies: &Tallies) -> bool {
    let (calls, wrote, read) = tallies.masters.told();
    let (more, slaves_wrote, slaves_read) = tallies.slaves.told();
    let all = calls.saturating_add(more).saturating_add(3);
    settled.told.calls == all
        && are_bytes(&settled.told, (wrote, read), (slaves_wrote, slaves_read))
        && balances(&settled.ms)
        && balances(&settled.sm)
}

// The threads of both sides made calls that were granted, and wrote.
fn have_worked(tallies: &Tallies) -> bool {
    let (calls, wrote, _) = tallies.masters.told();
    let (more, slaves_wrote, _) = tallies.slaves.told();
    calls.saturating_add(more) > 1000 && wrote > 0 && slaves_wrote > 0
}

// Four threads at a pair, and a fifth that audits it: one end of all, and how often the sums balanced.
fn five_work<P: Object + Send, R: Threads + Wait + Sync + Abort>(
    rt: &R,
    system: &System<P>,
    tallies: &Tallies,
    master: PairEnd<P>,
    slave: PairEnd<P>,
) -> (PairEnd<P>, u32)
    requires master { IsOne system.now master }
    requires slave { IsOne system.now slave }
    ensures { IsOne system.now result.0 }
{
    join(
        rt,
        || -> PairEnd<P>
            requires { IsOne system.now master × IsOne system.now slave }
            ensures { IsOne system.entry.now result }
        { four_work(rt, system, tallies, master, slave) },
        || audits(rt, system, 1000),
    )
}

// Opens a pair, at which all five are: one end of all.
fn all_work<P: Object + Send, R: Threads + Wait + Sync + Abort>(
    rt: &R,
    system: &System<P>,
    opener: &mut Opener,
    tallies: &Tallies,
) -> PairEnd<P>
    requires { IsOf system.now.minors opener.old }
    ensures { IsOne system.now result }
{
    let (master, slave) = opened(rt, system, opener);
    let (end, good) = five_work(rt, system, tallies, master, slave);
    assert!(rt; good == 1000 && have_worked(tallies));
    end
}

// The end has all parts of its pair, and was told what the threads counted.
fn are_told<P: Object, R: Wait + Abort>(
    rt: &R,
    system: &System<P>,
    tallies: &Tallies,
    end: PairEnd<P>,
)
    requires { IsOne system.now end }
{
    let Some((settled, _minor)) = settled_with(rt, system, end) else {
        panic!(rt; "shared")
    };
    assert!(rt; agrees(&settled, tallies));
}

pub(crate) fn all_is_told<P: Object + Send, R: Threads + Wait + Sync + Abort>(
    rt: &R,
    system: &System<P>,
    opener: &mut Opener,
)
    requires { IsOf system.now.minors opener.old }
{
    let tallies = Tallies {
        masters: Tally::none(),
        slaves: Tally::none(),
    };
    let end = all_work(rt, system, opener, &tallies);
    are_told(rt, system, &tallies, end);
}
