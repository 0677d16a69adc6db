//! Systems of pairs: what their ends are told, and what is refused.

ghost use Rattle.std.specs.Prelude.{◌<◌, ◌≤◌, length};
ghost use Rattle.strm_minors.specs.Openers.{IsOf};
ghost use Rattle.strm_locks.specs.Systems.{IsOne};

use crate::journals::is_cut;
use crate::steps::{
    apart, call, claimed, halves, makes, no_slave, not_opened, opened, opened_master, reads,
    rejoined, settled, settled_with, slave_of, told, tried, unlock, unsplit, worked, writes,
};
use std::alloc::Global;
use std::process::Abort;
use std::sync::Wait;
use std::test::Fail;
use std::thread::Threads;
use strm_image::Trace;
use strm_locks::{ALL_PARTS, NoGate, Object, PairEnd, Settled, System, Told};
use strm_minors::{Minor, Minors, NoMinor, Opener};
use strm_system::{Fresh, host, system};
use strm_types::{Answer, Config, Content, Event, Refusal, StopSignal, TIOCSPGRP};

pub(crate) const SIZES: Config = Config {
    mblks: 128,
    dblks: 128,
    journal_events: 8192,
    journal_bytes: 262144,
};

// A journal that takes no entry.
pub(crate) const NO_JOURNAL: Config = Config {
    mblks: 1,
    dblks: 1,
    journal_events: 0,
    journal_bytes: 0,
};

pub(crate) fn opens_and_refuses<P: Object, R: Wait + Abort>(
    rt: &R,
    system: &System<P>,
    opener: &mut Opener,
)
    requires { IsOf system.now.minors opener.old }
{
    let mut master = opened_master(rt, system, opener);
    assert!(rt; no_slave(rt, system, &mut master) == Some(Refusal::Eagain));
    assert!(rt; told(&master).calls == 1);
    unlock(rt, system, &mut master);
    assert!(rt; told(&master).calls == 2);
    let slave = slave_of(rt, system, &mut master);
    assert!(rt; told(&master).calls == 3 && told(&slave).calls == 0);
    drop(slave);
    drop(master);
}

fn isnt_opened<P: Object, R: Wait + Abort>(rt: &R, system: &System<P>, minor: Minor)
    requires { minor < length system.now.locks }
{
    let Some((why, _)) = not_opened(rt, system, minor) else {
        panic!(rt; "opened twice")
    };
    assert!(rt; why == Refusal::Einval);
}

fn opens_again<P: Object, R: Wait + Abort>(rt: &R, system: &System<P>, end: PairEnd<P>)
    requires { IsOne system.now end }
{
    let Some((settled, minor)) = settled_with(rt, system, end) else {
        panic!(rt; "shared")
    };
    assert!(rt; settled.told.calls == 1 && not_opened(rt, system, minor).is_none());
}

// A pair that was opened isn't opened by a minor of the same number, till it settles. Its own minor comes back then, and opens it again.
fn is_opened_twice<P: Object, R: Wait + Abort>(
    rt: &R,
    system: &System<P>,
    first: Minor,
    second: Minor,
)
    requires first { first < length system.now.locks }
    requires second { second < length system.now.locks }
{
    let Ok(end) = tried(rt, system, first) else {
        panic!(rt; "refused")
    };
    isnt_opened(rt, system, second);
    opens_again(rt, system, end);
}

// A minor of other minors, of the number of a pair.
fn is_strange<P: Object, R: Wait + Abort>(
    rt: &R,
    system: &System<P>,
    opener: &mut Opener,
    stranger: Minor,
)
    requires { IsOf system.now.minors opener.old }
{
    let minor = claimed(rt, system, opener);
    if stranger.number() < system.pairs() {
        is_opened_twice(rt, system, minor, stranger);
    }
}

fn with_stranger<P: Object, R: Wait + Abort>(
    rt: &R,
    system: &System<P>,
    opener: &mut Opener,
    stranger: Result<Minor, NoMinor>,
) -> Result<(), Fail>
    requires { IsOf system.now.minors opener.old }
{
    is_strange(rt, system, opener, stranger?);
    Ok(())
}

pub(crate) fn strange_minor<P: Object, R: Wait + Abort>(
    rt: &R,
    alloc: Global,
    system: &System<P>,
    opener: &mut Opener,
) -> Result<(), Fail>
    requires { IsOf system.now.minors opener.old }
{
    let (other, mut own) = Minors::new(alloc, 1)?;
    let stranger = other.claim(&mut own);
    let told = with_stranger(rt, system, opener, stranger);
    drop(own);
    drop(other);
    told
}

// Whether no system is made of so many pairs of these sizes.
fn are_refused<P: Fresh>(alloc: Global, pairs: u32, sizes: Config) -> bool
    requires { pairs ≤ 64 }
{
    matches!(&system::<P>(alloc, pairs, sizes), Err(Refusal::Einval))
}

// No pair has a journal and no block, nor more than a store may have.
pub(crate) fn refuses_sizes<P: Fresh, R: Abort>(rt: &R, alloc: Global) {
    for blocks in [0, 65537] {
        let few = Config {
            mblks: blocks,
            ..SIZES
        };
        assert!(rt; are_refused::<P>(alloc, 1, few));
        let few = Config {
            dblks: blocks,
            ..SIZES
        };
        assert!(rt; are_refused::<P>(alloc, 0, few));
    }
}

// A worker makes one turn at its one visit.
fn makes_a_turn<P: Object + Send, R: Threads + Wait + Sync + Abort>(
    rt: &R,
    alloc: Global,
    system: &System<P>,
) {
    let report = worked(rt, alloc, system, (1, 1), &NoGate);
    assert!(rt; report.started == 1 && report.turns == 1);
    assert!(rt; report.blocked == 0 && report.refused == 0 && report.idle == 0);
}

// The master writes, a worker makes the turn, and the slave reads.
fn carries<P: Object + Send, R: Threads + Wait + Sync + Abort>(
    rt: &R,
    alloc: Global,
    system: &System<P>,
    master: &mut PairEnd<P>,
    slave: &mut PairEnd<P>,
)
    requires master { IsOne system.now master.old }
    requires slave { IsOne system.now slave.old }
    ensures master { IsOne system.now master.new }
    ensures slave { IsOne system.now slave.new }
{
    assert!(rt; writes(rt, system, master, b"abc"));
    makes_a_turn(rt, alloc, system);
    assert!(rt; reads(rt, system, slave, b"abc"));
    assert!(rt; told(master).calls == 4 && told(slave).read.from_master == 3);
}

pub(crate) fn carries_and_settles<P: Object + Send, R: Threads + Wait + Sync + Abort>(
    rt: &R,
    alloc: Global,
    system: &System<P>,
    opener: &mut Opener,
)
    requires { IsOf system.now.minors opener.old }
{
    let (mut master, mut slave) = opened(rt, system, opener);
    carries(rt, alloc, system, &mut master, &mut slave);
    all_is_told(rt, &settled(rt, system, master, slave));
}

// What was told of a session in which three bytes were carried.
fn all_is_told<R: Abort>(rt: &R, settled: &Settled) {
    assert!(rt; settled.told.calls == 5 && settled.told.written.from_master == 3);
    assert!(rt; settled.told.read.from_master == 3 && settled.told.written.from_slave == 0);
    assert!(rt; settled.ms.written == 3 && settled.ms.fates[0] == 3 && settled.sm.written == 0);
}

// The same with a cut before the end: what ends were told stays.
pub(crate) fn carries_and_is_cut<P: Object + Send, R: Threads + Wait + Sync + Abort>(
    rt: &R,
    alloc: Global,
    system: &System<P>,
    opener: &mut Opener,
)
    requires { IsOf system.now.minors opener.old }
{
    let (mut master, mut slave) = opened(rt, system, opener);
    carries(rt, alloc, system, &mut master, &mut slave);
    let first = is_cut(rt, alloc, system, &master);
    let second = is_cut(rt, alloc, system, &slave);
    has_all_and_none(rt, &first, &second);
    all_is_told(rt, &settled(rt, system, master, slave));
}

// The first trace has all six entries, and the second begins behind them.
fn has_all_and_none<R: Abort>(rt: &R, trace: &Trace, rest: &Trace) {
    assert!(rt; trace.entries.len() == 6 && trace.bytes.as_slice() == b"abcabc".as_slice());
    assert!(rt; rest.entries.is_empty() && rest.bytes.is_empty());
    assert!(rt; trace.base.as_slice() != rest.base.as_slice());
}

pub(crate) fn runs_out_of_minors<P: Object, R: Wait + Abort>(
    rt: &R,
    system: &System<P>,
    opener: &mut Opener,
)
    requires { IsOf system.now.minors opener.old }
{
    let first = claimed(rt, system, opener);
    let second = claimed(rt, system, opener);
    assert!(rt; first.number() == 0 && second.number() == 1);
    assert!(rt; system.claim(opener).is_err());
    has_no_room(rt, system, second);
}

// The second minor comes back.
fn has_no_room<P: Object, R: Wait + Abort>(rt: &R, system: &System<P>, second: Minor)
    requires { second < length system.now.locks }
{
    let Some((why, minor)) = not_opened(rt, system, second) else {
        panic!(rt; "opened")
    };
    assert!(rt; why == Refusal::JournalFull && minor.number() == 1);
}

pub(crate) fn joins_two_pairs<P: Object, R: Wait + Abort>(
    rt: &R,
    system: &System<P>,
    opener: &mut Opener,
)
    requires { IsOf system.now.minors opener.old }
{
    let first = opened_master(rt, system, opener);
    let second = opened_master(rt, system, opener);
    come_back(rt, system, first, second);
}

// Ends of the first two pairs.
fn come_back<P: Object, R: Wait + Abort>(
    rt: &R,
    system: &System<P>,
    first: PairEnd<P>,
    second: PairEnd<P>,
)
    requires first { IsOne system.now first }
    requires second { IsOne system.now second }
{
    let Some((first, second)) = apart(system, first, second) else {
        panic!(rt; "joined")
    };
    assert!(rt; first.pair() == 0 && second.pair() == 1);
    assert!(rt; told(&first).calls == 1 && told(&second).calls == 1);
    drop(second);
    drop(first);
}

// Cuts an end in two so often, first halves first, and joins all again. The last one has one part, and opens no slave.
fn splits_and_joins<P: Object, R: Wait + Abort>(
    rt: &R,
    system: &System<P>,
    end: PairEnd<P>,
    times: u32,
) -> PairEnd<P>
    requires { IsOne system.now end }
    ensures { IsOne system.now result }
{
    if times == 0 {
        return is_last(rt, system, end);
    }
    let (first, second) = halves(rt, system, end);
    let first = splits_and_joins(rt, system, first, times - 1);
    rejoined(rt, system, first, second)
}

// The end, which can't be split.
fn stays_whole<P: Object, R: Abort>(rt: &R, system: &System<P>, end: PairEnd<P>) -> PairEnd<P>
    requires { IsOne system.now end }
    ensures { IsOne system.now result }
{
    let Some(end) = unsplit(system, end) else {
        panic!(rt; "split")
    };
    end
}

// An end of one part.
fn is_last<P: Object, R: Wait + Abort>(rt: &R, system: &System<P>, end: PairEnd<P>) -> PairEnd<P>
    requires { IsOne system.now end }
    ensures { IsOne system.now result }
{
    let mut end = stays_whole(rt, system, end);
    assert!(rt; end.end().parts() == 1);
    assert!(rt; no_slave(rt, system, &mut end) == Some(Refusal::Erange));
    end
}

pub(crate) fn splits_to_one_part<P: Object, R: Wait + Abort>(
    rt: &R,
    system: &System<P>,
    opener: &mut Opener,
)
    requires { IsOf system.now.minors opener.old }
{
    let end = opened_master(rt, system, opener);
    let end = splits_and_joins(rt, system, end, 63);
    assert!(rt; end.end().parts() == ALL_PARTS);
    let Some((settled, _)) = settled_with(rt, system, end) else {
        panic!(rt; "shared")
    };
    assert!(rt; settled.told.calls == 1);
}

// A part of an end settles nothing, nor does what is left without it.
pub(crate) fn parts_settle_nothing<P: Object, R: Wait + Abort>(
    rt: &R,
    system: &System<P>,
    opener: &mut Opener,
)
    requires { IsOf system.now.minors opener.old }
{
    let end = opened_master(rt, system, opener);
    let (first, second) = halves(rt, system, end);
    assert!(rt; settled_with(rt, system, second).is_none());
    assert!(rt; settled_with(rt, system, first).is_none());
}

// A shell in the foreground and a job in the background have one side, where a line stands.
fn stops_the_job<P: Object, R: Wait + Abort>(
    rt: &R,
    system: &System<P>,
    shell: &mut PairEnd<P>,
    job: &mut PairEnd<P>,
)
    requires shell { IsOne system.now shell.old }
    requires job { IsOne system.now job.old }
{
    assert!(rt; is_stopped(rt, system, job));
    assert!(rt; reads(rt, system, shell, b"abc"));
    are_told(rt, &told(shell), &told(job));
}

// Whether a read stops its caller by SIGTTIN.
fn is_stopped<P: Object, R: Wait>(rt: &R, system: &System<P>, job: &mut PairEnd<P>) -> bool
    requires { IsOne system.now job.old }
    ensures { IsOne system.now job.new }
{
    let read = Event::Read { n: 10 };
    let stopped = call(rt, system, job, &read, &mut Content::new());
    matches!(&stopped, Ok(Answer::Stop(StopSignal::Ttin)))
}

// The job was told of its stop alone, and the shell of what it read.
fn are_told<R: Abort>(rt: &R, shell: &Told, job: &Told) {
    assert!(rt; job.calls == 1 && job.read.from_master == 0);
    assert!(rt; shell.calls == 2 && shell.read.from_master == 3);
}

// Has the end's later calls made by a process of a group.
fn in_group<P: Object>(system: &System<P>, end: &mut PairEnd<P>, group: u32)
    requires { IsOne system.now end.old }
    ensures { IsOne system.now end.new }
{
    end.set_group(group, false, false);
}

// The shell and its job are of two groups, of which the shell's is in the foreground.
fn have_groups<P: Object, R: Wait + Abort>(
    rt: &R,
    system: &System<P>,
    shell: &mut PairEnd<P>,
    job: &mut PairEnd<P>,
)
    requires shell { IsOne system.now shell.old }
    requires job { IsOne system.now job.old }
    ensures shell { IsOne system.now shell.new }
    ensures job { IsOne system.now job.new }
{
    in_group(system, shell, 5);
    in_group(system, job, 7);
    let foreground = Event::Ioctl {
        command: TIOCSPGRP,
        body: [0, 0, 0, 5].as_slice(),
    };
    assert!(rt; makes(rt, system, shell, &foreground));
}

// The master writes a line, and a worker makes the turn that brings it to the slave.
fn has_a_line<P: Object + Send, R: Threads + Wait + Sync + Abort>(
    rt: &R,
    alloc: Global,
    system: &System<P>,
    master: &mut PairEnd<P>,
)
    requires { IsOne system.now master.old }
    ensures { IsOne system.now master.new }
{
    assert!(rt; writes(rt, system, master, b"abc"));
    assert!(rt; worked(rt, alloc, system, (1, 1), &NoGate).turns == 1);
}

pub(crate) fn job_reads<P: Object + Send, R: Threads + Wait + Sync + Abort>(
    rt: &R,
    alloc: Global,
    system: &System<P>,
    opener: &mut Opener,
)
    requires { IsOf system.now.minors opener.old }
{
    let (mut master, slave) = opened(rt, system, opener);
    let (mut shell, mut job) = halves(rt, system, slave);
    have_groups(rt, system, &mut shell, &mut job);
    has_a_line(rt, alloc, system, &mut master);
    stops_the_job(rt, system, &mut shell, &mut job);
    drop(job);
    drop(shell);
    drop(master);
}

// Whether no host is made of so many pairs of these sizes.
fn isnt_had<P: Fresh>(alloc: Global, pairs: u32, sizes: Config) -> bool {
    matches!(&host::<P>(alloc, pairs, sizes), Err(Refusal::Einval))
}

// No host has no pair, nor more than 65,536.
pub(crate) fn refuses_hosts<P: Fresh, R: Abort>(rt: &R, alloc: Global) {
    for pairs in [0, 65537] {
        assert!(rt; isnt_had::<P>(alloc, pairs, SIZES));
    }
    let few = Config { mblks: 0, ..SIZES };
    assert!(rt; isnt_had::<P>(alloc, 65, few));
}
