//! The cases: each is said for any system, and one function owns a system of real pairs.

ghost use Rattle.std.specs.Prelude.{◌≤◌};
ghost use Rattle.strm_minors.specs.Openers.{IsOf};

use crate::journals::{FOUR, go_on, two_are_cut};
use crate::memory::is_short;
use crate::rows::{AMPLE, all_is_told};
use crate::server::serves_eight;
use crate::systems::{
    NO_JOURNAL, SIZES, carries_and_is_cut, carries_and_settles, job_reads, joins_two_pairs,
    opens_and_refuses, parts_settle_nothing, refuses_hosts, refuses_sizes, runs_out_of_minors,
    splits_to_one_part, strange_minor,
};
use crate::threads::{hand_over, workers_meet};
use crate::workers::{visits_none, visits_round, visits_two};
use std::alloc::Global;
use std::process::Abort;
use std::sync::Wait;
use std::test::Fail;
use std::thread::Threads;
use strm_blocks::TableStore;
use strm_locks::System;
use strm_minors::Opener;
use strm_system::{Fresh, Locked, Store, system};
use strm_types::Config;

#[derive(Clone, Copy)]
enum Case {
    Openings,
    OpenedAgain,
    Carried,
    Cut,
    MinorsRunOut,
    TwoPairs,
    OnePart,
    LacksParts,
    Background,
    FullJournal,
    CutRefused,
    NoMemory,
    Served,
    HandedOver,
    Gates,
    TwoLocks,
    Round,
    NoPair,
    FourTold,
    BadSizes,
    BadHosts,
}

// What a case does at a system.
fn play<P: Fresh + Send, R: Threads + Wait + Sync + Abort>(
    rt: &R,
    alloc: Global,
    system: &System<P>,
    opener: &mut Opener,
    case: Case,
) -> Result<(), Fail>
    requires { IsOf system.now.minors opener.old }
{
    match case {
        Case::Openings => opens_and_refuses(rt, system, opener),
        Case::OpenedAgain => return strange_minor(rt, alloc, system, opener),
        Case::Carried => carries_and_settles(rt, alloc, system, opener),
        Case::Cut => carries_and_is_cut(rt, alloc, system, opener),
        Case::MinorsRunOut => runs_out_of_minors(rt, system, opener),
        Case::TwoPairs => joins_two_pairs(rt, system, opener),
        Case::OnePart => splits_to_one_part(rt, system, opener),
        Case::LacksParts => parts_settle_nothing(rt, system, opener),
        Case::Background => job_reads(rt, alloc, system, opener),
        Case::FullJournal => go_on(rt, system, opener),
        Case::CutRefused => two_are_cut(rt, alloc, system, opener),
        Case::NoMemory => return is_short(rt, alloc, system, opener),
        Case::Served => return serves_eight(rt, system, opener),
        Case::HandedOver => hand_over(rt, system, opener),
        Case::Gates => workers_meet(rt, alloc, system, opener),
        Case::TwoLocks => visits_two(rt, alloc, system),
        Case::Round => visits_round(rt, alloc, system, opener),
        Case::NoPair => visits_none(rt, alloc, system),
        Case::FourTold => all_is_told(rt, system, opener),
        Case::BadSizes => refuses_sizes::<P, R>(rt, alloc),
        Case::BadHosts => refuses_hosts::<P, R>(rt, alloc),
    }
    Ok(())
}

// Makes a system, and plays a case there.
fn on_pairs<P: Fresh + Send, R: Threads + Wait + Sync + Abort>(
    rt: &R,
    alloc: Global,
    pairs: u32,
    sizes: Config,
    case: Case,
) -> Result<(), Fail>
    requires { pairs ≤ 64 }
{
    let (system, mut opener) = system::<P>(alloc, pairs, sizes)?;
    let played = play(rt, alloc, &system, &mut opener, case);
    drop(opener);
    drop(system);
    played
}

// The same over the program's store.
fn on<R: Threads + Wait + Sync + Abort>(
    rt: &R,
    alloc: Global,
    pairs: u32,
    sizes: Config,
    case: Case,
) -> Result<(), Fail>
    requires { pairs ≤ 64 }
{
    on_pairs::<Locked<Store>, R>(rt, alloc, pairs, sizes, case)
}

#[test]
fn openings_are_refused_and_told(rt: HostRuntime) -> Result<(), Fail> {
    on(&rt, rt.alloc(), 1, SIZES, Case::Openings)
}

#[test]
fn a_pair_is_opened_again_where_it_settled(rt: HostRuntime) -> Result<(), Fail> {
    on(&rt, rt.alloc(), 1, SIZES, Case::OpenedAgain)
}

#[test]
fn what_is_written_is_carried_read_and_told(rt: HostRuntime) -> Result<(), Fail> {
    on(&rt, rt.alloc(), 1, SIZES, Case::Carried)
}

#[test]
fn what_ends_were_told_stays_where_a_pair_is_cut(rt: HostRuntime) -> Result<(), Fail> {
    on(&rt, rt.alloc(), 1, SIZES, Case::Cut)
}

#[test]
fn minors_run_out_and_a_full_journal_refuses(rt: HostRuntime) -> Result<(), Fail> {
    on(&rt, rt.alloc(), 2, NO_JOURNAL, Case::MinorsRunOut)
}

#[test]
fn ends_of_two_pairs_come_back(rt: HostRuntime) -> Result<(), Fail> {
    on(&rt, rt.alloc(), 2, SIZES, Case::TwoPairs)
}

#[test]
fn an_end_of_one_part_opens_no_slave(rt: HostRuntime) -> Result<(), Fail> {
    on(&rt, rt.alloc(), 1, SIZES, Case::OnePart)
}

#[test]
fn an_end_that_lacks_parts_settles_nothing(rt: HostRuntime) -> Result<(), Fail> {
    on(&rt, rt.alloc(), 1, SIZES, Case::LacksParts)
}

#[test]
fn an_end_in_the_background_is_stopped_where_another_reads(rt: HostRuntime) -> Result<(), Fail> {
    on(&rt, rt.alloc(), 1, SIZES, Case::Background)
}

#[test]
fn a_session_goes_on_behind_a_full_journal(rt: HostRuntime) -> Result<(), Fail> {
    on(&rt, rt.alloc(), 1, FOUR, Case::FullJournal)
}

#[test]
fn eight_pairs_are_served(rt: HostRuntime) -> Result<(), Fail> {
    on(&rt, rt.alloc(), 8, SIZES, Case::Served)
}

#[test]
fn threads_read_what_they_write(rt: HostRuntime) -> Result<(), Fail> {
    on(&rt, rt.alloc(), 1, SIZES, Case::HandedOver)
}

#[test]
fn two_workers_wait_for_each_other_at_their_gates(rt: HostRuntime) -> Result<(), Fail> {
    on(&rt, rt.alloc(), 2, SIZES, Case::Gates)
}

#[test]
fn threads_take_turns_at_two_locks(rt: HostRuntime) -> Result<(), Fail> {
    on(&rt, rt.alloc(), 2, SIZES, Case::TwoLocks)
}

#[test]
fn a_worker_visits_pairs_round(rt: HostRuntime) -> Result<(), Fail> {
    on(&rt, rt.alloc(), 3, SIZES, Case::Round)
}

#[test]
fn where_there_is_no_pair_no_visit_is_made(rt: HostRuntime) -> Result<(), Fail> {
    on(&rt, rt.alloc(), 0, SIZES, Case::NoPair)
}

#[test]
fn sizes_are_refused(rt: HostRuntime) -> Result<(), Fail> {
    on(&rt, rt.alloc(), 0, SIZES, Case::BadSizes)
}

#[test]
fn hosts_are_refused(rt: HostRuntime) -> Result<(), Fail> {
    on(&rt, rt.alloc(), 0, SIZES, Case::BadHosts)
}

#[test]
fn four_threads_are_told_what_the_pair_did(rt: HostRuntime) -> Result<(), Fail> {
    on(&rt, rt.alloc(), 1, AMPLE, Case::FourTold)
}

#[test]
fn four_threads_are_told_over_tables_too(rt: HostRuntime) -> Result<(), Fail> {
    on_pairs::<Locked<TableStore>, HostRuntime>(&rt, rt.alloc(), 1, AMPLE, Case::FourTold)
}

// `tools/refusals --tests strm_shared cut_may_be_refused` refuses each request for memory in turn.
#[test]
fn memory_for_a_cut_may_be_refused(rt: HostRuntime) -> Result<(), Fail> {
    on(&rt, rt.alloc(), 2, SIZES, Case::CutRefused)
}

#[test]
fn what_asks_for_memory_is_refused_where_none_is_left(rt: HostRuntime) -> Result<(), Fail> {
    on(&rt, rt.alloc(), 1, SIZES, Case::NoMemory)
}
