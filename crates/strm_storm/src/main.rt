//! Storms of calls: threads that call at random on the pairs of a system, while workers make the turns; rounds at the pairs of a host; and rounds
//! at those of a system, to be timed. Each line of standard input is a plan, and is answered by a line. The first that is none ends the program with
//! status 1.
#![tactic(auto)]

mod ends;
mod hosting;
mod load;
mod plans;
mod rounds;
mod storms;

use crate::hosting::serve;
use crate::load::make_load;
use crate::plans::{Asked, read_plan};
use crate::storms::{StormReport, storm};
use std::alloc::Global;
use std::sync::Wait;
use std::thread::Threads;
use strm_system::{Fresh, Locked, Store};

// What stands under each lock.
type Pair = Locked<Store>;

// How many calls were made, granted and refused ones.
fn all_of(report: &StormReport) -> u64 {
    let mut all = report.calls;
    for refused in report.refused {
        all = all.saturating_add(refused);
    }
    all
}

// What a storm came to, in words: all calls together, or the whole report.
fn tell_storm<R: Print>(rt: &R, report: &StormReport, whole: bool) -> anyhow::Result<()> {
    let end = if report.settled {
        "settled"
    } else {
        "not settled"
    };
    if whole {
        println!(rt;
            "{} granted, refused by number {:?}, {end}",
            report.calls, report.refused
        )?;
    } else {
        println!(rt; "{} {end}", all_of(report))?;
    }
    Ok(())
}

// Carries out what a line asks for with pairs of a kind, and tells what it came to.
fn answer<P: Fresh + Send, R: Threads + Wait + Sync + Print>(
    rt: &R,
    alloc: Global,
    asked: Asked,
) -> anyhow::Result<()> {
    match asked {
        Asked::Storm { plan, whole } => {
            let report = storm::<P, R>(rt, alloc, plan);
            tell_storm(rt, &report, whole)?;
        }
        Asked::Host(plan) => {
            let report = serve::<P, R>(rt, alloc, plan)?;
            println!(rt;
                "{} pairs settled, {} refused",
                report.settled, report.refused
            )?;
        }
        Asked::Load(plan) => match make_load::<P, R>(rt, alloc, &plan) {
            Some(told) => println!(rt; "{} {} {}", told.calls, told.written, told.read)?,
            None => println!(rt; "refused")?,
        },
    }
    Ok(())
}

fn main(rt: HostRuntime) -> anyhow::Result<()> {
    for line in rt.lines(rt.alloc()) {
        let line = line?;
        let words: Vec<&str> = line.split_whitespace().collect(rt.alloc())?;
        let asked = read_plan(&words)?;
        answer::<Pair, HostRuntime>(&rt, rt.alloc(), asked)?;
    }
    Ok(())
}
