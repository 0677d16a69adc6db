//! Rounds of calls and turns on a pair, for `bench/run` to time and `bench/instructions` to count. Each line of standard input is a
//! plan of thirteen numbers; the answer is how many bytes were read, and how many entries and bytes the last pair's journal has. The
//! word `size` asks for the bytes of a pair over linked raw blocks, beside what stands on the heap.
#![tactic(auto)]

mod making;
mod plans;
mod reading;
mod rounds;
mod running;
mod texts;

use crate::reading::read_plan;
use crate::running::run;
use std::io;
use strm_pair::Pair;
use strm_raw::RawStore;

const _: () = prove!(size_of::<Pair<RawStore>>() <= 10_240);

fn main(rt: HostRuntime) -> io::Result<()> {
    for line in rt.lines(rt.alloc()) {
        let line = line?;
        if line.as_str() == "size" {
            println!(rt; "{}", size_of::<Pair<RawStore>>())?;
            continue;
        }
        let words: Vec<&str> = line.split_whitespace().collect(rt.alloc())?;
        let Some(plan) = read_plan(&words) else {
            println!(rt;
                "a plan is: pairs rounds standing blocks entries warm store, act stack text line size asked"
            )?;
            continue;
        };
        match run(rt.alloc(), &plan) {
            Some(told) => println!(rt; "{} {} {}", told.read, told.entries, told.bytes)?,
            None => println!(rt; "refused")?,
        }
    }
    Ok(())
}
