//! How a plan is read.

ghost use Rattle.std.specs.Prelude.{◌≡◌, ◌<◌, ◌≤◌, length};

use crate::load::LoadPlan;
use crate::storms::StormPlan;
use thiserror::Error;

/// Why a line is no plan.
#[derive(Clone, Copy, Debug, Error)]
pub enum BadPlan {
    #[error("a plan is: pairs threads calls seed [report]; host pairs threads; or load pairs threads rounds entries warm")]
    Words,
    #[error("pairs are 1 to 64, those of a host 1 to 65536, those of a load 0 to 64")]
    Pairs,
    #[error("threads are 2 to 16, those of a load at least 1")]
    Threads,
    #[error("rounds are 0 to 4294967295")]
    Rounds,
    #[error("entries are 0 to 4294967295")]
    Entries,
    #[error("warm is 0 or 1")]
    Warm,
    #[error("calls are 0 to 65536")]
    Calls,
    #[error("a seed is 0 to 18446744073709551615")]
    Seed,
}

/// A host of so many pairs, and how many threads open, write and settle them. It has 1 to 65,536 pairs, and 2 to 16 threads.
#[derive(Clone, Copy)]
pub struct HostPlan {
    pub pairs: u32,
    pub threads: u32,
    pub ghost some_pairs: { (1 ≤ pairs) × (pairs ≤ 65536) },
    pub ghost some_threads: { (2 ≤ threads) × (threads ≤ 16) },
}

/// What a line asks for: a storm, and whether its whole report; rounds of a host; or rounds that are timed.
#[derive(Clone, Copy)]
pub enum Asked {
    Storm { plan: StormPlan, whole: bool },
    Host(HostPlan),
    Load(LoadPlan),
}

/// The plan that a line's words say.
pub fn read_plan(words: &[&str]) -> Result<Asked, BadPlan> {
    if words.len() == 3 && words[0] == "host" {
        return read_host(words[1], words[2]);
    }
    if words.len() == 6 && words[0] == "load" {
        return read_load(words);
    }
    read_storm(words)
}

// Rounds that are timed: five numbers behind the first word.
fn read_load(words: &[&str]) -> Result<Asked, BadPlan>
    requires { length words.now ≡ 6 }
{
    let pairs = number(words[1]).ok_or(BadPlan::Pairs)?;
    let threads = number(words[2]).ok_or(BadPlan::Threads)?;
    let rounds = number(words[3]).ok_or(BadPlan::Rounds)?;
    let entries = number(words[4]).ok_or(BadPlan::Entries)?;
    let warm = number(words[5]).ok_or(BadPlan::Warm)?;
    if pairs > 64 {
        return Err(BadPlan::Pairs);
    }
    if threads == 0 {
        return Err(BadPlan::Threads);
    }
    if warm > 1 {
        return Err(BadPlan::Warm);
    }
    Ok(Asked::Load(LoadPlan {
        pairs,
        threads,
        rounds,
        entries,
        warm: warm == 1,
    }))
}

// A host, by its two numbers.
fn read_host(pairs: &str, threads: &str) -> Result<Asked, BadPlan> {
    let pairs = number(pairs).ok_or(BadPlan::Pairs)?;
    let threads = number(threads).ok_or(BadPlan::Threads)?;
    if pairs == 0 || pairs > 65536 {
        return Err(BadPlan::Pairs);
    }
    if threads < 2 || threads > 16 {
        return Err(BadPlan::Threads);
    }
    Ok(Asked::Host(HostPlan { pairs, threads }))
}

// A storm: four numbers, with the word `report` behind them or none.
fn read_storm(words: &[&str]) -> Result<Asked, BadPlan> {
    let whole = match words.len() {
        4 => false,
        5 if words[4] == "report" => true,
        _ => return Err(BadPlan::Words),
    };
    let pairs = number(words[0]).ok_or(BadPlan::Pairs)?;
    let threads = number(words[1]).ok_or(BadPlan::Threads)?;
    let calls = number(words[2]).ok_or(BadPlan::Calls)?;
    let Ok(seed) = words[3].parse::<u64>() else {
        return Err(BadPlan::Seed);
    };
    if pairs == 0 || pairs > 64 {
        return Err(BadPlan::Pairs);
    }
    if threads < 2 || threads > 16 {
        return Err(BadPlan::Threads);
    }
    if calls > 65536 {
        return Err(BadPlan::Calls);
    }
    let plan = StormPlan {
        pairs,
        threads,
        calls,
        seed,
    };
    Ok(Asked::Storm { plan, whole })
}

// The number that a word spells.
fn number(word: &str) -> Option<u32> {
    word.parse::<u32>().ok()
}
