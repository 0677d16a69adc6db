//! Where all memory is taken: whatever asks for more is refused by name, and goes well once there is some. No allocator that counts can stand in a
//! system, which is made with `Global`.

ghost use Rattle.strm_minors.specs.Openers.{IsOf};
ghost use Rattle.strm_locks.specs.Systems.{IsOne};

use crate::steps::{cut, opened, settled, writes};
use std::alloc::{AllocError, Global};
use std::process::Abort;
use std::sync::Wait;
use std::test::Fail;
use strm_locks::{Object, PairEnd, System};
use strm_minors::Opener;
use strm_system::{Fresh, host, system};
use strm_trials::memory::all_memory;
use strm_types::{Config, Refusal};

// One of the least pairs that do anything.
const LEAST: Config = Config {
    mblks: 1,
    dblks: 1,
    journal_events: 1,
    journal_bytes: 1,
};

// Why no system is made of two of the least pairs.
fn no_system<P: Fresh>(alloc: Global) -> Option<Refusal> {
    system::<P>(alloc, 2, LEAST).err()
}

// Why no host is made of a hundred of the least pairs.
fn no_host<P: Fresh>(alloc: Global) -> Option<Refusal> {
    host::<P>(alloc, 100, LEAST).err()
}

// Why neither is.
fn refused<P: Fresh>(alloc: Global) -> (Option<Refusal>, Option<Refusal>) {
    let system = no_system::<P>(alloc);
    (system, no_host::<P>(alloc))
}

// Whether both are refused for want of memory.
fn are_by_name<P: Fresh>(alloc: Global) -> bool {
    let (system, host) = refused::<P>(alloc);
    system == Some(Refusal::NoMemory) && host == Some(Refusal::NoMemory)
}

// Whether neither is refused.
fn are_made<P: Fresh>(alloc: Global) -> bool {
    let (system, host) = refused::<P>(alloc);
    system.is_none() && host.is_none()
}

fn has_crew<P: Object>(system: &System<P>, alloc: Global) -> bool {
    system.crew(alloc, 3).is_ok()
}

// Whether a cut, workers, a system and a host are refused by name, and a write isn't.
fn are_refused<P: Fresh, R: Wait>(
    rt: &R,
    alloc: Global,
    system: &System<P>,
    master: &mut PairEnd<P>,
) -> bool
    requires { IsOne system.now master.old }
    ensures { IsOne system.now master.new }
{
    let was_cut = cut(rt, alloc, system, master).is_some();
    let has_crew = has_crew(system, alloc);
    let by_name = are_by_name::<P>(alloc);
    let wrote = writes(rt, system, master, b"abc");
    wrote && !was_cut && !has_crew && by_name
}

// Whether none of them is.
fn are_had<P: Fresh, R: Wait>(
    rt: &R,
    alloc: Global,
    system: &System<P>,
    master: &PairEnd<P>,
) -> bool
    requires { IsOne system.now master.now }
{
    let was_cut = cut(rt, alloc, system, master).is_some();
    let are_made = are_made::<P>(alloc);
    was_cut && has_crew(system, alloc) && are_made
}

// Where all memory is taken nothing is made that asks for it, and a write goes well; once it was given back, all is.
fn is_short_for<P: Fresh, R: Wait + Abort>(
    rt: &R,
    alloc: Global,
    system: &System<P>,
    master: &mut PairEnd<P>,
) -> Result<(), AllocError>
    requires { IsOne system.now master.old }
    ensures { IsOne system.now master.new }
{
    // (where all addresses are taken the stack can't grow, so all of it is asked for before)
    assert!(rt; are_had(rt, alloc, system, master));
    let taken = all_memory(alloc)?;
    let are_short = are_refused(rt, alloc, system, master);
    drop(taken);
    assert!(rt; are_short);
    assert!(rt; are_had(rt, alloc, system, master));
    Ok(())
}

// The same of a pair that is opened here, whose ends are told four calls.
pub(crate) fn is_short<P: Fresh, R: Wait + Abort>(
    rt: &R,
    alloc: Global,
    system: &System<P>,
    opener: &mut Opener,
) -> Result<(), Fail>
    requires { IsOf system.now.minors opener.old }
{
    let (mut master, slave) = opened(rt, system, opener);
    is_short_for(rt, alloc, system, &mut master)?;
    assert!(rt; settled(rt, system, master, slave).told.calls == 4);
    Ok(())
}
