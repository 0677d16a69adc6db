//! A server: on each of eight pairs a thread has the master's end, and another the slave's.

ghost use Rattle.std.specs.Prelude.{◌<◌, IfOk, length};
ghost use Rattle.strm_minors.specs.Openers.{IsOf};
ghost use Rattle.strm_locks.specs.Systems.{IsOne};

use crate::steps::{claimed, joined, makes, told, turn, writes};
use std::process::Abort;
use std::sync::Wait;
use std::test::Fail;
use std::thread::{Threads, join};
use strm_locks::{Object, PairEnd, System};
use strm_minors::{Minor, Opener};
use strm_types::{Content, Event, Refusal};

// The master's thread writes a greeting.
fn greet<P: Object, R: Wait>(rt: &R, system: &System<P>, end: PairEnd<P>) -> PairEnd<P>
    requires { IsOne system.now end }
    ensures { IsOne system.now result }
{
    let mut end = end;
    let _ = writes(rt, system, &mut end, b"login: ");
    end
}

// The slave's thread makes turns and reads, until it has the greeting.
fn listen<P: Object, R: Wait>(rt: &R, system: &System<P>, end: PairEnd<P>) -> PairEnd<P>
    requires { IsOne system.now end }
    ensures { IsOne system.now result }
{
    let mut end = end;
    for _ in rt.forever() {
        if told(&end).read.from_master == 7 {
            return end;
        }
        turn(rt, system, &end);
        let _ = makes(rt, system, &mut end, &Event::Read { n: 64 });
    }
    unreachable!()
}

// Gives each end to a thread, and joins them again.
fn talk<P: Object + Send, R: Threads + Wait + Sync>(
    rt: &R,
    system: &System<P>,
    master: PairEnd<P>,
    slave: PairEnd<P>,
) -> Result<PairEnd<P>, Refusal>
    requires master { IsOne system.now master }
    requires slave { IsOne system.now slave }
    ensures { IfOk result (λ end. IsOne system.now end) }
{
    let (master, slave) = join(
        rt,
        || -> PairEnd<P>
            requires { IsOne system.now master }
            ensures { IsOne system.entry.now result }
        { greet(rt, system, master) },
        || -> PairEnd<P>
            requires { IsOne system.now slave }
            ensures { IsOne system.entry.now result }
        { listen(rt, system, slave) },
    );
    match joined(system, master, slave) {
        Some(both) => Ok(both),
        None => Err(Refusal::StillShared),
    }
}

// Opens a pair, gives its ends to two threads, and settles it: how many calls they made, and the minor.
fn serve<P: Object + Send, R: Threads + Wait + Sync>(
    rt: &R,
    system: &System<P>,
    minor: Minor,
) -> Result<(u64, Minor), Refusal>
    requires { minor < length system.now.locks }
{
    let mut master = match system.open(rt, minor) {
        Ok(end) => end,
        Err((why, _minor)) => return Err(why.refusal),
    };
    system.call(rt, &mut master, &Event::Unlock, &mut Content::new())?;
    let slave = system.open_slave(rt, &mut master)?;
    let both = talk(rt, system, master, slave)?;
    match system.settle(rt, both) {
        Ok((closed, minor)) => Ok((closed.settled.told.calls, minor)),
        Err(_) => Err(Refusal::StillShared),
    }
}

// Serves eight pairs, one after the other.
pub(crate) fn serves_eight<P: Object + Send, R: Threads + Wait + Sync + Abort>(
    rt: &R,
    system: &System<P>,
    opener: &mut Opener,
) -> Result<(), Fail>
    requires { IsOf system.now.minors opener.old }
{
    for _ in 0..8 {
        let minor = claimed(rt, system, opener);
        let (calls, _minor) = serve(rt, system, minor)?;
        assert!(rt; calls >= 5);
    }
    Ok(())
}
