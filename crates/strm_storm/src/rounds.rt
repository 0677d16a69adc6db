//! A round at one pair of a host: it is claimed, opened, written, read and settled.

ghost use Rattle.std.specs.Prelude.{◌≡◌, ◌<◌, IfOk, OnOk, length};
ghost use Rattle.strm_system.specs.Hosts.{AreOf, Claims};
ghost use Rattle.strm_locks.specs.Systems.{IsOne};
ghost use Rattle.strm_storm.specs.Rounds.{AreOpened, Asks, IsRoundAt, IsRoundOf, Settles, reading, writing};

use crate::ends::{Ends, opened};
use std::sync::Wait;
use strm_locks::{Closed, Object, PairEnd, System};
use strm_minors::Minor;
use strm_system::{Host, HostMinor, HostOpener};
use strm_types::{Answer, Content, Event, Refusal};

/// A pair of a host that was claimed, opened, written, read and settled: its minor, and what was told in all where it settled.
#[derive(Drop)]
pub struct Round<P: Object> {
    pub minor: HostMinor,
    pub closed: Closed<P>,
}

// Writes three bytes. That fewer are taken counts as EAGAIN.
fn write<P: Object, R: Wait>(
    rt: &R,
    system: &System<P>,
    end: &mut PairEnd<P>,
) -> Result<(), Refusal>
    requires { IsOne system.now end.old }
    ensures one { IsOne system.now end.new }
    ensures asks { OnOk result (Asks end.old end.new (writing end.old.end.caller)) }
{
    let bytes = b"abc".as_slice();
    match system.call(rt, end, &Event::Write { bytes }, &mut Content::new())? {
        Answer::Count(3) => Ok(()),
        _ => Err(Refusal::Eagain),
    }
}

// Reads these three bytes. That there are others counts as EAGAIN.
fn read<P: Object, R: Wait>(rt: &R, system: &System<P>, end: &mut PairEnd<P>) -> Result<(), Refusal>
    requires { IsOne system.now end.old }
    ensures one { IsOne system.now end.new }
    ensures asks { OnOk result (Asks end.old end.new (reading end.old.end.caller)) }
{
    let mut out = Content::new();
    let answer = system.call(rt, end, &Event::Read { n: 16 }, &mut out)?;
    if matches!(answer, Answer::Bytes(3)) && out.as_slice() == b"abc".as_slice() {
        Ok(())
    } else {
        Err(Refusal::Eagain)
    }
}

// Settles the pair of two ends.
fn settled<P: Object, R: Wait>(
    rt: &R,
    system: &System<P>,
    master: PairEnd<P>,
    slave: PairEnd<P>,
) -> Result<(Closed<P>, Minor), Refusal>
    requires master { IsOne system.now master }
    requires slave { IsOne system.now slave }
    ensures { IfOk result (λ r. (r.1 ≡ master.pair) × Settles system.now master slave r.0.settled r.0.visit) }
{
    let Ok(both) = system.join_ends(master, slave) else {
        return Err(Refusal::StillShared);
    };
    match system.settle(rt, both) {
        Ok(closed) => Ok(closed),
        Err(_) => Err(Refusal::StillShared),
    }
}

// Opens the pair of a minor, writes there, makes the turn that carries the bytes, reads them, and settles the pair.
fn serve<P: Object, R: Wait>(
    rt: &R,
    system: &System<P>,
    minor: Minor,
) -> Result<(Closed<P>, Minor), Refusal>
    requires { minor < length system.now.locks }
    ensures { IfOk result (λ r. (r.1 ≡ minor) × IsRoundAt system.now minor r.0.settled r.0.visit) }
{
    let Ends {
        mut master,
        mut slave,
    } = opened(rt, system, minor)?;
    write(rt, system, &mut master)?;
    system.turn(rt, master.pair());
    read(rt, system, &mut slave)?;
    settled(rt, system, master, slave)
}

/// Claims a minor of a host, and makes a round there. It is refused by NoMinor, and as the pair refuses a call.
pub fn next_round<P: Object, R: Wait>(
    rt: &R,
    host: &Host<P>,
    opener: &mut HostOpener,
) -> Result<Round<P>, Refusal>
    requires { AreOf host.now opener.old }
    ensures own { AreOf host.now opener.new }
    ensures round { IfOk result (IsRoundOf host.now) }
    ensures claimed { IfOk result (λ r. Claims host.now opener.old r.minor.system r.minor.minor opener.new) }
{
    let Ok(claimed) = host.claim(opener) else {
        return Err(Refusal::NoMinor);
    };
    let HostMinor { system, minor } = claimed;
    let (closed, minor) = serve(rt, host.at(system), minor)?;
    let minor = HostMinor { system, minor };
    Ok(Round { minor, closed })
}
