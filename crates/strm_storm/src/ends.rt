//! The ends of a pair: both are opened, cut in two, and joined.

ghost use Rattle.std.specs.Prelude.{◌<◌, IfOk, IfSome, length};
ghost use Rattle.strm_locks.specs.Systems.{IsOne};
ghost use Rattle.strm_storm.specs.Rounds.{AreEnds, AreOpened};

use std::sync::Wait;
use strm_locks::{Object, PairEnd, System};
use strm_minors::Minor;
use strm_types::{Content, Event, Refusal};

/// An end of each side of a pair.
#[derive(Drop)]
pub struct Ends<P: Object> {
    pub master: PairEnd<P>,
    pub slave: PairEnd<P>,
}

/// Both ends of the pair of a minor, which is unlocked.
pub(crate) fn opened<P: Object, R: Wait>(
    rt: &R,
    system: &System<P>,
    minor: Minor,
) -> Result<Ends<P>, Refusal>
    requires { minor < length system.now.locks }
    ensures { IfOk result (λ ends. AreOpened system.now minor ends.master ends.slave) }
{
    let mut master = match system.open(rt, minor) {
        Ok(end) => end,
        Err((why, _minor)) => return Err(why.refusal),
    };
    system.call(rt, &mut master, &Event::Unlock, &mut Content::new())?;
    let slave = system.open_slave(rt, &mut master)?;
    Ok(Ends { master, slave })
}

/// Both halves of an end. One that has one part isn't cut.
pub(crate) fn halves<P: Object>(
    system: &System<P>,
    end: PairEnd<P>,
) -> Option<(PairEnd<P>, PairEnd<P>)>
    requires { IsOne system.now end }
    ensures { IfSome result (λ two. IsOne system.now two.0 × IsOne system.now two.1) }
{
    system.split_end(end).ok()
}

/// One end of two. Those of two pairs aren't joined.
pub(crate) fn joined<P: Object>(
    system: &System<P>,
    first: PairEnd<P>,
    second: PairEnd<P>,
) -> Option<PairEnd<P>>
    requires first { IsOne system.now first }
    requires second { IsOne system.now second }
    ensures { IfSome result (λ e. IsOne system.now e) }
{
    system.join_ends(first, second).ok()
}

impl<P: Object> Ends<P> {
    /// Half of each end, and the other halves.
    pub fn split(self, system: &System<P>) -> Option<(Ends<P>, Ends<P>)>
        requires { AreEnds system.now self }
        ensures { IfSome result (λ two. AreEnds system.now two.0 × AreEnds system.now two.1) }
    {
        let Ends { master, slave } = self;
        let (master, more_master) = halves(system, master)?;
        let (slave, more_slave) = halves(system, slave)?;
        let rest = Ends {
            master: more_master,
            slave: more_slave,
        };
        Some((Ends { master, slave }, rest))
    }
}
