//! The ends of a storm's threads, each with what its thread counts of its own calls.

ghost use Rattle.std.specs.Prelude.{◌≡◌, IfOk};
ghost use Rattle.strm_locks.specs.Systems.{IsOne};
ghost use Rattle.strm_storm.specs.Storms.{AreHands};

use super::random::event_of;
use crate::ends::{halves, joined};
use std::alloc::{AllocError, Global};
use std::sync::Wait;
use strm_locks::{Each, Object, PairEnd, Settled, System, Told};
use strm_types::{Answer, Content, Event, Ledger, NoMemory, Refusal, Side};

/// An end, and what its holder counted of its own calls by it.
#[derive(Drop)]
pub(crate) struct Hand<P: Object> {
    pub end: PairEnd<P>,
    pub own: Told,
}

// So many bytes, of what a side writes.
fn sent(side: Side, bytes: u64) -> Each {
    match side {
        Side::Master => Each {
            from_master: bytes,
            from_slave: 0,
        },
        Side::Slave => Each {
            from_master: 0,
            from_slave: bytes,
        },
    }
}

fn both(one: &Each, two: &Each) -> Each {
    Each {
        from_master: one.from_master.saturating_add(two.from_master),
        from_slave: one.from_slave.saturating_add(two.from_slave),
    }
}

fn together(one: &Told, two: &Told) -> Told {
    Told {
        calls: one.calls.saturating_add(two.calls),
        written: both(&one.written, &two.written),
        read: both(&one.read, &two.read),
    }
}

// What a call by a side that was answered so is counted as.
fn noted(side: Side, answer: &Answer<u32>) -> Told {
    let (written, read) = match answer {
        Answer::Count(n) => (*n as u64, 0),
        Answer::Bytes(n) => (0, *n as u64),
        _ => (0, 0),
    };
    Told {
        calls: 1,
        written: sent(side, written),
        read: sent(side.other(), read),
    }
}

impl<P: Object> Hand<P> {
    /// A hand that counted nothing.
    pub fn new(end: PairEnd<P>) -> Hand<P>
        ensures { result.end ≡ end }
    {
        Hand {
            end,
            own: Told::nothing(),
        }
    }

    // Makes a call. One that is granted is counted.
    fn make<R: Wait>(
        &mut self,
        rt: &R,
        system: &System<P>,
        event: &Event<&[u8]>,
    ) -> Result<(), Refusal>
        requires { IsOne system.now self.old.end }
        ensures { IsOne system.now self.new.end }
    {
        let answer = system.call(rt, &mut self.end, event, &mut Content::new())?;
        let side = self.end.end().caller().side;
        self.own = together(&self.own, &noted(side, &answer));
        Ok(())
    }

    /// Makes the call that a number picks, or cuts the pair. A call that is granted is counted.
    pub fn call<R: Wait>(
        &mut self,
        rt: &R,
        alloc: Global,
        system: &System<P>,
        number: u64,
    ) -> Result<(), Refusal>
        requires { IsOne system.now self.old.end }
        ensures { IsOne system.now self.new.end }
    {
        let Some(event) = event_of(number) else {
            return match system.cut(rt, alloc, &self.end).trace {
                Ok(_) => Ok(()),
                Err(NoMemory) => Err(Refusal::NoMemory),
            };
        };
        self.make(rt, system, &event)
    }

    /// Cuts the end in two. The first keeps what was counted. An end of one part can't be cut.
    pub fn split(self, system: &System<P>) -> Result<(Hand<P>, Hand<P>), AllocError>
        requires { IsOne system.now self.end }
        ensures { IfOk result (λ two. IsOne system.now two.0.end × IsOne system.now two.1.end) }
    {
        let Hand { end, own } = self;
        let (end, other) = halves(system, end).ok_or(AllocError)?;
        Ok((Hand { end, own }, Hand::new(other)))
    }

    /// One hand of two of a pair. Those of two pairs can't be joined.
    pub fn joined(self, system: &System<P>, other: Hand<P>) -> Result<Hand<P>, AllocError>
        requires one { IsOne system.now self.end }
        requires two { IsOne system.now other.end }
        ensures { IfOk result (λ h. IsOne system.now h.end) }
    {
        let Hand { end, own } = self;
        let Hand {
            end: rest,
            own: more,
        } = other;
        let end = joined(system, end, rest).ok_or(AllocError)?;
        let own = together(&own, &more);
        Ok(Hand { end, own })
    }

    /// Whether the pair is settled, its ends were told what was counted, and both ledgers balance.
    pub fn settles<R: Wait>(self, rt: &R, system: &System<P>) -> bool
        requires { IsOne system.now self.end }
    {
        let Hand { end, own } = self;
        match system.settle(rt, end) {
            Ok((closed, _minor)) => agrees(&closed.settled, &own),
            Err(_) => false,
        }
    }
}

fn same(one: &Each, two: &Each) -> bool {
    one.from_master == two.from_master && one.from_slave == two.from_slave
}

// Whether all bytes of a ledger are somewhere. No sum of 23 numbers of 64 bits saturates one of 128.
fn balances(ledger: &Ledger) -> bool {
    let mut there = ledger.queued as u128 + ledger.inline as u128;
    for gone in ledger.fates {
        there = there.saturating_add(gone as u128);
    }
    ledger.written as u128 + ledger.made as u128 == there
}

fn agrees(settled: &Settled, own: &Told) -> bool {
    let told = &settled.told;
    told.calls == own.calls
        && same(&told.written, &own.written)
        && same(&told.read, &own.read)
        && balances(&settled.ms)
        && balances(&settled.sm)
}

/// Whether each pair is settled, its ends were told what was counted, and its ledgers balance.
pub(crate) fn all_settle<P: Object, R: Wait>(
    rt: &R,
    system: &System<P>,
    hands: Vec<Hand<P>>,
) -> bool
    requires { AreHands system.now hands.items }
{
    let mut all = true;
    for hand in hands {
        if !hand.settles(rt, system) {
            all = false;
        }
    }
    all
}

/// One hand for each pair, of those of two threads. Those of other pairs can't be joined.
pub(crate) fn gathered<P: Object>(
    alloc: Global,
    system: &System<P>,
    first: Vec<Hand<P>>,
    second: Vec<Hand<P>>,
) -> Result<Vec<Hand<P>>, AllocError>
    requires one { AreHands system.now first.items }
    requires two { AreHands system.now second.items }
    ensures { IfOk result (λ v. AreHands system.now v.items) }
{
    let mut all = Vec::with_capacity(alloc, first.len())?;
    let mut rest = second.into_iter();
    for hand in first {
        let Some(other) = rest.next() else {
            return Err(AllocError);
        };
        let one = hand.joined(system, other)?;
        all.push(one)?;
    }
    Ok(all)
}
