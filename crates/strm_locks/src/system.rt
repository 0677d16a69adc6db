//! Pairs that threads share, a lock each, and the numbers by which they are opened.

ghost use Rattle.std.specs.Prelude.{◌≡◌, ◌≢◌, ◌<◌, ◌≤◌, ◌⊎◌, All, Some, IfOk, OnErr, MatchResult, length, map, slice_get};
ghost use Rattle.strm_types.specs.Events.{request};
ghost use Rattle.strm_minors.specs.Openers.{Gains, Holds, Loses, Unites, opening, past};
ghost use Rattle.strm_minors.specs.Openers as minors;
ghost use Rattle.strm_locks.specs.Books.{IsNew};
ghost use Rattle.strm_locks.specs.Ends.{Calls, CallsSlave, IsOpened, Splits, grouped_end};
ghost use Rattle.strm_locks.specs.Settles.{IsSettled};
ghost use Rattle.strm_locks.specs.Systems.{IsOne, joined_ends, numbered};
ghost use Rattle.strm_locks.specs.Turns.{IsCut, IsRefusedOpen, IsRestart, IsVisit};

mod tries;

use crate::end::{ALL_PARTS, End, StillShared};
use crate::held::Held;
use crate::lock::Lock;
use crate::object::Object;
use crate::visit::{Closed, Cut, NotOpened, Visit};
use std::alloc::{AllocError, Global};
use std::marker::Model;
use std::sync::Wait;
use strm_minors::{Minor, Minors, NoMinor, Opener};
use strm_types::{Answer, Content, Event, Refusal};

/// Up to 64 pairs, each under a lock of its own, and their minor numbers. Threads share it by a `&`. No lock is round the whole: calls on
/// different pairs don't wait for each other, and numbers are claimed without a lock.
///
/// Contracts see the lock of each pair, by its number, and the minors.
pub struct System<P: Object> {
    locks: Vec<Lock<P>>,
    minors: Minors,
}

// Of its own, so that who owns one doesn't take it apart at each way out.
impl<P: Object> Drop for System<P> {
    fn drop(self) {
        let System {
            locks: _,
            minors: _,
        } = self;
    }
}

impl<P: Object> Model for System<P> {
    ghost use Rattle.std.specs.Prelude.{◌≡◌, ◌≤◌, length};
    ghost use Rattle.strm_locks.specs.Systems.{Plan};

    ghost Value = { Plan };

    ghost view = { λ s. record { locks = s.locks.items; minors = s.minors } };

    ghost invariant = { λ s. (s.minors.pairs ≡ length s.locks.items) × (length s.locks.items ≤ 64) };
}

/// An end of one of a system's pairs, with the pair's number, and with the minor by which the pair was opened: the end that opened it has that,
/// the first of two that it is cut in, and one that is joined of such. One that is handed in is of that system.
#[derive(Drop)]
pub struct PairEnd<P: Object> {
    pair: u32,
    end: End<P>,
    minor: Option<Minor>,
}

impl<P: Object> Model for PairEnd<P> {
    ghost use Rattle.std.specs.Prelude.{◌≡◌, IfSome};
    ghost use Rattle.strm_locks.specs.Systems.{Numbered};

    ghost Value = { Numbered };

    ghost view = { λ e. record { pair = e.pair; end = e.end; minor = e.minor } };

    ghost invariant = { λ e. IfSome e.minor (λ minor. minor ≡ e.pair) };
}

impl<P: Object> PairEnd<P> {
    /// The number of its pair: that of its minor.
    pub fn pair(&self) -> u32
        ensures { result ≡ self.now.pair }
    {
        self.pair
    }

    /// The end, which tells whom it calls as, what it was told, and its parts.
    pub fn end(&self) -> &End<P>
        ensures { result.now ≡ self.now.end }
    {
        &self.end
    }

    /// Sets who makes the end's later calls, as [`End::set_group`] does.
    pub fn set_group(&mut self, group: u32, ignores: bool, orphaned: bool)
        ensures { self.new ≡ numbered self.old.pair self.old.minor (grouped_end group ignores orphaned self.old.end) }
    {
        self.end.set_group(group, ignores, orphaned);
    }
}

// The locks of pairs that nobody opened.
fn locked<P: Object>(alloc: Global, pairs: Vec<P>) -> Result<Vec<Lock<P>>, AllocError>
    requires { All (λ p. IsNew (P.pair_of p)) pairs.items }
    ensures { IfOk result (λ v. map (λ l. l.sizes) v.items ≡ map (λ p. (P.pair_of p).limits) pairs.items) }
{
    let mut locks = Vec::with_capacity(alloc, pairs.len())?;
    for pair in pairs {
        let held = Held::new(pair);
        let lock = Lock::new(alloc, held)?;
        locks.push(lock)?;
    }
    Ok(locks)
}

impl<P: Object> System<P> {
    /// A system of pairs that nobody opened, at most 64, and the first opener of its minors, which holds none. The lock of each number has the
    /// pair of that number, by its sizes: pairs that nobody opened differ in no more. It is refused for want of memory alone, and no later call
    /// takes any.
    pub fn new(alloc: Global, pairs: Vec<P>) -> Result<(System<P>, Opener), AllocError>
        requires new { All (λ p. IsNew (P.pair_of p)) pairs.items }
        requires few { length pairs.items ≤ 64 }
        ensures pairs { IfOk result (λ made. map (λ l. l.sizes) made.0.locks ≡ map (λ p. (P.pair_of p).limits) pairs.items) }
        ensures opener { IfOk result (λ made. made.1 ≡ opening made.0.minors) }
    {
        let (minors, opener) = Minors::new(alloc, pairs.len() as u32)?;
        let locks = locked(alloc, pairs)?;
        Ok((System { locks, minors }, opener))
    }

    /// How many pairs it has.
    pub fn pairs(&self) -> u32
        ensures value { result ≡ length self.now.locks }
        ensures at_most { result ≤ 64 }
    {
        self.locks.len() as u32
    }

    /// Claims a minor, as [`Minors::claim`] does: it is the number of a pair.
    pub fn claim(&self, opener: &mut Opener) -> Result<Minor, NoMinor>
        requires { minors.IsOf self.now.minors opener.old }
        ensures within { IfOk result (λ minor. minor < length self.now.locks) }
        ensures claimed { IfOk result (λ minor. Gains (past minor opener.old) opener.new minor) }
        ensures none { OnErr result (opener.new ≡ past (length self.now.locks) opener.old) }
    {
        self.minors.claim(opener)
    }

    /// Releases a minor that the opener holds, as [`Minors::release`] does. That of a pair which is open can't be: an end has it.
    pub fn release(&self, opener: &mut Opener, minor: Minor)
        requires own { minors.IsOf self.now.minors opener.old }
        requires held { Holds opener.old minor }
        ensures { Loses opener.old opener.new minor }
    {
        self.minors.release(opener, minor);
    }

    /// The opener as it was, and a second one, which holds no minor: one for each thread that claims.
    pub fn split_opener(&self, opener: Opener) -> (Opener, Opener)
        requires { minors.IsOf self.now.minors opener }
        ensures first { result.0 ≡ opener }
        ensures second { result.1 ≡ opening self.now.minors }
    {
        self.minors.split_opener(opener)
    }

    /// One opener of two, which holds the minors of both.
    pub fn join_openers(&self, first: Opener, second: Opener) -> Opener
        requires first { minors.IsOf self.now.minors first }
        requires second { minors.IsOf self.now.minors second }
        ensures { Unites first second result }
    {
        self.minors.join_openers(first, second)
    }

    // The lock of a pair.
    pub(crate) fn lock(&self, pair: u32) -> &Lock<P>
        requires { pair < length self.now.locks }
        ensures { slice_get self.now.locks pair ≡ Some result.now }
    {
        &self.locks[pair as usize]
    }

    /// Opens the master of a minor's pair, as [`Lock::open`] does. The end has the minor then, till it settles; where the pair isn't opened, the
    /// minor comes back.
    pub fn open<R: Wait>(&self, rt: &R, minor: Minor) -> Result<PairEnd<P>, (NotOpened<P>, Minor)>
        requires { minor < length self.now.locks }
        ensures { MatchResult result
            (λ e. (e.pair ≡ minor) × (e.minor ≡ Some minor) × IsOne self.now e × IsOpened e.end.lock e.end)
            (λ n. (n.1 ≡ minor) × (slice_get self.now.locks minor ≡ Some n.0.visit.lock) × IsRefusedOpen n.0.visit.lock n.0.visit n.0.refusal) }
    {
        let pair = minor.number();
        match self.lock(pair).open(rt) {
            Ok(end) => Ok(PairEnd {
                pair,
                end,
                minor: Some(minor),
            }),
            Err(why) => Err((why, minor)),
        }
    }

    /// Makes one call as the end does, as [`Lock::call`] does.
    pub fn call<R: Wait>(
        &self,
        rt: &R,
        end: &mut PairEnd<P>,
        event: &Event<&[u8]>,
        out: &mut Content,
    ) -> Result<Answer<u32>, Refusal>
        requires { IsOne self.now end.old }
        ensures pair { end.new.pair ≡ end.old.pair }
        ensures minor { end.new.minor ≡ end.old.minor }
        ensures one { IsOne self.now end.new }
        ensures told { Calls end.old.end (request event.now) out.old.items out.new.items result end.new.end }
    {
        self.lock(end.pair).call(rt, &mut end.end, event, out)
    }

    /// Opens the slave of the end's pair by a call of the end, as [`Lock::open_slave`] does.
    pub fn open_slave<R: Wait>(&self, rt: &R, end: &mut PairEnd<P>) -> Result<PairEnd<P>, Refusal>
        requires { IsOne self.now end.old }
        ensures pair { end.new.pair ≡ end.old.pair }
        ensures minor { end.new.minor ≡ end.old.minor }
        ensures one { IsOne self.now end.new }
        ensures slave { IfOk result (λ slave. IsOne self.now slave) }
        ensures opened { CallsSlave (numbered end.old.pair None) end.old.end result end.new.end }
    {
        match self.lock(end.pair).open_slave(rt, &mut end.end) {
            Err(refusal) => Err(refusal),
            Ok(slave) => Ok(PairEnd {
                pair: end.pair,
                end: slave,
                minor: None,
            }),
        }
    }

    /// Cuts an end in two, as [`Lock::split_end`] does: the first keeps the minor, if the end has it. An end of one part comes back.
    pub fn split_end(&self, end: PairEnd<P>) -> Result<(PairEnd<P>, PairEnd<P>), PairEnd<P>>
        requires { IsOne self.now end }
        ensures { Splits (numbered end.pair end.minor) (numbered end.pair None) end.end result }
    {
        let PairEnd { pair, end, minor } = end;
        match self.lock(pair).split_end(end) {
            Ok((first, second)) => Ok((
                PairEnd {
                    pair,
                    end: first,
                    minor,
                },
                PairEnd {
                    pair,
                    end: second,
                    minor: None,
                },
            )),
            Err(end) => Err(PairEnd { pair, end, minor }),
        }
    }

    /// One end of two of one pair, as [`Lock::join_ends`] does, with the minor, if one of them has it. Ends of two pairs come back.
    pub fn join_ends(
        &self,
        first: PairEnd<P>,
        second: PairEnd<P>,
    ) -> Result<PairEnd<P>, (PairEnd<P>, PairEnd<P>)>
        requires first { IsOne self.now first }
        requires second { IsOne self.now second }
        ensures { MatchResult result
            (λ e. (first.pair ≡ second.pair) × (e ≡ joined_ends first second))
            (λ r. (first.pair ≢ second.pair) × (r.0 ≡ first) × (r.1 ≡ second)) }
    {
        if first.pair != second.pair {
            return Err((first, second));
        }
        let PairEnd { pair, end, minor } = first;
        let PairEnd {
            pair: _,
            end: other,
            minor: rest,
        } = second;
        let end = self.lock(pair).join_ends(end, other);
        let minor = match minor {
            Some(minor) => Some(minor),
            None => rest,
        };
        Ok(PairEnd { pair, end, minor })
    }

    /// Settles the end's pair, as [`Lock::settle`] does, and gives the minor back, to be opened again or released. An end that lacks parts or
    /// the minor comes back.
    pub fn settle<R: Wait>(
        &self,
        rt: &R,
        end: PairEnd<P>,
    ) -> Result<(Closed<P>, Minor), (StillShared, PairEnd<P>)>
        requires { IsOne self.now end }
        ensures { MatchResult result
            (λ c. (end.end.parts ≡ ALL_PARTS) × (end.minor ≡ Some c.1) × (c.1 ≡ end.pair)
            × (slice_get self.now.locks end.pair ≡ Some c.0.visit.lock) × IsSettled end.end c.0.settled c.0.visit.met)
            (λ back. ((end.end.parts ≢ ALL_PARTS) ⊎ (end.minor ≡ None)) × (back.1 ≡ end)) }
    {
        let PairEnd { pair, end, minor } = end;
        let Some(minor) = minor else {
            let minor = None;
            return Err((StillShared, PairEnd { pair, end, minor }));
        };
        match self.lock(pair).settle(rt, end) {
            Ok(closed) => Ok((closed, minor)),
            Err((shared, end)) => {
                let minor = Some(minor);
                Err((shared, PairEnd { pair, end, minor }))
            }
        }
    }

    /// Begins the journal of an end's pair anew, as [`Lock::restart`] does.
    pub fn restart<R: Wait>(&self, rt: &R, end: &PairEnd<P>) -> Visit<P>
        requires { IsOne self.now end.now }
        ensures pair { slice_get self.now.locks end.now.pair ≡ Some result.lock }
        ensures made { IsRestart result.lock result }
    {
        self.lock(end.pair).restart(rt)
    }

    /// Cuts an end's pair, as [`Lock::cut`] does. What the end was told stays.
    pub fn cut<R: Wait>(&self, rt: &R, alloc: Global, end: &PairEnd<P>) -> Cut<P>
        requires { IsOne self.now end.now }
        ensures pair { slice_get self.now.locks end.now.pair ≡ Some result.visit.lock }
        ensures made { IsCut result.visit.lock result.visit result.trace }
    {
        self.lock(end.pair).cut(rt, alloc)
    }

    /// Makes a turn of the queue of a pair that was enabled first, as [`Lock::turn`] does.
    pub fn turn<R: Wait>(&self, rt: &R, pair: u32) -> Visit<P>
        requires { pair < length self.now.locks }
        ensures pair { slice_get self.now.locks pair ≡ Some result.lock }
        ensures made { IsVisit result.lock result }
    {
        self.lock(pair).turn(rt)
    }
}
