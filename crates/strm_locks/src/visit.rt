//! A visit to a pair, which makes a turn under its lock, begins its journal anew, cuts it, settles it, or finds that it doesn't open.

ghost use Rattle.std.specs.Prelude.{◌≡◌};

use crate::held::{Made, Settled};
use crate::object::Object;
use crate::rule::Place;
use std::marker::Model;
use strm_image::Trace;
use strm_types::{NoMemory, Refusal};

/// A seat that was told nothing, by which visits are made. Contracts see its lock, and the pairs that it met.
#[derive(Drop)]
pub(crate) struct Post<P: Object> {
    pub(crate) seat: Place<P>,
}

impl<P: Object> Model for Post<P> {
    ghost use Rattle.strm_locks.specs.Shares.{IsPosted, lock_of};
    ghost use Rattle.strm_locks.specs.Turns.{Posted};

    ghost Value = { Posted };

    ghost view = { λ p. record { lock = lock_of p.seat; met = p.seat.me.0.met } };

    ghost invariant = { λ p. IsPosted p.seat.me };
}

/// What a visit to a pair was: the seat that had the lock, and the turn that it made there, if it made one. No end was told of it: a turn writes
/// and reads nothing, and nor does who begins the journal anew or cuts it.
///
/// Contracts see which lock it had, the pair as it found it and as it left it, and the turn. No program reads the two pairs.
pub struct Visit<P: Object> {
    pub(crate) seat: Place<P>,
    pub(crate) made: Option<Made>,
}

// Of its own, so that who owns one doesn't take it apart at each way out.
impl<P: Object> Drop for Visit<P> {
    fn drop(self) {
        let Visit { seat: _, made: _ } = self;
    }
}

impl<P: Object> Model for Visit<P> {
    ghost use Rattle.strm_locks.specs.Shares.{lock_of};
    ghost use Rattle.strm_locks.specs.Turns.{Visited};

    ghost Value = { Visited };

    ghost view = { λ v. record { lock = lock_of v.seat; met = v.seat.me.0.met; made = v.made } };
}

impl<P: Object> Visit<P> {
    pub(crate) fn of(post: Post<P>, made: Option<Made>) -> Visit<P>
        ensures { result ≡ record { lock = post.lock; met = post.met; made = made } }
    {
        let Post { seat } = post;
        Visit { seat, made }
    }

    /// The turn, if a queue was enabled.
    pub fn made(&self) -> Option<Made>
        ensures { result ≡ self.now.made }
    {
        self.made
    }
}

/// Why a pair wasn't opened, and the visit that found it so, and left it so.
#[derive(Drop)]
pub struct NotOpened<P: Object> {
    pub refusal: Refusal,
    pub visit: Visit<P>,
}

/// A pair that was settled: what was told in all, and the visit, by the end's own seat, that left the pair as new.
#[derive(Drop)]
pub struct Closed<P: Object> {
    pub settled: Settled,
    pub visit: Visit<P>,
}

/// A cut of a pair: the visit that made it, and the trace that the pair handed out, unless memory was refused.
#[derive(Drop)]
pub struct Cut<P: Object> {
    pub visit: Visit<P>,
    pub trace: Result<Trace, NoMemory>,
}
