//! An end of a pair: the share of it that a thread holds.

ghost use Rattle.std.specs.Prelude.{◌≡◌};

use crate::object::Object;
use crate::rule::Place;
use crate::told::Told;
use std::marker::Model;
use strm_types::Caller;
use thiserror::Error;

/// How many parts a pair has: 2^63. The end that opens it has all of them.
pub const ALL_PARTS: u64 = 9223372036854775808;

/// Another end has a part of the pair, or one was dropped with it.
#[derive(Clone, Copy, Debug, Error)]
#[error("another end still has a share of the pair")]
pub struct StillShared;

/// A share of a pair that a thread holds: it calls as one side, and is told what its own calls did. `Lock::open` makes the first of a pair,
/// `open_slave` and `split_end` make more, `join_ends` makes one of two.
///
/// It may be sent to another thread. One that is dropped takes its parts with it: the pair is never settled then.
///
/// Contracts see which lock it is of, whom it calls as, what it was told, the entries of its calls, its parts, and the pairs that its calls met:
/// each as the call found it, and as it left it.
#[derive(Drop)]
pub struct End<P: Object> {
    pub(crate) seat: Place<P>,
    pub(crate) caller: Caller,
    pub(crate) told: Told,
    pub(crate) parts: u64,
}

impl<P: Object> Model for End<P> {
    ghost use Rattle.strm_locks.specs.Ends.{Share};
    ghost use Rattle.strm_locks.specs.Shares.{IsSeated, lock_of};

    ghost Value = { Share };

    ghost view = { λ e. record {
      lock = lock_of e.seat;
      caller = e.caller;
      told = e.told;
      made = e.seat.me.0.made;
      parts = e.parts;
      met = e.seat.me.0.met;
    } };

    ghost invariant = { λ e. IsSeated e.seat.me e.told e.parts };
}

impl<P: Object> End<P> {
    ghost use Rattle.strm_locks.specs.Ends.{grouped_end};

    /// Whom it calls as.
    pub fn caller(&self) -> Caller
        ensures { result ≡ self.now.caller }
    {
        self.caller
    }

    /// Sets who makes the end's later calls (POSIX, General Terminal Interface: Process Groups): a process of this group, 0 for none; whether
    /// it ignores or blocks SIGTTIN and SIGTTOU; and whether its group is orphaned. A server calls it where a job comes into the foreground or
    /// leaves it. It takes no lock and waits for nothing. The side stays, and so does what the end was told and its parts.
    pub fn set_group(&mut self, group: u32, ignores: bool, orphaned: bool)
        ensures { self.new ≡ grouped_end group ignores orphaned self.old }
    {
        self.caller = Caller {
            group,
            ignores,
            orphaned,
            ..self.caller
        };
    }

    /// What its calls were, wrote and read, with those of the ends that were joined to it.
    pub fn told(&self) -> Told
        ensures { result ≡ self.now.told }
    {
        self.told
    }

    /// How many parts of the pair it has, 1 at least.
    pub fn parts(&self) -> u64
        ensures { result ≡ self.now.parts }
    {
        self.parts
    }
}
