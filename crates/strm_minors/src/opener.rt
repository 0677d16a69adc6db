//! An opener, with the minors that it holds.

ghost use Rattle.std.specs.Prelude.{◌≡◌, IsTrue, ◌↔◌};
ghost use Rattle.strm_minors.specs.Openers.{Holds};

use crate::minor::Minor;
use crate::view::View;
use atomic_table::Seat;
use std::marker::Model;

/// The right to claim minors of a word, with those that it holds. A thread that claims has one of its own: `Minors::split_opener` makes a
/// second of one, and `Minors::join_openers` one of two.
///
/// It may be sent to another thread. One that is dropped holds its minors for good: nobody can claim them again.
///
/// Contracts see the set of its minors as a number with a bit for each, and beside it, in order, each minor that its claims found taken.
#[derive(Drop)]
pub struct Opener {
    pub(crate) seat: Seat<(), View>,
    pub(crate) held: u64,
}

impl Model for Opener {
    ghost use Rattle.strm_minors.specs.Openers.{Holding};
    ghost use Rattle.strm_minors.specs.Rule.{IsSeated};

    ghost Value = { Holding };

    ghost view = { λ o. record { table = o.seat.table_id; held = o.held; passed = o.seat.me.0.passed } };

    ghost invariant = { λ o. IsSeated o.seat.me o.held };
}

impl Opener {
    /// Whether it holds the minor, which is one of the same word: a number says nothing of whose it is. It takes no step.
    pub fn holds(&self, minor: &Minor) -> bool
        ensures { IsTrue result ↔ Holds self.now minor.now }
    {
        self.held >> minor.number & 1 == 1
    }
}
