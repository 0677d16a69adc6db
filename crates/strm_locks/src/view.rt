//! What a seat at a lock knows.

ghost use Rattle.std.specs.Prelude.{ℕ, List};
ghost use Rattle.std.specs.Borrow.{ftrue};
ghost use Rattle.strm_types.specs.declared.limits.Config.{Config};
ghost use Rattle.strm_types.specs.Journal.{PlainEntry};
ghost use Rattle.strm_laws.specs.Pair.{PairState};
ghost use Rattle.strm_locks.specs.Books.{Book};
ghost use Rattle.strm_locks.specs.declared.told.Told.{Told};

use std::marker::Model;

/// The sizes of the pair that its lock was made with, what a seat was told, the entries of the calls that it made, its parts, whether it holds
/// the lock, as 1 or 0, the book that it found when it took it, and the pair as it met it: as it found it, and as it left it at the end of a
/// visit. No value of it is made: it is what proofs know.
pub(crate) struct View {
    pub ghost sizes: { Config },
    pub ghost told: { Told },
    pub ghost made: { List PlainEntry },
    pub ghost parts: { ℕ },
    pub ghost holds: { ℕ },
    pub ghost found: { Book },
    pub ghost met: { List PairState },
}

impl Model for View {
    ghost also_owns = { λ _. ftrue };
}
