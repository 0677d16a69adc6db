//! The minor number of a pair, and that none is free.

ghost use Rattle.std.specs.Prelude.{◌≡◌, ◌<◌};

use std::marker::Model;
use thiserror::Error;

/// No minor could be claimed, as each was found taken. The opener holds what it held.
#[derive(Clone, Copy, Debug, Error)]
#[error("each minor number is taken")]
pub struct NoMinor;

/// The minor number of a pair that an opener holds, from 0: the N of `/dev/pts/N` (pts(4)).
///
/// A claim alone makes one, and it can't be copied; a release takes it. The minor of one that is dropped stays held. Contracts see the
/// number, and not whose it is: `Opener::holds` tells that.
#[derive(Drop)]
pub struct Minor {
    pub(crate) number: u32,
}

impl Model for Minor {
    ghost use Rattle.std.specs.Prelude.{ℕ, ◌<◌};

    ghost Value = { ℕ };

    ghost view = { λ m. m.number };

    ghost invariant = { λ m. m.number < 64 };
}

impl Minor {
    /// Its number, from 0 up to and without the number of pairs.
    pub fn number(&self) -> u32
        ensures value { result ≡ self.now }
        ensures below_most { result < 64 }
    {
        self.number
    }
}
