//! A member of a host of this program's pairs.

use crate::seats::Seat;
use std::marker::Model;
use strm_system::{Locked, Store};

/// A pair of a host.
pub(crate) type HostPair = Locked<Store>;

/// A seat at such a host, in a type of its own: who names a member needn't name what its pairs are made of.
pub(crate) struct Member {
    pub(crate) seat: Seat<HostPair>,
}

impl Drop for Member {
    fn drop(self) {
        let Member { seat: _ } = self;
    }
}

impl Model for Member {
    ghost use Rattle.strm_ends.specs.Members.{Seated};

    ghost Value = { Seated };

    ghost view = { λ m. m.seat };
}
