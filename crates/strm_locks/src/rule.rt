//! The rule of a lock's table, and the kinds of step on it.

ghost use Rattle.strm_locks.specs.Rules.{AddsUp, fresh, taken, given, emptied, passed, looked, sat, kept_half, split_half, joined, spent};

use crate::held::Held;
use crate::object::Object;
use crate::view::View;
use atomic_table::{Join, Play, Seat, Split, Table, TableRule};
use std::alloc::Global;
use std::snapshot::Snapshot;

// What all seats were told adds up to the book. The key is the pair as the lock was made with it: of that the rule keeps the sizes.
pub(crate) struct Shared;

impl<P: Object> TableRule<Held<P>, View, Snapshot<Held<P>>> for Shared {
    ghost holds = { λ made. AddsUp made.value.pair.limits };

    ghost first = { λ made. fresh made.value.pair.limits };
}

pub(crate) type Place<P> = Seat<Held<P>, View>;

pub(crate) type Board<P> = Table<Held<P>, View, Snapshot<Held<P>>, Shared, Global>;

// A seat comes that was told nothing: a load.
pub(crate) struct Sit;

impl<P: Object> Play<Held<P>, View> for Sit {
    ghost then = { sat };
}

// The lock is tried: a compare_exchange of 0 for 1, which takes the slot where it found 0.
pub(crate) struct Take;

impl<P: Object> Play<Held<P>, View> for Take {
    ghost then = { taken };
}

// The lock and the slot are given back, and the seat is told what the book gained: a store of 0.
pub(crate) struct Give;

impl<P: Object> Play<Held<P>, View> for Give {
    ghost then = { given };
}

// The same where the book was closed: the seat has nothing since.
pub(crate) struct Empty;

impl<P: Object> Play<Held<P>, View> for Empty {
    ghost then = { emptied };
}

// The lock and the slot are given back at the end of a visit: a store of 0.
pub(crate) struct Pass;

impl<P: Object> Play<Held<P>, View> for Pass {
    ghost then = { passed };
}

// A load behind a join, which shows that the joined numbers fit.
pub(crate) struct Look;

impl<P: Object> Play<Held<P>, View> for Look {
    ghost then = { looked };
}

// A seat is cut in two, the first with what was told; two are joined with all that both have.
pub(crate) struct Halves;

impl Split<View> for Halves {
    ghost left = { kept_half };

    ghost right = { split_half };
}

impl Join<View> for Halves {
    ghost both = { joined };

    ghost spent = { spent };
}
