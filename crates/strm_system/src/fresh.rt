//! Pairs that can be made, for a lock to hold.

ghost use Rattle.std.specs.Prelude.{◌≡◌, ◌↔◌, IsTrue, MatchResult};
ghost use Rattle.strm_laws.specs.Pair.{new_pair};
ghost use Rattle.strm_system.specs.Sizes.{AreSizes, IsNumber, NotMade};

use std::alloc::Global;
use strm_locks::Object;
use strm_types::{Config, Refusal};

/// What a lock may hold, where it can be made: systems and hosts of any such pairs can be.
pub trait Fresh: Object {
    /// A pair that nobody opened, with just these sizes: so many blocks of each kind, from 1 to 65536, and so many entries and bytes of a journal. It
    /// is refused by EINVAL where a number of blocks isn't one of those, and it alone; else for want of memory (NoMemory).
    fn unopened(alloc: Global, sizes: Config) -> Result<Self, Refusal>
        ensures { MatchResult result (λ p. AreSizes sizes × (Self.pair_of p ≡ new_pair sizes)) (NotMade sizes) };
}

// Whether a store may have so many blocks of a kind.
fn is_number(blocks: usize) -> bool
    ensures { IsTrue result ↔ IsNumber blocks }
{
    0 < blocks && blocks <= 65536
}

/// Whether pairs may have these sizes.
pub(crate) fn are_sizes(sizes: &Config) -> bool
    ensures { IsTrue result ↔ AreSizes sizes.now }
{
    is_number(sizes.mblks) && is_number(sizes.dblks)
}
