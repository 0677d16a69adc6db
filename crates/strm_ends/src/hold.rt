//! What a member has in hand.

use strm_system::HostMinor;

/// Nothing, a minor that it claimed, or an end of a pair of this system.
#[derive(Drop)]
pub(crate) enum Hold<E> {
    Nothing,
    Minor(HostMinor),
    End { system: u32, end: E },
}
