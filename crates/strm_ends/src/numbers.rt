//! Why a call at a member isn't done, and the numbers that are answered.

ghost use Rattle.std.specs.Prelude.{◌≡◌, ◌+◌, ◌*◌, ◌<◌};
ghost use Rattle.strm_ends.specs.Outcomes.{number_told};

use strm_handle::refused;
use strm_system::PAIRS;
use strm_types::Refusal;

/// The number that is answered where another thread has the lock of the pair, behind those of refusals.
const BUSY: u32 = 12;

/// Why nothing was done: another thread has the lock of the pair, or it is refused.
#[derive(Clone, Copy)]
pub(crate) enum NotDone {
    Busy,
    Refused(Refusal),
}

/// What is done at a member, or why it isn't.
pub(crate) type Outcome = Result<(), NotDone>;

/// The number of an outcome.
pub(crate) fn number(outcome: Outcome) -> u32
    ensures { result ≡ number_told outcome }
{
    match outcome {
        Ok(()) => 0,
        Err(NotDone::Busy) => BUSY,
        Err(NotDone::Refused(why)) => refused(why),
    }
}

/// A refusal, as an outcome.
pub(crate) fn not_done(why: Refusal) -> Outcome
    ensures { result ≡ Err (NotDone.Refused why) }
{
    Err(NotDone::Refused(why))
}

/// The number of a pair in its host.
pub(crate) fn pair_number(system: u32, pair: u32) -> u32
    requires system { system < 1024 }
    requires pair { pair < 64 }
    ensures { result ≡ system * 64 + pair }
{
    system * PAIRS + pair
}
