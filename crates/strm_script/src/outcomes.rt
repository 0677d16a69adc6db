//! What a command leads to.

ghost use Rattle.std.specs.Prelude.{◌≡◌, false};
ghost use Rattle.strm_script.specs.ScriptRun.{is_enosr};

use crate::answers::Line;
use strm_types::{Answer, Refusal};

/// What a command leads to. The bytes that it gives stand in a buffer apart.
#[derive(Clone, Copy)]
pub struct Answered {
    /// The line that answers it.
    pub line: Line,
    /// Whether a call or a turn got ENOSR, or a turn stopped within its message for want of blocks.
    pub short: bool,
}

/// A command that is refused before any call.
pub fn refused(refusal: Refusal) -> Answered
    ensures { result ≡ record { line = Line.Refused refusal; short = false } }
{
    Answered {
        line: Line::Refused(refusal),
        short: false,
    }
}

/// A command that is done, and made no call.
pub fn done() -> Answered
    ensures { result ≡ record { line = Line.Done Answer.Done; short = false } }
{
    Answered {
        line: Line::Done(Answer::Done),
        short: false,
    }
}

/// Whether a refusal is for want of blocks.
pub fn is_short(refusal: Refusal) -> bool
    ensures { result ≡ is_enosr refusal }
{
    match refusal {
        Refusal::Enosr => true,
        _ => false,
    }
}
