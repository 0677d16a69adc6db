//! The module ldterm: what it is set to, its unfinished line, and what it has in hand in a turn of its read queue.

ghost use Rattle.std.specs.Prelude.{ℕ, ◌≡◌, Some};
ghost use Rattle.strm_types.specs.Ldterms.{new_ldterm};
ghost use Rattle.strm_types.specs.LdtermCalls.{IsShort};
ghost use Rattle.strm_types.specs.declared.names.ModuleName.TheVariants as names;
ghost use Rattle.strm_blocks.specs.Blocks.{StoreValue};
ghost use Rattle.strm_frame.specs.declared.queue_pair.QueuePair.{QueuePair};
ghost use Rattle.strm_ldterm.specs.Stands.{HasInHand, keeps_itself, ldterm_in, own_in, paired};

use crate::lines::Line;
use arrayvec::ArrayVec;
use strm_blocks::InHand;
use strm_types::{ModuleName, Termios};

/// How far a turn of the read queue has come with a byte.
#[derive(Drop)]
pub enum Stage {
    /// It is between two bytes.
    Between,
    /// A byte has begun, and it has started output or hasn't.
    Begun { started: bool, byte: u8 },
    /// What the byte sends has gone, and these bytes are its echo.
    Answered { echo: ArrayVec<u8, 3> },
}

/// The module: what it is set to; whether its output is stopped, and whether the next byte stands behind LNEXT; the column of its
/// output; the unfinished line. In a turn of its read queue it has messages in hand: what is left of the message in work, and the
/// bytes that wait to go up together; and it knows whether the turn's echo stands last on the write queue.
#[derive(Drop)]
pub struct Ldterm {
    pub termios: Termios,
    pub stopped: bool,
    pub after_lnext: bool,
    pub column: u16,
    pub line: Line,
    pub in_work: Option<InHand>,
    pub gathered: Option<InHand>,
    pub echoing: bool,
    pub stage: Stage,
}

impl Ldterm {
    /// One as it is pushed.
    pub fn new() -> Ldterm
        ensures state { (s : StoreValue) → own_in s result ≡ new_ldterm }
        ensures held { (s : StoreValue) (queues : QueuePair) → HasInHand s result (Some queues) }
        ensures rests { (i : ℕ) → keeps_itself result i ≡ 0 }
    {
        Ldterm {
            termios: Termios::new(),
            stopped: false,
            after_lnext: false,
            column: 0,
            line: Line::new(),
            in_work: None,
            gathered: None,
            echoing: false,
            stage: Stage::Between,
        }
    }

    /// Does nothing. Its contract is what holds of every one: the line is no longer than it may be, and what is still to be echoed
    /// of a byte is short.
    pub(crate) fn audit(&self)
        ensures { (s : StoreValue) (queues : QueuePair) → IsShort (ldterm_in s (paired self.now queues)) }
    {
        let _ = self.line.len();
        if let Stage::Answered { echo } = &self.stage {
            let _ = echo.len();
        }
    }
}

/// The module's name.
pub fn name() -> ModuleName
    ensures { result ≡ names.Ldterm }
{
    ModuleName::Ldterm
}
