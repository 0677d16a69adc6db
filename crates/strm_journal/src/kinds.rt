//! The kinds of calls and turns, and those of answers, each with what is known of it from a few cases.

ghost use Rattle.std.specs.Prelude.{◌≡◌};
ghost use Rattle.strm_journal.specs.Calls as calls;

/// What an entry is of: a call, by its kind, or a turn, by what it did.
#[derive(Clone, Copy)]
pub(crate) enum Made {
    OpenMaster,
    Unlock,
    OpenSlave,
    Shut,
    /// A push of a name that no module has.
    PushUnknown,
    Push,
    Pop,
    Look,
    Flush,
    Write,
    Read,
    Put,
    Get,
    Mode,
    Nread,
    Ioctl,
    IoctlResult,
    Signals,
    Moved,
    Blocked,
    Idle,
}

/// What a call answered, by its kind.
#[derive(Clone, Copy)]
pub(crate) enum Told {
    Done,
    Name,
    Count,
    Bytes,
    Msg,
    Sizes,
    Pending,
    Nak,
    Signals,
    Ttin,
    Ttou,
}

impl Made {
    /// Whether it is a call.
    pub(crate) fn is_call(self) -> bool
        ensures { result ≡ calls.is_call self }
    {
        match self {
            Made::Moved | Made::Blocked | Made::Idle => false,
            _ => true,
        }
    }
}
