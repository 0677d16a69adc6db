//! The commands of a script.

use strm_types::{Caller, Dir, Event, FlushQueues, QueueName, Side};

/// A priority, as a script names it. The number may be none that a band has.
#[derive(Clone, Copy)]
pub enum NamedPrio {
    High,
    Band(u32),
}

/// Which message a `get` asks for, as a script names it. The number may be none that a band has.
#[derive(Clone, Copy)]
pub enum NamedWanted {
    Any,
    High,
    Band(u32),
}

/// The size of a window, as TIOCSWINSZ has it (termio(7I): `struct winsize`): its rows and its columns, and its width and
/// its height in pixels.
#[derive(Clone, Copy)]
pub struct WindowSize {
    pub rows: u16,
    pub columns: u16,
    pub width: u16,
    pub height: u16,
}

/// A command, as a line of a script gives it.
#[derive(Drop)]
pub enum Command {
    /// Makes the pair and opens its master, with so many blocks of each kind.
    Open {
        blocks: Option<u32>,
    },
    /// Makes a call on a side's stream.
    Call {
        side: Side,
        event: Event<Vec<u8>>,
    },
    /// Flushes a side's stream, all bands or one. The number may be none that a band has.
    Flush {
        side: Side,
        what: FlushQueues,
        band: Option<u32>,
    },
    /// Sends a message down a side's stream.
    Put {
        side: Side,
        prio: NamedPrio,
        control: Option<Vec<u8>>,
        body: Option<Vec<u8>>,
    },
    /// Takes the first message from a side's stream head, at most so many bytes of each part.
    Get {
        side: Side,
        wanted: NamedWanted,
        cmax: u32,
        dmax: u32,
    },
    /// Gives a queue its turn.
    Turn {
        name: QueueName,
    },
    /// Gives the first enabled queue its turn, at most so many times.
    Run {
        turns: u32,
    },
    /// Tells what stands on the queues of a side's stream.
    Show {
        side: Side,
    },
    /// Tells where the bytes of a direction are.
    Ledger {
        direction: Dir,
    },
    /// Begins the journal anew.
    Cut,
    /// Has the later calls on the caller's side made by it.
    Group {
        caller: Caller,
    },
}

/// What a line of a script says.
#[derive(Drop)]
pub enum Reading {
    /// The line asks for nothing: it is empty, or a comment.
    Silent,
    /// The line is longer than its limit, or spells no command.
    Malformed,
    /// The line spells a command.
    Spoken(Command),
}
