//! What every crate of the stack speaks of: sides, queues, kinds of message, the calls on a pair with their
//! answers and refusals, and the entries of a pair's journal. `specs/` holds the definitions that every contract
//! cites, one file for each subject; what follows from them stands in `strm_laws`.
#![tactic(auto)]

mod answers;
mod books;
mod both;
mod entries;
mod events;
mod flushing;
mod ioctls;
mod job_control;
mod keys;
mod kinds;
mod ledger;
mod limits;
mod modes;
mod names;
mod needs;
mod options;
mod output;
mod refusals;
mod rules;
mod signals;
mod slots;
mod spots;
mod termios;
mod winsize;

pub use answers::{Answer, Content, ReadBytes, Turn};
pub use books::{BOOK_MAX, Book};
pub use both::Both;
pub use entries::Entry;
pub use events::{Caller, Event, FlushQueues};
pub use flushing::FlushAsked;
pub use ioctls::{
    Ioc, TCGETS, TCSETS, TCSETSF, TCSETSW, TIOCGPGRP, TIOCGWINSZ, TIOCSIGNAL, TIOCSPGRP,
    TIOCSWINSZ, word_at,
};
pub use job_control::{Verdict, asks_group, held, sets_group};
pub use keys::{Key, LINE_MAX, Stroke};
pub use kinds::{Band, MsgKind};
pub use ledger::Ledger;
pub use limits::{
    BANDS, BLOCK_SIZE, CHANGE_BLOCKS, CLOSE_BLOCKS, CONTENT_MAX, CONTROL_MAX, Config, DATA_MAX,
    HIGH_PRIORITY_RANK, HOPS, IOCTL_BLOCKS, IOCTL_END, IOCTL_MAX, LISTS, MODULES, OWN_QUEUED,
    READ_MAX, SETTINGS_MAX, SIGNAL_LAST, SIGNALS_MAX, STOP_BLOCKS, TURN_BLOCKS, WRITE_BLOCKS,
    chunk_count, turn_blocks,
};
pub use modes::{ControlMode, Mode, Prio, ReadMode, Wanted};
pub use names::{Dir, ModuleName, Openness, Place, QueueName, Side, Way};
pub use needs::{Access, Needs, Reach, put_refusal};
pub use options::{Marks, Options};
pub use output::{COLUMN_MAX, Given, Posted};
pub use refusals::{NoMemory, Refusal, unless};
pub use rules::{Fates, RULES, Rule};
pub use signals::{StopSignal, signal_in};
pub use slots::Slot;
pub use spots::{Across, Asks, Note, Spot};
pub use termios::{ControlChar, InputModes, LocalModes, OutputModes, Termios};
pub use winsize::Winsize;
