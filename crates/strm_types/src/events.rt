//! The calls on a pair.

ghost use Rattle.std.specs.Fn.{FnReturnsAt};
ghost use Rattle.std.specs.Prelude.{◌≡◌, ◌++◌, option_map};
ghost use Rattle.strm_types.specs.Events.{CallsAlike, PartsAlike, map_event, payload_of, request};
ghost use Rattle.strm_types.specs.JobControl.{caller_of};
ghost use Rattle.strm_types.specs.Message.{part};

use crate::kinds::Band;
use crate::modes::{Mode, Prio, Wanted};
use crate::names::{ModuleName, Side};

/// Who makes a call: the side whose stream it is on, and what job control asks of the calling process (POSIX, General Terminal
/// Interface: Process Groups).
#[derive(Clone, Copy, PartialEq)]
pub struct Caller {
    pub side: Side,
    /// The process group; 0 is none.
    pub group: u32,
    /// Whether SIGTTIN and SIGTTOU are ignored or blocked.
    pub ignores: bool,
    /// Whether the process group is orphaned.
    pub orphaned: bool,
}

impl Caller {
    /// A caller on a side that has no process group, and whom job control never holds.
    pub const fn of(side: Side) -> Caller
        ensures { result ≡ caller_of side }
    {
        Caller {
            side,
            group: 0,
            ignores: false,
            orphaned: false,
        }
    }
}

/// Which queues a flush is for: those of the read side, which bring bytes to the caller (FLUSHR), those of the write side
/// (FLUSHW), or both (FLUSHRW): `I_FLUSH` of `streamio(7I)`.
#[derive(Clone, Copy, PartialEq)]
pub enum FlushQueues {
    Read,
    Write,
    Both,
}

/// A call on a pair, over what stands for its bytes: a caller lends them (`Event<&[u8]>`), a journal's entry has how many
/// they are (`Event<u32>`), and definitions have them as lists.
#[derive(Clone, Copy, PartialEq)]
pub enum Event<T> {
    /// Opens the master, once in a pair's life: `open(2)` of the master device.
    OpenMaster,
    /// Lets the slave be opened: `unlockpt(3C)`, a call of the master.
    Unlock,
    /// Opens the slave: `open(2)` of the slave device.
    OpenSlave,
    /// Closes the caller's stream: `close(2)`. The bytes that wait there for its readers go.
    Shut,
    /// Pushes a module on the caller's stream: `I_PUSH` of `streamio(7I)`. None is a name that no module has.
    Push {
        name: Option<ModuleName>,
    },
    /// Takes the module on top off the caller's stream: `I_POP` of `streamio(7I)`.
    Pop,
    /// Asks for the name of the module on top: `I_LOOK` of `streamio(7I)`.
    Look,
    /// Empties queues of the bytes on them, all or those of one band: `I_FLUSH` and `I_FLUSHBAND` of
    /// `streamio(7I)`.
    Flush {
        what: FlushQueues,
        band: Option<Band>,
    },
    /// Sends bytes down the caller's stream: `write(2)`.
    Write {
        bytes: T,
    },
    /// Takes at most `n` bytes from the caller's stream head: `read(2)`. More than 4096 counts as 4096.
    Read {
        n: u32,
    },
    /// Sends a message down the caller's stream: `putmsg(2)`, `putpmsg(2)`. Its control part has at most 64 bytes and its
    /// data part at most 256, else ERANGE. High priority without a control part is EINVAL. Without either part
    /// nothing is sent.
    Put {
        prio: Prio,
        control: Option<T>,
        body: Option<T>,
    },
    /// Takes the first message from the caller's stream head, or at most so many bytes of its control part and of its data
    /// part: `getmsg(2)`, `getpmsg(2)`. More than 4096 counts as 4096. Where the first message isn't the wanted one the call
    /// is EAGAIN.
    Get {
        wanted: Wanted,
        cmax: u32,
        dmax: u32,
    },
    /// Sets one mode of the caller's stream head: `I_SRDOPT` of `streamio(7I)`.
    Mode {
        mode: Mode,
    },
    /// Asks how many messages the caller's stream head has, and how many bytes of data the first one: `I_NREAD` of
    /// `streamio(7I)`.
    Nread,
    /// Sends a command down the caller's stream, with at most 256 bytes, else ERANGE: `ioctl(2)`, I_STR of `streamio(7I)`. One is
    /// under way on a stream until its answer was given; till then another is EAGAIN. Where the answer comes at once it is given,
    /// else the number of the ioctl is.
    Ioctl {
        command: u32,
        body: T,
    },
    /// Asks for the answer of the ioctl of this number, which is given once. While that waits the call is EAGAIN, and where it
    /// isn't the one under way EINVAL.
    IoctlResult {
        number: u32,
    },
    /// Takes the signals that came up to the caller's stream head, each once, in the order in which they came first.
    Signals,
}

/// The bytes of a part, none where it is absent.
pub(crate) fn part_bytes<'a>(lent: Option<&'a [u8]>) -> &'a [u8]
    ensures { result.now ≡ part (option_map (λ bytes. bytes.now) lent.entry) }
{
    match lent {
        Some(bytes) => bytes,
        None => &[],
    }
}

/// What a function makes of a part, where it is there.
#[inline(always)]
pub(crate) fn map_part<'a, T, U, F: Fn(&'a T) -> U>(part: &'a Option<T>, f: &F) -> Option<U>
    requires { F.IsAlwaysCallable f.now }
    ensures { PartsAlike (λ x y. FnReturnsAt F.Fn f.now x y) part.now result }
{
    match part {
        Some(bytes) => Some(f(bytes)),
        None => None,
    }
}

impl<T> Event<T> {
    /// The same call over what a function makes of what stands for its bytes.
    #[inline(always)]
    pub fn map<'a, U, F: Fn(&'a T) -> U>(&'a self, f: F) -> Event<U>
        requires { F.IsAlwaysCallable f }
        ensures { CallsAlike (λ x y. FnReturnsAt F.Fn f x y) self.now result }
    {
        match self {
            Event::OpenMaster => Event::OpenMaster,
            Event::Unlock => Event::Unlock,
            Event::OpenSlave => Event::OpenSlave,
            Event::Shut => Event::Shut,
            Event::Push { name } => Event::Push { name: *name },
            Event::Pop => Event::Pop,
            Event::Look => Event::Look,
            Event::Flush { what, band } => Event::Flush {
                what: *what,
                band: *band,
            },
            Event::Write { bytes } => Event::Write { bytes: f(bytes) },
            Event::Read { n } => Event::Read { n: *n },
            Event::Put {
                prio,
                control,
                body,
            } => Event::Put {
                prio: *prio,
                control: map_part(control, &f),
                body: map_part(body, &f),
            },
            Event::Get { wanted, cmax, dmax } => Event::Get {
                wanted: *wanted,
                cmax: *cmax,
                dmax: *dmax,
            },
            Event::Mode { mode } => Event::Mode { mode: *mode },
            Event::Nread => Event::Nread,
            Event::Ioctl { command, body } => Event::Ioctl {
                command: *command,
                body: f(body),
            },
            Event::IoctlResult { number } => Event::IoctlResult { number: *number },
            Event::Signals => Event::Signals,
        }
    }
}

impl<'a> Event<&'a [u8]> {
    /// The bytes of a call: those that are written, those of a control part and then those of a data part, or what an ioctl
    /// sends.
    pub fn payload(&self) -> (&'a [u8], &'a [u8])
        ensures { result.0.now ++ result.1.now ≡ payload_of (request self.now) }
    {
        match self {
            Event::Write { bytes } => (bytes, &[]),
            Event::Put { control, body, .. } => (part_bytes(*control), part_bytes(*body)),
            Event::Ioctl { body, .. } => (body, &[]),
            _ => (&[], &[]),
        }
    }
}

impl Event<Vec<u8>> {
    /// The call over its bytes where they stand.
    pub fn lend(&self) -> Event<&[u8]>
        ensures { request result ≡ map_event (λ bytes. bytes.items) self.now }
    {
        self.map(|bytes| bytes.as_slice())
    }
}
