//! What a call asks for before it is carried out.

ghost use Rattle.std.specs.Prelude.{◌≡◌, ◌+◌, ◌<◌, ◌^◌, option_map};
ghost use Rattle.strm_types.specs.Events.{request};
ghost use Rattle.strm_types.specs.Needs.{change, needs, only};
ghost use Rattle.strm_types.specs.PutMsg.{is_no_prio, part_blocks, put_refusal};

use crate::events::{Event, part_bytes};
use crate::kinds::Band;
use crate::limits::{
    CHANGE_BLOCKS, CLOSE_BLOCKS, CONTROL_MAX, DATA_MAX, IOCTL_BLOCKS, IOCTL_MAX, READ_MAX,
    SIGNALS_MAX, WRITE_BLOCKS, chunk_count,
};
use crate::modes::{Prio, Wanted};
use crate::refusals::{Refusal, unless};

/// Which stream has to be there for a call.
#[derive(Clone, Copy)]
pub enum Reach {
    /// None: the call opens the master.
    Nothing,
    /// The master's is open.
    Master,
    /// The caller's is open.
    Own,
    /// The caller's is open, and the other end isn't gone: the call sends something down.
    Down,
}

/// What a call does at a terminal, for which job control may hold a caller in the background.
#[derive(Clone, Copy)]
pub enum Access {
    /// It takes what waits there: `read(2)`, `getmsg(2)`.
    Reads,
    /// It sends bytes there: `write(2)`, `putmsg(2)`.
    Writes,
}

/// What a call asks for, told by its arguments alone. It is refused for the first of these that it doesn't find, in this order.
#[derive(Clone, Copy)]
pub struct Needs {
    /// Which stream has to be there, else ENXIO.
    pub reach: Reach,
    /// Whether the master alone may make it, else EINVAL.
    pub masters: bool,
    /// What is wrong with its arguments: EINVAL or ERANGE.
    pub wrong: Option<Refusal>,
    /// Whether it takes the number of an ioctl, so that one has to be left, else ERANGE.
    pub numbered: bool,
    /// Whether it may write or make bytes, so that the books must have room, else ERANGE.
    pub makes: bool,
    /// How many bytes it brings. The journal must have room for one more entry with these and with those that it gives, else it
    /// is full.
    pub brings: usize,
    /// The most bytes that its answer can have, up to 8192.
    pub gives: usize,
    /// How many blocks of each kind have to be free, else ENOSR.
    pub blocks: usize,
    /// What it does at the terminal, where job control asks for that.
    pub access: Option<Access>,
}

impl Needs {
    // Those of a call that asks for a stream alone.
    #[inline(always)]
    fn only(reach: Reach) -> Needs
        ensures { result ≡ only reach }
    {
        Needs {
            reach,
            masters: false,
            wrong: None,
            numbered: false,
            makes: false,
            brings: 0,
            gives: 0,
            blocks: 0,
            access: None,
        }
    }

    // Those of a call that changes a stream: what then goes down is made.
    #[inline(always)]
    fn change() -> Needs
        ensures { result ≡ change }
    {
        Needs {
            makes: true,
            blocks: CHANGE_BLOCKS,
            ..Needs::only(Reach::Down)
        }
    }
}

// Whether no message can have this priority: one of high priority has a control part.
fn is_no_prio(prio: Prio, control: Option<&[u8]>) -> bool
    ensures { result ≡ is_no_prio prio (option_map (λ bytes. bytes.now) control.entry) }
{
    match prio {
        Prio::High => control.is_none(),
        Prio::Band(_) => false,
    }
}

// How many blocks a part takes: it fits in one.
fn part_blocks(part: Option<&[u8]>) -> usize
    ensures { result ≡ part_blocks (option_map (λ bytes. bytes.now) part.entry) }
{
    usize::from(part.is_some())
}

/// What a putmsg(2) or putpmsg(2) is refused for by its arguments alone: EINVAL for high priority without a control part,
/// else ERANGE for a control part of more than 64 bytes or a data part of more than 256.
pub fn put_refusal(prio: Prio, control: Option<&[u8]>, body: Option<&[u8]>) -> Option<Refusal>
    ensures { result ≡ put_refusal prio (option_map (λ bytes. bytes.now) control.entry) (option_map (λ bytes. bytes.now) body.entry) }
{
    if is_no_prio(prio, control) {
        return Some(Refusal::Einval);
    }
    if part_bytes(control).len() > CONTROL_MAX || part_bytes(body).len() > DATA_MAX {
        return Some(Refusal::Erange);
    }
    None
}

impl Event<&[u8]> {
    /// What the call asks for. The cost is the same whatever its bytes are.
    #[inline(always)]
    pub fn needs(&self) -> Needs
        ensures value { result ≡ needs (request self.now) }
        ensures small { result.brings + result.gives < 2 ^ 64 }
    {
        match self {
            Event::OpenMaster => Needs::only(Reach::Nothing),
            Event::OpenSlave => Needs::only(Reach::Master),
            Event::Unlock => Needs {
                masters: true,
                ..Needs::only(Reach::Own)
            },
            Event::Shut => Needs {
                blocks: CLOSE_BLOCKS,
                ..Needs::only(Reach::Own)
            },
            Event::Push { name } => Needs {
                wrong: unless(name.is_some(), Refusal::Einval),
                ..Needs::change()
            },
            Event::Pop | Event::Flush { .. } => Needs::change(),
            Event::Write { bytes } => Needs {
                makes: true,
                brings: bytes.len(),
                blocks: WRITE_BLOCKS + chunk_count(bytes.len()),
                access: Some(Access::Writes),
                ..Needs::only(Reach::Down)
            },
            Event::Read { n } => Needs {
                gives: (*n as usize).min(READ_MAX),
                access: Some(Access::Reads),
                ..Needs::only(Reach::Own)
            },
            Event::Put {
                prio,
                control,
                body,
            } => Needs {
                wrong: put_refusal(*prio, *control, *body),
                makes: true,
                brings: part_bytes(*control).len() + part_bytes(*body).len(),
                blocks: WRITE_BLOCKS + (part_blocks(*control) + part_blocks(*body)),
                access: Some(Access::Writes),
                ..Needs::only(Reach::Down)
            },
            Event::Get { cmax, dmax, .. } => Needs {
                gives: (*cmax as usize).min(READ_MAX) + (*dmax as usize).min(READ_MAX),
                access: Some(Access::Reads),
                ..Needs::only(Reach::Own)
            },
            Event::Ioctl { body, .. } => Needs {
                wrong: unless(body.len() <= IOCTL_MAX, Refusal::Erange),
                numbered: true,
                makes: true,
                brings: body.len(),
                gives: IOCTL_MAX,
                blocks: IOCTL_BLOCKS,
                ..Needs::only(Reach::Down)
            },
            Event::IoctlResult { .. } => Needs {
                gives: IOCTL_MAX,
                ..Needs::only(Reach::Own)
            },
            Event::Signals => Needs {
                gives: SIGNALS_MAX,
                ..Needs::only(Reach::Own)
            },
            Event::Look | Event::Mode { .. } | Event::Nread => Needs::only(Reach::Own),
        }
    }
}
