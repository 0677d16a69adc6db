//! Which call the numbers of a C program ask for, and which numbers ask for a call of the journal.

ghost use Rattle.std.specs.Prelude.{◌≡◌, Some, option_map};
ghost use Rattle.strm_types.specs.Events.{request};
ghost use Rattle.strm_handle.specs.Numbers.{parts_at};
ghost use Rattle.strm_handle.specs.Calls.{AsksFor, HaveParts, caller_at, event_at};

use crate::asks::Ask;
use crate::numbers::{
    band_number, band_of, flush_number, flush_of, mode_number, mode_of, module_number, module_of,
    prio_number, prio_of, side_number, side_of, wanted_number, wanted_of,
};
use strm_types::{Caller, Event};

/// Who makes a call.
pub(crate) fn caller_of(ask: &Ask) -> Option<Caller>
    ensures { result ≡ caller_at ask.now }
{
    let side = side_of(ask.side)?;
    Some(Caller {
        side,
        group: ask.group,
        ignores: ask.ignores,
        orphaned: ask.orphaned,
    })
}

/// The two parts of a message, each where it is there.
pub(crate) struct LentParts<'a> {
    pub(crate) control: Option<&'a [u8]>,
    pub(crate) body: Option<&'a [u8]>,
}

// The parts of a message: which there are, and how many bytes in front are those of the control part.
fn parts_of<'a>(there: u32, control: u32, bytes: &'a [u8]) -> Option<LentParts<'a>>
    ensures { option_map (λ parts. record { control = option_map (λ b. b.now) parts.control; body = option_map (λ b. b.now) parts.body }) result ≡ parts_at there control bytes.now }
{
    let (control, body) = match there {
        0 => (None, None),
        1 => (Some(bytes), None),
        2 => (None, Some(bytes)),
        3 => {
            let at = control as usize;
            if at > bytes.len() {
                return None;
            }
            (Some(&bytes[..at]), Some(&bytes[at..]))
        }
        _ => return None,
    };
    Some(LentParts { control, body })
}

/// The call that numbers ask for, with the bytes that it brings; None where none is asked for.
pub fn event_of<'a>(ask: &Ask, bytes: &'a [u8]) -> Option<Event<&'a [u8]>>
    ensures { option_map (λ event. request event) result ≡ event_at ask.now bytes.now }
{
    match ask.op {
        0 => Some(Event::OpenMaster),
        1 => Some(Event::Unlock),
        2 => Some(Event::OpenSlave),
        3 => Some(Event::Shut),
        4 => Some(Event::Push {
            name: module_of(ask.a),
        }),
        5 => Some(Event::Pop),
        6 => Some(Event::Look),
        7 => {
            let what = flush_of(ask.a)?;
            let band = band_of(ask.b)?;
            Some(Event::Flush { what, band })
        }
        8 => Some(Event::Write { bytes }),
        9 => Some(Event::Read { n: ask.a }),
        10 => {
            let prio = prio_of(ask.a)?;
            let LentParts { control, body } = parts_of(ask.b, ask.c, bytes)?;
            Some(Event::Put {
                prio,
                control,
                body,
            })
        }
        11 => {
            let wanted = wanted_of(ask.a)?;
            Some(Event::Get {
                wanted,
                cmax: ask.b,
                dmax: ask.c,
            })
        }
        12 => {
            let mode = mode_of(ask.a)?;
            Some(Event::Mode { mode })
        }
        13 => Some(Event::Nread),
        14 => Some(Event::Ioctl {
            command: ask.a,
            body: bytes,
        }),
        15 => Some(Event::IoctlResult { number: ask.a }),
        16 => Some(Event::Signals),
        _ => None,
    }
}

/// Which parts a message has, and how many bytes its control part.
pub(crate) fn parts_numbers(control: Option<u32>, body: Option<u32>) -> (u32, u32)
    ensures { HaveParts result.0 result.1 control body }
{
    match (control, body) {
        (None, None) => (0, 0),
        (Some(_), None) => (1, 0),
        (None, Some(_)) => (2, 0),
        (Some(len), Some(_)) => (3, len),
    }
}

// A caller's call, by its numbers.
fn ask(caller: Caller, op: u32, a: u32, b: u32, c: u32) -> Ask
    ensures caller { caller_at result ≡ Some caller }
    ensures op { result.op ≡ op }
    ensures a { result.a ≡ a }
    ensures b { result.b ≡ b }
    ensures c { result.c ≡ c }
{
    Ask {
        op,
        side: side_number(caller.side),
        a,
        b,
        c,
        group: caller.group,
        ignores: caller.ignores,
        orphaned: caller.orphaned,
    }
}

/// The numbers that ask for a call: what `caller_of` and `event_of` read back.
pub(crate) fn asked(caller: Caller, event: &Event<u32>) -> Ask
    ensures caller { caller_at result ≡ Some caller }
    ensures event { AsksFor result event.now }
{
    match *event {
        Event::OpenMaster => ask(caller, 0, 0, 0, 0),
        Event::Unlock => ask(caller, 1, 0, 0, 0),
        Event::OpenSlave => ask(caller, 2, 0, 0, 0),
        Event::Shut => ask(caller, 3, 0, 0, 0),
        Event::Push { name } => ask(caller, 4, module_number(name), 0, 0),
        Event::Pop => ask(caller, 5, 0, 0, 0),
        Event::Look => ask(caller, 6, 0, 0, 0),
        Event::Flush { what, band } => ask(caller, 7, flush_number(what), band_number(band), 0),
        Event::Write { .. } => ask(caller, 8, 0, 0, 0),
        Event::Read { n } => ask(caller, 9, n, 0, 0),
        Event::Put {
            prio,
            control,
            body,
        } => {
            let (there, size) = parts_numbers(control, body);
            ask(caller, 10, prio_number(prio), there, size)
        }
        Event::Get { wanted, cmax, dmax } => ask(caller, 11, wanted_number(wanted), cmax, dmax),
        Event::Mode { mode } => ask(caller, 12, mode_number(mode), 0, 0),
        Event::Nread => ask(caller, 13, 0, 0, 0),
        Event::Ioctl { command, .. } => ask(caller, 14, command, 0, 0),
        Event::IoctlResult { number } => ask(caller, 15, number, 0, 0),
        Event::Signals => ask(caller, 16, 0, 0, 0),
    }
}
