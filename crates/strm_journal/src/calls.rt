//! Calls, each as its kind, a band and two numbers.

ghost use Rattle.std.specs.Prelude.{◌≡◌, ◌<◌, ◌^◌, true, length, option_map};
ghost use Rattle.strm_types.specs.Events.{map_event, payload_of, request};
ghost use Rattle.strm_types.specs.Message.{part};
ghost use Rattle.strm_journal.specs.Calls.{event_at, is_call, part_by, prio_by, wanted_by};

use crate::digits::{is_odd, with_digit};
use crate::kinds::Made;
use crate::numbers::{
    band_number, band_of, flush_number, flush_of, mode_number, mode_of, module_number, module_of,
};
use strm_types::{Band, Event, Prio, Wanted};

/// A call: its kind, what it has of a few cases, a band, and two numbers, each 0 where it has none. The cases are those of the digits of a
/// putmsg(2), and of the number of what a getmsg(2) takes.
pub(crate) type Call = (Made, u32, u8, u32, u32);

// Whether a priority is that of a band, and which one.
#[inline(always)]
fn banded(prio: Prio) -> (bool, u8)
    ensures { prio_by result.0 result.1 ≡ prio }
{
    match prio {
        Prio::High => (false, 0),
        Prio::Band(Band(band)) => (true, band),
    }
}

// Whether a part is there, and how many bytes it has.
#[inline(always)]
fn kept(part: Option<u32>) -> (bool, u32)
    ensures { part_by result.0 result.1 ≡ part }
{
    match part {
        Some(len) => (true, len),
        None => (false, 0),
    }
}

// A putmsg(2): its digits say whether it is in a band, and which parts there are.
#[inline(always)]
fn put(prio: Prio, control: Option<u32>, body: Option<u32>) -> Call
    ensures event { event_at result.0 result.1 result.2 result.3 result.4 ≡ Event.Put prio control body }
    ensures call { is_call result.0 ≡ true }
    ensures few { result.1 < 8 }
{
    let (is_banded, band) = banded(prio);
    let (has_control, first) = kept(control);
    let (has_body, second) = kept(body);
    let last = with_digit(has_body, 0);
    let behind = with_digit(has_control, last);
    let digits = with_digit(is_banded, behind);
    (Made::Put, digits, band, first, second)
}

// What a getmsg(2) takes, by number, and in which band.
#[inline(always)]
fn wanted_number(wanted: Wanted) -> (u32, u8)
    ensures wanted { wanted_by result.0 result.1 ≡ wanted }
    ensures few { result.0 < 8 }
{
    match wanted {
        Wanted::Any => (0, 0),
        Wanted::High => (1, 0),
        Wanted::Band(Band(band)) => (2, band),
    }
}

// A getmsg(2).
#[inline(always)]
fn get(wanted: Wanted, cmax: u32, dmax: u32) -> Call
    ensures event { event_at result.0 result.1 result.2 result.3 result.4 ≡ Event.Get wanted cmax dmax }
    ensures call { is_call result.0 ≡ true }
    ensures few { result.1 < 8 }
{
    let (number, band) = wanted_number(wanted);
    (Made::Get, number, band, cmax, dmax)
}

// How many bytes there are.
#[inline(always)]
fn count(bytes: &[u8]) -> u32
    requires { length bytes.now < 2 ^ 32 }
    ensures { result ≡ length bytes.now }
{
    bytes.len() as u32
}

// How many bytes a part has.
#[inline(always)]
fn part_count(lent: Option<&[u8]>) -> Option<u32>
    requires { length (part (option_map (λ bytes. bytes.now) lent)) < 2 ^ 32 }
    ensures { result ≡ option_map (λ bytes. length bytes) (option_map (λ bytes. bytes.now) lent.entry) }
{
    match lent {
        Some(bytes) => Some(count(bytes)),
        None => None,
    }
}

/// What is kept of a call without its bytes: how many they are. Inlined, so that where its kind is known nothing asks for it.
#[inline(always)]
pub(crate) fn asked(event: &Event<&[u8]>) -> Call
    requires { length (payload_of (request event.now)) < 2 ^ 32 }
    ensures event { event_at result.0 result.1 result.2 result.3 result.4 ≡ map_event (λ bytes. length bytes) (request event.now) }
    ensures call { is_call result.0 ≡ true }
    ensures few { result.1 < 8 }
{
    match *event {
        Event::OpenMaster => (Made::OpenMaster, 0, 0, 0, 0),
        Event::Unlock => (Made::Unlock, 0, 0, 0, 0),
        Event::OpenSlave => (Made::OpenSlave, 0, 0, 0, 0),
        Event::Shut => (Made::Shut, 0, 0, 0, 0),
        Event::Push { name: None } => (Made::PushUnknown, 0, 0, 0, 0),
        Event::Push { name: Some(name) } => (Made::Push, 0, 0, module_number(name), 0),
        Event::Pop => (Made::Pop, 0, 0, 0, 0),
        Event::Look => (Made::Look, 0, 0, 0, 0),
        Event::Flush { what, band } => (Made::Flush, 0, 0, flush_number(what), band_number(band)),
        Event::Write { bytes } => (Made::Write, 0, 0, count(bytes), 0),
        Event::Read { n } => (Made::Read, 0, 0, n, 0),
        Event::Put {
            prio,
            control,
            body,
        } => put(prio, part_count(control), part_count(body)),
        Event::Get { wanted, cmax, dmax } => get(wanted, cmax, dmax),
        Event::Mode { mode } => (Made::Mode, 0, 0, mode_number(mode), 0),
        Event::Nread => (Made::Nread, 0, 0, 0, 0),
        Event::Ioctl { command, body } => (Made::Ioctl, 0, 0, command, count(body)),
        Event::IoctlResult { number } => (Made::IoctlResult, 0, 0, number, 0),
        Event::Signals => (Made::Signals, 0, 0, 0, 0),
    }
}

// The priority of a digit and a band.
fn prio_of(is_banded: bool, band: u8) -> Prio
    ensures { result ≡ prio_by is_banded band }
{
    if is_banded {
        Prio::Band(Band(band))
    } else {
        Prio::High
    }
}

// The part of a digit and a number.
fn part_of(is_there: bool, len: u32) -> Option<u32>
    ensures { result ≡ part_by is_there len }
{
    if is_there { Some(len) } else { None }
}

// What a getmsg(2) takes.
fn wanted_of(number: u32, band: u8) -> Wanted
    ensures { result ≡ wanted_by number band }
{
    match number {
        0 => Wanted::Any,
        1 => Wanted::High,
        _ => Wanted::Band(Band(band)),
    }
}

// The putmsg(2) of digits, a band and two numbers.
fn put_of(digits: u32, band: u8, first: u32, second: u32) -> Event<u32>
    ensures { result ≡ event_at Made.Put digits band first second }
{
    Event::Put {
        prio: prio_of(is_odd(digits), band),
        control: part_of(is_odd(digits / 2), first),
        body: part_of(is_odd(digits / 2 / 2), second),
    }
}

// A flush, by the number of what it empties and that of its band.
fn flush(what: u32, band: u32) -> Event<u32>
    ensures { result ≡ event_at Made.Flush 0 0 what band }
{
    Event::Flush {
        what: flush_of(what),
        band: band_of(band),
    }
}

/// The call of a kind, cases, a band and two numbers: one that opens the master where it is the kind of a turn.
pub(crate) fn event_of(made: Made, cases: u32, band: u8, first: u32, second: u32) -> Event<u32>
    ensures { result ≡ event_at made cases band first second }
{
    match made {
        Made::OpenMaster => Event::OpenMaster,
        Made::Unlock => Event::Unlock,
        Made::OpenSlave => Event::OpenSlave,
        Made::Shut => Event::Shut,
        Made::PushUnknown => Event::Push { name: None },
        Made::Push => Event::Push {
            name: Some(module_of(first)),
        },
        Made::Pop => Event::Pop,
        Made::Look => Event::Look,
        Made::Flush => flush(first, second),
        Made::Write => Event::Write { bytes: first },
        Made::Read => Event::Read { n: first },
        Made::Put => put_of(cases, band, first, second),
        Made::Get => Event::Get {
            wanted: wanted_of(cases, band),
            cmax: first,
            dmax: second,
        },
        Made::Mode => Event::Mode {
            mode: mode_of(first),
        },
        Made::Nread => Event::Nread,
        Made::Ioctl => Event::Ioctl {
            command: first,
            body: second,
        },
        Made::IoctlResult => Event::IoctlResult { number: first },
        Made::Signals => Event::Signals,
        Made::Moved | Made::Blocked | Made::Idle => Event::OpenMaster,
    }
}
