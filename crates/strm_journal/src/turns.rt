//! Callers and queues as binary digits, and turns, each as its kind and a number.

ghost use Rattle.std.specs.Prelude.{◌≡◌, ◌/◌, ◌<◌, false, if◌then◌else◌};
ghost use Rattle.strm_journal.specs.Calls.{is_call};
ghost use Rattle.strm_journal.specs.Numbers.{is_odd, side_at, way_at};
ghost use Rattle.strm_journal.specs.Turns.{caller_at, cases_at, queue_at, turn_at};

use crate::digits::{is_odd, with_digit};
use crate::kinds::Made;
use crate::numbers::place_of;
use strm_types::{Caller, QueueName, Side, Turn, Way};

// Whether a side is the slave's.
#[inline(always)]
fn is_slave(side: Side) -> bool
    ensures { (if result then Side.Slave else Side.Master) ≡ side }
{
    match side {
        Side::Master => false,
        Side::Slave => true,
    }
}

// Whether a way is down.
fn is_down(way: Way) -> bool
    ensures { (if result then Way.Down else Way.Up) ≡ way }
{
    match way {
        Way::Up => false,
        Way::Down => true,
    }
}

// The side that the last digit of a number stands for.
fn side_of(number: u32) -> Side
    ensures { result ≡ side_at number }
{
    if is_odd(number) {
        Side::Slave
    } else {
        Side::Master
    }
}

// The way that the last digit of a number stands for.
fn way_of(number: u32) -> Way
    ensures { result ≡ way_at number }
{
    if is_odd(number) { Way::Down } else { Way::Up }
}

/// The digits of a caller, its side, whether it ignores signals and whether its group is orphaned, in front of cases of its call.
#[inline(always)]
pub(crate) fn caller_digits(caller: &Caller, cases: u32) -> u8
    requires { cases < 8 }
    ensures caller { caller_at result caller.now.group ≡ caller.now }
    ensures cases { cases_at result ≡ cases }
{
    let orphaned = with_digit(caller.orphaned, cases);
    let ignores = with_digit(caller.ignores, orphaned);
    let digits = with_digit(is_slave(caller.side), ignores);
    digits as u8
}

/// The caller of digits and a process group.
pub(crate) fn caller_of(digits: u8, group: u32) -> Caller
    ensures { result ≡ caller_at digits group }
{
    let digits = u32::from(digits);
    Caller {
        side: side_of(digits),
        group,
        ignores: is_odd(digits / 2),
        orphaned: is_odd(digits / 2 / 2),
    }
}

/// The cases of a call behind the digits of its caller.
pub(crate) fn cases_of(digits: u8) -> u32
    ensures { result ≡ cases_at digits }
{
    u32::from(digits) / 2 / 2 / 2
}

/// The digits of a queue: its side and its way.
pub(crate) fn queue_digits(queue: &QueueName) -> u8
    ensures side { side_at result ≡ queue.now.side }
    ensures way { way_at (result / 2) ≡ queue.now.way }
{
    let way = with_digit(is_down(queue.way), 0);
    let digits = with_digit(is_slave(queue.side), way);
    digits as u8
}

/// The queue of digits and the number of a place.
pub(crate) fn queue_of(digits: u8, place: u32) -> QueueName
    ensures { result ≡ queue_at digits place }
{
    let digits = u32::from(digits);
    QueueName {
        side: side_of(digits),
        place: place_of(place),
        way: way_of(digits / 2),
    }
}

/// What is kept of a turn: what it did, and how many bytes.
pub(crate) fn went(turn: Turn) -> (Made, u32)
    ensures turn { turn_at result.0 result.1 ≡ turn }
    ensures no_call { is_call result.0 ≡ false }
{
    match turn {
        Turn::Moved(bytes) => (Made::Moved, bytes),
        Turn::Blocked => (Made::Blocked, 0),
        Turn::Idle => (Made::Idle, 0),
    }
}

/// The turn of a kind and a number: one that moved so many bytes where it is the kind of a call.
pub(crate) fn turn_of(made: Made, bytes: u32) -> Turn
    ensures { result ≡ turn_at made bytes }
{
    match made {
        Made::Blocked => Turn::Blocked,
        Made::Idle => Turn::Idle,
        _ => Turn::Moved(bytes),
    }
}
