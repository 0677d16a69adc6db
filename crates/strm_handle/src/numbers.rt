//! The numbers of `include/strm.h`, and what they stand for.

ghost use Rattle.std.specs.Prelude.{◌≡◌, ◌<◌, ◌≤◌, Some, slice_get, true};
ghost use Rattle.strm_handle.specs.Numbers as codes;

use crate::replies::Went;
use strm_types::{
    Band, ControlMode, FlushQueues, Mode, ModuleName, Place, Prio, QueueName, ReadMode, Side, Turn,
    Wanted, Way,
};

/// High priority, beside the bands from 0 to 255.
const HIGH: u32 = 256;

/// Any message, or all bands.
const ANY: u32 = 257;

/// From here on numbers are of modules of a user's own.
const OWN: u32 = 16;

/// The number that is no queue's.
pub const NO_QUEUE: u32 = 12;

/// The side of a number.
pub fn side_of(number: u32) -> Option<Side>
    ensures { result ≡ codes.side_at number }
{
    match number {
        0 => Some(Side::Master),
        1 => Some(Side::Slave),
        _ => None,
    }
}

/// The number of a side.
pub fn side_number(side: Side) -> u32
    ensures { codes.side_at result ≡ Some side }
{
    match side {
        Side::Master => 0,
        Side::Slave => 1,
    }
}

// The module of a user's own of a number among them.
fn own_of(number: u32) -> Option<ModuleName>
    ensures { result ≡ codes.own_at number }
{
    match u8::try_from(number) {
        Ok(number) => Some(ModuleName::Own(number)),
        Err(_) => None,
    }
}

/// The module of a number.
pub(crate) fn module_of(number: u32) -> Option<ModuleName>
    ensures { result ≡ codes.module_at number }
{
    match number {
        1 => Some(ModuleName::Ldterm),
        2 => Some(ModuleName::Ptem),
        3 => Some(ModuleName::Pckt),
        _ if number < OWN => None,
        _ => own_of(number - OWN),
    }
}

/// The number of a module, 0 of none.
pub(crate) fn module_number(name: Option<ModuleName>) -> u32
    ensures { codes.module_at result ≡ name }
{
    match name {
        None => 0,
        Some(ModuleName::Ldterm) => 1,
        Some(ModuleName::Ptem) => 2,
        Some(ModuleName::Pckt) => 3,
        Some(ModuleName::Own(number)) => OWN + u32::from(number),
    }
}

/// The queue of a number.
pub(crate) fn queue_of(number: u32) -> Option<QueueName>
    ensures { result ≡ codes.queue_at number }
{
    let (side, place, way) = match number {
        0 => (Side::Master, Place::Head, Way::Up),
        1 => (Side::Master, Place::Head, Way::Down),
        2 => (Side::Master, Place::Module(ModuleName::Ldterm), Way::Up),
        3 => (Side::Master, Place::Module(ModuleName::Ldterm), Way::Down),
        4 => (Side::Master, Place::Driver, Way::Up),
        5 => (Side::Master, Place::Driver, Way::Down),
        6 => (Side::Slave, Place::Head, Way::Up),
        7 => (Side::Slave, Place::Head, Way::Down),
        8 => (Side::Slave, Place::Module(ModuleName::Ldterm), Way::Up),
        9 => (Side::Slave, Place::Module(ModuleName::Ldterm), Way::Down),
        10 => (Side::Slave, Place::Driver, Way::Up),
        11 => (Side::Slave, Place::Driver, Way::Down),
        _ => return None,
    };
    Some(QueueName { side, place, way })
}

/// The number of a queue: one that calls take, where it is a head's, a driver's or of `ldterm`.
pub fn queue_number(name: QueueName) -> u32
    ensures name { codes.queue_told result ≡ Some name }
    ensures taken { codes.has_number name.place ≡ true → codes.queue_at result ≡ Some name }
    ensures few { codes.has_number name.place ≡ true → result < 12 }
{
    match (name.side, name.place, name.way) {
        (Side::Master, Place::Head, Way::Up) => 0,
        (Side::Master, Place::Head, Way::Down) => 1,
        (Side::Master, Place::Module(ModuleName::Ldterm), Way::Up) => 2,
        (Side::Master, Place::Module(ModuleName::Ldterm), Way::Down) => 3,
        (Side::Master, Place::Driver, Way::Up) => 4,
        (Side::Master, Place::Driver, Way::Down) => 5,
        (Side::Slave, Place::Head, Way::Up) => 6,
        (Side::Slave, Place::Head, Way::Down) => 7,
        (Side::Slave, Place::Module(ModuleName::Ldterm), Way::Up) => 8,
        (Side::Slave, Place::Module(ModuleName::Ldterm), Way::Down) => 9,
        (Side::Slave, Place::Driver, Way::Up) => 10,
        (Side::Slave, Place::Driver, Way::Down) => 11,
        (Side::Master, Place::Module(ModuleName::Ptem), Way::Up) => 16,
        (Side::Master, Place::Module(ModuleName::Ptem), Way::Down) => 17,
        (Side::Slave, Place::Module(ModuleName::Ptem), Way::Up) => 18,
        (Side::Slave, Place::Module(ModuleName::Ptem), Way::Down) => 19,
        (Side::Master, Place::Module(ModuleName::Pckt), Way::Up) => 20,
        (Side::Master, Place::Module(ModuleName::Pckt), Way::Down) => 21,
        (Side::Slave, Place::Module(ModuleName::Pckt), Way::Up) => 22,
        (Side::Slave, Place::Module(ModuleName::Pckt), Way::Down) => 23,
        (Side::Master, Place::Module(ModuleName::Own(number)), Way::Up) => 256 + u32::from(number),
        (Side::Master, Place::Module(ModuleName::Own(number)), Way::Down) => {
            512 + u32::from(number)
        }
        (Side::Slave, Place::Module(ModuleName::Own(number)), Way::Up) => 768 + u32::from(number),
        (Side::Slave, Place::Module(ModuleName::Own(number)), Way::Down) => {
            1024 + u32::from(number)
        }
    }
}

/// The number of the queue at a place of a list, and `NO_QUEUE` behind the last one.
pub fn number_at(names: &[QueueName], place: usize) -> u32
    requires { codes.AreNumbered names.now }
    ensures told { codes.queue_at result ≡ slice_get names.now place }
    ensures few { result ≤ 12 }
{
    match names.get(place) {
        Some(name) => queue_number(*name),
        None => NO_QUEUE,
    }
}

/// The priority of a number.
pub(crate) fn prio_of(number: u32) -> Option<Prio>
    ensures { result ≡ codes.prio_at number }
{
    match u8::try_from(number) {
        Ok(band) => Some(Prio::Band(Band(band))),
        Err(_) if number == HIGH => Some(Prio::High),
        Err(_) => None,
    }
}

/// The number of a priority.
pub(crate) fn prio_number(prio: Prio) -> u32
    ensures { codes.prio_at result ≡ Some prio }
{
    match prio {
        Prio::High => HIGH,
        Prio::Band(Band(band)) => u32::from(band),
    }
}

/// What the number of a get asks for.
pub(crate) fn wanted_of(number: u32) -> Option<Wanted>
    ensures { result ≡ codes.wanted_at number }
{
    match u8::try_from(number) {
        Ok(band) => Some(Wanted::Band(Band(band))),
        Err(_) if number == HIGH => Some(Wanted::High),
        Err(_) if number == ANY => Some(Wanted::Any),
        Err(_) => None,
    }
}

/// The number of what a get asks for.
pub(crate) fn wanted_number(wanted: Wanted) -> u32
    ensures { codes.wanted_at result ≡ Some wanted }
{
    match wanted {
        Wanted::Any => ANY,
        Wanted::High => HIGH,
        Wanted::Band(Band(band)) => u32::from(band),
    }
}

/// The band of a flush's number, or all.
pub(crate) fn band_of(number: u32) -> Option<Option<Band>>
    ensures { result ≡ codes.band_at number }
{
    match u8::try_from(number) {
        Ok(band) => Some(Some(Band(band))),
        Err(_) if number == ANY => Some(None),
        Err(_) => None,
    }
}

/// The number of a flush's band.
pub(crate) fn band_number(band: Option<Band>) -> u32
    ensures { codes.band_at result ≡ Some band }
{
    match band {
        None => ANY,
        Some(Band(band)) => u32::from(band),
    }
}

/// The mode of a number.
pub(crate) fn mode_of(number: u32) -> Option<Mode>
    ensures { result ≡ codes.mode_at number }
{
    match number {
        0 => Some(Mode::Read(ReadMode::ByteStream)),
        1 => Some(Mode::Read(ReadMode::MessageKeep)),
        2 => Some(Mode::Read(ReadMode::MessageDiscard)),
        3 => Some(Mode::Control(ControlMode::Refuse)),
        4 => Some(Mode::Control(ControlMode::Data)),
        5 => Some(Mode::Control(ControlMode::Discard)),
        _ => None,
    }
}

/// The number of a mode.
pub(crate) fn mode_number(mode: Mode) -> u32
    ensures { codes.mode_at result ≡ Some mode }
{
    match mode {
        Mode::Read(ReadMode::ByteStream) => 0,
        Mode::Read(ReadMode::MessageKeep) => 1,
        Mode::Read(ReadMode::MessageDiscard) => 2,
        Mode::Control(ControlMode::Refuse) => 3,
        Mode::Control(ControlMode::Data) => 4,
        Mode::Control(ControlMode::Discard) => 5,
    }
}

/// What the number of a flush empties.
pub(crate) fn flush_of(number: u32) -> Option<FlushQueues>
    ensures { result ≡ codes.flush_at number }
{
    match number {
        1 => Some(FlushQueues::Read),
        2 => Some(FlushQueues::Write),
        3 => Some(FlushQueues::Both),
        _ => None,
    }
}

/// The number of what a flush empties.
pub(crate) fn flush_number(what: FlushQueues) -> u32
    ensures { codes.flush_at result ≡ Some what }
{
    match what {
        FlushQueues::Read => 1,
        FlushQueues::Write => 2,
        FlushQueues::Both => 3,
    }
}

/// The numbers of what a turn did.
pub fn went(turn: Turn) -> Went
    ensures { codes.turn_at result.kind result.moved ≡ Some turn }
{
    match turn {
        Turn::Idle => Went { kind: 0, moved: 0 },
        Turn::Blocked => Went { kind: 1, moved: 0 },
        Turn::Moved(moved) => Went { kind: 2, moved },
    }
}
