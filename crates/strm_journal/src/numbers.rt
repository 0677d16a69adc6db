//! Numbers that stand for names, places, bands, modes and parts.

ghost use Rattle.std.specs.Prelude.{◌≡◌, ◌<◌, ◌≤◌};
ghost use Rattle.strm_types.specs.Journal.{part_len};
ghost use Rattle.strm_types.specs.Numbers.{refusal_numbered};
ghost use Rattle.strm_journal.specs.Numbers as codes;

use strm_types::{
    Band, ControlMode, FlushQueues, Mode, ModuleName, Place, Prio, ReadMode, Refusal,
};

/// Behind the numbers of modules of a user's own, and those of bands.
const LDTERM: u32 = 256;

const PTEM: u32 = 257;

const PCKT: u32 = 258;

const HEAD: u32 = 259;

const DRIVER: u32 = 260;

/// High priority, or no band: the number behind those of bands.
const NO_BAND: u32 = 256;

/// The number of a module.
pub(crate) fn module_number(name: ModuleName) -> u32
    ensures name { codes.module_at result ≡ name }
    ensures few { result < 259 }
{
    match name {
        ModuleName::Own(number) => u32::from(number),
        ModuleName::Ldterm => LDTERM,
        ModuleName::Ptem => PTEM,
        ModuleName::Pckt => PCKT,
    }
}

/// The module of a number.
pub(crate) fn module_of(number: u32) -> ModuleName
    ensures { result ≡ codes.module_at number }
{
    match u8::try_from(number) {
        Ok(own) => ModuleName::Own(own),
        Err(_) if number == LDTERM => ModuleName::Ldterm,
        Err(_) if number == PTEM => ModuleName::Ptem,
        Err(_) => ModuleName::Pckt,
    }
}

/// The number of a place.
pub(crate) fn place_number(place: Place) -> u32
    ensures { codes.place_at result ≡ place }
{
    match place {
        Place::Head => HEAD,
        Place::Driver => DRIVER,
        Place::Module(name) => module_number(name),
    }
}

/// The place of a number.
pub(crate) fn place_of(number: u32) -> Place
    ensures { result ≡ codes.place_at number }
{
    if number == HEAD {
        Place::Head
    } else if number == DRIVER {
        Place::Driver
    } else {
        Place::Module(module_of(number))
    }
}

/// The number of a priority.
#[inline(always)]
pub(crate) fn prio_number(prio: Prio) -> u32
    ensures prio { codes.prio_at result ≡ prio }
    ensures few { result ≤ 256 }
{
    match prio {
        Prio::Band(Band(band)) => u32::from(band),
        Prio::High => NO_BAND,
    }
}

/// The priority of a number.
pub(crate) fn prio_of(number: u32) -> Prio
    ensures { result ≡ codes.prio_at number }
{
    match u8::try_from(number) {
        Ok(band) => Prio::Band(Band(band)),
        Err(_) => Prio::High,
    }
}

/// The number of a flush's band, or of all.
pub(crate) fn band_number(band: Option<Band>) -> u32
    ensures { codes.band_at result ≡ band }
{
    match band {
        Some(Band(band)) => u32::from(band),
        None => NO_BAND,
    }
}

/// The band of a number.
pub(crate) fn band_of(number: u32) -> Option<Band>
    ensures { result ≡ codes.band_at number }
{
    match u8::try_from(number) {
        Ok(band) => Some(Band(band)),
        Err(_) => None,
    }
}

/// The number of what a flush empties.
pub(crate) fn flush_number(what: FlushQueues) -> u32
    ensures { codes.flush_at result ≡ what }
{
    match what {
        FlushQueues::Read => 0,
        FlushQueues::Write => 1,
        FlushQueues::Both => 2,
    }
}

/// What a flush of a number empties.
pub(crate) fn flush_of(number: u32) -> FlushQueues
    ensures { result ≡ codes.flush_at number }
{
    match number {
        0 => FlushQueues::Read,
        1 => FlushQueues::Write,
        _ => FlushQueues::Both,
    }
}

/// The number of a mode.
pub(crate) fn mode_number(mode: Mode) -> u32
    ensures { codes.mode_at result ≡ mode }
{
    match mode {
        Mode::Read(ReadMode::ByteStream) => 0,
        Mode::Read(ReadMode::MessageKeep) => 1,
        Mode::Read(ReadMode::MessageDiscard) => 2,
        Mode::Control(ControlMode::Refuse) => 3,
        Mode::Control(ControlMode::Data) => 4,
        Mode::Control(ControlMode::Discard) => 5,
    }
}

/// The mode of a number.
pub(crate) fn mode_of(number: u32) -> Mode
    ensures { result ≡ codes.mode_at number }
{
    match number {
        0 => Mode::Read(ReadMode::ByteStream),
        1 => Mode::Read(ReadMode::MessageKeep),
        2 => Mode::Read(ReadMode::MessageDiscard),
        3 => Mode::Control(ControlMode::Refuse),
        4 => Mode::Control(ControlMode::Data),
        _ => Mode::Control(ControlMode::Discard),
    }
}

/// The number of a part: one more than how many bytes it has, and 0 where it is absent.
#[inline(always)]
pub(crate) fn part_number(part: Option<u32>) -> u32
    requires { part_len part < 65535 }
    ensures part { codes.part_at result ≡ part }
    ensures few { result < 65536 }
{
    match part {
        Some(len) => len + 1,
        None => 0,
    }
}

/// How many bytes the part of a number has.
pub(crate) fn part_of(number: u32) -> Option<u32>
    ensures { result ≡ codes.part_at number }
{
    match number {
        0 => None,
        _ => Some(number - 1),
    }
}

/// The number of a refusal.
pub(crate) fn refusal_number(refusal: Refusal) -> u32
    ensures { refusal_numbered result ≡ refusal }
{
    u32::from(refusal.number())
}
