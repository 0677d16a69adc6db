//! Values that stand in a text as one byte each, or as one and a number behind it. Each reader answers the value and the bytes behind
//! it, and none where the byte is that of no value.

ghost use Rattle.std.specs.Prelude.{◌≡◌};
ghost use Rattle.strm_image.specs.Codes.{control_mode, flag, is_queued, kind, module_kind, name_kind, openness, place, place_kind, read_mode, side};
ghost use Rattle.strm_image.specs.Codes.{version, way};
ghost use Rattle.strm_image.specs.Format.{Reads, byte, only};

use crate::fields::byte_at;
use crate::versions::{NameKind, PlaceKind, Version};
use strm_types::{
    ControlMode, ModuleName, MsgKind, OWN_QUEUED, Openness, Place, ReadMode, Side, Way,
};

/// A truth value.
#[tactic(auto, unfolding(crate::specs::Codes::flag))]
pub fn flag_at(text: &[u8]) -> Option<(bool, &[u8])>
    ensures { Reads (λ x. (x.0, x.1.now)) result (flag.read text.now) }
{
    let (code, rest) = byte_at(text)?;
    let value = match code {
        0 => false,
        1 => true,
        _ => return None,
    };
    Some((value, rest))
}

/// The version of an image.
#[tactic(auto, unfolding(crate::specs::Codes::version))]
pub fn version_at(text: &[u8]) -> Option<(Version, &[u8])>
    ensures { Reads (λ x. (x.0, x.1.now)) result (version.read text.now) }
{
    let (code, rest) = byte_at(text)?;
    let value = match code {
        1 => Version::First,
        2 => Version::Second,
        _ => return None,
    };
    Some((value, rest))
}

/// Whether a side is open.
#[tactic(auto, unfolding(crate::specs::Codes::openness))]
pub fn openness_at(text: &[u8]) -> Option<(Openness, &[u8])>
    ensures { Reads (λ x. (x.0, x.1.now)) result (openness.read text.now) }
{
    let (code, rest) = byte_at(text)?;
    let value = match code {
        0 => Openness::Never,
        1 => Openness::Open,
        2 => Openness::Closed,
        _ => return None,
    };
    Some((value, rest))
}

/// How a read treats the ends of messages.
#[tactic(auto, unfolding(crate::specs::Codes::read_mode))]
pub fn read_mode_at(text: &[u8]) -> Option<(ReadMode, &[u8])>
    ensures { Reads (λ x. (x.0, x.1.now)) result (read_mode.read text.now) }
{
    let (code, rest) = byte_at(text)?;
    let value = match code {
        0 => ReadMode::ByteStream,
        1 => ReadMode::MessageDiscard,
        2 => ReadMode::MessageKeep,
        _ => return None,
    };
    Some((value, rest))
}

/// How a read treats control parts.
#[tactic(auto, unfolding(crate::specs::Codes::control_mode))]
pub fn control_mode_at(text: &[u8]) -> Option<(ControlMode, &[u8])>
    ensures { Reads (λ x. (x.0, x.1.now)) result (control_mode.read text.now) }
{
    let (code, rest) = byte_at(text)?;
    let value = match code {
        0 => ControlMode::Refuse,
        1 => ControlMode::Data,
        2 => ControlMode::Discard,
        _ => return None,
    };
    Some((value, rest))
}

/// An end of the pair.
#[tactic(auto, unfolding(crate::specs::Codes::side))]
pub fn side_at(text: &[u8]) -> Option<(Side, &[u8])>
    ensures { Reads (λ x. (x.0, x.1.now)) result (side.read text.now) }
{
    let (code, rest) = byte_at(text)?;
    let value = match code {
        0 => Side::Master,
        1 => Side::Slave,
        _ => return None,
    };
    Some((value, rest))
}

// What kind of place one is.
#[tactic(auto, unfolding(crate::specs::Codes::place_kind))]
fn place_kind_at(text: &[u8]) -> Option<(PlaceKind, &[u8])>
    ensures { Reads (λ x. (x.0, x.1.now)) result (place_kind.read text.now) }
{
    let (code, rest) = byte_at(text)?;
    let value = match code {
        0 => PlaceKind::Head,
        1 => PlaceKind::Ldterm,
        2 => PlaceKind::Driver,
        3 => PlaceKind::Own,
        _ => return None,
    };
    Some((value, rest))
}

// The number of a module of a user's own that has queues.
fn queued_at(text: &[u8]) -> Option<(u8, &[u8])>
    ensures { Reads (λ x. (x.0, x.1.now)) result ((only is_queued byte).read text.now) }
{
    let (number, rest) = byte_at(text)?;
    if number < OWN_QUEUED {
        return None;
    }
    Some((number, rest))
}

/// What a queue belongs to. The number of a module of a user's own stands behind its kind; one without queues is no such place.
#[tactic(auto, unfolding(crate::specs::Codes::place))]
pub fn place_at(text: &[u8]) -> Option<(Place, &[u8])>
    ensures { Reads (λ x. (x.0, x.1.now)) result (place.read text.now) }
{
    let (kind, rest) = place_kind_at(text)?;
    match kind {
        PlaceKind::Head => Some((Place::Head, rest)),
        PlaceKind::Ldterm => Some((Place::Module(ModuleName::Ldterm), rest)),
        PlaceKind::Driver => Some((Place::Driver, rest)),
        PlaceKind::Own => {
            let (number, rest) = queued_at(rest)?;
            Some((Place::Module(ModuleName::Own(number)), rest))
        }
    }
}

/// Whether a queue is a read queue or a write queue.
#[tactic(auto, unfolding(crate::specs::Codes::way))]
pub fn way_at(text: &[u8]) -> Option<(Way, &[u8])>
    ensures { Reads (λ x. (x.0, x.1.now)) result (way.read text.now) }
{
    let (code, rest) = byte_at(text)?;
    let value = match code {
        0 => Way::Up,
        1 => Way::Down,
        _ => return None,
    };
    Some((value, rest))
}

#[tactic(auto, unfolding(crate::specs::Codes::name_kind))]
fn name_kind_at(text: &[u8]) -> Option<(NameKind, &[u8])>
    ensures { Reads (λ x. (x.0, x.1.now)) result (name_kind.read text.now) }
{
    let (code, rest) = byte_at(text)?;
    let value = match code {
        1 => NameKind::Ldterm,
        2 => NameKind::Ptem,
        3 => NameKind::Pckt,
        4 => NameKind::Own,
        _ => return None,
    };
    Some((value, rest))
}

/// Which module one is. The number of one of a user's own stands behind its kind.
#[tactic(auto, unfolding(crate::specs::Codes::module_kind))]
pub fn module_kind_at(text: &[u8]) -> Option<(ModuleName, &[u8])>
    ensures { Reads (λ x. (x.0, x.1.now)) result (module_kind.read text.now) }
{
    let (kind, rest) = name_kind_at(text)?;
    match kind {
        NameKind::Ldterm => Some((ModuleName::Ldterm, rest)),
        NameKind::Ptem => Some((ModuleName::Ptem, rest)),
        NameKind::Pckt => Some((ModuleName::Pckt, rest)),
        NameKind::Own => {
            let (number, rest) = byte_at(rest)?;
            Some((ModuleName::Own(number), rest))
        }
    }
}

/// The kind of a message.
#[tactic(auto, unfolding(crate::specs::Codes::kind, strm_types::specs::Kinds::kind_number))]
pub fn kind_at(text: &[u8]) -> Option<(MsgKind, &[u8])>
    ensures { Reads (λ x. (x.0, x.1.now)) result (kind.read text.now) }
{
    let (code, rest) = byte_at(text)?;
    let value = match code {
        0x00 => MsgKind::Data,
        0x01 => MsgKind::Proto,
        0x0b => MsgKind::Sig,
        0x0d => MsgKind::Ctl,
        0x0e => MsgKind::Ioctl,
        0x10 => MsgKind::Setopts,
        0x81 => MsgKind::Iocack,
        0x82 => MsgKind::Iocnak,
        0x83 => MsgKind::Pcproto,
        0x84 => MsgKind::Pcsig,
        0x85 => MsgKind::Read,
        0x86 => MsgKind::Flush,
        0x87 => MsgKind::Stop,
        0x88 => MsgKind::Start,
        0x89 => MsgKind::Hangup,
        0x8a => MsgKind::Error,
        _ => return None,
    };
    Some((value, rest))
}
