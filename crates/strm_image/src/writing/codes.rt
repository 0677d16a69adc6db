//! Values that stand in a text as one byte each, or as one and a number behind it.

ghost use Rattle.std.specs.Prelude.{◌≡◌};
ghost use Rattle.strm_image.specs.Codes as codes;
ghost use Rattle.strm_image.specs.Sinks.{put};

use crate::sink::Sink;
use strm_types::{ControlMode, ModuleName, MsgKind, Openness, Place, ReadMode, Side, Way};

/// A truth value.
#[tactic(auto, unfolding(crate::specs::Codes::flag))]
pub fn put_flag(out: &mut Sink, value: bool)
    ensures { out.new ≡ put (codes.flag.text value) out.old }
{
    out.put(&[u8::from(value)]);
}

/// Whether a side is open.
#[tactic(auto, unfolding(crate::specs::Codes::openness))]
pub fn put_openness(out: &mut Sink, openness: Openness)
    ensures { out.new ≡ put (codes.openness.text openness) out.old }
{
    let code = match openness {
        Openness::Never => 0,
        Openness::Open => 1,
        Openness::Closed => 2,
    };
    out.put(&[code]);
}

/// How a read treats the ends of messages.
#[tactic(auto, unfolding(crate::specs::Codes::read_mode))]
pub fn put_read_mode(out: &mut Sink, mode: ReadMode)
    ensures { out.new ≡ put (codes.read_mode.text mode) out.old }
{
    let code = match mode {
        ReadMode::ByteStream => 0,
        ReadMode::MessageDiscard => 1,
        ReadMode::MessageKeep => 2,
    };
    out.put(&[code]);
}

/// How a read treats control parts.
#[tactic(auto, unfolding(crate::specs::Codes::control_mode))]
pub fn put_control_mode(out: &mut Sink, mode: ControlMode)
    ensures { out.new ≡ put (codes.control_mode.text mode) out.old }
{
    let code = match mode {
        ControlMode::Refuse => 0,
        ControlMode::Data => 1,
        ControlMode::Discard => 2,
    };
    out.put(&[code]);
}

/// A side.
#[tactic(auto, unfolding(crate::specs::Codes::side))]
pub fn put_side(out: &mut Sink, side: Side)
    ensures { out.new ≡ put (codes.side.text side) out.old }
{
    let code = match side {
        Side::Master => 0,
        Side::Slave => 1,
    };
    out.put(&[code]);
}

/// What a queue belongs to. The number of a module of a user's own stands behind its kind.
#[tactic(auto, unfolding(crate::specs::Codes::place, crate::specs::Codes::place_kind))]
pub fn put_place(out: &mut Sink, place: Place)
    ensures { out.new ≡ put (codes.place.text place) out.old }
{
    match place {
        Place::Head => out.put(&[0]),
        Place::Module(ModuleName::Own(number)) => out.put(&[3, number]),
        Place::Module(_) => out.put(&[1]),
        Place::Driver => out.put(&[2]),
    }
}

/// A read queue, or a write queue.
#[tactic(auto, unfolding(crate::specs::Codes::way))]
pub fn put_way(out: &mut Sink, way: Way)
    ensures { out.new ≡ put (codes.way.text way) out.old }
{
    let code = match way {
        Way::Up => 0,
        Way::Down => 1,
    };
    out.put(&[code]);
}

/// The name of a module: its kind, and the number of one of a user's own.
#[tactic(auto, unfolding(crate::specs::Codes::module_kind, crate::specs::Codes::name_kind))]
pub fn put_module_name(out: &mut Sink, name: ModuleName)
    ensures { out.new ≡ put (codes.module_kind.text name) out.old }
{
    match name {
        ModuleName::Ldterm => out.put(&[1]),
        ModuleName::Ptem => out.put(&[2]),
        ModuleName::Pckt => out.put(&[3]),
        ModuleName::Own(number) => out.put(&[4, number]),
    }
}

/// The kind of a message, by the numbers of sys/stream.h.
#[tactic(auto, unfolding(crate::specs::Codes::kind, strm_types::specs::Kinds::kind_number))]
pub fn put_kind(out: &mut Sink, kind: MsgKind)
    ensures { out.new ≡ put (codes.kind.text kind) out.old }
{
    out.put(&[kind as u8]);
}
