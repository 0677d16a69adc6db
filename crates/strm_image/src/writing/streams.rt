//! What a text has of a stream beside its modules and queues.

ghost use Rattle.std.specs.Prelude.{◌≡◌, ◌<◌, Bool, length};
ghost use Rattle.strm_types.specs.Slots.{map_slot};
ghost use Rattle.strm_image.specs.Sinks.{put};
ghost use Rattle.strm_image.specs.Streams.{bits, bits_of, head_bits, signals, slot};
ghost use Rattle.strm_image.specs.StreamTexts.{bits_now};
ghost use Rattle.strm_image.specs.Written.{IsShortSlot};

use crate::sink::Sink;
use crate::streams::HeadBits;
use crate::writing::codes::put_flag;
use crate::writing::fields::put_u32;
use strm_types::Slot;

/// The signals that wait.
#[tactic(auto, unfolding(crate::specs::Streams::signals), using(crate::proofs::SinkRows::put_both))]
pub fn put_signals(out: &mut Sink, numbers: &[u8])
    requires { length numbers.now < 256 }
    ensures { out.new ≡ put (signals.text numbers.now) out.old }
{
    out.put(&[numbers.len() as u8]);
    out.put(numbers);
}

// The byte of the flags of a head.
#[tactic(auto, unfolding(crate::specs::Streams::bits, crate::specs::Streams::bits_code))]
fn put_bits(out: &mut Sink, flags: &HeadBits)
    ensures { out.new ≡ put (bits.text (bits_of (bits_now flags.now))) out.old }
{
    let hung = if flags.hung_up { 1 } else { 0 };
    let stops = if flags.tostop { 2 } else { 0 };
    let group = if flags.group > 0 { 4 } else { 0 };
    out.put(&[hung + (stops + group)]);
}

/// The flags of a head, and the group behind them where there is one.
#[tactic(auto, unfolding(crate::specs::Streams::head_bits), using(crate::proofs::SinkRows::put_both))]
pub fn put_head_bits(out: &mut Sink, flags: &HeadBits)
    ensures { (is_slave : Bool) → out.new ≡ put ((head_bits is_slave).text (bits_now flags.now)) out.old }
{
    put_bits(out, flags);
    if flags.group > 0 {
        put_u32(out, flags.group);
    }
}

/// The ioctl that is under way.
#[tactic(auto, unfolding(crate::specs::Streams::slot, crate::specs::Streams::slot_kind), using(crate::proofs::SinkRows::put_both))]
pub fn put_slot(out: &mut Sink, under_way: Slot<&[u8]>)
    requires { IsShortSlot (map_slot (λ b. b.now) under_way) }
    ensures { out.new ≡ put (slot.text (map_slot (λ b. b.now) under_way.entry)) out.old }
{
    match under_way {
        Slot::Free => out.put(&[0]),
        Slot::Waiting { number, command } => {
            out.put(&[1]);
            put_u32(out, number);
            put_u32(out, command);
        }
        Slot::Answered {
            number,
            command,
            acked,
            error,
            body,
        } => {
            out.put(&[2]);
            put_u32(out, number);
            put_u32(out, command);
            put_flag(out, acked);
            put_u32(out, error);
            put_u32(out, body.len() as u32);
            out.put(body);
        }
    }
}
