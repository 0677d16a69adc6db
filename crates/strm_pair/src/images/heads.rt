//! Heads as a text has them.

ghost use Rattle.std.specs.Prelude.{◌≡◌, ◌≤◌, length};
ghost use Rattle.strm_types.specs.declared.limits.TheConstants.{IOCTL_MAX};
ghost use Rattle.strm_types.specs.Signals.{AreSignals};
ghost use Rattle.strm_types.specs.Slots.{answer_bytes, map_slot};
ghost use Rattle.strm_blocks.specs.Blocks.{StoreValue};
ghost use Rattle.strm_head.specs.Heads.{head_in, plain_slot};
ghost use Rattle.strm_image.specs.StreamTexts.{laid_now};
ghost use Rattle.strm_queue.specs.Stored.{queue_in};

use arrayvec::ArrayVec;
use strm_head::{Head, IoctlBytes, Signals};
use strm_image::StreamText;
use strm_queue::Queue;
use strm_types::Slot;

// The signals that wait, in the order in which they came.
fn signals_of(numbers: &[u8]) -> Signals
    requires { AreSignals numbers.now }
    ensures { result ≡ numbers.now }
{
    let mut signals = Signals::new();
    for number in numbers {
        signals.post(&[*number]);
    }
    signals
}

// The bytes of an answer.
fn answer_of(bytes: &[u8]) -> IoctlBytes
    requires { length bytes.now ≤ IOCTL_MAX }
    ensures { result.items ≡ bytes.now }
{
    let mut body = ArrayVec::new();
    body.try_extend_from_slice(bytes).unwrap();
    body
}

// The ioctl under way, with the bytes of its answer.
fn slot_of(slot: &Slot<&[u8]>) -> Slot<IoctlBytes>
    requires { length (answer_bytes (map_slot (λ b. b.now) slot.now)) ≤ IOCTL_MAX }
    ensures { plain_slot result ≡ map_slot (λ b. b.now) slot.now }
{
    match slot {
        Slot::Free => Slot::Free,
        Slot::Waiting { number, command } => Slot::Waiting {
            number: *number,
            command: *command,
        },
        Slot::Answered {
            number,
            command,
            acked,
            error,
            body,
        } => Slot::Answered {
            number: *number,
            command: *command,
            acked: *acked,
            error: *error,
            body: answer_of(body),
        },
    }
}

/// Makes a head of a text, over its queue.
pub(crate) fn head_of(queue: Queue, text: &StreamText<'_>) -> Head
    requires signals { AreSignals text.now.signals.now }
    requires answer { length (answer_bytes (map_slot (λ b. b.now) text.now.slot)) ≤ IOCTL_MAX }
    ensures head { (s : StoreValue) → head_in s result ≡ record (laid_now text.now).head { queue = queue_in s queue } }
    ensures queue { result.queue ≡ queue }
{
    Head {
        queue,
        read_mode: text.read_mode,
        control_mode: text.control_mode,
        tostop: text.bits.tostop,
        group: text.bits.group,
        hung_up: text.bits.hung_up,
        signals: signals_of(text.signals),
        ioctl: slot_of(&text.slot),
    }
}
