//! The text of a stream: its head, its modules from the top, the head's queue, and the driver's.

ghost use Rattle.std.specs.Prelude.{◌≡◌, Bool};
ghost use Rattle.strm_blocks.specs.Blocks.{StoreValue};
ghost use Rattle.strm_head.specs.Heads.{head_in, plain_slot};
ghost use Rattle.strm_image.specs.Image.{laid_on};
ghost use Rattle.strm_image.specs.Sinks.{put};
ghost use Rattle.strm_image.specs.Streams.{laid};
ghost use Rattle.strm_image.specs.Written.{IsShortSlot, head_text};
ghost use Rattle.strm_image.specs.declared.versions.Version.TheVariants.{Second};
ghost use Rattle.strm_pair.specs.Stacks.{IsStackHeld};
ghost use Rattle.strm_pair.specs.Streams.{stream_in};
ghost use Rattle.strm_queue.specs.Stored.{IsReady};
ghost use Rattle.strm_types.specs.Slots.{map_slot};

use crate::ends::StreamEnd;
use crate::images::modules::put_modules;
use crate::images::queues::put_queue;
use strm_blocks::Blocks;
use strm_head::{Head, IoctlBytes};
use strm_image::writing::{put_control_mode, put_head_bits, put_read_mode, put_signals, put_slot};
use strm_image::{HeadBits, QueueKind, Sink};
use strm_types::Slot;

// The ioctl under way, with the bytes of its answer.
fn slot_of(ioctl: &Slot<IoctlBytes>) -> Slot<&[u8]>
    ensures slot { map_slot (λ b. b.now) result ≡ plain_slot ioctl.now }
    ensures short { IsShortSlot (map_slot (λ b. b.now) result) }
{
    match ioctl {
        Slot::Free => Slot::Free,
        Slot::Waiting { number, command } => Slot::Waiting {
            number: *number,
            command: *command,
        },
        Slot::Answered {
            number,
            command,
            acked,
            error,
            body,
        } => Slot::Answered {
            number: *number,
            command: *command,
            acked: *acked,
            error: *error,
            body: body.as_slice(),
        },
    }
}

// A head without its queue.
#[tactic(auto, using(strm_image::proofs::SinkRows::put_both))]
fn put_head(out: &mut Sink, head: &Head)
    ensures { (s : StoreValue) (is_slave : Bool) → out.new ≡ put (head_text is_slave (head_in s head.now)) out.old }
{
    put_read_mode(out, head.read_mode);
    put_control_mode(out, head.control_mode);
    let flags = HeadBits {
        hung_up: head.hung_up,
        tostop: head.tostop,
        group: head.group,
    };
    put_head_bits(out, &flags);
    put_signals(out, head.signals.as_slice());
    put_slot(out, slot_of(&head.ioctl));
}

/// Writes the stream of a side between two calls.
#[tactic(auto, using(strm_image::proofs::SinkRows::put_both, strm_image::proofs::WrittenRows::laid_told))]
pub(crate) fn put_stream<'a, B: Blocks>(store: &B, end: &StreamEnd, out: Sink<'a>) -> Sink<'a>
    requires head { IsReady (B.value store.now) end.now.head.queue }
    requires driver { IsReady (B.value store.now) end.now.driver }
    requires stack { IsStackHeld (B.value store.now) end.now.stack }
    ensures { (is_slave : Bool) → result ≡ put ((laid Second is_slave).text (laid_on (stream_in (B.value store.now) end.now))) out.entry }
{
    let mut out = out;
    put_head(&mut out, &end.head);
    let out = put_modules(store, &end.stack, out);
    let out = put_queue(store, &end.head.queue, QueueKind::Head, out);
    put_queue(store, &end.driver, QueueKind::Driver, out)
}
