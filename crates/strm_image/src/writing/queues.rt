//! What a text has of queues beside their bands and messages, and the enabled queues.

ghost use Rattle.std.specs.Prelude.{◌≡◌, ◌<◌, length};
ghost use Rattle.std.specs.List.{flat_map};
ghost use Rattle.strm_image.specs.Image.{enabled, queue_name};
ghost use Rattle.strm_image.specs.Queues.{flags};
ghost use Rattle.strm_image.specs.Sinks.{put};

use crate::sink::Sink;
use crate::writing::codes::{put_place, put_side, put_way};
use strm_types::QueueName;

/// The flags of a queue.
#[tactic(auto, unfolding(crate::specs::Queues::flags, crate::specs::Queues::flags_code))]
pub fn put_queue_flags(out: &mut Sink, want_read: bool, no_enable: bool)
    ensures { out.new ≡ put (flags.text (want_read, no_enable)) out.old }
{
    let reads = if want_read { 1 } else { 0 };
    let off = if no_enable { 2 } else { 0 };
    out.put(&[reads + off]);
}

// The name of a queue.
#[tactic(auto, unfolding(crate::specs::Image::queue_name), using(crate::proofs::SinkRows::put_both))]
fn put_name(out: &mut Sink, name: &QueueName)
    ensures { out.new ≡ put (queue_name.text name.now) out.old }
{
    put_side(out, name.side);
    put_place(out, name.place);
    put_way(out, name.way);
}

// Names, one behind the other.
#[tactic(auto, using(crate::proofs::SinkRows::put_nothing))]
fn put_names(out: &mut Sink, names: &[QueueName])
    ensures { out.new ≡ put (flat_map queue_name.text names.now) out.old }
{
    for name in names {
        put_name(out, name);
    }
}

/// The enabled queues, in the order of enabling.
pub fn put_enabled(out: &mut Sink, names: &[QueueName])
    requires { length names.now < 256 }
    ensures { out.new ≡ put (enabled.text names.now) out.old }
{
    out.put(&[names.len() as u8]);
    put_names(out, names);
}
