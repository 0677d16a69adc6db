//! The text of a queue: its flags, the flow control of its bands, and its messages.

ghost use Rattle.std.specs.Prelude.{◌≡◌, length};
ghost use Rattle.strm_image.specs.Queues as formats;
ghost use Rattle.strm_image.specs.Sinks.{put};
ghost use Rattle.strm_image.specs.declared.versions.Version.TheVariants.{Second};
ghost use Rattle.strm_queue.specs.Stored.{queue_in, IsReady};
ghost use Rattle.strm_types.specs.declared.limits.TheConstants.{BANDS};

use crate::images::texts::put_messages;
use strm_blocks::Blocks;
use strm_image::writing::{Bands, put_flows, put_queue_flags};
use strm_image::{Flow, QueueKind, Sink};
use strm_queue::{Flows, Queue};
use strm_types::{Band, Marks};

// The bands of a queue, one by one.
#[derive(Drop)]
struct BandsOf<'a> {
    flows: &'a Flows,
    ghost all: { length flows.now ≡ BANDS },
}

impl<'a> Bands for BandsOf<'a> {
    ghost use Rattle.strm_queue.specs.Flows.{plain_flows};

    ghost flows = { λ b. plain_flows b.flows.now };

    fn flow(&self, band: u8) -> Flow {
        let own = self.flows.at(Band(band));
        Flow {
            high: own.high,
            low: own.low,
            want_write: own.want_write,
        }
    }

    fn shared_above(&self) -> Option<Marks> {
        self.flows.shared_above()
    }
}

/// Writes a queue, of a kind by its place, in version 2. The cost is two steps for each block of its messages, and, where a band above 0
/// has marks of its own or a writer waits for one, two for each band.
#[tactic(auto, using(strm_image::proofs::SinkRows::put_both, strm_image::proofs::WrittenRows::queue_told))]
pub(crate) fn put_queue<'a, B: Blocks>(
    store: &B,
    queue: &Queue,
    at: QueueKind,
    out: Sink<'a>,
) -> Sink<'a>
    requires { IsReady (B.value store.now) queue.now }
    ensures { result ≡ put ((formats.queue Second at).text (queue_in (B.value store.now) queue.now)) out.entry }
{
    let mut out = out;
    put_queue_flags(&mut out, queue.want_read, queue.no_enable);
    let bands = BandsOf {
        flows: &queue.flows,
    };
    put_flows(&mut out, &bands, at);
    put_messages(store, queue, out)
}
