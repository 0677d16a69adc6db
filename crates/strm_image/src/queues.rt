//! Queues as they stand in a text.

ghost use Rattle.std.specs.Prelude.{◌≡◌};
ghost use Rattle.strm_image.specs.Format.{Reads, ◌then◌};
ghost use Rattle.strm_image.specs.Queues.{flags, queue};
ghost use Rattle.strm_image.specs.QueueTexts.{queue_now};

use crate::bands::flows_at;
use crate::fields::byte_at;
use crate::messages::messages_at;
use crate::passed::{FlowsText, MessagesText};
use crate::versions::{QueueKind, Version};

/// A queue, where it stands in a text: its flags, the flow control of its bands from 0 up, and its messages.
#[derive(Clone, Copy)]
pub struct QueueText<'a> {
    pub want_read: bool,
    pub no_enable: bool,
    pub flows: FlowsText<'a>,
    pub messages: MessagesText<'a>,
}

// The flags of a queue: whether it wants to be read, and whether enabling is off.
#[tactic(auto, unfolding(crate::specs::Queues::flags, crate::specs::Queues::flags_code))]
fn flags_at(text: &[u8]) -> Option<((bool, bool), &[u8])>
    ensures { Reads (λ x. (x.0, x.1.now)) result (flags.read text.now) }
{
    let (code, rest) = byte_at(text)?;
    let bits = match code {
        0 => (false, false),
        1 => (true, false),
        2 => (false, true),
        3 => (true, true),
        _ => return None,
    };
    Some((bits, rest))
}

/// A queue at the front of a text.
#[tactic(auto, unfolding(crate::specs::Queues::queue))]
pub fn queue_at(text: &[u8], version: Version, at: QueueKind) -> Option<(QueueText<'_>, &[u8])>
    ensures { Reads (λ x. (queue_now x.0, x.1.now)) result ((queue version at).read text.now) }
{
    let ((want_read, no_enable), rest) = flags_at(text)?;
    let (flows, rest) = flows_at(rest, version, at)?;
    let (messages, rest) = messages_at(rest, version, at)?;
    let found = QueueText {
        want_read,
        no_enable,
        flows,
        messages,
    };
    Some((found, rest))
}

/// Two queues, one behind the other.
pub fn queues_at(
    text: &[u8],
    version: Version,
    first: QueueKind,
    second: QueueKind,
) -> Option<((QueueText<'_>, QueueText<'_>), &[u8])>
    ensures { Reads (λ x. ((queue_now x.0.0, queue_now x.0.1), x.1.now)) result
        ((queue version first then queue version second).read text.now) }
{
    let (before, rest) = queue_at(text, version, first)?;
    let (behind, rest) = queue_at(rest, version, second)?;
    Some(((before, behind), rest))
}
