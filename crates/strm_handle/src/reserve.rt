//! The blocks that a pair has in reserve.

ghost use Rattle.std.specs.Prelude.{◌≡◌, ◌+◌};
ghost use Rattle.strm_types.specs.Events.{request};
ghost use Rattle.strm_laws.specs.Refusals.{enough};
ghost use Rattle.strm_handle.specs.Kept.{has_many, is_long, sends};

use strm_pair::Pair;
use strm_raw::RawStore;
use strm_types::{Event, ModuleName, Place, QueueName, Side, Way};

/// So many messages on a queue are many.
const MANY: usize = 64;

// Whether many messages wait on a queue.
fn is_long(pair: &Pair<RawStore>, side: Side, place: Place, way: Way) -> bool
    ensures { result ≡ is_long side place way pair.now.state }
{
    let (messages, _bytes) = pair.sizes(QueueName { side, place, way });
    messages >= MANY
}

/// Whether many messages that a side sent, or that came of them, wait on one of the queues on their way.
pub(crate) fn has_many(pair: &Pair<RawStore>, side: Side) -> bool
    ensures { result ≡ has_many side pair.now.state }
{
    let other = side.other();
    is_long(pair, other, Place::Head, Way::Up)
        || (is_long(pair, other, Place::Module(ModuleName::Ldterm), Way::Up)
            || (is_long(pair, side, Place::Driver, Way::Down)
                || is_long(pair, side, Place::Module(ModuleName::Ldterm), Way::Down)))
}

/// Whether so many blocks of each kind are free, and others beside them.
pub fn has_blocks(pair: &Pair<RawStore>, need: usize, beside: usize) -> bool
    ensures { result ≡ enough (need + beside) pair.now.free }
{
    let (mblks, dblks) = pair.free_blocks();
    let least = mblks.min(dblks);
    need <= least && beside <= least - need
}

/// Whether a call sends messages.
pub(crate) fn sends(event: &Event<&[u8]>) -> bool
    ensures { result ≡ sends (request event.now) }
{
    matches!(
        event,
        Event::Write { .. } | Event::Put { .. } | Event::Ioctl { .. }
    )
}
