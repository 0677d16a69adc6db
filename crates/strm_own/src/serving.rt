//! The service procedure of a module of a user's own (srv(9E), getq(9F); STREAMS Programming Guide, "Service Procedures").

ghost use Rattle.std.specs.Prelude.{◌≡◌, ◌<◌, ◌≤◌, [], false, Some};
ghost use Rattle.strm_types.specs.declared.limits.TheConstants.{MODULES};
ghost use Rattle.strm_types.specs.Cells.{plain};
ghost use Rattle.strm_types.specs.OwnStands.{own_served};
ghost use Rattle.strm_types.specs.Standings.{stood, way_queue};
ghost use Rattle.strm_laws.specs.Behaviours.{own_by};
ghost use Rattle.strm_frame.specs.Hands.{HasRoom, IsWide};
ghost use Rattle.strm_frame.specs.Outboxes.{sent_of};
ghost use Rattle.strm_frame.specs.Standings.{IsPairReady, pair_in};
ghost use Rattle.strm_own.specs.Stands.{HasQueues, ServesThere, turn_room};

use crate::asking::{both_ask, wake};
use crate::own::{Own, OwnModule};
use crate::putting::put_alone;
use arrayvec::ArrayVec;
use strm_blocks::Blocks;
use strm_frame::{Acts, Outbox, QueuePair, Served};
use strm_msg::message_size;
use strm_types::{Fates, Spot};

/// A call that does nothing.
pub(crate) fn unserved() -> Served
    ensures notes { result.acts.notes.items ≡ [] }
    ensures sent { sent_of result.acts.sent ≡ [] }
    ensures bytes { result.bytes ≡ 0 }
    ensures stopped { result.stopped ≡ false }
    ensures again { result.again ≡ false }
{
    Served {
        acts: Acts {
            notes: ArrayVec::new(),
            sent: Outbox::none(),
        },
        bytes: 0,
        stopped: false,
        again: false,
    }
}

/// Takes the first message off the queue of a way, and puts it at the module, which does with it what it does with one that comes and doesn't wait.
/// It treats the message whole. A queue is enabled whose first message may go on now, as none before could. The cost is a step for each block of the
/// message, and what the module's put costs.
#[inline(never)]
pub(crate) fn serve<M: OwnModule, B: Blocks>(
    own: &mut Own,
    pair: &mut QueuePair,
    store: &mut B,
    here: Spot,
    told: &mut Fates,
) -> Served
    requires ready { IsPairReady (B.value store.old) pair.old }
    requires has { HasQueues own.old (Some pair.old) }
    requires room { HasRoom (B.value store.old) turn_room }
    requires wide { IsWide M.wide (B.value store.old) }
    requires inside { 0 < here.at }
    requires small { here.at ≤ MODULES }
    ensures { let s = B.value store.old in let queues = pair_in s pair.old in
        ServesThere s (B.value store.new) own.old (Some pair.old) own.new (Some pair.new) result told.old told.new
        (own_served (own_by M.does plain) here (stood own.old (Some queues)) queues (way_queue here.way queues).messages) }
{
    let before = both_ask::<M, B>(own, store, pair);
    let Some(message) = pair.take(store, here.way) else {
        return unserved();
    };
    store.audit();
    let bytes = message_size(store, &message);
    let acts = put_alone::<M, B>(own, store, here, message, told);
    Served {
        acts: wake::<M, B>(own, store, pair, before, acts),
        bytes,
        stopped: false,
        again: false,
    }
}
