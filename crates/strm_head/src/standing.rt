//! What stands on a head's queue.

ghost use Rattle.std.specs.Prelude.{◌≡◌, ◌+◌, ◌-◌, ◌^◌, ◌&&◌, min, length, not, false, true, List};
ghost use Rattle.strm_types.specs.Queue.{relieved, relieves};
ghost use Rattle.strm_types.specs.Reads.{finds_none, starts_refused, takes_none};
ghost use Rattle.strm_types.specs.Gets.{get_refusal};
ghost use Rattle.strm_blocks.specs.Blocks.{Block, StoreValue};
ghost use Rattle.strm_queue.specs.Kept.{AreCounted};
ghost use Rattle.strm_queue.specs.Queues.{OnlyCounts};
ghost use Rattle.strm_queue.specs.Stored.{queue_in, messages_on, IsReady, IsHeadQueue};
ghost use Rattle.strm_head.specs.Seen.{peek_wanted, gets_on};
ghost use Rattle.strm_head.specs.Drawing.{behind_passed, drops_control, first_passed, first_goes};

use strm_blocks::{Blocks, Peek};
use strm_queue::Queue;
use strm_queue::lengths::{first_data, first_size, next_data};
use strm_types::{ControlMode, Refusal, Wanted};

/// Whether a read passes messages over that have no data part, and drops the bytes of control parts: under RPROTDIS.
pub(crate) fn drops_control(control: ControlMode) -> bool
    ensures { result ≡ drops_control control }
{
    matches!(control, ControlMode::Discard)
}

/// Whether a read finds nothing: no message, or under RPROTDIS none that has a data part. The cost under RPROTDIS is a step for each
/// block of the messages that are passed over, and of the next.
pub(crate) fn finds_none<B: Blocks>(store: &B, queue: &Queue, control: ControlMode) -> bool
    requires { IsHeadQueue (B.value store.now) queue.now }
    ensures { result ≡ finds_none control (messages_on (B.value store.now) queue.now.list) }
{
    if !drops_control(control) {
        return queue.is_empty(store);
    }
    next_data(store, queue).is_none()
}

/// Whether the first message has a control part under RPROTNORM: its first block is M_PROTO or M_PCPROTO.
pub(crate) fn starts_refused<B: Blocks>(store: &B, queue: &Queue, control: ControlMode) -> bool
    requires { IsHeadQueue (B.value store.now) queue.now }
    ensures { result ≡ starts_refused control (messages_on (B.value store.now) queue.now.list) }
{
    match (control, store.peek(queue.list)) {
        (ControlMode::Refuse, Some(first)) => first.kind.is_control_kind(),
        _ => false,
    }
}

/// Whether a read of up to `n` bytes has nothing to take.
pub(crate) fn takes_none<B: Blocks>(
    store: &B,
    queue: &Queue,
    control: ControlMode,
    n: usize,
) -> bool
    requires { IsHeadQueue (B.value store.now) queue.now }
    ensures { result ≡ takes_none control n (messages_on (B.value store.now) queue.now.list) }
{
    n == 0 || finds_none(store, queue, control) || starts_refused(store, queue, control)
}

/// Whether a read passes the first message over.
pub(crate) fn first_passed<B: Blocks>(store: &B, queue: &Queue, control: ControlMode) -> bool
    requires { IsHeadQueue (B.value store.now) queue.now }
    ensures { result ≡ first_passed control (messages_on (B.value store.now) queue.now.list) }
{
    if !drops_control(control) {
        return false;
    }
    !queue.is_empty(store) && first_data(store, queue).is_none()
}

// Whether there is a message that a read takes which has begun to give, behind those that it passes over. It stops at a control part
// under RPROTNORM, and at a message that has no bytes to give.
fn reaches_one<B: Blocks>(store: &B, queue: &Queue, control: ControlMode) -> bool
    requires { IsHeadQueue (B.value store.now) queue.now }
    ensures { result ≡ first_goes control true (behind_passed control (messages_on (B.value store.now) queue.now.list)) }
{
    if drops_control(control) {
        return next_data(store, queue).unwrap_or(0) > 0;
    }
    !starts_refused(store, queue, control) && first_size(store, queue) > 0
}

/// Whether there is a message that a read takes, behind those that it passes over. Before it has begun to give there is one, which isn't
/// looked for again; then the cost is a step for each block of these, and of the next.
pub(crate) fn takes_one<B: Blocks>(
    store: &B,
    queue: &Queue,
    control: ControlMode,
    begun: bool,
) -> bool
    requires readable { IsHeadQueue (B.value store.now) queue.now }
    requires goes { begun ≡ false → first_goes control false (behind_passed control (messages_on (B.value store.now) queue.now.list)) ≡ true }
    ensures { result ≡ first_goes control begun (behind_passed control (messages_on (B.value store.now) queue.now.list)) }
{
    if !begun {
        return true;
    }
    reaches_one(store, queue, control)
}

// Whether a message is the one that a get asks for.
fn is_asked_for(wanted: Wanted, message: Peek) -> bool
    ensures { result ≡ peek_wanted wanted message }
{
    match wanted {
        Wanted::Any => true,
        Wanted::High => message.kind.is_high_priority(),
        Wanted::Band(band) => message.kind.is_high_priority() || band.0 <= message.band.0,
    }
}

// Whether a get may go on.
fn gets_on<B: Blocks>(store: &B, queue: &Queue, wanted: Wanted, at_end: bool) -> bool
    ensures { result ≡ gets_on wanted at_end (messages_on (B.value store.now) queue.now.list) }
{
    match store.peek(queue.list) {
        Some(peek) => is_asked_for(wanted, peek),
        None => at_end,
    }
}

/// What a get is refused for: EAGAIN where the first message isn't the one that is asked for, or there is none and the input
/// isn't at its end.
pub(crate) fn get_refusal<B: Blocks>(
    store: &B,
    queue: &Queue,
    wanted: Wanted,
    at_end: bool,
) -> Option<Refusal>
    ensures { result ≡ get_refusal wanted at_end (messages_on (B.value store.now) queue.now.list) }
{
    if gets_on(store, queue, wanted, at_end) {
        None
    } else {
        Some(Refusal::Eagain)
    }
}
