//! Messages of a text, made in a store and put on queues.

ghost use Rattle.std.specs.Prelude.{◌≡◌, ◌≤◌, ◌<◌, ◌++◌, [], ◌∷◌, length, option_map, sum_by};
ghost use Rattle.std.specs.List.{AllByRecursion};
ghost use Rattle.strm_types.specs.Message.{rank_of};
ghost use Rattle.strm_blocks.specs.Blocks.{token};
ghost use Rattle.strm_queue.specs.Stored.{queue_in, messages_on, IsReady, Changes};
ghost use Rattle.strm_image.specs.Loads.{blocks_of};
ghost use Rattle.strm_image.specs.Messages as texts;
ghost use Rattle.strm_image.specs.Texts.{IsGood, message_now, messages_now, parts_now};
ghost use Rattle.strm_frame.specs.Hands.{HasRoom};
ghost use Rattle.strm_pair.specs.Runs.{Joins, Makes, Spent, run_blocks, runs_of, with_messages};

use strm_blocks::{Blocks, InHand};
use strm_image::{MessageText, MessagesText, Version, message_behind};
use strm_msg::from_bytes;
use strm_queue::Queue;
use strm_types::{Band, HIGH_PRIORITY_RANK, MsgKind};

// How many bytes the header of an ioctl has.
const IOCTL_HEADER: usize = 16;

// Makes a message of blocks of a kind and a band that show some bytes, and of M_DATA blocks behind them that show others, where there
// are any: `linkb(9F)`.
fn join<B: Blocks>(
    store: &mut B,
    kind: MsgKind,
    band: Band,
    front: &[u8],
    behind: Option<&[u8]>,
) -> InHand
    requires room { HasRoom (B.value store.old) (run_blocks (front.now, option_map (λ p. p.now) behind)) }
    ensures { Joins (B.value store.old) (B.value store.new) (token result) kind band.0 (front.now, option_map (λ p. p.now) behind.entry) }
{
    let Ok(message) = from_bytes(store, kind, band, front) else {
        unreachable!()
    };
    let Some(bytes) = behind else {
        return message;
    };
    let Ok(more) = from_bytes(store, MsgKind::Data, Band(0), bytes) else {
        unreachable!()
    };
    store.link(message, more)
}

// The bytes of a part, none where it is absent.
fn bytes_in<'a>(part: Option<&'a [u8]>) -> &'a [u8]
    ensures { result.now ≡ texts.bytes_in (option_map (λ p. p.now) part.entry) }
{
    match part {
        None => &[],
        Some(bytes) => bytes,
    }
}

// Whether a kind is that of a message about an ioctl.
fn is_ioctl_kind(kind: MsgKind) -> bool
    ensures { result ≡ texts.is_ioctl_kind kind }
{
    matches!(kind, MsgKind::Ioctl | MsgKind::Iocack | MsgKind::Iocnak)
}

// The bytes that blocks of a message's kind show, and those of the M_DATA blocks behind them, where there are any.
fn runs_of<'a>(version: Version, message: &MessageText<'a>) -> (&'a [u8], Option<&'a [u8]>)
    requires { IsGood version message.now }
    ensures { (result.0.now, option_map (λ p. p.now) result.1) ≡ runs_of (parts_now message.now) }
{
    let body = bytes_in(message.body);
    if is_ioctl_kind(message.kind) {
        let payload = &body[IOCTL_HEADER..];
        let behind = if payload.is_empty() {
            None
        } else {
            Some(payload)
        };
        (&body[..IOCTL_HEADER], behind)
    } else if message.kind.is_control_kind() {
        (bytes_in(message.control), message.body)
    } else {
        (body, None)
    }
}

/// Makes a message of a text: one block of each kind for each begun 256 bytes of its control part and of its data part, at least one for
/// a part that is there, and a block of its own for the header of an ioctl.
fn make<B: Blocks>(store: &mut B, version: Version, message: &MessageText<'_>) -> InHand
    requires good { IsGood version message.now }
    requires room { HasRoom (B.value store.old) (blocks_of (message_now message.now)) }
    ensures { Makes (B.value store.old) (B.value store.new) (token result) (blocks_of (message_now message.now)) (message_now message.now) }
{
    let (front, behind) = runs_of(version, message);
    join(store, message.kind, Band(message.band), front, behind)
}

/// Makes a message of a text and puts it on a queue, on which no message has a lower rank: it is the last one there. Whether that
/// enables the queue isn't told, since a text says which queues are.
pub(crate) fn stand<B: Blocks>(
    store: &mut B,
    queue: &mut Queue,
    version: Version,
    message: &MessageText<'_>,
)
    requires good { IsGood version message.now }
    requires ready { IsReady (B.value store.old) queue.old }
    requires last { AllByRecursion (λ m. rank_of (message_now message.now) ≤ rank_of m) (messages_on (B.value store.old) queue.old.list) }
    requires room { HasRoom (B.value store.old) (blocks_of (message_now message.now)) }
    ensures queue { queue_in (B.value store.new) queue.new
        ≡ with_messages (messages_on (B.value store.old) queue.old.list ++ message_now message.now ∷ []) (queue_in (B.value store.old) queue.old) }
    ensures changes { Changes (B.value store.old) (B.value store.new) queue.old queue.new }
    ensures spent { Spent (B.value store.old) (B.value store.new) (blocks_of (message_now message.now)) }
{
    let made = make(store, version, message);
    store.audit();
    let _ = queue.putq(store, made);
}

/// Makes the messages of a queue in a text, and puts them on one where none stands. Each is read again, as it was when the text was.
pub(crate) fn fill<B: Blocks>(store: &mut B, queue: &mut Queue, messages: &MessagesText<'_>)
    requires ready { IsReady (B.value store.old) queue.old }
    requires empty { messages_on (B.value store.old) queue.old.list ≡ [] }
    requires room { HasRoom (B.value store.old) (sum_by blocks_of (messages_now messages.now)) }
    ensures queue { queue_in (B.value store.new) queue.new ≡ with_messages (messages_now messages.now) (queue_in (B.value store.old) queue.old) }
    ensures changes { Changes (B.value store.old) (B.value store.new) queue.old queue.new }
    ensures spent { Spent (B.value store.old) (B.value store.new) (sum_by blocks_of (messages_now messages.now)) }
{
    let mut rest = messages.text;
    let mut rank = HIGH_PRIORITY_RANK;
    for _ in 0..messages.count {
        let Some((message, after)) = message_behind(rest, messages.version, messages.queue, rank)
        else {
            unreachable!()
        };
        stand(store, queue, messages.version, &message);
        rank = message.rank();
        rest = after;
    }
}
