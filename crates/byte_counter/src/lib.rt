//! A module of one's own that counts the bytes of the data parts that pass it, up and down together, and hands all on as it is.
#![tactic(auto)]

ghost use Rattle.std.specs.Prelude.{◌≡◌, get_or, length};
ghost use Rattle.strm_blocks.specs.Blocks.{IsInHand, in_hand, token};
ghost use Rattle.strm_msg.specs.Messages.{IsChain, message_of};
ghost use Rattle.byte_counter.specs.ByteCounter.{count_in, counted_on, data_length};

use strm_blocks::{Blocks, InHand};
use strm_frame::Outbox;
use strm_laws::Behaves;
use strm_msg::msgdsize;
use strm_pair::{Own, OwnModule, pass_on};
use strm_queue::Queue;
use strm_types::{Fates, Spot, Way};

/// The number by which the module is pushed, as `ModuleName::Own(NUMBER)`.
pub const NUMBER: u8 = 2;

/// The counter of bytes: a module of the number 2. What it is set to are the 8 bytes of its count, the most significant byte first; it begins at 0,
/// and goes round at 2^64.
#[derive(Drop)]
pub enum ByteCounter {}

// One of the bytes that it is set to, 0 where it isn't there.
fn byte_at(settings: &[u8], at: usize) -> u8
    ensures { result ≡ get_or settings.now at 0 }
{
    settings.get(at).copied().unwrap_or(0)
}

/// The count that a module is set to.
pub fn count(settings: &[u8]) -> u64
    ensures { result ≡ count_in settings.now }
{
    u64::from_be_bytes([
        byte_at(settings, 0),
        byte_at(settings, 1),
        byte_at(settings, 2),
        byte_at(settings, 3),
        byte_at(settings, 4),
        byte_at(settings, 5),
        byte_at(settings, 6),
        byte_at(settings, 7),
    ])
}

// How many bytes the data part of a message has.
fn data_length<B: Blocks>(store: &B, message: &InHand) -> usize
    requires in_hand { IsInHand (B.value store.now) (token message.now) }
    requires chain { IsChain (in_hand (B.value store.now) (token message.now)) }
    ensures { result ≡ data_length (message_of (in_hand (B.value store.now) (token message.now))) }
{
    if store.kind(message, 0).is_data_kind() {
        msgdsize(store, message)
    } else {
        0
    }
}

// Counts on.
fn count_on(own: &mut Own, more: usize)
    ensures { own.new ≡ record own.old { settings = counted_on own.old.settings more } }
{
    let count = count(own.settings()).wrapping_add(more as u64);
    own.set(&count.to_be_bytes());
}

impl Behaves for ByteCounter {
    ghost use Rattle.byte_counter.specs.ByteCounterBehaviour.{byte_counter};

    ghost does = { byte_counter };
}

impl OwnModule for ByteCounter {
    ghost use Rattle.std.specs.Prelude.{false};
    ghost use Rattle.byte_counter.specs.ByteCounterLaws.{byte_counter-queues};

    ghost wide = { false };

    ghost queued = { false };

    ghost queues = { byte_counter-queues };

    fn queued() -> bool {
        false
    }

    fn made(number: u8) -> Option<Own> {
        if number == NUMBER {
            Some(Own::new(number, &[0; 8]))
        } else {
            None
        }
    }

    fn put<B: Blocks>(
        own: &mut Own,
        store: &mut B,
        here: Spot,
        message: InHand,
        _told: &mut Fates,
    ) -> Outbox {
        count_on(own, data_length(store, &message));
        pass_on(here, message)
    }

    fn holds<B: Blocks>(_own: &Own, _store: &B, _here: Spot, _message: &InHand) -> bool {
        false
    }

    fn goes<B: Blocks>(_own: &Own, _store: &B, _way: Way, _queue: &Queue) -> bool {
        true
    }
}
