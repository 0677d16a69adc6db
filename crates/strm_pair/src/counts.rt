//! What the queues of both streams count, as those ask who hold the pair.

ghost use Rattle.std.specs.Prelude.{ℕ, ◌≡◌, ◌<◌, length};
ghost use Rattle.strm_types.specs.Queue.{bytes_of};
ghost use Rattle.strm_pair.specs.Shows.{count_at, first_at, full_at, messages_at};

use crate::named_queues::{count_named, first_size_named, is_full_named, sizes_named};
use crate::streams::Streams;
use strm_blocks::Blocks;
use strm_queue::lengths::first_size;
use strm_queue::standing::{count, is_full, sizes};
use strm_types::{Band, Place, QueueName, Way};

impl Streams {
    ghost use Rattle.strm_pair.specs.Pairs.{state_in, AreHeld};

    /// How many bytes count in a band of a queue.
    pub fn count<B: Blocks>(&self, store: &B, queue: QueueName, band: Band) -> usize
        requires held { AreHeld (B.value store.now) self.now }
        ensures { result ≡ count_at queue band.0 (state_in (B.value store.now) self.now) }
    {
        let end = self.end(queue.side);
        match queue.place {
            Place::Head => match queue.way {
                Way::Up => count(store, &end.head.queue, band),
                Way::Down => 0,
            },
            Place::Driver => match queue.way {
                Way::Up => 0,
                Way::Down => count(store, &end.driver, band),
            },
            Place::Module(_) => count_named(&end.stack, store, queue.place, queue.way, band),
        }
    }

    /// How many messages stand on a queue, and how many bytes they have.
    pub fn sizes<B: Blocks>(&self, store: &B, queue: QueueName) -> (usize, usize)
        requires { AreHeld (B.value store.now) self.now }
        ensures messages { result.0 ≡ length (messages_at queue (state_in (B.value store.now) self.now)) }
        ensures bytes { result.1 ≡ bytes_of (messages_at queue (state_in (B.value store.now) self.now)) }
    {
        let end = self.end(queue.side);
        match queue.place {
            Place::Head => match queue.way {
                Way::Up => sizes(store, &end.head.queue),
                Way::Down => (0, 0),
            },
            Place::Driver => match queue.way {
                Way::Up => (0, 0),
                Way::Down => sizes(store, &end.driver),
            },
            Place::Module(_) => sizes_named(&end.stack, store, queue.place, queue.way),
        }
    }

    /// How many bytes the first message on a queue has.
    pub fn first_size<B: Blocks>(&self, store: &B, queue: QueueName) -> usize
        requires { AreHeld (B.value store.now) self.now }
        ensures { result ≡ first_at queue (state_in (B.value store.now) self.now) }
    {
        let end = self.end(queue.side);
        match queue.place {
            Place::Head => match queue.way {
                Way::Up => first_size(store, &end.head.queue),
                Way::Down => 0,
            },
            Place::Driver => match queue.way {
                Way::Up => 0,
                Way::Down => first_size(store, &end.driver),
            },
            Place::Module(_) => first_size_named(&end.stack, store, queue.place, queue.way),
        }
    }

    /// Whether a band of a queue is full.
    pub fn is_full<B: Blocks>(&self, store: &B, queue: QueueName, band: Band) -> bool
        requires held { AreHeld (B.value store.now) self.now }
        ensures { result ≡ full_at queue band.0 (state_in (B.value store.now) self.now) }
    {
        let end = self.end(queue.side);
        match queue.place {
            Place::Head => match queue.way {
                Way::Up => is_full(store, &end.head.queue, band),
                Way::Down => false,
            },
            Place::Driver => match queue.way {
                Way::Up => false,
                Way::Down => is_full(store, &end.driver, band),
            },
            Place::Module(_) => is_full_named(&end.stack, store, queue.place, queue.way, band),
        }
    }
}
