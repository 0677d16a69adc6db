//! A module with queues. M_DATA that goes down stays on the write queue until its service procedure sends it on. It sends each
//! M_FLUSH that comes up down again, and passes all else.

ghost use Rattle.std.specs.Prelude.{◌≡◌};
ghost use Rattle.std.specs.Prelude.{if◌then◌else◌, [], ◌∷◌};
ghost use Rattle.strm_types.specs.Queue.{put_enables, put_on};
ghost use Rattle.strm_blocks.specs.Blocks.{IsInHand, dropped, in_hand, token};
ghost use Rattle.strm_msg.specs.Messages.{IsChain, message_of};
ghost use Rattle.strm_queue.specs.Stored.{Changes, FreesBlocks, FreesNone, IsReady, queue_in};
ghost use Rattle.strm_tests.specs.Toys.{is_flush, onward, stays};

use arrayvec::ArrayVec;
use strm_blocks::{Blocks, InHand};
use strm_frame::{Acts, Module, Outbox, Procedures, QueuePair, Sent, Served};
use strm_msg::message_size;
use strm_queue::standing::{dequeue, enqueue};
use strm_types::{Asks, Band, Fates, ModuleName, MsgKind, Note, Spot, Way};

/// It is set to nothing but its name.
#[derive(Drop)]
pub struct Stock {
    pub name: ModuleName,
}

impl Default for Stock {
    fn default() -> Stock {
        Stock {
            name: ModuleName::Ptem,
        }
    }
}

// Whether a kind is M_FLUSH.
fn is_flush(kind: MsgKind) -> bool
    ensures { result ≡ is_flush kind }
{
    matches!(kind, MsgKind::Flush)
}

// Which way a message goes on.
fn onward(kind: MsgKind, way: Way) -> Way
    ensures { result ≡ onward kind way }
{
    match way {
        Way::Up if is_flush(kind) => Way::Down,
        Way::Up => Way::Up,
        Way::Down => Way::Down,
    }
}

// A note, where a condition holds.
fn note_if(holds: bool, note: Note) -> ArrayVec<Note, 4>
    ensures { result.items ≡ (if holds then note ∷ [] else []) }
{
    let mut notes = ArrayVec::new();
    if holds {
        notes.push(note);
    }
    notes
}

// Whether a message of a kind stays on the queue.
fn stays(kind: MsgKind, way: Way) -> bool
    ensures { result ≡ stays kind way }
{
    matches!((kind, way), (MsgKind::Data, Way::Down))
}

// A message stays on the write queue. It says whether that enables the queue.
fn keep<B: Blocks>(pair: &mut QueuePair, store: &mut B, message: InHand) -> bool
    requires ready { IsReady (B.value store.old) pair.old.write }
    requires in_hand { IsInHand (B.value store.old) (token message) }
    requires chain { IsChain (in_hand (B.value store.old) (token message)) }
    ensures read { pair.new.read ≡ pair.old.read }
    ensures queue { queue_in (B.value store.new) pair.new.write
        ≡ put_on (message_of (in_hand (B.value store.old) (token message))) (queue_in (B.value store.old) pair.old.write) }
    ensures enables { result
        ≡ put_enables (message_of (in_hand (B.value store.old) (token message))) (queue_in (B.value store.old) pair.old.write) }
    ensures changes { Changes (dropped (B.value store.old) (token message)) (B.value store.new) pair.old.write pair.new.write }
    ensures frees { FreesBlocks (B.value store.old) (B.value store.new) }
    ensures blocks { FreesNone (B.value store.old) (B.value store.new) }
{
    enqueue(store, &mut pair.write, message)
}

impl Module for Stock {
    ghost use Rattle.std.specs.Prelude.{refl, true, false};
    ghost use Rattle.strm_types.specs.declared.names.ModuleName.{ModuleName};
    ghost use Rattle.strm_tests.specs.Toys.{stocks, stock_does, stock_asks, stock_serves};
    ghost use Rattle.strm_tests.specs.ToyLaws.{some-same};
    ghost use Rattle.strm_tests.specs.Rigs.{HasQueues};

    ghost Plain = { ModuleName };

    ghost plain = { λ s x. x.name };

    ghost name_of = { λ p. p };

    ghost IsHeld = { λ s x queues. HasQueues s x queues };

    ghost keeps = { λ x i. 0 };

    ghost puts = { λ by here m x. stocks here m x };

    ghost line_of = { λ p. [] };

    ghost without_line = { λ p. p };

    ghost asks = { λ by way x. stock_asks way x };

    ghost serves = { λ by here again stop x. stock_serves here again stop x };

    ghost MayServe = { λ way again p. again ≡ false };

    ghost MayStop = { λ way again bytes x. ⊥ };

    ghost turn_cost = { λ here again p. 8 };

    ghost does = { λ p. stock_does };

    ghost holds = { λ p. true };

    fn name(&self) -> ModuleName {
        self.name
    }

    fn line_len(&self) -> usize {
        0
    }

    fn clear_line(&mut self) -> usize {
        0
    }

    ghost frame = { λ s t x queues others lists same held. (refl, some-same queues others lists held) };

    ghost rested = { λ s t x queues others lists none held. (refl, some-same queues others lists held) };

    ghost rests = { λ s x queues way i held may. refl };

    ghost either_way = { λ way way' p may. may };

    ghost line_stays = { λ p way again may. may };
}

impl Procedures<()> for Stock {
    ghost use Rattle.std.specs.Prelude.{false};
    ghost use Rattle.strm_frame.specs.NoOwn.{no_own};
    ghost use Rattle.strm_tests.specs.ToyLaws.{one-call, stocks-within};

    ghost by = { no_own };

    ghost wide = { false };

    fn put<B: Blocks>(
        &mut self,
        queues: &mut Option<QueuePair>,
        store: &mut B,
        here: Spot,
        message: InHand,
        _told: &mut Fates,
    ) -> Acts {
        store.audit();
        let kind = store.kind(&message, 0);
        if stays(kind, here.way) {
            let Some(pair) = queues else { unreachable!() };
            let enables = keep(pair, store, message);
            return Acts {
                notes: note_if(enables, Note::Enable(Way::Down)),
                sent: Outbox::none(),
            };
        }
        Acts {
            notes: ArrayVec::new(),
            sent: Outbox::one(Sent {
                to: here.toward(onward(kind, here.way)),
                message,
            }),
        }
    }

    fn asks<B: Blocks>(&self, queues: &Option<QueuePair>, store: &B, way: Way) -> Asks {
        store.audit();
        match (way, queues) {
            (Way::Down, Some(pair)) if !pair.write.is_empty(store) => Asks::Room(Band(0)),
            (Way::Down | Way::Up, _) => Asks::Empty,
        }
    }

    fn serve<B: Blocks>(
        &mut self,
        queues: &mut Option<QueuePair>,
        store: &mut B,
        here: Spot,
        _again: bool,
        _told: &mut Fates,
    ) -> Served {
        let Some(pair) = queues else { unreachable!() };
        if pair.write.is_empty(store) {
            return Served {
                acts: Acts {
                    notes: ArrayVec::new(),
                    sent: Outbox::none(),
                },
                bytes: 0,
                stopped: false,
                again: false,
            };
        }
        let Some(message) = dequeue(store, &mut pair.write) else {
            unreachable!()
        };
        store.audit();
        let bytes = message_size(store, &message);
        Served {
            acts: Acts {
                notes: ArrayVec::new(),
                sent: Outbox::one(Sent {
                    to: here.toward(Way::Down),
                    message,
                }),
            },
            bytes,
            stopped: false,
            again: false,
        }
    }

    ghost within = { λ here m x. stocks-within here m x };

    ghost put_stays = { λ here m x way again may. may };

    ghost turn_goes = { λ here again stop x may. one-call here again stop x };
}
