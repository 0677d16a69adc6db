//! A stream of two modules with queues, as a pair has one: what a put sends on is delivered, and turns move what stands on
//! the queues.

ghost use Rattle.std.specs.Prelude.{ℕ, ◌≡◌, ◌<◌, ◌≤◌, ◌&&◌, ◌∷◌, [], nat_le, true, false};
ghost use Rattle.strm_blocks.specs.Blocks.{in_hand, empty_store, free_d, free_m, token};
ghost use Rattle.strm_msg.specs.Messages.{IsChain};
ghost use Rattle.strm_tests.specs.Rigs.{is_end, AreTwo, AtRest};

use super::enable;
use super::stock::Stock;
use arrayvec::ArrayVec;
use strm_blocks::{Blocks, InHand};
use strm_frame::{Enabled, Outbox, QueuePair, Stack, Standing, Stations, Tables, deliver};
use strm_queue::Queue;
use strm_types::{Asks, Band, Fates, ModuleName, Note, QueueName, Side, Spot, Turn, Way};

/// Two modules on a stream, the queues that are enabled, and how many messages have left at the top and at the bottom.
#[derive(Drop)]
pub struct Rig {
    pub modules: Stack<Stock>,
    pub enabled: Enabled,
    pub above: usize,
    pub below: usize,
}

// Whether no module stands at a place.
fn is_end(at: usize) -> bool
    ensures is { result ≡ is_end at }
    ensures inside { result ≡ false → (0 < at) × (at ≤ 2) }
{
    at == 0 || at > 2
}

// Whether as many blocks of each kind are free as any message may take that is sent in a turn.
fn has_room<B: Blocks>(store: &B) -> bool
    ensures { result ≡ (nat_le 8 (free_m (B.value store.now)) && nat_le 8 (free_d (B.value store.now))) }
{
    let (mblks, dblks) = store.free_blocks();
    mblks >= 8 && dblks >= 8
}

impl Rig {
    /// A module with a name on the enabled list over one without, whose queue is full from 4 bytes on and lets writers go
    /// from 2 down. Nothing stands there.
    pub fn new(upper: Tables, lower: Tables) -> Rig
        ensures { (mblks dblks : ℕ) → AtRest (empty_store mblks dblks) result.modules.modules.items }
    {
        let mut modules = ArrayVec::new();
        modules.push(Standing {
            module: Stock {
                name: ModuleName::Ldterm,
            },
            queues: Some(QueuePair::new(2, 3, upper)),
        });
        modules.push(Standing {
            module: Stock {
                name: ModuleName::Pckt,
            },
            queues: Some(QueuePair {
                read: Queue::new(0, 512, 128, lower.read),
                write: Queue::new(1, 4, 2, lower.write),
            }),
        });
        Rig {
            modules: Stack { modules },
            enabled: Enabled::new(),
            above: 0,
            below: 0,
        }
    }

    // The name of the queue of the module at a place, where it has one.
    fn queue_name(&self, at: usize, way: Way) -> Option<QueueName> {
        let module = self.modules.modules.as_slice().get(at.checked_sub(1)?)?;
        let place = module.module.name.place()?;
        Some(QueueName {
            side: Side::Slave,
            place,
            way,
        })
    }

    // Enables what a note says of the module at a place.
    fn note(&mut self, at: usize, note: Note)
        ensures { self.new.modules ≡ self.old.modules }
    {
        let name = match note {
            Note::Enable(way) => self.queue_name(at, way),
            Note::Room(way) => match self.modules.place_before(way, at) {
                Some(before) => self.queue_name(before, way),
                None => None,
            },
        };
        if let Some(name) = name {
            enable(&mut self.enabled, name);
        }
    }

    // The same where a condition holds.
    fn note_if(&mut self, holds: bool, at: usize, note: Note)
        ensures { self.new.modules ≡ self.old.modules }
    {
        if holds {
            self.note(at, note);
        }
    }

    // The same for several notes, one after the other.
    fn note_all(&mut self, at: usize, notes: &[Note])
        ensures { self.new.modules ≡ self.old.modules }
    {
        let Some((first, rest)) = notes.split_first() else {
            return;
        };
        self.note(at, *first);
        self.note_all(at, rest);
    }

    // Takes the queue at a place off the enabled list.
    fn disable(&mut self, at: usize)
        ensures { self.new.modules ≡ self.old.modules }
    {
        if let Some(name) = self.queue_name(at, Way::Down) {
            self.enabled.remove(name);
        }
    }

    // Counts a message that leaves.
    fn leave(&mut self, way: Way)
        ensures { self.new.modules ≡ self.old.modules }
    {
        match way {
            Way::Up => self.above = self.above.wrapping_add(1),
            Way::Down => self.below = self.below.wrapping_add(1),
        }
    }

    /// Delivers the only message in hand to a spot.
    pub fn put<B: Blocks>(&mut self, store: &mut B, to: Spot, message: InHand)
        requires are { AreTwo (B.value store.old) self.old.modules.modules.items }
        requires alone { (B.value store.old).hand ≡ record { name = token message; chain = in_hand (B.value store.old) (token message) } ∷ [] }
        requires chain { IsChain (in_hand (B.value store.old) (token message)) }
        requires near { to.at ≤ 3 }
        ensures { AtRest (B.value store.new) self.new.modules.modules.items }
    {
        let mut told = Fates::none();
        deliver::<B, (), Rig>(store, self, 16, to, message, &mut told);
    }

    /// How many messages and bytes stand on the queues, from the top.
    pub fn sizes<B: Blocks>(&self, store: &B) -> [(usize, usize); 2]
        requires { AtRest (B.value store.now) self.now.modules.modules.items }
    {
        [
            self.modules.sizes(store, 1, Way::Down),
            self.modules.sizes(store, 2, Way::Down),
        ]
    }

    // Calls the service procedure of the module at a place, which sends one message at most, and delivers what it sends. The
    // answer is how many bytes it treated: none where there is no room for what any message may take.
    fn serve<B: Blocks>(&mut self, store: &mut B, at: usize) -> usize
        requires rest { AtRest (B.value store.old) self.old.modules.modules.items }
        requires inside { 0 < at }
        requires within { at ≤ 2 }
        ensures { AtRest (B.value store.new) self.new.modules.modules.items }
    {
        if !has_room(store) {
            return 0;
        }
        let here = Spot {
            side: Side::Slave,
            at: at as u8,
            way: Way::Down,
        };
        let mut told = Fates::none();
        let served = self.modules.serve::<(), B>(store, here, false, &mut told);
        self.note_all(at, served.acts.notes.as_slice());
        let mut sent = served.acts.sent;
        let Some(next) = sent.take_first() else {
            return served.bytes;
        };
        deliver::<B, (), Rig>(store, self, 16, next.to, next.message, &mut told);
        served.bytes
    }

    // Ends a turn of the queue at a place.
    fn end_turn<B: Blocks>(&mut self, store: &B, at: usize, took: bool)
        requires rest { AtRest (B.value store.now) self.old.modules.modules.items }
        requires inside { 0 < at }
        requires within { at ≤ 2 }
        ensures { AtRest (B.value store.now) self.new.modules.modules.items }
    {
        let end = self.modules.end_turn(store, at, Way::Down, took);
        self.note_if(end.room, at, Note::Room(Way::Down));
        self.note_if(end.more && took, at, Note::Enable(Way::Down));
    }

    /// A turn of the queue at a place, which comes off the enabled list: its first message goes on where there is room past
    /// it, and else it waits for room.
    pub fn turn<B: Blocks>(&mut self, store: &mut B, at: usize) -> Turn
        requires rest { AtRest (B.value store.old) self.old.modules.modules.items }
        requires inside { 0 < at }
        requires within { at ≤ 2 }
        ensures { AtRest (B.value store.new) self.new.modules.modules.items }
    {
        self.disable(at);
        let Asks::Room(band) = self.modules.asks::<(), B>(store, at, Way::Down) else {
            self.end_turn(store, at, false);
            return Turn::Idle;
        };
        if self.modules.can_pass(store, Way::Down, band, at) == Some(false) {
            self.modules.let_wait_past(Way::Down, band, at);
            self.end_turn(store, at, false);
            return Turn::Blocked;
        }
        let bytes = self.serve(store, at);
        self.end_turn(store, at, true);
        Turn::Moved(u32::try_from(bytes).unwrap_or(u32::MAX))
    }
}

impl<B: Blocks> Stations<B, ()> for Rig {
    ghost use Rattle.std.specs.Prelude.{List, map};
    ghost use Rattle.strm_frame.specs.Stacks.{all_of};
    ghost use Rattle.strm_frame.specs.Standings.{standing_in};
    ghost use Rattle.strm_tests.specs.Toys.{Stock};
    ghost use Rattle.strm_tests.specs.Rigs.{AreTwo, rig_costs, rig_puts, rig-costed, rig-frame};

    ghost Plain = { List Stock };

    ghost plain = { λ s x. map (standing_in (λ t y. y.name) s) x.modules.modules.items };

    ghost IsHeld = { λ s x. AreTwo s x.modules.modules.items };

    ghost keeps = { λ x. all_of (λ y i. 0) x.modules.modules.items };

    ghost puts = { rig_puts };

    ghost costs = { λ p. rig_costs };

    ghost spare = { λ p. 0 };

    ghost stays = { λ p to m. ⊥ };

    fn put_at(&mut self, store: &mut B, to: Spot, message: InHand, told: &mut Fates) -> Outbox {
        store.audit();
        if is_end(to.at as usize) {
            self.leave(to.way);
            store.free(message);
            return Outbox::none();
        }
        let acts = self.modules.put::<(), B>(store, to, message, told);
        self.note_all(to.at as usize, acts.notes.as_slice());
        acts.sent
    }

    ghost frame = { λ s t x same held. rig-frame (λ y. y.name) s t x.modules.modules.items same held };

    ghost costed = { rig-costed };

    ghost stays_on = { λ to m p stays. absurd stays };
}
