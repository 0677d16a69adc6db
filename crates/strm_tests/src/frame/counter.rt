//! Stations that count what passes: a message goes on upward from each, and at the top it ends.

use strm_blocks::{Blocks, InHand};
use strm_frame::{Outbox, Sent, Stations};
use strm_types::{Fates, Spot, Way};

#[derive(Drop)]
pub struct Counter {
    pub seen: usize,
}

impl<B: Blocks> Stations<B, ()> for Counter {
    ghost use Rattle.std.specs.Prelude.{ℕ, refl};
    ghost use Rattle.strm_tests.specs.Toys.{count_costs, counts};
    ghost use Rattle.strm_tests.specs.ToyLaws.{counts-costed};

    ghost Plain = { ℕ };

    ghost plain = { λ s x. x.seen };

    ghost IsHeld = { λ s x. Unit {0} };

    ghost keeps = { λ x i. 0 };

    ghost puts = { counts };

    ghost costs = { λ p. count_costs };

    ghost spare = { λ p. 0 };

    ghost stays = { λ p to m. ⊥ };

    fn put_at(&mut self, store: &mut B, to: Spot, message: InHand, _told: &mut Fates) -> Outbox {
        store.audit();
        self.seen = self.seen.wrapping_add(1);
        if to.at == 0 {
            store.free(message);
            return Outbox::none();
        }
        Outbox::one(Sent {
            to: Spot {
                at: to.at - 1,
                way: Way::Up,
                ..to
            },
            message,
        })
    }

    ghost frame = { λ s t x same held. (refl, held) };

    ghost costed = { counts-costed };

    ghost stays_on = { λ to m p stays. absurd stays };
}
