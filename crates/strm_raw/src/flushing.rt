//! The messages of a list that a flush takes.
ghost use Rattle.std.specs.Prelude.{◌≡◌, ◌<◌, MatchOption};
ghost use Rattle.strm_types.specs.declared.limits.TheConstants.{LISTS};
ghost use Rattle.strm_blocks.specs.Blocks.{list_at, placed, token};
ghost use Rattle.strm_blocks.specs.Outcomes.{flushed};
ghost use Rattle.strm_raw.specs.Flushing.{Gathers};

use crate::lists::unseat;
use crate::neighbours::open;
use crate::raw::RawStore;
use crate::tails::hang;
use strm_blocks::{FlushWhat, InHand, is_flushed};

impl RawStore {
    /// Takes the messages of a list that a flush takes off it, as one message. It takes a step for each message of the list,
    /// and one for each block that goes.
    pub(crate) fn take_flushed(&mut self, list: usize, what: FlushWhat) -> Option<InHand>
        requires { list < LISTS }
        ensures { let s = self.old in let left = placed s list (flushed what (list_at s list)) in
            MatchOption result (self.new ≡ left) (λ m. Gathers s left self.new (token m)) }
    {
        let mut taken = None;
        let mut at = open(self.ends[list]).first;
        let mut left = self.memory.messages();
        while left > 0 {
            let Some(link) = at else {
                return taken;
            };
            let node = self.memory.message(link);
            at = node.ahead;
            left -= 1;
            if !is_flushed(what, node.kind, node.band) {
                continue;
            }
            let message = unseat(
                &mut self.memory,
                &mut self.ends,
                &mut self.ledger,
                list,
                link,
            );
            taken = Some(match taken {
                None => message,
                Some(rest) => hang(&mut self.memory, &mut self.ledger, message, rest),
            });
        }
        taken
    }
}
