//! Turns one after the other, as the scheduler makes them (STREAMS Programming Guide, "Service Procedures").

ghost use Rattle.std.specs.Prelude.{◌≡◌, ◌≤◌, ◌+◌, [], true, length, IfNone};
ghost use Rattle.strm_types.specs.declared.limits.TheConstants.{STOP_BLOCKS};
ghost use Rattle.strm_types.specs.Journal.{room_used};
ghost use Rattle.strm_laws.specs.Pair.{RanTurns, next_refused};
ghost use Rattle.strm_laws.specs.Refusals.{enough, in_range};
ghost use Rattle.strm_laws.specs.Rest.{EchoesOnce, work};
ghost use Rattle.strm_laws.specs.StackCosts.{stands_of};

use crate::pair::Pair;
use strm_blocks::Blocks;
use strm_own::OwnModule;
use strm_types::Refusal;

/// How many turns were made, and for what the next one is refused, if a queue is enabled still.
#[derive(Clone, Copy, PartialEq)]
pub struct Ran {
    pub turns: usize,
    pub stopped: Option<Refusal>,
}

impl<B: Blocks + Drop, M: OwnModule> Pair<B, M> {
    /// Makes turns, each of the queue that was enabled first, until none is enabled or the next one is refused: JournalFull, ENOSR or ERANGE
    /// ([`Pair::turn`]). The journal gains an entry a turn, so it ends: two `ldterm`s that echo each other's echo go on till the journal
    /// is full. Where one stands there at most, with no `pckt` below it, and no module of a user's own has queues, no queue is enabled in the end, if
    /// the journal had an entry for each move of a message, and 32 blocks of each kind and room in the books are left. No memory is taken.
    pub fn runqueues(&mut self) -> Ran
        ensures ran { RanTurns M.does result.turns self.old self.new }
        ensures entries { length self.new.journal ≡ length self.old.journal + result.turns }
        ensures stopped { result.stopped ≡ next_refused self.new }
        ensures rest { IfNone result.stopped (self.new.state.enabled ≡ []) }
        ensures rests { EchoesOnce (stands_of self.old.state) →
            length self.old.journal + work self.old.state ≤ self.old.limits.journal_events →
            room_used self.old.journal ≤ self.old.limits.journal_bytes →
            in_range self.new.state ≡ true → enough STOP_BLOCKS self.new.free ≡ true → self.new.state.enabled ≡ [] }
    {
        self.audit();
        let left = self.entries_left();
        for turns in 0..left {
            let Some(queue) = self.first_enabled() else {
                return Ran {
                    turns,
                    stopped: None,
                };
            };
            if let Err(refusal) = self.turn(queue) {
                return Ran {
                    turns,
                    stopped: Some(refusal),
                };
            }
        }
        let stopped = match self.first_enabled() {
            None => None,
            Some(queue) => self.turn_refusal(queue),
        };
        Ran {
            turns: left,
            stopped,
        }
    }
}
