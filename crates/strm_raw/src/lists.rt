//! A message that goes on a list, and one that goes off it.
ghost use Rattle.std.specs.Prelude.{◌≡◌, ◌<◌, [], ◌∷◌, length, MatchOption};
ghost use Rattle.strm_blocks.specs.Blocks.{IsInHand, dropped, in_hand, list_at, placed, rank_of, token};
ghost use Rattle.strm_blocks.specs.Outcomes.{Unpopped};
ghost use Rattle.strm_raw.specs.Numbered.{IsMsg, IsMsgOrNone, msg_number};
ghost use Rattle.strm_raw.specs.Lists.{PoppedBy, Unseats, ends_at};
ghost use Rattle.strm_raw.specs.Places.{put_by};

use crate::ledger::Ledger;
use crate::memory::Memory;
use crate::msg_nodes::MsgLink;
use crate::neighbours::{Course, KeptEnds, beside, bypass, keep, open, pick, seat};
use crate::ranks::{rank_of, ranked};
use crate::raw::RawStore;
use std::ptr::null_mut;
use strm_blocks::{Blocks, InHand};
use strm_types::LISTS;

/// Takes a message off the list on which it stands.
pub(crate) fn unseat(
    memory: &mut Memory,
    ends: &mut [KeptEnds; LISTS],
    ledger: &mut Ledger,
    list: usize,
    at: MsgLink,
) -> InHand
    requires list { list < length ends.old }
    requires there { IsMsg memory.old.mat (length memory.old.rows) at }
    requires first { IsMsgOrNone memory.old.mat (length memory.old.rows) (ends_at list ends.old).first }
    requires last { IsMsgOrNone memory.old.mat (length memory.old.rows) (ends_at list ends.old).last }
    requires some { 0 < (ends_at list ends.old).count }
    ensures name { token result ≡ msg_number memory.old.mat at }
    ensures unseats { Unseats memory.old memory.new ends.old ends.new ledger.old.roster ledger.new.roster list at }
{
    let node = memory.message(at);
    let mut left = open(ends[list]);
    bypass(memory, &mut left, node.behind, node.ahead);
    ends[list] = keep(left);
    ledger.note(at.at, null_mut(), list, 0);
    InHand::of(node.name)
}

impl RawStore {
    // Puts a message on a list with nothing on it.
    #[inline(always)]
    fn begin(&mut self, list: usize, message: InHand)
        requires list { list < LISTS }
        requires none { list_at self.old list ≡ [] }
        requires in_hand { IsInHand self.old (token message) }
        ensures { let s = self.old in
            self.new ≡ placed (dropped s (token message)) list (in_hand s (token message) ∷ []) }
    {
        let at = self.memory.message_link(message.name() as usize);
        let mut ends = open(self.ends[list]);
        seat(&mut self.memory, &mut ends, None, at, None);
        self.ends[list] = keep(ends);
        self.ledger
            .note(at.at, null_mut(), list, message.name() as usize);
    }

    /// Puts a message on a list, at the place of its rank to which a walk in a course comes.
    #[inline(always)]
    pub(crate) fn insert(&mut self, list: usize, message: InHand, course: Course)
        requires list { list < LISTS }
        requires in_hand { IsInHand self.old (token message) }
        ensures { let s = self.old in
            self.new ≡ placed (dropped s (token message)) list (put_by course rank_of (in_hand s (token message)) (list_at s list)) }
    {
        if self.is_empty(list) {
            self.begin(list, message);
            return;
        }
        let at = self.memory.message_link(message.name() as usize);
        let rank = rank_of(self.memory.message(at));
        let mut ends = open(self.ends[list]);
        let stop = ranked(&self.memory, ends, course, rank);
        let other = pick(course, Course::Back, Course::On);
        let past = beside(&self.memory, ends, other, stop);
        let after = pick(course, stop, past);
        let before = pick(course, past, stop);
        seat(&mut self.memory, &mut ends, before, at, after);
        self.ends[list] = keep(ends);
        let next = after.unwrap_or(at);
        self.ledger
            .note(next.at, null_mut(), list, message.name() as usize);
    }

    /// Takes the message off a list, if there is one, that stands where the list begins in a course.
    #[inline(always)]
    pub(crate) fn take_end(&mut self, list: usize, course: Course) -> Option<InHand>
        requires { list < LISTS }
        ensures { MatchOption result (Unpopped self.old self.new list) (λ m. PoppedBy course self.old self.new list (token m)) }
    {
        let mut ends = open(self.ends[list]);
        let Some(at) = beside(&self.memory, ends, course, None) else {
            return None;
        };
        let node = self.memory.message(at);
        let before = pick(course, None, node.behind);
        let after = pick(course, node.ahead, None);
        bypass(&mut self.memory, &mut ends, before, after);
        self.ends[list] = keep(ends);
        self.ledger.note(at.at, null_mut(), list, 0);
        Some(InHand::of(node.name))
    }
}
