//! Ranks of messages, and the place on a list where a message of a rank belongs.
ghost use Rattle.std.specs.Prelude.{◌≡◌, ◌≤◌, List, length, option_map};
ghost use Rattle.std.specs.Bool.{OnTrue, OnFalse};
ghost use Rattle.strm_raw.specs.Lists.{IsList, edge};
ghost use Rattle.strm_raw.specs.Numbered.{IsMsgOrNone, msg_number};
ghost use Rattle.strm_raw.specs.Places.{Passes, RanksAt, Stops, rank_by};
ghost use Rattle.strm_raw.specs.Roster.{Msg};

use crate::memory::Memory;
use crate::msg_nodes::{MsgLink, MsgNode};
use crate::neighbours::{Course, Ends, beside, pick};

/// The rank of the message that begins with a block: 256 for high priority, else its band.
pub(crate) fn rank_of(block: MsgNode) -> usize
    ensures { result ≡ rank_by block.kind block.band }
{
    if block.kind.is_high_priority() {
        256
    } else {
        block.band as usize
    }
}

// Whether a message of a rank stops a new one, which a walk in a course takes along the list.
#[inline(always)]
fn stops(course: Course, new: usize, rank: usize) -> bool
    ensures stops { OnTrue result (Stops course new rank) }
    ensures passes { OnFalse result (Passes course new rank) }
{
    match course {
        Course::On => rank <= new,
        Course::Back => rank >= new,
    }
}

/// The first message in a course along a list that a new one of this rank doesn't pass: on, one that has at most its rank,
/// and back, one that has at least its rank. None where it passes all. It takes a step for each message that is passed.
#[inline(always)]
pub(crate) fn ranked(memory: &Memory, ends: Ends, course: Course, rank: usize) -> Option<MsgLink>
    requires { IsMsgOrNone memory.now.mat (length memory.now.rows) (edge course ends) }
    ensures there { IsMsgOrNone memory.now.mat (length memory.now.rows) result }
    ensures place { (q : List Msg) → IsList memory.now ends q → length q ≤ length memory.now.rows
        → RanksAt course memory.now.rows rank q (option_map (msg_number memory.now.mat) result) }
{
    let mut at = beside(memory, ends, course, None);
    let mut left = memory.messages();
    while left > 0 {
        let Some(link) = at else {
            return None;
        };
        let node = memory.message(link);
        if stops(course, rank, rank_of(node)) {
            return at;
        }
        at = pick(course, node.ahead, node.behind);
        left -= 1;
    }
    at
}
