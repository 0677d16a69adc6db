//! The two ends of a list of messages, how many stand on it, and its links.
ghost use Rattle.std.specs.Prelude.{◌≡◌, ◌<◌, ◌+◌, ◌-◌, ◌^◌, length, option_map, MatchOption};
ghost use Rattle.strm_raw.specs.Numbered.{IsMsg, IsMsgOrNone, msg_number, row_at, with_row};
ghost use Rattle.strm_raw.specs.Lists.{Seats, Ties, along, edge, kept, opened, pick};

use crate::memory::Memory;
use crate::msg_nodes::MsgLink;
use std::ptr::null_mut;

/// Where the first and the last message of a list lie, both `None` where no message stands on it, and how many stand there.
#[derive(Clone, Copy)]
pub(crate) struct Ends {
    pub(crate) first: Option<MsgLink>,
    pub(crate) last: Option<MsgLink>,
    pub(crate) count: usize,
}

/// The ends of a list with no message on it.
pub(crate) const NO_ENDS: Ends = Ends {
    first: None,
    last: None,
    count: 0,
};

/// The ends of a list as a store keeps them, in 24 bytes. Where no message stands on the list, both links lead nowhere.
#[derive(Clone, Copy)]
pub(crate) struct KeptEnds {
    pub(crate) first: MsgLink,
    pub(crate) last: MsgLink,
    pub(crate) count: usize,
}

const _: () = prove!(size_of::<KeptEnds>() == 24);

/// The ends that a store keeps.
#[inline(always)]
pub(crate) fn open(kept: KeptEnds) -> Ends
    ensures { result ≡ opened kept }
{
    if kept.count == 0 {
        return NO_ENDS;
    }
    Ends {
        first: Some(kept.first),
        last: Some(kept.last),
        count: kept.count,
    }
}

/// The ends of a list, to be kept.
#[inline(always)]
pub(crate) fn keep(ends: Ends) -> KeptEnds
    ensures { result ≡ kept ends }
{
    let nowhere = MsgLink { at: null_mut() };
    KeptEnds {
        first: ends.first.unwrap_or(nowhere),
        last: ends.last.unwrap_or(nowhere),
        count: ends.count,
    }
}

/// A course along a list: on from its first message, or back from its last one.
#[derive(Clone, Copy)]
pub(crate) enum Course {
    On,
    Back,
}

/// Of two values, the one for a course.
#[inline(always)]
pub(crate) fn pick<A: Copy>(course: Course, on: A, back: A) -> A
    ensures { result ≡ pick course on back }
{
    match course {
        Course::On => on,
        Course::Back => back,
    }
}

// Lets a list lead on from a message, or from its outside, to another one.
fn lead_on(memory: &mut Memory, ends: &mut Ends, from: Option<MsgLink>, to: Option<MsgLink>)
    requires from { IsMsgOrNone memory.old.mat (length memory.old.rows) from }
    requires to { IsMsgOrNone memory.old.mat (length memory.old.rows) to }
    ensures { let v = memory.old in MatchOption from
        ((memory.new ≡ v) × (ends.new ≡ record ends.old { first = to }))
        (λ at. let i = msg_number v.mat at in
        (memory.new ≡ with_row i (record (row_at i v.rows) { ahead = option_map (msg_number v.mat) to }) v) × (ends.new ≡ ends.old)) }
{
    match from {
        None => ends.first = to,
        Some(at) => memory.set_ahead(at, to),
    }
}

// Lets a list lead back from a message, or from its outside, to another one.
fn lead_back(memory: &mut Memory, ends: &mut Ends, from: Option<MsgLink>, to: Option<MsgLink>)
    requires from { IsMsgOrNone memory.old.mat (length memory.old.rows) from }
    requires to { IsMsgOrNone memory.old.mat (length memory.old.rows) to }
    ensures { let v = memory.old in MatchOption from
        ((memory.new ≡ v) × (ends.new ≡ record ends.old { last = to }))
        (λ at. let i = msg_number v.mat at in
        (memory.new ≡ with_row i (record (row_at i v.rows) { behind = option_map (msg_number v.mat) to }) v) × (ends.new ≡ ends.old)) }
{
    match from {
        None => ends.last = to,
        Some(at) => memory.set_behind(at, to),
    }
}

/// Lets a list lead from one message on to another one, and back. `None` stands for what lies outside the list: it leads
/// on to the first message and back to the last one.
pub(crate) fn tie(
    memory: &mut Memory,
    ends: &mut Ends,
    before: Option<MsgLink>,
    after: Option<MsgLink>,
)
    requires before { IsMsgOrNone memory.old.mat (length memory.old.rows) before }
    requires after { IsMsgOrNone memory.old.mat (length memory.old.rows) after }
    ensures nodes { memory.new ≡ record memory.old { rows = memory.new.rows } }
    ensures tied { let v = memory.old in
        Ties v.mat v.rows memory.new.rows ends.old ends.new (option_map (msg_number v.mat) before) (option_map (msg_number v.mat) after) }
    ensures count { ends.new.count ≡ ends.old.count }
    ensures first { let v = memory.old in
        IsMsgOrNone v.mat (length v.rows) ends.old.first → IsMsgOrNone v.mat (length v.rows) ends.new.first }
    ensures last { let v = memory.old in
        IsMsgOrNone v.mat (length v.rows) ends.old.last → IsMsgOrNone v.mat (length v.rows) ends.new.last }
{
    lead_on(memory, ends, before, after);
    lead_back(memory, ends, after, before);
}

/// The message to which a list leads in a course from a message, or from its outside.
#[inline(always)]
pub(crate) fn beside(
    memory: &Memory,
    ends: Ends,
    course: Course,
    from: Option<MsgLink>,
) -> Option<MsgLink>
    requires edge { IsMsgOrNone memory.now.mat (length memory.now.rows) (edge course ends) }
    requires from { IsMsgOrNone memory.now.mat (length memory.now.rows) from }
    ensures there { IsMsgOrNone memory.now.mat (length memory.now.rows) result }
    ensures step { let v = memory.now in option_map (msg_number v.mat) result ≡ along course v ends (option_map (msg_number v.mat) from) }
{
    match from {
        None => pick(course, ends.first, ends.last),
        Some(at) => {
            let node = memory.message(at);
            pick(course, node.ahead, node.behind)
        }
    }
}

/// Puts a message between two places of a list that follow one another.
pub(crate) fn seat(
    memory: &mut Memory,
    ends: &mut Ends,
    before: Option<MsgLink>,
    at: MsgLink,
    after: Option<MsgLink>,
)
    requires before { IsMsgOrNone memory.old.mat (length memory.old.rows) before }
    requires at { IsMsg memory.old.mat (length memory.old.rows) at }
    requires after { IsMsgOrNone memory.old.mat (length memory.old.rows) after }
    requires few { ends.old.count < 2 ^ 63 }
    ensures nodes { memory.new ≡ record memory.old { rows = memory.new.rows } }
    ensures seats { let v = memory.old in
        Seats v.mat v.rows memory.new.rows ends.old ends.new (option_map (msg_number v.mat) before) (msg_number v.mat at) (option_map (msg_number v.mat) after) }
    ensures first { let v = memory.old in
        IsMsgOrNone v.mat (length v.rows) ends.old.first → IsMsgOrNone v.mat (length v.rows) ends.new.first }
    ensures last { let v = memory.old in
        IsMsgOrNone v.mat (length v.rows) ends.old.last → IsMsgOrNone v.mat (length v.rows) ends.new.last }
{
    tie(memory, ends, before, Some(at));
    tie(memory, ends, Some(at), after);
    ends.count += 1;
}

/// Takes the message between two places off a list, which then leads from one of them to the other.
pub(crate) fn bypass(
    memory: &mut Memory,
    ends: &mut Ends,
    before: Option<MsgLink>,
    after: Option<MsgLink>,
)
    requires before { IsMsgOrNone memory.old.mat (length memory.old.rows) before }
    requires after { IsMsgOrNone memory.old.mat (length memory.old.rows) after }
    requires some { 0 < ends.old.count }
    ensures nodes { memory.new ≡ record memory.old { rows = memory.new.rows } }
    ensures tied { let v = memory.old in
        Ties v.mat v.rows memory.new.rows ends.old ends.new (option_map (msg_number v.mat) before) (option_map (msg_number v.mat) after) }
    ensures count { ends.new.count ≡ ends.old.count - 1 }
    ensures first { let v = memory.old in
        IsMsgOrNone v.mat (length v.rows) ends.old.first → IsMsgOrNone v.mat (length v.rows) ends.new.first }
    ensures last { let v = memory.old in
        IsMsgOrNone v.mat (length v.rows) ends.old.last → IsMsgOrNone v.mat (length v.rows) ends.new.last }
{
    tie(memory, ends, before, after);
    ends.count -= 1;
}
