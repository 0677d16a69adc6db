//! An entry as a journal keeps it.

ghost use Rattle.std.specs.Prelude.{◌≡◌};

use crate::calls::{asked, event_of};
use crate::kinds::{Made, Told};
use crate::numbers::place_number;
use crate::replies::{answer_of, replied};
use crate::turns::{caller_digits, caller_of, cases_of, queue_digits, queue_of, turn_of, went};
use std::marker::Model;
use strm_types::{Answer, Caller, Entry, Event, QueueName, Turn};

/// An entry in 24 bytes. Contracts see the entry that it tells.
#[derive(Drop)]
pub struct Packed {
    made: Made,
    told: Told,
    band: u8,
    digits: u8,
    group: u32,
    first: u32,
    second: u32,
    third: u32,
    fourth: u32,
}

const _: () = prove!(size_of::<Packed>() == 24);

impl Model for Packed {
    ghost use Rattle.std.specs.Prelude.{ℕ};
    ghost use Rattle.strm_types.specs.declared.entries.Entry.{Entry};

    ghost Value = { Entry ℕ };

    ghost use Rattle.strm_journal.specs.Packed.{unpacked};

    ghost view = { unpacked };
}

impl Packed {
    ghost use Rattle.std.specs.Prelude.{◌<◌, ◌^◌, length};
    ghost use Rattle.strm_types.specs.declared.entries.Entry.TheVariants.{Called, Turned};
    ghost use Rattle.strm_types.specs.Events.{map_event, payload_of, request};
    ghost use Rattle.strm_journal.specs.Replies.{HasShortParts};
    ghost use Rattle.strm_journal.specs.Packed.{nothing};

    /// Packs a call, how many bytes it brings, and its answer, which has, where it is the message of a getmsg(2), parts of less than 65,535 bytes.
    /// Inlined, so that where the kinds of both are known nothing asks for them.
    #[inline(always)]
    pub fn called(caller: Caller, event: &Event<&[u8]>, answer: &Answer<u32>) -> Packed
        requires small { length (payload_of (request event.now)) < 2 ^ 32 }
        requires short { HasShortParts answer.now }
        ensures { result ≡ Called caller (map_event (λ bytes. length bytes) (request event.now)) answer.now }
    {
        let (made, cases, band, first, second) = asked(event);
        let (told, third, fourth) = replied(answer);
        let digits = caller_digits(&caller, cases);
        Packed {
            made,
            told,
            digits,
            band,
            group: caller.group,
            first,
            second,
            third,
            fourth,
        }
    }

    /// Packs a turn.
    #[inline(always)]
    pub fn turned(queue: &QueueName, turn: Turn) -> Packed
        ensures { result ≡ Turned queue.now turn }
    {
        let (made, second) = went(turn);
        let digits = queue_digits(queue);
        let first = place_number(queue.place);
        Packed {
            made,
            told: Told::Done,
            digits,
            band: 0,
            group: 0,
            first,
            second,
            third: 0,
            fourth: 0,
        }
    }

    /// The entry that it tells.
    pub fn entry(&self) -> Entry<u32>
        ensures { result ≡ self.now }
    {
        if self.made.is_call() {
            let cases = cases_of(self.digits);
            Entry::Called {
                caller: caller_of(self.digits, self.group),
                event: event_of(self.made, cases, self.band, self.first, self.second),
                answer: answer_of(self.told, self.third, self.fourth),
            }
        } else {
            Entry::Turned {
                queue: queue_of(self.digits, self.first),
                turn: turn_of(self.made, self.second),
            }
        }
    }

    // The same once more.
    #[inline(always)]
    pub(crate) fn again(&self) -> Packed
        ensures { result ≡ self.now }
    {
        Packed {
            made: self.made,
            told: self.told,
            digits: self.digits,
            band: self.band,
            group: self.group,
            first: self.first,
            second: self.second,
            third: self.third,
            fourth: self.fourth,
        }
    }

    // What stands where nothing is told: each of its bytes is 0.
    #[inline(always)]
    pub(crate) fn nothing() -> Packed
        ensures { result ≡ nothing }
    {
        Packed {
            made: Made::OpenMaster,
            told: Told::Done,
            digits: 0,
            band: 0,
            group: 0,
            first: 0,
            second: 0,
            third: 0,
            fourth: 0,
        }
    }
}
