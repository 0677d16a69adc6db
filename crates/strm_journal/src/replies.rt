//! Answers, each as its kind and two numbers.

ghost use Rattle.std.specs.Prelude.{◌≡◌, ◌<◌};
ghost use Rattle.strm_types.specs.Journal.{part_len};
ghost use Rattle.strm_journal.specs.Replies.{answer_at, HasShortParts};

use crate::digits::{HALF, is_odd, joined, with_digit};
use crate::kinds::Told;
use crate::numbers::{
    module_number, module_of, part_number, part_of, prio_number, prio_of, refusal_number,
};
use strm_types::{Answer, Prio, Refusal, StopSignal};

/// An answer: its kind and its two numbers, each 0 where it has none.
pub(crate) type Reply = (Told, u32, u32);

// The message that a getmsg(2) gives.
#[inline(always)]
fn message(
    prio: Prio,
    control: Option<u32>,
    body: Option<u32>,
    more_control: bool,
    more_data: bool,
) -> Reply
    requires control { part_len control < 65535 }
    requires body { part_len body < 65535 }
    ensures { answer_at result.0 result.1 result.2 ≡ Answer.Msg prio control body more_control more_data }
{
    let front = joined(part_number(control), prio_number(prio));
    let last = with_digit(more_data, 0);
    let more = with_digit(more_control, last);
    let behind = joined(part_number(body), more);
    (Told::Msg, front, behind)
}

/// What is kept of an answer. That of a write, a read or a getmsg(2) is inlined, so that where its kind is known nothing asks for it.
#[inline(always)]
pub(crate) fn replied(answer: &Answer<u32>) -> Reply
    requires { HasShortParts answer.now }
    ensures { answer_at result.0 result.1 result.2 ≡ answer.now }
{
    match answer {
        Answer::Done => (Told::Done, 0, 0),
        Answer::Count(n) => (Told::Count, *n, 0),
        Answer::Bytes(n) => (Told::Bytes, *n, 0),
        Answer::Msg {
            prio,
            control,
            body,
            more_control,
            more_data,
        } => message(*prio, *control, *body, *more_control, *more_data),
        _ => replied_apart(answer),
    }
}

// What is kept of any answer.
#[inline(never)]
fn replied_apart(answer: &Answer<u32>) -> Reply
    requires { HasShortParts answer.now }
    ensures { answer_at result.0 result.1 result.2 ≡ answer.now }
{
    match *answer {
        Answer::Done => (Told::Done, 0, 0),
        Answer::Name(name) => (Told::Name, module_number(name), 0),
        Answer::Count(n) => (Told::Count, n, 0),
        Answer::Bytes(n) => (Told::Bytes, n, 0),
        Answer::Msg {
            prio,
            control,
            body,
            more_control,
            more_data,
        } => message(prio, control, body, more_control, more_data),
        Answer::Sizes { first, messages } => (Told::Sizes, first, messages),
        Answer::Pending(number) => (Told::Pending, number, 0),
        Answer::Nak(refusal) => (Told::Nak, refusal_number(refusal), 0),
        Answer::Signals(n) => (Told::Signals, n, 0),
        Answer::Stop(StopSignal::Ttin) => (Told::Ttin, 0, 0),
        Answer::Stop(StopSignal::Ttou) => (Told::Ttou, 0, 0),
    }
}

// The message of two numbers.
fn message_of(front: u32, behind: u32) -> Answer<u32>
    ensures { result ≡ answer_at Told.Msg front behind }
{
    let more = behind / HALF;
    Answer::Msg {
        prio: prio_of(front / HALF),
        control: part_of(front % HALF),
        body: part_of(behind % HALF),
        more_control: is_odd(more),
        more_data: is_odd(more / 2),
    }
}

/// The answer of a kind and two numbers.
pub(crate) fn answer_of(told: Told, first: u32, second: u32) -> Answer<u32>
    ensures { result ≡ answer_at told first second }
{
    match told {
        Told::Done => Answer::Done,
        Told::Name => Answer::Name(module_of(first)),
        Told::Count => Answer::Count(first),
        Told::Bytes => Answer::Bytes(first),
        Told::Msg => message_of(first, second),
        Told::Sizes => Answer::Sizes {
            first,
            messages: second,
        },
        Told::Pending => Answer::Pending(first),
        Told::Nak => Answer::Nak(Refusal::numbered(first)),
        Told::Signals => Answer::Signals(first),
        Told::Ttin => Answer::Stop(StopSignal::Ttin),
        Told::Ttou => Answer::Stop(StopSignal::Ttou),
    }
}
