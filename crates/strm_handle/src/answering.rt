//! Which numbers tell an answer.

ghost use Rattle.std.specs.Prelude.{◌≡◌};
ghost use Rattle.strm_types.specs.Journal.{answer_len};
ghost use Rattle.strm_handle.specs.Calls.{Replies};

use crate::asking::parts_numbers;
use crate::numbers::{module_number, prio_number};
use crate::replies::Reply;
use strm_types::Answer;

/// A reply of a kind, with a number and so many bytes.
const fn plain(kind: u32, value: u32, bytes: usize) -> Reply
    ensures kind { result.kind ≡ kind }
    ensures value { result.value ≡ value }
    ensures bytes { result.bytes ≡ bytes }
    ensures size { result.size ≡ 0 }
{
    Reply {
        bytes,
        kind,
        value,
        prio: 0,
        parts: 0,
        size: 0,
        more_control: false,
        more_data: false,
    }
}

/// A reply of 0 bytes.
pub(crate) const fn nothing() -> Reply
    ensures { result.bytes ≡ 0 }
{
    plain(0, 0, 0)
}

/// The numbers of an answer, whose bytes stand in the caller's buffer.
pub fn replied(answer: &Answer<u32>) -> Reply
    ensures bytes { result.bytes ≡ answer_len answer.now }
    ensures told { Replies result answer.now }
{
    match *answer {
        Answer::Done => plain(0, 0, 0),
        Answer::Name(name) => plain(1, module_number(Some(name)), 0),
        Answer::Count(count) => plain(2, count, 0),
        Answer::Bytes(len) => plain(3, 0, len as usize),
        Answer::Msg {
            prio,
            control,
            body,
            more_control,
            more_data,
        } => {
            let (parts, size) = parts_numbers(control, body);
            Reply {
                bytes: control.unwrap_or(0) as usize + body.unwrap_or(0) as usize,
                kind: 4,
                value: 0,
                prio: prio_number(prio),
                parts,
                size,
                more_control,
                more_data,
            }
        }
        Answer::Sizes { first, messages } => Reply {
            size: first,
            ..plain(5, messages, 0)
        },
        Answer::Pending(number) => plain(6, number, 0),
        Answer::Nak(refusal) => plain(7, u32::from(refusal.number()), 0),
        Answer::Signals(len) => plain(8, 0, len as usize),
        Answer::Stop(signal) => plain(9, u32::from(signal.number()), 0),
    }
}
