//! What calls and turns answer.

ghost use Rattle.std.specs.Fn.{FnReturnsAt};
ghost use Rattle.std.specs.Prelude.{◌≡◌, ◌≤◌, length, take};
ghost use Rattle.strm_types.specs.Events.{AnswersAlike, map_answer};
ghost use Rattle.strm_types.specs.Journal.{answer_len, reply_in};

use crate::events::map_part;
use crate::limits::{CONTENT_MAX, READ_MAX};
use crate::modes::Prio;
use crate::names::ModuleName;
use crate::refusals::Refusal;
use crate::signals::StopSignal;
use arrayvec::ArrayVec;

/// The bytes that one read gives, or one part of a getmsg(2).
pub type ReadBytes = ArrayVec<u8, READ_MAX>;

/// The bytes that one call gives: those of a read, or those of a control part and then those of a data part.
pub type Content = ArrayVec<u8, CONTENT_MAX>;

/// What a call answers that isn't refused, over what stands for its bytes: the bytes themselves, or how many they are
/// (`Answer<u32>`), where they stand apart.
#[derive(Clone, Copy, Drop, PartialEq)]
pub enum Answer<T> {
    /// The call is done, and there is nothing to tell.
    Done,
    /// The name of a module.
    Name(ModuleName),
    /// How many bytes a write took.
    Count(u32),
    /// The bytes that a read gives.
    Bytes(T),
    /// The message that a getmsg(2) gives, or the front of it: its control part and its data part, and whether there is more
    /// of each (MORECTL, MOREDATA). At the end of input both are absent, and the band is 0.
    Msg {
        prio: Prio,
        control: Option<T>,
        body: Option<T>,
        more_control: bool,
        more_data: bool,
    },
    /// How many bytes of data the first message has, and how many messages there are.
    Sizes {
        first: u32,
        messages: u32,
    },
    /// An ioctl is under way, and has this number.
    Pending(u32),
    /// An ioctl was answered with M_IOCNAK, for this reason. That is an answer and no refusal.
    Nak(Refusal),
    /// The signals that waited, a byte each.
    Signals(T),
    /// The caller is in the background and is stopped by this signal: nothing was read or written.
    Stop(StopSignal),
}

// So many bytes of the front.
fn front(len: u32, bytes: &[u8]) -> &[u8]
    ensures { result.now ≡ take len bytes.now }
{
    &bytes[..(len as usize).min(bytes.len())]
}

impl<T> Answer<T> {
    /// The same answer over what a function makes of what stands for its bytes.
    #[inline(always)]
    pub fn map<'a, U, F: Fn(&'a T) -> U>(&'a self, f: F) -> Answer<U>
        requires { F.IsAlwaysCallable f }
        ensures { AnswersAlike (λ x y. FnReturnsAt F.Fn f x y) self.now result }
    {
        match self {
            Answer::Done => Answer::Done,
            Answer::Name(name) => Answer::Name(*name),
            Answer::Count(n) => Answer::Count(*n),
            Answer::Bytes(bytes) => Answer::Bytes(f(bytes)),
            Answer::Msg {
                prio,
                control,
                body,
                more_control,
                more_data,
            } => Answer::Msg {
                prio: *prio,
                control: map_part(control, &f),
                body: map_part(body, &f),
                more_control: *more_control,
                more_data: *more_data,
            },
            Answer::Sizes { first, messages } => Answer::Sizes {
                first: *first,
                messages: *messages,
            },
            Answer::Pending(number) => Answer::Pending(*number),
            Answer::Nak(refusal) => Answer::Nak(*refusal),
            Answer::Signals(bytes) => Answer::Signals(f(bytes)),
            Answer::Stop(signal) => Answer::Stop(*signal),
        }
    }
}

impl Answer<u32> {
    /// The answer over its bytes, which stand in front of others, those of a control part first.
    pub fn over<'a>(&self, bytes: &'a [u8]) -> Answer<&'a [u8]>
        requires { answer_len self.now ≤ length bytes.now }
        ensures { map_answer (λ lent. lent.now) result ≡ reply_in self.now bytes.now }
    {
        match *self {
            Answer::Msg {
                prio,
                control,
                body,
                more_control,
                more_data,
            } => {
                let behind = &bytes[control.unwrap_or(0) as usize..];
                Answer::Msg {
                    prio,
                    control: control.map(|len| front(len, bytes)),
                    body: body.map(|len| front(len, behind)),
                    more_control,
                    more_data,
                }
            }
            _ => self.map(|len| front(*len, bytes)),
        }
    }
}

/// What a turn of a queue's service procedure answers.
#[derive(Clone, Copy, PartialEq)]
pub enum Turn {
    /// So many bytes of the first message were treated.
    Moved(u32),
    /// The first message may not go on yet.
    Blocked,
    /// The queue is empty.
    Idle,
}
