//! Calls of the end in hand.

ghost use Rattle.std.specs.Prelude.{◌≡◌, ◌≤◌, Some, drop, length, option_map};
ghost use Rattle.strm_types.specs.Events.{request};
ghost use Rattle.strm_types.specs.Journal.{answer_len, reply_in};
ghost use Rattle.strm_handle.specs.Calls.{answer_in};
ghost use Rattle.strm_handle.specs.Outcomes.{Stay};
ghost use Rattle.strm_ends.specs.Calling.{CallsEnd, asked_by, told_of};
ghost use Rattle.strm_ends.specs.Outcomes.{AtMember};
ghost use Rattle.strm_ends.specs.Sharing.{Groups};

use crate::handle::Handle;
use crate::hold::Hold;
use crate::numbers::{NotDone, Outcome, not_done, number};
use crate::seats::Seat;
use std::alloc::Global;
use strm_handle::{Ask, Reply, brought, event_of, give, refused, replied};
use strm_locks::{Busy, NoBell, Object};
use strm_types::{Answer, Event, Refusal};

// The call that an end makes by these numbers, where the buffer has room for its greatest answer.
fn asked<'a>(ask: &Ask, bytes: &'a [u8], room: usize) -> Option<Event<&'a [u8]>>
    ensures { option_map (λ event. request event) result ≡ asked_by ask.now bytes.now room }
{
    let event = event_of(ask, brought(ask, bytes))?;
    if let Event::OpenMaster | Event::OpenSlave = event {
        return None;
    }
    if event.needs().gives > room {
        return None;
    }
    Some(event)
}

// Tells an answer: its bytes are copied to the front of a buffer, which has room for them.
fn tell(answer: &Answer<u32>, content: &[u8], out: &mut [u8]) -> Reply
    requires { answer_len answer.now ≡ length content.now }
    ensures told { length content.now ≤ length out.old →
        (answer_in result out.new ≡ Some (reply_in answer.now content.now)) × (result.bytes ≡ length content.now) }
    ensures fits { result.bytes ≤ length out.old }
    ensures others { drop result.bytes out.new ≡ drop result.bytes out.old }
{
    let bytes = content.len().min(out.len());
    give(&content[..bytes], out);
    Reply {
        bytes,
        ..replied(answer)
    }
}

impl<P: Object> Seat<P> {
    // Makes a call by the end in hand.
    fn call(&mut self, ask: &Ask, bytes: &[u8], out: &mut [u8], reply: &mut Reply) -> Outcome
        ensures { CallsEnd ask.now bytes.now (told_of out.old out.new reply.old reply.new) self.old result self.new }
    {
        let Hold::End { system, end } = &mut self.hold else {
            return not_done(Refusal::Einval);
        };
        let Some(event) = asked(ask, bytes, out.len()) else {
            return not_done(Refusal::Einval);
        };
        let system = self.host.at(*system);
        match system.try_call(&NoBell, end, &event, &mut self.answer) {
            Err(Busy) => Err(NotDone::Busy),
            Ok(Err(why)) => not_done(why),
            Ok(Ok(answer)) => {
                *reply = tell(&answer, self.answer.as_slice(), out);
                // What was read stands in the caller's buffer alone.
                self.answer.clear();
                Ok(())
            }
        }
    }

    // Sets who makes the end's later calls.
    fn set_group(&mut self, group: u32, ignores: bool, orphaned: bool) -> Outcome
        ensures { Groups group ignores orphaned self.old result self.new }
    {
        let Hold::End { end, .. } = &mut self.hold else {
            return not_done(Refusal::Einval);
        };
        end.set_group(group, ignores, orphaned);
        Ok(())
    }
}

/// Makes any call but those that open a side, by the end in hand: `ask` says which one, and the end who calls. `bytes` are those that it brings, of a
/// write the first 1024 at most, `out` has room for those that it gives.
pub fn call(
    alloc: Global,
    handle: &mut Handle,
    ask: &Ask,
    bytes: &[u8],
    out: &mut [u8],
    reply: &mut Reply,
) -> u32
    ensures { AtMember (Stay out.old out.new reply.old reply.new)
        (CallsEnd ask.now bytes.now (told_of out.old out.new reply.old reply.new)) handle.old.held.kept handle.new.held.kept result }
{
    let Some(mut member) = handle.take(alloc) else {
        return refused(Refusal::Einval);
    };
    let outcome = member.as_mut().seat.call(ask, bytes, out, reply);
    handle.put(member);
    number(outcome)
}

/// Sets who makes the later calls of the end in hand: a process of this group, 0 for none; whether it ignores or blocks SIGTTIN and SIGTTOU; and
/// whether its group is orphaned.
pub fn set_group(
    alloc: Global,
    handle: &mut Handle,
    group: u32,
    ignores: bool,
    orphaned: bool,
) -> u32
    ensures { AtMember (Unit {0}) (Groups group ignores orphaned) handle.old.held.kept handle.new.held.kept result }
{
    let Some(mut member) = handle.take(alloc) else {
        return refused(Refusal::Einval);
    };
    let outcome = member.as_mut().seat.set_group(group, ignores, orphaned);
    handle.put(member);
    number(outcome)
}
