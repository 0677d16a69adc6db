//! Making hosts and members, and freeing them.

ghost use Rattle.std.specs.Prelude.{◌≡◌, ◌≤◌, None, Some, IfSome, MatchResult, is_some, length};
ghost use Rattle.strm_system.specs.Hosts.{AreOf};
ghost use Rattle.strm_system.specs.Sizes.{NotHosted};
ghost use Rattle.strm_ends.specs.declared.hold.Hold.TheVariants.{Nothing};
ghost use Rattle.strm_ends.specs.Making.{IsFirst, Makes, Seats, sizes_of};
ghost use Rattle.strm_ends.specs.Members.{HasInHand, is_end, seated};
ghost use Rattle.strm_ends.specs.Outcomes.{WithMade, made_where};

use crate::handle::Handle;
use crate::hold::Hold;
use crate::member::{HostPair, Member};
use crate::numbers::{Outcome, not_done, number};
use crate::seats::Seat;
use std::alloc::Global;
use std::sync::Arc;
use strm_handle::refused;
use strm_locks::{Object, PairEnd};
use strm_system::{Host, HostOpener, host};
use strm_types::{Config, Content, Refusal};

// The first member of a new host.
fn first(alloc: Global, pairs: u32, sizes: Config) -> Result<Box<Member, Global>, Refusal>
    ensures { MatchResult result (λ b. IsFirst pairs sizes b.value) (NotHosted pairs sizes) }
{
    let (host, opener) = host::<HostPair>(alloc, pairs, sizes)?;
    let Some(seat) = Seat::first(alloc, host, opener) else {
        return Err(Refusal::NoMemory);
    };
    match Box::new(alloc, Member { seat }) {
        Ok(member) => Ok(member),
        Err(_) => Err(Refusal::NoMemory),
    }
}

/// Makes a host of so many pairs that nobody opened, each of these sizes, and its first member.
pub fn make(alloc: Global, handle: &mut Handle, pairs: u32, sizes: Config) -> u32
    ensures { Makes pairs sizes handle.old.held.kept handle.new.held.kept result }
{
    if handle.is_open() {
        return refused(Refusal::Einval);
    }
    match first(alloc, pairs, sizes) {
        Ok(member) => {
            handle.put(member);
            0
        }
        Err(why) => refused(why),
    }
}

/// The sizes of a pair: so many blocks of each kind, and so large a journal.
pub fn sizes(blocks: usize, entries: usize, bytes: usize) -> Config
    ensures { result ≡ sizes_of blocks entries bytes }
{
    Config {
        mblks: blocks,
        dblks: blocks,
        journal_events: entries,
        journal_bytes: bytes,
    }
}

impl<P: Object> Seat<P> {
    // The first seat at a host, with this opener. None where memory is refused.
    fn first(alloc: Global, host: Host<P>, opener: HostOpener) -> Option<Seat<P>>
        requires { AreOf host opener }
        ensures { IfSome result (λ s. s ≡ seated host (Some opener) Nothing) }
    {
        let _ = host.systems();
        let Ok(host) = Arc::new(alloc, host) else {
            return None;
        };
        Some(Seat {
            host,
            opener: Some(opener),
            hold: Hold::Nothing,
            answer: Content::new(),
        })
    }

    // A further seat at the host, without an opener and with nothing in hand. None where memory is refused.
    fn beside(&self) -> Option<Seat<P>>
        ensures { IfSome result (λ s. s ≡ seated self.now.host None Nothing) }
    {
        let Ok(host) = Arc::try_clone(&self.host) else {
            return None;
        };
        Some(Seat {
            host,
            opener: None,
            hold: Hold::Nothing,
            answer: Content::new(),
        })
    }

    /// Whether an end is in hand.
    pub(crate) fn has_end(&self) -> bool
        ensures { result ≡ is_end self.now.hold }
    {
        match &self.hold {
            Hold::End { .. } => true,
            _ => false,
        }
    }

    // Whether it has an opener.
    fn has_opener(&self) -> bool
        ensures { result ≡ is_some self.now.opener }
    {
        self.opener.is_some()
    }

    // Has an opener, as it has none and nothing in hand.
    fn have_opener(&mut self, opener: HostOpener)
        requires own { AreOf self.old.host opener }
        requires empty { self.old.hold ≡ Nothing }
        ensures { self.new ≡ record self.old { opener = Some opener } }
    {
        self.opener = Some(opener);
    }

    /// Has something else in hand.
    pub(crate) fn have(&mut self, hold: Hold<PairEnd<P>>)
        requires { HasInHand self.old.host self.old.opener hold }
        ensures { self.new ≡ record self.old { hold = hold } }
    {
        self.hold = hold;
    }

    // Gives a second one an opener of its own.
    fn seat(&mut self, alloc: Global, second: &mut Seat<P>) -> Outcome
        requires beside { second.old ≡ seated self.old.host None Nothing }
        ensures { Seats self.old (made_where result second.new) result self.new }
    {
        let Some(opener) = self.opener.take() else {
            return not_done(Refusal::Einval);
        };
        match self.host.split_opener(alloc, opener) {
            Err(back) => {
                self.opener = Some(back);
                not_done(Refusal::NoMemory)
            }
            Ok((first, new)) => {
                self.opener = Some(first);
                second.have_opener(new);
                Ok(())
            }
        }
    }
}

impl Member {
    /// A further member of the host, without an opener and with nothing in hand. None where memory is refused.
    pub(crate) fn beside(&self, alloc: Global) -> Option<Box<Member, Global>>
        ensures { IfSome result (λ b. b.value ≡ seated self.now.host None Nothing) }
    {
        let seat = self.seat.beside()?;
        Box::new(alloc, Member { seat }).ok()
    }

    // Makes a further member, with an opener of its own.
    fn seat(&mut self, alloc: Global, made: &mut Handle) -> Outcome
        requires { made.old.held.kept ≡ None }
        ensures { Seats self.old made.new.held.kept result self.new }
    {
        if !self.seat.has_opener() {
            return not_done(Refusal::Einval);
        }
        let Some(mut second) = self.beside(alloc) else {
            return not_done(Refusal::NoMemory);
        };
        let outcome = self.seat.seat(alloc, &mut second.as_mut().seat);
        made.put_made(second, &outcome);
        outcome
    }
}

/// Makes a further member of a member's host, with an opener of its own and nothing in hand, in a closed handle.
pub fn seat(alloc: Global, handle: &mut Handle, made: &mut Handle) -> u32
    ensures { WithMade Seats handle.old.held.kept handle.new.held.kept made.old.held.kept made.new.held.kept result }
{
    if made.is_open() {
        return refused(Refusal::Einval);
    }
    let Some(mut member) = handle.take(alloc) else {
        return refused(Refusal::Einval);
    };
    let outcome = member.as_mut().seat(alloc, made);
    handle.put(member);
    number(outcome)
}

/// Closes a handle, and drops what its member has: an opener with what it holds, and an end with its parts.
pub fn free(alloc: Global, handle: &mut Handle)
    ensures { handle.new.held.kept ≡ None }
{
    drop(handle.take(alloc));
}
