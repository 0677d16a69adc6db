//! A host: its systems, and how minors are claimed there.

ghost use Rattle.std.specs.Prelude.{◌≡◌, ◌<◌, ◌≤◌, Some, IfOk, MatchResult, length, slice_get};
ghost use Rattle.strm_system.specs.Hosts.{AreOf, Claims, Finds, FindsNone, HoldsAt, Passes, Releases, all_opening};

use crate::opener::{HostMinor, HostOpener};
use std::alloc::Global;
use std::marker::Model;
use strm_locks::{Object, System};
use strm_minors::{Minor, NoMinor, Opener};

/// How many pairs a system of a host has. The last one may have fewer.
pub const PAIRS: u32 = 64;

/// How many systems a host has at most.
pub const MOST_SYSTEMS: u32 = 1024;

/// How many pairs a host has at most.
pub const MOST_PAIRS: u32 = 65536;

/// Systems of pairs behind one claim. Threads share it by a `&`, and no lock is round the whole. What is done to a pair is done by the functions of
/// its system, which the host lends (`at`): its contracts are theirs.
///
/// Contracts see the systems, by number.
pub struct Host<P: Object> {
    systems: Vec<System<P>>,
}

// Of its own, so that who owns one doesn't take it apart at each way out.
impl<P: Object> Drop for Host<P> {
    fn drop(self) {
        let Host { systems: _ } = self;
    }
}

impl<P: Object> Model for Host<P> {
    ghost use Rattle.std.specs.Prelude.{◌≤◌, List, length};
    ghost use Rattle.strm_locks.specs.Systems.{Plan};

    ghost Value = { List Plan };

    ghost view = { λ h. h.systems.items };

    ghost invariant = { λ h. length h.systems.items ≤ 1024 };
}

impl<P: Object> Host<P> {
    /// The host of these systems, with an opener of each, in their order.
    pub fn of(systems: Vec<System<P>>, openers: Vec<Opener>) -> (Host<P>, HostOpener)
        requires few { length systems.items ≤ MOST_SYSTEMS }
        ensures systems { result.0 ≡ systems.items }
        ensures openers { result.1 ≡ openers.items }
    {
        (Host { systems }, HostOpener { openers })
    }

    /// How many systems it has.
    pub fn systems(&self) -> u32
        ensures value { result ≡ length self.now }
        ensures at_most { result ≤ MOST_SYSTEMS }
    {
        self.systems.len() as u32
    }

    /// The system of a number, by whose functions its pairs are opened, called and settled.
    pub fn at(&self, system: u32) -> &System<P>
        requires { system < length self.now }
        ensures { slice_get self.now system ≡ Some result.now }
    {
        &self.systems[system as usize]
    }

    // A claim at one system.
    fn claim_at(&self, opener: &mut HostOpener, system: u32) -> Result<Minor, NoMinor>
        requires own { AreOf self.now opener.old }
        requires within { system < length self.now }
        ensures found { MatchResult result
            (λ minor. Finds self.now opener.old system minor opener.new)
            (λ _. FindsNone self.now opener.old system opener.new) }
        ensures own { AreOf self.now opener.new }
    {
        let here = &mut opener.openers[system as usize];
        self.at(system).claim(here)
    }

    /// Claims the first minor that it finds free (ptm(7D)): system by system from 0 up, of each as [`System::claim`] does. `NoMinor` where each
    /// minor of each system was found taken at its own try.
    pub fn claim(&self, opener: &mut HostOpener) -> Result<HostMinor, NoMinor>
        requires { AreOf self.now opener.old }
        ensures claimed { MatchResult result
            (λ m. Claims self.now opener.old m.system m.minor opener.new)
            (λ _. Passes self.now opener.old (length self.now) opener.new) }
        ensures held { IfOk result (λ m. (m.system < length self.now) × HoldsAt opener.new m.system m.minor) }
        ensures own { AreOf self.now opener.new }
    {
        for system in 0..self.systems() {
            match self.claim_at(opener, system) {
                Ok(minor) => return Ok(HostMinor { system, minor }),
                Err(NoMinor) => {}
            }
        }
        Err(NoMinor)
    }

    /// Releases a minor that the opener holds, as [`System::release`] does at its system.
    pub fn release(&self, opener: &mut HostOpener, minor: HostMinor)
        requires own { AreOf self.now opener.old }
        requires within { minor.system < length self.now }
        requires held { HoldsAt opener.old minor.system minor.minor }
        ensures lost { Releases opener.old minor.system minor.minor opener.new }
        ensures own { AreOf self.now opener.new }
    {
        let HostMinor { system, minor } = minor;
        let here = &mut opener.openers[system as usize];
        self.at(system).release(here, minor);
    }

    /// The opener as it was, and a second one, which holds no minor: one for each thread that claims. Where memory is refused the opener comes back.
    pub fn split_opener(
        &self,
        alloc: Global,
        opener: HostOpener,
    ) -> Result<(HostOpener, HostOpener), HostOpener>
        requires { AreOf self.now opener }
        ensures { MatchResult result
            (λ two. (two.0 ≡ opener) × (two.1 ≡ all_opening self.now) × AreOf self.now two.1)
            (λ back. back ≡ opener) }
    {
        let count = self.systems() as usize;
        let Ok(mut kept) = Vec::with_capacity(alloc, count) else {
            return Err(opener);
        };
        let Ok(mut new) = Vec::with_capacity(alloc, count) else {
            return Err(opener);
        };
        let mut system = 0u32;
        for here in opener.openers {
            let (first, second) = self.at(system).split_opener(here);
            kept.push_reserved(first);
            new.push_reserved(second);
            system += 1;
        }
        Ok((HostOpener { openers: kept }, HostOpener { openers: new }))
    }
}
