//! The right to claim minors of a host, and a minor.

ghost use Rattle.std.specs.Prelude.{◌≡◌, ◌+◌, ◌*◌};

use crate::hosts::PAIRS;
use std::marker::Model;
use strm_minors::{Minor, Opener};

/// An opener of each system of a host. One that is handed in is of that host.
///
/// Contracts see the opener of each system, by the system's number.
#[derive(Drop)]
pub struct HostOpener {
    pub(crate) openers: Vec<Opener>,
}

impl Model for HostOpener {
    ghost use Rattle.std.specs.Prelude.{List};
    ghost use Rattle.strm_minors.specs.Openers.{Holding};

    ghost Value = { List Holding };

    ghost view = { λ o. o.openers.items };
}

/// A minor of a host: which system it is of, and the minor there. It can't be copied.
#[derive(Drop)]
pub struct HostMinor {
    pub system: u32,
    pub minor: Minor,
}

impl HostMinor {
    /// Its number in the host: a system has 64 pairs, the last one maybe fewer.
    pub fn number(&self) -> u64
        ensures { result ≡ self.now.system * PAIRS + self.now.minor }
    {
        self.system as u64 * PAIRS as u64 + self.minor.number() as u64
    }
}
