//! Which blocks are free and which chains stand where, as proofs alone know it.
ghost use Rattle.std.specs.Prelude.{◌≡◌, []};
ghost use Rattle.std.specs.Borrow.{ftrue};
ghost use Rattle.strm_raw.specs.Roster.{Roster};

use crate::data_nodes::DataNode;
use crate::msg_nodes::MsgNode;
use std::marker::{Model, PhantomData, Send};

/// Keeps the roster. It has no bytes, and its calls do nothing when they run.
#[derive(Drop)]
pub(crate) struct Ledger {
    marker: PhantomData<u8>,
    pub(crate) ghost roster: { Roster },
}

impl Model for Ledger {
    ghost also_owns = { λ _. ftrue };
}

unsafe impl Send for Ledger {}

impl Ledger {
    /// A ledger with nothing in hand.
    pub(crate) fn new() -> Ledger
        ensures { result.roster.hand ≡ [] }
    {
        Ledger {
            marker: PhantomData,
        }
    }

    /// Writes down another roster, which a caller's proof makes of the one that stands, of two places and of two numbers.
    pub(crate) fn note(
        &mut self,
        _message: *mut MsgNode,
        _datum: *mut DataNode,
        _first: usize,
        _second: usize,
    )
        ghost to: { Roster → Roster }
        ensures { self.new.roster ≡ to self.old.roster }
    {}
}
