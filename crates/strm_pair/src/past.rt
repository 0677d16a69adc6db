//! What led to the base of a pair's journal, as proofs alone know it.

ghost use Rattle.std.specs.Prelude.{◌≡◌, ◌++◌, [], List};
ghost use Rattle.std.specs.Borrow.{ftrue};
ghost use Rattle.strm_types.specs.Journal.{PlainEntry};

use crate::journal::Journal;
use std::marker::{Model, PhantomData, Send};

/// The entries from where a pair was made to the base of its journal. It has no bytes, and its calls do nothing when they run.
#[derive(Drop)]
pub(crate) struct Past {
    marker: PhantomData<u8>,
    pub(crate) ghost entries: { List PlainEntry },
}

impl Model for Past {
    ghost also_owns = { λ _. ftrue };
}

unsafe impl Send for Past {}

impl Past {
    ghost use Rattle.strm_pair.specs.Pairs.{journal_of};

    /// That of a pair as it is made: no entry.
    pub(crate) fn none() -> Past
        ensures { result.entries ≡ [] }
    {
        Past {
            marker: PhantomData,
        }
    }

    /// Takes the entries of a journal behind its own.
    pub(crate) fn go_on(&mut self, _journal: &Journal)
        ensures { self.new.entries ≡ self.old.entries ++ journal_of _journal.now }
    {}
}
