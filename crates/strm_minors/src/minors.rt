//! The word, and what openers do on it.

ghost use Rattle.std.specs.Prelude.{◌≡◌, ◌<◌, ◌≤◌, ◌++◌, IfOk, OnErr, MatchBool};
ghost use Rattle.strm_minors.specs.Openers.{IsOf, Holds, opening, passing, past, Gains, Loses, Unites};

use crate::minor::{Minor, NoMinor};
use crate::opener::Opener;
use crate::rule::{Halves, Look, OneHolder, Release, Try};
use crate::view::View;
use atomic_table::Table;
use std::alloc::{AllocError, Global};
use std::marker::Model;

/// The minors of up to 64 pairs, from 0 up, each free or held by one opener: one atomic word, which threads share by a `&`. Each call takes
/// a step or a few on it, and none waits. An opener that is handed in is of this word: it was made with it, or split or joined from such.
///
/// Contracts see which word it is, and the number of pairs.
#[derive(Drop)]
pub struct Minors {
    table: Table<(), View, u32, OneHolder, Global>,
    pairs: u32,
}

impl Model for Minors {
    ghost use Rattle.strm_minors.specs.Openers.{MinorSpace};
    ghost use Rattle.strm_minors.specs.Rule.{IsWord};

    ghost Value = { MinorSpace };

    ghost view = { λ m. record { table = m.table.shared.table_id; pairs = m.pairs } };

    ghost invariant = { λ m. IsWord m.table.shared.table_id.words m.table.shared.key m.pairs };
}

impl Minors {
    /// A word with the minors of so many pairs, up to 64, each free, and its first opener, which holds none. It is refused for want of
    /// memory alone, and no later call takes any.
    pub fn new(alloc: Global, pairs: u32) -> Result<(Minors, Opener), AllocError>
        requires { pairs ≤ 64 }
        ensures pairs { IfOk result (λ made. made.0.pairs ≡ pairs) }
        ensures opener { IfOk result (λ made. made.1 ≡ opening made.0) }
    {
        let (table, seat) = Table::of_words(alloc, &[0], &pairs)?;
        Ok((Minors { table, pairs }, Opener { seat, held: 0 }))
    }

    /// Claims the first minor that it finds free, which is what an open of the clone device `/dev/ptmx` asks for (ptm(7D)). It tries them
    /// from 0 up, each by exactly one step, which sets the minor's bit and tells whether it was clear: at most 64 steps.
    ///
    /// `NoMinor` where each was found taken at its own try, which is not to say that all were at one time. The opener holds what it held.
    pub fn claim(&self, opener: &mut Opener) -> Result<Minor, NoMinor>
        requires { IsOf self.now opener.old }
        ensures within { IfOk result (λ minor. minor < self.now.pairs) }
        ensures claimed { IfOk result (λ minor. Gains (past minor opener.old) opener.new minor) }
        ensures none { OnErr result (opener.new ≡ past self.now.pairs opener.old) }
    {
        for number in 0..self.pairs {
            if self.try_minor(opener, number) {
                return Ok(Minor { number });
            }
        }
        Err(NoMinor)
    }

    // One try of a claim: whether the minor was free. It is held since, or it was taken and is passed by.
    fn try_minor(&self, opener: &mut Opener, number: u32) -> bool
        requires own { IsOf self.now opener.old }
        requires within { number < self.now.pairs }
        ensures { MatchBool result (Gains opener.old opener.new number) (opener.new ≡ passing number opener.old) }
    {
        let word = &self.table.shared;
        let bit = 1u64 << number;
        let found = word.fetch_or::<Try>(&mut opener.seat, 0, bit);
        if found >> number & 1 == 1 {
            return false;
        }
        opener.held |= bit;
        true
    }

    /// Releases a minor that the opener holds. It is free then, and may be claimed by any opener: one step, which clears its bit alone.
    pub fn release(&self, opener: &mut Opener, minor: Minor)
        requires own { IsOf self.now opener.old }
        requires held { Holds opener.old minor }
        ensures { Loses opener.old opener.new minor }
    {
        let Minor { number } = minor;
        let bit = 1u64 << number;
        self.table
            .shared
            .fetch_and::<Release>(&mut opener.seat, 0, !bit);
        opener.held &= !bit;
    }

    /// The opener as it was, and a second one, which holds no minor.
    pub fn split_opener(&self, opener: Opener) -> (Opener, Opener)
        requires { IsOf self.now opener }
        ensures first { result.0 ≡ opener }
        ensures second { result.1 ≡ opening self.now }
    {
        let Opener { mut seat, held } = opener;
        let given = self.table.shared.split_seat::<Halves>(&mut seat);
        (
            Opener { seat, held },
            Opener {
                seat: given,
                held: 0,
            },
        )
    }

    /// One opener of two, which holds the minors of both. They had none in common, as no two openers have.
    pub fn join_openers(&self, first: Opener, second: Opener) -> Opener
        requires first { IsOf self.now first }
        requires second { IsOf self.now second }
        ensures { Unites first second result }
    {
        let Opener { mut seat, held } = first;
        let Opener {
            seat: other,
            held: more,
        } = second;
        self.table.shared.join_seat::<Halves>(&mut seat, other);
        self.table.shared.load::<Look>(&mut seat, 0);
        Opener {
            seat,
            held: held | more,
        }
    }
}
