//! The rule of the word, and the kinds of step on it.

ghost use Rattle.std.specs.Prelude.{◌++◌, []};
ghost use Rattle.strm_minors.specs.Rule.{IsMarked, knows, tried, released, looked};

use crate::view::View;
use atomic_table::{Join, Play, Split, TableRule};

// Each bit is set exactly where one opener holds that minor, and never two. The key is the number of pairs.
pub(crate) struct OneHolder;

impl TableRule<(), View, u32> for OneHolder {
    ghost holds = { IsMarked };

    ghost first = { λ _. knows 0 0 [] };
}

// A claim tries one minor: fetch_or of its bit.
pub(crate) struct Try;

impl Play<(), View> for Try {
    ghost then = { tried };
}

// A minor is released: fetch_and of all bits but its own.
pub(crate) struct Release;

impl Play<(), View> for Release {
    ghost then = { released };
}

// A load behind a join, which shows that the two openers had no minor in common.
pub(crate) struct Look;

impl Play<(), View> for Look {
    ghost then = { looked };
}

// A seat with nothing is split off; a seat takes in what another has.
pub(crate) struct Halves;

impl Split<View> for Halves {
    ghost left = { λ v. v };

    ghost right = { λ _. knows 0 0 [] };
}

impl Join<View> for Halves {
    ghost both = { λ v w. knows v.held w.held (v.passed ++ w.passed) };

    ghost spent = { knows 0 0 [] };
}
