//! What an opener's seat at the word knows.

ghost use Rattle.std.specs.Prelude.{ℕ, List};
ghost use Rattle.std.specs.Borrow.{ftrue};

use std::marker::Model;

/// The minors that an opener holds, those of another that is being joined to it, and in order those that its claims found taken.
/// No value of it is made: it is what proofs know.
pub(crate) struct View {
    pub ghost held: { ℕ },
    pub ghost joining: { ℕ },
    pub ghost passed: { List ℕ },
}

impl Model for View {
    ghost also_owns = { λ _. ftrue };
}
