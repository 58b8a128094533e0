//! How often a machine has moved.
ghost use Rattle.std.specs.Prelude.{◌≡◌, ℕ, suc};
ghost use Rattle.std.specs.Borrow.{ftrue};

use std::marker::Model;

/// How often a machine has moved, a number that clauses alone read. It takes no memory, and nothing is done for it when the program
/// runs.
#[derive(Drop)]
pub struct Moves {
    pub ghost count: { ℕ },
}

impl Model for Moves {
    ghost also_owns = { λ _. ftrue };
}

impl Moves {
    /// Of a machine that has not moved.
    pub fn none() -> Self
        ensures { result.count ≡ 0 }
    {
        Moves {}
    }

    /// Counts one move more.
    pub fn count_one(&mut self)
        ensures { self.new.count ≡ suc self.old.count }
    {}
}
