//! A machine that can be begun again.
ghost use Rattle.std.specs.Prelude.{◌≡◌, ℕ, List, [], IfOk};
ghost use Rattle.gang_model.specs.Debugger.Debugger.{Debugger, Setting};
ghost use Rattle.debug_traits.specs.Beginnings.{StandsAt, with_events};

use crate::machine::RecordedMachine;
use std::alloc::{AllocError, Global};

/// A machine whose words can be copied and put back. Where it stands is its words alone, so a copy of them is a moment of its run.
pub trait BeginsAgain: RecordedMachine {
    ghost use Rattle.std.specs.Prelude.{◌≡◌, List, [], ℕ};
    ghost use Rattle.gang_model.specs.Debugger.Debugger.{Debugger, Setting};

    // Whether it can have these words.
    ghost can_have: { Self → List ℕ → Type 0 };

    // Whether these are words that it has where it stands for such a debugger, but for how many events can be taken back: both numbers are 0 here.
    ghost copies: { Self → List ℕ → Setting → Debugger → Type 0 };

    /// A copy of all its words.
    ///
    /// # Errors
    ///
    /// Out of memory.
    fn copied(&self, alloc: Global) -> Result<Vec<u64>, AllocError>
        ensures words { IfOk result (λ words. can_have self.now words.items) }
        ensures moment { IfOk result (λ words. (s : Setting) (d : Debugger) → Self.stands self.now s d → copies self.now words.items s (with_events d.events 0 0 d)) };

    /// Takes words that were copied of it, where no event can be taken back. None can be then.
    fn begin_again(&mut self, words: &[u64])
        requires words { can_have self.old words.now }
        requires none_kept { (Self.history self.old).past ≡ [] }
        ensures moment { (s : Setting) (d : Debugger) → copies self.old words.now s (with_events d.events 0 0 d) → StandsAt Self.stands self.new s d d.events }
        ensures none_kept { (Self.history self.new).past ≡ [] }
        ensures run { Self.same_run self.old self.new }
        ensures moves { Self.moves self.new ≡ Self.moves self.old };

    // What it can have, and what a copy is, are the same all through its run.
    ghost can_have_so: { (old new : Self) (words : List ℕ) → Self.same_run old new → can_have old words → can_have new words };

    ghost copies_so: { (old new : Self) (words : List ℕ) (s : Setting) (d : Debugger) → Self.same_run old new → copies old words s d → copies new words s d };
}
