//! A machine whose words can be copied over others.
ghost use Rattle.gang_model.specs.Debugger.Debugger.{Debugger, Setting};
ghost use Rattle.debug_traits.specs.Beginnings.{with_events};

use debug_traits::BeginsAgain;

/// A machine that can copy its words over words that were copied of it. That takes no memory.
pub trait CopiesOver: BeginsAgain {
    ghost use Rattle.std.specs.Prelude.{◌≡◌, List, length, ℕ};

    // How many words it has.
    ghost word_count: { Self → ℕ };

    /// Copies all its words over others that were copied of it.
    fn copy_over(&self, words: &mut [u64])
        requires { Self.can_have self.now words.old }
        ensures words { Self.can_have self.now words.new }
        ensures moment { (s : Setting) (d : Debugger) → Self.stands self.now s d → Self.copies self.now words.new s (with_events d.events 0 0 d) };

    // Words that it can have are as many.
    ghost are_as_many: { (machine : Self) (words : List ℕ) → Self.can_have machine words → length words ≡ word_count machine };
}
