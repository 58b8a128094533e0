//! A machine whose frames can be looked into, and set values in.
ghost use Rattle.std.specs.Prelude.{◌≡◌, ℕ, ◌<◌, true, is_err, List, slice_index, IfSome};
ghost use Rattle.gang_model.specs.Types.Tree.{Variable};
ghost use Rattle.gang_model.specs.Debugger.Debugger.{Debugger, Setting, now, shown_words};
ghost use Rattle.debug_traits.specs.Machines.{IsPart, PokesWords};
ghost use Rattle.debug_traits.specs.Frames.{FindsAt, IsShownAt, PokesAtOrNot, ShowsNextAt, listed_at, listed_parameters_at, state_at};

use crate::machine::{NextLocal, RecordedMachine, Shown};
use std::alloc::AllocError;

/// A machine that tells the variables of each of its frames, and sets them. A frame is named by its depth: the entry's is at depth 1, the top one at
/// the depth where the machine stands. At depth 0 there are the variables of the file alone; a depth at which there is no frame is read
/// as that of the top one.
pub trait FramedMachine: RecordedMachine {
    ghost use Rattle.gang_model.specs.Debugger.Debugger.{Debugger, Setting};
    ghost use Rattle.gang_model.specs.Types.Tree.{Variable};

    // The local variables in scope in the frame at a depth from a place on, parameters left out, where it stands for such a debugger.
    ghost locals_at: { Self → Setting → Debugger → (depth : ℕ) → ℕ → List Variable };

    // The parameters in scope in the frame at a depth from a place on, where it stands for such a debugger.
    ghost parameters_at: { Self → Setting → Debugger → (depth : ℕ) → ℕ → List Variable };

    /// The variable of a name in scope in the frame at a depth, else at file scope.
    fn find_at(&self, depth: usize, name: &[u8]) -> Option<Shown>
        ensures { (s : Setting) (d : Debugger) → Self.stands self.now s d → FindsAt s d depth name.now result };

    /// The first local variable in scope in the frame at a depth, parameters left out, from a place on. The places begin at 0.
    fn next_local_at(&self, depth: usize, from: usize) -> Option<NextLocal<'_>>
        ensures all { (s : Setting) (d : Debugger) → Self.stands self.now s d → locals_at self.now s d depth 0 ≡ listed_at s d depth }
        ensures next { (s : Setting) (d : Debugger) → Self.stands self.now s d → ShowsNextAt s d depth (locals_at self.now s d depth) from result }
        ensures further { IfSome result (λ local. from < local.next) };

    /// The first parameter in scope in the frame at a depth, from a place on. The places begin at 0.
    fn next_parameter_at(&self, depth: usize, from: usize) -> Option<NextLocal<'_>>
        ensures all { (s : Setting) (d : Debugger) → Self.stands self.now s d → parameters_at self.now s d depth 0 ≡ listed_parameters_at s d depth }
        ensures next { (s : Setting) (d : Debugger) → Self.stands self.now s d → ShowsNextAt s d depth (parameters_at self.now s d depth) from result }
        ensures further { IfSome result (λ parameter. from < parameter.next) };

    /// A word of a variable in the frame at a depth.
    fn word_at(&self, depth: usize, shown: Shown, index: usize) -> u64
        ensures { (s : Setting) (d : Debugger) (v : Variable) → Self.stands self.now s d → IsShownAt s d depth v shown → index < shown.count
            → result ≡ slice_index (shown_words (state_at depth (now s d)) v) index };

    /// Sets a scalar in the frame at a depth, in all lanes or in one, or an element of an array, and records it.
    ///
    /// # Errors
    ///
    /// Out of memory, of a machine that may want for it, and then nothing changes.
    fn poke_at(
        &mut self,
        depth: usize,
        shown: Shown,
        at: Option<u32>,
        word: u64,
    ) -> Result<(), AllocError>
        ensures poke { (s : Setting) (d : Debugger) (v : Variable) → Self.stands self.old s d → IsShownAt s d depth v shown → IsPart at shown
            → PokesAtOrNot Self.stands s d depth v at word result self.new }
        ensures memory { is_err result ≡ true → Self.may_want }
        ensures run { Self.same_run self.old self.new }
        ensures words { PokesWords (Self.history self.old) result (Self.history self.new) }
        ensures moves { Self.moves self.new ≡ Self.moves self.old };
}
