//! What a machine shows of each of its frames, and what it sets in them.
ghost use Rattle.std.specs.Prelude.{◌≡◌, ◌⊎◌, ℕ, ◌<◌, ◌≤◌, false, filter, length, slice_index, None, IfSome};
ghost use Rattle.gang_model.specs.Types.Tree.{Variable};
ghost use Rattle.gang_model.specs.Debugger.Debugger.{Debugger, Setting, now, shown_words};
ghost use Rattle.debug_traits.specs.Frames.{FindsAt, IsShownAt, ShowsNamedAt, ShowsNextAt, found_at, listed_at, listed_parameters_at, scope_at, state_at};
ghost use Rattle.debug_traits.specs.Machines.{IsOneOf, file_variables};
ghost use Rattle.machine_names.specs.Found.{IsNamed, IsSeen, SeesFound};
ghost use Rattle.machine_names.specs.Listed.{is_of};
ghost use Rattle.gang_machine.specs.Nexts.{HasNoFrame, IsPlace, listed_in_frame};
ghost use Rattle.gang_machine.specs.Standings.{Stands};

use crate::machine::Machine;
use debug_traits::{FramedMachine, NamedVariable, NextLocal, Shown};
use machine_names::{ListedKind, file_named, local_named, next_listed};
use machine_shown::{count, frame_count, poke_at, step_at, word};
use std::alloc::AllocError;
use typed_tree::Function;
use undo_log::Timeline;

impl<const W: usize, T: Timeline + Drop> Machine<W, T> {
    /// The depth of the top frame, 0 where no frame is left.
    pub(crate) fn top(&self) -> usize
        ensures { (s : Setting) (d : Debugger) → Stands self.now s d → length (now s d).frames ≡ result }
    {
        frame_count::<W, T>(&self.compiled, &self.words)
    }

    /// The function that the frame at a depth runs and the step at which it stands, unless there is no frame.
    fn place(&self, depth: usize) -> Option<(&Function, usize)>
        ensures step { (s : Setting) (d : Debugger) → Stands self.now s d → IfSome result (λ place. IsPlace self.now.seen s d depth place.0.now place.1) }
        ensures none { result ≡ None → (s : Setting) (d : Debugger) → Stands self.now s d → HasNoFrame self.now.seen s d depth }
    {
        let active = step_at::<W, T>(&self.compiled, &self.words, depth)?;
        Some((
            &self.compiled.program.functions[active.function],
            active.step,
        ))
    }

    /// What the program tells of the variable of a name in scope in the frame at a depth, else at file scope.
    fn named_variable(&self, depth: usize, name: &[u8]) -> Option<Shown>
        ensures { (s : Setting) (d : Debugger) → Stands self.now s d → SeesFound W (found_at s.program depth (now s d) name.now) result }
    {
        let local = match self.place(depth) {
            Some((function, step)) => local_named::<W>(function, step, name),
            None => None,
        };
        match local {
            Some(shown) => Some(shown),
            None => file_named::<W>(&self.compiled.program.globals, name),
        }
    }

    /// What is shown in the frame at a depth of a variable of which the program told this: of an array, with how many elements it has.
    fn counted(&self, depth: usize, shown: Shown) -> Shown
        ensures shown { (s : Setting) (d : Debugger) (v : Variable) → Stands self.now s d → IsOneOf (scope_at s.program depth (now s d)) v ⊎ IsOneOf (file_variables s) v
            → IsSeen W v shown → IsShownAt s d depth v result }
        ensures few { (v : Variable) → IsSeen W v shown → result.is_array ≡ false → result.count ≤ 16 }
    {
        if shown.is_array {
            let elements = count::<W, T>(&self.compiled, &self.words, depth, shown.id);
            Shown {
                count: elements,
                ..shown
            }
        } else {
            shown
        }
    }

    /// The same of a variable by its name.
    pub(crate) fn counted_by_name<'a>(
        &self,
        depth: usize,
        variable: NamedVariable<'a>,
    ) -> NamedVariable<'a>
        ensures shown { (s : Setting) (d : Debugger) (v : Variable) → Stands self.now s d → IsOneOf (scope_at s.program depth (now s d)) v ⊎ IsOneOf (file_variables s) v
            → IsNamed W v variable.entry → ShowsNamedAt s d depth v result }
        ensures few { (v : Variable) → IsNamed W v variable.entry → result.shown.is_array ≡ false → result.shown.count ≤ 16 }
    {
        NamedVariable {
            name: variable.name,
            shown: self.counted(depth, variable.shown),
        }
    }

    /// The variable of a name in scope in the frame at a depth, else at file scope.
    pub(crate) fn named_in(&self, depth: usize, name: &[u8]) -> Option<Shown>
        ensures { (s : Setting) (d : Debugger) → Stands self.now s d → FindsAt s d depth name.now result }
    {
        let shown = self.named_variable(depth, name)?;
        Some(self.counted(depth, shown))
    }

    /// The first of the variables in scope in the frame at a depth of this kind, from a number on.
    pub(crate) fn next_in(
        &self,
        kind: ListedKind,
        depth: usize,
        from: usize,
    ) -> Option<NextLocal<'_>>
        ensures all { (s : Setting) (d : Debugger) → Stands self.now s d
            → listed_in_frame kind self.now.seen s d depth 0 ≡ filter (λ v. is_of kind v) (scope_at s.program depth (now s d)) }
        ensures next { (s : Setting) (d : Debugger) → Stands self.now s d → ShowsNextAt s d depth (listed_in_frame kind self.now.seen s d depth) from result }
        ensures further { IfSome result (λ variable. from < variable.next) }
    {
        let (function, step) = self.place(depth)?;
        let listed = next_listed::<W>(kind, function, step, from)?;
        Some(NextLocal {
            variable: self.counted_by_name(depth, listed.variable),
            next: listed.next,
        })
    }

    /// A word of a variable in the frame at a depth.
    pub(crate) fn word_in(&self, depth: usize, shown: Shown, index: usize) -> u64
        ensures { (s : Setting) (d : Debugger) (v : Variable) → Stands self.now s d → IsShownAt s d depth v shown → index < shown.count
            → result ≡ slice_index (shown_words (state_at depth (now s d)) v) index }
    {
        word::<W, T>(&self.compiled, &self.words, depth, shown.id, index)
    }
}

impl<const W: usize, T: Timeline + Drop> FramedMachine for Machine<W, T> {
    ghost use Rattle.machine_names.specs.declared.listing.ListedKind.TheVariants.{Locals, Parameters};

    ghost locals_at = { λ m. listed_in_frame Locals m.seen };

    ghost parameters_at = { λ m. listed_in_frame Parameters m.seen };

    fn find_at(&self, depth: usize, name: &[u8]) -> Option<Shown> {
        self.named_in(depth, name)
    }

    fn next_local_at(&self, depth: usize, from: usize) -> Option<NextLocal<'_>> {
        self.next_in(ListedKind::Locals, depth, from)
    }

    fn next_parameter_at(&self, depth: usize, from: usize) -> Option<NextLocal<'_>> {
        self.next_in(ListedKind::Parameters, depth, from)
    }

    fn word_at(&self, depth: usize, shown: Shown, index: usize) -> u64 {
        self.word_in(depth, shown, index)
    }

    fn poke_at(
        &mut self,
        depth: usize,
        shown: Shown,
        at: Option<u32>,
        word: u64,
    ) -> Result<(), AllocError> {
        poke_at::<W, T>(&self.compiled, &mut self.words, depth, shown.id, at, word);
        Ok(())
    }
}
