//! A machine whose events are recorded.
ghost use Rattle.std.specs.Prelude.{◌≡◌, ℕ, suc, ◌<◌, ◌≤◌, false, true, is_err, is_none, length, List, slice_get, slice_index, IfSome, None};
ghost use Rattle.undo_log.specs.History.{steps_in};
ghost use Rattle.gang_types.specs.Masks.{IsGangWidth};
ghost use Rattle.gang_model.specs.Types.Tree.{Variable};
ghost use Rattle.gang_model.specs.Debugger.Positions.{line_now};
ghost use Rattle.gang_model.specs.Debugger.Debugger.{Debugger, Setting, bad_part, depth, found, has_ended, kept_steps, least_from, now, shown_words, step_lines};
ghost use Rattle.gang_model.specs.Texts.Text.{where_text};
ghost use Rattle.debug_traits.specs.Machines.{Finds, FindsInFile, IsPart, IsShown, Limits, LimitsWords, PokesOrNot, PokesWords, ShowsFileAsBefore, ShowsNamed, ShowsNext, Steps, StepsWords, Undoes, UndoesWords, call_text, depth_of, file_variables, line_of_position, listed, listed_parameters, position_line, position_text};

use gang_types::{FaultName, IntType, Mask, Place, Rate, VarId};
use std::alloc::AllocError;
use thiserror::Error;
use undo_log::{NoHistory, Undone};

/// A fault, at its lane.
#[derive(Clone, Copy, Debug, PartialEq, Eq, Error)]
#[error("{name:?} in lane {lane}")]
pub struct Fault {
    pub name: FaultName,
    pub lane: usize,
}

/// What a step came to.
#[derive(Clone, Copy, Debug, PartialEq, Eq)]
pub enum StepEnd {
    Done,
    /// Nothing was done and nothing recorded.
    Fault(Fault),
    /// The program had ended before.
    Ended,
}

/// Where a frame stands: the place of its next step, or of the call that it made, its function's name, its depth, how many
/// lanes the gang has, and the active ones.
#[derive(Clone, Copy)]
pub struct Position<'a> {
    pub place: Place,
    pub function: &'a [u8],
    pub depth: usize,
    pub width: usize,
    pub lanes: Mask,
}

/// What can be shown of a variable: its words, so many, are those of a scalar or the elements of an array.
#[derive(Clone, Copy, Debug, PartialEq, Eq)]
pub struct Shown {
    pub id: VarId,
    pub value_type: IntType,
    pub rate: Rate,
    pub is_array: bool,
    pub is_constant: bool,
    pub count: usize,
}

/// A variable by its name.
#[derive(Clone, Copy, Debug)]
pub struct NamedVariable<'a> {
    pub name: &'a [u8],
    pub shown: Shown,
}

/// A local variable or a parameter, and the place from which on those after it are.
#[derive(Clone, Copy, Debug)]
pub struct NextLocal<'a> {
    pub variable: NamedVariable<'a>,
    pub next: usize,
}

/// Runs a program step by step, takes values from outside, and takes both back. No call takes memory but `set_limit` to a larger limit, and
/// `poke` of a machine that notes each poke in memory that grows.
///
/// What a call tells of a variable or of a place is said of each state of the debugger of the definitions that the machine
/// stands for. A variable that is none of that state has no meaning, and any word may be answered for it.
pub trait RecordedMachine {
    ghost use Rattle.undo_log.specs.History.{History};
    ghost use Rattle.gang_model.specs.Debugger.Debugger.{Debugger, Setting};
    ghost use Rattle.gang_model.specs.Types.Tree.{Variable};

    // Whether it stands where the debugger of the definitions stands: its words show the state after the events, and the
    // words that it keeps show the states before the events that can be taken back.
    ghost stands: { Self → Setting → Debugger → Type 0 };

    // All its words, and the words before each event that can be taken back.
    ghost history: { Self → History };

    // How many times it has moved: how often a step was tried, and how often an event was to be taken back.
    ghost moves: { Self → ℕ };

    // Whether a poke of such a machine may find no memory.
    ghost may_want: { Type 0 };

    // Whether one machine is another at another moment of its run, as far as calls let it be: of the same program, whose words lie alike.
    ghost same_run: { Self → Self → Type 0 };

    // The local variables in scope from a place on, parameters left out, where it stands for such a debugger.
    ghost locals_from: { Self → Setting → Debugger → ℕ → List Variable };

    // The parameters in scope from a place on, where it stands for such a debugger.
    ghost parameters_from: { Self → Setting → Debugger → ℕ → List Variable };

    /// Does the next step and records it.
    fn step(&mut self) -> StepEnd
        ensures step { (s : Setting) (d : Debugger) → stands self.old s d → Steps stands s d result self.new }
        ensures run { same_run self.old self.new }
        ensures words { StepsWords (history self.old) result (history self.new) }
        ensures moves { moves self.new ≡ suc (moves self.old) };

    /// Takes the newest event back.
    fn undo(&mut self) -> Result<Undone, NoHistory>
        ensures undo { (s : Setting) (d : Debugger) → stands self.old s d → Undoes stands s d result self.new }
        ensures run { same_run self.old self.new }
        ensures words { UndoesWords (history self.old) result (history self.new) }
        ensures moves { moves self.new ≡ suc (moves self.old) };

    /// Sets a scalar, in all lanes or in one, or an element of an array, and records it.
    ///
    /// # Errors
    ///
    /// Out of memory, of a machine that may want for it, and then nothing changes.
    fn poke(&mut self, shown: Shown, at: Option<u32>, word: u64) -> Result<(), AllocError>
        ensures poke { (s : Setting) (d : Debugger) (v : Variable) → stands self.old s d → IsShown s d v shown → IsPart at shown
            → PokesOrNot stands s d v shown at word result self.new }
        ensures memory { is_err result ≡ true → may_want }
        ensures run { same_run self.old self.new }
        ensures words { PokesWords (history self.old) result (history self.new) }
        ensures moves { moves self.new ≡ moves self.old };

    /// Whether the newest event may have set a variable of the file. If not, each of them shows what it showed before that event.
    fn may_have_set_file(&self) -> bool
        ensures { result ≡ false → (s : Setting) (d : Debugger) → stands self.now s d → ShowsFileAsBefore s d }
    {
        true
    }

    /// The number of events that can be taken back.
    fn kept(&self) -> usize
        ensures debugger { (s : Setting) (d : Debugger) → stands self.now s d → result ≡ d.kept }
        ensures all { result ≡ length (history self.now).past };

    /// The number of steps that can be taken back.
    fn kept_steps(&self) -> usize
        ensures debugger { (s : Setting) (d : Debugger) → stands self.now s d → result ≡ kept_steps d }
        ensures all { result ≡ steps_in (history self.now).past };

    /// The most events that can be taken back, at least one.
    fn limit(&self) -> usize
        ensures debugger { (s : Setting) (d : Debugger) → stands self.now s d → result ≡ d.history }
        ensures some { 1 ≤ result }
        ensures all { result ≡ (history self.now).limit };

    /// Changes the most events that can be taken back. A smaller limit drops the oldest events and takes no memory.
    ///
    /// # Errors
    ///
    /// Out of memory, for a larger limit alone, and then nothing changes.
    fn set_limit(&mut self, limit: usize) -> Result<(), AllocError>
        requires { (1 ≤ limit) × (limit ≤ 65536) }
        ensures limit { (s : Setting) (d : Debugger) → stands self.old s d → Limits stands s d limit result self.new }
        ensures run { same_run self.old self.new }
        ensures words { LimitsWords (history self.old) limit result (history self.new) }
        ensures moves { moves self.new ≡ moves self.old };

    /// Where it stands, unless the program has ended.
    fn position(&self) -> Option<Position<'_>>
        ensures place { (s : Setting) (d : Debugger) → stands self.now s d → where_text s.program (now s d) ≡ position_text result }
        ensures line { (s : Setting) (d : Debugger) → stands self.now s d → line_now s.program (now s d) ≡ line_of_position result }
        ensures depth { (s : Setting) (d : Debugger) → stands self.now s d → depth (now s d) ≡ depth_of result }
        ensures width { IfSome result (λ position. IsGangWidth position.width) };

    /// Where the call stands that the frame at a depth made, if it made one that has not been left.
    fn call(&self, depth: usize) -> Option<Position<'_>>
        ensures place { (s : Setting) (d : Debugger) → stands self.now s d → call_text s.program depth (now s d).frames ≡ position_line result }
        ensures width { IfSome result (λ position. IsGangWidth position.width) };

    /// The variable of a name in scope, else at file scope.
    fn find(&self, name: &[u8]) -> Option<Shown>
        ensures { (s : Setting) (d : Debugger) → stands self.now s d → Finds s d name.now result };

    /// The number of the file-scope variable of a name.
    fn find_in_file(&self, name: &[u8]) -> Option<usize>
        ensures { (s : Setting) (d : Debugger) → stands self.now s d → FindsInFile s name.now result };

    /// The file-scope variable of a number.
    fn file_variable(&self, number: usize) -> Option<NamedVariable<'_>>
        ensures shown { (s : Setting) (d : Debugger) → stands self.now s d → ShowsNamed s d (slice_get (file_variables s) number) result }
        ensures few { IfSome result (λ v. v.shown.is_array ≡ false → v.shown.count ≤ 16) };

    /// The first local variable in scope where it stands, parameters left out, from a place on. The places begin at 0.
    fn next_local(&self, from: usize) -> Option<NextLocal<'_>>
        ensures all { (s : Setting) (d : Debugger) → stands self.now s d → locals_from self.now s d 0 ≡ listed s d }
        ensures next { (s : Setting) (d : Debugger) → stands self.now s d → ShowsNext s d (locals_from self.now s d) from result }
        ensures further { IfSome result (λ local. from < local.next) };

    /// The first parameter in scope where it stands, from a place on. The places begin at 0.
    fn next_parameter(&self, from: usize) -> Option<NextLocal<'_>>
        ensures all { (s : Setting) (d : Debugger) → stands self.now s d → parameters_from self.now s d 0 ≡ listed_parameters s d }
        ensures next { (s : Setting) (d : Debugger) → stands self.now s d → ShowsNext s d (parameters_from self.now s d) from result }
        ensures further { IfSome result (λ parameter. from < parameter.next) };

    /// A word of a variable.
    fn word(&self, shown: Shown, index: usize) -> u64
        ensures { (s : Setting) (d : Debugger) (v : Variable) → stands self.now s d → IsShown s d v shown → index < shown.count
            → result ≡ slice_index (shown_words (now s d) v) index };

    /// The first line from this one on that has a step or a closing brace.
    fn line_from(&self, line: u32) -> Option<u32>
        ensures { (s : Setting) (d : Debugger) → stands self.now s d → result ≡ least_from line (step_lines s.program) };
}
