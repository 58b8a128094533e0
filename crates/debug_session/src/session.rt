//! A debugger over a recorded machine.
ghost use Rattle.std.specs.Prelude.{◌≡◌, ◌+◌, ◌≤◌, [], length, true};
ghost use Rattle.gang_model.specs.Debugger.Debugger.{Debugger, DoSetIn, Setting, do_backward, do_forward};
ghost use Rattle.debug_commands.specs.Views.{command_view, target_view};
ghost use Rattle.debug_session.specs.Bounds.{TakesBack, most_moves};
ghost use Rattle.debug_session.specs.Goals.{goal_view};
ghost use Rattle.debug_session.specs.Sessions.{IsUnchanged, Replied, RepliesTo, StandsFor, is_refused};

use crate::changing::{set, set_history, undo};
use crate::framed::set_in;
use crate::goal::Goal;
use crate::moving::{move_backward, move_forward};
use crate::refusing::{backward_refusal, depth, forward_refusal};
use crate::showing::print;
use crate::stopping::{delete, set_breakpoint, set_watch};
use crate::table::StopTable;
use crate::watching::WordsBefore;
use debug_answers::{Answer, NumberedStop};
use debug_commands::{Command, Target};
use debug_traits::{FramedMachine, RecordedMachine};

/// A debugger over a machine. It does at most so many moves for one forward command.
#[derive(Drop)]
pub struct Session<M: RecordedMachine> {
    machine: M,
    most_steps: u32,
    stops: StopTable,
    /// Kept from command to command, since a new one costs its whole room; each command notes its own words.
    before: WordsBefore,
}

impl<M: RecordedMachine> Session<M> {
    /// A debugger over a machine, with no breakpoint or watch.
    pub fn open(machine: M, most_steps: u32) -> Self
        ensures { (s : Setting) (d : Debugger) → M.stands machine s d → d.stops ≡ [] → d.next ≡ 1 → s.limit ≡ most_steps
            → StandsFor M.stands result s d }
    {
        Session {
            machine,
            most_steps,
            stops: StopTable::new(),
            before: WordsBefore::new(),
        }
    }

    /// Does a command. That which raises the history limit may want for memory, one that sets a value too where the machine may, and no other.
    #[tactic(auto, using(crate::proofs::Replies::done_replies))]
    pub fn do_command<'a>(&mut self, command: Command<'a>) -> Answer<'a>
        ensures replied { (s : Setting) (d : Debugger) → StandsFor M.stands self.old s d
            → RepliesTo M.may_want M.stands s (command_view command.entry) d result self.new }
        ensures refused { is_refused result ≡ true → IsUnchanged M.history self.old self.new }
        ensures moves { M.moves self.new.machine ≤ M.moves self.old.machine + most_moves self.old.most_steps (length (M.history self.old.machine).past) (command_view command.entry) }
    {
        match command {
            Command::Step(count) => self.go_forward(Goal::Moves(count), false),
            Command::Next(count) => {
                let base = depth(&self.machine);
                self.go_forward(Goal::Groups { left: count, base }, false)
            }
            Command::Finish => {
                let base = depth(&self.machine);
                self.go_forward(Goal::Above(base), true)
            }
            Command::Continue => self.go_forward(Goal::Endless, false),
            Command::ReverseStep(count) => self.go_backward(Goal::Moves(count), false),
            Command::ReverseNext(count) => {
                let base = depth(&self.machine);
                self.go_backward(Goal::Groups { left: count, base }, false)
            }
            Command::ReverseFinish => {
                let base = depth(&self.machine);
                self.go_backward(Goal::Above(base), true)
            }
            Command::ReverseContinue => self.go_backward(Goal::Endless, false),
            Command::Undo => undo(&mut self.machine),
            Command::Print(target) => print(&self.machine, target),
            Command::Set { target, value } => set(&mut self.machine, target, value),
            Command::Break(line) => set_breakpoint(&self.machine, &mut self.stops, line),
            Command::Watch(target) => set_watch(&self.machine, &mut self.stops, target),
            Command::Delete(number) => delete(&mut self.stops, number),
            Command::SetHistory(limit) => set_history(&mut self.machine, limit),
            Command::InfoBreakpoints => Answer::ListsStops,
            Command::InfoLocals => Answer::ListsLocals,
            Command::Backtrace => Answer::ListsFrames,
            Command::Nothing | Command::Quit => Answer::Silent,
        }
    }

    /// The machine.
    pub fn machine(&self) -> &M
        ensures { result.now ≡ self.now.machine }
    {
        &self.machine
    }

    /// The breakpoints and watches, in the order of their numbers.
    pub fn stops(&self) -> &[NumberedStop]
        ensures { result.now ≡ self.now.stops.items }
    {
        self.stops.as_slice()
    }

    /// Moves forward to a goal, unless the program has ended, or a frame below is needed and there is none.
    fn go_forward<'a>(&mut self, goal: Goal, needs_frame: bool) -> Answer<'a>
        ensures replied { (s : Setting) (d : Debugger) → StandsFor M.stands self.old s d
            → Replied M.stands s (do_forward s needs_frame (goal_view goal) d) result self.new }
        ensures refused { is_refused result ≡ true → IsUnchanged M.history self.old self.new }
        ensures moves { M.moves self.new.machine ≤ M.moves self.old.machine + self.old.most_steps }
    {
        match forward_refusal(&self.machine, needs_frame) {
            Some(refusal) => Answer::Refused(refusal),
            None => move_forward(
                &mut self.machine,
                &self.stops,
                &mut self.before,
                self.most_steps,
                goal,
            ),
        }
    }

    /// Moves backward to a goal, unless no step is kept, or a frame below is needed and there is none.
    fn go_backward<'a>(&mut self, goal: Goal, needs_frame: bool) -> Answer<'a>
        ensures replied { (s : Setting) (d : Debugger) → StandsFor M.stands self.old s d
            → Replied M.stands s (do_backward s needs_frame (goal_view goal) d) result self.new }
        ensures refused { is_refused result ≡ true → IsUnchanged M.history self.old self.new }
        ensures moves { TakesBack M.moves M.history self.old.machine self.new.machine }
    {
        match backward_refusal(&self.machine, needs_frame) {
            Some(refusal) => Answer::Refused(refusal),
            None => move_backward(&mut self.machine, &self.stops, &mut self.before, goal),
        }
    }
}

impl<M: FramedMachine> Session<M> {
    /// Sets a value in the frame at a depth, as `set var` does in the top one: no command line asks for it. It may want for memory where the
    /// machine may. Nothing is said of it where it is done.
    pub fn set_in<'a>(&mut self, depth: usize, target: Target<'a>, value: i128) -> Answer<'a>
        ensures replied { (s : Setting) (d : Debugger) → StandsFor M.stands self.old s d
            → RepliesTo M.may_want M.stands s (DoSetIn depth (target_view target.entry) value) d result self.new }
        ensures refused { is_refused result ≡ true → IsUnchanged M.history self.old self.new }
        ensures moves { M.moves self.new.machine ≡ M.moves self.old.machine }
    {
        set_in(&mut self.machine, depth, target, value)
    }
}
