//! Expressions in the frames of a machine.
ghost use Rattle.std.specs.Prelude.{◌≡◌, ◌<◌, Some, take};
ghost use Rattle.gang_types.specs.declared.places.Spot.{Spot};
ghost use Rattle.gang_types.specs.Masks.{IsGangWidth, lanes_of};
ghost use Rattle.gang_model.specs.Running.State.{State};
ghost use Rattle.gang_model.specs.Running.Value.{value};
ghost use Rattle.gang_model.specs.Debugger.Debugger.{Debugger, Setting, now};
ghost use Rattle.debug_traits.specs.Frames.{spot_at};
ghost use Rattle.machine_states.specs.Regions.{LanesOf, OfHead, lanes_in};
ghost use Rattle.machine_words.specs.Words.{AreLaid, regions_in};
ghost use Rattle.frame_steps.specs.Read.{HasRegions};
ghost use Rattle.expression_runs.specs.Correct.{Computes};
ghost use Rattle.expression_runs.specs.Room.{HasRoom};
ghost use Rattle.typed_tree.specs.declared.expressions.Expr.{Expr};
ghost use Rattle.typed_tree.specs.Views.{expr_view};
ghost use Rattle.frame_expressions.specs.Lanes.{IsValue, lanes_at};
ghost use Rattle.gang_machine.specs.Standings.{Stands};

use crate::machine::Machine;
use crate::stores::{named_view, next_store};
use debug_traits::{Fault, Shown};
use expression_instructions::Instruction;
use expression_runs::Stop;
use frame_expressions::{ExpressionMachine, LaneWords};
use frame_steps::TopVariables;
use gang_types::{FuncId, Mask, Spot};
use machine_shown::{frame_count, position, step_at};
use machine_words::{Head, MachineWords, Region};
use short_expressions::value_of;
use typed_tree::Program;
use undo_log::Timeline;

impl<const W: usize, T: Timeline + Drop> Machine<W, T> {
    /// The lanes that the frame at a depth shows: those of the call that it made, and of the top one those of its next step.
    fn lanes_shown(&self, depth: usize) -> Mask
        ensures { (s : Setting) (d : Debugger) (spot : Spot) → Stands self.now s d → spot_at s.program depth (now s d) ≡ Some spot
            → lanes_of W result ≡ lanes_at depth (now s d) }
    {
        if depth < frame_count::<W, T>(&self.compiled, &self.words) {
            return made_for::<W, T>(&self.words, depth);
        }
        match position::<W, T>(&self.compiled, &self.words) {
            Some(position) => position.lanes,
            None => Mask::none(),
        }
    }
}

/// The lanes that a frame was made for, by its number: the entry's is number 0.
fn made_for<const W: usize, T: Timeline + Drop>(words: &MachineWords<T>, frame: usize) -> Mask
    requires width { IsGangWidth W }
    requires laid { AreLaid T.history W words.now }
    requires there { frame < 64 }
    ensures { lanes_of W result ≡ lanes_in W (regions_in T.history W words.now) (OfHead frame LanesOf) }
{
    Mask::from_word::<W>(words.word::<W>(Region::Head(frame, Head::Lanes), 0))
}

impl<const W: usize, T: Timeline + Drop> ExpressionMachine for Machine<W, T> {
    fn program(&self) -> &Program {
        &self.compiled.program
    }

    fn spot(&self, depth: usize) -> Option<Spot> {
        let active = step_at::<W, T>(&self.compiled, &self.words, depth)?;
        Some(Spot {
            function: FuncId(active.function),
            number: active.step,
        })
    }

    fn evaluate(&self, depth: usize, code: &[Instruction]) -> Result<LaneWords, Fault> {
        match step_at::<W, T>(&self.compiled, &self.words, depth) {
            Some(active) => {
                value_in::<W, T>(&self.words, active.frame, self.lanes_shown(depth), code)
            }
            None => Ok(no_words()),
        }
    }

    fn evaluate_for(
        &self,
        depth: usize,
        lanes: Mask,
        code: &[Instruction],
    ) -> Result<LaneWords, Fault> {
        match step_at::<W, T>(&self.compiled, &self.words, depth) {
            Some(active) => {
                let made = made_for::<W, T>(&self.words, active.frame);
                value_in::<W, T>(&self.words, active.frame, made.and(lanes), code)
            }
            None => Ok(no_words()),
        }
    }

    fn stores_to(&self, depth: usize, array: Shown, first: usize, count: usize) -> bool {
        let named = named_view::<W, T>(&self.compiled, &self.words, depth, array.id);
        match next_store::<W, T>(&self.compiled, &self.words) {
            Some(stored) => stored.meets(named, first, count),
            None => false,
        }
    }
}

/// The value of the expression that the code computes over the words of the frame of this number, for some lanes.
///
/// # Errors
///
/// Its first fault, at the lowest lane that has it there.
fn value_in<const W: usize, T: Timeline + Drop>(
    words: &MachineWords<T>,
    frame: usize,
    lanes: Mask,
    code: &[Instruction],
) -> Result<LaneWords, Fault>
    requires width { IsGangWidth W }
    requires laid { AreLaid T.history W words.now }
    requires there { frame < 64 }
    ensures { (e : Expr) (state : State) → Computes e code.now → HasRoom (expr_view e) → HasRegions (regions_in T.history W words.now) frame state
        → IsValue result (lanes_of W lanes) (value (expr_view e) (lanes_of W lanes) state) }
{
    let variables = TopVariables::<W, T> { words, frame };
    match value_of(code, &variables, lanes) {
        Ok(values) => Ok(widened(lanes, values)),
        Err(Stop::Fault((lane, name))) => Err(Fault { name, lane }),
        Err(Stop::NoRoom) => Ok(no_words()),
    }
}

/// The words of no lane.
fn no_words() -> LaneWords {
    LaneWords {
        words: [0; 16],
        width: 0,
        lanes: Mask::none(),
    }
}

/// The words of the lanes of a gang.
fn widened<const W: usize>(lanes: Mask, values: [u64; W]) -> LaneWords
    requires { IsGangWidth W }
    ensures { (result.width ≡ W) × (result.lanes ≡ lanes) × (take W result.words ≡ values.entry) }
{
    let mut words = [0; 16];
    for lane in 0..W {
        words[lane] = values[lane];
    }
    LaneWords {
        words,
        width: W,
        lanes,
    }
}
