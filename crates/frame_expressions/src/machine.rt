//! A machine that computes expressions.
ghost use Rattle.std.specs.Prelude.{◌≡◌, ℕ, true, Some};
ghost use Rattle.gang_types.specs.declared.places.Spot.{Spot};
ghost use Rattle.gang_types.specs.declared.types.IntType.{IntType};
ghost use Rattle.gang_types.specs.declared.types.Rate.{Rate};
ghost use Rattle.gang_model.specs.Source.Parsed.{ParsedExpr};
ghost use Rattle.gang_model.specs.Types.Tree.{Variable};
ghost use Rattle.gang_model.specs.Running.Value.{value};
ghost use Rattle.gang_model.specs.Debugger.Debugger.{Debugger, Setting, now};
ghost use Rattle.typed_tree.specs.Views.{expr_view, program_view};
ghost use Rattle.debug_traits.specs.Frames.{IsShownAt, spot_at, state_at};
ghost use Rattle.frame_expressions.specs.Lanes.{IsValue, chosen_lanes, lanes_at};
ghost use Rattle.frame_expressions.specs.Meanings.{Means, entries_at};
ghost use Rattle.frame_expressions.specs.Stores.{stores_to};

use debug_traits::{Fault, FramedMachine, Shown};
use expression_instructions::Instruction;
use gang_types::{Mask, Spot};
use typed_tree::Program;

/// The words of a value: one for each lane of the gang, which has so many, with the lanes that evaluate it, and 0 in the others.
#[derive(Clone, Copy, Debug, PartialEq, Eq)]
pub struct LaneWords {
    pub words: [u64; 16],
    pub width: usize,
    pub lanes: Mask,
}

/// A machine that computes expressions where its frames stand. A frame is named by its depth, as in [`FramedMachine`]. Nothing is
/// changed or recorded, and no memory is taken.
pub trait ExpressionMachine: FramedMachine {
    /// The program that it runs.
    fn program(&self) -> &Program
        ensures { (s : Setting) (d : Debugger) → Self.stands self.now s d → s.program ≡ program_view result.now };

    /// The step at which the frame at a depth stands, unless no frame is left or the depth is 0.
    fn spot(&self, depth: usize) -> Option<Spot>
        ensures { (s : Setting) (d : Debugger) → Self.stands self.now s d → result ≡ spot_at s.program depth (now s d) };

    /// The value of the expression that the code computes, where the frame at a depth stands, for the lanes that this frame shows.
    ///
    /// # Errors
    ///
    /// Its first fault, at the lowest lane that has it there.
    fn evaluate(&self, depth: usize, code: &[Instruction]) -> Result<LaneWords, Fault>
        ensures { (s : Setting) (d : Debugger) (spot : Spot) (written : ParsedExpr) (type : IntType) (rate : Rate) → Self.stands self.now s d
            → spot_at s.program depth (now s d) ≡ Some spot → (means : Means written (entries_at s.program spot) type rate code.now)
            → IsValue result (lanes_at depth (now s d)) (value (expr_view means.tree) (lanes_at depth (now s d)) (state_at depth (now s d))) };

    /// The value of the expression that the code computes, where the frame at a depth stands, for those of some lanes for which this frame
    /// was made, whether they are active there or not.
    ///
    /// # Errors
    ///
    /// Its first fault, at the lowest lane that has it there.
    fn evaluate_for(
        &self,
        depth: usize,
        lanes: Mask,
        code: &[Instruction],
    ) -> Result<LaneWords, Fault>
        ensures { (s : Setting) (d : Debugger) (spot : Spot) (written : ParsedExpr) (type : IntType) (rate : Rate) → Self.stands self.now s d
            → spot_at s.program depth (now s d) ≡ Some spot → (means : Means written (entries_at s.program spot) type rate code.now)
            → IsValue result (chosen_lanes lanes depth (now s d)) (value (expr_view means.tree) (chosen_lanes lanes depth (now s d)) (state_at depth (now s d))) };

    /// Whether the next step stores to one of so many elements of an array, from the first on, by whatever name. The array is named as in the
    /// frame at a depth. A step that is going to fault tells it all the same, if the place that it stores to has a value.
    fn stores_to(&self, depth: usize, array: Shown, first: usize, count: usize) -> bool
        ensures { (s : Setting) (d : Debugger) (v : Variable) → Self.stands self.now s d → IsShownAt s d depth v array → v.is_array ≡ true
            → result ≡ stores_to s.program depth v.id first count (now s d) };
}
