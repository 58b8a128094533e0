//! Expressions in the frames of a run that can be taken back to its start.
ghost use Rattle.std.specs.Prelude.{◌≡◌, true, Some};
ghost use Rattle.gang_types.specs.declared.places.Spot.{Spot};
ghost use Rattle.gang_types.specs.declared.types.IntType.{IntType};
ghost use Rattle.gang_types.specs.declared.types.Rate.{Rate};
ghost use Rattle.gang_model.specs.Source.Parsed.{ParsedExpr};
ghost use Rattle.gang_model.specs.Types.Tree.{Variable};
ghost use Rattle.gang_model.specs.Running.Value.{value};
ghost use Rattle.gang_model.specs.Debugger.Debugger.{Debugger, Setting, now};
ghost use Rattle.typed_tree.specs.Views.{expr_view, program_view};
ghost use Rattle.debug_traits.specs.Frames.{IsShownAt, spot_at, state_at};
ghost use Rattle.frame_expressions.specs.Lanes.{IsValue, chosen_lanes, lanes_at};
ghost use Rattle.frame_expressions.specs.Meanings.{Means, entries_at};
ghost use Rattle.frame_expressions.specs.Stores.{stores_to};

use crate::copies_over::CopiesOver;
use crate::whole_run::WholeRun;
use debug_traits::{Fault, PokesSurely, Shown};
use expression_instructions::Instruction;
use frame_expressions::{ExpressionMachine, LaneWords};
use gang_types::{Mask, Spot};
use typed_tree::Program;

impl<M: CopiesOver + PokesSurely + ExpressionMachine> ExpressionMachine for WholeRun<M> {
    fn program(&self) -> &Program {
        self.inner.program()
    }

    fn spot(&self, depth: usize) -> Option<Spot> {
        self.inner.spot(depth)
    }

    fn evaluate(&self, depth: usize, code: &[Instruction]) -> Result<LaneWords, Fault> {
        self.inner.evaluate(depth, code)
    }

    fn evaluate_for(
        &self,
        depth: usize,
        lanes: Mask,
        code: &[Instruction],
    ) -> Result<LaneWords, Fault> {
        self.inner.evaluate_for(depth, lanes, code)
    }

    fn stores_to(&self, depth: usize, array: Shown, first: usize, count: usize) -> bool {
        self.inner.stores_to(depth, array, first, count)
    }
}
