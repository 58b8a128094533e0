//! A machine that tells where each of its lanes waits.
ghost use Rattle.std.specs.Prelude.{◌≡◌};
ghost use Rattle.gang_model.specs.Debugger.Debugger.{Debugger, Setting, now};
ghost use Rattle.lane_places.specs.Places.{lane_spot_at};

use frame_expressions::ExpressionMachine;
use gang_types::Spot;

/// A machine that tells where a lane waits in each of its frames. A frame is named by its depth, as in `FramedMachine`.
pub trait LaneMachine: ExpressionMachine {
    /// The step for which a lane waits in the frame at a depth, unless no frame is left or the depth is 0: the first that it has to do
    /// there, a round of a foreach form under way, for which each lane waits, or the closing brace. A lane that the gang does not have has
    /// nothing to do.
    fn lane_spot(&self, depth: usize, lane: usize) -> Option<Spot>
        ensures { (s : Setting) (d : Debugger) → Self.stands self.now s d → result ≡ lane_spot_at s.program depth lane (now s d) };
}
