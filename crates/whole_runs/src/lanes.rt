//! Where each lane waits in the frames of a run that can be taken back to its start.
ghost use Rattle.std.specs.Prelude.{◌≡◌};
ghost use Rattle.gang_model.specs.Debugger.Debugger.{Debugger, Setting, now};
ghost use Rattle.lane_places.specs.Places.{lane_spot_at};

use crate::copies_over::CopiesOver;
use crate::whole_run::WholeRun;
use debug_traits::PokesSurely;
use gang_types::Spot;
use lane_places::LaneMachine;

impl<M: CopiesOver + PokesSurely + LaneMachine> LaneMachine for WholeRun<M> {
    fn lane_spot(&self, depth: usize, lane: usize) -> Option<Spot> {
        self.inner.lane_spot(depth, lane)
    }
}
