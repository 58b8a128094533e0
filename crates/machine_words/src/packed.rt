//! The first elements of a part of an array, taken by the lanes of a mask from the lowest on.
ghost use Rattle.std.specs.Prelude.{◌≡◌, ◌≤◌, false, OnOk};
ghost use Rattle.gang_types.specs.Lanes.{no_lane};
ghost use Rattle.gang_types.specs.Masks.{IsGangWidth, lanes_of};
ghost use Rattle.gang_model.specs.Running.Library.{rank};
ghost use Rattle.cross_lane.specs.Calls.{answer_of};
ghost use Rattle.gang_memory.specs.Elements.{stored};
ghost use Rattle.gang_memory.specs.Packed.{ranks_of};
ghost use Rattle.gang_memory.specs.Parts.{AreWithin};
ghost use Rattle.machine_states.specs.ArrayParts.{IsInside, ReadsElements, array_region};
ghost use Rattle.machine_words.specs.Views.{view_view};
ghost use Rattle.machine_words.specs.Words.{AreLaid, Writes, left_of, regions_in};

use crate::views::View;
use crate::words::MachineWords;
use gang_memory::{packed_load, packed_store};
use gang_types::{FaultName, Mask};
use undo_log::Timeline;

impl<T: Timeline + Drop> MachineWords<T> {
    /// In each lane of the mask the element of a part of an array that has the lane's rank, the number of lanes of the mask below it;
    /// 0 in the other lanes.
    ///
    /// # Errors
    ///
    /// `Index` with the lowest lane of the mask whose element is not there.
    pub fn packed_elements<const W: usize>(
        &self,
        view: View,
        mask: Mask,
    ) -> Result<[u64; W], (usize, FaultName)>
        requires width { IsGangWidth W }
        requires laid { AreLaid T.history W self.now }
        requires inside { IsInside (regions_in T.history W self.now) (view_view view) }
        ensures read { ReadsElements (regions_in T.history W self.now) (view_view view)
            (lanes_of W mask) (rank (lanes_of W mask)) (answer_of result) }
        ensures there { OnOk result (AreWithin (lanes_of W mask) (ranks_of (lanes_of W mask)) view.len) }
    {
        match packed_load(&self.store, self.part::<W>(view), mask) {
            Ok(loaded) => Ok(loaded.words),
            Err(found) => Err(found),
        }
    }

    /// Stores the value of each lane of the mask to the element of the lane's rank, all of which are there.
    pub fn set_packed<const W: usize>(&mut self, view: View, mask: Mask, values: [u64; W])
        requires width { IsGangWidth W }
        requires laid { AreLaid T.history W self.old }
        requires inside { IsInside (regions_in T.history W self.old) (view_view view) }
        requires lane { no_lane (lanes_of W mask) ≡ false }
        requires there { AreWithin (lanes_of W mask) (ranks_of (lanes_of W mask)) view.len }
        requires left { W ≤ left_of T.history T.left self.old }
        ensures { Writes T.history T.left W (array_region view.array)
            (stored view.first (lanes_of W mask) (ranks_of (lanes_of W mask)) values.entry
            (regions_in T.history W self.old (array_region view.array))) W
            self.old self.new }
    {
        let part = self.part::<W>(view);
        match packed_store(&mut self.store, part, mask, values) {
            Ok(_) => {}
            Err(_) => unreachable!(),
        }
    }
}
