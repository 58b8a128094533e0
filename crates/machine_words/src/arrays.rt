//! Elements of arrays among the words of a machine.
ghost use Rattle.std.specs.Prelude.{◌≡◌, ◌+◌, ◌<◌, ◌≤◌, false, length, nat_le, slice_get, slice_index, slice_set, OnOk};
ghost use Rattle.gang_types.specs.Lanes.{no_lane};
ghost use Rattle.gang_types.specs.Masks.{IsGangWidth, lanes_of};
ghost use Rattle.gang_model.specs.Running.Lanes.{at};
ghost use Rattle.cross_lane.specs.Calls.{answer_of};
ghost use Rattle.gang_memory.specs.Elements.{stored};
ghost use Rattle.gang_memory.specs.Parts.{AreWithin};
ghost use Rattle.machine_states.specs.ArrayParts.{IsInside, ReadsElements, array_region, view_at, view_kept};
ghost use Rattle.machine_words.specs.Arrays.{LiesIn, array_range, or_nothing};
ghost use Rattle.machine_words.specs.Views.{region_view, view_view};
ghost use Rattle.machine_words.specs.Words.{AreLaid, Writes, left_of, regions_in, words_of};

use crate::regions::Region;
use crate::views::{View, view_of_words};
use crate::words::MachineWords;
use gang_memory::{Layout, Part, WordStore, gather, scatter};
use gang_types::{FaultName, Mask, VarId};
use undo_log::Timeline;

// The range of this number, an empty one where there is none.
fn range_at(ranges: &[Part], number: usize) -> Part
    ensures { result ≡ or_nothing (slice_get ranges.now number) }
{
    match ranges.get(number) {
        Some(range) => *range,
        None => Part { first: 0, len: 0 },
    }
}

// The range of an array's elements, an empty one where there is no such array.
fn array_range<const W: usize>(layout: &Layout, array: VarId) -> Part
    ensures { result ≡ array_range W layout.now array }
{
    match array {
        VarId::File(number) => range_at(&layout.file, number),
        VarId::Local(number) => range_at(&layout.entry, number),
    }
}

impl<T: Timeline + Drop> MachineWords<T> {
    /// The part of an array that a name stands for in a frame: an array of the file whole, for a parameter what its words keep.
    pub fn view<const W: usize>(&self, frame: usize, array: VarId) -> View
        requires width { IsGangWidth W }
        requires laid { AreLaid T.history W self.now }
        requires there { frame < 64 }
        ensures { view_view result ≡ view_at (regions_in T.history W self.now) frame array }
    {
        match array {
            VarId::File(_) => View {
                array,
                first: 0,
                len: array_range::<W>(&self.layout, array).len,
            },
            VarId::Local(number) if number < self.layout.frames.variables => {
                self.kept_view::<W>(Region::Local(frame, number), array)
            }
            VarId::Local(_) => View::none(array),
        }
    }

    // The part of an array that the words of a region keep, an empty one where they keep none.
    fn kept_view<const W: usize>(&self, region: Region, array: VarId) -> View
        requires width { IsGangWidth W }
        requires laid { AreLaid T.history W self.now }
        requires whole { length (regions_in T.history W self.now (region_view region)) ≡ W }
        ensures { view_view result ≡ view_kept (regions_in T.history W self.now) array
            (regions_in T.history W self.now (region_view region)) }
    {
        let view = view_of_words(&self.lanes::<W>(region));
        if self.is_inside::<W>(view) {
            view
        } else {
            View::none(array)
        }
    }

    // Whether a part lies in its array.
    fn is_inside<const W: usize>(&self, view: View) -> bool
        requires laid { AreLaid T.history W self.now }
        ensures { result ≡ nat_le (view.first + view.len)
            (length (regions_in T.history W self.now (array_region view.array))) }
    {
        let len = array_range::<W>(&self.layout, view.array).len;
        view.first <= len && view.len <= len - view.first
    }

    /// Where the elements of a part of an array lie among all words.
    pub fn part<const W: usize>(&self, view: View) -> Part
        requires laid { AreLaid T.history W self.now }
        requires inside { IsInside (regions_in T.history W self.now) (view_view view) }
        ensures lies { LiesIn W self.now.layout (view_view view) result }
        ensures inside { result.first + result.len ≤ length (words_of T.history self.now) }
    {
        let range = array_range::<W>(&self.layout, view.array);
        Part {
            first: range.first + view.first,
            len: view.len,
        }
    }

    /// One element of a part of an array.
    pub fn element<const W: usize>(&self, view: View, index: usize) -> u64
        requires laid { AreLaid T.history W self.now }
        requires inside { IsInside (regions_in T.history W self.now) (view_view view) }
        requires there { index < view.len }
        ensures { result ≡ slice_index (regions_in T.history W self.now (array_region view.array)) (view.first + index) }
    {
        self.store.word(self.part::<W>(view).first + index)
    }

    /// Sets one element of a part of an array.
    pub fn set_element<const W: usize>(&mut self, view: View, index: usize, value: u64)
        requires laid { AreLaid T.history W self.old }
        requires inside { IsInside (regions_in T.history W self.old) (view_view view) }
        requires there { index < view.len }
        requires left { 1 ≤ left_of T.history T.left self.old }
        ensures { Writes T.history T.left W (array_region view.array)
            (slice_set (regions_in T.history W self.old (array_region view.array)) (view.first + index) value) 1
            self.old self.new }
    {
        let part = self.part::<W>(view);
        self.store.set(part.first + index, value);
    }

    /// The elements of a part of an array at the indices of the lanes of the mask, and 0 in the others.
    ///
    /// # Errors
    ///
    /// `Index` with the lowest lane of the mask whose index is not below the length: as a word a negative index is above.
    pub fn elements<const W: usize>(
        &self,
        view: View,
        mask: Mask,
        indices: [u64; W],
    ) -> Result<[u64; W], (usize, FaultName)>
        requires width { IsGangWidth W }
        requires laid { AreLaid T.history W self.now }
        requires inside { IsInside (regions_in T.history W self.now) (view_view view) }
        ensures read { ReadsElements (regions_in T.history W self.now) (view_view view)
            (lanes_of W mask) (at indices.entry) (answer_of result) }
        ensures there { OnOk result (AreWithin (lanes_of W mask) indices.entry view.len) }
    {
        gather(&self.store, self.part::<W>(view), mask, indices)
    }

    /// Stores the values of the lanes of the mask to the elements at their indices, which are there; of lanes with one index the
    /// highest stays.
    pub fn set_elements<const W: usize>(
        &mut self,
        view: View,
        mask: Mask,
        indices: [u64; W],
        values: [u64; W],
    )
        requires width { IsGangWidth W }
        requires laid { AreLaid T.history W self.old }
        requires inside { IsInside (regions_in T.history W self.old) (view_view view) }
        requires lane { no_lane (lanes_of W mask) ≡ false }
        requires there { AreWithin (lanes_of W mask) indices view.len }
        requires left { W ≤ left_of T.history T.left self.old }
        ensures { Writes T.history T.left W (array_region view.array)
            (stored view.first (lanes_of W mask) indices.entry values.entry
            (regions_in T.history W self.old (array_region view.array))) W
            self.old self.new }
    {
        let part = self.part::<W>(view);
        match scatter(&mut self.store, part, mask, indices, values) {
            Ok(()) => {}
            Err(_) => unreachable!(),
        }
    }
}
