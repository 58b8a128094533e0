//! The words of a machine, by regions.
ghost use Rattle.std.specs.Prelude.{◌≡◌, ◌<◌, ◌≤◌, false, length, slice_index, slice_set};
ghost use Rattle.gang_types.specs.Lanes.{no_lane};
ghost use Rattle.gang_types.specs.Masks.{IsGangWidth, lanes_of};
ghost use Rattle.gang_model.specs.Debugger.Events.{covered};
ghost use Rattle.gang_model.specs.Running.Lanes.{merged};
ghost use Rattle.machine_states.specs.Effects.{assigned_region, declared_region};
ghost use Rattle.gang_model.specs.Running.State.{words_for};
ghost use Rattle.machine_words.specs.Views.{region_view};
ghost use Rattle.machine_words.specs.Words.{AreLaid, Writes, left_of, regions_in};

use crate::ranges::range;
use crate::regions::Region;
use gang_memory::{Layout, Recorded, WordStore, assign_scalar, read_scalar};
use gang_types::{Mask, Rate};
use masked_operations::only;
use undo_log::Timeline;

/// The words of a machine in a timeline, as the layout says. A write sets words after the newest event that was marked.
#[derive(Drop)]
pub struct MachineWords<T: Timeline + Drop> {
    pub layout: Layout,
    pub store: Recorded<T>,
}

impl<T: Timeline + Drop> MachineWords<T> {
    /// One word of a region.
    #[inline(always)]
    pub fn word<const W: usize>(&self, region: Region, index: usize) -> u64
        requires width { IsGangWidth W }
        requires laid { AreLaid T.history W self.now }
        requires within { index < length (regions_in T.history W self.now (region_view region)) }
        ensures { result ≡ slice_index (regions_in T.history W self.now (region_view region)) index }
    {
        self.store
            .word(range::<W>(&self.layout, region).first + index)
    }

    /// The words of a region that has one for each lane.
    #[inline(always)]
    pub fn lanes<const W: usize>(&self, region: Region) -> [u64; W]
        requires width { IsGangWidth W }
        requires laid { AreLaid T.history W self.now }
        requires whole { length (regions_in T.history W self.now (region_view region)) ≡ W }
        ensures { result ≡ regions_in T.history W self.now (region_view region) }
    {
        let range = range::<W>(&self.layout, region);
        read_scalar(&self.store, range.first, Rate::Varying, Mask::all::<W>())
    }

    /// Sets one word of a region.
    #[inline(always)]
    pub fn set<const W: usize>(&mut self, region: Region, index: usize, value: u64)
        requires width { IsGangWidth W }
        requires laid { AreLaid T.history W self.old }
        requires within { index < length (regions_in T.history W self.old (region_view region)) }
        requires left { 1 ≤ left_of T.history T.left self.old }
        ensures { Writes T.history T.left W (region_view region)
            (slice_set (regions_in T.history W self.old (region_view region)) index value) 1
            self.old self.new }
    {
        let range = range::<W>(&self.layout, region);
        self.store.set(range.first + index, value);
    }

    /// Sets the first words of a region to these.
    pub fn fill<const W: usize>(&mut self, region: Region, words: &[u64])
        requires width { IsGangWidth W }
        requires laid { AreLaid T.history W self.old }
        requires fits { length words.now
            ≤ length (regions_in T.history W self.old (region_view region)) }
        requires left { length words.now ≤ left_of T.history T.left self.old }
        ensures { Writes T.history T.left W (region_view region)
            (covered words.now (regions_in T.history W self.old (region_view region)))
            (length words.now) self.old self.new }
    {
        for (index, word) in words.iter().enumerate() {
            self.set::<W>(region, index, *word);
        }
    }

    /// Sets the words of the lanes of the mask, in a region that has one for each lane.
    #[inline(always)]
    pub fn set_lanes<const W: usize>(&mut self, region: Region, mask: Mask, values: [u64; W])
        requires width { IsGangWidth W }
        requires laid { AreLaid T.history W self.old }
        requires whole { length (regions_in T.history W self.old (region_view region)) ≡ W }
        requires lane { no_lane (lanes_of W mask) ≡ false }
        requires left { W ≤ left_of T.history T.left self.old }
        ensures { Writes T.history T.left W (region_view region)
            (merged (lanes_of W mask) values.entry
            (regions_in T.history W self.old (region_view region))) W
            self.old self.new }
    {
        let range = range::<W>(&self.layout, region);
        assign_scalar(&mut self.store, range.first, Rate::Varying, mask, values);
    }

    /// Assigns to the scalar of a region, in the lanes of the mask; a uniform one gets the value once.
    #[inline(always)]
    pub fn assign<const W: usize>(
        &mut self,
        region: Region,
        rate: Rate,
        mask: Mask,
        values: [u64; W],
    )
        requires width { IsGangWidth W }
        requires laid { AreLaid T.history W self.old }
        requires room { words_for W rate
            ≤ length (regions_in T.history W self.old (region_view region)) }
        requires most { length (regions_in T.history W self.old (region_view region)) ≤ W }
        requires lane { no_lane (lanes_of W mask) ≡ false }
        requires left { W ≤ left_of T.history T.left self.old }
        ensures { Writes T.history T.left W (region_view region)
            (assigned_region rate (lanes_of W mask) values.entry
            (regions_in T.history W self.old (region_view region))) W
            self.old self.new }
    {
        match rate {
            Rate::Uniform => self.set::<W>(region, 0, values[mask.lowest::<W>()]),
            Rate::Varying => self.set_lanes::<W>(region, mask, values),
        }
    }

    /// Declares the scalar of a region: it has the values in the lanes of the mask and 0 in the others; a uniform one gets the
    /// value once.
    #[inline(always)]
    pub fn declare<const W: usize>(
        &mut self,
        region: Region,
        rate: Rate,
        mask: Mask,
        values: [u64; W],
    )
        requires width { IsGangWidth W }
        requires laid { AreLaid T.history W self.old }
        requires room { words_for W rate
            ≤ length (regions_in T.history W self.old (region_view region)) }
        requires most { length (regions_in T.history W self.old (region_view region)) ≤ W }
        requires lane { no_lane (lanes_of W mask) ≡ false }
        requires left { W ≤ left_of T.history T.left self.old }
        ensures { Writes T.history T.left W (region_view region)
            (declared_region rate (lanes_of W mask) values.entry
            (regions_in T.history W self.old (region_view region))) W
            self.old self.new }
    {
        match rate {
            Rate::Uniform => self.assign::<W>(region, rate, mask, values),
            Rate::Varying => self.set_lanes::<W>(region, Mask::all::<W>(), only(mask, values)),
        }
    }
}
