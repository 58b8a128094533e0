//! What is counted of some steps.
ghost use Rattle.std.specs.Prelude.{◌≡◌, ◌≤◌, ◌^◌, ◌-◌, true};
ghost use Rattle.lane_counts.specs.Counted.{IsFew, none, noted, with_parting, with_step};
ghost use Rattle.gang_types.specs.Masks.{lanes_of};
ghost use Rattle.lane_counts.specs.Pending.{width_of};
ghost use Rattle.lane_counts.specs.Steps.{active, one_if};

use crate::gang::Gang;
use gang_types::Mask;

/// What is counted of some steps of a run. No count is more than 16 times the steps of the whole run.
#[derive(Clone, Copy, Debug, PartialEq, Eq)]
pub struct Counts {
    /// How many steps there are.
    pub steps: u64,
    /// The lanes that do them, together.
    pub lane_steps: u64,
    /// How many of them are done without some lane of the gang.
    pub short_steps: u64,
    /// At how many of them the lanes part: some do the next step of their frame, and others do not.
    pub partings: u64,
}

impl Counts {
    /// Nothing counted.
    pub fn none() -> Self
        ensures { result ≡ none }
    {
        Counts {
            steps: 0,
            lane_steps: 0,
            short_steps: 0,
            partings: 0,
        }
    }

    /// The counts with a step more, which these lanes of a gang do.
    pub fn and_step(self, gang: Gang, lanes: Mask) -> Self
        ensures { IsFew (2 ^ 40) self → result ≡ with_step (active (lanes_of (width_of gang) lanes)) (width_of gang) self }
    {
        let (lanes, width) = (gang.count(lanes), gang.width());
        Counts {
            steps: self.steps.saturating_add(1),
            lane_steps: self.lane_steps.saturating_add(lanes as u64),
            short_steps: self.short_steps.saturating_add(u64::from(lanes < width)),
            partings: self.partings,
        }
    }

    /// How many of the steps all lanes of the gang do.
    pub fn full_steps(self) -> u64
        ensures { result ≡ self.steps - self.short_steps }
    {
        self.steps.saturating_sub(self.short_steps)
    }

    /// The counts with a step that so many lanes of the gang do, and with a parting if it decides one.
    pub(crate) fn noted(self, is_parting: bool, lanes: usize, width: usize) -> Self
        requires few { IsFew (2 ^ 39) self }
        requires lanes { lanes ≤ 16 }
        ensures { result ≡ noted true lanes width (one_if is_parting) self }
    {
        Counts {
            steps: self.steps + 1,
            lane_steps: self.lane_steps + lanes as u64,
            short_steps: self.short_steps + u64::from(lanes < width),
            partings: self.partings + u64::from(is_parting),
        }
    }

    /// Counts a step that so many lanes of the gang do.
    pub(crate) fn add_step(&mut self, lanes: usize, width: usize)
        requires few { IsFew (2 ^ 40) self.old }
        requires lanes { lanes ≤ 16 }
        ensures { self.new ≡ with_step lanes width self.old }
    {
        let counted = *self;
        self.steps = counted.steps + 1;
        self.lane_steps = counted.lane_steps + lanes as u64;
        self.short_steps = counted.short_steps + u64::from(lanes < width);
    }

    /// Counts a parting at a step that was counted before.
    pub(crate) fn add_parting(&mut self)
        requires { IsFew (2 ^ 40) self.old }
        ensures { self.new ≡ with_parting self.old }
    {
        self.partings += 1;
    }
}
