//! Steps whose lanes may part by the next step of their frame, or are apart.
ghost use Rattle.std.specs.Prelude.{◌≡◌, ℕ, Bool, List, ◌∷◌, [], Option, Some, None};
ghost use Rattle.lane_counts.specs.Steps.{Stand};
ghost use Rattle.lane_counts.specs.Tallies.{IsAt};
ghost use Rattle.lane_meetings.specs.Partings.{Measure, frame_steps, given};
ghost use Rattle.lane_meetings.specs.Pending.{Fits, after_gives, gives, left_gives, waiting_gives};

use gang_types::Mask;
use lane_counts::{Gang, StepAt};

/// How far it has come with the lanes of a step.
#[derive(Clone, Copy, Debug)]
pub(crate) enum Stage {
    /// The step is the last one of its frame.
    Last,
    /// The lanes have parted, and so many steps of the frame have been done since.
    Apart(u64),
}

/// A step of a frame that has not been left, with the lanes that did it.
#[derive(Clone, Copy, Debug)]
pub(crate) struct Waiting {
    line: usize,
    depth: usize,
    gang: Gang,
    lanes: Mask,
    stage: Stage,
}

/// A parting that ended: its line, the one where the lanes met again, if they did, and the steps of their frame between.
#[derive(Clone, Copy, Debug)]
pub(crate) struct Ended {
    pub(crate) line: usize,
    pub(crate) meets_at: Option<usize>,
    pub(crate) between: u64,
}

/// What a later step makes of one.
#[derive(Clone, Copy, Debug)]
pub(crate) enum After {
    /// Its lanes are apart, or may part yet.
    Waits(Waiting),
    /// Its lanes met again, or never will.
    Ends(Ended),
    /// Its lanes have not parted.
    Gone,
}

impl Waiting {
    /// The last step of its frame.
    pub(crate) fn last(at: StepAt<'_>) -> Self
        ensures { (measure : Measure) (chosen : ℕ → Option ℕ → Bool) (stand : Stand) (later : List Stand) → IsAt at.entry stand
            → waiting_gives measure chosen later result ≡ given measure chosen stand later }
    {
        Waiting {
            line: at.line,
            depth: at.depth,
            gang: at.gang,
            lanes: at.lanes,
            stage: Stage::Last,
        }
    }

    /// What is left of it at a later step.
    pub(crate) fn after(self, at: StepAt<'_>) -> After
        ensures { (measure : Measure) (chosen : ℕ → Option ℕ → Bool) (stand : Stand) (later : List Stand) → IsAt at.entry stand
            → Fits (waiting_gives measure chosen (stand ∷ later) self) → after_gives measure chosen later result ≡ waiting_gives measure chosen (stand ∷ later) self }
    {
        if self.depth < at.depth {
            After::Waits(self)
        } else if at.depth < self.depth {
            match self.left() {
                Some(ended) => After::Ends(ended),
                None => After::Gone,
            }
        } else {
            self.at_next(at)
        }
    }

    /// How its parting ends, if its lanes have parted, where its frame is left or the run ends.
    pub(crate) fn left(self) -> Option<Ended>
        ensures { (measure : Measure) (chosen : ℕ → Option ℕ → Bool)
            → left_gives measure chosen result ≡ gives measure chosen self self.stage None [] }
    {
        match self.stage {
            Stage::Last => None,
            Stage::Apart(between) => Some(Ended {
                line: self.line,
                meets_at: None,
                between,
            }),
        }
    }

    /// What is left of it at the next step of its frame.
    fn at_next(self, at: StepAt<'_>) -> After
        ensures { (measure : Measure) (chosen : ℕ → Option ℕ → Bool) (stand : Stand) (later : List Stand) → IsAt at.entry stand
            → Fits (gives measure chosen self self.stage (Some stand) (stand ∷ frame_steps self.depth later))
            → after_gives measure chosen later result ≡ gives measure chosen self self.stage (Some stand) (stand ∷ frame_steps self.depth later) }
    {
        let all = self.gang.count(self.lanes);
        let both = self.gang.both(self.lanes, at.gang, at.lanes);
        match self.stage {
            Stage::Last if 0 < both && both < all => After::Waits(self.apart(1)),
            Stage::Last => After::Gone,
            Stage::Apart(between) if both == all => After::Ends(Ended {
                line: self.line,
                meets_at: Some(at.line),
                between,
            }),
            Stage::Apart(between) => After::Waits(self.apart(between.saturating_add(1))),
        }
    }

    /// The same with its lanes apart since so many steps.
    fn apart(self, between: u64) -> Self
        ensures { result ≡ record self { stage = Stage.Apart between } }
    {
        Waiting {
            stage: Stage::Apart(between),
            ..self
        }
    }
}
