//! The last step of each frame, whose lanes may part by the next one.
ghost use Rattle.std.specs.Prelude.{◌≡◌, ℕ, suc, ◌≤◌, ◌&&◌, ◌+◌, Bool, List, ◌∷◌, ◌++◌, Some, IfOk, [], length, nat_lt, take};
ghost use Rattle.gang_types.specs.Lanes.{and};
ghost use Rattle.gang_types.specs.Masks.{lanes_of};
ghost use Rattle.lane_counts.specs.Pending.{IsQuiet, has_function, is_of, last_at, last_lanes, parting_of, pending, width_of};
ghost use Rattle.lane_counts.specs.Steps.{Stand, active, depth as depth_of};

use crate::gang::Gang;
use gang_types::Mask;
use std::alloc::{AllocError, Global};

/// The last step of a frame: its line, the number of the frame's function, and the lanes of the gang that did it.
#[derive(Clone, Copy, Debug)]
pub(crate) struct LastStep {
    pub(crate) line: usize,
    pub(crate) function: usize,
    pub(crate) gang: Gang,
    pub(crate) lanes: Mask,
}

impl LastStep {
    /// Whether some of the lanes, and not all of them, are in another set.
    pub(crate) fn parts(self, gang: Gang, next: Mask) -> bool
        ensures { let both = active (and (last_lanes self) (lanes_of (width_of gang) next)) in result ≡ (nat_lt 0 both && nat_lt both (active (last_lanes self))) }
    {
        let all = self.gang.count(self.lanes);
        let both = self.gang.both(self.lanes, gang, next);
        0 < both && both < all
    }
}

fn is_of(function: usize, last: Option<LastStep>) -> bool
    ensures { result ≡ is_of function last }
{
    match last {
        Some(last) => last.function == function,
        None => false,
    }
}

/// The last step of each frame, the bottom one's first.
#[derive(Drop)]
pub(crate) struct Frames {
    lasts: Vec<Option<LastStep>>,
}

impl Frames {
    pub(crate) fn new(alloc: Global) -> Self
        ensures { result.lasts.items ≡ [] }
    {
        Frames {
            lasts: Vec::new(alloc),
        }
    }

    /// Puts a frame of a function above the others, none of whose steps was counted.
    ///
    /// # Errors
    ///
    /// Out of memory.
    pub(crate) fn enter(&mut self, function: usize) -> Result<(), AllocError>
        requires { IsQuiet self.old.lasts.items }
        ensures quiet { IfOk result (λ _. IsQuiet self.new.lasts.items) }
        ensures frames { IfOk result (λ _. (last : LastStep) × (self.new.lasts.items ≡ self.old.lasts.items ++ Some last ∷ []) × (last.function ≡ function)) }
    {
        self.lasts.push(Some(LastStep {
            line: 0,
            function,
            gang: Gang::Four,
            lanes: Mask::none(),
        }))?;
        Ok(())
    }

    /// Whether the last step of some frame is one of a function.
    pub(crate) fn has(&self, function: usize) -> bool
        ensures { result ≡ has_function function self.now.lasts.items }
    {
        for last in &self.lasts {
            if is_of(function, *last) {
                return true;
            }
        }
        false
    }

    /// The last step of the frame that is so many above the bottom one.
    fn last(&self, below: usize) -> Option<LastStep>
        ensures { result ≡ last_at self.now.lasts.items below }
    {
        match self.lasts.get(below) {
            Some(last) => *last,
            None => None,
        }
    }

    /// Puts a step in the place of the last one of the frame that has so many below it, which is given back. Frames above it have been left.
    ///
    /// # Errors
    ///
    /// Out of memory.
    pub(crate) fn put(
        &mut self,
        below: usize,
        step: LastStep,
    ) -> Result<Option<LastStep>, AllocError>
        ensures parting { IfOk result (λ before. (mine : LastStep → Bool) (stand : Stand) (later : List Stand) → depth_of stand ≡ suc below
            → pending mine 1 self.old.lasts.items (stand ∷ later) + parting_of mine (suc below) (Some step) later
            ≡ pending mine 1 self.new.lasts.items later + parting_of mine (suc below) before (stand ∷ later)) }
        ensures frames { IfOk result (λ _. below ≤ length self.old.lasts.items → self.new.lasts.items ≡ take below self.old.lasts.items ++ Some step ∷ []) }
    {
        let before = self.last(below);
        self.lasts.truncate(below);
        while self.lasts.len() < below {
            self.lasts.push(None)?;
        }
        self.lasts.push(Some(step))?;
        Ok(before)
    }
}
