//! Why a command stopped: at breakpoints and watches.
ghost use Rattle.std.specs.Prelude.{◌≡◌, ℕ};
ghost use Rattle.conditional_stops.specs.Reasons as spec;

use crate::judging::Verdict;

/// A breakpoint or watch at which a command stopped, by its number.
#[derive(Clone, Copy, Debug, PartialEq, Eq)]
pub enum Reason {
    /// The breakpoint is on the line where the program stands.
    Breakpoint(u32),
    /// The watch shows another value than where the command began.
    Watch(u32),
}

impl Reason {
    /// The number of the breakpoint or watch.
    pub fn number(self) -> u32
        ensures { result ≡ spec.number_of self }
    {
        match self {
            Reason::Breakpoint(number) | Reason::Watch(number) => number,
        }
    }
}

/// A breakpoint or watch whose stop counts, and what its condition came to, where it has one.
#[derive(Clone, Copy, Debug, PartialEq, Eq)]
pub struct CountedStop {
    pub reason: Reason,
    pub verdict: Option<Verdict>,
}
