//! Breakpoints and watches.
ghost use Rattle.std.specs.Prelude.{◌≡◌};
ghost use Rattle.debug_answers.specs.declared.stops.Stop.TheVariants as stop;

/// A breakpoint on a line; or a watch of a file-scope variable, by its number, or of one of its lanes or elements.
#[derive(Clone, Copy, Debug, PartialEq, Eq)]
pub enum Stop {
    Line(u32),
    Watch { variable: usize, at: Option<u32> },
}

/// A breakpoint or watch, and its number.
#[derive(Clone, Copy, Debug, PartialEq, Eq)]
pub struct NumberedStop {
    pub number: u32,
    pub stop: Stop,
}

/// The blank in an unused place of a table: numbers are given from 1 on.
impl Default for NumberedStop {
    ghost is_default = { λ entry. entry ≡ record { number = 0; stop = stop.Line 0 } };

    fn default() -> Self {
        NumberedStop {
            number: 0,
            stop: Stop::Line(0),
        }
    }
}
