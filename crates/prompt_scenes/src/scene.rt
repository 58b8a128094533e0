//! The scene of a line: what is the same for all that is done for it.
ghost use Rattle.std.specs.Prelude.{◌≡◌};

use prompt_lines::Text;
use prompt_texts::{Layout, Source};
use std::alloc::Global;

/// A line of a breakpoint or watch, by the number of that.
#[derive(Drop)]
pub struct ListedLine {
    pub number: u32,
    pub text: Text,
}

/// The blank in an unused place.
impl Default for ListedLine {
    ghost is_default = { λ line. line.number ≡ 0 };

    fn default() -> Self {
        ListedLine {
            number: 0,
            text: Text::new(),
        }
    }
}

/// The line that is done, as it was typed, the lines of breakpoints and watches, the source that is shown, the most moves of one forward
/// command, and how much of an array is told; and where memory for expressions comes from.
#[derive(Clone, Copy)]
pub struct Scene<'a> {
    pub alloc: Global,
    pub line: &'a [u8],
    pub listed: &'a [ListedLine],
    pub source: Source<'a>,
    pub most_steps: u32,
    pub layout: Layout,
}
