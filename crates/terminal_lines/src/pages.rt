//! How many lines are shown before a terminal waits.
ghost use Rattle.std.specs.Prelude.{◌≡◌, IfSome};
ghost use Rattle.terminal_lines.specs.Pages as spec;
ghost use Rattle.terminal_lines.specs.Pages.{IsWithin};

/// What a terminal shows where it waits.
pub const MORE: &str = "--Type <RET> for more, q to quit, c to continue without paging--";

/// What is done with the lines that are still to come of one command.
#[derive(Clone, Copy, Debug, PartialEq, Eq, Drop)]
enum Way {
    Waits,
    GoesOn,
    Ends,
}

/// How many lines a page has, how many of them were shown since a terminal waited, and what is done with those to come.
#[derive(Clone, Copy, Debug, PartialEq, Eq, Drop)]
pub struct Pages {
    /// 0 where no list waits, else 2 or more.
    height: u32,
    shown: u32,
    way: Way,
}

impl Pages {
    /// Pages of so many lines, of which the last is that of the terminal's question; of 0, no list waits.
    pub fn new(height: u32) -> Self
        ensures { result ≡ spec.new_pages height }
    {
        Pages {
            height: if height == 1 { 2 } else { height },
            shown: 0,
            way: Way::Waits,
        }
    }

    /// The pages of the next command.
    pub fn begun(self) -> Self
        ensures { result ≡ spec.new_pages self.height }
    {
        Pages::new(self.height)
    }

    /// Whether the lines that are still to come are shown.
    pub fn has_more(self) -> bool
        ensures { result ≡ spec.goes_on self.way }
    {
        self.way != Way::Ends
    }

    /// The pages behind one more line; none where the terminal waits before it.
    pub fn behind_line(self) -> Option<Self>
        ensures behind { result ≡ spec.behind self }
        ensures within { IfSome result IsWithin }
    {
        if self.way != Way::Waits || self.height == 0 {
            return Some(self);
        }
        let shown = self.shown.saturating_add(1);
        if shown >= self.height {
            return None;
        }
        Some(Pages {
            height: self.height,
            shown,
            way: self.way,
        })
    }

    /// The pages behind an answer to the terminal's question: `q` ends the list, `c` shows the rest of it, and anything else a page.
    pub fn answered(self, typed: &[u8]) -> Self
        ensures height { result.height ≡ self.height }
        ensures shown { result.shown ≡ 0 }
        ensures way { result.way ≡ spec.chosen typed.now }
    {
        let way = match typed.first() {
            Some(b'q' | b'Q') => Way::Ends,
            Some(b'c' | b'C') => Way::GoesOn,
            _ => Way::Waits,
        };
        Pages {
            height: self.height,
            shown: 0,
            way,
        }
    }
}
