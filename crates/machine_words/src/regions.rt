//! What words a machine has.
ghost use Rattle.std.specs.Prelude.{◌≡◌, ◌<◌, ◌^◌};
ghost use Rattle.machine_words.specs.Ranges.{head_part};
ghost use Rattle.machine_words.specs.Views.{head_view};

/// A part of a level of a frame: what each lane of the gang waits for; and of a foreach form the number of its rounds, what it counts, and
/// the values of `foreach_unique`.
#[derive(Clone, Copy, Debug, PartialEq, Eq)]
pub enum LevelPart {
    Numbers,
    End,
    Counters,
    Values,
}

/// A part of a frame's head: the number of its function, the lanes of its call, those of them that have returned, the result so far, how
/// many foreach forms have begun that may not be over, and the parts of its levels. Level 0 is the function's body, and has numbers alone.
#[derive(Clone, Copy, Debug, PartialEq, Eq)]
pub enum Head {
    Function,
    Lanes,
    Returned,
    Result,
    Open,
    Level(usize, LevelPart),
}

/// The words of a variable of the file, of an array that the entry is given, by the number of its parameter, how many frames there
/// are, a part of a frame's head, or the words of a variable of a frame, by its number in its function. The entry's frame is frame 0.
#[derive(Clone, Copy, Debug, PartialEq, Eq)]
pub enum Region {
    File(usize),
    Entry(usize),
    Depth,
    Head(usize, Head),
    Local(usize, usize),
}

impl Head {
    // The number of the part among those of a head.
    #[inline(always)]
    pub(crate) fn part(self) -> usize
        requires { head_part (head_view self) < 2 ^ 64 }
        ensures { result ≡ head_part (head_view self) }
    {
        match self {
            Head::Function => 0,
            Head::Lanes => 1,
            Head::Returned => 2,
            Head::Result => 3,
            Head::Open => 4,
            Head::Level(level, LevelPart::End) => 4 * level + 2,
            Head::Level(level, LevelPart::Counters) => 4 * level + 3,
            Head::Level(level, LevelPart::Values) => 4 * level + 4,
            Head::Level(level, LevelPart::Numbers) => 4 * level + 5,
        }
    }
}
