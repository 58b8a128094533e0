//! Where the words of frames lie.
ghost use Rattle.std.specs.Prelude.{◌≡◌, ◌+◌, ◌*◌, ◌^◌, ◌<◌, ◌≤◌, IfSome, length, sum};
ghost use Rattle.gang_types.specs.Masks.{IsGangWidth};
ghost use Rattle.gang_memory.specs.Ranges.{ranges_from, sizes_of};

use crate::parts::Part;

/// The most frames that a program has at one time.
pub const MOST_FRAMES: usize = 64;

/// Frames one behind the other, `count` of them, from word `first` on: each has a head of some parts and then so many
/// variables, which have a word for each lane.
#[derive(Drop)]
pub struct Frames {
    pub first: usize,
    /// The parts of a head, as they lie in a frame that begins at word 0.
    pub head: Vec<Part>,
    /// How many words a head has.
    pub head_words: usize,
    pub variables: usize,
    pub count: usize,
    pub ghost laid: { head.items ≡ ranges_from 0 (sizes_of head.items) },
    pub ghost whole: { head_words ≡ sum (sizes_of head.items) },
}

impl Frames {
    ghost use Rattle.gang_memory.specs.Layouts.{IsRangeOfFrame, end_of_frames, frame_words};

    /// A part of the head of the frame at a depth, where the entry's is at depth 0.
    #[inline(always)]
    pub fn head<const W: usize>(&self, depth: usize, part: usize) -> Part
        requires width { IsGangWidth W }
        requires depth { depth < self.now.count }
        requires part { part < length self.now.head.items }
        requires small { end_of_frames W self.now < 2 ^ 64 }
        ensures { IsRangeOfFrame W self.now depth part result }
    {
        let inside = self.head[part];
        Part {
            first: self.begin::<W>(depth) + inside.first,
            len: inside.len,
        }
    }

    /// The words of a variable of the frame at a depth, by its number in its function.
    #[inline(always)]
    pub fn variable<const W: usize>(&self, depth: usize, number: usize) -> Part
        requires width { IsGangWidth W }
        requires depth { depth < self.now.count }
        requires number { number < self.now.variables }
        requires small { end_of_frames W self.now < 2 ^ 64 }
        ensures { IsRangeOfFrame W self.now depth (length self.now.head.items + number) result }
    {
        Part {
            first: self.begin::<W>(depth) + self.head_words + number * W,
            len: W,
        }
    }

    // The first word of the frame at a depth.
    #[inline(always)]
    fn begin<const W: usize>(&self, depth: usize) -> usize
        requires width { IsGangWidth W }
        requires depth { depth < self.now.count }
        requires small { end_of_frames W self.now < 2 ^ 64 }
        ensures value { result ≡ self.now.first + depth * frame_words W self.now }
        ensures room { result + frame_words W self.now ≤ end_of_frames W self.now }
    {
        self.first + depth * (self.head_words + self.variables * W)
    }

    /// The first word behind the frames, unless that is no `usize`.
    pub(crate) fn end<const W: usize>(&self) -> Option<usize>
        requires { IsGangWidth W }
        ensures { IfSome result (λ end. end ≡ end_of_frames W self.now) }
    {
        let words = self.head_words.checked_add(self.variables.checked_mul(W)?)?;
        self.first.checked_add(self.count.checked_mul(words)?)
    }
}
