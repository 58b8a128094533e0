//! What a prompt holds from line to line, as far as it decides what is done.
ghost use Rattle.std.specs.Prelude.{◌≡◌, ◌==◌, [], Some, length, nat_lt, not};
ghost use Rattle.std.specs.List.{list_any};
ghost use Rattle.debug_commands.specs.Views.{target_view};
ghost use Rattle.prompt_scenes.specs.Holding.{held, held_at_start};
ghost use Rattle.prompt_scenes.specs.Conditions as conditions;
ghost use Rattle.prompt_scenes.specs.Changes as changes;
ghost use Rattle.prompt_scenes.specs.FrameWatches as frames;

use crate::watching::{forget_deeper, own_depth};
use arrayvec::ArrayVec;
use conditional_stops::{Conditions, FrameWatch, SetPlace, Watch, WriteWatch};
use debug_commands::Target;
use expression_watches::ExpressionWatch;
use gang_types::VarId;
use prompt_lines::{Text, held_line};

/// How many breakpoints may be temporary.
const TEMPORARIES: usize = 64;

/// How much may be displayed.
const DISPLAYS: usize = 16;

/// How much may be watched that frames show.
const FRAMES: usize = 16;

/// How many moments may be noted.
const CHECKPOINTS: usize = 64;

/// The last number that is given to what is displayed, or to a moment.
const LAST_NUMBER: u32 = 10_000_000;

/// What is displayed after each move: its number, and the command line that prints it.
#[derive(Drop)]
pub struct Displayed {
    pub number: u32,
    pub text: Text,
}

/// The blank in an unused place.
impl Default for Displayed {
    ghost is_default = { λ entry. entry.number ≡ 0 };

    fn default() -> Self {
        Displayed {
            number: 0,
            text: Text::new(),
        }
    }
}

/// A moment of the run: its number, and how many steps lead to it.
#[derive(Clone, Copy, Drop)]
pub struct Checkpoint {
    pub number: u32,
    pub step: u64,
}

/// The blank in an unused place.
impl Default for Checkpoint {
    ghost is_default = { λ checkpoint. checkpoint.number ≡ 0 };

    fn default() -> Self {
        Checkpoint { number: 0, step: 0 }
    }
}

/// What stopped the last move.
#[derive(Clone, Copy, Debug, PartialEq, Eq)]
pub enum LastMove {
    /// No move was made.
    Still,
    /// Nothing stopped it.
    Free,
    /// The breakpoint or watch of this number.
    Stopped(u32),
}

/// The numbers of the last temporary breakpoints, what is displayed, whether the program has begun, which frame is selected,
/// the moments that were noted, the conditions and the counts of breakpoints and watches and which are disabled, what is watched that
/// frames show, and what stopped the last move.
#[derive(Drop)]
pub struct Holding {
    temporaries: ArrayVec<u32, TEMPORARIES>,
    displays: ArrayVec<Displayed, DISPLAYS>,
    next: u32,
    has_begun: bool,
    frame: usize,
    checkpoints: ArrayVec<Checkpoint, CHECKPOINTS>,
    next_checkpoint: u32,
    pub conditions: Conditions,
    pub frames: ArrayVec<Watch, FRAMES>,
    last_move: LastMove,
}

impl Holding {
    /// Nothing is held.
    pub fn new() -> Self
        ensures { held result ≡ held_at_start }
    {
        Holding {
            temporaries: ArrayVec::new(),
            displays: ArrayVec::new(),
            next: 1,
            has_begun: false,
            frame: 0,
            checkpoints: ArrayVec::new(),
            next_checkpoint: 1,
            conditions: Conditions::new(),
            frames: ArrayVec::new(),
            last_move: LastMove::Still,
        }
    }

    /// What is displayed.
    pub fn displays(&self) -> &[Displayed]
        ensures { result.now ≡ self.now.displays.items }
    {
        self.displays.as_slice()
    }

    /// Whether the program has begun, by a move or by `run`.
    pub fn has_begun(&self) -> bool
        ensures { result ≡ (held self.now).has_begun }
    {
        self.has_begun
    }

    /// Notes that the program has begun by a move that nothing stopped, and selects the top frame.
    pub fn start(&mut self)
        ensures { held self.new ≡ changes.started (held self.old) }
    {
        self.has_begun = true;
        self.frame = 0;
        self.last_move = LastMove::Free;
    }

    /// Notes that the program has not begun, and selects the top frame.
    pub fn forget_start(&mut self)
        ensures { held self.new ≡ changes.not_begun (held self.old) }
    {
        self.has_begun = false;
        self.last_move = LastMove::Free;
        self.select(0);
    }

    /// Notes what stopped the last move.
    pub fn note_move(&mut self, last_move: LastMove)
        ensures { held self.new ≡ record (held self.old) { last_move = last_move } }
    {
        self.last_move = last_move;
    }

    /// What stopped the last move.
    pub fn last_move(&self) -> LastMove
        ensures { result ≡ (held self.now).last_move }
    {
        self.last_move
    }

    /// The number of the frame that is selected, the top one being number 0.
    pub fn frame(&self) -> usize
        ensures { result ≡ (held self.now).frame }
    {
        self.frame
    }

    /// Whether the top frame is selected.
    pub fn is_top(&self) -> bool
        ensures { result ≡ ((held self.now).frame == 0) }
    {
        self.frame == 0
    }

    /// Selects a frame.
    pub fn select(&mut self, number: usize)
        ensures { held self.new ≡ record (held self.old) { frame = number } }
    {
        self.frame = number;
    }

    /// Whether a breakpoint is temporary.
    pub fn is_temporary(&self, number: u32) -> bool
        ensures { result ≡ list_any (λ t. t == number) self.now.temporaries.items }
    {
        self.temporaries
            .as_slice()
            .iter()
            .any(|other| *other == number)
    }

    /// Notes that a breakpoint, if one was made, is temporary.
    pub fn add_temporary(&mut self, made: Option<u32>)
        ensures { held self.new ≡ changes.with_temporary (held self.old) made }
    {
        if let Some(number) = made {
            if self.temporaries.is_full() {
                self.temporaries.remove(0);
            }
            self.temporaries.push(number);
        }
    }

    /// Displays a command line from now on, where there is room.
    pub fn add_display(&mut self, text: &[u8])
        ensures { held self.new ≡ changes.with_display (held self.old) text.now }
    {
        if !self.displays.is_full() && self.next < LAST_NUMBER {
            self.displays.push(Displayed {
                number: self.next,
                text: held_line(text),
            });
            self.next += 1;
        }
    }

    /// Displays what has a number no more, or nothing.
    pub fn remove_display(&mut self, number: Option<u32>)
        ensures { held self.new ≡ changes.without_display (held self.old) number }
    {
        match number {
            None => self.displays.clear(),
            Some(number) => self.displays.retain(|entry| entry.number != number),
        }
    }

    /// The moments that were noted.
    pub fn checkpoints(&self) -> &[Checkpoint]
        ensures { result.now ≡ self.now.checkpoints.items }
    {
        self.checkpoints.as_slice()
    }

    /// Notes a moment, where there is room, and gives its number.
    pub fn add_checkpoint(&mut self, step: u64) -> Option<u32>
        ensures { held self.new ≡ changes.with_checkpoint (held self.old) step }
    {
        if self.checkpoints.is_full() || self.next_checkpoint >= LAST_NUMBER {
            return None;
        }
        let number = self.next_checkpoint;
        self.checkpoints.push(Checkpoint { number, step });
        self.next_checkpoint += 1;
        Some(number)
    }

    /// How many steps lead to the moment of a number.
    pub fn checkpoint(&self, number: u32) -> Option<u64>
        ensures { result ≡ changes.step_noted (held self.now) (Some number) }
    {
        for checkpoint in self.checkpoints.as_slice() {
            if checkpoint.number == number {
                return Some(checkpoint.step);
            }
        }
        None
    }

    /// Notes the moment of a number no more, or none.
    pub fn remove_checkpoint(&mut self, number: Option<u32>)
        ensures { held self.new ≡ changes.without_checkpoint (held self.old) number }
    {
        match number {
            None => self.checkpoints.clear(),
            Some(number) => self.checkpoints.retain(|entry| entry.number != number),
        }
    }

    /// Gives a breakpoint or watch a condition, where there is room. Says whether there is.
    pub fn set_condition(&mut self, number: u32, text: &[u8]) -> bool
        ensures { held self.new ≡ conditions.conditioned number text.now (held self.old) }
    {
        match self.conditions.set_condition(number, text) {
            Ok(()) => true,
            Err(_) => false,
        }
    }

    /// Takes the condition of a breakpoint or watch away.
    pub fn clear_condition(&mut self, number: u32)
        ensures { held self.new ≡ conditions.replaced number [] (held self.old) }
    {
        self.conditions.clear_condition(number);
    }

    /// Lets so many stops of a breakpoint or watch be passed, where there is room. Says whether there is.
    pub fn set_passes(&mut self, number: u32, count: u32) -> bool
        ensures { held self.new ≡ conditions.counted number count (held self.old) }
    {
        match self.conditions.set_passes(number, count) {
            Ok(()) => true,
            Err(_) => false,
        }
    }

    /// Disables a breakpoint or watch.
    pub fn disable(&mut self, number: u32)
        ensures { held self.new ≡ conditions.disabled number (held self.old) }
    {
        self.conditions.disable(number);
    }

    /// Enables a breakpoint or watch again.
    pub fn enable(&mut self, number: u32)
        ensures { held self.new ≡ conditions.enabled number (held self.old) }
    {
        self.conditions.enable(number);
    }

    /// Forgets the condition and the count of a breakpoint or watch, and that it was disabled.
    pub fn forget(&mut self, number: u32)
        ensures { held self.new ≡ conditions.forgotten number (held self.old) }
    {
        self.conditions.forget(number);
    }

    /// Forgets the condition and the count of the breakpoint that stopped a move, where it is temporary.
    pub fn forget_stopped(&mut self, stopped: Option<u32>)
        ensures { held self.new ≡ conditions.forgotten_stop stopped (held self.old) }
    {
        if let Some(number) = stopped {
            if self.is_temporary(number) {
                self.forget(number);
            }
        }
    }

    /// Forgets the conditions and the counts of what a line deleted: of one breakpoint or watch, or of all.
    pub fn forget_deleted(&mut self, deleted: Option<u32>)
        ensures { held self.new ≡ conditions.forgotten_by (Some deleted) (held self.old) }
    {
        match deleted {
            None => self.conditions.forget_all(),
            Some(number) => self.forget(number),
        }
    }

    /// Whether it is watched what a frame shows.
    pub fn has_frames(&self) -> bool
        ensures { result ≡ not (length (held self.now).frames == 0) }
    {
        !self.frames.is_empty()
    }

    /// Whether one more watch of what a frame shows can be there.
    pub fn has_room(&self) -> bool
        ensures { result ≡ nat_lt (length (held self.now).frames) 16 }
    {
        !self.frames.is_full()
    }

    /// Whether it is watched by a number what a frame shows.
    pub fn is_frame(&self, number: u32) -> bool
        ensures { result ≡ frames.is_frame number (held self.now) }
    {
        self.frames
            .as_slice()
            .iter()
            .any(|watch| watch.number() == number)
    }

    /// Watches a variable of a frame by a number, if one was found, where there is room.
    pub fn add_frame(&mut self, number: Option<u32>, target: Target<'_>, depth: usize, id: VarId)
        ensures { held self.new ≡ frames.with_frame number (target_view target.entry) depth id (held self.old) }
    {
        let Some(number) = number else {
            return;
        };
        let Ok(name) = ArrayVec::try_from(target.name) else {
            return;
        };
        if !self.frames.is_full() {
            self.frames.push(Watch::Variable(FrameWatch {
                number,
                depth,
                id,
                at: target.at,
                name,
            }));
        }
    }

    /// Watches an expression, if a watch of it was made, where there is room.
    pub fn add_expression(&mut self, watch: Option<ExpressionWatch>)
        ensures { held self.new ≡ frames.with_expression watch (held self.old) }
    {
        let Some(watch) = watch else {
            return;
        };
        if !self.frames.is_full() {
            self.frames.push(Watch::Expression(watch));
        }
    }

    /// Watches what sets a variable that is in sight in the frame at a depth, or a part of it, by a number, if one was found, where there is
    /// room.
    pub fn add_writes(&mut self, number: Option<u32>, name: &[u8], depth: usize, place: SetPlace)
        ensures { held self.new ≡ frames.with_writes number name.now depth place (held self.old) }
    {
        let Some(number) = number else {
            return;
        };
        let Ok(name) = ArrayVec::try_from(name) else {
            return;
        };
        if !self.frames.is_full() {
            self.frames.push(Watch::Writes(WriteWatch {
                number,
                depth: own_depth(depth, place.id),
                place,
                name,
            }));
        }
    }

    /// Watches what a line deleted no more: what a frame shows, or all of that.
    pub fn remove_frames(&mut self, deleted: Option<u32>)
        ensures { held self.new ≡ frames.without_frames (Some deleted) (held self.old) }
    {
        match deleted {
            None => self.frames.clear(),
            Some(number) => self.frames.retain(|watch| watch.number() != number),
        }
    }

    /// Ends the watches of the frames that are deeper.
    pub fn end_frames(&mut self, known: usize)
        ensures { held self.new ≡ frames.ended known (held self.old) }
    {
        forget_deeper(self.frames.as_slice(), known, &mut self.conditions);
        self.frames.retain(|watch| watch.depth() <= known);
    }
}
