//! The step that comes next.
ghost use Rattle.machine_words.specs.Words.{regions_in};
ghost use Rattle.frame_steps.specs.Standing.{AreSound, IsNextOf};

use crate::compiled::CompiledProgram;
use crate::levels::{FrameStep, frame_step};
use gang_types::Mask;
use machine_words::{Head, MachineWords, Region};
use undo_log::Timeline;

/// The step that comes next: the number of its frame, from 0 for the entry's, the level of the frame in which lanes wait for it, 0 for the
/// function's body, the number of its function and of the step, and the lanes that do it. The number behind the function's last step is
/// its closing brace.
#[derive(Clone, Copy, Debug, PartialEq, Eq)]
pub struct Active {
    pub frame: usize,
    pub level: usize,
    pub function: usize,
    pub step: usize,
    pub lanes: Mask,
}

/// The step that comes next, unless no frame is left: the least number that a lane of the top frame waits for in its innermost level.
#[inline(always)]
pub fn next_step<const W: usize, T: Timeline + Drop>(
    compiled: &CompiledProgram,
    words: &MachineWords<T>,
) -> Option<Active>
    requires sound { AreSound T.history W compiled.now words.now }
    ensures { IsNextOf W compiled.now (regions_in T.history W words.now) result }
{
    let depth = words.word::<W>(Region::Depth, 0) as usize;
    let frame = depth.checked_sub(1)?;
    let function = words.word::<W>(Region::Head(frame, Head::Function), 0) as usize;
    let FrameStep { level, step, lanes } = frame_step::<W, T>(compiled, words, frame, function);
    Some(Active {
        frame,
        level,
        function,
        step,
        lanes,
    })
}
