//! The frames of a program, by their depths: the entry's is at depth 1, the top one at the number of frames.
ghost use Rattle.std.specs.Prelude.{◌≡◌, length};
ghost use Rattle.mask_states.specs.Masked.{Masked};
ghost use Rattle.machine_words.specs.Words.{regions_in};
ghost use Rattle.frame_steps.specs.Standing.{AreSound, IsNextOf, IsShown};
ghost use Rattle.machine_shown.specs.Frames.{IsPlaceOf, regions_up_to};

use frame_steps::{Active, CompiledProgram, FrameStep, frame_step};
use machine_words::{Head, MachineWords, Region};
use undo_log::Timeline;

/// A depth at which the top frame is found, wherever it is: there are never more frames.
pub(crate) const TOP: usize = 64;

/// How many frames there are, none once the program has ended.
pub fn frame_count<const W: usize, T: Timeline + Drop>(
    compiled: &CompiledProgram,
    words: &MachineWords<T>,
) -> usize
    requires sound { AreSound T.history W compiled.now words.now }
    ensures { (masked : Masked) → IsShown T.history W compiled.now words.now masked → result ≡ length masked.state.frames }
{
    words.word::<W>(Region::Depth, 0) as usize
}

/// The step at which the frame at a depth stands: the call that it made, and of the top frame the next step. A depth past the top frame is read
/// as its own, and at depth 0 there is no frame.
pub fn step_at<const W: usize, T: Timeline + Drop>(
    compiled: &CompiledProgram,
    words: &MachineWords<T>,
    depth: usize,
) -> Option<Active>
    requires sound { AreSound T.history W compiled.now words.now }
    ensures step { IsNextOf W compiled.now (regions_up_to depth (regions_in T.history W words.now)) result }
    ensures place { (masked : Masked) → IsShown T.history W compiled.now words.now masked → IsPlaceOf depth masked result }
{
    let frames = words.word::<W>(Region::Depth, 0) as usize;
    let frame = depth.min(frames).checked_sub(1)?;
    let function = words.word::<W>(Region::Head(frame, Head::Function), 0) as usize;
    let FrameStep { level, step, lanes } = frame_step::<W, T>(compiled, words, frame, function);
    Some(Active {
        frame,
        level,
        function,
        step,
        lanes,
    })
}
