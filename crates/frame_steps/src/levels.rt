//! The levels of a frame: which is the innermost one, and what its lanes wait for.
ghost use Rattle.std.specs.Prelude.{◌≡◌, ◌<◌, Some};
ghost use Rattle.gang_types.specs.Masks.{IsGangWidth, lanes_of};
ghost use Rattle.gang_model.specs.Types.Tree.{Function as ModelFunction, RoundsOf};
ghost use Rattle.mask_states.specs.Masked.{is_over};
ghost use Rattle.machine_states.specs.Levels.{form_level};
ghost use Rattle.machine_states.specs.Shows.{level_words};
ghost use Rattle.machine_states.specs.Steps.{IsInnermost, end_in};
ghost use Rattle.machine_words.specs.Words.{regions_in};
ghost use Rattle.frame_steps.specs.Compiled.{function_of};
ghost use Rattle.frame_steps.specs.Rounds.{HasForm, HasLevel, IsFrameStep, IsRunning};
ghost use Rattle.frame_steps.specs.Standing.{AreFor, AreSound};

use crate::compiled::CompiledProgram;
use crate::rounds_left::kept_rounds;
use crate::waiting::{least, least_waiting};
use gang_types::Mask;
use machine_words::{Head, LevelPart, MachineWords, Region};
use undo_log::Timeline;

/// The level of a frame in which its lanes wait, the step of the least number that one of them waits for, and the lanes that wait for it.
#[derive(Clone, Copy)]
pub struct FrameStep {
    pub level: usize,
    pub step: usize,
    pub lanes: Mask,
}

/// What the lanes of a frame, which runs this function, wait for.
#[inline(always)]
pub fn frame_step<const W: usize, T: Timeline + Drop>(
    compiled: &CompiledProgram,
    words: &MachineWords<T>,
    frame: usize,
    function: usize,
) -> FrameStep
    requires sound { AreSound T.history W compiled.now words.now }
    requires runs { IsRunning (regions_in T.history W words.now) frame function }
    ensures { (f : ModelFunction) → function_of compiled.now function ≡ Some f → IsFrameStep W (regions_in T.history W words.now) frame f result }
{
    let level = innermost::<W, T>(compiled, words, frame, function);
    let numbers = words.lanes::<W>(Region::Head(frame, Head::Level(level, LevelPart::Numbers)));
    let end = level_end::<W, T>(compiled, words, frame, function, level);
    let (step, lanes) = least_waiting(end, &numbers);
    FrameStep {
        level,
        step: step as usize,
        lanes,
    }
}

/// The level of the innermost form of a frame that is not over, 0 where all are over.
#[inline(always)]
pub fn innermost<const W: usize, T: Timeline + Drop>(
    compiled: &CompiledProgram,
    words: &MachineWords<T>,
    frame: usize,
    function: usize,
) -> usize
    requires sound { AreSound T.history W compiled.now words.now }
    requires runs { IsRunning (regions_in T.history W words.now) frame function }
    ensures { (f : ModelFunction) → function_of compiled.now function ≡ Some f → IsInnermost W (regions_in T.history W words.now) frame f result }
{
    let mut level = words.word::<W>(Region::Head(frame, Head::Open), 0) as usize;
    while level > 0 && is_over::<W, T>(compiled, words, frame, function, level) {
        level -= 1;
    }
    level
}

/// Whether the form of a level of a frame is over: no lane waits for a step of its body, and no round is left.
fn is_over<const W: usize, T: Timeline + Drop>(
    compiled: &CompiledProgram,
    words: &MachineWords<T>,
    frame: usize,
    function: usize,
    level: usize,
) -> bool
    requires lie { AreFor T.history W compiled.now words.now }
    requires there { frame < 64 }
    requires form { (form : RoundsOf) × HasForm W compiled.now (regions_in T.history W words.now) frame level function form }
    ensures { (form : RoundsOf) → HasForm W compiled.now (regions_in T.history W words.now) frame level function form
        → result ≡ is_over (form_level W form (level_words (regions_in T.history W words.now) frame level)) }
{
    let end = words.word::<W>(Region::Head(frame, Head::Level(level, LevelPart::End)), 0);
    let numbers = words.lanes::<W>(Region::Head(frame, Head::Level(level, LevelPart::Numbers)));
    if least(end, &numbers) != end {
        return false;
    }
    let form = compiled.round_form(function, end as usize);
    let left = kept_rounds::<W, T>(words, frame, level, form);
    !left.is_any_left()
}

/// The number above all steps of a level of a frame.
#[inline(always)]
fn level_end<const W: usize, T: Timeline + Drop>(
    compiled: &CompiledProgram,
    words: &MachineWords<T>,
    frame: usize,
    function: usize,
    level: usize,
) -> u64
    requires lie { AreFor T.history W compiled.now words.now }
    requires function { (f : ModelFunction) × (function_of compiled.now function ≡ Some f) }
    requires level { HasLevel W (regions_in T.history W words.now) frame level }
    ensures { (f : ModelFunction) → function_of compiled.now function ≡ Some f → result ≡ end_in (regions_in T.history W words.now) frame f level }
{
    if level == 0 {
        return compiled.closing(function) as u64;
    }
    words.word::<W>(Region::Head(frame, Head::Level(level, LevelPart::End)), 0)
}
