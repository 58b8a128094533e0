//! A frame is left: its result is given, and the lanes of the call go on behind it.
ghost use Rattle.std.specs.Prelude.{◌≡◌, ◌+◌, ◌-◌, ◌<◌, ◌≤◌, None, Ok, Some, false, length};
ghost use Rattle.gang_types.specs.Lanes.{Lanes, no_lane};
ghost use Rattle.gang_types.specs.Masks.{IsGangWidth};
ghost use Rattle.gang_model.specs.Types.Tree.{Function as ModelFunction};
ghost use Rattle.machine_states.specs.Shows.{AreSized};
ghost use Rattle.typed_tree.specs.Views.{result_view};
ghost use Rattle.machine_words.specs.Words.{AreLaid, left_of, regions_in};
ghost use Rattle.frame_steps.specs.Compiled.{function_of, variables_of};
ghost use Rattle.frame_steps.specs.Delivering.{GivesResult, TakesResult};
ghost use Rattle.frame_steps.specs.Standing.{AreSound, Ends, IsActive, IsClosing};
ghost use Rattle.machine_steps.specs.Leaving.{AreSameIn, GoesPastCall, WaitsAt, lanes_called, result_seen};

use codegen::StepCode;
use frame_steps::{Active, CompiledProgram, begin, deliver_values, frame_step, send_on};
use gang_types::{Mask, Rate};
use machine_words::{Head, MachineWords, Region};
use masked_operations::only;
use typed_tree::ResultFor;
use undo_log::{Timeline, Undone};

/// The closing brace of a function.
pub(crate) fn leave<const W: usize, T: Timeline + Drop>(
    compiled: &CompiledProgram,
    active: Active,
    words: &mut MachineWords<T>,
)
    requires sound { AreSound T.history W compiled.now words.old }
    requires closing { IsClosing W compiled.now (regions_in T.history W words.old) active }
    ensures { Ends T.history W compiled.now words.old (Ok tt) words.new }
{
    begin::<W, T>(words, Undone::Step);
    if active.frame > 0 {
        go_past_call::<W, T>(compiled, active, words);
    }
    words.set::<W>(Region::Depth, 0, active.frame as u64);
}

/// Gives the result of a frame to the frame below, whose lanes go on behind the call.
fn go_past_call<const W: usize, T: Timeline + Drop>(
    compiled: &CompiledProgram,
    active: Active,
    words: &mut MachineWords<T>,
)
    requires sound { AreSound T.history W compiled.now words.old }
    requires closing { IsClosing W compiled.now (regions_in T.history W words.old) active }
    requires above { 0 < active.frame }
    requires left { W + W + 1 ≤ left_of T.history T.left words.old }
    ensures { (f : ModelFunction) → IsActive W compiled.now (regions_in T.history W words.old) active f None
        → GoesPastCall T.history T.left W compiled.now active.frame f words.old words.new }
{
    let call = awaited_call::<W, T>(compiled, active, words);
    deliver::<W, T>(compiled, active, call.result_for, words);
    send_on::<W, T>(active.frame - 1, call.level, call.lanes, call.next, words);
}

/// A call that lanes of a frame wait at: the level in which they wait, what its result is for, and the step behind it.
#[derive(Clone, Copy)]
pub(crate) struct AwaitedCall {
    pub level: usize,
    pub lanes: Mask,
    pub result_for: ResultFor,
    pub next: usize,
}

/// The call that the frame below waits at, which made a frame that is at its closing brace.
fn awaited_call<const W: usize, T: Timeline + Drop>(
    compiled: &CompiledProgram,
    active: Active,
    words: &MachineWords<T>,
) -> AwaitedCall
    requires sound { AreSound T.history W compiled.now words.now }
    requires closing { IsClosing W compiled.now (regions_in T.history W words.now) active }
    requires above { 0 < active.frame }
    ensures { WaitsAt W compiled.now (regions_in T.history W words.now) (active.frame - 1) result }
{
    let below = active.frame - 1;
    let caller = words.word::<W>(Region::Head(below, Head::Function), 0) as usize;
    let call = frame_step::<W, T>(compiled, words, below, caller);
    let StepCode::Enter {
        result_for,
        next,
        ..
    } = &compiled.steps(caller)[call.step]
    else {
        unreachable!()
    };
    AwaitedCall {
        level: call.level,
        lanes: call.lanes,
        result_for: *result_for,
        next: *next,
    }
}

/// Gives the result of a frame to what it is for.
fn deliver<const W: usize, T: Timeline + Drop>(
    compiled: &CompiledProgram,
    active: Active,
    result_for: ResultFor,
    words: &mut MachineWords<T>,
)
    requires width { IsGangWidth W }
    requires laid { AreLaid T.history W words.old }
    requires sized { AreSized (variables_of compiled.now) W (regions_in T.history W words.old) }
    requires there { active.frame < 64 }
    requires above { 0 < active.frame }
    requires callee { (f : ModelFunction) × (function_of compiled.now active.function ≡ Some f) }
    requires takes { (g : ModelFunction) × TakesResult compiled.now (regions_in T.history W words.old) (active.frame - 1) (result_view result_for) g }
    requires lane { no_lane (lanes_called W (regions_in T.history W words.old) active.frame) ≡ false }
    requires left { W + 1 ≤ left_of T.history T.left words.old }
    ensures { (f : ModelFunction) (g : ModelFunction)
        → function_of compiled.now active.function ≡ Some f
        → TakesResult compiled.now (regions_in T.history W words.old) (active.frame - 1) (result_view result_for) g
        → GivesResult T.history T.left W (active.frame - 1) g (result_view result_for) f.result_type (lanes_called W (regions_in T.history W words.old) active.frame)
        (result_seen W (regions_in T.history W words.old) active.frame f.result (lanes_called W (regions_in T.history W words.old) active.frame))
        words.old words.new }
{
    let callee = &compiled.program.functions[active.function];
    let lanes = Mask::from_word::<W>(words.word::<W>(Region::Head(active.frame, Head::Lanes), 0));
    let values = result_words::<W, T>(active.frame, callee.result, words);
    deliver_values::<W, T>(
        compiled,
        active.frame - 1,
        result_for,
        callee.result_type,
        lanes,
        values,
        words,
    );
}

/// The result of a frame of a function with a result of this rate; it is 0 in lanes that have not returned.
fn result_words<const W: usize, T: Timeline + Drop>(
    frame: usize,
    rate: Rate,
    words: &MachineWords<T>,
) -> [u64; W]
    requires width { IsGangWidth W }
    requires laid { AreLaid T.history W words.now }
    requires there { frame < 64 }
    ensures { (lanes : Lanes) → length lanes ≡ W → AreSameIn lanes result (result_seen W (regions_in T.history W words.now) frame rate lanes) }
{
    let result = words.lanes::<W>(Region::Head(frame, Head::Result));
    let returned = Mask::from_word::<W>(words.word::<W>(Region::Head(frame, Head::Returned), 0));
    match rate {
        Rate::Uniform if returned.is_empty::<W>() => [0; W],
        Rate::Uniform => [result[0]; W],
        Rate::Varying => only(returned, result),
    }
}
