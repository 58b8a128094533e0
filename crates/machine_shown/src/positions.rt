//! Where a program stands, and the calls of its frames.
ghost use Rattle.std.specs.Prelude.{◌≡◌, ◌<◌, Some, IfSome};
ghost use Rattle.gang_types.specs.Masks.{IsGangWidth, lanes_of};
ghost use Rattle.gang_model.specs.Types.Tree.{Function as ModelFunction};
ghost use Rattle.debug_traits.specs.Machines.{call_text, position_line};
ghost use Rattle.mask_states.specs.Masked.{Masked, masked_lanes};
ghost use Rattle.machine_states.specs.Regions.{LanesOf, OfHead, lanes_in};
ghost use Rattle.machine_words.specs.Words.{AreLaid, regions_in};
ghost use Rattle.frame_steps.specs.Compiled.{function_of, program_of};
ghost use Rattle.frame_steps.specs.Standing.{AreSound, IsNextOf, IsShown};
ghost use Rattle.machine_shown.specs.Seen.{IsPositionOf, IsStandingOf};

use codegen::StepCode;
use debug_traits::Position;
use frame_steps::{Active, CompiledProgram, frame_step, next_step};
use gang_types::Mask;
use machine_rounds::next_round;
use machine_words::{Head, MachineWords, Region};
use undo_log::Timeline;

/// Where the program stands, unless it has ended. At the rounds of a foreach form the lanes are those of the round that begins, at a closing
/// brace those of the call.
#[inline(always)]
pub fn position<'a, const W: usize, T: Timeline + Drop>(
    compiled: &'a CompiledProgram,
    words: &MachineWords<T>,
) -> Option<Position<'a>>
    requires sound { AreSound T.history W compiled.now words.now }
    ensures place { (masked : Masked) → IsShown T.history W compiled.now words.now masked → IsPositionOf W compiled.now masked result }
    ensures width { IfSome result (λ position. IsGangWidth position.width) }
{
    let active = next_step::<W, T>(compiled, words)?;
    let lanes = shown_lanes::<W, T>(compiled, words, active);
    stands_at::<W>(
        compiled,
        active.function,
        active.step,
        active.frame + 1,
        lanes,
    )
}

/// Where the call stands that the frame at a depth made, the entry's being at depth 1, if it made one that has not been left.
pub fn call<'a, const W: usize, T: Timeline + Drop>(
    compiled: &'a CompiledProgram,
    words: &MachineWords<T>,
    depth: usize,
) -> Option<Position<'a>>
    requires sound { AreSound T.history W compiled.now words.now }
    ensures place { (masked : Masked) → IsShown T.history W compiled.now words.now masked
        → call_text (program_of compiled.now) depth masked.state.frames ≡ position_line result }
    ensures width { IfSome result (λ position. IsGangWidth position.width) }
{
    if depth == 0 || words.word::<W>(Region::Depth, 0) <= depth as u64 {
        return None;
    }
    let frame = depth - 1;
    let function = words.word::<W>(Region::Head(frame, Head::Function), 0) as usize;
    let call = frame_step::<W, T>(compiled, words, frame, function);
    let lanes = call_lanes::<W, T>(words, depth);
    stands_at::<W>(compiled, function, call.step, depth, lanes)
}

/// The lanes that are shown at the next step: those of the round that begins, those of the call at the closing brace, and else those that do
/// it.
#[inline(always)]
fn shown_lanes<const W: usize, T: Timeline + Drop>(
    compiled: &CompiledProgram,
    words: &MachineWords<T>,
    active: Active,
) -> Mask
    requires sound { AreSound T.history W compiled.now words.now }
    requires next { IsNextOf W compiled.now (regions_in T.history W words.now) (Some active) }
    ensures { (masked : Masked) → IsShown T.history W compiled.now words.now masked → lanes_of W result ≡ masked_lanes masked }
{
    let Some(code) = compiled.steps(active.function).get(active.step) else {
        return call_lanes::<W, T>(words, active.frame);
    };
    match code {
        StepCode::Round { .. } => next_round::<W, T>(compiled, active, words).lanes,
        _ => active.lanes,
    }
}

/// The lanes of the call that made a frame.
fn call_lanes<const W: usize, T: Timeline + Drop>(words: &MachineWords<T>, frame: usize) -> Mask
    requires width { IsGangWidth W }
    requires laid { AreLaid T.history W words.now }
    requires there { frame < 64 }
    ensures { lanes_of W result ≡ lanes_in W (regions_in T.history W words.now) (OfHead frame LanesOf) }
{
    Mask::from_word::<W>(words.word::<W>(Region::Head(frame, Head::Lanes), 0))
}

/// A step of a function as a position.
#[inline(always)]
fn stands_at<const W: usize>(
    compiled: &CompiledProgram,
    function: usize,
    step: usize,
    depth: usize,
    lanes: Mask,
) -> Option<Position<'_>>
    requires { (f : ModelFunction) × (function_of compiled.now function ≡ Some f) }
    ensures { (f : ModelFunction) → function_of compiled.now function ≡ Some f → IsStandingOf W f step depth lanes result }
{
    let function = &compiled.program.functions[function];
    let standing = function.scopes.standings.get(step)?;
    Some(Position {
        place: standing.place,
        function: function.name.as_slice(),
        depth,
        width: W,
        lanes,
    })
}
