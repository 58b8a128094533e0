//! The frame that is selected, and what names stand for in it.
ghost use Rattle.std.specs.Prelude.{◌≡◌, is_none, is_ok, true};
ghost use Rattle.gang_model.specs.Debugger.Debugger as model;
ghost use Rattle.gang_model.specs.Debugger.Debugger.{Debugger, Setting, now};
ghost use Rattle.gang_model.specs.Texts.CommandText.{command_of};
ghost use Rattle.debug_commands.specs.Views.{target_view};
ghost use Rattle.debug_session.specs.Sessions.{StandsFor};
ghost use Rattle.debug_traits.specs.Frames.{found_at};
ghost use Rattle.prompt_scenes.specs.Holding.{held};
ghost use Rattle.prompt_scenes.specs.SelectedFrame as selection;
ghost use Rattle.prompt_scenes.specs.Readings as readings;

use crate::holding::Holding;
use crate::readings::count_of;
use debug_answers::Refusal;
use debug_commands::Target;
use debug_session::Session;
use debug_traits::{FramedMachine, RecordedMachine, Shown};
use gang_types::Rate;
use prompt_lines::{argument, index, is_alone};

/// How many frames there are; a program that has ended counts as one.
pub fn depth<M: RecordedMachine>(session: &Session<M>) -> usize
    ensures { (s : Setting) (d : Debugger) → StandsFor M.stands session.now s d → result ≡ model.depth (now s d) }
{
    match session.machine().position() {
        Some(position) => position.depth,
        None => 1,
    }
}

/// The depth of the frame that is selected.
pub fn selected_depth<M: RecordedMachine>(holding: &Holding, session: &Session<M>) -> usize
    ensures { (s : Setting) (d : Debugger) → StandsFor M.stands session.now s d → result ≡ selection.depth_of s d (held holding.now) }
{
    depth(session).saturating_sub(holding.frame())
}

/// The number of the frame that a command line names, or of the one that is selected.
pub fn frame_named(holding: &Holding, text: &[u8]) -> Option<u128>
    ensures { result ≡ selection.frame_named (held holding.now) text.now }
{
    if is_alone(text) {
        return Some(holding.frame() as u128);
    }
    match index(argument(text)?) {
        Some(number) => Some(u128::from(number)),
        None => None,
    }
}

/// The number of the frame so many calls above the one that is selected.
pub fn frame_above(holding: &Holding, text: &[u8]) -> Option<u128>
    ensures { result ≡ selection.frame_above (held holding.now) (readings.count_of (command_of text.now)) }
{
    match count_of(text) {
        Some(calls) => Some(holding.frame() as u128 + u128::from(calls)),
        None => None,
    }
}

/// The number of the frame so many calls below the one that is selected, at least that of the top frame.
pub fn frame_below(holding: &Holding, text: &[u8]) -> Option<u128>
    ensures { result ≡ selection.frame_below (held holding.now) (readings.count_of (command_of text.now)) }
{
    match count_of(text) {
        Some(calls) => Some((holding.frame() as u128).saturating_sub(u128::from(calls))),
        None => None,
    }
}

/// Selects a frame, if there is one of this number.
pub fn select<M: RecordedMachine>(number: Option<u128>, holding: &mut Holding, session: &Session<M>)
    ensures { (s : Setting) (d : Debugger) → StandsFor M.stands session.now s d → held holding.new ≡ selection.selected s d (held holding.old) number }
{
    if let Some(number) = number {
        if number < depth(session) as u128 {
            holding.select(number as usize);
        }
    }
}

/// What can be shown of a target in the frame at a depth, or why nothing can.
pub fn find_part<M: FramedMachine>(
    target: Target<'_>,
    depth: usize,
    machine: &M,
) -> Result<Shown, Refusal>
    ensures { (s : Setting) (d : Debugger) → M.stands machine.now s d
        → is_ok result ≡ selection.can_show s d depth (target_view target.entry) (found_at s.program depth (now s d) (target_view target.entry).name) }
{
    let Some(shown) = machine.find_at(depth, target.name) else {
        return Err(Refusal::NoSuchName);
    };
    match part_refusal(shown, target.at) {
        Some(refusal) => Err(refusal),
        None => Ok(shown),
    }
}

/// Why a part of a variable cannot be shown, if it cannot.
fn part_refusal(shown: Shown, at: Option<u32>) -> Option<Refusal>
    ensures { is_none result ≡ is_none (model.bad_part true at shown.is_array shown.rate shown.count) }
{
    match at {
        None => None,
        Some(_) if !shown.is_array && shown.rate == Rate::Uniform => Some(Refusal::NoSuchName),
        Some(index) if index as usize >= shown.count => Some(Refusal::OutOfRange),
        Some(_) => None,
    }
}
