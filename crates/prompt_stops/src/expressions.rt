//! Watches of expressions: how they are made.
ghost use Rattle.std.specs.Prelude.{◌≡◌, nat_lt, length, None, Some, true};
ghost use Rattle.gang_model.specs.Debugger.Debugger.{Debugger, Setting, now};
ghost use Rattle.command_lists.specs.Lists.{HasDone};
ghost use Rattle.debug_session.specs.Sessions.{StandsFor};
ghost use Rattle.debug_traits.specs.Frames.{spot_at};
ghost use Rattle.prompt_lines.specs.Conditions.{condition_in};
ghost use Rattle.prompt_lines.specs.Readings.{bytes_option};
ghost use Rattle.prompt_scenes.specs.Holding.{held};
ghost use Rattle.prompt_scenes.specs.Conditions as conditions;
ghost use Rattle.prompt_scenes.specs.FrameWatches as frames;
ghost use Rattle.prompt_scenes.specs.SelectedFrame as selection;
ghost use Rattle.prompt_stops.specs.Breaking as breaking;

use crate::breaking::{NO_ROOM, set_made};
use crate::taking::take_number;
use crate::watches::tell_made;
use debug_session::Session;
use debug_traits::{AnswerWriter, RecordedMachine};
use expression_watches::{ExpressionWatch, judge_text};
use frame_expressions::ExpressionMachine;
use frame_values::NoValue;
use gang_types::Spot;
use prompt_lines::{HELD, before_condition, condition_in, split_word};
use prompt_scenes::{Holding, Scene, selected_depth, trimmed};
use prompt_texts::{Page, Spelled, tell_no_value, tell_unknown};

/// What stands behind the first word of a command line and before its condition, if all of the line is held.
pub(crate) fn written_in(text: &[u8]) -> Option<&[u8]>
    ensures { bytes_option result ≡ breaking.written_in text.now }
{
    if text.len() < HELD {
        let (_, written) = split_word(before_condition(text));
        if_any(trimmed(written))
    } else {
        None
    }
}

/// A text, if it has any byte.
pub(crate) fn if_any(text: &[u8]) -> Option<&[u8]>
    ensures { bytes_option result ≡ breaking.if_any text.now }
{
    match text {
        [] => None,
        [_, ..] => Some(text),
    }
}

/// Watches the expression that a command line names, with its condition.
pub(crate) fn watch_written<M: ExpressionMachine, O: AnswerWriter + Drop>(
    text: &[u8],
    holding: &mut Holding,
    scene: Scene<'_>,
    session: &mut Session<M>,
    page: &mut Page<O>,
)
    ensures { (s : Setting) (d : Debugger) → StandsFor M.stands session.old s d
        → breaking.Watches M.stands s d (held holding.old) None (breaking.written_in text.now) (condition_in text.now) session.new (held holding.new) }
{
    match written_in(text) {
        Some(written) => watch_text(written, text, holding, scene, session, page),
        None => tell_unknown(scene.line, page),
    }
}

/// Watches what is written in a command line, with its condition, in the frame that is selected, where there is room.
fn watch_text<M: ExpressionMachine, O: AnswerWriter + Drop>(
    written: &[u8],
    text: &[u8],
    holding: &mut Holding,
    scene: Scene<'_>,
    session: &mut Session<M>,
    page: &mut Page<O>,
)
    ensures { (s : Setting) (d : Debugger) → StandsFor M.stands session.old s d
        → breaking.Watches M.stands s d (held holding.old) None (Some written.now) (condition_in text.now) session.new (held holding.new) }
{
    if !holding.has_room() {
        page.put(NO_ROOM);
        return;
    }
    let depth = selected_depth(holding, session);
    match session.machine().spot(depth) {
        Some(spot) => watch_at(written, text, depth, spot, holding, scene, session, page),
        None => tell_denied(&NoValue::NoFrame, text, scene, page),
    }
}

/// Watches what is written in a command line, in the frame at a depth, which stands at a step, or tells why it means nothing there.
fn watch_at<M: ExpressionMachine, O: AnswerWriter + Drop>(
    written: &[u8],
    text: &[u8],
    depth: usize,
    spot: Spot,
    holding: &mut Holding,
    scene: Scene<'_>,
    session: &mut Session<M>,
    page: &mut Page<O>,
)
    ensures { (s : Setting) (d : Debugger) → StandsFor M.stands session.old s d → depth ≡ selection.depth_of s d (held holding.old)
        → spot_at s.program depth (now s d) ≡ Some spot → nat_lt (length (held holding.old).frames) 16 ≡ true
        → breaking.Watches M.stands s d (held holding.old) None (Some written.now) (condition_in text.now) session.new (held holding.new) }
{
    let program = session.machine().program();
    match judge_text(scene.alloc, written, program, spot) {
        Ok(()) => watch_meant(written, text, depth, spot, holding, scene, session, page),
        Err(refusal) => tell_denied(&NoValue::Refused(refusal), text, scene, page),
    }
}

/// Watches what is written in a command line, which means an expression where the frame at a depth stands, with its condition.
fn watch_meant<M: RecordedMachine, O: AnswerWriter + Drop>(
    written: &[u8],
    text: &[u8],
    depth: usize,
    spot: Spot,
    holding: &mut Holding,
    scene: Scene<'_>,
    session: &mut Session<M>,
    page: &mut Page<O>,
)
    ensures { (s : Setting) (d : Debugger) → StandsFor M.stands session.old s d → HasDone M.stands s (breaking.numbered s d) d session.new
        × (held holding.new ≡ conditions.made_so (breaking.taken s d) (condition_in text.now)
        (frames.with_expression (breaking.watch_made (breaking.taken s d) depth (Some spot) written.now) (held holding.old))) }
{
    let number = take_number(scene, session, page);
    holding.add_expression(watch_made(number, depth, spot, written));
    tell_made(number, holding, page);
    set_made(number, condition_in(text), holding, page);
}

/// The watch of a text by a number, if one was found, in the frame at a depth, which stands at a step.
fn watch_made(
    number: Option<u32>,
    depth: usize,
    spot: Spot,
    written: &[u8],
) -> Option<ExpressionWatch>
    ensures { result ≡ breaking.watch_made number depth (Some spot) written.now }
{
    match number {
        Some(number) => ExpressionWatch::new(number, depth, spot, written),
        None => None,
    }
}

/// Tells why what a command line names is not watched.
fn tell_denied<O: AnswerWriter + Drop>(
    why: &NoValue,
    text: &[u8],
    scene: Scene<'_>,
    page: &mut Page<O>,
) {
    let (_, rest) = split_word(text);
    let spelled = Spelled {
        line: scene.line,
        text: rest,
    };
    tell_no_value(why, spelled, page);
}
