//! Breakpoints and watches: how they are made and deleted, and what is said of them.
ghost use Rattle.std.specs.Prelude.{◌≡◌, ◌==◌, ℕ, List, Option, None, Some};
ghost use Rattle.std.specs.List.{list_any};
ghost use Rattle.gang_model.specs.Debugger.Debugger.{Debugger, DoWatch, Setting, do_command};
ghost use Rattle.gang_model.specs.Texts.CommandText.{command_of, index};
ghost use Rattle.command_lists.specs.Lists.{HasDone};
ghost use Rattle.debug_commands.specs.Views.{target_view};
ghost use Rattle.debug_session.specs.Sessions.{StandsFor};
ghost use Rattle.prompt_lines.specs.Conditions.{before_if, behind_first, condition_in, first_word};
ghost use Rattle.prompt_lines.specs.Readings.{bytes_option};
ghost use Rattle.prompt_lines.specs.Sources.{line_named};
ghost use Rattle.prompt_scenes.specs.Holding.{held, sheet};
ghost use Rattle.prompt_scenes.specs.Conditions as conditions;
ghost use Rattle.prompt_scenes.specs.Readings as readings;
ghost use Rattle.prompt_scenes.specs.SelectedFrame as selection;
ghost use Rattle.prompt_scenes.specs.FrameWatches as frames;
ghost use Rattle.prompt_moves.specs.Breakpoints as breakpoints;
ghost use Rattle.prompt_stops.specs.Breaking as breaking;

use crate::expressions::watch_written;
use crate::numbers::delete_named;
use crate::taking::take_number;
use crate::watches::{tell_deleted, tell_made};
use crate::writes::{watch_writes, write_name};
use debug_answers::NumberedStop;
use debug_commands::{Command, Target};
use debug_session::Session;
use debug_traits::{AnswerWriter, FramedMachine, RecordedMachine};
use frame_expressions::ExpressionMachine;
use gang_types::VarId;
use prompt_lines::{before_condition, condition_in, index, split_word};
use prompt_moves::{do_alone, stop_on};
use prompt_scenes::{
    Holding, Scene, delete_of, line_of, local_named, made_number, selected_depth, trimmed,
    watch_number, watch_of,
};
use prompt_texts::{Page, tell, tell_unknown, tell_usage};
use prompt_values::{tell_condition, tell_no_stop, tell_passes};

/// How `condition` is used.
const CONDITION_USAGE: &[u8] =
    b"`condition N EXPRESSION` lets breakpoint or watch N stop only where the expression holds, and `condition N` lets it stop always.";

/// How `ignore` is used.
const IGNORE_USAGE: &[u8] = b"`ignore N COUNT` passes so many stops of breakpoint or watch N.";

/// Why no more is watched.
pub(crate) const NO_ROOM: &[u8] =
    b"C11 TableFull: 16 variables and expressions of functions are watched, as many as can be; `delete N` ends one.\n";

/// Makes a breakpoint, with a condition where the line goes on with `if`.
pub fn make_break<M: RecordedMachine, O: AnswerWriter + Drop>(
    text: &[u8],
    holding: &mut Holding,
    scene: Scene<'_>,
    session: &mut Session<M>,
    page: &mut Page<O>,
)
    ensures { (s : Setting) (d : Debugger) → StandsFor M.stands session.old s d
        → HasDone M.stands s (breaking.broken (line_named (sheet scene.entry.source) (before_if text.now))) d session.new
        × (held holding.new ≡ breaking.after_made s d (held holding.old) (line_named (sheet scene.entry.source) (before_if text.now)) (condition_in text.now)) }
{
    match line_of(before_condition(text), scene.source) {
        Some(line) => break_on(line, condition_in(text), holding, scene, session, page),
        None => tell_unknown(scene.line, page),
    }
}

/// Makes a breakpoint on a line, with a condition.
fn break_on<M: RecordedMachine, O: AnswerWriter + Drop>(
    line: u32,
    condition: Option<&[u8]>,
    holding: &mut Holding,
    scene: Scene<'_>,
    session: &mut Session<M>,
    page: &mut Page<O>,
)
    ensures { (s : Setting) (d : Debugger) → StandsFor M.stands session.old s d
        → HasDone M.stands s (breaking.broken (Some line)) d session.new
        × (held holding.new ≡ breaking.after_made s d (held holding.old) (Some line) (bytes_option condition.entry)) }
{
    let answer = session.do_command(Command::Break(line));
    tell(&answer, scene.line, scene.source, session, page);
    set_made(made_number(&answer), condition, holding, page);
}

/// Makes a breakpoint that goes when it has stopped a move, with a condition where the line goes on with `if`.
pub fn break_temporarily<M: RecordedMachine, O: AnswerWriter + Drop>(
    text: &[u8],
    holding: &mut Holding,
    scene: Scene<'_>,
    session: &mut Session<M>,
    page: &mut Page<O>,
)
    ensures { (s : Setting) (d : Debugger) → StandsFor M.stands session.old s d
        → HasDone M.stands s (breaking.broken (line_named (sheet scene.entry.source) (before_if text.now))) d session.new
        × (held holding.new ≡ breaking.after_made s d (breaking.after_break s d (held holding.old) (line_named (sheet scene.entry.source) (before_if text.now)))
        (line_named (sheet scene.entry.source) (before_if text.now)) (condition_in text.now)) }
{
    match line_of(before_condition(text), scene.source) {
        Some(line) => break_once(line, condition_in(text), holding, scene, session, page),
        None => tell_unknown(scene.line, page),
    }
}

/// Makes a temporary breakpoint on a line, with a condition.
fn break_once<M: RecordedMachine, O: AnswerWriter + Drop>(
    line: u32,
    condition: Option<&[u8]>,
    holding: &mut Holding,
    scene: Scene<'_>,
    session: &mut Session<M>,
    page: &mut Page<O>,
)
    ensures { (s : Setting) (d : Debugger) → StandsFor M.stands session.old s d
        → HasDone M.stands s (breaking.broken (Some line)) d session.new
        × (held holding.new ≡ breaking.after_made s d (breaking.after_break s d (held holding.old) (Some line)) (Some line) (bytes_option condition.entry)) }
{
    let answer = session.do_command(Command::Break(line));
    holding.add_temporary(made_number(&answer));
    tell(&answer, scene.line, scene.source, session, page);
    set_made(made_number(&answer), condition, holding, page);
}

/// Makes a watch, with a condition where the line goes on with `if`: of a target, else of an expression in the frame that is selected. Where
/// there is no memory to read the expression, nothing is done.
pub fn make_watch<M: ExpressionMachine, O: AnswerWriter + Drop>(
    text: &[u8],
    holding: &mut Holding,
    scene: Scene<'_>,
    session: &mut Session<M>,
    page: &mut Page<O>,
)
    ensures { (s : Setting) (d : Debugger) → StandsFor M.stands session.old s d
        → breaking.WatchesBy M.stands s d (held holding.old) (breaking.write_name text.now) (readings.watch_of (command_of (before_if text.now))) (breaking.written_in text.now)
        (condition_in text.now) session.new (held holding.new) }
{
    match write_name(text) {
        Some(name) => watch_writes(name, condition_in(text), holding, scene, session, page),
        None => watch_shown(text, holding, scene, session, page),
    }
}

/// Makes a watch of the target or the expression that a line names, with a condition where the line goes on with `if`.
fn watch_shown<M: ExpressionMachine, O: AnswerWriter + Drop>(
    text: &[u8],
    holding: &mut Holding,
    scene: Scene<'_>,
    session: &mut Session<M>,
    page: &mut Page<O>,
)
    ensures { (s : Setting) (d : Debugger) → StandsFor M.stands session.old s d
        → breaking.Watches M.stands s d (held holding.old) (readings.watch_of (command_of (before_if text.now))) (breaking.written_in text.now) (condition_in text.now)
        session.new (held holding.new) }
{
    match watch_of(before_condition(text)) {
        Some(target) => watch_target(target, condition_in(text), holding, scene, session, page),
        None => watch_written(text, holding, scene, session, page),
    }
}

/// Makes a watch of a target, with a condition: of a variable of the frame that is selected, or of the file.
fn watch_target<M: FramedMachine, O: AnswerWriter + Drop>(
    target: Target<'_>,
    condition: Option<&[u8]>,
    holding: &mut Holding,
    scene: Scene<'_>,
    session: &mut Session<M>,
    page: &mut Page<O>,
)
    ensures { (s : Setting) (d : Debugger) → StandsFor M.stands session.old s d
        → (text : Option (List ℕ)) → HasDone M.stands s (breaking.watched s d (held holding.old) (Some (target_view target.entry)) text) d session.new
        × (held holding.new ≡ breaking.after_watch s d (held holding.old) (Some (target_view target.entry)) text (bytes_option condition.entry)) }
{
    let depth = selected_depth(holding, session);
    match local_named(target, depth, session.machine()) {
        Some(id) => watch_local(target, depth, id, condition, holding, scene, session, page),
        None => watch_file(target, condition, holding, scene, session, page),
    }
}

/// Makes a watch of a variable of the file, with a condition.
fn watch_file<M: RecordedMachine, O: AnswerWriter + Drop>(
    target: Target<'_>,
    condition: Option<&[u8]>,
    holding: &mut Holding,
    scene: Scene<'_>,
    session: &mut Session<M>,
    page: &mut Page<O>,
)
    ensures { (s : Setting) (d : Debugger) → StandsFor M.stands session.old s d
        → HasDone M.stands s (breaking.watched_as s d (held holding.old) (target_view target.entry) None) d session.new
        × (held holding.new ≡ breaking.watched_then s d (held holding.old) (target_view target.entry) None (bytes_option condition.entry)) }
{
    let answer = session.do_command(Command::Watch(target));
    tell(&answer, scene.line, scene.source, session, page);
    set_made(watch_number(&answer), condition, holding, page);
}

/// Makes a watch of a variable of the frame at a depth, with a condition, where there is room.
fn watch_local<M: RecordedMachine, O: AnswerWriter + Drop>(
    target: Target<'_>,
    depth: usize,
    id: VarId,
    condition: Option<&[u8]>,
    holding: &mut Holding,
    scene: Scene<'_>,
    session: &mut Session<M>,
    page: &mut Page<O>,
)
    ensures { (s : Setting) (d : Debugger) → StandsFor M.stands session.old s d → depth ≡ selection.depth_of s d (held holding.old)
        → HasDone M.stands s (breaking.watched_as s d (held holding.old) (target_view target.entry) (Some id)) d session.new
        × (held holding.new ≡ breaking.watched_then s d (held holding.old) (target_view target.entry) (Some id) (bytes_option condition.entry)) }
{
    if holding.has_room() {
        let number = take_number(scene, session, page);
        holding.add_frame(number, target, depth, id);
        tell_made(number, holding, page);
        set_made(number, condition, holding, page);
    } else {
        page.put(NO_ROOM);
    }
}

/// Gives what was made its condition, where there are both.
pub(crate) fn set_made<O: AnswerWriter + Drop>(
    made: Option<u32>,
    condition: Option<&[u8]>,
    holding: &mut Holding,
    page: &mut Page<O>,
)
    ensures { held holding.new ≡ conditions.made_so made (bytes_option condition.entry) (held holding.old) }
{
    match (made, condition) {
        (Some(number), Some(text)) => set_condition(number, text, holding, page),
        (Some(_), None) | (None, _) => {}
    }
}

/// Gives a breakpoint or watch a condition, and tells it.
fn set_condition<O: AnswerWriter + Drop>(
    number: u32,
    text: &[u8],
    holding: &mut Holding,
    page: &mut Page<O>,
)
    ensures { held holding.new ≡ conditions.conditioned number text.now (held holding.old) }
{
    let is_taken = holding.set_condition(number, text);
    tell_condition(number, text, is_taken, page);
}

/// Deletes the first breakpoint on a line, and forgets what was said of it.
pub fn clear<M: RecordedMachine, O: AnswerWriter + Drop>(
    text: &[u8],
    holding: &mut Holding,
    scene: Scene<'_>,
    session: &mut Session<M>,
    page: &mut Page<O>,
)
    ensures { (s : Setting) (d : Debugger) → StandsFor M.stands session.old s d
        → HasDone M.stands s (breaking.cleared (breakpoints.stop_on s d (line_named (sheet scene.entry.source) text.now))) d session.new
        × (held holding.new ≡ conditions.forgotten_one (breakpoints.stop_on s d (line_named (sheet scene.entry.source) text.now)) (held holding.old)) }
{
    match line_of(text, scene.source) {
        Some(line) => clear_line(line, holding, scene, session, page),
        None => tell_unknown(scene.line, page),
    }
}

/// Deletes the first breakpoint on a line of this number.
fn clear_line<M: RecordedMachine, O: AnswerWriter + Drop>(
    line: u32,
    holding: &mut Holding,
    scene: Scene<'_>,
    session: &mut Session<M>,
    page: &mut Page<O>,
)
    ensures { (s : Setting) (d : Debugger) → StandsFor M.stands session.old s d
        → HasDone M.stands s (breaking.cleared (breakpoints.stop_on s d (Some line))) d session.new
        × (held holding.new ≡ conditions.forgotten_one (breakpoints.stop_on s d (Some line)) (held holding.old)) }
{
    match stop_on(line, session) {
        Some(number) => {
            do_alone(Command::Delete(Some(number)), scene, session, page);
            holding.forget(number);
        }
        None => page.put(b"no breakpoint is on this line; `info breakpoints` lists them\n"),
    }
}

/// Deletes a breakpoint or watch, or all, or those that a line names, and forgets what was said of them.
pub fn delete<M: RecordedMachine, O: AnswerWriter + Drop>(
    text: &[u8],
    holding: &mut Holding,
    scene: Scene<'_>,
    session: &mut Session<M>,
    page: &mut Page<O>,
)
    ensures { (s : Setting) (d : Debugger) → StandsFor M.stands session.old s d
        → HasDone M.stands s (breaking.deletes_by d (held holding.old) (readings.delete_of (command_of text.now)) text.now) d session.new
        × (held holding.new ≡ breaking.after_deletes d (held holding.old) (readings.delete_of (command_of text.now)) text.now) }
{
    match delete_of(text) {
        Some(number) => delete_by(number, holding, scene, session, page),
        None => delete_named(text, holding, scene, session, page),
    }
}

/// Deletes a breakpoint or watch of a number, or all.
pub(crate) fn delete_by<M: RecordedMachine, O: AnswerWriter + Drop>(
    number: Option<u32>,
    holding: &mut Holding,
    scene: Scene<'_>,
    session: &mut Session<M>,
    page: &mut Page<O>,
)
    ensures { (s : Setting) (d : Debugger) → StandsFor M.stands session.old s d
        → HasDone M.stands s (breaking.deletes (held holding.old) (Some number)) d session.new
        × (held holding.new ≡ conditions.forgotten_by (Some number) (frames.without_frames (Some number) (held holding.old))) }
{
    if is_frame(number, holding) {
        tell_deleted(number, page);
    } else {
        do_alone(Command::Delete(number), scene, session, page);
    }
    holding.remove_frames(number);
    holding.forget_deleted(number);
}

/// Whether a number is that of the watch of a frame.
fn is_frame(number: Option<u32>, holding: &Holding) -> bool
    ensures { result ≡ breaking.is_frame_number number (held holding.now) }
{
    match number {
        Some(number) => holding.is_frame(number),
        None => false,
    }
}

/// Gives a breakpoint or watch another condition, or none.
pub fn change_condition<M: RecordedMachine, O: AnswerWriter + Drop>(
    text: &[u8],
    holding: &mut Holding,
    scene: Scene<'_>,
    session: &Session<M>,
    page: &mut Page<O>,
)
    ensures { (s : Setting) (d : Debugger) → StandsFor M.stands session.now s d
        → held holding.new ≡ conditions.after_condition d (held holding.old) (index (first_word text.now)) (behind_first text.now) }
{
    let (word, condition) = split_word(text);
    match index(word) {
        None => tell_usage(CONDITION_USAGE, scene.line, page),
        Some(number) => change_by(number, condition, holding, session, page),
    }
}

/// Gives a breakpoint or watch another condition, or none, if there is one of this number.
fn change_by<M: RecordedMachine, O: AnswerWriter + Drop>(
    number: u32,
    text: &[u8],
    holding: &mut Holding,
    session: &Session<M>,
    page: &mut Page<O>,
)
    ensures { (s : Setting) (d : Debugger) → StandsFor M.stands session.now s d
        → held holding.new ≡ conditions.after_condition d (held holding.old) (Some number) text.now }
{
    if is_known(number, holding, session) {
        replace_condition(number, text, holding, page);
    } else {
        tell_no_stop(number, page);
    }
}

/// Gives a breakpoint or watch another condition, or none where the text is empty.
fn replace_condition<O: AnswerWriter + Drop>(
    number: u32,
    text: &[u8],
    holding: &mut Holding,
    page: &mut Page<O>,
)
    ensures { held holding.new ≡ conditions.replaced number text.now (held holding.old) }
{
    match text {
        [] => {
            holding.clear_condition(number);
            tell_condition(number, text, true, page);
        }
        [_, ..] => set_condition(number, text, holding, page),
    }
}

/// Lets so many stops of a breakpoint or watch be passed.
pub fn ignore<M: RecordedMachine, O: AnswerWriter + Drop>(
    text: &[u8],
    holding: &mut Holding,
    scene: Scene<'_>,
    session: &Session<M>,
    page: &mut Page<O>,
)
    ensures { (s : Setting) (d : Debugger) → StandsFor M.stands session.now s d
        → held holding.new ≡ conditions.after_ignore d (held holding.old) (index (first_word text.now)) (index (readings.trimmed (behind_first text.now))) }
{
    let (word, count) = split_word(text);
    match (index(word), index(trimmed(count))) {
        (Some(number), Some(count)) => pass(number, count, holding, session, page),
        (None, _) | (Some(_), None) => tell_usage(IGNORE_USAGE, scene.line, page),
    }
}

/// Lets so many stops of a breakpoint or watch be passed, if there is one of this number.
fn pass<M: RecordedMachine, O: AnswerWriter + Drop>(
    number: u32,
    count: u32,
    holding: &mut Holding,
    session: &Session<M>,
    page: &mut Page<O>,
)
    ensures { (s : Setting) (d : Debugger) → StandsFor M.stands session.now s d
        → held holding.new ≡ conditions.after_ignore d (held holding.old) (Some number) (Some count) }
{
    if is_known(number, holding, session) {
        let is_taken = holding.set_passes(number, count);
        tell_passes(number, count, is_taken, page);
    } else {
        tell_no_stop(number, page);
    }
}

/// Whether a breakpoint or watch, or the watch of a frame, has a number.
fn is_known<M: RecordedMachine>(number: u32, holding: &Holding, session: &Session<M>) -> bool
    ensures { (s : Setting) (d : Debugger) → StandsFor M.stands session.now s d → result ≡ conditions.is_known number d (held holding.now) }
{
    is_there(number, session) || holding.is_frame(number)
}

/// Whether a breakpoint or watch has a number.
fn is_there<M: RecordedMachine>(number: u32, session: &Session<M>) -> bool
    ensures { (s : Setting) (d : Debugger) → StandsFor M.stands session.now s d → result ≡ conditions.is_there number d.stops }
{
    has_number(number, session.stops())
}

/// Whether one of these has a number.
fn has_number(number: u32, stops: &[NumberedStop]) -> bool
    ensures { result ≡ list_any (λ entry. entry.number == number) stops.now }
{
    stops.iter().any(|entry| entry.number == number)
}
