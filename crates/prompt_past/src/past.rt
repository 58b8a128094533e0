//! What changed a variable, or a lane or an element of one: its last change, and those before it. Those of the file are watched for that.
ghost use Rattle.std.specs.Prelude.{◌≡◌, Some};
ghost use Rattle.gang_model.specs.Debugger.Debugger.{Debugger, DoDelete, Setting, do_command};
ghost use Rattle.gang_model.specs.Texts.CommandText.{command_of};
ghost use Rattle.command_lists.specs.Lists.{HasDone};
ghost use Rattle.debug_commands.specs.Views.{target_view};
ghost use Rattle.debug_session.specs.Sessions.{StandsFor};
ghost use Rattle.prompt_scenes.specs.Holding.{held};
ghost use Rattle.prompt_scenes.specs.Readings as readings;
ghost use Rattle.prompt_moves.specs.Moments as moments;
ghost use Rattle.prompt_past.specs.Past as past;

use crate::frame_past::{part_of, seek_in_frame, tell_in_frame};
use debug_answers::Answer;
use debug_commands::{Command, Target};
use debug_session::Session;
use debug_traits::{AnswerWriter, FramedMachine, RecordedMachine};
use frame_expressions::ExpressionMachine;
use prompt_moves::{follow, is_unset, step_on};
use prompt_scenes::{
    Holding, Scene, changes_named, is_history_end, is_stop, watch_number, watch_of,
};
use prompt_texts::{Before, Page, Watched, tell, tell_move, tell_never_changed, tell_usage};

/// What may follow `last`.
const LAST: &[u8] =
    b"A variable, a lane or an element follows `last`, as `last total` and `last x[2]`: the program goes back to its last change.";

/// What may follow `changes`.
const CHANGES: &[u8] =
    b"A variable, a lane or an element follows `changes`, as `changes total` and `changes x[2]`: its last ten changes are listed, or as many as a number behind it says.";

/// Why nothing is done where a value was set.
pub(crate) const IS_SET: &[u8] =
    b"Nothing is done: a value was set by `set var`, which going back would take back; `undo` takes it back.\n";

/// Goes back to the last change of a target. Nothing is done where a value that was set can be taken back.
pub fn go_to_last<M: ExpressionMachine, O: AnswerWriter + Drop>(
    text: &[u8],
    holding: &mut Holding,
    scene: Scene<'_>,
    session: &mut Session<M>,
    page: &mut Page<O>,
)
    ensures { (s : Setting) (d : Debugger) → StandsFor M.stands session.old s d
        → HasDone M.stands s (past.last_of s d (held holding.old) (readings.watch_of (command_of text.now))) d session.new
        × (held holding.new ≡ past.after_last_of s d (held holding.old) (readings.watch_of (command_of text.now))) }
{
    match watch_of(text) {
        Some(target) => seek_if_unset(target, holding, scene, session, page),
        None => tell_usage(LAST, scene.line, page),
    }
}

/// Goes back to the last change of a target, where no value that was set can be taken back.
fn seek_if_unset<M: ExpressionMachine, O: AnswerWriter + Drop>(
    target: Target<'_>,
    holding: &mut Holding,
    scene: Scene<'_>,
    session: &mut Session<M>,
    page: &mut Page<O>,
)
    ensures { (s : Setting) (d : Debugger) → StandsFor M.stands session.old s d
        → HasDone M.stands s (past.last_of s d (held holding.old) (Some (target_view target.entry))) d session.new
        × (held holding.new ≡ past.after_last_of s d (held holding.old) (Some (target_view target.entry))) }
{
    if !is_unset(session) {
        page.put(IS_SET);
        return;
    }
    seek_named(target, holding, scene, session, page);
}

/// Goes back to the last change of a target: of a variable of the frame that is selected, or of the file.
fn seek_named<M: ExpressionMachine, O: AnswerWriter + Drop>(
    target: Target<'_>,
    holding: &mut Holding,
    scene: Scene<'_>,
    session: &mut Session<M>,
    page: &mut Page<O>,
)
    ensures { (s : Setting) (d : Debugger) → StandsFor M.stands session.old s d
        → HasDone M.stands s (past.last_as s d (held holding.old) (target_view target.entry) (past.part_of s d (held holding.old) (target_view target.entry))) d session.new
        × (held holding.new ≡ past.after_last_as s d (held holding.old) (target_view target.entry) (past.part_of s d (held holding.old) (target_view target.entry))) }
{
    match part_of(target, holding, session) {
        Some(watch) => seek_in_frame(&watch, target, holding, scene, session, page),
        None => seek(target, holding, scene, session, page),
    }
}

/// Watches a target, and goes back to its last change.
fn seek<M: ExpressionMachine, O: AnswerWriter + Drop>(
    target: Target<'_>,
    holding: &mut Holding,
    scene: Scene<'_>,
    session: &mut Session<M>,
    page: &mut Page<O>,
)
    ensures { (s : Setting) (d : Debugger) → StandsFor M.stands session.old s d
        → HasDone M.stands s (past.last_by s d (held holding.old) (Some (target_view target.entry))) d session.new
        × (held holding.new ≡ past.after_last s d (held holding.old) (Some (target_view target.entry))) }
{
    let answer = session.do_command(Command::Watch(target));
    match watch_number(&answer) {
        Some(number) => seek_change(number, target, holding, scene, session, page),
        None => tell(&answer, scene.line, scene.source, session, page),
    }
}

/// Goes back to the last change of what has been watched, and the watch goes. Where there is none, the program goes on to where it
/// stood.
fn seek_change<M: ExpressionMachine, O: AnswerWriter + Drop>(
    number: u32,
    target: Target<'_>,
    holding: &mut Holding,
    scene: Scene<'_>,
    session: &mut Session<M>,
    page: &mut Page<O>,
)
    ensures { (s : Setting) (d : Debugger) → StandsFor M.stands session.old s d
        → HasDone M.stands s (past.sought s (held holding.old) d (Some number)) d session.new
        × (held holding.new ≡ past.after_sought s (held holding.old) d (Some number)) }
{
    let before = Before::note(session.machine());
    let newer = Watched::note(target, session.machine());
    let steps = session.machine().kept_steps() as u64;
    let answer = session.do_command(Command::ReverseContinue);
    unwatch(number, session);
    if is_history_end(&answer) {
        let _ = step_on(steps, session);
        tell_never_changed(target, session, page);
    } else {
        tell_sought(&answer, number, &newer, &before, scene, session, page);
        follow(&answer, holding, scene, session, page);
    }
}

/// Tells where the way back to a change led: what the statement there changed, or what stopped the way before it.
fn tell_sought<M: FramedMachine, O: AnswerWriter + Drop>(
    answer: &Answer<'_>,
    number: u32,
    newer: &Watched<'_>,
    before: &Before,
    scene: Scene<'_>,
    session: &Session<M>,
    page: &mut Page<O>,
) {
    match answer {
        Answer::AtWatch(own) if *own == number => {
            newer.tell_last(&Watched::note(newer.target(), session.machine()), page);
            let here = Before::note(session.machine());
            tell_move(
                &Answer::Here,
                scene.line,
                &here,
                scene.source,
                session,
                page,
            );
        }
        Answer::Refused(_) => tell_never_changed(newer.target(), session, page),
        other => tell_move(other, scene.line, before, scene.source, session, page),
    }
}

/// Lists the last changes of a target.
pub fn tell_changes<M: FramedMachine, O: AnswerWriter + Drop>(
    text: &[u8],
    holding: &Holding,
    scene: Scene<'_>,
    session: &mut Session<M>,
    page: &mut Page<O>,
)
    ensures { (s : Setting) (d : Debugger) → StandsFor M.stands session.old s d
        → HasDone M.stands s (past.changes_of s d (held holding.now) (readings.changes_named text.now)) d session.new }
{
    match changes_named(text) {
        Some((target, most)) => tell_named(target, most, holding, scene, session, page),
        None => tell_usage(CHANGES, scene.line, page),
    }
}

/// Lists the last changes of a target: of a variable of the frame that is selected, or of the file.
fn tell_named<M: FramedMachine, O: AnswerWriter + Drop>(
    target: Target<'_>,
    most: u32,
    holding: &Holding,
    scene: Scene<'_>,
    session: &mut Session<M>,
    page: &mut Page<O>,
)
    ensures { (s : Setting) (d : Debugger) → StandsFor M.stands session.old s d
        → HasDone M.stands s (past.changes_of s d (held holding.now) (Some (target_view target.entry, most))) d session.new }
{
    match part_of(target, holding, session) {
        Some(watch) => tell_in_frame(&watch, target, most, scene, session, page),
        None => tell_if_unset(target, most, scene, session, page),
    }
}

/// Lists the last changes of a target, where single steps lead back to where the program stands.
fn tell_if_unset<M: RecordedMachine, O: AnswerWriter + Drop>(
    target: Target<'_>,
    most: u32,
    scene: Scene<'_>,
    session: &mut Session<M>,
    page: &mut Page<O>,
)
    ensures { (s : Setting) (d : Debugger) → StandsFor M.stands session.old s d
        → HasDone M.stands s (past.changes_by s d (Some (target_view target.entry, most))) d session.new }
{
    if is_unset(session) {
        watch_and_tell(target, most, scene, session, page);
    } else {
        page.put(IS_SET);
    }
}

/// Watches a target, and lists its last changes.
fn watch_and_tell<M: RecordedMachine, O: AnswerWriter + Drop>(
    target: Target<'_>,
    most: u32,
    scene: Scene<'_>,
    session: &mut Session<M>,
    page: &mut Page<O>,
)
    ensures { (s : Setting) (d : Debugger) → StandsFor M.stands session.old s d
        → HasDone M.stands s (past.watched_changes s d (target_view target.entry) most) d session.new }
{
    let answer = session.do_command(Command::Watch(target));
    match watch_number(&answer) {
        Some(number) => tell_watched(number, target, most, scene, session, page),
        None => tell(&answer, scene.line, scene.source, session, page),
    }
}

/// Lists the last changes of what has been watched; the watch goes, and the program stands where it stood.
fn tell_watched<M: RecordedMachine, O: AnswerWriter + Drop>(
    number: u32,
    target: Target<'_>,
    most: u32,
    scene: Scene<'_>,
    session: &mut Session<M>,
    page: &mut Page<O>,
)
    ensures { (s : Setting) (d : Debugger) → StandsFor M.stands session.old s d
        → HasDone M.stands s (past.told_changes s d most (Some number)) d session.new }
{
    let steps = session.machine().kept_steps() as u64;
    tell_back(target, most, scene, session, page);
    unwatch(number, session);
    let here = session.machine().kept_steps() as u64;
    let _ = step_on(steps.saturating_sub(here), session);
}

/// Goes back from stop to stop, so often, and lists the changes of a target on the way.
fn tell_back<M: RecordedMachine, O: AnswerWriter + Drop>(
    target: Target<'_>,
    most: u32,
    scene: Scene<'_>,
    session: &mut Session<M>,
    page: &mut Page<O>,
)
    ensures { (s : Setting) (d : Debugger) → StandsFor M.stands session.old s d → StandsFor M.stands session.new s (moments.led s (moments.stops_back most s d) d) }
{
    let mut newer = Watched::note(target, session.machine());
    let mut left = most;
    while left > 0 {
        let answer = session.do_command(Command::ReverseContinue);
        if !is_stop(&answer) {
            newer.tell_first(session, page);
            return;
        }
        let older = Watched::note(target, session.machine());
        newer = newer.tell_change(older, scene.source, session, page);
        left -= 1;
    }
}

/// Deletes a watch that has been made.
fn unwatch<M: RecordedMachine>(number: u32, session: &mut Session<M>)
    ensures { (s : Setting) (d : Debugger) → StandsFor M.stands session.old s d → StandsFor M.stands session.new s (do_command s (DoDelete (Some number)) d).next }
{
    let _ = session.do_command(Command::Delete(Some(number)));
}
