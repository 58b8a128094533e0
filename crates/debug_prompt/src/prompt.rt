//! The prompt.
ghost use Rattle.std.specs.Prelude.{◌≡◌};
ghost use Rattle.gang_model.specs.Debugger.Debugger.{Debugger, Setting};
ghost use Rattle.debug_session.specs.Sessions.{StandsFor};
ghost use Rattle.prompt_lines.specs.Readings.{spelled};
ghost use Rattle.prompt_scenes.specs.Holding.{held, held_at_start, nothing_kept, sheet};
ghost use Rattle.debug_prompt.specs.Lines.{DoesKind, DoesLine};
ghost use Rattle.debug_prompt.specs.Doing as spec;

use crate::looking::Looking;
use crate::printing::{display, print, set_spelled, undisplay};
use crate::running::{do_own_words, run_to_stop};
use crate::settings::{USUAL, layout_after};
use crate::within::{depth_within, kept_steps, known_now};
use debug_commands::{Command, read_command};
use debug_session::Session;
use debug_traits::{AnswerWriter, RecordedMachine};
use frame_expressions::ExpressionMachine;
use prompt_going::{finish, go_until};
use prompt_lines::{Kind, Look, PromptLine, Text, read_line};
use prompt_moves::{forget, go_to_step, note_moment, restart, start};
use prompt_past::{go_to_last, tell_changes};
use prompt_scenes::{Holding, ListedLine, Scene, command_repeats, sets};
use prompt_stops::{
    break_temporarily, change_condition, clear, delete, disable, enable, ignore, make_break,
    make_watch, tell_ended,
};
use prompt_texts::{Layout, Page, Source, show_here};
use prompt_values::{Printed, Values, print_formatted};
use prompt_walks::{tell_lanes, tell_when};
use std::alloc::Global;
use std::mem::replace;
use whole_runs::TellsCopies;

/// What a line led to.
#[derive(Clone, Copy, Debug, PartialEq, Eq)]
pub enum Turn {
    Goes,
    /// The line quits.
    Quits,
    /// The writer failed.
    Fails,
}

/// What lasts from line to line: the line that an empty one repeats, temporary breakpoints, what is displayed, what is looked at and how
/// much of an array is told, and the values that were printed.
#[derive(Drop)]
pub struct Prompt {
    pub(crate) kept: PromptLine,
    pub(crate) holding: Holding,
    looking: Looking,
    most_steps: u32,
    layout: Layout,
    values: Values,
}

impl Prompt {
    /// A prompt before its first line, over a session that makes so many moves for one forward command at most.
    pub fn new(most_steps: u32) -> Self
        ensures kept { spelled result.kept ≡ nothing_kept }
        ensures held { held result.holding ≡ held_at_start }
        ensures limit { result.most_steps ≡ most_steps }
    {
        Prompt {
            kept: nothing(),
            holding: Holding::new(),
            looking: Looking::new(),
            most_steps,
            layout: USUAL,
            values: Values::new(),
        }
    }

    /// Writes where the program stands.
    pub fn begin<M: RecordedMachine, O: AnswerWriter + Drop>(
        &self,
        source: Source<'_>,
        session: &Session<M>,
        page: &mut Page<O>,
    ) {
        show_here(source, session, page);
    }

    /// Does a line, its line feed not included, by the debugger's commands, and shows what they came to. Where conditions or counts
    /// are there, or something is disabled, `continue`, `reverse-continue` and `run` go on to a stop that counts. A long `continue` shows on a terminal how
    /// many moves it has made. `info breakpoints` lists the lines of breakpoints and watches too. Where the writer has failed, the commands are done, and nothing is shown any more.
    pub fn do_line<M: ExpressionMachine + TellsCopies, O: AnswerWriter + Drop>(
        &mut self,
        alloc: Global,
        line: &[u8],
        listed: &[ListedLine],
        source: Source<'_>,
        session: &mut Session<M>,
        page: &mut Page<O>,
    ) -> Turn
        ensures done { (s : Setting) (d : Debugger) → StandsFor M.stands session.old s d → s.limit ≡ self.old.most_steps
            → DoesLine M.stands (sheet source.entry) (spelled self.old.kept) (held self.old.holding) s d line.now session.new (held self.new.holding) }
        ensures kept { spelled self.new.kept ≡ spec.kept_after (spelled self.old.kept) line.now }
        ensures limit { self.new.most_steps ≡ self.old.most_steps }
        ensures turn { result ≡ spec.turn_of page.new.has_failed (spec.meant (spelled self.old.kept) line.now) }
    {
        let read = read_line(line);
        let is_again = read.kind == Kind::Again;
        let meant = meant(read, &mut self.kept);
        let scene = Scene {
            alloc,
            line: if is_again {
                meant.text.as_slice()
            } else {
                line
            },
            listed,
            source,
            most_steps: self.most_steps,
            layout: self.layout,
        };
        let steps = kept_steps(session);
        let within = depth_within(&meant, &self.holding, session);
        let printed = do_meant(
            &meant,
            is_again,
            &self.values,
            &mut self.holding,
            &mut self.looking,
            scene,
            session,
            page,
        );
        self.values.note_if(printed);
        let deepest = known_now(within, steps, &meant, session);
        tell_ended(deepest, steps, &self.holding, session, page);
        self.holding.end_frames(deepest);
        self.looking.note(&meant, session);
        self.layout = layout_after(line, self.layout);
        let turn = turn_of(&meant, page);
        self.kept = if_repeats(meant);
        turn
    }
}

/// A blank line, which does nothing.
pub(crate) fn nothing() -> PromptLine
    ensures { spelled result ≡ nothing_kept }
{
    PromptLine {
        kind: Kind::Own,
        text: Text::new(),
    }
}

/// The line that is meant: an empty one means the one that was kept.
fn meant(read: PromptLine, kept: &mut PromptLine) -> PromptLine
    ensures { spelled result ≡ spec.meant_by read.kind (spelled kept.old) (spelled read) }
{
    match read.kind {
        Kind::Again => replace(kept, nothing()),
        _ => read,
    }
}

/// A line that repeats, else one that does nothing.
fn if_repeats(line: PromptLine) -> PromptLine
    ensures { spelled result ≡ spec.if_repeats (spelled line) }
{
    if repeats(&line) { line } else { nothing() }
}

/// Whether an empty line repeats this one.
fn repeats(line: &PromptLine) -> bool
    ensures { result ≡ spec.repeats line.now.kind line.now.text.items }
{
    match line.kind {
        Kind::Own | Kind::Finish => command_repeats(read_command(line.text.as_slice())),
        Kind::Print => !sets(line.text.as_slice()),
        Kind::Until
        | Kind::Formatted
        | Kind::Last
        | Kind::Look(Look::List)
        | Kind::Look(Look::Up)
        | Kind::Look(Look::Down) => true,
        Kind::Again
        | Kind::Run
        | Kind::Start
        | Kind::Set
        | Kind::Break
        | Kind::Clear
        | Kind::Temporary
        | Kind::Display
        | Kind::Undisplay
        | Kind::Goto
        | Kind::Changes
        | Kind::When
        | Kind::Lanes
        | Kind::Checkpoint
        | Kind::Restart
        | Kind::Forget
        | Kind::Watch
        | Kind::Delete
        | Kind::Condition
        | Kind::Ignore
        | Kind::Disable
        | Kind::Enable
        | Kind::Look(_) => false,
    }
}

/// Does a command line, by its kind. Gives a value that was printed and has no number yet.
fn do_meant<M: ExpressionMachine + TellsCopies, O: AnswerWriter + Drop>(
    line: &PromptLine,
    is_again: bool,
    values: &Values,
    holding: &mut Holding,
    looking: &mut Looking,
    scene: Scene<'_>,
    session: &mut Session<M>,
    page: &mut Page<O>,
) -> Option<Printed>
    ensures { (s : Setting) (d : Debugger) → StandsFor M.stands session.old s d → s.limit ≡ scene.entry.most_steps
        → DoesKind M.stands line.now.kind (sheet scene.entry.source) s d (held holding.old) line.now.text.items session.new (held holding.new) }
{
    let text = line.text.as_slice();
    match line.kind {
        Kind::Print => return print(text, values, holding, scene, session, page),
        Kind::Formatted => return print_formatted(text, values, holding, scene, session, page),
        Kind::Again => {}
        Kind::Own => do_own_words(text, values, holding, scene, session, page),
        Kind::Run => run_to_stop(text, holding, scene, session, page),
        Kind::Start => start(text, holding, scene, session, page),
        Kind::Finish => finish(text, holding, scene, session, page),
        Kind::Set => set_spelled(text, holding, scene, session, page),
        Kind::Break => make_break(text, holding, scene, session, page),
        Kind::Clear => clear(text, holding, scene, session, page),
        Kind::Temporary => break_temporarily(text, holding, scene, session, page),
        Kind::Until => go_until(text, holding, scene, session, page),
        Kind::Display => display(text, holding, scene, session, page),
        Kind::Undisplay => undisplay(text, holding, scene, page),
        Kind::Goto => go_to_step(text, holding, scene, session, page),
        Kind::Restart => restart(text, holding, scene, session, page),
        Kind::Last => go_to_last(text, holding, scene, session, page),
        Kind::Changes => tell_changes(text, holding, scene, session, page),
        Kind::When => tell_when(text, scene, session, page),
        Kind::Lanes => tell_lanes(text, holding, scene, session, page),
        Kind::Checkpoint => note_moment(text, holding, scene, session, page),
        Kind::Forget => forget(text, holding, scene, page),
        Kind::Watch => make_watch(text, holding, scene, session, page),
        Kind::Delete => delete(text, holding, scene, session, page),
        Kind::Condition => change_condition(text, holding, scene, session, page),
        Kind::Ignore => ignore(text, holding, scene, session, page),
        Kind::Disable => disable(text, holding, scene, session, page),
        Kind::Enable => enable(text, holding, scene, session, page),
        Kind::Look(look) => looking.look(look, text, is_again, holding, scene, session, page),
    }
    None
}

/// What a line led to.
fn turn_of<O: AnswerWriter + Drop>(line: &PromptLine, page: &Page<O>) -> Turn
    ensures { result ≡ spec.turn_of page.now.has_failed (spelled line.now) }
{
    if page.has_failed() {
        return Turn::Fails;
    }
    match line.kind {
        Kind::Own => match read_command(line.text.as_slice()) {
            Some(Command::Quit) => Turn::Quits,
            _ => Turn::Goes,
        },
        _ => Turn::Goes,
    }
}
