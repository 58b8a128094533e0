//! What is looked at: the debugger does nothing.
ghost use Rattle.std.specs.Prelude.{◌≡◌, None};
ghost use Rattle.gang_model.specs.Debugger.Debugger.{Debugger, Setting};
ghost use Rattle.gang_model.specs.Texts.CommandText.{command_of};
ghost use Rattle.debug_session.specs.Sessions.{StandsFor};
ghost use Rattle.prompt_lines.specs.declared.line.Kind.TheVariants as kind;
ghost use Rattle.prompt_scenes.specs.Holding.{held, sheet};
ghost use Rattle.prompt_scenes.specs.Readings as readings;
ghost use Rattle.prompt_scenes.specs.SelectedFrame as selection;
ghost use Rattle.prompt_lines.specs.Readings.{bytes_option};
ghost use Rattle.prompt_texts.specs.Shown.{Puts};
ghost use Rattle.debug_prompt.specs.Doing as spec;
ghost use Rattle.debug_prompt.specs.Listing as listing;

use crate::copies_told::tell_copies;
use crate::listing::{Listed, lines_meant, place};
use crate::settings::{USUAL_LINES, lines_named, show_layout};
use debug_answers::{NumberedStop, Stop};
use debug_commands::read_command;
use debug_session::Session;
use debug_traits::{AnswerWriter, FramedMachine, RecordedMachine};
use debug_words::is_blank_line;
use frame_expressions::ExpressionMachine;
use prompt_lines::{Kind, Look, PromptLine, argument, is_alone};
use prompt_moves::show_checkpoints;
use prompt_scenes::{
    Holding, ListedLine, Scene, delete_of, frame_above, frame_below, frame_named, is_move, line_of,
    print_of, select, selected_depth,
};
use prompt_stops::{list_frames, tell_watch_lines};
use prompt_texts::{
    Page, list_lines, show_arguments, show_displayed, show_frame, show_frames, show_full_frames,
    show_help, show_here, show_line, show_lists, show_locals, show_recording, show_source,
    show_text, show_type, show_variables, show_watches, tell_unknown,
};
use prompt_values::{form_of, show_functions, tell_watch_conditions};
use whole_runs::TellsCopies;

/// Why there is no frame below.
const BOTTOM: &[u8] = b"Bottom (innermost) frame selected; you can't go down.\n";

/// Why there is no frame above.
const TOP: &[u8] = b"Initial frame selected; you can't go up.\n";

/// The word before a text that is written.
const ECHO: &[u8] = b"echo";

/// From which line on and up to which one the source was listed last, how many lines are listed at once, and whether the history was ever
/// full.
#[derive(Drop)]
pub(crate) struct Looking {
    listed: Option<Listed>,
    lines: u32,
    was_full: bool,
}

impl Looking {
    /// Nothing was listed, ten lines are listed at once, and the history is not full.
    pub(crate) fn new() -> Self
        ensures lines { result.lines ≡ 10 }
        ensures listed { result.listed ≡ None }
    {
        Looking {
            listed: None,
            lines: USUAL_LINES,
            was_full: false,
        }
    }

    /// Notes what a line led to: behind a move, or in another frame, the lines around the place are listed first.
    pub(crate) fn note<M: RecordedMachine>(&mut self, line: &PromptLine, session: &Session<M>)
        ensures { self.new.lines ≡ self.old.lines }
    {
        if may_move(line) {
            self.listed = None;
        }
        if session.machine().kept() >= session.machine().limit() {
            self.was_full = true;
        }
    }

    /// Shows what is looked at, and selects a frame. A look that repeats by an empty line names no line.
    pub(crate) fn look<M: ExpressionMachine + TellsCopies, O: AnswerWriter + Drop>(
        &mut self,
        look: Look,
        text: &[u8],
        is_again: bool,
        holding: &mut Holding,
        scene: Scene<'_>,
        session: &Session<M>,
        page: &mut Page<O>,
    )
        ensures held { (s : Setting) (d : Debugger) → StandsFor M.stands session.now s d
            → held holding.new ≡ spec.changed_by (kind.Look look) (sheet scene.entry.source) s d (held holding.old) text.now }
        ensures lines { self.new.lines ≡ listing.size_behind look self.old.lines text.now }
        ensures written { (s : Setting) (d : Debugger) → StandsFor M.stands session.now s d
            → listing.WritesLook (λ text. Puts text page.old.has_failed page.new.has_failed (O.written page.old.writer) (O.written page.new.writer)) s d look (sheet scene.entry.source) is_again (held holding.old).frame self.old.lines text.now self.old.listed self.new.listed }
    {
        match look {
            Look::Frame => go_to(frame_named(holding, text), holding, scene, session, page),
            Look::Up => go_up(text, holding, scene, session, page),
            Look::Down => go_down(text, holding, scene, session, page),
            Look::List => self.list(text, is_again, holding, scene, session, page),
            Look::ListSize => self.set_lines(text, scene, page),
            Look::Recording => self.show_recording(text, scene, session, page),
            Look::Frames | Look::Full | Look::Here | Look::Line | Look::Source => look_at_program(
                look, text, scene, session, page,
            ),
            Look::Watches => look_at_watches(scene.listed, holding, session, page),
            Look::Layout => show_layout(text, self.lines, scene, page),
            Look::Functions => list_functions(text, scene, session, page),
            Look::Checkpoints => show_checkpoints(holding, page),
            Look::Type | Look::Locals | Look::Arguments | Look::Variables | Look::Displays => {
                look_at_values(look, text, holding, scene, session, page);
            }
            Look::Lists | Look::Help | Look::Text => look_at_texts(look, text, scene, page),
        }
    }

    /// Lists the lines that a line names, if it names some.
    fn list<M: RecordedMachine, O: AnswerWriter + Drop>(
        &mut self,
        text: &[u8],
        is_again: bool,
        holding: &Holding,
        scene: Scene<'_>,
        session: &Session<M>,
        page: &mut Page<O>,
    )
        ensures listed { (s : Setting) (d : Debugger) → StandsFor M.stands session.now s d
            → listing.ListsNamed (λ text. Puts text page.old.has_failed page.new.has_failed (O.written page.old.writer) (O.written page.new.writer)) s d (sheet scene.entry.source) (held holding.now).frame self.old.lines (listing.lines_meant is_again self.old.lines (sheet scene.entry.source) text.now) self.old.listed self.new.listed }
        ensures lines { self.new.lines ≡ self.old.lines }
    {
        match lines_meant(is_again, text, self.lines, scene.source) {
            Some(lines) => {
                let here = place(holding.frame(), session);
                let listed = lines.after(self.listed, self.lines, here);
                list_lines(listed.first, listed.next, scene.source, session, page);
                self.listed = Some(listed);
            }
            None => tell_unknown(scene.line, page),
        }
    }

    /// Lists so many lines at once from now on, as a command line names.
    fn set_lines<O: AnswerWriter + Drop>(
        &mut self,
        text: &[u8],
        scene: Scene<'_>,
        page: &mut Page<O>,
    )
        ensures lines { self.new.lines ≡ listing.size_after self.old.lines text.now }
        ensures listed { self.new.listed ≡ self.old.listed }
    {
        match lines_named(text) {
            Some(lines) => self.lines = lines,
            None => tell_unknown(scene.line, page),
        }
    }

    /// Shows how much can be taken back, and what copies are kept for it.
    fn show_recording<M: RecordedMachine + TellsCopies, O: AnswerWriter + Drop>(
        &self,
        text: &[u8],
        scene: Scene<'_>,
        session: &Session<M>,
        page: &mut Page<O>,
    ) {
        if is_blank_line(text) {
            show_recording(self.was_full, session, page);
            tell_copies(session.machine().kept_copies(), page);
        } else {
            tell_unknown(scene.line, page);
        }
    }
}

/// Whether a line may move, or select another frame.
fn may_move(line: &PromptLine) -> bool {
    match line.kind {
        Kind::Run
        | Kind::Start
        | Kind::Finish
        | Kind::Until
        | Kind::Goto
        | Kind::Restart
        | Kind::Last
        | Kind::Look(Look::Frame)
        | Kind::Look(Look::Up)
        | Kind::Look(Look::Down) => true,
        Kind::Own => match read_command(line.text.as_slice()) {
            Some(command) => is_move(command),
            None => false,
        },
        _ => false,
    }
}

/// Selects a frame, if there is one of this number, and shows it.
fn go_to<M: RecordedMachine, O: AnswerWriter + Drop>(
    number: Option<u128>,
    holding: &mut Holding,
    scene: Scene<'_>,
    session: &Session<M>,
    page: &mut Page<O>,
)
    ensures { (s : Setting) (d : Debugger) → StandsFor M.stands session.now s d → held holding.new ≡ selection.selected s d (held holding.old) number }
{
    select(number, holding, session);
    match number {
        Some(number) => show_frame(number, scene.source, session, page),
        None => tell_unknown(scene.line, page),
    }
}

/// Selects the frame so many calls above, and shows it; where the entry's frame is selected, `up` alone tells that there is none.
fn go_up<M: RecordedMachine, O: AnswerWriter + Drop>(
    text: &[u8],
    holding: &mut Holding,
    scene: Scene<'_>,
    session: &Session<M>,
    page: &mut Page<O>,
)
    ensures { (s : Setting) (d : Debugger) → StandsFor M.stands session.now s d
        → held holding.new ≡ selection.selected s d (held holding.old) (selection.frame_above (held holding.old) (readings.count_of (command_of text.now))) }
{
    let number = frame_above(holding, text);
    if is_alone(text) && is_first(holding, session) {
        select(number, holding, session);
        page.put(TOP);
    } else {
        go_to(number, holding, scene, session, page);
    }
}

/// Whether the entry's frame is selected, of a program that has not ended.
fn is_first<M: RecordedMachine>(holding: &Holding, session: &Session<M>) -> bool {
    match session.machine().position() {
        Some(position) => position.depth <= holding.frame().saturating_add(1),
        None => false,
    }
}

/// Selects the frame so many calls below, and shows it; where the top frame is selected, `down` alone tells that there is none.
fn go_down<M: RecordedMachine, O: AnswerWriter + Drop>(
    text: &[u8],
    holding: &mut Holding,
    scene: Scene<'_>,
    session: &Session<M>,
    page: &mut Page<O>,
)
    ensures { (s : Setting) (d : Debugger) → StandsFor M.stands session.now s d
        → held holding.new ≡ selection.selected s d (held holding.old) (selection.frame_below (held holding.old) (readings.count_of (command_of text.now))) }
{
    let number = frame_below(holding, text);
    if holding.is_top() && is_alone(text) && session.machine().position().is_some() {
        select(number, holding, session);
        page.put(BOTTOM);
    } else {
        go_to(number, holding, scene, session, page);
    }
}

/// Lists the functions of the program whose names have a part, if one word alone follows.
fn list_functions<M: ExpressionMachine, O: AnswerWriter + Drop>(
    text: &[u8],
    scene: Scene<'_>,
    session: &Session<M>,
    page: &mut Page<O>,
)
    ensures { (s : Setting) (d : Debugger) → StandsFor M.stands session.now s d
        → listing.ListsFunctions (λ lines. Puts lines page.old.has_failed page.new.has_failed (O.written page.old.writer) (O.written page.new.writer)) text.now scene.entry.source.text.now s.program }
{
    match part_of(text) {
        Some(part) => show_functions(part, scene.source, session.machine(), page),
        None => tell_unknown(scene.line, page),
    }
}

/// The part that names are to have: what stands behind the first word, nothing behind a word alone.
fn part_of(text: &[u8]) -> Option<&[u8]>
    ensures { bytes_option result ≡ listing.part_of text.now }
{
    if is_alone(text) {
        Some(&[])
    } else {
        argument(text)
    }
}

/// Shows where the program stands, or what stops it.
fn look_at_program<M: FramedMachine, O: AnswerWriter + Drop>(
    look: Look,
    text: &[u8],
    scene: Scene<'_>,
    session: &Session<M>,
    page: &mut Page<O>,
) {
    match look {
        Look::Frames => match delete_of(text) {
            Some(most) => show_frames(most, scene.source, session, page),
            None => tell_unknown(scene.line, page),
        },
        Look::Full => show_full_frames(scene.alloc, scene.layout, scene.source, session, page),
        Look::Line if is_alone(text) => show_here(scene.source, session, page),
        Look::Line => match line_of(text, scene.source) {
            Some(line) => show_line(line, session, page),
            None => tell_unknown(scene.line, page),
        },
        Look::Source => show_source(scene.source, page),
        _ => show_here(scene.source, session, page),
    }
}

/// Shows the watches, with their conditions, counts and lines.
fn look_at_watches<M: RecordedMachine, O: AnswerWriter + Drop>(
    listed: &[ListedLine],
    holding: &Holding,
    session: &Session<M>,
    page: &mut Page<O>,
) {
    if !holding.has_frames() || has_watch(session.stops()) {
        show_watches(session, page);
    }
    tell_watch_conditions(holding, session, page);
    list_frames(holding, page);
    tell_watch_lines(listed, holding, session, page);
}

/// Whether a variable of the file is watched.
fn has_watch(stops: &[NumberedStop]) -> bool {
    stops
        .iter()
        .any(|entry| matches!(entry.stop, Stop::Watch { .. }))
}

/// Shows variables, in the frame that is selected.
fn look_at_values<M: FramedMachine, O: AnswerWriter + Drop>(
    look: Look,
    text: &[u8],
    holding: &Holding,
    scene: Scene<'_>,
    session: &Session<M>,
    page: &mut Page<O>,
) {
    let depth = selected_depth(holding, session);
    match look {
        Look::Type => match print_of(text) {
            Some(target) => show_type(target, depth, session, page),
            None => tell_unknown(scene.line, page),
        },
        Look::Locals => show_locals(scene.alloc, scene.layout, depth, session, page),
        Look::Arguments => show_arguments(scene.alloc, scene.layout, depth, session, page),
        Look::Variables => show_variables(session, page),
        _ => show_displays(holding, page),
    }
}

/// Writes help, what there is to look at, or a text.
fn look_at_texts<O: AnswerWriter + Drop>(
    look: Look,
    text: &[u8],
    scene: Scene<'_>,
    page: &mut Page<O>,
) {
    match look {
        Look::Help => show_help(topic(text), page),
        Look::Lists => show_lists(scene.line, page),
        _ => show_text(echoed(scene.line), page),
    }
}

/// Writes what is displayed, by its numbers.
fn show_displays<O: AnswerWriter + Drop>(holding: &Holding, page: &mut Page<O>) {
    if holding.displays().is_empty() {
        page.put(b"nothing is displayed\n");
    }
    for displayed in holding.displays() {
        if let Some(form) = form_of(displayed.text.as_slice()) {
            show_displayed(displayed.number, form.digits, form.text.trim_ascii(), page);
        }
    }
}

/// What stands behind the word `echo` of a line.
fn echoed(line: &[u8]) -> &[u8] {
    line.trim_ascii_start().strip_prefix(ECHO).unwrap_or(&[])
}

/// A text, or nothing where it is blank.
fn topic(text: &[u8]) -> &[u8] {
    if is_blank_line(text) { &[] } else { text }
}
