//! Values that are printed, set and displayed, in the frame that is selected.
ghost use Rattle.std.specs.Prelude.{◌≡◌, ◌==◌, ◌∷◌, [], Some, drop, if◌then◌else◌};
ghost use Rattle.gang_model.specs.Debugger.Debugger.{Debugger, DoPrint, Setting, do_command, now};
ghost use Rattle.gang_model.specs.Texts.CommandText.{command_of};
ghost use Rattle.command_lists.specs.Lists.{HasDone};
ghost use Rattle.debug_commands.specs.Views.{target_view};
ghost use Rattle.debug_session.specs.Sessions.{StandsFor};
ghost use Rattle.debug_traits.specs.Frames.{found_at};
ghost use Rattle.prompt_lines.specs.Words.{is_alone, setting_text};
ghost use Rattle.prompt_scenes.specs.Holding.{held};
ghost use Rattle.prompt_scenes.specs.Readings as readings;
ghost use Rattle.prompt_scenes.specs.SelectedFrame as selection;
ghost use Rattle.prompt_moves.specs.Following as following;
ghost use Rattle.value_digits.specs.declared.digits.Digits.TheVariants as in_digits;
ghost use Rattle.prompt_texts.specs.Shown.{Puts};
ghost use Rattle.prompt_values.specs.FormsPrinted.{IsWrittenOf};
ghost use Rattle.prompt_values.specs.Numbered.{kept};
ghost use Rattle.debug_prompt.specs.Printing as printing;
ghost use Rattle.debug_prompt.specs.Written as written;

use debug_commands::{Command, Target, read_command};
use debug_session::Session;
use debug_traits::{AnswerWriter, FramedMachine, RecordedMachine};
use frame_expressions::ExpressionMachine;
use prompt_lines::{HELD, is_alone, setting_line};
use prompt_moves::show_displays;
use prompt_scenes::{
    Holding, Scene, delete_of, find_part, is_shown, print_of, selected_depth, sets,
};
use prompt_texts::{Page, tell_refused, tell_unknown};
use prompt_values::{
    Printed, Values, do_and_show, print_answer, print_expression, print_instead, print_shown,
    set_and_show, show_form, show_formatted, value_instead,
};
use value_digits::Digits;

/// Prints a target, an expression or a numbered value, or sets a target where the line goes on with `=` and a value. Gives a value that was
/// printed and has no number yet.
pub(crate) fn print<M: ExpressionMachine, O: AnswerWriter + Drop>(
    text: &[u8],
    values: &Values,
    holding: &Holding,
    scene: Scene<'_>,
    session: &mut Session<M>,
    page: &mut Page<O>,
) -> Option<Printed>
    ensures done { (s : Setting) (d : Debugger) → StandsFor M.stands session.old s d
        → HasDone M.stands s (printing.printed_or_set s d (held holding.now) (readings.print_of (command_of text.now)) (command_of (setting_text text.now))) d session.new }
    ensures written { (s : Setting) (d : Debugger) → StandsFor M.stands session.old s d
        → written.WritesPrint (λ line. Puts line page.old.has_failed page.new.has_failed (O.written page.old.writer) (O.written page.new.writer)) (readings.print_of (command_of text.now)) (readings.sets (command_of (setting_text text.now))) text.now (kept values.now) result }
{
    match print_of(text) {
        Some(target) => print_named(target, text, holding, scene, session, page),
        None => set_or_print(text, values, holding, scene, session, page),
    }
}

/// Prints a target in the frame that is selected; where its name stands for no variable, what it is as an expression. Gives what was shown.
fn print_named<M: ExpressionMachine, O: AnswerWriter + Drop>(
    target: Target<'_>,
    text: &[u8],
    holding: &Holding,
    scene: Scene<'_>,
    session: &mut Session<M>,
    page: &mut Page<O>,
) -> Option<Printed>
    ensures done { (s : Setting) (d : Debugger) → StandsFor M.stands session.old s d
        → HasDone M.stands s (selection.in_top (held holding.now) (DoPrint (target_view target.entry) ∷ [])) d session.new }
    ensures written { (s : Setting) (d : Debugger) → StandsFor M.stands session.old s d
        → IsWrittenOf (λ line. Puts line page.old.has_failed page.new.has_failed (O.written page.old.writer) (O.written page.new.writer)) (Some (target_view target.entry)) (drop 5 text.now) in_digits.Decimal result }
{
    match value_instead(target.name, text, holding, scene, session) {
        Some(value) => {
            print_silently(target, holding, session);
            print_instead(value, text, page)
        }
        None => {
            let (_, printed) = print_target(target, holding, scene, session, page);
            printed
        }
    }
}

/// Prints a target in the top frame, where that is selected, and tells nothing of it.
fn print_silently<M: RecordedMachine>(
    target: Target<'_>,
    holding: &Holding,
    session: &mut Session<M>,
)
    ensures { (s : Setting) (d : Debugger) → StandsFor M.stands session.old s d
        → HasDone M.stands s (selection.in_top (held holding.now) (DoPrint (target_view target.entry) ∷ [])) d session.new }
{
    if holding.is_top() {
        let _ = session.do_command(Command::Print(target));
    }
}

/// Sets what a command line sets, or prints what it is as an expression or a numbered value.
fn set_or_print<M: ExpressionMachine, O: AnswerWriter + Drop>(
    text: &[u8],
    values: &Values,
    holding: &Holding,
    scene: Scene<'_>,
    session: &mut Session<M>,
    page: &mut Page<O>,
) -> Option<Printed>
    ensures done { (s : Setting) (d : Debugger) → StandsFor M.stands session.old s d
        → HasDone M.stands s (printing.set_by s d (held holding.now) (command_of (setting_text text.now))) d session.new }
    ensures written { written.WritesUnlessSet (readings.sets (command_of (setting_text text.now))) (λ line. Puts line page.old.has_failed page.new.has_failed (O.written page.old.writer) (O.written page.new.writer)) text.now (kept values.now) result }
{
    if sets(text) {
        set_spelled(setting_line(text).as_slice(), holding, scene, session, page);
        None
    } else {
        print_expression(text, values, holding, scene, session, page)
    }
}

/// Prints a target in the frame that is selected. Says whether it is shown, and gives what was.
fn print_target<M: FramedMachine, O: AnswerWriter + Drop>(
    target: Target<'_>,
    holding: &Holding,
    scene: Scene<'_>,
    session: &mut Session<M>,
    page: &mut Page<O>,
) -> (bool, Option<Printed>)
    ensures done { (s : Setting) (d : Debugger) → StandsFor M.stands session.old s d
        → HasDone M.stands s (selection.in_top (held holding.now) (DoPrint (target_view target.entry) ∷ [])) d session.new
        × (result.0 ≡ selection.shows s d (held holding.now) (target_view target.entry)) }
    ensures written { (s : Setting) (d : Debugger) → StandsFor M.stands session.old s d
        → written.WritesTarget (λ line. Puts line page.old.has_failed page.new.has_failed (O.written page.old.writer) (O.written page.new.writer)) (target_view target.entry) result.1 }
{
    if holding.is_top() {
        print_here(target, scene, session, page)
    } else {
        let depth = selected_depth(holding, session);
        print_at(target, depth, scene, session, page)
    }
}

/// Prints a target in the top frame. Says whether it is shown, and gives what was.
fn print_here<M: FramedMachine, O: AnswerWriter + Drop>(
    target: Target<'_>,
    scene: Scene<'_>,
    session: &mut Session<M>,
    page: &mut Page<O>,
) -> (bool, Option<Printed>)
    ensures done { (s : Setting) (d : Debugger) → StandsFor M.stands session.old s d
        → HasDone M.stands s (DoPrint (target_view target.entry) ∷ []) d session.new
        × (result.0 ≡ readings.is_shown (do_command s (DoPrint (target_view target.entry)) d).answer) }
    ensures written { (s : Setting) (d : Debugger) → StandsFor M.stands session.old s d
        → written.WritesTarget (λ line. Puts line page.old.has_failed page.new.has_failed (O.written page.old.writer) (O.written page.new.writer)) (target_view target.entry) result.1 }
{
    let answer = session.do_command(Command::Print(target));
    let printed = print_answer(&answer, scene, session, page);
    (is_shown(&answer), printed)
}

/// Shows a target of the frame at a depth. Says whether it is shown, and gives what was.
fn print_at<M: FramedMachine, O: AnswerWriter + Drop>(
    target: Target<'_>,
    depth: usize,
    scene: Scene<'_>,
    session: &Session<M>,
    page: &mut Page<O>,
) -> (bool, Option<Printed>)
    ensures shown { (s : Setting) (d : Debugger) → StandsFor M.stands session.now s d
        → result.0 ≡ selection.can_show s d depth (target_view target.entry) (found_at s.program depth (now s d) (target_view target.entry).name) }
    ensures written { written.WritesTarget (λ line. Puts line page.old.has_failed page.new.has_failed (O.written page.old.writer) (O.written page.new.writer)) (target_view target.entry) result.1 }
{
    match find_part(target, depth, session.machine()) {
        Ok(shown) => {
            let machine = session.machine();
            let digits = Digits::Decimal;
            let printed = print_shown(target, digits, shown, depth, scene, machine, page);
            (true, printed)
        }
        Err(refusal) => {
            tell_refused(refusal, scene.line, page);
            (false, None)
        }
    }
}

/// Sets what a command line spells.
pub(crate) fn set_spelled<M: FramedMachine, O: AnswerWriter + Drop>(
    text: &[u8],
    holding: &Holding,
    scene: Scene<'_>,
    session: &mut Session<M>,
    page: &mut Page<O>,
)
    ensures { (s : Setting) (d : Debugger) → StandsFor M.stands session.old s d
        → HasDone M.stands s (printing.set_by s d (held holding.now) (command_of text.now)) d session.new }
{
    match read_command(text) {
        Some(Command::Set { target, value }) => {
            set_target(target, value, holding, scene, session, page);
        }
        _ => tell_unknown(scene.line, page),
    }
}

/// Sets a target in the frame that is selected, and shows what it has there then.
fn set_target<M: FramedMachine, O: AnswerWriter + Drop>(
    target: Target<'_>,
    value: i128,
    holding: &Holding,
    scene: Scene<'_>,
    session: &mut Session<M>,
    page: &mut Page<O>,
)
    ensures { (s : Setting) (d : Debugger) → StandsFor M.stands session.old s d
        → HasDone M.stands s (printing.set_selected s d (held holding.now) (target_view target.entry) value) d session.new }
{
    if holding.is_top() {
        do_and_show(Command::Set { target, value }, scene, session, page);
    } else {
        let depth = selected_depth(holding, session);
        set_and_show(target, value, depth, scene, session, page);
    }
}

/// Prints all that is displayed, or displays a target from now on.
pub(crate) fn display<M: ExpressionMachine, O: AnswerWriter + Drop>(
    text: &[u8],
    holding: &mut Holding,
    scene: Scene<'_>,
    session: &mut Session<M>,
    page: &mut Page<O>,
)
    ensures { (s : Setting) (d : Debugger) → StandsFor M.stands session.old s d
        → HasDone M.stands s (selection.in_top (held holding.old) (if is_alone text.now then following.shown (held holding.old).displays else following.printed (readings.print_of (command_of text.now)))) d session.new
        × (held holding.new ≡ (if is_alone text.now then held holding.old else printing.after_print s d (held holding.old) text.now (readings.print_of (command_of text.now)))) }
{
    if is_alone(text) {
        display_all(holding, scene, session, page);
    } else {
        display_target(text, holding, scene, session, page);
    }
}

/// Prints all that is displayed, in the frame that is selected.
fn display_all<M: ExpressionMachine, O: AnswerWriter + Drop>(
    holding: &Holding,
    scene: Scene<'_>,
    session: &mut Session<M>,
    page: &mut Page<O>,
)
    ensures { (s : Setting) (d : Debugger) → StandsFor M.stands session.old s d
        → HasDone M.stands s (selection.in_top (held holding.now) (following.shown (held holding.now).displays)) d session.new }
{
    if holding.displays().is_empty() {
        page.put(b"nothing is displayed\n");
    }
    if holding.is_top() {
        show_displays(holding.displays(), scene, session, page);
    } else {
        let depth = selected_depth(holding, session);
        display_all_at(holding, depth, scene, session, page);
    }
}

/// Shows all that is displayed, of the frame at a depth. What is not in scope there is left out.
fn display_all_at<M: ExpressionMachine, O: AnswerWriter + Drop>(
    holding: &Holding,
    depth: usize,
    scene: Scene<'_>,
    session: &Session<M>,
    page: &mut Page<O>,
) {
    for displayed in holding.displays() {
        show_form(displayed, depth, scene, session.machine(), page);
    }
}

/// Prints what a command line names, and displays it from now on.
fn display_target<M: ExpressionMachine, O: AnswerWriter + Drop>(
    text: &[u8],
    holding: &mut Holding,
    scene: Scene<'_>,
    session: &mut Session<M>,
    page: &mut Page<O>,
)
    ensures { (s : Setting) (d : Debugger) → StandsFor M.stands session.old s d
        → HasDone M.stands s (selection.in_top (held holding.old) (following.printed (readings.print_of (command_of text.now)))) d session.new
        × (held holding.new ≡ printing.after_print s d (held holding.old) text.now (readings.print_of (command_of text.now))) }
{
    if print_new(text, holding, scene, session, page) {
        let displayed = holding.displays().len();
        holding.add_display(text);
        if holding.displays().len() == displayed {
            page.put(b"it is not displayed from now on: 16 lines are; `undisplay N` makes room\n");
        }
    }
}

/// Prints a target, an expression or what is in other digits. Says whether it is to be displayed: a target where it is shown, and anything
/// else where all of it is held.
fn print_new<M: ExpressionMachine, O: AnswerWriter + Drop>(
    text: &[u8],
    holding: &Holding,
    scene: Scene<'_>,
    session: &mut Session<M>,
    page: &mut Page<O>,
) -> bool
    ensures { (s : Setting) (d : Debugger) → StandsFor M.stands session.old s d
        → HasDone M.stands s (selection.in_top (held holding.now) (following.printed (readings.print_of (command_of text.now)))) d session.new
        × (result ≡ printing.is_displayed s d (held holding.now) text.now (readings.print_of (command_of text.now))) }
{
    if let Some(target) = print_of(text) {
        let (is_shown, _) = print_target(target, holding, scene, session, page);
        is_shown
    } else {
        show_formatted(text, holding, scene, session, page);
        text.len() < HELD
    }
}

/// Whether something is displayed by a number.
fn is_displayed(number: Option<u32>, holding: &Holding) -> bool {
    holding
        .displays()
        .iter()
        .any(|displayed| Some(displayed.number) == number)
}

/// Writes what is displayed no more, or that nothing was by a number.
fn tell_undisplayed<O: AnswerWriter + Drop>(
    number: Option<u32>,
    was_there: bool,
    page: &mut Page<O>,
) {
    match number {
        None => page.put(b"nothing is displayed any more\n"),
        Some(number) if was_there => {
            page.put_number(i128::from(number));
            page.put(b" is displayed no more\n");
        }
        Some(number) => {
            page.put(b"nothing is displayed by number ");
            page.put_number(i128::from(number));
            page.put(b"\n");
        }
    }
}

/// Displays what has a number no more, or nothing.
pub(crate) fn undisplay<O: AnswerWriter + Drop>(
    text: &[u8],
    holding: &mut Holding,
    scene: Scene<'_>,
    page: &mut Page<O>,
)
    ensures { held holding.new ≡ printing.after_delete (held holding.old) (readings.delete_of (command_of text.now)) }
{
    if let Some(number) = delete_of(text) {
        let was_there = is_displayed(number, holding);
        holding.remove_display(number);
        tell_undisplayed(number, was_there, page);
    } else {
        tell_unknown(scene.line, page);
    }
}
