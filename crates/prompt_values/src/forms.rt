//! What is shown in other digits, and expressions that are displayed. The debugger does nothing for them.
ghost use Rattle.std.specs.Prelude.{◌≡◌, IfOk, Some, codes};
ghost use Rattle.gang_model.specs.Texts.Spellings as spelling;
ghost use Rattle.debug_commands.specs.Views.{target_view};
ghost use Rattle.prompt_lines.specs.Readings.{bytes_option};
ghost use Rattle.prompt_texts.specs.Shown.{Puts};
ghost use Rattle.prompt_values.specs.Forms as spec;
ghost use Rattle.prompt_values.specs.FormsPrinted as formed;
ghost use Rattle.prompt_values.specs.Numbered.{kept};

use crate::expressions::{has_count, names_something, print_written, put_value};
use crate::numbered::{Printed, Values, value_name};
use crate::slices::{print_slice, slice_of};
use crate::values::{print_shown, show_target};
use debug_answers::Refusal;
use debug_commands::Target;
use debug_session::Session;
use debug_traits::AnswerWriter;
use frame_expressions::ExpressionMachine;
use frame_values::{NoValue, value_of_expression};
use prompt_lines::{printing_line, stripped};
use prompt_scenes::{Displayed, Holding, Scene, depth, find_part, print_of, selected_depth};
use prompt_texts::{
    Page, show_expression, show_faulty, tell_refused, tell_refused_here, tell_unspelled,
};
use value_digits::{Digits, digits_of};

/// The word that a command line begins with which prints.
const PRINT: &[u8] = b"print";

/// What a command line that prints names: its digits, and a target or an expression.
#[derive(Clone, Copy)]
pub struct Form<'a> {
    pub digits: Digits,
    pub text: &'a [u8],
}

/// What a command line names that begins with `print`, or with `print/` and a letter.
pub fn form_of(text: &[u8]) -> Option<Form<'_>>
    ensures { spec.form_option result ≡ spec.form_of text.now }
{
    match behind_print(text) {
        Some(rest) => form_behind(rest),
        None => None,
    }
}

/// What follows the word that prints, in a text that begins with it.
fn behind_print(text: &[u8]) -> Option<&[u8]>
    ensures { bytes_option result ≡ spelling.behind (codes "print") text.now }
{
    text.strip_prefix(PRINT)
}

/// What is named behind the word that prints.
fn form_behind(text: &[u8]) -> Option<Form<'_>>
    ensures { spec.form_option result ≡ spec.form_behind text.now }
{
    match text {
        [b'/', letter, rest @ ..] => form_in(digits_of(*letter), rest),
        _ => form_in(Some(Digits::Decimal), text),
    }
}

/// A text in digits, if there are any.
fn form_in(digits: Option<Digits>, text: &[u8]) -> Option<Form<'_>>
    ensures { spec.form_option result ≡ spec.form_in digits text.now }
{
    match digits {
        Some(digits) => Some(Form { digits, text }),
        None => None,
    }
}

/// Shows a target, an expression or a numbered value in the digits that a command line names, in the frame that is selected. Gives a value
/// that was shown and has no number yet. Of a line that is too long, or is a word alone, nothing is shown.
pub fn print_formatted<M: ExpressionMachine, O: AnswerWriter + Drop>(
    text: &[u8],
    values: &Values,
    holding: &Holding,
    scene: Scene<'_>,
    session: &Session<M>,
    page: &mut Page<O>,
) -> Option<Printed>
    ensures { formed.WritesForm (λ line. Puts line page.old.has_failed page.new.has_failed (O.written page.old.writer) (O.written page.new.writer)) (formed.form_named text.now) (kept values.now) result }
{
    match form_named(text) {
        Some(form) => print_form(form, values, holding, scene, session, page),
        None => {
            tell_unspelled(text, scene.line, page);
            None
        }
    }
}

/// What a command line names, where something stands behind its first word.
fn form_named(text: &[u8]) -> Option<Form<'_>>
    ensures { spec.form_option result ≡ formed.form_named text.now }
{
    if names_something(text) {
        form_of(text)
    } else {
        None
    }
}

/// Shows a numbered value, a target or an expression in digits, in the frame that is selected. Gives a value that was shown and has no
/// number yet.
fn print_form<M: ExpressionMachine, O: AnswerWriter + Drop>(
    form: Form<'_>,
    values: &Values,
    holding: &Holding,
    scene: Scene<'_>,
    session: &Session<M>,
    page: &mut Page<O>,
) -> Option<Printed>
    ensures { formed.WritesForm (λ line. Puts line page.old.has_failed page.new.has_failed (O.written page.old.writer) (O.written page.new.writer)) (Some (spec.form_view form.entry)) (kept values.now) result }
{
    match value_name(form.text) {
        Some(name) => {
            values.show(name, form.digits, page);
            None
        }
        None => print_named_form(form, holding, scene, session, page),
    }
}

/// Shows a target or an expression in the digits that a command line names, in the frame that is selected.
pub fn show_formatted<M: ExpressionMachine, O: AnswerWriter + Drop>(
    text: &[u8],
    holding: &Holding,
    scene: Scene<'_>,
    session: &Session<M>,
    page: &mut Page<O>,
) {
    match form_named(text) {
        Some(form) => {
            let _ = print_named_form(form, holding, scene, session, page);
        }
        None => tell_unspelled(text, scene.line, page),
    }
}

/// Shows a target or an expression in the frame that is selected, or tells why it is not shown. Gives what was shown.
fn print_named_form<M: ExpressionMachine, O: AnswerWriter + Drop>(
    form: Form<'_>,
    holding: &Holding,
    scene: Scene<'_>,
    session: &Session<M>,
    page: &mut Page<O>,
) -> Option<Printed>
    ensures { formed.IsWrittenOf (λ line. Puts line page.old.has_failed page.new.has_failed (O.written page.old.writer) (O.written page.new.writer)) (formed.target_of form.entry.text.now) form.entry.text.now form.entry.digits result }
{
    let line = printing_line(form.text);
    match print_of(line.as_slice()) {
        Some(target) => print_target(form, target, holding, scene, session, page),
        None => print_written(form.text, form.digits, holding, scene, session, page),
    }
}

/// Shows a target in the frame that is selected, or tells why it is not shown. Gives what was shown.
fn print_target<M: ExpressionMachine, O: AnswerWriter + Drop>(
    form: Form<'_>,
    target: Target<'_>,
    holding: &Holding,
    scene: Scene<'_>,
    session: &Session<M>,
    page: &mut Page<O>,
) -> Option<Printed>
    ensures { formed.IsWrittenOf (λ line. Puts line page.old.has_failed page.new.has_failed (O.written page.old.writer) (O.written page.new.writer)) (Some (target_view target.entry)) form.entry.text.now form.entry.digits result }
{
    let depth = selected_depth(holding, session);
    match print_found(form, target, depth, scene, session.machine(), page) {
        Ok(printed) => printed,
        Err(refusal) => {
            tell_refused_form(refusal, holding, scene, session, page);
            None
        }
    }
}

/// Tells why a target is not shown in the frame that is selected.
fn tell_refused_form<M: ExpressionMachine, O: AnswerWriter + Drop>(
    refusal: Refusal,
    holding: &Holding,
    scene: Scene<'_>,
    session: &Session<M>,
    page: &mut Page<O>,
) {
    if holding.is_top() {
        tell_refused_here(refusal, scene.line, session.machine(), page);
    } else {
        tell_refused(refusal, scene.line, page);
    }
}

/// Shows a target of the frame at a depth; where its name stands for no variable, what it is as an expression. Gives what was shown.
fn print_found<M: ExpressionMachine, O: AnswerWriter + Drop>(
    form: Form<'_>,
    target: Target<'_>,
    depth: usize,
    scene: Scene<'_>,
    machine: &M,
    page: &mut Page<O>,
) -> Result<Option<Printed>, Refusal>
    ensures { IfOk result (λ value. formed.IsWrittenOf (λ line. Puts line page.old.has_failed page.new.has_failed (O.written page.old.writer) (O.written page.new.writer)) (Some (target_view target.entry)) form.entry.text.now form.entry.digits value) }
{
    match find_part(target, depth, machine) {
        Ok(shown) => Ok(print_shown(target, form.digits, shown, depth, scene, machine, page)),
        Err(refusal) => match value_of_expression(scene.alloc, form.text, depth, machine) {
            Ok(value) => Ok(put_value(stripped(form.text), form.digits, value, page)),
            Err(_) => Err(refusal),
        },
    }
}

/// Shows what is displayed by a number, of the top frame.
pub fn show_form_here<M: ExpressionMachine, O: AnswerWriter + Drop>(
    displayed: &Displayed,
    scene: Scene<'_>,
    session: &Session<M>,
    page: &mut Page<O>,
) {
    show_form(displayed, depth(session), scene, session.machine(), page);
}

/// Shows what is displayed by a number, of the frame at a depth. What is not in scope there is left out.
pub fn show_form<M: ExpressionMachine, O: AnswerWriter + Drop>(
    displayed: &Displayed,
    depth: usize,
    scene: Scene<'_>,
    machine: &M,
    page: &mut Page<O>,
) {
    let Some(form) = form_of(displayed.text.as_slice()) else {
        return;
    };
    let line = printing_line(form.text);
    if let Some(target) = print_of(line.as_slice()) {
        if let Ok(shown) = find_part(target, depth, machine) {
            put_number(displayed.number, page);
            show_target(target, form.digits, shown, depth, scene, machine, page);
            return;
        }
    }
    show_written(displayed.number, form, depth, scene, machine, page);
}

/// Shows the expression that is displayed by a number, of the frame at a depth, or its fault. Where it has no meaning it is left out.
fn show_written<M: ExpressionMachine, O: AnswerWriter + Drop>(
    number: u32,
    form: Form<'_>,
    depth: usize,
    scene: Scene<'_>,
    machine: &M,
    page: &mut Page<O>,
) {
    if has_count(form.text) {
        if let Ok(slice) = slice_of(form.text, depth, scene, machine) {
            put_number(number, page);
            let typed = stripped(form.text);
            let _ = print_slice(typed, &slice, form.digits, depth, scene, machine, page);
        }
        return;
    }
    match value_of_expression(scene.alloc, form.text, depth, machine) {
        Ok(value) => {
            put_number(number, page);
            show_expression(stripped(form.text), form.digits, &value, page);
        }
        Err(NoValue::Fault(fault)) => {
            put_number(number, page);
            show_faulty(stripped(form.text), fault, page);
        }
        Err(NoValue::NoFrame | NoValue::Refused(_)) => {}
    }
}

/// Writes the number of what is displayed.
fn put_number<O: AnswerWriter + Drop>(number: u32, page: &mut Page<O>) {
    page.put_number(i128::from(number));
    page.put(b": ");
}
