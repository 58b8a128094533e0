//! Expressions, in the frame that is selected.
ghost use Rattle.std.specs.Prelude.{◌≡◌, ◌==◌, None, drop, false, not, true};
ghost use Rattle.gang_model.specs.Debugger.Debugger.{Debugger, Setting, now};
ghost use Rattle.debug_session.specs.Sessions.{StandsFor};
ghost use Rattle.debug_traits.specs.Frames.{found_at};
ghost use Rattle.prompt_lines.specs.Parts.{count_place};
ghost use Rattle.prompt_scenes.specs.Holding.{held};
ghost use Rattle.prompt_scenes.specs.SelectedFrame.{depth_of};
ghost use Rattle.value_digits.specs.declared.digits.Digits.TheVariants as in_digits;
ghost use Rattle.prompt_texts.specs.Shown.{Puts};
ghost use Rattle.prompt_values.specs.Instead.{IsInstead, IsValueOrNone};
ghost use Rattle.prompt_values.specs.Numbered.{IsExpressionOrNone, kept, value_name};
ghost use Rattle.prompt_values.specs.Printed as spec;

use crate::numbered::{Printed, Values, value_name};
use crate::slices::{print_slice, slice_of, tell_no_slice};
use debug_session::Session;
use debug_traits::{AnswerWriter, FramedMachine};
use frame_expressions::ExpressionMachine;
use frame_values::{ExpressionValue, value_of_expression};
use prompt_lines::{HELD, count_place, is_alone, stripped};
use prompt_scenes::{Holding, Scene, selected_depth};
use prompt_texts::{Page, Spelled, show_expression, tell_no_value, tell_unspelled};
use value_digits::Digits;

/// How many bytes the word has that a command line begins with.
const WORD: usize = 5;

/// The expression of a command line that begins with `print`.
fn expression_text(text: &[u8]) -> &[u8]
    ensures { result.now ≡ drop 5 text.now }
{
    text.get(WORD..).unwrap_or(&[])
}

/// The value that a name has as an expression, where it stands for no variable.
pub fn value_instead<M: ExpressionMachine>(
    name: &[u8],
    text: &[u8],
    holding: &Holding,
    scene: Scene<'_>,
    session: &Session<M>,
) -> Option<ExpressionValue>
    ensures { (s : Setting) (d : Debugger) → StandsFor M.stands session.now s d
        → IsInstead (found_at s.program (depth_of s d (held holding.now)) (now s d) name.now) (drop 5 text.now) s d (depth_of s d (held holding.now)) result }
{
    let depth = selected_depth(holding, session);
    instead_at(name, expression_text(text), depth, scene, session.machine())
}

/// The value that a name has as an expression in the frame at a depth, where it stands for no variable there.
fn instead_at<M: ExpressionMachine>(
    name: &[u8],
    written: &[u8],
    depth: usize,
    scene: Scene<'_>,
    machine: &M,
) -> Option<ExpressionValue>
    ensures { (s : Setting) (d : Debugger) → M.stands machine.now s d
        → IsInstead (found_at s.program depth (now s d) name.now) written.now s d depth result }
{
    match machine.find_at(depth, name) {
        Some(_) => None,
        None => value_or_none(written, depth, scene, machine),
    }
}

/// The value of an expression in the frame at a depth, if it has one.
fn value_or_none<M: ExpressionMachine>(
    written: &[u8],
    depth: usize,
    scene: Scene<'_>,
    machine: &M,
) -> Option<ExpressionValue>
    ensures { (s : Setting) (d : Debugger) → M.stands machine.now s d → IsValueOrNone written.now s d depth result }
{
    match value_of_expression(scene.alloc, written, depth, machine) {
        Ok(value) => Some(value),
        Err(_) => None,
    }
}

/// Shows the value that a command line has as an expression, and gives it, where it has a word for each lane of a gang.
pub fn print_instead<O: AnswerWriter + Drop>(
    value: ExpressionValue,
    text: &[u8],
    page: &mut Page<O>,
) -> Option<Printed>
    ensures written { spec.IsWritten (λ line. Puts line page.old.has_failed page.new.has_failed (O.written page.old.writer) (O.written page.new.writer)) (drop 5 text.now) in_digits.Decimal result }
    ensures value { IsExpressionOrNone value result }
{
    put_value(
        stripped(expression_text(text)),
        Digits::Decimal,
        value,
        page,
    )
}

/// Shows the value of the expression of a command line in the frame that is selected, or tells why it has none; a numbered value as it was
/// printed. Gives a value that was shown and has no number yet. Of a line that is too long, or is a word alone, nothing is shown.
pub fn print_expression<M: ExpressionMachine, O: AnswerWriter + Drop>(
    text: &[u8],
    values: &Values,
    holding: &Holding,
    scene: Scene<'_>,
    session: &Session<M>,
    page: &mut Page<O>,
) -> Option<Printed>
    ensures written { spec.names_something text.now ≡ true
        → spec.WritesNamed (λ line. Puts line page.old.has_failed page.new.has_failed (O.written page.old.writer) (O.written page.new.writer)) (value_name (drop 5 text.now)) (drop 5 text.now) in_digits.Decimal (kept values.now) result }
    ensures value { (s : Setting) (d : Debugger) → StandsFor M.stands session.now s d → spec.names_something text.now ≡ true
        → spec.PrintsNamed (value_name (drop 5 text.now)) (drop 5 text.now) s d (depth_of s d (held holding.now)) result }
    ensures none { spec.names_something text.now ≡ false → result ≡ None }
{
    if names_something(text) {
        let written = expression_text(text);
        print_text(
            written,
            Digits::Decimal,
            values,
            holding,
            scene,
            session,
            page,
        )
    } else {
        tell_unspelled(text, scene.line, page);
        None
    }
}

/// Whether all of a command line is held, and something stands behind its first word.
pub(crate) fn names_something(text: &[u8]) -> bool
    ensures { result ≡ spec.names_something text.now }
{
    text.len() < HELD && !is_alone(text)
}

/// Shows what is written in digits, in the frame that is selected: a numbered value, elements, or the value of an expression; or tells why
/// there is none. Gives a value that was shown and has no number yet.
fn print_text<M: ExpressionMachine, O: AnswerWriter + Drop>(
    written: &[u8],
    digits: Digits,
    values: &Values,
    holding: &Holding,
    scene: Scene<'_>,
    session: &Session<M>,
    page: &mut Page<O>,
) -> Option<Printed>
    ensures written { spec.WritesNamed (λ line. Puts line page.old.has_failed page.new.has_failed (O.written page.old.writer) (O.written page.new.writer)) (value_name written.now) written.now digits (kept values.now) result }
    ensures value { (s : Setting) (d : Debugger) → StandsFor M.stands session.now s d
        → spec.PrintsNamed (value_name written.now) written.now s d (depth_of s d (held holding.now)) result }
{
    match value_name(written) {
        Some(name) => {
            values.show(name, digits, page);
            None
        }
        None => print_written(written, digits, holding, scene, session, page),
    }
}

/// Shows the elements or the value of an expression that are written, in the frame that is selected, or tells why there are none. Gives
/// what was shown.
pub(crate) fn print_written<M: ExpressionMachine, O: AnswerWriter + Drop>(
    written: &[u8],
    digits: Digits,
    holding: &Holding,
    scene: Scene<'_>,
    session: &Session<M>,
    page: &mut Page<O>,
) -> Option<Printed>
    ensures written { spec.IsWritten (λ line. Puts line page.old.has_failed page.new.has_failed (O.written page.old.writer) (O.written page.new.writer)) written.now digits result }
    ensures value { (s : Setting) (d : Debugger) → StandsFor M.stands session.now s d → spec.Prints written.now s d (depth_of s d (held holding.now)) result }
{
    let depth = selected_depth(holding, session);
    let machine = session.machine();
    if has_count(written) {
        print_part(written, digits, depth, scene, machine, page)
    } else {
        print_value(written, digits, depth, scene, machine, page)
    }
}

/// Whether a text has `@`.
pub(crate) fn has_count(text: &[u8]) -> bool
    ensures { result ≡ not (count_place text.now == 0) }
{
    count_place(text) != 0
}

/// Shows the elements that a text with `@` stands for, in the frame at a depth, or tells why there are none. Gives what was shown.
fn print_part<M: ExpressionMachine, O: AnswerWriter + Drop>(
    written: &[u8],
    digits: Digits,
    depth: usize,
    scene: Scene<'_>,
    machine: &M,
    page: &mut Page<O>,
) -> Option<Printed>
    ensures { spec.IsWritten (λ line. Puts line page.old.has_failed page.new.has_failed (O.written page.old.writer) (O.written page.new.writer)) written.now digits result }
{
    match slice_of(written, depth, scene, machine) {
        Ok(slice) => print_slice(
            stripped(written),
            &slice,
            digits,
            depth,
            scene,
            machine,
            page,
        ),
        Err(why) => {
            tell_no_slice(&why, page);
            None
        }
    }
}

/// Shows the value of an expression in the frame at a depth, or tells why it has none. Gives what was shown.
fn print_value<M: ExpressionMachine, O: AnswerWriter + Drop>(
    written: &[u8],
    digits: Digits,
    depth: usize,
    scene: Scene<'_>,
    machine: &M,
    page: &mut Page<O>,
) -> Option<Printed>
    ensures written { spec.IsWritten (λ line. Puts line page.old.has_failed page.new.has_failed (O.written page.old.writer) (O.written page.new.writer)) written.now digits result }
    ensures value { (s : Setting) (d : Debugger) → M.stands machine.now s d → spec.IsPrintedOf written.now s d depth result }
{
    match value_of_expression(scene.alloc, written, depth, machine) {
        Ok(value) => put_value(stripped(written), digits, value, page),
        Err(why) => {
            tell_no_value(
                &why,
                Spelled {
                    line: scene.line,
                    text: written,
                },
                page,
            );
            None
        }
    }
}

/// Shows the value of an expression behind what was typed, and gives it, where it has a word for each lane of a gang.
pub(crate) fn put_value<O: AnswerWriter + Drop>(
    typed: &[u8],
    digits: Digits,
    value: ExpressionValue,
    page: &mut Page<O>,
) -> Option<Printed>
    ensures written { spec.IsLineOf (λ line. Puts line page.old.has_failed page.new.has_failed (O.written page.old.writer) (O.written page.new.writer)) typed.now digits result }
    ensures value { IsExpressionOrNone value result }
{
    show_expression(typed, digits, &value, page);
    Printed::of_expression(value)
}
