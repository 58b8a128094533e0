//! What is told of a value that was set in another frame than the top one.
ghost use Rattle.std.specs.Prelude.{◌≡◌, IfOk, string_bytes};
ghost use Rattle.gang_model.specs.Debugger.Debugger as model;
ghost use Rattle.gang_model.specs.Debugger.Debugger.{Debugger, Setting, depth, now};
ghost use Rattle.gang_model.specs.Texts.CommandText.{command_of};
ghost use Rattle.gang_model.specs.Texts.Text.{index_text, text};
ghost use Rattle.debug_answers.specs.Meanings.{AreStops};
ghost use Rattle.debug_commands.specs.TargetViews.{target_option};
ghost use Rattle.debug_commands.specs.Views.{target_view};
ghost use Rattle.adapter_replies.specs.Completions.{frame_or};
ghost use Rattle.adapter_replies.specs.Forms.{form_if};
ghost use Rattle.adapter_replies.specs.References.{depth_in, place_of};
ghost use Rattle.adapter_replies.specs.Targets as targets;
ghost use Rattle.adapter_replies.specs.Told as spec;
ghost use Rattle.adapter_replies.specs.Told.{IsGivenTold, IsLineOf, IsNamedTold, IsSetLineTold, IsSetThereTold, IsSetTold, MeansLast, named_text, shown_values};

use crate::asking::asking_of;
use crate::evaluating::{Line, set};
use crate::places::{depth_in, depth_of};
use crate::replies::frame_or;
use crate::targets::{found, named};
use adapter_requests::{Context, Reply};
use debug_answers::{Answer, NumberedStop};
use debug_commands::{Command, Target, read_command};
use frame_expressions::ExpressionMachine;
use std::alloc::{AllocError, Global};

/// The value that a variable of those of a reference was given in its frame, or why it was not.
pub(crate) fn set_variable<M: ExpressionMachine>(
    alloc: Global,
    machine: &M,
    stops: &[NumberedStop],
    reference: u64,
    name: &str,
    is_hexadecimal: bool,
    last: Option<Answer<'_>>,
) -> Result<Reply, AllocError>
    ensures stands { (s : Setting) (d : Debugger) → M.stands machine.now s d
        → IfOk result (IsGivenTold s d last.entry (depth_in (depth (now s d)) (place_of reference)) name.now is_hexadecimal) }
    ensures answered { (s : Setting) (at d : Debugger) (meant : model.Answer) → M.stands machine.now s at → at.events ≡ d.events → AreStops s stops.now d.stops
        → MeansLast s d last.entry meant
        → IfOk result (λ told. IsSetTold last.entry (text s meant d) (shown_values (now s d) meant (form_if is_hexadecimal)) told) }
{
    let depth = depth_in(depth_of(machine), reference);
    set_told(alloc, machine, stops, depth, name, is_hexadecimal, last)
}

/// The value that what an expression names was given in the frame of a number, or why it was not.
pub(crate) fn set_expression<M: ExpressionMachine>(
    alloc: Global,
    machine: &M,
    stops: &[NumberedStop],
    frame: Option<u64>,
    expression: &str,
    is_hexadecimal: bool,
    last: Option<Answer<'_>>,
) -> Result<Reply, AllocError>
    ensures stands { (s : Setting) (d : Debugger) → M.stands machine.now s d
        → IfOk result (IsGivenTold s d last.entry (frame_or (depth (now s d)) frame) expression.now is_hexadecimal) }
    ensures answered { (s : Setting) (at d : Debugger) (meant : model.Answer) → M.stands machine.now s at → at.events ≡ d.events → AreStops s stops.now d.stops
        → MeansLast s d last.entry meant
        → IfOk result (λ told. IsSetTold last.entry (text s meant d) (shown_values (now s d) meant (form_if is_hexadecimal)) told) }
{
    let depth = frame_or(depth_of(machine), frame);
    set_told(
        alloc,
        machine,
        stops,
        depth,
        expression,
        is_hexadecimal,
        last,
    )
}

/// The value that what a name finds was given in the frame at a depth, or why it was not.
fn set_told<M: ExpressionMachine>(
    alloc: Global,
    machine: &M,
    stops: &[NumberedStop],
    depth: usize,
    name: &str,
    is_hexadecimal: bool,
    last: Option<Answer<'_>>,
) -> Result<Reply, AllocError>
    ensures stands { (s : Setting) (d : Debugger) → M.stands machine.now s d → IfOk result (IsGivenTold s d last.entry depth name.now is_hexadecimal) }
    ensures answered { (s : Setting) (at d : Debugger) (meant : model.Answer) → M.stands machine.now s at → at.events ≡ d.events → AreStops s stops.now d.stops
        → MeansLast s d last.entry meant
        → IfOk result (λ told. IsSetTold last.entry (text s meant d) (shown_values (now s d) meant (form_if is_hexadecimal)) told) }
{
    match last {
        Some(Answer::Silent) => set_there(alloc, machine, depth, name, is_hexadecimal),
        other => set(alloc, machine, stops, is_hexadecimal, other),
    }
}

/// The values of a name that was set in the frame at a depth.
fn set_there<M: ExpressionMachine>(
    alloc: Global,
    machine: &M,
    depth: usize,
    name: &str,
    is_hexadecimal: bool,
) -> Result<Reply, AllocError>
    ensures { (s : Setting) (d : Debugger) → M.stands machine.now s d → IfOk result (IsSetThereTold s d depth name.now is_hexadecimal) }
{
    let asking = asking_of(Context::Watch, name, is_hexadecimal);
    let shown = found(alloc, machine, depth, asking)?;
    Ok(as_set(shown))
}

/// The value that a reply tells, as one that was set, which opens the same; any other reply as it is.
fn as_set(reply: Reply) -> Reply
    ensures { result ≡ spec.as_set reply }
{
    match reply {
        Reply::Evaluated {
            text,
            reason: _,
            reference,
        } => Reply::Set { text, reference },
        other => other,
    }
}

/// The target that a line of the console has set in another frame than the top one: the answer says nothing of it.
pub(crate) fn set_unsaid<'a>(answer: &Answer<'_>, line: Line<'a>) -> Option<Target<'a>>
    ensures { target_option result ≡ spec.set_unsaid answer.now line.entry.context line.entry.text.now }
{
    match (answer, line.context) {
        (Answer::Silent, Context::Console) => set_by(line.text.as_bytes()),
        _ => None,
    }
}

/// The target of a line that sets a value.
fn set_by(line: &[u8]) -> Option<Target<'_>>
    ensures { target_option result ≡ targets.set_by (command_of line.now) }
{
    match read_command(line) {
        Some(Command::Set { target, .. }) => Some(target),
        _ => None,
    }
}

/// The values of a target that a line of the console has set in the frame at a depth, with its name where no hexadecimal numbers are asked
/// for.
pub(crate) fn set_line<M: ExpressionMachine>(
    alloc: Global,
    machine: &M,
    depth: usize,
    line: Line<'_>,
    target: Target<'_>,
) -> Result<Reply, AllocError>
    ensures { (s : Setting) (d : Debugger) → M.stands machine.now s d
        → IfOk result (IsSetLineTold s d depth line.entry.text.now line.entry.is_hexadecimal (target_view target.entry)) }
{
    let asking = asking_of(Context::Watch, line.text, line.is_hexadecimal);
    let shown = named(alloc, machine, depth, asking, Some(target))?;
    let told = line_of(alloc, line.is_hexadecimal, target, shown)?;
    Ok(told)
}

/// The values that a reply tells, alone or with the name of their target.
fn line_of(
    alloc: Global,
    is_alone: bool,
    target: Target<'_>,
    shown: Reply,
) -> Result<Reply, AllocError>
    ensures { IfOk result (IsLineOf is_alone (target_view target.entry) shown) }
{
    if is_alone {
        Ok(shown)
    } else {
        with_name(alloc, target, shown)
    }
}

/// The values that a reply tells, with the name of their target; any other reply as it is.
fn with_name(alloc: Global, target: Target<'_>, shown: Reply) -> Result<Reply, AllocError>
    ensures { IfOk result (IsNamedTold (target_view target.entry) shown) }
{
    match shown {
        Reply::Evaluated {
            text,
            reason,
            reference,
        } => Ok(Reply::Evaluated {
            text: named_text(alloc, target, text.as_str())?,
            reason,
            reference,
        }),
        other => Ok(other),
    }
}

/// A target, ` = ` and its values.
fn named_text(alloc: Global, target: Target<'_>, values: &str) -> Result<String, AllocError>
    ensures { IfOk result (λ text. string_bytes text ≡ named_text (target_view target.entry) values.now) }
{
    let mut text = String::from_utf8_lossy(alloc, target.name)?;
    text.push_str(index_text(alloc, target.at)?.as_str())?;
    text.push_str(" = ")?;
    text.push_str(values)?;
    Ok(text)
}

/// The index of a lane or an element, in brackets, if there is one.
fn index_text(alloc: Global, at: Option<u32>) -> Result<String, AllocError>
    ensures { IfOk result (λ text. string_bytes text ≡ index_text at) }
{
    match at {
        None => Ok(String::new(alloc)),
        Some(index) => format!(in alloc; "[{index}]"),
    }
}
