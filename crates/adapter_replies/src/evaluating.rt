//! What an expression, or a line of the console, is told.
ghost use Rattle.std.specs.Prelude.{◌≡◌, IfOk, None, Some, false, is_some, option_map, string_bytes};
ghost use Rattle.gang_model.specs.Debugger.Debugger as model;
ghost use Rattle.gang_model.specs.Debugger.Debugger.{Debugger, Setting, now};
ghost use Rattle.gang_model.specs.Texts.Text.{text};
ghost use Rattle.debug_answers.specs.Meanings.{AreStops, Means};
ghost use Rattle.debug_session.specs.Sessions.{is_refused};
ghost use Rattle.adapter_replies.specs.Asking.{asking_of, asking_view};
ghost use Rattle.adapter_replies.specs.Forms.{form_if};
ghost use Rattle.adapter_replies.specs.Opened.{unless_refused};
ghost use Rattle.adapter_replies.specs.References.{place_of};
ghost use Rattle.adapter_replies.specs.Told.{IsAnsweredIn, IsEvaluated, IsLineTold, IsLookedUp, IsOpenedBy, IsPrinted, IsSetTold, IsTextTold, MeansLast, has_values, is_expression, is_line, is_told_whole, is_unnamed, shown_option, shown_values, told_place};

use crate::asking::{Asking, asking_of};
use crate::expressions::shown_in;
use crate::forms::{Form, form_if};
use crate::opened::opened_by;
use crate::places::{depth_of, is_frame};
use crate::replies::{NO_FRAME, frame_or, refused};
use crate::setting::{set_line, set_unsaid};
use crate::stops::stop_of;
use crate::targets::found;
use crate::texts::{answer_text, top_text, unset_text};
use adapter_requests::{Context, Reply};
use debug_answers::{Answer, NumberedStop, Refusal};
use debug_commands::read_command;
use debug_traits::{FramedMachine, RecordedMachine};
use frame_expressions::ExpressionMachine;
use std::alloc::{AllocError, Global};

/// Why a variable is not set.
const NOT_SET: &str = "only a variable of a frame or of the file can be set";

/// A text that is evaluated: where it stands, and whether it asks for hexadecimal numbers.
#[derive(Clone, Copy)]
pub(crate) struct Line<'a> {
    pub(crate) context: Context,
    pub(crate) text: &'a str,
    pub(crate) is_hexadecimal: bool,
}

/// What a text asks for.
fn asking_in(line: Line<'_>) -> Asking<'_>
    ensures { asking_view result ≡ asking_of line.entry.context line.entry.text.now line.entry.is_hexadecimal }
{
    asking_of(line.context, line.text, line.is_hexadecimal)
}

/// What a text means in the frame of a number, where there is such a frame.
pub(crate) fn looked_up<M: ExpressionMachine>(
    alloc: Global,
    machine: &M,
    frame: Option<u64>,
    line: Line<'_>,
) -> Result<Reply, AllocError>
    ensures { (s : Setting) (d : Debugger) → M.stands machine.now s d → IfOk result (IsLookedUp s d None frame line.entry.context line.entry.text.now line.entry.is_hexadecimal) }
{
    let Some(frame) = frame else {
        return Ok(Reply::Done);
    };
    let depth = frame as usize;
    if !is_frame(depth_of(machine), depth) {
        return refused(alloc, NO_FRAME);
    }
    found(alloc, machine, depth, asking_in(line))
}

/// The value that a variable was given in the top frame, or why it was not.
pub(crate) fn set<M: FramedMachine>(
    alloc: Global,
    machine: &M,
    stops: &[NumberedStop],
    is_hexadecimal: bool,
    last: Option<Answer<'_>>,
) -> Result<Reply, AllocError>
    ensures answered { (s : Setting) (at d : Debugger) (meant : model.Answer) → M.stands machine.now s at → at.events ≡ d.events → AreStops s stops.now d.stops
        → MeansLast s d last.entry meant → IfOk result (λ told. IsSetTold last.entry (text s meant d) (shown_values (now s d) meant (form_if is_hexadecimal)) told) }
    ensures opens { (s : Setting) (d : Debugger) → M.stands machine.now s d → IfOk result (IsOpenedBy s d last.entry) }
{
    let Some(answer) = last else {
        return refused(alloc, NOT_SET);
    };
    match values_of(alloc, machine, form_if(is_hexadecimal), answer)? {
        Some(text) => Ok(Reply::Set {
            text,
            reference: opened_by(alloc, machine, &answer)?,
        }),
        None => Ok(Reply::Refused(unset_text(alloc, &answer, machine, stops)?)),
    }
}

/// The values that an answer shows, if it shows some.
fn values_of<M: FramedMachine>(
    alloc: Global,
    machine: &M,
    form: Form,
    answer: Answer<'_>,
) -> Result<Option<String>, AllocError>
    ensures shown { IfOk result (λ values. is_some values ≡ has_values answer.entry) }
    ensures values { (s : Setting) (at d : Debugger) (meant : model.Answer) → M.stands machine.now s at → at.events ≡ d.events → Means s d answer.entry meant
        → IfOk result (λ values. option_map string_bytes values ≡ shown_option answer.entry (shown_values (now s d) meant form)) }
{
    let Answer::Shows { target, shown } = answer else {
        return Ok(None);
    };
    let values = top_text(alloc, machine, form, shown, target.at)?;
    Ok(Some(values))
}

/// What is told of a text for which a command was done: of one that has set a value in another frame than the top one its values there.
pub(crate) fn done<M: ExpressionMachine>(
    alloc: Global,
    machine: &M,
    stops: &[NumberedStop],
    frame: Option<u64>,
    line: Line<'_>,
    answer: Answer<'_>,
) -> Result<Reply, AllocError>
    ensures stands { (s : Setting) (d : Debugger) → M.stands machine.now s d → IfOk result (IsLookedUp s d (Some answer.entry) frame line.entry.context line.entry.text.now line.entry.is_hexadecimal) }
    ensures answered { (s : Setting) (at d : Debugger) (meant : model.Answer) → M.stands machine.now s at → at.events ≡ d.events → AreStops s stops.now d.stops
        → Means s d answer.entry meant
        → IfOk result (λ told. IsEvaluated line.entry.context line.entry.text.now line.entry.is_hexadecimal (Some answer.entry) (text s meant d) (shown_values (now s d) meant (form_if line.entry.is_hexadecimal)) told) }
{
    match set_unsaid(&answer, line) {
        Some(target) => {
            let depth = frame_or(depth_of(machine), frame);
            set_line(alloc, machine, depth, line, target)
        }
        None => evaluated(alloc, machine, stops, line, answer),
    }
}

/// The value of an expression in the top frame, or the answer to a line of the console; or why there is none.
fn evaluated<M: ExpressionMachine>(
    alloc: Global,
    machine: &M,
    stops: &[NumberedStop],
    line: Line<'_>,
    answer: Answer<'_>,
) -> Result<Reply, AllocError>
    ensures stands { (s : Setting) (d : Debugger) → M.stands machine.now s d
        → IfOk result (IsPrinted (is_expression line.entry.context line.entry.text.now answer.entry) s d (asking_of line.entry.context line.entry.text.now line.entry.is_hexadecimal) answer.entry) }
    ensures answered { (s : Setting) (at d : Debugger) (meant : model.Answer) → M.stands machine.now s at → at.events ≡ d.events → AreStops s stops.now d.stops
        → Means s d answer.entry meant
        → IfOk result (IsAnsweredIn (is_expression line.entry.context line.entry.text.now answer.entry) line.entry.context line.entry.is_hexadecimal answer.entry (text s meant d) (shown_values (now s d) meant (form_if line.entry.is_hexadecimal))) }
{
    if is_expression(line.context, line.text, &answer) {
        return found(alloc, machine, depth_of(machine), asking_in(line));
    }
    let reference = opened_by(alloc, machine, &answer)?;
    let told = answered(alloc, machine, stops, line, answer, reference)?;
    Ok(told)
}

/// The answer to a line of the console, or the value that it shows, with the reference of that; or why there is none.
fn answered<M: FramedMachine>(
    alloc: Global,
    machine: &M,
    stops: &[NumberedStop],
    line: Line<'_>,
    answer: Answer<'_>,
    reference: u64,
) -> Result<Reply, AllocError>
    ensures answered { (s : Setting) (at d : Debugger) (meant : model.Answer) → M.stands machine.now s at → at.events ≡ d.events → AreStops s stops.now d.stops
        → Means s d answer.entry meant
        → IfOk result (IsAnsweredIn false line.entry.context line.entry.is_hexadecimal answer.entry (text s meant d) (shown_values (now s d) meant (form_if line.entry.is_hexadecimal))) }
    ensures opens { IfOk result (λ told. told_place told ≡ unless_refused answer.entry (place_of reference)) }
{
    if is_told_whole(line.context, line.is_hexadecimal) {
        return line_of(alloc, machine, stops, answer, reference);
    }
    match values_of(alloc, machine, form_if(line.is_hexadecimal), answer)? {
        None => line_of(alloc, machine, stops, answer, reference),
        Some(values) => {
            let text = shown_in(alloc, line.context, values)?;
            Ok(Reply::Evaluated {
                text,
                reason: None,
                reference,
            })
        }
    }
}

/// Whether the answer to a line is told as it is: in the console, where no hexadecimal numbers are asked for.
fn is_told_whole(context: Context, is_hexadecimal: bool) -> bool
    ensures { result ≡ is_told_whole context is_hexadecimal }
{
    match context {
        Context::Console => !is_hexadecimal,
        Context::Hover | Context::Watch => false,
    }
}

/// Whether a text is an expression, since `print` finds no variable by it.
fn is_expression(context: Context, text: &str, answer: &Answer<'_>) -> bool
    ensures { result ≡ is_expression context text.now answer.now }
{
    is_unnamed(answer) && !is_line(context, text)
}

/// Whether a text is a line of the console that spells a command.
pub(crate) fn is_line(context: Context, text: &str) -> bool
    ensures { result ≡ is_line context text.now }
{
    match context {
        Context::Console => read_command(text.as_bytes()).is_some(),
        Context::Hover | Context::Watch => false,
    }
}

/// Whether an answer says that a text names no variable.
fn is_unnamed(answer: &Answer<'_>) -> bool
    ensures { result ≡ is_unnamed answer.now }
{
    matches!(
        answer,
        Answer::Refused(Refusal::BadCommand | Refusal::NoSuchName)
    )
}

/// The answer to a line of the console, and the reference of what it shows.
fn line_of<M: RecordedMachine>(
    alloc: Global,
    machine: &M,
    stops: &[NumberedStop],
    answer: Answer<'_>,
    reference: u64,
) -> Result<Reply, AllocError>
    ensures answered { (s : Setting) (at d : Debugger) (meant : model.Answer) → M.stands machine.now s at → at.events ≡ d.events → AreStops s stops.now d.stops
        → Means s d answer.entry meant → IfOk result (λ told. IsLineTold answer.entry (text s meant d) told) }
    ensures opens { IfOk result (λ told. told_place told ≡ unless_refused answer.entry (place_of reference)) }
{
    let text = answer_text(alloc, &answer, machine, stops)?;
    Ok(told_line(text, &answer, reference))
}

/// The text of an answer with the reason of its stop and the reference of what it shows, or as a refusal.
fn told_line(text: String, answer: &Answer<'_>, reference: u64) -> Reply
    ensures answered { IsTextTold (is_refused answer.now) answer.now (string_bytes text) result }
    ensures opens { told_place result ≡ unless_refused answer.now (place_of reference) }
{
    let reason = stop_of(answer);
    match answer {
        Answer::Refused(_) => Reply::Refused(text),
        _ => Reply::Evaluated {
            text,
            reason,
            reference,
        },
    }
}
