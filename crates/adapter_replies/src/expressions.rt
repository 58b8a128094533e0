//! The values of expressions, and why a text has none.
ghost use Rattle.std.specs.Prelude.{◌≡◌, ◌<◌, IfOk, None, Some, string_bytes};
ghost use Rattle.gang_types.specs.Masks.{IsGangWidth, lanes_of};
ghost use Rattle.gang_model.specs.Debugger.Debugger.{Debugger, Setting};
ghost use Rattle.frame_values.specs.declared.values.NoValue.TheVariants as no;
ghost use Rattle.adapter_replies.specs.Asking.{asking_view};
ghost use Rattle.adapter_replies.specs.Hints as hints;
ghost use Rattle.adapter_replies.specs.Expressions.{cut, expression_text, gap, lane_text, lanes_text, no_value_text, one_text, refusal_meaning, refusal_name, refusal_text, refused_text, shown_in};
ghost use Rattle.adapter_replies.specs.Told.{IsExpressionTold, IsAskedTold, told_place, told_value};
ghost use Rattle.adapter_replies.specs.declared.console.Asked.TheVariants.{Value, Words};
ghost use Rattle.adapter_replies.specs.declared.places.Place.TheVariants as place;

use crate::asking::Asking;
use crate::console::{Asked, help_reply, parameters_reply};
use crate::exceptions::fault_text;
use crate::forms::Form;
use crate::hints::{Hinted, hint_text};
use crate::locals::locals_reply;
use crate::texts::word_text;
use adapter_requests::{Context, Reply};
use debug_traits::Fault;
use frame_expressions::{ExpressionMachine, LaneWords};
use frame_values::{ExpressionValue, NoValue, value_of_expression};
use gang_model::{RefusalNumber, SourceRefusal};
use gang_types::{IntType, Place, Rate};
use placed_expressions::ExpressionRefusal;
use std::alloc::{AllocError, Global};

/// The widest gang.
const WIDEST: usize = 16;

/// How many bytes of a value are shown under the mouse.
const MOST_HOVERED: usize = 200;

/// What a text means that names no variable, where the frame at a depth stands: in the console it may ask for help, the parameters or the
/// local variables, or be told what to do in its place, and else it is an expression.
pub(crate) fn expression_reply<M: ExpressionMachine>(
    alloc: Global,
    machine: &M,
    depth: usize,
    asking: Asking<'_>,
) -> Result<Reply, AllocError>
    ensures { (s : Setting) (d : Debugger) → M.stands machine.now s d → IfOk result (IsExpressionTold s d depth (asking_view asking.entry)) }
{
    match asking.asked {
        Asked::Help => help_reply(alloc),
        Asked::Parameters => parameters_reply(alloc, machine, asking.form, depth),
        Asked::Locals => locals_reply(alloc, machine, depth),
        Asked::Words(hinted) => hinted_reply(alloc, machine, depth, asking, hinted),
        Asked::Value => value_reply(alloc, machine, depth, asking),
    }
}

/// The value of a line that begins with a word of the prompt or of GDB, where the frame at a depth stands, or what to do in its place.
fn hinted_reply<M: ExpressionMachine>(
    alloc: Global,
    machine: &M,
    depth: usize,
    asking: Asking<'_>,
    hinted: Hinted,
) -> Result<Reply, AllocError>
    ensures { (s : Setting) (d : Debugger) → M.stands machine.now s d → IfOk result (IsAskedTold (Words hinted) s d depth (asking_view asking.entry)) }
{
    match value_of_expression(alloc, asking.text, depth, machine) {
        Ok(value) => {
            let written = expression_text(alloc, asking.form, &value)?;
            let text = shown_in(alloc, asking.context, written)?;
            Ok(plain_value(text))
        }
        Err(NoValue::Refused(ExpressionRefusal::Memory)) => Err(AllocError),
        Err(why) => Ok(Reply::Refused(hinted_text(alloc, hinted, why)?)),
    }
}

/// What to do in place of a line; of a word alone, which may be meant for a variable, why it has no value before that.
fn hinted_text(alloc: Global, hinted: Hinted, why: NoValue) -> Result<String, AllocError>
    ensures { IfOk result (λ text. string_bytes text ≡ hints.hinted_text hinted why) }
{
    if !hinted.is_alone {
        return String::from_str(alloc, hint_text(hinted.hint));
    }
    let mut text = no_value_text(alloc, why)?;
    text.push_str(". ")?;
    text.push_str(hint_text(hinted.hint))?;
    Ok(text)
}

/// The value of the expression that a text spells where the frame at a depth stands, or why it has none.
fn value_reply<M: ExpressionMachine>(
    alloc: Global,
    machine: &M,
    depth: usize,
    asking: Asking<'_>,
) -> Result<Reply, AllocError>
    ensures { (s : Setting) (d : Debugger) → M.stands machine.now s d → IfOk result (IsAskedTold Value s d depth (asking_view asking.entry)) }
{
    match value_of_expression(alloc, asking.text, depth, machine) {
        Ok(value) => {
            let written = expression_text(alloc, asking.form, &value)?;
            let text = shown_in(alloc, asking.context, written)?;
            Ok(plain_value(text))
        }
        Err(NoValue::Refused(ExpressionRefusal::Memory)) => Err(AllocError),
        Err(why) => Ok(Reply::Refused(no_value_text(alloc, why)?)),
    }
}

/// The text of a value that nothing can be opened of.
pub(crate) fn plain_value(text: String) -> Reply
    ensures value { told_value result ≡ Some (None, string_bytes text) }
    ensures closed { told_place result ≡ place.Nothing }
{
    Reply::Evaluated {
        text,
        reason: None,
        reference: 0,
    }
}

/// The text of a value where an expression stands: under the mouse it is cut.
pub(crate) fn shown_in(alloc: Global, context: Context, text: String) -> Result<String, AllocError>
    ensures { IfOk result (λ shown. string_bytes shown ≡ shown_in context (string_bytes text)) }
{
    match context {
        Context::Hover => cut(alloc, text),
        Context::Console | Context::Watch => Ok(text),
    }
}

/// A text, or its front with three points behind it where it is long.
fn cut(alloc: Global, text: String) -> Result<String, AllocError>
    ensures { IfOk result (λ shown. string_bytes shown ≡ cut (string_bytes text)) }
{
    if text.len() <= MOST_HOVERED {
        return Ok(text);
    }
    let bytes = text.as_bytes();
    let mut shown = String::from_utf8_lossy(alloc, &bytes[..MOST_HOVERED])?;
    shown.push_str("...")?;
    Ok(shown)
}

/// The value of an expression: that of each lane, lane 0 first, with a point for one that waits; of a uniform one the value of each.
fn expression_text(alloc: Global, form: Form, value: &ExpressionValue) -> Result<String, AllocError>
    ensures { IsGangWidth value.now.lanes.width → IfOk result (λ text. string_bytes text ≡ expression_text form value.now) }
{
    match value.rate {
        Rate::Varying => lanes_text(alloc, form, value.value_type, &value.lanes),
        Rate::Uniform => one_text(alloc, form, value.value_type, &value.lanes),
    }
}

/// The value of each lane, with blanks between.
fn lanes_text(
    alloc: Global,
    form: Form,
    value_type: IntType,
    lanes: &LaneWords,
) -> Result<String, AllocError>
    ensures { IsGangWidth lanes.now.width
        → IfOk result (λ text. string_bytes text ≡ lanes_text form value_type (lanes_of lanes.now.width lanes.now.lanes) lanes.now.words lanes.now.width) }
{
    let mut text = String::new(alloc);
    for lane in 0..lanes.width.min(WIDEST) {
        text.push_str(gap(lane))?;
        text.push_str(lane_text(alloc, form, value_type, lanes, lane)?.as_str())?;
    }
    Ok(text)
}

/// What stands before the value of a lane.
fn gap(lane: usize) -> &'static str
    ensures { result.now ≡ gap lane }
{
    if lane == 0 { "" } else { " " }
}

/// The value of a lane, or a point where it waits.
pub(crate) fn lane_text(
    alloc: Global,
    form: Form,
    value_type: IntType,
    lanes: &LaneWords,
    lane: usize,
) -> Result<String, AllocError>
    requires { lane < 16 }
    ensures { IsGangWidth lanes.now.width → lane < lanes.now.width
        → IfOk result (λ text. string_bytes text ≡ lane_text form value_type (lanes_of lanes.now.width lanes.now.lanes) lanes.now.words lane) }
{
    if lanes.lanes.has::<WIDEST>(lane) {
        word_text(alloc, form, value_type, lanes.words[lane])
    } else {
        String::from_str(alloc, ".")
    }
}

/// The value of the lowest active lane, or a point where each waits.
fn one_text(
    alloc: Global,
    form: Form,
    value_type: IntType,
    lanes: &LaneWords,
) -> Result<String, AllocError>
    ensures { IsGangWidth lanes.now.width
        → IfOk result (λ text. string_bytes text ≡ one_text form value_type (lanes_of lanes.now.width lanes.now.lanes) lanes.now.words) }
{
    for lane in 0..lanes.width.min(WIDEST) {
        if lanes.lanes.has::<WIDEST>(lane) {
            return lane_text(alloc, form, value_type, lanes, lane);
        }
    }
    String::from_str(alloc, ".")
}

/// The text of why an expression has no value where a frame stands.
///
/// # Errors
///
/// Out of memory.
pub fn no_value_text(alloc: Global, why: NoValue) -> Result<String, AllocError>
    ensures { IfOk result (λ text. string_bytes text ≡ no_value_text why) }
{
    match why {
        NoValue::NoFrame => {
            String::from_str(alloc, "the program has ended, and no frame has values")
        }
        NoValue::Fault(fault) => fault_line(alloc, fault),
        NoValue::Refused(refusal) => refused_text(alloc, refusal),
    }
}

/// The fault of a value, and its lane.
fn fault_line(alloc: Global, fault: Fault) -> Result<String, AllocError>
    ensures { IfOk result (λ text. string_bytes text ≡ no_value_text (no.Fault fault)) }
{
    let name = fault_text(fault.name);
    let lane = fault.lane;
    format!(in alloc; "{name} in lane {lane}: the expression has no value")
}

/// Why a text has no meaning where a frame stands.
fn refused_text(alloc: Global, refusal: ExpressionRefusal) -> Result<String, AllocError>
    ensures { IfOk result (λ text. string_bytes text ≡ refused_text refusal) }
{
    match refusal {
        ExpressionRefusal::Memory => String::from_str(alloc, "out of memory"),
        ExpressionRefusal::NoTokens(refusal)
        | ExpressionRefusal::NoExpression(refusal)
        | ExpressionRefusal::NoValue(refusal) => source_text(alloc, refusal),
        ExpressionRefusal::CallsFunction(place) => refusal_text(
            alloc,
            RefusalNumber::S9,
            place,
            "a function of the program is not called here",
        ),
    }
}

/// A refusal as those of sources, with what it says of an expression.
fn source_text(alloc: Global, refusal: SourceRefusal) -> Result<String, AllocError>
    ensures { IfOk result (λ text. string_bytes text ≡ refusal_text refusal.number refusal.place (refusal_meaning refusal.number)) }
{
    let meaning = refusal_meaning(refusal.number);
    refusal_text(alloc, refusal.number, refusal.place, meaning)
}

/// A refusal by its name, its column and what it says.
fn refusal_text(
    alloc: Global,
    number: RefusalNumber,
    place: Place,
    meaning: &str,
) -> Result<String, AllocError>
    ensures { IfOk result (λ text. string_bytes text ≡ refusal_text number place meaning.now) }
{
    let name = refusal_name(number);
    let column = place.col;
    format!(in alloc; "{name}, column {column}: {meaning}")
}

/// The number and name of a refusal.
fn refusal_name(number: RefusalNumber) -> &'static str
    ensures { result.now ≡ refusal_name number }
{
    match number {
        RefusalNumber::S1 => "S1 BadByte",
        RefusalNumber::S2 => "S2 BadNumber",
        RefusalNumber::S3 => "S3 Unexpected",
        RefusalNumber::S4 => "S4 TooDeep",
        RefusalNumber::S5 => "S5 UnknownName",
        RefusalNumber::S6 => "S6 Duplicate",
        RefusalNumber::S7 => "S7 Rate",
        RefusalNumber::S8 => "S8 Type",
        RefusalNumber::S9 => "S9 NoOverload",
        RefusalNumber::S10 => "S10 Ambiguous",
        RefusalNumber::S11 => "S11 BadControl",
        RefusalNumber::S12 => "S12 NestedCall",
        RefusalNumber::S13 => "S13 Limit",
    }
}

/// What a refusal says of an expression.
fn refusal_meaning(number: RefusalNumber) -> &'static str
    ensures { result.now ≡ refusal_meaning number }
{
    match number {
        RefusalNumber::S1 => "nothing in an expression begins with this byte",
        RefusalNumber::S2 => "this is no number, or too large a one",
        RefusalNumber::S3 => "an expression does not go on so",
        RefusalNumber::S4 => "an expression has at most 64 nestings",
        RefusalNumber::S5 => "no variable of this name is in scope in this frame or of the file",
        RefusalNumber::S7 => "a varying value stands where a uniform one is wanted",
        RefusalNumber::S8 => {
            "the type does not fit: an array has no value without an index, and a bool is no number"
        }
        RefusalNumber::S9 => {
            "no function of the library with this name takes these values and gives one"
        }
        RefusalNumber::S6
        | RefusalNumber::S10
        | RefusalNumber::S11
        | RefusalNumber::S12
        | RefusalNumber::S13 => "the expression is too long",
    }
}
