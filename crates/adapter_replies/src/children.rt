//! The lanes of an expression's value, into which it opens.
ghost use Rattle.std.specs.Prelude.{◌≡◌, ◌+◌, ◌<◌, ◌≤◌, IfOk, Some, map, option_map, true};
ghost use Rattle.std.specs.List.{range_with_len};
ghost use Rattle.gang_types.specs.Masks.{IsGangWidth, lanes_of};
ghost use Rattle.gang_model.specs.Debugger.Debugger.{Debugger, Setting};
ghost use Rattle.adapter_replies.specs.Children as spec;
ghost use Rattle.adapter_replies.specs.Children.{AreChildrenTold, AreChildrenToldIn, IsOpenedOf, OpensInto, opened_view, told_children, told_lane, told_lanes};
ghost use Rattle.adapter_replies.specs.Forms as forms;
ghost use Rattle.adapter_replies.specs.Pages.{indexed_children};
ghost use Rattle.adapter_replies.specs.Variables.{variable_view};
ghost use Rattle.adapter_replies.specs.Waiting.{waits};

use crate::asking::asking_of;
use crate::console::Asked;
use crate::evaluating::is_line;
use crate::expressions::{lane_text, no_value_text};
use crate::forms::{Form, form_if};
use crate::pages::span;
use crate::parts::type_name;
use crate::places::{depth_of, is_frame};
use crate::replies::{NO_FRAME, frame_or, refused};
use adapter_requests::{Context, Filter, Page, Reply, Request, Variable, VariableKind};
use frame_expressions::{ExpressionMachine, LaneWords};
use frame_values::{ExpressionValue, NoValue, value_of_expression};
use gang_types::{IntType, Rate};
use placed_expressions::ExpressionRefusal;
use std::alloc::{AllocError, Global};

/// The widest gang.
const WIDEST: usize = 16;

/// An expression whose value opens.
#[derive(Clone, Copy, Debug)]
pub struct OpenedExpression<'a> {
    /// The depth of the frame where it stands.
    pub depth: usize,
    /// What it spells.
    pub text: &'a [u8],
}

/// The expression whose value a request to evaluate was told, where this opens into its lanes: the value varies, and nothing else
/// opens of the reply. None of another request, of a line of the console that spells a command or asks for help or for a list, and where
/// the reply tells no value.
///
/// # Errors
///
/// Out of memory.
pub fn opened_expression<'a, M: ExpressionMachine>(
    alloc: Global,
    machine: &M,
    request: &Request<'a>,
    told: &Reply,
) -> Result<Option<OpenedExpression<'a>>, AllocError>
    ensures { (s : Setting) (d : Debugger) → M.stands machine.now s d
        → IfOk result (λ opened. IsOpenedOf s d request.now told.now (option_map opened_view opened)) }
{
    match told_expression(depth_of(machine), request, told) {
        None => Ok(None),
        Some(expression) => if_varying(alloc, machine, expression),
    }
}

/// The expression whose value a request to evaluate was told, where nothing opens of that, in a program of this depth.
fn told_expression<'a>(
    top: usize,
    request: &Request<'a>,
    told: &Reply,
) -> Option<OpenedExpression<'a>>
    ensures { option_map opened_view result ≡ spec.told_expression top request.now told.now }
{
    if is_closed_value(told) {
        asked_expression(top, request)
    } else {
        None
    }
}

/// Whether a reply tells a value of which nothing opens.
fn is_closed_value(told: &Reply) -> bool
    ensures { result ≡ spec.is_closed_value told.now }
{
    match told {
        Reply::Evaluated {
            text: _,
            reason: None,
            reference,
        } => *reference == 0,
        _ => false,
    }
}

/// The expression that a request to evaluate asks for, in a program of this depth.
fn asked_expression<'a>(top: usize, request: &Request<'a>) -> Option<OpenedExpression<'a>>
    ensures { option_map opened_view result ≡ spec.asked_expression top request.now }
{
    match request {
        Request::Evaluate {
            expression,
            frame,
            context,
            is_hexadecimal: _,
        } => in_frame(frame_or(top, *frame), expression_in(*context, expression)),
        _ => None,
    }
}

/// An expression in the frame at a depth, if there is one.
fn in_frame(depth: usize, text: Option<&[u8]>) -> Option<OpenedExpression<'_>>
    ensures { option_map opened_view result ≡ option_map (λ text. (depth, text.now)) text.entry }
{
    match text {
        None => None,
        Some(text) => Some(OpenedExpression { depth, text }),
    }
}

/// The expression that a text may be, and not a line of the console that spells a command or asks for help or for a list.
fn expression_in(context: Context, text: &str) -> Option<&[u8]>
    ensures { option_map (λ found. found.now) result ≡ spec.expression_in context text.now }
{
    if is_line(context, text) {
        return None;
    }
    let asking = asking_of(context, text, false);
    match asking.asked {
        Asked::Value => Some(asking.text),
        Asked::Help | Asked::Parameters | Asked::Locals | Asked::Words(_) => None,
    }
}

/// An expression, where its value varies.
fn if_varying<'a, M: ExpressionMachine>(
    alloc: Global,
    machine: &M,
    expression: OpenedExpression<'a>,
) -> Result<Option<OpenedExpression<'a>>, AllocError>
    ensures { (s : Setting) (d : Debugger) → M.stands machine.now s d
        → IfOk result (λ opened. OpensInto s d (Some (opened_view expression.entry)) (option_map opened_view opened)) }
{
    match value_of_expression(alloc, expression.text, expression.depth, machine) {
        Ok(value) => match value.rate {
            Rate::Varying => Ok(Some(expression)),
            Rate::Uniform => Ok(None),
        },
        Err(NoValue::Refused(ExpressionRefusal::Memory)) => Err(AllocError),
        Err(_) => Ok(None),
    }
}

/// A reply to a request to evaluate with another reference of what it opens; any other reply as it is.
pub fn with_reference(reply: Reply, reference: u64) -> Reply
    ensures { result ≡ spec.with_reference reference reply }
{
    match reply {
        Reply::Evaluated {
            text,
            reason,
            reference: _,
        } => Reply::Evaluated {
            text,
            reason,
            reference,
        },
        other => other,
    }
}

/// What a request for the children of the value of a text in the frame at a depth is told: the lanes of a varying value, as a page asks
/// for them, none of a uniform one; or the refusal that a request to evaluate the text gets there.
///
/// # Errors
///
/// Out of memory.
pub fn expression_variables<M: ExpressionMachine>(
    alloc: Global,
    machine: &M,
    depth: usize,
    text: &[u8],
    is_hexadecimal: bool,
    page: Page,
) -> Result<Reply, AllocError>
    ensures { (s : Setting) (d : Debugger) → M.stands machine.now s d
        → IfOk result (AreChildrenTold s d depth text.now (forms.form_if is_hexadecimal) page) }
{
    if !is_frame(depth_of(machine), depth) {
        return refused(alloc, NO_FRAME);
    }
    children_reply(alloc, machine, depth, text, form_if(is_hexadecimal), page)
}

/// The children of the value of a text where the frame at a depth stands, or why it has none.
fn children_reply<M: ExpressionMachine>(
    alloc: Global,
    machine: &M,
    depth: usize,
    text: &[u8],
    form: Form,
    page: Page,
) -> Result<Reply, AllocError>
    ensures { (s : Setting) (d : Debugger) → M.stands machine.now s d → IfOk result (AreChildrenToldIn true s d depth text.now form page) }
{
    match value_of_expression(alloc, text, depth, machine) {
        Ok(value) => Ok(Reply::Variables(children(alloc, form, &value, page)?)),
        Err(NoValue::Refused(ExpressionRefusal::Memory)) => Err(AllocError),
        Err(why) => Ok(Reply::Refused(no_value_text(alloc, why)?)),
    }
}

/// The children of a value.
fn children(
    alloc: Global,
    form: Form,
    value: &ExpressionValue,
    page: Page,
) -> Result<Vec<Variable>, AllocError>
    ensures { IsGangWidth value.now.lanes.width → IfOk result (λ told. map variable_view told.items ≡ told_children form page value.now) }
{
    match page.filter {
        Filter::Named => Ok(Vec::new(alloc)),
        Filter::All | Filter::Indexed => lanes_by_rate(alloc, form, value, page),
    }
}

/// The lanes of a varying value, as a page asks for them; a uniform one has none.
fn lanes_by_rate(
    alloc: Global,
    form: Form,
    value: &ExpressionValue,
    page: Page,
) -> Result<Vec<Variable>, AllocError>
    ensures { IsGangWidth value.now.lanes.width
        → IfOk result (λ told. map variable_view told.items
        ≡ told_lanes value.now.rate form page value.now.value_type (lanes_of value.now.lanes.width value.now.lanes.lanes) value.now.lanes.words value.now.lanes.width) }
{
    match value.rate {
        Rate::Uniform => Ok(Vec::new(alloc)),
        Rate::Varying => {
            let (first, count) = span(page, 0, value.lanes.width.min(WIDEST));
            lanes_from(alloc, form, value.value_type, &value.lanes, first, count)
        }
    }
}

/// So many lanes of a value from one on.
fn lanes_from(
    alloc: Global,
    form: Form,
    value_type: IntType,
    lanes: &LaneWords,
    first: usize,
    count: usize,
) -> Result<Vec<Variable>, AllocError>
    requires { first + count ≤ 16 }
    ensures { IsGangWidth lanes.now.width → first + count ≤ lanes.now.width
        → IfOk result (λ told. map variable_view told.items
        ≡ map (told_lane form value_type (lanes_of lanes.now.width lanes.now.lanes) lanes.now.words) (range_with_len first count)) }
{
    let mut told = Vec::new(alloc);
    for offset in 0..count {
        told.push(lane_of(alloc, form, value_type, lanes, first + offset)?)?;
    }
    Ok(told)
}

/// A lane of a value.
fn lane_of(
    alloc: Global,
    form: Form,
    value_type: IntType,
    lanes: &LaneWords,
    lane: usize,
) -> Result<Variable, AllocError>
    requires { lane < 16 }
    ensures { IsGangWidth lanes.now.width → lane < lanes.now.width
        → IfOk result (λ told. variable_view told ≡ told_lane form value_type (lanes_of lanes.now.width lanes.now.lanes) lanes.now.words lane) }
{
    Ok(Variable {
        name: format!(in alloc; "[{lane}]")?,
        value: lane_text(alloc, form, value_type, lanes, lane)?,
        type_name: String::from_str(alloc, type_name(value_type))?,
        kind: VariableKind::Lane {
            waits: waits(lanes, lane),
        },
        is_constant: false,
        is_read_only: true,
        reference: 0,
    })
}

/// Whether a lane of a value is not active where the frame stands.
fn waits(lanes: &LaneWords, lane: usize) -> bool
    requires { lane < 16 }
    ensures { IsGangWidth lanes.now.width → lane < lanes.now.width → result ≡ waits (lanes_of lanes.now.width lanes.now.lanes) lane }
{
    !lanes.lanes.has::<WIDEST>(lane)
}
