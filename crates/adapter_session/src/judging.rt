//! Breakpoints and watches whose conditions are no expressions, whatever names there are.
ghost use Rattle.std.specs.Prelude.{◌≡◌, unwrap_or, IfOk};
ghost use Rattle.adapter_session.specs.Changes.{text_of};
ghost use Rattle.adapter_session.specs.Judged as spec;
ghost use Rattle.adapter_session.specs.Judged.{AreJudged, IsCondition, IsExpressionOrNot, IsJudged, IsJudgedRequest, of_function, of_line, of_watch};

use adapter_requests::{
    BreakpointFault, DataBreakpoint, FunctionBreakpoint, LineBreakpoint, Request,
};
use gang_types::{FuncId, Spot};
use placed_expressions::{ExpressionRefusal, PlacedExpression, place_expression};
use std::alloc::{AllocError, Global};
use typed_tree::Program;

/// A step: whether a text is an expression is the same at each.
const ANY_STEP: Spot = Spot {
    function: FuncId(0),
    number: 0,
};

/// A request for breakpoints or watches with those entries refused whose conditions are no expressions; none for another request.
///
/// # Errors
///
/// Out of memory.
pub(crate) fn judged<'a>(
    alloc: Global,
    program: &Program,
    request: &Request<'a>,
) -> Result<Option<Request<'a>>, AllocError>
    ensures { IfOk result (λ judged. IsJudgedRequest request.now (unwrap_or judged request.now)) }
{
    match request {
        Request::SetBreakpoints { source, lines } => Ok(Some(Request::SetBreakpoints {
            source: *source,
            lines: judged_lines(alloc, program, lines)?,
        })),
        Request::SetFunctionBreakpoints { functions } => {
            Ok(Some(Request::SetFunctionBreakpoints {
                functions: judged_functions(alloc, program, functions)?,
            }))
        }
        Request::SetDataBreakpoints { targets } => Ok(Some(Request::SetDataBreakpoints {
            targets: judged_watches(alloc, program, targets)?,
        })),
        _ => Ok(None),
    }
}

/// Breakpoints of lines, of which each is refused whose condition is no expression.
fn judged_lines<'a>(
    alloc: Global,
    program: &Program,
    lines: &[Result<LineBreakpoint<'a>, BreakpointFault>],
) -> Result<Vec<Result<LineBreakpoint<'a>, BreakpointFault>>, AllocError>
    ensures { IfOk result (λ judged. AreJudged of_line lines.now judged.items) }
{
    let mut judged = Vec::new(alloc);
    for line in lines {
        judged.push(judged_line(alloc, program, *line)?)?;
    }
    Ok(judged)
}

/// A breakpoint of a line, refused where its condition is no expression.
fn judged_line<'a>(
    alloc: Global,
    program: &Program,
    asked: Result<LineBreakpoint<'a>, BreakpointFault>,
) -> Result<Result<LineBreakpoint<'a>, BreakpointFault>, AllocError>
    ensures { IfOk result (λ judged. IsJudged of_line asked.entry judged) }
{
    let Ok(line) = asked else {
        return Ok(asked);
    };
    if is_condition(alloc, program, line.condition)? {
        Ok(asked)
    } else {
        Ok(Err(BreakpointFault::NoExpression))
    }
}

/// Breakpoints of functions, of which each is refused whose condition is no expression.
fn judged_functions<'a>(
    alloc: Global,
    program: &Program,
    functions: &[Result<FunctionBreakpoint<'a>, BreakpointFault>],
) -> Result<Vec<Result<FunctionBreakpoint<'a>, BreakpointFault>>, AllocError>
    ensures { IfOk result (λ judged. AreJudged of_function functions.now judged.items) }
{
    let mut judged = Vec::new(alloc);
    for function in functions {
        judged.push(judged_function(alloc, program, *function)?)?;
    }
    Ok(judged)
}

/// A breakpoint of a function, refused where its condition is no expression.
fn judged_function<'a>(
    alloc: Global,
    program: &Program,
    asked: Result<FunctionBreakpoint<'a>, BreakpointFault>,
) -> Result<Result<FunctionBreakpoint<'a>, BreakpointFault>, AllocError>
    ensures { IfOk result (λ judged. IsJudged of_function asked.entry judged) }
{
    let Ok(function) = asked else {
        return Ok(asked);
    };
    if is_condition(alloc, program, function.condition)? {
        Ok(asked)
    } else {
        Ok(Err(BreakpointFault::NoExpression))
    }
}

/// Watches, of which each is refused whose condition is no expression.
fn judged_watches<'a>(
    alloc: Global,
    program: &Program,
    targets: &[Result<DataBreakpoint<'a>, BreakpointFault>],
) -> Result<Vec<Result<DataBreakpoint<'a>, BreakpointFault>>, AllocError>
    ensures { IfOk result (λ judged. AreJudged of_watch targets.now judged.items) }
{
    let mut judged = Vec::new(alloc);
    for target in targets {
        judged.push(judged_watch(alloc, program, *target)?)?;
    }
    Ok(judged)
}

/// A watch, refused where its condition is no expression.
fn judged_watch<'a>(
    alloc: Global,
    program: &Program,
    asked: Result<DataBreakpoint<'a>, BreakpointFault>,
) -> Result<Result<DataBreakpoint<'a>, BreakpointFault>, AllocError>
    ensures { IfOk result (λ judged. IsJudged of_watch asked.entry judged) }
{
    let Ok(watch) = asked else {
        return Ok(asked);
    };
    if is_condition(alloc, program, watch.condition)? {
        Ok(asked)
    } else {
        Ok(Err(BreakpointFault::NoExpression))
    }
}

/// Whether a text can be a condition, if there is one.
fn is_condition(
    alloc: Global,
    program: &Program,
    condition: Option<&str>,
) -> Result<bool, AllocError>
    ensures { IfOk result (IsCondition (text_of condition.entry)) }
{
    match condition {
        None => Ok(true),
        Some(text) => is_expression(alloc, program, text.as_bytes()),
    }
}

/// Whether a text is an expression, from its first token to its last.
#[tactic(auto, using(crate::proofs::JudgedEntries::written_or_not))]
fn is_expression(alloc: Global, program: &Program, text: &[u8]) -> Result<bool, AllocError>
    ensures { IfOk result (IsExpressionOrNot text.now) }
{
    let placed = place_expression(alloc, text, program, ANY_STEP);
    match is_written(&placed) {
        Some(is_expression) => Ok(is_expression),
        None => Err(AllocError),
    }
}

/// Whether a text is an expression, by what came of placing it; nothing is known where memory ran out.
fn is_written(placed: &Result<PlacedExpression, ExpressionRefusal>) -> Option<bool>
    ensures { result ≡ spec.is_written placed.now }
{
    match placed {
        Ok(_) => Some(true),
        Err(refusal) => is_written_where(refusal),
    }
}

/// The same of a text that is refused so.
fn is_written_where(refusal: &ExpressionRefusal) -> Option<bool>
    ensures { result ≡ spec.is_written_where refusal.now }
{
    match refusal {
        ExpressionRefusal::Memory => None,
        ExpressionRefusal::NoTokens(_) | ExpressionRefusal::NoExpression(_) => Some(false),
        ExpressionRefusal::NoValue(_) | ExpressionRefusal::CallsFunction(_) => Some(true),
    }
}
