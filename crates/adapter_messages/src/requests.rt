//! Requests from JSON.
ghost use Rattle.std.specs.Prelude.{◌≡◌, IfErr, IfNone, IfOk, IfSome, None, OnErr, OnOk, OnSome, Some, codes, if◌then◌else◌, option_and_then, true};
ghost use Rattle.serde_json.specs.Find.{as_number, as_str, as_u64, get, pointer};
ghost use Rattle.serde_json.specs.View.{view};
ghost use Rattle.adapter_messages.specs.Arguments.{IsRequest, IsRequestNamed, flag_at, head_of, is_request, is_right, number_at, text_at, text_of, unmarked};
ghost use Rattle.adapter_messages.specs.Faults.{IsRefused, IsRefusedNamed, NamesArgument, container_options, first_missing, frame_options, launch_options, missing, needs, page_options, stack_options};
ghost use Rattle.adapter_messages.specs.declared.requests.RequestFault.TheVariants.{Memory};

use crate::arguments::{
    context_of, flag_at, functions_of, hears_invalidated, is_absent, is_hexadecimal, line_at,
    lines_of, number_at, page_of, text_at, time_in, unmarked, watches_of,
};
use crate::names::{Name, named};
use adapter_requests::{Launch, Request};
use debug_words::is_same;
use serde_json::Value;
use std::alloc::{AllocError, Global};
use thiserror::Error;

/// Why a message is not taken as a request.
#[derive(Clone, Copy, Debug, PartialEq, Eq, Error)]
pub enum RequestFault {
    /// An argument is not there, or is of another type.
    #[error("the argument `{0}` is missing or of a wrong type")]
    Argument(&'static str),
    #[error("out of memory")]
    Memory,
}

impl From<AllocError> for RequestFault {
    ghost from_gives = { λ _ fault. fault ≡ Memory };

    fn from(_: AllocError) -> Self {
        RequestFault::Memory
    }
}

/// The number and the command of a request.
#[derive(Clone, Copy)]
pub struct Head<'a> {
    pub number: u64,
    pub command: &'a str,
}

/// The number and the command of a request, if it has both; a message of another type is none.
pub fn read_head(message: &Value) -> Option<Head<'_>>
    ensures typed { OnSome result (is_request (view message.now) ≡ true) }
    ensures found { IfSome result (λ head.
        (option_and_then as_u64 (option_and_then as_number (get (codes "seq") (view message.now))) ≡ Some head.number)
        × (option_and_then as_str (get (codes "command") (view message.now)) ≡ Some head.command.now)) }
    ensures none { IfNone result (head_of (view message.now) ≡ None) }
{
    if !is_request(message) {
        return None;
    }
    let number = message.get("seq").and_then(Value::as_u64)?;
    let command = message.get("command").and_then(Value::as_str)?;
    Some(Head { number, command })
}

/// Whether a message says that it is a request.
fn is_request(message: &Value) -> bool
    ensures { result ≡ is_request (view message.now) }
{
    match message.get("type").and_then(Value::as_str) {
        None => false,
        Some(word) => is_same(word.as_bytes(), b"request"),
    }
}

/// The request that a message with a command is.
///
/// # Errors
///
/// An argument that the request needs is missing or of a wrong type; or out of memory.
pub fn read_request<'a>(
    alloc: Global,
    command: &'a str,
    message: &'a Value,
) -> Result<Request<'a>, RequestFault>
    ensures accepted { IfOk result (λ request. IsRequest command.now (view message.now) request) }
    ensures complete { OnOk result (missing command.now (view message.now) ≡ None) }
    ensures refused { IfErr result (IsRefused command.now (view message.now)) }
{
    let Some(name) = named(command) else {
        return Ok(Request::Unknown(command));
    };
    match name {
        Name::Initialize => Ok(Request::Initialize {
            hears_invalidated: hears_invalidated(message),
        }),
        Name::Launch => read_launch(message),
        Name::SetBreakpoints => read_breakpoints(alloc, message),
        Name::SetFunctionBreakpoints => read_functions(alloc, message),
        Name::BreakpointLocations => read_locations(message),
        Name::GotoTargets => read_targets(message),
        Name::Goto => read_goto(message),
        Name::SetExceptionBreakpoints => Ok(Request::SetExceptionBreakpoints),
        Name::ExceptionInfo => Ok(Request::ExceptionInfo),
        Name::DataBreakpointInfo => read_information(message),
        Name::SetDataBreakpoints => read_watches(alloc, message),
        Name::ConfigurationDone => Ok(Request::ConfigurationDone),
        Name::Threads => Ok(Request::Threads),
        Name::StackTrace => read_stack(message),
        Name::Scopes => read_scopes(message),
        Name::Variables => read_variables(message),
        Name::SetVariable => read_set_variable(message),
        Name::SetExpression => read_set_expression(message),
        Name::Completions => read_completions(message),
        Name::Evaluate => read_evaluate(message),
        Name::Next => Ok(Request::Next),
        Name::StepIn => Ok(Request::StepIn),
        Name::StepOut => Ok(Request::StepOut),
        Name::Continue => Ok(Request::Continue),
        Name::StepBack => Ok(Request::StepBack),
        Name::ReverseContinue => Ok(Request::ReverseContinue),
        Name::Pause => Ok(Request::Pause),
        Name::Restart => Ok(Request::Restart),
        Name::Terminate => Ok(Request::Terminate),
        Name::Disconnect => Ok(Request::Disconnect),
    }
}

/// A launch.
fn read_launch(message: &Value) -> Result<Request<'_>, RequestFault>
    ensures accepted { IfOk result (λ request. IsRequestNamed Name.Launch (view message.now) request) }
    ensures complete { OnOk result (first_missing (needs Name.Launch (view message.now)) ≡ None) }
    ensures refused { IfErr result (IsRefusedNamed Name.Launch (view message.now)) }
{
    let program = needed(text_at(message, "/arguments/program"), "program")?;
    if let Some(argument) = wrong_option(message) {
        return Err(RequestFault::Argument(argument));
    }
    Ok(Request::Launch(Launch {
        program,
        input: text_at(message, "/arguments/input"),
        entry: text_at(message, "/arguments/entry"),
        width: number_at(message, "/arguments/width"),
        history: number_at(message, "/arguments/history"),
        steps: number_at(message, "/arguments/steps"),
        stops_on_entry: flag_at(message, "/arguments/stopOnEntry").unwrap_or(true),
        lane_threads: flag_at(message, "/arguments/laneThreads").unwrap_or(false),
    }))
}

/// The first of the arguments of a launch that may be left out which is there by a wrong type.
fn wrong_option(message: &Value) -> Option<&'static str>
    ensures { text_of result ≡ first_missing (launch_options (view message.now)) }
{
    let threads = is_right_flag(message, "/arguments/laneThreads");
    let wrong = wrong_or(threads, "laneThreads", None);
    let stop = is_right_flag(message, "/arguments/stopOnEntry");
    let wrong = wrong_or(stop, "stopOnEntry", wrong);
    let wrong = wrong_or(is_right_number(message, "/arguments/steps"), "steps", wrong);
    let wrong = wrong_or(
        is_right_number(message, "/arguments/history"),
        "history",
        wrong,
    );
    let wrong = wrong_or(is_right_number(message, "/arguments/width"), "width", wrong);
    let wrong = wrong_or(is_right_text(message, "/arguments/entry"), "entry", wrong);
    wrong_or(is_right_text(message, "/arguments/input"), "input", wrong)
}

/// An argument, where it is of a wrong type; else the first of those behind it that is.
fn wrong_or(
    is_right: bool,
    argument: &'static str,
    behind: Option<&'static str>,
) -> Option<&'static str>
    ensures { text_of result ≡ (if is_right then text_of behind.entry else Some argument.now) }
{
    if is_right { behind } else { Some(argument) }
}

/// Whether a place of a message has a text, or nothing.
fn is_right_text(message: &Value, path: &str) -> bool
    ensures { result ≡ is_right (text_at path.now (view message.now)) (pointer path.now (view message.now)) }
{
    text_at(message, path).is_some() || is_absent(message.pointer(path))
}

/// Whether a place of a message has a number, or nothing.
fn is_right_number(message: &Value, path: &str) -> bool
    ensures { result ≡ is_right (number_at path.now (view message.now)) (pointer path.now (view message.now)) }
{
    number_at(message, path).is_some() || is_absent(message.pointer(path))
}

/// Whether a place of a message has a truth value, or nothing.
fn is_right_flag(message: &Value, path: &str) -> bool
    ensures { result ≡ is_right (flag_at path.now (view message.now)) (pointer path.now (view message.now)) }
{
    flag_at(message, path).is_some() || is_absent(message.pointer(path))
}

/// The breakpoints of a source.
fn read_breakpoints(alloc: Global, message: &Value) -> Result<Request<'_>, RequestFault>
    ensures accepted { IfOk result (λ request. IsRequestNamed Name.SetBreakpoints (view message.now) request) }
    ensures complete { OnOk result (first_missing (needs Name.SetBreakpoints (view message.now)) ≡ None) }
    ensures refused { IfErr result (IsRefusedNamed Name.SetBreakpoints (view message.now)) }
{
    let lines = lines_of(alloc, message)?;
    Ok(Request::SetBreakpoints {
        source: text_at(message, "/arguments/source/path"),
        lines,
    })
}

/// The breakpoints of functions.
fn read_functions(alloc: Global, message: &Value) -> Result<Request<'_>, RequestFault>
    ensures accepted { IfOk result (λ request. IsRequestNamed Name.SetFunctionBreakpoints (view message.now) request) }
    ensures complete { OnOk result (first_missing (needs Name.SetFunctionBreakpoints (view message.now)) ≡ None) }
    ensures refused { IfErr result (IsRefusedNamed Name.SetFunctionBreakpoints (view message.now)) }
{
    let functions = functions_of(alloc, message)?;
    Ok(Request::SetFunctionBreakpoints { functions })
}

/// The lines on which a breakpoint can stand.
fn read_locations(message: &Value) -> Result<Request<'_>, RequestFault>
    ensures accepted { IfOk result (λ request. IsRequestNamed Name.BreakpointLocations (view message.now) request) }
    ensures complete { OnOk result (first_missing (needs Name.BreakpointLocations (view message.now)) ≡ None) }
    ensures refused { IfErr result (IsRefusedNamed Name.BreakpointLocations (view message.now)) }
{
    match line_at(message, "/arguments/line") {
        Some(first) => Ok(Request::BreakpointLocations {
            source: text_at(message, "/arguments/source/path"),
            first,
            last: line_at(message, "/arguments/endLine"),
        }),
        None => Err(RequestFault::Argument("line")),
    }
}

/// The times of a line.
fn read_targets(message: &Value) -> Result<Request<'_>, RequestFault>
    ensures accepted { IfOk result (λ request. IsRequestNamed Name.GotoTargets (view message.now) request) }
    ensures complete { OnOk result (first_missing (needs Name.GotoTargets (view message.now)) ≡ None) }
    ensures refused { IfErr result (IsRefusedNamed Name.GotoTargets (view message.now)) }
{
    match line_at(message, "/arguments/line") {
        Some(line) => Ok(Request::GotoTargets {
            source: text_at(message, "/arguments/source/path"),
            line,
        }),
        None => Err(RequestFault::Argument("line")),
    }
}

/// A time of a line to which the program goes.
fn read_goto(message: &Value) -> Result<Request<'_>, RequestFault>
    ensures accepted { IfOk result (λ request. IsRequestNamed Name.Goto (view message.now) request) }
    ensures complete { OnOk result (first_missing (needs Name.Goto (view message.now)) ≡ None) }
    ensures refused { IfErr result (IsRefusedNamed Name.Goto (view message.now)) }
{
    match time_in(message) {
        Some((line, way)) => Ok(Request::Goto { line, way }),
        None => Err(RequestFault::Argument("targetId")),
    }
}

/// Whether a variable can be watched.
fn read_information(message: &Value) -> Result<Request<'_>, RequestFault>
    ensures accepted { IfOk result (λ request. IsRequestNamed Name.DataBreakpointInfo (view message.now) request) }
    ensures complete { OnOk result (first_missing (needs Name.DataBreakpointInfo (view message.now)) ≡ None) }
    ensures refused { IfErr result (IsRefusedNamed Name.DataBreakpointInfo (view message.now)) }
{
    let name = needed(text_at(message, "/arguments/name"), "name")?;
    if let Some(argument) = wrong_container(message) {
        return Err(RequestFault::Argument(argument));
    }
    Ok(Request::DataBreakpointInfo {
        reference: number_at(message, "/arguments/variablesReference"),
        frame: number_at(message, "/arguments/frameId"),
        name: unmarked(name),
    })
}

/// The first of the arguments for the variables among which something is looked for, or for the frame, which is there by a wrong type.
fn wrong_container(message: &Value) -> Option<&'static str>
    ensures { text_of result ≡ first_missing (container_options (view message.now)) }
{
    let wrong = wrong_frame(message);
    let reference = is_right_number(message, "/arguments/variablesReference");
    wrong_or(reference, "variablesReference", wrong)
}

/// The argument for a frame, where it is there by a wrong type.
fn wrong_frame(message: &Value) -> Option<&'static str>
    ensures { text_of result ≡ first_missing (frame_options (view message.now)) }
{
    let frame = is_right_number(message, "/arguments/frameId");
    wrong_or(frame, "frameId", None)
}

/// The watches.
fn read_watches(alloc: Global, message: &Value) -> Result<Request<'_>, RequestFault>
    ensures accepted { IfOk result (λ request. IsRequestNamed Name.SetDataBreakpoints (view message.now) request) }
    ensures complete { OnOk result (first_missing (needs Name.SetDataBreakpoints (view message.now)) ≡ None) }
    ensures refused { IfErr result (IsRefusedNamed Name.SetDataBreakpoints (view message.now)) }
{
    let targets = watches_of(alloc, message)?;
    Ok(Request::SetDataBreakpoints { targets })
}

/// The variables of a reference.
fn read_variables(message: &Value) -> Result<Request<'_>, RequestFault>
    ensures accepted { IfOk result (λ request. IsRequestNamed Name.Variables (view message.now) request) }
    ensures complete { OnOk result (first_missing (needs Name.Variables (view message.now)) ≡ None) }
    ensures refused { IfErr result (IsRefusedNamed Name.Variables (view message.now)) }
{
    let reference = match number_at(message, "/arguments/variablesReference") {
        Some(reference) => reference,
        None => return Err(RequestFault::Argument("variablesReference")),
    };
    if let Some(argument) = wrong_page(message) {
        return Err(RequestFault::Argument(argument));
    }
    Ok(Request::Variables {
        reference,
        page: page_of(message),
        is_hexadecimal: is_hexadecimal(message),
    })
}

/// The first of the arguments of a page which is there by a wrong type.
fn wrong_page(message: &Value) -> Option<&'static str>
    ensures { text_of result ≡ first_missing (page_options (view message.now)) }
{
    let filter = is_right_text(message, "/arguments/filter");
    let wrong = wrong_or(filter, "filter", None);
    let wrong = wrong_or(is_right_number(message, "/arguments/count"), "count", wrong);
    wrong_or(is_right_number(message, "/arguments/start"), "start", wrong)
}

/// The frames.
fn read_stack(message: &Value) -> Result<Request<'_>, RequestFault>
    ensures accepted { IfOk result (λ request. IsRequestNamed Name.StackTrace (view message.now) request) }
    ensures complete { OnOk result (first_missing (needs Name.StackTrace (view message.now)) ≡ None) }
    ensures refused { IfErr result (IsRefusedNamed Name.StackTrace (view message.now)) }
{
    if let Some(argument) = wrong_stack(message) {
        return Err(RequestFault::Argument(argument));
    }
    Ok(Request::StackTrace {
        thread: number_at(message, "/arguments/threadId"),
        start: number_at(message, "/arguments/startFrame"),
        levels: number_at(message, "/arguments/levels"),
    })
}

/// The first of the arguments for frames which is there by a wrong type.
fn wrong_stack(message: &Value) -> Option<&'static str>
    ensures { text_of result ≡ first_missing (stack_options (view message.now)) }
{
    let levels = is_right_number(message, "/arguments/levels");
    let wrong = wrong_or(levels, "levels", None);
    wrong_or(
        is_right_number(message, "/arguments/startFrame"),
        "startFrame",
        wrong,
    )
}

/// The scopes of a frame.
fn read_scopes(message: &Value) -> Result<Request<'_>, RequestFault>
    ensures accepted { IfOk result (λ request. IsRequestNamed Name.Scopes (view message.now) request) }
    ensures complete { OnOk result (first_missing (needs Name.Scopes (view message.now)) ≡ None) }
    ensures refused { IfErr result (IsRefusedNamed Name.Scopes (view message.now)) }
{
    match number_at(message, "/arguments/frameId") {
        Some(frame) => Ok(Request::Scopes { frame }),
        None => Err(RequestFault::Argument("frameId")),
    }
}

/// A variable that is set.
fn read_set_variable(message: &Value) -> Result<Request<'_>, RequestFault>
    ensures accepted { IfOk result (λ request. IsRequestNamed Name.SetVariable (view message.now) request) }
    ensures complete { OnOk result (first_missing (needs Name.SetVariable (view message.now)) ≡ None) }
    ensures refused { IfErr result (IsRefusedNamed Name.SetVariable (view message.now)) }
{
    let Some(reference) = number_at(message, "/arguments/variablesReference") else {
        return Err(RequestFault::Argument("variablesReference"));
    };
    let name = needed(text_at(message, "/arguments/name"), "name")?;
    let value = needed(text_at(message, "/arguments/value"), "value")?;
    Ok(Request::SetVariable {
        reference,
        name: unmarked(name),
        value: unmarked(value),
        is_hexadecimal: is_hexadecimal(message),
    })
}

/// What an expression names is set.
fn read_set_expression(message: &Value) -> Result<Request<'_>, RequestFault>
    ensures accepted { IfOk result (λ request. IsRequestNamed Name.SetExpression (view message.now) request) }
    ensures complete { OnOk result (first_missing (needs Name.SetExpression (view message.now)) ≡ None) }
    ensures refused { IfErr result (IsRefusedNamed Name.SetExpression (view message.now)) }
{
    let expression = needed(text_at(message, "/arguments/expression"), "expression")?;
    let new = needed(text_at(message, "/arguments/value"), "value")?;
    if let Some(argument) = wrong_frame(message) {
        return Err(RequestFault::Argument(argument));
    }
    Ok(Request::SetExpression {
        expression,
        value: unmarked(new),
        frame: number_at(message, "/arguments/frameId"),
        is_hexadecimal: is_hexadecimal(message),
    })
}

/// The names that can stand in a text.
fn read_completions(message: &Value) -> Result<Request<'_>, RequestFault>
    ensures accepted { IfOk result (λ request. IsRequestNamed Name.Completions (view message.now) request) }
    ensures complete { OnOk result (first_missing (needs Name.Completions (view message.now)) ≡ None) }
    ensures refused { IfErr result (IsRefusedNamed Name.Completions (view message.now)) }
{
    let text = needed(text_at(message, "/arguments/text"), "text")?;
    let Some(column) = number_at(message, "/arguments/column") else {
        return Err(RequestFault::Argument("column"));
    };
    if let Some(argument) = wrong_frame(message) {
        return Err(RequestFault::Argument(argument));
    }
    Ok(Request::Completions {
        text,
        column,
        frame: number_at(message, "/arguments/frameId"),
    })
}

/// An expression that is evaluated.
fn read_evaluate(message: &Value) -> Result<Request<'_>, RequestFault>
    ensures accepted { IfOk result (λ request. IsRequestNamed Name.Evaluate (view message.now) request) }
    ensures complete { OnOk result (first_missing (needs Name.Evaluate (view message.now)) ≡ None) }
    ensures refused { IfErr result (IsRefusedNamed Name.Evaluate (view message.now)) }
{
    let expression = needed(text_at(message, "/arguments/expression"), "expression")?;
    if let Some(argument) = wrong_frame(message) {
        return Err(RequestFault::Argument(argument));
    }
    Ok(Request::Evaluate {
        expression,
        frame: number_at(message, "/arguments/frameId"),
        context: context_of(message),
        is_hexadecimal: is_hexadecimal(message),
    })
}

/// An argument that must be there.
fn needed<'a>(text: Option<&'a str>, argument: &'static str) -> Result<&'a str, RequestFault>
    ensures given { IfOk result (λ given. text_of text.entry ≡ Some given.now) }
    ensures missing { OnErr result (text_of text.entry ≡ None) }
    ensures named { IfErr result (NamesArgument argument.now) }
{
    match text {
        Some(given) => Ok(given),
        None => Err(RequestFault::Argument(argument)),
    }
}
