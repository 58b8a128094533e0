//! The arguments of requests.
ghost use Rattle.std.specs.Prelude.{◌≡◌, IfOk, Some, codes, map, option_map};
ghost use Rattle.serde_json.specs.View.{items_view, view};
ghost use Rattle.adapter_messages.specs.Arguments.{as_counted_line, asked_breakpoint, asked_function, asked_name, asked_option, asked_watch, breakpoint_in, breakpoints_of, condition_in, context_in, each_asked, filter_in, flag_at, function_in, has_log, hears_invalidated_in, hexadecimal_in, is_absent, joined, joined_name, line_at, line_in, log_in, logging, named_in, number_at, page_in, passes_in, text_at, text_of, time_in, time_of, unmarked, watch_in, way_of};

use crate::counts::passes_said;
use adapter_requests::{
    BreakpointFault, Context, DataBreakpoint, Filter, FunctionBreakpoint, LineBreakpoint, Page, Way,
};
use debug_words::is_same;
use serde_json::Value;
use std::alloc::{AllocError, Global};

/// The most bytes of a condition.
const LONGEST_CONDITION: usize = 256;

/// The most bytes of a message.
const LONGEST_MESSAGE: usize = 256;

/// The text at a place of a message, if there is one.
pub(crate) fn text_at<'a>(message: &'a Value, path: &str) -> Option<&'a str>
    ensures { option_map (λ text. text.now) result ≡ text_at path.now (view message.now) }
{
    message.pointer(path).and_then(Value::as_str)
}

/// The number at a place of a message, if there is one.
pub(crate) fn number_at(message: &Value, path: &str) -> Option<u64>
    ensures { result ≡ number_at path.now (view message.now) }
{
    message.pointer(path).and_then(Value::as_u64)
}

/// The line at a place of a message, if there is one.
pub(crate) fn line_at(message: &Value, path: &str) -> Option<u32>
    ensures { result ≡ line_at path.now (view message.now) }
{
    number_at(message, path).and_then(|line| u32::try_from(line).ok())
}

/// The line and the time of it that a message asks for, if it does.
pub(crate) fn time_in(message: &Value) -> Option<(u32, Way)>
    ensures { result ≡ time_in (view message.now) }
{
    number_at(message, "/arguments/targetId").and_then(time_of)
}

/// The line and the time that a number stands for.
fn time_of(number: u64) -> Option<(u32, Way)>
    ensures { result ≡ time_of number }
{
    match u32::try_from(number / 2) {
        Ok(line) => Some((line, way_of(number))),
        Err(_) => None,
    }
}

/// The time of a line that a number stands for.
fn way_of(number: u64) -> Way
    ensures { result ≡ way_of number }
{
    if number % 2 == 0 {
        Way::Forwards
    } else {
        Way::Backwards
    }
}

/// The truth value at a place of a message, if there is one.
pub(crate) fn flag_at(message: &Value, path: &str) -> Option<bool>
    ensures { result ≡ flag_at path.now (view message.now) }
{
    message.pointer(path).and_then(Value::as_bool)
}

/// The breakpoints that a message lists; none where it has no list.
fn breakpoints_of(message: &Value) -> &[Value]
    ensures { items_view result.now ≡ breakpoints_of (view message.now) }
{
    match message
        .pointer("/arguments/breakpoints")
        .and_then(Value::as_array)
    {
        Some(list) => list.as_slice(),
        None => &[],
    }
}

/// The breakpoints that a message lists, each with its line, its condition and its count.
pub(crate) fn lines_of(
    alloc: Global,
    message: &Value,
) -> Result<Vec<Result<LineBreakpoint<'_>, BreakpointFault>>, AllocError>
    ensures { IfOk result (λ lines. map asked_breakpoint lines.items ≡ each_asked breakpoint_in (breakpoints_of (view message.now))) }
{
    let mut lines = Vec::new(alloc);
    for breakpoint in breakpoints_of(message) {
        lines.push(line_breakpoint(breakpoint))?;
    }
    Ok(lines)
}

/// A breakpoint that is asked for, or why it is none.
fn line_breakpoint(breakpoint: &Value) -> Result<LineBreakpoint<'_>, BreakpointFault>
    ensures { asked_breakpoint result ≡ breakpoint_in (view breakpoint.now) }
{
    let line = line_of(breakpoint);
    let asked = joined(line, condition_of(breakpoint), passes_of(breakpoint));
    logging(asked, log_of(breakpoint))
}

/// The line of a breakpoint, if it has one.
fn line_of(breakpoint: &Value) -> Option<u32>
    ensures { result ≡ line_in (view breakpoint.now) }
{
    let line = breakpoint.get("line").and_then(Value::as_u64);
    line.and_then(counted_line)
}

/// A number as a line, which count from 1.
fn counted_line(number: u64) -> Option<u32>
    ensures { result ≡ as_counted_line number }
{
    if number == 0 {
        return None;
    }
    u32::try_from(number).ok()
}

/// The first of three that is wrong, or the breakpoint that they are.
fn joined(
    line: Option<u32>,
    condition: Result<Option<&str>, BreakpointFault>,
    passes: Result<u32, BreakpointFault>,
) -> Result<LineBreakpoint<'_>, BreakpointFault>
    ensures { asked_breakpoint result ≡ joined line (asked_option condition.entry) passes }
{
    match (line, condition, passes) {
        (None, _, _) => Err(BreakpointFault::Unplaced),
        (Some(_), Err(fault), _) | (Some(_), Ok(_), Err(fault)) => Err(fault),
        (Some(line), Ok(condition), Ok(passes)) => Ok(LineBreakpoint {
            line,
            condition,
            passes,
            log: None,
        }),
    }
}

/// A breakpoint with its message, or what is wrong with either.
fn logging<'a>(
    asked: Result<LineBreakpoint<'a>, BreakpointFault>,
    log: Result<Option<&'a str>, BreakpointFault>,
) -> Result<LineBreakpoint<'a>, BreakpointFault>
    ensures { asked_breakpoint result ≡ logging (asked_breakpoint asked.entry) (asked_option log.entry) }
{
    match (asked, log) {
        (Err(fault), _) | (Ok(_), Err(fault)) => Err(fault),
        (Ok(asked), Ok(log)) => Ok(LineBreakpoint {
            line: asked.line,
            condition: asked.condition,
            passes: asked.passes,
            log,
        }),
    }
}

/// The message that a breakpoint writes in place of stopping, if it does.
fn log_of(breakpoint: &Value) -> Result<Option<&str>, BreakpointFault>
    ensures { asked_option result ≡ log_in (view breakpoint.now) }
{
    let given = breakpoint.get("logMessage");
    if is_absent(given) {
        return Ok(None);
    }
    match given.and_then(Value::as_str) {
        Some(text) if text.is_empty() => Ok(None),
        Some(text) if text.len() <= LONGEST_MESSAGE => Ok(Some(text)),
        _ => Err(BreakpointFault::NoMessage),
    }
}

/// The condition of a breakpoint, if it has one; an empty one is none.
fn condition_of(breakpoint: &Value) -> Result<Option<&str>, BreakpointFault>
    ensures { asked_option result ≡ condition_in (view breakpoint.now) }
{
    let given = breakpoint.get("condition");
    if is_absent(given) {
        return Ok(None);
    }
    match given.and_then(Value::as_str) {
        Some(condition) if condition.is_empty() => Ok(None),
        Some(condition) if condition.len() <= LONGEST_CONDITION => Ok(Some(condition)),
        _ => Err(BreakpointFault::NoCondition),
    }
}

/// How many stops of a breakpoint are passed before it stops.
fn passes_of(breakpoint: &Value) -> Result<u32, BreakpointFault>
    ensures { result ≡ passes_in (view breakpoint.now) }
{
    let given = breakpoint.get("hitCondition");
    if is_absent(given) {
        return Ok(0);
    }
    match given.and_then(Value::as_str) {
        None => Err(BreakpointFault::NoCount),
        Some(text) => passes_said(text),
    }
}

/// What is asked for by a text: a breakpoint of a function, or a watch.
#[derive(Clone, Copy)]
struct Named<'a> {
    name: &'a str,
    condition: Option<&'a str>,
    passes: u32,
}

/// The breakpoints of functions that a message lists, each with its name, its condition and its count.
pub(crate) fn functions_of(
    alloc: Global,
    message: &Value,
) -> Result<Vec<Result<FunctionBreakpoint<'_>, BreakpointFault>>, AllocError>
    ensures { IfOk result (λ functions. map asked_function functions.items ≡ each_asked function_in (breakpoints_of (view message.now))) }
{
    let mut functions = Vec::new(alloc);
    for breakpoint in breakpoints_of(message) {
        functions.push(function_breakpoint(breakpoint))?;
    }
    Ok(functions)
}

/// A breakpoint of a function, or why it is none.
fn function_breakpoint(breakpoint: &Value) -> Result<FunctionBreakpoint<'_>, BreakpointFault>
    ensures { asked_function result ≡ function_in (view breakpoint.now) }
{
    let asked = named_of(breakpoint, "name")?;
    Ok(FunctionBreakpoint {
        name: asked.name,
        condition: asked.condition,
        passes: asked.passes,
    })
}

/// The watches that a message lists, each with its target, its condition and its count.
pub(crate) fn watches_of(
    alloc: Global,
    message: &Value,
) -> Result<Vec<Result<DataBreakpoint<'_>, BreakpointFault>>, AllocError>
    ensures { IfOk result (λ watches. map asked_watch watches.items ≡ each_asked watch_in (breakpoints_of (view message.now))) }
{
    let mut watches = Vec::new(alloc);
    for watch in breakpoints_of(message) {
        watches.push(data_breakpoint(watch))?;
    }
    Ok(watches)
}

/// A watch, or why it is none.
fn data_breakpoint(watch: &Value) -> Result<DataBreakpoint<'_>, BreakpointFault>
    ensures { asked_watch result ≡ watch_in (view watch.now) }
{
    let asked = named_of(watch, "dataId")?;
    Ok(DataBreakpoint {
        target: asked.name,
        condition: asked.condition,
        passes: asked.passes,
    })
}

/// What is asked for by the text of a member, which writes no message.
fn named_of<'a>(breakpoint: &'a Value, member: &str) -> Result<Named<'a>, BreakpointFault>
    ensures { asked_name result ≡ named_in member.now (view breakpoint.now) }
{
    if has_log(breakpoint) {
        return Err(BreakpointFault::Logging);
    }
    let name = breakpoint.get(member).and_then(Value::as_str);
    joined_name(name, condition_of(breakpoint), passes_of(breakpoint))
}

/// The first of three that is wrong, or what they ask for.
fn joined_name<'a>(
    name: Option<&'a str>,
    condition: Result<Option<&'a str>, BreakpointFault>,
    passes: Result<u32, BreakpointFault>,
) -> Result<Named<'a>, BreakpointFault>
    ensures { asked_name result ≡ joined_name (text_of name.entry) (asked_option condition.entry) passes }
{
    match (name, condition, passes) {
        (None, _, _) => Err(BreakpointFault::Unplaced),
        (Some(_), Err(fault), _) | (Some(_), Ok(_), Err(fault)) => Err(fault),
        (Some(name), Ok(condition), Ok(passes)) => Ok(Named {
            name,
            condition,
            passes,
        }),
    }
}

/// Whether it is to write a message.
fn has_log(breakpoint: &Value) -> bool
    ensures { result ≡ has_log (view breakpoint.now) }
{
    !is_absent(breakpoint.get("logMessage"))
}

/// Whether a value is not there, or is `null`.
pub(crate) fn is_absent(value: Option<&Value>) -> bool
    ensures { result ≡ is_absent (option_map (λ v. view v.now) value.entry) }
{
    match value {
        None => true,
        Some(value) => value.is_null(),
    }
}

/// Whether an editor wants to hear that values have changed though the program stood still.
pub(crate) fn hears_invalidated(message: &Value) -> bool
    ensures { result ≡ hears_invalidated_in (view message.now) }
{
    flag_at(message, "/arguments/supportsInvalidatedEvent").unwrap_or(false)
}

/// Whether a message asks for values as hexadecimal numbers.
pub(crate) fn is_hexadecimal(message: &Value) -> bool
    ensures { result ≡ hexadecimal_in (view message.now) }
{
    flag_at(message, "/arguments/format/hex").unwrap_or(false)
}

/// Where an expression stands that a message asks for.
pub(crate) fn context_of(message: &Value) -> Context
    ensures { result ≡ context_in (text_at (codes "/arguments/context") (view message.now)) }
{
    match text_at(message, "/arguments/context") {
        None => Context::Watch,
        Some(word) => context_named(word),
    }
}

/// Where an expression stands, by the word for it.
fn context_named(word: &str) -> Context
    ensures { result ≡ context_in (Some word.now) }
{
    if is_same(word.as_bytes(), b"repl") {
        Context::Console
    } else if is_same(word.as_bytes(), b"hover") {
        Context::Hover
    } else {
        Context::Watch
    }
}

/// Which of the children a message asks for.
pub(crate) fn page_of(message: &Value) -> Page
    ensures { result ≡ page_in (view message.now) }
{
    Page {
        start: number_at(message, "/arguments/start"),
        count: number_at(message, "/arguments/count"),
        filter: filter_of(message),
    }
}

/// Which kind of children a message asks for.
fn filter_of(message: &Value) -> Filter
    ensures { result ≡ filter_in (text_at (codes "/arguments/filter") (view message.now)) }
{
    match text_at(message, "/arguments/filter") {
        None => Filter::All,
        Some(word) => filter_named(word),
    }
}

/// The kind of children that a word asks for.
fn filter_named(word: &str) -> Filter
    ensures { result ≡ filter_in (Some word.now) }
{
    if is_same(word.as_bytes(), b"named") {
        Filter::Named
    } else if is_same(word.as_bytes(), b"indexed") {
        Filter::Indexed
    } else {
        Filter::All
    }
}

/// What is behind the name and the value of a lane that is not active.
pub(crate) const MARK: &str = " (waits)";

/// A name or a value without the mark.
pub(crate) fn unmarked(text: &str) -> &str
    ensures { result.now ≡ unmarked text.now }
{
    match text.strip_suffix(MARK) {
        Some(front) => front,
        None => text,
    }
}
